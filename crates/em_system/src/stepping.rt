//! A step of the selected task: its instruction, or the call or the fault that it comes to.
ghost use Rattle.std.specs.Prelude.{◌≡◌, ◌≢◌, ℕ, ◌+◌, ◌<◌, ◌^◌, List, All, length, Option, None, Some};
ghost use Rattle.em_base.specs.declared.ids.SemId.{SemId as Semaphore};
ghost use Rattle.em_base.specs.Selection.{selected};
ghost use Rattle.em_hart.specs.declared.answers.Class.{Class as InstructionClass};
ghost use Rattle.em_gate.specs.Effects.{after_outcome};
ghost use Rattle.em_gate.specs.Outcome.{outcome};
ghost use Rattle.em_gate.specs.Selecting.{plain_selected};
ghost use Rattle.em_gate.specs.State.{Plain};
ghost use Rattle.em_system.specs.declared.stepping.Transfer.{Transfer as Requested};
ghost use Rattle.em_system.specs.Asked.{IsGranted, after_asking, taken_of};
ghost use Rattle.em_system.specs.Held.{Holds, promises_of, selected_of, tasks_of};
ghost use Rattle.em_system.specs.Promises.{promises_after};
ghost use Rattle.em_system.specs.Sound.{IsSound};
ghost use Rattle.em_system.specs.Windows.{core_in};

use crate::system::System;
use em_base::{MsgId, TaskId};
use em_hart::{Class, Stepped};
use em_ports::{Ports, Seen};
use em_trace::Line;

/// What a task asks of a message, by a call that isn't refused.
#[derive(Clone, Copy, Debug, PartialEq, Eq)]
pub enum Transfer {
    /// To write it: its words stand in the own window from an address on.
    Write {
        /// The message.
        msg: MsgId,
        /// The address of the first word, in bytes.
        at: u32,
    },
    /// To read it: its words go to the own window from an address on.
    Read {
        /// The message.
        msg: MsgId,
        /// The address of the first word, in bytes.
        at: u32,
    },
}

/// What a step of a task came to.
#[derive(Clone, Copy, Debug)]
pub enum Taken {
    /// An instruction of this class was carried out.
    Ran(Class),
    /// A call was carried out or refused, with the line that it gives.
    Called(Option<Line>),
    /// The task is stopped by a fault, with its line.
    Faulted(Line),
    /// A message is to be written or read. Nothing has changed yet.
    Asks(Transfer),
}

impl<'a> System<'a> {
    /// The selected task takes a step: an instruction, or the call or the fault that its instruction comes to. A call that asks
    /// for a message to be written or read, and isn't refused, is left to the caller.
    pub fn step(&mut self, t: TaskId, ports: &mut Ports) -> Taken
        requires selected { selected_of self.old ≡ Some t.0 }
        requires sound { (n : ℕ) × (n < 2 ^ 63) × All (IsSound n) (tasks_of self.old.threads) }
        ensures step { let seen = ⟦<Ports as Seen>⟧.seen_as in
            (p : Plain) (promises : List (Option Semaphore)) → Holds self.old p promises
            → seen ports.old ≡ p.ports
            → let app = self.old.app in let o = outcome app.table app.image.words t.0 p in
            Holds self.new (after_asking o t p) (promises_after app o t.0 p promises)
            × (seen ports.new ≡ (after_asking o t p).ports) × (result ≡ taken_of o t p) }
        ensures app { self.new.app ≡ self.old.app }

        // The tasks stay sound, for one job more.
        ensures sound { (n : ℕ) → All (IsSound n) (tasks_of self.old.threads)
            → All (IsSound (n + 1)) (tasks_of self.new.threads) }

        // After an instruction the task is still the selected one.
        ensures same { (class : InstructionClass) → result ≡ Taken.Ran class
            → selected_of self.new ≡ selected_of self.old }
        ensures plain { (p : Plain) (promises : List (Option Semaphore)) (class : InstructionClass)
            → Holds self.old p promises → result ≡ Taken.Ran class
            → let app = self.old.app in let o = outcome app.table app.image.words t.0 p in
            plain_selected app.table.tasks (after_outcome o t p) ≡ plain_selected app.table.tasks p }

        // A message that is asked for is one that the task may write or read so, and nothing has changed.
        ensures granted { (transfer : Requested) → result ≡ Taken.Asks transfer
            → IsGranted self.old.app.table t.0 transfer }
        ensures asks { (transfer : Requested) → result ≡ Taken.Asks transfer → self.new ≡ self.old }

        // The own windows of other tasks stay as they are.
        ensures others { (u : ℕ) → u ≢ t.0
            → (core_in self.new.threads u).own ≡ (core_in self.old.threads u).own }
    {
        match self.carry_out(t) {
            Stepped::Ran(class) => Taken::Ran(class),
            Stepped::Call => self.call(t, ports),
            Stepped::Fault(cause) => Taken::Faulted(self.fault(t, cause)),
        }
    }
}
