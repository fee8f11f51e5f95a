//! The machine of a plain run: what it has, and how far it goes.
ghost use Rattle.std.specs.Prelude.{◌≡◌, ◌<◌, ◌≤◌, ◌+◌, ◌-◌, ◌^◌, ℕ, [], All, length, Some, IfOk, OnOk};
ghost use Rattle.em_base.specs.Apps.{IsApp};
ghost use Rattle.em_ports.specs.Ports.{Places};
ghost use Rattle.em_gate.specs.Boot.{boot};
ghost use Rattle.em_gate.specs.Effects.{after_step};
ghost use Rattle.em_gate.specs.Events.{after_event};
ghost use Rattle.em_gate.specs.State.{Plain};
ghost use Rattle.em_system.specs.Held.{tasks_of};
ghost use Rattle.em_system.specs.Possible.{IsPossible};
ghost use Rattle.em_system.specs.Sound.{IsSound};
ghost use Rattle.em_plain.specs.Reached.{HasGone, HasTaken, IsAt};
ghost use Rattle.em_plain.specs.Runs as spec;
ghost use Rattle.em_plain.specs.Runs.{Went};

use crate::answering::carry_out;
use crate::board::Boards;
use em_base::{App, Event, Items, NoMemory, TaskId};
use em_ports::{Ports, Seen};
use em_system::{System, Taken, put_line};
use em_trace::Line;
use std::alloc::Global;
use std::marker::Model;

/// The most lines of a trace.
const MOST_LINES: usize = 1_000_000;

/// Why a plain run goes no further.
#[derive(Clone, Copy, Debug, PartialEq, Eq)]
pub enum Halt {
    /// The trace has as many lines as there may be.
    Full,
    /// A step is asked, and no task is selected.
    Misfit,
    /// Memory could not be had.
    NoMemory,
}

impl From<NoMemory> for Halt {
    ghost use Rattle.std.specs.Prelude.{◌≡◌};
    ghost use Rattle.em_plain.specs.declared.machine.Halt.TheVariants.{NoMemory as OutOfMemory};

    ghost from_gives = { λ _ halt. halt ≡ OutOfMemory };

    fn from(_error: NoMemory) -> Halt {
        Halt::NoMemory
    }
}

/// The machine of a plain run.
#[derive(Drop)]
pub struct Machine<'a> {
    system: System<'a>,
    /// The selected task.
    selected: Option<TaskId>,
    boards: Boards,
    lines: Items<Line>,
    /// How many steps were taken.
    count: u64,
}

impl<'a> Model for Machine<'a> {
    ghost use Rattle.std.specs.Prelude.{◌≡◌};
    ghost use Rattle.em_system.specs.Held.{selected_of};
    ghost use Rattle.em_system.specs.Standings.{number_of};
    ghost use Rattle.em_plain.specs.Boards.{AreReady};
    ghost use Rattle.em_plain.specs.Reached.{Reached};

    ghost Value = { Reached };

    ghost view = { λ a. record {
      held = a.system;
      selected = a.selected;
      boards = a.boards;
      lines = a.lines;
      count = a.count;
    } };

    ghost invariant = { λ a. (number_of a.selected ≡ selected_of a.system)
        × AreReady a.system.app.table a.count a.boards };
}

impl<'a> Machine<'a> {
    /// The machine of an application before anything has happened.
    pub fn boot(alloc: Global, app: &'a App) -> Result<Machine<'a>, NoMemory>
        requires app { IsApp app.now }
        requires hints { app.now.hints.hints ≡ [] }
        ensures at { (places : Places)
            → IfOk result (λ machine. IsAt machine places (boot app.now places)) }
        ensures app { IfOk result (λ machine. machine.held.app ≡ app.now) }
        ensures count { IfOk result (λ machine. machine.count ≡ 0) }
        ensures sound { IfOk result (λ machine. All (IsSound 0) (tasks_of machine.held.threads)) }
    {
        let mut system = System::boot(alloc, app)?;
        let selected = system.select();
        let boards = Boards::new(alloc, app)?;
        Ok(Machine {
            system,
            selected,
            boards,
            lines: Items::new(alloc),
            count: 0,
        })
    }

    /// How many steps were taken.
    pub fn count(&self) -> u64
        ensures { result ≡ self.now.count }
    {
        self.count
    }

    /// The lines of the trace.
    pub fn into_lines(self) -> Items<Line>
        ensures { result ≡ self.entry.lines }
    {
        self.lines
    }

    /// Whether the trace has as many lines as there may be.
    fn is_full(&self) -> bool
        ensures { (p : Plain) (places : Places) → IsAt self.now places p → result ≡ spec.is_full p }
    {
        self.lines.as_slice().len() >= MOST_LINES
    }

    /// The selected task takes a step.
    fn step(&mut self, alloc: Global, t: TaskId, ports: &mut Ports) -> Result<(), NoMemory>
        requires selected { self.old.selected ≡ Some t }
        requires early { self.old.count < 2 ^ 63 }
        requires sound { (n : ℕ) × (n < 2 ^ 63) × All (IsSound n) (tasks_of self.old.held.threads) }
        ensures step { let seen = ⟦<Ports as Seen>⟧.seen_as in
            (p : Plain) → IsAt self.old (seen ports.old) p
            → let app = self.old.held.app in let after = after_step app.table app.image.words t p in
            OnOk result (IsAt self.new (seen ports.new) after) × (seen ports.new ≡ after.ports) }
        ensures count { self.new.count ≡ self.old.count + 1 }
        ensures app { self.new.held.app ≡ self.old.held.app }
        ensures sound { (n : ℕ) → All (IsSound n) (tasks_of self.old.held.threads)
            → All (IsSound (n + 1)) (tasks_of self.new.held.threads) }
    {
        // Counted first, so that nothing is written between the step and the look at what it was: the line is loaded where there is
        // one alone.
        self.count += 1;
        match self.system.step(t, ports) {
            // After an instruction the same task is selected, and there is no line.
            Taken::Ran(_) => Ok(()),
            taken => {
                let line = carry_out(&mut self.system, &mut self.boards, t, taken);
                self.selected = self.system.select();
                put_line(alloc, &mut self.lines, &line)
            }
        }
    }

    /// An event comes, unless the trace is full.
    pub fn take(&mut self, alloc: Global, event: Event, ports: &mut Ports) -> Result<(), Halt>
        requires possible { IsPossible (length self.old.held.app.table.tasks) event }
        requires sound { (n : ℕ) × (n < 2 ^ 63) × All (IsSound n) (tasks_of self.old.held.threads) }
        ensures take { let seen = ⟦<Ports as Seen>⟧.seen_as in
            (p : Plain) → IsAt self.old (seen ports.old) p
            → HasTaken event p result self.new (seen ports.new) }
        ensures count { self.new.count ≡ self.old.count }
        ensures app { self.new.held.app ≡ self.old.held.app }
        ensures sound { (n : ℕ) → All (IsSound n) (tasks_of self.old.held.threads)
            → All (IsSound (n + 1)) (tasks_of self.new.held.threads) }
    {
        if self.is_full() {
            return Err(Halt::Full);
        }
        let line = self.system.happen(event, ports);
        self.selected = self.system.select();
        Ok(put_line(alloc, &mut self.lines, &line)?)
    }

    /// The machine goes on until so many steps were taken.
    pub fn advance(&mut self, alloc: Global, count: u64, ports: &mut Ports) -> Result<(), Halt>
        requires sound { let tasks = tasks_of self.old.held.threads in
            (n : ℕ) × (n + count < 2 ^ 63) × All (IsSound n) tasks }
        ensures advance { let seen = ⟦<Ports as Seen>⟧.seen_as in
            (p : Plain) → IsAt self.old (seen ports.old) p
            → let app = self.old.held.app in let before = self.old.count in
            let went : ℕ → Went = λ k. spec.steps_before app count k p before in
            let whole = spec.steps app (count - before) p before in
            HasGone went whole result self.new (seen ports.new) }
        ensures count { OnOk result (self.new.count ≡ self.old.count + (count - self.old.count)) }
        ensures app { self.new.held.app ≡ self.old.held.app }
        ensures sound { (n : ℕ) → All (IsSound n) (tasks_of self.old.held.threads)
            → All (IsSound (n + (count - self.old.count))) (tasks_of self.new.held.threads) }
    {
        while self.count < count {
            if self.is_full() {
                return Err(Halt::Full);
            }
            let Some(t) = self.selected else {
                return Err(Halt::Misfit);
            };
            self.step(alloc, t, ports)?;
        }
        Ok(())
    }
}
