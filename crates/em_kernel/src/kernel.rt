//! The kernel: it delivers events, runs the selected task and counts the clock, one step at a time.
ghost use Rattle.std.specs.Prelude.{◌≡◌, ◌≢◌, ℕ, ◌+◌, ◌-◌, ◌<◌, ◌≤◌, ◌^◌, List, [], ◌∷◌, All, drop, length, Option, Some, None, IfOk, false, true, if◌then◌else◌};
ghost use Rattle.em_base.specs.declared.events.Timed.{Timed as TimedEvent};
ghost use Rattle.em_base.specs.declared.ids.TaskId.{TaskId as Task};
ghost use Rattle.em_gate.specs.Calls.{writes};
ghost use Rattle.em_gate.specs.State.{Reads, Value, Writes};
ghost use Rattle.em_state.specs.Buffers.{StandsFor, word_of};
ghost use Rattle.em_system.specs.Asked.{IsInside};
ghost use Rattle.em_system.specs.Held.{tasks_of};
ghost use Rattle.em_system.specs.Sound.{IsSound};
ghost use Rattle.em_system.specs.Standings.{number_of};
ghost use Rattle.em_kernel.specs.declared.did.What.{What as Happened};
ghost use Rattle.em_kernel.specs.Kept.{buffer_at};
ghost use Rattle.em_kernel.specs.Kernels.{AreCheap};
ghost use Rattle.em_kernel.specs.Metered.{did_of, metered, told};
ghost use Rattle.em_kernel.specs.Moves.{Move, copy_at, next_word, put_move};
ghost use Rattle.em_base.specs.Apps.{IsApp};
ghost use Rattle.em_ports.specs.Ports.{Places};
ghost use Rattle.em_gate.specs.State.{Counted};
ghost use Rattle.em_system.specs.Held.{selected_of};
ghost use Rattle.em_kernel.specs.Kept.{Stands, held_by, kept_fuel};
ghost use Rattle.em_kernel.specs.Run.{counted_boot, is_end};
ghost use Rattle.em_kernel.specs.Step as spec;

use crate::copies::{
    Copying, begin_write, copy_under_way, has_more, newest, noted_word, publish, put_word, set_copy,
};
use crate::did::{Did, End, StepKind, What};
use crate::meter::Meter;
use em_base::{Charges, Event, MsgId, Steps, TaskId, Timed};
use em_hart::Class;
use em_ports::{Ports, Seen};
use em_state::StateBuf;
use em_system::{System, Taken, Transfer};
use em_trace::Line;
use std::marker::Model;
use std::sync::ledger::Ledger;

/// The most lines of a trace.
const MOST_LINES: u64 = 1_000_000;

/// What a copied word costs, in cycles.
const WORD_CHARGE: u64 = 2;

/// The kernel of an application. Contracts see what it keeps: the application, the tasks, the owners of the semaphores, the
/// shared window, the buffers of the messages, the copies that are under way, the events left, the clock, the task that ran last,
/// and the numbers of lines and of switches. The ports are handed in at each step.
#[derive(Drop)]
pub struct Kernel<'a> {
    pub(crate) system: System<'a>,
    pub(crate) charges: Charges,
    /// All events, in order.
    pub(crate) events: Vec<Timed>,
    /// How many events were delivered.
    pub(crate) at: usize,
    pub(crate) meter: Meter,
    /// The buffer of each message.
    pub(crate) buffers: Vec<StateBuf>,
    /// The copy of each task that has one under way.
    pub(crate) copies: Vec<Option<Copying>>,
}

impl<'a> Model for Kernel<'a> {
    ghost use Rattle.std.specs.Prelude.{drop};
    ghost use Rattle.em_kernel.specs.Copyings.{copies_of};
    ghost use Rattle.em_kernel.specs.Kept.{Kept};
    ghost use Rattle.em_kernel.specs.Buffers.{AreBuffers};
    ghost use Rattle.em_kernel.specs.Kernels.{IsKernel};

    ghost Value = { Kept };

    ghost view = { λ k. record {
      app = k.system.app;
      threads = k.system.threads;
      owners = k.system.owners;
      shared = k.system.shared;
      buffers = k.buffers.items;
      copies = copies_of k.copies.items;
      left = drop k.at k.events.items;
      clock = k.meter.clock;
      current = k.meter.current;
      count = k.meter.count;
      switches = k.meter.switches;
    } };

    ghost invariant = { λ k. IsKernel k.system k.charges k.events.items k.at k.meter
        × AreBuffers k.system k.buffers.items (copies_of k.copies.items) k.meter.count };
}

/// What an instruction costs, in cycles.
fn class_charge(class: Class) -> u64
    ensures charge { result ≡ spec.class_charge class }
    ensures some { 1 ≤ result }
    ensures within { result ≤ 2 }
{
    match class {
        Class::Plain => 1,
        Class::Memory => 2,
    }
}

impl<'a> Kernel<'a> {
    /// The number of steps since the boot that had a switch charge.
    pub fn switches(&self) -> u64
        ensures { result ≡ self.now.switches }
    {
        self.meter.switches
    }

    /// One step of the machine on its ports. The run ends where the clock has reached the horizon, or where the trace has as many
    /// lines as there may be; else the next event is delivered, if it is due; else the selected task takes a step; else the
    /// clock goes on to the next event; else the run ends. After an end each call answers the same and changes nothing.
    pub fn step<L: Ledger>(&mut self, ports: &mut Ports, steps: &mut Steps<L>) -> Did
        ensures step { let seen = ⟦<Ports as Seen>⟧.seen_as in
            (c : Counted) → Stands self.old (seen ports.old) c → let step = spec.step self.old.app c in
            Stands self.new (seen ports.new) step.state × (result ≡ step.did) }
        ensures app { self.new.app ≡ self.old.app }
        ensures switches { self.new.switches
            ≡ (if result.switched then self.old.switches + 1 else self.old.switches) }

        // Each step but the last raises the clock or takes an event.
        ensures falls { is_end result.what ≡ false → kept_fuel self.new < kept_fuel self.old }

        // No queue is visited.
        ensures steps { steps.new ≡ steps.old }
    {
        if self.meter.clock >= u64::from(self.system.app().table.horizon) {
            return self.end(End::Horizon);
        }
        if self.meter.count >= MOST_LINES {
            return self.end(End::Lines);
        }
        if let Some(event) = self.due() {
            return self.deliver(event, ports);
        }
        match self.meter.selected {
            Some(t) => self.run(t, ports),
            None => self.wait(),
        }
    }

    /// The next event, where it is due.
    fn due(&self) -> Option<Event>
        ensures { result ≡ spec.due self.now.clock self.now.left }
    {
        let next = self.events.get(self.at)?;
        if next.time <= self.meter.clock {
            Some(next.event)
        } else {
            None
        }
    }

    /// The run ends.
    fn end(&self, cause: End) -> Did
        ensures did { (c : Counted) (places : Places) → Stands self.now places c
            → result ≡ (spec.ended c cause).did }
        ensures last { is_end result.what ≡ true }
        ensures switched { result.switched ≡ false }
    {
        Did {
            what: What::Ended(cause),
            line: None,
            cost: 0,
            clock: self.meter.clock,
            switched: false,
        }
    }

    /// No task is selected and no event is due: the clock goes on to the next event, or the run ends.
    fn wait(&mut self) -> Did
        requires early { self.old.clock < self.old.app.table.horizon }
        requires later { (event : TimedEvent) (rest : List TimedEvent)
            → self.old.left ≡ event ∷ rest → self.old.clock < event.time }
        ensures step { (c : Counted) (places : Places) → Stands self.old places c
            → Stands self.new places (spec.waited c c.left).state × (result ≡ (spec.waited c c.left).did) }
        ensures app { self.new.app ≡ self.old.app }
        ensures switches { self.new.switches ≡ self.old.switches }
        ensures falls { is_end result.what ≡ false → kept_fuel self.new < kept_fuel self.old }
        ensures same { result.switched ≡ false }
    {
        if self.at >= self.events.len() {
            return self.end(End::Quiet);
        }
        self.meter.clock = self.events[self.at].time;
        Did {
            what: What::Idled,
            line: None,
            cost: 0,
            clock: self.meter.clock,
            switched: false,
        }
    }

    /// The next event, which is due, is delivered.
    fn deliver(&mut self, event: Event, ports: &mut Ports) -> Did
        requires next { (timed : TimedEvent) × (rest : List TimedEvent)
            × (self.old.left ≡ timed ∷ rest) × (timed.event ≡ event) }
        requires early { self.old.clock < self.old.app.table.horizon }
        requires short { self.old.count < 1000000 }
        ensures step { let seen = ⟦<Ports as Seen>⟧.seen_as in
            (c : Counted) (rest : List TimedEvent) → Stands self.old (seen ports.old) c
            → rest ≡ drop 1 self.old.left → let step = spec.delivered self.old.app c event rest in
            Stands self.new (seen ports.new) step.state × (result ≡ step.did) }
        ensures app { self.new.app ≡ self.old.app }
        ensures switches { self.new.switches
            ≡ (if result.switched then self.old.switches + 1 else self.old.switches) }
        ensures falls { kept_fuel self.new < kept_fuel self.old }
    {
        let line = self.system.happen(event, ports);
        let cost = event_charge(&self.charges, event);
        let selected = self.system.select();
        let (cost, switched) = self
            .meter
            .settle(selected, &line, cost, self.charges.switch);
        self.at += 1;
        Did {
            what: What::Delivered(event),
            line,
            cost,
            clock: self.meter.clock,
            switched,
        }
    }

    /// The selected task takes a step: the next word of its copy, where it has one under way; else an instruction, a call or a
    /// fault.
    fn run(&mut self, t: TaskId, ports: &mut Ports) -> Did
        requires selected { selected_of (held_by self.old) ≡ Some t.0 }
        requires early { self.old.clock < self.old.app.table.horizon }
        requires short { self.old.count < 1000000 }
        ensures step { let seen = ⟦<Ports as Seen>⟧.seen_as in
            (c : Counted) → Stands self.old (seen ports.old) c → let step = spec.ran self.old.app c t in
            Stands self.new (seen ports.new) step.state × (result ≡ step.did) }
        ensures app { self.new.app ≡ self.old.app }
        ensures switches { self.new.switches
            ≡ (if result.switched then self.old.switches + 1 else self.old.switches) }
        ensures falls { is_end result.what ≡ false → kept_fuel self.new < kept_fuel self.old }
    {
        match copy_under_way(&self.copies, t) {
            Some(Copying::Write { msg, at, done }) => self.take_word(t, msg, at, done),
            Some(
                Copying::Read {
                    msg,
                    at,
                    noted,
                    done,
                },
            ) => self.give_word(t, msg, at, noted, done),
            None => self.act(t, ports),
        }
    }

    /// The selected task, which has no copy under way, takes a step.
    fn act(&mut self, t: TaskId, ports: &mut Ports) -> Did
        requires selected { selected_of (held_by self.old) ≡ Some t.0 }
        requires early { self.old.clock < self.old.app.table.horizon }
        requires short { self.old.count < 1000000 }
        requires none { copy_at self.old.copies t.0 ≡ None }
        ensures step { let seen = ⟦<Ports as Seen>⟧.seen_as in
            (c : Counted) → Stands self.old (seen ports.old) c → let step = spec.ran self.old.app c t in
            Stands self.new (seen ports.new) step.state × (result ≡ step.did) }
        ensures app { self.new.app ≡ self.old.app }
        ensures switches { self.new.switches
            ≡ (if result.switched then self.old.switches + 1 else self.old.switches) }
        ensures falls { kept_fuel self.new < kept_fuel self.old }
    {
        match self.system.step(t, ports) {
            // After an instruction the same task is selected, and there is no line.
            Taken::Ran(class) => {
                let cost = class_charge(class);
                self.meter.pass(&None, cost);
                did(t, StepKind::Instr, None, cost, self.meter.clock)
            }
            Taken::Called(line) => {
                let what = What::Stepped(t, StepKind::Call);
                settle(&mut self.system, &mut self.meter, self.charges, what, line)
            }
            Taken::Faulted(line) => {
                let what = What::Stepped(t, StepKind::Fault);
                settle(
                    &mut self.system,
                    &mut self.meter,
                    self.charges,
                    what,
                    Some(line),
                )
            }
            Taken::Asks(Transfer::Write { msg, at }) => self.begin_write(t, msg, at),
            Taken::Asks(Transfer::Read { msg, at }) => self.begin_read(t, msg, at),
        }
    }

    /// A task begins to write a message.
    fn begin_write(&mut self, t: TaskId, msg: MsgId, at: u32) -> Did
        requires selected { selected_of (held_by self.old) ≡ Some t.0 }
        requires early { self.old.clock < self.old.app.table.horizon }
        requires short { self.old.count < 1000000 }
        requires none { copy_at self.old.copies t.0 ≡ None }
        requires inside { IsInside self.old.app.table msg.0 at }
        requires writes { writes self.old.app.table t.0 msg.0 ≡ true }
        ensures step { (places : Places) (c : Counted) → Stands self.old places c
            → let step = spec.stepped self.old.app c t (Move.StartsWrite msg at) in
            Stands self.new places step.state × (result ≡ step.did) }
        ensures app { self.new.app ≡ self.old.app }
        ensures switches { self.new.switches
            ≡ (if result.switched then self.old.switches + 1 else self.old.switches) }
        ensures falls { kept_fuel self.new < kept_fuel self.old }
    {
        begin_write(&mut self.buffers, msg);
        let copy = Copying::Write { msg, at, done: 0 };
        set_copy(&mut self.copies, t, Some(copy));
        let cost = self.charges.call;
        self.meter.pass(&None, cost);
        did(t, StepKind::BeginWrite, None, cost, self.meter.clock)
    }

    /// A task begins to read a message: it notes the number of the newest value.
    fn begin_read(&mut self, t: TaskId, msg: MsgId, at: u32) -> Did
        requires selected { selected_of (held_by self.old) ≡ Some t.0 }
        requires early { self.old.clock < self.old.app.table.horizon }
        requires short { self.old.count < 1000000 }
        requires none { copy_at self.old.copies t.0 ≡ None }
        requires inside { IsInside self.old.app.table msg.0 at }
        ensures step { (places : Places) (c : Counted) → Stands self.old places c
            → let step = spec.stepped self.old.app c t (Move.StartsRead msg at) in
            Stands self.new places step.state × (result ≡ step.did) }
        ensures app { self.new.app ≡ self.old.app }
        ensures switches { self.new.switches
            ≡ (if result.switched then self.old.switches + 1 else self.old.switches) }
        ensures falls { kept_fuel self.new < kept_fuel self.old }
    {
        let noted = newest(&self.buffers, msg);
        let copy = Copying::Read {
            msg,
            at,
            noted,
            done: 0,
        };
        set_copy(&mut self.copies, t, Some(copy));
        let line = Some(Line::Get {
            task: t,
            msg,
            number: noted,
        });
        let cost = self.charges.call;
        self.meter.pass(&line, cost);
        did(t, StepKind::BeginRead, line, cost, self.meter.clock)
    }

    /// The next word of a write is taken from the own window of a task.
    fn take_word(&mut self, t: TaskId, msg: MsgId, at: u32, done: u8) -> Did
        requires selected { selected_of (held_by self.old) ≡ Some t.0 }
        requires early { self.old.clock < self.old.app.table.horizon }
        requires short { self.old.count < 1000000 }
        requires copy { copy_at self.old.copies t.0 ≡ Some (Writes msg at done) }
        ensures step { (places : Places) (c : Counted) → Stands self.old places c
            → let move = next_word self.old.app.table c.begun (Writes msg at done) in
            let step = spec.stepped_by self.old.app c t move in
            Stands self.new places step.state × (result ≡ step.did) }
        ensures app { self.new.app ≡ self.old.app }
        ensures switches { self.new.switches
            ≡ (if result.switched then self.old.switches + 1 else self.old.switches) }
        ensures falls { kept_fuel self.new < kept_fuel self.old }
    {
        let word = self.system.own_word(t, at, done);
        put_word(&mut self.buffers, msg, done, word);
        if has_more(&self.buffers, msg, done) {
            let copy = Copying::Write {
                msg,
                at,
                done: done + 1,
            };
            set_copy(&mut self.copies, t, Some(copy));
            self.meter.pass(&None, WORD_CHARGE);
            return did(t, StepKind::Copy, None, WORD_CHARGE, self.meter.clock);
        }
        let number = publish(&mut self.buffers, msg);
        set_copy(&mut self.copies, t, None);
        self.system.finish_call(t);
        let line = Some(Line::Put {
            task: t,
            msg,
            number,
        });
        self.meter.pass(&line, WORD_CHARGE);
        did(t, StepKind::Publish, line, WORD_CHARGE, self.meter.clock)
    }

    /// The next word of a read is put into the own window of a task. The run ends where the value that is read may be gone.
    fn give_word(&mut self, t: TaskId, msg: MsgId, at: u32, noted: u64, done: u8) -> Did
        requires selected { selected_of (held_by self.old) ≡ Some t.0 }
        requires early { self.old.clock < self.old.app.table.horizon }
        requires short { self.old.count < 1000000 }
        requires copy { copy_at self.old.copies t.0 ≡ Some (Reads msg at noted done) }
        ensures step { (places : Places) (c : Counted) → Stands self.old places c
            → let move = next_word self.old.app.table c.begun (Reads msg at noted done) in
            let step = spec.stepped_by self.old.app c t move in
            Stands self.new places step.state × (result ≡ step.did) }
        ensures app { self.new.app ≡ self.old.app }
        ensures switches { self.new.switches
            ≡ (if result.switched then self.old.switches + 1 else self.old.switches) }
        ensures falls { is_end result.what ≡ false → kept_fuel self.new < kept_fuel self.old }
    {
        match noted_word(&self.buffers, msg, noted, done) {
            Ok(word) => self.put_noted(t, msg, at, noted, done, word),
            Err(lapsed) => self.end(End::Lapped {
                msg,
                noted: lapsed.noted,
                begun: lapsed.begun,
            }),
        }
    }

    /// The word of a read is put into the own window of a task.
    fn put_noted(&mut self, t: TaskId, msg: MsgId, at: u32, noted: u64, done: u8, word: u32) -> Did
        requires selected { selected_of (held_by self.old) ≡ Some t.0 }
        requires early { self.old.clock < self.old.app.table.horizon }
        requires short { self.old.count < 1000000 }
        requires copy { copy_at self.old.copies t.0 ≡ Some (Reads msg at noted done) }
        requires word { (values : List Value) → StandsFor (buffer_at self.old.buffers msg.0) values
            → word ≡ word_of values noted done }
        ensures step { (places : Places) (c : Counted) → Stands self.old places c
            → let move = put_move self.old.app.table msg at noted done in
            let step = spec.stepped self.old.app c t move in
            Stands self.new places step.state × (result ≡ step.did) }
        ensures app { self.new.app ≡ self.old.app }
        ensures switches { self.new.switches
            ≡ (if result.switched then self.old.switches + 1 else self.old.switches) }
        ensures falls { kept_fuel self.new < kept_fuel self.old }
    {
        self.system.put_own_word(t, at, done, word);
        if has_more(&self.buffers, msg, done) {
            let copy = Copying::Read {
                msg,
                at,
                noted,
                done: done + 1,
            };
            set_copy(&mut self.copies, t, Some(copy));
            self.meter.pass(&None, WORD_CHARGE);
            return did(t, StepKind::Copy, None, WORD_CHARGE, self.meter.clock);
        }
        set_copy(&mut self.copies, t, None);
        self.system.finish_call(t);
        self.meter.pass(&None, WORD_CHARGE);
        did(t, StepKind::Copy, None, WORD_CHARGE, self.meter.clock)
    }
}

/// The selection is made again, after a call or a fault.
fn settle(
    system: &mut System,
    meter: &mut Meter,
    charges: Charges,
    what: What,
    line: Option<Line>,
) -> Did
    requires sound { (n : ℕ) × All (IsSound n) (tasks_of system.old.threads) }
    requires clock { meter.old.clock < 2 ^ 31 }
    requires count { meter.old.count < 2 ^ 31 }
    requires switches { meter.old.switches < 2 ^ 31 }
    requires cheap { AreCheap charges }
    ensures held { system.new ≡ system.old }
    ensures settles { (selected : Option Task) × (number_of selected ≡ selected_of system.old)
        × (meter.new ≡ metered meter.old selected line charges.call charges.switch)
        × (result ≡ told meter.old selected what line charges.call charges.switch) }
{
    let selected = system.select();
    let (cost, switched) = meter.settle(selected, &line, charges.call, charges.switch);
    Did {
        what,
        line,
        cost,
        clock: meter.clock,
        switched,
    }
}

/// What a step of a task did that changes no selection.
fn did(t: TaskId, kind: StepKind, line: Option<Line>, cost: u64, clock: u64) -> Did
    ensures { result ≡ did_of (Happened.Stepped t kind) line cost clock false }
{
    Did {
        what: What::Stepped(t, kind),
        line,
        cost,
        clock,
        switched: false,
    }
}

/// What the delivery of an event costs, in cycles.
fn event_charge(charges: &Charges, event: Event) -> u64
    ensures charge { result ≡ spec.event_charge charges.now event }
    ensures within { result ≤ charges.now.release }
{
    match event {
        Event::Release { .. } => charges.release,
        Event::Unplug(_) => 0,
    }
}
