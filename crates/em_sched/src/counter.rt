//! The counter of a schedule, beside a run.
ghost use Rattle.std.specs.Prelude.{◌≡◌, ◌<◌, ◌≤◌, ◌+◌, ◌++◌, ◌∷◌, ◌^◌, ℕ, [], List, length, IfOk};
ghost use Rattle.em_base.specs.declared.apps.App.{App as Application};
ghost use Rattle.em_base.specs.Apps.{IsApp};
ghost use Rattle.em_base.specs.Tables.{IsTable};
ghost use Rattle.em_gate.specs.Events.{events_of};
ghost use Rattle.em_ports.specs.Ports.{Places};
ghost use Rattle.em_sched.specs.Image as spec;
ghost use Rattle.em_sched.specs.Image.{image_beside, scheduled};
ghost use Rattle.em_sched.specs.Seen.{IsSeen, Sight, StandsFor, put_by, steps_by};

use em_base::{App, Event, Items, NoMemory, Schedule};
use em_kernel::{Did, Kernel, StepKind, What, most_events};
use std::alloc::Global;
use std::marker::Model;

/// Counts the steps of the plain machine beside a run of the kernel, and puts down each event with the steps before it. It runs
/// no machine of its own: it looks at what each step of the kernel did. It stands for the list of the steps that it has seen.
///
/// As long as no hints are supported, the plain machine is never ahead of a task, and each step counts by its kind alone. With
/// them it will keep for each task whether the plain machine is level with it, ahead and awake, or ahead and waiting, which the
/// kernel's `view` and `walk_left` tell.
#[derive(Drop)]
pub struct Counter {
    /// The steps of the plain machine so far.
    count: u64,
    /// The events delivered so far, each with the steps before it.
    events: Vec<(u64, Event)>,
    /// How many events have a place.
    places: usize,
}

impl Model for Counter {
    ghost use Rattle.std.specs.Prelude.{◌≤◌};
    ghost use Rattle.std.specs.Vec.{vec_capacity};
    ghost use Rattle.em_sched.specs.Seen.{Tally};

    ghost Value = { Tally };

    ghost view = { λ c. record { count = c.count; events = c.events.items; places = c.places } };

    ghost invariant = { λ c. c.places ≤ vec_capacity c.events };
}

/// Whether a step is none of the plain machine's: the beginning of a write, or a copied word that doesn't publish.
fn is_copying(kind: StepKind) -> bool
    ensures { result ≡ spec.is_copying kind }
{
    match kind {
        StepKind::BeginWrite | StepKind::Copy => true,
        StepKind::Instr
        | StepKind::Call
        | StepKind::BeginRead
        | StepKind::Publish
        | StepKind::Fault => false,
    }
}

impl Counter {
    /// The counter of a run of an application before its first step. It has a place for each event of the application, and takes
    /// no memory later. `NoMemory` where memory can't be had.
    pub fn new(alloc: Global, app: &App) -> Result<Counter, NoMemory>
        requires app { IsApp app.now }
        ensures stands { IfOk result (λ counter. StandsFor app.now counter []) }
        ensures count { IfOk result (λ counter. counter.count ≡ 0) }
        ensures events { IfOk result (λ counter. counter.events ≡ []) }
        ensures places { let events = events_of app.now in
            IfOk result (λ counter. length events ≤ counter.places) }
    {
        let places = most_events(app);
        Ok(Counter {
            count: 0,
            events: Vec::with_capacity(alloc, places)?,
            places,
        })
    }

    /// A step was seen: what the kernel did, with the kernel as it stands after that. Every list of steps of a run that the
    /// counter stood for has this step at its end then.
    pub fn see(&mut self, kernel: &Kernel, did: &Did)
        requires early { self.old.count < 2 ^ 63 }
        requires place { let put = put_by did.now.what self.old.count in
            length self.old.events + length put ≤ self.old.places }
        ensures stands { (app : Application) (steps : List Sight) → StandsFor app self.old steps
            → let sight : Sight = record { did = did.now; kernel = kernel.now } in
            StandsFor app self.new (steps ++ sight ∷ []) }
        ensures count { self.new.count ≡ self.old.count + steps_by did.now.what }
        ensures events { self.new.events
            ≡ self.old.events ++ put_by did.now.what self.old.count }
        ensures places { self.new.places ≡ self.old.places }
    {
        let _ = kernel;
        self.note(did.what);
    }

    /// Counts what a step did, or puts it down.
    fn note(&mut self, what: What)
        requires early { self.old.count < 2 ^ 63 }
        requires place { let put = put_by what self.old.count in
            length self.old.events + length put ≤ self.old.places }
        ensures count { self.new.count ≡ self.old.count + steps_by what }
        ensures events { self.new.events ≡ self.old.events ++ put_by what self.old.count }
        ensures places { self.new.places ≡ self.old.places }
    {
        match what {
            What::Delivered(event) => self.put_down(event),
            What::Stepped(_, kind) => {
                if !is_copying(kind) {
                    self.count += 1;
                }
            }
            What::Idled | What::Ended(_) => {}
        }
    }

    /// An event is put down with the steps before it.
    fn put_down(&mut self, event: Event)
        requires place { length self.old.events < self.old.places }
        ensures count { self.new.count ≡ self.old.count }
        ensures events { self.new.events ≡ self.old.events ++ (self.old.count, event) ∷ [] }
        ensures places { self.new.places ≡ self.old.places }
    {
        match self.events.push((self.count, event)) {
            Ok(()) => {}
            Err(_) => unreachable!(),
        }
    }

    /// The schedule of the steps seen: the events put down, and the number of steps.
    pub fn finish(self) -> Schedule
        ensures schedule { (app : Application) (steps : List Sight) (ports : Places)
            → StandsFor app self steps → IsTable app.table → app.hints.hints ≡ []
            → IsSeen app ports steps
            → result ≡ scheduled (image_beside app ports (length steps)) }
        ensures events { result.events ≡ self.events }
        ensures last { result.last ≡ self.count }
    {
        Schedule {
            events: Items::from_vec(self.events),
            last: self.count,
        }
    }
}
