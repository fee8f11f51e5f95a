//! The plain run of an application under a schedule.
ghost use Rattle.std.specs.Prelude.{◌≡◌, ◌<◌, ◌≤◌, ◌⊎◌, ◌^◌, [], All, length, Err, IfOk, IfErr};
ghost use Rattle.em_base.specs.Apps.{IsApp};
ghost use Rattle.em_trace.specs.Schedules.{IsSchedule};
ghost use Rattle.em_system.specs.Possible.{IsPossible};
ghost use Rattle.em_plain.specs.Answers.{ArePartWay, IsFailOf, IsRunOf};
ghost use Rattle.em_gate.specs.State.{Plain};
ghost use Rattle.em_system.specs.Held.{tasks_of};
ghost use Rattle.em_system.specs.Sound.{IsSound};
ghost use Rattle.em_plain.specs.Reached.{HasGone, IsAt};
ghost use Rattle.em_plain.specs.Runs.{part_from, plain_run, run_from, state_of};

use crate::machine::{Halt, Machine};
use em_base::{App, Items, NoMemory, Schedule};
use em_ports::{Ports, Seen};
use em_trace::Line;
use std::alloc::Global;
use thiserror::Error;

/// What a plain run came to.
#[derive(Drop)]
pub struct PlainRun {
    /// The lines of its trace.
    pub lines: Items<Line>,
    /// How many steps were taken.
    pub count: u64,
    /// Whether the trace was full where a step or an event was left.
    pub full: bool,
}

/// Why there is no plain run.
#[derive(Clone, Copy, Debug, PartialEq, Eq, Error)]
pub enum PlainFail {
    /// After so many steps one more was asked, and no task was selected.
    #[error("no task can take a step after {0}")]
    Misfit(u64),
    /// Memory could not be had.
    #[error("memory ran out")]
    NoMemory,
}

/// Runs an application under a schedule for its tasks on the plain machine, for an application without hints: each event comes after as many steps as it says, and the run ends after as many as the schedule says last. `count` is
/// how many steps were taken, and `full` says that the run ended before, since the trace had 1,000,000 lines.
///
/// `Misfit` exactly where a step is asked and no task is selected, with the number of steps that were taken. `NoMemory` where
/// memory runs out; the ports are then those that the run passes after some of the events and some of the steps up to what
/// comes next, and else those where the run stops.
pub fn run(
    alloc: Global,
    app: &App,
    schedule: &Schedule,
    ports: &mut Ports,
) -> Result<PlainRun, PlainFail>
    requires app { IsApp app.now }
    requires hints { app.now.hints.hints ≡ [] }
    requires schedule { IsSchedule (length app.now.table.tasks) schedule.now }
    ensures run { let seen = ⟦<Ports as Seen>⟧.seen_as in
        IfOk result (IsRunOf (plain_run app.now (seen ports.old) schedule.now)) }
    ensures misfit { let seen = ⟦<Ports as Seen>⟧.seen_as in
        IfErr result (IsFailOf (plain_run app.now (seen ports.old) schedule.now)) }
    ensures ports { let seen = ⟦<Ports as Seen>⟧.seen_as in
        let stop = state_of (plain_run app.now (seen ports.old) schedule.now) in
        (result ≡ Err PlainFail.NoMemory) ⊎ (seen ports.new ≡ stop.ports) }
    ensures part { let seen = ⟦<Ports as Seen>⟧.seen_as in
        ArePartWay app.now schedule.now (seen ports.old) (seen ports.new) }
{
    let mut machine = Machine::boot(alloc, app)?;
    match follow(&mut machine, alloc, schedule, ports) {
        Ok(()) => Ok(ended(machine, false)),
        Err(Halt::Full) => Ok(ended(machine, true)),
        Err(Halt::Misfit) => Err(PlainFail::Misfit(machine.count())),
        Err(Halt::NoMemory) => Err(PlainFail::NoMemory),
    }
}

/// Follows a schedule to its last count, from where the machine is.
fn follow(
    machine: &mut Machine,
    alloc: Global,
    schedule: &Schedule,
    ports: &mut Ports,
) -> Result<(), Halt>
    requires counts { All (λ e. e.0 ≤ 100000000) schedule.now.events }
    requires last { schedule.now.last ≤ 100000000 }
    requires possible { let tasks = length machine.old.held.app.table.tasks in
        All (λ e. IsPossible tasks e.1) schedule.now.events }
    requires start { machine.old.count ≡ 0 }
    requires sound { All (IsSound 0) (tasks_of machine.old.held.threads) }
    ensures follow { let seen = ⟦<Ports as Seen>⟧.seen_as in
        (p : Plain) → IsAt machine.old (seen ports.old) p → let app = machine.old.held.app in
        let whole = run_from app p schedule.now in
        HasGone (part_from app p schedule.now) whole result machine.new (seen ports.new) }
{
    let events = schedule.events.as_slice();
    for (count, event) in events {
        machine.advance(alloc, *count, ports)?;
        machine.take(alloc, *event, ports)?;
    }
    machine.advance(alloc, schedule.last, ports)
}

/// The run of a machine that goes no further.
fn ended(machine: Machine, full: bool) -> PlainRun
    ensures lines { result.lines ≡ machine.entry.lines }
    ensures count { result.count ≡ machine.entry.count }
    ensures full { result.full ≡ full }
{
    let count = machine.count();
    PlainRun {
        lines: machine.into_lines(),
        count,
        full,
    }
}

impl From<NoMemory> for PlainFail {
    ghost use Rattle.std.specs.Prelude.{◌≡◌};
    ghost use Rattle.em_plain.specs.declared.running.PlainFail.TheVariants.{NoMemory as OutOfMemory};

    ghost from_gives = { λ _ fail. fail ≡ OutOfMemory };

    fn from(_error: NoMemory) -> PlainFail {
        PlainFail::NoMemory
    }
}
