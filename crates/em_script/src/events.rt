//! The event that a line of a script tells of, and what may be wrong with it, given the lines before it.
ghost use Rattle.std.specs.Prelude.{◌≡◌, ◌<◌, ◌≤◌, length, is_some, Some, None, IfOk, IfErr, IfSome};
ghost use Rattle.em_script.specs.Lines.{meaning_of};
ghost use Rattle.em_script.specs.Script as spec;
ghost use Rattle.em_script.specs.Script.{event_in, event_of, meaning_fault};

use crate::faults::Fault;
use crate::lines::{Meaning, read_line};
use em_base::{Event, PortId, TaskId, TaskRow, Timed};

/// The greatest number of events.
const MOST_EVENTS: usize = 100_000;

/// The event that a line tells of, if it tells of one, given the events before it; or the fault of the line.
pub fn read_event(rows: &[TaskRow], before: &[Timed], line: &str) -> Result<Option<Timed>, Fault>
    requires { length rows.now ≤ 32 }
    ensures clear { IfOk result
        (λ _. meaning_fault rows.now before.now (meaning_of line.now) ≡ None) }
    ensures event { IfOk result (λ event. event ≡ event_in rows.now (meaning_of line.now)) }
    ensures fault { IfErr result
        (λ fault. meaning_fault rows.now before.now (meaning_of line.now) ≡ Some fault) }
{
    match read_line(line) {
        Some(meaning) => next_event(rows, before, meaning),
        None => Err(Fault::Form),
    }
}

/// The same by what the line says.
fn next_event(rows: &[TaskRow], before: &[Timed], meaning: Meaning) -> Result<Option<Timed>, Fault>
    requires { length rows.now ≤ 32 }
    ensures clear { IfOk result (λ _. meaning_fault rows.now before.now (Some meaning) ≡ None) }
    ensures event { IfOk result (λ event. event ≡ event_of rows.now meaning) }
    ensures fault { IfErr result
        (λ fault. meaning_fault rows.now before.now (Some meaning) ≡ Some fault) }
{
    match meaning {
        Meaning::Nothing => Ok(None),
        Meaning::Interrupt { time, line, word } => {
            event_or_fault(before, time, release(rows, time, line, word))
        }
        Meaning::Unplugged { time, port } => event_or_fault(before, time, Some(unplug(time, port))),
    }
}

/// The event at a time, or its fault, given the events before it. The event is `None` where no task has its line.
fn event_or_fault(before: &[Timed], time: u32, event: Option<Timed>) -> Result<Option<Timed>, Fault>
    ensures clear { IfOk result (λ _. spec.event_fault before.now time (is_some event) ≡ None) }
    ensures event { IfOk result (λ found. found ≡ event) }
    ensures fault { IfErr result
        (λ fault. spec.event_fault before.now time (is_some event) ≡ Some fault) }
{
    match event_fault(before, time, event.is_some()) {
        Some(fault) => Err(fault),
        None => Ok(event),
    }
}

/// The fault of an event at a time, with a task or without one, given the events before it.
fn event_fault(before: &[Timed], time: u32, has_task: bool) -> Option<Fault>
    ensures { result ≡ spec.event_fault before.now time has_task }
{
    if u64::from(time) < last_time(before) {
        Some(Fault::TimeFalls)
    } else if !has_task {
        Some(Fault::NoTask)
    } else if before.len() >= MOST_EVENTS {
        Some(Fault::TooMany)
    } else {
        None
    }
}

/// The time of the last event, 0 where there is none.
fn last_time(events: &[Timed]) -> u64
    ensures { result ≡ spec.last_time events.now }
{
    match events.last() {
        Some(event) => event.time,
        None => 0,
    }
}

/// The release of the task with an interrupt line.
fn release(rows: &[TaskRow], time: u32, line: u8, word: u32) -> Option<Timed>
    requires { length rows.now ≤ 32 }
    ensures { result ≡ event_of rows.now (Meaning.Interrupt time line word) }
{
    let place = task_with_line(rows, line)?;
    let time = u64::from(time);
    Some(Timed {
        time,
        event: Event::Release {
            task: TaskId(place as u8),
            time,
            word,
        },
    })
}

/// The event that a port is unplugged.
fn unplug(time: u32, port: u8) -> Timed
    ensures { result ≡ record { time = time; event = Event.Unplug (record { 0 = port }) } }
{
    Timed {
        time: u64::from(time),
        event: Event::Unplug(PortId(port)),
    }
}

/// The place of the task with an interrupt line.
fn task_with_line(rows: &[TaskRow], line: u8) -> Option<usize>
    ensures value { result ≡ spec.task_with_line rows.now line }
    ensures within { IfSome result (λ place. place < length rows.now) }
{
    rows.iter().position(|row| has_line(row, line))
}

/// Whether the task has the interrupt line.
fn has_line(row: &TaskRow, line: u8) -> bool
    ensures { result ≡ spec.has_line line row.now.line }
{
    match row.line {
        Some(other) => line == other,
        None => false,
    }
}
