//! The text of a schedule.
ghost use Rattle.std.specs.Prelude.{◌≡◌, ◌++◌, IfOk, OnOk, codes, string_bytes};
ghost use Rattle.std.specs.List.{flat_map};
ghost use Rattle.em_trace.specs.Schedules.{end_text, event_text, schedule_text};

use em_base::{Event, NoMemory, Schedule};
use std::alloc::{AllocError, Global};
use std::fmt::Write;

/// The text of a schedule: a line for each event, in order, and then the last line, each with a line feed at its end. A release
/// is `COUNT rel T TIME WORD`, an unplugged port `COUNT unplug P`, and the last line `COUNT end`. COUNT is the number of steps
/// before the event, and in the last line of those in all; T is the task's number and P the port's, each from 0; TIME is in
/// cycles, and WORD is what the task's job finds. The numbers are decimal, without leading zeros. Fails only where memory runs
/// out.
pub fn print_schedule(alloc: Global, s: &Schedule) -> Result<String, NoMemory>
    ensures { IfOk result (λ text. string_bytes text ≡ schedule_text s.now) }
{
    let mut text = String::new(alloc);
    put_events(&mut text, s.events.as_slice())?;
    put_end(&mut text, s.last)?;
    Ok(text)
}

/// Puts the lines of the events at the end of a text.
fn put_events(text: &mut String, events: &[(u64, Event)]) -> Result<(), NoMemory>
    ensures { OnOk result (string_bytes text.new
        ≡ string_bytes text.old ++ flat_map (λ event. event_text event ++ codes "\n") events.now) }
{
    for event in events {
        put_event(text, event.0, event.1)?;
        text.push('\n')?;
    }
    Ok(())
}

/// Puts the text of an event at the end, without a line feed.
fn put_event(text: &mut String, count: u64, event: Event) -> Result<(), AllocError>
    ensures { OnOk result (string_bytes text.new
        ≡ string_bytes text.old ++ event_text (count, event)) }
{
    match event {
        Event::Release { task, time, word } => {
            write!(text, "{count} rel {} {time} {word}", task.0)
        }
        Event::Unplug(port) => write!(text, "{count} unplug {}", port.0),
    }
}

/// Puts the last line at the end of a text.
fn put_end(text: &mut String, last: u64) -> Result<(), NoMemory>
    ensures { OnOk result (string_bytes text.new
        ≡ string_bytes text.old ++ (end_text last ++ codes "\n")) }
{
    write!(text, "{last} end")?;
    text.push('\n')?;
    Ok(())
}
