//! The events of a script.
ghost use Rattle.std.specs.Prelude.{◌≡◌, ◌+◌, ◌^◌, ◌≤◌, ◌++◌, ◌⊎◌, length, List, IfOk, IfErr, MatchResult, OnOk};
ghost use Rattle.std.specs.Option.{option_to_list};
ghost use Rattle.std.specs.Str.Lines.{lines};
ghost use Rattle.em_base.specs.declared.events.Timed.{Timed as TimedValue};
ghost use Rattle.em_base.specs.declared.refusals.Refusal.{Refusal};
ghost use Rattle.em_base.specs.Events.{AreEarly, IsScript};
ghost use Rattle.em_base.specs.Tables.{IsTable};
ghost use Rattle.em_script.specs.Script.{IsScriptFail, IsScriptRefused, IsScriptOf};

use crate::events::read_event;
use em_base::{Fail, Items, NoMemory, Table, TaskRow, Timed};
use std::alloc::Global;

/// The events of a script for a table's tasks, in order. The script's first line is line `first` of the whole input.
///
/// Refused at the first line with a fault: with code 30 where it is no line of a script, 31 where its time is below that of
/// the event before it, 32 where no task has its interrupt line, and 33 where 100,000 events stand before it, the first of
/// these that holds. `NoMemory` where memory runs out.
pub fn read_script(
    alloc: Global,
    text: &str,
    first: u32,
    table: &Table,
) -> Result<Items<Timed>, Fail>
    requires table { IsTable table.now }
    requires counted { first + length (lines text.now) ≤ 2 ^ 32 }
    ensures script { IfOk result (IsScriptOf table.now.tasks (lines text.now)) }
    ensures valid { IfOk result (IsScript table.now.tasks) }
    ensures early { IfOk result AreEarly }
    ensures refused { IfErr result (IsScriptFail first table.now.tasks (lines text.now)) }
    ensures complete { (events : List TimedValue)
        → IsScriptOf table.now.tasks (lines text.now) events
        → MatchResult result (λ found. found ≡ events) (λ fail. fail ≡ Fail.NoMemory) }
    ensures refuses { (refusal : Refusal)
        → IsScriptRefused first table.now.tasks (lines text.now) refusal
        → MatchResult result (λ _. ⊥)
        (λ fail. (fail ≡ Fail.Refused refusal) ⊎ (fail ≡ Fail.NoMemory)) }
{
    read_events(alloc, text, first, table.tasks.as_slice())
}

/// The events of the lines of a text, for the tasks of these rows.
pub(crate) fn read_events(
    alloc: Global,
    text: &str,
    first: u32,
    rows: &[TaskRow],
) -> Result<Items<Timed>, Fail>
    requires few { length rows.now ≤ 32 }
    requires counted { first + length (lines text.now) ≤ 2 ^ 32 }
    ensures script { IfOk result (IsScriptOf rows.now (lines text.now)) }
    ensures refused { IfErr result (IsScriptFail first rows.now (lines text.now)) }
{
    let mut events = Items::new(alloc);
    for (place, line) in text.lines().enumerate() {
        match read_event(rows, events.as_slice(), line) {
            Ok(event) => push_event(alloc, &mut events, event)?,
            Err(fault) => return Err(Fail::Refused(fault.at(first + place as u32))),
        }
    }
    Ok(events)
}

/// Puts an event at the end, if there is one.
fn push_event(
    alloc: Global,
    events: &mut Items<Timed>,
    event: Option<Timed>,
) -> Result<(), NoMemory>
    ensures { OnOk result (events.new ≡ events.old ++ option_to_list event) }
{
    match event {
        Some(event) => events.push(alloc, event),
        None => Ok(()),
    }
}
