//! The table of a text.
ghost use Rattle.std.specs.Prelude.{◌≡◌, IfOk, IfErr, None, Some};
ghost use Rattle.toml.specs.Data.{Members};
ghost use Rattle.toml.specs.Parse.{parse_document};
ghost use Rattle.toml.specs.View.{table_view};
ghost use Rattle.em_base.specs.Tables.{IsTable};
ghost use Rattle.em_table.specs.Faults.{IsFailBy};
ghost use Rattle.em_table.specs.Reading.{GivesOrFails};
ghost use Rattle.em_table.specs.Tests.{fault_in, fault_of, table_of};

use crate::across::{check, message_rows};
use crate::faults::Fault;
use crate::messages::read_messages;
use crate::tasks::read_tasks;
use crate::tops::read_top;
use em_base::{Fail, Table};
use std::alloc::Global;
use toml::Table as Group;

/// The table that stands in the groups of a text.
fn read_groups(alloc: Global, groups: &Group) -> Result<Table, Fail>
    ensures { let top = table_view groups.now in GivesOrFails result (fault_in top) (table_of top) }
{
    let top = read_top(alloc, groups)?;
    let tasks = read_tasks(alloc, top.tasks.as_slice(), top.semaphores)?;
    let messages = read_messages(alloc, top.messages.as_slice())?;
    check(alloc, top.horizon, tasks.as_slice(), messages.as_slice())?;
    let messages = message_rows(alloc, tasks.as_slice(), messages.as_slice())?;
    Ok(Table {
        horizon: top.horizon,
        semaphores: top.semaphores,
        own: top.own,
        shared: top.shared,
        tasks,
        messages,
    })
}

/// The table that a text writes in TOML, by the format of tables in docs/FORMATS.md. Times are in cycles, windows in bytes.
///
/// A text that is no table is refused with the first fault in it, by the order of that format, at line 1:
///
/// * 20: it is no TOML;
/// * 21, 22, 23: a key is missing; a value is of the wrong kind; a value is out of range;
/// * 24: a key that its group doesn't have, or a name that no task has;
/// * 25: a name, an interrupt line, a semaphore or a reader that stands twice;
/// * 26: a background task in a message;
/// * 27: periods that cause more than 200,000 releases below the horizon.
pub fn read_table(alloc: Global, text: &str) -> Result<Table, Fail>
    ensures table { IfOk result
        (λ table. (top : Members) × (parse_document text.now ≡ Some top) × (fault_in top ≡ None)
        × (table ≡ table_of top)) }
    ensures valid { IfOk result IsTable }
    ensures refused { IfErr result (IsFailBy (fault_of (parse_document text.now))) }
{
    match toml::table_from_str(alloc, text) {
        Ok(groups) => read_groups(alloc, &groups),
        Err(error) if error.is_memory() => Err(Fail::NoMemory),
        Err(_) => Err(Fault::NoToml.into()),
    }
}
