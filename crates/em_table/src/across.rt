//! The tests across the groups of a table, and the messages by the numbers of their tasks.
ghost use Rattle.std.specs.Prelude.{◌≡◌, ◌<◌, ◌≤◌, not, All, IfOk, IfSome, length, map, nat_le, sum_by};
ghost use Rattle.std.specs.List.{list_all};
ghost use Rattle.em_base.specs.Tables.{interrupt_lines_of, most_releases, names_of, releases_of};
ghost use Rattle.em_base.specs.Text.{texts_of};
ghost use Rattle.em_table.specs.Faults.{first_of};
ghost use Rattle.em_table.specs.Reading.{GivesOrFails, message_in};
ghost use Rattle.em_table.specs.Tests as spec;
ghost use Rattle.em_table.specs.Tests.{across_faults};

use crate::faults::Fault;
use crate::messages::Draft;
use crate::repeats::has_repeat;
use em_base::{Fail, Items, Kind, MsgRow, NoMemory, TaskId, TaskRow};
use std::alloc::{AllocError, Global};

/// The most releases that the periods of a table may cause.
const MOST_RELEASES: u32 = 200_000;

/// Whether a task has the name.
fn is_named(rows: &[TaskRow], name: &str) -> bool
    ensures { result ≡ spec.is_named rows.now name.now }
{
    rows.iter().any(|row| name == row.name.as_str())
}

/// Whether a background task has the name.
fn is_of_background(rows: &[TaskRow], name: &str) -> bool
    ensures { result ≡ spec.is_of_background rows.now name.now }
{
    rows.iter().any(|row| name == row.name.as_str() && row.kind == Kind::Background)
}

/// The names of the tasks.
fn names_in(alloc: Global, rows: &[TaskRow]) -> Result<Vec<&str>, AllocError>
    ensures { IfOk result (λ names. texts_of names.items ≡ names_of rows.now) }
{
    let mut names = Vec::new(alloc);
    for row in rows {
        names.push(row.name.as_str())?;
    }
    Ok(names)
}

/// The interrupt lines of the tasks that have one.
fn lines_in(alloc: Global, rows: &[TaskRow]) -> Result<Vec<u8>, AllocError>
    ensures { IfOk result (λ lines. lines.items ≡ interrupt_lines_of rows.now) }
{
    rows.iter().filter_map(|row| row.line).collect(alloc)
}

/// Whether two tasks have one name.
fn has_name_twice(alloc: Global, rows: &[TaskRow]) -> Result<bool, AllocError>
    ensures { IfOk result (λ twice. twice ≡ spec.has_name_twice rows.now) }
{
    let names = names_in(alloc, rows)?;
    Ok(has_repeat(names.as_slice()))
}

/// Whether two tasks have one interrupt line.
fn has_line_twice(alloc: Global, rows: &[TaskRow]) -> Result<bool, AllocError>
    ensures { IfOk result (λ twice. twice ≡ spec.has_line_twice rows.now) }
{
    let lines = lines_in(alloc, rows)?;
    Ok(has_repeat(lines.as_slice()))
}

/// Whether all names are those of tasks.
fn are_named(rows: &[TaskRow], names: &[&str]) -> bool
    ensures { result ≡ list_all (λ name. spec.is_named rows.now name.now) names.now }
{
    names.iter().all(|name| is_named(rows, *name))
}

/// Whether all names in a message are those of tasks.
fn is_known(rows: &[TaskRow], message: &Draft) -> bool
    ensures { result ≡ spec.is_known rows.now (message_in message.now) }
{
    is_named(rows, message.writer) && are_named(rows, message.readers.as_slice())
}

/// Whether all names in all messages are those of tasks.
fn are_known(rows: &[TaskRow], messages: &[Draft]) -> bool
    ensures { result
        ≡ list_all (λ message. spec.is_known rows.now (message_in message)) messages.now }
{
    messages.iter().all(|message| is_known(rows, message))
}

/// Whether a reader stands twice in a message.
fn has_reader_twice(message: &Draft) -> bool
    ensures { result ≡ spec.has_reader_twice (message_in message.now) }
{
    has_repeat(message.readers.as_slice())
}

/// Whether no message has a reader twice.
fn have_readers_once(messages: &[Draft]) -> bool
    ensures { result
        ≡ list_all (λ message. not (spec.has_reader_twice (message_in message))) messages.now }
{
    messages.iter().all(|message| !has_reader_twice(message))
}

/// Whether none of the names is that of a background task.
fn are_not_of_background(rows: &[TaskRow], names: &[&str]) -> bool
    ensures { result ≡ list_all (λ name. not (spec.is_of_background rows.now name.now)) names.now }
{
    names.iter().all(|name| !is_of_background(rows, *name))
}

/// Whether no name in a message is that of a background task.
fn is_urgent(rows: &[TaskRow], message: &Draft) -> bool
    ensures { result ≡ spec.is_urgent rows.now (message_in message.now) }
{
    !is_of_background(rows, message.writer)
        && are_not_of_background(rows, message.readers.as_slice())
}

/// Whether no name in any message is that of a background task.
fn are_urgent(rows: &[TaskRow], messages: &[Draft]) -> bool
    ensures { result
        ≡ list_all (λ message. spec.is_urgent rows.now (message_in message)) messages.now }
{
    messages.iter().all(|message| is_urgent(rows, message))
}

/// How many releases below the horizon the period of a task causes.
fn releases(horizon: u32, row: &TaskRow) -> u32
    requires { IfSome row.now.period (λ period. 0 < period) }
    ensures { result ≡ releases_of horizon row.now }
{
    match row.period {
        Some(period) => horizon.div_ceil(period),
        None => 0,
    }
}

/// Whether the periods cause no more releases than there may be.
fn are_few(horizon: u32, rows: &[TaskRow]) -> bool
    requires { All (λ row. IfSome row.period (λ period. 0 < period)) rows.now }
    ensures { result ≡ nat_le (sum_by (releases_of horizon) rows.now) most_releases }
{
    let mut total: u32 = 0;
    for row in rows {
        total = total.saturating_add(releases(horizon, row));
    }
    total <= MOST_RELEASES
}

/// Looks for the first fault across the groups of a table.
pub fn check(alloc: Global, horizon: u32, rows: &[TaskRow], messages: &[Draft]) -> Result<(), Fail>
    requires { All (λ row. IfSome row.period (λ period. 0 < period)) rows.now }
    ensures { let faults = across_faults horizon rows.now (map message_in messages.now) in
        GivesOrFails result (first_of faults) tt }
{
    if has_name_twice(alloc, rows)? || has_line_twice(alloc, rows)? {
        return Err(Fault::Twice.into());
    }
    if !are_known(rows, messages) {
        return Err(Fault::Unknown.into());
    }
    if !have_readers_once(messages) {
        return Err(Fault::Twice.into());
    }
    if !are_urgent(rows, messages) {
        return Err(Fault::Background.into());
    }
    if !are_few(horizon, rows) {
        return Err(Fault::TooManyReleases.into());
    }
    Ok(())
}

/// The place of the task of a name.
fn place_of(rows: &[TaskRow], name: &str) -> Option<usize>
    ensures place { result ≡ spec.place_of rows.now name.now }
    ensures within { IfSome result (λ place. place < length rows.now) }
{
    rows.iter().position(|row| name == row.name.as_str())
}

/// The number of the task of a name.
fn task_named(rows: &[TaskRow], name: &str) -> TaskId
    requires { length rows.now ≤ 32 }
    ensures { result ≡ spec.task_named rows.now name.now }
{
    match place_of(rows, name) {
        Some(place) => TaskId(place as u8),
        None => TaskId(0),
    }
}

/// The numbers of the tasks of these names.
fn tasks_named(alloc: Global, rows: &[TaskRow], names: &[&str]) -> Result<Items<TaskId>, NoMemory>
    requires { length rows.now ≤ 32 }
    ensures { IfOk result (λ found. found ≡ map (spec.task_named rows.now) (texts_of names.now)) }
{
    let mut found = Items::new(alloc);
    for name in names {
        found.push(alloc, task_named(rows, *name))?;
    }
    Ok(found)
}

/// A message by the numbers of its tasks.
fn message_row(alloc: Global, rows: &[TaskRow], message: &Draft) -> Result<MsgRow, NoMemory>
    requires { length rows.now ≤ 32 }
    ensures { IfOk result (λ row. row ≡ spec.message_row rows.now (message_in message.now)) }
{
    Ok(MsgRow {
        words: message.words,
        writer: task_named(rows, message.writer),
        readers: tasks_named(alloc, rows, message.readers.as_slice())?,
    })
}

/// The messages by the numbers of their tasks.
pub fn message_rows(
    alloc: Global,
    rows: &[TaskRow],
    messages: &[Draft],
) -> Result<Items<MsgRow>, NoMemory>
    requires { length rows.now ≤ 32 }
    ensures { let drafts = map message_in messages.now in
        IfOk result (λ found. found ≡ map (spec.message_row rows.now) drafts) }
{
    let mut found = Items::new(alloc);
    for message in messages {
        found.push(alloc, message_row(alloc, rows, message)?)?;
    }
    Ok(found)
}
