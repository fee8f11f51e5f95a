//! The top keys of a table.
ghost use Rattle.std.specs.Prelude.{◌≡◌, IfErr, IfOk, None, codes};
ghost use Rattle.std.specs.Option.{unwrap_or};
ghost use Rattle.toml.specs.Data.{get_member};
ghost use Rattle.toml.specs.View.{table_view};
ghost use Rattle.em_base.specs.Tables.{longest_window};
ghost use Rattle.em_table.specs.Faults.{first_of, IsFailBy};
ghost use Rattle.em_table.specs.Reading.{Gives, GivesSeen, IsTopOf, groups_of};
ghost use Rattle.em_table.specs.Tests.{top_faults};
ghost use Rattle.em_table.specs.Values.{number_at, number_fault, tables_at, tables_fault};

use crate::faults::Fault;
use crate::keys::{LONGEST, Need, has_only, number, value_at};
use crate::lists::tables_in;
use em_base::Fail;
use std::alloc::Global;
use toml::Table;

/// The longest window, in bytes.
const LONGEST_WINDOW: u32 = 65_536;

/// The keys of the top.
const KEYS: [&str; 6] = ["horizon", "semaphores", "own", "shared", "task", "message"];

/// What stands at the top of a table.
#[derive(Drop)]
pub struct Top<'a> {
    /// The time at which a run ends, in cycles.
    pub horizon: u32,
    /// The number of semaphores.
    pub semaphores: u8,
    /// The length of each own window, in bytes.
    pub own: u32,
    /// The least length of the shared window, in bytes.
    pub shared: u32,
    /// The groups of the tasks.
    pub tasks: Vec<&'a Table>,
    /// The groups of the messages.
    pub messages: Vec<&'a Table>,
}

/// The groups of the tasks, of which there is at least one.
fn tasks_in<'a>(alloc: Global, top: &'a Table) -> Result<Vec<&'a Table>, Fail>
    ensures { let value = get_member (codes "task") (table_view top.now) in
        let fault = tables_fault Need.Required 1 32 value in
        GivesSeen (λ found. groups_of found.items) result fault (tables_at value) }
{
    match value_at(top, "task") {
        Some(value) => tables_in(alloc, value, 1, 32),
        None => Err(Fault::Missing.into()),
    }
}

/// The groups of the messages, of which there may be none.
fn messages_in<'a>(alloc: Global, top: &'a Table) -> Result<Vec<&'a Table>, Fail>
    ensures { let value = get_member (codes "message") (table_view top.now) in
        let fault = tables_fault Need.Optional 0 16 value in
        GivesSeen (λ found. groups_of found.items) result fault (tables_at value) }
{
    match value_at(top, "message") {
        Some(value) => tables_in(alloc, value, 0, 16),
        None => Ok(Vec::new(alloc)),
    }
}

/// The length of a window at a key, in bytes: whole words.
fn window(top: &Table, key: &str, default: u32) -> Result<u32, Fault>
    ensures { let value = get_member key.now (table_view top.now) in
        let fault = number_fault Need.Optional 0 longest_window 4 value in
        Gives result fault (unwrap_or (number_at Need.Optional value) default) }
{
    let length = number(top, key, Need::Optional, 0, LONGEST_WINDOW, 4)?;
    Ok(length.unwrap_or(default))
}

/// What stands at the top, or the first fault there.
pub fn read_top<'a>(alloc: Global, top: &'a Table) -> Result<Top<'a>, Fail>
    ensures ok { let group = table_view top.now in
        IfOk result (λ found. (first_of (top_faults group) ≡ None) × IsTopOf found group) }
    ensures refused { IfErr result (IsFailBy (first_of (top_faults (table_view top.now)))) }
{
    let horizon = number(top, "horizon", Need::Required, 1, LONGEST, 1)?;
    let semaphores = number(top, "semaphores", Need::Optional, 0, 32, 1)?;
    let own = window(top, "own", 1024)?;
    let shared = window(top, "shared", 0)?;
    let tasks = tasks_in(alloc, top)?;
    let messages = messages_in(alloc, top)?;
    if !has_only(top, &KEYS) {
        return Err(Fault::Unknown.into());
    }
    Ok(Top {
        horizon: horizon.unwrap_or(0),
        semaphores: semaphores.unwrap_or(0) as u8,
        own,
        shared,
        tasks,
        messages,
    })
}
