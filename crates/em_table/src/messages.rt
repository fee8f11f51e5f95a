//! The messages of a table, by the names of their tasks.
ghost use Rattle.std.specs.Prelude.{◌≡◌, map};
ghost use Rattle.toml.specs.View.{table_view};
ghost use Rattle.em_table.specs.Faults.{first_of};
ghost use Rattle.em_table.specs.Reading.{GivesSeen, groups_of, message_in};
ghost use Rattle.em_table.specs.Tests.{message_fault, message_faults, message_of};

use crate::faults::Fault;
use crate::keys::{Need, has_only, number, text};
use crate::lists::texts_at;
use em_base::{Fail, Items};
use std::alloc::Global;
use toml::Table;

/// The keys of a message.
const KEYS: [&str; 3] = ["words", "writer", "readers"];

/// A message by the names of its tasks.
#[derive(Drop)]
pub struct Draft<'a> {
    /// Its length in words.
    pub words: u8,
    /// The name of the task that writes it.
    pub writer: &'a str,
    /// The names of the tasks that read it.
    pub readers: Vec<&'a str>,
}

/// A message, or the first fault in its keys.
fn read_message<'a>(alloc: Global, message: &'a Table) -> Result<Draft<'a>, Fail>
    ensures { let group = table_view message.now in
        GivesSeen message_in result (first_of (message_faults group)) (message_of group) }
{
    let words = number(message, "words", Need::Required, 1, 16, 1)?;
    let writer = text(message, "writer")?;
    let readers = texts_at(alloc, message, "readers")?;
    if !has_only(message, &KEYS) {
        return Err(Fault::Unknown.into());
    }
    Ok(Draft {
        words: words.unwrap_or(0) as u8,
        writer,
        readers,
    })
}

/// The messages, or the first fault in one of them.
pub fn read_messages<'a>(alloc: Global, messages: &[&'a Table]) -> Result<Items<Draft<'a>>, Fail>
    ensures { let groups = groups_of messages.now in
        let fault = first_of (map message_fault groups) in
        GivesSeen (map message_in) result fault (map message_of groups) }
{
    let mut drafts = Items::new(alloc);
    for message in messages {
        let draft = read_message(alloc, *message)?;
        drafts.push(alloc, draft)?;
    }
    Ok(drafts)
}
