//! The newest values of the messages.
ghost use Rattle.std.specs.Prelude.{◌≡◌, ℕ, ◌+◌, ◌<◌, ◌≤◌, ◌^◌, All, length, map, slice_set, true, IfOk};
ghost use Rattle.em_gate.specs.Calls.{is_in_own};
ghost use Rattle.em_gate.specs.Effects.{words_at};
ghost use Rattle.em_plain.specs.Boards as spec;
ghost use Rattle.em_plain.specs.Boards.{first_posted, posted, posted_at};
ghost use Rattle.em_plain.specs.Words.{held_words_put};
ghost use Rattle.em_system.specs.Held.{tasks_of};
ghost use Rattle.em_system.specs.Sound.{IsSound};
ghost use Rattle.em_system.specs.Windows.{core_in};

use em_base::{App, MsgId, NoMemory, TaskId};
use em_system::System;
use std::alloc::Global;
use std::marker::Model;

/// The newest value of a message, and its number.
#[derive(Drop)]
struct Board {
    words: Vec<u32>,
    number: u64,
}

impl Model for Board {
    ghost use Rattle.em_plain.specs.Boards.{Posted};

    ghost Value = { Posted };

    ghost view = { λ a. record { number = a.number; words = a.words.items } };
}

impl Board {
    /// A board with so many words, all zero: value 0.
    fn new(alloc: Global, words: u8) -> Result<Board, NoMemory>
        ensures { IfOk result (λ board. board ≡ spec.blank words) }
    {
        Ok(Board {
            words: vec![in alloc; 0; usize::from(words)]?,
            number: 0,
        })
    }

    /// The words that stand in the own window of a task from an address on are the next value. The answer is its number.
    fn publish(&mut self, system: &System, t: TaskId, at: u32) -> u64
        requires exists { t.0 < length system.now.threads }
        requires short { length self.old.words ≤ 16 }
        requires few { self.old.number < 2 ^ 63 }
        requires inside { is_in_own system.now.app.table.own (length self.old.words) at ≡ true }
        ensures whole { let own = (core_in system.now.threads t.0).own in
            self.new ≡ posted (words_at own at (length self.old.words)) self.old }
        ensures number { result ≡ self.old.number + 1 }
    {
        copy_words(&mut self.words, system, t, at);
        self.number += 1;
        self.number
    }

    /// Puts the value into the own window of a task, from an address on. The answer is its number.
    fn fetch(&self, system: &mut System, t: TaskId, at: u32) -> u64
        requires exists { t.0 < length system.old.threads }
        requires short { length self.now.words ≤ 16 }
        requires inside { is_in_own system.old.app.table.own (length self.now.words) at ≡ true }
        ensures whole { system.new ≡ held_words_put t.0 at self.now.words system.old }
        ensures sound { (n : ℕ) → All (IsSound n) (tasks_of system.old.threads)
            → All (IsSound n) (tasks_of system.new.threads) }
        ensures number { result ≡ self.now.number }
    {
        put_words(&self.words, system, t, at);
        self.number
    }
}

/// Copies the words that stand in the own window of a task from an address on.
fn copy_words(words: &mut [u32], system: &System, t: TaskId, at: u32)
    requires exists { t.0 < length system.now.threads }
    requires short { length words.old ≤ 16 }
    requires inside { is_in_own system.now.app.table.own (length words.old) at ≡ true }
    ensures words { words.new ≡ words_at (core_in system.now.threads t.0).own at (length words.old) }
    ensures length { length words.new ≡ length words.old }
{
    for i in 0..words.len() as u8 {
        words[usize::from(i)] = system.own_word(t, at, i);
    }
}

/// Puts words into the own window of a task, from an address on.
fn put_words(words: &[u32], system: &mut System, t: TaskId, at: u32)
    requires exists { t.0 < length system.old.threads }
    requires short { length words.now ≤ 16 }
    requires inside { is_in_own system.old.app.table.own (length words.now) at ≡ true }
    ensures whole { system.new ≡ held_words_put t.0 at words.now system.old }
    ensures sound { (n : ℕ) → All (IsSound n) (tasks_of system.old.threads)
        → All (IsSound n) (tasks_of system.new.threads) }
{
    for i in 0..words.len() as u8 {
        system.put_own_word(t, at, i, words[usize::from(i)]);
    }
}

/// The newest values of the messages of an application, by their numbers. Contracts see of each message its newest value and the
/// number of that.
#[derive(Drop)]
pub(crate) struct Boards {
    boards: Vec<Board>,
}

impl Model for Boards {
    ghost use Rattle.std.specs.Prelude.{List};
    ghost use Rattle.em_plain.specs.Boards.{Posted};

    ghost Value = { List Posted };

    ghost view = { λ a. a.boards.items };
}

impl Boards {
    /// The value 0 of each message: its words are zero. Its only refusal is `NoMemory`.
    pub(crate) fn new(alloc: Global, app: &App) -> Result<Boards, NoMemory>
        ensures { IfOk result (λ boards. boards ≡ map first_posted app.now.table.messages) }
    {
        let rows = app.table.messages.as_slice();
        let mut boards = Vec::with_capacity(alloc, rows.len())?;
        for row in rows {
            boards.push(Board::new(alloc, row.words)?)?;
        }
        Ok(Boards { boards })
    }

    /// The words that stand in the own window of a task from an address on are the next value of a message. The answer is its
    /// number.
    pub(crate) fn publish(&mut self, m: MsgId, system: &System, t: TaskId, at: u32) -> u64
        requires message { m.0 < length self.old }
        requires exists { t.0 < length system.now.threads }
        requires short { length (posted_at self.old m.0).words ≤ 16 }
        requires few { (posted_at self.old m.0).number < 2 ^ 63 }
        requires inside { let words = length (posted_at self.old m.0).words in
            is_in_own system.now.app.table.own words at ≡ true }
        ensures whole { let board = posted_at self.old m.0 in
            let own = (core_in system.now.threads t.0).own in
            self.new ≡ slice_set self.old m.0 (posted (words_at own at (length board.words)) board) }
        ensures number { result ≡ (posted_at self.old m.0).number + 1 }
    {
        self.boards[usize::from(m.0)].publish(system, t, at)
    }

    /// Puts the newest value of a message into the own window of a task, from an address on. The answer is its number.
    pub(crate) fn fetch(&self, m: MsgId, system: &mut System, t: TaskId, at: u32) -> u64
        requires message { m.0 < length self.now }
        requires exists { t.0 < length system.old.threads }
        requires short { length (posted_at self.now m.0).words ≤ 16 }
        requires inside { let words = length (posted_at self.now m.0).words in
            is_in_own system.old.app.table.own words at ≡ true }
        ensures whole { system.new ≡ held_words_put t.0 at (posted_at self.now m.0).words system.old }
        ensures sound { (n : ℕ) → All (IsSound n) (tasks_of system.old.threads)
            → All (IsSound n) (tasks_of system.new.threads) }
        ensures number { result ≡ (posted_at self.now m.0).number }
    {
        self.boards[usize::from(m.0)].fetch(system, t, at)
    }
}
