//! The words of messages in the own windows of tasks, and the end of their calls.
ghost use Rattle.std.specs.Prelude.{◌≡◌, ℕ, ◌+◌, ◌-◌, ◌*◌, ◌/◌, ◌<◌, All, length, true};
ghost use Rattle.em_gate.specs.Calls.{is_in_own};
ghost use Rattle.em_hart.specs.Hart.{own_base};
ghost use Rattle.em_system.specs.Held.{held_answered, selected_of, tasks_of};
ghost use Rattle.em_system.specs.Sound.{IsSound};
ghost use Rattle.em_system.specs.Windows as spec;
ghost use Rattle.em_system.specs.Windows.{core_in, held_word_put};

use crate::system::System;
use em_base::TaskId;
use em_hart::{OWN_BASE, Window};

/// The number of the word `i` of those that stand in an own window from an address on.
fn word_number(own: &Window, at: u32, i: u8) -> u32
    requires base { own.now.base ≡ own_base }
    requires inside { (words : ℕ) × (i < words)
        × (is_in_own (length own.now.bytes) words at ≡ true) }
    ensures place { 4 * result ≡ at - own.now.base + 4 * i }
    ensures within { result < length own.now.bytes / 4 }
{
    (at - OWN_BASE) / 4 + u32::from(i)
}

impl<'a> System<'a> {
    /// The word `i` of those that stand in the own window of a task from an address on: the words of a message are wholly inside it.
    pub fn own_word(&self, t: TaskId, at: u32, i: u8) -> u32
        requires exists { t.0 < length self.now.threads }
        requires inside { (words : ℕ) × (i < words)
            × (is_in_own self.now.app.table.own words at ≡ true) }
        ensures { result ≡ spec.own_word (core_in self.now.threads t.0) at i }
    {
        let own = self.threads.own(t);
        own.word_at(word_number(own, at, i))
    }

    /// Puts a word in place of the word `i` of those that stand in the own window of a task from an address on.
    pub fn put_own_word(&mut self, t: TaskId, at: u32, i: u8, w: u32)
        requires exists { t.0 < length self.old.threads }
        requires inside { (words : ℕ) × (i < words)
            × (is_in_own self.old.app.table.own words at ≡ true) }
        ensures whole { self.new ≡ held_word_put t.0 at i w self.old }
        ensures same { selected_of self.new ≡ selected_of self.old }
        ensures sound { (n : ℕ) → All (IsSound n) (tasks_of self.old.threads)
            → All (IsSound n) (tasks_of self.new.threads) }
    {
        let number = word_number(self.threads.own(t), at, i);
        self.threads.set_word(t, number, w);
    }

    /// Ends a call of a task: its answer is 0, and the task goes on behind it.
    pub fn finish_call(&mut self, t: TaskId)
        requires exists { t.0 < length self.old.threads }
        ensures whole { self.new ≡ held_answered t.0 0 self.old }
        ensures same { selected_of self.new ≡ selected_of self.old }
        ensures sound { (n : ℕ) → All (IsSound n) (tasks_of self.old.threads)
            → All (IsSound n) (tasks_of self.new.threads) }
    {
        self.answer(t, 0);
    }
}
