//! The copies of messages, word by word, and the buffers that they go to and come from.
ghost use Rattle.std.specs.Prelude.{◌≡◌, ℕ, ◌<◌, ◌≤◌, ◌^◌, ◌+◌, nat_lt, List, length, slice_set, Err, IfOk, IsOk};
ghost use Rattle.std.specs.Option.{option_map};
ghost use Rattle.em_state.specs.Buffers.{IsResting, IsWhole, IsWriting, Kept as Buffer, StandsFor, word_of};
ghost use Rattle.em_kernel.specs.Buffers.{HasBegun, HasPublished, HasPut};
ghost use Rattle.em_kernel.specs.Copyings.{copies_of, copy_of};
ghost use Rattle.em_kernel.specs.Kept.{buffer_at};
ghost use Rattle.em_kernel.specs.Moves.{copy_at};

use em_base::{MsgId, TaskId};
use em_state::{Lapped, StateBuf};

/// A copy that is under way: of words of a task's own window to a message, or of a value of a message to the own window.
#[derive(Clone, Copy, Debug)]
pub(crate) enum Copying {
    /// A write.
    Write {
        /// The message.
        msg: MsgId,
        /// The address of the first word in the own window, in bytes.
        at: u32,
        /// How many words are done.
        done: u8,
    },
    /// A read.
    Read {
        /// The message.
        msg: MsgId,
        /// The address of the first word in the own window, in bytes.
        at: u32,
        /// The number of the value that it reads.
        noted: u64,
        /// How many words are done.
        done: u8,
    },
}

/// Begins the write of the next value of a message.
pub(crate) fn begin_write(buffers: &mut Vec<StateBuf>, m: MsgId)
    requires inside { m.0 < length buffers.old.items }
    requires resting { IsResting (buffer_at buffers.old.items m.0) }
    requires early { (buffer_at buffers.old.items m.0).begun < 2 ^ 63 }
    ensures { (after : Buffer) × (buffers.new.items ≡ slice_set buffers.old.items m.0 after)
        × HasBegun (buffer_at buffers.old.items m.0) after }
{
    buffers[usize::from(m.0)].begin_write();
}

/// Puts the word `i` of the value of a message that is being written.
pub(crate) fn put_word(buffers: &mut Vec<StateBuf>, m: MsgId, i: u8, w: u32)
    requires inside { m.0 < length buffers.old.items }
    requires writing { IsWriting (buffer_at buffers.old.items m.0) }
    requires word { i < (buffer_at buffers.old.items m.0).words }
    ensures { (after : Buffer) × (buffers.new.items ≡ slice_set buffers.old.items m.0 after)
        × HasPut (buffer_at buffers.old.items m.0) after i w }
{
    buffers[usize::from(m.0)].put_word(i, w);
}

/// Publishes the value of a message that is being written. The answer is its number.
pub(crate) fn publish(buffers: &mut Vec<StateBuf>, m: MsgId) -> u64
    requires inside { m.0 < length buffers.old.items }
    requires writing { IsWriting (buffer_at buffers.old.items m.0) }
    requires whole { IsWhole (buffer_at buffers.old.items m.0) }
    ensures { (after : Buffer) × (buffers.new.items ≡ slice_set buffers.old.items m.0 after)
        × HasPublished (buffer_at buffers.old.items m.0) after × (result ≡ after.newest) }
{
    let buffer = &mut buffers[usize::from(m.0)];
    buffer.publish();
    buffer.seen()
}

/// The word `i` of the value of a message that was noted, or that it has lapsed.
pub(crate) fn noted_word(buffers: &[StateBuf], m: MsgId, noted: u64, i: u8) -> Result<u32, Lapped>
    requires inside { m.0 < length buffers.now }
    requires published { noted ≤ (buffer_at buffers.now m.0).newest }
    requires word { i < (buffer_at buffers.now m.0).words }
    ensures word { IfOk result (λ word. (values : List (List ℕ))
        → StandsFor (buffer_at buffers.now m.0) values → word ≡ word_of values noted i) }
    ensures kept { let buffer = buffer_at buffers.now m.0 in
        buffer.begun < noted + buffer.depth → IsOk result }
    ensures lapped { let buffer = buffer_at buffers.now m.0 in noted + buffer.depth ≤ buffer.begun
        → result ≡ Err (record { noted = noted; begun = buffer.begun }) }
{
    buffers[usize::from(m.0)].get_word(noted, i)
}

/// The number of the newest value of a message.
pub(crate) fn newest(buffers: &[StateBuf], m: MsgId) -> u64
    requires inside { m.0 < length buffers.now }
    ensures { result ≡ (buffer_at buffers.now m.0).newest }
{
    buffers[usize::from(m.0)].begin_read()
}

/// Whether a value of a message has words behind the word `i`.
pub(crate) fn has_more(buffers: &[StateBuf], m: MsgId, i: u8) -> bool
    requires inside { m.0 < length buffers.now }
    requires word { i < (buffer_at buffers.now m.0).words }
    ensures { result ≡ nat_lt (i + 1) (buffer_at buffers.now m.0).words }
{
    let words = buffers[usize::from(m.0)].words();
    i + 1 < words
}

/// The copy of a task, where it has one.
pub(crate) fn copy_under_way(copies: &[Option<Copying>], t: TaskId) -> Option<Copying>
    requires inside { t.0 < length (copies_of copies.now) }
    ensures { option_map copy_of result ≡ copy_at (copies_of copies.now) t.0 }
{
    copies[usize::from(t.0)]
}

/// Sets the copy of a task, or says that it has none.
pub(crate) fn set_copy(copies: &mut Vec<Option<Copying>>, t: TaskId, copy: Option<Copying>)
    requires inside { t.0 < length (copies_of copies.old.items) }
    ensures { copies_of copies.new.items
        ≡ slice_set (copies_of copies.old.items) t.0 (option_map copy_of copy) }
{
    copies[usize::from(t.0)] = copy;
}
