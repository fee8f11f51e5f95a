//! How many values the buffers of state messages are to keep.
ghost use Rattle.std.specs.Prelude.{◌≡◌, ◌<◌, ◌≤◌, ◌*◌, length, take};
ghost use Rattle.em_base.specs.Tables.{HasDeadlines, IsMessage, IsTable, IsUrgent};
ghost use Rattle.em_admit.specs.Depth as spec;

use em_base::{MsgId, MsgRow, Table, TaskId, TaskRow};

/// The depth of one of the messages of a table: how many values its buffer is to keep, 2 to 1,280,000,130. It is 2 more than the
/// greatest bound of a reader, and 2 where there are no readers.
///
/// The bound of a reader is the writer's `writes`, once for each whole period of the writer in the deadlines of the reader and of
/// the writer together, and once more.
pub fn depth(table: &Table, m: MsgId) -> u128
    requires table { IsTable table.now }
    requires message { m.0 < length table.now.messages }
    ensures depth { result ≡ spec.depth table.now m.0 }
    ensures two { 2 ≤ result }
    ensures most { result ≤ 1280000130 }
{
    let message = &table.messages.as_slice()[usize::from(m.0)];
    2 + u128::from(greatest_bound(table, message))
}

/// The greatest bound of a reader of a message, 0 where it has no readers.
fn greatest_bound(table: &Table, message: &MsgRow) -> u64
    requires table { IsTable table.now }
    requires message { IsMessage table.now.tasks message.now }
    ensures bound { result ≡ spec.greatest_bound table.now.tasks message.now }
    ensures most { result ≤ 1280000128 }
{
    let writer = row_of(table, message.writer);
    let mut greatest = 0;
    for reader in message.readers.as_slice() {
        greatest = reader_bound(writer, row_of(table, *reader)).max(greatest);
    }
    greatest
}

/// The row of a task that is no background task.
fn row_of(table: &Table, task: TaskId) -> &TaskRow
    requires table { IsTable table.now }
    requires urgent { IsUrgent table.now.tasks task }
    ensures row { result.now ≡ spec.row_at table.now.tasks task }
    ensures deadlines { HasDeadlines result.now }
    ensures writes { result.now.writes ≤ 64 }
{
    &table.tasks.as_slice()[usize::from(task.0)]
}

/// The bound of a reader by its row and the writer's.
fn reader_bound(writer: &TaskRow, reader: &TaskRow) -> u64
    requires writer { HasDeadlines writer.now }
    requires writes { writer.now.writes ≤ 64 }
    requires reader { HasDeadlines reader.now }
    ensures bound { result ≡ spec.reader_bound writer.now reader.now }
    ensures most { result ≤ 1280000128 }
{
    let window = deadline_of(reader) + deadline_of(writer);
    u64::from(writer.writes) * (window / period_of(writer) + 1)
}

/// The deadline of a task that has one.
fn deadline_of(row: &TaskRow) -> u64
    requires { HasDeadlines row.now }
    ensures deadline { result ≡ spec.deadline_of row.now }
    ensures some { 1 ≤ result }
    ensures within { result ≤ spec.period_of row.now }
    ensures most { result ≤ 20000000 }
{
    u64::from(row.deadline.unwrap_or(0))
}

/// The period of a task that has one.
fn period_of(row: &TaskRow) -> u64
    requires { HasDeadlines row.now }
    ensures period { result ≡ spec.period_of row.now }
    ensures some { 1 ≤ result }
{
    u64::from(row.period.unwrap_or(0))
}
