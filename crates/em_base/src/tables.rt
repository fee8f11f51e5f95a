//! The task table: what an application's tasks, semaphores and state messages are.

use crate::ids::{SemId, TaskId};
use crate::list::Items;
use crate::text::Name;

/// What releases a task.
#[derive(Clone, Copy, Debug, PartialEq, Eq)]
pub enum Kind {
    /// A timer releases it, at its phase and then once each period.
    Timer,
    /// An interrupt line releases it. It has a deadline as a timer task has.
    Line,
    /// It has no deadline and runs when nothing more urgent does. A signal releases it, and an interrupt line if it has one.
    Background,
}

/// A task of a table. Times are in cycles.
#[derive(Drop)]
pub struct TaskRow {
    /// Its name: 1 to 32 letters, digits, `_` and `-`, like no other task's.
    pub name: Name,
    /// The label at which it starts: 1 to 64 bytes.
    pub entry: Name,
    /// What releases it.
    pub kind: Kind,
    /// The least time between two releases, 1 to 20,000,000. A timer task or line task has one, and a background task
    /// exactly where it has a line.
    pub period: Option<u32>,
    /// The time of a timer task's first release, 0 to 20,000,000; of another task 0.
    pub phase: u32,
    /// The time after its release by which a job is to be done, 1 to the period. A timer task or line task has one.
    pub deadline: Option<u32>,
    /// The most that a job is to spend, 1 to 20,000,000. A timer task or line task has one.
    pub cost: Option<u32>,
    /// The most that a section in which a semaphore is owned is to spend, 0 to 20,000,000.
    pub section: u32,
    /// How often a job is to write state messages at most, 0 to 64; of a background task 0.
    pub writes: u32,
    /// The semaphores that it may take, each below the table's number of semaphores and named once.
    pub uses: Items<SemId>,
    /// The interrupt line that releases it, 0 to 31, like no other task's. A line task has one, a background task may.
    pub line: Option<u8>,
    /// The band in which it is served by the earliest deadline, 0 to 3, the most urgent first. A background task has none.
    pub band: Option<u8>,
}

/// A state message of a table.
#[derive(Drop)]
pub struct MsgRow {
    /// Its length in words, 1 to 16.
    pub words: u8,
    /// The task that writes it, no background task.
    pub writer: TaskId,
    /// The tasks that read it, each named once, and none of them a background task.
    pub readers: Items<TaskId>,
}

/// A task table.
#[derive(Drop)]
pub struct Table {
    /// The time in cycles at which a run ends, 1 to 20,000,000.
    pub horizon: u32,
    /// The number of semaphores, 0 to 32.
    pub semaphores: u8,
    /// The length of each task's own window in bytes, 0 to 65,536, a multiple of 4.
    pub own: u32,
    /// The least length of the shared window in bytes, 0 to 65,536, a multiple of 4.
    pub shared: u32,
    /// The tasks, 1 to 32. Those with a period are released at most 200,000 times below the horizon, if they keep to it.
    pub tasks: Items<TaskRow>,
    /// The state messages, 0 to 16.
    pub messages: Items<MsgRow>,
}
