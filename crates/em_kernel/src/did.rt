//! What a step of the kernel did.

use em_base::{Event, Key, MsgId, SemId, Status, TaskId};
use em_trace::Line;

/// How a run ends.
#[derive(Clone, Copy, Debug, PartialEq, Eq)]
pub enum End {
    /// The clock has reached the horizon.
    Horizon,
    /// No task is selected and no event is left.
    Quiet,
    /// The trace has as many lines as there may be.
    Lines,
    /// A reader was overtaken: as many values were begun since it noted its value as the buffer has slots.
    Lapped {
        /// The message.
        msg: MsgId,
        /// The number of the value that it noted, from 0.
        noted: u64,
        /// How many values were begun since the boot.
        begun: u64,
    },
}

/// What a step of a task was.
#[derive(Clone, Copy, Debug, PartialEq, Eq)]
pub enum StepKind {
    /// An instruction.
    Instr,
    /// A kernel call, accepted or refused.
    Call,
    /// The beginning of a write of a message.
    BeginWrite,
    /// The beginning of a read of a message.
    BeginRead,
    /// A copied word that isn't the last of a write.
    Copy,
    /// The last copied word of a write.
    Publish,
    /// A fault.
    Fault,
}

/// What a step of the kernel was.
#[derive(Clone, Copy, Debug, PartialEq, Eq)]
pub enum What {
    /// An event was delivered.
    Delivered(Event),
    /// A task took a step.
    Stepped(TaskId, StepKind),
    /// No task was selected, and the clock went on to the next event.
    Idled,
    /// The run has ended.
    Ended(End),
}

/// What a step of the kernel did. Times and costs are in cycles.
#[derive(Clone, Copy, Debug, PartialEq, Eq)]
pub struct Did {
    /// What it was.
    pub what: What,
    /// The line that it gave to the trace.
    pub line: Option<Line>,
    /// What it cost, with the switch where there was one.
    pub cost: u64,
    /// The clock after it.
    pub clock: u64,
    /// Whether it has a switch charge.
    pub switched: bool,
}

/// What the kernel shows of a task.
#[derive(Clone, Copy, Debug, PartialEq, Eq)]
pub struct View {
    /// What it is doing.
    pub status: Status,
    /// The semaphore that it has promised to take.
    pub promise: Option<SemId>,
    /// Whether a semaphore stops it: one that it waits for, or the promised one where another task owns it.
    pub stopped: bool,
    /// How urgent it is by itself: the least key is the most urgent.
    pub key: Key,
    /// Its program counter, in bytes.
    pub pc: u32,
}
