//! The standing of a task: its status, its jobs and its key.

use crate::ids::SemId;

/// What a task is doing.
#[derive(Clone, Copy, Debug, PartialEq, Eq)]
pub enum Status {
    /// It has no job, and runs again when it is released.
    Asleep,
    /// It has a job, and runs when it is selected.
    Awake,
    /// It has a job, and waits at its call for a semaphore that another task owns.
    Waits(SemId),
    /// It runs no more.
    Stopped,
}

/// A job of a task: what one release asks of it.
#[derive(Clone, Copy, Debug, PartialEq, Eq)]
pub struct Job {
    /// Its number among the jobs of its task, from 1.
    pub number: u64,
    /// The nominal time of its release, in cycles.
    pub arrival: u64,
    /// The word that it finds in a0 when it starts.
    pub word: u32,
}

/// How urgent a task is. Keys are compared from the left, and the smaller is more urgent.
#[derive(Clone, Copy, Debug, PartialEq, Eq, PartialOrd, Ord)]
pub struct Key {
    /// The number of its band, or 100 and its rank by period, or 1000 and its number.
    pub level: u16,
    /// The time by which its current job is to be done, in cycles; 0 where it has no job or no deadline.
    pub deadline: u64,
    /// The number of the task.
    pub id: u8,
}

/// What the kernel's own work costs, in cycles.
#[derive(Clone, Copy, Debug, PartialEq, Eq)]
pub struct Charges {
    /// A kernel call, whatever it answers, and a step that faults.
    pub call: u64,
    /// The delivery of a release.
    pub release: u64,
    /// A switch to another task.
    pub switch: u64,
}
