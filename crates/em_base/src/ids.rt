//! The numbers by which a table's tasks, semaphores, messages and ports are named, each counted from 0.

/// A task, by its place in the table: 0 to 31.
#[derive(Clone, Copy, Debug, PartialEq, Eq)]
pub struct TaskId(pub u8);

/// A semaphore: 0 to 31.
#[derive(Clone, Copy, Debug, PartialEq, Eq)]
pub struct SemId(pub u8);

/// A state message, by its place in the table: 0 to 15.
#[derive(Clone, Copy, Debug, PartialEq, Eq)]
pub struct MsgId(pub u8);

/// A port: 0 to 7.
#[derive(Clone, Copy, Debug, PartialEq, Eq)]
pub struct PortId(pub u8);
