//! An application: all that a run starts from.

use crate::events::{Schedule, Timed};
use crate::ids::SemId;
use crate::images::Image;
use crate::list::Items;
use crate::tables::Table;
use crate::text::Name;

/// The semaphore that follows a `waitjob`, for those statements after which there is one.
#[derive(Drop)]
pub struct HintMap {
    /// The address of the `ecall` of such a `waitjob` in bytes, with the semaphore. The addresses rise.
    pub hints: Items<(u32, SemId)>,
}

/// All that a run starts from.
#[derive(Drop)]
pub struct App {
    /// The tasks, semaphores and state messages.
    pub table: Table,
    /// The text of the code, each of its lines followed by one LF.
    pub code_text: Name,
    /// The line of the input with the header of the code, counted from 1.
    pub code_line: u32,
    /// What the code stands for. Each task's entry is one of its labels.
    pub image: Image,
    /// The hints of the code.
    pub hints: HintMap,
    /// The events that come from outside, in order of time: at most 100,000.
    pub script: Items<Timed>,
    /// The events of a plain run, where one was asked for.
    pub schedule: Option<Schedule>,
}
