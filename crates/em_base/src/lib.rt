//! What every crate of the kernel stands on: lists and texts that contracts see as lists, the names of tasks and ports,
//! refusals, the task table and the standing of tasks, the image of a program, events from outside, the application that these make, the lines of a
//! text and the numbers in it.
#![tactic(auto)]

pub mod apps;
pub mod events;
pub mod ids;
pub mod images;
pub mod jobs;
pub mod laws;
pub mod lines;
pub mod list;
pub mod memory;
pub mod numbers;
pub mod pieces;
pub mod refusals;
pub mod steps;
pub mod tables;
#[cfg(test)]
mod tests;
pub mod text;

pub use apps::{App, HintMap};
pub use events::{Event, Schedule, Timed};
pub use ids::{MsgId, PortId, SemId, TaskId};
pub use images::{Image, Wait};
pub use jobs::{Charges, Job, Key, Status};
pub use laws::written_numbers;
pub use lines::lines_of;
pub use list::Items;
pub use memory::NoMemory;
pub use numbers::read_number;
pub use refusals::{Fail, Refusal};
pub use steps::Steps;
pub use tables::{Kind, MsgRow, Table, TaskRow};
pub use text::Name;
