//! The tasks of a machine: their registers and windows, what they are doing, and their jobs.
#![tactic(auto)]

mod threads;

pub use em_base::{Job, Status};
pub use threads::{Threads, Took};
