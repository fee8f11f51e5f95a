//! The tasks, the semaphores and the shared window of an application, and what events, instructions, calls and faults change of
//! them.
#![tactic(auto)]

mod boot;
mod calling;
mod happening;
mod knowing;
mod owning;
mod ranking;
mod selection;
mod showing;
mod standing;
mod stepping;
mod system;
mod trace;
mod transfers;

pub use stepping::{Taken, Transfer};
pub use system::System;
pub use trace::put_line;
