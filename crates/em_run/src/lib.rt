//! The program without its system: the run of an application on the kernel, and the top call that reads the words and the
//! source, runs or lists what it reads, and writes what is due.
#![tactic(auto)]

mod answer;
mod commands;
mod laws;
mod output;
mod running;
mod status;
mod top;

pub use commands::Command;
pub use laws::{lists_again, loads_number, one_answer};
pub use running::{Run, run_app};
pub use status::{OUT_OF_MEMORY, Status};
pub use top::emeralds;
