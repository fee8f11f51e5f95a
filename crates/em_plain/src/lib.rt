//! The plain machine: it runs an application under a schedule, which says after how many steps each event comes, without a clock.
#![tactic(auto)]

mod answering;
mod board;
mod laws;
mod machine;
mod running;

pub use laws::{passes_parts, whole_run};
pub use running::{PlainFail, PlainRun, run};
