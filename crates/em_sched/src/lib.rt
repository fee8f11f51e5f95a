//! The schedule of a run: it is counted beside the run, and under it the plain machine gives the same trace.
#![tactic(auto)]

mod counter;
mod laws;

pub use counter::Counter;
pub use laws::{agree, same_trace, valid_schedule, whole_reads};
