//! The lines of a trace and those of a schedule, as they are printed and read.
#![tactic(auto)]

mod fails;
mod laws;
pub mod lines;
mod printing;
mod reading;
mod schedule_faults;
mod schedule_lines;
mod schedule_printing;
mod schedule_reading;
#[cfg(test)]
mod schedule_tests;
#[cfg(test)]
mod tests;
mod words;

pub use fails::TraceFail;
pub use laws::{one_schedule, one_trace, reads_back, schedule_reads_back};
pub use lines::Line;
pub use printing::{print_trace, put_trace};
pub use reading::read_trace;
pub use schedule_printing::print_schedule;
pub use schedule_reading::read_schedule;
