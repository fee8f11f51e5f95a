//! The kernel: the machine that runs the tasks of an application under a counted clock.
#![tactic(auto)]

mod boot;
mod copies;
mod did;
mod events;
mod kernel;
mod meter;
mod view;

pub use did::{Did, End, StepKind, View, What};
pub use events::most_events;
pub use kernel::Kernel;
