//! The scan for the semaphore that a task takes next after a call, whichever way it goes.
#![tactic(auto)]

mod instructions;
mod known;
pub mod laws;
pub mod next;
pub mod scanning;
#[cfg(test)]
mod tests;

pub use laws::{followed_hint, one_hint};
pub use next::Next;
pub use scanning::scan;
