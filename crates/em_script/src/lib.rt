//! The interrupt script of an application, read line by line: the events that come from outside while it runs.
#![tactic(auto)]

mod events;
mod faults;
mod laws;
mod lines;
mod reading;
#[cfg(test)]
mod tests;

pub use laws::{in_words, one_script};
pub use reading::read_script;
