//! The task table of an application, read from its TOML text, or refused with the code of the first fault in it.
#![tactic(auto)]

mod across;
mod faults;
mod keys;
mod lists;
mod messages;
mod reading;
mod repeats;
mod tasks;
#[cfg(test)]
mod tests;
mod tops;

pub use reading::read_table;
