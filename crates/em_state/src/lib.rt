//! State messages, of which tasks read the newest value: a buffer for each, in which a value stays readable while the next ones
//! are written.
#![tactic(auto)]

mod buffers;
#[cfg(test)]
mod tests;

pub use buffers::{Lapped, StateBuf};
