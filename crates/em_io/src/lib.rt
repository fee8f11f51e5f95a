//! The outside as traits: what gives bytes, what takes bytes, and reading and writing all of them.
#![tactic(auto)]

pub mod memory;
pub mod sinks;
pub mod sources;
pub mod standard;

pub use memory::{MemSink, MemSource};
pub use sinks::{Sink, write_all};
pub use sources::{Failed, INPUT_LIMIT, ReadError, Source, read_all};
pub use standard::{StdSink, StdSource};

#[cfg(test)]
mod tests;
