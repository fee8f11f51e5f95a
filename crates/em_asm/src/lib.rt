//! The assembler: from what the lines of an assembly text say to the image that a machine starts from.
#![tactic(auto)]

mod assembling;
mod coding;
mod faults;
mod laws;
mod layout;
mod loads;
mod numbering;
mod words;

pub use assembling::{assemble, assemble_numbered};
pub use laws::{loads_value, one_image};
pub use numbering::Numbers;
