//! The ports of a machine: boxed objects, each of a kind, that show a value and take words.
#![tactic(auto)]

pub mod kinds;
mod laws;
mod objects;
mod places;
#[cfg(test)]
mod tests;

pub use kinds::PortKind;
pub use laws::{puts_alone, puts_fold, unplugs_alone};
pub use objects::{CountPort, LatchPort, Port, SumPort};
pub use places::{Ports, Seen};
