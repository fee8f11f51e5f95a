//! What the kernel's work costs.
#![tactic(auto)]

mod costs;

pub use costs::charges;
