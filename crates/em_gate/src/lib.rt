//! The kernel calls: which one the registers ask for, and which is refused. The definitions of states, calls and events, which
//! the machines above stand on, are here too.
#![tactic(auto)]

pub mod calls;
mod masks;
mod refusals;

pub use calls::{Call, Facts, read_call};
pub use masks::with_bit;
pub use refusals::refusal;
