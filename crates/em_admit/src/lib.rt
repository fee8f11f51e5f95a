//! How many values the buffers of the state messages of a table are to keep.
#![tactic(auto)]

mod depths;
mod laws;

pub use depths::depth;
pub use laws::least_depth;
