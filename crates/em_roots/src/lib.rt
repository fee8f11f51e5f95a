//! Laws of priority inheritance: the selected task is the end of the chain of owners that begins at the most urgent task.
#![tactic(auto)]

mod laws;

pub use laws::{are_rooted, most_urgent, selects_root};
