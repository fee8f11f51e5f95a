//! Instructions and code as text.
#![tactic(auto)]

mod laws;
mod listings;
mod names;
mod texts;

pub use laws::{one_listing, one_text, reads_back};
pub use listings::listing;
pub use texts::show;

#[cfg(test)]
mod tests;
