//! The hints of an image, and the text of its code with them.
#![tactic(auto)]

pub mod finding;
pub mod laws;
mod lines;
#[cfg(test)]
mod tests;
pub mod texts;

pub use finding::hints;
pub use laws::{one_map, sound_map};
pub use texts::{hint_at, hinted_text};
