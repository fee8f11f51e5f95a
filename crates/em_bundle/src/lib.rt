//! The application that the bytes of a bundle stand for: its parts, and what each of them says.
#![tactic(auto)]

mod code;
mod faults;
mod laws;
mod loading;
mod parts;
#[cfg(test)]
mod tests;
mod texts;

pub use faults::Fault;
pub use laws::{one_application, replayable, sound_application};
pub use loading::load;
