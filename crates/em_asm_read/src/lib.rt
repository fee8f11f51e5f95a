//! Lines of assembly read: what a line of the assembly language says, or the first fault in it.
#![tactic(auto)]

mod faults;
mod items;
mod labels;
mod laws;
mod lines;
mod mnemonics;
mod operands;
mod registers;
mod statements;
#[cfg(test)]
mod tests;

pub use faults::LineFail;
pub use items::{Item, Line, Target};
pub use laws::one_meaning;
pub use lines::read_line;
