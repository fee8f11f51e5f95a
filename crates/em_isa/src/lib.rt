//! The instructions of RV32I: their fields, the words that they are written as, and the way back.
#![tactic(auto)]

pub mod decoder;
pub mod encoder;
mod fields;
mod groups;
pub mod instructions;
pub mod laws;
mod opcodes;
pub mod ranges;
#[cfg(test)]
mod tests;

pub use decoder::decode;
pub use encoder::encode;
pub use instructions::Instr;
pub use laws::one_instruction;
pub use ranges::fits;
