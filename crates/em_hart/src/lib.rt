//! One instruction of RV32I: the registers, the windows of memory, and the step that runs the word at the pc.
#![tactic(auto)]

mod accesses;
pub mod answers;
pub mod laws;
mod moves;
pub mod operations;
pub mod registers;
pub mod stepping;
#[cfg(test)]
mod tests;
mod widths;
pub mod windows;

pub use answers::{
    BREAKPOINT, Class, MISALIGNED_DATA, MISALIGNED_TARGET, NO_INSTRUCTION, OUTSIDE_CODE,
    OUTSIDE_WINDOWS, Stepped,
};
pub use laws::carries_out;
pub use operations::value;
pub use registers::Regs;
pub use stepping::step;
pub use windows::{OWN_BASE, SHARED_BASE, Window};
