//! What a step answers.

/// The target of a taken transfer is not a multiple of 4.
pub const MISALIGNED_TARGET: u8 = 1;

/// The program counter is outside the code.
pub const OUTSIDE_CODE: u8 = 2;

/// The code word is no instruction of RV32I.
pub const NO_INSTRUCTION: u8 = 3;

/// A data address is not a multiple of the size of its access.
pub const MISALIGNED_DATA: u8 = 4;

/// An access is not wholly inside the own or the shared window.
pub const OUTSIDE_WINDOWS: u8 = 5;

/// The instruction is an `ebreak`.
pub const BREAKPOINT: u8 = 6;

/// What kind of work an instruction did, for its cost.
#[derive(Clone, Copy, Debug, PartialEq, Eq)]
pub enum Class {
    /// It touched registers alone.
    Plain,
    /// It loaded or stored.
    Memory,
}

/// What one step came to.
#[derive(Clone, Copy, Debug, PartialEq, Eq)]
pub enum Stepped {
    /// The instruction was carried out.
    Ran(Class),
    /// The instruction is an `ecall`; nothing has changed.
    Call,
    /// The instruction can't be carried out, for this cause, one of the constants above; nothing has changed.
    Fault(u8),
}
