//! What a line of assembly says.

use em_base::Name;
use em_isa::Instr;

/// What a line says: its label and its statement. A line may lack either.
#[derive(Drop)]
pub struct Line {
    /// The name of the label that stands first in the line.
    pub label: Option<Name>,
    /// What its statement stands for.
    pub item: Item,
}

/// Where a branch or a jump goes.
#[derive(Drop)]
pub enum Target {
    /// The address of a label, by its name.
    Label(Name),
    /// An offset in bytes from the instruction itself, which is even.
    Offset(i32),
}

/// What a statement stands for. Registers are 0 to 31.
#[derive(Drop)]
pub enum Item {
    /// No statement.
    Nothing,
    /// One instruction that names no target, which is one code word.
    One(Instr),
    /// A branch, one code word.
    Branch {
        /// Which comparison: the instruction's funct3.
        op: u8,
        /// The register on the left of the comparison.
        rs1: u8,
        /// The register on the right of the comparison.
        rs2: u8,
        /// An offset is from -4096 to 4094.
        target: Target,
    },
    /// `jal` or `j`, one code word.
    Jal {
        /// The register that takes the address of the next instruction.
        rd: u8,
        /// An offset is from -1048576 to 1048574.
        target: Target,
    },
    /// `li`, one code word or two.
    Li {
        /// The register that is written.
        rd: u8,
        /// The value that it takes.
        value: u32,
    },
    /// `waitjob`, two code words, with the semaphore that is written beside it.
    Wait(Option<u32>),
    /// A word of the shared window.
    Word(u32),
    /// A code word that is given as a number.
    Raw(u32),
}
