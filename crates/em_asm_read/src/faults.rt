//! What may be wrong with a line of assembly.
ghost use Rattle.std.specs.Prelude.{◌≡◌};
ghost use Rattle.em_asm_read.specs.Faults.{code_of, fail_at};
ghost use Rattle.em_asm_read.specs.declared.faults.LineFail.TheVariants.{Code, NoMemory as OutOfMemory};

use em_base::{Fail, NoMemory, Refusal};
use std::alloc::AllocError;
use thiserror::Error;

/// What is wrong with a line.
#[derive(Clone, Copy, Debug, PartialEq, Eq)]
pub enum Fault {
    /// The mnemonic is unknown.
    Mnemonic,
    /// The operands are too few or too many, or one lacks its comma or its parentheses.
    Operands,
    /// An operand is no register.
    Register,
    /// An operand is no number, or is out of its range.
    Number,
    /// A label is misspelled, or stands where none may.
    Label,
}

/// Why a line is not read.
#[derive(Clone, Copy, Debug, PartialEq, Eq, Error)]
pub enum LineFail {
    /// The line has a fault, and this is the code of the first one: 1 where the mnemonic is unknown, 2 where the operands
    /// are too few or too many or one lacks its comma or its parentheses, 3 where one is no register, 4 where one is no
    /// number or out of its range, and 5 where a label is misspelled or stands where none may.
    #[error("error {0}")]
    Code(u16),
    /// Memory could not be had.
    #[error("memory ran out")]
    NoMemory,
}

impl Fault {
    /// The fault's number, by the table of codes in docs/FORMATS.md.
    pub fn code(self) -> u16
        ensures { result ≡ code_of self }
    {
        match self {
            Fault::Mnemonic => 1,
            Fault::Operands => 2,
            Fault::Register => 3,
            Fault::Number => 4,
            Fault::Label => 5,
        }
    }
}

impl LineFail {
    /// The failure of a whole input whose line of this number is not read.
    pub fn at(self, line: u32) -> Fail
        ensures { result ≡ fail_at self line }
    {
        match self {
            LineFail::Code(code) => Fail::Refused(Refusal { code, line }),
            LineFail::NoMemory => Fail::NoMemory,
        }
    }
}

impl From<Fault> for LineFail {
    ghost from_gives = { λ fault fail. fail ≡ Code (code_of fault) };

    fn from(fault: Fault) -> LineFail {
        LineFail::Code(fault.code())
    }
}

impl From<NoMemory> for LineFail {
    ghost from_gives = { λ _ fail. fail ≡ OutOfMemory };

    fn from(_error: NoMemory) -> LineFail {
        LineFail::NoMemory
    }
}

impl From<AllocError> for LineFail {
    ghost from_gives = { λ _ fail. fail ≡ OutOfMemory };

    fn from(_error: AllocError) -> LineFail {
        LineFail::NoMemory
    }
}
