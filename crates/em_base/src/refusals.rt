//! Why an input is refused.

ghost use Rattle.std.specs.Prelude.{◌≡◌};
ghost use Rattle.em_base.specs.declared.refusals.Fail.TheVariants.{NoMemory as OutOfMemory};

use crate::memory::NoMemory;
use std::alloc::AllocError;
use thiserror::Error;

/// What is wrong with an input, and where.
#[derive(Clone, Copy, Debug, PartialEq, Eq)]
pub struct Refusal {
    /// The number of the fault's kind, by the table of codes in docs/FORMATS.md.
    pub code: u16,
    /// The line, counted from 1 over the whole input.
    pub line: u32,
}

/// Why a part of an input was not taken.
#[derive(Clone, Copy, Debug, PartialEq, Eq, Error)]
pub enum Fail {
    /// The input has a fault, and this is the first one.
    #[error("error {} line {}", .0.code, .0.line)]
    Refused(Refusal),
    /// Memory could not be had.
    #[error("memory ran out")]
    NoMemory,
}

impl From<NoMemory> for Fail {
    ghost from_gives = { λ _ fail. fail ≡ OutOfMemory };

    fn from(_error: NoMemory) -> Fail {
        Fail::NoMemory
    }
}

impl From<AllocError> for Fail {
    ghost from_gives = { λ _ fail. fail ≡ OutOfMemory };

    fn from(_error: AllocError) -> Fail {
        Fail::NoMemory
    }
}
