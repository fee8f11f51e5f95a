//! Why a text is no trace.

ghost use Rattle.std.specs.Prelude.{◌≡◌};
ghost use Rattle.em_trace.specs.declared.fails.TraceFail.TheVariants.{NoMemory as OutOfMemory};

use em_base::NoMemory;
use thiserror::Error;

/// Why a text was not read as a trace.
#[derive(Clone, Copy, Debug, PartialEq, Eq, Error)]
pub enum TraceFail {
    /// The line of this number, counted from 1, is no line of a trace, and it is the first one.
    #[error("line {0} is no line of a trace")]
    Form(u32),
    /// Memory could not be had.
    #[error("memory ran out")]
    NoMemory,
}

impl From<NoMemory> for TraceFail {
    ghost from_gives = { λ _ fail. fail ≡ OutOfMemory };

    fn from(_error: NoMemory) -> TraceFail {
        TraceFail::NoMemory
    }
}
