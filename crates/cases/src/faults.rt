//! Why a case, or a file of cases, is not of the form.

use em_base::NoMemory;
use std::alloc::{AllocError, AllocFailed};
use thiserror::Error;

/// What is wrong with a case or with a file of cases. A key is named where it is the cause.
#[derive(Clone, Copy, Debug, PartialEq, Eq, Error)]
pub enum Fault {
    /// The file of cases can't be read.
    #[error("the file can't be read")]
    NoFile,
    /// The file of cases is no TOML.
    #[error("the file is no TOML")]
    NoToml,
    /// The file has no cases.
    #[error("the file has no array `case`")]
    NoCases,
    /// A case is no table.
    #[error("the case is no table")]
    NoTable,
    /// A key that is required isn't there.
    #[error("`{0}` is missing")]
    Missing(&'static str),
    /// A value is of another kind than its key asks.
    #[error("`{0}` has a value that it can't have")]
    WrongValue(&'static str),
    /// A key names a file that can't be read.
    #[error("`{0}` names a file that can't be read")]
    Unreadable(&'static str),
    /// Two keys are given of which one may be.
    #[error("`{0}` and `{1}` are both given")]
    Both(&'static str, &'static str),
    /// A key is none of a case.
    #[error("a key is none of a case")]
    Unknown,
    /// The name stands twice in the file.
    #[error("the name stands twice")]
    Twice,
    /// Memory ran out.
    #[error("memory ran out")]
    NoMemory,
}

impl From<AllocError> for Fault {
    fn from(_: AllocError) -> Fault {
        Fault::NoMemory
    }
}

impl<T: Drop> From<AllocFailed<T>> for Fault {
    fn from(_: AllocFailed<T>) -> Fault {
        Fault::NoMemory
    }
}

/// Why a case didn't pass.
#[derive(Debug, Drop, Error)]
pub enum Wrong {
    /// It came to something else than it must, as this text says.
    #[error("{0}")]
    Differs(String),
    /// It is no case.
    #[error(transparent)]
    NoCase(#[from] Fault),
}

impl From<NoMemory> for Wrong {
    fn from(_: NoMemory) -> Wrong {
        Wrong::NoCase(Fault::NoMemory)
    }
}

impl From<AllocError> for Wrong {
    fn from(_: AllocError) -> Wrong {
        Wrong::NoCase(Fault::NoMemory)
    }
}
