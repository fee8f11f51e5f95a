//! Want of memory, the one answer that needs no cause.

use std::alloc::{AllocError, AllocFailed};
use thiserror::Error;

/// Memory could not be had. Any call that is handed an allocator may answer so.
#[derive(Clone, Copy, Debug, PartialEq, Eq, Error)]
#[error("memory ran out")]
pub struct NoMemory;

impl From<AllocError> for NoMemory {
    fn from(_error: AllocError) -> NoMemory {
        NoMemory
    }
}

impl<T: Drop> From<AllocFailed<T>> for NoMemory {
    fn from(_error: AllocFailed<T>) -> NoMemory {
        NoMemory
    }
}
