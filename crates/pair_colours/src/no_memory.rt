//! Want of memory, the one answer that no clause ties to a cause.

use std::alloc::{AllocError, AllocFailed};

/// There is not enough memory. Every call of this crate, and of the crates above it, that takes
/// memory may answer so. What it was lent is as it was, unless the call says otherwise.
#[derive(Clone, Copy, Debug, PartialEq, Eq)]
pub struct NoMemory;

impl From<AllocError> for NoMemory {
    fn from(_error: AllocError) -> NoMemory {
        NoMemory
    }
}

impl<T: Drop> From<AllocFailed<T>> for NoMemory {
    fn from(_error: AllocFailed<T>) -> NoMemory {
        NoMemory
    }
}
