//! Want of memory.

use std::alloc::{AllocError, AllocFailed};
use thiserror::Error;

/// There was no memory for what the call had to hold.
#[derive(Clone, Copy, Debug, PartialEq, Eq, Error)]
#[error("out of memory")]
pub struct NoMemory;

impl From<AllocError> for NoMemory {
    fn from(_error: AllocError) -> NoMemory {
        NoMemory
    }
}

impl<T: Drop> From<AllocFailed<T>> for NoMemory {
    /// What found no room is dropped.
    fn from(_failed: AllocFailed<T>) -> NoMemory {
        NoMemory
    }
}
