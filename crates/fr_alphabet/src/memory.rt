//! Want of memory, as the calls of all crates tell it.

use std::alloc::{AllocError, AllocFailed};
use thiserror::Error;

/// There is no memory for what a call has to keep. It may come in place of any other answer of a
/// call that takes memory, and says nothing of that call's arguments.
#[derive(Clone, Copy, Debug, PartialEq, Eq, Error)]
#[error("out of memory")]
pub struct NoMemory;

impl<T: Drop> From<AllocFailed<T>> for NoMemory {
    fn from(_failed: AllocFailed<T>) -> NoMemory {
        NoMemory
    }
}

impl From<AllocError> for NoMemory {
    fn from(_failed: AllocError) -> NoMemory {
        NoMemory
    }
}
