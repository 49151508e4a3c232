//! What can go wrong outside: want of memory, and a failure of a library or a sink.

use std::alloc::{AllocError, AllocFailed};

/// Memory was refused. Nothing else is ever told by it.
#[derive(Clone, Copy, PartialEq, Eq)]
pub struct Memory;

/// The outside failed: what was asked of a sink was not done.
#[derive(Clone, Copy, PartialEq, Eq)]
pub struct Failed;

impl From<AllocError> for Memory {
    fn from(_error: AllocError) -> Memory {
        Memory
    }
}

impl<T: Drop> From<AllocFailed<T>> for Memory {
    fn from(_error: AllocFailed<T>) -> Memory {
        Memory
    }
}
