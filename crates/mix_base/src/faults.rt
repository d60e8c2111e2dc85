// The two ways in which a call can fail that is not refused: want of memory, and a failure of the outside.
use std::alloc::{AllocError, AllocFailed};
use thiserror::Error;

/// Want of memory. It may come at any call that takes memory, and no contract says when.
#[derive(Clone, Copy, Debug, PartialEq, Eq, Error)]
#[error("want of memory")]
pub struct Memory;

impl From<AllocError> for Memory {
    fn from(_: AllocError) -> Self {
        Memory
    }
}

impl<T: Drop> From<AllocFailed<T>> for Memory {
    fn from(_: AllocFailed<T>) -> Self {
        Memory
    }
}

/// A disk, a source, a link or another object of the outside has failed. It comes only where that object's
/// count of faults rose in the call.
#[derive(Clone, Copy, Debug, PartialEq, Eq, Error)]
#[error("an object of the outside failed")]
pub struct Failed;
