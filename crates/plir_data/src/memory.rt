//! Want of memory.

use std::alloc::{AllocError, AllocFailed};
use thiserror::Error;

/// A growth that was asked for was refused; nothing else has changed.
#[derive(Clone, Copy, PartialEq, Eq, Debug, Error)]
#[error("out of memory")]
pub struct Memory;

impl From<AllocError> for Memory {
    fn from(_refused: AllocError) -> Memory {
        Memory
    }
}

impl<T: Drop> From<AllocFailed<T>> for Memory {
    fn from(_refused: AllocFailed<T>) -> Memory {
        Memory
    }
}
