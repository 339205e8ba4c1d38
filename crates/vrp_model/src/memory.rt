//! The only error of calls that can fail only for lack of memory.

use std::alloc::{AllocError, AllocFailed};
use thiserror::Error;

/// An allocation was refused. The field is private, so only the kit's errors for that convert to this one, and no other error
/// does by mistake.
#[derive(Clone, Copy, Debug, PartialEq, Eq, Error)]
#[error("out of memory")]
pub struct NoMemory(());

impl From<AllocError> for NoMemory {
    fn from(_refusal: AllocError) -> NoMemory {
        NoMemory(())
    }
}

impl<T: Drop> From<AllocFailed<T>> for NoMemory {
    fn from(_refusal: AllocFailed<T>) -> NoMemory {
        NoMemory(())
    }
}
