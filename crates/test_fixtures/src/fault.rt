//! Why a fixture can't be made.

use std::alloc::AllocError;
use thiserror::Error;
use vrp_model::{InstanceError, NoMemory};

/// Why a fixture can't be made.
#[derive(Clone, Copy, Debug, PartialEq, Eq, Error)]
pub enum FixtureError {
    /// Its parts are outside the limits of an instance, or do not fit together.
    #[error("out of range")]
    OutOfRange,
    /// The instance is refused.
    #[error("{0}")]
    Refused(InstanceError),
    /// An allocation was refused.
    #[error("out of memory")]
    OutOfMemory,
}

impl From<InstanceError> for FixtureError {
    fn from(fault: InstanceError) -> FixtureError {
        FixtureError::Refused(fault)
    }
}

impl From<NoMemory> for FixtureError {
    fn from(_: NoMemory) -> FixtureError {
        FixtureError::OutOfMemory
    }
}

impl From<AllocError> for FixtureError {
    fn from(_: AllocError) -> FixtureError {
        FixtureError::OutOfMemory
    }
}
