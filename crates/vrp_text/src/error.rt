//! Why a file is refused.
ghost use Rattle.std.specs.Prelude.{◌≡◌};
ghost use Rattle.vrp_text.specs.Refusal.{refusal_of};
ghost use Rattle.vrp_text.specs.declared.error.TextError.TheVariants.{OutOfMemory};

use crate::lexer::Key;
use std::alloc::{AllocError, AllocFailed};
use thiserror::Error;
use vrp_model::{InstanceError, NoMemory};

/// Why a file is refused. Lines are numbered from 1.
#[derive(Clone, Copy, Debug, PartialEq, Eq, Error)]
pub enum TextError {
    /// A data line stands outside any section.
    #[error("line {0}: data outside a section")]
    DataOutside(u32),
    /// The keyword is not one of the standard.
    #[error("line {0}: unknown keyword")]
    UnknownKeyword(u32),
    /// The keyword belongs to a `Key` that an earlier line has.
    #[error("line {0}: repeated keyword")]
    Repeated(u32),
    /// A keyword's value is missing, unknown, not a whole number or out of range, or text follows a section's keyword.
    #[error("line {0}: bad value")]
    BadValue(u32),
    /// A keyword or value of the standard that is not supported.
    #[error("line {0}: not supported")]
    Unsupported(u32),
    /// A token is not a numeral, or its whole value is out of range.
    #[error("line {0}: bad number")]
    BadNumber(u32),
    /// A numeral has a value that is not whole.
    #[error("line {0}: number is not whole")]
    NotWhole(u32),
    /// A needed keyword or section is missing: the first in the order of `Key`.
    #[error("missing {0}")]
    Missing(Key),
    /// A section has too many or too few tokens, or lists no depot: the first in the order of `Key`.
    #[error("wrong count in {0}")]
    WrongCount(Key),
    /// A number is not a node from 1 to the dimension, or occurs twice in a section with one line for each node.
    #[error("bad node {1} in {0}")]
    BadNode(Key, i64),
    /// The file can be read, but no instance can be made from it. Never holds `InstanceError::OutOfMemory`.
    #[error("{0}")]
    Instance(InstanceError),
    /// The file has more than `MAX_BYTES` bytes.
    #[error("input too long")]
    TooLong,
    /// An allocation was refused.
    #[error("out of memory")]
    OutOfMemory,
}

impl From<AllocError> for TextError {
    ghost from_gives = { λ _ error. error ≡ OutOfMemory };

    fn from(_refusal: AllocError) -> TextError {
        TextError::OutOfMemory
    }
}

impl<T: Drop> From<AllocFailed<T>> for TextError {
    ghost from_gives = { λ _ error. error ≡ OutOfMemory };

    fn from(_refusal: AllocFailed<T>) -> TextError {
        TextError::OutOfMemory
    }
}

impl From<NoMemory> for TextError {
    ghost from_gives = { λ _ error. error ≡ OutOfMemory };

    fn from(_refusal: NoMemory) -> TextError {
        TextError::OutOfMemory
    }
}

impl From<InstanceError> for TextError {
    ghost from_gives = { λ refusal error. error ≡ refusal_of refusal };

    fn from(refusal: InstanceError) -> TextError {
        match refusal {
            InstanceError::OutOfMemory => TextError::OutOfMemory,
            _ => TextError::Instance(refusal),
        }
    }
}
