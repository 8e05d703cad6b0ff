ghost use Rattle.std.specs.Prelude.{◌≡◌};
ghost use Rattle.smith_binary.specs.declared.error.EncodeError.TheVariants.{Memory};

use std::alloc::{AllocError, AllocFailed};
use thiserror::Error;

/// An error of a writer of bytes.
#[derive(Clone, Copy, Debug, PartialEq, Eq, Error)]
pub enum EncodeError {
    /// The allocator refused memory.
    #[error("out of memory")]
    Memory,
    /// A list has 2^32 items or more, or a content has 2^32 bytes or more. The format counts both
    /// with 32 bits.
    #[error("a list or a section is too long")]
    TooLong,
}

impl From<AllocError> for EncodeError {
    ghost from_gives = { λ _ e. e ≡ Memory };

    fn from(_refused: AllocError) -> EncodeError {
        EncodeError::Memory
    }
}

impl<T: Drop> From<AllocFailed<T>> for EncodeError {
    ghost from_gives = { λ _ e. e ≡ Memory };

    fn from(_refused: AllocFailed<T>) -> EncodeError {
        EncodeError::Memory
    }
}
