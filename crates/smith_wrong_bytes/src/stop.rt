use smith_binary::EncodeError;
use smith_binary_read::ReadError;
use std::alloc::{AllocError, AllocFailed};

/// The reason why there is no change.
#[derive(Clone, Copy, Debug, PartialEq, Eq)]
pub(crate) enum Stop {
    /// The allocator refused memory.
    Memory,
    /// The file has no place for a change of the family.
    NoPlace,
}

impl From<AllocError> for Stop {
    fn from(_refused: AllocError) -> Stop {
        Stop::Memory
    }
}

impl<T: Drop> From<AllocFailed<T>> for Stop {
    fn from(_refused: AllocFailed<T>) -> Stop {
        Stop::Memory
    }
}

impl From<ReadError> for Stop {
    fn from(error: ReadError) -> Stop {
        match error {
            ReadError::Memory => Stop::Memory,
            ReadError::Malformed(_) => Stop::NoPlace,
        }
    }
}

impl From<EncodeError> for Stop {
    fn from(error: EncodeError) -> Stop {
        match error {
            EncodeError::Memory => Stop::Memory,
            EncodeError::TooLong => Stop::NoPlace,
        }
    }
}
