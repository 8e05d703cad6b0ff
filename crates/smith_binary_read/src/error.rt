ghost use Rattle.std.specs.Prelude.{◌≡◌};
ghost use Rattle.smith_binary_read.specs.declared.error.ReadError.TheVariants.{Memory};

use std::alloc::{AllocError, AllocFailed};
use thiserror::Error;

/// The reason why bytes are malformed: a rule of the standard's chapter Binary Format that they break.
#[derive(Clone, Copy, Debug, PartialEq, Eq, Error)]
pub enum Reason {
    /// The bytes end within an item.
    #[error("unexpected end")]
    UnexpectedEnd,
    /// An integer has more bytes than integers of its type may have (Integers).
    #[error("integer representation too long")]
    IntegerTooLong,
    /// An integer does not fit its type, or its last byte has unused bits of another value (Integers).
    #[error("integer too large")]
    IntegerTooLarge,
    /// A name is not UTF-8 (Names).
    #[error("malformed UTF-8 encoding")]
    NotUtf8,
    /// A content has bytes after its item (Sections).
    #[error("section size mismatch")]
    TrailingBytes,
    /// No alternative of the grammar begins with a byte, or with a number in its place.
    #[error("unknown byte")]
    UnknownByte,
    /// No reading gives this reason. Earlier versions gave it for a type with several supertypes; it
    /// remains so that the others keep their numbers.
    #[error("invalid length of a list")]
    ListLength,
    /// A body has 2^32 locals or more (Code Section).
    #[error("too many locals")]
    ManyLocals,
    /// A section is out of order, or occurs twice (Modules).
    #[error("unexpected section")]
    SectionOrder,
    /// Two numbers of items that must agree differ (Modules).
    #[error("inconsistent counts")]
    CountMismatch,
    /// A body names a data segment, and their number is not stated (Modules).
    #[error("data count section required")]
    DataCountMissing,
}

/// The first fault of malformed bytes.
#[derive(Clone, Copy, Debug, PartialEq, Eq)]
pub struct Fault {
    /// The number of bytes from the fault to the end of those that were to be read, at most 2^64 - 1.
    pub left: usize,
    /// The rule that is broken there.
    pub reason: Reason,
}

/// An error of a reader of bytes.
#[derive(Clone, Copy, Debug, PartialEq, Eq, Error)]
pub enum ReadError {
    /// The allocator refused memory.
    #[error("out of memory")]
    Memory,
    /// The bytes are malformed.
    #[error("malformed")]
    Malformed(Fault),
}

impl From<AllocError> for ReadError {
    ghost from_gives = { λ _ e. e ≡ Memory };

    fn from(_refused: AllocError) -> ReadError {
        ReadError::Memory
    }
}

impl<T: Drop> From<AllocFailed<T>> for ReadError {
    ghost from_gives = { λ _ e. e ≡ Memory };

    fn from(_refused: AllocFailed<T>) -> ReadError {
        ReadError::Memory
    }
}
