ghost use Rattle.std.specs.Prelude.{◌≡◌};
ghost use Rattle.smith_encode.specs.declared.error.EncodeFault.TheVariants.{Memory};
ghost use Rattle.smith_encode.specs.Faults.{fault_of};

use smith_binary::EncodeError;
use std::alloc::AllocError;
use thiserror::Error;

/// An error of the encoder.
#[derive(Clone, Copy, Debug, PartialEq, Eq, Error)]
pub enum EncodeFault {
    /// The allocator refused memory.
    #[error("out of memory")]
    Memory,
    /// A list has 2^32 items or more, a content has 2^32 bytes or more, or a number of an instruction
    /// doesn't fit the format.
    #[error("a list, a section or a number is too long")]
    TooLong,
    /// No bytes spell the module: a type has further supertypes and no first one, or no list of them, a
    /// block doesn't end, a body has 2^32 locals or more, the numbers of functions and bodies differ, or no
    /// order of sections gives the custom ones their places.
    #[error("no bytes spell the module")]
    NoSpelling,
}

impl From<AllocError> for EncodeFault {
    ghost from_gives = { λ _ e. e ≡ Memory };

    fn from(_refused: AllocError) -> EncodeFault {
        EncodeFault::Memory
    }
}

impl From<EncodeError> for EncodeFault {
    ghost from_gives = { λ written e. e ≡ fault_of written };

    fn from(written: EncodeError) -> EncodeFault {
        match written {
            EncodeError::Memory => EncodeFault::Memory,
            EncodeError::TooLong => EncodeFault::TooLong,
        }
    }
}
