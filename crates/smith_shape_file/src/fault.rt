use smith_decode::DecodeError;
use smith_shape_text::{TextFault, TextRefusal};
use thiserror::Error;

/// The reason why the bytes of a file spell no shape.
#[derive(Clone, Copy, Debug, PartialEq, Eq, Error)]
pub enum ShapeFileFault {
    /// The bytes begin with the magic number of the binary format, but spell no module.
    #[error("{0}")]
    Binary(DecodeError),
    /// The bytes spell a module in the binary format in which a type has several supertypes.
    #[error("a type has several supertypes")]
    Supertypes,
    /// The bytes spell no module in the text format.
    #[error("{0}")]
    Text(TextRefusal),
}

impl ShapeFileFault {
    /// Returns whether memory was refused.
    pub fn is_memory(&self) -> bool {
        match self {
            ShapeFileFault::Binary(error) => *error == DecodeError::Memory,
            ShapeFileFault::Supertypes => false,
            ShapeFileFault::Text(refusal) => refusal.fault == TextFault::Memory,
        }
    }
}
