use smith_decode::DecodeError;
use thiserror::Error;

/// The reason why bytes spell no shape.
#[derive(Clone, Copy, Debug, PartialEq, Eq, Error)]
pub enum ShapeFault {
    /// The bytes spell no module, or memory was refused.
    #[error("{0}")]
    Binary(DecodeError),
    /// The bytes spell a module in which a type has several supertypes.
    #[error("a type has several supertypes")]
    Supertypes,
}
