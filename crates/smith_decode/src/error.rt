use smith_binary_read::Reason;
use thiserror::Error;

/// An error of the decoder.
#[derive(Clone, Copy, Debug, PartialEq, Eq, Error)]
pub enum DecodeError {
    /// The allocator refused memory.
    #[error("out of memory")]
    Memory,
    /// The bytes are no module. The first fault is at the byte `offset`, counted from 0, and breaks the
    /// rule `reason`. Numbers of items that differ, and a number of data segments that is not stated,
    /// are a fault at the end.
    #[error("malformed at byte {offset}: {reason}")]
    Malformed { offset: usize, reason: Reason },
    /// A form of the module is of a feature that is off, so the bytes are no module of these features.
    /// The first item with such a form begins at the byte `offset`, counted from 0.
    #[error("feature is off at byte {offset}")]
    FeatureOff { offset: usize },
}
