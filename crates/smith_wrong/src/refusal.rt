use smith_binary::EncodeError;
use smith_bytes::Error as ModuleError;
use thiserror::Error;

/// The reason why there is no invalid file.
#[derive(Clone, Copy, Debug, PartialEq, Eq, Error)]
pub enum WrongRefusal {
    /// The generator drew no program, for this reason.
    #[error("{0}")]
    Module(ModuleError),
    /// The program that was drawn is not written, for this reason.
    #[error("{0}")]
    Encoding(EncodeError),
    /// An allocation failed after the program was written.
    #[error("out of memory")]
    Memory,
    /// No change that was tried breaks a rule.
    #[error("no change that was tried breaks a rule")]
    NoChange,
}
