use crate::malformed::Malformed;
use crate::print::LOCALS;
use smith_bytes::Error;
use smith_config_json::ConfigRefusal;
use smith_request::Refusal;
use smith_shape_file::ShapeFileFault;
use std::alloc::{AllocError, AllocFailed};
use std::{fmt, io};

/// The reason why the program ends without its output.
#[derive(Debug, Drop)]
pub(crate) enum Failure {
    /// A file or a stream was not read or written: its path, and why.
    File(String, io::Error),
    /// A stream of the program was not read or written.
    Stream(io::Error),
    /// A configuration file is refused: its path, and why.
    Config(String, ConfigRefusal),
    /// A word is not a value of its field: the sentence that says so.
    Word(String),
    /// The generator refused the input, or the module was not written.
    Refused(Refusal),
    /// No change that was tried makes a file invalid.
    NoChange,
    /// A binary is not written to a terminal, and `--wat` writes a text.
    Terminal,
    /// An invalid file is not written to a terminal.
    InvalidTerminal,
    /// A file is no module.
    Malformed(Malformed),
    /// The bodies of a file have more locals than are written as text: its path.
    Locals(String),
    /// A file is no shape: its path, and why.
    Shape(String, ShapeFileFault),
}

impl Failure {
    /// Returns the status that the program ends with: 2 if the parser of a word or of the
    /// configuration file refuses it, a file is no shape, or a binary would go to a terminal, else 1.
    pub(crate) fn status(&self) -> u8 {
        match self {
            Failure::Config(..)
            | Failure::Word(..)
            | Failure::Terminal
            | Failure::InvalidTerminal
            | Failure::Shape(..) => 2,
            _ => 1,
        }
    }
}

// The refusal of a binary for a terminal.
const TERMINAL: &str =
    "a binary is not written to a terminal: name a file with --output, or use --wat for text";

// The refusal of an invalid file for a terminal.
const INVALID_TERMINAL: &str = "a binary is not written to a terminal: name a file with --output";

// The refusal of an input of which no invalid file is made.
const NO_CHANGE: &str = "no change of these families that was tried makes the file invalid";

impl fmt::Display for Failure {
    fn fmt<W: fmt::Write>(&self, f: &mut fmt::Formatter<W>) -> fmt::Result {
        match self {
            Failure::File(path, error) => write!(f, "{path}: {error}"),
            Failure::Stream(error) => write!(f, "{error}"),
            Failure::Config(path, refusal) => write!(f, "{path}: {refusal}"),
            Failure::Word(sentence) => f.write_str(sentence.as_str()),
            Failure::Refused(refusal) => write!(f, "refused: {refusal}"),
            Failure::NoChange => f.write_str(NO_CHANGE),
            Failure::Terminal => f.write_str(TERMINAL),
            Failure::InvalidTerminal => f.write_str(INVALID_TERMINAL),
            Failure::Malformed(malformed) => write!(f, "{malformed}"),
            Failure::Locals(path) => write!(f, "{path}: it has more than {LOCALS} locals"),
            Failure::Shape(path, fault) => write!(f, "{path}: {fault}"),
        }
    }
}

impl From<AllocError> for Failure {
    fn from(_refused: AllocError) -> Failure {
        Failure::from(Error::Memory)
    }
}

impl<T: Drop> From<AllocFailed<T>> for Failure {
    fn from(_refused: AllocFailed<T>) -> Failure {
        Failure::from(Error::Memory)
    }
}

impl From<io::Error> for Failure {
    fn from(error: io::Error) -> Failure {
        Failure::Stream(error)
    }
}

impl From<Error> for Failure {
    fn from(refusal: Error) -> Failure {
        Failure::Refused(Refusal::Module(refusal))
    }
}

impl From<Refusal> for Failure {
    fn from(refusal: Refusal) -> Failure {
        Failure::Refused(refusal)
    }
}
