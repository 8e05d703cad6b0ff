ghost use Rattle.std.specs.Prelude.{◌≡◌};
ghost use Rattle.smith_request.specs.Refusals.{fault_status, error_status, status_of};

use smith_binary::EncodeError;
use smith_bytes::{Count, Error, Which, Why};
use smith_config_json::{ConfigRefusal, Fault};
use smith_shape_file::ShapeFileFault;
use std::fmt;

/// The reason why there is no program, or no invalid file.
#[derive(Debug, Drop)]
pub enum Refusal {
    /// The text of the configuration isn't UTF-8.
    NotUtf8,
    /// The text of the configuration is refused, for this reason.
    Config(ConfigRefusal),
    /// The generator drew no module, for this reason.
    Module(Error),
    /// The program cannot be written, for this reason.
    Encoding(EncodeError),
    /// The bytes of the shape for this use are no module, for this reason.
    Shape(Which, ShapeFileFault),
    /// No change of the program that was tried breaks a rule.
    NoChange,
    /// The number of a family is that of none.
    NoFamily,
}

impl Refusal {
    /// Returns the number of the refusal, which is 2 or more.
    pub fn status(&self) -> u32
        ensures { result ≡ status_of self.now }
    {
        match self {
            Refusal::NotUtf8 => 3,
            Refusal::Config(refusal) => fault_status(refusal.fault),
            Refusal::Module(error) => error_status(error),
            Refusal::Encoding(EncodeError::Memory) => 2,
            Refusal::Encoding(EncodeError::TooLong) => 7,
            Refusal::Shape(_, _) => 8,
            Refusal::NoChange => 9,
            Refusal::NoFamily => 10,
        }
    }
}

impl From<Error> for Refusal {
    ghost use Rattle.std.specs.Prelude.{◌≡◌};
    ghost use Rattle.smith_request.specs.declared.refusal.Refusal.TheVariants.{Module};

    ghost from_gives = { λ e refusal. refusal ≡ Module e };

    fn from(refusal: Error) -> Refusal {
        Refusal::Module(refusal)
    }
}

fn fault_status(fault: Fault) -> u32
    ensures { result ≡ fault_status fault }
{
    match fault {
        Fault::OutOfMemory => 2,
        _ => 3,
    }
}

fn error_status(error: &Error) -> u32
    ensures { result ≡ error_status error.now }
{
    match error {
        Error::Memory => 2,
        Error::Config(_) => 4,
        Error::IncorrectFormat(_) => 5,
        Error::EmptyChoose | Error::NotEnoughData | Error::Shape(_, _) => 6,
    }
}

/// Returns in words why the minimum of `count` can't be met, and what to set.
fn advice(count: Count) -> &'static str {
    match count {
        Count::Types => "lower min-types",
        Count::Imports => "raise max-type-size or the maximums of its kinds, or lower min-imports",
        Count::Tags => {
            "the input draws no function type without results: set min-types, and leave exceptions-enabled on"
        }
        Count::Funcs => "the input draws no function type: set min-types",
        Count::Globals => "lower min-globals",
        Count::Exports => "set a minimum of what is exported, or raise max-type-size",
        Count::ElementSegments =>
            "there is no table: set min-tables, or leave bulk-memory-enabled on",
        Count::Elements => "raise max-elements, or lower min-elements",
        Count::DataSegments =>
            "there is no memory: set min-memories, or leave bulk-memory-enabled on",
        Count::Memories => "raise max-memories",
        Count::Tables => "raise max-tables",
    }
}

impl fmt::Display for Refusal {
    fn fmt<W: fmt::Write>(&self, f: &mut fmt::Formatter<W>) -> fmt::Result {
        match self {
            Refusal::NotUtf8 => f.write_str("the configuration isn't UTF-8"),
            Refusal::Config(refusal) => write!(f, "configuration, {refusal}"),
            Refusal::Module(Error::IncorrectFormat(Why::Unmet(count))) => {
                write!(f, "the minimum of {count} isn't met: {}", advice(*count))
            }
            Refusal::Module(Error::IncorrectFormat(why)) => write!(f, "{why}"),
            Refusal::Module(error) => write!(f, "{error}"),
            Refusal::Encoding(error) => write!(f, "{error}"),
            Refusal::Shape(which, fault) => write!(f, "shape of {which}: {fault}"),
            Refusal::NoChange => f.write_str("no change that was tried breaks a rule"),
            Refusal::NoFamily => f.write_str("a number is that of no family of changes"),
        }
    }
}
