use smith_bytes::Error;
use std::alloc::{AllocError, AllocFailed};
use std::fmt;

/// A reason why a call may not be made: a condition of the call that does not hold.
#[derive(Clone, Copy)]
pub enum Obstacle {
    /// The configuration does not pass its check.
    InvalidConfig,
    /// The types aren't valid.
    InvalidTypes,
    /// The value type isn't valid over the types.
    InvalidValueType,
    /// The element type isn't valid over the types.
    InvalidElementType,
    /// No value of the element type can be drawn.
    NoElement,
    /// The configuration has no references.
    NoReferences,
    /// A type is named that does not exist.
    MissingType,
    /// A type may not follow the types before it.
    MisplacedType,
    /// Shared types are off.
    NoSharedTypes,
    /// The greatest number of types is reached.
    NoFurtherType,
    /// No group of types may be cloned.
    NothingToClone,
    /// The first type may not have subtypes, there is none, or garbage collection is off.
    FinalType,
    /// No type can be that of a tag.
    NoTagType,
    /// The numbers aren't in order.
    Disorder,
    /// No index is left for a global.
    TooManyGlobals,
}

impl Obstacle {
    fn text(self) -> &'static str {
        match self {
            Obstacle::InvalidConfig => "the configuration doesn't pass",
            Obstacle::InvalidTypes => "the types aren't valid",
            Obstacle::InvalidValueType => "the value type isn't valid",
            Obstacle::InvalidElementType => "the element type isn't valid",
            Obstacle::NoElement => "no element can be drawn",
            Obstacle::NoReferences => "references are off",
            Obstacle::MissingType => "a type is not defined",
            Obstacle::MisplacedType => "a type cannot be added",
            Obstacle::NoSharedTypes => "no type may be shared",
            Obstacle::NoFurtherType => "no further type is allowed",
            Obstacle::NothingToClone => "nothing may be cloned",
            Obstacle::FinalType => "the first type may not have subtypes",
            Obstacle::NoTagType => "no type can be the type of a tag",
            Obstacle::Disorder => "the numbers aren't in order",
            Obstacle::TooManyGlobals => "there are too many globals",
        }
    }
}

/// A reason why a case cannot be answered.
#[derive(Clone, Copy)]
pub enum Fault {
    /// The line is not a JSON object of strings, lists of strings and a configuration, from this
    /// byte on.
    Syntax(usize),
    /// A key that no case has. The number is that of the byte after it.
    UnknownKey(usize),
    /// The same key twice. The number is that of the byte after the second.
    RepeatedKey(usize),
    /// No name, or an empty one.
    NoName,
    /// No call, or an unknown one.
    UnknownCall,
    /// An unknown shape.
    UnknownShape,
    /// An input that is not hexadecimal.
    Input,
    /// An unknown way to make several inputs.
    UnknownInputs,
    /// The argument at this place, from 0, is missing, or is not valid for the call.
    Argument(usize),
    /// More arguments than the call has.
    TooManyArguments,
    /// A key that the call does not read.
    UselessKey,
    /// Nothing is wanted, or an empty list.
    WantsNothing,
    /// A line or a piece is wanted that each answer has.
    EmptyPiece,
    /// A line is wanted after one that matches all further lines.
    WantsUnread,
    /// The second run returns a different answer.
    Unsteady,
    /// The call may not be made.
    NotCallable(Obstacle),
    /// The configuration cannot be read.
    Config {
        /// The fault of its text.
        fault: smith_config_json::Fault,
        /// The line of the fault, from 1.
        line: usize,
        /// The column in that line, from 1.
        column: usize,
    },
    /// Memory ran out, which is the only refusal of plain data.
    Memory,
}

impl Fault {
    // Returns the text of a fault up to its contents.
    fn text(self) -> &'static str {
        match self {
            Fault::Syntax(_) => "not a JSON object of a case, from byte ",
            Fault::UnknownKey(_) => "an unknown key before byte ",
            Fault::RepeatedKey(_) => "the key before byte ",
            Fault::NoName => "no name",
            Fault::UnknownCall => "an unknown call",
            Fault::UnknownShape => "an unknown shape",
            Fault::Input => "the input is not hexadecimal",
            Fault::UnknownInputs => "unknown inputs",
            Fault::Argument(_) => "argument ",
            Fault::TooManyArguments => "more arguments than the call has",
            Fault::UselessKey => "a key that the call does not read",
            Fault::WantsNothing => "nothing is wanted",
            Fault::EmptyPiece => "an empty piece is wanted",
            Fault::WantsUnread => "lines are wanted after `...`",
            Fault::Unsteady => "the second run returned a different answer",
            Fault::NotCallable(_) => "the call may not be made: ",
            Fault::Config { .. } => "the configuration, line ",
            Fault::Memory => "refused: Memory",
        }
    }

    // Returns the number in the text of a fault, if there is a single one.
    fn number(self) -> Option<usize> {
        match self {
            Fault::Syntax(number)
            | Fault::UnknownKey(number)
            | Fault::RepeatedKey(number)
            | Fault::Argument(number) => Some(number),
            _ => None,
        }
    }

    // Returns the text of a fault after its number.
    fn end(self) -> &'static str {
        match self {
            Fault::RepeatedKey(_) => " occurs twice",
            Fault::Argument(_) => " is missing or not valid for the call",
            Fault::NotCallable(obstacle) => obstacle.text(),
            _ => "",
        }
    }
}

impl fmt::Display for Fault {
    fn fmt<W: fmt::Write>(&self, f: &mut fmt::Formatter<W>) -> fmt::Result {
        match *self {
            Fault::Config {
                fault,
                line,
                column,
            } => write!(f, "{}{line}, column {column}: {fault:?}", self.text()),
            _ => write_around(self.text(), self.number(), self.end(), f),
        }
    }
}

// Writes `before`, the number if there is one, and `after`.
fn write_around<W: fmt::Write>(
    before: &str,
    number: Option<usize>,
    after: &str,
    f: &mut fmt::Formatter<W>,
) -> fmt::Result {
    match number {
        Some(number) => write!(f, "{before}{number}{after}"),
        None => write!(f, "{before}{after}"),
    }
}

// A test that ends with a fault shows its text.
impl fmt::Debug for Fault {
    fn fmt<W: fmt::Write>(&self, f: &mut fmt::Formatter<W>) -> fmt::Result {
        fmt::Display::fmt(self, f)
    }
}

impl From<AllocError> for Fault {
    fn from(_refused: AllocError) -> Fault {
        Fault::Memory
    }
}

// Only errors of calls that nothing but lack of memory refuses are converted.
impl From<Error> for Fault {
    fn from(_refused: Error) -> Fault {
        Fault::Memory
    }
}

impl<T: Drop> From<AllocFailed<T>> for Fault {
    fn from(_refused: AllocFailed<T>) -> Fault {
        Fault::Memory
    }
}
