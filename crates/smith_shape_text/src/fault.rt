ghost use Rattle.std.specs.Prelude.{◌≡◌, ◌≤◌, length};

use smith_bytes::Error as SourceError;
use std::alloc::{AllocError, AllocFailed};
use thiserror::Error;

/// The reason why a text spells no shape.
#[derive(Clone, Copy, Debug, PartialEq, Eq, Error)]
pub enum TextFault {
    /// The allocator refused memory.
    #[error("out of memory")]
    Memory,
    /// No token begins with this character (Lexical Format).
    #[error("a character that begins no token")]
    Character,
    /// A comment has no end (Comments).
    #[error("a comment without an end")]
    OpenComment,
    /// A string has no end (Strings).
    #[error("a string without an end")]
    OpenString,
    /// A backslash begins no escape, or a string has a control character (Strings).
    #[error("no character of a string")]
    Escape,
    /// A name is not UTF-8 (Names).
    #[error("a name that is not UTF-8")]
    Name,
    /// There is no string here.
    #[error("no string, where one is expected")]
    NoString,
    /// An opening parenthesis with the right keyword is missing here.
    #[error("no field of this kind, where one is expected")]
    NoField,
    /// There is no closing parenthesis here.
    #[error("no closing parenthesis, where one is expected")]
    NoClose,
    /// The standard has no such field of a module (Modules).
    #[error("no field of a module")]
    UnknownField,
    /// A type is missing here, or the standard does not have it (Types).
    #[error("no type, where one is expected")]
    NoType,
    /// A whole number is missing here, or is too large (Integers).
    #[error("no whole number in range, where one is expected")]
    Number,
    /// A page size is not a power of two.
    #[error("a page size that is no power of two")]
    PageSize,
    /// There is no index or identifier here (Indices).
    #[error("no index or identifier, where one is expected")]
    NoIndex,
    /// An identifier names nothing (Indices).
    #[error("an identifier that names nothing")]
    UnknownIdentifier,
    /// Two items of one kind have this identifier (Indices).
    #[error("an identifier that is used twice")]
    RepeatedIdentifier,
    /// There are too many items of one kind.
    #[error("too many items")]
    TooMany,
    /// An import follows a definition (Imports).
    #[error("an import after a definition")]
    LateImport,
    /// A table or a memory has no size. Its contents may give the size, but are not read.
    #[error("no size, where one is expected; contents instead of a size are not read")]
    NoSize,
}

/// The refusal of a text that spells no shape: its first fault, and the place of the fault.
#[derive(Clone, Copy, Debug, PartialEq, Eq, Error)]
#[error("line {line}, column {column}: {fault}")]
pub struct TextRefusal {
    /// The reason.
    pub fault: TextFault,
    /// The place of the fault in bytes from the start of the text.
    pub offset: usize,
    /// The line of the fault, counted from 1.
    pub line: usize,
    /// The column of the fault in characters, counted from 1.
    pub column: usize,
}

/// A fault, and its place in bytes from the start of the text.
#[derive(Clone, Copy, Debug)]
pub(crate) struct Fault {
    pub(crate) reason: TextFault,
    pub(crate) offset: usize,
}

const NO_MEMORY: Fault = Fault {
    reason: TextFault::Memory,
    offset: 0,
};

impl From<AllocError> for Fault {
    fn from(_refused: AllocError) -> Fault {
        NO_MEMORY
    }
}

impl<T: Drop> From<AllocFailed<T>> for Fault {
    fn from(_refused: AllocFailed<T>) -> Fault {
        NO_MEMORY
    }
}

impl From<SourceError> for Fault {
    fn from(_refused: SourceError) -> Fault {
        NO_MEMORY
    }
}

impl Fault {
    /// Returns the refusal of `text` for this fault.
    pub(crate) fn in_text(self, text: &[u8]) -> TextRefusal
        ensures { result.offset ≤ length text.now }
    {
        let offset = self.offset.min(text.len());
        let (line, column) = line_and_column(text.get(..offset).unwrap_or(text));
        TextRefusal {
            fault: self.reason,
            offset,
            line,
            column,
        }
    }
}

// Returns the line and the column after `before`.
fn line_and_column(before: &[u8]) -> (usize, usize) {
    let (mut line, mut column) = (1usize, 1usize);
    for byte in before {
        if *byte == b'\n' {
            line = line.saturating_add(1);
            column = 1;
        } else if !is_continuation(*byte) {
            column = column.saturating_add(1);
        }
    }
    (line, column)
}

// Returns whether `byte` is part of a character in UTF-8, but not its first byte.
fn is_continuation(byte: u8) -> bool {
    (0x80..0xC0).contains(&byte)
}
