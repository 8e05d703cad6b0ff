ghost use Rattle.std.specs.Prelude.{◌≡◌, take};
ghost use Rattle.std.specs.String.{string_bytes};
ghost use Rattle.smith_config_json.specs.Lines.{line_of, column_of};

use crate::fault::Fault;
use crate::field::{FieldKind, kind_of};
use std::error::Error;
use std::fmt;

/// The reason why an object within a longer text is not a configuration, and its place.
#[derive(Debug, Drop)]
pub struct Refusal {
    /// The fault.
    pub fault: Fault,
    /// The name of the member at fault, empty if no member is.
    pub field: String,
    /// The offset in bytes of the name or the value at fault.
    pub offset: usize,
}

/// The reason why a text is not a configuration, and its place.
#[derive(Debug, Drop)]
pub struct ConfigRefusal {
    /// The fault.
    pub fault: Fault,
    /// The name of the member at fault, empty if no member is.
    pub field: String,
    /// The line of the name or the value at fault, from 1.
    pub line: usize,
    /// The column in that line, in characters from 1.
    pub column: usize,
}

impl Refusal {
    /// Returns the refusal with the line and the column of its offset in `text`, which the reader has
    /// read.
    pub fn in_text(self, text: &str) -> ConfigRefusal
        ensures reason { (result.fault ≡ self.fault)
            × (string_bytes result.field ≡ string_bytes self.field) }
        ensures line { result.line ≡ line_of (take self.offset text.now) }
        ensures column { result.column ≡ column_of (take self.offset text.now) }
    {
        let Refusal {
            fault,
            field,
            offset,
        } = self;
        let before = &text.as_bytes()[..offset.min(text.len())];
        ConfigRefusal {
            fault,
            field,
            line: line_of(before),
            column: column_of(before),
        }
    }
}

/// Returns the line, from 1, of the place after the bytes `before`.
fn line_of(before: &[u8]) -> usize
    ensures { result ≡ line_of before.now }
{
    let mut feeds = 0;
    for byte in before {
        if *byte == b'\n' {
            feeds += 1;
        }
    }
    feeds + 1
}

/// Returns the column, a character from 1, of the place after the bytes `before`.
fn column_of(before: &[u8]) -> usize
    ensures { result ≡ column_of before.now }
{
    let mut characters = 0;
    for byte in before {
        if *byte == b'\n' {
            characters = 0;
        } else if *byte & 0xC0 != 0x80 {
            characters += 1;
        }
    }
    characters + 1
}

/// Returns the text of a fault before the name of the member at fault, and the text after it, which
/// is empty if the name is not written.
fn around_name(fault: Fault, has_name: bool) -> (&'static str, &'static str) {
    match fault {
        Fault::NotAnObject if has_name => ("the value of `", "` is not JSON"),
        Fault::NotAnObject => ("not a JSON object", ""),
        Fault::UnknownField => ("there is no field `", "`"),
        Fault::RepeatedField => ("the field `", "` occurs twice"),
        Fault::WrongType => ("the value of `", "` has the wrong type"),
        Fault::OutOfRange => ("the value of `", "` is out of range"),
        Fault::TextAfter => ("text follows the object", ""),
        Fault::OutOfMemory => ("out of memory", ""),
    }
}

impl ConfigRefusal {
    /// Returns the kind of values that the member takes, if its value is at fault.
    fn wanted_kind(&self) -> Option<FieldKind> {
        match self.fault {
            Fault::WrongType | Fault::OutOfRange => kind_of(self.field.as_str()),
            _ => None,
        }
    }
}

impl fmt::Display for ConfigRefusal {
    fn fmt<W: fmt::Write>(&self, f: &mut fmt::Formatter<W>) -> fmt::Result {
        let field = self.field.as_str();
        let (before, after) = around_name(self.fault, !field.is_empty());
        let name = if after.is_empty() { "" } else { field };
        write!(
            f,
            "line {}, column {}: {before}{name}{after}",
            self.line, self.column
        )?;
        match self.wanted_kind() {
            Some(kind) => write!(f, "; it takes {kind}"),
            None => Ok(()),
        }
    }
}

impl Error for ConfigRefusal {}
