ghost use Rattle.std.specs.Prelude.{◌≡◌, false, is_err, OnOk};
ghost use Rattle.smith_text.specs.Written.{Keeps};

use crate::sink::Sink;
use crate::text_form::TextForm;
use smith_types::Name;
use std::fmt;

fn write_byte<S: Sink>(byte: u8, sink: &mut S) -> fmt::Result
    requires open { S.failed sink.old ≡ false }
    ensures fault { S.failed sink.new ≡ is_err result }
    ensures keeps { OnOk result (Keeps S.has sink.old sink.new) }
{
    match byte {
        b'"' => sink.write_str("\\\""),
        b'\\' => sink.write_str("\\\\"),
        b' '..=b'~' => sink.write_fmt(byte as char),
        _ => write!(sink, "\\{byte:02x}"),
    }
}

/// Writes `bytes` as a string. Printable ASCII is written as it is, with a backslash before a
/// quotation mark and a backslash; any other byte as two hexadecimal digits after a backslash. The
/// section Text Format, Strings. Requires that no write to `sink` has failed.
///
/// # Errors
///
/// Returns the error of the first write that fails. Nothing is written after it.
pub fn write_string<S: Sink>(bytes: &[u8], sink: &mut S) -> fmt::Result
    requires open { S.failed sink.old ≡ false }
    ensures fault { S.failed sink.new ≡ is_err result }
    ensures keeps { OnOk result (Keeps S.has sink.old sink.new) }
{
    sink.write_str("\"")?;
    for byte in bytes {
        write_byte(*byte, sink)?;
    }
    sink.write_str("\"")
}

/// The section Text Format, Names. A character outside of ASCII is written as the bytes of its
/// UTF-8.
impl TextForm for Name {
    fn write_text<S: Sink>(&self, sink: &mut S) -> fmt::Result {
        write_string(self.as_str().as_bytes(), sink)
    }
}
