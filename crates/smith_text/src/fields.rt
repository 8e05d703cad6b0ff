ghost use Rattle.std.specs.Prelude.{◌≡◌, false, is_err, OnOk};
ghost use Rattle.smith_text.specs.Written.{Keeps};

use crate::sink::Sink;
use crate::text_form::TextForm;
use smith_types::{ExportKind, Name};
use std::fmt;

/// Writes a field that defines the entity, the type or the segment of the index `index`, on a line:
/// `keyword`, the index as a comment, and `details`. The section Text Format, Modules. Requires that no
/// write to `sink` has failed.
///
/// # Errors
///
/// Returns the error of the first write that fails. Nothing is written after it.
pub fn write_field<D: TextForm, S: Sink>(
    keyword: &str,
    index: usize,
    details: &D,
    sink: &mut S,
) -> fmt::Result
    requires open { S.failed sink.old ≡ false }
    ensures fault { S.failed sink.new ≡ is_err result }
    ensures keeps { OnOk result (Keeps S.has sink.old sink.new) }
{
    let opening = ("  (", keyword, (" (;", index, ";) "));
    (opening, details, ")\n").write_text(sink)
}

/// Writes the export of the entity `index` of the kind `kind` on a line. The section Text Format,
/// Exports. Requires that no write to `sink` has failed.
///
/// # Errors
///
/// Returns the error of the first write that fails. Nothing is written after it.
pub fn write_export<S: Sink>(name: &Name, kind: ExportKind, index: u32, sink: &mut S) -> fmt::Result
    requires open { S.failed sink.old ≡ false }
    ensures fault { S.failed sink.new ≡ is_err result }
    ensures keeps { OnOk result (Keeps S.has sink.old sink.new) }
{
    let opening = ("  (export ", name, " (");
    (opening, (&kind, " ", index), "))\n").write_text(sink)
}

/// Writes the start function on a line, if there is one. The section Text Format, Start Function.
/// Requires that no write to `sink` has failed.
///
/// # Errors
///
/// Returns the error of the first write that fails. Nothing is written after it.
pub fn write_start<S: Sink>(start: Option<u32>, sink: &mut S) -> fmt::Result
    requires open { S.failed sink.old ≡ false }
    ensures fault { S.failed sink.new ≡ is_err result }
    ensures keeps { OnOk result (Keeps S.has sink.old sink.new) }
{
    match start {
        Some(index) => ("  (start ", index, ")\n").write_text(sink),
        None => Ok(()),
    }
}
