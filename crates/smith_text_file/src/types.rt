ghost use Rattle.std.specs.Prelude.{◌≡◌, false, is_err, OnOk};
ghost use Rattle.smith_text.specs.Written.{Keeps};

use smith_text::{Sink, TextForm};
use smith_types::{Items, SubType};
use std::fmt;
use std::ops::Range;

/// The types of a module.
#[derive(Clone, Copy)]
pub(crate) struct Types<'a> {
    /// The types of all groups.
    pub(crate) types: &'a [SubType],
    /// The supertypes of each type after its first.
    pub(crate) further: &'a [Items<u32>],
    /// The places of each group.
    pub(crate) groups: &'a [Range<usize>],
}

// A type with its supertypes after the first.
#[derive(Clone, Copy)]
struct Declared<'a> {
    ty: &'a SubType,
    further: &'a [u32],
}

/// The section Text Format, Recursive Types: a sub type.
impl TextForm for Declared<'_> {
    fn write_text<S: Sink>(&self, sink: &mut S) -> fmt::Result {
        let ty = self.ty;
        if self.further.is_empty() {
            return ty.write_text(sink);
        }
        let opening = if ty.is_final { "(sub final" } else { "(sub" };
        let body = (" ", &ty.composite_type, ")");
        (opening, ty.supertype.as_slice(), (self.further, body)).write_text(sink)
    }
}

// Returns the type at `index`, if there is one.
fn type_at<'a>(types: Types<'a>, index: usize) -> Option<Declared<'a>> {
    let ty = types.types.get(index)?;
    let further = match types.further.get(index) {
        Some(list) => list.as_slice(),
        None => &[],
    };
    Some(Declared { ty, further })
}

// Writes the type at `index` on a line, after `indent`.
fn write_type<S: Sink>(indent: &str, types: Types<'_>, index: usize, sink: &mut S) -> fmt::Result
    requires open { S.failed sink.old ≡ false }
    ensures fault { S.failed sink.new ≡ is_err result }
    ensures keeps { OnOk result (Keeps S.has sink.old sink.new) }
{
    let opening = (indent, "(type (;", index);
    (opening, ";) ", (type_at(types, index), ")\n")).write_text(sink)
}

// Writes the types of a group that does not have exactly one type.
fn write_several<S: Sink>(types: Types<'_>, group: &Range<usize>, sink: &mut S) -> fmt::Result
    requires open { S.failed sink.old ≡ false }
    ensures fault { S.failed sink.new ≡ is_err result }
    ensures keeps { OnOk result (Keeps S.has sink.old sink.new) }
{
    sink.write_str("  (rec\n")?;
    for index in group.start..group.end {
        write_type("    ", types, index, sink)?;
    }
    sink.write_str("  )\n")
}

// Writes a recursive group. The section Text Format, Recursive Types, with its abbreviation for a
// group of one type.
fn write_group<S: Sink>(types: Types<'_>, group: &Range<usize>, sink: &mut S) -> fmt::Result
    requires open { S.failed sink.old ≡ false }
    ensures fault { S.failed sink.new ≡ is_err result }
    ensures keeps { OnOk result (Keeps S.has sink.old sink.new) }
{
    if group.end.saturating_sub(group.start) == 1 {
        return write_type("  ", types, group.start, sink);
    }
    write_several(types, group, sink)
}

/// Writes the types of a module, with all of their supertypes. Requires that no write to `sink` has failed.
///
/// # Errors
///
/// Returns the error of the first write that fails. Nothing is written after it.
pub(crate) fn write_types<S: Sink>(types: Types<'_>, sink: &mut S) -> fmt::Result
    requires open { S.failed sink.old ≡ false }
    ensures fault { S.failed sink.new ≡ is_err result }
    ensures keeps { OnOk result (Keeps S.has sink.old sink.new) }
{
    for group in types.groups {
        write_group(types, group, sink)?;
    }
    Ok(())
}
