ghost use Rattle.std.specs.Prelude.{◌≡◌, false, is_err, OnOk};
ghost use Rattle.smith_text.specs.Written.{Keeps};

use crate::sink::Sink;
use crate::text_form::{Listed, TextForm};
use smith_types::{
    ArrayType, CompositeInnerType, CompositeType, FieldType, FuncType, StorageType, StructType,
    SubType,
};
use std::fmt;
use std::ops::Range;

/// The section Text Format, Composite Types: a storage type.
impl TextForm for StorageType {
    fn write_text<S: Sink>(&self, sink: &mut S) -> fmt::Result {
        match self {
            StorageType::I8 => sink.write_str("i8"),
            StorageType::I16 => sink.write_str("i16"),
            StorageType::Val(ty) => ty.write_text(sink),
        }
    }
}

/// The section Text Format, Composite Types: a field type.
impl TextForm for FieldType {
    fn write_text<S: Sink>(&self, sink: &mut S) -> fmt::Result {
        if !self.mutable {
            return self.element_type.write_text(sink);
        }
        ("(mut ", &self.element_type, ")").write_text(sink)
    }
}

/// The section Text Format, Composite Types: an array type.
impl TextForm for ArrayType {
    fn write_text<S: Sink>(&self, sink: &mut S) -> fmt::Result {
        ("(array ", &self.0, ")").write_text(sink)
    }
}

/// The section Text Format, Composite Types: a struct type, with the abbreviation that lists its
/// fields in one pair of parentheses.
impl TextForm for StructType {
    fn write_text<S: Sink>(&self, sink: &mut S) -> fmt::Result {
        let fields = Listed(" (field", self.fields.as_slice(), ")");
        ("(struct", fields, ")").write_text(sink)
    }
}

// The parameters and the results of a function type, each list in one pair of parentheses.
#[derive(Drop)]
struct Signature<'a>(&'a FuncType);

impl TextForm for Signature<'_> {
    fn write_text<S: Sink>(&self, sink: &mut S) -> fmt::Result {
        let params = Listed(" (param", self.0.params.as_slice(), ")");
        let results = Listed(" (result", self.0.results.as_slice(), ")");
        (params, results).write_text(sink)
    }
}

/// The section Text Format, Composite Types: a function type, with the abbreviations that list its
/// parameters and its results.
impl TextForm for FuncType {
    fn write_text<S: Sink>(&self, sink: &mut S) -> fmt::Result {
        ("(func", Signature(self), ")").write_text(sink)
    }
}

/// The section Text Format, Composite Types.
impl TextForm for CompositeInnerType {
    fn write_text<S: Sink>(&self, sink: &mut S) -> fmt::Result {
        match self {
            CompositeInnerType::Array(array) => array.write_text(sink),
            CompositeInnerType::Func(function) => function.write_text(sink),
            CompositeInnerType::Struct(structure) => structure.write_text(sink),
        }
    }
}

/// The section Text Format, Composite Types; shared types as the shared-everything-threads proposal
/// writes them.
impl TextForm for CompositeType {
    fn write_text<S: Sink>(&self, sink: &mut S) -> fmt::Result {
        if !self.shared {
            return self.inner.write_text(sink);
        }
        ("(shared ", &self.inner, ")").write_text(sink)
    }
}

/// The section Text Format, Recursive Types: a sub type. A final type without a supertype is
/// abbreviated to its composite type.
impl TextForm for SubType {
    fn write_text<S: Sink>(&self, sink: &mut S) -> fmt::Result {
        if self.is_final && self.supertype.is_none() {
            return self.composite_type.write_text(sink);
        }
        let opening = if self.is_final { "(sub final" } else { "(sub" };
        let body = (" ", &self.composite_type, ")");
        (opening, self.supertype.as_slice(), body).write_text(sink)
    }
}

/// The use of the function type `index`, with its parameters and its results if it is one of
/// `signatures`.
#[derive(Drop)]
pub struct TypeUse<'a> {
    /// The index of the type.
    pub index: u32,
    /// The types of the module, or none if the index is written alone.
    pub signatures: &'a [SubType],
}

// Returns the parameters and the results of the type `index`, if it is a function type of `types`.
fn signature_of(types: &[SubType], index: u32) -> Option<Signature<'_>> {
    match &types.get(index as usize)?.composite_type.inner {
        CompositeInnerType::Func(function) => Some(Signature(function)),
        _ => None,
    }
}

/// The section Text Format, Type Uses.
impl TextForm for TypeUse<'_> {
    fn write_text<S: Sink>(&self, sink: &mut S) -> fmt::Result {
        let signature = signature_of(self.signatures, self.index);
        (("(type ", self.index, ")"), signature).write_text(sink)
    }
}

// Writes the type `ty` of the index `index` on a line, after `indent`.
fn write_type<S: Sink>(indent: &str, index: usize, ty: &SubType, sink: &mut S) -> fmt::Result
    requires open { S.failed sink.old ≡ false }
    ensures fault { S.failed sink.new ≡ is_err result }
    ensures keeps { OnOk result (Keeps S.has sink.old sink.new) }
{
    let opening = (indent, "(type (;", index);
    (opening, ";) ", (ty, ")\n")).write_text(sink)
}

// Writes the types of a group that does not have exactly one type. The first has the index `start`.
fn write_several<S: Sink>(start: usize, members: &[SubType], sink: &mut S) -> fmt::Result
    requires open { S.failed sink.old ≡ false }
    ensures fault { S.failed sink.new ≡ is_err result }
    ensures keeps { OnOk result (Keeps S.has sink.old sink.new) }
{
    sink.write_str("  (rec\n")?;
    for (place, ty) in members.iter().enumerate() {
        write_type("    ", start.saturating_add(place), ty, sink)?;
    }
    sink.write_str("  )\n")
}

// Writes a recursive group. The section Text Format, Recursive Types, with its abbreviation for a
// group of one type.
fn write_group<S: Sink>(types: &[SubType], group: &Range<usize>, sink: &mut S) -> fmt::Result
    requires open { S.failed sink.old ≡ false }
    ensures fault { S.failed sink.new ≡ is_err result }
    ensures keeps { OnOk result (Keeps S.has sink.old sink.new) }
{
    match types.get(group.start..group.end).unwrap_or(&[]) {
        [only] => write_type("  ", group.start, only, sink),
        members => write_several(group.start, members, sink),
    }
}

/// Writes the types `types` of a module, whose recursive groups are `groups`. Requires that no
/// write to `sink` has failed.
///
/// # Errors
///
/// Returns the error of the first write that fails. Nothing is written after it.
pub fn write_types<S: Sink>(types: &[SubType], groups: &[Range<usize>], sink: &mut S) -> fmt::Result
    requires open { S.failed sink.old ≡ false }
    ensures fault { S.failed sink.new ≡ is_err result }
    ensures keeps { OnOk result (Keeps S.has sink.old sink.new) }
{
    for group in groups {
        write_group(types, group, sink)?;
    }
    Ok(())
}
