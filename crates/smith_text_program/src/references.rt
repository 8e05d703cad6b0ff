ghost use Rattle.std.specs.Prelude.{◌≡◌, false, is_err, OnOk};
ghost use Rattle.smith_text.specs.Written.{Writes};

use crate::keywords::{write_indexed, write_indexed_twice};
use smith_instr::{AggregateInstr, Extension, ReferenceInstr, TableInstr};
use smith_text::{Sink, TextForm};
use smith_types::RefType;
use std::fmt;

// Writes a test or a cast to `ty`.
fn write_cast<S: Sink>(keyword: &str, ty: RefType, sink: &mut S) -> fmt::Result
    requires open { S.failed sink.old ≡ false }
    ensures fault { S.failed sink.new ≡ is_err result }
    ensures writes { OnOk result (Writes S.has sink.old 1 sink.new) }
{
    write!(sink, "{keyword} ")?;
    ty.write_text(sink)
}

/// Writes a reference instruction.
pub(crate) fn write_reference<S: Sink>(instruction: ReferenceInstr, sink: &mut S) -> fmt::Result
    requires open { S.failed sink.old ≡ false }
    ensures fault { S.failed sink.new ≡ is_err result }
    ensures writes { OnOk result (Writes S.has sink.old 1 sink.new) }
{
    match instruction {
        ReferenceInstr::Null(heap_type) => {
            sink.write_str("ref.null ")?;
            heap_type.write_text(sink)
        }
        ReferenceInstr::Func(function) => write_indexed("ref.func", function, sink),
        ReferenceInstr::IsNull => sink.write_str("ref.is_null"),
        ReferenceInstr::AsNonNull => sink.write_str("ref.as_non_null"),
        ReferenceInstr::Eq => sink.write_str("ref.eq"),
        ReferenceInstr::Test(ty) => write_cast("ref.test", ty, sink),
        ReferenceInstr::Cast(ty) => write_cast("ref.cast", ty, sink),
    }
}

/// Writes a table instruction.
pub(crate) fn write_table<S: Sink>(instruction: TableInstr, sink: &mut S) -> fmt::Result
    requires open { S.failed sink.old ≡ false }
    ensures fault { S.failed sink.new ≡ is_err result }
    ensures writes { OnOk result (Writes S.has sink.old 1 sink.new) }
{
    match instruction {
        TableInstr::Get(table) => write_indexed("table.get", table, sink),
        TableInstr::Set(table) => write_indexed("table.set", table, sink),
        TableInstr::Size(table) => write_indexed("table.size", table, sink),
        TableInstr::Grow(table) => write_indexed("table.grow", table, sink),
        TableInstr::Fill(table) => write_indexed("table.fill", table, sink),
        TableInstr::Copy { to, from } => write_indexed_twice("table.copy", to, from, sink),
        TableInstr::Init { table, segment } => write_indexed_twice(
            "table.init",
            table,
            segment,
            sink,
        ),
        TableInstr::ElemDrop(segment) => write_indexed("elem.drop", segment, sink),
    }
}

// Returns the keyword of a read of a field.
fn struct_get(extension: Extension) -> &'static str {
    match extension {
        Extension::Unpacked => "struct.get",
        Extension::Signed => "struct.get_s",
        Extension::Unsigned => "struct.get_u",
    }
}

// Returns the keyword of a read of an element.
fn array_get(extension: Extension) -> &'static str {
    match extension {
        Extension::Unpacked => "array.get",
        Extension::Signed => "array.get_s",
        Extension::Unsigned => "array.get_u",
    }
}

/// Writes an aggregate instruction, and `ref.i31_shared` as the shared-everything-threads proposal
/// does.
#[rattlefmt::skip]
pub(crate) fn write_aggregate<S: Sink>(instruction: AggregateInstr, sink: &mut S) -> fmt::Result
    requires open { S.failed sink.old ≡ false }
    ensures fault { S.failed sink.new ≡ is_err result }
    ensures writes { OnOk result (Writes S.has sink.old 1 sink.new) }
{
    match instruction {
        AggregateInstr::StructNew(ty) => write_indexed("struct.new", ty, sink),
        AggregateInstr::StructNewDefault(ty) => write_indexed("struct.new_default", ty, sink),
        AggregateInstr::StructGet { ty, field, extension } => write_indexed_twice(struct_get(extension), ty, field, sink),
        AggregateInstr::StructSet { ty, field } => write_indexed_twice("struct.set", ty, field, sink),
        AggregateInstr::ArrayNew(ty) => write_indexed("array.new", ty, sink),
        AggregateInstr::ArrayNewDefault(ty) => write_indexed("array.new_default", ty, sink),
        AggregateInstr::ArrayNewFixed { ty, size } => write_indexed_twice("array.new_fixed", ty, size, sink),
        AggregateInstr::ArrayNewData { ty, segment } => write_indexed_twice("array.new_data", ty, segment, sink),
        AggregateInstr::ArrayNewElem { ty, segment } => write_indexed_twice("array.new_elem", ty, segment, sink),
        AggregateInstr::ArrayGet { ty, extension } => write_indexed(array_get(extension), ty, sink),
        AggregateInstr::ArraySet(ty) => write_indexed("array.set", ty, sink),
        AggregateInstr::ArrayLen => sink.write_str("array.len"),
        AggregateInstr::ArrayFill(ty) => write_indexed("array.fill", ty, sink),
        AggregateInstr::ArrayCopy { to, from } => write_indexed_twice("array.copy", to, from, sink),
        AggregateInstr::ArrayInitData { ty, segment } => write_indexed_twice("array.init_data", ty, segment, sink),
        AggregateInstr::ArrayInitElem { ty, segment } => write_indexed_twice("array.init_elem", ty, segment, sink),
        AggregateInstr::RefI31 => sink.write_str("ref.i31"),
        AggregateInstr::RefI31Shared => sink.write_str("ref.i31_shared"),
        AggregateInstr::I31GetS => sink.write_str("i31.get_s"),
        AggregateInstr::I31GetU => sink.write_str("i31.get_u"),
        AggregateInstr::AnyConvertExtern => sink.write_str("any.convert_extern"),
        AggregateInstr::ExternConvertAny => sink.write_str("extern.convert_any"),
    }
}
