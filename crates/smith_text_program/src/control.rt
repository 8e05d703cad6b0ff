ghost use Rattle.std.specs.Prelude.{◌≡◌, false, is_err, length, OnOk};
ghost use Rattle.smith_text.specs.Written.{Keeps, Writes};

use smith_instr::{BlockType, BranchCast, Catch};
use smith_text::{Sink, TextForm, TypeUse};
use smith_types::{SubType, ValType};
use std::fmt;

// Writes the type of a block after a space, or nothing if it is empty.
fn write_block_type<S: Sink>(ty: BlockType, signatures: &[SubType], sink: &mut S) -> fmt::Result
    requires open { S.failed sink.old ≡ false }
    ensures fault { S.failed sink.new ≡ is_err result }
    ensures keeps { OnOk result (Keeps S.has sink.old sink.new) }
{
    match ty {
        BlockType::Empty => Ok(()),
        BlockType::Value(value) => (" (result ", value, ")").write_text(sink),
        BlockType::Func(index) => (" ", TypeUse { index, signatures }).write_text(sink),
    }
}

/// Writes `keyword`, and after it the type `ty` of a block.
pub(crate) fn write_block<S: Sink>(
    keyword: &str,
    ty: BlockType,
    signatures: &[SubType],
    sink: &mut S,
) -> fmt::Result
    requires open { S.failed sink.old ≡ false }
    ensures fault { S.failed sink.new ≡ is_err result }
    ensures writes { OnOk result (Writes S.has sink.old (length keyword.now) sink.new) }
{
    sink.write_str(keyword)?;
    write_block_type(ty, signatures, sink)
}

// Writes a clause of `try_table` after a space.
fn write_catch<S: Sink>(clause: Catch, sink: &mut S) -> fmt::Result
    requires open { S.failed sink.old ≡ false }
    ensures fault { S.failed sink.new ≡ is_err result }
    ensures keeps { OnOk result (Keeps S.has sink.old sink.new) }
{
    match clause {
        Catch::One { tag, label } => write!(sink, " (catch {tag} {label})"),
        Catch::OneRef { tag, label } => write!(sink, " (catch_ref {tag} {label})"),
        Catch::All { label } => write!(sink, " (catch_all {label})"),
        Catch::AllRef { label } => write!(sink, " (catch_all_ref {label})"),
    }
}

/// Writes the start of a `try_table`.
pub(crate) fn write_try_table<S: Sink>(
    ty: BlockType,
    clauses: &[Catch],
    signatures: &[SubType],
    sink: &mut S,
) -> fmt::Result
    requires open { S.failed sink.old ≡ false }
    ensures fault { S.failed sink.new ≡ is_err result }
    ensures writes { OnOk result (Writes S.has sink.old 1 sink.new) }
{
    write_block("try_table", ty, signatures, sink)?;
    for clause in clauses {
        write_catch(*clause, sink)?;
    }
    Ok(())
}

/// Writes `br_table`.
pub(crate) fn write_branch_table<S: Sink>(labels: &[u32], last: u32, sink: &mut S) -> fmt::Result
    requires open { S.failed sink.old ≡ false }
    ensures fault { S.failed sink.new ≡ is_err result }
    ensures writes { OnOk result (Writes S.has sink.old 1 sink.new) }
{
    sink.write_str("br_table")?;
    (labels, " ", last).write_text(sink)
}

/// Writes a branch on a cast.
pub(crate) fn write_branch_cast<S: Sink>(
    keyword: &str,
    cast: BranchCast,
    sink: &mut S,
) -> fmt::Result
    requires open { S.failed sink.old ≡ false }
    ensures fault { S.failed sink.new ≡ is_err result }
    ensures writes { OnOk result (Writes S.has sink.old 1 sink.new) }
{
    write!(sink, "{keyword} {} ", cast.label)?;
    cast.from.write_text(sink)?;
    sink.write_str(" ")?;
    cast.to.write_text(sink)
}

/// Writes `select` with its types.
pub(crate) fn write_typed_select<S: Sink>(values: &[ValType], sink: &mut S) -> fmt::Result
    requires open { S.failed sink.old ≡ false }
    ensures fault { S.failed sink.new ≡ is_err result }
    ensures writes { OnOk result (Writes S.has sink.old 1 sink.new) }
{
    sink.write_str("select")?;
    (" (result", values, ")").write_text(sink)
}

/// Writes a call through a table.
pub(crate) fn write_indirect<S: Sink>(
    keyword: &str,
    table: u32,
    ty: TypeUse<'_>,
    sink: &mut S,
) -> fmt::Result
    requires open { S.failed sink.old ≡ false }
    ensures fault { S.failed sink.new ≡ is_err result }
    ensures writes { OnOk result (Writes S.has sink.old 1 sink.new) }
{
    write!(sink, "{keyword} {table} ")?;
    ty.write_text(sink)
}
