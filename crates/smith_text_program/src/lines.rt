ghost use Rattle.std.specs.Prelude.{◌≡◌, ◌*◌, ◌+◌, false, is_err, length, min, IfOk, OnOk};
ghost use Rattle.smith_text_program.specs.Lines.{
  checks_after,
  checks_size,
  depth_after_line,
  depth_of_line,
  line_size,
  lines_size,
};
ghost use Rattle.smith_text.specs.Written.{Writes};

use crate::instructions::write_instr;
use smith_instr::{BlockType, Instr, IntBinary, NumericInstr};
use smith_text::Sink;
use smith_types::SubType;
use std::fmt;

// The depth of the deepest indentation, so that the text of nested blocks is linear in their number.
const DEEPEST: usize = 64;

// Returns the depth at which `instruction` is written, if the instructions before it are at the
// depth `depth`.
fn depth_at(instruction: &Instr, depth: usize) -> usize
    ensures { result ≡ depth_of_line instruction.now depth }
{
    match instruction {
        Instr::Else | Instr::End => depth.saturating_sub(1),
        _ => depth,
    }
}

// Returns the depth of the instructions after `instruction`, which is written at the depth `depth`.
fn depth_after(instruction: &Instr, depth: usize) -> usize
    ensures { result ≡ depth_after_line instruction.now depth }
{
    match instruction {
        Instr::Block(_) | Instr::Loop(_) | Instr::If(_) | Instr::Else | Instr::TryTable(_, _) => {
            depth.saturating_add(1)
        }
        _ => depth,
    }
}

// Writes two spaces for each level of `depth`, up to the deepest indentation.
fn write_indent<S: Sink>(depth: usize, sink: &mut S) -> fmt::Result
    requires open { S.failed sink.old ≡ false }
    ensures fault { S.failed sink.new ≡ is_err result }
    ensures writes { OnOk result (Writes S.has sink.old (2 * min depth 64) sink.new) }
{
    for _ in 0..depth.min(DEEPEST) {
        sink.write_str("  ")?;
    }
    Ok(())
}

// Writes the line of `instruction`, if the instructions before it are at the depth `depth`. Returns
// the depth of the instructions after it.
fn write_line<S: Sink>(
    instruction: &Instr,
    signatures: &[SubType],
    depth: usize,
    sink: &mut S,
) -> Result<usize, fmt::Error>
    requires open { S.failed sink.old ≡ false }
    ensures fault { S.failed sink.new ≡ is_err result }
    ensures writes { OnOk result (Writes S.has sink.old (line_size instruction.now depth) sink.new) }
    ensures depth { IfOk result (λ next. next ≡ depth_after_line instruction.now (depth_of_line instruction.now depth)) }
{
    let level = depth_at(instruction, depth);
    write_indent(level, sink)?;
    write_instr(instruction, signatures, sink)?;
    sink.write_str("\n")?;
    Ok(depth_after(instruction, level))
}

/// Writes `instructions` in their plain form, one line each. The first is at the depth `depth`, at
/// two spaces per level. The instructions inside a block are one level deeper than its start and
/// its end. Levels past the 64th are not indented further. The function types among `signatures`
/// are written with their parameters and results. No write to `sink` may have failed before.
///
/// # Errors
///
/// Returns the error of the first write that fails. Nothing is written after it.
pub fn write_instrs<S: Sink>(
    instructions: &[Instr],
    signatures: &[SubType],
    depth: usize,
    sink: &mut S,
) -> fmt::Result
    requires open { S.failed sink.old ≡ false }
    ensures fault { S.failed sink.new ≡ is_err result }
    ensures writes { OnOk result (Writes S.has sink.old (lines_size instructions.now 0 depth) sink.new) }
{
    let mut level = depth;
    for instruction in instructions {
        level = write_line(instruction, signatures, level, sink)?;
    }
    Ok(())
}

// Writes the checks of `counters`, the last one first.
fn write_checks<S: Sink>(counters: &[u32], depth: usize, sink: &mut S) -> fmt::Result
    requires open { S.failed sink.old ≡ false }
    ensures fault { S.failed sink.new ≡ is_err result }
    ensures writes { OnOk result (Writes S.has sink.old (checks_size (length counters.now)) sink.new) }
{
    let mut left = counters;
    while let Some((counter, before)) = left.split_last() {
        write_check(*counter, depth, sink)?;
        left = before;
    }
    Ok(())
}

// Writes the check of the counter of fuel `counter`: a trap at 0, else 1 is subtracted.
fn write_check<S: Sink>(counter: u32, depth: usize, sink: &mut S) -> fmt::Result
    requires open { S.failed sink.old ≡ false }
    ensures fault { S.failed sink.new ≡ is_err result }
    ensures writes { OnOk result (Writes S.has sink.old (checks_size 1) sink.new) }
{
    let check = [
        Instr::GlobalGet(counter),
        Instr::Numeric(NumericInstr::I32Eqz),
        Instr::If(BlockType::Empty),
        Instr::Unreachable,
        Instr::End,
        Instr::GlobalGet(counter),
        Instr::I32Const(1),
        Instr::Numeric(NumericInstr::I32Binary(IntBinary::Sub)),
        Instr::GlobalSet(counter),
    ];
    write_instrs(&check, &[], depth, sink)
}

// Returns the counters that are checked after `instruction`: all of `counters` after the start of a
// loop, and else none.
fn checked_after<'a>(instruction: &Instr, counters: &'a [u32]) -> &'a [u32]
    ensures { checks_after instruction.now (length counters.now) ≡ checks_size (length result.now) }
{
    match instruction {
        Instr::Loop(_) => counters,
        _ => &[],
    }
}

// Writes `instructions` with the checks of `counters` after the start of each loop.
fn write_lines<S: Sink>(
    instructions: &[Instr],
    counters: &[u32],
    signatures: &[SubType],
    depth: usize,
    sink: &mut S,
) -> fmt::Result
    requires open { S.failed sink.old ≡ false }
    ensures fault { S.failed sink.new ≡ is_err result }
    ensures writes { OnOk result (Writes S.has sink.old
        (lines_size instructions.now (length counters.now) depth) sink.new) }
{
    let mut level = depth;
    for instruction in instructions {
        level = write_line(instruction, signatures, level, sink)?;
        write_checks(checked_after(instruction, counters), level, sink)?;
    }
    Ok(())
}

/// Writes `instructions` as [`write_instrs`] does, with the checks of the counters of fuel
/// `counters` before them and after the start of each loop. No write to `sink` may have failed
/// before.
///
/// # Errors
///
/// Returns the error of the first write that fails. Nothing is written after it.
pub fn write_counted_instrs<S: Sink>(
    instructions: &[Instr],
    counters: &[u32],
    signatures: &[SubType],
    depth: usize,
    sink: &mut S,
) -> fmt::Result
    requires open { S.failed sink.old ≡ false }
    ensures fault { S.failed sink.new ≡ is_err result }
    ensures writes { OnOk result (Writes S.has sink.old
        (checks_size (length counters.now) + lines_size instructions.now (length counters.now) depth) sink.new) }
{
    write_checks(counters, depth, sink)?;
    write_lines(instructions, counters, signatures, depth, sink)
}
