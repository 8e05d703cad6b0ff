ghost use Rattle.std.specs.Prelude.{◌≡◌, Any, OnOk, IfErr};
ghost use Rattle.std.specs.List.{flat_map};
ghost use Rattle.smith_binary.specs.declared.error.EncodeError.TheVariants.{Memory};
ghost use Rattle.smith_binary.specs.Faults.{IsFault};
ghost use Rattle.smith_binary.specs.Pieces.{Writes};
ghost use Rattle.smith_binary_instr.specs.Instructions.{IsExprWrittenIn, IsInstrsWrittenIn};
ghost use Rattle.smith_binary_instr.specs.Long.{IsLongInstr};
ghost use Rattle.smith_program.specs.Counted.{check_of, checked_after, checks_of, counted};

use smith_binary::{EncodeError, Sink};
use smith_binary_instr::{encode_instr, encode_instrs};
use smith_instr::{BlockType, Instr, IntBinary, NumericInstr};

// Writes the check of the counter of fuel `counter`: it traps at 0, else subtracts 1.
fn write_check(counter: u32, sink: &mut Sink) -> Result<(), EncodeError>
    ensures writes { OnOk result (Writes (λ s. IsInstrsWrittenIn s (check_of counter)) sink.old sink.new) }
    ensures memory { IfErr result (λ e. e ≡ Memory) }
{
    let check = [
        Instr::GlobalGet(counter),
        Instr::Numeric(NumericInstr::I32Eqz),
        Instr::If(BlockType::Empty),
        Instr::Unreachable,
        Instr::End,
        Instr::GlobalGet(counter),
        Instr::I32Const(1),
        Instr::Numeric(NumericInstr::I32Binary(IntBinary::Sub)),
        Instr::GlobalSet(counter),
    ];
    encode_instrs(sink, &check)
}

// Writes the checks of `counters`, the last one first.
fn write_checks(counters: &[u32], sink: &mut Sink) -> Result<(), EncodeError>
    ensures writes { OnOk result (Writes (λ s. IsInstrsWrittenIn s (checks_of counters.now)) sink.old sink.new) }
    ensures memory { IfErr result (λ e. e ≡ Memory) }
{
    let mut rest = counters;
    while let Some((last, before)) = rest.split_last() {
        write_check(*last, sink)?;
        rest = before;
    }
    Ok(())
}

// Writes `instruction`, then the checks of `counters` if it starts a loop.
fn write_checked(counters: &[u32], instruction: &Instr, sink: &mut Sink) -> Result<(), EncodeError>
    ensures writes { OnOk result
        (Writes (λ s. IsInstrsWrittenIn s (checked_after counters.now instruction.now)) sink.old sink.new) }
    ensures fault { IfErr result (IsFault (IsLongInstr instruction.now)) }
{
    encode_instr(sink, instruction)?;
    match instruction {
        Instr::Loop(_) => write_checks(counters, sink),
        _ => Ok(()),
    }
}

// Writes `instructions` in order, with the checks of `counters` after the start of each loop.
fn write_each(counters: &[u32], instructions: &[Instr], sink: &mut Sink) -> Result<(), EncodeError>
    ensures writes { OnOk result (Writes
        (λ s. IsInstrsWrittenIn s (flat_map (checked_after counters.now) instructions.now)) sink.old sink.new) }
    ensures fault { IfErr result (IsFault (Any IsLongInstr instructions.now)) }
{
    for instruction in instructions {
        write_checked(counters, instruction, sink)?;
    }
    Ok(())
}

// Writes `instructions` in order, with the checks of `counters` before them and after the start of
// each loop.
fn write_counted(
    counters: &[u32],
    instructions: &[Instr],
    sink: &mut Sink,
) -> Result<(), EncodeError>
    ensures writes { OnOk result
        (Writes (λ s. IsInstrsWrittenIn s (counted counters.now instructions.now)) sink.old sink.new) }
    ensures fault { IfErr result (IsFault (Any IsLongInstr instructions.now)) }
{
    write_checks(counters, sink)?;
    write_each(counters, instructions, sink)
}

/// Writes the expression of a body: the checks of `counters`, and `instructions`, with the checks
/// after the start of each loop.
pub(crate) fn write_expression(
    counters: &[u32],
    instructions: &[Instr],
    sink: &mut Sink,
) -> Result<(), EncodeError>
    ensures writes { OnOk result
        (Writes (λ s. IsExprWrittenIn s (counted counters.now instructions.now)) sink.old sink.new) }
    ensures fault { IfErr result (IsFault (Any IsLongInstr instructions.now)) }
{
    write_counted(counters, instructions, sink)?;
    sink.write_byte(0x0B)
}
