ghost use Rattle.std.specs.Prelude.{◌≡◌, ◌∷◌, ℕ, List, OnOk, IfErr};
ghost use Rattle.smith_binary.specs.declared.error.EncodeError.TheVariants.{Memory};
ghost use Rattle.smith_binary.specs.Faults.{IsFault};
ghost use Rattle.smith_binary.specs.Pieces.{Is, Writes};
ghost use Rattle.smith_binary_sections.specs.Codes.{index_bytes, IsBodyWrittenIn};
ghost use Rattle.smith_binary_sections.specs.Codes.{IsLocalsWrittenIn, IsRunIn};
ghost use Rattle.smith_binary_sections.specs.Codes.{check_bytes, checks_bytes, body_bytes, body_of};
ghost use Rattle.smith_binary_sections.specs.Long.{IsNeverLong, IsLongBody, IsLongList};

use crate::lists::{Encode, EncodeItem, write_each};
use smith_binary::{EncodeError, Sink};
use smith_types::{Code, Instructions, ValType};

// A writer of a local, as a run of its own.
#[derive(Clone, Copy)]
struct Runs;

impl EncodeItem<ValType> for Runs {
    ghost spells = { λ s _ local. IsRunIn s (1, local) };

    ghost is_long = { λ _. IsNeverLong };

    fn encode_item(&self, item: &ValType, sink: &mut Sink) -> Result<(), EncodeError> {
        sink.write_u32(1)?;
        item.encode(sink)
    }
}

// Writes the list of `locals`, each as a run of its own.
fn write_locals(locals: &[ValType], sink: &mut Sink) -> Result<(), EncodeError>
    ensures writes { OnOk result (Writes (λ s. IsLocalsWrittenIn s locals.now) sink.old sink.new) }
    ensures fault { IfErr result (IsFault (IsLongList IsNeverLong locals.now)) }
{
    sink.write_length(locals.len())?;
    write_each(&Runs, locals, sink)
}

// Writes an index after the byte of an instruction, in as few bytes as possible.
fn write_indexed(byte: u8, index: u32, sink: &mut Sink) -> Result<(), EncodeError>
    ensures writes { OnOk result (Writes (λ _. Is (byte ∷ index_bytes index)) sink.old sink.new) }
    ensures memory { IfErr result (λ e. e ≡ Memory) }
{
    sink.write_byte(byte)?;
    sink.write_shortest(index)
}

// Writes the check of the counter of fuel `counter`: it traps at 0, else subtracts 1.
fn write_check(counter: u32, sink: &mut Sink) -> Result<(), EncodeError>
    ensures writes { OnOk result (Writes (λ _. Is (check_bytes counter)) sink.old sink.new) }
    ensures memory { IfErr result (λ e. e ≡ Memory) }
{
    write_indexed(0x23, counter, sink)?;
    sink.write_bytes(&[0x45, 0x04, 0x40, 0x00, 0x0B])?;
    write_indexed(0x23, counter, sink)?;
    sink.write_bytes(&[0x41, 0x01, 0x6B])?;
    write_indexed(0x24, counter, sink)
}

// Writes the checks of `counters`, the last one first.
fn write_checks(counters: &[u32], sink: &mut Sink) -> Result<(), EncodeError>
    ensures writes { OnOk result (Writes (λ _. Is (checks_bytes counters.now)) sink.old sink.new) }
    ensures memory { IfErr result (λ e. e ≡ Memory) }
{
    let mut rest = counters;
    while let Some((last, before)) = rest.split_last() {
        write_check(*last, sink)?;
        rest = before;
    }
    Ok(())
}

// Writes the expression of a body: the checks and `unreachable`, or the raw bytes.
fn write_instructions(
    counters: &[u32],
    instructions: &Instructions,
    sink: &mut Sink,
) -> Result<(), EncodeError>
    ensures writes { OnOk result
        (Writes (λ _. Is (body_bytes counters.now instructions.now)) sink.old sink.new) }
    ensures memory { IfErr result (λ e. e ≡ Memory) }
{
    match instructions {
        Instructions::Unreachable => {
            write_checks(counters, sink)?;
            sink.write_bytes(&[0x00, 0x0B])
        }
        Instructions::Arbitrary(raw) => sink.write_bytes(raw.as_slice()),
    }
}

/// A writer of a body, in a module with counters of fuel. Each local is a run of its own.
#[derive(Clone, Copy)]
pub struct Bodies<'a> {
    /// The indices of the globals that count fuel. A body that is not raw begins with a check of
    /// each, the last one first.
    pub counters: &'a [u32],
}

impl<'a> EncodeItem<Code> for Bodies<'a> {
    ghost spells = { λ s bodies code. IsBodyWrittenIn s (body_of bodies.counters.now code) };

    ghost is_long = { λ bodies code. IsLongBody (body_of bodies.counters.now code) };

    fn encode_item(&self, item: &Code, sink: &mut Sink) -> Result<(), EncodeError> {
        let mut content = sink.fresh();
        write_locals(item.locals.as_slice(), &mut content)?;
        write_instructions(self.counters, &item.instructions, &mut content)?;
        sink.write_sized(content.as_slice())
    }
}
