ghost use Rattle.smith_binary_read.specs.Readings.{Gives};
ghost use Rattle.smith_binary_read_instr.specs.InstrReadings.{
  low_instr_at,
  high_instr_at,
  prefixed_at,
  instr_at,
};

use crate::aggregate::read_aggregate;
use crate::atomic::read_atomic;
use crate::control::{read_block, read_branch, read_call, read_parametric, read_variable};
use crate::memory::{read_access, read_bulk};
use crate::numeric::{read_const, read_numeric};
use crate::references::read_reference;
use crate::vector::read_vector;
use smith_binary_read::{ReadError, Reader, Reason};
use smith_instr::Instr;

// The readers of instructions are inlined here: a call copies what it returns, 64 bytes.

// Reads an instruction whose first byte is `byte`, below 0x41.
#[tactic(auto, unfolding(crate::specs::InstrReadings::low_instr_at))]
#[inline(always)]
fn read_low_instr(byte: u8, reader: &mut Reader<'_>) -> Result<Instr, ReadError>
    ensures { Gives result reader.new (low_instr_at byte reader.old) }
{
    if byte < 0x0C {
        return read_block(reader);
    }
    if byte < 0x10 {
        return read_branch(reader);
    }
    if byte < 0x16 {
        return read_call(reader);
    }
    if byte < 0x20 {
        return read_parametric(reader);
    }
    if byte < 0x28 {
        return read_variable(reader);
    }
    read_access(reader)
}

// Reads an instruction whose first byte is `byte`, from 0x41 on, and no prefix.
#[tactic(auto, unfolding(crate::specs::InstrReadings::high_instr_at))]
#[inline(always)]
fn read_high_instr(byte: u8, reader: &mut Reader<'_>) -> Result<Instr, ReadError>
    ensures { Gives result reader.new (high_instr_at byte reader.old) }
{
    if byte < 0x45 {
        return read_const(reader);
    }
    if byte < 0xC5 {
        return read_numeric(reader);
    }
    read_reference(reader)
}

// Reads an instruction after its prefix, from 0xFB up to 0xFE.
#[tactic(auto, unfolding(crate::specs::InstrReadings::prefixed_at))]
#[inline(always)]
fn read_prefixed(prefix: u8, reader: &mut Reader<'_>) -> Result<Instr, ReadError>
    ensures { Gives result reader.new (prefixed_at prefix reader.old) }
{
    match prefix {
        0xFB => read_aggregate(reader),
        0xFC => read_bulk(reader),
        0xFD => read_vector(reader),
        _ => read_atomic(reader),
    }
}

/// Reads an instruction. The starts of blocks, `else` and `end` are instructions of their own.
#[tactic(auto, unfolding(crate::specs::InstrReadings::instr_at))]
#[inline(always)]
pub fn read_instr(reader: &mut Reader<'_>) -> Result<Instr, ReadError>
    ensures { Gives result reader.new (instr_at reader.old) }
{
    let byte = reader.peek()?;
    if byte < 0x41 {
        return read_low_instr(byte, reader);
    }
    if byte < 0xFB {
        return read_high_instr(byte, reader);
    }
    if byte < 0xFF {
        reader.skip();
        return read_prefixed(byte, reader);
    }
    Err(reader.fault(Reason::UnknownByte))
}
