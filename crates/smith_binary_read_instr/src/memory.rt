ghost use Rattle.std.specs.Prelude.{◌≡◌};
ghost use Rattle.smith_binary_read.specs.Readings.{Gives};
ghost use Rattle.smith_binary_read_instr.specs.MemoryReadings.{
  mem_arg_at,
  load_of,
  store_of,
  access_at,
  bytes_instr_at,
  elements_instr_at,
  bulk_at,
};

use crate::control::read_two;
use crate::numeric::saturating_of;
use smith_binary_read::{ReadError, Reader, Reason};
use smith_instr::{Instr, Load, MemArg, MemoryInstr, Store, TableInstr};

// Reads the place of an access to a memory.
#[tactic(auto, unfolding(crate::specs::MemoryReadings::mem_arg_at))]
pub(crate) fn read_mem_arg(reader: &mut Reader<'_>) -> Result<MemArg, ReadError>
    ensures { Gives result reader.new (mem_arg_at reader.old) }
{
    let unknown = reader.fault(Reason::UnknownByte);
    let flags = reader.read_u32()?;
    if flags < 64 {
        let offset = reader.read_u64()?;
        return Ok(MemArg {
            align: flags,
            offset,
            memory: 0,
        });
    }
    if flags < 128 {
        let memory = reader.read_u32()?;
        let offset = reader.read_u64()?;
        return Ok(MemArg {
            align: flags - 64,
            offset,
            memory,
        });
    }
    Err(unknown)
}

#[tactic(auto, unfolding(crate::specs::MemoryReadings::load_of))]
fn load_of(byte: u8) -> Load
    ensures { result ≡ load_of byte }
{
    match byte {
        0x28 => Load::I32,
        0x29 => Load::I64,
        0x2A => Load::F32,
        0x2B => Load::F64,
        0x2C => Load::I32From8S,
        0x2D => Load::I32From8U,
        0x2E => Load::I32From16S,
        0x2F => Load::I32From16U,
        0x30 => Load::I64From8S,
        0x31 => Load::I64From8U,
        0x32 => Load::I64From16S,
        0x33 => Load::I64From16U,
        0x34 => Load::I64From32S,
        _ => Load::I64From32U,
    }
}

#[tactic(auto, unfolding(crate::specs::MemoryReadings::store_of))]
fn store_of(byte: u8) -> Store
    ensures { result ≡ store_of byte }
{
    match byte {
        0x36 => Store::I32,
        0x37 => Store::I64,
        0x38 => Store::F32,
        0x39 => Store::F64,
        0x3A => Store::I32To8,
        0x3B => Store::I32To16,
        0x3C => Store::I64To8,
        0x3D => Store::I64To16,
        _ => Store::I64To32,
    }
}

// Reads an access to a memory, or an instruction on its size, from 0x28 up to 0x40 (Memory
// Instructions).
#[tactic(auto, unfolding(crate::specs::MemoryReadings::access_at))]
#[inline(always)]
pub(crate) fn read_access(reader: &mut Reader<'_>) -> Result<Instr, ReadError>
    ensures { Gives result reader.new (access_at reader.old) }
{
    let byte = reader.read_byte()?;
    if byte < 0x36 {
        let at = read_mem_arg(reader)?;
        return Ok(Instr::Load(load_of(byte), at));
    }
    if byte < 0x3F {
        let at = read_mem_arg(reader)?;
        return Ok(Instr::Store(store_of(byte), at));
    }
    if byte < 0x40 {
        return Ok(Instr::Memory(MemoryInstr::Size(reader.read_u32()?)));
    }
    Ok(Instr::Memory(MemoryInstr::Grow(reader.read_u32()?)))
}

// Reads an instruction on several bytes, whose number is at most 11.
#[tactic(auto, unfolding(crate::specs::MemoryReadings::bytes_instr_at))]
fn read_bytes_instr(number: u32, reader: &mut Reader<'_>) -> Result<Instr, ReadError>
    ensures { Gives result reader.new (bytes_instr_at number reader.old) }
{
    match number {
        8 => {
            let (segment, memory) = read_two(reader)?;
            Ok(Instr::Memory(MemoryInstr::Init { memory, segment }))
        }
        9 => Ok(Instr::Memory(MemoryInstr::DataDrop(reader.read_u32()?))),
        10 => {
            let (to, from) = read_two(reader)?;
            Ok(Instr::Memory(MemoryInstr::Copy { to, from }))
        }
        _ => Ok(Instr::Memory(MemoryInstr::Fill(reader.read_u32()?))),
    }
}

// Reads an instruction on several elements or the size of a table, whose number is at most 17.
#[tactic(auto, unfolding(crate::specs::MemoryReadings::elements_instr_at))]
fn read_elements_instr(number: u32, reader: &mut Reader<'_>) -> Result<Instr, ReadError>
    ensures { Gives result reader.new (elements_instr_at number reader.old) }
{
    match number {
        12 => {
            let (segment, table) = read_two(reader)?;
            Ok(Instr::Table(TableInstr::Init { table, segment }))
        }
        13 => Ok(Instr::Table(TableInstr::ElemDrop(reader.read_u32()?))),
        14 => {
            let (to, from) = read_two(reader)?;
            Ok(Instr::Table(TableInstr::Copy { to, from }))
        }
        15 => Ok(Instr::Table(TableInstr::Grow(reader.read_u32()?))),
        16 => Ok(Instr::Table(TableInstr::Size(reader.read_u32()?))),
        _ => Ok(Instr::Table(TableInstr::Fill(reader.read_u32()?))),
    }
}

// Reads an instruction after the byte 0xFC (Numeric, Memory and Table Instructions).
#[tactic(auto, unfolding(crate::specs::MemoryReadings::bulk_at))]
#[inline(always)]
pub(crate) fn read_bulk(reader: &mut Reader<'_>) -> Result<Instr, ReadError>
    ensures { Gives result reader.new (bulk_at reader.old) }
{
    let unknown = reader.fault(Reason::UnknownByte);
    let number = reader.read_u32()?;
    if let Some(op) = saturating_of(number) {
        return Ok(Instr::Numeric(op));
    }
    if number < 12 {
        return read_bytes_instr(number, reader);
    }
    if number < 18 {
        return read_elements_instr(number, reader);
    }
    Err(unknown)
}
