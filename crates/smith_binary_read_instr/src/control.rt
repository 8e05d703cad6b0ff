ghost use Rattle.std.specs.Prelude.{◌≡◌};
ghost use Rattle.smith_binary_read.specs.Readings.{Gives, each_at};
ghost use Rattle.smith_binary_read.specs.Contents.{list_at};
ghost use Rattle.smith_binary_read.specs.Choices.{item_of, type_index_at};
ghost use Rattle.smith_binary_read.specs.Numbers.{two_at};
ghost use Rattle.smith_binary_read_instr.specs.ControlReadings.{
  block_type_at,
  catch_at,
  cast_at,
  heap_types_at,
  targets_at,
  branch_cast_at,
  control_rows,
  block_at,
  branch_at,
  call_at,
  parametric_at,
  variable_at,
};

use smith_binary_read::{Decode, ReadError, Reader, Reason, read_list};
use smith_instr::{BlockType, BranchCast, Catch, Instr, TableInstr};
use smith_types::{HeapType, Items, RefType, ValType};

// Reads the index of a type as a signed integer.
#[tactic(auto, unfolding(smith_binary_read::specs::Choices::type_index_at))]
fn read_type_index(reader: &mut Reader<'_>) -> Result<u32, ReadError>
    ensures { Gives result reader.new (type_index_at reader.old) }
{
    let negative = reader.fault(Reason::IntegerTooLarge);
    let index = reader.read_signed(33)?;
    if index < 0 {
        return Err(negative);
    }
    Ok(index as u32)
}

// Reads the type of a block.
#[tactic(auto, unfolding(crate::specs::ControlReadings::block_type_at))]
fn read_block_type(reader: &mut Reader<'_>) -> Result<BlockType, ReadError>
    ensures { Gives result reader.new (block_type_at reader.old) }
{
    let byte = reader.peek()?;
    if byte == 0x40 {
        reader.skip();
        return Ok(BlockType::Empty);
    }
    if byte < 64 || byte >= 128 {
        let index = read_type_index(reader)?;
        return Ok(BlockType::Func(index));
    }
    let value = ValType::decode(reader)?;
    Ok(BlockType::Value(value))
}

// Reads two indices.
pub(crate) fn read_two(reader: &mut Reader<'_>) -> Result<(u32, u32), ReadError>
    ensures { Gives result reader.new (two_at reader.old) }
{
    let first = reader.read_u32()?;
    let second = reader.read_u32()?;
    Ok((first, second))
}

// Reads a clause of `try_table`.
#[tactic(auto, unfolding(crate::specs::ControlReadings::catch_at))]
fn read_catch(reader: &mut Reader<'_>) -> Result<Catch, ReadError>
    ensures { Gives result reader.new (catch_at reader.old) }
{
    let unknown = reader.fault(Reason::UnknownByte);
    let byte = reader.read_byte()?;
    match byte {
        0x00 => {
            let (tag, label) = read_two(reader)?;
            Ok(Catch::One { tag, label })
        }
        0x01 => {
            let (tag, label) = read_two(reader)?;
            Ok(Catch::OneRef { tag, label })
        }
        0x02 => {
            let label = reader.read_u32()?;
            Ok(Catch::All { label })
        }
        0x03 => {
            let label = reader.read_u32()?;
            Ok(Catch::AllRef { label })
        }
        _ => Err(unknown),
    }
}

// Reads `count` clauses. Nothing is reserved for them.
fn read_each_catch(reader: &mut Reader<'_>, count: u32) -> Result<Items<Catch>, ReadError>
    ensures { Gives result reader.new (each_at catch_at count reader.old) }
{
    let mut items = Vec::new(reader.alloc());
    for _ in 0..count {
        let item = read_catch(reader)?;
        items.push(item)?;
    }
    Ok(Items::from_vec(items))
}

// Reads the clauses of `try_table`, after their number.
#[tactic(auto, unfolding(smith_binary_read::specs::Contents::list_at))]
fn read_catches(reader: &mut Reader<'_>) -> Result<Items<Catch>, ReadError>
    ensures { Gives result reader.new (list_at catch_at reader.old) }
{
    let count = reader.read_u32()?;
    read_each_catch(reader, count)
}

// Reads which of both types of a cast are nullable.
#[tactic(auto, unfolding(crate::specs::ControlReadings::cast_at))]
fn read_cast(reader: &mut Reader<'_>) -> Result<(bool, bool), ReadError>
    ensures { Gives result reader.new (cast_at reader.old) }
{
    let unknown = reader.fault(Reason::UnknownByte);
    let byte = reader.read_byte()?;
    match byte {
        0 => Ok((false, false)),
        1 => Ok((true, false)),
        2 => Ok((false, true)),
        3 => Ok((true, true)),
        _ => Err(unknown),
    }
}

// Reads both heap types of a cast.
fn read_heap_types(reader: &mut Reader<'_>) -> Result<(HeapType, HeapType), ReadError>
    ensures { Gives result reader.new (heap_types_at reader.old) }
{
    let from = HeapType::decode(reader)?;
    let to = HeapType::decode(reader)?;
    Ok((from, to))
}

// Reads the label and both heap types of a branch on a cast.
#[tactic(auto, unfolding(crate::specs::ControlReadings::targets_at))]
fn read_targets(reader: &mut Reader<'_>) -> Result<(u32, (HeapType, HeapType)), ReadError>
    ensures { Gives result reader.new (targets_at reader.old) }
{
    let label = reader.read_u32()?;
    let types = read_heap_types(reader)?;
    Ok((label, types))
}

// Reads the immediates of a branch on a cast.
#[tactic(auto, unfolding(crate::specs::ControlReadings::branch_cast_at))]
pub(crate) fn read_branch_cast(reader: &mut Reader<'_>) -> Result<BranchCast, ReadError>
    ensures { Gives result reader.new (branch_cast_at reader.old) }
{
    let nullable = read_cast(reader)?;
    let (label, types) = read_targets(reader)?;
    Ok(BranchCast {
        label,
        from: RefType {
            nullable: nullable.0,
            heap_type: types.0,
        },
        to: RefType {
            nullable: nullable.1,
            heap_type: types.1,
        },
    })
}

// Returns the instruction of the one byte `byte`, up to 0x0B.
fn plain_control_of(byte: u8) -> Option<Instr>
    ensures { result ≡ item_of control_rows byte }
{
    match byte {
        0x00 => Some(Instr::Unreachable),
        0x01 => Some(Instr::Nop),
        0x05 => Some(Instr::Else),
        0x0A => Some(Instr::ThrowRef),
        0x0B => Some(Instr::End),
        _ => None,
    }
}

// Reads a block or a part of one, up to 0x0B (Control Instructions).
#[tactic(auto, unfolding(crate::specs::ControlReadings::block_at))]
#[inline(always)]
pub(crate) fn read_block(reader: &mut Reader<'_>) -> Result<Instr, ReadError>
    ensures { Gives result reader.new (block_at reader.old) }
{
    let unknown = reader.fault(Reason::UnknownByte);
    let byte = reader.read_byte()?;
    if let Some(instruction) = plain_control_of(byte) {
        return Ok(instruction);
    }
    match byte {
        0x02 => {
            let ty = read_block_type(reader)?;
            Ok(Instr::Block(ty))
        }
        0x03 => {
            let ty = read_block_type(reader)?;
            Ok(Instr::Loop(ty))
        }
        0x04 => {
            let ty = read_block_type(reader)?;
            Ok(Instr::If(ty))
        }
        0x08 => Ok(Instr::Throw(reader.read_u32()?)),
        _ => Err(unknown),
    }
}

// Reads a branch, from 0x0C up to 0x0F (Control Instructions).
#[tactic(auto, unfolding(crate::specs::ControlReadings::branch_at))]
#[inline(always)]
pub(crate) fn read_branch(reader: &mut Reader<'_>) -> Result<Instr, ReadError>
    ensures { Gives result reader.new (branch_at reader.old) }
{
    let byte = reader.read_byte()?;
    match byte {
        0x0C => Ok(Instr::Br(reader.read_u32()?)),
        0x0D => Ok(Instr::BrIf(reader.read_u32()?)),
        0x0E => {
            let labels = read_list(reader)?;
            let last = reader.read_u32()?;
            Ok(Instr::BrTable(labels, last))
        }
        _ => Ok(Instr::Return),
    }
}

// Reads a call, from 0x10 up to 0x15 (Control Instructions).
#[tactic(auto, unfolding(crate::specs::ControlReadings::call_at))]
#[inline(always)]
pub(crate) fn read_call(reader: &mut Reader<'_>) -> Result<Instr, ReadError>
    ensures { Gives result reader.new (call_at reader.old) }
{
    let byte = reader.read_byte()?;
    match byte {
        0x10 => Ok(Instr::Call(reader.read_u32()?)),
        0x11 => {
            let (ty, table) = read_two(reader)?;
            Ok(Instr::CallIndirect { table, ty })
        }
        0x12 => Ok(Instr::ReturnCall(reader.read_u32()?)),
        0x13 => {
            let (ty, table) = read_two(reader)?;
            Ok(Instr::ReturnCallIndirect { table, ty })
        }
        0x14 => Ok(Instr::CallRef(reader.read_u32()?)),
        _ => Ok(Instr::ReturnCallRef(reader.read_u32()?)),
    }
}

// Reads a parametric instruction or `try_table`, from 0x16 up to 0x1F (Parametric Instructions,
// Control Instructions).
#[tactic(auto, unfolding(crate::specs::ControlReadings::parametric_at))]
#[inline(always)]
pub(crate) fn read_parametric(reader: &mut Reader<'_>) -> Result<Instr, ReadError>
    ensures { Gives result reader.new (parametric_at reader.old) }
{
    let unknown = reader.fault(Reason::UnknownByte);
    let byte = reader.read_byte()?;
    match byte {
        0x1A => Ok(Instr::Drop),
        0x1B => Ok(Instr::Select),
        0x1C => {
            let values = read_list(reader)?;
            Ok(Instr::SelectTyped(values))
        }
        0x1F => {
            let ty = read_block_type(reader)?;
            let clauses = read_catches(reader)?;
            Ok(Instr::TryTable(ty, clauses))
        }
        _ => Err(unknown),
    }
}

// Reads an instruction on a local, a global or an element of a table, from 0x20 up to 0x27 (Variable
// Instructions, Table Instructions).
#[tactic(auto, unfolding(crate::specs::ControlReadings::variable_at))]
#[inline(always)]
pub(crate) fn read_variable(reader: &mut Reader<'_>) -> Result<Instr, ReadError>
    ensures { Gives result reader.new (variable_at reader.old) }
{
    let unknown = reader.fault(Reason::UnknownByte);
    let byte = reader.read_byte()?;
    match byte {
        0x20 => Ok(Instr::LocalGet(reader.read_u32()?)),
        0x21 => Ok(Instr::LocalSet(reader.read_u32()?)),
        0x22 => Ok(Instr::LocalTee(reader.read_u32()?)),
        0x23 => Ok(Instr::GlobalGet(reader.read_u32()?)),
        0x24 => Ok(Instr::GlobalSet(reader.read_u32()?)),
        0x25 => Ok(Instr::Table(TableInstr::Get(reader.read_u32()?))),
        0x26 => Ok(Instr::Table(TableInstr::Set(reader.read_u32()?))),
        _ => Err(unknown),
    }
}
