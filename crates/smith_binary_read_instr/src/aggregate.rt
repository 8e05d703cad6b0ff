ghost use Rattle.std.specs.Prelude.{◌≡◌};
ghost use Rattle.smith_instr.specs.declared.aggregate.AggregateInstr.TheVariants as aggregate;
ghost use Rattle.smith_binary_read.specs.Numbers.{unsigned_at, two_at};
ghost use Rattle.smith_binary_read.specs.Readings.{Gives, mapped_at};
ghost use Rattle.smith_binary_read.specs.Choices.{item_of};
ghost use Rattle.smith_binary_read_instr.specs.AggregateReadings.{
  struct_at,
  new_array_at,
  array_at,
  elements_at,
  cast_instr_at,
  conversion_rows,
  indexed_at,
  aggregate_at,
};

use crate::control::{read_branch_cast, read_two};
use smith_binary_read::{Decode, ReadError, Reader, Reason};
use smith_instr::{AggregateInstr, Extension, Instr, ReferenceInstr};
use smith_types::{HeapType, RefType};

// Reads `struct.get` with this extension.
fn read_struct_get(
    extension: Extension,
    reader: &mut Reader<'_>,
) -> Result<AggregateInstr, ReadError>
    ensures { Gives result reader.new
        (mapped_at (λ parts. aggregate.StructGet parts.0 parts.1 extension) two_at reader.old) }
{
    let (ty, field) = read_two(reader)?;
    Ok(AggregateInstr::StructGet {
        ty,
        field,
        extension,
    })
}

// Reads an instruction on structs, whose number is at most 5.
#[tactic(auto, unfolding(crate::specs::AggregateReadings::struct_at))]
fn read_struct(number: u32, reader: &mut Reader<'_>) -> Result<AggregateInstr, ReadError>
    ensures { Gives result reader.new (struct_at number reader.old) }
{
    match number {
        0 => Ok(AggregateInstr::StructNew(reader.read_u32()?)),
        1 => Ok(AggregateInstr::StructNewDefault(reader.read_u32()?)),
        2 => read_struct_get(Extension::Unpacked, reader),
        3 => read_struct_get(Extension::Signed, reader),
        4 => read_struct_get(Extension::Unsigned, reader),
        _ => {
            let (ty, field) = read_two(reader)?;
            Ok(AggregateInstr::StructSet { ty, field })
        }
    }
}

// Reads an instruction that creates an array, whose number is at most 10.
#[tactic(auto, unfolding(crate::specs::AggregateReadings::new_array_at))]
fn read_new_array(number: u32, reader: &mut Reader<'_>) -> Result<AggregateInstr, ReadError>
    ensures { Gives result reader.new (new_array_at number reader.old) }
{
    match number {
        6 => Ok(AggregateInstr::ArrayNew(reader.read_u32()?)),
        7 => Ok(AggregateInstr::ArrayNewDefault(reader.read_u32()?)),
        8 => {
            let (ty, size) = read_two(reader)?;
            Ok(AggregateInstr::ArrayNewFixed { ty, size })
        }
        9 => {
            let (ty, segment) = read_two(reader)?;
            Ok(AggregateInstr::ArrayNewData { ty, segment })
        }
        _ => {
            let (ty, segment) = read_two(reader)?;
            Ok(AggregateInstr::ArrayNewElem { ty, segment })
        }
    }
}

// Reads `array.get` with this extension.
fn read_array_get(
    extension: Extension,
    reader: &mut Reader<'_>,
) -> Result<AggregateInstr, ReadError>
    ensures { Gives result reader.new
        (mapped_at (λ index. aggregate.ArrayGet index extension) (unsigned_at 32) reader.old) }
{
    let ty = reader.read_u32()?;
    Ok(AggregateInstr::ArrayGet { ty, extension })
}

// Reads an instruction on an element of an array, whose number is at most 14.
#[tactic(auto, unfolding(crate::specs::AggregateReadings::array_at))]
fn read_array(number: u32, reader: &mut Reader<'_>) -> Result<AggregateInstr, ReadError>
    ensures { Gives result reader.new (array_at number reader.old) }
{
    match number {
        11 => read_array_get(Extension::Unpacked, reader),
        12 => read_array_get(Extension::Signed, reader),
        13 => read_array_get(Extension::Unsigned, reader),
        _ => Ok(AggregateInstr::ArraySet(reader.read_u32()?)),
    }
}

// Reads an instruction on several elements of an array, whose number is at most 19.
#[tactic(auto, unfolding(crate::specs::AggregateReadings::elements_at))]
fn read_elements(number: u32, reader: &mut Reader<'_>) -> Result<AggregateInstr, ReadError>
    ensures { Gives result reader.new (elements_at number reader.old) }
{
    match number {
        16 => Ok(AggregateInstr::ArrayFill(reader.read_u32()?)),
        17 => {
            let (to, from) = read_two(reader)?;
            Ok(AggregateInstr::ArrayCopy { to, from })
        }
        18 => {
            let (ty, segment) = read_two(reader)?;
            Ok(AggregateInstr::ArrayInitData { ty, segment })
        }
        _ => {
            let (ty, segment) = read_two(reader)?;
            Ok(AggregateInstr::ArrayInitElem { ty, segment })
        }
    }
}

// Returns the type of references to `heap_type`.
fn reference_to(nullable: bool, heap_type: HeapType) -> RefType
    ensures { result ≡ record { nullable = nullable; heap_type = heap_type } }
{
    RefType {
        nullable,
        heap_type,
    }
}

// Reads a test or a cast, whose number is at most 23.
#[tactic(auto, unfolding(crate::specs::AggregateReadings::cast_instr_at))]
fn read_cast_instr(number: u32, reader: &mut Reader<'_>) -> Result<ReferenceInstr, ReadError>
    ensures { Gives result reader.new (cast_instr_at number reader.old) }
{
    match number {
        20 => {
            let heap = HeapType::decode(reader)?;
            Ok(ReferenceInstr::Test(reference_to(false, heap)))
        }
        21 => {
            let heap = HeapType::decode(reader)?;
            Ok(ReferenceInstr::Test(reference_to(true, heap)))
        }
        22 => {
            let heap = HeapType::decode(reader)?;
            Ok(ReferenceInstr::Cast(reference_to(false, heap)))
        }
        _ => {
            let heap = HeapType::decode(reader)?;
            Ok(ReferenceInstr::Cast(reference_to(true, heap)))
        }
    }
}

// Returns the instruction of `number` alone.
fn plain_aggregate_of(number: u32) -> Option<Instr>
    ensures { result ≡ item_of conversion_rows number }
{
    match number {
        15 => Some(Instr::Aggregate(AggregateInstr::ArrayLen)),
        26 => Some(Instr::Aggregate(AggregateInstr::AnyConvertExtern)),
        27 => Some(Instr::Aggregate(AggregateInstr::ExternConvertAny)),
        28 => Some(Instr::Aggregate(AggregateInstr::RefI31)),
        29 => Some(Instr::Aggregate(AggregateInstr::I31GetS)),
        30 => Some(Instr::Aggregate(AggregateInstr::I31GetU)),
        _ => None,
    }
}

// Reads an aggregate instruction with indices, whose number is at most 19.
#[tactic(auto, unfolding(crate::specs::AggregateReadings::indexed_at))]
fn read_indexed(number: u32, reader: &mut Reader<'_>) -> Result<AggregateInstr, ReadError>
    ensures { Gives result reader.new (indexed_at number reader.old) }
{
    if number < 6 {
        return read_struct(number, reader);
    }
    if number < 11 {
        return read_new_array(number, reader);
    }
    if number < 15 {
        return read_array(number, reader);
    }
    read_elements(number, reader)
}

// Reads an instruction after the byte 0xFB (Aggregate, Reference and Control Instructions).
#[tactic(auto, unfolding(crate::specs::AggregateReadings::aggregate_at))]
#[inline(always)]
pub(crate) fn read_aggregate(reader: &mut Reader<'_>) -> Result<Instr, ReadError>
    ensures { Gives result reader.new (aggregate_at reader.old) }
{
    let unknown = reader.fault(Reason::UnknownByte);
    let number = reader.read_u32()?;
    if let Some(instruction) = plain_aggregate_of(number) {
        return Ok(instruction);
    }
    if number < 20 {
        let op = read_indexed(number, reader)?;
        return Ok(Instr::Aggregate(op));
    }
    if number < 24 {
        let op = read_cast_instr(number, reader)?;
        return Ok(Instr::Reference(op));
    }
    match number {
        24 => {
            let cast = read_branch_cast(reader)?;
            Ok(Instr::BrOnCast(cast))
        }
        25 => {
            let cast = read_branch_cast(reader)?;
            Ok(Instr::BrOnCastFail(cast))
        }
        _ => Err(unknown),
    }
}
