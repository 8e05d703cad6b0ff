ghost use Rattle.std.specs.Prelude.{◌≡◌};
ghost use Rattle.smith_binary_read.specs.Readings.{Gives};
ghost use Rattle.smith_binary_read.specs.Choices.{item_of};
ghost use Rattle.smith_binary_read.specs.EntityReadings.{
  flags,
  flag_rows,
  flags_at,
  optional_at,
  tag_type_at,
  global_flags_at,
};

use crate::error::{ReadError, Reason};
use crate::lists::Decode;
use crate::reader::Reader;
use smith_types::{EntityType, GlobalType, MemoryType, RefType, TableType, ValType};

// The flags of limits (Limits; those of shared memories and of page sizes are of proposals).
#[derive(Clone, Copy)]
struct Flags {
    // Whether a maximum is stated.
    bounded: bool,
    // Whether the entity is shared.
    shared: bool,
    // Whether addresses have 64 bits.
    wide: bool,
    // Whether a page size is stated.
    paged: bool,
}

// Returns flags.
fn make_flags(bounded: bool, shared: bool, wide: bool, paged: bool) -> Flags
    ensures { result ≡ flags bounded shared wide paged }
{
    Flags {
        bounded,
        shared,
        wide,
        paged,
    }
}

// Returns the flags of `byte`.
fn flags_of(byte: u8) -> Option<Flags>
    ensures { result ≡ item_of flag_rows byte }
{
    match byte {
        0 => Some(make_flags(false, false, false, false)),
        1 => Some(make_flags(true, false, false, false)),
        2 => Some(make_flags(false, true, false, false)),
        3 => Some(make_flags(true, true, false, false)),
        4 => Some(make_flags(false, false, true, false)),
        5 => Some(make_flags(true, false, true, false)),
        6 => Some(make_flags(false, true, true, false)),
        7 => Some(make_flags(true, true, true, false)),
        8 => Some(make_flags(false, false, false, true)),
        9 => Some(make_flags(true, false, false, true)),
        10 => Some(make_flags(false, true, false, true)),
        11 => Some(make_flags(true, true, false, true)),
        12 => Some(make_flags(false, false, true, true)),
        13 => Some(make_flags(true, false, true, true)),
        14 => Some(make_flags(false, true, true, true)),
        15 => Some(make_flags(true, true, true, true)),
        _ => None,
    }
}

// Reads the flags of limits.
#[tactic(auto, unfolding(crate::specs::EntityReadings::flags_at))]
fn read_flags(reader: &mut Reader<'_>) -> Result<Flags, ReadError>
    ensures { Gives result reader.new (flags_at reader.old) }
{
    let unknown = reader.fault(Reason::UnknownByte);
    let byte = reader.read_byte()?;
    match flags_of(byte) {
        Some(flags) => Ok(flags),
        None => Err(unknown),
    }
}

// Reads a number of 64 bits, if `is_there` is set.
fn read_maximum(is_there: bool, reader: &mut Reader<'_>) -> Result<Option<u64>, ReadError>
    ensures { Gives result reader.new (optional_at is_there 64 reader.old) }
{
    if !is_there {
        return Ok(None);
    }
    let maximum = reader.read_u64()?;
    Ok(Some(maximum))
}

// Reads a number of 32 bits, if `is_there` is set.
fn read_page(is_there: bool, reader: &mut Reader<'_>) -> Result<Option<u32>, ReadError>
    ensures { Gives result reader.new (optional_at is_there 32 reader.old) }
{
    if !is_there {
        return Ok(None);
    }
    let page = reader.read_u32()?;
    Ok(Some(page))
}

impl Decode for MemoryType {
    ghost use Rattle.smith_binary_read.specs.EntityReadings.{memory_type_at};

    ghost reading = { memory_type_at };

    #[tactic(auto, unfolding(crate::specs::EntityReadings::memory_type_at))]
    fn decode(reader: &mut Reader<'_>) -> Result<MemoryType, ReadError> {
        let flags = read_flags(reader)?;
        let minimum = reader.read_u64()?;
        let maximum = read_maximum(flags.bounded, reader)?;
        let page_size_log2 = read_page(flags.paged, reader)?;
        Ok(MemoryType {
            minimum,
            maximum,
            memory64: flags.wide,
            shared: flags.shared,
            page_size_log2,
        })
    }
}

impl Decode for TableType {
    ghost use Rattle.smith_binary_read.specs.EntityReadings.{table_type_at};

    ghost reading = { table_type_at };

    #[tactic(auto, unfolding(crate::specs::EntityReadings::table_type_at))]
    fn decode(reader: &mut Reader<'_>) -> Result<TableType, ReadError> {
        let unknown = reader.fault(Reason::UnknownByte);
        let element_type = RefType::decode(reader)?;
        let flags = read_flags(reader)?;
        if flags.paged {
            return Err(unknown);
        }
        let minimum = reader.read_u64()?;
        let maximum = read_maximum(flags.bounded, reader)?;
        Ok(TableType {
            element_type,
            minimum,
            maximum,
            table64: flags.wide,
            shared: flags.shared,
        })
    }
}

// Reads a tag type, the index of a function type (Tag Types).
#[tactic(auto, unfolding(crate::specs::EntityReadings::tag_type_at))]
pub(crate) fn read_tag(reader: &mut Reader<'_>) -> Result<u32, ReadError>
    ensures { Gives result reader.new (tag_type_at reader.old) }
{
    let unknown = reader.fault(Reason::UnknownByte);
    let byte = reader.read_byte()?;
    if byte != 0 {
        return Err(unknown);
    }
    reader.read_u32()
}

// Reads whether a global is mutable and shared.
#[tactic(auto, unfolding(crate::specs::EntityReadings::global_flags_at))]
fn read_global_flags(reader: &mut Reader<'_>) -> Result<(bool, bool), ReadError>
    ensures { Gives result reader.new (global_flags_at reader.old) }
{
    let unknown = reader.fault(Reason::UnknownByte);
    let byte = reader.read_byte()?;
    match byte {
        0 => Ok((false, false)),
        1 => Ok((true, false)),
        2 => Ok((false, true)),
        3 => Ok((true, true)),
        _ => Err(unknown),
    }
}

impl Decode for GlobalType {
    ghost use Rattle.smith_binary_read.specs.EntityReadings.{global_type_at};

    ghost reading = { global_type_at };

    #[tactic(auto, unfolding(crate::specs::EntityReadings::global_type_at))]
    fn decode(reader: &mut Reader<'_>) -> Result<GlobalType, ReadError> {
        let val_type = ValType::decode(reader)?;
        let (mutable, shared) = read_global_flags(reader)?;
        Ok(GlobalType {
            val_type,
            mutable,
            shared,
        })
    }
}

impl Decode for EntityType {
    ghost use Rattle.smith_binary_read.specs.EntityReadings.{extern_type_at};

    ghost reading = { extern_type_at };

    #[tactic(auto, unfolding(crate::specs::EntityReadings::extern_type_at))]
    fn decode(reader: &mut Reader<'_>) -> Result<EntityType, ReadError> {
        let unknown = reader.fault(Reason::UnknownByte);
        let byte = reader.read_byte()?;
        match byte {
            0 => {
                let index = reader.read_u32()?;
                Ok(EntityType::Func(index))
            }
            1 => {
                let table = TableType::decode(reader)?;
                Ok(EntityType::Table(table))
            }
            2 => {
                let memory = MemoryType::decode(reader)?;
                Ok(EntityType::Memory(memory))
            }
            3 => {
                let global = GlobalType::decode(reader)?;
                Ok(EntityType::Global(global))
            }
            4 => {
                let index = read_tag(reader)?;
                Ok(EntityType::Tag(index))
            }
            _ => Err(unknown),
        }
    }
}
