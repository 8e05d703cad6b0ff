ghost use Rattle.std.specs.Prelude.{◌≡◌, IfOk};
ghost use Rattle.smith_binary_read.specs.Readings.{GivesBy, GivesWhole};
ghost use Rattle.smith_decode.specs.CustomReadings.{GivesRest};
ghost use Rattle.smith_decode.specs.ModuleReadings.{preamble_at};
ghost use Rattle.smith_decode.specs.Locations.{
  after_each_at,
  begins_at,
  begins_in,
  content_begins,
  from_item_at,
  instruction_begins,
  item_begins,
  located,
  part_begins,
  found_section_at,
  section_content_at,
};
ghost use Rattle.smith_binary_read.specs.EntityReadings.{global_type_at};
ghost use Rattle.smith_binary_read.specs.Numbers.{unsigned_at};
ghost use Rattle.smith_binary_read_instr.specs.InstrReadings.{instr_at};
ghost use Rattle.smith_decode.specs.BodyReadings.{body_at};
ghost use Rattle.smith_decode.specs.DefinitionReadings.{global_at};

use crate::bodies::{Body, LocalRun};
use crate::data::DataSegment;
use crate::definitions::{GlobalDefinition, TableDefinition};
use crate::elements::ElementSegment;
use crate::modules::read_preamble;
use smith_binary_read::{
    DeclaredType, Decode, Export, ReadError, Reader, Reason, TagDefinition, read_list,
};
use smith_binary_read_instr::read_instr;
use smith_types::{GlobalType, Imports, Items, MemoryType};
use std::alloc::{AllocError, Global};

/// A place in the bytes of a module: where one of its items begins. Indices are positions in the lists
/// of the decoded module, so imports are not counted among functions, tables, memories, tags and globals.
#[derive(Clone, Copy, Debug, PartialEq, Eq)]
pub enum Place {
    /// A recursive group of types (Type Section).
    Types(usize),
    /// A group of imports (Import Section).
    Imports(usize),
    /// The type of a function (Function Section).
    Function(usize),
    /// A table (Table Section).
    Table(usize),
    /// A memory (Memory Section).
    Memory(usize),
    /// A tag (Tag Section).
    Tag(usize),
    /// A global (Global Section).
    Global(usize),
    /// The initialiser of a global (Global Section).
    GlobalInitial(usize),
    /// An export (Export Section).
    Export(usize),
    /// The start function (Start Section).
    Start,
    /// An element segment (Element Section).
    Element(usize),
    /// The number of data segments (Data Count Section).
    DataCount,
    /// The body of a function, at its size (Code Section).
    Body(usize),
    /// The instruction `index` of a body, or its last `end` after all others (Code Section).
    Instruction { body: usize, index: usize },
    /// A data segment (Data Section).
    Data(usize),
}

// Reads `count` items, and drops them.
fn pass_each<T: Decode>(reader: &mut Reader<'_>, count: usize) -> Result<(), ReadError>
    ensures { GivesRest result reader.new (after_each_at T.reading count reader.old) }
{
    for _ in 0..count {
        T::decode(reader)?;
    }
    Ok(())
}

// Reads `count` instructions, and drops them.
fn pass_instructions(reader: &mut Reader<'_>, count: usize) -> Result<(), ReadError>
    ensures { GivesRest result reader.new (after_each_at instr_at count reader.old) }
{
    for _ in 0..count {
        read_instr(reader)?;
    }
    Ok(())
}

// Reads at most `most` sections, up to the first with the identifier `id`. Returns its content.
fn find_content<'a>(reader: &mut Reader<'a>, id: u8, most: usize) -> Result<&'a [u8], ReadError>
    ensures { GivesBy (λ content. content.now) result reader.new
        (section_content_at most id reader.old) }
{
    for _ in 0..most {
        let front = reader.read_byte()?;
        let content = reader.read_content()?;
        if front == id {
            return Ok(content);
        }
    }
    Err(reader.fault(Reason::UnexpectedEnd))
}

// Reads the items of a list before the one at `index`, which must be there.
#[tactic(auto, unfolding(crate::specs::Locations::from_item_at))]
fn pass_to_item<T: Decode>(reader: &mut Reader<'_>, index: usize) -> Result<(), ReadError>
    ensures { GivesRest result reader.new (from_item_at T.reading index reader.old) }
{
    let missing = reader.fault(Reason::UnexpectedEnd);
    let count = reader.read_u32()?;
    if index >= count as usize {
        return Err(missing);
    }
    pass_each::<T>(reader, index)
}

// Returns a reader of the content of the section `id` of the module `bytes`, and the offset of its end.
#[tactic(auto, unfolding(crate::specs::Locations::found_section_at))]
fn open_section<'a>(
    alloc: Global,
    bytes: &'a [u8],
    id: u8,
) -> Result<(Reader<'a>, usize), ReadError>
    ensures { GivesWhole result (found_section_at id bytes.now) }
{
    let mut reader = Reader::new(alloc, bytes);
    read_preamble(&mut reader)?;
    let most = reader.left();
    let content = find_content(&mut reader, id, most)?;
    let end = bytes.len().saturating_sub(reader.left());
    Ok((Reader::new(alloc, content), end))
}

// Returns the offset of the content of the section `id`.
#[tactic(auto, unfolding(crate::specs::Locations::begins_in))]
fn locate_content(alloc: Global, bytes: &[u8], id: u8) -> Result<usize, ReadError>
    ensures { GivesWhole result (begins_in id content_begins bytes.now) }
{
    let (reader, end) = open_section(alloc, bytes, id)?;
    Ok(end.saturating_sub(reader.left()))
}

// Returns the offset of the item at `index` in the list that is the section `id`.
#[tactic(auto, unfolding(crate::specs::Locations::begins_in, crate::specs::Locations::item_begins))]
fn locate_item<T: Decode>(
    alloc: Global,
    bytes: &[u8],
    id: u8,
    index: usize,
) -> Result<usize, ReadError>
    ensures { GivesWhole result (begins_in id (item_begins T.reading index) bytes.now) }
{
    let (mut reader, end) = open_section(alloc, bytes, id)?;
    pass_to_item::<T>(&mut reader, index)?;
    Ok(end.saturating_sub(reader.left()))
}

// Returns the offset of the initialiser of the global at `index`.
#[tactic(auto, unfolding(crate::specs::Locations::begins_in, crate::specs::Locations::part_begins))]
fn locate_initial(alloc: Global, bytes: &[u8], index: usize) -> Result<usize, ReadError>
    ensures { GivesWhole result (begins_in 6 (part_begins global_at global_type_at index) bytes.now) }
{
    let (mut reader, end) = open_section(alloc, bytes, 6)?;
    pass_to_item::<GlobalDefinition>(&mut reader, index)?;
    GlobalType::decode(&mut reader)?;
    Ok(end.saturating_sub(reader.left()))
}

// Returns the offset of the instruction at `index` in the body `body`.
#[tactic(auto, unfolding(crate::specs::Locations::begins_in, crate::specs::Locations::instruction_begins))]
fn locate_instruction(
    alloc: Global,
    bytes: &[u8],
    body: usize,
    index: usize,
) -> Result<usize, ReadError>
    ensures { GivesWhole result (begins_in 10 (instruction_begins body index) bytes.now) }
{
    let (mut reader, end) = open_section(alloc, bytes, 10)?;
    pass_to_item::<Body>(&mut reader, body)?;
    let content = reader.read_content()?;
    let mut inner = Reader::new(alloc, content);
    read_list::<LocalRun>(&mut inner)?;
    pass_instructions(&mut inner, index)?;
    Ok(
        end.saturating_sub(reader.left())
            .saturating_sub(inner.left()),
    )
}

// Returns the offset at which `place` begins.
fn read_place(alloc: Global, bytes: &[u8], place: Place) -> Result<usize, ReadError>
    ensures { GivesWhole result (begins_at place bytes.now) }
{
    match place {
        Place::Types(index) => locate_item::<Items<DeclaredType>>(alloc, bytes, 1, index),
        Place::Imports(index) => locate_item::<Imports>(alloc, bytes, 2, index),
        Place::Function(index) => locate_item::<u32>(alloc, bytes, 3, index),
        Place::Table(index) => locate_item::<TableDefinition>(alloc, bytes, 4, index),
        Place::Memory(index) => locate_item::<MemoryType>(alloc, bytes, 5, index),
        Place::Tag(index) => locate_item::<TagDefinition>(alloc, bytes, 13, index),
        Place::Global(index) => locate_item::<GlobalDefinition>(alloc, bytes, 6, index),
        Place::GlobalInitial(index) => locate_initial(alloc, bytes, index),
        Place::Export(index) => locate_item::<Export>(alloc, bytes, 7, index),
        Place::Start => locate_content(alloc, bytes, 8),
        Place::Element(index) => locate_item::<ElementSegment>(alloc, bytes, 9, index),
        Place::DataCount => locate_content(alloc, bytes, 12),
        Place::Body(index) => locate_item::<Body>(alloc, bytes, 10, index),
        Place::Instruction { body, index } => locate_instruction(alloc, bytes, body, index),
        Place::Data(index) => locate_item::<DataSegment>(alloc, bytes, 11, index),
    }
}

/// Returns the offset in `bytes` at which `place` begins, counted from 0, or `None` if the sections up to
/// there are malformed or have no such place. `alloc` allocates the items before it, one at a time.
///
/// # Errors
///
/// Returns [`AllocError`] if memory was refused.
pub fn locate(alloc: Global, bytes: &[u8], place: Place) -> Result<Option<usize>, AllocError>
    ensures { IfOk result (λ found. found ≡ located place bytes.now) }
{
    match read_place(alloc, bytes, place) {
        Ok(offset) => Ok(Some(offset)),
        Err(ReadError::Memory) => Err(AllocError),
        Err(ReadError::Malformed(_)) => Ok(None),
    }
}
