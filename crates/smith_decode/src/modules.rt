ghost use Rattle.std.specs.Prelude.{◌≡◌, ◌≤◌, [], ◌∷◌, IfOk, List, length, Ok};
ghost use Rattle.smith_binary_read.specs.declared.error.ReadError.TheVariants as error;
ghost use Rattle.smith_binary_read.specs.Readings.{GivesWhole};
ghost use Rattle.smith_decode.specs.CustomReadings.{GivesRest, end_at};
ghost use Rattle.smith_decode.specs.ModuleReadings.{literal_at, preamble_at, bodies_at, counts_at};
ghost use Rattle.smith_decode.specs.ModuleReadings.{starts_at, globals_at, memories_at};
ghost use Rattle.smith_decode.specs.ModuleReadings.{functions_at, sections_at, checked_at, module_at};
ghost use Rattle.smith_decode.specs.ModuleReadings.{counts_agree, count_suffices};
ghost use Rattle.smith_decode.specs.Modules.{Syntax, IsModuleBinary, syntax_of};
ghost use Rattle.smith_decode.specs.Forms.{AreFormsEnabled};
ghost use Rattle.smith_decode.specs.Locations.{located};
ghost use Rattle.smith_decode.specs.Results.{Locates, Returns, offset_in};
ghost use Rattle.smith_decode.specs.Sizes.{items_in};
ghost use Rattle.smith_types.specs.Syntax.FeatureBits.{features_in};

use crate::bodies::{Body, name_data};
use crate::customs::{Custom, read_customs};
use crate::data::DataSegment;
use crate::definitions::{GlobalDefinition, TableDefinition};
use crate::elements::ElementSegment;
use crate::error::DecodeError;
use crate::forms::find_off;
use crate::locations::{Place, locate};
use crate::sections::{read_section, skip_customs};
use crate::type_groups::split_groups;
use smith_binary_read::{Export, Fault, ReadError, Reader, Reason, TagDefinition};
use smith_types::{Imports, Items, MemoryType, SubType, WasmFeatures};
use std::alloc::{AllocError, Global};

/// A module as it is in the bytes: what [`decode`] returns. Types, functions and other entities are named
/// by their indices.
#[derive(Debug, Drop)]
pub struct Module {
    /// The recursive groups of types (Type Section).
    pub types: Items<Items<SubType>>,
    /// The supertypes of each type past its first, by groups as in `types`. Those of a valid module are
    /// empty.
    pub further_supertypes: Items<Items<Items<u32>>>,
    /// The imports, in the groups of the bytes (Import Section).
    pub imports: Items<Imports>,
    /// The type of each function (Function Section).
    pub functions: Items<u32>,
    /// The tables (Table Section).
    pub tables: Items<TableDefinition>,
    /// The memories (Memory Section).
    pub memories: Items<MemoryType>,
    /// The tags (Tag Section).
    pub tags: Items<TagDefinition>,
    /// The globals (Global Section).
    pub globals: Items<GlobalDefinition>,
    /// The exports (Export Section).
    pub exports: Items<Export>,
    /// The start function, if there is one (Start Section).
    pub start: Option<u32>,
    /// The element segments (Element Section).
    pub elements: Items<ElementSegment>,
    /// The number of data segments, if it is stated (Data Count Section).
    pub data_count: Option<u32>,
    /// The body of each function (Code Section).
    pub bodies: Items<Body>,
    /// The data segments (Data Section).
    pub datas: Items<DataSegment>,
    /// The custom sections, in order (Custom Section).
    pub customs: Items<Custom>,
}

// The bodies and the data segments.
type Bodies = (Items<Body>, (Items<DataSegment>, ()));

// The number of data segments, and what is after it.
type Counts = (Option<u32>, Bodies);

// The start function, the element segments, and what is after them.
type Starts = (Option<u32>, (Items<ElementSegment>, Counts));

// The globals, the exports, and what is after them.
type Globals = (Items<GlobalDefinition>, (Items<Export>, Starts));

// The memories, the tags, and what is after them.
type Memories = (Items<MemoryType>, (Items<TagDefinition>, Globals));

// The functions, the tables, and what is after them.
type Functions = (Items<u32>, (Items<TableDefinition>, Memories));

// Reads the byte `byte`.
fn expect_byte(reader: &mut Reader<'_>, byte: u8) -> Result<(), ReadError>
    ensures { GivesRest result reader.new (literal_at (byte ∷ []) reader.old) }
{
    let unknown = reader.fault(Reason::UnknownByte);
    let front = reader.read_byte()?;
    if front != byte {
        return Err(unknown);
    }
    Ok(())
}

/// Reads the magic number and the version (Modules).
#[tactic(auto, unfolding(crate::specs::ModuleReadings::preamble_at))]
pub(crate) fn read_preamble(reader: &mut Reader<'_>) -> Result<(), ReadError>
    ensures { GivesRest result reader.new (preamble_at reader.old) }
{
    expect_byte(reader, 0x00)?;
    expect_byte(reader, 0x61)?;
    expect_byte(reader, 0x73)?;
    expect_byte(reader, 0x6D)?;
    expect_byte(reader, 0x01)?;
    expect_byte(reader, 0x00)?;
    expect_byte(reader, 0x00)?;
    expect_byte(reader, 0x00)
}

// Returns nothing if no byte is left.
#[tactic(auto, unfolding(crate::specs::CustomReadings::end_at))]
fn read_end(reader: &Reader<'_>) -> Result<(), ReadError>
    ensures { GivesWhole result (end_at reader.now) }
{
    if reader.left() == 0 {
        return Ok(());
    }
    Err(reader.fault(Reason::SectionOrder))
}

// Reads the sections from the code section on.
#[tactic(auto, unfolding(crate::specs::ModuleReadings::bodies_at))]
fn read_bodies(reader: &mut Reader<'_>) -> Result<Bodies, ReadError>
    ensures { GivesWhole result (bodies_at reader.old) }
{
    let bodies = read_section(reader, 10, Items::new(reader.alloc()))?;
    let datas = read_section(reader, 11, Items::new(reader.alloc()))?;
    read_end(reader)?;
    Ok((bodies, (datas, ())))
}

// Reads the sections from the data count section on.
#[tactic(auto, unfolding(crate::specs::ModuleReadings::counts_at))]
fn read_counts(reader: &mut Reader<'_>) -> Result<Counts, ReadError>
    ensures { GivesWhole result (counts_at reader.old) }
{
    let count = read_section(reader, 12, None)?;
    let rest = read_bodies(reader)?;
    Ok((count, rest))
}

// Reads the sections from the start section on.
#[tactic(auto, unfolding(crate::specs::ModuleReadings::starts_at))]
fn read_starts(reader: &mut Reader<'_>) -> Result<Starts, ReadError>
    ensures { GivesWhole result (starts_at reader.old) }
{
    let start = read_section(reader, 8, None)?;
    let elements = read_section(reader, 9, Items::new(reader.alloc()))?;
    let rest = read_counts(reader)?;
    Ok((start, (elements, rest)))
}

// Reads the sections from the global section on.
#[tactic(auto, unfolding(crate::specs::ModuleReadings::globals_at))]
fn read_globals(reader: &mut Reader<'_>) -> Result<Globals, ReadError>
    ensures { GivesWhole result (globals_at reader.old) }
{
    let globals = read_section(reader, 6, Items::new(reader.alloc()))?;
    let exports = read_section(reader, 7, Items::new(reader.alloc()))?;
    let rest = read_starts(reader)?;
    Ok((globals, (exports, rest)))
}

// Reads the sections from the memory section on.
#[tactic(auto, unfolding(crate::specs::ModuleReadings::memories_at))]
fn read_memories(reader: &mut Reader<'_>) -> Result<Memories, ReadError>
    ensures { GivesWhole result (memories_at reader.old) }
{
    let memories = read_section(reader, 5, Items::new(reader.alloc()))?;
    let tags = read_section(reader, 13, Items::new(reader.alloc()))?;
    let rest = read_globals(reader)?;
    Ok((memories, (tags, rest)))
}

// Reads the sections from the function section on.
#[tactic(auto, unfolding(crate::specs::ModuleReadings::functions_at))]
fn read_functions(reader: &mut Reader<'_>) -> Result<Functions, ReadError>
    ensures { GivesWhole result (functions_at reader.old) }
{
    let functions = read_section(reader, 3, Items::new(reader.alloc()))?;
    let tables = read_section(reader, 4, Items::new(reader.alloc()))?;
    let rest = read_memories(reader)?;
    Ok((functions, (tables, rest)))
}

// Reads the sections of a module, apart from its custom sections.
#[tactic(auto, unfolding(crate::specs::ModuleReadings::sections_at, crate::specs::ModuleReadings::parts_at))]
fn read_sections(reader: &mut Reader<'_>) -> Result<Module, ReadError>
    ensures { GivesWhole result (sections_at reader.old) }
{
    let declared = read_section(reader, 1, Items::new(reader.alloc()))?;
    let imports = read_section(reader, 2, Items::new(reader.alloc()))?;
    let (functions, (tables, rest)) = read_functions(reader)?;
    let (memories, (tags, (globals, (exports, (start, (elements, rest)))))) = rest;
    let (data_count, (bodies, (datas, ()))) = rest;
    let (types, further_supertypes) = split_groups(reader.alloc(), declared)?;
    Ok(Module {
        types,
        further_supertypes,
        imports,
        functions,
        tables,
        memories,
        tags,
        globals,
        exports,
        start,
        elements,
        data_count,
        bodies,
        datas,
        customs: Items::new(reader.alloc()),
    })
}

// Returns whether `m` has a body for each function, and as many data segments as it states.
fn counts_agree(m: &Module) -> bool
    ensures { result ≡ counts_agree m.now }
{
    if m.functions.len() != m.bodies.len() {
        return false;
    }
    match m.data_count {
        None => true,
        Some(count) => count as usize == m.datas.len(),
    }
}

// Returns whether `m` states the number of its data segments, if a body names one.
fn count_suffices(m: &Module) -> bool
    ensures { result ≡ count_suffices m.now }
{
    match m.data_count {
        None => !name_data(m.bodies.as_slice()),
        Some(_) => true,
    }
}

// Returns the fault `reason` at the end.
fn end_fault(reason: Reason) -> ReadError
    ensures { result ≡ error.Malformed (record { left = 0; reason = reason }) }
{
    ReadError::Malformed(Fault { left: 0, reason })
}

// Reads a module after its preamble, without its custom sections.
#[tactic(auto, unfolding(crate::specs::ModuleReadings::checked_at))]
fn read_checked(reader: &mut Reader<'_>) -> Result<Module, ReadError>
    ensures { GivesWhole result (checked_at reader.old) }
{
    skip_customs(reader)?;
    let m = read_sections(reader)?;
    if !counts_agree(&m) {
        return Err(end_fault(Reason::CountMismatch));
    }
    if !count_suffices(&m) {
        return Err(end_fault(Reason::DataCountMissing));
    }
    Ok(m)
}

// Reads a module. Its sections are read once more for the custom ones.
#[tactic(auto, unfolding(crate::specs::ModuleReadings::module_at))]
fn read_module(alloc: Global, bytes: &[u8]) -> Result<Module, ReadError>
    ensures { GivesWhole result (module_at bytes.now) }
{
    let mut reader = Reader::new(alloc, bytes);
    read_preamble(&mut reader)?;
    let mut again = Reader::new(alloc, reader.rest());
    let mut m = read_checked(&mut reader)?;
    m.customs = read_customs(&mut again)?;
    Ok(m)
}

// Returns the offset of `place` in `bytes`, or of their end if there is no such place.
fn offset_in(alloc: Global, bytes: &[u8], place: Place) -> Result<usize, AllocError>
    ensures { IfOk result (λ offset. offset ≡ offset_in bytes.now place) }
{
    match locate(alloc, bytes, place)? {
        Some(offset) => Ok(offset),
        None => Ok(bytes.len()),
    }
}

// Returns `m`, which `bytes` are, if `features` enable its forms.
fn keep_enabled(
    alloc: Global,
    bytes: &[u8],
    features: WasmFeatures,
    m: Module,
) -> Result<Module, DecodeError>
    requires { module_at bytes.now ≡ Ok m }
    ensures { Locates (features_in features) result bytes.now (module_at bytes.now) }
{
    match find_off(features, &m) {
        None => Ok(m),
        Some(place) => match offset_in(alloc, bytes, place) {
            Ok(offset) => Err(DecodeError::FeatureOff { offset }),
            Err(_) => Err(DecodeError::Memory),
        },
    }
}

// Reads a module of `features`, and counts the offset of a fault from the start.
fn read_located(alloc: Global, bytes: &[u8], features: WasmFeatures) -> Result<Module, DecodeError>
    ensures { Locates (features_in features) result bytes.now (module_at bytes.now) }
{
    match read_module(alloc, bytes) {
        Ok(m) => keep_enabled(alloc, bytes, features, m),
        Err(ReadError::Memory) => Err(DecodeError::Memory),
        Err(ReadError::Malformed(fault)) => Err(DecodeError::Malformed {
            offset: bytes.len().saturating_sub(fault.left),
            reason: fault.reason,
        }),
    }
}

/// Decodes the module that `bytes` are, whose forms may be of `features` alone. Custom sections are kept
/// as bytes. `alloc` allocates the module.
///
/// # Errors
///
/// Returns [`DecodeError::Malformed`] if the bytes are no module, and [`DecodeError::FeatureOff`] if they
/// are one with a form of another feature. The standard says whether the module is valid; this call does
/// not.
pub fn decode(alloc: Global, bytes: &[u8], features: WasmFeatures) -> Result<Module, DecodeError>
    // The bytes are that module.
    ensures sound { IfOk result (λ m. IsModuleBinary (syntax_of m) bytes.now) }
    // Its forms are of these features.
    ensures enabled { IfOk result (λ m. AreFormsEnabled (features_in features) m) }
    // If the bytes are a module of these features, it is returned, unless memory was refused.
    ensures complete { (m : Syntax) → IsModuleBinary m bytes.now
        → Returns (features_in features) m result }
    // It has no more items than the bytes are, so memory for it is at most a multiple of their number.
    ensures small { IfOk result (λ m. items_in m ≤ length bytes.now) }
    // Which fault it is, and where.
    ensures exact { Locates (features_in features) result bytes.now (module_at bytes.now) }
{
    read_located(alloc, bytes, features)
}
