ghost use Rattle.std.specs.Prelude.{◌≡◌, [], ◌<◌, ◌≤◌, ◌^◌, true, false, List, take, length};
ghost use Rattle.std.specs.Prelude.{IsTrue, IfOk, IfErr, All};
ghost use Rattle.smith_bytes.specs.ByteLists.{byte_list_at};
ghost use Rattle.smith_bytes.specs.Source.{KeepsPieces};
ghost use Rattle.smith_bytes.specs.Takes.{Takes};
ghost use Rattle.smith_types.specs.Entities.{IsMemoryValid, page_log2};
ghost use Rattle.smith_types.specs.Expressions.{Context};
ghost use Rattle.smith_types.specs.Segments.{IsDataValid, IsDataInside, IsOffsetValid};
ghost use Rattle.smith_types.specs.Segments.{IsOffsetInside};
ghost use Rattle.smith_types.specs.Syntax.entity_type.MemoryType.{MemoryType};
ghost use Rattle.smith_config.specs.Faults.{Passes};
ghost use Rattle.smith_config.specs.Features.{features_of};
ghost use Rattle.smith_draw_consts.specs.ConstScopes.{AreSpacesValid, seen_by};
ghost use Rattle.smith_draw_types.specs.Drawing.{AlwaysDraws, Draws};
ghost use Rattle.smith_bytes.specs.Steps.{ReturnsWhy};
ghost use Rattle.smith_draw_contents.specs.DataSegments.{HasPages, least_bytes, last_address};
ghost use Rattle.smith_draw_contents.specs.DataSegments.{constant_offset, address_at};
ghost use Rattle.smith_draw_contents.specs.DataSegments.{constant_placed_at, placed_at, active_at};
ghost use Rattle.smith_draw_contents.specs.DataSegments.{passive_at, data_segment_at, data_segments_at, data_at};
ghost use Rattle.smith_draw_contents.specs.DataTargets.{TellOffsets, AreTargets, IsDataFit};
ghost use Rattle.smith_draw_contents.specs.DataTargets.{MayRefuseData};
ghost use Rattle.smith_draw_contents.specs.PassiveData.{SpellsPassive};

use crate::data_targets::{Targets, offer_memories};
use crate::offset_globals::OffsetGlobals;
use smith_bytes::{Count, Error, Unstructured, Why, goes_on};
use smith_config::Config;
use smith_draw_types::{Spaces, arbitrary_offset};
use smith_types::{DataSegment, DataSegmentKind, Items, MemoryType, Offset};
use std::alloc::Global;

#[tactic(auto, unfolding(smith_bytes::specs::ByteLists::byte_list_at))]
fn draw_byte_list(alloc: Global, u: &mut Unstructured<'_>) -> Result<Items<u8>, Error>
    ensures { Draws (byte_list_at u.old) result u.old u.new }
{
    let mut bytes = Items::new(alloc);
    for made in 0..u.len() {
        if !goes_on(u, made, 0) {
            return Ok(bytes);
        }
        bytes.push(u.arbitrary::<u8>())?;
    }
    Ok(bytes)
}

fn least_bytes(memory: MemoryType) -> u128
    requires { page_log2 memory.page_size_log2 ≤ 16 }
    ensures { result ≡ least_bytes memory }
{
    u128::from(memory.minimum) * (1 << memory.page_size_log2.unwrap_or(16))
}

fn last_address(wide: bool) -> u64
    ensures { result ≡ last_address wide }
{
    if wide { u64::MAX } else { u64::from(u32::MAX) }
}

fn constant_offset(wide: bool, address: u64) -> Offset
    requires { address ≤ last_address wide }
    ensures { result ≡ constant_offset wide address }
{
    if wide {
        return Offset::Const64(address.cast_signed());
    }
    Offset::Const32((address as u32).cast_signed())
}

/// Draws the address of the first of `size` bytes in `memory`. With `no_traps` the address is at
/// most the minimum number of bytes of `memory`.
#[tactic(auto, unfolding(crate::specs::DataSegments::address_at))]
fn draw_address(no_traps: bool, memory: MemoryType, size: usize, u: &mut Unstructured<'_>) -> u64
    requires { page_log2 memory.page_size_log2 ≤ 16 }
    ensures draws { AlwaysDraws (address_at no_traps memory size u.old) result u.old u.new }
    ensures within { result ≤ last_address memory.memory64 }
{
    let last = last_address(memory.memory64);
    let inside = least_bytes(memory).min(u128::from(last)) as u64;
    let most = if no_traps { inside } else { last };
    arbitrary_offset(inside, most, size, u)
}

/// Cuts `init` to its first `most` bytes.
fn cut(init: Items<u8>, most: u128) -> Items<u8>
    ensures { result ≡ take most init }
{
    let mut bytes = init.into_vec();
    let most = most.min(bytes.len() as u128);
    bytes.truncate(most as usize);
    Items::from_vec(bytes)
}

/// Draws a constant offset for `init` into `memory`, and returns it with `init`. With `no_traps`,
/// `init` is cut to the minimum number of bytes of `memory`, and the offset is lowered until all of
/// it fits.
#[tactic(auto, unfolding(crate::specs::DataSegments::constant_placed_at))]
fn draw_constant(
    no_traps: bool,
    memory: MemoryType,
    init: Items<u8>,
    u: &mut Unstructured<'_>,
) -> (Offset, Items<u8>)
    requires { page_log2 memory.page_size_log2 ≤ 16 }
    ensures draws { AlwaysDraws (constant_placed_at no_traps memory init u.old) result u.old u.new }
    ensures valid { (context : Context) → IsOffsetValid context memory.memory64 result.0 }
    ensures inside { IsTrue no_traps
        → IsOffsetInside result.0 (length result.1) (least_bytes memory) }
{
    let address = draw_address(no_traps, memory, init.len(), u);
    if !no_traps {
        return (constant_offset(memory.memory64, address), init);
    }
    let most = least_bytes(memory);
    let kept = cut(init, most);
    let fitting = u128::from(address).min(most - kept.len() as u128) as u64;
    (constant_offset(memory.memory64, fitting), kept)
}

/// Draws an offset for `init`: a constant, or the value of one of `globals`.
#[tactic(auto, unfolding(crate::specs::DataSegments::placed_at))]
fn draw_offset(
    no_traps: bool,
    globals: &OffsetGlobals<'_>,
    memory: MemoryType,
    init: Items<u8>,
    u: &mut Unstructured<'_>,
) -> (Offset, Items<u8>)
    requires { page_log2 memory.page_size_log2 ≤ 16 }
    ensures draws { AlwaysDraws (placed_at no_traps globals.now memory init u.old)
        result u.old u.new }
    ensures valid { (context : Context) → TellOffsets context memory.memory64 globals.now
        → IsOffsetValid context memory.memory64 result.0 }
    ensures inside { IsTrue no_traps → globals.now ≡ []
        → IsOffsetInside result.0 (length result.1) (least_bytes memory) }
{
    let place = u.int_in_range(0..=globals.len());
    if place == 0 {
        return draw_constant(no_traps, memory, init, u);
    }
    (Offset::Global(globals.at(place - 1)), init)
}

/// Draws a segment that copies `init` into one of the memories of `targets`.
#[tactic(auto, unfolding(crate::specs::DataSegments::active_at))]
fn draw_active(
    config: &Config,
    targets: &Targets<'_>,
    init: Items<u8>,
    u: &mut Unstructured<'_>,
) -> DataSegment
    requires some { 0 < length targets.now.memories }
    requires pages { All HasPages targets.now.memories }
    ensures draws { AlwaysDraws (active_at config.now targets.now init u.old) result u.old u.new }
    ensures fit { (context : Context) (memories : List MemoryType)
        → AreTargets config.now context memories targets.now
        → IsDataFit config.now context memories result }
{
    let (memory_index, memory) = targets.choose(u);
    let globals = targets.globals_for(memory.memory64);
    let (offset, init) = draw_offset(config.disallow_traps, globals, memory, init, u);
    DataSegment {
        kind: DataSegmentKind::Active {
            memory_index,
            offset,
        },
        init,
    }
}

/// Draws whether a segment is passive, which requires bulk memory.
#[tactic(auto, unfolding(crate::specs::DataSegments::passive_at))]
fn is_passive(config: &Config, targets: &Targets<'_>, u: &mut Unstructured<'_>) -> bool
    ensures draws { AlwaysDraws (passive_at config.now targets.now u.old) result u.old u.new }
    ensures bulk { result ≡ true → IsTrue config.now.bulk_memory_enabled }
    ensures some { result ≡ false → IsTrue config.now.bulk_memory_enabled
        → 0 < length targets.now.memories }
{
    if !config.bulk_memory_enabled {
        return false;
    }
    targets.is_empty() || u.arbitrary()
}

#[tactic(auto, unfolding(crate::specs::DataSegments::data_segment_at))]
fn draw_segment(
    alloc: Global,
    config: &Config,
    targets: &Targets<'_>,
    u: &mut Unstructured<'_>,
) -> Result<DataSegment, Error>
    requires some { config.now.bulk_memory_enabled ≡ false → 0 < length targets.now.memories }
    requires pages { All HasPages targets.now.memories }
    ensures draws { Draws (data_segment_at config.now targets.now u.old) result u.old u.new }
    ensures fit { (context : Context) (memories : List MemoryType)
        → AreTargets config.now context memories targets.now
        → IfOk result (IsDataFit config.now context memories) }
{
    let init = draw_byte_list(alloc, u)?;
    if is_passive(config, targets, u) {
        return Ok(DataSegment {
            kind: DataSegmentKind::Passive,
            init,
        });
    }
    Ok(draw_active(config, targets, init, u))
}

#[tactic(auto, unfolding(crate::specs::DataSegments::data_segments_at))]
fn draw_segments(
    alloc: Global,
    config: &Config,
    targets: &Targets<'_>,
    u: &mut Unstructured<'_>,
) -> Result<Items<DataSegment>, Error>
    requires some { config.now.bulk_memory_enabled ≡ false → 0 < length targets.now.memories }
    requires pages { All HasPages targets.now.memories }
    ensures draws { Draws (data_segments_at config.now targets.now u.old) result u.old u.new }
    ensures fit { (context : Context) (memories : List MemoryType)
        → AreTargets config.now context memories targets.now
        → IfOk result (All (IsDataFit config.now context memories)) }
{
    let mut segments = Items::new(alloc);
    for made in 0..config.max_data_segments {
        if !goes_on(u, made, config.min_data_segments) {
            return Ok(segments);
        }
        segments.push(draw_segment(alloc, config, targets, u)?)?;
    }
    Ok(segments)
}

#[tactic(auto, unfolding(crate::specs::DataSegments::data_at))]
fn draw_data(
    alloc: Global,
    config: &Config,
    spaces: &Spaces<'_>,
    u: &mut Unstructured<'_>,
) -> Result<Items<DataSegment>, Error>
    requires standing { AreSpacesValid config.now spaces.now }
    requires memories { All (IsMemoryValid (features_of config.now))
        spaces.now.entities.memories.now }
    requires few { length spaces.now.entities.memories.now < 2 ^ 32 }

    // The draw.
    ensures exact { ReturnsWhy (λ segments. (segments, u.new)) result (data_at config.now
        (seen_by config.now spaces.now true) spaces.now.entities.memories.now u.old) }
    ensures fit { IfOk result (All (IsDataFit config.now
        (seen_by config.now spaces.now true) spaces.now.entities.memories.now)) }

    // Bounds.
    ensures most { IfOk result (λ segments. length segments ≤ config.now.max_data_segments) }
    ensures least { config.now.min_data_segments ≤ config.now.max_data_segments
        → IfOk result (λ segments. config.now.min_data_segments ≤ length segments) }

    // Refusals and the source.
    ensures refusal { IfErr result (MayRefuseData config.now) }
    ensures left { KeepsPieces u.old u.new }
{
    let offered = offer_memories(alloc, spaces.entities.memories, u)?;
    if !config.bulk_memory_enabled && offered.is_empty() {
        if config.min_data_segments > 0 {
            return Err(Error::IncorrectFormat(Why::Unmet(Count::DataSegments)));
        }
        return Ok(Items::new(alloc));
    }
    let targets = Targets::new(config, spaces, offered);
    draw_segments(alloc, config, &targets, u)
}

/// Draws the data segments: at least `min_data_segments` and at most `max_data_segments` of
/// `config`. Active segments are copied into memories of `spaces`, at constant offsets or at the
/// values of globals. See the standard, section Validation, Data Segments.
///
/// Requires `config` to pass its check, and `spaces` to have valid types, no more imported globals
/// than globals, and fewer than 2^32 functions, globals and memories each, valid over its types.
///
/// # Errors
///
/// Returns `Unmet(DataSegments)` if segments are required, bulk memory is off, and no memory may be
/// copied into. Whether a memory with a minimum of 0 may be copied into depends on a drawn number.
pub fn arbitrary_data(
    alloc: Global,
    config: &Config,
    spaces: &Spaces<'_>,
    u: &mut Unstructured<'_>,
) -> Result<Items<DataSegment>, Error>
    requires passes { Passes config.now }
    requires standing { AreSpacesValid config.now spaces.now }
    requires memories { All (IsMemoryValid (features_of config.now))
        spaces.now.entities.memories.now }
    requires few { length spaces.now.entities.memories.now < 2 ^ 32 }

    // The draw.
    ensures exact { ReturnsWhy (λ segments. (segments, u.new)) result (data_at config.now
        (seen_by config.now spaces.now true) spaces.now.entities.memories.now u.old) }

    // Validity and traps.
    ensures valid { IfOk result
        (All (IsDataValid (seen_by config.now spaces.now true) spaces.now.entities.memories.now)) }
    ensures inside { IsTrue config.now.disallow_traps
        → IfOk result (All (IsDataInside spaces.now.entities.memories.now)) }

    // Bounds.
    ensures most { IfOk result (λ segments. length segments ≤ config.now.max_data_segments) }
    ensures least { IfOk result (λ segments. config.now.min_data_segments ≤ length segments) }

    // Refusals, reach and the source.
    ensures reach { config.now.min_data_segments ≡ 0 → spaces.now.entities.memories.now ≡ []
        → IfOk result (λ segments. Takes (SpellsPassive config.now) u.old segments u.new) }
    ensures refusal { IfErr result (MayRefuseData config.now) }
    ensures left { KeepsPieces u.old u.new }
{
    draw_data(alloc, config, spaces, u)
}
