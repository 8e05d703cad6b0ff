ghost use Rattle.std.specs.Prelude.{◌≡◌, ◌+◌, ◌<◌, ◌≤◌, true, [], length, IsTrue, IfOk, IfErr, All};
ghost use Rattle.std.specs.Prelude.{if◌then◌else◌};
ghost use Rattle.std.specs.List.{flat_map};
ghost use Rattle.smith_bytes.specs.Source.{KeepsPieces};
ghost use Rattle.smith_bytes.specs.Takes.{Takes};
ghost use Rattle.smith_types.specs.Floats.{HasNoFloat, GivesNoFloat};
ghost use Rattle.smith_types.specs.Segments.{item_count, IsElementSegmentValid, IsElementInside};
ghost use Rattle.smith_types.specs.Syntax.segments.ElementSegment.{ElementSegment};
ghost use Rattle.smith_draw_types.specs.Grounding.{standing_in};
ghost use Rattle.smith_draw_types.specs.KeptGrounds.{AreKeptGrounds};
ghost use Rattle.smith_draw_consts.specs.ConstScopes.{seen_by};
ghost use Rattle.smith_bytes.specs.Spelling.{SpellsEmpty};
ghost use Rattle.smith_bytes.specs.Steps.{Returns, is_memory};
ghost use Rattle.smith_module_rules.specs.Held.{HasItems, expressions_of};
ghost use Rattle.smith_config.specs.Granted.{HasGroundedItems};
ghost use Rattle.smith_draw_contents.specs.DrawnElements.{HasUngroundedElements, IsKindOffered};
ghost use Rattle.smith_draw_contents.specs.DrawnElements.{IsElementFit, MayDrawElements};
ghost use Rattle.smith_draw_contents.specs.DrawnElements.{MayRefuseElementSegment, MayRefuseElements};
ghost use Rattle.smith_draw_contents.specs.ElementSegments.{most_items, items_in, element_segment_at};
ghost use Rattle.smith_draw_contents.specs.ElementSegments.{element_segments_at, all_element_segments_at};
ghost use Rattle.smith_bytes.specs.Spelling.{SpellsNone};

use crate::element_items::{draw_item_type, draw_items};
use crate::element_kinds::offer_kinds;
use crate::element_offsets::draw_kind;
use crate::offered_kinds::OfferedKinds;
use smith_bytes::{Count, Error, Unstructured, Why, goes_on};
use smith_config::Config;
use smith_draw_types::{KeptGrounds, ReferenceScope, Spaces};
use smith_types::{ElementSegment, Elements, Items};
use std::alloc::Global;

/// Returns the greatest number of items of a segment after segments of `total` items, within `hint`
/// if there is one.
fn most_items(config: &Config, hint: Option<u64>, total: usize) -> usize
    requires { total ≤ config.now.max_elements }
    ensures exact { result ≡ most_items config.now hint total }
    ensures within { total + result ≤ config.now.max_elements }
{
    let left = config.max_elements - total;
    match hint {
        Some(hint) => hint.min(left as u64) as usize,
        None => config.max_elements.min(left),
    }
}

/// Draws a segment of one of `kinds`, after segments of `total` items.
fn draw_segment(
    alloc: Global,
    config: &Config,
    spaces: &Spaces<'_>,
    standing: &ReferenceScope<'_>,
    kinds: &OfferedKinds<'_>,
    total: usize,
    u: &mut Unstructured<'_>,
) -> Result<ElementSegment, Error>
    requires may { MayDrawElements config.now spaces.now }
    requires standing { standing.now ≡ standing_in config.now spaces.now }
    requires some { 0 < length kinds.now }
    requires offered { All (IsKindOffered config.now spaces.now.types.now.types
        spaces.now.entities.tables.now) kinds.now }
    requires total { total ≤ config.now.max_elements }
    ensures within { IfOk result (λ segment.
        total + item_count segment.items ≤ config.now.max_elements) }
    ensures exact { Returns is_memory (λ segment. (segment, u.new)) result
        (element_segment_at config.now (seen_by config.now spaces.now true) kinds.now total u.old) }
    ensures fit { IfOk result (IsElementFit config.now
        (seen_by config.now spaces.now true) spaces.now.entities.tables.now) }
    ensures refusal { IfErr result (MayRefuseElementSegment config.now
        (standing_in config.now spaces.now) spaces.now.entities.tables.now) }
    ensures left { KeepsPieces u.old u.new }
{
    let choice = kinds.choose(u);
    let (kind, hint) = draw_kind(config, spaces, choice, u);
    let ty = draw_item_type(alloc, config, spaces, standing, choice, u)?;
    let most = most_items(config, hint, total);
    let items = draw_items(alloc, config, spaces, ty, most, u)?;
    Ok(ElementSegment { kind, ty, items })
}

/// Counts the items of a segment.
fn item_count(items: &Elements) -> usize
    ensures { result ≡ item_count items.now }
{
    match items {
        Elements::Functions(functions) => functions.len(),
        Elements::Expressions(expressions) => expressions.len(),
    }
}

/// Draws segments of `kinds`.
fn draw_segments(
    alloc: Global,
    config: &Config,
    spaces: &Spaces<'_>,
    standing: &ReferenceScope<'_>,
    kinds: &OfferedKinds<'_>,
    u: &mut Unstructured<'_>,
) -> Result<Items<ElementSegment>, Error>
    requires may { MayDrawElements config.now spaces.now }
    requires standing { standing.now ≡ standing_in config.now spaces.now }
    requires some { 0 < length kinds.now }
    requires offered { All (IsKindOffered config.now spaces.now.types.now.types
        spaces.now.entities.tables.now) kinds.now }
    ensures exact { Returns is_memory (λ segments. (segments, u.new)) result
        (element_segments_at config.now
        (seen_by config.now spaces.now true) kinds.now config.now.max_element_segments [] u.old) }
    ensures fit { IfOk result (All (IsElementFit config.now
        (seen_by config.now spaces.now true) spaces.now.entities.tables.now)) }
    ensures most { IfOk result (λ segments. (length segments ≤ config.now.max_element_segments)
        × (items_in segments ≤ config.now.max_elements)) }
    ensures refusal { IfErr result (MayRefuseElementSegment config.now
        (standing_in config.now spaces.now) spaces.now.entities.tables.now) }
    ensures left { KeepsPieces u.old u.new }
{
    let mut segments = Items::new(alloc);
    let mut total = 0;
    for made in 0..config.max_element_segments {
        if !goes_on(u, made, config.min_element_segments) {
            return Ok(segments);
        }
        let segment = draw_segment(alloc, config, spaces, standing, kinds, total, u)?;
        total += item_count(&segment.items);
        segments.push(segment)?;
    }
    Ok(segments)
}

/// Returns an empty list of segments. Fails if `config` requires segments.
fn none(alloc: Global, config: &Config) -> Result<Items<ElementSegment>, Error>
    ensures none { IfOk result (λ segments.
        (segments ≡ []) × (config.now.min_element_segments ≡ 0)) }
    ensures unmet { IfErr result (λ e. (e ≡ Error.IncorrectFormat (Why.Unmet Count.ElementSegments))
        × (0 < config.now.min_element_segments)) }
{
    if config.min_element_segments > 0 {
        return Err(Error::IncorrectFormat(Why::Unmet(Count::ElementSegments)));
    }
    Ok(Items::new(alloc))
}

#[tactic(auto, unfolding(crate::specs::ElementSegments::all_element_segments_at))]
fn draw_elements(
    alloc: Global,
    config: &Config,
    spaces: &Spaces<'_>,
    grounds: &KeptGrounds,
    u: &mut Unstructured<'_>,
) -> Result<Items<ElementSegment>, Error>
    requires may { MayDrawElements config.now spaces.now }
    requires kept { AreKeptGrounds (standing_in config.now spaces.now) grounds.now }
    ensures exact { Returns is_memory (λ segments. (segments, u.new)) result (all_element_segments_at config.now
        (seen_by config.now spaces.now true) spaces.now.entities.tables.now u.old) }
    ensures fit { IfOk result (All (IsElementFit config.now
        (seen_by config.now spaces.now true) spaces.now.entities.tables.now)) }
    ensures most { IfOk result (λ segments. (length segments ≤ config.now.max_element_segments)
        × (items_in segments ≤ config.now.max_elements)) }
    ensures refusal { IfErr result (MayRefuseElements config.now
        (standing_in config.now spaces.now) spaces.now.entities.tables.now) }
    ensures left { KeepsPieces u.old u.new }
{
    let kinds = offer_kinds(alloc, config, spaces, u)?;
    if kinds.is_empty() {
        return none(alloc, config);
    }
    let standing = grounds.scope(config, spaces);
    draw_segments(alloc, config, spaces, &standing, &kinds, u)
}

/// Draws the element segments: at least `min_element_segments` and at most `max_element_segments`
/// of `config`. Each has at least `min_elements` items, and together they have at most
/// `max_elements`. A segment that lists functions is empty if all functions of `spaces` have shared
/// types. See the standard, section Validation, Element Segments.
///
/// Requires `config` to be sanitised and to pass its check. Requires `spaces` to have valid types,
/// no more imported globals than globals, and fewer than 2^32 functions, tables and globals each,
/// valid over its types. Requires `grounds` to record the heap types that its functions ground.
///
/// # Errors
///
/// - `Unmet(ElementSegments)` if `config` requires segments, bulk memory is off, and no table may
///   be copied into.
/// - `Unmet(Elements)` if the limit of a segment is below `min_elements`.
/// - `EmptyChoose` if no expression has the type of an item. This requires a field of a type, or an
///   element of a table, whose reference type is not nullable. With `non_nullable_enabled`, it also
///   requires that no struct type and no function of `spaces` grounds that type.
pub fn arbitrary_elements(
    alloc: Global,
    config: &Config,
    spaces: &Spaces<'_>,
    grounds: &KeptGrounds,
    u: &mut Unstructured<'_>,
) -> Result<Items<ElementSegment>, Error>
    requires may { MayDrawElements config.now spaces.now }
    requires kept { AreKeptGrounds (standing_in config.now spaces.now) grounds.now }

    // The draw.
    ensures exact { Returns is_memory (λ segments. (segments, u.new)) result (all_element_segments_at config.now
        (seen_by config.now spaces.now true) spaces.now.entities.tables.now u.old) }

    // Validity and traps.
    ensures valid { IfOk result
        (All (IsElementSegmentValid (seen_by config.now spaces.now true) spaces.now.entities.tables.now)) }
    ensures inside { IsTrue config.now.disallow_traps
        → IfOk result (All (IsElementInside spaces.now.entities.tables.now)) }

    // Bounds.
    ensures most { IfOk result (λ segments. (length segments ≤ config.now.max_element_segments)
        × (items_in segments ≤ config.now.max_elements)) }
    ensures least { IfOk result (λ segments. config.now.min_element_segments ≤ length segments) }
    ensures enough { IfOk result (All (λ (segment : ElementSegment). HasItems config.now
        spaces.now.types.now.types spaces.now.entities.funcs.now segment.items)) }

    // Floats and references.
    ensures floats { All HasNoFloat spaces.now.types.now.types
        → IfOk result (λ segments. All (All GivesNoFloat)
        (flat_map (λ (segment : ElementSegment). expressions_of segment.items) segments)) }
    ensures grounded { ¬ HasUngroundedElements config.now
        (standing_in config.now spaces.now) spaces.now.entities.tables.now
        → IfOk result (All (HasGroundedItems config.now (standing_in config.now spaces.now))) }

    // Refusals, reach and the source.
    ensures none { config.now.min_element_segments ≡ 0 → spaces.now.entities.tables.now ≡ []
        → IfOk result (λ segments. Takes (SpellsEmpty (SpellsNone
        (if config.now.bulk_memory_enabled then config.now.max_element_segments else 0)))
        u.old segments u.new) }
    ensures refusal { IfErr result (MayRefuseElements config.now
        (standing_in config.now spaces.now) spaces.now.entities.tables.now) }
    ensures left { KeepsPieces u.old u.new }
{
    draw_elements(alloc, config, spaces, grounds, u)
}
