ghost use Rattle.std.specs.Prelude.{◌≡◌, ◌+◌, ◌-◌, ◌<◌, ◌≤◌, ℕ, true, Some, IsTrue};
ghost use Rattle.smith_types.specs.Entities.{most_elements};
ghost use Rattle.smith_types.specs.Expressions.{Context};
ghost use Rattle.smith_types.specs.Segments.{IsOffsetValid, IsOffsetInside};
ghost use Rattle.smith_draw_consts.specs.ConstScopes.{AreSpacesValid, seen_by};
ghost use Rattle.smith_draw_types.specs.Drawing.{AlwaysDraws};
ghost use Rattle.smith_draw_contents.specs.DrawnElements.{FitsAddresses, IsPlaced, IsKindDrawn};
ghost use Rattle.smith_draw_contents.specs.ElementSegments.{most_offset, constant_offset, hint_at};
ghost use Rattle.smith_draw_contents.specs.ElementSegments.{constant_offset_at, is_global_wanted_at};
ghost use Rattle.smith_draw_contents.specs.ElementSegments.{table_offset_at, element_kind_at};

use crate::element_kinds::KindChoice;
use crate::offset_globals::OffsetGlobals;
use smith_bytes::Unstructured;
use smith_config::Config;
use smith_draw_types::{Spaces, arbitrary_offset};
use smith_types::{ElementKind, Offset, TableType};

/// Returns the greatest constant offset into `table`: its minimum with `disallow_traps`, else the
/// greatest address.
fn most_offset(config: &Config, table: &TableType) -> u64
    requires { table.now.minimum ≤ most_elements table.now.table64 }
    ensures exact { result ≡ most_offset config.now table.now }
    ensures above { table.now.minimum ≤ result }
    ensures within { result ≤ most_elements table.now.table64 }
{
    if config.disallow_traps {
        return table.minimum;
    }
    if table.table64 {
        u64::MAX
    } else {
        u32::MAX as u64
    }
}

/// Makes `offset` a constant of the address type of `table`.
fn constant_offset(table: &TableType, offset: u64) -> Offset
    requires { offset ≤ most_elements table.now.table64 }
    ensures exact { result ≡ constant_offset table.now offset }
    ensures valid { (context : Context) → IsOffsetValid context table.now.table64 result }
    ensures inside { (count most : ℕ) → offset + count ≤ most → IsOffsetInside result count most }
{
    if table.table64 {
        return Offset::Const64(offset.cast_signed());
    }
    Offset::Const32((offset as u32).cast_signed())
}

/// Draws the number of elements that must fit, or no limit. A limit is the number of elements
/// between `offset` and the minimum of `table`.
#[tactic(auto, unfolding(crate::specs::ElementSegments::hint_at))]
fn draw_hint(
    config: &Config,
    table: &TableType,
    offset: u64,
    u: &mut Unstructured<'_>,
) -> Option<u64>
    requires { offset ≤ most_offset config.now table.now }
    ensures draws { AlwaysDraws (hint_at config.now table.now offset u.old) result u.old u.new }
    ensures inside { IsTrue config.now.disallow_traps → result ≡ Some (table.now.minimum - offset) }
{
    if config.disallow_traps {
        return Some(table.minimum - offset);
    }
    if offset > table.minimum {
        return None;
    }
    let chance: u32 = u.int_in_range(0..=10);
    if chance == 0 {
        None
    } else {
        Some(table.minimum - offset)
    }
}

#[tactic(auto, unfolding(crate::specs::ElementSegments::constant_offset_at))]
fn draw_constant(
    config: &Config,
    table: &TableType,
    u: &mut Unstructured<'_>,
) -> (Offset, Option<u64>)
    requires { table.now.minimum ≤ most_elements table.now.table64 }
    ensures draws { AlwaysDraws (constant_offset_at config.now table.now u.old) result u.old u.new }
    ensures placed { (context : Context) → IsPlaced config.now context table.now result.0 result.1 }
{
    let most = most_offset(config, table);
    let offset = arbitrary_offset(table.minimum, most, 0, u);
    let hint = draw_hint(config, table, offset, u);
    (constant_offset(table, offset), hint)
}

/// Draws whether an offset is read from one of `count` globals.
#[tactic(auto, unfolding(crate::specs::ElementSegments::is_global_wanted_at))]
fn is_global_wanted(count: usize, u: &mut Unstructured<'_>) -> bool
    ensures draws { AlwaysDraws (is_global_wanted_at count u.old) result u.old u.new }
    ensures some { IsTrue result → 0 < count }
{
    if count == 0 {
        return false;
    }
    u.arbitrary()
}

#[tactic(auto, unfolding(crate::specs::ElementSegments::table_offset_at))]
fn draw_table_offset(
    config: &Config,
    spaces: &Spaces<'_>,
    table: &TableType,
    u: &mut Unstructured<'_>,
) -> (Offset, Option<u64>)
    requires standing { AreSpacesValid config.now spaces.now }
    requires fits { table.now.minimum ≤ most_elements table.now.table64 }
    ensures draws { AlwaysDraws
        (table_offset_at config.now (seen_by config.now spaces.now true) table.now u.old)
        result u.old u.new }
    ensures placed { IsPlaced config.now
        (seen_by config.now spaces.now true) table.now result.0 result.1 }
{
    let globals = OffsetGlobals::new(config, spaces, table.table64);
    if !is_global_wanted(globals.len(), u) {
        return draw_constant(config, table, u);
    }
    (Offset::Global(globals.choose(u)), None)
}

/// Draws the mode of a segment of the kind `choice`, and the number of elements that must fit, or
/// no limit.
#[tactic(auto, unfolding(crate::specs::ElementSegments::element_kind_at))]
pub(crate) fn draw_kind(
    config: &Config,
    spaces: &Spaces<'_>,
    choice: KindChoice,
    u: &mut Unstructured<'_>,
) -> (ElementKind, Option<u64>)
    requires standing { AreSpacesValid config.now spaces.now }
    requires fits { FitsAddresses choice }
    ensures draws { AlwaysDraws
        (element_kind_at config.now (seen_by config.now spaces.now true) choice u.old)
        result u.old u.new }
    ensures placed { IsKindDrawn config.now (seen_by config.now spaces.now true) choice result }
{
    match choice {
        KindChoice::Passive => (ElementKind::Passive, None),
        KindChoice::Declared => (ElementKind::Declared, None),
        KindChoice::Active(index, table) => {
            let (offset, hint) = draw_table_offset(config, spaces, &table, u);
            (
                ElementKind::Active {
                    table: index,
                    offset,
                },
                hint,
            )
        }
    }
}
