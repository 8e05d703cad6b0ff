ghost use Rattle.std.specs.Prelude.{◌≡◌, ◌<◌, ◌^◌, false, length, IfOk, IfErr, All};
ghost use Rattle.smith_bytes.specs.Source.{KeepsPieces};
ghost use Rattle.smith_config.specs.declared.config.Config.{Config};
ghost use Rattle.smith_draw_types.specs.Drawing.{AlwaysDraws, Draws};
ghost use Rattle.smith_draw_contents.specs.DrawnElements.{IsKindOffered, MayDrawElements};
ghost use Rattle.smith_draw_contents.specs.ElementSegments.{is_plain_func, is_funcref, is_offered_at};
ghost use Rattle.smith_draw_contents.specs.ElementSegments.{element_kinds_at};
ghost use Rattle.smith_draw_contents.specs.OfferedKinds.{kinds_over};

use crate::offered_indices::OfferedIndices;
use crate::offered_kinds::OfferedKinds;
use smith_bytes::{Error, Unstructured};
use smith_config::Config;
use smith_draw_types::Spaces;
use smith_types::{AbstractHeapType, HeapType, RefType, TableType};
use std::alloc::Global;

/// A kind of element segment that may be drawn.
#[derive(Clone, Copy)]
pub(crate) enum KindChoice {
    /// Available to instructions that name the segment.
    Passive,
    /// Declares the functions that the segment names.
    Declared,
    /// Copied into a table of this type. The index is left out only for table 0.
    Active(Option<u32>, TableType),
}

/// Returns whether `heap_type` is `func`, unshared.
fn is_plain_func(heap_type: HeapType) -> bool
    ensures { result ≡ is_plain_func heap_type }
{
    match heap_type {
        HeapType::Abstract { shared, ty } => match ty {
            AbstractHeapType::Func => !shared,
            _ => false,
        },
        _ => false,
    }
}

/// Returns whether `reference` is nullable and has the unshared heap type `func`.
pub(crate) fn is_funcref(reference: RefType) -> bool
    ensures { result ≡ is_funcref reference }
{
    reference.nullable && is_plain_func(reference.heap_type)
}

/// Draws whether segments may be copied into `table`: yes without a draw if its minimum is above 0,
/// else if a number drawn from 0 to 10 is 0.
#[tactic(auto, unfolding(crate::specs::ElementSegments::is_offered_at))]
fn is_offered(table: &TableType, u: &mut Unstructured<'_>) -> bool
    ensures { AlwaysDraws (is_offered_at table.now u.old) result u.old u.new }
{
    if table.minimum > 0 {
        return true;
    }
    let chance: u32 = u.int_in_range(0..=10);
    chance == 0
}

/// Draws which of `tables` segments may be copied into.
#[tactic(auto, unfolding(crate::specs::ElementSegments::element_kinds_at))]
fn draw_tables(
    alloc: Global,
    tables: &[TableType],
    u: &mut Unstructured<'_>,
) -> Result<OfferedIndices, Error>
    requires { length tables.now < 2 ^ 32 }
    ensures kinds { (config : Config)
        → IfOk result (λ drawn. element_kinds_at config tables.now u.old
        ≡ (kinds_over config tables.now drawn.offered, u.new)) }
    ensures within { IfOk result (λ drawn. All (λ index. index < length tables.now) drawn.offered) }
    ensures memory { IfErr result (λ e. e ≡ Error.Memory) }
    ensures left { KeepsPieces u.old u.new }
{
    let mut offered = OfferedIndices::new(alloc);
    for table in tables {
        if !is_offered(table, u) {
            offered.leave_out()?;
            continue;
        }
        offered.offer();
    }
    Ok(offered)
}

/// Draws the kinds of element segments that are possible with the tables of `spaces`.
pub(crate) fn offer_kinds<'a>(
    alloc: Global,
    config: &'a Config,
    spaces: &'a Spaces<'_>,
    u: &mut Unstructured<'_>,
) -> Result<OfferedKinds<'a>, Error>
    requires { MayDrawElements config.now spaces.now }
    ensures draws { Draws (element_kinds_at config.now spaces.now.entities.tables.now u.old)
        result u.old u.new }
    ensures offered { IfOk result
        (All (IsKindOffered config.now spaces.now.types.now.types spaces.now.entities.tables.now)) }
    ensures bulk { IfOk result (λ kinds.
        length kinds ≡ 0 → config.now.bulk_memory_enabled ≡ false) }
{
    let tables = spaces.entities.tables;
    let offered = draw_tables(alloc, tables, u)?;
    Ok(OfferedKinds::new(config, tables, offered))
}
