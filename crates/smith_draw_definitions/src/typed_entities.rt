ghost use Rattle.std.specs.Prelude.{◌≡◌, ◌<◌, ◌⊎◌, length, IfErr};
ghost use Rattle.smith_bytes.specs.Source.{KeepsPieces};
ghost use Rattle.smith_draw_types.specs.Choices.{chosen_at};
ghost use Rattle.smith_draw_types.specs.Drawing.{DrawsInto};
ghost use Rattle.smith_draw_types.specs.TypeUses.{types_for};
ghost use Rattle.smith_bytes.specs.Steps.{Returns, is_memory};
ghost use Rattle.smith_draw_definitions.specs.Definitions.{items_defined_at, appended_to, types_if, type_indices_at};

use crate::past_maximum::discard_past_maximum;
use smith_bytes::{Count, Error, Unstructured, Why, goes_on};
use smith_draw_types::{TypeUse, choose_type, has_type};
use smith_types::{Items, TypeSpace};

/// Adds items to the end of `items`, each as the index of its type, which is suitable for
/// `for_use`.
fn choose_types(
    for_use: TypeUse,
    types: &TypeSpace,
    least: usize,
    most: usize,
    items: &mut Items<u32>,
    u: &mut Unstructured<'_>,
) -> Result<(), Error>
    requires some { 0 < length (types_for for_use types.now.types) }
    ensures { DrawsInto (appended_to items.old
        (items_defined_at (λ _. chosen_at 0 (types_for for_use types.now.types)) least most (length items.old) u.old))
        items.new result u.old u.new }
{
    let before = items.len();
    let needed = least.saturating_sub(before);
    for made in 0..most.saturating_sub(before) {
        if !goes_on(u, made, needed) {
            return Ok(());
        }
        items.push(choose_type(for_use, types, u))?;
    }
    discard_past_maximum(before, most, u);
    Ok(())
}

/// Adds items to the end of `items`, each as the index of its type, which is suitable for
/// `for_use`. If there is no such type, or `enabled` is `false`, adds no item, and fails if `least`
/// items are required.
#[tactic(auto, unfolding(crate::specs::Definitions::type_indices_at))]
pub(crate) fn define_typed(
    count: Count,
    for_use: TypeUse,
    enabled: bool,
    types: &TypeSpace,
    least: usize,
    most: usize,
    items: &mut Items<u32>,
    u: &mut Unstructured<'_>,
) -> Result<(), Error>
    ensures exact { Returns is_memory (λ _. (items.new, u.new)) result
        (type_indices_at count (types_if enabled for_use types.now.types) least most items.old u.old) }
    ensures refusal { IfErr result (λ e. (e ≡ Error.Memory)
        ⊎ ((e ≡ Error.IncorrectFormat (Why.Unmet count)) × (0 < least)
        × (length (types_if enabled for_use types.now.types) ≡ 0))) }
    ensures left { KeepsPieces u.old u.new }
{
    if enabled && has_type(for_use, types) {
        return choose_types(for_use, types, least, most, items, u);
    }
    if items.len() < least {
        return Err(Error::IncorrectFormat(Why::Unmet(count)));
    }
    Ok(())
}
