ghost use Rattle.std.specs.Prelude.{◌≡◌, ◌<◌, ◌≤◌, ◌^◌, true, false, length, IsTrue, OnOk, IfOk};
ghost use Rattle.std.specs.Prelude.{IfErr, All};
ghost use Rattle.smith_bytes.specs.Source.{KeepsPieces};
ghost use Rattle.smith_types.specs.Expressions.{IsConstExpr};
ghost use Rattle.smith_types.specs.Floats.{HasNoFloat, GivesNoFloat};
ghost use Rattle.smith_types.specs.Segments.{item_count};
ghost use Rattle.smith_types.specs.Syntax.segments.Elements.TheVariants as listed;
ghost use Rattle.smith_types.specs.Syntax.value_type.RefType.{RefType};
ghost use Rattle.smith_types.specs.Syntax.value_type.ValType.TheVariants.{Ref};
ghost use Rattle.smith_draw_types.specs.Grounding.{standing_in};
ghost use Rattle.smith_config.specs.Granted.{IsUngrounded};
ghost use Rattle.smith_draw_consts.specs.ConstBounds.{MayRefuseConstExpr};
ghost use Rattle.smith_draw_consts.specs.ConstScopes.{AreSpacesValid, seen_by};
ghost use Rattle.smith_draw_types.specs.Drawing.{AlwaysDraws, Draws};
ghost use Rattle.smith_draw_consts.specs.KeptOffers.{AreKeptOffers};
ghost use Rattle.smith_bytes.specs.Steps.{Returns, is_memory};
ghost use Rattle.smith_draw_contents.specs.DrawnElements.{IsKindOffered, FitsTable, AreItemsFit};
ghost use Rattle.smith_draw_contents.specs.DrawnElements.{MayDrawElements, MayHoldItems};
ghost use Rattle.smith_draw_contents.specs.DrawnElements.{MayRefuseFunctions, MayRefuseItems};
ghost use Rattle.smith_draw_contents.specs.DrawnElements.{HasUngroundedElements};
ghost use Rattle.smith_draw_contents.specs.ElementSegments.{
  item_type_at,
  is_funcref,
  is_unshared_type,
  unshared_funcs,
  are_functions_at,
  chosen_functions_at,
  functions_at,
  expression_item_at,
  drawn_expressions_at,
  expressions_at,
  items_at,
};

use crate::element_kinds::{KindChoice, is_funcref};
use crate::offered_indices::OfferedIndices;
use smith_bytes::{Count, Error, Unstructured, Why, goes_on};
use smith_config::Config;
use smith_draw_consts::{KeptOffers, draw_const_expr};
use smith_draw_types::{ReferenceScope, Spaces, draw_matching_ref_type, draw_ref_type};
use smith_types::{ConstInstr, Elements, Items, RefType, SubType, ValType};
use std::alloc::Global;

#[tactic(auto, unfolding(crate::specs::ElementSegments::item_type_at))]
fn draw_type_for(
    alloc: Global,
    config: &Config,
    standing: &ReferenceScope<'_>,
    choice: KindChoice,
    u: &mut Unstructured<'_>,
) -> Result<RefType, Error>
    ensures { Draws (item_type_at config.now standing.now choice u.old) result u.old u.new }
{
    let limit = standing.types().types().len() as u32;
    match choice {
        KindChoice::Active(_, table) => {
            draw_matching_ref_type(alloc, config, standing, table.element_type, u)
        }
        _ => Ok(draw_ref_type(config, standing, false, limit, u)),
    }
}

/// Draws the type of the items of a segment of the kind `choice`.
pub(crate) fn draw_item_type(
    alloc: Global,
    config: &Config,
    spaces: &Spaces<'_>,
    standing: &ReferenceScope<'_>,
    choice: KindChoice,
    u: &mut Unstructured<'_>,
) -> Result<RefType, Error>
    requires may { MayDrawElements config.now spaces.now }
    requires standing { standing.now ≡ standing_in config.now spaces.now }
    requires offered { IsKindOffered config.now spaces.now.types.now.types
        spaces.now.entities.tables.now choice }
    ensures draws { Draws (item_type_at config.now (standing_in config.now spaces.now) choice u.old)
        result u.old u.new }
    ensures may { IfOk result (MayHoldItems config.now spaces.now) }
    ensures fits { IfOk result (FitsTable spaces.now.types.now.types choice) }
    ensures needed { IfOk result (λ ty.
        IsUngrounded config.now (standing_in config.now spaces.now) (Ref ty)
        → HasUngroundedElements config.now
        (standing_in config.now spaces.now) spaces.now.entities.tables.now) }
{
    draw_type_for(alloc, config, standing, choice, u)
}

/// Returns whether the type at `index` exists and is not shared.
fn is_unshared_type(types: &[SubType], index: u32) -> bool
    ensures { result ≡ is_unshared_type types.now index }
{
    match types.get(index as usize) {
        Some(t) => !t.composite_type.shared,
        None => false,
    }
}

/// Offers the indices of the functions of `funcs` whose types are not shared. Requires fewer than
/// 2^32 functions.
fn offer_unshared(alloc: Global, types: &[SubType], funcs: &[u32]) -> Result<OfferedIndices, Error>
    requires few { length funcs.now < 2 ^ 32 }
    ensures exact { IfOk result (λ unshared.
        unshared.offered ≡ unshared_funcs types.now funcs.now) }
    ensures memory { IfErr result (λ e. e ≡ Error.Memory) }
{
    let mut unshared = OfferedIndices::new(alloc);
    for ty in funcs {
        if !is_unshared_type(types, *ty) {
            unshared.leave_out()?;
            continue;
        }
        unshared.offer();
    }
    Ok(unshared)
}

/// Draws whether items of the type `ty` are listed as functions. Draws only if reference types are
/// on and `ty` is `funcref`.
#[tactic(auto, unfolding(crate::specs::ElementSegments::are_functions_at))]
fn are_functions(config: &Config, ty: RefType, u: &mut Unstructured<'_>) -> bool
    ensures draws { AlwaysDraws (are_functions_at config.now ty u.old) result u.old u.new }
    ensures references { result ≡ false → IsTrue config.now.reference_types_enabled }
{
    if !config.reference_types_enabled {
        return true;
    }
    if is_funcref(ty) {
        return u.arbitrary();
    }
    false
}

/// Fails if `most` items are fewer than `config` requires in a segment.
fn ask_enough(config: &Config, most: usize) -> Result<(), Error>
    ensures enough { OnOk result (config.now.min_elements ≤ most) }
    ensures unmet { IfErr result (λ e.
        (e ≡ Error.IncorrectFormat (Why.Unmet Count.Elements)) × (most < config.now.min_elements)) }
{
    if most < config.min_elements {
        return Err(Error::IncorrectFormat(Why::Unmet(Count::Elements)));
    }
    Ok(())
}

/// Draws at most `most` items of the functions `funcs`.
#[tactic(auto, unfolding(crate::specs::ElementSegments::chosen_functions_at))]
fn choose_functions(
    alloc: Global,
    config: &Config,
    funcs: &OfferedIndices,
    most: usize,
    u: &mut Unstructured<'_>,
) -> Result<Items<u32>, Error>
    requires { 0 < length funcs.now.offered }
    ensures { Draws (chosen_functions_at config.now funcs.now.offered most u.old)
        result u.old u.new }
{
    let mut items = Items::new(alloc);
    for made in 0..most {
        if !goes_on(u, made, config.min_elements) {
            return Ok(items);
        }
        items.push(funcs.choose(u))?;
    }
    Ok(items)
}

#[tactic(auto, unfolding(crate::specs::ElementSegments::functions_at))]
fn draw_unshared(
    alloc: Global,
    config: &Config,
    spaces: &Spaces<'_>,
    most: usize,
    u: &mut Unstructured<'_>,
) -> Result<Items<u32>, Error>
    requires few { length spaces.now.entities.funcs.now < 2 ^ 32 }
    ensures exact { Returns is_memory (λ items. (items, u.new)) result
        (functions_at config.now (seen_by config.now spaces.now true) most u.old) }
    ensures few { IfOk result (λ items. length items ≤ most) }
    ensures refusal { IfErr result (MayRefuseFunctions config.now) }
    ensures left { KeepsPieces u.old u.new }
{
    let funcs = offer_unshared(alloc, spaces.types.types(), spaces.entities.funcs)?;
    if funcs.is_empty() {
        return Ok(Items::new(alloc));
    }
    ask_enough(config, most)?;
    choose_functions(alloc, config, &funcs, most, u)
}

/// Draws at most `most` items that are functions.
fn draw_functions(
    alloc: Global,
    config: &Config,
    spaces: &Spaces<'_>,
    most: usize,
    u: &mut Unstructured<'_>,
) -> Result<Items<u32>, Error>
    requires { AreSpacesValid config.now spaces.now }
    ensures exact { Returns is_memory (λ items. (items, u.new)) result
        (functions_at config.now (seen_by config.now spaces.now true) most u.old) }
    ensures few { IfOk result (λ items. length items ≤ most) }
    ensures fit { (ty : RefType) → IsTrue (is_funcref ty) → IfOk result (λ items.
        AreItemsFit config.now (seen_by config.now spaces.now true) ty (listed.Functions items)) }
    ensures refusal { IfErr result (MayRefuseFunctions config.now) }
    ensures left { KeepsPieces u.old u.new }
{
    draw_unshared(alloc, config, spaces, most, u)
}

/// Draws an item of the type `ty` as an expression.
#[tactic(auto, unfolding(crate::specs::ElementSegments::expression_item_at))]
fn draw_expression_item(
    alloc: Global,
    config: &Config,
    spaces: &Spaces<'_>,
    ty: RefType,
    kept: &mut KeptOffers,
    u: &mut Unstructured<'_>,
) -> Result<Items<ConstInstr>, Error>
    requires references { IsTrue config.now.reference_types_enabled }
    requires may { MayHoldItems config.now spaces.now ty }
    requires kept { AreKeptOffers (seen_by config.now spaces.now true) kept.old }

    // The draw.
    ensures exact { Returns is_memory (λ drawn. (drawn, u.new)) result
        (expression_item_at config.now (seen_by config.now spaces.now true) ty u.old) }

    // Validity and floats.
    ensures typed { IfOk result (IsConstExpr (seen_by config.now spaces.now true) (Ref ty)) }
    ensures floats { All HasNoFloat spaces.now.types.now.types → IfOk result (All GivesNoFloat) }

    // The records, refusals and the source.
    ensures kept { OnOk result (AreKeptOffers (seen_by config.now spaces.now true) kept.new) }
    ensures refusal { IfErr result
        (MayRefuseConstExpr config.now (standing_in config.now spaces.now) (Ref ty)) }
    ensures left { KeepsPieces u.old u.new }
{
    draw_const_expr(alloc, config, spaces, ValType::Ref(ty), true, kept, u)
}

#[tactic(auto, unfolding(crate::specs::ElementSegments::drawn_expressions_at))]
fn draw_each_expression(
    alloc: Global,
    config: &Config,
    spaces: &Spaces<'_>,
    ty: RefType,
    most: usize,
    kept: &mut KeptOffers,
    u: &mut Unstructured<'_>,
) -> Result<Items<Items<ConstInstr>>, Error>
    requires references { IsTrue config.now.reference_types_enabled }
    requires may { MayHoldItems config.now spaces.now ty }
    requires kept { AreKeptOffers (seen_by config.now spaces.now true) kept.old }
    ensures exact { Returns is_memory (λ drawn. (drawn, u.new)) result
        (drawn_expressions_at config.now (seen_by config.now spaces.now true) ty most u.old) }
    ensures typed { IfOk result (All (IsConstExpr (seen_by config.now spaces.now true) (Ref ty))) }
    ensures floats { All HasNoFloat spaces.now.types.now.types
        → IfOk result (All (All GivesNoFloat)) }
    ensures refusal { IfErr result
        (MayRefuseConstExpr config.now (standing_in config.now spaces.now) (Ref ty)) }
    ensures left { KeepsPieces u.old u.new }
{
    let mut items = Items::new(alloc);
    for made in 0..most {
        if !goes_on(u, made, config.min_elements) {
            return Ok(items);
        }
        items.push(draw_expression_item(alloc, config, spaces, ty, kept, u)?)?;
    }
    Ok(items)
}

#[tactic(auto, unfolding(crate::specs::ElementSegments::expressions_at))]
fn draw_expressions(
    alloc: Global,
    config: &Config,
    spaces: &Spaces<'_>,
    ty: RefType,
    most: usize,
    u: &mut Unstructured<'_>,
) -> Result<Items<Items<ConstInstr>>, Error>
    requires references { IsTrue config.now.reference_types_enabled }
    requires may { MayHoldItems config.now spaces.now ty }
    ensures exact { Returns is_memory (λ items. (items, u.new)) result
        (expressions_at config.now (seen_by config.now spaces.now true) ty most u.old) }
    ensures few { IfOk result (λ items. length items ≤ most) }
    ensures fit { IfOk result (λ items.
        AreItemsFit config.now (seen_by config.now spaces.now true) ty (listed.Expressions items)) }
    ensures refusal { IfErr result
        (MayRefuseItems config.now (standing_in config.now spaces.now) ty) }
    ensures left { KeepsPieces u.old u.new }
{
    ask_enough(config, most)?;
    let mut kept = KeptOffers::new();
    let drawn = draw_each_expression(alloc, config, spaces, ty, most, &mut kept, u);
    drop(kept);
    drawn
}

/// Draws at most `most` items of a segment of the type `ty`.
#[tactic(auto, unfolding(crate::specs::ElementSegments::items_at))]
pub(crate) fn draw_items(
    alloc: Global,
    config: &Config,
    spaces: &Spaces<'_>,
    ty: RefType,
    most: usize,
    u: &mut Unstructured<'_>,
) -> Result<Elements, Error>
    requires may { MayHoldItems config.now spaces.now ty }
    ensures exact { Returns is_memory (λ items. (items, u.new)) result
        (items_at config.now (seen_by config.now spaces.now true) ty most u.old) }
    ensures few { IfOk result (λ items. item_count items ≤ most) }
    ensures fit { IfOk result (AreItemsFit config.now (seen_by config.now spaces.now true) ty) }
    ensures refusal { IfErr result
        (MayRefuseItems config.now (standing_in config.now spaces.now) ty) }
    ensures left { KeepsPieces u.old u.new }
{
    if are_functions(config, ty, u) {
        return Ok(Elements::Functions(draw_functions(alloc, config, spaces, most, u)?));
    }
    Ok(Elements::Expressions(draw_expressions(alloc, config, spaces, ty, most, u)?))
}
