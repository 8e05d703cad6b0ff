ghost use Rattle.std.specs.Prelude.{◌≡◌, ◌<◌, [], ◌∷◌, Some, length, IfOk, IfErr, IfSome};
ghost use Rattle.smith_bytes.specs.Source.{KeepsPieces};
ghost use Rattle.smith_types.specs.Subtyping.{IsRefBelow};
ghost use Rattle.smith_types.specs.Syntax.value_type.ValType.TheVariants.{Ref};
ghost use Rattle.smith_instr.specs.Contexts.{IsValid};
ghost use Rattle.smith_body_reference_branches.specs.CastBranchChoices.{below_at, br_on_cast_at};
ghost use Rattle.smith_body_reference_branches.specs.CastBranchChoices.{br_on_cast_fail_at, cast_branch_at};
ghost use Rattle.smith_body_reference_branches.specs.CastBranchChoices.{cast_branch_for, cast_label_at};
ghost use Rattle.smith_body_reference_branches.specs.CastBranchChoices.{cast_node, cast_value_at, last_of};
ghost use Rattle.smith_body_reference_branches.specs.CastBranchChoices.{is_exception, is_strictly_below};
ghost use Rattle.smith_body_reference_branches.specs.CastBranchChoices.{kept_cast_at, left_out_at, local_below_at};
ghost use Rattle.smith_body_reference_branches.specs.CastBranchChoices.{lower_at, reference_as};
ghost use Rattle.smith_body_reference_branches.specs.CastBranchChoices.{strictly_below_at};
ghost use Rattle.smith_body_nodes.specs.Chosen.{or_nop};
ghost use Rattle.smith_body_nodes.specs.Nodes.{IsNode, IsOffer};
ghost use Rattle.smith_body_nodes.specs.Scopes.{AreLabels, IsScope, bare, where_stands};

use crate::null_branches::{choose_of_reference, last_reference};
use smith_body_nodes::{
    Draft, Node, Offer, Scope, choose_in_chunk, choose_local, choose_target, draw_above,
    indexed_count, is_sub_type, names_types, node_with_top, or_nop, plain, reference_or,
};
use smith_bytes::{Error, Unstructured};
use smith_instr::{BranchCast, Instr};
use smith_types::{AbstractHeapType, HeapType, RefType, ValType};
use std::alloc::Global;

/// Types that are strictly below a reference type.
#[derive(Clone, Copy)]
struct SubtypeOffer<'a> {
    scope: &'a Scope<'a>,
    above: RefType,
}

impl<'a> Offer for SubtypeOffer<'a> {
    ghost use Rattle.std.specs.Prelude.{length};
    ghost use Rattle.smith_types.specs.Syntax.value_type.ValType.TheVariants.{Ref};
    ghost use Rattle.smith_instr.specs.Contexts.{IsValid};
    ghost use Rattle.smith_body_nodes.specs.Scopes.{IsScope, bare, indexed};
    ghost use Rattle.smith_body_reference_branches.specs.CastBranchChoices.{is_strictly_below};

    ghost ready = { λ self.
        IsScope (bare self.scope.now) × IsValid (bare self.scope.now) (Ref self.above) };

    ghost size = { λ self. indexed (length self.scope.now.types.now.types) };

    ghost test = { λ self index. is_strictly_below (bare self.scope.now) self.above index };

    fn count(&self) -> usize {
        indexed_count(self.scope.types.types().len())
    }

    fn is_offered(&self, index: usize) -> bool {
        is_strictly_below(self.scope, self.above, index as u32)
    }
}

/// A label whose last value is a reference.
#[derive(Clone, Copy)]
struct CastLabel {
    /// The index of the label.
    index: u32,
    /// The type of the last value.
    last: RefType,
}

/// Chooses a branch on a cast, or `nop` if there is no label whose last value is a reference.
pub fn choose_cast_branch(
    alloc: Global,
    scope: &Scope<'_>,
    draft: &Draft,
    u: &mut Unstructured<'_>,
) -> Result<Node, Error>
    requires scope { IsScope (bare scope.now) }
    requires labels { AreLabels scope.now draft.now.labels.items }
    ensures exact { IfOk result (λ node.
        or_nop (cast_branch_at (where_stands scope.now draft.now) u.old) ≡ (node, u.new)) }
    ensures node { IfOk result (IsNode (where_stands scope.now draft.now) draft.now.set.items []) }
    ensures memory { IfErr result (λ e. e ≡ Error.Memory) }
    ensures left { KeepsPieces u.old u.new }
{
    let chosen = draw_cast_branch(alloc, scope, draft, u)?;
    or_nop(alloc, chosen)
}

fn draw_cast_branch(
    alloc: Global,
    scope: &Scope<'_>,
    draft: &Draft,
    u: &mut Unstructured<'_>,
) -> Result<Option<Node>, Error>
    requires scope { IsScope (bare scope.now) }
    requires labels { AreLabels scope.now draft.now.labels.items }
    ensures exact { IfOk result (λ chosen.
        cast_branch_at (where_stands scope.now draft.now) u.old ≡ (chosen, u.new)) }
    ensures offer { IsOffer (where_stands scope.now draft.now) draft.now.set.items [] result }
    ensures memory { IfErr result (λ e. e ≡ Error.Memory) }
    ensures left { KeepsPieces u.old u.new }
{
    let Some(label) = choose_cast_label(draft, u) else {
        return Ok(None);
    };
    if is_left_out(label.last, u) {
        return Ok(None);
    }
    branch_to(alloc, scope, label, draft, u)
}

/// Draws whether a branch on a cast of a reference of the type `to` is left out: 15 of 16 times if the
/// reference is to an exception.
fn is_left_out(to: RefType, u: &mut Unstructured<'_>) -> bool
    ensures exact { left_out_at to.heap_type u.old ≡ (result, u.new) }
    ensures left { KeepsPieces u.old u.new }
{
    if !is_exception(to.heap_type) {
        return false;
    }
    u.int_in_range(0..=15u8) != 15
}

/// Returns whether `heap_type` is `exn` or `noexn`.
fn is_exception(heap_type: HeapType) -> bool
    ensures { result ≡ is_exception heap_type }
{
    match heap_type {
        HeapType::Abstract { ty, .. } => {
            matches!(ty, AbstractHeapType::Exn | AbstractHeapType::NoExn)
        }
        _ => false,
    }
}

/// Chooses a label whose last value is a reference, if there is one.
fn choose_cast_label(draft: &Draft, u: &mut Unstructured<'_>) -> Option<CastLabel>
    ensures exact { cast_label_at draft.now.labels.items u.old ≡ (result, u.new) }
    ensures below { IfSome result (λ label. label.index < length draft.now.labels.items) }
    ensures last { IfSome result (λ label.
        last_of draft.now.labels.items label.index ≡ Some label.last) }
    ensures left { KeepsPieces u.old u.new }
{
    let label = choose_of_reference(draft, u)?;
    let taken = draft.labels[label as usize].as_slice();
    let last = last_reference(taken)?;
    Some(CastLabel { index: label, last })
}

/// Chooses a branch on a cast to `label`.
fn branch_to(
    alloc: Global,
    scope: &Scope<'_>,
    label: CastLabel,
    draft: &Draft,
    u: &mut Unstructured<'_>,
) -> Result<Option<Node>, Error>
    requires scope { IsScope (bare scope.now) }
    requires labels { AreLabels scope.now draft.now.labels.items }
    requires below { label.index < length draft.now.labels.items }
    requires last { last_of draft.now.labels.items label.index ≡ Some label.last }
    ensures exact { IfOk result (λ chosen.
        cast_branch_for (where_stands scope.now draft.now) label u.old ≡ (chosen, u.new)) }
    ensures offer { IsOffer (where_stands scope.now draft.now) draft.now.set.items [] result }
    ensures memory { IfErr result (λ e. e ≡ Error.Memory) }
    ensures left { KeepsPieces u.old u.new }
{
    if u.arbitrary() {
        return choose_br_on_cast(alloc, scope, label, draft, u);
    }
    choose_br_on_cast_fail(alloc, scope, label, draft, u)
}

fn choose_br_on_cast(
    alloc: Global,
    scope: &Scope<'_>,
    label: CastLabel,
    draft: &Draft,
    u: &mut Unstructured<'_>,
) -> Result<Option<Node>, Error>
    requires scope { IsScope (bare scope.now) }
    requires labels { AreLabels scope.now draft.now.labels.items }
    requires below { label.index < length draft.now.labels.items }
    requires last { last_of draft.now.labels.items label.index ≡ Some label.last }
    ensures exact { IfOk result (λ chosen.
        br_on_cast_at (where_stands scope.now draft.now) label u.old ≡ (chosen, u.new)) }
    ensures offer { IsOffer (where_stands scope.now draft.now) draft.now.set.items [] result }
    ensures memory { IfErr result (λ e. e ≡ Error.Memory) }
    ensures left { KeepsPieces u.old u.new }
{
    let to = draw_lower(scope, label.last, u);
    let from = draw_above(scope, label.last, u);
    let cast = BranchCast {
        label: label.index,
        from,
        to,
    };
    let taken = draft.labels[label.index as usize].as_slice();
    let node = dropping_branch(alloc, from, Instr::BrOnCast(cast), taken)?;
    Ok(Some(node))
}

fn choose_br_on_cast_fail(
    alloc: Global,
    scope: &Scope<'_>,
    label: CastLabel,
    draft: &Draft,
    u: &mut Unstructured<'_>,
) -> Result<Option<Node>, Error>
    requires scope { IsScope (bare scope.now) }
    requires labels { AreLabels scope.now draft.now.labels.items }
    requires below { label.index < length draft.now.labels.items }
    requires last { last_of draft.now.labels.items label.index ≡ Some label.last }
    ensures exact { IfOk result (λ chosen.
        br_on_cast_fail_at (where_stands scope.now draft.now) label u.old ≡ (chosen, u.new)) }
    ensures offer { IsOffer (where_stands scope.now draft.now) draft.now.set.items [] result }
    ensures memory { IfErr result (λ e. e ≡ Error.Memory) }
    ensures left { KeepsPieces u.old u.new }
{
    let from = draw_lower(scope, label.last, u);
    let to = draw_below(scope, from, u);
    let cast = BranchCast {
        label: label.index,
        from,
        to,
    };
    let taken = draft.labels[label.index as usize].as_slice();
    let node = dropping_branch(alloc, from, Instr::BrOnCastFail(cast), taken)?;
    Ok(Some(node))
}

/// Returns `above`, or half of the time a type strictly below it.
fn draw_lower(scope: &Scope<'_>, above: RefType, u: &mut Unstructured<'_>) -> RefType
    requires scope { IsScope (bare scope.now) }
    requires above { IsValid (bare scope.now) (Ref above) }
    ensures exact { lower_at (bare scope.now) above u.old ≡ (result, u.new) }
    ensures valid { IsValid (bare scope.now) (Ref result) }
    ensures below { IsRefBelow (bare scope.now).types result above }
    ensures left { KeepsPieces u.old u.new }
{
    if u.arbitrary() {
        return draw_strictly_below(scope, above, u);
    }
    above
}

/// Draws a type strictly below `above` among the types of a drawn chunk. Returns `above` if there is
/// none, or if references may not name types.
fn draw_strictly_below(scope: &Scope<'_>, above: RefType, u: &mut Unstructured<'_>) -> RefType
    requires scope { IsScope (bare scope.now) }
    requires above { IsValid (bare scope.now) (Ref above) }
    ensures exact { strictly_below_at (bare scope.now) above u.old ≡ (result, u.new) }
    ensures valid { IsValid (bare scope.now) (Ref result) }
    ensures below { IsRefBelow (bare scope.now).types result above }
    ensures left { KeepsPieces u.old u.new }
{
    if !names_types(scope) {
        return above;
    }
    let Some(index) = choose_in_chunk(&SubtypeOffer { scope, above }, u) else {
        return above;
    };
    reference_as(above, index as u32)
}

/// Returns the type of references to the type `index`, nullable if `above` is nullable.
fn reference_as(above: RefType, index: u32) -> RefType
    ensures { result ≡ reference_as above index }
{
    RefType {
        nullable: above.nullable,
        heap_type: HeapType::Concrete(index),
    }
}

/// Returns whether references to the type `index` match `above`, and not the other way round.
fn is_strictly_below(scope: &Scope<'_>, above: RefType, index: u32) -> bool
    requires above { IsValid (bare scope.now) (Ref above) }
    requires below { index < length scope.now.types.now.types }
    ensures { result ≡ is_strictly_below (bare scope.now) above index }
{
    let upper = ValType::Ref(above);
    let lower = ValType::Ref(reference_as(above, index));
    is_sub_type(scope, lower, upper) && !is_sub_type(scope, upper, lower)
}

/// Draws a type that matches `from`: half of the time a type strictly below it, else the type of a
/// local. Returns `from` if there is none.
fn draw_below(scope: &Scope<'_>, from: RefType, u: &mut Unstructured<'_>) -> RefType
    requires scope { IsScope (bare scope.now) }
    requires from { IsValid (bare scope.now) (Ref from) }
    ensures exact { below_at (bare scope.now) from u.old ≡ (result, u.new) }
    ensures valid { IsValid (bare scope.now) (Ref result) }
    ensures below { IsRefBelow (bare scope.now).types result from }
    ensures left { KeepsPieces u.old u.new }
{
    if u.arbitrary() {
        return draw_strictly_below(scope, from, u);
    }
    draw_local_below(scope, from, u)
}

/// Draws the type of a local that matches `from`. Returns `from` if there is none.
fn draw_local_below(scope: &Scope<'_>, from: RefType, u: &mut Unstructured<'_>) -> RefType
    requires scope { IsScope (bare scope.now) }
    requires from { IsValid (bare scope.now) (Ref from) }
    ensures exact { local_below_at (bare scope.now) from u.old ≡ (result, u.new) }
    ensures valid { IsValid (bare scope.now) (Ref result) }
    ensures below { IsRefBelow (bare scope.now).types result from }
    ensures left { KeepsPieces u.old u.new }
{
    let Some(index) = choose_local(scope, ValType::Ref(from), u) else {
        return from;
    };
    reference_or(scope.locals[index as usize], from)
}

/// Creates the node of `instruction`, a branch to a label of the values `taken`, whose last operand
/// is a reference of the type `from`. Drops the values that it leaves.
fn dropping_branch(
    alloc: Global,
    from: RefType,
    instruction: Instr,
    taken: &[ValType],
) -> Result<Node, Error>
    ensures exact { IfOk result (λ node. node ≡ cast_node from instruction taken.now) }
    ensures memory { IfErr result (λ e. e ≡ Error.Memory) }
{
    let others = taken.len().saturating_sub(1);
    node_with_top(
        alloc,
        &taken[..others],
        ValType::Ref(from),
        instruction,
        taken.len(),
    )
}

/// Chooses a branch on a failed cast that leaves a reference of the type `wanted` if it is not
/// taken.
#[tactic(auto, unfolding(crate::specs::CastBranchChoices::cast_value_at))]
pub fn choose_kept_cast(
    alloc: Global,
    scope: &Scope<'_>,
    wanted: ValType,
    draft: &Draft,
    u: &mut Unstructured<'_>,
) -> Result<Option<Node>, Error>
    requires scope { IsScope (bare scope.now) }
    requires labels { AreLabels scope.now draft.now.labels.items }
    requires wanted { IsValid (bare scope.now) wanted }
    ensures exact { IfOk result (λ chosen.
        cast_value_at (where_stands scope.now draft.now) wanted u.old ≡ (chosen, u.new)) }
    ensures offer { IsOffer (where_stands scope.now draft.now) draft.now.set.items
        (wanted ∷ []) result }
    ensures memory { IfErr result (λ e. e ≡ Error.Memory) }
    ensures left { KeepsPieces u.old u.new }
{
    let ValType::Ref(to) = wanted else {
        return Ok(None);
    };
    if is_left_out(to, u) {
        return Ok(None);
    }
    choose_cast_to(alloc, scope, to, draft, u)
}

fn choose_cast_to(
    alloc: Global,
    scope: &Scope<'_>,
    to: RefType,
    draft: &Draft,
    u: &mut Unstructured<'_>,
) -> Result<Option<Node>, Error>
    requires scope { IsScope (bare scope.now) }
    requires labels { AreLabels scope.now draft.now.labels.items }
    requires to { IsValid (bare scope.now) (Ref to) }
    ensures exact { IfOk result (λ chosen.
        kept_cast_at (where_stands scope.now draft.now) to u.old ≡ (chosen, u.new)) }
    ensures offer { IsOffer (where_stands scope.now draft.now) draft.now.set.items
        (Ref to ∷ []) result }
    ensures memory { IfErr result (λ e. e ≡ Error.Memory) }
    ensures left { KeepsPieces u.old u.new }
{
    let labels = draft.labels.as_slice();
    let wanted = [ValType::Ref(to)];
    let Some(label) = choose_target(scope, labels, &wanted, u) else {
        return Ok(None);
    };
    let taken = draft.labels[label as usize].as_slice();
    let Some(from) = last_reference(taken) else {
        return Ok(None);
    };
    let cast = BranchCast { label, from, to };
    let node = plain(alloc, &[ValType::Ref(from)], Instr::BrOnCastFail(cast), 0)?;
    Ok(Some(node))
}
