ghost use Rattle.std.specs.Prelude.{◌≡◌, ◌<◌, true, Some, [], ◌∷◌, length, min};
ghost use Rattle.std.specs.Prelude.{IfOk, IfErr, IfSome};
ghost use Rattle.smith_bytes.specs.Draws.{choose_at};
ghost use Rattle.smith_bytes.specs.Source.{KeepsPieces};
ghost use Rattle.smith_instr.specs.Contexts.{IsValid};
ghost use Rattle.smith_body_nodes.specs.Chosen.{or_nop};
ghost use Rattle.smith_body_nodes.specs.Nodes.{IsNode, IsOffer};
ghost use Rattle.smith_body_reference_branches.specs.NullChoices.{br_on_non_null_at, br_on_null_at};
ghost use Rattle.smith_body_reference_branches.specs.NullChoices.{br_on_null_value_at, is_of_reference};
ghost use Rattle.smith_body_reference_branches.specs.NullChoices.{is_short, last_reference, null_branch_at};
ghost use Rattle.smith_body_nodes.specs.Offered.{offered};
ghost use Rattle.smith_body_nodes.specs.Scopes.{AreLabels, IsScope, bare, where_stands};

use smith_body_nodes::{
    Draft, Node, Offer, Scope, choose_offered, draw_referent, node_with_top, nullable_to, or_nop,
    plain,
};
use smith_bytes::{Error, Unstructured};
use smith_instr::Instr;
use smith_types::{Items, RefType, ValType, WasmFeatures};
use std::alloc::Global;

/// Labels of at most `most` values.
#[derive(Clone, Copy)]
struct ShortOffer<'a> {
    labels: &'a [Items<ValType>],
    most: usize,
}

impl<'a> Offer for ShortOffer<'a> {
    ghost use Rattle.std.specs.Prelude.{length, min};
    ghost use Rattle.smith_body_reference_branches.specs.NullChoices.{is_short};

    ghost ready = { λ self. Unit {0} };

    ghost size = { λ self. min (length self.labels.now) 64 };

    ghost test = { λ self index. is_short self.labels.now self.most index };

    fn count(&self) -> usize {
        self.labels.len().min(64)
    }

    fn is_offered(&self, index: usize) -> bool {
        self.labels[index].as_slice().len() <= self.most
    }
}

/// Labels whose last value is a reference.
#[derive(Clone, Copy)]
struct ReferenceLabelOffer<'a> {
    labels: &'a [Items<ValType>],
}

impl<'a> Offer for ReferenceLabelOffer<'a> {
    ghost use Rattle.std.specs.Prelude.{length, min};
    ghost use Rattle.smith_body_reference_branches.specs.NullChoices.{is_of_reference};

    ghost ready = { λ self. Unit {0} };

    ghost size = { λ self. min (length self.labels.now) 64 };

    ghost test = { λ self index. is_of_reference self.labels.now index };

    fn count(&self) -> usize {
        self.labels.len().min(64)
    }

    fn is_offered(&self, index: usize) -> bool {
        last_reference(self.labels[index].as_slice()).is_some()
    }
}

/// Returns the type of the last of the values `taken`, if it is a reference type.
pub(crate) fn last_reference(taken: &[ValType]) -> Option<RefType>
    ensures { result ≡ last_reference taken.now }
{
    if taken.len() == 0 {
        return None;
    }
    match taken[taken.len() - 1] {
        ValType::Ref(to) => Some(to),
        _ => None,
    }
}

/// Chooses a label of at most `most` values, if there is one.
fn choose_short(draft: &Draft, most: usize, u: &mut Unstructured<'_>) -> Option<u32>
    ensures exact { choose_at (offered (is_short draft.now.labels.items most)
        (min (length draft.now.labels.items) 64)) u.old
        ≡ (result, u.new) }
    ensures below { IfSome result (λ index. index < length draft.now.labels.items) }
    ensures offered { IfSome result (λ index. is_short draft.now.labels.items most index ≡ true) }
    ensures left { KeepsPieces u.old u.new }
{
    let labels = draft.labels.as_slice();
    let index = choose_offered(&ShortOffer { labels, most }, u)?;
    Some(index as u32)
}

/// Chooses a label whose last value is a reference, if there is one.
pub(crate) fn choose_of_reference(draft: &Draft, u: &mut Unstructured<'_>) -> Option<u32>
    ensures exact { choose_at (offered (is_of_reference draft.now.labels.items)
        (min (length draft.now.labels.items) 64)) u.old
        ≡ (result, u.new) }
    ensures below { IfSome result (λ index. index < length draft.now.labels.items) }
    ensures offered { IfSome result (λ index. is_of_reference draft.now.labels.items index ≡ true) }
    ensures left { KeepsPieces u.old u.new }
{
    let labels = draft.labels.as_slice();
    let index = choose_offered(&ReferenceLabelOffer { labels }, u)?;
    Some(index as u32)
}

/// Chooses a branch on null that leaves a reference of the type `wanted` if it is not taken.
#[tactic(auto, unfolding(crate::specs::NullChoices::br_on_null_value_at))]
pub fn choose_kept(
    alloc: Global,
    scope: &Scope<'_>,
    wanted: ValType,
    draft: &Draft,
    u: &mut Unstructured<'_>,
) -> Result<Option<Node>, Error>
    requires wanted { IsValid (bare scope.now) wanted }
    ensures exact { IfOk result (λ chosen.
        br_on_null_value_at (where_stands scope.now draft.now) wanted u.old ≡ (chosen, u.new)) }
    ensures offer { IsOffer (where_stands scope.now draft.now) draft.now.set.items
        (wanted ∷ []) result }
    ensures memory { IfErr result (λ e. e ≡ Error.Memory) }
    ensures left { KeepsPieces u.old u.new }
{
    match wanted {
        ValType::Ref(to) => choose_br_on_null_to(alloc, scope, to, draft, u),
        _ => Ok(None),
    }
}

fn choose_br_on_null_to(
    alloc: Global,
    scope: &Scope<'_>,
    to: RefType,
    draft: &Draft,
    u: &mut Unstructured<'_>,
) -> Result<Option<Node>, Error>
    requires wanted { IsValid (bare scope.now) (ValType.Ref to) }
    ensures exact { IfOk result (λ chosen.
        br_on_null_value_at (where_stands scope.now draft.now) (ValType.Ref to) u.old
        ≡ (chosen, u.new)) }
    ensures offer { IsOffer (where_stands scope.now draft.now) draft.now.set.items
        (ValType.Ref to ∷ []) result }
    ensures memory { IfErr result (λ e. e ≡ Error.Memory) }
    ensures left { KeepsPieces u.old u.new }
{
    let Some(label) = choose_short(draft, 0, u) else {
        return Ok(None);
    };
    let node = plain(
        alloc,
        &[nullable_to(to.heap_type)],
        Instr::BrOnNull(label),
        0,
    )?;
    Ok(Some(node))
}

fn choose_br_on_null(
    alloc: Global,
    scope: &Scope<'_>,
    draft: &Draft,
    u: &mut Unstructured<'_>,
) -> Result<Option<Node>, Error>
    requires scope { IsScope (bare scope.now) }
    requires labels { AreLabels scope.now draft.now.labels.items }
    ensures exact { IfOk result (λ chosen.
        br_on_null_at (where_stands scope.now draft.now) u.old ≡ (chosen, u.new)) }
    ensures offer { IsOffer (where_stands scope.now draft.now) draft.now.set.items [] result }
    ensures memory { IfErr result (λ e. e ≡ Error.Memory) }
    ensures left { KeepsPieces u.old u.new }
{
    if !scope.features.contains(WasmFeatures::REFERENCE_TYPES) {
        return Ok(None);
    }
    let Some(label) = choose_short(draft, 2, u) else {
        return Ok(None);
    };
    let heap_type = draw_referent(scope, u);
    let taken = draft.labels[label as usize].as_slice();
    let node = node_with_top(
        alloc,
        taken,
        nullable_to(heap_type),
        Instr::BrOnNull(label),
        taken.len() + 1,
    )?;
    Ok(Some(node))
}

fn choose_br_on_non_null(
    alloc: Global,
    scope: &Scope<'_>,
    draft: &Draft,
    u: &mut Unstructured<'_>,
) -> Result<Option<Node>, Error>
    requires labels { AreLabels scope.now draft.now.labels.items }
    ensures exact { IfOk result (λ chosen.
        br_on_non_null_at (where_stands scope.now draft.now) u.old ≡ (chosen, u.new)) }
    ensures offer { IsOffer (where_stands scope.now draft.now) draft.now.set.items [] result }
    ensures memory { IfErr result (λ e. e ≡ Error.Memory) }
    ensures left { KeepsPieces u.old u.new }
{
    let Some(label) = choose_of_reference(draft, u) else {
        return Ok(None);
    };
    let taken = draft.labels[label as usize].as_slice();
    let Some(to) = last_reference(taken) else {
        return Ok(None);
    };
    let others = taken.len().saturating_sub(1);
    let node = node_with_top(
        alloc,
        &taken[..others],
        nullable_to(to.heap_type),
        Instr::BrOnNonNull(label),
        others,
    )?;
    Ok(Some(node))
}

/// Chooses a branch on null or on non-null, or `nop` if there is none.
pub fn choose_null_branch(
    alloc: Global,
    scope: &Scope<'_>,
    draft: &Draft,
    u: &mut Unstructured<'_>,
) -> Result<Node, Error>
    requires scope { IsScope (bare scope.now) }
    requires labels { AreLabels scope.now draft.now.labels.items }
    ensures exact { IfOk result (λ node.
        or_nop (null_branch_at (where_stands scope.now draft.now) u.old) ≡ (node, u.new)) }
    ensures node { IfOk result (IsNode (where_stands scope.now draft.now) draft.now.set.items []) }
    ensures memory { IfErr result (λ e. e ≡ Error.Memory) }
    ensures left { KeepsPieces u.old u.new }
{
    let chosen = draw_null_branch(alloc, scope, draft, u)?;
    or_nop(alloc, chosen)
}

fn draw_null_branch(
    alloc: Global,
    scope: &Scope<'_>,
    draft: &Draft,
    u: &mut Unstructured<'_>,
) -> Result<Option<Node>, Error>
    requires scope { IsScope (bare scope.now) }
    requires labels { AreLabels scope.now draft.now.labels.items }
    ensures exact { IfOk result (λ chosen.
        null_branch_at (where_stands scope.now draft.now) u.old ≡ (chosen, u.new)) }
    ensures offer { IsOffer (where_stands scope.now draft.now) draft.now.set.items [] result }
    ensures memory { IfErr result (λ e. e ≡ Error.Memory) }
    ensures left { KeepsPieces u.old u.new }
{
    if u.arbitrary() {
        return choose_br_on_null(alloc, scope, draft, u);
    }
    choose_br_on_non_null(alloc, scope, draft, u)
}
