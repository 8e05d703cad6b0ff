ghost use Rattle.std.specs.Prelude.{◌≡◌, ℕ, false, List, Some, [], ◌∷◌, IfOk, IfErr, IsTrue};
ghost use Rattle.smith_bytes.specs.Source.{KeepsPieces};
ghost use Rattle.smith_types.specs.Syntax.value_type.ValType.TheVariants.{I32, Ref};
ghost use Rattle.smith_instr.specs.Contexts.{BodyContext, IsHeapValid, IsValid, nullable_to};
ghost use Rattle.smith_body_nodes.specs.Nodes.{IsOffer};
ghost use Rattle.smith_body_nodes.specs.ReferenceChoices.{eq_node, is_null_node, non_null_node};
ghost use Rattle.smith_body_nodes.specs.ReferenceChoices.{reference_value_at, referent};
ghost use Rattle.smith_body_nodes.specs.ReferenceChoices.{referent_at, select_typed_node, test_at};
ghost use Rattle.smith_body_nodes.specs.Scopes.{IsScope, bare, where_stands};

use crate::node::{Node, plain};
use crate::scope::{Draft, Scope};
use smith_bytes::{Error, Unstructured};
use smith_instr::{Instr, ReferenceInstr};
use smith_types::{AbstractHeapType, HeapType, Items, RefType, ValType, WasmFeatures};
use std::alloc::Global;

/// Chooses `select` of the type `wanted`.
pub fn choose_select_typed(alloc: Global, wanted: ValType) -> Result<Option<Node>, Error>
    ensures exact { IfOk result (λ chosen. chosen ≡ Some (select_typed_node wanted)) }
    ensures offer { (context : BodyContext) (set : List ℕ) → IsValid context wanted
        → IsOffer context set (wanted ∷ []) result }
    ensures memory { IfErr result (λ e. e ≡ Error.Memory) }
{
    let types = Items::from_slice(alloc, &[wanted])?;
    let node = plain(
        alloc,
        &[wanted, wanted, ValType::I32],
        Instr::SelectTyped(types),
        0,
    )?;
    Ok(Some(node))
}

/// Chooses an instruction on references that produces a value of the type `wanted`.
#[tactic(auto, unfolding(crate::specs::ReferenceChoices::reference_value_at))]
pub fn choose_reference_value(
    alloc: Global,
    scope: &Scope<'_>,
    wanted: ValType,
    draft: &Draft,
    u: &mut Unstructured<'_>,
) -> Result<Option<Node>, Error>
    requires scope { IsScope (bare scope.now) }
    requires wanted { IsValid (bare scope.now) wanted }
    ensures exact { IfOk result (λ chosen.
        reference_value_at (where_stands scope.now draft.now) wanted u.old ≡ (chosen, u.new)) }
    ensures offer { IsOffer (where_stands scope.now draft.now) draft.now.set.items
        (wanted ∷ []) result }
    ensures memory { IfErr result (λ e. e ≡ Error.Memory) }
    ensures left { KeepsPieces u.old u.new }
{
    match wanted {
        ValType::I32 => choose_test(alloc, scope, draft, u),
        ValType::Ref(to) => choose_non_null(alloc, to),
        _ => Ok(None),
    }
}

/// Chooses `ref.as_non_null`, whose result matches the nullable type too.
fn choose_non_null(alloc: Global, to: RefType) -> Result<Option<Node>, Error>
    ensures exact { IfOk result (λ chosen. chosen ≡ non_null_node to) }
    ensures offer { (context : BodyContext) (set : List ℕ) → IsValid context (Ref to)
        → IsOffer context set (Ref to ∷ []) result }
    ensures memory { IfErr result (λ e. e ≡ Error.Memory) }
{
    let node = plain(
        alloc,
        &[nullable_to(to.heap_type)],
        Instr::Reference(ReferenceInstr::AsNonNull),
        0,
    )?;
    Ok(Some(node))
}

/// Chooses `ref.eq` or `ref.is_null`.
fn choose_test(
    alloc: Global,
    scope: &Scope<'_>,
    draft: &Draft,
    u: &mut Unstructured<'_>,
) -> Result<Option<Node>, Error>
    requires scope { IsScope (bare scope.now) }
    ensures exact { IfOk result (λ chosen.
        test_at (bare scope.now).features scope.now.locals.now u.old ≡ (chosen, u.new)) }
    ensures offer { IsOffer (where_stands scope.now draft.now) draft.now.set.items
        (I32 ∷ []) result }
    ensures memory { IfErr result (λ e. e ≡ Error.Memory) }
    ensures left { KeepsPieces u.old u.new }
{
    if !scope.features.contains(WasmFeatures::REFERENCE_TYPES) {
        return Ok(None);
    }
    if u.arbitrary() {
        return choose_eq(alloc, scope, draft);
    }
    let heap_type = draw_referent(scope, u);
    choose_is_null(alloc, scope, heap_type, draft)
}

fn choose_eq(alloc: Global, scope: &Scope<'_>, draft: &Draft) -> Result<Option<Node>, Error>
    requires on { IsTrue (bare scope.now).features.reference_types }
    ensures exact { IfOk result (λ chosen. chosen ≡ eq_node (bare scope.now).features) }
    ensures offer { IsOffer (where_stands scope.now draft.now) draft.now.set.items
        (I32 ∷ []) result }
    ensures memory { IfErr result (λ e. e ≡ Error.Memory) }
{
    if !scope.features.contains(WasmFeatures::GC) {
        return Ok(None);
    }
    let eqref = nullable_to(unshared_heap_type(AbstractHeapType::Eq));
    let node = plain(
        alloc,
        &[eqref, eqref],
        Instr::Reference(ReferenceInstr::Eq),
        0,
    )?;
    Ok(Some(node))
}

fn choose_is_null(
    alloc: Global,
    scope: &Scope<'_>,
    heap_type: HeapType,
    draft: &Draft,
) -> Result<Option<Node>, Error>
    requires on { IsTrue (bare scope.now).features.reference_types }
    requires valid { IsHeapValid (bare scope.now) heap_type }
    ensures exact { IfOk result (λ chosen. chosen ≡ Some (is_null_node heap_type)) }
    ensures offer { IsOffer (where_stands scope.now draft.now) draft.now.set.items
        (I32 ∷ []) result }
    ensures memory { IfErr result (λ e. e ≡ Error.Memory) }
{
    let node = plain(
        alloc,
        &[nullable_to(heap_type)],
        Instr::Reference(ReferenceInstr::IsNull),
        0,
    )?;
    Ok(Some(node))
}

/// Draws the heap type of a reference: `func`, `extern`, or that of one of the locals.
pub fn draw_referent(scope: &Scope<'_>, u: &mut Unstructured<'_>) -> HeapType
    requires scope { IsScope (bare scope.now) }
    ensures exact { referent_at scope.now.locals.now u.old ≡ (result, u.new) }
    ensures valid { IsHeapValid (bare scope.now) result }
    ensures left { KeepsPieces u.old u.new }
{
    let count = scope.locals.len();
    match u.int_in_range(0..=count + 1) {
        0 => unshared_heap_type(AbstractHeapType::Func),
        1 => unshared_heap_type(AbstractHeapType::Extern),
        place => {
            if place - 2 < count {
                return referent(scope.locals[place - 2]);
            }
            unshared_heap_type(AbstractHeapType::Func)
        }
    }
}

/// Returns the heap type of the type `value`, or `func` if it is not a reference type.
fn referent(value: ValType) -> HeapType
    ensures { result ≡ referent value }
{
    match value {
        ValType::Ref(to) => to.heap_type,
        _ => unshared_heap_type(AbstractHeapType::Func),
    }
}

/// Returns the unshared abstract heap type `ty`.
fn unshared_heap_type(ty: AbstractHeapType) -> HeapType
    ensures { result ≡ HeapType.Abstract false ty }
{
    HeapType::Abstract { shared: false, ty }
}

/// Returns the type of nullable references to `heap_type`.
pub fn nullable_to(heap_type: HeapType) -> ValType
    ensures { result ≡ nullable_to heap_type }
{
    ValType::Ref(RefType {
        nullable: true,
        heap_type,
    })
}
