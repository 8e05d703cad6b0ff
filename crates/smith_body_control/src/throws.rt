ghost use Rattle.std.specs.Prelude.{◌≡◌, ◌<◌, ◌&&◌, List, None, Some, [], length, IfOk, IfErr};
ghost use Rattle.std.specs.Prelude.{IfSome, MatchOption};
ghost use Rattle.smith_bytes.specs.Source.{KeepsPieces};
ghost use Rattle.smith_types.specs.Syntax.value_type.ValType.{ValType as Val};
ghost use Rattle.smith_instr.specs.Contexts.{AreValid};
ghost use Rattle.smith_body_nodes.specs.Nodes.{IsNode, IsOffer};
ghost use Rattle.smith_body_nodes.specs.Scopes.{IsScope, bare, where_stands};
ghost use Rattle.smith_body_control.specs.ThrowChoices.{any_throw_at, exn, refers_to_exceptions};
ghost use Rattle.smith_body_control.specs.ThrowChoices.{tag_at, tag_type_at, throw_at};
ghost use Rattle.smith_body_control.specs.ThrowChoices.{throw_ref_node};

use smith_body_nodes::{Draft, Node, Scope, func_type_at, indexed_count, nullable_to, plain};
use smith_bytes::{Error, Unstructured};
use smith_instr::Instr;
use smith_types::{AbstractHeapType, FuncType, HeapType, WasmFeatures};
use std::alloc::Global;

/// Returns the function type of the tag at `index`.
pub(crate) fn tag_type_of<'a>(scope: &Scope<'a>, index: usize) -> Option<&'a FuncType>
    requires { index < length scope.now.tags.now }
    ensures { MatchOption result (tag_type_at (bare scope.now) index ≡ None) (λ ty.
        tag_type_at (bare scope.now) index ≡ Some ty.now) }
{
    func_type_at(scope, scope.tags[index] as usize)
}

/// Draws a tag, if there is one.
pub(crate) fn draw_tag(scope: &Scope<'_>, u: &mut Unstructured<'_>) -> Option<u32>
    ensures exact { tag_at scope.now.tags.now u.old ≡ (result, u.new) }
    ensures below { IfSome result (λ tag. tag < length scope.now.tags.now) }
    ensures left { KeepsPieces u.old u.new }
{
    let count = indexed_count(scope.tags.len());
    if count == 0 {
        return None;
    }
    let tag = u.int_in_range(0..=count - 1);
    Some(tag as u32)
}

/// Returns the heap type of exceptions.
pub(crate) fn exn() -> HeapType
    ensures { result ≡ exn }
{
    HeapType::Abstract {
        shared: false,
        ty: AbstractHeapType::Exn,
    }
}

/// Returns whether references to exceptions are enabled.
pub(crate) fn refers_to_exceptions(scope: &Scope<'_>) -> bool
    ensures { result ≡ refers_to_exceptions (bare scope.now).features }
{
    scope.features.contains(WasmFeatures::REFERENCE_TYPES)
        && scope.features.contains(WasmFeatures::EXCEPTIONS)
}

/// Chooses `throw` of a tag, if there is one.
fn choose_throw(
    alloc: Global,
    scope: &Scope<'_>,
    draft: &Draft,
    u: &mut Unstructured<'_>,
) -> Result<Option<Node>, Error>
    requires scope { IsScope (bare scope.now) }
    ensures exact { IfOk result (λ chosen.
        throw_at (where_stands scope.now draft.now) u.old ≡ (chosen, u.new)) }
    ensures offer { (values : List Val) → AreValid (bare scope.now) values
        → IsOffer (where_stands scope.now draft.now) draft.now.set.items values result }
    ensures memory { IfErr result (λ e. e ≡ Error.Memory) }
    ensures left { KeepsPieces u.old u.new }
{
    let Some(tag) = draw_tag(scope, u) else {
        return Ok(None);
    };
    let Some(ty) = tag_type_of(scope, tag as usize) else {
        return Ok(None);
    };
    let node = plain(alloc, ty.params.as_slice(), Instr::Throw(tag), 0)?;
    Ok(Some(node))
}

/// Chooses `throw_ref`, if references to exceptions are enabled.
fn choose_throw_ref(alloc: Global, scope: &Scope<'_>, draft: &Draft) -> Result<Option<Node>, Error>
    ensures exact { IfOk result (λ chosen. chosen ≡ throw_ref_node (bare scope.now).features) }
    ensures offer { (values : List Val) → AreValid (bare scope.now) values
        → IsOffer (where_stands scope.now draft.now) draft.now.set.items values result }
    ensures memory { IfErr result (λ e. e ≡ Error.Memory) }
{
    if !refers_to_exceptions(scope) {
        return Ok(None);
    }
    let node = plain(alloc, &[nullable_to(exn())], Instr::ThrowRef, 0)?;
    Ok(Some(node))
}

/// Chooses `throw`, or one of eight times `throw_ref`.
pub fn choose_any_throw(
    alloc: Global,
    scope: &Scope<'_>,
    draft: &Draft,
    u: &mut Unstructured<'_>,
) -> Result<Option<Node>, Error>
    requires scope { IsScope (bare scope.now) }
    ensures exact { IfOk result (λ chosen.
        any_throw_at (where_stands scope.now draft.now) u.old ≡ (chosen, u.new)) }
    ensures offer { (values : List Val) → AreValid (bare scope.now) values
        → IsOffer (where_stands scope.now draft.now) draft.now.set.items values result }
    ensures memory { IfErr result (λ e. e ≡ Error.Memory) }
    ensures left { KeepsPieces u.old u.new }
{
    let number = u.int_in_range(0..=7u8);
    if number < 7 {
        return choose_throw(alloc, scope, draft, u);
    }
    choose_throw_ref(alloc, scope, draft)
}
