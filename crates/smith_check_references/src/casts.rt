ghost use Rattle.std.specs.Prelude.{◌≡◌, ◌↔◌, ℕ, List, IfOk, IfErr, IsTrue};
ghost use Rattle.smith_types.specs.Syntax.value_type.ValType.{ValType};
ghost use Rattle.smith_types.specs.Subtyping.{IsInRange};
ghost use Rattle.smith_types.specs.Types.{IsOrderly};
ghost use Rattle.smith_instr.specs.Contexts.{IsRefValid};
ghost use Rattle.smith_instr.specs.declared.instr.Instr.TheVariants as instr;
ghost use Rattle.smith_instr.specs.declared.reference.ReferenceInstr.TheVariants as reference;
ghost use Rattle.smith_check_rules.specs.Slots.{AreSlotsValid};
ghost use Rattle.smith_check_operands.specs.Applies.{IsTried};
ghost use Rattle.smith_check_operands.specs.Covers.{held};
ghost use Rattle.smith_check_operands.specs.Scopes.{bare, IsScope};
ghost use Rattle.smith_types.specs.Syntax.value_type.HeapType.TheVariants.{Concrete};
ghost use Rattle.smith_check_references.specs.Hierarchies.{IsTop, IsWidest, top_kind};

use crate::offers::give;
use smith_bytes::Error;
use smith_check_operands::{Operands, Scope};
use smith_types::{AbstractHeapType, HeapType, RefType, TypeSpace, ValType};
use smith_validity::is_ref_type_valid;

/// Returns whether a reference type is valid (Validation, Reference Types).
pub fn is_ref_valid(scope: &Scope, reference: RefType) -> bool
    ensures valid { IsTrue result ↔ IsRefValid (bare scope.now) reference }
    ensures orderly { IsOrderly scope.now.types.now.types }
{
    is_ref_type_valid(scope.features, scope.types.types().len(), reference)
}

/// Returns the top of the hierarchy of an abstract heap type (Validation, Matching, Heap Types).
pub fn top_kind(ty: AbstractHeapType) -> AbstractHeapType
    ensures { result ≡ top_kind ty }
{
    match ty {
        AbstractHeapType::Func | AbstractHeapType::NoFunc => AbstractHeapType::Func,
        AbstractHeapType::Extern | AbstractHeapType::NoExtern => AbstractHeapType::Extern,
        AbstractHeapType::Exn | AbstractHeapType::NoExn => AbstractHeapType::Exn,
        _ => AbstractHeapType::Any,
    }
}

/// Returns the top of the hierarchy of the type at an index (Validation, Matching, Heap Types).
/// Requires the type to exist.
pub fn top_at(types: &TypeSpace, index: u32) -> HeapType
    requires { IsInRange types.now.types (Concrete index) }
    ensures top { IsTop types.now.types (Concrete index) result }
    ensures orderly { IsOrderly types.now.types }
{
    let ty = &types.types()[index as usize].composite_type;
    HeapType::Abstract {
        shared: ty.shared,
        ty: top_kind(ty.inner.kind()),
    }
}

/// Returns the top of the hierarchy of a heap type (Validation, Matching, Heap Types). Requires the
/// type that it refers to to exist.
pub fn top_of(types: &TypeSpace, heap_type: HeapType) -> HeapType
    requires { IsInRange types.now.types heap_type }
    ensures { IsTop types.now.types heap_type result }
{
    match heap_type {
        HeapType::Abstract { shared, ty } => HeapType::Abstract {
            shared,
            ty: top_kind(ty),
        },
        HeapType::Concrete(index) | HeapType::Exact(index) => top_at(types, index),
    }
}

/// Returns the type of nullable references to the top of the hierarchy of `reference`.
pub fn widest(types: &TypeSpace, reference: RefType) -> ValType
    requires { IsInRange types.now.types reference.heap_type }
    ensures { IsWidest types.now.types reference result }
{
    ValType::Ref(RefType {
        nullable: true,
        heap_type: top_of(types, reference.heap_type),
    })
}

/// Tries `ref.test`.
pub fn ref_test(operands: &mut Operands, scope: &Scope, to: RefType) -> Result<bool, Error>
    requires known { AreSlotsValid (bare scope.now) operands.old.known.items }
    requires scope { IsScope (bare scope.now) }
    ensures ok { (labels : List (List ValType)) (set : List ℕ) → IfOk result
        (λ there. IsTried (bare scope.now) labels (instr.Reference (reference.Test to)) set there
        (held operands.old) (held operands.new)) }
    ensures memory { IfErr result (λ e. e ≡ Error.Memory) }
{
    if !is_ref_valid(scope, to) {
        return Ok(false);
    }
    operands.apply(scope, &[widest(scope.types, to)], &[ValType::I32])
}

/// Tries `ref.cast`.
pub fn ref_cast(operands: &mut Operands, scope: &Scope, to: RefType) -> Result<bool, Error>
    requires known { AreSlotsValid (bare scope.now) operands.old.known.items }
    requires scope { IsScope (bare scope.now) }
    ensures ok { (labels : List (List ValType)) (set : List ℕ) → IfOk result
        (λ there. IsTried (bare scope.now) labels (instr.Reference (reference.Cast to)) set there
        (held operands.old) (held operands.new)) }
    ensures memory { IfErr result (λ e. e ≡ Error.Memory) }
{
    if !is_ref_valid(scope, to) {
        return Ok(false);
    }
    give(
        operands,
        scope,
        &[widest(scope.types, to)],
        ValType::Ref(to),
    )
}
