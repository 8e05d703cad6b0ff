ghost use Rattle.std.specs.Prelude.{◌≡◌, ◌↔◌, ℕ, List, IfOk, IfErr, IsTrue, MatchOption};
ghost use Rattle.std.specs.List.{Contains};
ghost use Rattle.smith_types.specs.Syntax.value_type.ValType.{ValType};
ghost use Rattle.smith_instr.specs.declared.instr.Instr.TheVariants as instr;
ghost use Rattle.smith_instr.specs.declared.reference.ReferenceInstr.TheVariants as reference;
ghost use Rattle.smith_instr.specs.Contexts.{BodyContext, nullable_to, reference_to_function};
ghost use Rattle.smith_types.specs.Syntax.value_type.HeapType.TheVariants.{Abstract};
ghost use Rattle.smith_types.specs.Entities.{IsFuncTypeIndex};
ghost use Rattle.smith_types.specs.Expressions.{reference_to};
ghost use Rattle.smith_check_rules.specs.Slots.{AreSlotsValid, IsSlotValid};
ghost use Rattle.smith_check_rules.specs.StackTypes.{HasNonNull};
ghost use Rattle.smith_check_operands.specs.Applies.{IsTried};
ghost use Rattle.smith_check_operands.specs.Covers.{held};
ghost use Rattle.smith_check_operands.specs.Fits.{IsSlotInRange};
ghost use Rattle.smith_check_operands.specs.Scopes.{bare, IsScope};
ghost use Rattle.smith_check_references.specs.Choices.{FitsEither, ReadsAny};
ghost use Rattle.smith_check_references.specs.Hierarchies.{IsFunctionHeap};
ghost use Rattle.smith_check_references.specs.Offers.{IsGiven, IsHeapOffer};
ghost use Rattle.smith_check_references.specs.Rows.{HasNoneOf, IsLeastOf};

use crate::casts::{is_ref_valid, ref_cast, ref_test, top_at};
use crate::offers::{created_heap_type, give, push_reference};
use smith_bytes::Error;
use smith_check_operands::below::slot_fits;
use smith_check_operands::lookups::type_index_at;
use smith_check_operands::{Operands, Scope};
use smith_check_rules::Slot;
use smith_instr::ReferenceInstr;
use smith_types::{AbstractHeapType, HeapType, RefType, TypeSpace, ValType, WasmFeatures};

/// Tries `ref.null`.
fn ref_null(operands: &mut Operands, scope: &Scope, heap_type: HeapType) -> Result<bool, Error>
    requires { AreSlotsValid (bare scope.now) operands.old.known.items }
    ensures ok { (labels : List (List ValType)) (set : List ℕ) → IfOk result
        (λ there. IsTried (bare scope.now) labels (instr.Reference (reference.Null heap_type)) set
        there (held operands.old) (held operands.new)) }
    ensures memory { IfErr result (λ e. e ≡ Error.Memory) }
{
    let reference = RefType {
        nullable: true,
        heap_type,
    };
    if !is_ref_valid(scope, reference) {
        return Ok(false);
    }
    give(operands, scope, &[], ValType::Ref(reference))
}

/// Returns whether a function is among those that `ref.func` may name.
fn is_declared(references: &[u32], function: u32) -> bool
    ensures { IsTrue result ↔ Contains references.now function }
{
    references.contains(&function)
}

/// Returns the heap type of references to a function, whose type has the index `index`: an exact one
/// with custom descriptors, if the function isn't imported.
fn function_heap_type(scope: &Scope, function: u32, index: u32) -> HeapType
    requires { IsFuncTypeIndex scope.now.types.now.types index }
    ensures named { reference_to result ≡ reference_to_function (bare scope.now) function index }
    ensures heap { IsFunctionHeap (bare scope.now) result }
{
    if scope.imported_funcs <= function as usize {
        created_heap_type(scope, index)
    } else {
        HeapType::Concrete(index)
    }
}

/// Returns the least valid heap type above that of references to functions of a type.
fn least_heap_type(scope: &Scope, heap_type: HeapType) -> HeapType
    requires scope { IsScope (bare scope.now) }
    requires heap { IsFunctionHeap (bare scope.now) heap_type }
    ensures { IsHeapOffer (bare scope.now) heap_type result }
{
    match heap_type {
        HeapType::Concrete(index) => {
            if scope.features.contains(WasmFeatures::GC) {
                heap_type
            } else {
                top_at(scope.types, index)
            }
        }
        _ => heap_type,
    }
}

/// Puts a reference to a function on the stack, whose type has the index `index`, and returns
/// whether it counts as one of a valid type.
fn push_function(
    operands: &mut Operands,
    scope: &Scope,
    function: u32,
    index: u32,
) -> Result<bool, Error>
    requires known { AreSlotsValid (bare scope.now) operands.old.known.items }
    requires scope { IsScope (bare scope.now) }
    requires index { IsFuncTypeIndex scope.now.types.now.types index }
    ensures ok { IfOk result (λ there. IsGiven (bare scope.now)
        (reference_to_function (bare scope.now) function index) there
        (held operands.old) (held operands.new)) }
    ensures memory { IfErr result (λ e. e ≡ Error.Memory) }
{
    let named = function_heap_type(scope, function, index);
    push_reference(operands, scope, least_heap_type(scope, named))
}

/// Tries `ref.func`.
fn ref_func(operands: &mut Operands, scope: &Scope, function: u32) -> Result<bool, Error>
    requires known { AreSlotsValid (bare scope.now) operands.old.known.items }
    requires scope { IsScope (bare scope.now) }
    ensures ok { (labels : List (List ValType)) (set : List ℕ) → IfOk result
        (λ there. IsTried (bare scope.now) labels (instr.Reference (reference.Func function)) set
        there (held operands.old) (held operands.new)) }
    ensures memory { IfErr result (λ e. e ≡ Error.Memory) }
{
    let Some(index) = type_index_at(scope.funcs, function) else {
        return Ok(false);
    };
    if !is_declared(scope.references, function) {
        return Ok(false);
    }
    push_function(operands, scope, function, index)
}

/// Returns what `ref.is_null` leaves of an operand of the type `top`.
fn tested(top: Slot) -> Option<Slot>
    ensures { (context : BodyContext) → IsSlotValid context top
        → MatchOption result (HasNoneOf context (ReadsAny context) top)
        (λ given. IsLeastOf context (ReadsAny context) top given) }
{
    match top {
        Slot::Bottom => Some(Slot::Value(ValType::I32)),
        Slot::SomeRef => Some(Slot::Value(ValType::I32)),
        Slot::EitherRef(_ty) => Some(Slot::Value(ValType::I32)),
        Slot::Value(ValType::Ref(_reference)) => Some(Slot::Value(ValType::I32)),
        Slot::Value(_) => None,
    }
}

/// Tries `ref.is_null`.
fn ref_is_null(operands: &mut Operands, scope: &Scope) -> Result<bool, Error>
    requires { AreSlotsValid (bare scope.now) operands.old.known.items }
    ensures ok { (labels : List (List ValType)) (set : List ℕ) → IfOk result
        (λ there. IsTried (bare scope.now) labels (instr.Reference reference.IsNull) set
        there (held operands.old) (held operands.new)) }
    ensures memory { IfErr result (λ e. e ≡ Error.Memory) }
{
    let Some(top) = operands.pop(scope) else {
        return Ok(false);
    };
    let Some(given) = tested(top) else {
        return Ok(false);
    };
    operands.known.push(given)?;
    Ok(true)
}

/// Returns the least valid type that a reference of the type `top` has if it isn't null (Validation,
/// Reference Instructions, ref.as_non_null).
fn non_null(scope: &Scope, top: Slot) -> Option<Slot>
    requires { IsSlotValid (bare scope.now) top }
    ensures { MatchOption result (HasNoneOf (bare scope.now) (HasNonNull (bare scope.now)) top)
        (λ given. IsLeastOf (bare scope.now) (HasNonNull (bare scope.now)) top given) }
{
    match top {
        Slot::Bottom | Slot::SomeRef => Some(Slot::SomeRef),
        Slot::EitherRef(ty) => Some(Slot::EitherRef(ty)),
        Slot::Value(ValType::Ref(reference)) => Some(Slot::Value(ValType::Ref(RefType {
            nullable: !scope.features.contains(WasmFeatures::FUNCTION_REFERENCES),
            heap_type: reference.heap_type,
        }))),
        Slot::Value(_) => None,
    }
}

/// Tries `ref.as_non_null`.
fn ref_as_non_null(operands: &mut Operands, scope: &Scope) -> Result<bool, Error>
    requires { AreSlotsValid (bare scope.now) operands.old.known.items }
    ensures ok { (labels : List (List ValType)) (set : List ℕ) → IfOk result
        (λ there. IsTried (bare scope.now) labels (instr.Reference reference.AsNonNull) set
        there (held operands.old) (held operands.new)) }
    ensures memory { IfErr result (λ e. e ≡ Error.Memory) }
{
    let Some(top) = operands.pop(scope) else {
        return Ok(false);
    };
    let Some(given) = non_null(scope, top) else {
        return Ok(false);
    };
    operands.known.push(given)?;
    Ok(true)
}

/// Returns whether a value is one of the nullable references to the heap type `ty`, shared or not.
pub fn fits_either(types: &TypeSpace, slot: Slot, ty: AbstractHeapType) -> bool
    requires { IsSlotInRange types.now.types slot }
    ensures { IsTrue result ↔ FitsEither types.now.types ty slot }
{
    slot_fits(types, slot, nullable_to(false, ty)) || slot_fits(types, slot, nullable_to(true, ty))
}

/// Returns the type of nullable references to an abstract heap type.
fn nullable_to(shared: bool, ty: AbstractHeapType) -> ValType
    ensures { result ≡ nullable_to (Abstract shared ty) }
{
    ValType::Ref(RefType {
        nullable: true,
        heap_type: HeapType::Abstract { shared, ty },
    })
}

/// Tries `ref.eq`.
fn ref_eq(operands: &mut Operands, scope: &Scope) -> Result<bool, Error>
    requires { AreSlotsValid (bare scope.now) operands.old.known.items }
    ensures ok { (labels : List (List ValType)) (set : List ℕ) → IfOk result
        (λ there. IsTried (bare scope.now) labels (instr.Reference reference.Eq) set
        there (held operands.old) (held operands.new)) }
    ensures memory { IfErr result (λ e. e ≡ Error.Memory) }
{
    let Some(second) = operands.pop(scope) else {
        return Ok(false);
    };
    let Some(first) = operands.pop(scope) else {
        return Ok(false);
    };
    if !fits_either(scope.types, first, AbstractHeapType::Eq) {
        return Ok(false);
    }
    if !fits_either(scope.types, second, AbstractHeapType::Eq) {
        return Ok(false);
    }
    operands.push_all(scope, &[ValType::I32])?;
    Ok(true)
}

/// Tries a reference instruction.
pub fn reference(operands: &mut Operands, scope: &Scope, op: ReferenceInstr) -> Result<bool, Error>
    requires known { AreSlotsValid (bare scope.now) operands.old.known.items }
    requires scope { IsScope (bare scope.now) }
    ensures ok { (labels : List (List ValType)) (set : List ℕ) → IfOk result
        (λ there. IsTried (bare scope.now) labels (instr.Reference op) set there
        (held operands.old) (held operands.new)) }
    ensures memory { IfErr result (λ e. e ≡ Error.Memory) }
{
    match op {
        ReferenceInstr::Null(heap_type) => ref_null(operands, scope, heap_type),
        ReferenceInstr::Func(function) => ref_func(operands, scope, function),
        ReferenceInstr::IsNull => ref_is_null(operands, scope),
        ReferenceInstr::AsNonNull => ref_as_non_null(operands, scope),
        ReferenceInstr::Eq => ref_eq(operands, scope),
        ReferenceInstr::Test(to) => ref_test(operands, scope, to),
        ReferenceInstr::Cast(to) => ref_cast(operands, scope, to),
    }
}
