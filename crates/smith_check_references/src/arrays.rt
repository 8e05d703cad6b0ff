ghost use Rattle.std.specs.Prelude.{◌≡◌, ◌↔◌, ◌∷◌, [], ℕ, List, IfOk, IfErr, IsTrue, MatchBool, All, replicate};
ghost use Rattle.std.specs.List.{AllByRecursion as Each};
ghost use Rattle.smith_types.specs.Syntax.value_type.ValType.{ValType};
ghost use Rattle.smith_types.specs.Syntax.value_type.ValType.TheVariants.{I32};
ghost use Rattle.smith_types.specs.Syntax.value_type.AbstractHeapType.TheVariants as abstract;
ghost use Rattle.smith_types.specs.Syntax.value_type.HeapType.TheVariants.{Abstract};
ghost use Rattle.smith_types.specs.Expressions.{reference_to};
ghost use Rattle.smith_types.specs.Subtyping.{IsValInRange};
ghost use Rattle.smith_types.specs.Matching.{IsStorageInRange, IsStorageMatch};
ghost use Rattle.smith_instr.specs.declared.instr.Instr.TheVariants as instr;
ghost use Rattle.smith_instr.specs.declared.aggregate.AggregateInstr.TheVariants as aggregate;
ghost use Rattle.smith_check_rules.specs.Slots.{AreSlotsValid, IsBelow, values};
ghost use Rattle.smith_check_rules.specs.declared.slot.Slot.TheVariants.{Value};
ghost use Rattle.smith_check_operands.specs.Applies.{IsTried};
ghost use Rattle.smith_check_operands.specs.Covers.{held, Pops, PopsNothing};
ghost use Rattle.smith_check_operands.specs.Fits.{IsSlotInRange};
ghost use Rattle.smith_check_operands.specs.Scopes.{bare, IsScope};
ghost use Rattle.smith_check_references.specs.Choices.{ReadsEither};
ghost use Rattle.smith_check_references.specs.Rows.{IsApplied, IsOneApplied};

use crate::casts::is_ref_valid;
use crate::conversions::{any_convert_extern, extern_convert_any};
use crate::lookups::{array_at, is_elem_of, is_of_bytes, is_read_by, mutable_array_at};
use crate::offers::{create, push_created, push_reference};
use crate::references::fits_either;
use crate::structs::{nullable_at, struct_get, struct_new, struct_new_default, struct_set};
use smith_bytes::Error;
use smith_check_operands::below::slot_fits;
use smith_check_operands::{Operands, Scope};
use smith_check_rules::Slot;
use smith_instr::{AggregateInstr, Extension};
use smith_types::{
    AbstractHeapType, HeapType, RefType, StorageType, TypeSpace, ValType, is_defaultable, unpack,
};

/// Returns whether each of `slots` may be used as a value of the type `value`. Requires the types
/// that both refer to to exist.
fn all_fit(types: &TypeSpace, slots: &[Slot], value: ValType) -> bool
    requires lower { All (IsSlotInRange types.now.types) slots.now }
    requires upper { IsValInRange types.now.types value }
    ensures { IsTrue result ↔ Each (λ slot. IsBelow types.now.types slot (Value value)) slots.now }
{
    for i in 0..slots.len() {
        if !slot_fits(types, slots[i], value) {
            return false;
        }
    }
    true
}

/// Takes `count` values of the type `value` off the stack, and returns whether they are there. Takes
/// as long as values are known that it takes off.
fn pop_copies(operands: &mut Operands, scope: &Scope, value: ValType, count: usize) -> bool
    requires known { AreSlotsValid (bare scope.now) operands.old.known.items }
    requires expected { IsValInRange scope.now.types.now.types value }
    ensures { MatchBool result
        (Pops (bare scope.now) (values (replicate count value)) (held operands.old) (held operands.new))
        (PopsNothing (bare scope.now) (values (replicate count value)) (held operands.old)) }
{
    let known = operands.known.len();
    if count <= known {
        let base = known - count;
        if !all_fit(scope.types, &operands.known[base..], value) {
            return false;
        }
        operands.known.truncate(base);
        return true;
    }
    if !operands.dead {
        return false;
    }
    if !all_fit(scope.types, &operands.known, value) {
        return false;
    }
    operands.known.clear();
    true
}

/// Tries `array.new`.
fn array_new(operands: &mut Operands, scope: &Scope, ty: u32) -> Result<bool, Error>
    requires known { AreSlotsValid (bare scope.now) operands.old.known.items }
    requires scope { IsScope (bare scope.now) }
    ensures ok { (labels : List (List ValType)) (set : List ℕ) → IfOk result
        (λ there. IsTried (bare scope.now) labels
        (instr.Aggregate (aggregate.ArrayNew ty)) set there
        (held operands.old) (held operands.new)) }
    ensures memory { IfErr result (λ e. e ≡ Error.Memory) }
{
    let Some(element) = array_at(scope.types, ty) else {
        return Ok(false);
    };
    let value = unpack(element.element_type);
    create(operands, scope, &[value, ValType::I32], ty)
}

/// Tries `array.new_default`.
fn array_new_default(operands: &mut Operands, scope: &Scope, ty: u32) -> Result<bool, Error>
    requires known { AreSlotsValid (bare scope.now) operands.old.known.items }
    requires scope { IsScope (bare scope.now) }
    ensures ok { (labels : List (List ValType)) (set : List ℕ) → IfOk result
        (λ there. IsTried (bare scope.now) labels
        (instr.Aggregate (aggregate.ArrayNewDefault ty)) set there
        (held operands.old) (held operands.new)) }
    ensures memory { IfErr result (λ e. e ≡ Error.Memory) }
{
    let Some(element) = array_at(scope.types, ty) else {
        return Ok(false);
    };
    let value = unpack(element.element_type);
    if !is_defaultable(value) {
        return Ok(false);
    }
    create(operands, scope, &[ValType::I32], ty)
}

/// Tries `array.new_fixed`.
fn array_new_fixed(
    operands: &mut Operands,
    scope: &Scope,
    ty: u32,
    size: u32,
) -> Result<bool, Error>
    requires known { AreSlotsValid (bare scope.now) operands.old.known.items }
    requires scope { IsScope (bare scope.now) }
    ensures ok { (labels : List (List ValType)) (set : List ℕ) → IfOk result
        (λ there. IsTried (bare scope.now) labels
        (instr.Aggregate (aggregate.ArrayNewFixed ty size)) set there
        (held operands.old) (held operands.new)) }
    ensures memory { IfErr result (λ e. e ≡ Error.Memory) }
{
    let Some(element) = array_at(scope.types, ty) else {
        return Ok(false);
    };
    let value = unpack(element.element_type);
    if !pop_copies(operands, scope, value, size as usize) {
        return Ok(false);
    }
    push_created(operands, scope, ty)
}

/// Tries `array.new_data`.
fn array_new_data(
    operands: &mut Operands,
    scope: &Scope,
    ty: u32,
    segment: u32,
) -> Result<bool, Error>
    requires known { AreSlotsValid (bare scope.now) operands.old.known.items }
    requires scope { IsScope (bare scope.now) }
    ensures ok { (labels : List (List ValType)) (set : List ℕ) → IfOk result
        (λ there. IsTried (bare scope.now) labels
        (instr.Aggregate (aggregate.ArrayNewData ty segment)) set there
        (held operands.old) (held operands.new)) }
    ensures memory { IfErr result (λ e. e ≡ Error.Memory) }
{
    let Some(element) = array_at(scope.types, ty) else {
        return Ok(false);
    };
    if !is_of_bytes(element.element_type) {
        return Ok(false);
    }
    if scope.datas <= segment as usize {
        return Ok(false);
    }
    create(operands, scope, &[ValType::I32, ValType::I32], ty)
}

/// Tries `array.new_elem`.
fn array_new_elem(
    operands: &mut Operands,
    scope: &Scope,
    ty: u32,
    segment: u32,
) -> Result<bool, Error>
    requires known { AreSlotsValid (bare scope.now) operands.old.known.items }
    requires scope { IsScope (bare scope.now) }
    ensures ok { (labels : List (List ValType)) (set : List ℕ) → IfOk result
        (λ there. IsTried (bare scope.now) labels
        (instr.Aggregate (aggregate.ArrayNewElem ty segment)) set there
        (held operands.old) (held operands.new)) }
    ensures memory { IfErr result (λ e. e ≡ Error.Memory) }
{
    let Some(element) = array_at(scope.types, ty) else {
        return Ok(false);
    };
    if !is_elem_of(scope, segment, element) {
        return Ok(false);
    }
    create(operands, scope, &[ValType::I32, ValType::I32], ty)
}

/// Tries `array.get`, `array.get_s` and `array.get_u`.
fn array_get(
    operands: &mut Operands,
    scope: &Scope,
    ty: u32,
    extension: Extension,
) -> Result<bool, Error>
    requires known { AreSlotsValid (bare scope.now) operands.old.known.items }
    requires scope { IsScope (bare scope.now) }
    ensures ok { (labels : List (List ValType)) (set : List ℕ) → IfOk result
        (λ there. IsTried (bare scope.now) labels
        (instr.Aggregate (aggregate.ArrayGet ty extension)) set there
        (held operands.old) (held operands.new)) }
    ensures memory { IfErr result (λ e. e ≡ Error.Memory) }
{
    let Some(element) = array_at(scope.types, ty) else {
        return Ok(false);
    };
    if !is_read_by(extension, element.element_type) {
        return Ok(false);
    }
    let value = unpack(element.element_type);
    operands.apply(scope, &[nullable_at(ty), ValType::I32], &[value])
}

/// Tries `array.set`.
fn array_set(operands: &mut Operands, scope: &Scope, ty: u32) -> Result<bool, Error>
    requires known { AreSlotsValid (bare scope.now) operands.old.known.items }
    requires scope { IsScope (bare scope.now) }
    ensures ok { (labels : List (List ValType)) (set : List ℕ) → IfOk result
        (λ there. IsTried (bare scope.now) labels
        (instr.Aggregate (aggregate.ArraySet ty)) set there
        (held operands.old) (held operands.new)) }
    ensures memory { IfErr result (λ e. e ≡ Error.Memory) }
{
    let Some(element) = mutable_array_at(scope.types, ty) else {
        return Ok(false);
    };
    let value = unpack(element.element_type);
    operands.apply(scope, &[nullable_at(ty), ValType::I32, value], &[])
}

/// Tries `array.fill`.
fn array_fill(operands: &mut Operands, scope: &Scope, ty: u32) -> Result<bool, Error>
    requires known { AreSlotsValid (bare scope.now) operands.old.known.items }
    requires scope { IsScope (bare scope.now) }
    ensures ok { (labels : List (List ValType)) (set : List ℕ) → IfOk result
        (λ there. IsTried (bare scope.now) labels
        (instr.Aggregate (aggregate.ArrayFill ty)) set there
        (held operands.old) (held operands.new)) }
    ensures memory { IfErr result (λ e. e ≡ Error.Memory) }
{
    let Some(element) = mutable_array_at(scope.types, ty) else {
        return Ok(false);
    };
    let value = unpack(element.element_type);
    operands.apply(
        scope,
        &[nullable_at(ty), ValType::I32, value, ValType::I32],
        &[],
    )
}

/// Returns whether one storage type matches another (Validation, Matching, Field Types). Requires
/// the types that both refer to to exist.
fn storage_matches(types: &TypeSpace, a: StorageType, b: StorageType) -> bool
    requires lower { IsStorageInRange types.now.types a }
    requires upper { IsStorageInRange types.now.types b }
    ensures { IsTrue result ↔ IsStorageMatch types.now.types a b }
{
    match (a, b) {
        (StorageType::I8, StorageType::I8) | (StorageType::I16, StorageType::I16) => true,
        (StorageType::Val(one), StorageType::Val(other)) => types.val_type_is_sub_type(one, other),
        _ => false,
    }
}

/// Tries `array.copy`.
fn array_copy(operands: &mut Operands, scope: &Scope, to: u32, from: u32) -> Result<bool, Error>
    requires known { AreSlotsValid (bare scope.now) operands.old.known.items }
    requires scope { IsScope (bare scope.now) }
    ensures ok { (labels : List (List ValType)) (set : List ℕ) → IfOk result
        (λ there. IsTried (bare scope.now) labels
        (instr.Aggregate (aggregate.ArrayCopy to from)) set there
        (held operands.old) (held operands.new)) }
    ensures memory { IfErr result (λ e. e ≡ Error.Memory) }
{
    let Some(into) = mutable_array_at(scope.types, to) else {
        return Ok(false);
    };
    let Some(out) = array_at(scope.types, from) else {
        return Ok(false);
    };
    if !storage_matches(scope.types, out.element_type, into.element_type) {
        return Ok(false);
    }
    let target = nullable_at(to);
    let source = nullable_at(from);
    operands.apply(
        scope,
        &[target, ValType::I32, source, ValType::I32, ValType::I32],
        &[],
    )
}

/// Tries `array.init_data`.
fn array_init_data(
    operands: &mut Operands,
    scope: &Scope,
    ty: u32,
    segment: u32,
) -> Result<bool, Error>
    requires known { AreSlotsValid (bare scope.now) operands.old.known.items }
    requires scope { IsScope (bare scope.now) }
    ensures ok { (labels : List (List ValType)) (set : List ℕ) → IfOk result
        (λ there. IsTried (bare scope.now) labels
        (instr.Aggregate (aggregate.ArrayInitData ty segment)) set there
        (held operands.old) (held operands.new)) }
    ensures memory { IfErr result (λ e. e ≡ Error.Memory) }
{
    let Some(element) = mutable_array_at(scope.types, ty) else {
        return Ok(false);
    };
    if !is_of_bytes(element.element_type) {
        return Ok(false);
    }
    if scope.datas <= segment as usize {
        return Ok(false);
    }
    operands.apply(
        scope,
        &[nullable_at(ty), ValType::I32, ValType::I32, ValType::I32],
        &[],
    )
}

/// Tries `array.init_elem`.
fn array_init_elem(
    operands: &mut Operands,
    scope: &Scope,
    ty: u32,
    segment: u32,
) -> Result<bool, Error>
    requires known { AreSlotsValid (bare scope.now) operands.old.known.items }
    requires scope { IsScope (bare scope.now) }
    ensures ok { (labels : List (List ValType)) (set : List ℕ) → IfOk result
        (λ there. IsTried (bare scope.now) labels
        (instr.Aggregate (aggregate.ArrayInitElem ty segment)) set there
        (held operands.old) (held operands.new)) }
    ensures memory { IfErr result (λ e. e ≡ Error.Memory) }
{
    let Some(element) = mutable_array_at(scope.types, ty) else {
        return Ok(false);
    };
    if !is_elem_of(scope, segment, element) {
        return Ok(false);
    }
    operands.apply(
        scope,
        &[nullable_at(ty), ValType::I32, ValType::I32, ValType::I32],
        &[],
    )
}

/// Takes a nullable reference to the heap type `ty`, shared or not, off the stack and puts a number
/// on it, and returns whether the reference is there.
fn read_either(operands: &mut Operands, scope: &Scope, ty: AbstractHeapType) -> Result<bool, Error>
    requires { AreSlotsValid (bare scope.now) operands.old.known.items }
    ensures ok { IfOk result (λ there. IsOneApplied (bare scope.now) (ReadsEither ty) there
        (held operands.old) (held operands.new)) }
    ensures memory { IfErr result (λ e. e ≡ Error.Memory) }
{
    let Some(top) = operands.pop(scope) else {
        return Ok(false);
    };
    if !fits_either(scope.types, top, ty) {
        return Ok(false);
    }
    operands.push_all(scope, &[ValType::I32])?;
    Ok(true)
}

/// Takes a number off the stack and puts a reference to an i31 on it, and returns whether the number
/// is there and the reference counts as one of a valid type.
fn make_i31(operands: &mut Operands, scope: &Scope, shared: bool) -> Result<bool, Error>
    requires { AreSlotsValid (bare scope.now) operands.old.known.items }
    ensures ok { IfOk result (λ there. IsApplied (bare scope.now) (values (I32 ∷ []))
        (values (reference_to (Abstract shared abstract.I31) ∷ [])) there
        (held operands.old) (held operands.new)) }
    ensures memory { IfErr result (λ e. e ≡ Error.Memory) }
{
    let heap_type = HeapType::Abstract {
        shared,
        ty: AbstractHeapType::I31,
    };
    let nullable = RefType {
        nullable: true,
        heap_type,
    };
    if !is_ref_valid(scope, nullable) {
        return Ok(false);
    }
    if !operands.pop_all(scope, &[ValType::I32]) {
        return Ok(false);
    }
    push_reference(operands, scope, heap_type)
}

/// Tries an aggregate instruction.
#[rattlefmt::skip]
pub fn aggregate(operands: &mut Operands, scope: &Scope, op: AggregateInstr) -> Result<bool, Error>
    requires known { AreSlotsValid (bare scope.now) operands.old.known.items }
    requires scope { IsScope (bare scope.now) }
    ensures ok { (labels : List (List ValType)) (set : List ℕ) → IfOk result
        (λ there. IsTried (bare scope.now) labels (instr.Aggregate op) set there
        (held operands.old) (held operands.new)) }
    ensures memory { IfErr result (λ e. e ≡ Error.Memory) }
{
    match op {
        AggregateInstr::StructNew(ty) => struct_new(operands, scope, ty),
        AggregateInstr::StructNewDefault(ty) => struct_new_default(operands, scope, ty),
        AggregateInstr::StructGet { ty, field, extension } => struct_get(operands, scope, ty, field, extension),
        AggregateInstr::StructSet { ty, field } => struct_set(operands, scope, ty, field),
        AggregateInstr::ArrayNew(ty) => array_new(operands, scope, ty),
        AggregateInstr::ArrayNewDefault(ty) => array_new_default(operands, scope, ty),
        AggregateInstr::ArrayNewFixed { ty, size } => array_new_fixed(operands, scope, ty, size),
        AggregateInstr::ArrayNewData { ty, segment } => array_new_data(operands, scope, ty, segment),
        AggregateInstr::ArrayNewElem { ty, segment } => array_new_elem(operands, scope, ty, segment),
        AggregateInstr::ArrayGet { ty, extension } => array_get(operands, scope, ty, extension),
        AggregateInstr::ArraySet(ty) => array_set(operands, scope, ty),
        AggregateInstr::ArrayLen => read_either(operands, scope, AbstractHeapType::Array),
        AggregateInstr::ArrayFill(ty) => array_fill(operands, scope, ty),
        AggregateInstr::ArrayCopy { to, from } => array_copy(operands, scope, to, from),
        AggregateInstr::ArrayInitData { ty, segment } => array_init_data(operands, scope, ty, segment),
        AggregateInstr::ArrayInitElem { ty, segment } => array_init_elem(operands, scope, ty, segment),
        AggregateInstr::RefI31 => make_i31(operands, scope, false),
        AggregateInstr::RefI31Shared => make_i31(operands, scope, true),
        AggregateInstr::I31GetS => read_either(operands, scope, AbstractHeapType::I31),
        AggregateInstr::I31GetU => read_either(operands, scope, AbstractHeapType::I31),
        AggregateInstr::AnyConvertExtern => any_convert_extern(operands, scope),
        AggregateInstr::ExternConvertAny => extern_convert_any(operands, scope),
    }
}
