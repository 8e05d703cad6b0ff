ghost use Rattle.std.specs.Prelude.{◌≡◌, ◌↔◌, ℕ, List, IfOk, IfErr, IsTrue, MatchBool, All};
ghost use Rattle.smith_types.specs.Syntax.value_type.ValType.{ValType};
ghost use Rattle.smith_types.specs.Expressions.{field_values};
ghost use Rattle.smith_types.specs.Matching.{IsFieldInRange};
ghost use Rattle.smith_types.specs.Syntax.value_type.HeapType.TheVariants.{Concrete};
ghost use Rattle.smith_instr.specs.Contexts.{nullable_to};
ghost use Rattle.smith_instr.specs.declared.instr.Instr.TheVariants as instr;
ghost use Rattle.smith_instr.specs.declared.aggregate.AggregateInstr.TheVariants as aggregate;
ghost use Rattle.smith_check_rules.specs.Slots.{AreSlotsValid, values};
ghost use Rattle.smith_check_operands.specs.Applies.{IsTried};
ghost use Rattle.smith_check_operands.specs.Covers.{held, Pops, PopsNothing};
ghost use Rattle.smith_check_operands.specs.Fits.{AreFit, IsSlotInRange};
ghost use Rattle.smith_check_operands.specs.Scopes.{bare, IsScope};

use crate::lookups::{field_at, fields_at, is_read_by, mutable_field_at};
use crate::offers::{create, push_created};
use smith_bytes::Error;
use smith_check_operands::below::slot_fits;
use smith_check_operands::{Operands, Scope};
use smith_check_rules::Slot;
use smith_instr::Extension;
use smith_types::{FieldType, HeapType, RefType, TypeSpace, ValType, are_defaultable, unpack};

/// Returns the type of nullable references to the type at an index.
pub fn nullable_at(ty: u32) -> ValType
    ensures { result ≡ nullable_to (Concrete ty) }
{
    ValType::Ref(RefType {
        nullable: true,
        heap_type: HeapType::Concrete(ty),
    })
}

/// Returns whether there are as many slots as fields, and each of `slots` may be written to the
/// field at its place. Requires the types that both refer to to exist.
fn fields_fit(types: &TypeSpace, slots: &[Slot], fields: &[FieldType]) -> bool
    requires lower { All (IsSlotInRange types.now.types) slots.now }
    requires upper { All (IsFieldInRange types.now.types) fields.now }
    ensures { IsTrue result ↔ AreFit types.now.types slots.now (field_values fields.now) }
{
    if slots.len() != fields.len() {
        return false;
    }
    for i in 0..slots.len() {
        if !slot_fits(types, slots[i], unpack(fields[i].element_type)) {
            return false;
        }
    }
    true
}

/// Takes values that may be written to `fields` off the stack, and returns whether they are there.
fn pop_fields(operands: &mut Operands, scope: &Scope, fields: &[FieldType]) -> bool
    requires known { AreSlotsValid (bare scope.now) operands.old.known.items }
    requires expected { All (IsFieldInRange scope.now.types.now.types) fields.now }
    ensures { MatchBool result
        (Pops (bare scope.now) (values (field_values fields.now)) (held operands.old) (held operands.new))
        (PopsNothing (bare scope.now) (values (field_values fields.now)) (held operands.old)) }
{
    let known = operands.known.len();
    let wanted = fields.len();
    if wanted <= known {
        let base = known - wanted;
        if !fields_fit(scope.types, &operands.known[base..], fields) {
            return false;
        }
        operands.known.truncate(base);
        return true;
    }
    if !operands.dead {
        return false;
    }
    if !fields_fit(scope.types, &operands.known, &fields[wanted - known..]) {
        return false;
    }
    operands.known.clear();
    true
}

/// Tries `struct.new`.
pub fn struct_new(operands: &mut Operands, scope: &Scope, ty: u32) -> Result<bool, Error>
    requires known { AreSlotsValid (bare scope.now) operands.old.known.items }
    requires scope { IsScope (bare scope.now) }
    ensures ok { (labels : List (List ValType)) (set : List ℕ) → IfOk result
        (λ there. IsTried (bare scope.now) labels (instr.Aggregate (aggregate.StructNew ty)) set
        there (held operands.old) (held operands.new)) }
    ensures memory { IfErr result (λ e. e ≡ Error.Memory) }
{
    let Some(fields) = fields_at(scope.types, ty) else {
        return Ok(false);
    };
    if !pop_fields(operands, scope, fields) {
        return Ok(false);
    }
    push_created(operands, scope, ty)
}

/// Tries `struct.new_default`.
pub fn struct_new_default(operands: &mut Operands, scope: &Scope, ty: u32) -> Result<bool, Error>
    requires known { AreSlotsValid (bare scope.now) operands.old.known.items }
    requires scope { IsScope (bare scope.now) }
    ensures ok { (labels : List (List ValType)) (set : List ℕ) → IfOk result
        (λ there. IsTried (bare scope.now) labels (instr.Aggregate (aggregate.StructNewDefault ty))
        set there (held operands.old) (held operands.new)) }
    ensures memory { IfErr result (λ e. e ≡ Error.Memory) }
{
    let Some(fields) = fields_at(scope.types, ty) else {
        return Ok(false);
    };
    if !are_defaultable(fields) {
        return Ok(false);
    }
    create(operands, scope, &[], ty)
}

/// Tries `struct.get`.
pub fn struct_get(
    operands: &mut Operands,
    scope: &Scope,
    ty: u32,
    index: u32,
    extension: Extension,
) -> Result<bool, Error>
    requires known { AreSlotsValid (bare scope.now) operands.old.known.items }
    requires scope { IsScope (bare scope.now) }
    ensures ok { (labels : List (List ValType)) (set : List ℕ) → IfOk result
        (λ there. IsTried (bare scope.now) labels
        (instr.Aggregate (aggregate.StructGet ty index extension)) set there
        (held operands.old) (held operands.new)) }
    ensures memory { IfErr result (λ e. e ≡ Error.Memory) }
{
    let Some(field) = field_at(scope, ty, index) else {
        return Ok(false);
    };
    if !is_read_by(extension, field.element_type) {
        return Ok(false);
    }
    let value = unpack(field.element_type);
    operands.apply(scope, &[nullable_at(ty)], &[value])
}

/// Tries `struct.set`.
pub fn struct_set(
    operands: &mut Operands,
    scope: &Scope,
    ty: u32,
    index: u32,
) -> Result<bool, Error>
    requires known { AreSlotsValid (bare scope.now) operands.old.known.items }
    requires scope { IsScope (bare scope.now) }
    ensures ok { (labels : List (List ValType)) (set : List ℕ) → IfOk result
        (λ there. IsTried (bare scope.now) labels (instr.Aggregate (aggregate.StructSet ty index))
        set there (held operands.old) (held operands.new)) }
    ensures memory { IfErr result (λ e. e ≡ Error.Memory) }
{
    let Some(field) = mutable_field_at(scope, ty, index) else {
        return Ok(false);
    };
    let value = unpack(field.element_type);
    operands.apply(scope, &[nullable_at(ty), value], &[])
}
