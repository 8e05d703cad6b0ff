ghost use Rattle.std.specs.Prelude.{◌≡◌, IfErr};

use crate::operands::{nullable, nullable_to, push_values};
use smith_bytes::Error;
use smith_check_operands::Scope;
use smith_check_rules::Slot;
use smith_instr::AggregateInstr;
use smith_types::{
    AbstractHeapType, CompositeInnerType, FieldType, HeapType, SubType, ValType, unpack,
};

// The most elements of `array.new_fixed` whose types are listed.
const LISTED: u32 = 1000;

fn fields_at<'a>(types: &'a [SubType], index: u32) -> &'a [FieldType] {
    match types.get(index as usize) {
        Some(ty) => match &ty.composite_type.inner {
            CompositeInnerType::Struct(structure) => structure.fields.as_slice(),
            _ => &[],
        },
        None => &[],
    }
}

// Returns the type of the values of a field of a struct type, or that of any number if there is none.
fn field_at(scope: &Scope, ty: u32, field: u32) -> ValType {
    match fields_at(scope.types.types(), ty).get(field as usize) {
        Some(field) => unpack(field.element_type),
        None => ValType::I32,
    }
}

// Returns the type of the elements of an array type, or that of any number if there is none.
fn element_at(scope: &Scope, ty: u32) -> ValType {
    match scope.types.types().get(ty as usize) {
        Some(ty) => match &ty.composite_type.inner {
            CompositeInnerType::Array(array) => unpack(array.0.element_type),
            _ => ValType::I32,
        },
        None => ValType::I32,
    }
}

fn push_fields(slots: &mut Vec<Slot>, fields: &[FieldType]) -> Result<(), Error>
    ensures memory { IfErr result (λ e. e ≡ Error.Memory) }
{
    for field in fields {
        push_values(slots, &[unpack(field.element_type)])?;
    }
    Ok(())
}

fn push_copies(slots: &mut Vec<Slot>, value: ValType, count: u32) -> Result<(), Error>
    ensures memory { IfErr result (λ e. e ≡ Error.Memory) }
{
    if count > LISTED {
        return Ok(());
    }
    for _ in 0..count {
        push_values(slots, &[value])?;
    }
    Ok(())
}

// Appends the operands of an instruction that creates a struct or an array.
#[rattlefmt::skip]
fn push_created(slots: &mut Vec<Slot>, scope: &Scope, op: AggregateInstr) -> Result<(), Error>
    ensures memory { IfErr result (λ e. e ≡ Error.Memory) }
{
    match op {
        AggregateInstr::StructNew(ty) => push_fields(slots, fields_at(scope.types.types(), ty)),
        AggregateInstr::ArrayNew(ty) => push_values(slots, &[element_at(scope, ty), ValType::I32]),
        AggregateInstr::ArrayNewDefault(_) => push_values(slots, &[ValType::I32]),
        AggregateInstr::ArrayNewFixed { ty, size } => push_copies(slots, element_at(scope, ty), size),
        AggregateInstr::ArrayNewData { .. } | AggregateInstr::ArrayNewElem { .. } => push_values(slots, &[ValType::I32, ValType::I32]),
        _ => Ok(()),
    }
}

// Appends the operands of an instruction on an array that there is.
#[rattlefmt::skip]
fn push_array(slots: &mut Vec<Slot>, scope: &Scope, op: AggregateInstr) -> Result<(), Error>
    ensures memory { IfErr result (λ e. e ≡ Error.Memory) }
{
    match op {
        AggregateInstr::ArrayGet { ty, .. } => push_values(slots, &[nullable(HeapType::Concrete(ty)), ValType::I32]),
        AggregateInstr::ArraySet(ty) => push_values(slots, &[nullable(HeapType::Concrete(ty)), ValType::I32, element_at(scope, ty)]),
        AggregateInstr::ArrayLen => push_values(slots, &[nullable_to(AbstractHeapType::Array)]),
        AggregateInstr::ArrayFill(ty) =>
            push_values(slots, &[nullable(HeapType::Concrete(ty)), ValType::I32, element_at(scope, ty), ValType::I32]),
        AggregateInstr::ArrayCopy { to, from } => push_values(
            slots,
            &[nullable(HeapType::Concrete(to)), ValType::I32, nullable(HeapType::Concrete(from)), ValType::I32, ValType::I32],
        ),
        AggregateInstr::ArrayInitData { ty, .. } | AggregateInstr::ArrayInitElem { ty, .. } => {
            let array = nullable(HeapType::Concrete(ty));
            push_values(slots, &[array, ValType::I32, ValType::I32, ValType::I32])
        }
        _ => Ok(()),
    }
}

/// Appends the operands of an aggregate instruction.
#[rattlefmt::skip]
pub fn push_aggregate(slots: &mut Vec<Slot>, scope: &Scope, op: AggregateInstr) -> Result<(), Error>
    ensures memory { IfErr result (λ e. e ≡ Error.Memory) }
{
    match op {
        AggregateInstr::StructGet { ty, .. } => push_values(slots, &[nullable(HeapType::Concrete(ty))]),
        AggregateInstr::StructSet { ty, field } => push_values(slots, &[nullable(HeapType::Concrete(ty)), field_at(scope, ty, field)]),
        AggregateInstr::RefI31 | AggregateInstr::RefI31Shared => push_values(slots, &[ValType::I32]),
        AggregateInstr::I31GetS | AggregateInstr::I31GetU => push_values(slots, &[nullable_to(AbstractHeapType::I31)]),
        AggregateInstr::AnyConvertExtern => push_values(slots, &[nullable_to(AbstractHeapType::Extern)]),
        AggregateInstr::ExternConvertAny => push_values(slots, &[nullable_to(AbstractHeapType::Any)]),
        AggregateInstr::StructNew(_)
        | AggregateInstr::ArrayNew(_)
        | AggregateInstr::ArrayNewDefault(_)
        | AggregateInstr::ArrayNewFixed { .. }
        | AggregateInstr::ArrayNewData { .. }
        | AggregateInstr::ArrayNewElem { .. } => push_created(slots, scope, op),
        _ => push_array(slots, scope, op),
    }
}
