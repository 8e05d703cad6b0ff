ghost use Rattle.std.specs.Prelude.{◌≡◌, ◌++◌, IfErr, OnOk};
ghost use Rattle.smith_check_rules.specs.Slots.{values};

use crate::accesses::push_access;
use crate::aggregates::push_aggregate;
use smith_bytes::Error;
use smith_check_operands::lookups::{
    address_type, func_at, global_at, label, type_index_at, value_at,
};
use smith_check_operands::{Frame, Scope, Shape};
use smith_check_rules::Slot;
use smith_instr::{Instr, ReferenceInstr};
use smith_types::{AbstractHeapType, HeapType, RefType, ValType};

/// Appends these types.
pub fn push_values(slots: &mut Vec<Slot>, types: &[ValType]) -> Result<(), Error>
    ensures ok { OnOk result (slots.new.items ≡ slots.old.items ++ values types.now) }
    ensures memory { IfErr result (λ e. e ≡ Error.Memory) }
{
    for ty in types {
        slots.push(Slot::Value(*ty))?;
    }
    Ok(())
}

/// Returns the type of nullable references to `heap_type`.
pub fn nullable(heap_type: HeapType) -> ValType {
    ValType::Ref(RefType {
        nullable: true,
        heap_type,
    })
}

/// Returns the type of nullable references to an unshared abstract heap type.
pub fn nullable_to(ty: AbstractHeapType) -> ValType {
    nullable(HeapType::Abstract { shared: false, ty })
}

// Returns the type of the indices of a table.
pub fn index_type(scope: &Scope, table: u32) -> ValType {
    match scope.tables.get(table as usize) {
        Some(ty) => address_type(ty.table64),
        None => ValType::I32,
    }
}

// Appends the parameters of the function type at `ty`, if there is one.
fn push_params(slots: &mut Vec<Slot>, scope: &Scope, ty: u32) -> Result<(), Error>
    ensures memory { IfErr result (λ e. e ≡ Error.Memory) }
{
    match func_at(scope.types.types(), ty) {
        Some(function) => push_values(slots, &function.params),
        None => Ok(()),
    }
}

// Appends the parameters of the item whose type is at `index` of `types`, if there is one.
fn push_params_of(
    slots: &mut Vec<Slot>,
    scope: &Scope,
    types: &[u32],
    index: u32,
) -> Result<(), Error>
    ensures memory { IfErr result (λ e. e ≡ Error.Memory) }
{
    match type_index_at(types, index) {
        Some(ty) => push_params(slots, scope, ty),
        None => Ok(()),
    }
}

// Appends the operands of a call, a throw or a return.
fn push_call(slots: &mut Vec<Slot>, scope: &Scope, instr: &Instr) -> Result<(), Error>
    ensures memory { IfErr result (λ e. e ≡ Error.Memory) }
{
    match instr {
        Instr::Throw(tag) => push_params_of(slots, scope, scope.tags, *tag),
        Instr::ThrowRef => push_values(slots, &[nullable_to(AbstractHeapType::Exn)]),
        Instr::Return => push_values(slots, scope.results),
        Instr::Call(index) | Instr::ReturnCall(index) => {
            push_params_of(slots, scope, scope.funcs, *index)
        }
        Instr::CallIndirect { table, ty } | Instr::ReturnCallIndirect { table, ty } => {
            push_params(slots, scope, *ty)?;
            push_values(slots, &[index_type(scope, *table)])
        }
        Instr::CallRef(ty) | Instr::ReturnCallRef(ty) => {
            push_params(slots, scope, *ty)?;
            push_values(slots, &[nullable(HeapType::Concrete(*ty))])
        }
        _ => Ok(()),
    }
}

// Appends the operands of a branch to a label, but for the last of them if it is a reference in place of
// which the branch takes others.
fn push_label(
    slots: &mut Vec<Slot>,
    shape: &Shape,
    outers: &[Frame],
    index: u32,
    replaced: bool,
) -> Result<(), Error>
    ensures memory { IfErr result (λ e. e ≡ Error.Memory) }
{
    let types = label(shape, outers, index).unwrap_or(&[]);
    match types.split_last() {
        Some((_, before)) => push_values(slots, if replaced { before } else { types }),
        None => Ok(()),
    }
}

// Appends the operands of a branch.
fn push_branch(
    slots: &mut Vec<Slot>,
    shape: &Shape,
    outers: &[Frame],
    instr: &Instr,
) -> Result<(), Error>
    ensures memory { IfErr result (λ e. e ≡ Error.Memory) }
{
    match instr {
        Instr::Br(index) => push_label(slots, shape, outers, *index, false),
        Instr::BrIf(index) | Instr::BrTable(_, index) => {
            push_label(slots, shape, outers, *index, false)?;
            push_values(slots, &[ValType::I32])
        }
        Instr::BrOnNull(index) => {
            push_label(slots, shape, outers, *index, false)?;
            Ok(slots.push(Slot::SomeRef)?)
        }
        Instr::BrOnNonNull(index) => {
            push_label(slots, shape, outers, *index, true)?;
            Ok(slots.push(Slot::SomeRef)?)
        }
        Instr::BrOnCast(cast) | Instr::BrOnCastFail(cast) => {
            push_label(slots, shape, outers, cast.label, true)?;
            push_values(slots, &[ValType::Ref(cast.from)])
        }
        _ => Ok(()),
    }
}

// Appends the operands of a reference instruction.
fn push_reference(slots: &mut Vec<Slot>, op: ReferenceInstr) -> Result<(), Error>
    ensures memory { IfErr result (λ e. e ≡ Error.Memory) }
{
    match op {
        ReferenceInstr::Null(_) | ReferenceInstr::Func(_) => Ok(()),
        ReferenceInstr::IsNull | ReferenceInstr::AsNonNull => Ok(slots.push(Slot::SomeRef)?),
        ReferenceInstr::Test(_) | ReferenceInstr::Cast(_) => Ok(slots.push(Slot::SomeRef)?),
        ReferenceInstr::Eq => {
            let one = nullable_to(AbstractHeapType::Eq);
            push_values(slots, &[one, one])
        }
    }
}

// Appends the operands of an instruction on a variable, of `drop`, and of `select` with a type. Those of the
// other `select` depend on the stack.
fn push_simple(slots: &mut Vec<Slot>, scope: &Scope, instr: &Instr) -> Result<(), Error>
    ensures memory { IfErr result (λ e. e ≡ Error.Memory) }
{
    match instr {
        Instr::Drop => Ok(slots.push(Slot::Bottom)?),
        Instr::SelectTyped(types) => {
            push_values(slots, types.as_slice())?;
            push_values(slots, types.as_slice())?;
            push_values(slots, &[ValType::I32])
        }
        Instr::LocalSet(index) | Instr::LocalTee(index) => match value_at(scope.locals, *index) {
            Some(value) => push_values(slots, &[value]),
            None => Ok(()),
        },
        Instr::GlobalSet(index) => match global_at(scope.globals, *index) {
            Some(global) => push_values(slots, &[global.val_type]),
            None => Ok(()),
        },
        _ => Ok(()),
    }
}

/// Appends the types of the operands of an instruction that opens and closes no block, the last on top,
/// as far as they are known. No clause states the types: a caller tries whether the instruction takes them.
#[rattlefmt::skip]
pub fn push_operands(
    slots: &mut Vec<Slot>,
    scope: &Scope,
    shape: &Shape,
    outers: &[Frame],
    instr: &Instr,
) -> Result<(), Error>
    ensures memory { IfErr result (λ e. e ≡ Error.Memory) }
{
    match instr {
        Instr::Br(_) | Instr::BrIf(_) | Instr::BrTable(_, _) | Instr::BrOnNull(_) | Instr::BrOnNonNull(_) | Instr::BrOnCast(_)
        | Instr::BrOnCastFail(_) => push_branch(slots, shape, outers, instr),
        Instr::Throw(_) | Instr::ThrowRef | Instr::Return | Instr::Call(_) | Instr::CallIndirect { .. } | Instr::CallRef(_)
        | Instr::ReturnCall(_) | Instr::ReturnCallIndirect { .. } | Instr::ReturnCallRef(_) => push_call(slots, scope, instr),
        Instr::Numeric(op) => push_values(slots, op.operands()),
        Instr::Reference(op) => push_reference(slots, *op),
        Instr::Aggregate(op) => push_aggregate(slots, scope, *op),
        Instr::Drop | Instr::SelectTyped(_) | Instr::LocalSet(_) | Instr::LocalTee(_)
        | Instr::GlobalSet(_) => push_simple(slots, scope, instr),
        _ => push_access(slots, scope, instr),
    }
}
