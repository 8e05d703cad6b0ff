use crate::edit::Edit;
use smith_bytes::Unstructured;
use smith_instr::{FloatUnary, Instr, IntUnary, NumericInstr, ReferenceInstr};
use smith_types::ValType;

/// Draws a number type.
pub(crate) fn draw_number_type(u: &mut Unstructured<'_>) -> ValType {
    match u.int_in_range(0u8..=3) {
        0 => ValType::I32,
        1 => ValType::I64,
        2 => ValType::F32,
        _ => ValType::F64,
    }
}

/// Draws a number type other than `own`.
pub(crate) fn other_number_type(own: ValType, u: &mut Unstructured<'_>) -> ValType {
    let drawn = draw_number_type(u);
    if drawn != own {
        return drawn;
    }
    match own {
        ValType::I32 => ValType::I64,
        _ => ValType::I32,
    }
}

/// Draws a constant of the type `ty`. One of references is null.
pub(crate) fn draw_constant(ty: ValType, u: &mut Unstructured<'_>) -> Instr {
    match ty {
        ValType::I32 => Instr::I32Const(u.arbitrary()),
        ValType::I64 => Instr::I64Const(u.arbitrary()),
        ValType::F32 => Instr::F32Const(u.arbitrary()),
        ValType::F64 => Instr::F64Const(u.arbitrary()),
        ValType::V128 => Instr::V128Const(u.arbitrary()),
        ValType::Ref(ty) => Instr::Reference(ReferenceInstr::Null(ty.heap_type)),
    }
}

/// Draws a constant of a number type.
pub(crate) fn draw_number(u: &mut Unstructured<'_>) -> Instr {
    let ty = draw_number_type(u);
    draw_constant(ty, u)
}

/// Returns the type of the constant `instruction`, if it is one of a number or a vector.
pub(crate) fn constant_type(instruction: &Instr) -> Option<ValType> {
    match instruction {
        Instr::I32Const(_) => Some(ValType::I32),
        Instr::I64Const(_) => Some(ValType::I64),
        Instr::F32Const(_) => Some(ValType::F32),
        Instr::F64Const(_) => Some(ValType::F64),
        Instr::V128Const(_) => Some(ValType::V128),
        _ => None,
    }
}

/// Draws an operator on one number.
pub(crate) fn draw_operator(u: &mut Unstructured<'_>) -> NumericInstr {
    match u.int_in_range(0u8..=3) {
        0 => NumericInstr::I32Unary(IntUnary::Clz),
        1 => NumericInstr::I64Unary(IntUnary::Popcnt),
        2 => NumericInstr::F32Unary(FloatUnary::Neg),
        _ => NumericInstr::F64Unary(FloatUnary::Sqrt),
    }
}

// Returns the operator `op` of numbers of the other size, or draws one, if there is none.
fn other_operator(op: NumericInstr, u: &mut Unstructured<'_>) -> NumericInstr {
    match op {
        NumericInstr::I32Unary(op) => NumericInstr::I64Unary(op),
        NumericInstr::I64Unary(op) => NumericInstr::I32Unary(op),
        NumericInstr::F32Unary(op) => NumericInstr::F64Unary(op),
        NumericInstr::F64Unary(op) => NumericInstr::F32Unary(op),
        NumericInstr::I32Binary(op) => NumericInstr::I64Binary(op),
        NumericInstr::I64Binary(op) => NumericInstr::I32Binary(op),
        NumericInstr::F32Binary(op) => NumericInstr::F64Binary(op),
        NumericInstr::F64Binary(op) => NumericInstr::F32Binary(op),
        NumericInstr::I32Eqz => NumericInstr::I64Eqz,
        NumericInstr::I64Eqz => NumericInstr::I32Eqz,
        NumericInstr::I32Compare(op) => NumericInstr::I64Compare(op),
        NumericInstr::I64Compare(op) => NumericInstr::I32Compare(op),
        NumericInstr::F32Compare(op) => NumericInstr::F64Compare(op),
        NumericInstr::F64Compare(op) => NumericInstr::F32Compare(op),
        NumericInstr::Convert(_) | NumericInstr::Saturate(_) => draw_operator(u),
        NumericInstr::Extend(_) | NumericInstr::Wide(_) => draw_operator(u),
    }
}

/// Draws another type for the constant or the number that `instruction` produces.
pub(crate) fn change_type(instruction: &Instr, u: &mut Unstructured<'_>) -> Option<Edit<Instr>> {
    if let Some(own) = constant_type(instruction) {
        let ty = other_number_type(own, u);
        return Some(Edit::Replace(draw_constant(ty, u)));
    }
    match instruction {
        Instr::LocalGet(_) => Some(Edit::Replace(draw_number(u))),
        Instr::Numeric(op) => Some(Edit::Replace(Instr::Numeric(other_operator(*op, u)))),
        _ => None,
    }
}

/// Returns whether `instruction` begins, divides or ends a block.
pub(crate) fn is_structure(instruction: &Instr) -> bool {
    match instruction {
        Instr::Block(_) | Instr::Loop(_) | Instr::If(_) | Instr::TryTable(_, _) => true,
        Instr::Else | Instr::End => true,
        _ => false,
    }
}

/// Removes `instruction`, unless that breaks the nesting of blocks or does nothing.
pub(crate) fn leave_out(instruction: &Instr) -> Option<Edit<Instr>> {
    match instruction {
        Instr::Nop | Instr::AtomicFence => None,
        _ if is_structure(instruction) => None,
        _ => Some(Edit::Remove),
    }
}
