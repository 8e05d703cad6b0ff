use crate::edit::Edit;
use smith_bytes::Unstructured;
use smith_instr::{BranchCast, Instr, ReferenceInstr};
use smith_types::{AbstractHeapType, HeapType, RefType};

// The abstract heap types.
const HEAP_TYPES: [AbstractHeapType; 12] = [
    AbstractHeapType::Func,
    AbstractHeapType::Extern,
    AbstractHeapType::Any,
    AbstractHeapType::Exn,
    AbstractHeapType::None,
    AbstractHeapType::NoExtern,
    AbstractHeapType::NoFunc,
    AbstractHeapType::NoExn,
    AbstractHeapType::Eq,
    AbstractHeapType::Struct,
    AbstractHeapType::Array,
    AbstractHeapType::I31,
];

/// Draws an abstract heap type.
pub(crate) fn draw_heap_type(u: &mut Unstructured<'_>) -> HeapType {
    HeapType::Abstract {
        shared: false,
        ty: HEAP_TYPES[u.int_in_range(0..=11usize)],
    }
}

// Draws the top type of a hierarchy other than the one of the abstract heap type `own`.
fn other_top(own: HeapType, u: &mut Unstructured<'_>) -> HeapType {
    let hierarchies = [
        AbstractHeapType::Func,
        AbstractHeapType::Extern,
        AbstractHeapType::Any,
        AbstractHeapType::Exn,
    ];
    let drawn = u.int_in_range(0..=3usize);
    let index = match own {
        HeapType::Abstract { shared: _, ty } if ty == hierarchies[drawn] => (drawn + 1) % 4,
        _ => drawn,
    };
    HeapType::Abstract {
        shared: false,
        ty: hierarchies[index],
    }
}

// Draws another heap type, or the other nullability.
fn other_reference(own: RefType, u: &mut Unstructured<'_>) -> RefType {
    let is_same_type: bool = u.arbitrary();
    if is_same_type {
        return RefType {
            nullable: !own.nullable,
            heap_type: own.heap_type,
        };
    }
    RefType {
        nullable: own.nullable,
        heap_type: draw_heap_type(u),
    }
}

/// Draws another heap type or nullability for a null reference, a test or a cast.
pub(crate) fn change_reference(
    instruction: &Instr,
    u: &mut Unstructured<'_>,
) -> Option<Edit<Instr>> {
    let changed = match instruction {
        Instr::Reference(ReferenceInstr::Null(_)) => {
            Instr::Reference(ReferenceInstr::Null(draw_heap_type(u)))
        }
        Instr::Reference(ReferenceInstr::Test(own)) => {
            Instr::Reference(ReferenceInstr::Test(other_reference(*own, u)))
        }
        Instr::Reference(ReferenceInstr::Cast(own)) => {
            Instr::Reference(ReferenceInstr::Cast(other_reference(*own, u)))
        }
        Instr::BrOnCast(own) => Instr::BrOnCast(other_source(*own, u)),
        Instr::BrOnCastFail(own) => Instr::BrOnCastFail(other_source(*own, u)),
        _ => return None,
    };
    Some(Edit::Replace(changed))
}

// Draws another type of the operand of a branch on a cast.
fn other_source(own: BranchCast, u: &mut Unstructured<'_>) -> BranchCast {
    BranchCast {
        label: own.label,
        from: other_reference(own.from, u),
        to: own.to,
    }
}

// Draws a target in another hierarchy for a branch on a cast.
fn other_target(own: BranchCast, u: &mut Unstructured<'_>) -> BranchCast {
    BranchCast {
        label: own.label,
        from: own.from,
        to: in_other_hierarchy(own.to, u),
    }
}

fn in_other_hierarchy(own: RefType, u: &mut Unstructured<'_>) -> RefType {
    RefType {
        nullable: own.nullable,
        heap_type: other_top(own.heap_type, u),
    }
}

/// Draws a type in another hierarchy for a test or a cast.
pub(crate) fn change_hierarchy(
    instruction: &Instr,
    u: &mut Unstructured<'_>,
) -> Option<Edit<Instr>> {
    let changed = match instruction {
        Instr::Reference(ReferenceInstr::Test(own)) => {
            Instr::Reference(ReferenceInstr::Test(in_other_hierarchy(*own, u)))
        }
        Instr::Reference(ReferenceInstr::Cast(own)) => {
            Instr::Reference(ReferenceInstr::Cast(in_other_hierarchy(*own, u)))
        }
        Instr::BrOnCast(own) => Instr::BrOnCast(other_target(*own, u)),
        Instr::BrOnCastFail(own) => Instr::BrOnCastFail(other_target(*own, u)),
        _ => return None,
    };
    Some(Edit::Replace(changed))
}
