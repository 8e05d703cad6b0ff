use crate::edit::Edit;
use crate::facts::Facts;
use crate::rotation::{MOST_LOOKED_AT, rotated};
use smith_bytes::Unstructured;
use smith_instr::{AggregateInstr, Extension, Instr};
use smith_types::{CompositeInnerType, FieldType};

// Returns whether the field at `index` is there and immutable.
fn is_immutable(fields: &[FieldType], index: usize) -> bool {
    match fields.get(index) {
        Some(field) => !field.mutable,
        None => false,
    }
}

// Returns an immutable field from `start` on, round the end.
fn find_immutable(fields: &[FieldType], start: usize) -> Option<u32> {
    let count = fields.len();
    for step in 0..count.min(MOST_LOOKED_AT) {
        let index = rotated(start, step, count);
        if is_immutable(fields, index) {
            return u32::try_from(index).ok();
        }
    }
    None
}

// Returns whether the type at `index` is one of immutable arrays.
fn is_immutable_array(facts: &Facts<'_>, index: usize) -> bool {
    match facts.types.as_slice().get(index) {
        Some(ty) => match &ty.composite_type.inner {
            CompositeInnerType::Array(array) => !array.0.mutable,
            _ => false,
        },
        None => false,
    }
}

// Returns a type of immutable arrays from `start` on, round the end.
fn find_immutable_array(facts: &Facts<'_>, start: usize) -> Option<u32> {
    let count = facts.types.len();
    for step in 0..count.min(MOST_LOOKED_AT) {
        let index = rotated(start, step, count);
        if is_immutable_array(facts, index) {
            return u32::try_from(index).ok();
        }
    }
    None
}

/// Writes to an immutable field or array in place of a mutable one. `from` is where it is looked for.
pub(crate) fn write_immutable(
    facts: &Facts<'_>,
    instruction: &Instr,
    from: usize,
) -> Option<Edit<Instr>> {
    let Instr::Aggregate(op) = instruction else {
        return None;
    };
    let changed = match op {
        AggregateInstr::StructSet { ty, .. } => {
            let inner = &facts
                .types
                .as_slice()
                .get(*ty as usize)?
                .composite_type
                .inner;
            let CompositeInnerType::Struct(fields) = inner else {
                return None;
            };
            AggregateInstr::StructSet {
                ty: *ty,
                field: find_immutable(fields.fields.as_slice(), from)?,
            }
        }
        AggregateInstr::ArraySet(_) => AggregateInstr::ArraySet(find_immutable_array(facts, from)?),
        AggregateInstr::ArrayFill(_) => AggregateInstr::ArrayFill(find_immutable_array(
            facts, from,
        )?),
        AggregateInstr::ArrayCopy { from: source, .. } => AggregateInstr::ArrayCopy {
            to: find_immutable_array(facts, from)?,
            from: *source,
        },
        _ => return None,
    };
    Some(Edit::Replace(Instr::Aggregate(changed)))
}

// Returns an extension where there is none, and else none.
fn other_extension(own: Extension, u: &mut Unstructured<'_>) -> Extension {
    match own {
        Extension::Unpacked => {
            if u.arbitrary::<bool>() {
                Extension::Signed
            } else {
                Extension::Unsigned
            }
        }
        Extension::Signed | Extension::Unsigned => Extension::Unpacked,
    }
}

/// Extends a field that isn't packed, or reads one that is without an extension.
pub(crate) fn change_extension(
    instruction: &Instr,
    u: &mut Unstructured<'_>,
) -> Option<Edit<Instr>> {
    let changed = match instruction {
        Instr::Aggregate(
            AggregateInstr::StructGet {
                ty,
                field,
                extension,
            },
        ) => AggregateInstr::StructGet {
            ty: *ty,
            field: *field,
            extension: other_extension(*extension, u),
        },
        Instr::Aggregate(AggregateInstr::ArrayGet { ty, extension }) => AggregateInstr::ArrayGet {
            ty: *ty,
            extension: other_extension(*extension, u),
        },
        _ => return None,
    };
    Some(Edit::Replace(Instr::Aggregate(changed)))
}
