use crate::change::Change;
use crate::edit::Edit;
use crate::facts::{Facts, Locals};
use crate::rotation::{MOST_LOOKED_AT, rotated};
use smith_bytes::Unstructured;
use smith_decode::Module;
use smith_instr::Instr;
use smith_types::GlobalType;

/// Drops the value that sets a local without a default value.
pub(crate) fn leave_unset(locals: Locals, instruction: &Instr) -> Option<Edit<Instr>> {
    let (index, changed) = match instruction {
        Instr::LocalSet(index) => (u64::from(*index), Edit::Replace(Instr::Drop)),
        Instr::LocalTee(index) => (u64::from(*index), Edit::Remove),
        _ => return None,
    };
    if locals.unset_start <= index && index < locals.unset_end {
        Some(changed)
    } else {
        None
    }
}

// Returns whether the global at `index` is immutable and of the same type as `own`.
fn fits(globals: &[GlobalType], index: usize, own: GlobalType) -> bool {
    match globals.get(index) {
        Some(global) => !global.mutable && global.val_type == own.val_type,
        None => false,
    }
}

// Returns an immutable global of the type `own` from `start` on, round the end.
fn find_immutable(globals: &[GlobalType], start: usize, own: GlobalType) -> Option<u32> {
    let count = globals.len();
    for step in 0..count.min(MOST_LOOKED_AT) {
        let index = rotated(start, step, count);
        if fits(globals, index, own) {
            return u32::try_from(index).ok();
        }
    }
    None
}

/// Sets an immutable global in place of one of the same type. `from` is where it is looked for.
pub(crate) fn set_immutable(
    facts: &Facts<'_>,
    instruction: &Instr,
    from: usize,
) -> Option<Edit<Instr>> {
    let Instr::GlobalSet(index) = instruction else {
        return None;
    };
    let globals = facts.spaces.globals.as_slice();
    let own = *globals.get(*index as usize)?;
    let immutable = find_immutable(globals, from, own)?;
    Some(Edit::Replace(Instr::GlobalSet(immutable)))
}

/// Makes the first mutable global of `module` immutable, from a drawn one on, round the end.
pub(crate) fn freeze_global(module: &Module, u: &mut Unstructured<'_>) -> Option<Change> {
    let globals = module.globals.as_slice();
    let from = usize::from(u.arbitrary::<u16>());
    for step in 0..globals.len() {
        let index = rotated(from, step, globals.len());
        let ty = globals[index].ty;
        if ty.mutable {
            let ty = GlobalType {
                val_type: ty.val_type,
                mutable: false,
                shared: ty.shared,
            };
            return Some(Change::Global { index, ty });
        }
    }
    None
}
