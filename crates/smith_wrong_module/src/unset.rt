ghost use Rattle.std.specs.Prelude.{◌≡◌, IfErr};

use crate::change::Change;
use crate::facts::Facts;
use crate::rotation::rotated;
use smith_bytes::{Error, Unstructured};
use smith_decode::{LocalRun, Module};
use smith_instr::Instr;
use smith_types::{AbstractHeapType, HeapType, RefType, ValType};
use std::alloc::Global;

// Returns whether one of `instructions` reads a local from `start` on and before `end`.
fn reads(instructions: &[Instr], start: u64, end: u64) -> bool {
    for instruction in instructions {
        if let Instr::LocalGet(index) = instruction {
            let index = u64::from(*index);
            if start <= index && index < end {
                return true;
            }
        }
    }
    false
}

// Returns the index of the first local of the run at `run`, after so many parameters.
fn first_local(params: usize, runs: &[LocalRun], run: usize) -> u64 {
    let mut count = params as u64;
    for before in runs.iter().take(run) {
        count = count.saturating_add(u64::from(before.count));
    }
    count
}

// Returns a type without a default value: the references of `ty` that aren't null, or some of functions.
fn without_default(ty: ValType) -> ValType {
    let heap_type = match ty {
        ValType::Ref(reference) => reference.heap_type,
        _ => HeapType::Abstract {
            shared: false,
            ty: AbstractHeapType::Func,
        },
    };
    ValType::Ref(RefType {
        nullable: false,
        heap_type,
    })
}

// Gives a run of locals of the body at `index` a type without a default value, if one of them is read.
fn unset_in(facts: &Facts<'_>, module: &Module, index: usize, from: usize) -> Option<Change> {
    let body = module.bodies.as_slice().get(index)?;
    let runs = body.locals.as_slice();
    if runs.is_empty() {
        return None;
    }
    let ty = facts.function_type(*module.functions.as_slice().get(index)?)?;
    let run = rotated(from, 0, runs.len());
    let old = runs[run];
    let start = first_local(ty.params.len(), runs, run);
    let end = start.saturating_add(u64::from(old.count));
    if !reads(body.instructions.as_slice(), start, end) {
        return None;
    }
    Some(Change::Locals {
        body: index,
        run,
        locals: LocalRun {
            count: old.count,
            ty: without_default(old.ty),
        },
    })
}

/// Gives locals of a body that are read a type without a default value.
pub(crate) fn unset_locals(
    alloc: Global,
    module: &Module,
    u: &mut Unstructured<'_>,
) -> Result<Option<Change>, Error>
    ensures memory { IfErr result (λ e. e ≡ Error.Memory) }
{
    let facts = Facts::new(alloc, module)?;
    let from = usize::from(u.arbitrary::<u16>());
    let count = module.bodies.len();
    for step in 0..count {
        let index = rotated(from, step, count);
        if let Some(change) = unset_in(&facts, module, index, from) {
            return Ok(Some(change));
        }
    }
    Ok(None)
}
