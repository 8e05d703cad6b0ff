ghost use Rattle.std.specs.Prelude.{◌≡◌, IfErr};

use crate::edit::Edit;
use crate::facts::Facts;
use crate::operands::{draw_number, draw_number_type, draw_operator, other_number_type};
use crate::references::draw_heap_type;
use crate::rotation::{MOST_LOOKED_AT, rotated};
use smith_bytes::{Error, Unstructured};
use smith_instr::{BlockType, Instr, ReferenceInstr};
use smith_types::ValType;
use std::alloc::Global;

// Draws another type of a block: with a result where it has none, or with another one or none.
fn other_block_type(own: BlockType, u: &mut Unstructured<'_>) -> BlockType {
    match own {
        BlockType::Empty => BlockType::Value(draw_number_type(u)),
        BlockType::Value(ty) => {
            if u.arbitrary::<bool>() {
                BlockType::Empty
            } else {
                BlockType::Value(other_number_type(ty, u))
            }
        }
        BlockType::Func(_) => {
            if u.arbitrary::<bool>() {
                BlockType::Empty
            } else {
                BlockType::Value(draw_number_type(u))
            }
        }
    }
}

/// Draws another type of a block.
pub(crate) fn change_block(
    alloc: Global,
    instruction: &Instr,
    u: &mut Unstructured<'_>,
) -> Result<Option<Edit<Instr>>, Error>
    ensures memory { IfErr result (λ e. e ≡ Error.Memory) }
{
    let changed = match instruction {
        Instr::Block(own) => Instr::Block(other_block_type(*own, u)),
        Instr::Loop(own) => Instr::Loop(other_block_type(*own, u)),
        Instr::If(own) => Instr::If(other_block_type(*own, u)),
        Instr::TryTable(own, catches) => {
            Instr::TryTable(other_block_type(*own, u), catches.copy_in(alloc)?)
        }
        _ => return Ok(None),
    };
    Ok(Some(Edit::Replace(changed)))
}

// Returns the results of the function at `index`, if there is one.
fn results_of<'a>(facts: &Facts<'a>, index: usize) -> Option<&'a [ValType]> {
    let ty = *facts.spaces.funcs.as_slice().get(index)?;
    Some(facts.function_type(ty)?.results.as_slice())
}

// Returns whether there is a function at `index` and its results are others than `results`.
fn has_other_results(facts: &Facts<'_>, index: usize, results: &[ValType]) -> bool {
    match results_of(facts, index) {
        Some(others) => others != results,
        None => false,
    }
}

// Returns a function with other results than the function `own`, from `start` on, round the end.
fn find_other_results(facts: &Facts<'_>, own: u32, start: usize) -> Option<u32> {
    let results = results_of(facts, own as usize)?;
    let count = facts.spaces.funcs.len();
    for step in 0..count.min(MOST_LOOKED_AT) {
        let index = rotated(start, step, count);
        if has_other_results(facts, index, results) {
            return u32::try_from(index).ok();
        }
    }
    None
}

/// Makes a call a tail call, or a tail call one of a function with other results. `from` is where that is
/// looked for.
pub(crate) fn call_last(
    facts: &Facts<'_>,
    instruction: &Instr,
    from: usize,
) -> Option<Edit<Instr>> {
    let changed = match instruction {
        Instr::ReturnCall(own) => Instr::ReturnCall(find_other_results(facts, *own, from)?),
        Instr::Call(function) => Instr::ReturnCall(*function),
        Instr::CallIndirect { table, ty } => Instr::ReturnCallIndirect {
            table: *table,
            ty: *ty,
        },
        Instr::CallRef(ty) => Instr::ReturnCallRef(*ty),
        _ => return None,
    };
    Some(Edit::Replace(changed))
}

// Returns whether the code after `instruction` is dead.
fn leaves(instruction: &Instr) -> bool {
    match instruction {
        Instr::Unreachable | Instr::Return | Instr::Br(_) | Instr::BrTable(_, _) => true,
        Instr::Throw(_) | Instr::ThrowRef | Instr::ReturnCall(_) => true,
        Instr::ReturnCallIndirect { .. } | Instr::ReturnCallRef(_) => true,
        _ => false,
    }
}

// Draws a number, an operator on one, or a null reference.
fn draw_value(u: &mut Unstructured<'_>) -> Instr {
    match u.int_in_range(0u8..=3) {
        0 => Instr::Numeric(draw_operator(u)),
        1 => Instr::Reference(ReferenceInstr::Null(draw_heap_type(u))),
        _ => draw_number(u),
    }
}

/// Draws an instruction with a value for the dead code after `instruction`, if that leaves.
pub(crate) fn enter_dead_code(
    instruction: &Instr,
    u: &mut Unstructured<'_>,
) -> Option<Edit<Instr>> {
    if !leaves(instruction) {
        return None;
    }
    Some(Edit::Insert(draw_value(u)))
}
