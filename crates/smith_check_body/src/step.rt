ghost use Rattle.std.specs.Prelude.{◌≡◌, ℕ, ℤ, List, ◌∷◌, IfOk, IfErr, All, reverse};
ghost use Rattle.smith_types.specs.Syntax.value_type.ValType.{ValType};
ghost use Rattle.smith_instr.specs.declared.instr.Instr.TheVariants as instr;
ghost use Rattle.smith_check_rules.specs.Slots.{AreSlotsValid};
ghost use Rattle.smith_check_operands.specs.Scopes.{bare, IsScope};
ghost use Rattle.smith_check_operands.specs.Covers.{held};
ghost use Rattle.smith_check_operands.specs.Applies.{IsTried};
ghost use Rattle.std.specs.Prelude.{option_to_list};
ghost use Rattle.smith_instr.specs.Contexts.{AreValid};
ghost use Rattle.smith_instr.specs.InstrTypes.{sets};
ghost use Rattle.smith_check_operands.specs.Closes.{label_of, labels_of, IsPlain};

use crate::families::{step_access, step_branch, step_call, step_constant, step_variable};
use smith_bytes::Error;
use smith_check_instr::constants::numeric;
use smith_check_instr::control::{drop_one, nop, throw, throw_ref, unreachable};
use smith_check_instr::select::{select, select_typed};
use smith_check_instr::vectors::vector;
use smith_check_operands::{Frame, Operands, Scope, Shape};
use smith_check_references::{aggregate, reference, table};
use smith_instr::{Instr, SetLocals};

/// Tries an instruction that opens and closes no block.
#[inline(always)]
#[rattlefmt::skip]
pub fn step(
    operands: &mut Operands,
    scope: &Scope,
    shape: &Shape,
    outers: &[Frame],
    log: &SetLocals,
    instr: &Instr,
) -> Result<bool, Error>
    requires known { AreSlotsValid (bare scope.now) operands.old.known.items }
    requires labels { All (AreValid (bare scope.now))
        (label_of shape.now ∷ labels_of (reverse outers.now)) }
    requires scope { IsScope (bare scope.now) }
    requires plain { IsPlain instr.now }
    ensures ok { IfOk result
        (λ there. IsTried (bare scope.now) (label_of shape.now ∷ labels_of (reverse outers.now))
        instr.now log.now.items there (held operands.old) (held operands.new)) }
    ensures memory { IfErr result (λ e. e ≡ Error.Memory) }
{
    match instr {
        Instr::Unreachable => Ok(unreachable(operands, scope)),
        Instr::Nop => nop(operands, scope),
        Instr::Throw(tag) => Ok(throw(operands, scope, *tag)),
        Instr::ThrowRef => Ok(throw_ref(operands, scope)),
        Instr::Drop => Ok(drop_one(operands, scope)),
        Instr::Select => select(operands, scope),
        Instr::SelectTyped(types) => select_typed(operands, scope, types),
        Instr::Numeric(op) => numeric(operands, scope, *op),
        Instr::Vector(op) => vector(operands, scope, *op),
        Instr::Reference(op) => reference(operands, scope, *op),
        Instr::Table(op) => table(operands, scope, *op),
        Instr::Aggregate(op) => aggregate(operands, scope, *op),
        Instr::Br(_) | Instr::BrIf(_) | Instr::BrTable(_, _) | Instr::BrOnNull(_) | Instr::BrOnNonNull(_) | Instr::BrOnCast(_)
        | Instr::BrOnCastFail(_) => { step_branch(operands, scope, shape, outers, instr) }
        Instr::Return | Instr::Call(_) | Instr::CallIndirect { .. } | Instr::CallRef(_) | Instr::ReturnCall(_)
        | Instr::ReturnCallIndirect { .. } | Instr::ReturnCallRef(_) => { step_call(operands, scope, instr) }
        Instr::LocalGet(_) | Instr::LocalSet(_) | Instr::LocalTee(_) | Instr::GlobalGet(_)
        | Instr::GlobalSet(_) => step_variable(operands, scope, log, instr),
        Instr::I32Const(_) | Instr::I64Const(_) | Instr::F32Const(_) | Instr::F64Const(_)
        | Instr::V128Const(_) => step_constant(operands, scope, instr),
        Instr::Load(_, _) | Instr::Store(_, _) | Instr::Memory(_) | Instr::VectorLoad(_, _) | Instr::VectorStore(_)
        | Instr::VectorLoadLane { .. } | Instr::VectorStoreLane { .. } | Instr::Atomic(_, _)
        | Instr::AtomicFence => step_access(operands, scope, instr),
        Instr::Block(_) | Instr::Loop(_) | Instr::If(_) | Instr::TryTable(_, _) => Ok(false),
        Instr::Else | Instr::End => Ok(false),
    }
}

/// Returns the local that an instruction sets.
pub fn set_by(instr: &Instr) -> Option<u32>
    ensures { option_to_list result ≡ sets instr.now }
{
    match instr {
        Instr::LocalSet(index) | Instr::LocalTee(index) => Some(*index),
        _ => None,
    }
}
