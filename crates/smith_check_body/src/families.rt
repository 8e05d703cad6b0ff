ghost use Rattle.std.specs.Prelude.{◌≡◌, ℕ, ℤ, List, ◌∷◌, IfOk, IfErr, All, reverse};
ghost use Rattle.smith_types.specs.Syntax.value_type.ValType.{ValType};
ghost use Rattle.smith_check_rules.specs.Slots.{AreSlotsValid};
ghost use Rattle.smith_check_operands.specs.Scopes.{bare, IsScope};
ghost use Rattle.smith_check_operands.specs.Covers.{held};
ghost use Rattle.smith_check_operands.specs.Applies.{IsTried};
ghost use Rattle.smith_instr.specs.Contexts.{AreValid};
ghost use Rattle.smith_check_operands.specs.Closes.{label_of, labels_of};
ghost use Rattle.smith_check_body.specs.Families.{IsBranch, IsCall, IsConstant, IsMemoryInstr, IsVariable};

use smith_bytes::Error;
use smith_check_branches::branch_tables::br_table;
use smith_check_branches::calls::{call_indirect, call_ref};
use smith_check_branches::cast_branches::{br_on_cast, br_on_cast_fail};
use smith_check_branches::null_branches::{br_on_non_null, br_on_null};
use smith_check_branches::tail_calls::{return_call, return_call_indirect, return_call_ref};
use smith_check_instr::atomics::atomic;
use smith_check_instr::constants::{number_const, v128_const};
use smith_check_instr::control::{atomic_fence, br, br_if, call, return_all};
use smith_check_instr::memory::{load, memory, store};
use smith_check_instr::variables::{global_get, global_set, local_get, local_set, local_tee};
use smith_check_instr::vectors::{vector_load, vector_load_lane, vector_store, vector_store_lane};
use smith_check_operands::{Frame, Operands, Scope, Shape};
use smith_instr::{Instr, SetLocals};
use smith_types::ValType;

/// Tries a branch.
pub fn step_branch(
    operands: &mut Operands,
    scope: &Scope,
    shape: &Shape,
    outers: &[Frame],
    instr: &Instr,
) -> Result<bool, Error>
    requires known { AreSlotsValid (bare scope.now) operands.old.known.items }
    requires labels { All (AreValid (bare scope.now))
        (label_of shape.now ∷ labels_of (reverse outers.now)) }
    requires branch { IsBranch instr.now }
    ensures ok { (set : List ℕ) → IfOk result
        (λ there. IsTried (bare scope.now) (label_of shape.now ∷ labels_of (reverse outers.now))
        instr.now set there (held operands.old) (held operands.new)) }
    ensures memory { IfErr result (λ e. e ≡ Error.Memory) }
{
    match instr {
        Instr::Br(index) => Ok(br(operands, scope, shape, outers, *index)),
        Instr::BrIf(index) => br_if(operands, scope, shape, outers, *index),
        Instr::BrTable(labels, other) => Ok(br_table(
            operands,
            scope,
            shape,
            outers,
            labels.as_slice(),
            *other,
        )),
        Instr::BrOnNull(index) => br_on_null(operands, scope, shape, outers, *index),
        Instr::BrOnNonNull(index) => br_on_non_null(operands, scope, shape, outers, *index),
        Instr::BrOnCast(cast) => br_on_cast(operands, scope, shape, outers, *cast),
        Instr::BrOnCastFail(cast) => br_on_cast_fail(operands, scope, shape, outers, *cast),
        _ => Ok(false),
    }
}

/// Tries a call, or the return.
pub fn step_call(operands: &mut Operands, scope: &Scope, instr: &Instr) -> Result<bool, Error>
    requires known { AreSlotsValid (bare scope.now) operands.old.known.items }
    requires scope { IsScope (bare scope.now) }
    requires call { IsCall instr.now }
    ensures ok { (labels : List (List ValType)) (set : List ℕ) → IfOk result
        (λ there. IsTried (bare scope.now) labels instr.now set there
        (held operands.old) (held operands.new)) }
    ensures memory { IfErr result (λ e. e ≡ Error.Memory) }
{
    match instr {
        Instr::Return => Ok(return_all(operands, scope)),
        Instr::Call(index) => call(operands, scope, *index),
        Instr::CallIndirect { table, ty } => call_indirect(operands, scope, *table, *ty),
        Instr::CallRef(ty) => call_ref(operands, scope, *ty),
        Instr::ReturnCall(index) => Ok(return_call(operands, scope, *index)),
        Instr::ReturnCallIndirect { table, ty } => {
            Ok(return_call_indirect(operands, scope, *table, *ty))
        }
        Instr::ReturnCallRef(ty) => Ok(return_call_ref(operands, scope, *ty)),
        _ => Ok(false),
    }
}

/// Tries an instruction on a local or a global.
pub fn step_variable(
    operands: &mut Operands,
    scope: &Scope,
    log: &SetLocals,
    instr: &Instr,
) -> Result<bool, Error>
    requires known { AreSlotsValid (bare scope.now) operands.old.known.items }
    requires scope { IsScope (bare scope.now) }
    requires variable { IsVariable instr.now }
    ensures ok { (labels : List (List ValType)) → IfOk result
        (λ there. IsTried (bare scope.now) labels instr.now log.now.items there
        (held operands.old) (held operands.new)) }
    ensures memory { IfErr result (λ e. e ≡ Error.Memory) }
{
    match instr {
        Instr::LocalGet(index) => local_get(operands, scope, log, *index),
        Instr::LocalSet(index) => local_set(operands, scope, *index),
        Instr::LocalTee(index) => local_tee(operands, scope, *index),
        Instr::GlobalGet(index) => global_get(operands, scope, *index),
        Instr::GlobalSet(index) => global_set(operands, scope, *index),
        _ => Ok(false),
    }
}

/// Tries a constant.
pub fn step_constant(operands: &mut Operands, scope: &Scope, instr: &Instr) -> Result<bool, Error>
    requires known { AreSlotsValid (bare scope.now) operands.old.known.items }
    requires constant { IsConstant instr.now }
    ensures ok { (labels : List (List ValType)) (set : List ℕ) → IfOk result
        (λ there. IsTried (bare scope.now) labels instr.now set there
        (held operands.old) (held operands.new)) }
    ensures memory { IfErr result (λ e. e ≡ Error.Memory) }
{
    match instr {
        Instr::I32Const(_) => number_const(operands, scope, ValType::I32),
        Instr::I64Const(_) => number_const(operands, scope, ValType::I64),
        Instr::F32Const(_) => number_const(operands, scope, ValType::F32),
        Instr::F64Const(_) => number_const(operands, scope, ValType::F64),
        Instr::V128Const(_) => v128_const(operands, scope),
        _ => Ok(false),
    }
}

/// Tries an access to a memory, or an instruction on a whole memory.
pub fn step_access(operands: &mut Operands, scope: &Scope, instr: &Instr) -> Result<bool, Error>
    requires known { AreSlotsValid (bare scope.now) operands.old.known.items }
    requires access { IsMemoryInstr instr.now }
    ensures ok { (labels : List (List ValType)) (set : List ℕ) → IfOk result
        (λ there. IsTried (bare scope.now) labels instr.now set there
        (held operands.old) (held operands.new)) }
    ensures memory { IfErr result (λ e. e ≡ Error.Memory) }
{
    match instr {
        Instr::Load(op, at) => load(operands, scope, *op, *at),
        Instr::Store(op, at) => store(operands, scope, *op, *at),
        Instr::Memory(op) => memory(operands, scope, *op),
        Instr::VectorLoad(op, at) => vector_load(operands, scope, *op, *at),
        Instr::VectorStore(at) => vector_store(operands, scope, *at),
        Instr::VectorLoadLane {
            log2_bytes,
            at,
            lane,
        } => vector_load_lane(operands, scope, *log2_bytes, *at, *lane),
        Instr::VectorStoreLane {
            log2_bytes,
            at,
            lane,
        } => vector_store_lane(operands, scope, *log2_bytes, *at, *lane),
        Instr::Atomic(op, at) => atomic(operands, scope, *op, *at),
        Instr::AtomicFence => atomic_fence(operands, scope),
        _ => Ok(false),
    }
}
