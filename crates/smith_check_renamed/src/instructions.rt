ghost use Rattle.std.specs.Prelude.{◌≡◌, IsTrue, IfOk, IfErr};
ghost use Rattle.smith_check_types.specs.TypeSections.{canonical_index};
ghost use Rattle.smith_check_renamed.specs.RenamedInstructions.{
  is_access,
  is_jump,
  is_variable,
  renamed_instr,
};

use crate::aggregates::canonical_aggregate;
use crate::types::{canonical_block, canonical_cast, canonical_reference, canonical_values};
use smith_bytes::Error;
use smith_check_types::canonical_index;
use smith_instr::Instr;
use std::alloc::Global;

// Returns a copy of an instruction that reads or writes a local or a global, or produces a number.
fn copied_variable(instr: &Instr) -> Instr
    requires { IsTrue (is_variable instr.now) }
    ensures { result ≡ instr.now }
{
    match instr {
        Instr::LocalGet(index) => Instr::LocalGet(*index),
        Instr::LocalSet(index) => Instr::LocalSet(*index),
        Instr::LocalTee(index) => Instr::LocalTee(*index),
        Instr::GlobalGet(index) => Instr::GlobalGet(*index),
        Instr::GlobalSet(index) => Instr::GlobalSet(*index),
        Instr::I32Const(value) => Instr::I32Const(*value),
        Instr::I64Const(value) => Instr::I64Const(*value),
        Instr::F32Const(bits) => Instr::F32Const(*bits),
        Instr::F64Const(bits) => Instr::F64Const(*bits),
        Instr::V128Const(bits) => Instr::V128Const(*bits),
        Instr::Numeric(op) => Instr::Numeric(*op),
        _ => unreachable!(),
    }
}

// Returns a copy of a numeric vector instruction, or of one that accesses a memory.
#[rattlefmt::skip]
fn copied_access(instr: &Instr) -> Instr
    requires { IsTrue (is_access instr.now) }
    ensures { result ≡ instr.now }
{
    match instr {
        Instr::Load(op, at) => Instr::Load(*op, *at),
        Instr::Store(op, at) => Instr::Store(*op, *at),
        Instr::Memory(op) => Instr::Memory(*op),
        Instr::Vector(op) => Instr::Vector(*op),
        Instr::VectorLoad(op, at) => Instr::VectorLoad(*op, *at),
        Instr::VectorStore(at) => Instr::VectorStore(*at),
        Instr::VectorLoadLane { log2_bytes, at, lane } => Instr::VectorLoadLane { log2_bytes: *log2_bytes, at: *at, lane: *lane },
        Instr::VectorStoreLane { log2_bytes, at, lane } => Instr::VectorStoreLane { log2_bytes: *log2_bytes, at: *at, lane: *lane },
        Instr::Atomic(access, at) => Instr::Atomic(*access, *at),
        Instr::AtomicFence => Instr::AtomicFence,
        _ => unreachable!(),
    }
}

// Returns a copy of an instruction that changes the flow of control, and names no type but that of a
// call.
#[rattlefmt::skip]
fn copied_jump(alloc: Global, indices: &[u32], instr: &Instr) -> Result<Instr, Error>
    requires { IsTrue (is_jump instr.now) }
    ensures ok { IfOk result (λ made. made ≡ renamed_instr (canonical_index indices.now) instr.now) }
    ensures memory { IfErr result (λ e. e ≡ Error.Memory) }
{
    Ok(match instr {
        Instr::Throw(tag) => Instr::Throw(*tag),
        Instr::Br(label) => Instr::Br(*label),
        Instr::BrIf(label) => Instr::BrIf(*label),
        Instr::BrTable(labels, other) => Instr::BrTable(labels.copy_in(alloc)?, *other),
        Instr::BrOnNull(label) => Instr::BrOnNull(*label),
        Instr::BrOnNonNull(label) => Instr::BrOnNonNull(*label),
        Instr::Call(function) => Instr::Call(*function),
        Instr::CallIndirect { table, ty } => Instr::CallIndirect { table: *table, ty: canonical_index(indices, *ty) },
        Instr::CallRef(ty) => Instr::CallRef(canonical_index(indices, *ty)),
        Instr::ReturnCall(function) => Instr::ReturnCall(*function),
        Instr::ReturnCallIndirect { table, ty } => Instr::ReturnCallIndirect { table: *table, ty: canonical_index(indices, *ty) },
        Instr::ReturnCallRef(ty) => Instr::ReturnCallRef(canonical_index(indices, *ty)),
        _ => unreachable!(),
    })
}

/// Returns a copy of `instr` that names types by the canonical `indices`.
pub(crate) fn canonical_instr(alloc: Global, indices: &[u32], instr: &Instr) -> Result<Instr, Error>
    ensures ok { IfOk result (λ made. made ≡ renamed_instr (canonical_index indices.now) instr.now) }
    ensures memory { IfErr result (λ e. e ≡ Error.Memory) }
{
    Ok(match instr {
        Instr::Unreachable => Instr::Unreachable,
        Instr::Nop => Instr::Nop,
        Instr::Else => Instr::Else,
        Instr::End => Instr::End,
        Instr::Return => Instr::Return,
        Instr::ThrowRef => Instr::ThrowRef,
        Instr::Drop => Instr::Drop,
        Instr::Select => Instr::Select,
        Instr::Block(ty) => Instr::Block(canonical_block(indices, *ty)),
        Instr::Loop(ty) => Instr::Loop(canonical_block(indices, *ty)),
        Instr::If(ty) => Instr::If(canonical_block(indices, *ty)),
        Instr::TryTable(ty, clauses) => {
            Instr::TryTable(canonical_block(indices, *ty), clauses.copy_in(alloc)?)
        }
        Instr::BrOnCast(cast) => Instr::BrOnCast(canonical_cast(indices, *cast)),
        Instr::BrOnCastFail(cast) => Instr::BrOnCastFail(canonical_cast(indices, *cast)),
        Instr::SelectTyped(values) => {
            Instr::SelectTyped(canonical_values(alloc, indices, values.as_slice())?)
        }
        Instr::Reference(op) => Instr::Reference(canonical_reference(indices, *op)),
        Instr::Table(op) => Instr::Table(*op),
        Instr::Aggregate(op) => Instr::Aggregate(canonical_aggregate(indices, *op)),
        Instr::Throw(_) | Instr::Br(_) | Instr::BrIf(_) | Instr::BrTable(_, _) => copied_jump(
            alloc, indices, instr,
        )?,
        Instr::BrOnNull(_) | Instr::BrOnNonNull(_) | Instr::Call(_) | Instr::CallRef(_) => {
            copied_jump(alloc, indices, instr)?
        }
        Instr::CallIndirect { .. } | Instr::ReturnCall(_) => copied_jump(alloc, indices, instr)?,
        Instr::ReturnCallIndirect { .. } | Instr::ReturnCallRef(_) => {
            copied_jump(alloc, indices, instr)?
        }
        Instr::LocalGet(_) | Instr::LocalSet(_) | Instr::LocalTee(_) => copied_variable(instr),
        Instr::GlobalGet(_) | Instr::GlobalSet(_) | Instr::Numeric(_) => copied_variable(instr),
        Instr::I32Const(_) | Instr::I64Const(_) | Instr::F32Const(_) => copied_variable(instr),
        Instr::F64Const(_) | Instr::V128Const(_) => copied_variable(instr),
        Instr::Load(_, _) | Instr::Store(_, _) | Instr::Memory(_) => copied_access(instr),
        Instr::Vector(_) | Instr::VectorLoad(_, _) | Instr::VectorStore(_) => copied_access(instr),
        Instr::VectorLoadLane { .. } | Instr::VectorStoreLane { .. } => copied_access(instr),
        Instr::Atomic(_, _) | Instr::AtomicFence => copied_access(instr),
    })
}
