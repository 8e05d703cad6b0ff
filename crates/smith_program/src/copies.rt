ghost use Rattle.std.specs.Prelude.{◌≡◌, ◌++◌, IsTrue, IfOk, IfErr, OnOk};
ghost use Rattle.smith_program.specs.Copies.{is_access, is_jump, is_variable};

use smith_bytes::Error;
use smith_instr::Instr;
use smith_types::Items;
use std::alloc::Global;

// Returns a copy of an instruction that reads or writes a local or a global, or produces a number.
fn copied_variable(instr: &Instr) -> Instr
    requires { IsTrue (is_variable instr.now) }
    ensures { result ≡ instr.now }
{
    match instr {
        Instr::LocalGet(index) => Instr::LocalGet(*index),
        Instr::LocalSet(index) => Instr::LocalSet(*index),
        Instr::LocalTee(index) => Instr::LocalTee(*index),
        Instr::GlobalGet(index) => Instr::GlobalGet(*index),
        Instr::GlobalSet(index) => Instr::GlobalSet(*index),
        Instr::I32Const(value) => Instr::I32Const(*value),
        Instr::I64Const(value) => Instr::I64Const(*value),
        Instr::F32Const(bits) => Instr::F32Const(*bits),
        Instr::F64Const(bits) => Instr::F64Const(*bits),
        Instr::V128Const(bits) => Instr::V128Const(*bits),
        Instr::Numeric(op) => Instr::Numeric(*op),
        _ => unreachable!(),
    }
}

// Returns a copy of a numeric vector instruction, or of one that accesses a memory.
#[rattlefmt::skip]
fn copied_access(instr: &Instr) -> Instr
    requires { IsTrue (is_access instr.now) }
    ensures { result ≡ instr.now }
{
    match instr {
        Instr::Load(op, at) => Instr::Load(*op, *at),
        Instr::Store(op, at) => Instr::Store(*op, *at),
        Instr::Memory(op) => Instr::Memory(*op),
        Instr::Vector(op) => Instr::Vector(*op),
        Instr::VectorLoad(op, at) => Instr::VectorLoad(*op, *at),
        Instr::VectorStore(at) => Instr::VectorStore(*at),
        Instr::VectorLoadLane { log2_bytes, at, lane } => Instr::VectorLoadLane { log2_bytes: *log2_bytes, at: *at, lane: *lane },
        Instr::VectorStoreLane { log2_bytes, at, lane } => Instr::VectorStoreLane { log2_bytes: *log2_bytes, at: *at, lane: *lane },
        Instr::Atomic(access, at) => Instr::Atomic(*access, *at),
        Instr::AtomicFence => Instr::AtomicFence,
        _ => unreachable!(),
    }
}

// Returns a copy of a branch, a call or an exception.
#[rattlefmt::skip]
fn copied_jump(alloc: Global, instr: &Instr) -> Result<Instr, Error>
    requires { IsTrue (is_jump instr.now) }
    ensures ok { IfOk result (λ made. made ≡ instr.now) }
    ensures memory { IfErr result (λ e. e ≡ Error.Memory) }
{
    Ok(match instr {
        Instr::Throw(tag) => Instr::Throw(*tag),
        Instr::Br(label) => Instr::Br(*label),
        Instr::BrIf(label) => Instr::BrIf(*label),
        Instr::BrTable(labels, other) => Instr::BrTable(labels.copy_in(alloc)?, *other),
        Instr::BrOnNull(label) => Instr::BrOnNull(*label),
        Instr::BrOnNonNull(label) => Instr::BrOnNonNull(*label),
        Instr::Call(function) => Instr::Call(*function),
        Instr::CallIndirect { table, ty } => Instr::CallIndirect { table: *table, ty: *ty },
        Instr::CallRef(ty) => Instr::CallRef(*ty),
        Instr::ReturnCall(function) => Instr::ReturnCall(*function),
        Instr::ReturnCallIndirect { table, ty } => Instr::ReturnCallIndirect { table: *table, ty: *ty },
        Instr::ReturnCallRef(ty) => Instr::ReturnCallRef(*ty),
        _ => unreachable!(),
    })
}

/// Returns a copy of `instr`, allocated from `alloc`.
pub(crate) fn copied(alloc: Global, instr: &Instr) -> Result<Instr, Error>
    ensures ok { IfOk result (λ made. made ≡ instr.now) }
    ensures memory { IfErr result (λ e. e ≡ Error.Memory) }
{
    Ok(match instr {
        Instr::Unreachable => Instr::Unreachable,
        Instr::Nop => Instr::Nop,
        Instr::Else => Instr::Else,
        Instr::End => Instr::End,
        Instr::Return => Instr::Return,
        Instr::ThrowRef => Instr::ThrowRef,
        Instr::Drop => Instr::Drop,
        Instr::Select => Instr::Select,
        Instr::Block(ty) => Instr::Block(*ty),
        Instr::Loop(ty) => Instr::Loop(*ty),
        Instr::If(ty) => Instr::If(*ty),
        Instr::TryTable(ty, clauses) => Instr::TryTable(*ty, clauses.copy_in(alloc)?),
        Instr::BrOnCast(cast) => Instr::BrOnCast(*cast),
        Instr::BrOnCastFail(cast) => Instr::BrOnCastFail(*cast),
        Instr::SelectTyped(values) => Instr::SelectTyped(values.copy_in(alloc)?),
        Instr::Reference(op) => Instr::Reference(*op),
        Instr::Table(op) => Instr::Table(*op),
        Instr::Aggregate(op) => Instr::Aggregate(*op),
        Instr::Throw(_) | Instr::Br(_) | Instr::BrIf(_) => copied_jump(alloc, instr)?,
        Instr::BrTable(_, _) | Instr::BrOnNull(_) => copied_jump(alloc, instr)?,
        Instr::BrOnNonNull(_) | Instr::Call(_) | Instr::CallRef(_) => copied_jump(alloc, instr)?,
        Instr::CallIndirect { .. } | Instr::ReturnCall(_) => copied_jump(alloc, instr)?,
        Instr::ReturnCallIndirect { .. } => copied_jump(alloc, instr)?,
        Instr::ReturnCallRef(_) => copied_jump(alloc, instr)?,
        Instr::LocalGet(_) | Instr::LocalSet(_) | Instr::LocalTee(_) => copied_variable(instr),
        Instr::GlobalGet(_) | Instr::GlobalSet(_) | Instr::Numeric(_) => copied_variable(instr),
        Instr::I32Const(_) | Instr::I64Const(_) | Instr::F32Const(_) => copied_variable(instr),
        Instr::F64Const(_) | Instr::V128Const(_) => copied_variable(instr),
        Instr::Load(_, _) | Instr::Store(_, _) | Instr::Memory(_) => copied_access(instr),
        Instr::Vector(_) | Instr::VectorLoad(_, _) | Instr::VectorStore(_) => copied_access(instr),
        Instr::VectorLoadLane { .. } | Instr::VectorStoreLane { .. } => copied_access(instr),
        Instr::Atomic(_, _) | Instr::AtomicFence => copied_access(instr),
    })
}

/// Appends copies of `instructions` to `made`, allocated from `alloc`. After an error, `made` may
/// have some of them.
pub(crate) fn push_copies(
    alloc: Global,
    made: &mut Items<Instr>,
    instructions: &[Instr],
) -> Result<(), Error>
    ensures ok { OnOk result (made.new ≡ made.old ++ instructions.now) }
    ensures memory { IfErr result (λ e. e ≡ Error.Memory) }
{
    for instr in instructions {
        made.push(copied(alloc, instr)?)?;
    }
    Ok(())
}
