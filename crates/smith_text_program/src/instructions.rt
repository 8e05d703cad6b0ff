ghost use Rattle.std.specs.Prelude.{◌≡◌, false, is_err, OnOk};
ghost use Rattle.smith_text.specs.Written.{Writes};

use crate::atomic::write_atomic;
use crate::control::{
    write_block, write_branch_cast, write_branch_table, write_indirect, write_try_table,
    write_typed_select,
};
use crate::keywords::write_indexed;
use crate::memory::{
    load_keyword, store_keyword, vector_load_keyword, write_access, write_lane_access, write_memory,
};
use crate::numeric::write_numeric;
use crate::references::{write_aggregate, write_reference, write_table};
use crate::vector::write_vector;
use smith_instr::Instr;
use smith_text::{Sink, TypeUse, write_const_instr};
use smith_types::{ConstInstr, SubType};
use std::fmt;

// Returns the use of the type `index`, with its parameters and results if it is one of `signatures`.
fn use_of(index: u32, signatures: &[SubType]) -> TypeUse<'_> {
    TypeUse { index, signatures }
}

/// Writes `instruction` in its plain form, without a line break: see the standard, section Text
/// Format, Instructions.
///
/// Indices are numbers, and blocks have no labels of their own. The function types among
/// `signatures` are written with their parameters and results. No write to `sink` may have failed
/// before.
///
/// # Errors
///
/// Returns the error of the first write that fails. Nothing is written after it.
#[rattlefmt::skip]
pub fn write_instr<S: Sink>(
    instruction: &Instr,
    signatures: &[SubType],
    sink: &mut S,
) -> fmt::Result
    requires open { S.failed sink.old ≡ false }
    ensures fault { S.failed sink.new ≡ is_err result }
    ensures writes { OnOk result (Writes S.has sink.old 1 sink.new) }
{
    match instruction {
        Instr::Unreachable => sink.write_str("unreachable"),
        Instr::Nop => sink.write_str("nop"),
        Instr::Block(ty) => write_block("block", *ty, signatures, sink),
        Instr::Loop(ty) => write_block("loop", *ty, signatures, sink),
        Instr::If(ty) => write_block("if", *ty, signatures, sink),
        Instr::Else => sink.write_str("else"),
        Instr::End => sink.write_str("end"),
        Instr::TryTable(ty, clauses) => write_try_table(*ty, clauses.as_slice(), signatures, sink),
        Instr::Throw(tag) => write_indexed("throw", *tag, sink),
        Instr::ThrowRef => sink.write_str("throw_ref"),
        Instr::Br(label) => write_indexed("br", *label, sink),
        Instr::BrIf(label) => write_indexed("br_if", *label, sink),
        Instr::BrTable(labels, last) => write_branch_table(labels.as_slice(), *last, sink),
        Instr::BrOnNull(label) => write_indexed("br_on_null", *label, sink),
        Instr::BrOnNonNull(label) => write_indexed("br_on_non_null", *label, sink),
        Instr::BrOnCast(cast) => write_branch_cast("br_on_cast", *cast, sink),
        Instr::BrOnCastFail(cast) => write_branch_cast("br_on_cast_fail", *cast, sink),
        Instr::Return => sink.write_str("return"),
        Instr::Call(function) => write_indexed("call", *function, sink),
        Instr::CallIndirect { table, ty } => write_indirect("call_indirect", *table, use_of(*ty, signatures), sink),
        Instr::CallRef(ty) => write_indexed("call_ref", *ty, sink),
        Instr::ReturnCall(function) => write_indexed("return_call", *function, sink),
        Instr::ReturnCallIndirect { table, ty } => write_indirect("return_call_indirect", *table, use_of(*ty, signatures), sink),
        Instr::ReturnCallRef(ty) => write_indexed("return_call_ref", *ty, sink),
        Instr::Drop => sink.write_str("drop"),
        Instr::Select => sink.write_str("select"),
        Instr::SelectTyped(values) => write_typed_select(values.as_slice(), sink),
        Instr::LocalGet(local) => write_indexed("local.get", *local, sink),
        Instr::LocalSet(local) => write_indexed("local.set", *local, sink),
        Instr::LocalTee(local) => write_indexed("local.tee", *local, sink),
        Instr::GlobalGet(global) => write_indexed("global.get", *global, sink),
        Instr::GlobalSet(global) => write_indexed("global.set", *global, sink),
        Instr::I32Const(value) => write_const_instr(&ConstInstr::I32Const(*value), sink),
        Instr::I64Const(value) => write_const_instr(&ConstInstr::I64Const(*value), sink),
        Instr::F32Const(bits) => write_const_instr(&ConstInstr::F32Const(*bits), sink),
        Instr::F64Const(bits) => write_const_instr(&ConstInstr::F64Const(*bits), sink),
        Instr::V128Const(bits) => write_const_instr(&ConstInstr::V128Const(*bits), sink),
        Instr::Numeric(op) => write_numeric(*op, sink),
        Instr::Reference(op) => write_reference(*op, sink),
        Instr::Table(op) => write_table(*op, sink),
        Instr::Load(op, at) => write_access(load_keyword(*op), *at, sink),
        Instr::Store(op, at) => write_access(store_keyword(*op), *at, sink),
        Instr::Memory(op) => write_memory(*op, sink),
        Instr::Aggregate(op) => write_aggregate(*op, sink),
        Instr::Vector(op) => write_vector(*op, sink),
        Instr::VectorLoad(op, at) => write_access(vector_load_keyword(*op), *at, sink),
        Instr::VectorStore(at) => write_access("v128.store", *at, sink),
        Instr::VectorLoadLane { log2_bytes, at, lane } => write_lane_access("load", *log2_bytes, *at, *lane, sink),
        Instr::VectorStoreLane { log2_bytes, at, lane } => write_lane_access("store", *log2_bytes, *at, *lane, sink),
        Instr::Atomic(access, at) => write_atomic(*access, *at, sink),
        Instr::AtomicFence => sink.write_str("atomic.fence"),
    }
}
