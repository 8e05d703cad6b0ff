ghost use Rattle.std.specs.Prelude.{◌≡◌, OnOk, IfErr, Any};
ghost use Rattle.smith_binary.specs.Spelling.{IsSignedIn};
ghost use Rattle.smith_binary.specs.declared.error.EncodeError.TheVariants.{Memory};
ghost use Rattle.smith_binary.specs.Faults.{IsFault};
ghost use Rattle.smith_binary.specs.Numbers.{IsLittleEndian};
ghost use Rattle.smith_binary.specs.Pieces.{IsByte, Joined, Writes};
ghost use Rattle.smith_binary_sections.specs.Instructions.{IsPrefixedIn};
ghost use Rattle.smith_binary_instr.specs.Instructions.{IsExprIn, IsExprWrittenIn, IsInstrIn};
ghost use Rattle.smith_binary_instr.specs.Instructions.{IsInstrWrittenIn, IsInstrsIn};
ghost use Rattle.smith_binary_instr.specs.Instructions.{IsInstrsWrittenIn};
ghost use Rattle.smith_binary_instr.specs.Long.{IsLongInstr};

use crate::aggregate::write_aggregate;
use crate::atomic::atomic_number;
use crate::control::{
    write_block, write_branch_cast, write_branch_table, write_try_table, write_typed_select,
};
use crate::memory::{
    load_opcode, store_opcode, vector_load_number, write_access, write_lane_access, write_memory,
    write_prefixed_access,
};
use crate::numeric::write_numeric;
use crate::opcodes::{write_indexed, write_two_indices};
use crate::prefix::write_prefixed;
use crate::references::{write_reference, write_table};
use crate::vector::{write_vector, write_vector_const};
use smith_binary::{EncodeError, Sink};
use smith_instr::Instr;

// Writes `i32.const`.
fn write_i32_const(value: i32, sink: &mut Sink) -> Result<(), EncodeError>
    ensures writes { OnOk result
        (Writes (λ s. Joined (IsByte 0x41) (IsSignedIn s 32 value)) sink.old sink.new) }
    ensures memory { IfErr result (λ e. e ≡ Memory) }
{
    sink.write_byte(0x41)?;
    sink.write_s32(value)
}

// Writes `i64.const`.
fn write_i64_const(value: i64, sink: &mut Sink) -> Result<(), EncodeError>
    ensures writes { OnOk result
        (Writes (λ s. Joined (IsByte 0x42) (IsSignedIn s 64 value)) sink.old sink.new) }
    ensures memory { IfErr result (λ e. e ≡ Memory) }
{
    sink.write_byte(0x42)?;
    sink.write_s64(value)
}

// Writes `f32.const`.
fn write_f32_const(bits: u32, sink: &mut Sink) -> Result<(), EncodeError>
    ensures writes { OnOk result
        (Writes (λ _. Joined (IsByte 0x43) (IsLittleEndian 4 bits)) sink.old sink.new) }
    ensures memory { IfErr result (λ e. e ≡ Memory) }
{
    sink.write_byte(0x43)?;
    sink.write_f32(bits)
}

// Writes `f64.const`.
fn write_f64_const(bits: u64, sink: &mut Sink) -> Result<(), EncodeError>
    ensures writes { OnOk result
        (Writes (λ _. Joined (IsByte 0x44) (IsLittleEndian 8 bits)) sink.old sink.new) }
    ensures memory { IfErr result (λ e. e ≡ Memory) }
{
    sink.write_byte(0x44)?;
    sink.write_f64(bits)
}

// Writes `atomic.fence`.
fn write_fence(sink: &mut Sink) -> Result<(), EncodeError>
    ensures writes { OnOk result
        (Writes (λ s. Joined (IsPrefixedIn s 0xFE 3) (IsByte 0x00)) sink.old sink.new) }
    ensures memory { IfErr result (λ e. e ≡ Memory) }
{
    write_prefixed(0xFE, 3, sink)?;
    sink.write_byte(0x00)
}

// Writes `instruction`.
#[rattlefmt::skip]
fn write_instr(instruction: &Instr, sink: &mut Sink) -> Result<(), EncodeError>
    ensures writes { OnOk result (Writes (λ s. IsInstrWrittenIn s instruction.now) sink.old sink.new) }
    ensures fault { IfErr result (IsFault (IsLongInstr instruction.now)) }
{
    match instruction {
        Instr::Unreachable => sink.write_byte(0x00),
        Instr::Nop => sink.write_byte(0x01),
        Instr::Block(ty) => write_block(0x02, *ty, sink),
        Instr::Loop(ty) => write_block(0x03, *ty, sink),
        Instr::If(ty) => write_block(0x04, *ty, sink),
        Instr::Else => sink.write_byte(0x05),
        Instr::End => sink.write_byte(0x0B),
        Instr::TryTable(ty, clauses) => write_try_table(*ty, clauses.as_slice(), sink),
        Instr::Throw(tag) => write_indexed(0x08, *tag, sink),
        Instr::ThrowRef => sink.write_byte(0x0A),
        Instr::Br(label) => write_indexed(0x0C, *label, sink),
        Instr::BrIf(label) => write_indexed(0x0D, *label, sink),
        Instr::BrTable(labels, last) => write_branch_table(labels.as_slice(), *last, sink),
        Instr::Return => sink.write_byte(0x0F),
        Instr::Call(function) => write_indexed(0x10, *function, sink),
        Instr::CallIndirect { table, ty } => write_two_indices(0x11, *ty, *table, sink),
        Instr::ReturnCall(function) => write_indexed(0x12, *function, sink),
        Instr::ReturnCallIndirect { table, ty } => write_two_indices(0x13, *ty, *table, sink),
        Instr::CallRef(ty) => write_indexed(0x14, *ty, sink),
        Instr::ReturnCallRef(ty) => write_indexed(0x15, *ty, sink),
        Instr::BrOnNull(label) => write_indexed(0xD5, *label, sink),
        Instr::BrOnNonNull(label) => write_indexed(0xD6, *label, sink),
        Instr::BrOnCast(cast) => write_branch_cast(24, *cast, sink),
        Instr::BrOnCastFail(cast) => write_branch_cast(25, *cast, sink),
        Instr::Drop => sink.write_byte(0x1A),
        Instr::Select => sink.write_byte(0x1B),
        Instr::SelectTyped(values) => write_typed_select(values.as_slice(), sink),
        Instr::LocalGet(local) => write_indexed(0x20, *local, sink),
        Instr::LocalSet(local) => write_indexed(0x21, *local, sink),
        Instr::LocalTee(local) => write_indexed(0x22, *local, sink),
        Instr::GlobalGet(global) => write_indexed(0x23, *global, sink),
        Instr::GlobalSet(global) => write_indexed(0x24, *global, sink),
        Instr::Table(op) => write_table(*op, sink),
        Instr::Reference(op) => write_reference(*op, sink),
        Instr::Load(op, at) => write_access(load_opcode(*op), *at, sink),
        Instr::Store(op, at) => write_access(store_opcode(*op), *at, sink),
        Instr::Memory(op) => write_memory(*op, sink),
        Instr::I32Const(value) => write_i32_const(*value, sink),
        Instr::I64Const(value) => write_i64_const(*value, sink),
        Instr::F32Const(bits) => write_f32_const(*bits, sink),
        Instr::F64Const(bits) => write_f64_const(*bits, sink),
        Instr::Numeric(op) => write_numeric(*op, sink),
        Instr::Aggregate(op) => write_aggregate(*op, sink),
        Instr::VectorLoad(op, at) => { write_prefixed_access(0xFD, vector_load_number(*op), *at, sink) }
        Instr::VectorStore(at) => write_prefixed_access(0xFD, 11, *at, sink),
        Instr::V128Const(value) => write_vector_const(*value, sink),
        Instr::VectorLoadLane { log2_bytes, at, lane } => write_lane_access(84, *log2_bytes, *at, *lane, sink),
        Instr::VectorStoreLane { log2_bytes, at, lane } => write_lane_access(88, *log2_bytes, *at, *lane, sink),
        Instr::Vector(op) => write_vector(*op, sink),
        Instr::Atomic(access, at) => { write_prefixed_access(0xFE, atomic_number(*access), *at, sink) }
        Instr::AtomicFence => write_fence(sink),
    }
}

/// Writes `instruction` at the end of `sink`: see the standard, section Binary Format,
/// Instructions.
///
/// An access to memory has the index of the memory unless it is 0.
///
/// # Errors
///
/// Returns `TooLong` if a list of `instruction` has 2^32 items or more, if its alignment needs more
/// than the six bits of the format, or if it accesses a lane of more than eight bytes. Of these
/// instructions, only those with long lists can be valid.
pub fn encode_instr(sink: &mut Sink, instruction: &Instr) -> Result<(), EncodeError>
    ensures writes { OnOk result (Writes (λ s. IsInstrIn s instruction.now) sink.old sink.new) }
    ensures written { OnOk result (Writes (λ s. IsInstrWrittenIn s instruction.now) sink.old sink.new) }
    ensures fault { IfErr result (IsFault (IsLongInstr instruction.now)) }
{
    write_instr(instruction, sink)
}

/// Writes `instructions` in order, without the `end` of an expression.
///
/// # Errors
///
/// Returns `TooLong` as [`encode_instr`] does.
pub fn encode_instrs(sink: &mut Sink, instructions: &[Instr]) -> Result<(), EncodeError>
    ensures writes { OnOk result (Writes (λ s. IsInstrsIn s instructions.now) sink.old sink.new) }
    ensures written { OnOk result (Writes (λ s. IsInstrsWrittenIn s instructions.now) sink.old sink.new) }
    ensures fault { IfErr result (IsFault (Any IsLongInstr instructions.now)) }
{
    for instruction in instructions {
        encode_instr(sink, instruction)?;
    }
    Ok(())
}

/// Writes `instructions` in order, then the `end` of the expression.
///
/// # Errors
///
/// Returns `TooLong` as [`encode_instr`] does.
pub fn encode_expr(sink: &mut Sink, instructions: &[Instr]) -> Result<(), EncodeError>
    ensures writes { OnOk result (Writes (λ s. IsExprIn s instructions.now) sink.old sink.new) }
    ensures written { OnOk result (Writes (λ s. IsExprWrittenIn s instructions.now) sink.old sink.new) }
    ensures fault { IfErr result (IsFault (Any IsLongInstr instructions.now)) }
{
    encode_instrs(sink, instructions)?;
    sink.write_byte(0x0B)
}
