ghost use Rattle.std.specs.Prelude.{◌≡◌, ◌+◌, ◌<◌, ◌^◌, IfOk, IfErr};
ghost use Rattle.smith_program.specs.Observed.{bits32, bits64, half, mix, mix32, mix64, mixes};

use smith_bytes::Error;
use smith_instr::{
    Conversion, FloatCompare, Instr, IntBinary, LaneExtract, NumericInstr, VectorBinary,
    VectorFloatBinary, VectorInstr,
};
use smith_types::ValType;
use std::alloc::Global;

// Returns instructions that mix the value of `value`, an `i32`, into the sink at `sink`.
fn mix32(alloc: Global, sink: u32, mut value: Vec<Instr>) -> Result<Vec<Instr>, Error>
    ensures ok { IfOk result (λ made. made.items ≡ mix32 sink value.items) }
    ensures memory { IfErr result (λ e. e ≡ Error.Memory) }
{
    let mut made = Vec::from_array(
        alloc,
        [
            Instr::GlobalGet(sink),
            Instr::I32Const(5),
            Instr::Numeric(NumericInstr::I32Binary(IntBinary::Rotl)),
        ],
    )?;
    made.append(&mut value)?;
    made.push(Instr::Numeric(NumericInstr::I32Binary(IntBinary::Xor)))?;
    made.push(Instr::GlobalSet(sink))?;
    Ok(made)
}

// Returns instructions that mix the value of `value`, an `i64`, into the sink at `sink`.
fn mix64(alloc: Global, sink: u32, mut value: Vec<Instr>) -> Result<Vec<Instr>, Error>
    ensures ok { IfOk result (λ made. made.items ≡ mix64 sink value.items) }
    ensures memory { IfErr result (λ e. e ≡ Error.Memory) }
{
    let mut made = Vec::from_array(
        alloc,
        [
            Instr::GlobalGet(sink),
            Instr::I64Const(5),
            Instr::Numeric(NumericInstr::I64Binary(IntBinary::Rotl)),
        ],
    )?;
    made.append(&mut value)?;
    made.push(Instr::Numeric(NumericInstr::I64Binary(IntBinary::Xor)))?;
    made.push(Instr::GlobalSet(sink))?;
    Ok(made)
}

// Returns instructions that produce the bits of a local of `f32`.
fn bits32(alloc: Global, index: u32) -> Result<Vec<Instr>, Error>
    ensures ok { IfOk result (λ made. made.items ≡ bits32 index) }
    ensures memory { IfErr result (λ e. e ≡ Error.Memory) }
{
    Ok(Vec::from_array(
        alloc,
        [
            Instr::LocalGet(index),
            Instr::Numeric(NumericInstr::Convert(Conversion::I32ReinterpretF32)),
            Instr::I32Const(0x7FC0_0000),
            Instr::LocalGet(index),
            Instr::LocalGet(index),
            Instr::Numeric(NumericInstr::F32Compare(FloatCompare::Eq)),
            Instr::Select,
        ],
    )?)
}

// Returns instructions that produce the bits of a local of `f64`.
fn bits64(alloc: Global, index: u32) -> Result<Vec<Instr>, Error>
    ensures ok { IfOk result (λ made. made.items ≡ bits64 index) }
    ensures memory { IfErr result (λ e. e ≡ Error.Memory) }
{
    Ok(Vec::from_array(
        alloc,
        [
            Instr::LocalGet(index),
            Instr::Numeric(NumericInstr::Convert(Conversion::I64ReinterpretF64)),
            Instr::I64Const(0x7FF8_0000_0000_0000),
            Instr::LocalGet(index),
            Instr::LocalGet(index),
            Instr::Numeric(NumericInstr::F64Compare(FloatCompare::Eq)),
            Instr::Select,
        ],
    )?)
}

// Returns instructions that produce a half of a local of `v128`.
fn half(alloc: Global, index: u32, lane: u8) -> Result<Vec<Instr>, Error>
    ensures ok { IfOk result (λ made. made.items ≡ half index lane) }
    ensures memory { IfErr result (λ e. e ≡ Error.Memory) }
{
    Ok(Vec::from_array(
        alloc,
        [
            Instr::LocalGet(index),
            Instr::LocalGet(index),
            Instr::LocalGet(index),
            Instr::Vector(VectorInstr::FloatBinary(VectorFloatBinary::F32x4Eq)),
            Instr::V128Const(-1),
            Instr::Vector(VectorInstr::Binary(VectorBinary::I64x2Eq)),
            Instr::Vector(VectorInstr::Binary(VectorBinary::V128And)),
            Instr::Vector(VectorInstr::ExtractLane(LaneExtract::I64x2, lane)),
        ],
    )?)
}

// Returns instructions that mix both halves of a local of `v128` into the sinks from `first` on.
fn mix_halves(alloc: Global, first: u32, index: u32) -> Result<Vec<Instr>, Error>
    requires room { first + 2 < 2 ^ 32 }
    ensures ok { IfOk result (λ made. made.items ≡ mix first index ValType.V128) }
    ensures memory { IfErr result (λ e. e ≡ Error.Memory) }
{
    let mut made = mix64(alloc, first + 1, half(alloc, index, 0)?)?;
    made.append(&mut mix64(alloc, first + 2, half(alloc, index, 1)?)?)?;
    Ok(made)
}

// Returns instructions that mix a local of the type `value` into the sinks from `first` on.
fn mix(alloc: Global, first: u32, index: u32, value: ValType) -> Result<Vec<Instr>, Error>
    requires room { first + 2 < 2 ^ 32 }
    ensures ok { IfOk result (λ made. made.items ≡ mix first index value) }
    ensures memory { IfErr result (λ e. e ≡ Error.Memory) }
{
    match value {
        ValType::I32 => mix32(
            alloc,
            first,
            Vec::from_array(alloc, [Instr::LocalGet(index)])?,
        ),
        ValType::I64 => mix64(
            alloc,
            first + 1,
            Vec::from_array(alloc, [Instr::LocalGet(index)])?,
        ),
        ValType::F32 => mix32(alloc, first, bits32(alloc, index)?),
        ValType::F64 => mix64(alloc, first + 1, bits64(alloc, index)?),
        ValType::V128 => mix_halves(alloc, first, index),
        ValType::Ref(_) => Ok(Vec::new(alloc)),
    }
}

/// Returns the instructions that mix the values of `locals`, or of the first 1,000 of them, into
/// the sinks from `first` on.
///
/// # Errors
///
/// Returns `Memory` if an allocation fails, and no other error.
pub(crate) fn mixes(alloc: Global, first: u32, locals: &[ValType]) -> Result<Vec<Instr>, Error>
    requires room { first + 2 < 2 ^ 32 }
    ensures ok { IfOk result (λ made. made.items ≡ mixes first locals.now) }
    ensures memory { IfErr result (λ e. e ≡ Error.Memory) }
{
    let mut made = Vec::new(alloc);
    for index in 0..locals.len().min(1000) {
        made.append(&mut mix(alloc, first, index as u32, locals[index])?)?;
    }
    Ok(made)
}
