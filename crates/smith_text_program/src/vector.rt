ghost use Rattle.std.specs.Prelude.{◌≡◌, ◌≤◌, false, is_err, length, OnOk};
ghost use Rattle.smith_text.specs.Written.{Writes};

use crate::keywords::{write_indexed, write_operator};
use smith_instr::{
    IntShape, LaneExtract, LaneShape, RelaxedBinary, RelaxedFloatBinary, RelaxedFloatTernary,
    RelaxedFloatUnary, RelaxedTernary, VectorBinary, VectorFloatBinary, VectorFloatUnary,
    VectorInstr, VectorShift, VectorUnary,
};
use smith_text::{Sink, TextForm};
use std::fmt;

// Returns the keyword of an operator.
fn unary(op: VectorUnary) -> &'static str
    ensures { 1 ≤ length result.now }
{
    match op {
        VectorUnary::V128Not => "v128.not",
        VectorUnary::I8x16Abs => "i8x16.abs",
        VectorUnary::I8x16Neg => "i8x16.neg",
        VectorUnary::I8x16Popcnt => "i8x16.popcnt",
        VectorUnary::I16x8Abs => "i16x8.abs",
        VectorUnary::I16x8Neg => "i16x8.neg",
        VectorUnary::I16x8ExtAddPairwiseI8x16S => "i16x8.extadd_pairwise_i8x16_s",
        VectorUnary::I16x8ExtAddPairwiseI8x16U => "i16x8.extadd_pairwise_i8x16_u",
        VectorUnary::I32x4Abs => "i32x4.abs",
        VectorUnary::I32x4Neg => "i32x4.neg",
        VectorUnary::I32x4ExtAddPairwiseI16x8S => "i32x4.extadd_pairwise_i16x8_s",
        VectorUnary::I32x4ExtAddPairwiseI16x8U => "i32x4.extadd_pairwise_i16x8_u",
        VectorUnary::I64x2Abs => "i64x2.abs",
        VectorUnary::I64x2Neg => "i64x2.neg",
        VectorUnary::I16x8ExtendLowI8x16S => "i16x8.extend_low_i8x16_s",
        VectorUnary::I16x8ExtendLowI8x16U => "i16x8.extend_low_i8x16_u",
        VectorUnary::I16x8ExtendHighI8x16S => "i16x8.extend_high_i8x16_s",
        VectorUnary::I16x8ExtendHighI8x16U => "i16x8.extend_high_i8x16_u",
        VectorUnary::I32x4ExtendLowI16x8S => "i32x4.extend_low_i16x8_s",
        VectorUnary::I32x4ExtendLowI16x8U => "i32x4.extend_low_i16x8_u",
        VectorUnary::I32x4ExtendHighI16x8S => "i32x4.extend_high_i16x8_s",
        VectorUnary::I32x4ExtendHighI16x8U => "i32x4.extend_high_i16x8_u",
        VectorUnary::I64x2ExtendLowI32x4S => "i64x2.extend_low_i32x4_s",
        VectorUnary::I64x2ExtendLowI32x4U => "i64x2.extend_low_i32x4_u",
        VectorUnary::I64x2ExtendHighI32x4S => "i64x2.extend_high_i32x4_s",
        VectorUnary::I64x2ExtendHighI32x4U => "i64x2.extend_high_i32x4_u",
    }
}

// Returns the keyword of an operator.
fn float_unary(op: VectorFloatUnary) -> &'static str
    ensures { 1 ≤ length result.now }
{
    match op {
        VectorFloatUnary::F32x4Abs => "f32x4.abs",
        VectorFloatUnary::F32x4Neg => "f32x4.neg",
        VectorFloatUnary::F32x4Sqrt => "f32x4.sqrt",
        VectorFloatUnary::F32x4Ceil => "f32x4.ceil",
        VectorFloatUnary::F32x4Floor => "f32x4.floor",
        VectorFloatUnary::F32x4Trunc => "f32x4.trunc",
        VectorFloatUnary::F32x4Nearest => "f32x4.nearest",
        VectorFloatUnary::F64x2Abs => "f64x2.abs",
        VectorFloatUnary::F64x2Neg => "f64x2.neg",
        VectorFloatUnary::F64x2Sqrt => "f64x2.sqrt",
        VectorFloatUnary::F64x2Ceil => "f64x2.ceil",
        VectorFloatUnary::F64x2Floor => "f64x2.floor",
        VectorFloatUnary::F64x2Trunc => "f64x2.trunc",
        VectorFloatUnary::F64x2Nearest => "f64x2.nearest",
        VectorFloatUnary::I32x4TruncSatF32x4S => "i32x4.trunc_sat_f32x4_s",
        VectorFloatUnary::I32x4TruncSatF32x4U => "i32x4.trunc_sat_f32x4_u",
        VectorFloatUnary::I32x4TruncSatF64x2SZero => "i32x4.trunc_sat_f64x2_s_zero",
        VectorFloatUnary::I32x4TruncSatF64x2UZero => "i32x4.trunc_sat_f64x2_u_zero",
        VectorFloatUnary::F32x4ConvertI32x4S => "f32x4.convert_i32x4_s",
        VectorFloatUnary::F32x4ConvertI32x4U => "f32x4.convert_i32x4_u",
        VectorFloatUnary::F64x2ConvertLowI32x4S => "f64x2.convert_low_i32x4_s",
        VectorFloatUnary::F64x2ConvertLowI32x4U => "f64x2.convert_low_i32x4_u",
        VectorFloatUnary::F32x4DemoteF64x2Zero => "f32x4.demote_f64x2_zero",
        VectorFloatUnary::F64x2PromoteLowF32x4 => "f64x2.promote_low_f32x4",
    }
}

// Returns the keyword of an operator.
fn binary(op: VectorBinary) -> &'static str
    ensures { 1 ≤ length result.now }
{
    match op {
        VectorBinary::V128And => "v128.and",
        VectorBinary::V128AndNot => "v128.andnot",
        VectorBinary::V128Or => "v128.or",
        VectorBinary::V128Xor => "v128.xor",
        VectorBinary::I8x16Swizzle => "i8x16.swizzle",
        VectorBinary::I8x16Eq => "i8x16.eq",
        VectorBinary::I8x16Ne => "i8x16.ne",
        VectorBinary::I8x16LtS => "i8x16.lt_s",
        VectorBinary::I8x16LtU => "i8x16.lt_u",
        VectorBinary::I8x16GtS => "i8x16.gt_s",
        VectorBinary::I8x16GtU => "i8x16.gt_u",
        VectorBinary::I8x16LeS => "i8x16.le_s",
        VectorBinary::I8x16LeU => "i8x16.le_u",
        VectorBinary::I8x16GeS => "i8x16.ge_s",
        VectorBinary::I8x16GeU => "i8x16.ge_u",
        VectorBinary::I16x8Eq => "i16x8.eq",
        VectorBinary::I16x8Ne => "i16x8.ne",
        VectorBinary::I16x8LtS => "i16x8.lt_s",
        VectorBinary::I16x8LtU => "i16x8.lt_u",
        VectorBinary::I16x8GtS => "i16x8.gt_s",
        VectorBinary::I16x8GtU => "i16x8.gt_u",
        VectorBinary::I16x8LeS => "i16x8.le_s",
        VectorBinary::I16x8LeU => "i16x8.le_u",
        VectorBinary::I16x8GeS => "i16x8.ge_s",
        VectorBinary::I16x8GeU => "i16x8.ge_u",
        VectorBinary::I32x4Eq => "i32x4.eq",
        VectorBinary::I32x4Ne => "i32x4.ne",
        VectorBinary::I32x4LtS => "i32x4.lt_s",
        VectorBinary::I32x4LtU => "i32x4.lt_u",
        VectorBinary::I32x4GtS => "i32x4.gt_s",
        VectorBinary::I32x4GtU => "i32x4.gt_u",
        VectorBinary::I32x4LeS => "i32x4.le_s",
        VectorBinary::I32x4LeU => "i32x4.le_u",
        VectorBinary::I32x4GeS => "i32x4.ge_s",
        VectorBinary::I32x4GeU => "i32x4.ge_u",
        VectorBinary::I64x2Eq => "i64x2.eq",
        VectorBinary::I64x2Ne => "i64x2.ne",
        VectorBinary::I64x2LtS => "i64x2.lt_s",
        VectorBinary::I64x2GtS => "i64x2.gt_s",
        VectorBinary::I64x2LeS => "i64x2.le_s",
        VectorBinary::I64x2GeS => "i64x2.ge_s",
        VectorBinary::I8x16Add => "i8x16.add",
        VectorBinary::I8x16AddSatS => "i8x16.add_sat_s",
        VectorBinary::I8x16AddSatU => "i8x16.add_sat_u",
        VectorBinary::I8x16Sub => "i8x16.sub",
        VectorBinary::I8x16SubSatS => "i8x16.sub_sat_s",
        VectorBinary::I8x16SubSatU => "i8x16.sub_sat_u",
        VectorBinary::I8x16MinS => "i8x16.min_s",
        VectorBinary::I8x16MinU => "i8x16.min_u",
        VectorBinary::I8x16MaxS => "i8x16.max_s",
        VectorBinary::I8x16MaxU => "i8x16.max_u",
        VectorBinary::I8x16AvgrU => "i8x16.avgr_u",
        VectorBinary::I8x16NarrowI16x8S => "i8x16.narrow_i16x8_s",
        VectorBinary::I8x16NarrowI16x8U => "i8x16.narrow_i16x8_u",
        VectorBinary::I16x8Add => "i16x8.add",
        VectorBinary::I16x8AddSatS => "i16x8.add_sat_s",
        VectorBinary::I16x8AddSatU => "i16x8.add_sat_u",
        VectorBinary::I16x8Sub => "i16x8.sub",
        VectorBinary::I16x8SubSatS => "i16x8.sub_sat_s",
        VectorBinary::I16x8SubSatU => "i16x8.sub_sat_u",
        VectorBinary::I16x8Mul => "i16x8.mul",
        VectorBinary::I16x8MinS => "i16x8.min_s",
        VectorBinary::I16x8MinU => "i16x8.min_u",
        VectorBinary::I16x8MaxS => "i16x8.max_s",
        VectorBinary::I16x8MaxU => "i16x8.max_u",
        VectorBinary::I16x8AvgrU => "i16x8.avgr_u",
        VectorBinary::I16x8Q15MulrSatS => "i16x8.q15mulr_sat_s",
        VectorBinary::I16x8NarrowI32x4S => "i16x8.narrow_i32x4_s",
        VectorBinary::I16x8NarrowI32x4U => "i16x8.narrow_i32x4_u",
        VectorBinary::I16x8ExtMulLowI8x16S => "i16x8.extmul_low_i8x16_s",
        VectorBinary::I16x8ExtMulLowI8x16U => "i16x8.extmul_low_i8x16_u",
        VectorBinary::I16x8ExtMulHighI8x16S => "i16x8.extmul_high_i8x16_s",
        VectorBinary::I16x8ExtMulHighI8x16U => "i16x8.extmul_high_i8x16_u",
        VectorBinary::I32x4Add => "i32x4.add",
        VectorBinary::I32x4Sub => "i32x4.sub",
        VectorBinary::I32x4Mul => "i32x4.mul",
        VectorBinary::I32x4MinS => "i32x4.min_s",
        VectorBinary::I32x4MinU => "i32x4.min_u",
        VectorBinary::I32x4MaxS => "i32x4.max_s",
        VectorBinary::I32x4MaxU => "i32x4.max_u",
        VectorBinary::I32x4DotI16x8S => "i32x4.dot_i16x8_s",
        VectorBinary::I32x4ExtMulLowI16x8S => "i32x4.extmul_low_i16x8_s",
        VectorBinary::I32x4ExtMulLowI16x8U => "i32x4.extmul_low_i16x8_u",
        VectorBinary::I32x4ExtMulHighI16x8S => "i32x4.extmul_high_i16x8_s",
        VectorBinary::I32x4ExtMulHighI16x8U => "i32x4.extmul_high_i16x8_u",
        VectorBinary::I64x2Add => "i64x2.add",
        VectorBinary::I64x2Sub => "i64x2.sub",
        VectorBinary::I64x2Mul => "i64x2.mul",
        VectorBinary::I64x2ExtMulLowI32x4S => "i64x2.extmul_low_i32x4_s",
        VectorBinary::I64x2ExtMulLowI32x4U => "i64x2.extmul_low_i32x4_u",
        VectorBinary::I64x2ExtMulHighI32x4S => "i64x2.extmul_high_i32x4_s",
        VectorBinary::I64x2ExtMulHighI32x4U => "i64x2.extmul_high_i32x4_u",
    }
}

// Returns the keyword of an operator.
fn float_binary(op: VectorFloatBinary) -> &'static str
    ensures { 1 ≤ length result.now }
{
    match op {
        VectorFloatBinary::F32x4Eq => "f32x4.eq",
        VectorFloatBinary::F32x4Ne => "f32x4.ne",
        VectorFloatBinary::F32x4Lt => "f32x4.lt",
        VectorFloatBinary::F32x4Gt => "f32x4.gt",
        VectorFloatBinary::F32x4Le => "f32x4.le",
        VectorFloatBinary::F32x4Ge => "f32x4.ge",
        VectorFloatBinary::F32x4Add => "f32x4.add",
        VectorFloatBinary::F32x4Sub => "f32x4.sub",
        VectorFloatBinary::F32x4Mul => "f32x4.mul",
        VectorFloatBinary::F32x4Div => "f32x4.div",
        VectorFloatBinary::F32x4Min => "f32x4.min",
        VectorFloatBinary::F32x4Max => "f32x4.max",
        VectorFloatBinary::F32x4Pmin => "f32x4.pmin",
        VectorFloatBinary::F32x4Pmax => "f32x4.pmax",
        VectorFloatBinary::F64x2Eq => "f64x2.eq",
        VectorFloatBinary::F64x2Ne => "f64x2.ne",
        VectorFloatBinary::F64x2Lt => "f64x2.lt",
        VectorFloatBinary::F64x2Gt => "f64x2.gt",
        VectorFloatBinary::F64x2Le => "f64x2.le",
        VectorFloatBinary::F64x2Ge => "f64x2.ge",
        VectorFloatBinary::F64x2Add => "f64x2.add",
        VectorFloatBinary::F64x2Sub => "f64x2.sub",
        VectorFloatBinary::F64x2Mul => "f64x2.mul",
        VectorFloatBinary::F64x2Div => "f64x2.div",
        VectorFloatBinary::F64x2Min => "f64x2.min",
        VectorFloatBinary::F64x2Max => "f64x2.max",
        VectorFloatBinary::F64x2Pmin => "f64x2.pmin",
        VectorFloatBinary::F64x2Pmax => "f64x2.pmax",
    }
}

// Returns the keyword of a relaxed operator.
fn relaxed_float_unary(op: RelaxedFloatUnary) -> &'static str
    ensures { 1 ≤ length result.now }
{
    match op {
        RelaxedFloatUnary::I32x4TruncF32x4S => "i32x4.relaxed_trunc_f32x4_s",
        RelaxedFloatUnary::I32x4TruncF32x4U => "i32x4.relaxed_trunc_f32x4_u",
        RelaxedFloatUnary::I32x4TruncF64x2SZero => "i32x4.relaxed_trunc_f64x2_s_zero",
        RelaxedFloatUnary::I32x4TruncF64x2UZero => "i32x4.relaxed_trunc_f64x2_u_zero",
    }
}

// Returns the keyword of a relaxed operator.
fn relaxed_binary(op: RelaxedBinary) -> &'static str
    ensures { 1 ≤ length result.now }
{
    match op {
        RelaxedBinary::I8x16Swizzle => "i8x16.relaxed_swizzle",
        RelaxedBinary::I16x8Q15MulrS => "i16x8.relaxed_q15mulr_s",
        RelaxedBinary::I16x8DotI8x16I7x16S => "i16x8.relaxed_dot_i8x16_i7x16_s",
    }
}

// Returns the keyword of a relaxed operator.
fn relaxed_float_binary(op: RelaxedFloatBinary) -> &'static str
    ensures { 1 ≤ length result.now }
{
    match op {
        RelaxedFloatBinary::F32x4Min => "f32x4.relaxed_min",
        RelaxedFloatBinary::F32x4Max => "f32x4.relaxed_max",
        RelaxedFloatBinary::F64x2Min => "f64x2.relaxed_min",
        RelaxedFloatBinary::F64x2Max => "f64x2.relaxed_max",
    }
}

// Returns the keyword of a relaxed operator.
fn relaxed_ternary(op: RelaxedTernary) -> &'static str
    ensures { 1 ≤ length result.now }
{
    match op {
        RelaxedTernary::I8x16Laneselect => "i8x16.relaxed_laneselect",
        RelaxedTernary::I16x8Laneselect => "i16x8.relaxed_laneselect",
        RelaxedTernary::I32x4Laneselect => "i32x4.relaxed_laneselect",
        RelaxedTernary::I64x2Laneselect => "i64x2.relaxed_laneselect",
        RelaxedTernary::I32x4DotI8x16I7x16AddS => "i32x4.relaxed_dot_i8x16_i7x16_add_s",
    }
}

// Returns the keyword of a relaxed operator.
fn relaxed_float_ternary(op: RelaxedFloatTernary) -> &'static str
    ensures { 1 ≤ length result.now }
{
    match op {
        RelaxedFloatTernary::F32x4Madd => "f32x4.relaxed_madd",
        RelaxedFloatTernary::F32x4Nmadd => "f32x4.relaxed_nmadd",
        RelaxedFloatTernary::F64x2Madd => "f64x2.relaxed_madd",
        RelaxedFloatTernary::F64x2Nmadd => "f64x2.relaxed_nmadd",
    }
}

// Returns the keyword of a shape.
fn int_shape(shape: IntShape) -> &'static str {
    match shape {
        IntShape::I8x16 => "i8x16",
        IntShape::I16x8 => "i16x8",
        IntShape::I32x4 => "i32x4",
        IntShape::I64x2 => "i64x2",
    }
}

// Returns the keyword of a shape.
fn lane_shape(shape: LaneShape) -> &'static str {
    match shape {
        LaneShape::I8x16 => "i8x16",
        LaneShape::I16x8 => "i16x8",
        LaneShape::I32x4 => "i32x4",
        LaneShape::I64x2 => "i64x2",
        LaneShape::F32x4 => "f32x4",
        LaneShape::F64x2 => "f64x2",
    }
}

// Returns the keyword of an extraction.
fn extract(op: LaneExtract) -> &'static str
    ensures { 1 ≤ length result.now }
{
    match op {
        LaneExtract::I8x16S => "i8x16.extract_lane_s",
        LaneExtract::I8x16U => "i8x16.extract_lane_u",
        LaneExtract::I16x8S => "i16x8.extract_lane_s",
        LaneExtract::I16x8U => "i16x8.extract_lane_u",
        LaneExtract::I32x4 => "i32x4.extract_lane",
        LaneExtract::I64x2 => "i64x2.extract_lane",
        LaneExtract::F32x4 => "f32x4.extract_lane",
        LaneExtract::F64x2 => "f64x2.extract_lane",
    }
}

// Returns the keyword of a shift, after its shape.
fn shift(op: VectorShift) -> &'static str {
    match op {
        VectorShift::Shl => "shl",
        VectorShift::ShrS => "shr_s",
        VectorShift::ShrU => "shr_u",
    }
}

// Writes a shuffle of `lanes`.
fn write_shuffle<S: Sink>(lanes: &[u8], sink: &mut S) -> fmt::Result
    requires open { S.failed sink.old ≡ false }
    ensures fault { S.failed sink.new ≡ is_err result }
    ensures writes { OnOk result (Writes S.has sink.old 1 sink.new) }
{
    sink.write_str("i8x16.shuffle")?;
    for lane in lanes {
        (" ", u32::from(*lane)).write_text(sink)?;
    }
    Ok(())
}

// Writes the replacement of a lane.
fn write_replacement<S: Sink>(shape: LaneShape, lane: u8, sink: &mut S) -> fmt::Result
    requires open { S.failed sink.old ≡ false }
    ensures fault { S.failed sink.new ≡ is_err result }
    ensures writes { OnOk result (Writes S.has sink.old 1 sink.new) }
{
    write!(sink, "{}.replace_lane {lane}", lane_shape(shape))
}

/// Writes a vector instruction that accesses no memory.
pub(crate) fn write_vector<S: Sink>(instruction: VectorInstr, sink: &mut S) -> fmt::Result
    requires open { S.failed sink.old ≡ false }
    ensures fault { S.failed sink.new ≡ is_err result }
    ensures writes { OnOk result (Writes S.has sink.old 1 sink.new) }
{
    match instruction {
        VectorInstr::Unary(op) => sink.write_str(unary(op)),
        VectorInstr::FloatUnary(op) => sink.write_str(float_unary(op)),
        VectorInstr::Binary(op) => sink.write_str(binary(op)),
        VectorInstr::FloatBinary(op) => sink.write_str(float_binary(op)),
        VectorInstr::Bitselect => sink.write_str("v128.bitselect"),
        VectorInstr::AnyTrue => sink.write_str("v128.any_true"),
        VectorInstr::AllTrue(shape) => write_operator(int_shape(shape), "all_true", sink),
        VectorInstr::Bitmask(shape) => write_operator(int_shape(shape), "bitmask", sink),
        VectorInstr::Shift(op, shape) => write_operator(int_shape(shape), shift(op), sink),
        VectorInstr::Splat(shape) => write_operator(lane_shape(shape), "splat", sink),
        VectorInstr::ExtractLane(op, lane) => write_indexed(extract(op), u32::from(lane), sink),
        VectorInstr::ReplaceLane(shape, lane) => write_replacement(shape, lane, sink),
        VectorInstr::Shuffle(lanes) => write_shuffle(&lanes, sink),
        VectorInstr::RelaxedFloatUnary(op) => sink.write_str(relaxed_float_unary(op)),
        VectorInstr::RelaxedBinary(op) => sink.write_str(relaxed_binary(op)),
        VectorInstr::RelaxedFloatBinary(op) => sink.write_str(relaxed_float_binary(op)),
        VectorInstr::RelaxedTernary(op) => sink.write_str(relaxed_ternary(op)),
        VectorInstr::RelaxedFloatTernary(op) => sink.write_str(relaxed_float_ternary(op)),
    }
}
