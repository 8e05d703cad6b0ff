ghost use Rattle.std.specs.Prelude.{◌≡◌, ◌≤◌, false, is_err, length, OnOk};
ghost use Rattle.smith_text.specs.Written.{Writes};

use crate::keywords::write_operator;
use smith_instr::{
    Conversion, FloatBinary, FloatCompare, FloatUnary, IntBinary, IntCompare, IntUnary,
    NumericInstr, SaturatingConversion, SignExtension, WideArithmetic,
};
use smith_text::Sink;
use std::fmt;

// Returns the keyword of an operator, after its type.
fn int_unary(op: IntUnary) -> &'static str {
    match op {
        IntUnary::Clz => "clz",
        IntUnary::Ctz => "ctz",
        IntUnary::Popcnt => "popcnt",
    }
}

fn int_binary(op: IntBinary) -> &'static str {
    match op {
        IntBinary::Add => "add",
        IntBinary::Sub => "sub",
        IntBinary::Mul => "mul",
        IntBinary::DivS => "div_s",
        IntBinary::DivU => "div_u",
        IntBinary::RemS => "rem_s",
        IntBinary::RemU => "rem_u",
        IntBinary::And => "and",
        IntBinary::Or => "or",
        IntBinary::Xor => "xor",
        IntBinary::Shl => "shl",
        IntBinary::ShrS => "shr_s",
        IntBinary::ShrU => "shr_u",
        IntBinary::Rotl => "rotl",
        IntBinary::Rotr => "rotr",
    }
}

fn int_compare(op: IntCompare) -> &'static str {
    match op {
        IntCompare::Eq => "eq",
        IntCompare::Ne => "ne",
        IntCompare::LtS => "lt_s",
        IntCompare::LtU => "lt_u",
        IntCompare::GtS => "gt_s",
        IntCompare::GtU => "gt_u",
        IntCompare::LeS => "le_s",
        IntCompare::LeU => "le_u",
        IntCompare::GeS => "ge_s",
        IntCompare::GeU => "ge_u",
    }
}

fn float_unary(op: FloatUnary) -> &'static str {
    match op {
        FloatUnary::Abs => "abs",
        FloatUnary::Neg => "neg",
        FloatUnary::Ceil => "ceil",
        FloatUnary::Floor => "floor",
        FloatUnary::Trunc => "trunc",
        FloatUnary::Nearest => "nearest",
        FloatUnary::Sqrt => "sqrt",
    }
}

fn float_binary(op: FloatBinary) -> &'static str {
    match op {
        FloatBinary::Add => "add",
        FloatBinary::Sub => "sub",
        FloatBinary::Mul => "mul",
        FloatBinary::Div => "div",
        FloatBinary::Min => "min",
        FloatBinary::Max => "max",
        FloatBinary::Copysign => "copysign",
    }
}

fn float_compare(op: FloatCompare) -> &'static str {
    match op {
        FloatCompare::Eq => "eq",
        FloatCompare::Ne => "ne",
        FloatCompare::Lt => "lt",
        FloatCompare::Gt => "gt",
        FloatCompare::Le => "le",
        FloatCompare::Ge => "ge",
    }
}

// Returns the keyword of a conversion.
fn conversion(op: Conversion) -> &'static str
    ensures { 1 ≤ length result.now }
{
    match op {
        Conversion::I32WrapI64 => "i32.wrap_i64",
        Conversion::I64ExtendI32S => "i64.extend_i32_s",
        Conversion::I64ExtendI32U => "i64.extend_i32_u",
        Conversion::I32TruncF32S => "i32.trunc_f32_s",
        Conversion::I32TruncF32U => "i32.trunc_f32_u",
        Conversion::I32TruncF64S => "i32.trunc_f64_s",
        Conversion::I32TruncF64U => "i32.trunc_f64_u",
        Conversion::I64TruncF32S => "i64.trunc_f32_s",
        Conversion::I64TruncF32U => "i64.trunc_f32_u",
        Conversion::I64TruncF64S => "i64.trunc_f64_s",
        Conversion::I64TruncF64U => "i64.trunc_f64_u",
        Conversion::F32ConvertI32S => "f32.convert_i32_s",
        Conversion::F32ConvertI32U => "f32.convert_i32_u",
        Conversion::F32ConvertI64S => "f32.convert_i64_s",
        Conversion::F32ConvertI64U => "f32.convert_i64_u",
        Conversion::F32DemoteF64 => "f32.demote_f64",
        Conversion::F64ConvertI32S => "f64.convert_i32_s",
        Conversion::F64ConvertI32U => "f64.convert_i32_u",
        Conversion::F64ConvertI64S => "f64.convert_i64_s",
        Conversion::F64ConvertI64U => "f64.convert_i64_u",
        Conversion::F64PromoteF32 => "f64.promote_f32",
        Conversion::I32ReinterpretF32 => "i32.reinterpret_f32",
        Conversion::I64ReinterpretF64 => "i64.reinterpret_f64",
        Conversion::F32ReinterpretI32 => "f32.reinterpret_i32",
        Conversion::F64ReinterpretI64 => "f64.reinterpret_i64",
    }
}

// Returns the keyword of a saturating conversion.
fn saturating(op: SaturatingConversion) -> &'static str
    ensures { 1 ≤ length result.now }
{
    match op {
        SaturatingConversion::I32TruncSatF32S => "i32.trunc_sat_f32_s",
        SaturatingConversion::I32TruncSatF32U => "i32.trunc_sat_f32_u",
        SaturatingConversion::I32TruncSatF64S => "i32.trunc_sat_f64_s",
        SaturatingConversion::I32TruncSatF64U => "i32.trunc_sat_f64_u",
        SaturatingConversion::I64TruncSatF32S => "i64.trunc_sat_f32_s",
        SaturatingConversion::I64TruncSatF32U => "i64.trunc_sat_f32_u",
        SaturatingConversion::I64TruncSatF64S => "i64.trunc_sat_f64_s",
        SaturatingConversion::I64TruncSatF64U => "i64.trunc_sat_f64_u",
    }
}

// Returns the keyword of a sign extension.
fn extension(op: SignExtension) -> &'static str
    ensures { 1 ≤ length result.now }
{
    match op {
        SignExtension::I32From8 => "i32.extend8_s",
        SignExtension::I32From16 => "i32.extend16_s",
        SignExtension::I64From8 => "i64.extend8_s",
        SignExtension::I64From16 => "i64.extend16_s",
        SignExtension::I64From32 => "i64.extend32_s",
    }
}

// Returns the keyword of wide arithmetic.
fn wide(op: WideArithmetic) -> &'static str
    ensures { 1 ≤ length result.now }
{
    match op {
        WideArithmetic::Add128 => "i64.add128",
        WideArithmetic::Sub128 => "i64.sub128",
        WideArithmetic::MulWideS => "i64.mul_wide_s",
        WideArithmetic::MulWideU => "i64.mul_wide_u",
    }
}

/// Writes a numeric instruction without immediates.
pub(crate) fn write_numeric<S: Sink>(instruction: NumericInstr, sink: &mut S) -> fmt::Result
    requires open { S.failed sink.old ≡ false }
    ensures fault { S.failed sink.new ≡ is_err result }
    ensures writes { OnOk result (Writes S.has sink.old 1 sink.new) }
{
    match instruction {
        NumericInstr::I32Unary(op) => write_operator("i32", int_unary(op), sink),
        NumericInstr::I64Unary(op) => write_operator("i64", int_unary(op), sink),
        NumericInstr::F32Unary(op) => write_operator("f32", float_unary(op), sink),
        NumericInstr::F64Unary(op) => write_operator("f64", float_unary(op), sink),
        NumericInstr::I32Binary(op) => write_operator("i32", int_binary(op), sink),
        NumericInstr::I64Binary(op) => write_operator("i64", int_binary(op), sink),
        NumericInstr::F32Binary(op) => write_operator("f32", float_binary(op), sink),
        NumericInstr::F64Binary(op) => write_operator("f64", float_binary(op), sink),
        NumericInstr::I32Compare(op) => write_operator("i32", int_compare(op), sink),
        NumericInstr::I64Compare(op) => write_operator("i64", int_compare(op), sink),
        NumericInstr::F32Compare(op) => write_operator("f32", float_compare(op), sink),
        NumericInstr::F64Compare(op) => write_operator("f64", float_compare(op), sink),
        NumericInstr::I32Eqz => sink.write_str("i32.eqz"),
        NumericInstr::I64Eqz => sink.write_str("i64.eqz"),
        NumericInstr::Convert(op) => sink.write_str(conversion(op)),
        NumericInstr::Saturate(op) => sink.write_str(saturating(op)),
        NumericInstr::Extend(op) => sink.write_str(extension(op)),
        NumericInstr::Wide(op) => sink.write_str(wide(op)),
    }
}
