ghost use Rattle.std.specs.Prelude.{◌≡◌};
ghost use Rattle.smith_body_nodes.specs.NumericRows.{f32_rows, f64_rows, i32_rows, i64_rows};
ghost use Rattle.smith_body_nodes.specs.NumericRows.{numeric_rows};

use smith_instr::{
    Conversion, FloatBinary, FloatCompare, FloatUnary, IntBinary, IntCompare, IntUnary,
    NumericInstr, SaturatingConversion, SignExtension, WideArithmetic,
};
use smith_types::ValType;

/// Lists the numeric instructions whose first result has the type `wanted`.
pub(crate) fn numeric_rows<'a>(wanted: ValType) -> &'a [NumericInstr]
    ensures { result.now ≡ numeric_rows wanted }
{
    match wanted {
        ValType::I32 => i32_rows(),
        ValType::I64 => i64_rows(),
        ValType::F32 => f32_rows(),
        ValType::F64 => f64_rows(),
        ValType::V128 | ValType::Ref(_) => &[],
    }
}

fn i32_rows<'a>() -> &'a [NumericInstr]
    ensures { result.now ≡ i32_rows }
{
    &[
        NumericInstr::I32Unary(IntUnary::Clz),
        NumericInstr::I32Unary(IntUnary::Ctz),
        NumericInstr::I32Unary(IntUnary::Popcnt),
        NumericInstr::I32Binary(IntBinary::Add),
        NumericInstr::I32Binary(IntBinary::Sub),
        NumericInstr::I32Binary(IntBinary::Mul),
        NumericInstr::I32Binary(IntBinary::DivS),
        NumericInstr::I32Binary(IntBinary::DivU),
        NumericInstr::I32Binary(IntBinary::RemS),
        NumericInstr::I32Binary(IntBinary::RemU),
        NumericInstr::I32Binary(IntBinary::And),
        NumericInstr::I32Binary(IntBinary::Or),
        NumericInstr::I32Binary(IntBinary::Xor),
        NumericInstr::I32Binary(IntBinary::Shl),
        NumericInstr::I32Binary(IntBinary::ShrS),
        NumericInstr::I32Binary(IntBinary::ShrU),
        NumericInstr::I32Binary(IntBinary::Rotl),
        NumericInstr::I32Binary(IntBinary::Rotr),
        NumericInstr::I32Eqz,
        NumericInstr::I64Eqz,
        NumericInstr::I32Compare(IntCompare::Eq),
        NumericInstr::I32Compare(IntCompare::Ne),
        NumericInstr::I32Compare(IntCompare::LtS),
        NumericInstr::I32Compare(IntCompare::LtU),
        NumericInstr::I32Compare(IntCompare::GtS),
        NumericInstr::I32Compare(IntCompare::GtU),
        NumericInstr::I32Compare(IntCompare::LeS),
        NumericInstr::I32Compare(IntCompare::LeU),
        NumericInstr::I32Compare(IntCompare::GeS),
        NumericInstr::I32Compare(IntCompare::GeU),
        NumericInstr::I64Compare(IntCompare::Eq),
        NumericInstr::I64Compare(IntCompare::Ne),
        NumericInstr::I64Compare(IntCompare::LtS),
        NumericInstr::I64Compare(IntCompare::LtU),
        NumericInstr::I64Compare(IntCompare::GtS),
        NumericInstr::I64Compare(IntCompare::GtU),
        NumericInstr::I64Compare(IntCompare::LeS),
        NumericInstr::I64Compare(IntCompare::LeU),
        NumericInstr::I64Compare(IntCompare::GeS),
        NumericInstr::I64Compare(IntCompare::GeU),
        NumericInstr::F32Compare(FloatCompare::Eq),
        NumericInstr::F32Compare(FloatCompare::Ne),
        NumericInstr::F32Compare(FloatCompare::Lt),
        NumericInstr::F32Compare(FloatCompare::Gt),
        NumericInstr::F32Compare(FloatCompare::Le),
        NumericInstr::F32Compare(FloatCompare::Ge),
        NumericInstr::F64Compare(FloatCompare::Eq),
        NumericInstr::F64Compare(FloatCompare::Ne),
        NumericInstr::F64Compare(FloatCompare::Lt),
        NumericInstr::F64Compare(FloatCompare::Gt),
        NumericInstr::F64Compare(FloatCompare::Le),
        NumericInstr::F64Compare(FloatCompare::Ge),
        NumericInstr::Convert(Conversion::I32WrapI64),
        NumericInstr::Convert(Conversion::I32TruncF32S),
        NumericInstr::Convert(Conversion::I32TruncF32U),
        NumericInstr::Convert(Conversion::I32TruncF64S),
        NumericInstr::Convert(Conversion::I32TruncF64U),
        NumericInstr::Convert(Conversion::I32ReinterpretF32),
        NumericInstr::Saturate(SaturatingConversion::I32TruncSatF32S),
        NumericInstr::Saturate(SaturatingConversion::I32TruncSatF32U),
        NumericInstr::Saturate(SaturatingConversion::I32TruncSatF64S),
        NumericInstr::Saturate(SaturatingConversion::I32TruncSatF64U),
        NumericInstr::Extend(SignExtension::I32From8),
        NumericInstr::Extend(SignExtension::I32From16),
    ]
}

fn i64_rows<'a>() -> &'a [NumericInstr]
    ensures { result.now ≡ i64_rows }
{
    &[
        NumericInstr::I64Unary(IntUnary::Clz),
        NumericInstr::I64Unary(IntUnary::Ctz),
        NumericInstr::I64Unary(IntUnary::Popcnt),
        NumericInstr::I64Binary(IntBinary::Add),
        NumericInstr::I64Binary(IntBinary::Sub),
        NumericInstr::I64Binary(IntBinary::Mul),
        NumericInstr::I64Binary(IntBinary::DivS),
        NumericInstr::I64Binary(IntBinary::DivU),
        NumericInstr::I64Binary(IntBinary::RemS),
        NumericInstr::I64Binary(IntBinary::RemU),
        NumericInstr::I64Binary(IntBinary::And),
        NumericInstr::I64Binary(IntBinary::Or),
        NumericInstr::I64Binary(IntBinary::Xor),
        NumericInstr::I64Binary(IntBinary::Shl),
        NumericInstr::I64Binary(IntBinary::ShrS),
        NumericInstr::I64Binary(IntBinary::ShrU),
        NumericInstr::I64Binary(IntBinary::Rotl),
        NumericInstr::I64Binary(IntBinary::Rotr),
        NumericInstr::Convert(Conversion::I64ExtendI32S),
        NumericInstr::Convert(Conversion::I64ExtendI32U),
        NumericInstr::Convert(Conversion::I64TruncF32S),
        NumericInstr::Convert(Conversion::I64TruncF32U),
        NumericInstr::Convert(Conversion::I64TruncF64S),
        NumericInstr::Convert(Conversion::I64TruncF64U),
        NumericInstr::Convert(Conversion::I64ReinterpretF64),
        NumericInstr::Saturate(SaturatingConversion::I64TruncSatF32S),
        NumericInstr::Saturate(SaturatingConversion::I64TruncSatF32U),
        NumericInstr::Saturate(SaturatingConversion::I64TruncSatF64S),
        NumericInstr::Saturate(SaturatingConversion::I64TruncSatF64U),
        NumericInstr::Extend(SignExtension::I64From8),
        NumericInstr::Extend(SignExtension::I64From16),
        NumericInstr::Extend(SignExtension::I64From32),
        NumericInstr::Wide(WideArithmetic::Add128),
        NumericInstr::Wide(WideArithmetic::Sub128),
        NumericInstr::Wide(WideArithmetic::MulWideS),
        NumericInstr::Wide(WideArithmetic::MulWideU),
    ]
}

fn f32_rows<'a>() -> &'a [NumericInstr]
    ensures { result.now ≡ f32_rows }
{
    &[
        NumericInstr::F32Unary(FloatUnary::Abs),
        NumericInstr::F32Unary(FloatUnary::Neg),
        NumericInstr::F32Unary(FloatUnary::Ceil),
        NumericInstr::F32Unary(FloatUnary::Floor),
        NumericInstr::F32Unary(FloatUnary::Trunc),
        NumericInstr::F32Unary(FloatUnary::Nearest),
        NumericInstr::F32Unary(FloatUnary::Sqrt),
        NumericInstr::F32Binary(FloatBinary::Add),
        NumericInstr::F32Binary(FloatBinary::Sub),
        NumericInstr::F32Binary(FloatBinary::Mul),
        NumericInstr::F32Binary(FloatBinary::Div),
        NumericInstr::F32Binary(FloatBinary::Min),
        NumericInstr::F32Binary(FloatBinary::Max),
        NumericInstr::F32Binary(FloatBinary::Copysign),
        NumericInstr::Convert(Conversion::F32ConvertI32S),
        NumericInstr::Convert(Conversion::F32ConvertI32U),
        NumericInstr::Convert(Conversion::F32ConvertI64S),
        NumericInstr::Convert(Conversion::F32ConvertI64U),
        NumericInstr::Convert(Conversion::F32DemoteF64),
        NumericInstr::Convert(Conversion::F32ReinterpretI32),
    ]
}

fn f64_rows<'a>() -> &'a [NumericInstr]
    ensures { result.now ≡ f64_rows }
{
    &[
        NumericInstr::F64Unary(FloatUnary::Abs),
        NumericInstr::F64Unary(FloatUnary::Neg),
        NumericInstr::F64Unary(FloatUnary::Ceil),
        NumericInstr::F64Unary(FloatUnary::Floor),
        NumericInstr::F64Unary(FloatUnary::Trunc),
        NumericInstr::F64Unary(FloatUnary::Nearest),
        NumericInstr::F64Unary(FloatUnary::Sqrt),
        NumericInstr::F64Binary(FloatBinary::Add),
        NumericInstr::F64Binary(FloatBinary::Sub),
        NumericInstr::F64Binary(FloatBinary::Mul),
        NumericInstr::F64Binary(FloatBinary::Div),
        NumericInstr::F64Binary(FloatBinary::Min),
        NumericInstr::F64Binary(FloatBinary::Max),
        NumericInstr::F64Binary(FloatBinary::Copysign),
        NumericInstr::Convert(Conversion::F64ConvertI32S),
        NumericInstr::Convert(Conversion::F64ConvertI32U),
        NumericInstr::Convert(Conversion::F64ConvertI64S),
        NumericInstr::Convert(Conversion::F64ConvertI64U),
        NumericInstr::Convert(Conversion::F64PromoteF32),
        NumericInstr::Convert(Conversion::F64ReinterpretI64),
    ]
}
