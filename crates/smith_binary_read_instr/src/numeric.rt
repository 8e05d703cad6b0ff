ghost use Rattle.std.specs.Prelude.{◌≡◌, ◌≤◌};
ghost use Rattle.smith_binary_read.specs.Readings.{Gives};
ghost use Rattle.smith_binary_read_instr.specs.NumericReadings.{
  int_unary_of,
  int_binary_of,
  int_compare_of,
  float_unary_of,
  float_binary_of,
  float_compare_of,
  truncation_of,
  conversion_of,
  extension_of,
  compare_of,
  int_operator_of,
  float_operator_of,
  numeric_of,
  numeric_at,
  saturating_of,
  const_at,
};

use smith_binary_read::{ReadError, Reader};
use smith_instr::{
    Conversion, FloatBinary, FloatCompare, FloatUnary, Instr, IntBinary, IntCompare, IntUnary,
    NumericInstr, SaturatingConversion, SignExtension, WideArithmetic,
};

#[tactic(auto, unfolding(crate::specs::NumericReadings::int_unary_of))]
fn int_unary_of(place: u8) -> IntUnary
    ensures { result ≡ int_unary_of place }
{
    match place {
        0 => IntUnary::Clz,
        1 => IntUnary::Ctz,
        _ => IntUnary::Popcnt,
    }
}

#[tactic(auto, unfolding(crate::specs::NumericReadings::int_binary_of))]
fn int_binary_of(place: u8) -> IntBinary
    ensures { result ≡ int_binary_of place }
{
    match place {
        0 => IntBinary::Add,
        1 => IntBinary::Sub,
        2 => IntBinary::Mul,
        3 => IntBinary::DivS,
        4 => IntBinary::DivU,
        5 => IntBinary::RemS,
        6 => IntBinary::RemU,
        7 => IntBinary::And,
        8 => IntBinary::Or,
        9 => IntBinary::Xor,
        10 => IntBinary::Shl,
        11 => IntBinary::ShrS,
        12 => IntBinary::ShrU,
        13 => IntBinary::Rotl,
        _ => IntBinary::Rotr,
    }
}

#[tactic(auto, unfolding(crate::specs::NumericReadings::int_compare_of))]
fn int_compare_of(place: u8) -> IntCompare
    ensures { result ≡ int_compare_of place }
{
    match place {
        0 => IntCompare::Eq,
        1 => IntCompare::Ne,
        2 => IntCompare::LtS,
        3 => IntCompare::LtU,
        4 => IntCompare::GtS,
        5 => IntCompare::GtU,
        6 => IntCompare::LeS,
        7 => IntCompare::LeU,
        8 => IntCompare::GeS,
        _ => IntCompare::GeU,
    }
}

#[tactic(auto, unfolding(crate::specs::NumericReadings::float_unary_of))]
fn float_unary_of(place: u8) -> FloatUnary
    ensures { result ≡ float_unary_of place }
{
    match place {
        0 => FloatUnary::Abs,
        1 => FloatUnary::Neg,
        2 => FloatUnary::Ceil,
        3 => FloatUnary::Floor,
        4 => FloatUnary::Trunc,
        5 => FloatUnary::Nearest,
        _ => FloatUnary::Sqrt,
    }
}

#[tactic(auto, unfolding(crate::specs::NumericReadings::float_binary_of))]
fn float_binary_of(place: u8) -> FloatBinary
    ensures { result ≡ float_binary_of place }
{
    match place {
        0 => FloatBinary::Add,
        1 => FloatBinary::Sub,
        2 => FloatBinary::Mul,
        3 => FloatBinary::Div,
        4 => FloatBinary::Min,
        5 => FloatBinary::Max,
        _ => FloatBinary::Copysign,
    }
}

#[tactic(auto, unfolding(crate::specs::NumericReadings::float_compare_of))]
fn float_compare_of(place: u8) -> FloatCompare
    ensures { result ≡ float_compare_of place }
{
    match place {
        0 => FloatCompare::Eq,
        1 => FloatCompare::Ne,
        2 => FloatCompare::Lt,
        3 => FloatCompare::Gt,
        4 => FloatCompare::Le,
        _ => FloatCompare::Ge,
    }
}

#[tactic(auto, unfolding(crate::specs::NumericReadings::truncation_of))]
fn truncation_of(byte: u8) -> Conversion
    ensures { result ≡ truncation_of byte }
{
    match byte {
        0xA7 => Conversion::I32WrapI64,
        0xA8 => Conversion::I32TruncF32S,
        0xA9 => Conversion::I32TruncF32U,
        0xAA => Conversion::I32TruncF64S,
        0xAB => Conversion::I32TruncF64U,
        0xAC => Conversion::I64ExtendI32S,
        0xAD => Conversion::I64ExtendI32U,
        0xAE => Conversion::I64TruncF32S,
        0xAF => Conversion::I64TruncF32U,
        0xB0 => Conversion::I64TruncF64S,
        _ => Conversion::I64TruncF64U,
    }
}

#[tactic(auto, unfolding(crate::specs::NumericReadings::conversion_of))]
fn conversion_of(byte: u8) -> Conversion
    ensures { result ≡ conversion_of byte }
{
    match byte {
        0xB2 => Conversion::F32ConvertI32S,
        0xB3 => Conversion::F32ConvertI32U,
        0xB4 => Conversion::F32ConvertI64S,
        0xB5 => Conversion::F32ConvertI64U,
        0xB6 => Conversion::F32DemoteF64,
        0xB7 => Conversion::F64ConvertI32S,
        0xB8 => Conversion::F64ConvertI32U,
        0xB9 => Conversion::F64ConvertI64S,
        0xBA => Conversion::F64ConvertI64U,
        0xBB => Conversion::F64PromoteF32,
        0xBC => Conversion::I32ReinterpretF32,
        0xBD => Conversion::I64ReinterpretF64,
        0xBE => Conversion::F32ReinterpretI32,
        _ => Conversion::F64ReinterpretI64,
    }
}

#[tactic(auto, unfolding(crate::specs::NumericReadings::extension_of))]
fn extension_of(byte: u8) -> SignExtension
    ensures { result ≡ extension_of byte }
{
    match byte {
        0xC0 => SignExtension::I32From8,
        0xC1 => SignExtension::I32From16,
        0xC2 => SignExtension::I64From8,
        0xC3 => SignExtension::I64From16,
        _ => SignExtension::I64From32,
    }
}

// Returns the test or the comparison of `byte`, up to 0x66.
#[tactic(auto, unfolding(crate::specs::NumericReadings::compare_of))]
fn compare_of(byte: u8) -> NumericInstr
    ensures { result ≡ compare_of byte }
{
    if byte < 0x46 {
        return NumericInstr::I32Eqz;
    }
    if byte < 0x50 {
        return NumericInstr::I32Compare(int_compare_of(byte - 0x46));
    }
    if byte < 0x51 {
        return NumericInstr::I64Eqz;
    }
    if byte < 0x5B {
        return NumericInstr::I64Compare(int_compare_of(byte - 0x51));
    }
    if byte < 0x61 {
        return NumericInstr::F32Compare(float_compare_of(byte - 0x5B));
    }
    NumericInstr::F64Compare(float_compare_of(byte - 0x61))
}

// Returns the operator of `byte` on integers, from 0x67 up to 0x8A.
#[tactic(auto, unfolding(crate::specs::NumericReadings::int_operator_of))]
fn int_operator_of(byte: u8) -> NumericInstr
    requires { 0x67 ≤ byte }
    ensures { result ≡ int_operator_of byte }
{
    if byte < 0x6A {
        return NumericInstr::I32Unary(int_unary_of(byte - 0x67));
    }
    if byte < 0x79 {
        return NumericInstr::I32Binary(int_binary_of(byte - 0x6A));
    }
    if byte < 0x7C {
        return NumericInstr::I64Unary(int_unary_of(byte - 0x79));
    }
    NumericInstr::I64Binary(int_binary_of(byte - 0x7C))
}

// Returns the operator of `byte` on floats, from 0x8B up to 0xA6.
#[tactic(auto, unfolding(crate::specs::NumericReadings::float_operator_of))]
fn float_operator_of(byte: u8) -> NumericInstr
    requires { 0x8B ≤ byte }
    ensures { result ≡ float_operator_of byte }
{
    if byte < 0x92 {
        return NumericInstr::F32Unary(float_unary_of(byte - 0x8B));
    }
    if byte < 0x99 {
        return NumericInstr::F32Binary(float_binary_of(byte - 0x92));
    }
    if byte < 0xA0 {
        return NumericInstr::F64Unary(float_unary_of(byte - 0x99));
    }
    NumericInstr::F64Binary(float_binary_of(byte - 0xA0))
}

// Returns the instruction of `byte`, from 0x45 up to 0xC4.
#[tactic(auto, unfolding(crate::specs::NumericReadings::numeric_of))]
fn numeric_of(byte: u8) -> NumericInstr
    ensures { result ≡ numeric_of byte }
{
    if byte < 0x67 {
        return compare_of(byte);
    }
    if byte < 0x8B {
        return int_operator_of(byte);
    }
    if byte < 0xA7 {
        return float_operator_of(byte);
    }
    if byte < 0xB2 {
        return NumericInstr::Convert(truncation_of(byte));
    }
    if byte < 0xC0 {
        return NumericInstr::Convert(conversion_of(byte));
    }
    NumericInstr::Extend(extension_of(byte))
}

// Reads a numeric instruction of one byte, from 0x45 up to 0xC4 (Numeric Instructions).
#[tactic(auto, unfolding(crate::specs::NumericReadings::numeric_at))]
#[inline(always)]
pub(crate) fn read_numeric(reader: &mut Reader<'_>) -> Result<Instr, ReadError>
    ensures { Gives result reader.new (numeric_at reader.old) }
{
    let byte = reader.read_byte()?;
    Ok(Instr::Numeric(numeric_of(byte)))
}

// Returns the numeric instruction of `number`, after the byte 0xFC.
#[tactic(auto, unfolding(crate::specs::NumericReadings::saturating_of))]
pub(crate) fn saturating_of(number: u32) -> Option<NumericInstr>
    ensures { result ≡ saturating_of number }
{
    match number {
        0 => Some(NumericInstr::Saturate(SaturatingConversion::I32TruncSatF32S)),
        1 => Some(NumericInstr::Saturate(SaturatingConversion::I32TruncSatF32U)),
        2 => Some(NumericInstr::Saturate(SaturatingConversion::I32TruncSatF64S)),
        3 => Some(NumericInstr::Saturate(SaturatingConversion::I32TruncSatF64U)),
        4 => Some(NumericInstr::Saturate(SaturatingConversion::I64TruncSatF32S)),
        5 => Some(NumericInstr::Saturate(SaturatingConversion::I64TruncSatF32U)),
        6 => Some(NumericInstr::Saturate(SaturatingConversion::I64TruncSatF64S)),
        7 => Some(NumericInstr::Saturate(SaturatingConversion::I64TruncSatF64U)),
        19 => Some(NumericInstr::Wide(WideArithmetic::Add128)),
        20 => Some(NumericInstr::Wide(WideArithmetic::Sub128)),
        21 => Some(NumericInstr::Wide(WideArithmetic::MulWideS)),
        22 => Some(NumericInstr::Wide(WideArithmetic::MulWideU)),
        _ => None,
    }
}

// Reads a constant, from 0x41 up to 0x44 (Numeric Instructions).
#[tactic(auto, unfolding(crate::specs::NumericReadings::const_at))]
#[inline(always)]
pub(crate) fn read_const(reader: &mut Reader<'_>) -> Result<Instr, ReadError>
    ensures { Gives result reader.new (const_at reader.old) }
{
    let byte = reader.read_byte()?;
    match byte {
        0x41 => Ok(Instr::I32Const(reader.read_s32()?)),
        0x42 => Ok(Instr::I64Const(reader.read_s64()?)),
        0x43 => Ok(Instr::F32Const(reader.read_f32()?)),
        _ => Ok(Instr::F64Const(reader.read_f64()?)),
    }
}
