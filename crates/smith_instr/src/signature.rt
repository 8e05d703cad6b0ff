ghost use Rattle.std.specs.Prelude.{◌≡◌};
ghost use Rattle.smith_instr.specs.NumericTypes.{
  conversion,
  saturating_conversion,
  sign_extension,
  signature,
  wide_arithmetic,
};
ghost use Rattle.smith_instr.specs.MemoryTypes.{loaded, stored};

use crate::memory::{Load, Store};
use crate::numeric::{
    Conversion, NumericInstr, SaturatingConversion, SignExtension, WideArithmetic,
};
use smith_types::ValType;

impl NumericInstr {
    /// Returns the types of the operands, the last on top.
    pub fn operands<'a>(self) -> &'a [ValType]
        ensures { result.now ≡ (signature self).operands }
    {
        match self {
            NumericInstr::I32Unary(_) | NumericInstr::I32Eqz => &[ValType::I32],
            NumericInstr::I64Unary(_) | NumericInstr::I64Eqz => &[ValType::I64],
            NumericInstr::F32Unary(_) => &[ValType::F32],
            NumericInstr::F64Unary(_) => &[ValType::F64],
            NumericInstr::I32Binary(_) | NumericInstr::I32Compare(_) => {
                &[ValType::I32, ValType::I32]
            }
            NumericInstr::I64Binary(_) | NumericInstr::I64Compare(_) => {
                &[ValType::I64, ValType::I64]
            }
            NumericInstr::F32Binary(_) | NumericInstr::F32Compare(_) => {
                &[ValType::F32, ValType::F32]
            }
            NumericInstr::F64Binary(_) | NumericInstr::F64Compare(_) => {
                &[ValType::F64, ValType::F64]
            }
            NumericInstr::Convert(op) => conversion_operands(op),
            NumericInstr::Saturate(op) => saturation_operands(op),
            NumericInstr::Extend(op) => extension_types(op),
            NumericInstr::Wide(op) => wide_operands(op),
        }
    }

    /// Returns the types of the results.
    pub fn results<'a>(self) -> &'a [ValType]
        ensures { result.now ≡ (signature self).results }
    {
        match self {
            NumericInstr::I32Unary(_) | NumericInstr::I32Binary(_) => &[ValType::I32],
            NumericInstr::I64Unary(_) | NumericInstr::I64Binary(_) => &[ValType::I64],
            NumericInstr::F32Unary(_) | NumericInstr::F32Binary(_) => &[ValType::F32],
            NumericInstr::F64Unary(_) | NumericInstr::F64Binary(_) => &[ValType::F64],
            NumericInstr::I32Eqz | NumericInstr::I64Eqz => &[ValType::I32],
            NumericInstr::I32Compare(_) | NumericInstr::I64Compare(_) => &[ValType::I32],
            NumericInstr::F32Compare(_) | NumericInstr::F64Compare(_) => &[ValType::I32],
            NumericInstr::Convert(op) => conversions(op),
            NumericInstr::Saturate(op) => saturations(op),
            NumericInstr::Extend(op) => extension_types(op),
            NumericInstr::Wide(_) => &[ValType::I64, ValType::I64],
        }
    }
}

/// Returns the types of the operands of the conversion `op`.
fn conversion_operands<'a>(op: Conversion) -> &'a [ValType]
    ensures { result.now ≡ (conversion op).operands }
{
    match op {
        Conversion::I64ExtendI32S | Conversion::I64ExtendI32U => &[ValType::I32],
        Conversion::F32ConvertI32S | Conversion::F32ConvertI32U => &[ValType::I32],
        Conversion::F64ConvertI32S | Conversion::F64ConvertI32U => &[ValType::I32],
        Conversion::F32ReinterpretI32 => &[ValType::I32],
        Conversion::F32ConvertI64S | Conversion::F32ConvertI64U => &[ValType::I64],
        Conversion::F64ConvertI64S | Conversion::F64ConvertI64U => &[ValType::I64],
        Conversion::I32WrapI64 | Conversion::F64ReinterpretI64 => &[ValType::I64],
        Conversion::I32TruncF32S | Conversion::I32TruncF32U => &[ValType::F32],
        Conversion::I64TruncF32S | Conversion::I64TruncF32U => &[ValType::F32],
        Conversion::F64PromoteF32 | Conversion::I32ReinterpretF32 => &[ValType::F32],
        Conversion::I32TruncF64S | Conversion::I32TruncF64U => &[ValType::F64],
        Conversion::I64TruncF64S | Conversion::I64TruncF64U => &[ValType::F64],
        Conversion::F32DemoteF64 | Conversion::I64ReinterpretF64 => &[ValType::F64],
    }
}

/// Returns the types of the results of the conversion `op`.
fn conversions<'a>(op: Conversion) -> &'a [ValType]
    ensures { result.now ≡ (conversion op).results }
{
    match op {
        Conversion::I32TruncF32S | Conversion::I32TruncF32U => &[ValType::I32],
        Conversion::I32TruncF64S | Conversion::I32TruncF64U => &[ValType::I32],
        Conversion::I32WrapI64 | Conversion::I32ReinterpretF32 => &[ValType::I32],
        Conversion::I64ExtendI32S | Conversion::I64ExtendI32U => &[ValType::I64],
        Conversion::I64TruncF32S | Conversion::I64TruncF32U => &[ValType::I64],
        Conversion::I64TruncF64S | Conversion::I64TruncF64U => &[ValType::I64],
        Conversion::I64ReinterpretF64 => &[ValType::I64],
        Conversion::F32ConvertI32S | Conversion::F32ConvertI32U => &[ValType::F32],
        Conversion::F32ConvertI64S | Conversion::F32ConvertI64U => &[ValType::F32],
        Conversion::F32DemoteF64 | Conversion::F32ReinterpretI32 => &[ValType::F32],
        Conversion::F64ConvertI32S | Conversion::F64ConvertI32U => &[ValType::F64],
        Conversion::F64ConvertI64S | Conversion::F64ConvertI64U => &[ValType::F64],
        Conversion::F64PromoteF32 | Conversion::F64ReinterpretI64 => &[ValType::F64],
    }
}

fn saturation_operands<'a>(op: SaturatingConversion) -> &'a [ValType]
    ensures { result.now ≡ (saturating_conversion op).operands }
{
    match op {
        SaturatingConversion::I32TruncSatF32S | SaturatingConversion::I32TruncSatF32U => {
            &[ValType::F32]
        }
        SaturatingConversion::I64TruncSatF32S | SaturatingConversion::I64TruncSatF32U => {
            &[ValType::F32]
        }
        SaturatingConversion::I32TruncSatF64S | SaturatingConversion::I32TruncSatF64U => {
            &[ValType::F64]
        }
        SaturatingConversion::I64TruncSatF64S | SaturatingConversion::I64TruncSatF64U => {
            &[ValType::F64]
        }
    }
}

fn saturations<'a>(op: SaturatingConversion) -> &'a [ValType]
    ensures { result.now ≡ (saturating_conversion op).results }
{
    match op {
        SaturatingConversion::I32TruncSatF32S | SaturatingConversion::I32TruncSatF32U => {
            &[ValType::I32]
        }
        SaturatingConversion::I32TruncSatF64S | SaturatingConversion::I32TruncSatF64U => {
            &[ValType::I32]
        }
        SaturatingConversion::I64TruncSatF32S | SaturatingConversion::I64TruncSatF32U => {
            &[ValType::I64]
        }
        SaturatingConversion::I64TruncSatF64S | SaturatingConversion::I64TruncSatF64U => {
            &[ValType::I64]
        }
    }
}

/// Returns the type of the operand and of the result of the sign extension `op`.
fn extension_types<'a>(op: SignExtension) -> &'a [ValType]
    ensures operands { result.now ≡ (sign_extension op).operands }
    ensures results { result.now ≡ (sign_extension op).results }
{
    match op {
        SignExtension::I32From8 | SignExtension::I32From16 => &[ValType::I32],
        SignExtension::I64From8 | SignExtension::I64From16 => &[ValType::I64],
        SignExtension::I64From32 => &[ValType::I64],
    }
}

fn wide_operands<'a>(op: WideArithmetic) -> &'a [ValType]
    ensures { result.now ≡ (wide_arithmetic op).operands }
{
    match op {
        WideArithmetic::Add128 | WideArithmetic::Sub128 => {
            &[ValType::I64, ValType::I64, ValType::I64, ValType::I64]
        }
        WideArithmetic::MulWideS | WideArithmetic::MulWideU => &[ValType::I64, ValType::I64],
    }
}

impl Load {
    /// Returns the type of the value.
    pub fn value(self) -> ValType
        ensures { result ≡ (loaded self).0 }
    {
        match self {
            Load::I32 | Load::I32From8S | Load::I32From8U => ValType::I32,
            Load::I32From16S | Load::I32From16U => ValType::I32,
            Load::I64 | Load::I64From8S | Load::I64From8U => ValType::I64,
            Load::I64From16S | Load::I64From16U => ValType::I64,
            Load::I64From32S | Load::I64From32U => ValType::I64,
            Load::F32 => ValType::F32,
            Load::F64 => ValType::F64,
        }
    }

    /// Returns the binary logarithm of the number of bytes that are read.
    pub fn log2_bytes(self) -> u32
        ensures { result ≡ (loaded self).1 }
    {
        match self {
            Load::I32From8S | Load::I32From8U | Load::I64From8S | Load::I64From8U => 0,
            Load::I32From16S | Load::I32From16U | Load::I64From16S | Load::I64From16U => 1,
            Load::I32 | Load::F32 | Load::I64From32S | Load::I64From32U => 2,
            Load::I64 | Load::F64 => 3,
        }
    }
}

impl Store {
    /// Returns the type of the value.
    pub fn value(self) -> ValType
        ensures { result ≡ (stored self).0 }
    {
        match self {
            Store::I32 | Store::I32To8 | Store::I32To16 => ValType::I32,
            Store::I64 | Store::I64To8 | Store::I64To16 | Store::I64To32 => ValType::I64,
            Store::F32 => ValType::F32,
            Store::F64 => ValType::F64,
        }
    }

    /// Returns the binary logarithm of the number of bytes that are written.
    pub fn log2_bytes(self) -> u32
        ensures { result ≡ (stored self).1 }
    {
        match self {
            Store::I32To8 | Store::I64To8 => 0,
            Store::I32To16 | Store::I64To16 => 1,
            Store::I32 | Store::F32 | Store::I64To32 => 2,
            Store::I64 | Store::F64 => 3,
        }
    }
}
