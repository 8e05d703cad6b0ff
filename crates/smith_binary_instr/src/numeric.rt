ghost use Rattle.std.specs.Prelude.{◌≡◌, ◌<◌, OnOk, IfErr};
ghost use Rattle.smith_binary.specs.declared.error.EncodeError.TheVariants.{Memory};
ghost use Rattle.smith_binary.specs.Pieces.{Writes};
ghost use Rattle.smith_binary_instr.specs.Numeric.{int_unary_opcode, int_binary_opcode};
ghost use Rattle.smith_binary_instr.specs.Numeric.{int_compare_opcode, float_unary_opcode};
ghost use Rattle.smith_binary_instr.specs.Numeric.{float_binary_opcode, float_compare_opcode};
ghost use Rattle.smith_binary_instr.specs.Numeric.{conversion_opcode, extension_opcode};
ghost use Rattle.smith_binary_instr.specs.Numeric.{saturating_number, wide_number, IsNumericIn};

use crate::prefix::write_prefixed;
use smith_binary::{EncodeError, Sink};
use smith_instr::{
    Conversion, FloatBinary, FloatCompare, FloatUnary, IntBinary, IntCompare, IntUnary,
    NumericInstr, SaturatingConversion, SignExtension, WideArithmetic,
};

// Returns the opcode of the unary operator `op` of integers. `first` is the lowest of these
// opcodes.
fn int_unary_opcode(first: u8, op: IntUnary) -> u8
    requires { first < 200 }
    ensures { result ≡ int_unary_opcode first op }
{
    first + op as u8
}

// Returns the opcode of the binary operator `op` of integers. `first` is the lowest of these
// opcodes.
fn int_binary_opcode(first: u8, op: IntBinary) -> u8
    requires { first < 200 }
    ensures { result ≡ int_binary_opcode first op }
{
    first + op as u8
}

// Returns the opcode of the comparison `op` of integers. `first` is the lowest of these opcodes.
fn int_compare_opcode(first: u8, op: IntCompare) -> u8
    requires { first < 200 }
    ensures { result ≡ int_compare_opcode first op }
{
    first + op as u8
}

// Returns the opcode of the unary operator `op` of floats. `first` is the lowest of these opcodes.
fn float_unary_opcode(first: u8, op: FloatUnary) -> u8
    requires { first < 200 }
    ensures { result ≡ float_unary_opcode first op }
{
    first + op as u8
}

// Returns the opcode of the binary operator `op` of floats. `first` is the lowest of these opcodes.
fn float_binary_opcode(first: u8, op: FloatBinary) -> u8
    requires { first < 200 }
    ensures { result ≡ float_binary_opcode first op }
{
    first + op as u8
}

// Returns the opcode of the comparison `op` of floats. `first` is the lowest of these opcodes.
fn float_compare_opcode(first: u8, op: FloatCompare) -> u8
    requires { first < 200 }
    ensures { result ≡ float_compare_opcode first op }
{
    first + op as u8
}

// Returns the opcode of a conversion.
fn conversion_opcode(op: Conversion) -> u8
    ensures { result ≡ conversion_opcode op }
{
    op as u8
}

// Returns the opcode of a sign extension.
fn extension_opcode(op: SignExtension) -> u8
    ensures { result ≡ extension_opcode op }
{
    op as u8
}

// Returns the number of a saturating conversion, after its prefix.
fn saturating_number(op: SaturatingConversion) -> u32
    ensures { result ≡ saturating_number op }
{
    op as u32
}

// Returns the number of wide arithmetic, after its prefix.
fn wide_number(op: WideArithmetic) -> u32
    ensures { result ≡ wide_number op }
{
    op as u32
}

/// Writes the numeric instruction `instruction` at the end of `sink`: see the standard, section
/// Binary Format, Instructions, Numeric Instructions.
pub fn write_numeric(instruction: NumericInstr, sink: &mut Sink) -> Result<(), EncodeError>
    ensures writes { OnOk result (Writes (λ s. IsNumericIn s instruction) sink.old sink.new) }
    ensures memory { IfErr result (λ e. e ≡ Memory) }
{
    match instruction {
        NumericInstr::I32Eqz => sink.write_byte(0x45),
        NumericInstr::I32Compare(op) => sink.write_byte(int_compare_opcode(0x46, op)),
        NumericInstr::I64Eqz => sink.write_byte(0x50),
        NumericInstr::I64Compare(op) => sink.write_byte(int_compare_opcode(0x51, op)),
        NumericInstr::F32Compare(op) => sink.write_byte(float_compare_opcode(0x5B, op)),
        NumericInstr::F64Compare(op) => sink.write_byte(float_compare_opcode(0x61, op)),
        NumericInstr::I32Unary(op) => sink.write_byte(int_unary_opcode(0x67, op)),
        NumericInstr::I32Binary(op) => sink.write_byte(int_binary_opcode(0x6A, op)),
        NumericInstr::I64Unary(op) => sink.write_byte(int_unary_opcode(0x79, op)),
        NumericInstr::I64Binary(op) => sink.write_byte(int_binary_opcode(0x7C, op)),
        NumericInstr::F32Unary(op) => sink.write_byte(float_unary_opcode(0x8B, op)),
        NumericInstr::F32Binary(op) => sink.write_byte(float_binary_opcode(0x92, op)),
        NumericInstr::F64Unary(op) => sink.write_byte(float_unary_opcode(0x99, op)),
        NumericInstr::F64Binary(op) => sink.write_byte(float_binary_opcode(0xA0, op)),
        NumericInstr::Convert(op) => sink.write_byte(conversion_opcode(op)),
        NumericInstr::Extend(op) => sink.write_byte(extension_opcode(op)),
        NumericInstr::Saturate(op) => write_prefixed(0xFC, saturating_number(op), sink),
        NumericInstr::Wide(op) => write_prefixed(0xFC, wide_number(op), sink),
    }
}
