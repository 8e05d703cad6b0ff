ghost use Rattle.std.specs.Prelude.{◌≡◌, OnOk, IfErr};
ghost use Rattle.smith_binary.specs.Numbers.{IsVector};
ghost use Rattle.smith_binary.specs.Pieces.{IsByte, Joined, Writes};
ghost use Rattle.smith_binary_sections.specs.Instructions.{IsExpressionIn, IsIndexIn, IsInstrIn};
ghost use Rattle.smith_binary_sections.specs.Instructions.{IsPrefixedIn};
ghost use Rattle.smith_binary_sections.specs.Instructions.{offset_of};
ghost use Rattle.smith_binary.specs.declared.error.EncodeError.TheVariants.{Memory};
ghost use Rattle.smith_binary.specs.Faults.{IsFault};
ghost use Rattle.smith_binary_sections.specs.Long.{IsNeverLong};

use crate::lists::{Encode, Plain, write_each};
use smith_binary::{EncodeError, Sink};
use smith_types::{ConstInstr, Items, Offset};

// Writes the instruction with the prefix `prefix` and the number `number`.
fn write_prefixed(prefix: u8, number: u32, sink: &mut Sink) -> Result<(), EncodeError>
    ensures writes { OnOk result (Writes (λ s. IsPrefixedIn s prefix number) sink.old sink.new) }
    ensures memory { IfErr result (λ e. e ≡ Memory) }
{
    sink.write_byte(prefix)?;
    sink.write_u32(number)
}

// Writes the instruction with the prefix `prefix` and the number `number`, then the index `index`.
fn write_prefixed_index(
    prefix: u8,
    number: u32,
    index: u32,
    sink: &mut Sink,
) -> Result<(), EncodeError>
    ensures writes { OnOk result
        (Writes (λ s. Joined (IsPrefixedIn s prefix number) (IsIndexIn s index)) sink.old sink.new) }
    ensures memory { IfErr result (λ e. e ≡ Memory) }
{
    write_prefixed(prefix, number, sink)?;
    sink.write_u32(index)
}

// Writes the constant `value`.
fn write_vector_const(value: i128, sink: &mut Sink) -> Result<(), EncodeError>
    ensures writes { OnOk result
        (Writes (λ s. Joined (IsPrefixedIn s 0xFD 12) (IsVector value)) sink.old sink.new) }
    ensures memory { IfErr result (λ e. e ≡ Memory) }
{
    write_prefixed(0xFD, 12, sink)?;
    sink.write_vector(value)
}

// Writes the instruction with the byte `byte`, then the index `index`.
fn write_indexed(byte: u8, index: u32, sink: &mut Sink) -> Result<(), EncodeError>
    ensures writes { OnOk result (Writes (λ s. Joined (IsByte byte) (IsIndexIn s index)) sink.old sink.new) }
    ensures memory { IfErr result (λ e. e ≡ Memory) }
{
    sink.write_byte(byte)?;
    sink.write_u32(index)
}

impl Encode for ConstInstr {
    ghost spells = { IsInstrIn };

    ghost is_long = { IsNeverLong };

    fn encode(&self, sink: &mut Sink) -> Result<(), EncodeError> {
        match self {
            ConstInstr::I32Const(value) => {
                sink.write_byte(0x41)?;
                sink.write_s32(*value)
            }
            ConstInstr::I64Const(value) => {
                sink.write_byte(0x42)?;
                sink.write_s64(*value)
            }
            ConstInstr::F32Const(bits) => {
                sink.write_byte(0x43)?;
                sink.write_f32(*bits)
            }
            ConstInstr::F64Const(bits) => {
                sink.write_byte(0x44)?;
                sink.write_f64(*bits)
            }
            ConstInstr::V128Const(value) => write_vector_const(*value, sink),
            ConstInstr::GlobalGet(index) => write_indexed(0x23, *index, sink),
            ConstInstr::RefNull(heap_type) => {
                sink.write_byte(0xD0)?;
                heap_type.encode(sink)
            }
            ConstInstr::RefFunc(index) => write_indexed(0xD2, *index, sink),
            ConstInstr::I32Add => sink.write_byte(0x6A),
            ConstInstr::I32Sub => sink.write_byte(0x6B),
            ConstInstr::I32Mul => sink.write_byte(0x6C),
            ConstInstr::I64Add => sink.write_byte(0x7C),
            ConstInstr::I64Sub => sink.write_byte(0x7D),
            ConstInstr::I64Mul => sink.write_byte(0x7E),
            ConstInstr::RefI31 => write_prefixed(0xFB, 28, sink),
            ConstInstr::RefI31Shared => write_prefixed(0xFE, 0x72, sink),
            ConstInstr::StructNew(index) => write_prefixed_index(0xFB, 0, *index, sink),
            ConstInstr::StructNewDefault(index) => write_prefixed_index(0xFB, 1, *index, sink),
            ConstInstr::ArrayNew(index) => write_prefixed_index(0xFB, 6, *index, sink),
            ConstInstr::ArrayNewDefault(index) => write_prefixed_index(0xFB, 7, *index, sink),
            ConstInstr::ArrayNewFixed {
                array_type_index,
                array_size,
            } => {
                write_prefixed(0xFB, 8, sink)?;
                sink.write_u32(*array_type_index)?;
                sink.write_u32(*array_size)
            }
            ConstInstr::AnyConvertExtern => write_prefixed(0xFB, 26, sink),
            ConstInstr::ExternConvertAny => write_prefixed(0xFB, 27, sink),
        }
    }
}

/// Writes `instructions` in order, then the end of the expression.
pub(crate) fn write_expression(
    instructions: &[ConstInstr],
    sink: &mut Sink,
) -> Result<(), EncodeError>
    ensures writes { OnOk result (Writes (λ s. IsExpressionIn s instructions.now) sink.old sink.new) }
    ensures memory { IfErr result (λ e. e ≡ Memory) }
{
    write_each(&Plain, instructions, sink)?;
    sink.write_byte(0x0B)
}

impl Encode for Items<ConstInstr> {
    ghost spells = { IsExpressionIn };

    ghost is_long = { IsNeverLong };

    fn encode(&self, sink: &mut Sink) -> Result<(), EncodeError> {
        write_expression(self.as_slice(), sink)
    }
}

impl Encode for Offset {
    ghost spells = { λ s offset. IsExpressionIn s (offset_of offset) };

    ghost is_long = { IsNeverLong };

    fn encode(&self, sink: &mut Sink) -> Result<(), EncodeError> {
        let instruction = match *self {
            Offset::Const32(value) => ConstInstr::I32Const(value),
            Offset::Const64(value) => ConstInstr::I64Const(value),
            Offset::Global(index) => ConstInstr::GlobalGet(index),
        };
        write_expression(&[instruction], sink)
    }
}

/// An index.
impl Encode for u32 {
    ghost spells = { IsIndexIn };

    ghost is_long = { IsNeverLong };

    fn encode(&self, sink: &mut Sink) -> Result<(), EncodeError> {
        sink.write_u32(*self)
    }
}
