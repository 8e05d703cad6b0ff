ghost use Rattle.std.specs.Prelude.{◌≡◌, OnOk, IfErr, length};
ghost use Rattle.smith_binary.specs.declared.error.EncodeError.TheVariants.{Memory};
ghost use Rattle.smith_binary.specs.Numbers.{IsVector};
ghost use Rattle.smith_binary.specs.Pieces.{IsByte, Joined, Writes};
ghost use Rattle.smith_binary_instr.specs.Vector.{IsLanes, IsNumberedIn, IsVectorInstrIn};

use crate::prefix::write_prefixed;
use crate::vector_numbers::{
    all_true_number, bitmask_number, extract_number, relaxed_binary_number,
    relaxed_float_binary_number, relaxed_float_ternary_number, relaxed_float_unary_number,
    relaxed_ternary_number, replace_number, shift_number, splat_number, vector_binary_number,
    vector_float_binary_number, vector_float_unary_number, vector_unary_number,
};
use smith_binary::{EncodeError, Sink};
use smith_instr::VectorInstr;

// Writes the vector instruction with the number `number`.
fn write_numbered(number: u32, sink: &mut Sink) -> Result<(), EncodeError>
    ensures writes { OnOk result (Writes (λ s. IsNumberedIn s number) sink.old sink.new) }
    ensures memory { IfErr result (λ e. e ≡ Memory) }
{
    write_prefixed(0xFD, number, sink)
}

// Writes the vector instruction with the number `number`, then the lane `lane`.
fn write_on_lane(number: u32, lane: u8, sink: &mut Sink) -> Result<(), EncodeError>
    ensures writes { OnOk result
        (Writes (λ s. Joined (IsNumberedIn s number) (IsByte lane)) sink.old sink.new) }
    ensures memory { IfErr result (λ e. e ≡ Memory) }
{
    write_numbered(number, sink)?;
    sink.write_byte(lane)
}

// Writes the shuffle of `lanes`.
fn write_shuffle(lanes: [u8; 16], sink: &mut Sink) -> Result<(), EncodeError>
    ensures writes { OnOk result
        (Writes (λ s. Joined (IsNumberedIn s 13) (IsLanes lanes)) sink.old sink.new) }
    ensures memory { IfErr result (λ e. e ≡ Memory) }
{
    write_numbered(13, sink)?;
    sink.write_bytes(&lanes)
}

// Writes the constant `value`.
pub(crate) fn write_vector_const(value: i128, sink: &mut Sink) -> Result<(), EncodeError>
    ensures writes { OnOk result
        (Writes (λ s. Joined (IsNumberedIn s 12) (IsVector value)) sink.old sink.new) }
    ensures memory { IfErr result (λ e. e ≡ Memory) }
{
    write_numbered(12, sink)?;
    sink.write_vector(value)
}

// Writes the vector instruction `instruction`.
pub(crate) fn write_vector(instruction: VectorInstr, sink: &mut Sink) -> Result<(), EncodeError>
    ensures writes { OnOk result (Writes (λ s. IsVectorInstrIn s instruction) sink.old sink.new) }
    ensures memory { IfErr result (λ e. e ≡ Memory) }
{
    match instruction {
        VectorInstr::Shuffle(lanes) => write_shuffle(lanes, sink),
        VectorInstr::Splat(shape) => write_numbered(splat_number(shape), sink),
        VectorInstr::ExtractLane(op, lane) => write_on_lane(extract_number(op), lane, sink),
        VectorInstr::ReplaceLane(shape, lane) => write_on_lane(replace_number(shape), lane, sink),
        VectorInstr::Unary(op) => write_numbered(vector_unary_number(op), sink),
        VectorInstr::FloatUnary(op) => write_numbered(vector_float_unary_number(op), sink),
        VectorInstr::Binary(op) => write_numbered(vector_binary_number(op), sink),
        VectorInstr::FloatBinary(op) => write_numbered(vector_float_binary_number(op), sink),
        VectorInstr::Bitselect => write_numbered(82, sink),
        VectorInstr::AnyTrue => write_numbered(83, sink),
        VectorInstr::AllTrue(shape) => write_numbered(all_true_number(shape), sink),
        VectorInstr::Bitmask(shape) => write_numbered(bitmask_number(shape), sink),
        VectorInstr::Shift(op, shape) => write_numbered(shift_number(op, shape), sink),
        VectorInstr::RelaxedFloatUnary(op) => {
            write_numbered(relaxed_float_unary_number(op), sink)
        }
        VectorInstr::RelaxedBinary(op) => write_numbered(relaxed_binary_number(op), sink),
        VectorInstr::RelaxedFloatBinary(op) => {
            write_numbered(relaxed_float_binary_number(op), sink)
        }
        VectorInstr::RelaxedTernary(op) => write_numbered(relaxed_ternary_number(op), sink),
        VectorInstr::RelaxedFloatTernary(op) => {
            write_numbered(relaxed_float_ternary_number(op), sink)
        }
    }
}
