ghost use Rattle.std.specs.Prelude.{◌≡◌, ◌<◌, OnOk, IfErr};
ghost use Rattle.smith_binary.specs.declared.error.EncodeError.TheVariants.{Memory};
ghost use Rattle.smith_binary.specs.Pieces.{Writes};
ghost use Rattle.smith_binary_instr.specs.Aggregate.{get_number, IsAggregateIn, IsOnIn, IsOnTwoIn};

use crate::opcodes::{write_prefixed_index, write_prefixed_indices};
use crate::prefix::write_prefixed;
use smith_binary::{EncodeError, Sink};
use smith_instr::{AggregateInstr, Extension};

// Returns the number of a get with the extension `extension`. `first` is the number for an unpacked
// field.
fn get_number(first: u32, extension: Extension) -> u32
    requires { first < 200 }
    ensures { result ≡ get_number first extension }
{
    first + extension as u32
}

// Writes the aggregate instruction with the number `number`, then the index `index`.
fn write_on(number: u32, index: u32, sink: &mut Sink) -> Result<(), EncodeError>
    ensures writes { OnOk result (Writes (λ s. IsOnIn s number index) sink.old sink.new) }
    ensures memory { IfErr result (λ e. e ≡ Memory) }
{
    write_prefixed_index(0xFB, number, index, sink)
}

// Writes the aggregate instruction with the number `number`, then the indices `first` and `second`.
fn write_on_two(number: u32, first: u32, second: u32, sink: &mut Sink) -> Result<(), EncodeError>
    ensures writes { OnOk result (Writes (λ s. IsOnTwoIn s number first second) sink.old sink.new) }
    ensures memory { IfErr result (λ e. e ≡ Memory) }
{
    write_prefixed_indices(0xFB, number, first, second, sink)
}

// Writes the aggregate instruction `instruction`.
pub(crate) fn write_aggregate(
    instruction: AggregateInstr,
    sink: &mut Sink,
) -> Result<(), EncodeError>
    ensures writes { OnOk result (Writes (λ s. IsAggregateIn s instruction) sink.old sink.new) }
    ensures memory { IfErr result (λ e. e ≡ Memory) }
{
    match instruction {
        AggregateInstr::StructNew(ty) => write_on(0, ty, sink),
        AggregateInstr::StructNewDefault(ty) => write_on(1, ty, sink),
        AggregateInstr::StructGet {
            ty,
            field,
            extension,
        } => write_on_two(get_number(2, extension), ty, field, sink),
        AggregateInstr::StructSet { ty, field } => write_on_two(5, ty, field, sink),
        AggregateInstr::ArrayNew(ty) => write_on(6, ty, sink),
        AggregateInstr::ArrayNewDefault(ty) => write_on(7, ty, sink),
        AggregateInstr::ArrayNewFixed { ty, size } => write_on_two(8, ty, size, sink),
        AggregateInstr::ArrayNewData { ty, segment } => write_on_two(9, ty, segment, sink),
        AggregateInstr::ArrayNewElem { ty, segment } => write_on_two(10, ty, segment, sink),
        AggregateInstr::ArrayGet { ty, extension } => {
            write_on(get_number(11, extension), ty, sink)
        }
        AggregateInstr::ArraySet(ty) => write_on(14, ty, sink),
        AggregateInstr::ArrayLen => write_prefixed(0xFB, 15, sink),
        AggregateInstr::ArrayFill(ty) => write_on(16, ty, sink),
        AggregateInstr::ArrayCopy { to, from } => write_on_two(17, to, from, sink),
        AggregateInstr::ArrayInitData { ty, segment } => write_on_two(18, ty, segment, sink),
        AggregateInstr::ArrayInitElem { ty, segment } => write_on_two(19, ty, segment, sink),
        AggregateInstr::AnyConvertExtern => write_prefixed(0xFB, 26, sink),
        AggregateInstr::ExternConvertAny => write_prefixed(0xFB, 27, sink),
        AggregateInstr::RefI31 => write_prefixed(0xFB, 28, sink),
        AggregateInstr::I31GetS => write_prefixed(0xFB, 29, sink),
        AggregateInstr::I31GetU => write_prefixed(0xFB, 30, sink),
        AggregateInstr::RefI31Shared => write_prefixed(0xFE, 114, sink),
    }
}
