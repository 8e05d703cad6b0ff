ghost use Rattle.std.specs.Prelude.{◌≡◌, ◌<◌, OnOk, IfErr};
ghost use Rattle.smith_binary.specs.declared.error.EncodeError.TheVariants.{Memory};
ghost use Rattle.smith_binary.specs.Pieces.{Writes};
ghost use Rattle.smith_binary_instr.specs.References.{cast_number, IsCastIn, IsReferenceIn};
ghost use Rattle.smith_binary_instr.specs.References.{IsTableIn};

use crate::opcodes::{write_indexed, write_prefixed_index, write_prefixed_indices};
use crate::prefix::write_prefixed;
use smith_binary::{EncodeError, Sink};
use smith_binary_sections::Encode;
use smith_instr::{ReferenceInstr, TableInstr};
use smith_types::RefType;

// Returns the number of a test or a cast to a reference type, nullable if `nullable` is set.
// `first` is the number for a non-nullable one.
fn cast_number(first: u32, nullable: bool) -> u32
    requires { first < 200 }
    ensures { result ≡ cast_number first nullable }
{
    if nullable { first + 1 } else { first }
}

// Writes a test or a cast to `ty`.
fn write_cast(first: u32, ty: RefType, sink: &mut Sink) -> Result<(), EncodeError>
    requires { first < 200 }
    ensures writes { OnOk result (Writes (λ s. IsCastIn s first ty) sink.old sink.new) }
    ensures memory { IfErr result (λ e. e ≡ Memory) }
{
    write_prefixed(0xFB, cast_number(first, ty.nullable), sink)?;
    ty.heap_type.encode(sink)
}

// Writes the reference instruction `instruction`.
pub(crate) fn write_reference(
    instruction: ReferenceInstr,
    sink: &mut Sink,
) -> Result<(), EncodeError>
    ensures writes { OnOk result (Writes (λ s. IsReferenceIn s instruction) sink.old sink.new) }
    ensures memory { IfErr result (λ e. e ≡ Memory) }
{
    match instruction {
        ReferenceInstr::Null(heap_type) => {
            sink.write_byte(0xD0)?;
            heap_type.encode(sink)
        }
        ReferenceInstr::IsNull => sink.write_byte(0xD1),
        ReferenceInstr::Func(function) => write_indexed(0xD2, function, sink),
        ReferenceInstr::Eq => sink.write_byte(0xD3),
        ReferenceInstr::AsNonNull => sink.write_byte(0xD4),
        ReferenceInstr::Test(ty) => write_cast(20, ty, sink),
        ReferenceInstr::Cast(ty) => write_cast(22, ty, sink),
    }
}

// Writes the table instruction `instruction`.
pub(crate) fn write_table(instruction: TableInstr, sink: &mut Sink) -> Result<(), EncodeError>
    ensures writes { OnOk result (Writes (λ s. IsTableIn s instruction) sink.old sink.new) }
    ensures memory { IfErr result (λ e. e ≡ Memory) }
{
    match instruction {
        TableInstr::Get(table) => write_indexed(0x25, table, sink),
        TableInstr::Set(table) => write_indexed(0x26, table, sink),
        TableInstr::Init { table, segment } => {
            write_prefixed_indices(0xFC, 12, segment, table, sink)
        }
        TableInstr::ElemDrop(segment) => write_prefixed_index(0xFC, 13, segment, sink),
        TableInstr::Copy { to, from } => write_prefixed_indices(0xFC, 14, to, from, sink),
        TableInstr::Grow(table) => write_prefixed_index(0xFC, 15, table, sink),
        TableInstr::Size(table) => write_prefixed_index(0xFC, 16, table, sink),
        TableInstr::Fill(table) => write_prefixed_index(0xFC, 17, table, sink),
    }
}
