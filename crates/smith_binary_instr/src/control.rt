ghost use Rattle.std.specs.Prelude.{◌≡◌, ℕ, List, OnOk, IfErr};
ghost use Rattle.smith_binary.specs.declared.error.EncodeError.TheVariants.{Memory};
ghost use Rattle.smith_binary.specs.Faults.{IsFault};
ghost use Rattle.smith_binary.specs.Pieces.{IsByte, Joined, Writes, IsListIn};
ghost use Rattle.smith_binary_sections.specs.Instructions.{IsIndexIn, IsPrefixedIn};
ghost use Rattle.smith_binary_sections.specs.Long.{IsLongList, IsNeverLong};
ghost use Rattle.smith_binary_sections.specs.Types.{IsValTypeIn};
ghost use Rattle.smith_binary_instr.specs.Control.{cast_byte, IsBlockTypeIn, IsBranchCastIn};
ghost use Rattle.smith_binary_instr.specs.Control.{IsCatchIn};

use crate::opcodes::{write_indexed, write_two_indices};
use crate::prefix::write_prefixed;
use smith_binary::{EncodeError, Sink};
use smith_binary_sections::{Encode, EncodeItem, Listed, Plain};
use smith_instr::{BlockType, BranchCast, Catch};
use smith_types::ValType;

// Writes the type of a block.
fn write_block_type(ty: BlockType, sink: &mut Sink) -> Result<(), EncodeError>
    ensures writes { OnOk result (Writes (λ s. IsBlockTypeIn s ty) sink.old sink.new) }
    ensures memory { IfErr result (λ e. e ≡ Memory) }
{
    match ty {
        BlockType::Empty => sink.write_byte(0x40),
        BlockType::Value(value) => value.encode(sink),
        BlockType::Func(index) => sink.write_s33(index),
    }
}

// Writes the opcode `opcode`, then the type of a block.
pub(crate) fn write_block(opcode: u8, ty: BlockType, sink: &mut Sink) -> Result<(), EncodeError>
    ensures writes { OnOk result
        (Writes (λ s. Joined (IsByte opcode) (IsBlockTypeIn s ty)) sink.old sink.new) }
    ensures memory { IfErr result (λ e. e ≡ Memory) }
{
    sink.write_byte(opcode)?;
    write_block_type(ty, sink)
}

// A writer of a clause of `try_table`.
#[derive(Clone, Copy)]
struct Catches;

impl EncodeItem<Catch> for Catches {
    ghost spells = { λ s _ clause. IsCatchIn s clause };

    ghost is_long = { λ _. IsNeverLong };

    fn encode_item(&self, item: &Catch, sink: &mut Sink) -> Result<(), EncodeError> {
        match *item {
            Catch::One { tag, label } => write_two_indices(0x00, tag, label, sink),
            Catch::OneRef { tag, label } => write_two_indices(0x01, tag, label, sink),
            Catch::All { label } => write_indexed(0x02, label, sink),
            Catch::AllRef { label } => write_indexed(0x03, label, sink),
        }
    }
}

// Writes `try_table` of the type `ty`, with its clauses.
pub(crate) fn write_try_table(
    ty: BlockType,
    clauses: &[Catch],
    sink: &mut Sink,
) -> Result<(), EncodeError>
    ensures writes { OnOk result
        (Writes (λ s. Joined (IsByte 0x1F) (Joined (IsBlockTypeIn s ty) (IsListIn s (IsCatchIn s) clauses.now)))
        sink.old sink.new) }
    ensures fault { IfErr result (IsFault (IsLongList IsNeverLong clauses.now)) }
{
    sink.write_byte(0x1F)?;
    write_block_type(ty, sink)?;
    let list = Listed {
        writer: Catches,
        items: clauses,
    };
    list.encode(sink)
}

// Writes `br_table` with `labels` and the default label `last`.
pub(crate) fn write_branch_table(
    labels: &[u32],
    last: u32,
    sink: &mut Sink,
) -> Result<(), EncodeError>
    ensures writes { OnOk result
        (Writes (λ s. Joined (IsByte 0x0E) (Joined (IsListIn s (IsIndexIn s) labels.now) (IsIndexIn s last)))
        sink.old sink.new) }
    ensures fault { IfErr result (IsFault (IsLongList IsNeverLong labels.now)) }
{
    sink.write_byte(0x0E)?;
    let list = Listed {
        writer: Plain,
        items: labels,
    };
    list.encode(sink)?;
    sink.write_u32(last)
}

// Returns the byte that states which types of a cast are nullable.
fn cast_byte(from: bool, to: bool) -> u8
    ensures { result ≡ cast_byte from to }
{
    match (from, to) {
        (false, false) => 0x00,
        (true, false) => 0x01,
        (false, true) => 0x02,
        (true, true) => 0x03,
    }
}

// Writes the branch on a cast with the number `number`.
pub(crate) fn write_branch_cast(
    number: u32,
    cast: BranchCast,
    sink: &mut Sink,
) -> Result<(), EncodeError>
    ensures writes { OnOk result
        (Writes (λ s. Joined (IsPrefixedIn s 0xFB number) (IsBranchCastIn s cast)) sink.old sink.new) }
    ensures memory { IfErr result (λ e. e ≡ Memory) }
{
    write_prefixed(0xFB, number, sink)?;
    sink.write_byte(cast_byte(cast.from.nullable, cast.to.nullable))?;
    sink.write_u32(cast.label)?;
    cast.from.heap_type.encode(sink)?;
    cast.to.heap_type.encode(sink)
}

// Writes `select` with the types `values`.
pub(crate) fn write_typed_select(values: &[ValType], sink: &mut Sink) -> Result<(), EncodeError>
    ensures writes { OnOk result
        (Writes (λ s. Joined (IsByte 0x1C) (IsListIn s (IsValTypeIn s) values.now)) sink.old sink.new) }
    ensures fault { IfErr result (IsFault (IsLongList IsNeverLong values.now)) }
{
    sink.write_byte(0x1C)?;
    let list = Listed {
        writer: Plain,
        items: values,
    };
    list.encode(sink)
}
