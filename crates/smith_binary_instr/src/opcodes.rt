ghost use Rattle.std.specs.Prelude.{◌≡◌, OnOk, IfErr};
ghost use Rattle.smith_binary.specs.declared.error.EncodeError.TheVariants.{Memory};
ghost use Rattle.smith_binary.specs.Pieces.{IsByte, Joined, Writes};
ghost use Rattle.smith_binary_sections.specs.Instructions.{IsIndexIn, IsPrefixedIn};

use crate::prefix::write_prefixed;
use smith_binary::{EncodeError, Sink};

// Writes the opcode `opcode`, then the index `index`.
pub(crate) fn write_indexed(opcode: u8, index: u32, sink: &mut Sink) -> Result<(), EncodeError>
    ensures writes { OnOk result
        (Writes (λ s. Joined (IsByte opcode) (IsIndexIn s index)) sink.old sink.new) }
    ensures memory { IfErr result (λ e. e ≡ Memory) }
{
    sink.write_byte(opcode)?;
    sink.write_u32(index)
}

// Writes the opcode `opcode`, then the indices `first` and `second`.
pub(crate) fn write_two_indices(
    opcode: u8,
    first: u32,
    second: u32,
    sink: &mut Sink,
) -> Result<(), EncodeError>
    ensures writes { OnOk result (Writes
        (λ s. Joined (IsByte opcode) (Joined (IsIndexIn s first) (IsIndexIn s second))) sink.old sink.new) }
    ensures memory { IfErr result (λ e. e ≡ Memory) }
{
    sink.write_byte(opcode)?;
    sink.write_u32(first)?;
    sink.write_u32(second)
}

// Writes the opcode with the prefix `prefix` and the number `number`, then the index `index`.
pub(crate) fn write_prefixed_index(
    prefix: u8,
    number: u32,
    index: u32,
    sink: &mut Sink,
) -> Result<(), EncodeError>
    ensures writes { OnOk result
        (Writes (λ s. Joined (IsPrefixedIn s prefix number) (IsIndexIn s index)) sink.old sink.new) }
    ensures memory { IfErr result (λ e. e ≡ Memory) }
{
    write_prefixed(prefix, number, sink)?;
    sink.write_u32(index)
}

// Writes the opcode with the prefix `prefix` and the number `number`, then the indices `first` and
// `second`.
pub(crate) fn write_prefixed_indices(
    prefix: u8,
    number: u32,
    first: u32,
    second: u32,
    sink: &mut Sink,
) -> Result<(), EncodeError>
    ensures writes { OnOk result
        (Writes (λ s. Joined (IsPrefixedIn s prefix number) (Joined (IsIndexIn s first) (IsIndexIn s second)))
        sink.old sink.new) }
    ensures memory { IfErr result (λ e. e ≡ Memory) }
{
    write_prefixed(prefix, number, sink)?;
    sink.write_u32(first)?;
    sink.write_u32(second)
}
