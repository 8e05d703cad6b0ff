ghost use Rattle.std.specs.Prelude.{◌≡◌, OnOk, IfErr};
ghost use Rattle.smith_binary.specs.declared.error.EncodeError.TheVariants.{Memory};
ghost use Rattle.smith_binary.specs.Pieces.{Writes};
ghost use Rattle.smith_binary_sections.specs.Instructions.{IsPrefixedIn};

use smith_binary::{EncodeError, Sink};

/// Writes the opcode with the prefix `prefix` and the number `number` at the end of `sink`, in the
/// form of the standard's section Binary Format, Instructions.
pub fn write_prefixed(prefix: u8, number: u32, sink: &mut Sink) -> Result<(), EncodeError>
    ensures writes { OnOk result (Writes (λ s. IsPrefixedIn s prefix number) sink.old sink.new) }
    ensures memory { IfErr result (λ e. e ≡ Memory) }
{
    sink.write_byte(prefix)?;
    sink.write_u32(number)
}
