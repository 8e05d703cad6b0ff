ghost use Rattle.std.specs.Prelude.{◌≡◌, ◌≤◌, ◌^◌, ◌⊎◌, true, ℕ, List, OnOk, IfErr};
ghost use Rattle.smith_binary.specs.Spelling.{IsUnsignedIn};
ghost use Rattle.smith_binary.specs.Spelling.Spelling.{any};
ghost use Rattle.smith_binary.specs.declared.error.EncodeError.TheVariants.{Memory};
ghost use Rattle.smith_binary.specs.Faults.{IsFault};
ghost use Rattle.smith_binary.specs.Pieces.{Writes};
ghost use Rattle.smith_binary_sections.specs.Sections.{IsSectionIfIn};
ghost use Rattle.smith_binary_sections.specs.Modules.{IsPreamble};
ghost use Rattle.smith_binary_sections.specs.Long.{IsLongContent};

use crate::lists::Encode;
use smith_binary::{EncodeError, Sink};

/// Writes the magic number and the version.
pub fn write_preamble(sink: &mut Sink) -> Result<(), EncodeError>
    ensures writes { OnOk result (Writes (λ _. IsPreamble) sink.old sink.new) }
    ensures memory { IfErr result (λ e. e ≡ Memory) }
{
    sink.write_bytes(&[0x00, 0x61, 0x73, 0x6D, 0x01, 0x00, 0x00, 0x00])
}

/// Writes the section `id` with `content` if `is_written` is set, else nothing.
///
/// # Errors
///
/// Returns [`EncodeError::TooLong`] if a list has 2^32 items, or `content` 2^32 bytes, or more.
pub fn write_section_if<C: Encode>(
    is_written: bool,
    id: u8,
    content: &C,
    sink: &mut Sink,
) -> Result<(), EncodeError>
    ensures writes { OnOk result
        (Writes (λ s. IsSectionIfIn s is_written id (C.spells s content.now)) sink.old sink.new) }
    ensures fault { IfErr result (IsFault
        ((is_written ≡ true) × (C.is_long content.now ⊎ IsLongContent (C.spells any content.now)))) }
{
    if !is_written {
        return Ok(());
    }
    let mut bytes = sink.fresh();
    content.encode(&mut bytes)?;
    sink.write_section(id, bytes.as_slice())
}

/// A number of items.
#[derive(Clone, Copy)]
pub struct Count(pub usize);

impl Encode for Count {
    ghost spells = { λ s count. IsUnsignedIn s 32 count.0 };

    ghost is_long = { λ count. 2 ^ 32 ≤ count.0 };

    fn encode(&self, sink: &mut Sink) -> Result<(), EncodeError> {
        sink.write_length(self.0)
    }
}
