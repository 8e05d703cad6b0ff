ghost use Rattle.std.specs.Prelude.{◌≡◌, Any, ℕ, List, IfOk, IfErr, OnOk};
ghost use Rattle.smith_binary.specs.declared.error.EncodeError.TheVariants.{Memory};
ghost use Rattle.smith_binary.specs.Faults.{IsFault};
ghost use Rattle.smith_binary.specs.Pieces.{Each, Writes};
ghost use Rattle.smith_custom_sections.specs.Additions.{IsAdded};
ghost use Rattle.smith_custom_sections.specs.CustomSections.{AreDueIn, AreWovenIn};
ghost use Rattle.smith_custom_sections.specs.CustomSections.{IsLongCustom, IsPlain, IsPlainSection};
ghost use Rattle.smith_custom_sections.specs.CustomSections.{StartsWith, is_due};

use crate::custom_section::CustomSection;
use smith_binary::{EncodeError, Sink};
use smith_binary_read::{ReadError, Reader};
use smith_binary_sections::{Encode, write_section_if};
use std::alloc::Global;

// The number of bytes of the magic number and the version.
const PREAMBLE: usize = 8;

/// Spelled as its content: the name, then the bytes.
impl Encode for CustomSection {
    ghost use Rattle.smith_binary_sections.specs.Long.{IsLongText};
    ghost use Rattle.smith_custom_sections.specs.CustomSections.{IsContentIn};

    ghost spells = { IsContentIn };

    ghost is_long = { λ custom. IsLongText custom.name };

    fn encode(&self, sink: &mut Sink) -> Result<(), EncodeError> {
        sink.write_name(self.name.as_str())?;
        sink.write_bytes(self.bytes.as_slice())
    }
}

// Returns whether `custom` comes right before the section at `place`, or after the last section, if
// `place` is the end.
fn is_due(custom: &CustomSection, at_end: bool, place: usize) -> bool
    ensures { result ≡ is_due at_end place custom.now }
{
    custom.place == place || (at_end && place < custom.place)
}

// Writes the sections of `customs` at `place`.
fn write_due(
    customs: &[CustomSection],
    at_end: bool,
    place: usize,
    sink: &mut Sink,
) -> Result<(), EncodeError>
    ensures writes { OnOk result (Writes (λ s. AreDueIn s customs.now at_end place) sink.old sink.new) }
    ensures fault { IfErr result (IsFault (Any IsLongCustom customs.now)) }
{
    for custom in customs {
        write_section_if(is_due(custom, at_end, place), 0, custom, sink)?;
    }
    Ok(())
}

// Reads a section, and returns its bytes.
fn read_section<'a>(reader: &mut Reader<'a>) -> Result<&'a [u8], EncodeError>
    requires some { (section : List ℕ) × (rest : List ℕ) × StartsWith section rest reader.old }
    ensures read { (section rest : List ℕ) → StartsWith section rest reader.old
        → IfOk result (λ bytes. (bytes.now ≡ section) × (reader.new ≡ rest)) }
    ensures memory { IfErr result (λ e. e ≡ Memory) }
{
    let whole = reader.rest();
    reader.skip();
    match reader.read_content() {
        Ok(_) => Ok(&whole[..whole.len() - reader.left()]),
        Err(ReadError::Memory) => Err(EncodeError::Memory),
        Err(ReadError::Malformed(_)) => unreachable!(),
    }
}

// Writes the sections `sections` of a file, with `customs` among them.
fn write_woven(
    alloc: Global,
    sections: &[u8],
    customs: &[CustomSection],
    sink: &mut Sink,
) -> Result<(), EncodeError>
    requires plain { (pieces : List (List ℕ)) × Each IsPlainSection pieces sections.now }
    ensures writes { (pieces : List (List ℕ)) → Each IsPlainSection pieces sections.now
        → OnOk result (Writes (λ s. AreWovenIn s customs.now 0 pieces) sink.old sink.new) }
    ensures fault { IfErr result (IsFault (Any IsLongCustom customs.now)) }
{
    let mut reader = Reader::new(alloc, sections);
    for place in 0..sections.len() {
        if reader.left() == 0 {
            return write_due(customs, true, place, sink);
        }
        write_due(customs, false, place, sink)?;
        sink.write_bytes(read_section(&mut reader)?)?;
    }
    write_due(customs, true, sections.len(), sink)
}

/// Returns `file` with the custom sections `customs` among its own, allocated from `alloc`: each at
/// its place, and in order at the same place. Sizes and lengths have at least `least` bytes, but at
/// most five if fewer are enough.
///
/// # Errors
///
/// Returns `TooLong` if a custom section has 2^32 bytes or more, and `Memory` if an allocation fails.
pub fn insert_custom_sections(
    alloc: Global,
    least: u8,
    file: &[u8],
    customs: &[CustomSection],
) -> Result<Vec<u8>, EncodeError>
    requires plain { IsPlain file.now }
    ensures added { IfOk result (λ bytes. IsAdded least customs.now file.now bytes.items) }
    ensures fault { IfErr result (IsFault (Any IsLongCustom customs.now)) }
{
    let mut sink = Sink::new(alloc, least);
    let (preamble, sections) = file.split_at(PREAMBLE);
    sink.write_bytes(preamble)?;
    write_woven(alloc, sections, customs, &mut sink)?;
    Ok(sink.into_vec())
}
