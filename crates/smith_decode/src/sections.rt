ghost use Rattle.smith_binary_read.specs.Readings.{Gives, GivesWhole, at_end, starts_with};
ghost use Rattle.smith_binary_read.specs.Contents.{sized_at};
ghost use Rattle.smith_decode.specs.CustomReadings.{customs_at, skip_customs, section_at, GivesRest};

use smith_binary_read::{Decode, Fault, ReadError, Reader, Reason, read_list};
use smith_types::Items;

/// An item that is a whole content.
pub(crate) trait DecodeWhole: Drop {
    ghost use Rattle.std.specs.Prelude.{ℕ, List, Result};
    ghost use Rattle.smith_binary_read.specs.declared.error.Fault.{Fault};
    ghost use Rattle.smith_binary_read.specs.Readings.{GivesWhole};

    /// The item that all of the bytes are, or the first fault.
    ghost whole: { List ℕ → Result Self Fault };

    /// Reads all bytes of `reader` as one item.
    fn decode_whole(reader: &mut Reader<'_>) -> Result<Self, ReadError>
        ensures { GivesWhole result (Self.whole reader.old) };
}

/// Returns `item` if no byte is left.
pub(crate) fn finish<T: Drop>(item: T, reader: &Reader<'_>) -> Result<T, ReadError>
    ensures { GivesWhole result (at_end item reader.now) }
{
    if reader.left() == 0 {
        return Ok(item);
    }
    Err(reader.fault(Reason::TrailingBytes))
}

impl<T: Decode> DecodeWhole for Items<T> {
    ghost use Rattle.smith_binary_read.specs.Readings.{whole_at};
    ghost use Rattle.smith_binary_read.specs.Contents.{list_at};

    ghost whole = { whole_at (list_at T.reading) };

    fn decode_whole(reader: &mut Reader<'_>) -> Result<Items<T>, ReadError> {
        let items = read_list(reader)?;
        finish(items, reader)
    }
}

// The content of a custom section, which is skipped.
impl DecodeWhole for () {
    ghost use Rattle.smith_decode.specs.CustomReadings.{custom_whole};

    ghost whole = { custom_whole };

    #[tactic(auto, unfolding(crate::specs::CustomReadings::custom_whole))]
    fn decode_whole(reader: &mut Reader<'_>) -> Result<(), ReadError> {
        let _name = reader.read_name()?;
        Ok(())
    }
}

// A number that a section states.
impl DecodeWhole for Option<u32> {
    ghost use Rattle.smith_decode.specs.ModuleReadings.{index_whole};

    ghost whole = { index_whole };

    #[tactic(auto, unfolding(crate::specs::ModuleReadings::index_whole))]
    fn decode_whole(reader: &mut Reader<'_>) -> Result<Option<u32>, ReadError> {
        let index = reader.read_u32()?;
        finish(Some(index), reader)
    }
}

/// Reads the size of a content, then the content (Sections). A fault in it is as far from the end of
/// `reader` as it is.
#[tactic(auto, unfolding(smith_binary_read::specs::Contents::sized_at))]
pub(crate) fn read_sized<T: DecodeWhole>(reader: &mut Reader<'_>) -> Result<T, ReadError>
    ensures { Gives result reader.new (sized_at T.whole reader.old) }
{
    let content = reader.read_content()?;
    let after = reader.left();
    let mut inner = Reader::new(reader.alloc(), content);
    match T::decode_whole(&mut inner) {
        Ok(item) => Ok(item),
        Err(ReadError::Memory) => Err(ReadError::Memory),
        Err(ReadError::Malformed(fault)) => Err(ReadError::Malformed(Fault {
            left: fault.left.saturating_add(after),
            reason: fault.reason,
        })),
    }
}

// Skips custom sections, at most `most` of them.
fn skip_most(reader: &mut Reader<'_>, most: usize) -> Result<(), ReadError>
    ensures { GivesRest result reader.new (skip_customs most reader.old) }
{
    for _ in 0..most {
        if !reader.starts_with(0) {
            return Ok(());
        }
        reader.skip();
        read_sized::<()>(reader)?;
    }
    Ok(())
}

/// Skips the custom sections in front (Custom Section).
#[tactic(auto, unfolding(crate::specs::CustomReadings::customs_at))]
pub(crate) fn skip_customs(reader: &mut Reader<'_>) -> Result<(), ReadError>
    ensures { GivesRest result reader.new (customs_at reader.old) }
{
    let most = reader.left();
    skip_most(reader, most)
}

/// Reads the section `id`, and skips the custom sections after it. If another section is next, reads
/// nothing and returns `none`.
#[tactic(auto, unfolding(crate::specs::CustomReadings::section_at))]
pub(crate) fn read_section<T: DecodeWhole>(
    reader: &mut Reader<'_>,
    id: u8,
    none: T,
) -> Result<T, ReadError>
    ensures { Gives result reader.new (section_at id none T.whole reader.old) }
{
    if !reader.starts_with(id) {
        return Ok(none);
    }
    reader.skip();
    let item = read_sized(reader)?;
    skip_customs(reader)?;
    Ok(item)
}
