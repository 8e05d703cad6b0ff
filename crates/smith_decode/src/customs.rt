ghost use Rattle.std.specs.Prelude.{None, []};
ghost use Rattle.smith_binary_read.specs.Readings.{GivesBy, GivesWhole};
ghost use Rattle.smith_decode.specs.CustomReadings.{custom_at, next_section_at, gathered_at, kept_at};

use crate::sections::finish;
use smith_binary_read::{Decode, ReadError, Reader};
use smith_types::{Items, Name};

/// A custom section (Custom Section).
#[derive(Debug, Drop)]
pub struct Custom {
    /// The identifier of the last section before it that is not custom, if there is one.
    pub after: Option<u8>,
    /// The name.
    pub name: Name,
    /// The bytes after the name, which are not read further.
    pub bytes: Items<u8>,
}

// Reads all bytes of `reader` as a custom section after the section `after`.
#[tactic(auto, unfolding(crate::specs::CustomReadings::custom_at))]
fn read_custom(reader: &mut Reader<'_>, after: Option<u8>) -> Result<Custom, ReadError>
    ensures { GivesWhole result (custom_at after reader.old) }
{
    let name = Name::decode(reader)?;
    let bytes = Items::from_vec(Vec::from_slice(reader.alloc(), reader.rest())?);
    Ok(Custom { after, name, bytes })
}

// Reads a section after the section `after`. Adds it to `customs` if it is custom, and returns the last
// section that is not.
#[tactic(auto, unfolding(crate::specs::CustomReadings::next_section_at))]
fn read_next_section(
    reader: &mut Reader<'_>,
    after: Option<u8>,
    customs: &mut Vec<Custom>,
) -> Result<Option<u8>, ReadError>
    ensures { GivesBy (λ next. (next, customs.new.items)) result reader.new
        (next_section_at after customs.old.items reader.old) }
{
    let id = reader.read_byte()?;
    let content = reader.read_content()?;
    if id != 0 {
        return Ok(Some(id));
    }
    let mut inner = Reader::new(reader.alloc(), content);
    let custom = read_custom(&mut inner, after)?;
    customs.push(custom)?;
    Ok(after)
}

// Returns the custom sections among the sections of `reader`, which has at most `most`.
fn gather(reader: &mut Reader<'_>, most: usize) -> Result<Items<Custom>, ReadError>
    ensures { GivesWhole result (gathered_at most None [] reader.old) }
{
    let mut customs = Vec::new(reader.alloc());
    let mut after = None;
    for _ in 0..most {
        if reader.left() == 0 {
            return Ok(Items::from_vec(customs));
        }
        after = read_next_section(reader, after, &mut customs)?;
    }
    finish(Items::from_vec(customs), reader)
}

/// Returns the custom sections among those of `reader` (Custom Section).
#[tactic(auto, unfolding(crate::specs::CustomReadings::kept_at))]
pub(crate) fn read_customs(reader: &mut Reader<'_>) -> Result<Items<Custom>, ReadError>
    ensures { GivesWhole result (kept_at reader.old) }
{
    let most = reader.left();
    gather(reader, most)
}
