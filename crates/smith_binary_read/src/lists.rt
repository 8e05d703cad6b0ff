ghost use Rattle.smith_binary_read.specs.Readings.{Gives, each_at};
ghost use Rattle.smith_binary_read.specs.Contents.{list_at};

use crate::error::ReadError;
use crate::reader::Reader;
use smith_types::{Items, Name};

/// An item that has a spelling in the binary format.
pub trait Decode: Drop {
    ghost use Rattle.std.specs.Prelude.{ℕ, List};
    ghost use Rattle.smith_binary_read.specs.Readings.{Reading};

    /// The item at the front of bytes, and the bytes after it, or the first fault.
    ghost reading: { List ℕ → Reading Self };

    /// Reads an item from `reader`.
    fn decode(reader: &mut Reader<'_>) -> Result<Self, ReadError>
        ensures { Gives result reader.new (Self.reading reader.old) };
}

/// Reads `count` items. Nothing is reserved for them: each has a byte, so lists are no longer than the
/// bytes.
pub(crate) fn read_each<T: Decode>(
    reader: &mut Reader<'_>,
    count: u32,
) -> Result<Items<T>, ReadError>
    ensures { Gives result reader.new (each_at T.reading count reader.old) }
{
    let mut items = Vec::new(reader.alloc());
    for _ in 0..count {
        let item = T::decode(reader)?;
        items.push(item)?;
    }
    Ok(Items::from_vec(items))
}

/// Reads the number of items, then the items (Lists).
#[tactic(auto, unfolding(crate::specs::Contents::list_at))]
pub fn read_list<T: Decode>(reader: &mut Reader<'_>) -> Result<Items<T>, ReadError>
    ensures { Gives result reader.new (list_at T.reading reader.old) }
{
    let count = reader.read_u32()?;
    read_each(reader, count)
}

/// An index.
impl Decode for u32 {
    ghost use Rattle.smith_binary_read.specs.Numbers.{unsigned_at};

    ghost reading = { unsigned_at 32 };

    fn decode(reader: &mut Reader<'_>) -> Result<u32, ReadError> {
        reader.read_u32()
    }
}

impl Decode for Name {
    ghost use Rattle.smith_binary_read.specs.Contents.{name_at};

    ghost reading = { name_at };

    fn decode(reader: &mut Reader<'_>) -> Result<Name, ReadError> {
        let text = reader.read_name()?;
        Ok(Name::from_string(String::from_str(reader.alloc(), text)?))
    }
}
