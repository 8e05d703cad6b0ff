use crate::entities::read_tag;
use crate::error::ReadError;
use crate::lists::Decode;
use crate::reader::Reader;

/// A tag, given by the index of its function type (Tag Section).
#[derive(Clone, Copy, Debug)]
pub struct TagDefinition(pub u32);

impl Decode for TagDefinition {
    ghost use Rattle.smith_binary_read.specs.TagReadings.{tag_at};

    ghost reading = { tag_at };

    #[tactic(auto, unfolding(crate::specs::TagReadings::tag_at))]
    fn decode(reader: &mut Reader<'_>) -> Result<TagDefinition, ReadError> {
        let index = read_tag(reader)?;
        Ok(TagDefinition(index))
    }
}
