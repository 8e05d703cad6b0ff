ghost use Rattle.std.specs.Prelude.{◌≡◌, length, string_bytes};
ghost use Rattle.smith_binary_read.specs.Readings.{GivesBy, Gives};
ghost use Rattle.smith_binary_read.specs.Contents.{content_at, name_at};

use crate::error::{ReadError, Reason};
use crate::reader::Reader;

impl<'a> Reader<'a> {
    /// Reads a number of bytes, then that many bytes (Lists). Does not allocate.
    #[tactic(auto, unfolding(crate::specs::Contents::content_at))]
    pub fn read_content(&mut self) -> Result<&'a [u8], ReadError>
        ensures { GivesBy (λ content. content.now) result self.new (content_at self.old) }
    {
        let count = self.read_u32()?;
        self.read_bytes(count as usize)
    }

    /// Reads a name (Names). Does not allocate.
    #[tactic(auto, unfolding(crate::specs::Contents::name_at))]
    pub fn read_name(&mut self) -> Result<&'a str, ReadError>
        ensures { GivesBy (λ name. name.now) result self.new (name_at self.old) }
    {
        let not_utf8 = self.fault(Reason::NotUtf8);
        let bytes = self.read_content()?;
        match simdutf8::compat::from_utf8(bytes) {
            Ok(text) => Ok(text),
            Err(_) => Err(not_utf8),
        }
    }
}
