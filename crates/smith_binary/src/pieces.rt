ghost use Rattle.std.specs.Prelude.{◌≤◌, ◌^◌, OnOk, IfErr, length};
ghost use Rattle.smith_binary.specs.Faults.{IsFault};
ghost use Rattle.smith_binary.specs.Pieces.{Is, IsNameIn, IsSizedIn, IsSectionIn, Writes};
ghost use Rattle.smith_binary.specs.Spelling.{IsUnsignedIn};

use crate::error::EncodeError;
use crate::sink::Sink;

impl Sink {
    /// Writes `count`, the length of a list in items or of a content in bytes.
    ///
    /// # Errors
    ///
    /// Returns [`EncodeError::TooLong`] if `count` is 2^32 or more.
    pub fn write_length(&mut self, count: usize) -> Result<(), EncodeError>
        ensures writes { OnOk result (Writes (λ s. IsUnsignedIn s 32 count) self.old self.new) }
        ensures fault { IfErr result (IsFault (2 ^ 32 ≤ count)) }
    {
        if count > u32::MAX as usize {
            return Err(EncodeError::TooLong);
        }
        self.write_u32(count as u32)
    }

    /// Writes `text` as a name: the number of its bytes, then the bytes.
    ///
    /// # Errors
    ///
    /// Returns [`EncodeError::TooLong`] if `text` has 2^32 bytes or more.
    pub fn write_name(&mut self, text: &str) -> Result<(), EncodeError>
        ensures writes { OnOk result (Writes (λ s. IsNameIn s text.now) self.old self.new) }
        ensures fault { IfErr result (IsFault (2 ^ 32 ≤ length text.now)) }
    {
        self.write_length(text.len())?;
        self.write_bytes(text.as_bytes())
    }

    /// Writes the number of the bytes `content`, then the bytes.
    ///
    /// # Errors
    ///
    /// Returns [`EncodeError::TooLong`] if `content` has 2^32 bytes or more.
    pub fn write_sized(&mut self, content: &[u8]) -> Result<(), EncodeError>
        ensures writes { OnOk result (Writes (λ s. IsSizedIn s (Is content.now)) self.old self.new) }
        ensures fault { IfErr result (IsFault (2 ^ 32 ≤ length content.now)) }
    {
        self.write_length(content.len())?;
        self.write_bytes(content)
    }

    /// Writes the section `id` with the bytes `content`.
    ///
    /// # Errors
    ///
    /// Returns [`EncodeError::TooLong`] if `content` has 2^32 bytes or more.
    pub fn write_section(&mut self, id: u8, content: &[u8]) -> Result<(), EncodeError>
        ensures writes { OnOk result (Writes (λ s. IsSectionIn s id (Is content.now)) self.old self.new) }
        ensures fault { IfErr result (IsFault (2 ^ 32 ≤ length content.now)) }
    {
        self.write_byte(id)?;
        self.write_sized(content)
    }
}
