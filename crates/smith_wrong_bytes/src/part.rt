ghost use Rattle.std.specs.Prelude.{◌≤◌};

use crate::places::{Finder, Frames, Kind, Place};
use crate::stop::Stop;
use smith_binary_read::{Decode, Reader};
use std::alloc::Global;

/// A reader of a part of a file, which knows its offset and notes the places that it passes.
#[derive(Drop)]
pub(crate) struct Part<'a> {
    /// The bytes that are left.
    pub reader: Reader<'a>,
    /// The offset of the end of the part.
    pub end: usize,
    /// The contents that the part is in.
    pub frames: Frames,
}

impl<'a> Part<'a> {
    /// Creates a reader of `bytes`, which end at the offset `end`.
    pub(crate) fn new(alloc: Global, bytes: &'a [u8], end: usize, frames: Frames) -> Self {
        Part {
            reader: Reader::new(alloc, bytes),
            end,
            frames,
        }
    }

    /// Returns the offset of the next byte.
    pub(crate) fn offset(&self) -> usize {
        self.end.saturating_sub(self.reader.left())
    }

    /// Notes a place from `start` up to the next byte.
    pub(crate) fn note(&self, kind: Kind, start: usize, finder: &mut Finder) {
        let place = Place {
            start,
            end: self.offset(),
            bits: 0,
            signed: false,
            frames: self.frames,
        };
        finder.note(kind, place);
    }

    /// Notes an integer of `bits` bits from `start` up to the next byte.
    pub(crate) fn note_integer(&self, bits: u32, signed: bool, start: usize, finder: &mut Finder) {
        let place = Place {
            start,
            end: self.offset(),
            bits,
            signed,
            frames: self.frames,
        };
        finder.note(Kind::Integer, place);
    }

    /// Reads a byte.
    pub(crate) fn read_byte(&mut self, kind: Kind, finder: &mut Finder) -> Result<u8, Stop> {
        let start = self.offset();
        let byte = self.reader.read_byte()?;
        self.note(kind, start, finder);
        Ok(byte)
    }

    /// Reads an index, or another unsigned integer of 32 bits.
    pub(crate) fn read_u32(&mut self, finder: &mut Finder) -> Result<u32, Stop> {
        let start = self.offset();
        let number = self.reader.read_u32()?;
        self.note_integer(32, false, start, finder);
        Ok(number)
    }

    /// Reads an unsigned integer of 64 bits.
    pub(crate) fn read_u64(&mut self, finder: &mut Finder) -> Result<(), Stop> {
        let start = self.offset();
        self.reader.read_u64()?;
        self.note_integer(64, false, start, finder);
        Ok(())
    }

    /// Reads a signed integer of `bits` bits.
    pub(crate) fn read_signed(&mut self, bits: u32, finder: &mut Finder) -> Result<(), Stop>
        requires some { 1 ≤ bits }
        requires most { bits ≤ 64 }
    {
        let start = self.offset();
        self.reader.read_signed(bits)?;
        self.note_integer(bits, true, start, finder);
        Ok(())
    }

    /// Reads the number of items of a list.
    pub(crate) fn read_count(&mut self, finder: &mut Finder) -> Result<u32, Stop> {
        let start = self.offset();
        let count = self.read_u32(finder)?;
        self.note(Kind::Count, start, finder);
        Ok(count)
    }

    /// Reads a name.
    pub(crate) fn read_name(&mut self, finder: &mut Finder) -> Result<(), Stop> {
        let count = self.read_u32(finder)?;
        let start = self.offset();
        let bytes = self.reader.read_bytes(count as usize)?;
        if !bytes.is_empty() {
            self.note(Kind::Name, start, finder);
        }
        Ok(())
    }

    /// Reads a type.
    pub(crate) fn read_type<T: Decode>(&mut self, finder: &mut Finder) -> Result<(), Stop> {
        let start = self.offset();
        T::decode(&mut self.reader)?;
        self.note(Kind::Type, start, finder);
        Ok(())
    }
}
