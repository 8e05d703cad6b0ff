ghost use Rattle.std.specs.Prelude.{◌≡◌, ◌++◌, [], ◌∷◌, min, OnOk, IfErr};
ghost use Rattle.smith_binary.specs.declared.error.EncodeError.TheVariants.{Memory};
ghost use Rattle.smith_binary.specs.Pieces.{Is, IsByte, Output, Writes};

use crate::error::EncodeError;
use std::alloc::Global;
use std::marker::Model;

/// A buffer of bytes being written, in memory from an allocator, and the least number of bytes of an
/// unsigned integer. Contracts see the list of the bytes so far, and that number.
#[derive(Drop)]
pub struct Sink {
    alloc: Global,
    bytes: Vec<u8>,
    least: u8,
}

impl Model for Sink {
    ghost Value = { Output };

    ghost view = { λ s. record { bytes = s.bytes.items; least = s.least } };
}

impl Sink {
    /// Creates an empty sink. It does not allocate from `alloc` until a byte is written. Each
    /// unsigned integer will have `least` bytes or more, but at most five if fewer are enough.
    pub fn new(alloc: Global, least: u8) -> Self
        ensures { result ≡ record { bytes = []; least = least } }
    {
        Sink {
            alloc,
            bytes: Vec::new(alloc),
            least,
        }
    }

    /// Creates an empty sink with the same allocator and the same least number.
    pub fn fresh(&self) -> Self
        ensures { result ≡ record { bytes = []; least = self.now.least } }
    {
        Sink::new(self.alloc, self.least)
    }

    /// Returns the bytes written so far as a slice.
    pub fn as_slice(&self) -> &[u8]
        ensures { result.now ≡ self.now.bytes }
    {
        self.bytes.as_slice()
    }

    /// Returns the bytes as a `Vec`. Does not allocate.
    pub fn into_vec(self) -> Vec<u8>
        ensures { result.items ≡ self.bytes }
    {
        let Sink {
            alloc: _,
            bytes,
            least: _,
        } = self;
        bytes
    }

    // Returns the least number of bytes of an unsigned integer, five at most.
    pub(crate) fn least_length(&self) -> u8
        ensures { result ≡ min self.now.least 5 }
    {
        self.least.min(5)
    }

    // Appends `byte`.
    pub(crate) fn push(&mut self, byte: u8) -> Result<(), EncodeError>
        ensures ok { OnOk result (self.new ≡ record self.old { bytes = self.old.bytes ++ byte ∷ [] }) }
        ensures memory { IfErr result (λ e. e ≡ Memory) }
    {
        self.bytes.push(byte)?;
        Ok(())
    }

    /// Writes one byte.
    pub fn write_byte(&mut self, byte: u8) -> Result<(), EncodeError>
        ensures writes { OnOk result (Writes (λ _. IsByte byte) self.old self.new) }
        ensures memory { IfErr result (λ e. e ≡ Memory) }
    {
        self.push(byte)
    }

    /// Writes the bytes `piece`.
    pub fn write_bytes(&mut self, piece: &[u8]) -> Result<(), EncodeError>
        ensures writes { OnOk result (Writes (λ _. Is piece.now) self.old self.new) }
        ensures memory { IfErr result (λ e. e ≡ Memory) }
    {
        self.bytes.extend_from_slice(piece)?;
        Ok(())
    }
}
