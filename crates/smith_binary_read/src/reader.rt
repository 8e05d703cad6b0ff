ghost use Rattle.std.specs.Prelude.{◌≡◌, ◌<◌, ◌^◌, ℕ, List, length, drop};
ghost use Rattle.smith_binary_read.specs.Readings.{Gives, GivesBy, Peeks, byte_at, bytes_at};
ghost use Rattle.smith_binary_read.specs.Readings.{starts_with};

use crate::error::{Fault, ReadError, Reason};
use std::alloc::Global;
use std::marker::Model;

/// A reader of bytes. Contracts see the bytes that it has not read yet.
///
/// After an error that is not [`ReadError::Memory`] it may have read any part of the item, so it is to be
/// dropped.
#[derive(Drop)]
pub struct Reader<'a> {
    pub(crate) alloc: Global,
    pub(crate) rest: &'a [u8],
}

impl<'a> Model for Reader<'a> {
    ghost Value = { List ℕ };

    ghost view = { λ s. s.rest.now };
}

impl<'a> Reader<'a> {
    /// Creates a reader of `bytes`. Items that it reads are allocated from `alloc`.
    pub fn new(alloc: Global, bytes: &'a [u8]) -> Self
        ensures { result ≡ bytes.now }
    {
        Reader { alloc, rest: bytes }
    }

    /// Returns the allocator of items.
    pub fn alloc(&self) -> Global {
        self.alloc
    }

    /// Returns the number of bytes that are left.
    pub fn left(&self) -> usize
        ensures { result ≡ length self.now }
    {
        self.rest.len()
    }

    /// Returns the bytes that are left, without reading them.
    pub fn rest(&self) -> &'a [u8]
        ensures { result.now ≡ self.now }
    {
        self.rest
    }

    /// Returns the fault `reason` at the next byte.
    pub fn fault(&self, reason: Reason) -> ReadError
        ensures { result
            ≡ ReadError.Malformed (record { left = length self.now; reason = reason }) }
    {
        ReadError::Malformed(Fault {
            left: self.rest.len(),
            reason,
        })
    }

    /// Reads a byte (Bytes).
    pub fn read_byte(&mut self) -> Result<u8, ReadError>
        ensures { Gives result self.new (byte_at self.old) }
    {
        match self.rest {
            [] => Err(self.fault(Reason::UnexpectedEnd)),
            [byte, rest @ ..] => {
                self.rest = rest;
                Ok(*byte)
            }
        }
    }

    /// Reads `count` bytes. Does not allocate.
    pub fn read_bytes(&mut self, count: usize) -> Result<&'a [u8], ReadError>
        ensures { GivesBy (λ bytes. bytes.now) result self.new (bytes_at count self.old) }
    {
        if self.rest.len() < count {
            return Err(self.fault(Reason::UnexpectedEnd));
        }
        let (bytes, rest) = self.rest.split_at(count);
        self.rest = rest;
        Ok(bytes)
    }

    /// Returns the next byte without reading it.
    pub fn peek(&self) -> Result<u8, ReadError>
        ensures { Peeks result self.now }
    {
        match self.rest {
            [] => Err(self.fault(Reason::UnexpectedEnd)),
            [byte, ..] => Ok(*byte),
        }
    }

    /// Returns whether the next byte is `byte`.
    pub fn starts_with(&self, byte: u8) -> bool
        ensures { result ≡ starts_with byte self.now }
    {
        match self.rest {
            [] => false,
            [first, ..] => *first == byte,
        }
    }

    /// Skips the next byte, if one is left.
    pub fn skip(&mut self)
        ensures { self.new ≡ drop 1 self.old }
    {
        if let [_, rest @ ..] = self.rest {
            self.rest = rest;
        }
    }
}
