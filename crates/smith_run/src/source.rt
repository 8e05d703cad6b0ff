ghost use Rattle.std.specs.Prelude.{◌≡◌, ℕ, List, Bool, false, ◌||◌, Option, None, is_err, IfOk};
ghost use Rattle.std.specs.Prelude.{OnOk};
ghost use Rattle.std.specs.Io.{ReadsAtMost};
ghost use Rattle.std.specs.Io.KnownBytes.{ReadConsumes, IsAtEnd};
ghost use Rattle.smith_run.specs.Input.{AreKnown, is_read_fault};
ghost use Rattle.smith_run.specs.declared.source.InputFault.TheVariants.{Read, Memory};

use std::alloc::{AllocError, Global};
use std::io::Read;

/// A failure of a read or a write, without its reason.
#[derive(Clone, Copy, Debug)]
pub struct Failed;

/// The source of the program's input.
pub trait Source {
    // The bytes that later reads will return, if the source knows them.
    ghost left: { Self → Option (List ℕ) } = { λ _. None };

    // Whether a read has failed.
    ghost failed: { Self → Bool };

    /// Reads bytes into the front of `buffer`, and returns their number. The input is at its end if
    /// that is 0, unless `buffer` is empty.
    fn read(&mut self, buffer: &mut [u8]) -> Result<usize, Failed>
        ensures bound { ReadsAtMost result buffer.new }
        ensures bytes { ReadConsumes (left self.old) (left self.new) result buffer.new }
        ensures fault { failed self.new ≡ (failed self.old || is_err result) };

    /// Returns whether a read has failed. A failed source stays failed.
    fn has_failed(&self) -> bool
        ensures { result ≡ failed self.now };
}

/// A source that reads from a reader. Every error is a failure, even an interruption.
#[derive(Drop)]
pub struct FromRead<R> {
    reader: R,
    failed: bool,
}

impl<R: Read> FromRead<R> {
    /// Creates a source of the remaining input of `reader`. Does not allocate.
    pub fn new(reader: R) -> Self
        ensures left { ⟦<FromRead<R> as Source>⟧.left result ≡ R.remaining reader }
        ensures fresh { ⟦<FromRead<R> as Source>⟧.failed result ≡ false }
    {
        FromRead {
            reader,
            failed: false,
        }
    }
}

impl<R: Read> Source for FromRead<R> {
    ghost left = { λ source. R.remaining source.reader };

    ghost failed = { λ source. source.failed };

    fn read(&mut self, buffer: &mut [u8]) -> Result<usize, Failed> {
        match self.reader.read(buffer) {
            Ok(count) => Ok(count),
            Err(_) => {
                self.failed = true;
                Err(Failed)
            }
        }
    }

    fn has_failed(&self) -> bool {
        self.failed
    }
}

/// A fault after which an input is not read whole.
#[derive(Clone, Copy, Debug)]
pub enum InputFault {
    /// A read failed.
    Read,
    /// The buffer could not grow.
    Memory,
}

impl From<Failed> for InputFault {
    ghost from_gives = { λ _ fault. fault ≡ Read };

    fn from(_failed: Failed) -> InputFault {
        InputFault::Read
    }
}

impl From<AllocError> for InputFault {
    ghost from_gives = { λ _ fault. fault ≡ Memory };

    fn from(_refused: AllocError) -> InputFault {
        InputFault::Memory
    }
}

/// Reads `source` to its end.
pub fn read_whole<R: Source>(alloc: Global, source: &mut R) -> Result<Vec<u8>, InputFault>
    ensures whole { IfOk result (λ input. AreKnown (R.left source.old) input.items) }
    ensures end { OnOk result (IsAtEnd (R.left source.new)) }
    ensures fault { R.failed source.new ≡ (R.failed source.old || is_read_fault result) }
{
    let mut input = Vec::new(alloc);
    let mut buffer = [0; 4096];
    loop {
        let count = source.read(&mut buffer)?;
        if count == 0 {
            return Ok(input);
        }
        input.extend_from_slice(&buffer[..count])?;
    }
}
