ghost use Rattle.std.specs.Prelude.{◌≡◌, ◌<◌, ℕ, List, Bool, false, ◌||◌, Option, None, is_err};
ghost use Rattle.std.specs.Prelude.{IfOk, OnOk, length};
ghost use Rattle.std.specs.Io.{WritesAtMost};
ghost use Rattle.std.specs.Io.KnownBytes.{WriteAppends, Appends};

use crate::source::Failed;
use std::io::Write;

/// The destination of the program's output.
pub trait Sink {
    // The bytes written so far, if the sink knows them.
    ghost written: { Self → Option (List ℕ) } = { λ _. None };

    // Whether a write has failed.
    ghost failed: { Self → Bool };

    /// Writes bytes from the front of `piece`, and returns their number: at least 1, unless `piece`
    /// is empty.
    fn write(&mut self, piece: &[u8]) -> Result<usize, Failed>
        ensures bound { WritesAtMost result piece.now }
        ensures some { IfOk result (λ count. 0 < length piece.now → 0 < count) }
        ensures bytes { WriteAppends (written self.old) (written self.new) result piece.now }
        ensures fault { failed self.new ≡ (failed self.old || is_err result) };

    /// Returns whether a write has failed. A failed sink stays failed.
    fn has_failed(&self) -> bool
        ensures { result ≡ failed self.now };
}

/// A sink that writes to a writer. Every error is a failure, even an interruption, and so is a
/// write that takes nothing of a piece that is not empty.
#[derive(Drop)]
pub struct FromWrite<W> {
    writer: W,
    failed: bool,
}

impl<W: Write> FromWrite<W> {
    /// Creates a sink that appends to the contents of `writer`. Does not allocate.
    pub fn new(writer: W) -> Self
        ensures written { ⟦<FromWrite<W> as Sink>⟧.written result ≡ W.contents writer }
        ensures fresh { ⟦<FromWrite<W> as Sink>⟧.failed result ≡ false }
    {
        FromWrite {
            writer,
            failed: false,
        }
    }
}

impl<W: Write> Sink for FromWrite<W> {
    ghost written = { λ sink. W.contents sink.writer };

    ghost failed = { λ sink. sink.failed };

    fn write(&mut self, piece: &[u8]) -> Result<usize, Failed> {
        match self.writer.write(piece) {
            Ok(count) if count > 0 || piece.is_empty() => Ok(count),
            _ => {
                self.failed = true;
                Err(Failed)
            }
        }
    }

    fn has_failed(&self) -> bool {
        self.failed
    }
}

/// Writes all of `bytes` to `sink`, in as many pieces as needed.
pub fn write_whole<W: Sink>(sink: &mut W, bytes: &[u8]) -> Result<(), Failed>
    ensures bytes { OnOk result (Appends (W.written sink.old) (W.written sink.new) bytes.now) }
    ensures fault { W.failed sink.new ≡ (W.failed sink.old || is_err result) }
{
    let mut rest = bytes;
    while !rest.is_empty() {
        let count = sink.write(rest)?;
        rest = &rest[count..];
    }
    Ok(())
}
