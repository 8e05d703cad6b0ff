ghost use Rattle.std.specs.Prelude.{◌≡◌, ◌≤◌, ℕ, Bool, false, is_err, length, IfSome, OnOk};
ghost use Rattle.std.specs.String.{string_bytes};
ghost use Rattle.smith_text.specs.Written.{HasBytes, Writes};

use std::fmt;
use std::fmt::Display;

/// A destination of text, written to until a write fails.
pub trait Sink {
    // Whether a write has failed.
    ghost failed: { Self → Bool };

    // Whether the destination has at least some number of bytes.
    ghost has: { Self → ℕ → Type 0 };

    /// Writes `text`. Requires that no write of the sink has failed.
    ///
    /// # Errors
    ///
    /// Returns the error of the destination.
    fn write_str(&mut self, text: &str) -> fmt::Result
        requires open { failed self.old ≡ false }
        ensures fault { failed self.new ≡ is_err result }
        ensures writes { OnOk result (Writes has self.old (length text.now) self.new) };

    /// Writes the output of `text`, as [`Sink::write_str`] does. The macros `write!` and `writeln!`
    /// call it.
    fn write_fmt<D: Display + Drop>(&mut self, text: D) -> fmt::Result
        requires open { failed self.old ≡ false }
        ensures fault { failed self.new ≡ is_err result }
        ensures writes { OnOk result (IfSome (D.output text)
            (λ bytes. Writes has self.old (length bytes) self.new)) };
}

/// A sink that writes to any writer of text.
#[derive(Drop)]
pub struct FromFmt<W> {
    writer: W,
    failed: bool,
}

impl<W: fmt::Write> FromFmt<W> {
    /// Creates a sink that appends to the contents of `writer`. Does not allocate.
    pub fn new(writer: W) -> Self
        ensures open { ⟦<FromFmt<W> as Sink>⟧.failed result ≡ false }
        ensures has { ⟦<FromFmt<W> as Sink>⟧.has result 0 }
    {
        FromFmt {
            writer,
            failed: false,
        }
    }
}

impl FromFmt<String> {
    /// Returns the string, to which everything was written.
    pub fn into_string(self) -> String
        ensures has { (count : ℕ) → ⟦<FromFmt<String> as Sink>⟧.has self count
            → count ≤ length (string_bytes result) }
    {
        self.writer
    }
}

impl<W: fmt::Write> Sink for FromFmt<W> {
    ghost failed = { λ sink. sink.failed };

    ghost has = { λ sink count. HasBytes W.write_str_gives sink.writer count };

    fn write_str(&mut self, text: &str) -> fmt::Result {
        let written = self.writer.write_str(text);
        self.failed = written.is_err();
        written
    }

    fn write_fmt<D: Display + Drop>(&mut self, text: D) -> fmt::Result {
        let written = self.writer.write_fmt(text);
        self.failed = written.is_err();
        written
    }
}
