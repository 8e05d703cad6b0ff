ghost use Rattle.std.specs.Prelude.{◌≡◌, false, is_err, IfErr, OnOk};
ghost use Rattle.smith_text.specs.Written.{Keeps};

use crate::sink::{FromFmt, Sink};
use smith_bytes::Error;
use smith_types::Items;
use std::alloc::Global;
use std::fmt;

/// Plain data with a form in the text format of the standard, and texts made of such parts.
pub trait TextForm {
    /// Writes the value in the text format to `sink`. Requires that no write to it has failed.
    ///
    /// # Errors
    ///
    /// Returns the error of the first write that fails. Nothing is written after it.
    fn write_text<S: Sink>(&self, sink: &mut S) -> fmt::Result
        requires open { S.failed sink.old ≡ false }
        ensures fault { S.failed sink.new ≡ is_err result }
        ensures keeps { OnOk result (Keeps S.has sink.old sink.new) };
}

/// A text is written as it is.
impl TextForm for &str {
    fn write_text<S: Sink>(&self, sink: &mut S) -> fmt::Result {
        sink.write_str(self)
    }
}

/// A borrowed value is written as the value.
impl<T: TextForm> TextForm for &T {
    fn write_text<S: Sink>(&self, sink: &mut S) -> fmt::Result {
        (**self).write_text(sink)
    }
}

/// The two parts, one after the other.
impl<A: TextForm, B: TextForm> TextForm for (A, B) {
    fn write_text<S: Sink>(&self, sink: &mut S) -> fmt::Result {
        self.0.write_text(sink)?;
        self.1.write_text(sink)
    }
}

/// The three parts, one after the other.
impl<A: TextForm, B: TextForm, C: TextForm> TextForm for (A, B, C) {
    fn write_text<S: Sink>(&self, sink: &mut S) -> fmt::Result {
        self.0.write_text(sink)?;
        self.1.write_text(sink)?;
        self.2.write_text(sink)
    }
}

/// The value, or nothing if there is none.
impl<T: TextForm> TextForm for Option<T> {
    fn write_text<S: Sink>(&self, sink: &mut S) -> fmt::Result {
        match self {
            Some(value) => value.write_text(sink),
            None => Ok(()),
        }
    }
}

/// Values, each after a first text and before a second one.
#[derive(Drop)]
pub(crate) struct Repeated<'a, T>(
    pub(crate) &'static str,
    pub(crate) &'a [T],
    pub(crate) &'static str,
);

impl<T: TextForm> TextForm for Repeated<'_, T> {
    fn write_text<S: Sink>(&self, sink: &mut S) -> fmt::Result {
        for value in self.1 {
            (self.0, value, self.2).write_text(sink)?;
        }
        Ok(())
    }
}

/// Each value after a space.
impl<T: TextForm> TextForm for &[T] {
    fn write_text<S: Sink>(&self, sink: &mut S) -> fmt::Result {
        Repeated(" ", self, "").write_text(sink)
    }
}

/// Each value after a space.
impl<T: TextForm> TextForm for Items<T> {
    fn write_text<S: Sink>(&self, sink: &mut S) -> fmt::Result {
        self.as_slice().write_text(sink)
    }
}

/// An index: the standard's section Text Format, Indices.
impl TextForm for u32 {
    fn write_text<S: Sink>(&self, sink: &mut S) -> fmt::Result {
        sink.write_fmt(*self)
    }
}

/// A number of 64 bits, in decimal.
impl TextForm for u64 {
    fn write_text<S: Sink>(&self, sink: &mut S) -> fmt::Result {
        sink.write_fmt(*self)
    }
}

/// A place in a list or a number of items, in decimal.
impl TextForm for usize {
    fn write_text<S: Sink>(&self, sink: &mut S) -> fmt::Result {
        sink.write_fmt(*self)
    }
}

/// A number of 32 bits, in decimal, with its sign if it is negative.
impl TextForm for i32 {
    fn write_text<S: Sink>(&self, sink: &mut S) -> fmt::Result {
        sink.write_fmt(*self)
    }
}

/// A number of 64 bits, in decimal, with its sign if it is negative.
impl TextForm for i64 {
    fn write_text<S: Sink>(&self, sink: &mut S) -> fmt::Result {
        sink.write_fmt(*self)
    }
}

/// `true` or `false`.
impl TextForm for bool {
    fn write_text<S: Sink>(&self, sink: &mut S) -> fmt::Result {
        sink.write_fmt(*self)
    }
}

/// A text that opens a list, the values of the list, and a text that closes it, or nothing if there
/// are no values.
#[derive(Drop)]
pub(crate) struct Listed<'a, T>(
    pub(crate) &'static str,
    pub(crate) &'a [T],
    pub(crate) &'static str,
);

impl<T: TextForm> TextForm for Listed<'_, T> {
    fn write_text<S: Sink>(&self, sink: &mut S) -> fmt::Result {
        if self.1.is_empty() {
            return Ok(());
        }
        (self.0, self.1, self.2).write_text(sink)
    }
}

/// Returns the text of `value`, as [`TextForm::write_text`] writes it, allocated from `alloc`.
///
/// # Errors
///
/// Returns `Memory` if an allocation fails.
pub fn text_of<T: TextForm>(alloc: Global, value: &T) -> Result<String, Error>
    ensures memory { IfErr result (λ e. e ≡ Error.Memory) }
{
    let mut sink = FromFmt::new(String::new(alloc));
    match value.write_text(&mut sink) {
        Ok(()) => Ok(sink.into_string()),
        Err(fmt::Error) => Err(Error::Memory),
    }
}
