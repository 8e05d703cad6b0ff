//! Whole modules, compared without memory.

use crate::expectation::Expectation;
use smith_bytes::Error;
use smith_text::{FromFmt, TextForm, text};
use std::alloc::Global;
use std::fmt::{self, Write};
use wasm_smith::Module;

/// Returns all that `module` has, as text: its text, with the notes, and its configuration.
pub(crate) fn whole(alloc: Global, module: &Module) -> Result<String, Error> {
    let mut text = text(alloc, module)?;
    write!(text, "{module:?}")?;
    Ok(text)
}

// Writes what [`whole`] returns for `module`.
fn write_whole(module: &Module, writer: &mut Expectation<'_>) -> fmt::Result {
    module.write_text(&mut FromFmt::new(&mut *writer))?;
    write!(writer, "{module:?}")
}

/// Returns whether `text` equals the result of [`whole`] for `module`. Does not allocate.
pub(crate) fn is_whole(module: &Module, text: &str) -> bool {
    let mut expecting = Expectation::new(text);
    write_whole(module, &mut expecting).is_ok() && expecting.is_complete()
}
