use crate::names::{Named, NamedLocals, Names};
use smith_text::{Sink, TextForm};
use smith_types::Name;
use std::fmt;

/// A name as a comment on a line.
#[derive(Clone, Copy)]
pub(crate) struct NameComment<'a>(pub(crate) &'a Name);

impl TextForm for NameComment<'_> {
    fn write_text<S: Sink>(&self, sink: &mut S) -> fmt::Result {
        ("  ;; ", self.0, "\n").write_text(sink)
    }
}

/// The names of locals as a comment on a line, each after its index, or nothing if there are none.
#[derive(Clone, Copy)]
pub(crate) struct LocalsComment<'a>(&'a [Named]);

impl TextForm for LocalsComment<'_> {
    fn write_text<S: Sink>(&self, sink: &mut S) -> fmt::Result {
        if self.0.is_empty() {
            return Ok(());
        }
        sink.write_str("    ;;")?;
        for named in self.0 {
            (" ", named.index, (" ", &named.name)).write_text(sink)?;
        }
        sink.write_str("\n")
    }
}

/// The names of the functions from some function on, and of their locals.
#[derive(Clone, Copy)]
pub(crate) struct FunctionNames<'a> {
    functions: &'a [Named],
    locals: &'a [NamedLocals],
}

impl<'a> FunctionNames<'a> {
    /// Returns the names of all functions.
    pub(crate) fn of(names: &'a Names) -> FunctionNames<'a> {
        FunctionNames {
            functions: names.functions.as_slice(),
            locals: names.locals.as_slice(),
        }
    }

    /// Returns the names from the function `index` on.
    pub(crate) fn starting_at(self, index: usize) -> FunctionNames<'a> {
        FunctionNames {
            functions: functions_from(self.functions, index),
            locals: locals_from(self.locals, index),
        }
    }

    /// Returns the comment of the function `index`, the first one of these names, if it has a name.
    pub(crate) fn comment(self, index: usize) -> Option<NameComment<'a>> {
        match self.functions {
            [named, ..] if named.index as usize == index => Some(NameComment(&named.name)),
            _ => None,
        }
    }

    /// Returns the comment of the locals of the function `index`, the first one of these names.
    pub(crate) fn locals_comment(self, index: usize) -> LocalsComment<'a> {
        match self.locals {
            [named, ..] if named.function as usize == index => {
                LocalsComment(named.locals.as_slice())
            }
            _ => LocalsComment(&[]),
        }
    }
}

// Returns the names of `names` from the function `index` on.
fn functions_from(names: &[Named], index: usize) -> &[Named] {
    for (place, named) in names.iter().enumerate() {
        if named.index as usize >= index {
            return names.get(place..).unwrap_or(&[]);
        }
    }
    &[]
}

// Returns the names of `names` from the locals of the function `index` on.
fn locals_from(names: &[NamedLocals], index: usize) -> &[NamedLocals] {
    for (place, named) in names.iter().enumerate() {
        if named.function as usize >= index {
            return names.get(place..).unwrap_or(&[]);
        }
    }
    &[]
}
