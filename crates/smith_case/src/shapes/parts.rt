//! Lists as shapes write them, with separators between their parts.

use crate::fault::Fault;
use crate::shapes::shape_parts::{add_part, item_of, sub_type_of};
use crate::shapes::type_names::{field_type_of, val_type_of};
use smith_config::Shape;
use smith_types::{FieldType, ImportItem, Items, Name, SubType, ValType};
use std::alloc::Global;

/// A list, or a shape, whose parts are written with separators between them.
pub(crate) trait Parts {
    /// Adds the part that `part` denotes, a text that is not blank.
    fn add(&mut self, alloc: Global, part: &str) -> Result<(), Fault>;
}

impl Parts for Shape {
    fn add(&mut self, alloc: Global, part: &str) -> Result<(), Fault> {
        add_part(alloc, part, self)
    }
}

impl Parts for Items<SubType> {
    fn add(&mut self, alloc: Global, part: &str) -> Result<(), Fault> {
        push(self, sub_type_of(alloc, part))
    }
}

impl Parts for Items<ImportItem> {
    fn add(&mut self, alloc: Global, part: &str) -> Result<(), Fault> {
        push(self, item_of(alloc, part))
    }
}

impl Parts for Items<FieldType> {
    fn add(&mut self, _alloc: Global, part: &str) -> Result<(), Fault> {
        push(self, or_unknown(field_type_of(part)))
    }
}

impl Parts for Items<ValType> {
    fn add(&mut self, _alloc: Global, part: &str) -> Result<(), Fault> {
        push(self, or_unknown(val_type_of(part)))
    }
}

// `-` in place of the names means none.
impl Parts for Items<Name> {
    fn add(&mut self, alloc: Global, part: &str) -> Result<(), Fault> {
        if part == "-" {
            return Ok(());
        }
        push(self, name_of(alloc, part))
    }
}

/// Returns `list` with the parts added that `text` has between separators `separator`.
pub(crate) fn with_parts<L: Parts + Drop>(
    alloc: Global,
    text: &str,
    separator: char,
    list: L,
) -> Result<L, Fault> {
    let mut list = list;
    add_parts(alloc, text, separator, &mut list).and(Ok(list))
}

// Adds to `list` the parts that `text` has between separators `separator`.
fn add_parts<L: Parts>(
    alloc: Global,
    text: &str,
    separator: char,
    list: &mut L,
) -> Result<(), Fault> {
    for part in text.split(separator) {
        if !part.trim().is_empty() {
            list.add(alloc, part.trim())?;
        }
    }
    Ok(())
}

/// Adds `item` to `items`, if it could be read.
pub(crate) fn push<T: Drop>(items: &mut Items<T>, item: Result<T, Fault>) -> Result<(), Fault> {
    Ok(items.push(item?)?)
}

/// Returns the value that was read, or the fault if there is none.
pub(crate) fn or_unknown<T: Drop>(value: Option<T>) -> Result<T, Fault> {
    value.ok_or(Fault::UnknownShape)
}

/// Returns both values that were read, or the first fault.
pub(crate) fn both<A: Drop, B: Drop>(
    first: Result<A, Fault>,
    second: Result<B, Fault>,
) -> Result<(A, B), Fault> {
    let first = first?;
    Ok((first, second?))
}

/// Returns the name `text`.
pub(crate) fn name_of(alloc: Global, text: &str) -> Result<Name, Fault> {
    Ok(Name::from_text(alloc, text)?)
}
