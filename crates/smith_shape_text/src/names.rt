use crate::fault::{Fault, TextFault};
use crate::reading::{Reading, Stage};
use std::alloc::Global;
use std::collections::BTreeMap;

/// An index space that identifiers name items of (Indices).
#[derive(Clone, Copy, Debug, PartialEq, Eq)]
pub(crate) enum Space {
    Type,
    Func,
    Table,
    Memory,
    Global,
    Tag,
}

/// The index of each identifier.
#[derive(Drop)]
pub(crate) struct Names {
    // The key of an identifier is the number of its space, then its bytes.
    indices: BTreeMap<Vec<u8>, u32>,
}

// Returns the key of `identifier` in `space`.
fn key_of(alloc: Global, space: Space, identifier: &[u8]) -> Result<Vec<u8>, Fault> {
    let mut key = Vec::new(alloc);
    key.push(space as u8)?;
    key.extend_from_slice(identifier)?;
    Ok(key)
}

impl Names {
    /// Returns no names.
    pub(crate) fn new(alloc: Global) -> Names {
        Names {
            indices: BTreeMap::new(alloc),
        }
    }

    // Adds `identifier`, which names the item `index` of `space`. Returns whether it is new.
    fn add(
        &mut self,
        alloc: Global,
        space: Space,
        identifier: &[u8],
        index: u32,
    ) -> Result<bool, Fault> {
        let key = key_of(alloc, space, identifier)?;
        let before = self.indices.insert(key, index)?;
        Ok(before.is_none())
    }

    // Returns the index of `identifier` in `space`, if it names an item.
    fn find(&self, alloc: Global, space: Space, identifier: &[u8]) -> Result<Option<u32>, Fault> {
        let key = key_of(alloc, space, identifier)?;
        Ok(self.indices.get(key.as_slice()).copied())
    }
}

impl Reading<'_> {
    /// Reads the identifier of the next item of `space`, if it has one, and counts the item. Returns its
    /// index.
    pub(crate) fn item(&mut self, space: Space) -> Result<u32, Fault> {
        let fault = self.cursor.fault(TextFault::RepeatedIdentifier);
        let index = self.count(space)?;
        let Some(identifier) = self.cursor.identifier() else {
            return Ok(index);
        };
        if self.stage != Stage::Names {
            return Ok(index);
        }
        if self.names.add(self.alloc, space, identifier, index)? {
            return Ok(index);
        }
        Err(fault)
    }

    /// Counts an item of `space`, and returns its index.
    pub(crate) fn count(&mut self, space: Space) -> Result<u32, Fault> {
        let many = self.cursor.fault(TextFault::TooMany);
        let count = match space {
            Space::Type => &mut self.counts.types,
            Space::Func => &mut self.counts.funcs,
            Space::Table => &mut self.counts.tables,
            Space::Memory => &mut self.counts.memories,
            Space::Global => &mut self.counts.globals,
            Space::Tag => &mut self.counts.tags,
        };
        let index = *count;
        match index.checked_add(1) {
            Some(next) => {
                *count = next;
                Ok(index)
            }
            None => Err(many),
        }
    }

    /// Reads an index of `space`, a number or an identifier (Indices). While identifiers are collected,
    /// each has the index 0.
    pub(crate) fn index(&mut self, space: Space) -> Result<u32, Fault> {
        let unknown = self.cursor.fault(TextFault::UnknownIdentifier);
        let Some(identifier) = self.cursor.identifier() else {
            return self.numeric_index();
        };
        if self.stage == Stage::Names {
            return Ok(0);
        }
        match self.names.find(self.alloc, space, identifier)? {
            Some(index) => Ok(index),
            None => Err(unknown),
        }
    }

    // Reads an index that is a number.
    fn numeric_index(&mut self) -> Result<u32, Fault> {
        let fault = self.cursor.fault(TextFault::NoIndex);
        if !self.cursor.is_number() {
            return Err(fault);
        }
        match u32::try_from(self.cursor.number()?) {
            Ok(index) => Ok(index),
            Err(_) => Err(fault),
        }
    }

    /// Returns whether an index is next.
    pub(crate) fn is_index(&self) -> bool {
        match self.cursor.word() {
            [b'$' | b'0'..=b'9', ..] => true,
            _ => false,
        }
    }
}
