ghost use Rattle.std.specs.Prelude.{◌≡◌, IfErr};

use smith_binary_read::{Decode, ReadError, Reader, Reason};
use smith_bytes::Error;
use smith_decode::Custom;
use smith_types::Name;
use std::alloc::Global;

/// The name of an index (Name Maps).
#[derive(Drop)]
pub(crate) struct Named {
    pub(crate) index: u32,
    pub(crate) name: Name,
}

/// The names of the locals of a function (Local Names).
#[derive(Drop)]
pub(crate) struct NamedLocals {
    pub(crate) function: u32,
    pub(crate) locals: Vec<Named>,
}

/// The names that a file has for its readers: the standard's appendix Custom Sections and Annotations,
/// section Name Section. Indices increase.
#[derive(Drop)]
pub(crate) struct Names {
    pub(crate) module: Option<Name>,
    pub(crate) functions: Vec<Named>,
    pub(crate) locals: Vec<NamedLocals>,
}

impl Names {
    // Returns no names.
    fn none(alloc: Global) -> Names {
        Names {
            module: None,
            functions: Vec::new(alloc),
            locals: Vec::new(alloc),
        }
    }

    /// Returns the names of the first name section among `customs`, or no names if there is none or
    /// it is malformed. A malformed name section is not a fault of a module.
    pub(crate) fn of(alloc: Global, customs: &[Custom]) -> Result<Names, Error>
        ensures memory { IfErr result (λ e. e ≡ Error.Memory) }
    {
        match customs.iter().find(|custom| custom.name.as_str() == "name") {
            Some(custom) => read_good(alloc, custom.bytes.as_slice()),
            None => Ok(Names::none(alloc)),
        }
    }

    // Reads the names of the subsection `id`. Skips subsections other than the names of the module,
    // of functions and of locals.
    fn read_subsection(&mut self, id: u8, reader: &mut Reader<'_>) -> Result<(), ReadError> {
        match id {
            0 => self.module = Some(Name::decode(reader)?),
            1 => self.functions = read_map(reader)?,
            2 => self.locals = read_local_maps(reader)?,
            _ => return Ok(()),
        }
        if reader.left() > 0 {
            return Err(reader.fault(Reason::TrailingBytes));
        }
        Ok(())
    }
}

// Returns the names in the name section `bytes`, or no names if it is malformed.
fn read_good(alloc: Global, bytes: &[u8]) -> Result<Names, Error>
    ensures memory { IfErr result (λ e. e ≡ Error.Memory) }
{
    match read_names(&mut Reader::new(alloc, bytes)) {
        Ok(names) => Ok(names),
        Err(ReadError::Memory) => Err(Error::Memory),
        Err(ReadError::Malformed(_)) => Ok(Names::none(alloc)),
    }
}

// Reads subsections to the end. Each occurs once at most, in the order of their identifiers.
fn read_names(reader: &mut Reader<'_>) -> Result<Names, ReadError> {
    let mut names = Names::none(reader.alloc());
    for least in 0..u8::MAX {
        if reader.left() == 0 {
            return Ok(names);
        }
        if !reader.starts_with(least) {
            continue;
        }
        reader.skip();
        let content = reader.read_content()?;
        names.read_subsection(least, &mut Reader::new(reader.alloc(), content))?;
    }
    if reader.left() > 0 {
        return Err(reader.fault(Reason::SectionOrder));
    }
    Ok(names)
}

// Reads an index above the index of `last`.
fn read_next_index(reader: &mut Reader<'_>, last: Option<u32>) -> Result<u32, ReadError> {
    let unordered = reader.fault(Reason::UnknownByte);
    let index = reader.read_u32()?;
    match last {
        Some(last) if index <= last => Err(unordered),
        _ => Ok(index),
    }
}

// Reads a list of names, each with an index above the index before.
fn read_map(reader: &mut Reader<'_>) -> Result<Vec<Named>, ReadError> {
    let count = reader.read_u32()?;
    let mut names = Vec::new(reader.alloc());
    let mut last = None;
    for _ in 0..count {
        let index = read_next_index(reader, last)?;
        let name = Name::decode(reader)?;
        names.push(Named { index, name })?;
        last = Some(index);
    }
    Ok(names)
}

// Reads a list of the names of the locals of functions, each with an index above the index before.
fn read_local_maps(reader: &mut Reader<'_>) -> Result<Vec<NamedLocals>, ReadError> {
    let count = reader.read_u32()?;
    let mut maps = Vec::new(reader.alloc());
    let mut last = None;
    for _ in 0..count {
        let function = read_next_index(reader, last)?;
        let locals = read_map(reader)?;
        maps.push(NamedLocals { function, locals })?;
        last = Some(function);
    }
    Ok(maps)
}
