ghost use Rattle.std.specs.Prelude.{◌≤◌, length, IfErr};

use crate::cursor::Cursor;
use crate::fault::{Fault, TextRefusal};
use crate::lexer::{Token, tokens_of};
use crate::names::Names;
use crate::signatures::Signatures;
use smith_config::Shape;
use smith_types::{Items, SubType};
use std::alloc::Global;

/// One of the three readings of a text. A text may use an identifier or a type before it defines
/// it.
#[derive(Clone, Copy, Debug, PartialEq, Eq)]
pub(crate) enum Stage {
    /// The first, which collects identifiers.
    Names,
    /// The second, which knows identifiers, and collects types.
    Types,
    /// The third, which knows both.
    Whole,
}

/// The number of items of each index space so far.
#[derive(Clone, Copy)]
pub(crate) struct Counts {
    pub(crate) types: u32,
    pub(crate) funcs: u32,
    pub(crate) tables: u32,
    pub(crate) memories: u32,
    pub(crate) globals: u32,
    pub(crate) tags: u32,
}

const NO_ITEMS: Counts = Counts {
    types: 0,
    funcs: 0,
    tables: 0,
    memories: 0,
    globals: 0,
    tags: 0,
};

/// A reading of a text.
#[derive(Drop)]
pub(crate) struct Reading<'a> {
    pub(crate) alloc: Global,
    /// The tokens that are not read yet.
    pub(crate) cursor: Cursor<'a>,
    pub(crate) stage: Stage,
    /// The identifiers of the text, or those so far.
    pub(crate) names: Names,
    /// The function types of the text, and new ones so far, if they are known.
    pub(crate) signatures: Signatures,
    pub(crate) counts: Counts,
    /// Whether an entity is defined, so that no import may follow.
    pub(crate) has_definitions: bool,
    /// The shape so far, without types that have no field.
    pub(crate) shape: Shape,
    /// The groups of types that have no field, so far.
    pub(crate) implicit: Vec<Items<SubType>>,
}

// Returns a shape without parts.
fn no_shape(alloc: Global) -> Shape {
    Shape {
        groups: Items::new(alloc),
        imports: Items::new(alloc),
        funcs: Items::new(alloc),
        tags: Items::new(alloc),
        tables: Items::new(alloc),
        memories: Items::new(alloc),
        globals: Items::new(alloc),
        exports: Items::new(alloc),
    }
}

impl<'a> Reading<'a> {
    // Begins a reading.
    fn new(
        alloc: Global,
        cursor: Cursor<'a>,
        stage: Stage,
        names: Names,
        signatures: Signatures,
    ) -> Reading<'a> {
        Reading {
            alloc,
            cursor,
            stage,
            names,
            signatures,
            counts: NO_ITEMS,
            has_definitions: false,
            shape: no_shape(alloc),
            implicit: Vec::new(alloc),
        }
    }
}

// Returns the identifiers of a text.
fn read_names(alloc: Global, cursor: Cursor<'_>) -> Result<Names, Fault> {
    let (names, signatures) = (Names::new(alloc), Signatures::new(alloc));
    let mut reading = Reading::new(alloc, cursor, Stage::Names, names, signatures);
    reading.module()?;
    Ok(reading.names)
}

// Returns the identifiers and the function types of a text.
fn read_types(alloc: Global, cursor: Cursor<'_>) -> Result<(Names, Signatures), Fault> {
    let names = read_names(alloc, cursor)?;
    let signatures = Signatures::new(alloc);
    let mut reading = Reading::new(alloc, cursor, Stage::Types, names, signatures);
    reading.module()?;
    let signatures = Signatures::of(alloc, reading.shape.groups.as_slice())?;
    Ok((reading.names, signatures))
}

// Returns the shape of a text.
fn read_whole(alloc: Global, cursor: Cursor<'_>) -> Result<Shape, Fault> {
    let (names, signatures) = read_types(alloc, cursor)?;
    let mut reading = Reading::new(alloc, cursor, Stage::Whole, names, signatures);
    reading.module()?;
    let mut shape = reading.shape;
    for group in reading.implicit {
        shape.groups.push(group)?;
    }
    Ok(shape)
}

// Returns the shape of a text that has the tokens `tokens`.
fn read_tokens(alloc: Global, text: &[u8], tokens: &[Token]) -> Result<Shape, Fault> {
    read_whole(alloc, Cursor::new(text, tokens))
}

fn read(alloc: Global, text: &[u8]) -> Result<Shape, Fault> {
    let tokens = tokens_of(alloc, text)?;
    read_tokens(alloc, text, tokens.as_slice())
}

/// Returns the shape of the module that `text` spells in the text format. Whether the shape may be
/// used depends on the configuration: [`Shape::check`] decides it. The time is linear in the length
/// of the text, apart from identifiers and function types without an index, which are looked up in
/// a map; memory is linear.
///
/// # Errors
///
/// Returns the first fault, and its place in the text. Faults of identifiers come after all others.
pub fn shape_of_text(alloc: Global, text: &[u8]) -> Result<Shape, TextRefusal>
    ensures within { IfErr result (λ refusal. refusal.offset ≤ length text.now) }
{
    match read(alloc, text) {
        Ok(shape) => Ok(shape),
        Err(fault) => Err(fault.in_text(text)),
    }
}
