ghost use Rattle.std.specs.Prelude.{◌≡◌, false, is_err, OnOk};
ghost use Rattle.smith_text.specs.Written.{Keeps};

use crate::expressions::{Expression, Offset};
use smith_decode::{DataMode, DataSegment, ElementItems, ElementMode, ElementSegment};
use smith_instr::Instr;
use smith_text::{Sink, TextForm, write_field, write_string};
use smith_types::{Items, SubType};
use std::fmt;

// Writes the use of the table or the memory `index` before a space, unless `index` is 0.
fn write_target<S: Sink>(opening: &str, index: u32, sink: &mut S) -> fmt::Result
    requires open { S.failed sink.old ≡ false }
    ensures fault { S.failed sink.new ≡ is_err result }
    ensures keeps { OnOk result (Keeps S.has sink.old sink.new) }
{
    if index == 0 {
        return Ok(());
    }
    (opening, index, ") ").write_text(sink)
}

// Returns the text of an offset.
fn offset_of<'a>(offset: &'a Items<Instr>, signatures: &'a [SubType]) -> Offset<'a> {
    Offset(Expression {
        instructions: offset.as_slice(),
        signatures,
    })
}

// Writes the expressions `items`, each as an item of an element segment.
fn write_items<S: Sink>(items: &[Items<Instr>], signatures: &[SubType], sink: &mut S) -> fmt::Result
    requires open { S.failed sink.old ≡ false }
    ensures fault { S.failed sink.new ≡ is_err result }
    ensures keeps { OnOk result (Keeps S.has sink.old sink.new) }
{
    for item in items {
        let instructions = item.as_slice();
        let expression = Expression {
            instructions,
            signatures,
        };
        (" (item", expression, ")").write_text(sink)?;
    }
    Ok(())
}

// An element segment after its index.
#[derive(Clone, Copy)]
struct ElementDetails<'a> {
    segment: &'a ElementSegment,
    signatures: &'a [SubType],
}

impl ElementDetails<'_> {
    // Writes the mode of the segment, with a space after it if it has a text.
    fn write_mode<S: Sink>(&self, sink: &mut S) -> fmt::Result
        requires open { S.failed sink.old ≡ false }
        ensures fault { S.failed sink.new ≡ is_err result }
        ensures keeps { OnOk result (Keeps S.has sink.old sink.new) }
    {
        match &self.segment.mode {
            ElementMode::Passive => Ok(()),
            ElementMode::Declared => sink.write_str("declare "),
            ElementMode::Active { table, offset } => {
                write_target("(table ", *table, sink)?;
                offset_of(offset, self.signatures).write_text(sink)
            }
        }
    }
}

/// The section Text Format, Element Segments.
impl TextForm for ElementDetails<'_> {
    fn write_text<S: Sink>(&self, sink: &mut S) -> fmt::Result {
        self.write_mode(sink)?;
        match &self.segment.items {
            ElementItems::Functions(functions) => ("func", functions).write_text(sink),
            ElementItems::Expressions(items) => {
                self.segment.ty.write_text(sink)?;
                write_items(items.as_slice(), self.signatures, sink)
            }
        }
    }
}

// A data segment after its index.
#[derive(Clone, Copy)]
struct DataDetails<'a> {
    segment: &'a DataSegment,
    signatures: &'a [SubType],
}

/// The section Text Format, Data Segments.
impl TextForm for DataDetails<'_> {
    fn write_text<S: Sink>(&self, sink: &mut S) -> fmt::Result {
        if let DataMode::Active { memory, offset } = &self.segment.mode {
            write_target("(memory ", *memory, sink)?;
            offset_of(offset, self.signatures).write_text(sink)?;
        }
        write_string(self.segment.bytes.as_slice(), sink)
    }
}

/// Writes the element segments of a module.
pub(crate) fn write_elements<S: Sink>(
    segments: &[ElementSegment],
    signatures: &[SubType],
    sink: &mut S,
) -> fmt::Result
    requires open { S.failed sink.old ≡ false }
    ensures fault { S.failed sink.new ≡ is_err result }
    ensures keeps { OnOk result (Keeps S.has sink.old sink.new) }
{
    for (index, segment) in segments.iter().enumerate() {
        let details = ElementDetails {
            segment,
            signatures,
        };
        write_field("elem", index, &details, sink)?;
    }
    Ok(())
}

/// Writes the data segments of a module.
pub(crate) fn write_datas<S: Sink>(
    segments: &[DataSegment],
    signatures: &[SubType],
    sink: &mut S,
) -> fmt::Result
    requires open { S.failed sink.old ≡ false }
    ensures fault { S.failed sink.new ≡ is_err result }
    ensures keeps { OnOk result (Keeps S.has sink.old sink.new) }
{
    for (index, segment) in segments.iter().enumerate() {
        let details = DataDetails {
            segment,
            signatures,
        };
        write_field("data", index, &details, sink)?;
    }
    Ok(())
}
