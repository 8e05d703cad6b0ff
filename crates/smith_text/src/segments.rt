ghost use Rattle.std.specs.Prelude.{◌≡◌, false, is_err, OnOk};
ghost use Rattle.smith_text.specs.Written.{Keeps};

use crate::fields::write_field;
use crate::sink::Sink;
use crate::strings::write_string;
use crate::text_form::{Listed, Repeated, TextForm};
use smith_types::{
    AbstractHeapType, DataSegment, DataSegmentKind, ElementKind, ElementSegment, Elements,
    HeapType, Offset, RefType,
};
use std::fmt;

const FUNCREF: RefType = RefType {
    nullable: true,
    heap_type: HeapType::Abstract {
        shared: false,
        ty: AbstractHeapType::Func,
    },
};

/// The expression of one instruction: the sections Text Format, Element Segments and Data Segments,
/// with their abbreviation of an offset.
impl TextForm for Offset {
    fn write_text<S: Sink>(&self, sink: &mut S) -> fmt::Result {
        match self {
            Offset::Const32(value) => ("(i32.const ", value, ")").write_text(sink),
            Offset::Const64(value) => ("(i64.const ", value, ")").write_text(sink),
            Offset::Global(index) => ("(global.get ", index, ")").write_text(sink),
        }
    }
}

/// The mode of an element segment: the section Text Format, Element Segments. A passive segment has
/// no text for it, and a mode that has one ends with a space.
impl TextForm for ElementKind {
    fn write_text<S: Sink>(&self, sink: &mut S) -> fmt::Result {
        match self {
            ElementKind::Passive => Ok(()),
            ElementKind::Declared => sink.write_str("declare "),
            ElementKind::Active { table, offset } => {
                (Listed("(table", table.as_slice(), ") "), offset, " ").write_text(sink)
            }
        }
    }
}

// Writes functions by their indices. The standard has this form only for the type `funcref`; a
// comment states any other type.
fn write_functions<S: Sink>(ty: &RefType, functions: &[u32], sink: &mut S) -> fmt::Result
    requires open { S.failed sink.old ≡ false }
    ensures fault { S.failed sink.new ≡ is_err result }
    ensures keeps { OnOk result (Keeps S.has sink.old sink.new) }
{
    if *ty == FUNCREF {
        return ("func", functions).write_text(sink);
    }
    (("func (;", ty, ";)"), functions).write_text(sink)
}

// The text after the index of an element segment.
#[derive(Drop)]
struct ElementDetails<'a>(&'a ElementSegment);

impl TextForm for ElementDetails<'_> {
    fn write_text<S: Sink>(&self, sink: &mut S) -> fmt::Result {
        let segment = self.0;
        segment.kind.write_text(sink)?;
        match &segment.items {
            Elements::Functions(functions) => {
                write_functions(&segment.ty, functions.as_slice(), sink)
            }
            Elements::Expressions(expressions) => {
                (&segment.ty, Repeated(" (item", expressions.as_slice(), ")")).write_text(sink)
            }
        }
    }
}

/// The section Text Format, Element Segments.
impl TextForm for ElementSegment {
    fn write_text<S: Sink>(&self, sink: &mut S) -> fmt::Result {
        ("(elem ", ElementDetails(self), ")").write_text(sink)
    }
}

/// The mode of a data segment: the section Text Format, Data Segments. A passive segment has no
/// text for it, and another mode ends with a space. The first memory is left out.
impl TextForm for DataSegmentKind {
    fn write_text<S: Sink>(&self, sink: &mut S) -> fmt::Result {
        let DataSegmentKind::Active {
            memory_index,
            offset,
        } = self
        else {
            return Ok(());
        };
        if *memory_index == 0 {
            return (offset, " ").write_text(sink);
        }
        (("(memory ", memory_index, ") "), offset, " ").write_text(sink)
    }
}

// The text after the index of a data segment.
#[derive(Drop)]
struct DataDetails<'a>(&'a DataSegment);

impl TextForm for DataDetails<'_> {
    fn write_text<S: Sink>(&self, sink: &mut S) -> fmt::Result {
        self.0.kind.write_text(sink)?;
        write_string(self.0.init.as_slice(), sink)
    }
}

/// The section Text Format, Data Segments.
impl TextForm for DataSegment {
    fn write_text<S: Sink>(&self, sink: &mut S) -> fmt::Result {
        ("(data ", DataDetails(self), ")").write_text(sink)
    }
}

/// Writes the element segments of a module.
pub(crate) fn write_element_segments<S: Sink>(
    segments: &[ElementSegment],
    sink: &mut S,
) -> fmt::Result
    requires open { S.failed sink.old ≡ false }
    ensures fault { S.failed sink.new ≡ is_err result }
    ensures keeps { OnOk result (Keeps S.has sink.old sink.new) }
{
    for (index, segment) in segments.iter().enumerate() {
        write_field("elem", index, &ElementDetails(segment), sink)?;
    }
    Ok(())
}

/// Writes the data segments of a module.
pub(crate) fn write_data_segments<S: Sink>(segments: &[DataSegment], sink: &mut S) -> fmt::Result
    requires open { S.failed sink.old ≡ false }
    ensures fault { S.failed sink.new ≡ is_err result }
    ensures keeps { OnOk result (Keeps S.has sink.old sink.new) }
{
    for (index, segment) in segments.iter().enumerate() {
        write_field("data", index, &DataDetails(segment), sink)?;
    }
    Ok(())
}
