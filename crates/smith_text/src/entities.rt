ghost use Rattle.std.specs.Prelude.{◌≡◌, false, is_err, OnOk};
ghost use Rattle.smith_text.specs.Written.{Keeps};

use crate::sink::Sink;
use crate::text_form::TextForm;
use crate::types::TypeUse;
use smith_types::{EntityType, ExportKind, GlobalType, MemoryType, SubType, TableType};
use std::fmt;

// Returns the address type of 64 bits, with a space after it, or nothing for the address type of 32
// bits, which is left out.
fn address_type(is_wide: bool) -> &'static str {
    if is_wide { "i64 " } else { "" }
}

/// The sections Text Format, Table Types and Limits; shared tables as the shared-everything-threads
/// proposal writes them.
impl TextForm for TableType {
    fn write_text<S: Sink>(&self, sink: &mut S) -> fmt::Result {
        let shared = if self.shared { "shared " } else { "" };
        let limits = (self.minimum, self.maximum.as_slice());
        let address = address_type(self.table64);
        ((shared, address), limits, (" ", &self.element_type)).write_text(sink)
    }
}

// Writes the size of a page in bytes, by its binary logarithm: the form of the custom page sizes
// proposal. No valid type has a page of 2^64 bytes or more; such a size is written as a power.
fn write_page_size<S: Sink>(log2: u32, sink: &mut S) -> fmt::Result
    requires open { S.failed sink.old ≡ false }
    ensures fault { S.failed sink.new ≡ is_err result }
    ensures keeps { OnOk result (Keeps S.has sink.old sink.new) }
{
    match 1u64.checked_shl(log2) {
        Some(bytes) => (" (pagesize ", bytes, ")").write_text(sink),
        None => (" (pagesize 2^", log2, ")").write_text(sink),
    }
}

/// The sections Text Format, Memory Types and Limits; shared memories as the threads proposal, page
/// sizes as the custom page sizes proposal writes them.
impl TextForm for MemoryType {
    fn write_text<S: Sink>(&self, sink: &mut S) -> fmt::Result {
        let limits = (self.minimum, self.maximum.as_slice());
        let shared = if self.shared { " shared" } else { "" };
        (address_type(self.memory64), limits, shared).write_text(sink)?;
        match self.page_size_log2 {
            Some(log2) => write_page_size(log2, sink),
            None => Ok(()),
        }
    }
}

/// The section Text Format, Global Types; shared globals as the shared-everything-threads proposal
/// writes them.
impl TextForm for GlobalType {
    fn write_text<S: Sink>(&self, sink: &mut S) -> fmt::Result {
        let keywords = match (self.shared, self.mutable) {
            (false, false) => return self.val_type.write_text(sink),
            (false, true) => "(mut ",
            (true, false) => "(shared ",
            (true, true) => "(shared mut ",
        };
        (keywords, &self.val_type, ")").write_text(sink)
    }
}

fn keyword_of(entity: &EntityType) -> &'static str {
    match entity {
        EntityType::Global(_) => "global",
        EntityType::Table(_) => "table",
        EntityType::Memory(_) => "memory",
        EntityType::Tag(_) => "tag",
        EntityType::Func(_) => "func",
    }
}

// The text after the keyword of an external type, with the parameters and the results of a function
// type that is one of `signatures`.
#[derive(Drop)]
struct Details<'a> {
    entity: &'a EntityType,
    signatures: &'a [SubType],
}

impl TextForm for Details<'_> {
    fn write_text<S: Sink>(&self, sink: &mut S) -> fmt::Result {
        match self.entity {
            EntityType::Global(global) => global.write_text(sink),
            EntityType::Table(table) => table.write_text(sink),
            EntityType::Memory(memory) => memory.write_text(sink),
            EntityType::Tag(index) | EntityType::Func(index) => TypeUse {
                index: *index,
                signatures: self.signatures,
            }
            .write_text(sink),
        }
    }
}

/// The section Text Format, External Types.
impl TextForm for EntityType {
    fn write_text<S: Sink>(&self, sink: &mut S) -> fmt::Result {
        let opening = ("(", keyword_of(self), " ");
        let details = Details {
            entity: self,
            signatures: &[],
        };
        (opening, details, ")").write_text(sink)
    }
}

/// The type of an import, with the index that the import has, and with the parameters and the
/// results of a function type that is one of `signatures`.
#[derive(Drop)]
pub(crate) struct Indexed<'a> {
    pub(crate) entity: &'a EntityType,
    pub(crate) index: u32,
    pub(crate) signatures: &'a [SubType],
}

/// The section Text Format, Imports.
impl TextForm for Indexed<'_> {
    fn write_text<S: Sink>(&self, sink: &mut S) -> fmt::Result {
        let opening = ("(", keyword_of(self.entity), (" (;", self.index, ";) "));
        let details = Details {
            entity: self.entity,
            signatures: self.signatures,
        };
        (opening, details, ")").write_text(sink)
    }
}

/// The keyword of the section Text Format, Exports.
impl TextForm for ExportKind {
    fn write_text<S: Sink>(&self, sink: &mut S) -> fmt::Result {
        sink.write_str(match self {
            ExportKind::Func => "func",
            ExportKind::Table => "table",
            ExportKind::Memory => "memory",
            ExportKind::Global => "global",
            ExportKind::Tag => "tag",
        })
    }
}
