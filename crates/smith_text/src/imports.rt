ghost use Rattle.std.specs.Prelude.{◌≡◌, false, is_err, OnOk};
ghost use Rattle.smith_text.specs.Written.{Keeps};

use crate::entities::Indexed;
use crate::sink::Sink;
use crate::text_form::{Repeated, TextForm};
use smith_types::{EntityType, Import, ImportItem, Imports, Items, Name, SubType};
use std::fmt;

/// The number of imports of each kind so far, which is the index of the next one, and the types
/// that are written with their parameters and results.
#[derive(Drop)]
struct NextIndices<'a> {
    signatures: &'a [SubType],
    globals: u32,
    tables: u32,
    memories: u32,
    tags: u32,
    funcs: u32,
}

impl<'a> NextIndices<'a> {
    // Returns the indices of the first imports.
    fn new(signatures: &'a [SubType]) -> Self {
        NextIndices {
            signatures,
            globals: 0,
            tables: 0,
            memories: 0,
            tags: 0,
            funcs: 0,
        }
    }

    // Returns `entity` with the next index of its kind, and counts that index.
    fn take(&mut self, entity: &'a EntityType) -> Indexed<'a> {
        let next = match entity {
            EntityType::Global(_) => &mut self.globals,
            EntityType::Table(_) => &mut self.tables,
            EntityType::Memory(_) => &mut self.memories,
            EntityType::Tag(_) => &mut self.tags,
            EntityType::Func(_) => &mut self.funcs,
        };
        let index = *next;
        *next = index.saturating_add(1);
        Indexed {
            entity,
            index,
            signatures: self.signatures,
        }
    }
}

fn write_single<'a, S: Sink>(
    import: &'a Import,
    indices: &mut NextIndices<'a>,
    sink: &mut S,
) -> fmt::Result
    requires open { S.failed sink.old ≡ false }
    ensures fault { S.failed sink.new ≡ is_err result }
    ensures keeps { OnOk result (Keeps S.has sink.old sink.new) }
{
    let ty = indices.take(&import.entity_type);
    let opening = ("  (import ", &import.module, " ");
    (opening, &import.name, (" ", ty, ")\n")).write_text(sink)
}

// Writes a group whose imports have types of their own.
fn write_typed_group<'a, S: Sink>(
    module: &Name,
    items: &'a Items<ImportItem>,
    indices: &mut NextIndices<'a>,
    sink: &mut S,
) -> fmt::Result
    requires open { S.failed sink.old ≡ false }
    ensures fault { S.failed sink.new ≡ is_err result }
    ensures keeps { OnOk result (Keeps S.has sink.old sink.new) }
{
    ("  (import ", module, "\n").write_text(sink)?;
    for item in items {
        let ty = indices.take(&item.entity_type);
        ("    (item ", &item.name, (" ", ty, ")\n")).write_text(sink)?;
    }
    sink.write_str("  )\n")
}

// Writes a group whose imports have one type.
fn write_uniform_group<'a, S: Sink>(
    module: &Name,
    entity_type: &'a EntityType,
    names: &Items<Name>,
    indices: &mut NextIndices<'a>,
    sink: &mut S,
) -> fmt::Result
    requires open { S.failed sink.old ≡ false }
    ensures fault { S.failed sink.new ≡ is_err result }
    ensures keeps { OnOk result (Keeps S.has sink.old sink.new) }
{
    ("  (import ", module, "\n").write_text(sink)?;
    for name in names {
        let ty = indices.take(entity_type);
        ("    (item ", name, (" (;", ty.index, ";))\n")).write_text(sink)?;
    }
    ("    ", entity_type, "\n  )\n").write_text(sink)
}

fn write_group<'a, S: Sink>(
    group: &'a Imports,
    indices: &mut NextIndices<'a>,
    sink: &mut S,
) -> fmt::Result
    requires open { S.failed sink.old ≡ false }
    ensures fault { S.failed sink.new ≡ is_err result }
    ensures keeps { OnOk result (Keeps S.has sink.old sink.new) }
{
    match group {
        Imports::Single(import) => write_single(import, indices, sink),
        Imports::Compact1 { module, items } => write_typed_group(module, items, indices, sink),
        Imports::Compact2 {
            module,
            entity_type,
            names,
        } => write_uniform_group(module, entity_type, names, indices, sink),
    }
}

/// Writes the imports of a module, with the parameters and the results of the function types among
/// `signatures`. The section Text Format, Imports; groups as the compact imports proposal writes
/// them. Requires that no write to `sink` has failed.
///
/// # Errors
///
/// Returns the error of the first write that fails. Nothing is written after it.
pub fn write_imports<S: Sink>(
    imports: &[Imports],
    signatures: &[SubType],
    sink: &mut S,
) -> fmt::Result
    requires open { S.failed sink.old ≡ false }
    ensures fault { S.failed sink.new ≡ is_err result }
    ensures keeps { OnOk result (Keeps S.has sink.old sink.new) }
{
    let mut indices = NextIndices::new(signatures);
    for group in imports {
        write_group(group, &mut indices, sink)?;
    }
    Ok(())
}

/// An import without an index: the section Text Format, Imports.
impl TextForm for Import {
    fn write_text<S: Sink>(&self, sink: &mut S) -> fmt::Result {
        let ty = (" ", &self.entity_type, ")");
        (("(import ", &self.module, " "), &self.name, ty).write_text(sink)
    }
}

/// An import of a group, as the compact imports proposal writes it, without an index.
impl TextForm for ImportItem {
    fn write_text<S: Sink>(&self, sink: &mut S) -> fmt::Result {
        let ty = (" ", &self.entity_type, ")");
        ("(item ", &self.name, ty).write_text(sink)
    }
}

/// An import, or a group on one line, as the compact imports proposal writes it, without indices.
impl TextForm for Imports {
    fn write_text<S: Sink>(&self, sink: &mut S) -> fmt::Result {
        match self {
            Imports::Single(import) => import.write_text(sink),
            Imports::Compact1 { module, items } => {
                (("(import ", module), items, ")").write_text(sink)
            }
            Imports::Compact2 {
                module,
                entity_type,
                names,
            } => {
                let items = Repeated(" (item ", names.as_slice(), ")");
                (("(import ", module), items, (" ", entity_type, ")")).write_text(sink)
            }
        }
    }
}
