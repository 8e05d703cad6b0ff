ghost use Rattle.std.specs.Prelude.{◌≡◌, ◌≤◌, false, is_err, length, IfOk, IfErr, OnOk};
ghost use Rattle.std.specs.String.{string_bytes};
ghost use Rattle.smith_text.specs.Written.{Keeps, Writes};

use crate::fields::{write_export, write_field, write_start};
use crate::functions::{BodyText, OwnBodies, write_functions};
use crate::imports::write_imports;
use crate::notes::{write_notes, write_raw_bodies};
use crate::segments::{write_data_segments, write_element_segments};
use crate::sink::{FromFmt, Sink};
use crate::text_form::TextForm;
use crate::types::{TypeUse, write_types};
use smith_bytes::Error;
use smith_types::{
    ConstInstr, ExportKind, GlobalType, Items, MemoryType, Name, SubType, TableType,
};
use std::alloc::Global;
use std::fmt;
use wasm_smith::Module;

/// The form of the text of a module.
#[derive(Clone, Copy, Debug, PartialEq, Eq)]
pub enum Layout {
    /// Function types by their indices alone. After the module, comments state values that the text
    /// format cannot express.
    Notes,
    /// Function types by their indices, with their parameters and their results. After the module,
    /// comments have raw bodies alone.
    Signatures,
}

impl Layout {
    /// Returns the types of `module` whose parameters and results are written where they are used.
    pub fn signatures<'a>(self, module: &'a Module) -> &'a [SubType] {
        match self {
            Layout::Notes => &[],
            Layout::Signatures => module.types(),
        }
    }
}

// Returns the number of items that a module imports, and the last `defined` items of `all`, which
// it defines.
fn split_defined<T>(all: &[T], defined: usize) -> (usize, &[T]) {
    let imported = all.len().saturating_sub(defined);
    (imported, all.get(imported..).unwrap_or(&[]))
}

// Writes the tables that a module defines, which are the last of `tables`, with their initialisers.
// The section Text Format, Tables. A table without an initialiser has null references.
fn write_tables<S: Sink>(
    tables: &[TableType],
    initialisers: &[Option<Items<ConstInstr>>],
    sink: &mut S,
) -> fmt::Result
    requires open { S.failed sink.old ≡ false }
    ensures fault { S.failed sink.new ≡ is_err result }
    ensures keeps { OnOk result (Keeps S.has sink.old sink.new) }
{
    let (imported, defined) = split_defined(tables, initialisers.len());
    for (place, table) in defined.iter().enumerate() {
        let details = (table, initialisers.get(place));
        write_field("table", imported.saturating_add(place), &details, sink)?;
    }
    Ok(())
}

// Writes the last `defined` memories of `memories`, which a module defines. The section Text
// Format, Memories.
fn write_memories<S: Sink>(memories: &[MemoryType], defined: usize, sink: &mut S) -> fmt::Result
    requires open { S.failed sink.old ≡ false }
    ensures fault { S.failed sink.new ≡ is_err result }
    ensures keeps { OnOk result (Keeps S.has sink.old sink.new) }
{
    let (imported, defined) = split_defined(memories, defined);
    for (place, memory) in defined.iter().enumerate() {
        write_field("memory", imported.saturating_add(place), memory, sink)?;
    }
    Ok(())
}

// Writes the last `defined` tags of `tags`, which a module defines, with the parameters of the
// types among `signatures`. The section Text Format, Tags.
fn write_tags<S: Sink>(
    tags: &[u32],
    defined: usize,
    signatures: &[SubType],
    sink: &mut S,
) -> fmt::Result
    requires open { S.failed sink.old ≡ false }
    ensures fault { S.failed sink.new ≡ is_err result }
    ensures keeps { OnOk result (Keeps S.has sink.old sink.new) }
{
    let (imported, defined) = split_defined(tags, defined);
    for (place, index) in defined.iter().enumerate() {
        let index = *index;
        let ty = TypeUse { index, signatures };
        write_field("tag", imported.saturating_add(place), &ty, sink)?;
    }
    Ok(())
}

// Writes the globals of `globals` that a module defines, with their indices and initialisers. The
// section Text Format, Globals.
fn write_globals<S: Sink>(
    globals: &[GlobalType],
    initialisers: &[(u32, Items<ConstInstr>)],
    sink: &mut S,
) -> fmt::Result
    requires open { S.failed sink.old ≡ false }
    ensures fault { S.failed sink.new ≡ is_err result }
    ensures keeps { OnOk result (Keeps S.has sink.old sink.new) }
{
    for (index, initialiser) in initialisers {
        let place = *index as usize;
        let details = (globals.get(place), initialiser);
        write_field("global", place, &details, sink)?;
    }
    Ok(())
}

// Writes the exports and the start function of a module. The sections Text Format, Exports and
// Start Function.
fn write_exports<S: Sink>(
    exports: &[(Name, ExportKind, u32)],
    start: Option<u32>,
    sink: &mut S,
) -> fmt::Result
    requires open { S.failed sink.old ≡ false }
    ensures fault { S.failed sink.new ≡ is_err result }
    ensures keeps { OnOk result (Keeps S.has sink.old sink.new) }
{
    for (name, kind, index) in exports {
        write_export(name, *kind, *index, sink)?;
    }
    write_start(start, sink)
}

/// Writes what follows a module: all notes, or only its raw bodies.
fn write_end<S: Sink>(module: &Module, layout: Layout, sink: &mut S) -> fmt::Result
    requires open { S.failed sink.old ≡ false }
    ensures fault { S.failed sink.new ≡ is_err result }
    ensures keeps { OnOk result (Keeps S.has sink.old sink.new) }
{
    match layout {
        Layout::Notes => write_notes(module, sink),
        Layout::Signatures => write_raw_bodies(module, sink),
    }
}

/// Writes `module` to `sink` in the form `layout`. `bodies` writes the instructions of its bodies.
/// Requires that no write to `sink` has failed.
///
/// # Errors
///
/// Returns the error of the first write that fails. Nothing is written after it.
pub fn write_with_bodies<B: BodyText, S: Sink>(
    module: &Module,
    bodies: &B,
    layout: Layout,
    sink: &mut S,
) -> fmt::Result
    requires open { S.failed sink.old ≡ false }
    ensures fault { S.failed sink.new ≡ is_err result }
    ensures writes { OnOk result (Writes S.has sink.old 1 sink.new) }
{
    let signatures = layout.signatures(module);
    sink.write_str("(module\n")?;
    write_types(module.types(), module.rec_groups(), sink)?;
    write_imports(module.imports(), signatures, sink)?;
    write_tables(module.tables(), module.defined_tables(), sink)?;
    write_memories(module.memories(), module.num_defined_memories(), sink)?;
    write_tags(module.tags(), module.num_defined_tags(), signatures, sink)?;
    write_globals(module.globals(), module.defined_globals(), sink)?;
    write_exports(module.exports(), module.start(), sink)?;
    write_element_segments(module.elems(), sink)?;
    write_functions(module, signatures, bodies, sink)?;
    write_data_segments(module.data(), sink)?;
    sink.write_str(")\n")?;
    write_end(module, layout, sink)
}

/// The section Text Format, Modules: one field per line, in the order of the sections of the binary
/// format, with functions in the place of their bodies, in the form [`Layout::Notes`].
impl TextForm for Module {
    fn write_text<S: Sink>(&self, sink: &mut S) -> fmt::Result {
        write_with_bodies(self, &OwnBodies, Layout::Notes, sink)
    }
}

/// Returns the text of `module`, as [`write_with_bodies`] writes it, allocated from `alloc`.
///
/// # Errors
///
/// Returns `Memory` if an allocation fails.
pub fn text_with_bodies<B: BodyText>(
    alloc: Global,
    module: &Module,
    bodies: &B,
    layout: Layout,
) -> Result<String, Error>
    ensures memory { IfErr result (λ e. e ≡ Error.Memory) }
    ensures some { IfOk result (λ text. 1 ≤ length (string_bytes text)) }
{
    let mut sink = FromFmt::new(String::new(alloc));
    match write_with_bodies(module, bodies, layout, &mut sink) {
        Ok(()) => Ok(sink.into_string()),
        Err(fmt::Error) => Err(Error::Memory),
    }
}

/// Returns the text of `module`, as [`TextForm::write_text`] writes it, allocated from `alloc`.
///
/// # Errors
///
/// Returns `Memory` if an allocation fails.
pub fn text(alloc: Global, module: &Module) -> Result<String, Error>
    ensures memory { IfErr result (λ e. e ≡ Error.Memory) }
    ensures some { IfOk result (λ text. 1 ≤ length (string_bytes text)) }
{
    text_with_bodies(alloc, module, &OwnBodies, Layout::Notes)
}
