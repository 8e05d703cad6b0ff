ghost use Rattle.std.specs.Prelude.{◌≡◌, ◌≤◌, false, is_err, length, IfOk, IfErr, OnOk};
ghost use Rattle.std.specs.String.{string_bytes};
ghost use Rattle.smith_text.specs.Written.{Keeps, Writes};

use crate::comments::NameComment;
use crate::expressions::Expression;
use crate::functions::write_functions;
use crate::imported::Imported;
use crate::names::Names;
use crate::segments::{write_datas, write_elements};
use crate::types::{Types, write_types};
use smith_binary_read::{Export, TagDefinition};
use smith_bytes::Error;
use smith_decode::{GlobalDefinition, Module, TableDefinition};
use smith_instr::{Instr, ReferenceInstr};
use smith_text::{
    FromFmt, Sink, TextForm, TypeUse, write_export, write_field, write_imports, write_start,
};
use smith_types::{Items, MemoryType, SubType};
use std::alloc::Global;
use std::ops::Range;
use std::{fmt, mem};

/// A decoded module with its names. Its types are in one list, so that an index gives its type.
#[derive(Drop)]
pub struct File {
    types: Vec<SubType>,
    // The supertypes of each type after its first.
    further: Vec<Items<u32>>,
    groups: Vec<Range<usize>>,
    names: Names,
    // The module without its types.
    module: Module,
}

impl File {
    /// Takes `module` for its text. Allocates from `alloc`.
    ///
    /// # Errors
    ///
    /// Returns `Memory` if an allocation fails.
    pub fn new(alloc: Global, mut module: Module) -> Result<File, Error>
        ensures memory { IfErr result (λ e. e ≡ Error.Memory) }
    {
        let names = Names::of(alloc, module.customs.as_slice())?;
        let nested = mem::replace(&mut module.types, Items::new(alloc));
        let (types, groups) = flatten(alloc, nested)?;
        let nested = mem::replace(&mut module.further_supertypes, Items::new(alloc));
        let (further, _) = flatten(alloc, nested)?;
        Ok(File {
            types,
            further,
            groups,
            names,
            module,
        })
    }
}

// Returns the items of groups in one list, and the places of each group in it.
fn flatten<T: Drop>(
    alloc: Global,
    nested: Items<Items<T>>,
) -> Result<(Vec<T>, Vec<Range<usize>>), Error>
    ensures memory { IfErr result (λ e. e ≡ Error.Memory) }
{
    let mut items = Vec::new(alloc);
    let mut groups = Vec::new(alloc);
    for group in nested.into_vec() {
        let start = items.len();
        for item in group.into_vec() {
            items.push(item)?;
        }
        groups.push(start..items.len())?;
    }
    Ok((items, groups))
}

// Returns the initialiser of `table`, unless the text leaves it out.
fn initialiser<'a>(
    table: &'a TableDefinition,
    signatures: &'a [SubType],
) -> Option<Expression<'a>> {
    let instructions = table.initial.as_slice();
    if let [Instr::Reference(ReferenceInstr::Null(heap_type))] = instructions
        && *heap_type == table.ty.element_type.heap_type
    {
        return None;
    }
    Some(Expression {
        instructions,
        signatures,
    })
}

// Writes the tables that a module defines. The first has the index `start`. The section Text
// Format, Tables.
fn write_tables<S: Sink>(
    tables: &[TableDefinition],
    start: usize,
    signatures: &[SubType],
    sink: &mut S,
) -> fmt::Result
    requires open { S.failed sink.old ≡ false }
    ensures fault { S.failed sink.new ≡ is_err result }
    ensures keeps { OnOk result (Keeps S.has sink.old sink.new) }
{
    for (place, table) in tables.iter().enumerate() {
        let details = (&table.ty, initialiser(table, signatures));
        write_field("table", start.saturating_add(place), &details, sink)?;
    }
    Ok(())
}

// Writes the memories that a module defines. The section Text Format, Memories.
fn write_memories<S: Sink>(memories: &[MemoryType], start: usize, sink: &mut S) -> fmt::Result
    requires open { S.failed sink.old ≡ false }
    ensures fault { S.failed sink.new ≡ is_err result }
    ensures keeps { OnOk result (Keeps S.has sink.old sink.new) }
{
    for (place, memory) in memories.iter().enumerate() {
        write_field("memory", start.saturating_add(place), memory, sink)?;
    }
    Ok(())
}

// Writes the tags that a module defines. The section Text Format, Tags.
fn write_tags<S: Sink>(
    tags: &[TagDefinition],
    start: usize,
    signatures: &[SubType],
    sink: &mut S,
) -> fmt::Result
    requires open { S.failed sink.old ≡ false }
    ensures fault { S.failed sink.new ≡ is_err result }
    ensures keeps { OnOk result (Keeps S.has sink.old sink.new) }
{
    for (place, tag) in tags.iter().enumerate() {
        let index = tag.0;
        let ty = TypeUse { index, signatures };
        write_field("tag", start.saturating_add(place), &ty, sink)?;
    }
    Ok(())
}

// Writes the globals that a module defines. The section Text Format, Globals.
fn write_globals<S: Sink>(
    globals: &[GlobalDefinition],
    start: usize,
    signatures: &[SubType],
    sink: &mut S,
) -> fmt::Result
    requires open { S.failed sink.old ≡ false }
    ensures fault { S.failed sink.new ≡ is_err result }
    ensures keeps { OnOk result (Keeps S.has sink.old sink.new) }
{
    for (place, global) in globals.iter().enumerate() {
        let instructions = global.initial.as_slice();
        let initial = Expression {
            instructions,
            signatures,
        };
        let details = (&global.ty, initial);
        write_field("global", start.saturating_add(place), &details, sink)?;
    }
    Ok(())
}

// Writes the exports of a module. The section Text Format, Exports.
fn write_exports<S: Sink>(exports: &[Export], sink: &mut S) -> fmt::Result
    requires open { S.failed sink.old ≡ false }
    ensures fault { S.failed sink.new ≡ is_err result }
    ensures keeps { OnOk result (Keeps S.has sink.old sink.new) }
{
    for export in exports {
        write_export(&export.name, export.kind, export.index, sink)?;
    }
    Ok(())
}

// Writes the entities that a module defines, functions aside.
fn write_definitions<S: Sink>(
    module: &Module,
    signatures: &[SubType],
    imported: Imported,
    sink: &mut S,
) -> fmt::Result
    requires open { S.failed sink.old ≡ false }
    ensures fault { S.failed sink.new ≡ is_err result }
    ensures keeps { OnOk result (Keeps S.has sink.old sink.new) }
{
    let (tables, memories) = (module.tables.as_slice(), module.memories.as_slice());
    write_tables(tables, imported.tables, signatures, sink)?;
    write_memories(memories, imported.memories, sink)?;
    let (tags, globals) = (module.tags.as_slice(), module.globals.as_slice());
    write_tags(tags, imported.tags, signatures, sink)?;
    write_globals(globals, imported.globals, signatures, sink)
}

// Writes what follows the definitions of a module.
fn write_contents<S: Sink>(
    file: &File,
    signatures: &[SubType],
    imported: Imported,
    sink: &mut S,
) -> fmt::Result
    requires open { S.failed sink.old ≡ false }
    ensures fault { S.failed sink.new ≡ is_err result }
    ensures keeps { OnOk result (Keeps S.has sink.old sink.new) }
{
    let module = &file.module;
    write_exports(module.exports.as_slice(), sink)?;
    write_start(module.start, sink)?;
    write_elements(module.elements.as_slice(), signatures, sink)?;
    let (types, bodies) = (module.functions.as_slice(), module.bodies.as_slice());
    write_functions(types, bodies, imported.funcs, &file.names, signatures, sink)?;
    write_datas(module.datas.as_slice(), signatures, sink)
}

// Writes the name of a module as a comment, if it has one.
fn write_module_name<S: Sink>(names: &Names, sink: &mut S) -> fmt::Result
    requires open { S.failed sink.old ≡ false }
    ensures fault { S.failed sink.new ≡ is_err result }
    ensures keeps { OnOk result (Keeps S.has sink.old sink.new) }
{
    match &names.module {
        Some(name) => NameComment(name).write_text(sink),
        None => Ok(()),
    }
}

/// Writes `file` to `sink`, one field per line, in the order of the sections of the binary format, with
/// functions in the place of their bodies: function types by their indices, with their parameters and
/// their results. The names of the module, of the functions that it defines and of their locals are comments;
/// other custom sections are left out. Requires that no write to `sink` has failed.
///
/// # Errors
///
/// Returns the error of the first write that fails. Nothing is written after it.
pub fn write_file<S: Sink>(file: &File, sink: &mut S) -> fmt::Result
    requires open { S.failed sink.old ≡ false }
    ensures fault { S.failed sink.new ≡ is_err result }
    ensures writes { OnOk result (Writes S.has sink.old 1 sink.new) }
{
    let types = file.types.as_slice();
    let declared = Types {
        types,
        further: file.further.as_slice(),
        groups: file.groups.as_slice(),
    };
    let imports = file.module.imports.as_slice();
    let imported = Imported::of(imports);
    sink.write_str("(module\n")?;
    write_module_name(&file.names, sink)?;
    write_types(declared, sink)?;
    write_imports(imports, types, sink)?;
    write_definitions(&file.module, types, imported, sink)?;
    write_contents(file, types, imported, sink)?;
    sink.write_str(")\n")
}

/// Returns the text of `module`, as [`write_file`] writes it, allocated from `alloc`.
///
/// # Errors
///
/// Returns `Memory` if an allocation fails.
pub fn text(alloc: Global, module: Module) -> Result<String, Error>
    ensures memory { IfErr result (λ e. e ≡ Error.Memory) }
    ensures some { IfOk result (λ text. 1 ≤ length (string_bytes text)) }
{
    let file = File::new(alloc, module)?;
    let mut sink = FromFmt::new(String::new(alloc));
    match write_file(&file, &mut sink) {
        Ok(()) => Ok(sink.into_string()),
        Err(fmt::Error) => Err(Error::Memory),
    }
}
