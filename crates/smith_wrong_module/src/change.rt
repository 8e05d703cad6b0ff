ghost use Rattle.std.specs.Prelude.{◌≡◌, IfErr, IfOk};
ghost use Rattle.smith_wrong_module.specs.Changes.{IsDrawn};

use crate::edit::Edit;
use crate::entities::{
    change_function, change_global, change_import, change_memory, change_start, change_table,
    change_tag, edit_exports, edit_group,
};
use crate::expressions::{Site, change_locals, edit_expression};
use crate::segments::{
    change_data_mode, change_element_function, change_element_table, change_element_type,
};
use smith_binary_read::Export;
use smith_bytes::Error;
use smith_decode::{DataMode, LocalRun, Module, Place};
use smith_instr::Instr;
use smith_types::{EntityType, GlobalType, MemoryType, RefType, SubType, TableType};
use std::alloc::Global;

/// A change of a module in one place, by the indices of items in its lists.
#[derive(Drop)]
pub(crate) enum Change {
    /// A change of an instruction of an expression.
    Instruction {
        site: Site,
        index: usize,
        edit: Edit<Instr>,
    },
    /// A change of a type of a group.
    Type {
        group: usize,
        index: usize,
        edit: Edit<SubType>,
    },
    /// Another type of a single import, of the first one of a group, or of all of it that have one.
    Import {
        index: usize,
        ty: EntityType,
    },
    /// Another type of a function.
    Function {
        index: usize,
        ty: u32,
    },
    /// Another type of a table.
    Table {
        index: usize,
        ty: TableType,
    },
    /// Another type of a memory.
    Memory {
        index: usize,
        ty: MemoryType,
    },
    /// Another type of a tag.
    Tag {
        index: usize,
        ty: u32,
    },
    /// Another type of a global.
    Global {
        index: usize,
        ty: GlobalType,
    },
    /// A change of an export.
    Export {
        index: usize,
        edit: Edit<Export>,
    },
    /// Another start function.
    Start(u32),
    /// Another type of an element segment.
    ElementType {
        index: usize,
        ty: RefType,
    },
    /// Another table of an active element segment.
    ElementTable {
        index: usize,
        table: u32,
    },
    /// Another function of an element segment.
    ElementFunction {
        index: usize,
        item: usize,
        function: u32,
    },
    /// Another mode of a data segment.
    DataMode {
        index: usize,
        mode: DataMode,
    },
    /// Another run of locals of a body.
    Locals {
        body: usize,
        run: usize,
        locals: LocalRun,
    },
}

/// Makes `change`, and returns its place, or `None` if `module` has no such place and is what it was. If an
/// allocation fails, parts of the module may be missing.
pub(crate) fn make_change(
    alloc: Global,
    module: &mut Module,
    change: Change,
) -> Result<Option<Place>, Error>
    ensures ok { IfOk result (λ found. IsDrawn found «module».old «module».new) }
    ensures memory { IfErr result (λ e. e ≡ Error.Memory) }
{
    match change {
        Change::Instruction { site, index, edit } => {
            edit_expression(alloc, module, site, index, edit)
        }
        Change::Type { group, index, edit } => edit_group(alloc, module, group, index, edit),
        Change::Import { index, ty } => change_import(alloc, module, index, ty),
        Change::Function { index, ty } => change_function(alloc, module, index, ty),
        Change::Table { index, ty } => change_table(alloc, module, index, ty),
        Change::Memory { index, ty } => change_memory(alloc, module, index, ty),
        Change::Tag { index, ty } => change_tag(alloc, module, index, ty),
        Change::Global { index, ty } => change_global(alloc, module, index, ty),
        Change::Export { index, edit } => edit_exports(alloc, module, index, edit),
        Change::Start(function) => Ok(Some(change_start(module, function))),
        Change::ElementType { index, ty } => change_element_type(alloc, module, index, ty),
        Change::ElementTable { index, table } => change_element_table(alloc, module, index, table),
        Change::ElementFunction {
            index,
            item,
            function,
        } => change_element_function(alloc, module, index, item, function),
        Change::DataMode { index, mode } => change_data_mode(alloc, module, index, mode),
        Change::Locals { body, run, locals } => change_locals(alloc, module, body, run, locals),
    }
}
