ghost use Rattle.std.specs.Prelude.{◌≡◌, IfErr, IfOk};
ghost use Rattle.smith_wrong_module.specs.Changes.{IsDrawn};

use crate::edit::{Edit, edit_items, put_back, take_out};
use smith_binary_read::{Export, TagDefinition};
use smith_bytes::Error;
use smith_decode::{Module, Place};
use smith_types::{
    EntityType, GlobalType, ImportItem, Imports, Items, MemoryType, SubType, TableType,
};
use std::alloc::Global;

/// Makes `edit` at `index` of the types of the group at `group`, and returns its place, if there is one.
pub(crate) fn edit_group(
    alloc: Global,
    module: &mut Module,
    group: usize,
    index: usize,
    edit: Edit<SubType>,
) -> Result<Option<Place>, Error>
    ensures ok { IfOk result (λ found. IsDrawn found «module».old «module».new) }
    ensures memory { IfErr result (λ e. e ≡ Error.Memory) }
{
    if group >= module.types.len() {
        return Ok(None);
    }
    let mut changed = take_out(alloc, &mut module.types, group);
    let done = edit_items(alloc, &mut changed, index, edit)?;
    put_back(alloc, &mut module.types, group, changed)?;
    if !done {
        return Ok(None);
    }
    Ok(Some(Place::Types(group)))
}

// Gives the first of `items` the type `ty`.
fn change_first(alloc: Global, items: &mut Items<ImportItem>, ty: EntityType) -> Result<(), Error>
    ensures memory { IfErr result (λ e. e ≡ Error.Memory) }
{
    if items.is_empty() {
        return Ok(());
    }
    let mut item = take_out(alloc, items, 0);
    item.entity_type = ty;
    put_back(alloc, items, 0, item)
}

// Gives the single import or the first import that `group` is the type `ty`, or all of it that have one.
fn change_group(alloc: Global, group: &mut Imports, ty: EntityType) -> Result<(), Error>
    ensures memory { IfErr result (λ e. e ≡ Error.Memory) }
{
    match group {
        Imports::Single(import) => {
            import.entity_type = ty;
            Ok(())
        }
        Imports::Compact1 { items, .. } => change_first(alloc, items, ty),
        Imports::Compact2 { entity_type, .. } => {
            *entity_type = ty;
            Ok(())
        }
    }
}

/// Gives the group of imports at `index` the type `ty`: its import, the first one, or all of it that have
/// one.
pub(crate) fn change_import(
    alloc: Global,
    module: &mut Module,
    index: usize,
    ty: EntityType,
) -> Result<Option<Place>, Error>
    ensures ok { IfOk result (λ found. IsDrawn found «module».old «module».new) }
    ensures memory { IfErr result (λ e. e ≡ Error.Memory) }
{
    if index >= module.imports.len() {
        return Ok(None);
    }
    let mut changed = take_out(alloc, &mut module.imports, index);
    change_group(alloc, &mut changed, ty)?;
    put_back(alloc, &mut module.imports, index, changed)?;
    Ok(Some(Place::Imports(index)))
}

/// Gives the function at `index` the type `ty`.
pub(crate) fn change_function(
    alloc: Global,
    module: &mut Module,
    index: usize,
    ty: u32,
) -> Result<Option<Place>, Error>
    ensures ok { IfOk result (λ found. IsDrawn found «module».old «module».new) }
    ensures memory { IfErr result (λ e. e ≡ Error.Memory) }
{
    if !edit_items(alloc, &mut module.functions, index, Edit::Replace(ty))? {
        return Ok(None);
    }
    Ok(Some(Place::Function(index)))
}

/// Gives the table at `index` the type `ty`.
pub(crate) fn change_table(
    alloc: Global,
    module: &mut Module,
    index: usize,
    ty: TableType,
) -> Result<Option<Place>, Error>
    ensures ok { IfOk result (λ found. IsDrawn found «module».old «module».new) }
    ensures memory { IfErr result (λ e. e ≡ Error.Memory) }
{
    if index >= module.tables.len() {
        return Ok(None);
    }
    let mut changed = take_out(alloc, &mut module.tables, index);
    changed.ty = ty;
    put_back(alloc, &mut module.tables, index, changed)?;
    Ok(Some(Place::Table(index)))
}

/// Gives the memory at `index` the type `ty`.
pub(crate) fn change_memory(
    alloc: Global,
    module: &mut Module,
    index: usize,
    ty: MemoryType,
) -> Result<Option<Place>, Error>
    ensures ok { IfOk result (λ found. IsDrawn found «module».old «module».new) }
    ensures memory { IfErr result (λ e. e ≡ Error.Memory) }
{
    if !edit_items(alloc, &mut module.memories, index, Edit::Replace(ty))? {
        return Ok(None);
    }
    Ok(Some(Place::Memory(index)))
}

/// Gives the tag at `index` the type `ty`.
pub(crate) fn change_tag(
    alloc: Global,
    module: &mut Module,
    index: usize,
    ty: u32,
) -> Result<Option<Place>, Error>
    ensures ok { IfOk result (λ found. IsDrawn found «module».old «module».new) }
    ensures memory { IfErr result (λ e. e ≡ Error.Memory) }
{
    if !edit_items(
        alloc,
        &mut module.tags,
        index,
        Edit::Replace(TagDefinition(ty)),
    )? {
        return Ok(None);
    }
    Ok(Some(Place::Tag(index)))
}

/// Gives the global at `index` the type `ty`.
pub(crate) fn change_global(
    alloc: Global,
    module: &mut Module,
    index: usize,
    ty: GlobalType,
) -> Result<Option<Place>, Error>
    ensures ok { IfOk result (λ found. IsDrawn found «module».old «module».new) }
    ensures memory { IfErr result (λ e. e ≡ Error.Memory) }
{
    if index >= module.globals.len() {
        return Ok(None);
    }
    let mut changed = take_out(alloc, &mut module.globals, index);
    changed.ty = ty;
    put_back(alloc, &mut module.globals, index, changed)?;
    Ok(Some(Place::Global(index)))
}

/// Makes `edit` at `index` of the exports, and returns its place, if there is one.
pub(crate) fn edit_exports(
    alloc: Global,
    module: &mut Module,
    index: usize,
    edit: Edit<Export>,
) -> Result<Option<Place>, Error>
    ensures ok { IfOk result (λ found. IsDrawn found «module».old «module».new) }
    ensures memory { IfErr result (λ e. e ≡ Error.Memory) }
{
    if !edit_items(alloc, &mut module.exports, index, edit)? {
        return Ok(None);
    }
    Ok(Some(Place::Export(index)))
}

/// Makes `function` the start function.
pub(crate) fn change_start(module: &mut Module, function: u32) -> Place
    ensures { IsDrawn (Some result) «module».old «module».new }
{
    module.start = Some(function);
    Place::Start
}
