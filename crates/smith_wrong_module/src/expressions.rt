ghost use Rattle.std.specs.Prelude.{◌≡◌, IfErr, IfOk};
ghost use Rattle.smith_wrong_module.specs.Changes.{IsDrawn};

use crate::edit::{Edit, edit_items, put_back, take_out};
use smith_bytes::Error;
use smith_decode::{DataMode, ElementItems, ElementMode, LocalRun, Module, Place};
use smith_instr::Instr;
use smith_types::Items;
use std::alloc::Global;

/// An expression of a module, by the indices of items in its lists.
#[derive(Clone, Copy)]
pub(crate) enum Site {
    /// The body of a function.
    Body(usize),
    /// The initialiser of a table.
    Table(usize),
    /// The initialiser of a global.
    Global(usize),
    /// The offset of an element segment.
    ElementOffset(usize),
    /// An item of an element segment.
    ElementItem { segment: usize, item: usize },
    /// The offset of a data segment.
    DataOffset(usize),
}

/// Makes `edit` at `index` of the expression at `site`, and returns its place, if there is one.
pub(crate) fn edit_expression(
    alloc: Global,
    module: &mut Module,
    site: Site,
    index: usize,
    edit: Edit<Instr>,
) -> Result<Option<Place>, Error>
    ensures ok { IfOk result (λ found. IsDrawn found «module».old «module».new) }
    ensures memory { IfErr result (λ e. e ≡ Error.Memory) }
{
    match site {
        Site::Body(body) => edit_body(alloc, module, body, index, edit),
        Site::Table(table) => edit_table(alloc, module, table, index, edit),
        Site::Global(global) => edit_global(alloc, module, global, index, edit),
        Site::ElementOffset(segment) => edit_element_offset(alloc, module, segment, index, edit),
        Site::ElementItem { segment, item } => {
            edit_element_item(alloc, module, segment, item, index, edit)
        }
        Site::DataOffset(segment) => edit_data_offset(alloc, module, segment, index, edit),
    }
}

fn edit_body(
    alloc: Global,
    module: &mut Module,
    body: usize,
    index: usize,
    edit: Edit<Instr>,
) -> Result<Option<Place>, Error>
    ensures ok { IfOk result (λ found. IsDrawn found «module».old «module».new) }
    ensures memory { IfErr result (λ e. e ≡ Error.Memory) }
{
    if body >= module.bodies.len() {
        return Ok(None);
    }
    let mut changed = take_out(alloc, &mut module.bodies, body);
    let done = edit_items(alloc, &mut changed.instructions, index, edit)?;
    put_back(alloc, &mut module.bodies, body, changed)?;
    if !done {
        return Ok(None);
    }
    Ok(Some(Place::Instruction { body, index }))
}

/// Puts `locals` in place of the run at `run` of the locals of the body at `body`, and returns its place, if
/// there is one.
pub(crate) fn change_locals(
    alloc: Global,
    module: &mut Module,
    body: usize,
    run: usize,
    locals: LocalRun,
) -> Result<Option<Place>, Error>
    ensures ok { IfOk result (λ found. IsDrawn found «module».old «module».new) }
    ensures memory { IfErr result (λ e. e ≡ Error.Memory) }
{
    if body >= module.bodies.len() {
        return Ok(None);
    }
    let mut changed = take_out(alloc, &mut module.bodies, body);
    let done = edit_items(alloc, &mut changed.locals, run, Edit::Replace(locals))?;
    put_back(alloc, &mut module.bodies, body, changed)?;
    if !done {
        return Ok(None);
    }
    Ok(Some(Place::Body(body)))
}

fn edit_global(
    alloc: Global,
    module: &mut Module,
    global: usize,
    index: usize,
    edit: Edit<Instr>,
) -> Result<Option<Place>, Error>
    ensures ok { IfOk result (λ found. IsDrawn found «module».old «module».new) }
    ensures memory { IfErr result (λ e. e ≡ Error.Memory) }
{
    if global >= module.globals.len() {
        return Ok(None);
    }
    let mut changed = take_out(alloc, &mut module.globals, global);
    let done = edit_items(alloc, &mut changed.initial, index, edit)?;
    put_back(alloc, &mut module.globals, global, changed)?;
    if !done {
        return Ok(None);
    }
    Ok(Some(Place::GlobalInitial(global)))
}

fn edit_table(
    alloc: Global,
    module: &mut Module,
    table: usize,
    index: usize,
    edit: Edit<Instr>,
) -> Result<Option<Place>, Error>
    ensures ok { IfOk result (λ found. IsDrawn found «module».old «module».new) }
    ensures memory { IfErr result (λ e. e ≡ Error.Memory) }
{
    if table >= module.tables.len() {
        return Ok(None);
    }
    let mut changed = take_out(alloc, &mut module.tables, table);
    let _done = edit_items(alloc, &mut changed.initial, index, edit)?;
    put_back(alloc, &mut module.tables, table, changed)?;
    Ok(Some(Place::Table(table)))
}

fn edit_element_offset(
    alloc: Global,
    module: &mut Module,
    segment: usize,
    index: usize,
    edit: Edit<Instr>,
) -> Result<Option<Place>, Error>
    ensures ok { IfOk result (λ found. IsDrawn found «module».old «module».new) }
    ensures memory { IfErr result (λ e. e ≡ Error.Memory) }
{
    if segment >= module.elements.len() {
        return Ok(None);
    }
    let mut changed = take_out(alloc, &mut module.elements, segment);
    if let ElementMode::Active { table: _, offset } = &mut changed.mode {
        let _done = edit_items(alloc, offset, index, edit)?;
    }
    put_back(alloc, &mut module.elements, segment, changed)?;
    Ok(Some(Place::Element(segment)))
}

// Makes `edit` at `index` of the expression at `item` of `items`, if there is one.
fn edit_item(
    alloc: Global,
    items: &mut Items<Items<Instr>>,
    item: usize,
    index: usize,
    edit: Edit<Instr>,
) -> Result<(), Error>
    ensures memory { IfErr result (λ e. e ≡ Error.Memory) }
{
    if item >= items.len() {
        return Ok(());
    }
    let mut changed = take_out(alloc, items, item);
    let _done = edit_items(alloc, &mut changed, index, edit)?;
    put_back(alloc, items, item, changed)
}

fn edit_element_item(
    alloc: Global,
    module: &mut Module,
    segment: usize,
    item: usize,
    index: usize,
    edit: Edit<Instr>,
) -> Result<Option<Place>, Error>
    ensures ok { IfOk result (λ found. IsDrawn found «module».old «module».new) }
    ensures memory { IfErr result (λ e. e ≡ Error.Memory) }
{
    if segment >= module.elements.len() {
        return Ok(None);
    }
    let mut changed = take_out(alloc, &mut module.elements, segment);
    if let ElementItems::Expressions(items) = &mut changed.items {
        edit_item(alloc, items, item, index, edit)?;
    }
    put_back(alloc, &mut module.elements, segment, changed)?;
    Ok(Some(Place::Element(segment)))
}

fn edit_data_offset(
    alloc: Global,
    module: &mut Module,
    segment: usize,
    index: usize,
    edit: Edit<Instr>,
) -> Result<Option<Place>, Error>
    ensures ok { IfOk result (λ found. IsDrawn found «module».old «module».new) }
    ensures memory { IfErr result (λ e. e ≡ Error.Memory) }
{
    if segment >= module.datas.len() {
        return Ok(None);
    }
    let mut changed = take_out(alloc, &mut module.datas, segment);
    if let DataMode::Active { memory: _, offset } = &mut changed.mode {
        let _done = edit_items(alloc, offset, index, edit)?;
    }
    put_back(alloc, &mut module.datas, segment, changed)?;
    Ok(Some(Place::Data(segment)))
}
