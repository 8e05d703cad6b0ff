ghost use Rattle.std.specs.Prelude.{◌≡◌, IfErr, IfOk};
ghost use Rattle.smith_wrong_module.specs.Changes.{IsDrawn};

use crate::edit::{Edit, edit_items, put_back, take_out};
use smith_bytes::Error;
use smith_decode::{DataMode, ElementItems, ElementMode, Module, Place};
use smith_types::RefType;
use std::alloc::Global;

/// Gives the element segment at `index` the type `ty`.
pub(crate) fn change_element_type(
    alloc: Global,
    module: &mut Module,
    index: usize,
    ty: RefType,
) -> Result<Option<Place>, Error>
    ensures ok { IfOk result (λ found. IsDrawn found «module».old «module».new) }
    ensures memory { IfErr result (λ e. e ≡ Error.Memory) }
{
    if index >= module.elements.len() {
        return Ok(None);
    }
    let mut changed = take_out(alloc, &mut module.elements, index);
    changed.ty = ty;
    put_back(alloc, &mut module.elements, index, changed)?;
    Ok(Some(Place::Element(index)))
}

/// Copies the element segment at `index`, if it is active, into `table`.
pub(crate) fn change_element_table(
    alloc: Global,
    module: &mut Module,
    index: usize,
    table: u32,
) -> Result<Option<Place>, Error>
    ensures ok { IfOk result (λ found. IsDrawn found «module».old «module».new) }
    ensures memory { IfErr result (λ e. e ≡ Error.Memory) }
{
    if index >= module.elements.len() {
        return Ok(None);
    }
    let mut changed = take_out(alloc, &mut module.elements, index);
    if let ElementMode::Active {
        table: old,
        offset: _,
    } = &mut changed.mode
    {
        *old = table;
    }
    put_back(alloc, &mut module.elements, index, changed)?;
    Ok(Some(Place::Element(index)))
}

/// Puts `function` in place of the function `item` of the element segment at `index`, if it has functions.
pub(crate) fn change_element_function(
    alloc: Global,
    module: &mut Module,
    index: usize,
    item: usize,
    function: u32,
) -> Result<Option<Place>, Error>
    ensures ok { IfOk result (λ found. IsDrawn found «module».old «module».new) }
    ensures memory { IfErr result (λ e. e ≡ Error.Memory) }
{
    if index >= module.elements.len() {
        return Ok(None);
    }
    let mut changed = take_out(alloc, &mut module.elements, index);
    if let ElementItems::Functions(functions) = &mut changed.items {
        let _done = edit_items(alloc, functions, item, Edit::Replace(function))?;
    }
    put_back(alloc, &mut module.elements, index, changed)?;
    Ok(Some(Place::Element(index)))
}

/// Gives the data segment at `index` the mode `mode`.
pub(crate) fn change_data_mode(
    alloc: Global,
    module: &mut Module,
    index: usize,
    mode: DataMode,
) -> Result<Option<Place>, Error>
    ensures ok { IfOk result (λ found. IsDrawn found «module».old «module».new) }
    ensures memory { IfErr result (λ e. e ≡ Error.Memory) }
{
    if index >= module.datas.len() {
        return Ok(None);
    }
    let mut changed = take_out(alloc, &mut module.datas, index);
    changed.mode = mode;
    put_back(alloc, &mut module.datas, index, changed)?;
    Ok(Some(Place::Data(index)))
}
