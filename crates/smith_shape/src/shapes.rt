ghost use Rattle.std.specs.Prelude.{◌≡◌, IfOk, IfErr};
ghost use Rattle.std.specs.List.{list_all};
ghost use Rattle.smith_shape.specs.ModuleShapes.{IsShapeBinary, IsUnshaped, is_single, shape_of};

use crate::definitions::{export_triples, global_types, table_types, tag_indices};
use crate::fault::ShapeFault;
use smith_bytes::Error;
use smith_config::Shape;
use smith_decode::{DecodeError, Module, decode};
use smith_types::{CloneIn, Items, WasmFeatures};
use std::alloc::Global;

/// Returns the shape of `module`, which is copied into memory from `alloc`. Whether the shape may be
/// used depends on the configuration: [`Shape::check`] decides it. Only the first supertype of a type is
/// part of the shape.
///
/// # Errors
///
/// Returns [`Error::Memory`] if an allocation fails.
pub fn shape_of(alloc: Global, module: &Module) -> Result<Shape, Error>
    ensures ok { IfOk result (λ shape. shape ≡ shape_of «module».now) }
    ensures memory { IfErr result (λ e. e ≡ Error.Memory) }
{
    Ok(Shape {
        groups: module.types.clone_in(alloc)?,
        imports: module.imports.clone_in(alloc)?,
        funcs: module.functions.copy_in(alloc)?,
        tags: tag_indices(alloc, module.tags.as_slice())?,
        tables: table_types(alloc, module.tables.as_slice())?,
        memories: module.memories.copy_in(alloc)?,
        globals: global_types(alloc, module.globals.as_slice())?,
        exports: export_triples(alloc, module.exports.as_slice())?,
    })
}

// Returns whether no type of a group has several supertypes, by those after the first.
fn is_single(group: &[Items<u32>]) -> bool
    ensures { result ≡ is_single group.now }
{
    for further in group {
        if !further.as_slice().is_empty() {
            return false;
        }
    }
    true
}

// Returns whether no type of `groups` has several supertypes.
fn are_single(groups: &[Items<Items<u32>>]) -> bool
    ensures { result ≡ list_all is_single groups.now }
{
    for group in groups {
        if !is_single(group.as_slice()) {
            return false;
        }
    }
    true
}

/// Returns the shape of the module that `bytes` spell, with every feature on. Bodies, initialisers,
/// segments and custom sections are read too, so that a fault in them is refused, but are no part
/// of the shape.
///
/// # Errors
///
/// Returns the error of [`decode`] for bytes that spell no module, with the place of the fault, and
/// [`DecodeError::Memory`] if an allocation fails. A shape has no place for several supertypes of a type,
/// and no valid module has such a type: returns [`ShapeFault::Supertypes`].
pub fn read_shape(alloc: Global, bytes: &[u8]) -> Result<Shape, ShapeFault>
    ensures ok { IfOk result (IsShapeBinary bytes.now) }
    ensures refused { IfErr result (IsUnshaped bytes.now) }
{
    let module = match decode(alloc, bytes, WasmFeatures::every()) {
        Ok(module) => module,
        Err(error) => return Err(ShapeFault::Binary(error)),
    };
    if !are_single(module.further_supertypes.as_slice()) {
        return Err(ShapeFault::Supertypes);
    }
    match shape_of(alloc, &module) {
        Ok(shape) => Ok(shape),
        Err(_) => Err(ShapeFault::Binary(DecodeError::Memory)),
    }
}
