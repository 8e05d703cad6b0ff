ghost use Rattle.std.specs.Prelude.{◌≡◌, ◌++◌, OnOk, IfOk, IfErr};
ghost use Rattle.smith_types.specs.EntitySpaces.{spaces_in};
ghost use Rattle.smith_config.specs.Shapes.{shape_spaces};

use crate::Shape;
use smith_bytes::Error;
use smith_types::{EntitySpaces, imported_spaces_of};
use std::alloc::Global;

/// Creates the index spaces of `shape`: imported items first, then defined ones.
pub(crate) fn entity_spaces_of(alloc: Global, shape: &Shape) -> Result<EntitySpaces, Error>
    ensures ok { IfOk result (λ spaces. spaces_in spaces ≡ shape_spaces shape.now) }
    ensures memory { IfErr result (λ e. e ≡ Error.Memory) }
{
    let mut spaces = imported_spaces_of(alloc, shape.imports.as_slice())?;
    append_definitions(shape, &mut spaces).and(Ok(spaces))
}

// Appends the definitions of `shape` to the imported items in `spaces`.
fn append_definitions(shape: &Shape, spaces: &mut EntitySpaces) -> Result<(), Error>
    ensures ok { OnOk result (spaces_in spaces.new ≡ record {
      tags = (spaces_in spaces.old).tags ++ shape.now.tags;
      funcs = (spaces_in spaces.old).funcs ++ shape.now.funcs;
      tables = (spaces_in spaces.old).tables ++ shape.now.tables;
      memories = (spaces_in spaces.old).memories ++ shape.now.memories;
      globals = (spaces_in spaces.old).globals ++ shape.now.globals;
    }) }
    ensures memory { IfErr result (λ e. e ≡ Error.Memory) }
{
    spaces.tags.extend_from_slice(shape.tags.as_slice())?;
    spaces.funcs.extend_from_slice(shape.funcs.as_slice())?;
    spaces.tables.extend_from_slice(shape.tables.as_slice())?;
    spaces
        .memories
        .extend_from_slice(shape.memories.as_slice())?;
    spaces.globals.extend_from_slice(shape.globals.as_slice())
}
