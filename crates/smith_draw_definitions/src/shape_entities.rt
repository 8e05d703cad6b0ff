ghost use Rattle.std.specs.Prelude.{◌≡◌, ◌++◌, ◌<◌, length, Some, slice_get};
ghost use Rattle.smith_types.specs.Exports.{IsEntityAt};
ghost use Rattle.smith_types.specs.Imports.{imported_spaces};
ghost use Rattle.smith_types.specs.EntitySpaces.{spaces_in};
ghost use Rattle.smith_config.specs.Shapes.{shape_imports, shape_spaces};
ghost use Rattle.smith_module_rules.specs.ExportedItems.{IsStanding};
ghost use Rattle.smith_draw_definitions.specs.RequiredExports.{entity_of};

use smith_config::Shape;
use smith_types::{EntitySpaces, EntityType, ExportKind};

/// Finds the item at `index` of an index space of the items `imported`, then the items `defined`.
fn item_after<T: Copy>(imported: &[T], defined: &[T], index: usize) -> T
    requires { index < length (imported.now ++ defined.now) }
    ensures { slice_get (imported.now ++ defined.now) index ≡ Some result }
{
    if index < imported.len() {
        return imported[index];
    }
    defined[index - imported.len()]
}

/// Finds the entity of the kind `kind` at `index` in the index spaces of `shape`, which begin with
/// `imported`.
pub(crate) fn entity_of_shape(
    shape: &Shape,
    imported: &EntitySpaces,
    kind: ExportKind,
    index: u32,
) -> EntityType
    requires imported { spaces_in imported.now ≡ imported_spaces (shape_imports shape.now) }
    requires stands { IsStanding (shape_spaces shape.now) kind index }
    ensures { entity_of (shape_spaces shape.now) kind index ≡ Some result }
{
    let index = index as usize;
    match kind {
        ExportKind::Func => EntityType::Func(item_after(
            imported.funcs.as_slice(),
            shape.funcs.as_slice(),
            index,
        )),
        ExportKind::Table => EntityType::Table(item_after(
            imported.tables.as_slice(),
            shape.tables.as_slice(),
            index,
        )),
        ExportKind::Memory => EntityType::Memory(item_after(
            imported.memories.as_slice(),
            shape.memories.as_slice(),
            index,
        )),
        ExportKind::Global => EntityType::Global(item_after(
            imported.globals.as_slice(),
            shape.globals.as_slice(),
            index,
        )),
        ExportKind::Tag => EntityType::Tag(item_after(
            imported.tags.as_slice(),
            shape.tags.as_slice(),
            index,
        )),
    }
}
