ghost use Rattle.std.specs.Prelude.{◌↔◌, IsTrue};
ghost use Rattle.smith_types.specs.EntitySpaces.{spaces_in};
ghost use Rattle.smith_config.specs.ShapeFaults.{AreIndicesSound};
ghost use Rattle.smith_config.specs.Decided.{AreIndicesFound};

use smith_types::{EntitySpaces, ExportKind, Name, TypeSpace};
use smith_validity::{are_exports_standing, are_funcs_valid, are_tags_valid};

/// Returns whether the functions and tags of `spaces`, and `exports`, refer to existing items of
/// the right kind.
pub(crate) fn are_indices_sound(
    space: &TypeSpace,
    spaces: &EntitySpaces,
    exports: &[(Name, ExportKind, u32)],
) -> bool
    ensures { IsTrue result ↔ AreIndicesSound space.now (spaces_in spaces.now) exports.now }
{
    are_indices_found(space, spaces, exports)
}

fn are_indices_found(
    space: &TypeSpace,
    spaces: &EntitySpaces,
    exports: &[(Name, ExportKind, u32)],
) -> bool
    ensures { IsTrue result ↔ AreIndicesFound space.now (spaces_in spaces.now) exports.now }
{
    are_funcs_valid(space.types(), spaces.funcs.as_slice())
        && are_tags_valid(space.types(), spaces.tags.as_slice())
        && are_exports_standing(spaces, exports)
}
