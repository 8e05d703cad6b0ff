ghost use Rattle.std.specs.Prelude.{◌≡◌, ◌+◌, ◌<◌, ◌^◌};
ghost use Rattle.smith_types.specs.EntitySpaces.{spaces_in};
ghost use Rattle.smith_module_rules.specs.ExportedItems.{item_size};
ghost use Rattle.smith_draw_contents.specs.Exported.{MayExport};

use smith_types::{EntitySpaces, EntityType, ExportKind, Items, Name, TypeSpace};

/// The exports of a module, and its type size with them.
#[derive(Drop)]
pub struct Exports {
    /// The name of each export, and the kind and the index of its item.
    pub exports: Items<(Name, ExportKind, u32)>,
    /// The amount that imports and exports add to the type size of the module.
    pub type_size: u32,
}

/// Returns the size of the item of the kind `kind` at `index`: the size of its type for a function,
/// else 1.
pub(crate) fn item_size(
    types: &TypeSpace,
    spaces: &EntitySpaces,
    kind: ExportKind,
    index: u32,
) -> u32
    requires { MayExport types.now.types (spaces_in spaces.now) }
    ensures exact { result ≡ item_size types.now.types (spaces_in spaces.now) kind index }
    ensures few { result + 1 < 2 ^ 32 }
{
    let ExportKind::Func = kind else {
        return 1;
    };
    match spaces.funcs.as_slice().get(index as usize) {
        Some(func) => types.size_of(&EntityType::Func(*func)),
        None => 1,
    }
}
