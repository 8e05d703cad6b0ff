ghost use Rattle.std.specs.Prelude.{◌≡◌, ◌≤◌, take, length};

use smith_draw_types::{Entities, Spaces};
use smith_types::{GlobalType, TypeSpace};

/// Returns the types, functions and globals that an initialiser may refer to.
pub(crate) fn reference_scope<'a>(
    types: &'a TypeSpace,
    funcs: &'a [u32],
    imported_funcs: usize,
    globals: &'a [GlobalType],
    imported_globals: usize,
) -> Spaces<'a>
    ensures types { result.types.now ≡ types.now }
    ensures funcs { result.entities.funcs.now ≡ funcs.now }
    ensures imported_funcs { result.entities.imported_funcs ≡ imported_funcs }
    ensures globals { result.entities.globals.now ≡ globals.now }
    ensures imported_globals { result.entities.imported_globals ≡ imported_globals }
{
    Spaces {
        types,
        entities: Entities {
            tags: &[],
            funcs,
            tables: &[],
            memories: &[],
            globals,
            imported_funcs,
            imported_globals,
        },
    }
}

/// Returns the types, functions and globals that the initialiser of a table may refer to, with only
/// the first `imported_globals` globals.
pub(crate) fn reference_scope_of_imports<'a>(
    types: &'a TypeSpace,
    funcs: &'a [u32],
    imported_funcs: usize,
    globals: &'a [GlobalType],
    imported_globals: usize,
) -> Spaces<'a>
    requires { imported_globals ≤ length globals.now }
    ensures types { result.types.now ≡ types.now }
    ensures funcs { result.entities.funcs.now ≡ funcs.now }
    ensures imported_funcs { result.entities.imported_funcs ≡ imported_funcs }
    ensures globals { result.entities.globals.now ≡ take imported_globals globals.now }
    ensures imported_globals { result.entities.imported_globals
        ≡ length result.entities.globals.now }
{
    let imported = &globals[..imported_globals];
    reference_scope(types, funcs, imported_funcs, imported, imported.len())
}
