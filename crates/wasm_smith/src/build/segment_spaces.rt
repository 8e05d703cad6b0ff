ghost use Rattle.smith_types.specs.EntitySpaces.{spaces_in};
ghost use Rattle.wasm_smith.specs.Contents.{AreSpacesOver};

use smith_draw_types::{Entities, Spaces};
use smith_types::{EntitySpaces, TypeSpace};

/// Returns the types and entities that a segment may refer to: all of `types` and of `spaces`.
pub(crate) fn segment_spaces<'a>(
    types: &'a TypeSpace,
    spaces: &'a EntitySpaces,
    imported_funcs: usize,
    imported_globals: usize,
) -> Spaces<'a>
    ensures { AreSpacesOver types.now
        (spaces_in spaces.now) imported_funcs imported_globals result }
{
    Spaces {
        types,
        entities: Entities {
            tags: spaces.tags.as_slice(),
            funcs: spaces.funcs.as_slice(),
            tables: spaces.tables.as_slice(),
            memories: spaces.memories.as_slice(),
            globals: spaces.globals.as_slice(),
            imported_funcs,
            imported_globals,
        },
    }
}
