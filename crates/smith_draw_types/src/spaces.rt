ghost use Rattle.std.specs.Prelude.{◌≡◌, []};
ghost use Rattle.smith_types.specs.Types.{IsOrderly};

use smith_types::{GlobalType, MemoryType, TableType, TypeSpace};

/// The index spaces defined so far, except that of types. Imported entities come first in each.
#[derive(Clone, Copy, Debug)]
pub struct Entities<'a> {
    /// The type index of each tag.
    pub tags: &'a [u32],
    /// The type index of each function.
    pub funcs: &'a [u32],
    /// The type of each table.
    pub tables: &'a [TableType],
    /// The type of each memory.
    pub memories: &'a [MemoryType],
    /// The type of each global.
    pub globals: &'a [GlobalType],
    /// The number of imported functions.
    pub imported_funcs: usize,
    /// The number of imported globals.
    pub imported_globals: usize,
}

impl<'a> Entities<'a> {
    /// Returns empty index spaces.
    pub fn none() -> Entities<'a>
        // The index spaces.
        ensures tags { result.tags.now ≡ [] }
        ensures funcs { result.funcs.now ≡ [] }
        ensures tables { result.tables.now ≡ [] }
        ensures memories { result.memories.now ≡ [] }
        ensures globals { result.globals.now ≡ [] }

        // The numbers of imports.
        ensures imported_funcs { result.imported_funcs ≡ 0 }
        ensures imported_globals { result.imported_globals ≡ 0 }
    {
        Entities {
            tags: &[],
            funcs: &[],
            tables: &[],
            memories: &[],
            globals: &[],
            imported_funcs: 0,
            imported_globals: 0,
        }
    }
}

/// The types and entities that a drawn type or expression may refer to.
#[derive(Clone, Copy, Debug)]
pub struct Spaces<'a> {
    /// The types defined so far.
    pub types: &'a TypeSpace,
    /// The entities, over the types of `types`.
    pub entities: Entities<'a>,
}

/// Proves that the types of `spaces` are orderly, as those of every type space are.
pub(crate) fn orderly(spaces: &Spaces<'_>)
    ensures { IsOrderly spaces.now.types.now.types }
{
    let _types = spaces.types.types();
}
