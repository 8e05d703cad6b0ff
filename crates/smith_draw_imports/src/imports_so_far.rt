ghost use Rattle.std.specs.Prelude.{◌≡◌, ◌<◌, ◌+◌, ◌^◌, IfErr, OnOk};
ghost use Rattle.smith_types.specs.Sizes.{IsTyped, size_in};
ghost use Rattle.smith_draw_imports.specs.Imported.{HasNoImports, AreImportsCounted};

use smith_bytes::Error;
use smith_types::{EntitySpaces, EntityType, Imports, Items, TypeSpace};
use std::alloc::Global;
use std::collections::HashSet;

/// The imports of a module so far, with their counts.
#[derive(Drop)]
pub struct Imported {
    /// The imports, in groups.
    pub groups: Items<Imports>,
    /// The index spaces of the imported items.
    pub spaces: EntitySpaces,
    /// The number of imports in all groups.
    pub count: usize,
    /// The amount that the imports add to the type size of the module.
    pub type_size: u32,
    /// The pairs of module name and name of the imports. Kept only if no two imports may have the
    /// same pair.
    pub pairs: HashSet<(String, String)>,
}

impl Imported {
    /// Creates an empty list of imports. Does not allocate.
    pub fn new(alloc: Global) -> Self
        ensures { HasNoImports result }
    {
        Imported {
            groups: Items::new(alloc),
            spaces: EntitySpaces::new(alloc),
            count: 0,
            type_size: 0,
            pairs: HashSet::new(alloc),
        }
    }

    /// Counts an import of the entity `added`. The caller adds its group and its pair of names.
    pub(crate) fn count_entity(&mut self, types: &TypeSpace, added: EntityType) -> Result<(), Error>
        requires typed { IsTyped types.now.types added }
        requires count { self.old.count + 1 < 2 ^ 64 }
        requires fits { self.old.type_size + (size_in types.now.types added + 1) < 2 ^ 32 }
        ensures counted { OnOk result (AreImportsCounted types.now.types added self.old self.new) }
        ensures memory { IfErr result (λ e. e ≡ Error.Memory) }
    {
        self.spaces.push(added)?;
        self.count += 1;
        self.type_size += types.size_of(&added) + 1;
        Ok(())
    }
}
