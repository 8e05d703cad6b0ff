ghost use Rattle.std.specs.Prelude.{◌≡◌, ◌++◌, [], ◌∷◌, map, OnOk, IfOk, IfErr};
ghost use Rattle.std.specs.List.{flat_map};
ghost use Rattle.smith_types.specs.Imports.{flattened, imported_spaces};
ghost use Rattle.smith_syntax.specs.declared.imports.ImportItem.{ImportItem as Item};
ghost use Rattle.smith_types.specs.EntitySpaces.{spaces_in, with_entity, with_entities};
ghost use Rattle.smith_types.specs.EntitySpaces.{entities_of};

use smith_bytes::Error;
use smith_syntax::{
    EntityType, GlobalType, ImportItem, Imports, Items, MemoryType, Name, TableType,
};
use std::alloc::Global;

/// The index spaces of a module except the type space (Structure, Indices). A tag and a function
/// are given by their type index.
#[derive(Drop)]
pub struct EntitySpaces {
    /// The index of the type of each tag.
    pub tags: Items<u32>,
    /// The index of the type of each function.
    pub funcs: Items<u32>,
    /// The type of each table.
    pub tables: Items<TableType>,
    /// The type of each memory.
    pub memories: Items<MemoryType>,
    /// The type of each global.
    pub globals: Items<GlobalType>,
}

impl EntitySpaces {
    /// Creates empty index spaces. Allocates from `alloc` only once entities are added.
    pub fn new(alloc: Global) -> EntitySpaces
        ensures { spaces_in result
            ≡ record { tags = []; funcs = []; tables = []; memories = []; globals = [] } }
    {
        EntitySpaces {
            tags: Items::new(alloc),
            funcs: Items::new(alloc),
            tables: Items::new(alloc),
            memories: Items::new(alloc),
            globals: Items::new(alloc),
        }
    }

    /// Appends `entity` to the index space of its kind.
    pub fn push(&mut self, entity: EntityType) -> Result<(), Error>
        ensures ok { OnOk result (spaces_in self.new ≡ with_entity (spaces_in self.old) entity) }
        ensures memory { IfErr result (λ e. e ≡ Error.Memory) }
    {
        match entity {
            EntityType::Tag(index) => self.tags.push(index),
            EntityType::Func(index) => self.funcs.push(index),
            EntityType::Table(table) => self.tables.push(table),
            EntityType::Memory(memory) => self.memories.push(memory),
            EntityType::Global(global) => self.globals.push(global),
        }
    }
}

// Appends the entities of `group`, if any.
fn push_group(spaces: &mut EntitySpaces, group: &Imports) -> Result<(), Error>
    ensures ok { OnOk result
        (spaces_in spaces.new ≡ with_entities (spaces_in spaces.old) (entities_of group.now)) }
    ensures memory { IfErr result (λ e. e ≡ Error.Memory) }
{
    match group {
        Imports::Single(import) => spaces.push(import.entity_type),
        Imports::Compact1 { module: _, items } => push_items(spaces, items.as_slice()),
        Imports::Compact2 {
            module: _,
            entity_type,
            names,
        } => push_names(spaces, *entity_type, names.as_slice()),
    }
}

fn push_items(spaces: &mut EntitySpaces, items: &[ImportItem]) -> Result<(), Error>
    ensures ok { OnOk result (spaces_in spaces.new ≡ with_entities (spaces_in spaces.old)
        (map (λ (item : Item). item.entity_type) items.now)) }
    ensures memory { IfErr result (λ e. e ≡ Error.Memory) }
{
    for item in items {
        spaces.push(item.entity_type)?;
    }
    Ok(())
}

fn push_names(
    spaces: &mut EntitySpaces,
    entity_type: EntityType,
    names: &[Name],
) -> Result<(), Error>
    ensures ok { OnOk result (spaces_in spaces.new
        ≡ with_entities (spaces_in spaces.old) (map (λ name. entity_type) names.now)) }
    ensures memory { IfErr result (λ e. e ≡ Error.Memory) }
{
    for _name in names {
        spaces.push(entity_type)?;
    }
    Ok(())
}

/// Creates the index spaces of the given imports. Each import in turn is appended to the index
/// space of its kind (Validation, Modules).
#[tactic(auto, using(crate::proofs::ImportedSpaceLemmas::imported_is_grown))]
pub fn imported_spaces_of(alloc: Global, imports: &[Imports]) -> Result<EntitySpaces, Error>
    ensures ok { IfOk result (λ spaces.
        spaces_in spaces ≡ imported_spaces (flattened imports.now)) }
    ensures memory { IfErr result (λ e. e ≡ Error.Memory) }
{
    let mut spaces = EntitySpaces::new(alloc);
    push_groups(&mut spaces, imports)?;
    Ok(spaces)
}

fn push_groups(spaces: &mut EntitySpaces, imports: &[Imports]) -> Result<(), Error>
    ensures ok { OnOk result (spaces_in spaces.new
        ≡ with_entities (spaces_in spaces.old) (flat_map entities_of imports.now)) }
    ensures memory { IfErr result (λ e. e ≡ Error.Memory) }
{
    for group in imports {
        push_group(spaces, group)?;
    }
    Ok(())
}
