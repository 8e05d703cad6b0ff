use crate::entity_type::EntityType;
use crate::list::{Items, Name};

/// An import. See the standard, section Structure, Imports.
#[derive(Debug, Drop, PartialEq)]
pub struct Import {
    /// The name of the module to import from.
    pub module: Name,
    /// The name of the import in that module.
    pub name: Name,
    /// The type of the imported entity.
    pub entity_type: EntityType,
}

/// An import of a compact group, without the module name that the group has.
#[derive(Debug, Drop, PartialEq)]
pub struct ImportItem {
    /// The name of the import in the module of the group.
    pub name: Name,
    /// The type of the imported entity.
    pub entity_type: EntityType,
}

/// A group of imports of the compact imports proposal.
#[derive(Debug, Drop, PartialEq)]
pub enum Imports {
    /// A single import.
    Single(Import),
    /// The imports `items` from the module `module`.
    Compact1 {
        module: Name,
        items: Items<ImportItem>,
    },
    /// The imports `names` from the module `module`, all of type `entity_type`.
    Compact2 {
        module: Name,
        entity_type: EntityType,
        names: Items<Name>,
    },
}
