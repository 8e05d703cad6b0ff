use smith_types::{
    Exact, ExportKind, GlobalType, Imports, Items, MemoryType, Name, SubType, TableType,
};

/// Required parts of a module: types, imports, definitions and exports, without bodies.
///
/// The field of [`Config`](crate::Config) that holds the shape determines which of these parts a
/// module has. A definition matters only through the exports that refer to it: the module defines a
/// separate item for each export.
#[derive(Debug, Drop, PartialEq)]
pub struct Shape {
    /// The types, in their recursive groups.
    pub groups: Items<Items<SubType>>,
    /// The imports, in their groups.
    pub imports: Items<Imports>,
    /// The type index of each defined function.
    pub funcs: Items<u32>,
    /// The type index of each defined tag.
    pub tags: Items<u32>,
    /// The type of each defined table.
    pub tables: Items<TableType>,
    /// The type of each defined memory.
    pub memories: Items<MemoryType>,
    /// The type of each defined global.
    pub globals: Items<GlobalType>,
    /// The name, kind and index of each export. Indices count imported items first.
    pub exports: Items<(Name, ExportKind, u32)>,
}

impl Exact for Shape {
    ghost use Rattle.smith_config.specs.SameShape.{exact_shape};

    ghost exact = { exact_shape };
}
