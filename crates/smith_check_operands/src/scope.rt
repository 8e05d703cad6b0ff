use smith_types::{GlobalType, MemoryType, RefType, TableType, TypeSpace, ValType, WasmFeatures};

/// The context of a body without its labels: the standard's section Validation, Contexts. Imported
/// items come first.
#[derive(Clone, Copy)]
pub struct Scope<'a> {
    /// The features that are on.
    pub features: WasmFeatures,
    /// The types.
    pub types: &'a TypeSpace,
    /// The index of the type of each function.
    pub funcs: &'a [u32],
    /// The number of imported functions.
    pub imported_funcs: usize,
    /// The type of each table.
    pub tables: &'a [TableType],
    /// The type of each memory.
    pub memories: &'a [MemoryType],
    /// The type of each global.
    pub globals: &'a [GlobalType],
    /// The index of the type of each tag.
    pub tags: &'a [u32],
    /// The type of each element segment.
    pub elems: &'a [RefType],
    /// The number of data segments.
    pub datas: usize,
    /// The functions that `ref.func` may name.
    pub references: &'a [u32],
    /// The types of the locals, parameters first.
    pub locals: &'a [ValType],
    /// The number of parameters.
    pub params: usize,
    /// The types of the results.
    pub results: &'a [ValType],
}
