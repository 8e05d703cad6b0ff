use smith_types::{GlobalType, TypeSpace, WasmFeatures};

/// The context of a constant expression: the standard's section Validation, Contexts. Types are
/// given by canonical indices. Imported functions and globals come first.
#[derive(Clone, Copy)]
pub struct Scope<'a> {
    /// The features that are on.
    pub features: WasmFeatures,
    /// The canonical index of each type.
    pub indices: &'a [u32],
    /// The types.
    pub types: &'a TypeSpace,
    /// The index of the type of each function.
    pub funcs: &'a [u32],
    /// The type of each global.
    pub globals: &'a [GlobalType],
    /// The number of imported functions.
    pub imported_funcs: usize,
    /// The number of imported globals.
    pub imported_globals: usize,
    /// The index below which globals may be read.
    pub visible: usize,
}
