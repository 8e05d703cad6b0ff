use crate::value_type::{RefType, ValType};

/// A table type, with limits in elements. See the standard, section Structure, Table Types.
#[derive(Clone, Copy, Debug, PartialEq)]
pub struct TableType {
    /// The type of each element.
    pub element_type: RefType,
    /// The minimum number of elements.
    pub minimum: u64,
    /// The maximum number of elements, or `None` if the type states no maximum.
    pub maximum: Option<u64>,
    /// Whether indices are 64 bits wide.
    pub table64: bool,
    /// Whether the table may be shared between threads.
    pub shared: bool,
}

/// A memory type, with limits in pages. See the standard, section Structure, Memory Types.
#[derive(Clone, Copy, Debug, PartialEq)]
pub struct MemoryType {
    /// The minimum number of pages.
    pub minimum: u64,
    /// The maximum number of pages, or `None` if the type states no maximum.
    pub maximum: Option<u64>,
    /// Whether addresses are 64 bits wide.
    pub memory64: bool,
    /// Whether the memory may be shared between threads.
    pub shared: bool,
    /// The binary logarithm of the page size in bytes, or `None` for the default page size of 64
    /// KiB.
    pub page_size_log2: Option<u32>,
}

/// A global type. See the standard, section Structure, Global Types.
#[derive(Clone, Copy, Debug, PartialEq)]
pub struct GlobalType {
    /// The type of the value.
    pub val_type: ValType,
    /// Whether the global is mutable.
    pub mutable: bool,
    /// Whether the global may be shared between threads.
    pub shared: bool,
}

/// The type of an imported or exported entity. See the standard, section Structure, External Types.
#[derive(Clone, Copy, Debug, PartialEq)]
pub enum EntityType {
    /// A global with its type.
    Global(GlobalType),
    /// A table with its type.
    Table(TableType),
    /// A memory with its type.
    Memory(MemoryType),
    /// A tag, given by the index of its function type.
    Tag(u32),
    /// A function, given by the index of its function type.
    Func(u32),
}

/// The kind of an exported entity: the index space that an export refers to. See the standard,
/// section Structure, Exports.
#[derive(Clone, Copy, Debug, PartialEq)]
pub enum ExportKind {
    /// The index space of functions.
    Func,
    /// The index space of tables.
    Table,
    /// The index space of memories.
    Memory,
    /// The index space of globals.
    Global,
    /// The index space of tags.
    Tag,
}
