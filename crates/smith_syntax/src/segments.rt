use crate::const_instr::ConstInstr;
use crate::list::Items;
use crate::value_type::RefType;

/// A list of references that initialises tables. See the standard, section Structure, Element
/// Segments.
#[derive(Debug, Drop)]
pub struct ElementSegment {
    /// The mode of the segment.
    pub kind: ElementKind,
    /// The type of each item.
    pub ty: RefType,
    /// The references, in order.
    pub items: Elements,
}

/// The mode of an element segment: its effect at instantiation.
#[derive(Clone, Copy, Debug)]
pub enum ElementKind {
    /// Keeps the segment for instructions that refer to it.
    Passive,
    /// Declares the functions that occur in the items, and nothing else.
    Declared,
    /// Copies the items into the table `table`, or into the first table if `table` is `None`,
    /// starting at the element `offset`.
    Active { table: Option<u32>, offset: Offset },
}

/// The items of an element segment: function indices or constant expressions.
#[derive(Debug, Drop)]
pub enum Elements {
    /// References to functions, given by their indices.
    Functions(Items<u32>),
    /// Constant expressions whose values are references.
    Expressions(Items<Items<ConstInstr>>),
}

/// A list of bytes that initialises memories. See the standard, section Structure, Data Segments.
#[derive(Debug, Drop)]
pub struct DataSegment {
    /// The mode of the segment.
    pub kind: DataSegmentKind,
    /// The bytes.
    pub init: Items<u8>,
}

/// The mode of a data segment: its effect at instantiation.
#[derive(Clone, Copy, Debug)]
pub enum DataSegmentKind {
    /// Keeps the segment for instructions that refer to it.
    Passive,
    /// Copies the bytes into the memory `memory_index`, starting at the byte `offset`.
    Active { memory_index: u32, offset: Offset },
}

/// The offset of an active segment, in elements of a table or bytes of a memory. Constants are read
/// as unsigned.
#[derive(Clone, Copy, Debug)]
pub enum Offset {
    /// A 32-bit constant.
    Const32(i32),
    /// A 64-bit constant.
    Const64(i64),
    /// The value of a global, given by its index.
    Global(u32),
}
