/// An abstract heap type without its sharedness. See the standard, section Structure, Heap Types.
#[derive(Clone, Copy, Debug, PartialEq)]
pub enum AbstractHeapType {
    /// `func`, the common supertype of all function types.
    Func,
    /// `extern`, the type of external references.
    Extern,
    /// `any`, the supertype of `eq`.
    Any,
    /// `none`, the common subtype of `i31` and of all struct and array types.
    None,
    /// `noextern`, the subtype of `extern`.
    NoExtern,
    /// `nofunc`, the common subtype of all function types.
    NoFunc,
    /// `eq`, the common supertype of `i31`, `struct` and `array`.
    Eq,
    /// `struct`, the common supertype of all struct types.
    Struct,
    /// `array`, the common supertype of all array types.
    Array,
    /// `i31`, the type of unboxed 31-bit integers.
    I31,
    /// `exn`, the type of exceptions.
    Exn,
    /// `noexn`, the subtype of `exn`.
    NoExn,
}

/// The type of the object that a reference refers to. See the standard, section Structure, Heap
/// Types, for exact types the custom descriptors proposal, and for shared types the
/// shared-everything-threads proposal.
#[derive(Clone, Copy, Debug, PartialEq)]
pub enum HeapType {
    /// The abstract type `ty`, which may be shared between threads if `shared` is `true`.
    Abstract { shared: bool, ty: AbstractHeapType },
    /// The type with an index, or any of its subtypes.
    Concrete(u32),
    /// Exactly the type with an index.
    Exact(u32),
}

/// A reference type. See the standard, section Structure, Reference Types.
#[derive(Clone, Copy, Debug, PartialEq)]
pub struct RefType {
    /// Whether the reference may be null.
    pub nullable: bool,
    /// The heap type that the reference refers to.
    pub heap_type: HeapType,
}

/// A value type. See the standard, section Structure, Value Types.
#[derive(Clone, Copy, Debug, PartialEq)]
pub enum ValType {
    /// 32-bit integers.
    I32,
    /// 64-bit integers.
    I64,
    /// 32-bit floats.
    F32,
    /// 64-bit floats.
    F64,
    /// 128-bit vectors.
    V128,
    /// References, given by their type.
    Ref(RefType),
}
