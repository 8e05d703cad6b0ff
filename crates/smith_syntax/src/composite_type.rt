ghost use Rattle.std.specs.Prelude.{◌≡◌};
ghost use Rattle.smith_syntax.specs.Kinds.{kind_of, bottom_of};

use crate::list::Items;
use crate::value_type::{AbstractHeapType, ValType};

/// The type that a field stores: a packed integer or a value type. See the standard, section
/// Structure, Composite Types.
#[derive(Clone, Copy, Debug, PartialEq)]
pub enum StorageType {
    /// A packed integer of 8 bits.
    I8,
    /// A packed integer of 16 bits.
    I16,
    /// A value of a value type.
    Val(ValType),
}

/// A field of a struct, or the element of an array. See the standard, section Structure, Composite
/// Types.
#[derive(Clone, Copy, Debug, PartialEq)]
pub struct FieldType {
    /// The type that the field stores.
    pub element_type: StorageType,
    /// Whether the field is mutable.
    pub mutable: bool,
}

/// An array type, given by its element. See the standard, section Structure, Composite Types.
#[derive(Clone, Copy, Debug, PartialEq)]
pub struct ArrayType(pub FieldType);

/// A struct type. See the standard, section Structure, Composite Types.
#[derive(Debug, Drop, PartialEq)]
pub struct StructType {
    /// The fields, in index order.
    pub fields: Items<FieldType>,
}

/// A function type. See the standard, section Structure, Composite Types.
#[derive(Debug, Drop, PartialEq)]
pub struct FuncType {
    /// The types of the parameters, in order.
    pub params: Items<ValType>,
    /// The types of the results, in order.
    pub results: Items<ValType>,
}

/// A composite type without its sharedness. See the standard, section Structure, Composite Types.
#[derive(Debug, Drop, PartialEq)]
pub enum CompositeInnerType {
    /// An array type.
    Array(ArrayType),
    /// A function type.
    Func(FuncType),
    /// A struct type.
    Struct(StructType),
}

impl CompositeInnerType {
    /// Returns the abstract heap type that is a supertype of every composite type of this kind
    /// (Validation, Matching, Heap Types). Both are shared or neither is, by a rule of this
    /// project.
    pub fn kind(&self) -> AbstractHeapType
        ensures { result ≡ kind_of self.now }
    {
        match self {
            CompositeInnerType::Array(_) => AbstractHeapType::Array,
            CompositeInnerType::Func(_) => AbstractHeapType::Func,
            CompositeInnerType::Struct(_) => AbstractHeapType::Struct,
        }
    }

    /// Returns the abstract heap type that is a subtype of every composite type of this kind
    /// (Validation, Matching, Heap Types). Both are shared or neither is, by a rule of this
    /// project.
    pub fn bottom(&self) -> AbstractHeapType
        ensures { result ≡ bottom_of self.now }
    {
        match self {
            CompositeInnerType::Func(_) => AbstractHeapType::NoFunc,
            _ => AbstractHeapType::None,
        }
    }
}

/// A composite type. See the standard, section Structure, Composite Types, and for sharedness the
/// shared-everything-threads proposal.
#[derive(Debug, Drop, PartialEq)]
pub struct CompositeType {
    /// The array, function or struct type.
    pub inner: CompositeInnerType,
    /// Whether values of the type may be shared between threads.
    pub shared: bool,
}

/// A type of a recursive group. See the standard, section Structure, Recursive Types.
#[derive(Debug, Drop, PartialEq)]
pub struct SubType {
    /// Whether the type can have no subtypes.
    pub is_final: bool,
    /// The index of the declared supertype, or `None` if the type declares none.
    pub supertype: Option<u32>,
    /// The structure of the type.
    pub composite_type: CompositeType,
}
