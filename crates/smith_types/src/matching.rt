ghost use Rattle.std.specs.Prelude.{IsTrue, ◌↔◌, All};
ghost use Rattle.smith_types.specs.Subtyping.{IsValInRange};
ghost use Rattle.smith_types.specs.Matching.{
  IsStorageMatch,
  IsFieldMatch,
  AreFieldsMatched,
  AreBelow,
  IsFuncMatch,
  IsInnerMatch,
  IsCompositeMatch,
  IsStorageInRange,
  IsFieldInRange,
  IsFuncInRange,
  IsInnerInRange,
};

use crate::subtyping::val_type_is_below;
use crate::type_space::TypeSpace;
use smith_syntax::{CompositeInnerType, CompositeType, FieldType, FuncType, StorageType, ValType};

// Returns whether the composite type `a` matches `b`. Heap types are compared as in
// `TypeSpace::heap_type_is_sub_type`.
pub(crate) fn composite_type_is_match(
    space: &TypeSpace,
    a: &CompositeType,
    b: &CompositeType,
) -> bool
    requires lower { IsInnerInRange space.now.types a.now.inner }
    requires upper { IsInnerInRange space.now.types b.now.inner }
    ensures { IsTrue result ↔ IsCompositeMatch space.now.types a.now b.now }
{
    a.shared == b.shared && inner_type_is_match(space, &a.inner, &b.inner)
}

fn inner_type_is_match(space: &TypeSpace, a: &CompositeInnerType, b: &CompositeInnerType) -> bool
    requires lower { IsInnerInRange space.now.types a.now }
    requires upper { IsInnerInRange space.now.types b.now }
    ensures { IsTrue result ↔ IsInnerMatch space.now.types a.now b.now }
{
    match a {
        CompositeInnerType::Array(a) => match b {
            CompositeInnerType::Array(b) => field_is_match(space, a.0, b.0),
            _ => false,
        },
        CompositeInnerType::Func(a) => match b {
            CompositeInnerType::Func(b) => func_type_is_match(space, a, b),
            _ => false,
        },
        CompositeInnerType::Struct(a) => match b {
            CompositeInnerType::Struct(b) => fields_are_matched(
                space,
                a.fields.as_slice(),
                b.fields.as_slice(),
            ),
            _ => false,
        },
    }
}

fn func_type_is_match(space: &TypeSpace, a: &FuncType, b: &FuncType) -> bool
    requires lower { IsFuncInRange space.now.types a.now }
    requires upper { IsFuncInRange space.now.types b.now }
    ensures { IsTrue result ↔ IsFuncMatch space.now.types a.now b.now }
{
    are_below(space, b.params.as_slice(), a.params.as_slice())
        && are_below(space, a.results.as_slice(), b.results.as_slice())
}

// Returns whether `a` and `b` have the same length and each type of `a` is a subtype of the type of
// `b` at the same position.
fn are_below(space: &TypeSpace, a: &[ValType], b: &[ValType]) -> bool
    requires lower { All (IsValInRange space.now.types) a.now }
    requires upper { All (IsValInRange space.now.types) b.now }
    ensures { IsTrue result ↔ AreBelow space.now.types a.now b.now }
{
    if a.len() != b.len() {
        return false;
    }
    for i in 0..a.len() {
        if !val_type_is_below(space, a[i], b[i]) {
            return false;
        }
    }
    true
}

// Returns whether `a` has at least as many fields as `b`, and each field of `b` is matched by the
// field of `a` at the same position.
fn fields_are_matched(space: &TypeSpace, a: &[FieldType], b: &[FieldType]) -> bool
    requires lower { All (IsFieldInRange space.now.types) a.now }
    requires upper { All (IsFieldInRange space.now.types) b.now }
    ensures { IsTrue result ↔ AreFieldsMatched space.now.types a.now b.now }
{
    if a.len() < b.len() {
        return false;
    }
    for i in 0..b.len() {
        if !field_is_match(space, a[i], b[i]) {
            return false;
        }
    }
    true
}

fn field_is_match(space: &TypeSpace, a: FieldType, b: FieldType) -> bool
    requires lower { IsFieldInRange space.now.types a }
    requires upper { IsFieldInRange space.now.types b }
    ensures { IsTrue result ↔ IsFieldMatch space.now.types a b }
{
    a.mutable == b.mutable
        && storage_is_match(space, a.element_type, b.element_type)
        && (!b.mutable || storage_is_match(space, b.element_type, a.element_type))
}

fn storage_is_match(space: &TypeSpace, a: StorageType, b: StorageType) -> bool
    requires lower { IsStorageInRange space.now.types a }
    requires upper { IsStorageInRange space.now.types b }
    ensures { IsTrue result ↔ IsStorageMatch space.now.types a b }
{
    match a {
        StorageType::I8 => matches!(b, StorageType::I8),
        StorageType::I16 => matches!(b, StorageType::I16),
        StorageType::Val(a) => match b {
            StorageType::Val(b) => val_type_is_below(space, a, b),
            _ => false,
        },
    }
}
