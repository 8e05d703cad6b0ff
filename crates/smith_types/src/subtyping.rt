ghost use Rattle.std.specs.Prelude.{◌≡◌, ◌<◌, length, IsTrue, ◌↔◌};
ghost use Rattle.smith_syntax.specs.declared.value_type.HeapType.TheVariants.{Abstract, Concrete};
ghost use Rattle.smith_syntax.specs.Kinds.{kind, bottom, shared};
ghost use Rattle.smith_types.specs.Subtyping.{
  is_abstract_below,
  IsBelow,
  IsRefBelow,
  IsValBelow,
  IsInRange,
  IsValInRange,
};

use crate::type_space::TypeSpace;
use smith_syntax::{AbstractHeapType, HeapType, RefType, SubType, ValType};

// Returns whether the value type `a` is a subtype of `b`. Heap types are compared as in
// `TypeSpace::heap_type_is_sub_type`.
pub(crate) fn val_type_is_below(space: &TypeSpace, a: ValType, b: ValType) -> bool
    requires lower { IsValInRange space.now.types a }
    requires upper { IsValInRange space.now.types b }
    ensures { IsTrue result ↔ IsValBelow space.now.types a b }
{
    match a {
        ValType::I32 => matches!(b, ValType::I32),
        ValType::I64 => matches!(b, ValType::I64),
        ValType::F32 => matches!(b, ValType::F32),
        ValType::F64 => matches!(b, ValType::F64),
        ValType::V128 => matches!(b, ValType::V128),
        ValType::Ref(a) => match b {
            ValType::Ref(b) => ref_type_is_below(space, a, b),
            _ => false,
        },
    }
}

// Returns whether the reference type `a` is a subtype of `b`. Heap types are compared as in
// `TypeSpace::heap_type_is_sub_type`.
pub(crate) fn ref_type_is_below(space: &TypeSpace, a: RefType, b: RefType) -> bool
    requires lower { IsInRange space.now.types a.heap_type }
    requires upper { IsInRange space.now.types b.heap_type }
    ensures { IsTrue result ↔ IsRefBelow space.now.types a b }
{
    (!a.nullable || b.nullable) && heap_type_is_below(space, a.heap_type, b.heap_type)
}

// Returns whether the heap type `a` is a subtype of `b`.
pub(crate) fn heap_type_is_below(space: &TypeSpace, a: HeapType, b: HeapType) -> bool
    requires lower { IsInRange space.now.types a }
    requires upper { IsInRange space.now.types b }
    ensures { IsTrue result ↔ IsBelow space.now.types a b }
{
    let types = space.types();
    match a {
        HeapType::Abstract { shared, ty } => match b {
            HeapType::Abstract {
                shared: wanted,
                ty: upper,
            } => shared == wanted && abstract_type_is_below(ty, upper),
            HeapType::Concrete(j) => is_bottom_of(&types[j as usize], shared, ty),
            HeapType::Exact(j) => is_bottom_of(&types[j as usize], shared, ty),
        },
        HeapType::Concrete(i) => match b {
            HeapType::Abstract { shared, ty } => is_under(&types[i as usize], shared, ty),
            HeapType::Concrete(j) => space.reaches(i, j),
            HeapType::Exact(_) => false,
        },
        HeapType::Exact(own) => match b {
            HeapType::Abstract { shared, ty } => is_under(&types[own as usize], shared, ty),
            HeapType::Concrete(j) => space.reaches(own, j),
            HeapType::Exact(j) => own == j,
        },
    }
}

// Returns whether the type `ty` is a subtype of the abstract type `upper`, which is shared if
// `is_shared` is `true`.
fn is_under(ty: &SubType, is_shared: bool, upper: AbstractHeapType) -> bool
    ensures { IsTrue result
        ↔ ((shared ty.now ≡ is_shared) × IsTrue (is_abstract_below (kind ty.now) upper)) }
{
    ty.composite_type.shared == is_shared
        && abstract_type_is_below(ty.composite_type.inner.kind(), upper)
}

// Returns whether the abstract type `lower`, which is shared if `is_shared` is `true`, is the
// bottom of the kind of `ty`.
fn is_bottom_of(ty: &SubType, is_shared: bool, lower: AbstractHeapType) -> bool
    ensures { IsTrue result ↔ ((is_shared ≡ shared ty.now) × (lower ≡ bottom ty.now)) }
{
    is_shared == ty.composite_type.shared && lower == ty.composite_type.inner.bottom()
}

// Returns whether the abstract type `a` is a subtype of `b`. Requires that both are shared or
// neither is.
pub(crate) fn abstract_type_is_below(a: AbstractHeapType, b: AbstractHeapType) -> bool
    ensures { result ≡ is_abstract_below a b }
{
    use AbstractHeapType::{
        Any, Array, Eq, Exn, Extern, Func, I31, NoExn, NoExtern, NoFunc, None, Struct,
    };
    match (a, b) {
        (Eq, Any)
        | (I31 | Struct | Array, Eq | Any)
        | (None, I31 | Struct | Array | Eq | Any)
        | (NoFunc, Func)
        | (NoExtern, Extern)
        | (NoExn, Exn) => true,
        _ => a == b,
    }
}
