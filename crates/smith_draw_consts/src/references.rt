ghost use Rattle.std.specs.Prelude.{◌≡◌, ◌<◌, List, IsTrue, IfSome, length};
ghost use Rattle.smith_types.specs.Subtyping.{IsValInRange};
ghost use Rattle.smith_types.specs.Expressions.{reference_to, created, function_reference};
ghost use Rattle.smith_types.specs.Syntax.value_type.HeapType.TheVariants.{Abstract};
ghost use Rattle.smith_types.specs.Syntax.value_type.AbstractHeapType.TheVariants as heap;
ghost use Rattle.smith_types.specs.Syntax.composite_type.SubType.{SubType};
ghost use Rattle.smith_draw_types.specs.Below.{is_val_below};
ghost use Rattle.smith_draw_consts.specs.ConstScopes.{context_of};
ghost use Rattle.smith_draw_consts.specs.KeptOffers.{IsOnlyType, is_offered, readable};

use crate::scope::Scope;
use smith_types::{AbstractHeapType, GlobalType, HeapType, RefType, TypeSpace, ValType};

pub(crate) fn is_below(types: &TypeSpace, a: ValType, b: ValType) -> bool
    requires lower { IsValInRange types.now.types a }
    requires upper { IsValInRange types.now.types b }
    ensures { result ≡ is_val_below types.now.types a b }
{
    let _types = types.types();
    types.val_type_is_sub_type(a, b)
}

/// Returns the type of the value that a constant expression reads from a global of the type
/// `global`, or `None` if the global is mutable.
pub(crate) fn readable(global: GlobalType) -> Option<ValType>
    ensures { result ≡ readable global }
{
    if global.mutable {
        return None;
    }
    Some(global.val_type)
}

/// Returns whether items of a class with the type `kind` are offered for the type `wanted`.
pub(crate) fn is_offered(types: &TypeSpace, kind: Option<ValType>, wanted: ValType) -> bool
    requires lower { IfSome kind (IsValInRange types.now.types) }
    requires upper { IsValInRange types.now.types wanted }
    ensures { result ≡ is_offered types.now.types wanted kind }
{
    match kind {
        Some(value) => is_below(types, value, wanted),
        None => false,
    }
}

pub(crate) fn i31(shared: bool) -> ValType
    ensures { result ≡ reference_to (Abstract shared heap.I31) }
{
    ValType::Ref(RefType {
        nullable: false,
        heap_type: HeapType::Abstract {
            shared,
            ty: AbstractHeapType::I31,
        },
    })
}

/// Returns the type of a reference to a created value of the type `index`. It is exact with custom
/// descriptors.
fn created_type(scope: &Scope<'_>, index: u32) -> ValType
    ensures { result ≡ created (context_of scope.now) index }
{
    let heap_type = if scope.config.custom_descriptors_enabled {
        HeapType::Exact(index)
    } else {
        HeapType::Concrete(index)
    };
    ValType::Ref(RefType {
        nullable: false,
        heap_type,
    })
}

/// Returns the type of a reference to the function `function` with the type `index`.
pub(crate) fn function_reference(scope: &Scope<'_>, function: usize, index: u32) -> ValType
    ensures { result ≡ function_reference (context_of scope.now) function index }
{
    let entities = scope.spaces.entities;
    if function < entities.imported_funcs {
        return ValType::Ref(RefType {
            nullable: false,
            heap_type: HeapType::Concrete(index),
        });
    }
    created_type(scope, index)
}

/// Returns whether a reference to a created value of the type `index` has a subtype of `wanted`.
pub(crate) fn gives(scope: &Scope<'_>, index: u32, wanted: ValType) -> bool
    requires there { index < length (context_of scope.now).types }
    requires upper { IsValInRange (context_of scope.now).types wanted }
    ensures { result
        ≡ is_val_below (context_of scope.now).types (created (context_of scope.now) index) wanted }
{
    is_below(scope.spaces.types, created_type(scope, index), wanted)
}

/// Returns the index of the only type whose created values may be of the type `wanted`, if `wanted`
/// refers to an exact type or to a type without subtypes.
pub(crate) fn only_type(scope: &Scope<'_>, wanted: ValType) -> Option<u32>
    requires upper { IsValInRange (context_of scope.now).types wanted }
    ensures { IfSome result (IsOnlyType (context_of scope.now) wanted) }
{
    let ValType::Ref(reference) = wanted else {
        return None;
    };
    match reference.heap_type {
        HeapType::Exact(index) => Some(index),
        HeapType::Concrete(index) => {
            if scope.spaces.types.count_of_direct_subtypes(index) > 0 {
                return None;
            }
            Some(index)
        }
        HeapType::Abstract { .. } => None,
    }
}

/// Returns the type of nullable references to the unshared type `ty`.
fn nullable(ty: AbstractHeapType) -> ValType
    ensures { (types : List SubType) → IsValInRange types result }
{
    ValType::Ref(RefType {
        nullable: true,
        heap_type: HeapType::Abstract { shared: false, ty },
    })
}

/// Returns the type of nullable references to the top of the hierarchy of `wanted`, if `wanted` is
/// a type of unshared references.
pub(crate) fn widest(types: &TypeSpace, wanted: ValType) -> Option<ValType>
    requires { IsValInRange types.now.types wanted }
    ensures { IfSome result (λ wider.
        IsValInRange types.now.types wider × IsTrue (is_val_below types.now.types wanted wider)) }
{
    use AbstractHeapType::{Any, Exn, Extern, Func};
    if !matches!(wanted, ValType::Ref(_)) {
        return None;
    }
    for ty in [Any, Func, Extern, Exn] {
        let wider = nullable(ty);
        if is_below(types, wanted, wider) {
            return Some(wider);
        }
    }
    None
}
