ghost use Rattle.std.specs.Prelude.{
  ◌≡◌,
  ◌+◌,
  ◌<◌,
  ◌≤◌,
  ◌^◌,
  ◌++◌,
  [],
  ◌∷◌,
  Some,
  map,
  length,
  slice_get,
  if◌then◌else◌,
};
ghost use Rattle.smith_types.specs.Syntax.value_type.HeapType.TheVariants.{Abstract, Concrete};
ghost use Rattle.smith_types.specs.Syntax.value_type.HeapType.TheVariants.{Exact};
ghost use Rattle.smith_types.specs.Syntax.value_type.AbstractHeapType.TheVariants.{Array, Struct};
ghost use Rattle.smith_types.specs.Types.{IsOrderly};
ghost use Rattle.smith_draw_types.specs.Offered.{
  abstract_subtypes,
  abstract_supertypes,
  supertypes_of_inner,
  kinds_below,
  kinds_above,
  of_kinds,
  offered_direct_subtypes,
  ancestors,
  bottom_at,
  kinds_at,
  exact_subtypes,
  gc_subtypes,
  gc_supertypes,
};

use smith_config::Config;
use smith_types::{AbstractHeapType, CompositeInnerType, HeapType, SubType, TypeSpace};

/// Returns the number of supertypes of `ty` that are offered with garbage collection.
pub(crate) fn count_supertypes(space: &TypeSpace, ty: HeapType) -> usize
    ensures { result ≡ length (gc_supertypes space.now.types ty) }
{
    match ty {
        HeapType::Abstract { shared, ty } => {
            count_abstract(space, shared, abstract_supertypes(ty), kinds_above(ty))
        }
        HeapType::Concrete(index) => count_concrete_supertypes(space, index),
        HeapType::Exact(_) => 1,
    }
}

/// Returns the supertype of `ty` at `place` among those that are offered with garbage collection.
/// Requires `place` to be less than [`count_supertypes`].
pub(crate) fn offered_supertype(space: &TypeSpace, ty: HeapType, place: usize) -> HeapType
    requires { place < length (gc_supertypes space.now.types ty) }
    ensures { slice_get (gc_supertypes space.now.types ty) place ≡ Some result }
{
    match ty {
        HeapType::Abstract { shared, ty } => {
            offered_abstract(
                space,
                shared,
                abstract_supertypes(ty),
                kinds_above(ty),
                place,
            )
        }
        HeapType::Concrete(index) => offered_concrete_supertype(space, index, place),
        HeapType::Exact(_) => ty,
    }
}

/// Returns the number of abstract types `abstracts` and of concrete types of the kinds `kinds`, all
/// with the sharedness `shared`.
fn count_abstract(
    space: &TypeSpace,
    shared: bool,
    abstracts: &[AbstractHeapType],
    kinds: &[AbstractHeapType],
) -> usize
    requires few { length abstracts.now + length kinds.now < 2 ^ 8 }
    ensures { result ≡ length (map (Abstract shared) abstracts.now
        ++ of_kinds space.now.types shared kinds.now) }
{
    let mut count = abstracts.len();
    for kind in kinds {
        count += space.count_of_kind(shared, *kind) as usize;
    }
    count
}

/// Returns the number of concrete types that are offered as subtypes of the abstract type `ty` with
/// the sharedness `shared`.
pub(crate) fn count_of_kinds_below(space: &TypeSpace, shared: bool, ty: AbstractHeapType) -> usize
    ensures count { result ≡ length (of_kinds space.now.types shared (kinds_below ty)) }
    ensures few { result < 2 ^ 33 }
{
    match ty {
        AbstractHeapType::Any => count_of_aggregates(space, shared),
        AbstractHeapType::Eq => count_of_aggregates(space, shared),
        AbstractHeapType::Struct => count_of_kind(space, shared, AbstractHeapType::Struct),
        AbstractHeapType::Array => count_of_kind(space, shared, AbstractHeapType::Array),
        AbstractHeapType::Func => count_of_kind(space, shared, AbstractHeapType::Func),
        _ => 0,
    }
}

/// Returns the number of array and struct types with the sharedness `shared`.
fn count_of_aggregates(space: &TypeSpace, shared: bool) -> usize
    ensures count { result ≡ length (of_kinds space.now.types shared (Array ∷ Struct ∷ [])) }
    ensures few { result < 2 ^ 33 }
{
    count_of_kind(space, shared, AbstractHeapType::Array)
        + count_of_kind(space, shared, AbstractHeapType::Struct)
}

/// Returns the number of types of the kind `kind` with the sharedness `shared`.
fn count_of_kind(space: &TypeSpace, shared: bool, kind: AbstractHeapType) -> usize
    ensures count { result ≡ length (of_kinds space.now.types shared (kind ∷ [])) }
    ensures few { result < 2 ^ 32 }
{
    space.count_of_kind(shared, kind) as usize
}

/// Returns the type at `place` among those that [`count_abstract`] counts, the abstract types
/// first.
pub(crate) fn offered_abstract(
    space: &TypeSpace,
    shared: bool,
    abstracts: &[AbstractHeapType],
    kinds: &[AbstractHeapType],
    place: usize,
) -> HeapType
    requires { place < length (map (Abstract shared) abstracts.now
        ++ of_kinds space.now.types shared kinds.now) }
    ensures { slice_get
        (map (Abstract shared) abstracts.now ++ of_kinds space.now.types shared kinds.now) place
        ≡ Some result }
{
    if place < abstracts.len() {
        return HeapType::Abstract {
            shared,
            ty: abstracts[place],
        };
    }
    HeapType::Concrete(offered_of_kinds(space, shared, kinds, place - abstracts.len()))
}

/// Returns the index of the type at `place` among the types of the kinds `kinds`, kind by kind,
/// each in index order.
fn offered_of_kinds(
    space: &TypeSpace,
    shared: bool,
    kinds: &[AbstractHeapType],
    place: usize,
) -> u32
    requires { place < length (of_kinds space.now.types shared kinds.now) }
    ensures { slice_get (of_kinds space.now.types shared kinds.now) place ≡ Some (Concrete result) }
{
    let mut left = place;
    for kind in kinds {
        let count = space.count_of_kind(shared, *kind) as usize;
        if left < count {
            return space.index_of_kind(shared, *kind, left as u32);
        }
        left -= count;
    }
    0
}

/// Returns the number of offered supertypes of the type `index`, including the type itself.
fn count_concrete_supertypes(space: &TypeSpace, index: u32) -> usize
    ensures { result ≡ length (gc_supertypes space.now.types (Concrete index)) }
{
    match space.types().get(index as usize) {
        Some(ty) => {
            supertypes_of_inner(&ty.composite_type.inner).len() + space.depth(index) as usize
        }
        None => 1,
    }
}

/// Returns the type at `place` among those that [`count_concrete_supertypes`] counts, the type
/// itself first.
fn offered_concrete_supertype(space: &TypeSpace, index: u32, place: usize) -> HeapType
    requires { place < length (gc_supertypes space.now.types (Concrete index)) }
    ensures { slice_get (gc_supertypes space.now.types (Concrete index)) place ≡ Some result }
{
    if place == 0 {
        return HeapType::Concrete(index);
    }
    match space.types().get(index as usize) {
        Some(ty) => offered_above(space, index, ty, place - 1),
        None => HeapType::Concrete(index),
    }
}

/// Returns the type at `place` among the proper supertypes of the type `ty` with the index `index`:
/// abstract types, and then declared supertypes, nearest first.
fn offered_above(space: &TypeSpace, index: u32, ty: &SubType, place: usize) -> HeapType
    requires orderly { IsOrderly space.now.types }
    requires stands { slice_get space.now.types index ≡ Some ty.now }
    requires inside { place
        < length (kinds_at space.now.types index ++ ancestors space.now.types index) }
    ensures { slice_get (kinds_at space.now.types index ++ ancestors space.now.types index) place
        ≡ Some result }
{
    let depth = space.depth(index);
    let kinds = supertypes_of_inner(&ty.composite_type.inner);
    if place < kinds.len() {
        return HeapType::Abstract {
            shared: ty.composite_type.shared,
            ty: kinds[place],
        };
    }
    HeapType::Concrete(space.ancestor(index, depth - 1 - (place - kinds.len()) as u32))
}

/// Returns the number of subtypes of `ty` that are offered with garbage collection.
pub(crate) fn count_subtypes(config: &Config, space: &TypeSpace, ty: HeapType) -> usize
    ensures { result ≡ length (gc_subtypes config.now space.now.types ty) }
{
    match ty {
        HeapType::Abstract { shared, ty } => {
            abstract_subtypes(ty).len() + count_of_kinds_below(space, shared, ty)
        }
        HeapType::Concrete(index) => count_concrete_subtypes(config, space, index),
        HeapType::Exact(_) => 1,
    }
}

/// Returns the subtype of `ty` at `place` among those that are offered with garbage collection.
/// Requires `place` to be less than [`count_subtypes`].
pub(crate) fn offered_subtype(
    config: &Config,
    space: &TypeSpace,
    ty: HeapType,
    place: usize,
) -> HeapType
    requires { place < length (gc_subtypes config.now space.now.types ty) }
    ensures { slice_get (gc_subtypes config.now space.now.types ty) place ≡ Some result }
{
    match ty {
        HeapType::Abstract { shared, ty } => {
            offered_abstract(space, shared, abstract_subtypes(ty), kinds_below(ty), place)
        }
        HeapType::Concrete(index) => { offered_concrete_subtype(config, space, index, place) }
        HeapType::Exact(_) => ty,
    }
}

/// Returns the number of offered subtypes of the type `index`, including the type itself.
pub(crate) fn count_concrete_subtypes(config: &Config, space: &TypeSpace, index: u32) -> usize
    ensures { result ≡ length (gc_subtypes config.now space.now.types (Concrete index)) }
{
    let direct = count_direct(space, index);
    1 + direct + count_exact(config, direct) + count_bottom(space.types(), index)
}

/// Returns the number of types that are offered only with custom descriptors: the exact type, and
/// the `direct` direct subtypes once more.
fn count_exact(config: &Config, direct: usize) -> usize
    requires { direct < 2 ^ 32 }
    ensures { result ≡ (if config.now.custom_descriptors_enabled then 1 + direct else 0) }
{
    if config.custom_descriptors_enabled {
        1 + direct
    } else {
        0
    }
}

/// Returns the number of bottom types of the type `index`: 1 if that type exists, otherwise 0.
fn count_bottom(types: &[SubType], index: u32) -> usize
    ensures { result ≡ length (bottom_at types.now index) }
{
    match types.get(index as usize) {
        Some(_) => 1,
        None => 0,
    }
}

/// Returns the type at `place` among the offered subtypes of the type `index`, the type itself
/// first.
pub(crate) fn offered_concrete_subtype(
    config: &Config,
    space: &TypeSpace,
    index: u32,
    place: usize,
) -> HeapType
    requires { place < length (gc_subtypes config.now space.now.types (Concrete index)) }
    ensures { slice_get (gc_subtypes config.now space.now.types (Concrete index)) place
        ≡ Some result }
{
    if place == 0 {
        return HeapType::Concrete(index);
    }
    let direct = count_direct(space, index);
    if place <= direct {
        return HeapType::Concrete(offered_direct(space, index, place - 1));
    }
    offered_below(config, space, index, direct, place - 1 - direct)
}

/// Returns the type at `place` among the offered subtypes of the type `index` that follow its
/// `direct` direct subtypes.
fn offered_below(
    config: &Config,
    space: &TypeSpace,
    index: u32,
    direct: usize,
    place: usize,
) -> HeapType
    requires few { direct < 2 ^ 32 }
    requires counted { direct ≡ length (offered_direct_subtypes space.now.types index) }
    requires inside { place < length (exact_subtypes config.now space.now.types index
        ++ bottom_at space.now.types index) }
    ensures { slice_get
        (exact_subtypes config.now space.now.types index ++ bottom_at space.now.types index) place
        ≡ Some result }
{
    if !config.custom_descriptors_enabled {
        return offered_bottom(space.types(), index);
    }
    if place == 0 {
        return HeapType::Exact(index);
    }
    if place <= direct {
        return HeapType::Concrete(offered_direct(space, index, place - 1));
    }
    offered_bottom(space.types(), index)
}

/// Returns the bottom of the kind of the type `index`. Requires the type to exist.
pub(crate) fn offered_bottom(types: &[SubType], index: u32) -> HeapType
    requires { 0 < length (bottom_at types.now index) }
    ensures { bottom_at types.now index ≡ result ∷ [] }
{
    match types.get(index as usize) {
        Some(ty) => HeapType::Abstract {
            shared: ty.composite_type.shared,
            ty: ty.composite_type.inner.bottom(),
        },
        None => HeapType::Concrete(index),
    }
}

/// Returns the number of types that declare the type `supertype` as their supertype.
fn count_direct(space: &TypeSpace, supertype: u32) -> usize
    ensures count { result ≡ length (offered_direct_subtypes space.now.types supertype) }
    ensures few { result < 2 ^ 32 }
{
    space.count_of_direct_subtypes(supertype) as usize
}

/// Returns the index of the type at `place` among those that [`count_direct`] counts, in index
/// order.
fn offered_direct(space: &TypeSpace, supertype: u32, place: usize) -> u32
    requires few { place < 2 ^ 32 }
    requires inside { place < length (offered_direct_subtypes space.now.types supertype) }
    ensures { slice_get (offered_direct_subtypes space.now.types supertype) place ≡ Some (Concrete result) }
{
    space.direct_subtype(supertype, place as u32)
}

/// Returns the abstract types that are offered as supertypes of `inner`, widest first.
fn supertypes_of_inner(inner: &CompositeInnerType) -> &'static [AbstractHeapType]
    ensures { result.now ≡ supertypes_of_inner inner.now }
{
    use AbstractHeapType::{Any, Array, Eq, Func, Struct};
    match inner {
        CompositeInnerType::Array(_) => &[Any, Eq, Array],
        CompositeInnerType::Func(_) => &[Func],
        CompositeInnerType::Struct(_) => &[Any, Eq, Struct],
    }
}

/// Returns the abstract types that are offered as subtypes of `ty`, `ty` itself first.
pub(crate) fn abstract_subtypes(ty: AbstractHeapType) -> &'static [AbstractHeapType]
    ensures { result.now ≡ abstract_subtypes ty }
{
    use AbstractHeapType::{
        Any, Array, Eq, Exn, Extern, Func, I31, NoExn, NoExtern, NoFunc, None, Struct,
    };
    match ty {
        Any => &[Any, Eq, Struct, Array, I31, None],
        Eq => &[Eq, Struct, Array, I31, None],
        Struct => &[Struct, Struct, None],
        Array => &[Array, Array, None],
        I31 => &[I31, None],
        None => &[None],
        Func => &[Func, NoFunc],
        NoFunc => &[NoFunc],
        Extern => &[Extern, NoExtern],
        NoExtern => &[NoExtern],
        Exn => &[Exn],
        NoExn => &[NoExn],
    }
}

/// Returns the abstract types that are offered as supertypes of `ty`, `ty` itself first.
fn abstract_supertypes(ty: AbstractHeapType) -> &'static [AbstractHeapType]
    ensures { result.now ≡ abstract_supertypes ty }
{
    use AbstractHeapType::{
        Any, Array, Eq, Exn, Extern, Func, I31, NoExn, NoExtern, NoFunc, None, Struct,
    };
    match ty {
        Any => &[Any],
        Eq => &[Eq, Any],
        Struct => &[Struct, Any, Eq],
        Array => &[Array, Any, Eq],
        I31 => &[I31, Any, Eq],
        None => &[None, Any, Eq, Struct, Array, I31],
        Func => &[Func],
        NoFunc => &[NoFunc, Func],
        Extern => &[Extern],
        NoExtern => &[NoExtern, Extern],
        Exn => &[Exn],
        NoExn => &[NoExn, Exn],
    }
}

/// Returns the kinds of the concrete types that are offered as subtypes of `ty`.
pub(crate) fn kinds_below(ty: AbstractHeapType) -> &'static [AbstractHeapType]
    ensures { result.now ≡ kinds_below ty }
{
    use AbstractHeapType::{Any, Array, Eq, Func, Struct};
    match ty {
        Any => &[Array, Struct],
        Eq => &[Array, Struct],
        Struct => &[Struct],
        Array => &[Array],
        Func => &[Func],
        _ => &[],
    }
}

/// Returns the kinds of the concrete types that are offered as supertypes of `ty`.
fn kinds_above(ty: AbstractHeapType) -> &'static [AbstractHeapType]
    ensures { result.now ≡ kinds_above ty }
{
    use AbstractHeapType::{Array, Func, NoFunc, None, Struct};
    match ty {
        None => &[Array, Struct],
        NoFunc => &[Func],
        _ => &[],
    }
}
