ghost use Rattle.std.specs.Prelude.{◌≡◌, ◌+◌, ◌<◌, ◌≤◌, ◌↔◌, ◌⊎◌, false, IsTrue, Some, IfOk, IfSome, drop, filter};
ghost use Rattle.std.specs.Prelude.{length, map, ◌++◌, slice_get, ◌||◌, not, All, if◌then◌else◌};
ghost use Rattle.smith_bytes.specs.Draws.{choose_at};
ghost use Rattle.smith_types.specs.Subtyping.{IsBelow, IsRefBelow, IsValBelow, IsInRange};
ghost use Rattle.smith_types.specs.Subtyping.{IsValInRange};
ghost use Rattle.smith_types.specs.Matching.{IsStorageMatch, IsFieldMatch, IsFuncMatch};
ghost use Rattle.smith_types.specs.Matching.{IsStorageInRange, IsFieldInRange, IsFuncInRange};
ghost use Rattle.smith_types.specs.ValidTypes.{
  IsHeapTypeValid,
  IsRefTypeValid,
  IsValTypeValid,
  IsFuncTypeValid,
  IsHeapTypeShared,
  IsShareable,
  values_of,
  values_of_storage,
};
ghost use Rattle.smith_types.specs.Grounded.{IsGrounded};
ghost use Rattle.smith_types.specs.Syntax.value_type.HeapType.TheVariants.{Abstract, Concrete};
ghost use Rattle.smith_types.specs.Syntax.composite_type.CompositeInnerType.TheVariants.{Func};
ghost use Rattle.smith_config.specs.Features.{features_of};
ghost use Rattle.smith_draw_types.specs.Choices.{chosen_at};
ghost use Rattle.smith_draw_types.specs.Drawing.{AlwaysDraws, Draws};
ghost use Rattle.smith_config.specs.Granted.{IsGranted};
ghost use Rattle.smith_config.specs.declared.config.Config.{Config as Configuration};
ghost use Rattle.smith_draw_types.specs.Grounding.{is_grounded, standing_in};
ghost use Rattle.smith_draw_types.specs.GroundedTails.{IsGroundedTail, IsGroundedFamily};
ghost use Rattle.smith_draw_types.specs.Kept.{
  StaysValid,
  IsStorageValid,
  IsFieldValid,
  IsStorageShareable,
  IsFuncShareable,
};
ghost use Rattle.smith_draw_types.specs.Offered.{abstract_subtypes, gc_subtypes, kinds_below, of_kinds};
ghost use Rattle.smith_draw_types.specs.Offered.{subtypes_offered, exact_subtypes, bottom_at};
ghost use Rattle.smith_draw_types.specs.MatchingTypes.{
  first_and_passing,
  references_offered,
  matching_heap_type_at,
  matching_ref_type_at,
  matching_val_type_at,
  matching_storage_type_at,
  matching_field_type_at,
  matching_func_type_at,
};

use crate::call_grounds::CallGrounds;
use crate::each::{Replacement, draw_each};
use crate::offers::{
    abstract_subtypes, count_concrete_subtypes, count_of_kinds_below, count_subtypes, kinds_below,
    offered_abstract, offered_bottom, offered_concrete_subtype, offered_subtype,
};
use crate::reference_scope::ReferenceScope;
use crate::spaces::{Spaces, orderly};
use crate::super_type::Above;
use smith_bytes::{Error, Unstructured};
use smith_config::Config;
use smith_types::{
    AbstractHeapType, FieldType, FuncType, HeapType, RefType, StorageType, TypeSpace, ValType,
};
use std::alloc::Global;

fn draw_matching_heap_type(
    config: &Config,
    space: &TypeSpace,
    ty: HeapType,
    u: &mut Unstructured<'_>,
) -> Result<HeapType, Error>
    ensures { Draws (matching_heap_type_at config.now space.now.types ty u.old) result u.old u.new }
{
    if !config.gc_enabled {
        return Ok(ty);
    }
    Ok(draw_subtype(config, space, ty, u))
}

/// Draws one of the subtypes of `ty` that are offered with garbage collection.
fn draw_subtype(
    config: &Config,
    space: &TypeSpace,
    ty: HeapType,
    u: &mut Unstructured<'_>,
) -> HeapType
    ensures { AlwaysDraws (chosen_at ty (gc_subtypes config.now space.now.types ty) u.old)
        result u.old u.new }
{
    match ty {
        HeapType::Abstract { shared, ty } => draw_abstract_subtype(space, shared, ty, u),
        HeapType::Concrete(index) => draw_concrete_subtype(config, space, index, u),
        HeapType::Exact(_) => ty,
    }
}

/// Draws one of the offered subtypes of the abstract type `ty` with the sharedness `shared`.
fn draw_abstract_subtype(
    space: &TypeSpace,
    shared: bool,
    ty: AbstractHeapType,
    u: &mut Unstructured<'_>,
) -> HeapType
    ensures { AlwaysDraws
        (chosen_at (Abstract shared ty) (map (Abstract shared) (abstract_subtypes ty)
        ++ of_kinds space.now.types shared (kinds_below ty)) u.old) result u.old u.new }
{
    let abstracts = abstract_subtypes(ty);
    let kinds = kinds_below(ty);
    let count = abstracts.len() + count_of_kinds_below(space, shared, ty);
    let place = u.int_in_range(0..=count - 1);
    offered_abstract(space, shared, abstracts, kinds, place)
}

/// Draws one of the offered subtypes of the type `index`.
fn draw_concrete_subtype(
    config: &Config,
    space: &TypeSpace,
    index: u32,
    u: &mut Unstructured<'_>,
) -> HeapType
    ensures { AlwaysDraws
        (chosen_at (Concrete index) (gc_subtypes config.now space.now.types (Concrete index)) u.old)
        result u.old u.new }
{
    let count = count_concrete_subtypes(config, space, index);
    let place = u.int_in_range(0..=count - 1);
    offered_concrete_subtype(config, space, index, place)
}

/// Draws `ty` or one of its other offered subtypes that are grounded.
fn draw_grounded_heap_type(
    config: &Config,
    standing: &ReferenceScope<'_>,
    ty: HeapType,
    u: &mut Unstructured<'_>,
) -> HeapType
    ensures { AlwaysDraws (chosen_at ty (first_and_passing (is_grounded standing.now)
        (subtypes_offered config.now standing.now.types ty)) u.old) result u.old u.new }
{
    if !config.gc_enabled {
        return ty;
    }
    let count = count_grounded(config, standing, ty);
    let place = u.int_in_range(0..=count);
    if place == 0 {
        return ty;
    }
    offered_grounded(config, standing, ty, place - 1)
}

/// The grounded types among the last of the offered subtypes of a heap type.
#[derive(Clone, Copy)]
struct GroundedTail<'a> {
    /// The number of offered subtypes before.
    start: usize,
    /// The indices of the grounded ones among the others, in order.
    indices: &'a [u32],
}

/// Returns the grounded types among the concrete types that are offered as subtypes of `ty`, or
/// `None` if they are not recorded, or if `ty` is not an abstract type.
fn grounded_tail<'a>(standing: &ReferenceScope<'a>, ty: HeapType) -> Option<GroundedTail<'a>>
    ensures { (config : Configuration) → IfSome result (IsGroundedTail config standing.now ty) }
{
    let HeapType::Abstract { shared, ty } = ty else {
        return None;
    };
    match standing.grounded_of_kinds(shared, ty) {
        Some(indices) => Some(GroundedTail {
            start: abstract_subtypes(ty).len(),
            indices,
        }),
        None => None,
    }
}

/// Counts the grounded types among the subtypes of `ty` that are offered with garbage collection,
/// without `ty` itself.
fn count_grounded(config: &Config, standing: &ReferenceScope<'_>, ty: HeapType) -> usize
    ensures { result ≡ length (filter (is_grounded standing.now)
        (drop 1 (gc_subtypes config.now standing.now.types ty))) }
{
    let HeapType::Concrete(index) = ty else {
        return count_by_tail(config, standing, ty);
    };
    match standing.grounded_direct(index) {
        Some(direct) => count_in_family(config, standing, index, direct),
        None => count_by_tail(config, standing, ty),
    }
}

/// Returns the same as [`count_grounded`], without the record of direct subtypes.
fn count_by_tail(config: &Config, standing: &ReferenceScope<'_>, ty: HeapType) -> usize
    ensures { result ≡ length (filter (is_grounded standing.now)
        (drop 1 (gc_subtypes config.now standing.now.types ty))) }
{
    match grounded_tail(standing, ty) {
        Some(tail) => count_grounded_before(config, standing, ty, tail.start) + tail.indices.len(),
        None => {
            let end = count_subtypes(config, standing.types(), ty);
            count_grounded_before(config, standing, ty, end)
        }
    }
}

/// Counts the grounded types among the subtypes of the type `index` that are offered with garbage
/// collection, without that type. `direct` are the indices of its grounded direct subtypes.
fn count_in_family(
    config: &Config,
    standing: &ReferenceScope<'_>,
    index: u32,
    direct: &[u32],
) -> usize
    requires { IsGroundedFamily standing.now index direct.now }
    ensures { result ≡ length (filter (is_grounded standing.now)
        (drop 1 (gc_subtypes config.now standing.now.types (Concrete index)))) }
{
    direct.len() + count_after_direct(config, standing, index, direct)
}

/// Counts the grounded types among the subtypes of the type `index` that are offered after its direct
/// subtypes. `direct` are the indices of the grounded ones among these.
fn count_after_direct(
    config: &Config,
    standing: &ReferenceScope<'_>,
    index: u32,
    direct: &[u32],
) -> usize
    requires { IsGroundedFamily standing.now index direct.now }
    ensures counted { result ≡ length (filter (is_grounded standing.now)
        (exact_subtypes config.now standing.now.types index
        ++ bottom_at standing.now.types index)) }
    ensures few { result ≤ length direct.now + 2 }
{
    let space = standing.types();
    let bottom = offered_bottom(space.types(), index);
    let last = count_if(standing.is_grounded(bottom));
    if !config.custom_descriptors_enabled {
        return last;
    }
    let exact = standing.is_grounded(HeapType::Exact(index));
    count_if(exact) + (direct.len() + last)
}

/// Returns 1 if `wanted` is `true`, otherwise 0.
fn count_if(wanted: bool) -> usize
    ensures { result ≡ (if wanted then 1 else 0) }
{
    if wanted { 1 } else { 0 }
}

/// Counts the grounded types among the first `end` subtypes of `ty` that are offered with garbage
/// collection, without `ty` itself.
fn count_grounded_before(
    config: &Config,
    standing: &ReferenceScope<'_>,
    ty: HeapType,
    end: usize,
) -> usize
    requires some { 0 < end }
    requires within { end ≤ length (gc_subtypes config.now standing.now.types ty) }
    ensures few { result < end }
    ensures counted { result + length (filter (is_grounded standing.now)
        (drop end (gc_subtypes config.now standing.now.types ty)))
        ≡ length (filter (is_grounded standing.now)
        (drop 1 (gc_subtypes config.now standing.now.types ty))) }
{
    let space = standing.types();
    let mut grounded = 0;
    for place in 1..end {
        let other = offered_subtype(config, space, ty, place);
        let found = standing.is_grounded(other);
        if found {
            grounded += 1;
        }
    }
    grounded
}

/// Returns the type at `place` among those that [`count_grounded`] counts.
fn offered_grounded(
    config: &Config,
    standing: &ReferenceScope<'_>,
    ty: HeapType,
    place: usize,
) -> HeapType
    requires { place < length (filter (is_grounded standing.now)
        (drop 1 (gc_subtypes config.now standing.now.types ty))) }
    ensures { slice_get (filter (is_grounded standing.now)
        (drop 1 (gc_subtypes config.now standing.now.types ty))) place
        ≡ Some result }
{
    let HeapType::Concrete(index) = ty else {
        return offered_by_tail(config, standing, ty, place);
    };
    match standing.grounded_direct(index) {
        Some(direct) => offered_in_family(config, standing, index, direct, place),
        None => offered_by_tail(config, standing, ty, place),
    }
}

/// Returns the same as [`offered_grounded`], without the record of direct subtypes.
fn offered_by_tail(
    config: &Config,
    standing: &ReferenceScope<'_>,
    ty: HeapType,
    place: usize,
) -> HeapType
    requires { place < length (filter (is_grounded standing.now)
        (drop 1 (gc_subtypes config.now standing.now.types ty))) }
    ensures { slice_get (filter (is_grounded standing.now)
        (drop 1 (gc_subtypes config.now standing.now.types ty))) place
        ≡ Some result }
{
    let Some(tail) = grounded_tail(standing, ty) else {
        return search_grounded(config, standing, ty, place);
    };
    let before = count_grounded_before(config, standing, ty, tail.start);
    if place < before {
        return search_grounded(config, standing, ty, place);
    }
    HeapType::Concrete(tail.indices[place - before])
}

/// Returns the type at `place` among those that [`count_in_family`] counts: the direct subtypes,
/// and then those that are offered after them.
fn offered_in_family(
    config: &Config,
    standing: &ReferenceScope<'_>,
    index: u32,
    direct: &[u32],
    place: usize,
) -> HeapType
    requires family { IsGroundedFamily standing.now index direct.now }
    requires inside { place < length (filter (is_grounded standing.now)
        (drop 1 (gc_subtypes config.now standing.now.types (Concrete index)))) }
    ensures { slice_get (filter (is_grounded standing.now)
        (drop 1 (gc_subtypes config.now standing.now.types (Concrete index)))) place
        ≡ Some result }
{
    if place < direct.len() {
        return HeapType::Concrete(direct[place]);
    }
    offered_after_direct(config, standing, index, direct, place - direct.len())
}

/// Returns the type at `place` among those that [`count_after_direct`] counts: with custom
/// descriptors the exact type and the direct subtypes, and then the bottom.
fn offered_after_direct(
    config: &Config,
    standing: &ReferenceScope<'_>,
    index: u32,
    direct: &[u32],
    place: usize,
) -> HeapType
    requires family { IsGroundedFamily standing.now index direct.now }
    requires inside { place < length (filter (is_grounded standing.now)
        (exact_subtypes config.now standing.now.types index
        ++ bottom_at standing.now.types index)) }
    ensures { slice_get (filter (is_grounded standing.now)
        (exact_subtypes config.now standing.now.types index
        ++ bottom_at standing.now.types index)) place ≡ Some result }
{
    let space = standing.types();
    let bottom = offered_bottom(space.types(), index);
    if !config.custom_descriptors_enabled {
        return bottom;
    }
    let exact = HeapType::Exact(index);
    let first = count_if(standing.is_grounded(exact));
    if place < first {
        return exact;
    }
    if place - first < direct.len() {
        return HeapType::Concrete(direct[place - first]);
    }
    bottom
}

/// Returns the same as [`offered_grounded`], by a test of each offered subtype up to it.
fn search_grounded(
    config: &Config,
    standing: &ReferenceScope<'_>,
    ty: HeapType,
    place: usize,
) -> HeapType
    requires { place < length (filter (is_grounded standing.now)
        (drop 1 (gc_subtypes config.now standing.now.types ty))) }
    ensures { slice_get (filter (is_grounded standing.now)
        (drop 1 (gc_subtypes config.now standing.now.types ty))) place
        ≡ Some result }
{
    let space = standing.types();
    let mut left = place;
    for at in 1..count_subtypes(config, space, ty) {
        let other = offered_subtype(config, space, ty, at);
        let found = standing.is_grounded(other);
        if found {
            if left == 0 {
                return other;
            }
            left -= 1;
        }
    }
    ty
}

/// Returns whether all subtypes of the heap type of `ty` are offered, grounded or not.
fn are_all_offered(config: &Config, ty: RefType) -> bool
    ensures { result ≡ (ty.nullable || not config.now.non_nullable_enabled) }
{
    ty.nullable || !config.non_nullable_enabled
}

/// Draws the heap type of a reference that is a subtype of `ty`.
fn draw_referent(
    config: &Config,
    standing: &ReferenceScope<'_>,
    ty: RefType,
    u: &mut Unstructured<'_>,
) -> Result<HeapType, Error>
    ensures { Draws (chosen_at ty.heap_type (references_offered config.now standing.now ty) u.old)
        result u.old u.new }
{
    if are_all_offered(config, ty) {
        return draw_matching_heap_type(config, standing.types(), ty.heap_type, u);
    }
    Ok(draw_grounded_heap_type(config, standing, ty.heap_type, u))
}

/// Draws a reference type that is a subtype of `ty` over `standing`, as
/// [`arbitrary_matching_ref_type`] does.
#[tactic(auto, unfolding(crate::specs::MatchingTypes::matching_ref_type_at))]
pub fn draw_matching_ref_type(
    alloc: Global,
    config: &Config,
    standing: &ReferenceScope<'_>,
    ty: RefType,
    u: &mut Unstructured<'_>,
) -> Result<RefType, Error>
    ensures { Draws (matching_ref_type_at config.now standing.now ty u.old) result u.old u.new }
{
    let heap_type = draw_referent(config, standing, ty, u)?;
    Ok(RefType {
        nullable: ty.nullable,
        heap_type,
    })
}

fn draw_matching_val_type(
    alloc: Global,
    config: &Config,
    standing: &ReferenceScope<'_>,
    ty: ValType,
    u: &mut Unstructured<'_>,
) -> Result<ValType, Error>
    ensures { Draws (matching_val_type_at config.now standing.now ty u.old) result u.old u.new }
{
    if let ValType::Ref(reference) = ty {
        let drawn = draw_matching_ref_type(alloc, config, standing, reference, u)?;
        return Ok(ValType::Ref(drawn));
    }
    Ok(ty)
}

fn draw_matching_storage_type(
    alloc: Global,
    config: &Config,
    standing: &ReferenceScope<'_>,
    ty: StorageType,
    u: &mut Unstructured<'_>,
) -> Result<StorageType, Error>
    ensures { Draws (matching_storage_type_at config.now standing.now ty u.old) result u.old u.new }
{
    if let StorageType::Val(value) = ty {
        let drawn = draw_matching_val_type(alloc, config, standing, value, u)?;
        return Ok(StorageType::Val(drawn));
    }
    Ok(ty)
}

#[tactic(auto, unfolding(crate::specs::MatchingTypes::matching_field_type_at))]
pub(crate) fn draw_matching_field_type(
    alloc: Global,
    config: &Config,
    standing: &ReferenceScope<'_>,
    field: FieldType,
    u: &mut Unstructured<'_>,
) -> Result<FieldType, Error>
    ensures { Draws (matching_field_type_at config.now standing.now field u.old)
        result u.old u.new }
{
    if field.mutable {
        return Ok(field);
    }
    let element_type = draw_matching_storage_type(alloc, config, standing, field.element_type, u)?;
    Ok(FieldType {
        element_type,
        mutable: false,
    })
}

/// Draws a matching type: a subtype of a value type, or a field that matches a field.
#[derive(Clone, Copy)]
pub(crate) struct Matching<'a> {
    pub(crate) config: &'a Config,
    pub(crate) standing: &'a ReferenceScope<'a>,
}

impl<'a> Replacement<ValType> for Matching<'a> {
    ghost draw_at = { λ matching. matching_val_type_at matching.config.now matching.standing.now };

    fn draw(
        &self,
        alloc: Global,
        item: ValType,
        u: &mut Unstructured<'_>,
    ) -> Result<ValType, Error> {
        draw_matching_val_type(alloc, self.config, self.standing, item, u)
    }
}

impl<'a> Replacement<FieldType> for Matching<'a> {
    ghost draw_at = { λ matching.
        matching_field_type_at matching.config.now matching.standing.now };

    fn draw(
        &self,
        alloc: Global,
        item: FieldType,
        u: &mut Unstructured<'_>,
    ) -> Result<FieldType, Error> {
        draw_matching_field_type(alloc, self.config, self.standing, item, u)
    }
}

#[tactic(auto, unfolding(crate::specs::MatchingTypes::matching_func_type_at))]
pub(crate) fn draw_matching_func_type(
    alloc: Global,
    config: &Config,
    standing: &ReferenceScope<'_>,
    function: &FuncType,
    u: &mut Unstructured<'_>,
) -> Result<FuncType, Error>
    ensures { Draws (matching_func_type_at config.now standing.now function.now u.old)
        result u.old u.new }
{
    let above = Above {
        config,
        space: standing.types(),
    };
    let params = draw_each(alloc, &above, function.params.as_slice(), u)?;
    let matching = Matching { config, standing };
    let results = draw_each(alloc, &matching, function.results.as_slice(), u)?;
    Ok(FuncType { params, results })
}

/// Draws a heap type that is a subtype of `ty` over the types of `spaces`. Without garbage
/// collection this is `ty` itself. See the standard, section Validation, Matching, Heap Types, with
/// the rules of this project of [`TypeSpace::heap_type_is_sub_type`].
pub fn arbitrary_matching_heap_type(
    alloc: Global,
    config: &Config,
    spaces: &Spaces<'_>,
    ty: HeapType,
    u: &mut Unstructured<'_>,
) -> Result<HeapType, Error>
    // The draw.
    ensures draws { Draws (matching_heap_type_at config.now spaces.now.types.now.types ty u.old)
        result u.old u.new }
    ensures offered { IfOk result (λ drawn.
        choose_at (subtypes_offered config.now spaces.now.types.now.types ty) u.old
        ≡ (Some drawn, u.new)) }

    // Subtyping and sharing.
    ensures below { IfOk result (λ drawn. IsBelow spaces.now.types.now.types drawn ty) }
    ensures shared { IfOk result (λ drawn. IsHeapTypeShared spaces.now.types.now.types drawn
        ↔ IsHeapTypeShared spaces.now.types.now.types ty) }

    // Validity.
    ensures valid { IfOk result (StaysValid (IsHeapTypeValid (features_of config.now))
        (features_of config.now) spaces.now.types.now.types ty) }
    ensures stands { IfOk result (λ drawn.
        IsInRange spaces.now.types.now.types ty → IsInRange spaces.now.types.now.types drawn) }
{
    orderly(spaces);
    draw_matching_heap_type(config, spaces.types, ty, u)
}

/// Draws a reference type that is a subtype of `ty` over the types of `spaces`. See the standard,
/// section Validation, Matching, Reference Types; heap types are compared as in
/// [`TypeSpace::heap_type_is_sub_type`].
///
/// The result is nullable exactly if `ty` is. If `ty` is non-nullable and `config` enables
/// non-nullable references, the heap type is that of `ty` or one that a struct type or a function
/// of `spaces` grounds.
pub fn arbitrary_matching_ref_type(
    alloc: Global,
    config: &Config,
    spaces: &Spaces<'_>,
    ty: RefType,
    u: &mut Unstructured<'_>,
) -> Result<RefType, Error>
    // The draw.
    ensures draws { Draws
        (matching_ref_type_at config.now (standing_in config.now spaces.now) ty u.old)
        result u.old u.new }

    // Subtyping, references and sharing.
    ensures below { IfOk result (λ drawn. IsRefBelow spaces.now.types.now.types drawn ty) }
    ensures nullable { IfOk result (λ drawn. drawn.nullable ≡ ty.nullable) }
    ensures granted { IsTrue config.now.non_nullable_enabled → ty.nullable ≡ false
        → IfOk result (λ drawn. (drawn.heap_type ≡ ty.heap_type)
        ⊎ IsGrounded (standing_in config.now spaces.now) drawn.heap_type) }
    ensures shared { IfOk result (λ drawn.
        IsHeapTypeShared spaces.now.types.now.types drawn.heap_type
        ↔ IsHeapTypeShared spaces.now.types.now.types ty.heap_type) }

    // Validity.
    ensures valid { IfOk result (StaysValid (IsRefTypeValid (features_of config.now))
        (features_of config.now) spaces.now.types.now.types ty) }
    ensures stands { IfOk result (λ drawn. IsInRange spaces.now.types.now.types ty.heap_type
        → IsInRange spaces.now.types.now.types drawn.heap_type) }
{
    orderly(spaces);
    let call = CallGrounds::over(alloc, config, spaces)?;
    let standing = call.scope();
    let drawn = draw_matching_ref_type(alloc, config, &standing, ty, u);
    drop(call);
    drawn
}

/// Draws a value type that is a subtype of `ty` over the types of `spaces`. For a number or a
/// vector this is `ty` itself. See the standard, section Validation, Matching, Value Types; heap
/// types are compared as in [`TypeSpace::heap_type_is_sub_type`].
pub fn arbitrary_matching_val_type(
    alloc: Global,
    config: &Config,
    spaces: &Spaces<'_>,
    ty: ValType,
    u: &mut Unstructured<'_>,
) -> Result<ValType, Error>
    // The draw.
    ensures draws { Draws
        (matching_val_type_at config.now (standing_in config.now spaces.now) ty u.old)
        result u.old u.new }

    // Subtyping, references and sharing.
    ensures below { IfOk result (λ drawn. IsValBelow spaces.now.types.now.types drawn ty) }
    ensures granted { IsGranted config.now (standing_in config.now spaces.now) ty
        → IfOk result (IsGranted config.now (standing_in config.now spaces.now)) }
    ensures shared { IfOk result (λ drawn.
        IsShareable spaces.now.types.now.types drawn ↔ IsShareable spaces.now.types.now.types ty) }

    // Validity.
    ensures valid { IfOk result (StaysValid (IsValTypeValid (features_of config.now))
        (features_of config.now) spaces.now.types.now.types ty) }
    ensures stands { IfOk result (λ drawn. IsValInRange spaces.now.types.now.types ty
        → IsValInRange spaces.now.types.now.types drawn) }
{
    orderly(spaces);
    let call = CallGrounds::over(alloc, config, spaces)?;
    let standing = call.scope();
    let drawn = draw_matching_val_type(alloc, config, &standing, ty, u);
    drop(call);
    drawn
}

/// Draws a storage type that matches `ty` over the types of `spaces`. For a packed type this is
/// `ty` itself. See the standard, section Validation, Matching, Field Types; heap types are
/// compared as in [`TypeSpace::heap_type_is_sub_type`].
pub fn arbitrary_matching_storage_type(
    alloc: Global,
    config: &Config,
    spaces: &Spaces<'_>,
    ty: StorageType,
    u: &mut Unstructured<'_>,
) -> Result<StorageType, Error>
    // The draw.
    ensures draws { Draws
        (matching_storage_type_at config.now (standing_in config.now spaces.now) ty u.old)
        result u.old u.new }

    // Subtyping, references and sharing.
    ensures below { IfOk result (λ drawn. IsStorageMatch spaces.now.types.now.types drawn ty) }
    ensures granted { All (IsGranted config.now (standing_in config.now spaces.now))
        (values_of_storage ty)
        → IfOk result (λ drawn.
        All (IsGranted config.now (standing_in config.now spaces.now)) (values_of_storage drawn)) }
    ensures shared { IfOk result (λ drawn. IsStorageShareable spaces.now.types.now.types drawn
        ↔ IsStorageShareable spaces.now.types.now.types ty) }

    // Validity.
    ensures valid { IfOk result (StaysValid (IsStorageValid (features_of config.now))
        (features_of config.now) spaces.now.types.now.types ty) }
    ensures stands { IfOk result (λ drawn. IsStorageInRange spaces.now.types.now.types ty
        → IsStorageInRange spaces.now.types.now.types drawn) }
{
    orderly(spaces);
    let call = CallGrounds::over(alloc, config, spaces)?;
    let standing = call.scope();
    let drawn = draw_matching_storage_type(alloc, config, &standing, ty, u);
    drop(call);
    drawn
}

/// Draws a field type that matches `field` over the types of `spaces`. For a mutable field this is
/// `field` itself. See the standard, section Validation, Matching, Field Types; heap types are
/// compared as in [`TypeSpace::heap_type_is_sub_type`].
pub fn arbitrary_matching_field_type(
    alloc: Global,
    config: &Config,
    spaces: &Spaces<'_>,
    field: FieldType,
    u: &mut Unstructured<'_>,
) -> Result<FieldType, Error>
    // The draw.
    ensures draws { Draws
        (matching_field_type_at config.now (standing_in config.now spaces.now) field u.old)
        result u.old u.new }

    // Subtyping, references and sharing.
    ensures below { IfOk result (λ drawn. IsFieldMatch spaces.now.types.now.types drawn field) }
    ensures granted { All (IsGranted config.now (standing_in config.now spaces.now))
        (values_of_storage field.element_type)
        → IfOk result (λ drawn. All (IsGranted config.now (standing_in config.now spaces.now))
        (values_of_storage drawn.element_type)) }
    ensures shared { IfOk result (λ drawn.
        IsStorageShareable spaces.now.types.now.types drawn.element_type
        ↔ IsStorageShareable spaces.now.types.now.types field.element_type) }

    // Validity.
    ensures valid { IfOk result (StaysValid (IsFieldValid (features_of config.now))
        (features_of config.now) spaces.now.types.now.types field) }
    ensures stands { IfOk result (λ drawn. IsFieldInRange spaces.now.types.now.types field
        → IsFieldInRange spaces.now.types.now.types drawn) }
{
    orderly(spaces);
    let call = CallGrounds::over(alloc, config, spaces)?;
    let standing = call.scope();
    let drawn = draw_matching_field_type(alloc, config, &standing, field, u);
    drop(call);
    drawn
}

/// Draws a function type that matches `function` over the types of `spaces`: supertypes of its
/// parameters, and subtypes of its results. See the standard, section Validation, Matching,
/// Composite Types; heap types are compared as in [`TypeSpace::heap_type_is_sub_type`].
pub fn arbitrary_matching_func_type(
    alloc: Global,
    config: &Config,
    spaces: &Spaces<'_>,
    function: &FuncType,
    u: &mut Unstructured<'_>,
) -> Result<FuncType, Error>
    // The draw.
    ensures draws { Draws
        (matching_func_type_at config.now (standing_in config.now spaces.now) function.now u.old)
        result u.old u.new }

    // Subtyping, references and sharing.
    ensures below { IfOk result (λ drawn.
        IsFuncMatch spaces.now.types.now.types drawn function.now) }
    ensures granted { All (IsGranted config.now (standing_in config.now spaces.now))
        function.now.results
        → IfOk result (λ drawn.
        All (IsGranted config.now (standing_in config.now spaces.now)) (values_of (Func drawn))) }
    ensures shared { IfOk result (λ drawn. IsFuncShareable spaces.now.types.now.types drawn
        ↔ IsFuncShareable spaces.now.types.now.types function.now) }

    // Validity.
    ensures valid { IfOk result (StaysValid (IsFuncTypeValid (features_of config.now))
        (features_of config.now) spaces.now.types.now.types function.now) }
    ensures stands { IfOk result (λ drawn. IsFuncInRange spaces.now.types.now.types function.now
        → IsFuncInRange spaces.now.types.now.types drawn) }
{
    orderly(spaces);
    let call = CallGrounds::over(alloc, config, spaces)?;
    let standing = call.scope();
    let drawn = draw_matching_func_type(alloc, config, &standing, function, u);
    drop(call);
    drawn
}
