ghost use Rattle.std.specs.Prelude.{◌≡◌, ◌↔◌, ◌≤◌, ◌+◌, ℕ, IsTrue, All, false, length, Some};
ghost use Rattle.std.specs.Prelude.{slice_get};
ghost use Rattle.smith_types.specs.Syntax.FeatureBits.{features_in};
ghost use Rattle.smith_types.specs.Flags.{IsInnerEnabled, IsSubTypeEnabled};
ghost use Rattle.smith_types.specs.Types.{AreConsecutive, next_start};
ghost use Rattle.smith_types.specs.Subtyping.{IsValInRange};
ghost use Rattle.smith_types.specs.Matching.{IsInnerInRange};
ghost use Rattle.smith_types.specs.ValidTypes.{
  values_of,
  IsSupertypeValid,
  IsTypeValid,
  IsGroupValid,
  AreTypesValid,
};
ghost use Rattle.smith_validity.specs.Decided.{AreInRange, AreMembersValid};
ghost use Rattle.smith_types.specs.Syntax.composite_type.SubType.{SubType};

use crate::held_values::all_values_hold;
use crate::valid_values::{ShareableValue, StandingValue, ValidValue};
use smith_types::{CompositeInnerType, SubType, TypeSpace, WasmFeatures, start_after};
use std::ops::Range;

/// Returns whether the types of `space` are valid for `features`, in groups that cover them
/// (Validation, Types, and Validation, Modules). The conditions on features and sharedness are
/// rules of this project. Heap types are compared as in [`TypeSpace::heap_type_is_sub_type`].
pub fn are_types_valid(features: WasmFeatures, space: &TypeSpace) -> bool
    ensures { IsTrue result ↔ AreTypesValid (features_in features) space.now }
{
    let types = space.types();
    let groups = space.rec_groups();
    if start_after(groups) != types.len() {
        return false;
    }
    if !are_in_range(types) {
        return false;
    }
    are_groups_valid(features, space, groups)
}

// Returns whether `types` refer only to types that exist.
fn are_in_range(types: &[SubType]) -> bool
    ensures { IsTrue result ↔ All (λ (t : SubType).
        All (IsValInRange types.now) (values_of t.composite_type.inner)) types.now }
{
    types.iter().all(|ty| all_values_hold(&StandingValue { types }, &ty.composite_type.inner))
}

fn are_groups_valid(features: WasmFeatures, space: &TypeSpace, groups: &[Range<usize>]) -> bool
    requires in_range { AreInRange space.now.types }
    requires consecutive { AreConsecutive 0 groups.now }
    requires whole { next_start groups.now ≡ length space.now.types }
    ensures { IsTrue result ↔ All (IsGroupValid (features_in features) space.now.types) groups.now }
{
    for group in groups {
        if !is_group_valid(features, space, group) {
            return false;
        }
    }
    true
}

fn is_group_valid(features: WasmFeatures, space: &TypeSpace, group: &Range<usize>) -> bool
    requires in_range { AreInRange space.now.types }
    requires ordered { group.now.start ≤ group.now.end }
    requires inside { group.now.end ≤ length space.now.types }
    ensures { IsTrue result ↔ IsGroupValid (features_in features) space.now.types group.now }
{
    are_members_valid(features, space, group) && is_size_enabled(features, group)
}

fn are_members_valid(features: WasmFeatures, space: &TypeSpace, group: &Range<usize>) -> bool
    requires in_range { AreInRange space.now.types }
    requires inside { group.now.end ≤ length space.now.types }
    ensures { IsTrue result ↔ AreMembersValid (features_in features) space.now.types group.now }
{
    let types = space.types();
    for i in group.start..group.end {
        if !is_type_valid(features, space, group.end, &types[i]) {
            return false;
        }
    }
    true
}

// Returns whether `group` has exactly one type, as required without garbage collection.
fn is_size_enabled(features: WasmFeatures, group: &Range<usize>) -> bool
    requires ordered { group.now.start ≤ group.now.end }
    ensures { IsTrue result
        ↔ ((features_in features).gc ≡ false → group.now.end ≡ group.now.start + 1) }
{
    features.contains(WasmFeatures::GC) || group.end - group.start == 1
}

// Returns whether the type `ty` is valid in a group that ends at `end`.
fn is_type_valid(features: WasmFeatures, space: &TypeSpace, end: usize, ty: &SubType) -> bool
    requires in_range { AreInRange space.now.types }
    requires stands { IsInnerInRange space.now.types ty.now.composite_type.inner }
    ensures { IsTrue result ↔ IsTypeValid (features_in features) space.now.types end ty.now }
{
    let composite_type = &ty.composite_type;
    is_sub_type_enabled(features, ty)
        && all_values_hold(&ValidValue { features, end }, &composite_type.inner)
        && is_supertype_valid(space, ty)
        && (!composite_type.shared
            || all_values_hold(
                &ShareableValue {
                    types: space.types(),
                },
                &composite_type.inner,
            ))
}

fn is_sub_type_enabled(features: WasmFeatures, ty: &SubType) -> bool
    ensures { IsTrue result ↔ IsSubTypeEnabled (features_in features) ty.now }
{
    is_inner_enabled(features, &ty.composite_type.inner)
        && (ty.is_final || features.contains(WasmFeatures::GC))
        && (ty.supertype.is_none() || features.contains(WasmFeatures::GC))
        && (!ty.composite_type.shared || features.contains(WasmFeatures::SHARED_EVERYTHING_THREADS))
}

fn is_inner_enabled(features: WasmFeatures, inner: &CompositeInnerType) -> bool
    ensures { IsTrue result ↔ IsInnerEnabled (features_in features) inner.now }
{
    match inner {
        CompositeInnerType::Func(function) => {
            function.results.len() <= 1 || features.contains(WasmFeatures::MULTI_VALUE)
        }
        _ => features.contains(WasmFeatures::GC),
    }
}

// Returns whether the declared supertype of `ty`, if any, exists, is not final, and is matched by
// `ty`.
fn is_supertype_valid(space: &TypeSpace, ty: &SubType) -> bool
    requires in_range { AreInRange space.now.types }
    requires stands { IsInnerInRange space.now.types ty.now.composite_type.inner }
    ensures { IsTrue result ↔ ((s : ℕ) → ty.now.supertype ≡ Some s → (u : SubType)
        × (slice_get space.now.types s ≡ Some u) × IsSupertypeValid space.now.types ty.now u) }
{
    match ty.supertype {
        Some(index) => match space.types().get(index as usize) {
            Some(supertype) => may_be_below(space, ty, supertype),
            None => false,
        },
        None => true,
    }
}

fn may_be_below(space: &TypeSpace, ty: &SubType, supertype: &SubType) -> bool
    requires stands { IsInnerInRange space.now.types ty.now.composite_type.inner }
    requires upper { IsInnerInRange space.now.types supertype.now.composite_type.inner }
    ensures { IsTrue result ↔ IsSupertypeValid space.now.types ty.now supertype.now }
{
    !supertype.is_final
        && space.composite_type_matches(&ty.composite_type, &supertype.composite_type)
}
