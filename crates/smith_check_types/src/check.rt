ghost use Rattle.std.specs.Prelude.{◌≡◌, ◌+◌, ◌<◌, ◌^◌, length, IfOk, IfErr, MatchOption};
ghost use Rattle.smith_types.specs.Syntax.FeatureBits.{features_in};
ghost use Rattle.smith_types.specs.Groups.{space_of};
ghost use Rattle.smith_types.specs.ValidTypes.{AreTypesValid};
ghost use Rattle.smith_check_types.specs.TypeSections.{IsTypeSectionValid};
ghost use Rattle.smith_check_types.specs.CheckedTypes.{AreChecked};

use crate::canonical::canonical_indices;
use crate::renamed::canonical_groups;
use crate::scope::are_groups_in_scope;
use smith_bytes::Error;
use smith_types::{Items, SubType, TypeSpace, WasmFeatures, type_space_of};
use smith_validity::are_types_valid;
use std::alloc::Global;

/// The types of a valid module.
#[derive(Drop)]
pub struct CheckedTypes {
    /// The canonical index of each type.
    pub indices: Items<u32>,
    /// The types, which refer to one another by canonical indices, in their groups.
    pub space: TypeSpace,
}

/// Checks the types of a module, given in their groups. Requires them to be fewer than 2^32 - 1 in
/// total.
///
/// Returns `None` if they are not valid for `features` (Validation, Types, and Validation, Modules).
/// Types of equal groups are equal. The conditions on features and sharedness are rules of this
/// project.
pub fn check_types(
    alloc: Global,
    features: WasmFeatures,
    groups: &[Items<SubType>],
) -> Result<Option<CheckedTypes>, Error>
    requires few { length (space_of groups.now).types + 1 < 2 ^ 32 }
    ensures decided { IfOk result (λ found. MatchOption found
        (¬ IsTypeSectionValid (features_in features) groups.now)
        (λ types. AreChecked (features_in features) groups.now types)) }
    ensures memory { IfErr result (λ e. e ≡ Error.Memory) }
{
    if !are_groups_in_scope(groups) {
        return Ok(None);
    }
    let indices = canonical_indices(alloc, groups)?;
    let places = indices.as_slice();
    let canonical = canonical_groups(alloc, places, groups)?;
    let made = type_space_of(alloc, canonical.as_slice())?;
    match made {
        Some(space) => Ok(checked_space(features, indices, space)),
        None => Ok(None),
    }
}

fn checked_space(
    features: WasmFeatures,
    indices: Items<u32>,
    space: TypeSpace,
) -> Option<CheckedTypes>
    ensures { MatchOption result (¬ AreTypesValid (features_in features) space)
        (λ types. AreTypesValid (features_in features) space
        × (types ≡ record { indices = indices; space = space })) }
{
    if are_types_valid(features, &space) {
        Some(CheckedTypes { indices, space })
    } else {
        None
    }
}
