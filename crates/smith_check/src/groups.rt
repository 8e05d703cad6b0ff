ghost use Rattle.std.specs.Prelude.{◌≡◌, ◌↔◌, ◌+◌, ◌<◌, ◌≤◌, ◌^◌, length, take, IsTrue, IfOk, IfErr};
ghost use Rattle.smith_types.specs.Syntax.FeatureBits.{features_in};
ghost use Rattle.smith_types.specs.Groups.{space_of};
ghost use Rattle.smith_check_types.specs.TypeSections.{IsTypeSectionValid};

use smith_bytes::Error;
use smith_check_types::check_types;
use smith_types::{Items, SubType, WasmFeatures};
use std::alloc::Global;

/// The number of types from which on there are too many.
const MOST_TYPES: usize = 0xFFFF_FFFF;

/// Returns whether `groups` have fewer than 2^32 - 1 types in total.
pub(crate) fn are_few(groups: &[Items<SubType>]) -> bool
    ensures { IsTrue result ↔ (length (space_of groups.now).types + 1 < 2 ^ 32) }
{
    let mut count: usize = 0;
    for group in groups {
        if group.len() >= MOST_TYPES - count {
            return false;
        }
        count += group.len();
    }
    true
}

/// Returns the index of the first wrong group of `groups`, which aren't all valid. Groups are tried by
/// halves: as many times as their number has binary digits.
pub(crate) fn first_wrong_group(
    alloc: Global,
    features: WasmFeatures,
    groups: &[Items<SubType>],
) -> Result<usize, Error>
    requires few { length (space_of groups.now).types + 1 < 2 ^ 32 }
    requires wrong { ¬ IsTypeSectionValid (features_in features) groups.now }
    ensures before { IfOk result (λ group.
        IsTypeSectionValid (features_in features) (take group groups.now)) }
    ensures first { IfOk result (λ group.
        ¬ IsTypeSectionValid (features_in features) (take (group + 1) groups.now)) }
    ensures within { IfOk result (λ group. group < length groups.now) }
    ensures memory { IfErr result (λ e. e ≡ Error.Memory) }
{
    let mut valid = 0;
    let mut wrong = groups.len();
    while wrong - valid > 1 {
        let middle = valid + (wrong - valid) / 2;
        let found = check_types(alloc, features, &groups[..middle])?;
        match found {
            Some(_) => valid = middle,
            None => wrong = middle,
        }
    }
    Ok(valid)
}

/// Returns the index of the first wrong group of `groups`, where the one at `several` is wrong because of the
/// number of its supertypes.
pub(crate) fn first_wrong_up_to(
    alloc: Global,
    features: WasmFeatures,
    groups: &[Items<SubType>],
    several: usize,
) -> Result<usize, Error>
    requires { length (space_of groups.now).types + 1 < 2 ^ 32 }
    ensures before { IfOk result (λ group.
        IsTypeSectionValid (features_in features) (take group groups.now)) }
    ensures first { IfOk result (λ group. group < several
        → ¬ IsTypeSectionValid (features_in features) (take (group + 1) groups.now)) }
    ensures within { IfOk result (λ group. group ≤ several) }
    ensures memory { IfErr result (λ e. e ≡ Error.Memory) }
{
    let front = &groups[..several.min(groups.len())];
    let found = check_types(alloc, features, front)?;
    match found {
        Some(_types) => Ok(several),
        None => {
            let group = first_wrong_group(alloc, features, front)?;
            Ok(group)
        }
    }
}
