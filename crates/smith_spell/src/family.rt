ghost use Rattle.std.specs.Prelude.{◌≡◌, ◌↔◌, ◌<◌, ◌≤◌, ◌+◌, ◌++◌, ◌^◌, false, List, [], IsTrue};
ghost use Rattle.std.specs.Prelude.{IfOk, IfErr, OnErr, MatchOption, All, length};
ghost use Rattle.std.specs.List.{flat_map};
ghost use Rattle.smith_types.specs.Groups.{space_of};
ghost use Rattle.smith_types.specs.Syntax.composite_type.SubType.{SubType as Sub};
ghost use Rattle.smith_spell.specs.Family.{IsInFamily};
ghost use Rattle.smith_spell.specs.Decided.{AreMembersAfter, IsKnown, AreGroupsInFamily};

use crate::earlier::{Earlier, Known};
use crate::member_type::is_member_type;
use smith_bytes::Error;
use smith_config::Config;
use smith_types::{Items, SubType, TypeSpace, type_space_of};
use smith_validity::are_funcs_valid;
use std::alloc::Global;

/// Returns the type space of `groups` if `groups` and `funcs` are in the family of `config`, or
/// `None`. Allocates only if `groups` are the groups of a member, and `funcs` are few enough.
pub(crate) fn member_space(
    alloc: Global,
    config: &Config,
    groups: &[Items<SubType>],
    funcs: &[u32],
) -> Result<Option<TypeSpace>, Error>
    requires few { config.now.max_types ≤ 2 ^ 31 }
    ensures found { IfOk result (λ found.
        MatchOption found (¬ IsInFamily config.now groups.now funcs.now) (λ space.
        (space ≡ space_of groups.now) × IsInFamily config.now groups.now funcs.now)) }
    ensures memory { IfErr result (λ e. e ≡ Error.Memory) }
    ensures allowed { OnErr result
        (IsInFamily config.now groups.now [] × (length funcs.now ≤ config.now.max_funcs)) }
{
    if !are_groups_in_family(config, groups) {
        return Ok(None);
    }
    if funcs.len() > config.max_funcs {
        return Ok(None);
    }
    let Some(space) = type_space_of(alloc, groups)? else {
        return Ok(None);
    };
    if !are_funcs_valid(space.types(), funcs) {
        return Ok(None);
    }
    Ok(Some(space))
}

/// Returns whether a member of the family may have the groups `groups`. Does not allocate.
fn are_groups_in_family(config: &Config, groups: &[Items<SubType>]) -> bool
    ensures { IsTrue result ↔ AreGroupsInFamily config.now groups.now }
{
    are_filled(groups)
        && are_sizes_enabled(config, groups)
        && are_types_few(config.max_types, groups)
        && are_members(config, groups)
}

fn are_filled(groups: &[Items<SubType>]) -> bool
    ensures { IsTrue result ↔ All (λ (group : List Sub). 0 < length group) groups.now }
{
    groups.iter().all(|group| !group.is_empty())
}

// Returns whether each of `groups` has one type, as required without garbage collection.
fn are_sizes_enabled(config: &Config, groups: &[Items<SubType>]) -> bool
    ensures { IsTrue result ↔ (config.now.gc_enabled ≡ false
        → All (λ (group : List Sub). length group ≡ 1) groups.now) }
{
    config.gc_enabled || are_single(groups)
}

fn are_single(groups: &[Items<SubType>]) -> bool
    ensures { IsTrue result ↔ All (λ (group : List Sub). length group ≡ 1) groups.now }
{
    groups.iter().all(|group| group.len() == 1)
}

fn are_types_few(most: usize, groups: &[Items<SubType>]) -> bool
    ensures { IsTrue result ↔ (length (flat_map (λ (group : List Sub). group) groups.now) ≤ most) }
{
    let mut left = most;
    for group in groups {
        if group.len() > left {
            return false;
        }
        left -= group.len();
    }
    true
}

fn are_members(config: &Config, groups: &[Items<SubType>]) -> bool
    requires { length (flat_map (λ (group : List Sub). group) groups.now) < 2 ^ 64 }
    ensures { IsTrue result
        ↔ AreMembersAfter config.now [] (flat_map (λ (group : List Sub). group) groups.now) }
{
    let mut known = Known::none();
    for place in 0..groups.len() {
        let group = groups[place].as_slice();
        let Some(after) = known_after(config, &groups[..place], known, group) else {
            return false;
        };
        known = after;
    }
    true
}

// Returns the facts about the types of `groups` followed by the types of `group`, or `None` if a
// type of `group` is not allowed there. `known` are the facts about the types of `groups`.
fn known_after(
    config: &Config,
    groups: &[Items<SubType>],
    mut known: Known,
    group: &[SubType],
) -> Option<Known>
    requires known { IsKnown (flat_map (λ (group : List Sub). group) groups.now) known }
    requires room { known.count + length group.now < 2 ^ 64 }
    ensures { let before : List Sub = flat_map (λ (group : List Sub). group) groups.now in
        MatchOption result (¬ AreMembersAfter config.now before group.now) (λ after.
        AreMembersAfter config.now before group.now × IsKnown (before ++ group.now) after) }
{
    for place in 0..group.len() {
        let ty = &group[place];
        let earlier = Earlier::new(groups, &group[..place], known);
        if !is_member_type(config, &earlier, ty) {
            return None;
        }
        known = known.with(ty);
    }
    Some(known)
}
