ghost use Rattle.std.specs.Prelude.{◌≡◌, ◌+◌, ◌<◌, ◌^◌, ◌++◌, ℕ, List, Some, length, vec_len};
ghost use Rattle.std.specs.Prelude.{IfOk, IfErr, OnOk, bytes_eq, if◌then◌else◌};
ghost use Rattle.smith_types.specs.Groups.{space_of};
ghost use Rattle.smith_check_types.specs.Canonical.{AreCanonical};
ghost use Rattle.smith_check_types.specs.FirstGroups.{
  codes_after,
  known_start,
  start_among,
  numbers_from,
};

use crate::codes::codes_of_group;
use crate::first_groups::{first_start, push_numbers};
use smith_bytes::Error;
use smith_types::{Items, SubType};
use std::alloc::Global;
use std::collections::BTreeMap;

/// Returns the canonical index of each type of `groups`: the least index of a type that is equal to
/// it (Validation, Conventions, Rolling and Unrolling). Requires `groups` to have fewer than 2^32
/// types in total.
///
/// Each group is looked up once among the groups before it, so that the time is that of sorting the
/// groups by their contents.
pub fn canonical_indices(alloc: Global, groups: &[Items<SubType>]) -> Result<Items<u32>, Error>
    requires few { length (space_of groups.now).types < 2 ^ 32 }
    ensures canonical { IfOk result (λ indices. AreCanonical groups.now indices) }
    ensures memory { IfErr result (λ e. e ≡ Error.Memory) }
{
    let mut indices = Vec::new(alloc);
    let mut starts = BTreeMap::new(alloc);
    for group in groups {
        add_group(alloc, &mut indices, &mut starts, group.as_slice())?;
    }
    Ok(Items::from_vec(indices))
}

// Appends the canonical indices of `group`, the group after the types whose canonical indices are
// `indices`. `starts` holds where the groups so far are first.
fn add_group(
    alloc: Global,
    indices: &mut Vec<u32>,
    starts: &mut BTreeMap<Vec<u64>, u32>,
    group: &[SubType],
) -> Result<(), Error>
    requires few { vec_len indices.old + length group.now < 2 ^ 32 }
    requires known { start_among starts.old indices.old.items group.now + length group.now
        < 2 ^ 32 }
    ensures added { OnOk result (indices.new.items ≡ indices.old.items ++ numbers_from
        (start_among starts.old indices.old.items group.now) (length group.now)) }
    ensures starts { OnOk result ((other : List ℕ) → known_start starts.new other
        ≡ (if bytes_eq (codes_after indices.old.items group.now) other
        then Some (start_among starts.old indices.old.items group.now)
        else known_start starts.old other)) }
    ensures memory { IfErr result (λ e. e ≡ Error.Memory) }
{
    let codes = codes_of_group(alloc, indices.as_slice(), group)?;
    let start = first_start(starts, codes, indices.len() as u32)?;
    push_numbers(indices, start, group.len())
}
