ghost use Rattle.std.specs.Prelude.{◌≡◌, MatchOption};
ghost use Rattle.smith_check.specs.Supertypes.{HaveOneSupertype, IsFirstSeveral, is_single};

use smith_types::Items;

/// Returns whether no type of a group has several supertypes, by those after the first (Validation,
/// Recursive Types).
pub fn is_single(group: &[Items<u32>]) -> bool
    ensures { result ≡ is_single group.now }
{
    for further in group {
        if !further.as_slice().is_empty() {
            return false;
        }
    }
    true
}

/// Returns the index of the first of `groups` with a type of several supertypes, if there is one. The types
/// are given by their supertypes after the first.
pub(crate) fn first_several(groups: &[Items<Items<u32>>]) -> Option<usize>
    ensures { MatchOption result (HaveOneSupertype groups.now) (IsFirstSeveral groups.now) }
{
    for i in 0..groups.len() {
        if !is_single(groups[i].as_slice()) {
            return Some(i);
        }
    }
    None
}
