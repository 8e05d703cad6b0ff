ghost use Rattle.std.specs.Prelude.{◌≡◌, ◌↔◌, ◌+◌, ◌<◌, ◌^◌, ℕ, IsTrue, Some, length};
ghost use Rattle.smith_types.specs.Groups.{space_of};
ghost use Rattle.smith_check_types.specs.TypeSections.{
  IsInScope,
  IsTypeInScope,
  AreMembersInScope,
  AreGroupsInScope,
};

use smith_types::{HeapType, Items, SubType, ValType};
use smith_validity::{Predicate, all_values_hold};

// Tests whether a value type refers to no type, or to a type before `end`.
#[derive(Clone, Copy)]
struct ScopedValue {
    end: usize,
}

impl Predicate<ValType> for ScopedValue {
    ghost meaning = { λ scoped value. IsInScope scoped.end value };

    fn holds(&self, item: &ValType) -> bool {
        match item {
            ValType::Ref(reference) => match reference.heap_type {
                HeapType::Abstract { shared: _, ty: _ } => true,
                HeapType::Concrete(index) | HeapType::Exact(index) => (index as usize) < self.end,
            },
            _ => true,
        }
    }
}

// Returns whether each type of `groups` refers only to types before the end of its group, and
// declares a supertype before itself, if any (Validation, Recursive Types).
pub(crate) fn are_groups_in_scope(groups: &[Items<SubType>]) -> bool
    requires few { length (space_of groups.now).types < 2 ^ 32 }
    ensures { IsTrue result ↔ AreGroupsInScope 0 groups.now }
{
    let mut start = 0;
    for group in groups {
        let members = group.as_slice();
        if !are_members_in_scope(start, members) {
            return false;
        }
        start += members.len();
    }
    true
}

fn are_members_in_scope(start: usize, group: &[SubType]) -> bool
    requires few { start + length group.now < 2 ^ 32 }
    ensures { IsTrue result ↔ AreMembersInScope (start + length group.now) start group.now }
{
    let end = start + group.len();
    let mut index = start;
    for ty in group {
        if !is_type_in_scope(end, index, ty) {
            return false;
        }
        index += 1;
    }
    true
}

fn is_type_in_scope(end: usize, index: usize, ty: &SubType) -> bool
    ensures { IsTrue result ↔ IsTypeInScope end index ty.now }
{
    all_values_hold(&ScopedValue { end }, &ty.composite_type.inner)
        && is_before(ty.supertype, index)
}

fn is_before(supertype: Option<u32>, index: usize) -> bool
    ensures { IsTrue result ↔ ((s : ℕ) → supertype ≡ Some s → s < index) }
{
    match supertype {
        Some(supertype) => (supertype as usize) < index,
        None => true,
    }
}
