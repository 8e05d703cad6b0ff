ghost use Rattle.std.specs.Prelude.{◌≡◌, ◌+◌, ◌++◌, ◌<◌, ◌^◌, ℕ, List, length, IfOk, IfErr};
ghost use Rattle.std.specs.Prelude.{MatchBool, MatchOption};
ghost use Rattle.std.specs.List.{flat_map};
ghost use Rattle.smith_types.specs.Groups.{space_of, AreFollowing};

use crate::type_space::TypeSpace;
use smith_bytes::Error;
use smith_syntax::{CloneIn, Items, SubType};
use std::alloc::Global;

/// Creates the type space of `groups`. Requires `groups` to have fewer than 2^32 - 1 types in
/// total.
///
/// Returns `None` if a declared supertype does not precede its subtype, or differs from it in kind
/// or sharedness (Validation, Recursive Types). The condition on sharedness is a rule of this
/// project.
pub fn type_space_of(alloc: Global, groups: &[Items<SubType>]) -> Result<Option<TypeSpace>, Error>
    requires few { length (space_of groups.now).types + 1 < 2 ^ 32 }
    ensures found { IfOk result (λ found. MatchOption found
        (¬ AreFollowing (space_of groups.now).types) (λ space. space ≡ space_of groups.now)) }
    ensures memory { IfErr result (λ e. e ≡ Error.Memory) }
{
    let mut space = TypeSpace::new(alloc);
    for group in groups {
        let all = push_members(alloc, &mut space, group.as_slice())?;
        if !all {
            return Ok(None);
        }
        space.push_group()?;
    }
    Ok(Some(space))
}

// Adds `members` to `space` up to the first that may not follow the types before it. Returns
// whether all were added.
fn push_members(alloc: Global, space: &mut TypeSpace, members: &[SubType]) -> Result<bool, Error>
    requires few { length space.old.types + length members.now + 1 < 2 ^ 32 }
    ensures added { IfOk result (λ all.
        MatchBool all (space.new ≡ record space.old { types = space.old.types ++ members.now })
        (¬ AreFollowing (space.old.types ++ members.now))) }
    ensures memory { IfErr result (λ e. e ≡ Error.Memory) }
{
    for ty in members {
        if !space.may_follow(ty) {
            return Ok(false);
        }
        space.push_type(ty.clone_in(alloc)?)?;
    }
    Ok(true)
}
