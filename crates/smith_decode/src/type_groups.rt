ghost use Rattle.std.specs.Prelude.{◌≡◌, IfOk};
ghost use Rattle.smith_decode.specs.TypeGroups.{further_in, groups_further, groups_types, types_in};

use smith_binary_read::DeclaredType;
use smith_types::{Items, SubType};
use std::alloc::{AllocError, Global};

// The types of a group, and the supertypes of each past its first.
type Group = (Items<SubType>, Items<Items<u32>>);

// The same for all groups.
type Groups = (Items<Items<SubType>>, Items<Items<Items<u32>>>);

// Splits the types of a group from their supertypes past the first.
fn split_group(alloc: Global, group: Items<DeclaredType>) -> Result<Group, AllocError>
    ensures { IfOk result (λ r. r ≡ (types_in group, further_in group)) }
{
    let mut types = Vec::new(alloc);
    let mut further = Vec::new(alloc);
    for declared in group.into_vec() {
        let DeclaredType {
            sub_type,
            further_supertypes,
        } = declared;
        types.push(sub_type)?;
        further.push(further_supertypes)?;
    }
    Ok((Items::from_vec(types), Items::from_vec(further)))
}

/// Splits the types of groups from their supertypes past the first.
pub(crate) fn split_groups(
    alloc: Global,
    groups: Items<Items<DeclaredType>>,
) -> Result<Groups, AllocError>
    ensures { IfOk result (λ r. r ≡ (groups_types groups, groups_further groups)) }
{
    let mut types = Vec::new(alloc);
    let mut further = Vec::new(alloc);
    for group in groups.into_vec() {
        let (members, supertypes) = split_group(alloc, group)?;
        types.push(members)?;
        further.push(supertypes)?;
    }
    Ok((Items::from_vec(types), Items::from_vec(further)))
}
