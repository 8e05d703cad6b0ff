ghost use Rattle.std.specs.Prelude.{◌≡◌, ◌++◌, ◌<◌, ℕ, [], ◌∷◌, Some, length, OnOk, IfErr};
ghost use Rattle.smith_types.specs.Types.{IsOrderly};
ghost use Rattle.smith_types.specs.GroupedTypes.{MayFollow};
ghost use Rattle.smith_types.specs.Families.{AreFamilies};

use smith_bytes::Error;
use smith_syntax::SubType;

// The direct subtypes of a type, as a list that is linked from the last to the first.
#[derive(Clone, Copy)]
pub(crate) struct Family {
    // The number of types that declare this type as their supertype.
    pub(crate) count: u32,
    // The index of the last direct subtype. Meaningless if there is none.
    pub(crate) last: u32,
    // The index of the previous direct subtype of this type's own supertype. Meaningless if there
    // is none.
    pub(crate) previous: u32,
}

// Extends `families` up to the type `added`, the next one after `types`, if `added` has a
// supertype.
pub(crate) fn extend_families(
    types: &[SubType],
    added: &SubType,
    families: &mut Vec<Family>,
) -> Result<(), Error>
    requires { AreFamilies types.now families.old.items }
    ensures families { AreFamilies types.now families.new.items }
    ensures room { OnOk result ((supertype : ℕ) → added.now.supertype ≡ Some supertype
        → length types.now < length families.new.items) }
    ensures memory { IfErr result (λ e. e ≡ Error.Memory) }
{
    if added.supertype.is_none() {
        return Ok(());
    }
    while families.len() <= types.len() {
        families.push(Family {
            count: 0,
            last: 0,
            previous: 0,
        })?;
    }
    Ok(())
}

// Adds the type `added`, the next one after `types`, to the direct subtypes of its supertype, if it
// has one.
pub(crate) fn join_family(types: &[SubType], added: &SubType, families: &mut Vec<Family>)
    requires orderly { IsOrderly types.now }
    requires follows { MayFollow types.now added.now }
    requires families { AreFamilies types.now families.old.items }
    requires room { (supertype : ℕ) → added.now.supertype ≡ Some supertype
        → length types.now < length families.old.items }
    ensures { AreFamilies (types.now ++ added.now ∷ []) families.new.items }
{
    if let Some(supertype) = added.supertype {
        let above = families[supertype as usize];
        families[types.len()].previous = above.last;
        families[supertype as usize] = Family {
            count: above.count + 1,
            last: types.len() as u32,
            previous: above.previous,
        };
    }
}
