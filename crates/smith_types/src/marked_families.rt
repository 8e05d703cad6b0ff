ghost use Rattle.std.specs.Prelude.{◌≡◌, ◌++◌, ◌<◌, ℕ, List, [], ◌∷◌, false, length};
ghost use Rattle.std.specs.Prelude.{OnOk, IfErr, IfSome};
ghost use Rattle.smith_syntax.specs.declared.composite_type.SubType.{SubType as ListedType};
ghost use Rattle.smith_types.specs.declared.ground.Ground.{Ground as Mark};
ghost use Rattle.smith_types.specs.Grounds.{below_at, indices_where};
ghost use Rattle.smith_types.specs.MarkedFamilies.{is_marked_below, AreMarkedFamilies};
ghost use Rattle.smith_types.specs.MarkedFamilies.{AreFamilyLists, HasFamilyRoom};

use smith_bytes::Error;
use std::alloc::Global;

// For each type, the indices of its marked direct subtypes, in order.
#[derive(Drop)]
pub(crate) struct MarkedFamilies {
    pub(crate) alloc: Global,
    // Whether `lists` is up to date, which ends when a type marks an earlier type. A valid type
    // never does: if it is a struct type whose fields all have defaults, so is its supertype.
    pub(crate) known: bool,
    // The lists of the first types, at least up to the last that has marked direct subtypes.
    pub(crate) lists: Vec<Vec<u32>>,
}

impl MarkedFamilies {
    // Creates the lists of no types. Does not allocate.
    pub(crate) fn none(alloc: Global) -> MarkedFamilies
        ensures { result.lists.items ≡ [] }
    {
        MarkedFamilies {
            alloc,
            known: true,
            lists: Vec::new(alloc),
        }
    }

    // Returns the indices of the marked direct subtypes of the type `index`, in order, or `None` if
    // they are not known.
    pub(crate) fn of(&self, index: u32) -> Option<&[u32]>
        ensures { (types : List ListedType) (grounds : List Mark)
            → AreMarkedFamilies types grounds self.now
            → IfSome result (λ indices. indices.now
            ≡ indices_where (is_marked_below types grounds index) 0 (length types)) }
    {
        if !self.known {
            return None;
        }
        match self.lists.get(index as usize) {
            Some(list) => Some(list.as_slice()),
            None => Some(&[]),
        }
    }

    // Reserves room for one more direct subtype of the type `supertype`, if there is one.
    pub(crate) fn make_room(&mut self, supertype: Option<u32>) -> Result<(), Error>
        ensures kept { (types : List ListedType) (grounds : List Mark)
            → AreMarkedFamilies types grounds self.old → AreMarkedFamilies types grounds self.new }
        ensures room { OnOk result (HasFamilyRoom supertype self.new.lists.items) }
        ensures memory { IfErr result (λ e. e ≡ Error.Memory) }
    {
        if let Some(index) = supertype {
            extend_lists(self.alloc, index, &mut self.lists)?;
            self.lists[index as usize].reserve(1)?;
        }
        Ok(())
    }

    // Updates the lists with the next type `index`, whose supertype is `supertype`. `own` is its
    // mark, and `changed` is whether marks of other types may have changed. Requires room for one
    // more direct subtype.
    pub(crate) fn note(&mut self, changed: bool, own: bool, supertype: Option<u32>, index: u32)
        requires room { HasFamilyRoom supertype self.old.lists.items }
        ensures { (types : List ListedType) (added : ListedType) (old new : List Mark)
            → added.supertype ≡ supertype → index ≡ length types
            → (changed ≡ false → (j : ℕ) → j < length types → below_at new j ≡ below_at old j)
            → below_at new (length types) ≡ own → AreMarkedFamilies types old self.old
            → AreMarkedFamilies (types ++ added ∷ []) new self.new }
    {
        if changed {
            self.known = false;
            return;
        }
        if !own {
            return;
        }
        if let Some(above) = supertype {
            self.lists[above as usize].push_reserved(index);
        }
    }
}

// Extends `lists` up to the type `index`.
fn extend_lists(alloc: Global, index: u32, lists: &mut Vec<Vec<u32>>) -> Result<(), Error>
    ensures kept { (types : List ListedType) (grounds : List Mark)
        → AreFamilyLists types grounds lists.old.items
        → AreFamilyLists types grounds lists.new.items }
    ensures long { OnOk result (index < length lists.new.items) }
    ensures memory { IfErr result (λ e. e ≡ Error.Memory) }
{
    while lists.len() <= index as usize {
        lists.push(Vec::new(alloc))?;
    }
    Ok(())
}
