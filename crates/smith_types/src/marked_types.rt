ghost use Rattle.std.specs.Prelude.{◌≡◌, ◌+◌, ◌++◌, ◌<◌, ◌≤◌, ◌^◌, ℕ, List, [], ◌∷◌, ◌&&◌, false, length};
ghost use Rattle.std.specs.Prelude.{OnOk, IfErr};
ghost use Rattle.std.specs.Prelude.{vec_len, vec_capacity, if◌then◌else◌};
ghost use Rattle.smith_syntax.specs.declared.composite_type.SubType.{SubType as ListedType};
ghost use Rattle.smith_types.specs.declared.ground.Ground.{Ground as Mark};
ghost use Rattle.smith_types.specs.Grounds.{below_at, is_shared_as, is_marked, indices_where};
ghost use Rattle.smith_types.specs.Grounds.{AreMarkedTypes, HasIndexRoom};

use crate::ground::Ground;
use smith_bytes::Error;
use smith_syntax::SubType;
use std::alloc::Global;

// The indices of the marked types, in order: of unshared types (`plain`) and of shared types.
#[derive(Drop)]
pub(crate) struct MarkedTypes {
    pub(crate) plain: Vec<u32>,
    pub(crate) shared: Vec<u32>,
}

impl MarkedTypes {
    // Creates the indices of no types. Does not allocate.
    pub(crate) fn none(alloc: Global) -> MarkedTypes
        ensures plain { result.plain.items ≡ [] }
        ensures shared { result.shared.items ≡ [] }
    {
        MarkedTypes {
            plain: Vec::new(alloc),
            shared: Vec::new(alloc),
        }
    }

    // Returns the indices of the marked types with the sharedness `shared`.
    pub(crate) fn of(&self, shared: bool) -> &[u32]
        ensures { (types : List ListedType) (grounds : List Mark) (count : ℕ)
            → AreMarkedTypes types grounds count self.now
            → result.now ≡ indices_where (is_marked types grounds shared) 0 count }
    {
        if shared {
            self.shared.as_slice()
        } else {
            self.plain.as_slice()
        }
    }

    // Reserves room for the indices of `count` types.
    pub(crate) fn make_room(&mut self, count: usize) -> Result<(), Error>
        ensures plain { self.new.plain.items ≡ self.old.plain.items }
        ensures shared { self.new.shared.items ≡ self.old.shared.items }
        ensures room { OnOk result (HasIndexRoom count self.new) }
        ensures memory { IfErr result (λ e. e ≡ Error.Memory) }
    {
        self.plain.reserve(count.saturating_sub(self.plain.len()))?;
        self.shared
            .reserve(count.saturating_sub(self.shared.len()))?;
        Ok(())
    }

    // Updates the indices with the type `added`, the next one after `types`. `grounds` are the
    // marks of all these types, `own` is the mark of `added`, and `changed` is whether marks of
    // other types may have changed. Requires room for one more index.
    pub(crate) fn note(
        &mut self,
        changed: bool,
        own: bool,
        types: &[SubType],
        added: &SubType,
        grounds: &[Ground],
    )
        requires few { length types.now < 2 ^ 32 }
        requires long { length types.now ≤ length grounds.now }
        requires own { below_at grounds.now (length types.now) ≡ own }
        requires room { HasIndexRoom (length types.now + 1) self.old }
        requires marked { changed ≡ false
            → AreMarkedTypes types.now grounds.now (length types.now) self.old }
        ensures { AreMarkedTypes (types.now ++ added.now ∷ []) grounds.now
            (length types.now + 1) self.new }
    {
        self.refresh(changed, types, grounds);
        if !own {
            return;
        }
        self.push(added.composite_type.shared, types.len() as u32);
    }

    // Lists the indices of the marked types of `types` again if `changed` is `true`.
    fn refresh(&mut self, changed: bool, types: &[SubType], grounds: &[Ground])
        requires few { length types.now < 2 ^ 32 }
        requires long { length types.now ≤ length grounds.now }
        requires room { HasIndexRoom (length types.now + 1) self.old }
        requires marked { changed ≡ false
            → AreMarkedTypes types.now grounds.now (length types.now) self.old }
        ensures marked { AreMarkedTypes types.now grounds.now (length types.now) self.new }
        ensures room { HasIndexRoom (length types.now + 1) self.new }
    {
        if changed {
            list_marked(false, types, grounds, &mut self.plain);
            list_marked(true, types, grounds, &mut self.shared);
        }
    }

    // Appends `index` to the indices with the sharedness `shared`. Requires room.
    fn push(&mut self, shared: bool, index: u32)
        requires plain { vec_len self.old.plain < vec_capacity self.old.plain }
        requires shared { vec_len self.old.shared < vec_capacity self.old.shared }
        ensures plain { self.new.plain.items
            ≡ self.old.plain.items ++ (if shared then [] else index ∷ []) }
        ensures shared { self.new.shared.items
            ≡ self.old.shared.items ++ (if shared then index ∷ [] else []) }
    {
        push_if(!shared, index, &mut self.plain);
        push_if(shared, index, &mut self.shared);
    }
}

// Lists the indices of the marked types of `types` with the sharedness `shared` in `marked`.
// Requires room for an index of each type.
fn list_marked(shared: bool, types: &[SubType], grounds: &[Ground], marked: &mut Vec<u32>)
    requires few { length types.now < 2 ^ 32 }
    requires long { length types.now ≤ length grounds.now }
    requires room { length types.now ≤ vec_capacity marked.old }
    ensures listed { marked.new.items
        ≡ indices_where (is_marked types.now grounds.now shared) 0 (length types.now) }
    ensures room { vec_capacity marked.new ≡ vec_capacity marked.old }
{
    marked.clear();
    for index in 0..types.len() {
        let wanted = is_marked_as(shared, &types[index], grounds[index]);
        push_if(wanted, index as u32, marked);
    }
}

// Appends `index` to `indices` if `wanted` is `true`. Requires room.
fn push_if(wanted: bool, index: u32, indices: &mut Vec<u32>)
    requires room { vec_len indices.old < vec_capacity indices.old }
    ensures items { indices.new.items
        ≡ indices.old.items ++ (if wanted then index ∷ [] else []) }
    ensures len { vec_len indices.new ≤ vec_len indices.old + 1 }
    ensures capacity { vec_capacity indices.new ≡ vec_capacity indices.old }
{
    if wanted {
        indices.push_reserved(index);
    }
}

// Returns whether `ty` has the sharedness `shared` and is marked by `ground`.
fn is_marked_as(shared: bool, ty: &SubType, ground: Ground) -> bool
    ensures { result ≡ (ground.below && is_shared_as shared ty.now) }
{
    ground.below && is_shared_as(shared, ty)
}

// Returns whether `ty` has the sharedness `shared`.
fn is_shared_as(shared: bool, ty: &SubType) -> bool
    ensures { result ≡ is_shared_as shared ty.now }
{
    if shared {
        ty.composite_type.shared
    } else {
        !ty.composite_type.shared
    }
}
