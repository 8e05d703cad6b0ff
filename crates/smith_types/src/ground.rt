ghost use Rattle.std.specs.Prelude.{◌≡◌, ◌+◌, ◌++◌, ◌<◌, ℕ, [], ◌∷◌, None, Some, length, false};
ghost use Rattle.std.specs.Prelude.{true, vec_len, vec_capacity, if◌then◌else◌};
ghost use Rattle.smith_types.specs.Types.{IsOrderly};
ghost use Rattle.smith_types.specs.GroupedTypes.{MayFollow};
ghost use Rattle.smith_types.specs.Expressions.{unpacked};
ghost use Rattle.smith_types.specs.Grounded.{is_defaultable, are_defaultable};
ghost use Rattle.smith_types.specs.Grounds.{is_ground, kind_at, ground_kinds_with, AreGrounds};
ghost use Rattle.smith_types.specs.Grounds.{AreGroundKinds, AreClosed, AreMarked, below_at};
ghost use Rattle.smith_types.specs.Grounds.{AreMarkedTypes, HasIndexRoom};
ghost use Rattle.smith_types.specs.MarkedFamilies.{AreMarkedFamilies, HasFamilyRoom};

use crate::marked_families::MarkedFamilies;
use crate::marked_types::MarkedTypes;
use smith_syntax::{CompositeInnerType, FieldType, StorageType, SubType, ValType};

// The mark of a type in a type space: whether creating some struct without operands pushes a
// reference below the type.
#[derive(Clone, Copy)]
pub(crate) struct Ground {
    // Whether the type is a struct type whose fields all have defaults.
    pub(crate) own: bool,
    // Whether the type or one of its subtypes is such a struct type.
    pub(crate) below: bool,
}

// Whether any type is a struct type whose fields all have defaults, among unshared types (`plain`)
// and among shared types.
#[derive(Clone, Copy)]
pub(crate) struct GroundKinds {
    pub(crate) plain: bool,
    pub(crate) shared: bool,
}

impl GroundKinds {
    // Returns the kinds with one more type. `ground` is whether the type is such a struct type, and
    // `shared` whether it is shared.
    pub(crate) fn with(self, ground: bool, shared: bool) -> GroundKinds
        ensures { result ≡ ground_kinds_with ground shared self }
    {
        GroundKinds {
            plain: self.plain || (ground && !shared),
            shared: self.shared || (ground && shared),
        }
    }

    // Returns whether there is such a struct type with this sharedness.
    pub(crate) fn has(self, shared: bool) -> bool
        ensures { result ≡ kind_at self shared }
    {
        if shared { self.shared } else { self.plain }
    }
}

// Returns the kinds without any types.
pub(crate) fn no_grounds() -> GroundKinds
    ensures { result ≡ record { plain = false; shared = false } }
{
    GroundKinds {
        plain: false,
        shared: false,
    }
}

// Updates `grounds`, `kinds`, `marked` and `families` with the type `added`, the next one after
// `types`, if `kept` is `true`. Requires room in `grounds`, `marked` and `families`.
pub(crate) fn note_ground(
    kept: bool,
    types: &[SubType],
    added: &SubType,
    grounds: &mut Vec<Ground>,
    kinds: &mut GroundKinds,
    marked: &mut MarkedTypes,
    families: &mut MarkedFamilies,
)
    requires orderly { IsOrderly types.now }
    requires follows { MayFollow types.now added.now }
    requires grounds { kept ≡ true → AreGrounds types.now grounds.old.items }
    requires kinds { kept ≡ true → AreGroundKinds types.now kinds.old }
    requires marked { kept ≡ true
        → AreMarkedTypes types.now grounds.old.items (length types.now) marked.old }
    requires families { kept ≡ true
        → AreMarkedFamilies types.now grounds.old.items families.old }
    requires room { kept ≡ true → vec_len grounds.old < vec_capacity grounds.old }
    requires index_room { kept ≡ true → HasIndexRoom (length types.now + 1) marked.old }
    requires family_room { kept ≡ true → HasFamilyRoom added.now.supertype families.old.lists.items }
    ensures grounds { kept ≡ true → AreGrounds (types.now ++ added.now ∷ []) grounds.new.items }
    ensures kinds { kept ≡ true → AreGroundKinds (types.now ++ added.now ∷ []) kinds.new }
    ensures marked { kept ≡ true → AreMarkedTypes (types.now ++ added.now ∷ []) grounds.new.items
        (length types.now + 1) marked.new }
    ensures families { kept ≡ true
        → AreMarkedFamilies (types.now ++ added.now ∷ []) grounds.new.items families.new }
{
    if !kept {
        return;
    }
    let own = is_ground(added);
    let changed = marks_above(added.supertype, grounds.as_slice(), own);
    join_grounds(types, added, own, grounds);
    *kinds = kinds.with(own, added.composite_type.shared);
    marked.note(changed, own, types, added, grounds.as_slice());
    families.note(changed, own, added.supertype, types.len() as u32);
}

// Returns whether a type marks others: whether `own` is `true`, and its supertype `supertype`, if
// any, is not marked yet.
fn marks_above(supertype: Option<u32>, grounds: &[Ground], own: bool) -> bool
    requires stands { (s : ℕ) → supertype ≡ Some s → s < length grounds.now }
    ensures { result ≡ false → own ≡ true → (s : ℕ) → supertype ≡ Some s
        → below_at grounds.now s ≡ true }
{
    match supertype {
        Some(index) => own && !grounds[index as usize].below,
        None => false,
    }
}

// Appends an entry for the type `added`, the next one after `types`, to `grounds`, and marks its
// supertypes if `own` is `true`. Requires room in `grounds`.
fn join_grounds(types: &[SubType], added: &SubType, own: bool, grounds: &mut Vec<Ground>)
    requires orderly { IsOrderly types.now }
    requires follows { MayFollow types.now added.now }
    requires own { own ≡ is_ground added.now }
    requires grounds { AreGrounds types.now grounds.old.items }
    requires room { vec_len grounds.old < vec_capacity grounds.old }
    ensures grounds { AreGrounds (types.now ++ added.now ∷ []) grounds.new.items }
    ensures last { below_at grounds.new.items (length types.now) ≡ own }
{
    mark_above(types, supertype_if(own, added), grounds);
    grounds.push_reserved(Ground { own, below: own });
}

// Returns the supertype of `ty` if `wanted` is `true`.
fn supertype_if(wanted: bool, ty: &SubType) -> Option<u32>
    ensures { result ≡ (if wanted then ty.now.supertype else None) }
{
    if wanted { ty.supertype } else { None }
}

// Marks the type `from`, if there is one, and all its supertypes. Stops at a marked type, since its
// supertypes are marked already.
pub(crate) fn mark_above(types: &[SubType], from: Option<u32>, grounds: &mut Vec<Ground>)
    requires orderly { IsOrderly types.now }
    requires stands { (s : ℕ) → from ≡ Some s → (s < length types.now) × (s < vec_len grounds.old) }
    ensures marked { AreClosed types.now grounds.old.items
        → AreMarked types.now from grounds.old.items grounds.new.items }
    ensures len { vec_len grounds.new ≡ vec_len grounds.old }
    ensures capacity { vec_capacity grounds.new ≡ vec_capacity grounds.old }
{
    let mut above = from;
    while let Some(index) = above {
        let ground = grounds[index as usize];
        if ground.below {
            return;
        }
        grounds[index as usize] = Ground {
            own: ground.own,
            below: true,
        };
        above = types[index as usize].supertype;
    }
}

// Returns whether `ty` is a struct type whose fields all have defaults.
pub(crate) fn is_ground(ty: &SubType) -> bool
    ensures { result ≡ is_ground ty.now }
{
    match &ty.composite_type.inner {
        CompositeInnerType::Struct(structure) => are_defaultable(structure.fields.as_slice()),
        _ => false,
    }
}

/// Returns whether all `fields` have a default value (Validation, Value Types, Defaultable).
pub fn are_defaultable(fields: &[FieldType]) -> bool
    ensures { result ≡ are_defaultable fields.now }
{
    fields
        .iter()
        .all(|field| is_defaultable(unpack(field.element_type)))
}

/// Returns whether `value` has a default value. All value types have one except non-nullable
/// references.
pub fn is_defaultable(value: ValType) -> bool
    ensures { result ≡ is_defaultable value }
{
    match value {
        ValType::Ref(reference) => reference.nullable,
        _ => true,
    }
}

/// Returns the type of the values written to a field that stores `stored`. A packed integer is
/// unpacked to `i32`.
pub fn unpack(stored: StorageType) -> ValType
    ensures { result ≡ unpacked stored }
{
    match stored {
        StorageType::Val(value) => value,
        _ => ValType::I32,
    }
}
