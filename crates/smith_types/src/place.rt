ghost use Rattle.std.specs.Prelude.{◌≡◌, ◌++◌, ◌≤◌, ◌<◌, ℕ, [], ◌∷◌, length};
ghost use Rattle.smith_types.specs.Types.{IsOrderly};
ghost use Rattle.smith_types.specs.GroupedTypes.{HasDepth, MayFollow};
ghost use Rattle.smith_types.specs.Places.{last_counts, IsAncestor, IsClimb, IsLink, IsPlace, ArePlaces};

use crate::kind_counts::{KindCounts, no_counts};
use smith_syntax::SubType;

// The entry of a type in a type space: its depth, the counts up to it, and two of its supertypes.
//
// A supertype of a given depth is found by jumps and, where a jump passes that depth, by steps to
// the declared supertype. A jump spans two equal jumps and the step to them, or that step alone, so
// the number of jumps and steps is logarithmic in the depth.
#[derive(Clone, Copy)]
pub(crate) struct Place {
    // The declared supertype. Meaningless if there is none.
    pub(crate) supertype: u32,
    // A supertype, declared directly or indirectly, or the type itself if it has none.
    pub(crate) jump: u32,
    // The number of types on the path along declared supertypes, including the type itself.
    pub(crate) depth: u32,
    // The number of types of each kind among the types up to and including this one.
    pub(crate) counts: KindCounts,
}

// Returns the place of the type `added`, the next one after `types`.
pub(crate) fn place_of(types: &[SubType], places: &[Place], added: &SubType) -> Place
    requires orderly { IsOrderly types.now }
    requires places { ArePlaces types.now places.now }
    requires follows { MayFollow types.now added.now }
    ensures { IsPlace (types.now ++ added.now ∷ []) (length types.now) result }
{
    let counts = last_counts(places).with(&added.composite_type);
    match added.supertype {
        Some(supertype) => {
            let jump = jump_below(types, places, supertype);
            Place {
                supertype,
                jump,
                depth: places[supertype as usize].depth + 1,
                counts,
            }
        }
        None => Place {
            supertype: 0,
            jump: types.len() as u32,
            depth: 1,
            counts,
        },
    }
}

// Returns the end of the jump of a type that declares the type `index` as its supertype: the end of
// two jumps from `index` if they span equally many levels, otherwise `index`.
fn jump_below(types: &[SubType], places: &[Place], index: u32) -> u32
    requires orderly { IsOrderly types.now }
    requires places { ArePlaces types.now places.now }
    requires inside { index < length types.now }
    ensures { IsLink types.now index result }
{
    let first = places[index as usize];
    let second = places[first.jump as usize];
    let third = places[second.jump as usize];
    if first.depth - second.depth == second.depth - third.depth {
        second.jump
    } else {
        index
    }
}

// Returns the counts of all types of `places`.
pub(crate) fn last_counts(places: &[Place]) -> KindCounts
    ensures { result ≡ last_counts places.now }
{
    match places {
        [.., last] => last.counts,
        [] => no_counts(),
    }
}

// Returns the supertype of depth `depth` of the type `index`, or `index` itself if `depth` is its
// own depth. Requires `depth` to be between 1 and that depth.
pub(crate) fn find_ancestor(types: &[SubType], places: &[Place], index: u32, depth: u32) -> u32
    requires places { ArePlaces types.now places.now }
    requires inside { index < length types.now }
    requires some { 0 < depth }
    requires within { (own : ℕ) → HasDepth types.now index own → depth ≤ own }
    ensures { IsAncestor types.now index depth result }
{
    let mut at = index;
    while depth < places[at as usize].depth {
        at = climb(types, places, at, depth);
    }
    at
}

// Returns a supertype of the type `index` that is at least `depth` deep: the end of its jump, if
// possible. Requires the type `index` to be deeper than `depth`.
fn climb(types: &[SubType], places: &[Place], index: u32, depth: u32) -> u32
    requires places { ArePlaces types.now places.now }
    requires inside { index < length types.now }
    requires some { 0 < depth }
    requires deeper { (own : ℕ) → HasDepth types.now index own → depth < own }
    ensures { IsClimb types.now index depth result }
{
    let place = places[index as usize];
    if places[place.jump as usize].depth < depth {
        place.supertype
    } else {
        place.jump
    }
}
