ghost use Rattle.std.specs.Prelude.{◌≡◌, ◌↔◌, ◌+◌, ◌++◌, ◌<◌, ◌^◌, List, [], ◌∷◌, IsTrue, Some};
ghost use Rattle.std.specs.Prelude.{length, slice_get};
ghost use Rattle.std.specs.List.{flat_map};
ghost use Rattle.smith_types.specs.Syntax.composite_type.SubType.{SubType as Sub};
ghost use Rattle.smith_types.specs.Syntax.value_type.AbstractHeapType.TheVariants.{Struct};
ghost use Rattle.smith_types.specs.Grounded.{IsGroundedByStructs};
ghost use Rattle.smith_types.specs.Grounds.{is_ground};
ghost use Rattle.smith_types.specs.Subtyping.{is_abstract_below};
ghost use Rattle.smith_draw_types.specs.Spelling.{IsRoot};
ghost use Rattle.smith_spell.specs.Decided.{IsKnown};
ghost use Rattle.smith_spell.specs.Family.{IsMemberHeapType};

use smith_config::Config;
use smith_types::{
    AbstractHeapType, CompositeInnerType, HeapType, Items, SubType, are_defaultable,
};
use std::marker::Model;

/// Facts about a list of types that decide which abstract heap types they ground.
#[derive(Clone, Copy)]
pub(crate) struct Known {
    /// The number of types.
    pub(crate) count: usize,
    /// Whether one of the types is an unshared struct type whose fields all have defaults.
    pub(crate) has_ground: bool,
}

impl Known {
    /// Returns the facts about no types.
    pub(crate) fn none() -> Known
        ensures { IsKnown [] result }
    {
        Known {
            count: 0,
            has_ground: false,
        }
    }

    /// Returns the facts about the types of `self` followed by `t`.
    pub(crate) fn with(self, t: &SubType) -> Known
        requires { self.count + 1 < 2 ^ 64 }
        ensures { (types : List Sub) → IsKnown types self → IsRoot t.now
            → IsKnown (types ++ t.now ∷ []) result }
    {
        Known {
            count: self.count + 1,
            has_ground: self.has_ground || (is_ground(t) && !t.composite_type.shared),
        }
    }
}

/// The types before a type: the types of earlier groups, and the earlier types of its own group.
#[derive(Drop)]
pub(crate) struct Earlier<'a> {
    groups: &'a [Items<SubType>],
    group: &'a [SubType],
    known: Known,
}

impl<'a> Model for Earlier<'a> {
    ghost use Rattle.std.specs.Prelude.{List, ◌++◌};
    ghost use Rattle.std.specs.List.{flat_map};
    ghost use Rattle.smith_types.specs.Syntax.composite_type.SubType.{SubType as Sub};
    ghost use Rattle.smith_spell.specs.Decided.{IsKnown};

    ghost Value = { List Sub };

    ghost view = { λ a. flat_map (λ (group : List Sub). group) a.groups.now ++ a.group.now };

    ghost invariant = { λ a.
        IsKnown (flat_map (λ (group : List Sub). group) a.groups.now ++ a.group.now) a.known };
}

impl<'a> Earlier<'a> {
    /// Creates the list of the types of `groups`, followed by the types of `group`. `known` has the
    /// facts about all of them.
    pub(crate) fn new(
        groups: &'a [Items<SubType>],
        group: &'a [SubType],
        known: Known,
    ) -> Earlier<'a>
        requires { IsKnown (flat_map (λ (group : List Sub). group) groups.now ++ group.now) known }
        ensures { result ≡ flat_map (λ (group : List Sub). group) groups.now ++ group.now }
    {
        Earlier {
            groups,
            group,
            known,
        }
    }

    /// Returns the number of types.
    pub(crate) fn count(&self) -> usize
        ensures { result ≡ length self.now }
    {
        self.known.count
    }

    /// Returns whether one of the types is a struct type that grounds `ty`, a heap type that a
    /// later type may refer to.
    pub(crate) fn is_grounded(&self, config: &Config, ty: HeapType) -> bool
        requires { IsMemberHeapType config.now self.now ty }
        ensures { IsTrue result
            ↔ IsGroundedByStructs self.now config.now.custom_descriptors_enabled ty }
    {
        match ty {
            HeapType::Abstract { shared: _, ty } => self.known.has_ground && is_above_structs(ty),
            HeapType::Concrete(index) => self.is_ground_at(index as usize),
            HeapType::Exact(_) => false,
        }
    }

    /// Returns whether the type with the index `index` is a struct type whose fields all have
    /// defaults.
    fn is_ground_at(&self, index: usize) -> bool
        requires { index < length self.now }
        ensures { (t : Sub) → slice_get self.now index ≡ Some t → result ≡ is_ground t }
    {
        let mut place = index;
        for group in self.groups {
            if place < group.len() {
                return is_ground(&group.as_slice()[place]);
            }
            place -= group.len();
        }
        is_ground(&self.group[place])
    }
}

/// Returns whether `ty` is above struct types.
fn is_above_structs(ty: AbstractHeapType) -> bool
    ensures { result ≡ is_abstract_below Struct ty }
{
    match ty {
        AbstractHeapType::Any | AbstractHeapType::Eq | AbstractHeapType::Struct => true,
        _ => false,
    }
}

/// Returns whether `t` is a struct type whose fields all have defaults.
fn is_ground(t: &SubType) -> bool
    ensures { result ≡ is_ground t.now }
{
    match &t.composite_type.inner {
        CompositeInnerType::Struct(structure) => are_defaultable(structure.fields.as_slice()),
        _ => false,
    }
}
