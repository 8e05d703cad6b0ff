ghost use Rattle.std.specs.Prelude.{
  ◌≡◌,
  ◌+◌,
  ◌++◌,
  ◌^◌,
  ◌<◌,
  ◌≤◌,
  ℕ,
  List,
  [],
  ◌∷◌,
  length,
  IsTrue,
  ◌↔◌,
  Bool,
  IfOk,
  IfErr,
  IfSome,
  OnOk,
  OnErr,
  slice_get,
  vec_len,
  vec_capacity,
  not,
  ◌&&◌,
  nat_lt,
  if◌then◌else◌,
  true,
};
ghost use Rattle.std.specs.declared.ops.Range.{Range};
ghost use Rattle.smith_types.specs.Types.{IsAlike, IsOrderly, next_start, next_group};
ghost use Rattle.smith_types.specs.GroupedTypes.{AreExtensible, HasDepth, MayFollow};
ghost use Rattle.smith_types.specs.GroupedTypes.{extensible_from};
ghost use Rattle.smith_types.specs.Places.{IsPlace, ArePlaces, AreBeside, depths_in};
ghost use Rattle.smith_types.specs.Families.{direct_subtypes, AreFamilies};
ghost use Rattle.smith_types.specs.Grounded.{IsGroundedBy, IsGroundedByStructs};
ghost use Rattle.smith_types.specs.Grounds.{DecidesGrounded, HasIndexRoom, indices_where};
ghost use Rattle.smith_types.specs.MarkedFamilies.{AreMarkedFamilies, HasFamilyRoom};
ghost use Rattle.smith_types.specs.MarkedFamilies.{DecidesGroundedBelow};
ghost use Rattle.smith_types.specs.KindCounts.{indices_of_kind, indices_in};
ghost use Rattle.smith_types.specs.Sizes.{value_count};
ghost use Rattle.smith_types.specs.Matching.{IsCompositeMatch, IsInnerInRange};
ghost use Rattle.smith_syntax.specs.declared.value_type.HeapType.TheVariants.{Concrete};
ghost use Rattle.smith_types.specs.Subtyping.{IsBelow, IsRefBelow, IsValBelow, IsInRange};
ghost use Rattle.smith_types.specs.Subtyping.{IsValInRange};

use crate::family::{Family, extend_families, join_family};
use crate::ground::{Ground, GroundKinds, is_ground, no_grounds, note_ground};
use crate::kind_counts::TypeSet;
use crate::marked_families::MarkedFamilies;
use crate::marked_types::MarkedTypes;
use crate::matching::composite_type_is_match;
use crate::place::{Place, find_ancestor, last_counts, place_of};
use crate::subtyping::{
    abstract_type_is_below, heap_type_is_below, ref_type_is_below, val_type_is_below,
};
use smith_bytes::Error;
use smith_syntax::{
    AbstractHeapType, CompositeInnerType, CompositeType, EntityType, HeapType, RefType, SubType,
    ValType,
};
use std::alloc::Global;
use std::fmt;
use std::marker::Model;
use std::ops::Range;

// The least depth at which a type no longer counts as extensible.
const DEPTH_LIMIT: u32 = 60;

// The minimum number of types for which the lists reserve room.
const LEAST_ROOM: usize = 4;

/// The types of a module in index order, and their recursive groups.
///
/// Types are only ever added, so the type at an index never changes.
#[derive(Drop)]
pub struct TypeSpace {
    types: Vec<SubType>,
    places: Vec<Place>,
    // The families of the first types, at least up to the last type with a supertype.
    families: Vec<Family>,
    extensible: Vec<u32>,
    // Whether `grounds`, `ground_kinds`, `marked` and `marked_families` are kept up to date.
    keeps_grounds: bool,
    // The mark of each type, if `keeps_grounds` is set.
    grounds: Vec<Ground>,
    ground_kinds: GroundKinds,
    // The indices of the types that are marked as grounded.
    marked: MarkedTypes,
    // The indices of the marked direct subtypes of each type.
    marked_families: MarkedFamilies,
    groups: Vec<Range<usize>>,
}

impl Model for TypeSpace {
    ghost use Rattle.std.specs.Prelude.{◌≡◌, true};
    ghost use Rattle.smith_types.specs.GroupedTypes.{GroupedTypes, IsSound, extensible_from};
    ghost use Rattle.smith_types.specs.Places.{ArePlaces, AreBeside, depths_in};
    ghost use Rattle.smith_types.specs.Families.{AreFamilies};
    ghost use Rattle.std.specs.Prelude.{length};
    ghost use Rattle.smith_types.specs.Grounds.{AreGrounds, AreGroundKinds, AreMarkedTypes};
    ghost use Rattle.smith_types.specs.MarkedFamilies.{AreMarkedFamilies};

    ghost Value = { GroupedTypes };

    ghost view = { λ a. record { types = a.types.items; groups = a.groups.items } };

    ghost invariant = { λ a. IsSound (record { types = a.types.items; groups = a.groups.items })
        × ArePlaces a.types.items a.places.items
        × (a.extensible.items ≡ extensible_from 0 a.types.items (depths_in a.places.items))
        × AreFamilies a.types.items a.families.items
        × (a.keeps_grounds ≡ true → AreGrounds a.types.items a.grounds.items)
        × (a.keeps_grounds ≡ true → AreGroundKinds a.types.items a.ground_kinds)
        × AreBeside a.types a.places
        × (a.keeps_grounds ≡ true
        → AreMarkedTypes a.types.items a.grounds.items (length a.types.items) a.marked)
        × (a.keeps_grounds ≡ true
        → AreMarkedFamilies a.types.items a.grounds.items a.marked_families) };
}

/// Formats the types and the groups.
impl fmt::Debug for TypeSpace {
    fn fmt<W: fmt::Write>(&self, f: &mut fmt::Formatter<W>) -> fmt::Result {
        f.debug_struct("TypeSpace")
            .field("types", &self.types)
            .field("groups", &self.groups)
            .finish_non_exhaustive()
    }
}

impl TypeSpace {
    ghost use Rattle.smith_types.specs.GroupedTypes.{IsSound};
    ghost use Rattle.smith_types.specs.Places.{ArePlaces};
    ghost use Rattle.smith_types.specs.Types.{next_group, AreCovered};
    ghost use Rattle.smith_types.specs.Sizes.{size_in, IsTyped};

    /// Creates a space without types and groups. Allocates from `alloc` only once types or groups
    /// are added.
    pub fn new(alloc: Global) -> TypeSpace
        ensures { result ≡ record { types = []; groups = [] } }
    {
        TypeSpace {
            types: Vec::new(alloc),
            places: Vec::new(alloc),
            families: Vec::new(alloc),
            extensible: Vec::new(alloc),
            keeps_grounds: true,
            grounds: Vec::new(alloc),
            ground_kinds: no_grounds(),
            marked: MarkedTypes::none(alloc),
            marked_families: MarkedFamilies::none(alloc),
            groups: Vec::new(alloc),
        }
    }

    /// Creates a space without types and groups, with room for `types` types, each in its own
    /// group, allocated from `alloc`.
    pub fn with_capacity(alloc: Global, types: usize) -> Result<TypeSpace, Error>
        ensures ok { IfOk result (λ space. space ≡ record { types = []; groups = [] }) }
        ensures memory { IfErr result (λ e. e ≡ Error.Memory) }
    {
        let places = Vec::with_capacity(alloc, types)?;
        Ok(TypeSpace {
            types: Vec::with_capacity(alloc, types)?,
            places,
            families: Vec::new(alloc),
            extensible: Vec::new(alloc),
            keeps_grounds: true,
            grounds: Vec::new(alloc),
            ground_kinds: no_grounds(),
            marked: MarkedTypes::none(alloc),
            marked_families: MarkedFamilies::none(alloc),
            groups: Vec::with_capacity(alloc, types)?,
        })
    }

    /// Stops recording which heap types the struct types ground. Recording reads the fields of each
    /// struct type that is added.
    ///
    /// [`TypeSpace::is_grounded_by_structs`] then searches all types instead.
    pub fn keep_no_grounds(&mut self)
        ensures { self.new ≡ self.old }
    {
        self.keeps_grounds = false;
    }

    /// Returns the types, in index order.
    pub fn types(&self) -> &[SubType]
        ensures value { result.now ≡ self.now.types }
        ensures sound { IsSound self.now }
    {
        self.types.as_slice()
    }

    /// Returns the groups so far, each as the range of the indices of its types. Types after the
    /// last group belong to no group until [`TypeSpace::push_group`].
    pub fn rec_groups(&self) -> &[Range<usize>]
        ensures { result.now ≡ self.now.groups }
    {
        self.groups.as_slice()
    }

    /// Returns the depth of the type `index`: the number of types on the path along declared
    /// supertypes, including the type itself. Requires the type to exist.
    pub fn depth(&self, index: u32) -> u32
        requires { index < length self.now.types }
        ensures { HasDepth self.now.types index result }
    {
        self.places[index as usize].depth
    }

    /// Returns the supertype of depth `depth` of the type `index`, declared directly or indirectly.
    /// Returns `index` itself if `depth` is its own depth.
    ///
    /// Requires the type `index` to exist, and `depth` to be between 1 and the depth of that type,
    /// as returned by [`TypeSpace::depth`]. A type of depth 1 has no supertype.
    ///
    /// Takes a number of steps that is logarithmic in the depth of the type.
    pub fn ancestor(&self, index: u32, depth: u32) -> u32
        requires stands { index < length self.now.types }
        requires some { 0 < depth }
        requires within { (own : ℕ) → HasDepth self.now.types index own → depth ≤ own }
        ensures deep { HasDepth self.now.types result depth }
        ensures above { IsBelow self.now.types (Concrete index) (Concrete result) }
    {
        let types = self.types.as_slice();
        let places = self.places.as_slice();
        find_ancestor(types, places, index, depth)
    }

    /// Returns the number of types in `set`.
    pub fn count_in(&self, set: TypeSet) -> u32
        ensures { result ≡ length (indices_in self.now.types set) }
    {
        last_counts(self.places.as_slice()).count(set)
    }

    /// Returns the index of the type at position `place`, from 0, among those counted by
    /// [`TypeSpace::count_in`], in index order. Requires `place` to be less than that count.
    pub fn index_in(&self, set: TypeSet, place: u32) -> u32
        requires { place < length (indices_in self.now.types set) }
        ensures { slice_get (indices_in self.now.types set) place ≡ Some result }
    {
        let mut low = 0;
        let mut high = self.places.len() - 1;
        while low < high {
            let middle = low + (high - low) / 2;
            if place < self.places[middle].counts.count(set) {
                high = middle;
            } else {
                low = middle + 1;
            }
        }
        low as u32
    }

    /// Returns the number of types of the kind `kind` with the sharedness `shared`.
    ///
    /// The kinds of types are `Array`, `Func` and `Struct`. Returns 0 for any other abstract heap
    /// type.
    pub fn count_of_kind(&self, shared: bool, kind: AbstractHeapType) -> u32
        ensures { result ≡ length (indices_of_kind self.now.types shared kind) }
    {
        self.count_in(TypeSet::OfKind { shared, kind })
    }

    /// Returns the index of the type at position `place`, from 0, among those counted by
    /// [`TypeSpace::count_of_kind`], in index order. Requires `place` to be less than that count.
    pub fn index_of_kind(&self, shared: bool, kind: AbstractHeapType, place: u32) -> u32
        requires { place < length (indices_of_kind self.now.types shared kind) }
        ensures { slice_get (indices_of_kind self.now.types shared kind) place ≡ Some result }
    {
        self.index_in(TypeSet::OfKind { shared, kind }, place)
    }

    /// Returns the number of types that declare the type `index` as their supertype. Returns 0 if
    /// the type `index` does not exist.
    pub fn count_of_direct_subtypes(&self, index: u32) -> u32
        ensures { result ≡ length (direct_subtypes self.now.types index) }
    {
        match self.families.get(index as usize) {
            Some(family) => family.count,
            None => 0,
        }
    }

    /// Returns the index of the type at position `place`, from 0, among those counted by
    /// [`TypeSpace::count_of_direct_subtypes`], in index order. Requires `place` to be less than
    /// that count.
    ///
    /// Takes a step for each direct subtype after the result.
    pub fn direct_subtype(&self, index: u32, place: u32) -> u32
        requires { place < length (direct_subtypes self.now.types index) }
        ensures { slice_get (direct_subtypes self.now.types index) place ≡ Some result }
    {
        let family = self.families[index as usize];
        let mut at = family.count - 1;
        let mut found = family.last;
        while place < at {
            found = self.families[found as usize].previous;
            at -= 1;
        }
        found
    }

    /// Returns the indices of the types with the sharedness `shared` that are grounded by a struct
    /// type whose fields all have defaults, in order. These are such struct types and their
    /// supertypes. Returns `None` after [`TypeSpace::keep_no_grounds`].
    pub fn grounded_by_structs(&self, shared: bool) -> Option<&[u32]>
        ensures { IfSome result (λ indices. (descriptors : Bool) (test : ℕ → Bool)
            → DecidesGrounded self.now.types descriptors shared test
            → indices.now ≡ indices_where test 0 (length self.now.types)) }
    {
        if !self.keeps_grounds {
            return None;
        }
        Some(self.marked.of(shared))
    }

    /// Returns the indices of the types that declare the type `index` as their supertype and are
    /// grounded by a struct type whose fields all have defaults, in order. Returns `None` after
    /// [`TypeSpace::keep_no_grounds`], or if the supertype of such a struct type is not such a
    /// struct type.
    pub fn grounded_direct_subtypes(&self, index: u32) -> Option<&[u32]>
        ensures { IfSome result (λ indices. (descriptors : Bool) (test : ℕ → Bool)
            → DecidesGroundedBelow self.now.types descriptors index test
            → indices.now ≡ indices_where test 0 (length self.now.types)) }
    {
        if !self.keeps_grounds {
            return None;
        }
        self.marked_families.of(index)
    }

    /// Returns whether a struct type whose fields all have defaults grounds the heap type `ty`:
    /// creating such a struct pushes a reference below `ty`. With `descriptors` that reference is
    /// exact. Requires the type named by `ty`, if any, to exist.
    pub fn is_grounded_by_structs(&self, ty: HeapType, descriptors: bool) -> bool
        requires { IsInRange self.now.types ty }
        ensures { IsTrue result ↔ IsGroundedByStructs self.now.types descriptors ty }
    {
        if !self.keeps_grounds {
            return self.finds_ground(ty, descriptors);
        }
        match ty {
            HeapType::Abstract { shared, ty } => {
                self.ground_kinds.has(shared)
                    && abstract_type_is_below(AbstractHeapType::Struct, ty)
            }
            HeapType::Concrete(index) => self.grounds[index as usize].below,
            HeapType::Exact(index) => descriptors && self.grounds[index as usize].own,
        }
    }

    // Searches all types for one that grounds the heap type `ty`.
    fn finds_ground(&self, ty: HeapType, descriptors: bool) -> bool
        requires { IsInRange self.now.types ty }
        ensures { IsTrue result ↔ IsGroundedByStructs self.now.types descriptors ty }
    {
        for index in 0..self.types.len() {
            let grounds = self.is_grounded_by(index, ty, descriptors);
            if grounds {
                return true;
            }
        }
        false
    }

    // Returns whether the type `index` grounds the heap type `ty`. Requires the type to exist.
    fn is_grounded_by(&self, index: usize, ty: HeapType, descriptors: bool) -> bool
        requires stands { index < length self.now.types }
        requires range { IsInRange self.now.types ty }
        ensures { IsTrue result ↔ IsGroundedBy self.now.types descriptors ty index }
    {
        if !is_ground(&self.types[index]) {
            return false;
        }
        let index = index as u32;
        if descriptors {
            return self.heap_type_is_sub_type(HeapType::Exact(index), ty);
        }
        self.heap_type_is_sub_type(HeapType::Concrete(index), ty)
    }

    // Returns whether `to` is `from` or one of its supertypes, declared directly or indirectly.
    // Then `to` is the supertype of `from` at its depth.
    pub(crate) fn reaches(&self, from: u32, to: u32) -> bool
        requires lower { from < length self.now.types }
        requires upper { to < length self.now.types }
        ensures { IsTrue result ↔ IsBelow self.now.types (Concrete from) (Concrete to) }
    {
        let lower = self.places[from as usize];
        let upper = self.places[to as usize];
        if lower.depth < upper.depth {
            return false;
        }
        let found = self.ancestor(from, upper.depth);
        found == to
    }

    /// Returns the indices of the extensible types, in order: the types that may get drawn
    /// subtypes. A type is extensible if it is not final and its depth is less than 60. The bound
    /// is a rule of this project, and [`TypeSpace::push_type`] accepts deeper types.
    pub fn extensible(&self) -> &[u32]
        ensures value { AreExtensible self.now.types result.now }
        ensures sound { IsSound self.now }
    {
        self.extensible.as_slice()
    }

    /// Returns whether [`TypeSpace::push_type`] may add the type `added`: its declared supertype,
    /// if any, exists and has the same kind and sharedness, and an index is available.
    pub fn may_follow(&self, added: &SubType) -> bool
        ensures { IsTrue result ↔ MayFollow self.now.types added.now }
    {
        self.types.len() < u32::MAX as usize && is_supertype_at(self.types.as_slice(), added)
    }

    /// Adds the type `added` after the others and returns its index. The type belongs to no group
    /// until [`TypeSpace::push_group`].
    ///
    /// Requires [`TypeSpace::may_follow`] to hold for `added`: its declared supertype, if any,
    /// exists and has the same kind and sharedness, and an index is available.
    ///
    /// # Errors
    ///
    /// Returns [`Error::Memory`] if an allocation fails. The space is then unchanged, and `added`
    /// is dropped.
    pub fn push_type(&mut self, added: SubType) -> Result<u32, Error>
        requires { MayFollow self.old.types added }
        ensures ok { OnOk result
            (self.new ≡ record self.old { types = self.old.types ++ added ∷ [] }) }
        ensures index { IfOk result (λ index. index ≡ length self.old.types) }
        ensures stands { IfOk result (λ index. slice_get self.new.types index ≡ Some added) }
        ensures err { OnErr result (self.new ≡ self.old) }
        ensures memory { IfErr result (λ e. e ≡ Error.Memory) }
    {
        make_room(&mut self.types, &mut self.places)?;
        make_ground_room(self.keeps_grounds, 1, &mut self.grounds)?;
        make_index_room(self.keeps_grounds, self.types.len() + 1, &mut self.marked)?;
        make_family_room(
            self.keeps_grounds,
            added.supertype,
            &mut self.marked_families,
        )?;
        let types = self.types.as_slice();
        let index = types.len() as u32;
        let place = make_place(
            types,
            &added,
            self.places.as_slice(),
            self.types.capacity(),
            &mut self.families,
            &mut self.extensible,
        )?;
        self.places.push_reserved(place);
        join_family(types, &added, &mut self.families);
        note_ground(
            self.keeps_grounds,
            types,
            &added,
            &mut self.grounds,
            &mut self.ground_kinds,
            &mut self.marked,
            &mut self.marked_families,
        );
        self.types.push_reserved(added);
        Ok(index)
    }

    /// Reserves room for at least `additional` more types, so that adding them does not move the
    /// types. Adds no type.
    pub fn reserve(&mut self, additional: usize) -> Result<(), Error>
        ensures value { self.new ≡ self.old }
        ensures memory { IfErr result (λ e. e ≡ Error.Memory) }
    {
        self.extensible.reserve(additional)?;
        make_ground_room(self.keeps_grounds, additional, &mut self.grounds)?;
        if additional > self.types.capacity() - self.types.len() {
            grow(additional, &mut self.types, &mut self.places)?;
        }
        Ok(())
    }

    /// Adds a group of the types after the last group. The group may be empty.
    pub fn push_group(&mut self) -> Result<(), Error>
        ensures ok { OnOk result (self.new ≡ record self.old {
          groups = self.old.groups ++ next_group self.old.types self.old.groups ∷ [];
        }) }
        ensures covered { OnOk result (AreCovered self.new.types self.new.groups) }
        ensures err { OnErr result (self.new ≡ self.old) }
        ensures memory { IfErr result (λ e. e ≡ Error.Memory) }
    {
        let start = start_after(self.groups.as_slice());
        let end = self.types.len();
        Ok(self.groups.push(start..end)?)
    }

    /// Returns whether the heap type `a` is a subtype of `b` (Validation, Matching, Heap Types).
    /// Requires the types named by `a` and `b` to exist.
    ///
    /// Rules of this project: types of equal groups are different; two abstract types, or a
    /// concrete and an abstract type, are related only if both are shared or neither is; an exact
    /// type is a subtype of its concrete type.
    pub fn heap_type_is_sub_type(&self, a: HeapType, b: HeapType) -> bool
        requires lower { IsInRange self.now.types a }
        requires upper { IsInRange self.now.types b }
        ensures { IsTrue result ↔ IsBelow self.now.types a b }
    {
        heap_type_is_below(self, a, b)
    }

    /// Returns whether the reference type `a` is a subtype of `b` (Validation, Matching, Reference
    /// Types). Heap types are compared as in [`TypeSpace::heap_type_is_sub_type`]. Requires the
    /// types named by `a` and `b` to exist.
    pub fn ref_type_is_sub_type(&self, a: RefType, b: RefType) -> bool
        requires lower { IsInRange self.now.types a.heap_type }
        requires upper { IsInRange self.now.types b.heap_type }
        ensures { IsTrue result ↔ IsRefBelow self.now.types a b }
    {
        ref_type_is_below(self, a, b)
    }

    /// Returns whether the value type `a` is a subtype of `b` (Validation, Matching, Value Types).
    /// Heap types are compared as in [`TypeSpace::heap_type_is_sub_type`]. Requires the types named
    /// by `a` and `b` to exist.
    pub fn val_type_is_sub_type(&self, a: ValType, b: ValType) -> bool
        requires lower { IsValInRange self.now.types a }
        requires upper { IsValInRange self.now.types b }
        ensures { IsTrue result ↔ IsValBelow self.now.types a b }
    {
        val_type_is_below(self, a, b)
    }

    /// Returns whether the composite type `a` matches `b` (Validation, Matching, Composite Types).
    /// Heap types are compared as in [`TypeSpace::heap_type_is_sub_type`]. Requires the types named
    /// by `a` and `b` to exist.
    pub fn composite_type_matches(&self, a: &CompositeType, b: &CompositeType) -> bool
        requires lower { IsInnerInRange self.now.types a.now.inner }
        requires upper { IsInnerInRange self.now.types b.now.inner }
        ensures { IsTrue result ↔ IsCompositeMatch self.now.types a.now b.now }
    {
        composite_type_is_match(self, a, b)
    }

    /// Returns the size of `entity`, which counts towards the type size of a module. The size is 1,
    /// plus the number of parameters and results for a function. Requires the type of a function to
    /// exist, and the size to be less than 2^32.
    pub fn size_of(&self, entity: &EntityType) -> u32
        requires typed { IsTyped self.now.types entity.now }
        requires fits { size_in self.now.types entity.now < 2 ^ 32 }
        ensures { result ≡ size_in self.now.types entity.now }
    {
        match entity {
            EntityType::Func(index) => size_of_function(&self.types[*index as usize]),
            _ => 1,
        }
    }
}

// Reserves room for one more type in `types` and `places` if they are full.
fn make_room(types: &mut Vec<SubType>, places: &mut Vec<Place>) -> Result<(), Error>
    requires { AreBeside types.old places.old }
    ensures beside { AreBeside types.new places.new }
    ensures types { types.new.items ≡ types.old.items }
    ensures places { places.new.items ≡ places.old.items }
    ensures room { OnOk result (vec_len types.new < vec_capacity types.new) }
    ensures memory { IfErr result (λ e. e ≡ Error.Memory) }
{
    if types.len() == types.capacity() {
        grow(1, types, places)?;
    }
    Ok(())
}

// Reserves room for at least `additional` more types in `types` and `places`, which grow together.
fn grow(additional: usize, types: &mut Vec<SubType>, places: &mut Vec<Place>) -> Result<(), Error>
    requires { AreBeside types.old places.old }
    ensures beside { AreBeside types.new places.new }
    ensures types { types.new.items ≡ types.old.items }
    ensures places { places.new.items ≡ places.old.items }
    ensures room { OnOk result (vec_len types.new + additional ≤ vec_capacity types.new) }
    ensures memory { IfErr result (λ e. e ≡ Error.Memory) }
{
    let more = additional.max(types.len()).max(LEAST_ROOM);
    places.reserve_exact(more)?;
    Ok(types.reserve_exact(more)?)
}

// Reserves room for `additional` more entries in `grounds` if `kept` is `true`.
fn make_ground_room(kept: bool, additional: usize, grounds: &mut Vec<Ground>) -> Result<(), Error>
    ensures grounds { grounds.new.items ≡ grounds.old.items }
    ensures room { kept ≡ true
        → OnOk result (vec_len grounds.new + additional ≤ vec_capacity grounds.new) }
    ensures memory { IfErr result (λ e. e ≡ Error.Memory) }
{
    if kept {
        grounds.reserve(additional)?;
    }
    Ok(())
}

// Reserves room for the indices of `count` types in `marked` if `kept` is `true`.
fn make_index_room(kept: bool, count: usize, marked: &mut MarkedTypes) -> Result<(), Error>
    ensures plain { marked.new.plain.items ≡ marked.old.plain.items }
    ensures shared { marked.new.shared.items ≡ marked.old.shared.items }
    ensures room { kept ≡ true → OnOk result (HasIndexRoom count marked.new) }
    ensures memory { IfErr result (λ e. e ≡ Error.Memory) }
{
    if kept {
        marked.make_room(count)?;
    }
    Ok(())
}

// Reserves room for one more direct subtype of the type `supertype` in `families` if `kept` is
// `true`.
fn make_family_room(
    kept: bool,
    supertype: Option<u32>,
    families: &mut MarkedFamilies,
) -> Result<(), Error>
    ensures kept { (types : List SubType) (grounds : List Ground)
        → AreMarkedFamilies types grounds families.old → AreMarkedFamilies types grounds families.new }
    ensures room { kept ≡ true → OnOk result (HasFamilyRoom supertype families.new.lists.items) }
    ensures memory { IfErr result (λ e. e ≡ Error.Memory) }
{
    if kept {
        families.make_room(supertype)?;
    }
    Ok(())
}

// Creates the place of the type `added`, the next one after `types`. Extends `families` up to it,
// and adds its index to `extensible` if it may have subtypes. The first allocation of `families` is
// for `room` types.
//
// On an error `extensible` is unchanged, and `families` may be longer than before.
fn make_place(
    types: &[SubType],
    added: &SubType,
    places: &[Place],
    room: usize,
    families: &mut Vec<Family>,
    extensible: &mut Vec<u32>,
) -> Result<Place, Error>
    requires orderly { IsOrderly types.now }
    requires follows { MayFollow types.now added.now }
    requires places { ArePlaces types.now places.now }
    requires extensible { extensible.old.items
        ≡ extensible_from 0 types.now (depths_in places.now) }
    requires families { AreFamilies types.now families.old.items }

    // The place.
    ensures place { IfOk result
        (IsPlace (types.now ++ added.now ∷ []) (length types.now)) }

    // The lists afterwards.
    ensures extensible { IfOk result (λ place. extensible.new.items
        ≡ extensible_from 0 (types.now ++ added.now ∷ []) (depths_in (places.now ++ place ∷ []))) }
    ensures families { AreFamilies types.now families.new.items }
    ensures family_room { OnOk result ((supertype : ℕ) → added.now.supertype ≡ Some supertype
        → length types.now < length families.new.items) }

    // Refusals.
    ensures err { OnErr result (extensible.new.items ≡ extensible.old.items) }
    ensures memory { IfErr result (λ e. e ≡ Error.Memory) }
{
    reserve_families(added, room, families)?;
    extend_families(types, added, families)?;
    let place = place_of(types, places, added);
    let is_extensible = may_have_subtypes(added, place.depth);
    push_where(is_extensible, extensible, types.len() as u32)?;
    Ok(place)
}

// Reserves room for `count` entries in `families` if it has none and the type `added` has a
// supertype. A space without supertypes allocates nothing for it.
fn reserve_families(added: &SubType, count: usize, families: &mut Vec<Family>) -> Result<(), Error>
    ensures families { families.new.items ≡ families.old.items }
    ensures memory { IfErr result (λ e. e ≡ Error.Memory) }
{
    if added.supertype.is_some() && families.capacity() == 0 {
        families.reserve(count)?;
    }
    Ok(())
}

// Returns whether the type `ty` of depth `depth` may have subtypes.
fn may_have_subtypes(ty: &SubType, depth: u32) -> bool
    ensures { result ≡ (not ty.now.is_final && nat_lt depth 60) }
{
    !ty.is_final && depth < DEPTH_LIMIT
}

// Appends `index` to `indices` if `wanted` is `true`.
fn push_where(wanted: bool, indices: &mut Vec<u32>, index: u32) -> Result<(), Error>
    ensures ok { OnOk result
        (indices.new.items ≡ indices.old.items ++ (if wanted then index ∷ [] else [])) }
    ensures err { OnErr result (indices.new.items ≡ indices.old.items) }
    ensures memory { IfErr result (λ e. e ≡ Error.Memory) }
{
    if wanted {
        indices.push(index)?;
    }
    Ok(())
}

// Returns the size of a function of type `ty`. Requires the size to be less than 2^32.
fn size_of_function(ty: &SubType) -> u32
    requires { 1 + value_count ty.now.composite_type.inner < 2 ^ 32 }
    ensures { result ≡ 1 + value_count ty.now.composite_type.inner }
{
    match &ty.composite_type.inner {
        CompositeInnerType::Func(f) => 1 + f.params.len() as u32 + f.results.len() as u32,
        _ => 1,
    }
}

/// Returns the index at which the group after `groups` starts.
pub fn start_after(groups: &[Range<usize>]) -> usize
    ensures { result ≡ next_start groups.now }
{
    match groups {
        [.., last] => last.end,
        [] => 0,
    }
}

// Returns whether the declared supertype of `added`, if any, exists and has the same kind and
// sharedness.
fn is_supertype_at(types: &[SubType], added: &SubType) -> bool
    ensures { IsTrue result ↔ ((s : ℕ) → added.now.supertype ≡ Some s →
        (u : SubType) × (slice_get types.now s ≡ Some u) × IsAlike added.now u) }
{
    match added.supertype {
        Some(index) => match types.get(index as usize) {
            Some(supertype) => is_alike(added, supertype),
            None => false,
        },
        None => true,
    }
}

// Returns whether `a` and `b` have the same kind and sharedness.
fn is_alike(a: &SubType, b: &SubType) -> bool
    ensures { IsTrue result ↔ IsAlike a.now b.now }
{
    a.composite_type.shared == b.composite_type.shared
        && a.composite_type.inner.kind() == b.composite_type.inner.kind()
}
