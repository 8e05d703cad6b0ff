ghost use Rattle.std.specs.Prelude.{◌≡◌, ◌↔◌, ◌⊎◌, ℕ, ◌+◌, ◌<◌, ◌≤◌, ◌^◌, [], ◌∷◌, ◌++◌, length, Some};
ghost use Rattle.std.specs.Prelude.{IsTrue, OnOk, IfOk, IfErr, slice_get, slice_index, vec_len};
ghost use Rattle.smith_draw_consts.specs.KeptOffers.{IsNoted, IsTally};

use smith_bytes::Error;
use smith_types::{HeapType, Items, ValType, is_same};
use std::alloc::Global;

/// The classes of the items read so far, which are globals or functions: all items with values of
/// one type form a class.
#[derive(Drop)]
pub(crate) struct Classes {
    /// The type of each class, or `None` for mutable globals, which cannot be read.
    pub kinds: Items<Option<ValType>>,
    /// The class of each item.
    pub of: Items<u32>,
    // The class to try first for a type, at the position that `slot_of` gives.
    hints: Vec<u32>,
}

impl Classes {
    /// Creates the classes of no items. Does not allocate.
    pub fn new(alloc: Global) -> Classes
        ensures kinds { result.kinds ≡ [] }
        ensures of { result.of ≡ [] }
    {
        Classes {
            kinds: Items::new(alloc),
            of: Items::new(alloc),
            hints: Vec::new(alloc),
        }
    }

    /// Reads one more item, with a value of the type `kind`. Tests no other item.
    pub fn note(&mut self, kind: Option<ValType>) -> Result<(), Error>
        requires { length self.old.kinds < 2 ^ 32 }
        ensures noted { OnOk result (IsNoted kind self.old self.new) }
        ensures memory { IfErr result (λ e. e ≡ Error.Memory) }
    {
        let class = self.class_of(kind)?;
        self.of.push(class)
    }

    /// Returns the class of items with a value of the type `kind`, and adds one if none is found.
    fn class_of(&mut self, kind: Option<ValType>) -> Result<u32, Error>
        requires { length self.old.kinds < 2 ^ 32 }
        ensures class { IfOk result (λ class. slice_get self.new.kinds class ≡ Some kind) }
        ensures kinds { OnOk result ((self.new.kinds ≡ self.old.kinds)
            ⊎ (self.new.kinds ≡ self.old.kinds ++ kind ∷ [])) }
        ensures of { OnOk result (self.new.of ≡ self.old.of) }
        ensures memory { IfErr result (λ e. e ≡ Error.Memory) }
    {
        let slot = slot_of(kind);
        make_room(&mut self.hints, slot)?;
        let hint = self.hints[slot];
        if is_at(self.kinds.as_slice(), hint, kind) {
            return Ok(hint);
        }
        let class = self.kinds.len() as u32;
        self.kinds.push(kind)?;
        self.hints[slot] = class;
        Ok(class)
    }

    /// Returns the type of the item at `index`.
    pub fn kind_of(&self, index: usize) -> Option<ValType>
        requires there { index < length self.now.of }
        requires classed { slice_index self.now.of index < length self.now.kinds }
        ensures { slice_get self.now.kinds (slice_index self.now.of index) ≡ Some result }
    {
        let class = self.of.as_slice()[index];
        self.kinds.as_slice()[class as usize]
    }

    /// Counts the items from the index `first` up to `end` whose class has the flag `true`.
    pub fn count(&self, flags: &[bool], first: usize, end: usize) -> usize
        requires there { first ≤ end × end ≤ length self.now.of }
        requires flags { (i : ℕ) → i < length self.now.of
            → slice_index self.now.of i < length flags.now }
        ensures { (before : ℕ → ℕ) → IsTally before self.now.of flags.now
            → before end ≡ before first + result }
    {
        let classes = self.of.as_slice();
        let mut count = 0;
        for index in first..end {
            let flag = flags[classes[index] as usize];
            count += usize::from(flag);
        }
        count
    }
}

/// Returns whether the class `class` exists and has the type `kind`.
fn is_at(kinds: &[Option<ValType>], class: u32, kind: Option<ValType>) -> bool
    ensures { IsTrue result → slice_get kinds.now class ≡ Some kind }
{
    match kinds.get(class as usize) {
        Some(found) => is_same_kind(*found, kind),
        None => false,
    }
}

fn is_same_kind(a: Option<ValType>, b: Option<ValType>) -> bool
    ensures { IsTrue result ↔ (a ≡ b) }
{
    match (a, b) {
        (Some(a), Some(b)) => is_same(&a, &b),
        (None, None) => true,
        _ => false,
    }
}

/// Appends to `hints` until there is one at the position `slot`.
pub(crate) fn make_room(hints: &mut Vec<u32>, slot: usize) -> Result<(), Error>
    ensures room { OnOk result (slot < vec_len hints.new) }
    ensures memory { IfErr result (λ e. e ≡ Error.Memory) }
{
    while hints.len() <= slot {
        hints.push(0)?;
    }
    Ok(())
}

/// Returns the position of the hint for the type `kind`. Two types have different positions.
pub(crate) fn slot_of(kind: Option<ValType>) -> usize {
    match kind {
        None => 0,
        Some(ValType::I32) => 1,
        Some(ValType::I64) => 2,
        Some(ValType::F32) => 3,
        Some(ValType::F64) => 4,
        Some(ValType::V128) => 5,
        Some(ValType::Ref(reference)) => {
            6 + 2 * heap_slot_of(reference.heap_type) + usize::from(reference.nullable)
        }
    }
}

/// Returns a number for `heap_type`. Two heap types have different numbers.
fn heap_slot_of(heap_type: HeapType) -> usize
    ensures { result < 2 ^ 34 }
{
    match heap_type {
        HeapType::Abstract { shared, ty } => 2 * (ty as usize) + usize::from(shared),
        HeapType::Concrete(index) => 24 + 2 * index as usize,
        HeapType::Exact(index) => 25 + 2 * index as usize,
    }
}
