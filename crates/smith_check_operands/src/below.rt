ghost use Rattle.std.specs.Prelude.{◌≡◌, ◌↔◌, List, IsTrue, All};
ghost use Rattle.smith_types.specs.Syntax.composite_type.SubType.{SubType};
ghost use Rattle.smith_types.specs.Syntax.value_type.HeapType.TheVariants.{Abstract};
ghost use Rattle.smith_types.specs.Expressions.{reference_to};
ghost use Rattle.smith_types.specs.Subtyping.{IsValInRange};
ghost use Rattle.smith_check_rules.specs.Slots.{IsBelow};
ghost use Rattle.smith_check_rules.specs.declared.slot.Slot.TheVariants.{Value};
ghost use Rattle.smith_check_operands.specs.Fits.{AreFit, AreMatched, IsSlotInRange, number_or};

use smith_check_rules::Slot;
use smith_types::{AbstractHeapType, HeapType, RefType, TypeSpace, ValType};

/// Returns the type of non-null references to an abstract heap type.
fn reference_to(shared: bool, ty: AbstractHeapType) -> ValType
    ensures { result ≡ reference_to (Abstract shared ty) }
{
    ValType::Ref(RefType {
        nullable: false,
        heap_type: HeapType::Abstract { shared, ty },
    })
}

// Returns the place of a type of numbers or vectors among these types, or `other` for references.
#[inline(always)]
fn number_or(other: u32, ty: ValType) -> u32
    ensures { result ≡ number_or other ty }
{
    match ty {
        ValType::I32 => 0,
        ValType::I64 => 1,
        ValType::F32 => 2,
        ValType::F64 => 3,
        ValType::V128 => 4,
        ValType::Ref(_) => other,
    }
}

// Returns whether `slot` is `expected`, a type of numbers or vectors.
#[inline(always)]
fn is_same_number(slot: Slot, expected: ValType) -> bool
    ensures { IsTrue result → (types : List SubType) → IsBelow types slot (Value expected) }
{
    match slot {
        Slot::Value(value) => number_or(5, value) == number_or(6, expected),
        _ => false,
    }
}

// Returns whether a value of the type `slot` may be used as one of the type `expected`. Slower than
// `is_same_number`.
#[inline(never)]
fn slot_matches(types: &TypeSpace, slot: &Slot, expected: &ValType) -> bool
    requires lower { IsSlotInRange types.now.types slot.now }
    requires upper { IsValInRange types.now.types expected.now }
    ensures { IsTrue result ↔ IsBelow types.now.types slot.now (Value expected.now) }
{
    match *slot {
        Slot::Bottom => true,
        Slot::SomeRef => matches!(expected, ValType::Ref(_)),
        Slot::EitherRef(ty) => {
            types.val_type_is_sub_type(reference_to(false, ty), *expected)
                || types.val_type_is_sub_type(reference_to(true, ty), *expected)
        }
        Slot::Value(value) => types.val_type_is_sub_type(value, *expected),
    }
}

// Returns whether a value of the type `slot` may be used as one of the type `expected`. Neither is
// copied.
#[inline(always)]
pub(crate) fn fits(types: &TypeSpace, slot: &Slot, expected: &ValType) -> bool
    requires lower { IsSlotInRange types.now.types slot.now }
    requires upper { IsValInRange types.now.types expected.now }
    ensures { IsTrue result ↔ IsBelow types.now.types slot.now (Value expected.now) }
{
    is_same_number(*slot, *expected) || slot_matches(types, slot, expected)
}

/// Returns whether a value of the type `slot` may be used as one of the type `expected`
/// (Validation, Matching, Value Types). Requires the types that both refer to to exist.
#[inline(always)]
pub fn slot_fits(types: &TypeSpace, slot: Slot, expected: ValType) -> bool
    requires lower { IsSlotInRange types.now.types slot }
    requires upper { IsValInRange types.now.types expected }
    ensures { IsTrue result ↔ IsBelow types.now.types slot (Value expected) }
{
    fits(types, &slot, &expected)
}

/// Returns whether there are as many slots as expected types, and each of `slots` may be used as a
/// value of the type at its place in `expected` (Validation, Matching, Result Types). Requires the
/// types that both refer to to exist.
pub fn slots_fit(types: &TypeSpace, slots: &[Slot], expected: &[ValType]) -> bool
    requires lower { All (IsSlotInRange types.now.types) slots.now }
    requires upper { All (IsValInRange types.now.types) expected.now }
    ensures { IsTrue result ↔ AreFit types.now.types slots.now expected.now }
{
    if slots.len() != expected.len() {
        return false;
    }
    for i in 0..slots.len() {
        if !fits(types, &slots[i], &expected[i]) {
            return false;
        }
    }
    true
}

/// Returns whether there are as many types in `these` as in `others`, and each matches that at its
/// place (Validation, Matching, Result Types). Requires the types that both refer to to exist.
pub fn values_fit(types: &TypeSpace, these: &[ValType], others: &[ValType]) -> bool
    requires lower { All (IsValInRange types.now.types) these.now }
    requires upper { All (IsValInRange types.now.types) others.now }
    ensures { IsTrue result ↔ AreMatched types.now.types these.now others.now }
{
    if these.len() != others.len() {
        return false;
    }
    for i in 0..these.len() {
        if !types.val_type_is_sub_type(these[i], others[i]) {
            return false;
        }
    }
    true
}
