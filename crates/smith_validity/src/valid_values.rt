ghost use Rattle.std.specs.Prelude.{◌≡◌, ◌↔◌, IsTrue, Some, slice_get};
ghost use Rattle.smith_types.specs.Syntax.FeatureBits.{features_in};
ghost use Rattle.smith_types.specs.Flags.{IsAbstractEnabled};
ghost use Rattle.smith_types.specs.Subtyping.{IsValInRange};
ghost use Rattle.smith_types.specs.ValidTypes.{
  IsHeapTypeValid,
  IsRefTypeValid,
  IsValTypeValid,
  IsHeapTypeShared,
  IsShareable,
};
ghost use Rattle.smith_types.specs.Syntax.composite_type.SubType.{SubType};

use crate::predicate::Predicate;
use smith_types::{AbstractHeapType, HeapType, RefType, SubType, ValType, WasmFeatures};

/// Tests whether a value type is valid for `features` if it may refer to types below the index
/// `end` (Validation, Value Types). The conditions on features are rules of this project.
#[derive(Clone, Copy)]
pub struct ValidValue {
    /// The enabled features.
    pub features: WasmFeatures,
    /// The index below which types may be referred to.
    pub end: usize,
}

impl Predicate<ValType> for ValidValue {
    ghost meaning = { λ valid value. IsValTypeValid (features_in valid.features) valid.end value };

    fn holds(&self, item: &ValType) -> bool {
        is_val_type_valid(self.features, self.end, *item)
    }
}

/// Tests whether a value type may occur in a shared type. By a rule of this project, numbers,
/// vectors and shared references may.
#[derive(Clone, Copy)]
pub struct ShareableValue<'a> {
    /// The types of the module.
    pub types: &'a [SubType],
}

impl<'a> Predicate<ValType> for ShareableValue<'a> {
    ghost meaning = { λ shareable value. IsShareable shareable.types.now value };

    fn holds(&self, item: &ValType) -> bool {
        match item {
            ValType::Ref(reference) => is_heap_type_shared(self.types, reference.heap_type),
            _ => true,
        }
    }
}

/// Tests whether a value type refers to no type, or to a type that exists.
#[derive(Clone, Copy)]
pub struct StandingValue<'a> {
    /// The types of the module.
    pub types: &'a [SubType],
}

impl<'a> Predicate<ValType> for StandingValue<'a> {
    ghost meaning = { λ standing value. IsValInRange standing.types.now value };

    fn holds(&self, item: &ValType) -> bool {
        match item {
            ValType::Ref(reference) => match reference.heap_type {
                HeapType::Abstract { shared: _, ty: _ } => true,
                HeapType::Concrete(index) | HeapType::Exact(index) => (index as usize)
                    < self.types.len(),
            },
            _ => true,
        }
    }
}

/// Returns whether the value type `value` is valid for `features` if it may refer to types below
/// the index `end` (Validation, Value Types). The conditions on features are rules of this project.
pub fn is_val_type_valid(features: WasmFeatures, end: usize, value: ValType) -> bool
    ensures { IsTrue result ↔ IsValTypeValid (features_in features) end value }
{
    match value {
        ValType::V128 => features.contains(WasmFeatures::SIMD),
        ValType::Ref(reference) => {
            features.contains(WasmFeatures::REFERENCE_TYPES)
                && is_ref_type_valid(features, end, reference)
        }
        _ => true,
    }
}

/// Returns whether the reference type `reference` is valid for `features` if it may refer to types
/// below the index `end` (Validation, Reference Types). The conditions on features are rules of
/// this project.
pub fn is_ref_type_valid(features: WasmFeatures, end: usize, reference: RefType) -> bool
    ensures { IsTrue result ↔ IsRefTypeValid (features_in features) end reference }
{
    is_heap_type_valid(features, end, reference.heap_type)
        && (reference.nullable || features.contains(WasmFeatures::FUNCTION_REFERENCES))
}

fn is_heap_type_valid(features: WasmFeatures, end: usize, heap_type: HeapType) -> bool
    ensures { IsTrue result ↔ IsHeapTypeValid (features_in features) end heap_type }
{
    match heap_type {
        HeapType::Abstract { shared, ty } => {
            is_abstract_enabled(features, ty)
                && (!shared || features.contains(WasmFeatures::SHARED_EVERYTHING_THREADS))
        }
        HeapType::Concrete(index) => features.contains(WasmFeatures::GC) && (index as usize) < end,
        HeapType::Exact(index) => {
            features.contains(WasmFeatures::CUSTOM_DESCRIPTORS) && (index as usize) < end
        }
    }
}

fn is_abstract_enabled(features: WasmFeatures, ty: AbstractHeapType) -> bool
    ensures { IsTrue result ↔ IsAbstractEnabled (features_in features) ty }
{
    match ty {
        AbstractHeapType::Func | AbstractHeapType::Extern => true,
        AbstractHeapType::Exn => features.contains(WasmFeatures::EXCEPTIONS),
        AbstractHeapType::NoExn => {
            features.contains(WasmFeatures::EXCEPTIONS) && features.contains(WasmFeatures::GC)
        }
        _ => features.contains(WasmFeatures::GC),
    }
}

fn is_heap_type_shared(types: &[SubType], heap_type: HeapType) -> bool
    ensures { IsTrue result ↔ IsHeapTypeShared types.now heap_type }
{
    match heap_type {
        HeapType::Abstract { shared, ty: _ } => shared,
        HeapType::Concrete(index) | HeapType::Exact(index) => is_shared_at(types, index),
    }
}

fn is_shared_at(types: &[SubType], index: u32) -> bool
    ensures { IsTrue result
        ↔ ((t : SubType) × (slice_get types.now index ≡ Some t) × IsTrue t.composite_type.shared) }
{
    match types.get(index as usize) {
        Some(ty) => ty.composite_type.shared,
        None => false,
    }
}
