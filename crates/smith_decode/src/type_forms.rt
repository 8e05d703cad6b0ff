ghost use Rattle.std.specs.Prelude.{◌≡◌, ◌↔◌, IsTrue, All, false, length};
ghost use Rattle.smith_types.specs.Syntax.FeatureBits.{features_in};
ghost use Rattle.smith_types.specs.Flags.{
  IsAbstractEnabled,
  IsElementTypeEnabled,
  IsHeapTypeEnabled,
  IsImportsEnabled,
  IsInnerEnabled,
  IsSubTypeEnabled,
  funcref,
};
ghost use Rattle.smith_decode.specs.TypeForms.{
  AreImportTypesEnabled,
  IsEntityTypeEnabled,
  IsGlobalTypeEnabled,
  IsMemoryTypeEnabled,
  IsRefTypeEnabled,
  IsTableTypeEnabled,
  IsTypeEnabled,
  IsValTypeEnabled,
};

use smith_types::{
    AbstractHeapType, CompositeInnerType, EntityType, GlobalType, HeapType, ImportItem, Imports,
    Items, MemoryType, RefType, SubType, TableType, ValType, WasmFeatures,
};
use smith_validity::{Predicate, all_hold, all_values_hold};

/// Tests whether `features` enable the form of an item.
#[derive(Clone, Copy)]
pub(crate) struct EnabledForm {
    /// The features that are on.
    pub features: WasmFeatures,
}

impl Predicate<ValType> for EnabledForm {
    ghost use Rattle.smith_decode.specs.TypeForms.{IsValTypeEnabled};
    ghost use Rattle.smith_types.specs.Syntax.FeatureBits.{features_in};

    ghost meaning = { λ form value. IsValTypeEnabled (features_in form.features) value };

    fn holds(&self, item: &ValType) -> bool {
        is_val_type_enabled(self.features, *item)
    }
}

impl Predicate<SubType> for EnabledForm {
    ghost use Rattle.smith_decode.specs.TypeForms.{IsTypeEnabled};
    ghost use Rattle.smith_types.specs.Syntax.FeatureBits.{features_in};

    ghost meaning = { λ form ty. IsTypeEnabled (features_in form.features) ty };

    fn holds(&self, item: &SubType) -> bool {
        is_sub_type_enabled(self.features, item)
            && all_values_hold(self, &item.composite_type.inner)
    }
}

impl Predicate<Items<SubType>> for EnabledForm {
    ghost use Rattle.smith_decode.specs.TypeForms.{IsGroupEnabled};
    ghost use Rattle.smith_types.specs.Syntax.FeatureBits.{features_in};

    ghost meaning = { λ form group. IsGroupEnabled (features_in form.features) group };

    fn holds(&self, item: &Items<SubType>) -> bool {
        all_hold(self, item.as_slice()) && is_size_enabled(self.features, item.as_slice())
    }
}

impl Predicate<ImportItem> for EnabledForm {
    ghost use Rattle.smith_decode.specs.TypeForms.{IsEntityTypeEnabled};
    ghost use Rattle.smith_types.specs.Syntax.FeatureBits.{features_in};

    ghost meaning = { λ form item. IsEntityTypeEnabled (features_in form.features) item.entity_type };

    fn holds(&self, item: &ImportItem) -> bool {
        is_entity_type_enabled(self.features, item.entity_type)
    }
}

impl Predicate<Imports> for EnabledForm {
    ghost use Rattle.smith_decode.specs.TypeForms.{IsImportGroupEnabled};
    ghost use Rattle.smith_types.specs.Syntax.FeatureBits.{features_in};

    ghost meaning = { λ form group. IsImportGroupEnabled (features_in form.features) group };

    fn holds(&self, item: &Imports) -> bool {
        is_import_form_enabled(self.features, item) && are_import_types_enabled(*self, item)
    }
}

impl Predicate<MemoryType> for EnabledForm {
    ghost use Rattle.smith_decode.specs.TypeForms.{IsMemoryTypeEnabled};
    ghost use Rattle.smith_types.specs.Syntax.FeatureBits.{features_in};

    ghost meaning = { λ form memory. IsMemoryTypeEnabled (features_in form.features) memory };

    fn holds(&self, item: &MemoryType) -> bool {
        is_memory_type_enabled(self.features, *item)
    }
}

fn is_abstract_enabled(features: WasmFeatures, ty: AbstractHeapType) -> bool
    ensures { IsTrue result ↔ IsAbstractEnabled (features_in features) ty }
{
    match ty {
        AbstractHeapType::Func | AbstractHeapType::Extern => true,
        AbstractHeapType::Exn => features.contains(WasmFeatures::EXCEPTIONS),
        AbstractHeapType::NoExn => {
            features.contains(WasmFeatures::EXCEPTIONS) && features.contains(WasmFeatures::GC)
        }
        _ => features.contains(WasmFeatures::GC),
    }
}

/// Returns whether `features` enable the form of `heap_type`.
pub(crate) fn is_heap_type_enabled(features: WasmFeatures, heap_type: HeapType) -> bool
    ensures { IsTrue result ↔ IsHeapTypeEnabled (features_in features) heap_type }
{
    match heap_type {
        HeapType::Abstract { shared, ty } => {
            is_abstract_enabled(features, ty)
                && (!shared || features.contains(WasmFeatures::SHARED_EVERYTHING_THREADS))
        }
        HeapType::Concrete(_) => features.contains(WasmFeatures::GC),
        HeapType::Exact(_) => features.contains(WasmFeatures::CUSTOM_DESCRIPTORS),
    }
}

/// Returns whether `features` enable the form of `reference`.
pub(crate) fn is_ref_type_enabled(features: WasmFeatures, reference: RefType) -> bool
    ensures { IsTrue result ↔ IsRefTypeEnabled (features_in features) reference }
{
    is_heap_type_enabled(features, reference.heap_type)
        && (reference.nullable || features.contains(WasmFeatures::FUNCTION_REFERENCES))
}

/// Returns whether `features` enable the form of `value`.
pub(crate) fn is_val_type_enabled(features: WasmFeatures, value: ValType) -> bool
    ensures { IsTrue result ↔ IsValTypeEnabled (features_in features) value }
{
    match value {
        ValType::V128 => features.contains(WasmFeatures::SIMD),
        ValType::Ref(reference) => {
            features.contains(WasmFeatures::REFERENCE_TYPES)
                && is_ref_type_enabled(features, reference)
        }
        _ => true,
    }
}

fn is_inner_enabled(features: WasmFeatures, inner: &CompositeInnerType) -> bool
    ensures { IsTrue result ↔ IsInnerEnabled (features_in features) inner.now }
{
    match inner {
        CompositeInnerType::Func(function) => {
            function.results.len() <= 1 || features.contains(WasmFeatures::MULTI_VALUE)
        }
        _ => features.contains(WasmFeatures::GC),
    }
}

fn is_sub_type_enabled(features: WasmFeatures, ty: &SubType) -> bool
    ensures { IsTrue result ↔ IsSubTypeEnabled (features_in features) ty.now }
{
    is_inner_enabled(features, &ty.composite_type.inner)
        && (ty.is_final || features.contains(WasmFeatures::GC))
        && (ty.supertype.is_none() || features.contains(WasmFeatures::GC))
        && (!ty.composite_type.shared || features.contains(WasmFeatures::SHARED_EVERYTHING_THREADS))
}

// Returns whether `group` has exactly one type, unless garbage collection is on.
fn is_size_enabled(features: WasmFeatures, group: &[SubType]) -> bool
    ensures { IsTrue result ↔ ((features_in features).gc ≡ false → length group.now ≡ 1) }
{
    features.contains(WasmFeatures::GC) || group.len() == 1
}

fn is_funcref(reference: RefType) -> bool
    ensures { IsTrue result ↔ (reference ≡ funcref) }
{
    reference.nullable
        && match reference.heap_type {
            HeapType::Abstract { shared, ty } => !shared && matches!(ty, AbstractHeapType::Func),
            _ => false,
        }
}

// Returns whether `features` enable the elements `reference` of a table.
fn is_element_type_enabled(features: WasmFeatures, reference: RefType) -> bool
    ensures { IsTrue result ↔ IsElementTypeEnabled (features_in features) reference }
{
    is_funcref(reference) || features.contains(WasmFeatures::REFERENCE_TYPES)
}

/// Returns whether `features` enable the form of `table`.
pub(crate) fn is_table_type_enabled(features: WasmFeatures, table: TableType) -> bool
    ensures { IsTrue result ↔ IsTableTypeEnabled (features_in features) table }
{
    is_ref_type_enabled(features, table.element_type)
        && is_element_type_enabled(features, table.element_type)
        && (!table.table64 || features.contains(WasmFeatures::MEMORY64))
        && (!table.shared || features.contains(WasmFeatures::SHARED_EVERYTHING_THREADS))
}

fn is_memory_type_enabled(features: WasmFeatures, memory: MemoryType) -> bool
    ensures { IsTrue result ↔ IsMemoryTypeEnabled (features_in features) memory }
{
    (memory.page_size_log2.is_none() || features.contains(WasmFeatures::CUSTOM_PAGE_SIZES))
        && (!memory.memory64 || features.contains(WasmFeatures::MEMORY64))
        && (!memory.shared || features.contains(WasmFeatures::THREADS))
}

/// Returns whether `features` enable the form of `global`.
pub(crate) fn is_global_type_enabled(features: WasmFeatures, global: GlobalType) -> bool
    ensures { IsTrue result ↔ IsGlobalTypeEnabled (features_in features) global }
{
    is_val_type_enabled(features, global.val_type)
        && (!global.shared || features.contains(WasmFeatures::SHARED_EVERYTHING_THREADS))
}

fn is_entity_type_enabled(features: WasmFeatures, ty: EntityType) -> bool
    ensures { IsTrue result ↔ IsEntityTypeEnabled (features_in features) ty }
{
    match ty {
        EntityType::Func(_) => true,
        EntityType::Table(table) => is_table_type_enabled(features, table),
        EntityType::Memory(memory) => is_memory_type_enabled(features, memory),
        EntityType::Global(global) => is_global_type_enabled(features, global),
        EntityType::Tag(_) => features.contains(WasmFeatures::EXCEPTIONS),
    }
}

fn is_import_form_enabled(features: WasmFeatures, group: &Imports) -> bool
    ensures { IsTrue result ↔ IsImportsEnabled (features_in features) group.now }
{
    match group {
        Imports::Single(_) => true,
        _ => features.contains(WasmFeatures::COMPACT_IMPORTS),
    }
}

fn are_import_types_enabled(form: EnabledForm, group: &Imports) -> bool
    ensures { IsTrue result ↔ AreImportTypesEnabled (features_in form.features) group.now }
{
    match group {
        Imports::Single(one) => is_entity_type_enabled(form.features, one.entity_type),
        Imports::Compact1 { module: _, items } => all_hold(&form, items.as_slice()),
        Imports::Compact2 {
            module: _,
            entity_type,
            names: _,
        } => { is_entity_type_enabled(form.features, *entity_type) }
    }
}
