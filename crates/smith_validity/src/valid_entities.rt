ghost use Rattle.std.specs.Prelude.{◌≡◌, ◌↔◌, ◌⊎◌, IsTrue, IfSome, All, Some, slice_get};
ghost use Rattle.smith_types.specs.Syntax.FeatureBits.{features_in};
ghost use Rattle.smith_types.specs.EntitySpaces.{spaces_in};
ghost use Rattle.smith_types.specs.Flags.{IsElementTypeEnabled, funcref};
ghost use Rattle.smith_types.specs.ValidTypes.{IsShareable};
ghost use Rattle.smith_types.specs.Entities.{
  AreLimitsValid,
  most_elements,
  most_pages as pages,
  IsFuncTypeIndex,
  IsTagValid,
  IsTableValid,
  IsMemoryValid,
  IsGlobalValid,
  AreCountsEnabled,
  AreEntitiesValid,
};
ghost use Rattle.smith_validity.specs.Decided.{IsTagType, AreTagsValid, AreFuncsValid, AreListsValid};
ghost use Rattle.smith_types.specs.Syntax.composite_type.SubType.{SubType};

use crate::predicate::{Predicate, all_hold};
use crate::valid_values::{ShareableValue, is_ref_type_valid, is_val_type_valid};
use smith_types::{
    AbstractHeapType, CompositeInnerType, EntitySpaces, GlobalType, HeapType, MemoryType, RefType,
    SubType, TableType, ValType, WasmFeatures,
};

/// Returns whether every entity of `spaces` is valid for `types` and `features` (Validation,
/// External Types). The conditions on features, sharedness, explicit page sizes and results of tags
/// are rules of this project.
pub fn are_entities_valid(features: WasmFeatures, types: &[SubType], spaces: &EntitySpaces) -> bool
    ensures { IsTrue result
        ↔ AreEntitiesValid (features_in features) types.now (spaces_in spaces.now) }
{
    are_lists_valid(features, types, spaces)
}

fn are_lists_valid(features: WasmFeatures, types: &[SubType], spaces: &EntitySpaces) -> bool
    ensures { IsTrue result
        ↔ AreListsValid (features_in features) types.now (spaces_in spaces.now) }
{
    are_tags_valid(types, spaces.tags.as_slice())
        && are_funcs_valid(types, spaces.funcs.as_slice())
        && are_tables_valid(features, types, spaces.tables.as_slice())
        && are_memories_valid(features, spaces.memories.as_slice())
        && are_globals_valid(features, types, spaces.globals.as_slice())
}

/// Returns whether `features` permit the numbers of entities in `spaces`. By rules of this project,
/// tags require exceptions, a second table requires reference types, and a second memory requires
/// multi-memory.
pub fn are_counts_enabled(features: WasmFeatures, spaces: &EntitySpaces) -> bool
    ensures { IsTrue result ↔ AreCountsEnabled (features_in features) (spaces_in spaces.now) }
{
    (spaces.tags.is_empty() || features.contains(WasmFeatures::EXCEPTIONS))
        && (spaces.tables.len() <= 1 || features.contains(WasmFeatures::REFERENCE_TYPES))
        && (spaces.memories.len() <= 1 || features.contains(WasmFeatures::MULTI_MEMORY))
}

/// Returns whether each of `tags`, given by its type index in `types`, is valid (Validation, Tag
/// Types). By a rule of this project, a tag has no results.
pub fn are_tags_valid(types: &[SubType], tags: &[u32]) -> bool
    ensures { IsTrue result ↔ AreTagsValid types.now tags.now }
{
    all_hold(&ValidTag { types }, tags)
}

/// Returns whether each of `funcs`, given by its type index in `types`, is valid (Validation,
/// Functions).
pub fn are_funcs_valid(types: &[SubType], funcs: &[u32]) -> bool
    ensures { IsTrue result ↔ AreFuncsValid types.now funcs.now }
{
    all_hold(&ValidFunc { types }, funcs)
}

/// Returns whether each of `tables` is valid for `types` and `features` (Validation, Table Types).
/// The conditions on features and sharedness are rules of this project.
pub fn are_tables_valid(features: WasmFeatures, types: &[SubType], tables: &[TableType]) -> bool
    ensures { IsTrue result ↔ All (IsTableValid (features_in features) types.now) tables.now }
{
    tables
        .iter()
        .all(|table| is_table_valid(features, types, *table))
}

/// Returns whether each of `memories` is valid for `features` (Validation, Memory Types). The
/// conditions on features, sharedness and explicit page sizes are rules of this project.
pub fn are_memories_valid(features: WasmFeatures, memories: &[MemoryType]) -> bool
    ensures { IsTrue result ↔ All (IsMemoryValid (features_in features)) memories.now }
{
    memories
        .iter()
        .all(|memory| is_memory_valid(features, *memory))
}

/// Returns whether each of `globals` is valid for `types` and `features` (Validation, Global
/// Types). The conditions on features and sharedness are rules of this project.
pub fn are_globals_valid(features: WasmFeatures, types: &[SubType], globals: &[GlobalType]) -> bool
    ensures { IsTrue result ↔ All (IsGlobalValid (features_in features) types.now) globals.now }
{
    globals
        .iter()
        .all(|global| is_global_valid(features, types, *global))
}

/// Returns whether `minimum` is at most `maximum`, if there is one, and neither exceeds `most`
/// (Validation, Limits).
pub fn are_limits_valid(most: u64, minimum: u64, maximum: Option<u64>) -> bool
    ensures { IsTrue result ↔ AreLimitsValid most minimum maximum }
{
    minimum <= most
        && match maximum {
            Some(maximum) => minimum <= maximum && maximum <= most,
            None => true,
        }
}

/// Returns the maximum number of elements of a table (Validation, Table Types). Its indices have 64
/// bits if `table64` is `true`.
pub fn most_elements_of(table64: bool) -> u64
    ensures { result ≡ most_elements table64 }
{
    if table64 { u64::MAX } else { u32::MAX as u64 }
}

fn is_table_valid(features: WasmFeatures, types: &[SubType], table: TableType) -> bool
    ensures { IsTrue result ↔ IsTableValid (features_in features) types.now table }
{
    are_limits_valid(
        most_elements_of(table.table64),
        table.minimum,
        table.maximum,
    ) && is_ref_type_valid(features, types.len(), table.element_type)
        && is_element_enabled(features, table.element_type)
        && (!table.table64 || features.contains(WasmFeatures::MEMORY64))
        && (!table.shared || may_be_shared(features, types, ValType::Ref(table.element_type)))
}

fn is_element_enabled(features: WasmFeatures, element: RefType) -> bool
    ensures { IsTrue result ↔ IsElementTypeEnabled (features_in features) element }
{
    is_funcref(element) || features.contains(WasmFeatures::REFERENCE_TYPES)
}

fn is_funcref(element: RefType) -> bool
    ensures { IsTrue result ↔ (element ≡ funcref) }
{
    element.nullable
        && match element.heap_type {
            HeapType::Abstract { shared, ty } => !shared && matches!(ty, AbstractHeapType::Func),
            _ => false,
        }
}

fn is_global_valid(features: WasmFeatures, types: &[SubType], global: GlobalType) -> bool
    ensures { IsTrue result ↔ IsGlobalValid (features_in features) types.now global }
{
    is_val_type_valid(features, types.len(), global.val_type)
        && (!global.shared || may_be_shared(features, types, global.val_type))
}

// Returns whether a shared table or global may hold the value type `value`.
fn may_be_shared(features: WasmFeatures, types: &[SubType], value: ValType) -> bool
    ensures { IsTrue result
        ↔ (IsTrue (features_in features).shared_everything_threads × IsShareable types.now value) }
{
    features.contains(WasmFeatures::SHARED_EVERYTHING_THREADS)
        && ShareableValue { types }.holds(&value)
}

fn is_memory_valid(features: WasmFeatures, memory: MemoryType) -> bool
    ensures { IsTrue result ↔ IsMemoryValid (features_in features) memory }
{
    is_page_size_valid(features, memory.page_size_log2)
        && are_limits_valid(
            most_pages_of(memory.memory64, memory.page_size_log2),
            memory.minimum,
            memory.maximum,
        )
        && (!memory.memory64 || features.contains(WasmFeatures::MEMORY64))
        && (!memory.shared
            || (features.contains(WasmFeatures::THREADS) && memory.maximum.is_some()))
}

fn is_page_size_valid(features: WasmFeatures, stated: Option<u32>) -> bool
    ensures { IsTrue result ↔ IfSome stated (λ log2.
        ((log2 ≡ 0) ⊎ (log2 ≡ 16)) × IsTrue (features_in features).custom_page_sizes) }
{
    match stated {
        Some(log2) => {
            (log2 == 0 || log2 == 16) && features.contains(WasmFeatures::CUSTOM_PAGE_SIZES)
        }
        None => true,
    }
}

fn most_pages_of(memory64: bool, stated: Option<u32>) -> u64
    requires { IfSome stated (λ log2. (log2 ≡ 0) ⊎ (log2 ≡ 16)) }
    ensures { result ≡ pages memory64 stated }
{
    match stated {
        Some(0) => { if memory64 { u64::MAX } else { u32::MAX as u64 } }
        _ => { if memory64 { 1 << 48 } else { 1 << 16 } }
    }
}

#[derive(Clone, Copy)]
struct ValidFunc<'a> {
    types: &'a [SubType],
}

impl<'a> Predicate<u32> for ValidFunc<'a> {
    ghost meaning = { λ valid index. IsFuncTypeIndex valid.types.now index };

    fn holds(&self, item: &u32) -> bool {
        is_func_valid(self.types, *item)
    }
}

fn is_func_valid(types: &[SubType], index: u32) -> bool
    ensures { IsTrue result ↔ IsFuncTypeIndex types.now index }
{
    match types.get(index as usize) {
        Some(ty) => matches!(&ty.composite_type.inner, CompositeInnerType::Func(_)),
        None => false,
    }
}

#[derive(Clone, Copy)]
struct ValidTag<'a> {
    types: &'a [SubType],
}

impl<'a> Predicate<u32> for ValidTag<'a> {
    ghost meaning = { λ valid index. IsTagValid valid.types.now index };

    fn holds(&self, item: &u32) -> bool {
        is_tag_valid(self.types, *item)
    }
}

fn is_tag_valid(types: &[SubType], index: u32) -> bool
    ensures { IsTrue result ↔ IsTagValid types.now index }
{
    match types.get(index as usize) {
        Some(ty) => is_tag_type(&ty.composite_type.inner),
        None => false,
    }
}

fn is_tag_type(inner: &CompositeInnerType) -> bool
    ensures { IsTrue result ↔ IsTagType inner.now }
{
    match inner {
        CompositeInnerType::Func(function) => function.results.is_empty(),
        _ => false,
    }
}
