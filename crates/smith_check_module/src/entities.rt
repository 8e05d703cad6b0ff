ghost use Rattle.std.specs.Prelude.{◌↔◌, ◌<◌, IsTrue};
ghost use Rattle.smith_types.specs.Syntax.FeatureBits.{features_in};
ghost use Rattle.smith_types.specs.Entities.{
  IsFuncTypeIndex,
  IsGlobalValid,
  IsMemoryValid,
  IsTableValid,
};

use smith_types::{GlobalType, MemoryType, SubType, TableType, WasmFeatures};
use smith_validity::{are_funcs_valid, are_globals_valid, are_memories_valid, are_tables_valid};

/// Returns whether a function of the type `index` is valid (Validation, Functions).
pub(crate) fn is_func(types: &[SubType], index: u32) -> bool
    ensures { IsTrue result ↔ IsFuncTypeIndex types.now index }
{
    are_funcs_valid(types, &[index])
}

/// Returns whether a tag of the type `index` is valid (Validation, Tag Types). Tags require exceptions.
pub(crate) fn is_tag(features: WasmFeatures, types: &[SubType], index: u32) -> bool
    ensures { IsTrue result
        ↔ (IsFuncTypeIndex types.now index × IsTrue (features_in features).exceptions) }
{
    is_func(types, index) && features.contains(WasmFeatures::EXCEPTIONS)
}

fn is_table_valid(features: WasmFeatures, types: &[SubType], table: TableType) -> bool
    ensures { IsTrue result ↔ IsTableValid (features_in features) types.now table }
{
    are_tables_valid(features, types, &[table])
}

/// Returns whether the table with this index is valid (Validation, Table Types). All but the first
/// require reference types.
pub(crate) fn is_table(
    features: WasmFeatures,
    types: &[SubType],
    table: TableType,
    index: usize,
) -> bool
    ensures { IsTrue result ↔ (IsTableValid (features_in features) types.now table
        × (0 < index → IsTrue (features_in features).reference_types)) }
{
    is_table_valid(features, types, table)
        && (index == 0 || features.contains(WasmFeatures::REFERENCE_TYPES))
}

fn is_memory_valid(features: WasmFeatures, memory: MemoryType) -> bool
    ensures { IsTrue result ↔ IsMemoryValid (features_in features) memory }
{
    are_memories_valid(features, &[memory])
}

/// Returns whether the memory with this index is valid (Validation, Memory Types). All but the first
/// require several memories.
pub(crate) fn is_memory(features: WasmFeatures, memory: MemoryType, index: usize) -> bool
    ensures { IsTrue result ↔ (IsMemoryValid (features_in features) memory
        × (0 < index → IsTrue (features_in features).multi_memory)) }
{
    is_memory_valid(features, memory)
        && (index == 0 || features.contains(WasmFeatures::MULTI_MEMORY))
}

/// Returns whether a global is valid (Validation, Global Types).
pub(crate) fn is_global(features: WasmFeatures, types: &[SubType], global: GlobalType) -> bool
    ensures { IsTrue result ↔ IsGlobalValid (features_in features) types.now global }
{
    are_globals_valid(features, types, &[global])
}
