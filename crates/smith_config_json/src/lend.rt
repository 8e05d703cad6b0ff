ghost use Rattle.std.specs.Borrow.{sem};
ghost use Rattle.smith_config_json.specs.Places.{LendsSize, LendsWord, LendsLong, LendsFlag};

use crate::place::{Flag, Long, Size, Word};
use smith_config::Config;

/// Lends the field of type `usize` at a place.
pub(crate) fn size_at(config: &mut Config, size: Size) -> &mut usize
    ensures* { sem 𝓛 (LendsSize config.entry size result) }
{
    match size {
        Size::MinTypes => &mut config.min_types,
        Size::MaxTypes => &mut config.max_types,
        Size::MinImports => &mut config.min_imports,
        Size::MaxImports => &mut config.max_imports,
        Size::MinTags => &mut config.min_tags,
        Size::MaxTags => &mut config.max_tags,
        Size::MinFuncs => &mut config.min_funcs,
        Size::MaxFuncs => &mut config.max_funcs,
        Size::MinGlobals => &mut config.min_globals,
        Size::MaxGlobals => &mut config.max_globals,
        Size::MinExports => &mut config.min_exports,
        Size::MaxExports => &mut config.max_exports,
        Size::MinElementSegments => &mut config.min_element_segments,
        Size::MaxElementSegments => &mut config.max_element_segments,
        Size::MinElements => &mut config.min_elements,
        Size::MaxElements => &mut config.max_elements,
        Size::MinDataSegments => &mut config.min_data_segments,
        Size::MaxDataSegments => &mut config.max_data_segments,
        Size::MaxMemories => &mut config.max_memories,
        Size::MaxTables => &mut config.max_tables,
        Size::MaxInstructions => &mut config.max_instructions,
        Size::MaxAliases => &mut config.max_aliases,
        Size::MaxComponents => &mut config.max_components,
        Size::MaxInstances => &mut config.max_instances,
        Size::MaxModules => &mut config.max_modules,
        Size::MaxNestingDepth => &mut config.max_nesting_depth,
        Size::MaxValues => &mut config.max_values,
    }
}

/// Lends the field of type `u32` at a place.
pub(crate) fn word_at(config: &mut Config, word: Word) -> &mut u32
    ensures* { sem 𝓛 (LendsWord config.entry word result) }
{
    match word {
        Word::MinMemories => &mut config.min_memories,
        Word::MinTables => &mut config.min_tables,
        Word::MaxTypeSize => &mut config.max_type_size,
        Word::ConstExprFuel => &mut config.const_expr_fuel,
    }
}

/// Lends the field of type `u64` at a place.
pub(crate) fn long_at(config: &mut Config, long: Long) -> &mut u64
    ensures* { sem 𝓛 (LendsLong config.entry long result) }
{
    match long {
        Long::MaxMemory32Bytes => &mut config.max_memory32_bytes,
        Long::MaxTableElements => &mut config.max_table_elements,
    }
}

/// Lends the field of type `bool` at a place.
pub(crate) fn flag_at(config: &mut Config, flag: Flag) -> &mut bool
    ensures* { sem 𝓛 (LendsFlag config.entry flag result) }
{
    match flag {
        Flag::MemoryMaxSizeRequired => &mut config.memory_max_size_required,
        Flag::TableMaxSizeRequired => &mut config.table_max_size_required,
        Flag::LimitArraysInConstExprs => &mut config.limit_arrays_in_const_exprs,
        Flag::AllowStartExport => &mut config.allow_start_export,
        Flag::ExportEverything => &mut config.export_everything,
        Flag::AllowFloats => &mut config.allow_floats,
        Flag::DisallowTraps => &mut config.disallow_traps,
        Flag::AllowInvalidFuncs => &mut config.allow_invalid_funcs,
        Flag::ReferenceTypesEnabled => &mut config.reference_types_enabled,
        Flag::GcEnabled => &mut config.gc_enabled,
        Flag::CustomDescriptorsEnabled => &mut config.custom_descriptors_enabled,
        Flag::MultiValueEnabled => &mut config.multi_value_enabled,
        Flag::BulkMemoryEnabled => &mut config.bulk_memory_enabled,
        Flag::SimdEnabled => &mut config.simd_enabled,
        Flag::ExceptionsEnabled => &mut config.exceptions_enabled,
        Flag::ThreadsEnabled => &mut config.threads_enabled,
        Flag::SharedEverythingThreadsEnabled => &mut config.shared_everything_threads_enabled,
        Flag::Memory64Enabled => &mut config.memory64_enabled,
        Flag::CustomPageSizesEnabled => &mut config.custom_page_sizes_enabled,
        Flag::ExtendedConstEnabled => &mut config.extended_const_enabled,
        Flag::CompactImportsEnabled => &mut config.compact_imports_enabled,
        Flag::RelaxedSimdEnabled => &mut config.relaxed_simd_enabled,
        Flag::SaturatingFloatToIntEnabled => &mut config.saturating_float_to_int_enabled,
        Flag::SignExtensionOpsEnabled => &mut config.sign_extension_ops_enabled,
        Flag::TailCallEnabled => &mut config.tail_call_enabled,
        Flag::WideArithmeticEnabled => &mut config.wide_arithmetic_enabled,
        Flag::AcquireReleaseAtomicsEnabled => &mut config.acquire_release_atomics_enabled,
        Flag::MultibyteArrayAccessEnabled => &mut config.multibyte_array_access_enabled,
        Flag::NonNullableEnabled => &mut config.non_nullable_enabled,
        Flag::CanonicalizeNans => &mut config.canonicalize_nans,
        Flag::GenerateCustomSections => &mut config.generate_custom_sections,
    }
}
