ghost use Rattle.std.specs.Prelude.{◌≡◌};
ghost use Rattle.smith_config.specs.InUse.{HasNoShapes};
ghost use Rattle.smith_c.specs.KeptConfigs.{config_of, kept_additions, kept_fuel, request_of};

use bitflags::Flags;
use smith_config::{Config, MemoryOffsetChoices};
use smith_request::{Additions, Fuel, Request};
use smith_types::InstructionKinds;

// The number of values of 64 bits.
const WORD: u128 = 1 << 64;

/// What the text of a configuration requests, in memory of the caller: numbers without pointers, so
/// that it can be copied and needs no release. The fields are those of [`Config`] that a text can
/// set, in the order of their sizes, and what is added to a program.
#[repr(C)]
#[derive(Clone, Copy)]
pub struct KeptConfig {
    min_types: usize,
    max_types: usize,
    min_imports: usize,
    max_imports: usize,
    min_tags: usize,
    max_tags: usize,
    min_funcs: usize,
    max_funcs: usize,
    min_globals: usize,
    max_globals: usize,
    min_exports: usize,
    max_exports: usize,
    min_element_segments: usize,
    max_element_segments: usize,
    min_elements: usize,
    max_elements: usize,
    min_data_segments: usize,
    max_data_segments: usize,
    max_memories: usize,
    max_tables: usize,
    max_instructions: usize,
    max_aliases: usize,
    max_components: usize,
    max_instances: usize,
    max_modules: usize,
    max_nesting_depth: usize,
    max_values: usize,
    max_memory32_bytes: u64,
    max_table_elements: u64,
    max_memory64_bytes_low: u64,
    max_memory64_bytes_high: u64,
    min_memories: u32,
    min_tables: u32,
    max_type_size: u32,
    const_expr_fuel: u32,
    offsets_inside: u32,
    offsets_between: u32,
    offsets_past: u32,
    fuel: u32,
    allowed_instructions: u16,
    min_uleb_size: u8,
    has_fuel: bool,
    is_fuel_exported: bool,
    is_observed: bool,
    memory_max_size_required: bool,
    table_max_size_required: bool,
    limit_arrays_in_const_exprs: bool,
    allow_start_export: bool,
    export_everything: bool,
    allow_floats: bool,
    disallow_traps: bool,
    allow_invalid_funcs: bool,
    reference_types_enabled: bool,
    gc_enabled: bool,
    custom_descriptors_enabled: bool,
    multi_value_enabled: bool,
    bulk_memory_enabled: bool,
    simd_enabled: bool,
    exceptions_enabled: bool,
    threads_enabled: bool,
    shared_everything_threads_enabled: bool,
    memory64_enabled: bool,
    custom_page_sizes_enabled: bool,
    extended_const_enabled: bool,
    compact_imports_enabled: bool,
    relaxed_simd_enabled: bool,
    saturating_float_to_int_enabled: bool,
    sign_extension_ops_enabled: bool,
    tail_call_enabled: bool,
    wide_arithmetic_enabled: bool,
    acquire_release_atomics_enabled: bool,
    multibyte_array_access_enabled: bool,
    non_nullable_enabled: bool,
    canonicalize_nans: bool,
    generate_custom_sections: bool,
}

impl KeptConfig {
    /// Keeps `request`.
    pub fn of(request: &Request) -> KeptConfig
        requires shapeless { HasNoShapes request.now.config }
        ensures { request_of result ≡ request.now }
    {
        let config = &request.config;
        let MemoryOffsetChoices(inside, between, past) = config.memory_offset_choices;
        let fuel = request.additions.fuel.unwrap_or(Fuel {
            amount: 0,
            is_exported: false,
        });
        KeptConfig {
            min_types: config.min_types,
            max_types: config.max_types,
            min_imports: config.min_imports,
            max_imports: config.max_imports,
            min_tags: config.min_tags,
            max_tags: config.max_tags,
            min_funcs: config.min_funcs,
            max_funcs: config.max_funcs,
            min_globals: config.min_globals,
            max_globals: config.max_globals,
            min_exports: config.min_exports,
            max_exports: config.max_exports,
            min_element_segments: config.min_element_segments,
            max_element_segments: config.max_element_segments,
            min_elements: config.min_elements,
            max_elements: config.max_elements,
            min_data_segments: config.min_data_segments,
            max_data_segments: config.max_data_segments,
            max_memories: config.max_memories,
            max_tables: config.max_tables,
            max_instructions: config.max_instructions,
            max_aliases: config.max_aliases,
            max_components: config.max_components,
            max_instances: config.max_instances,
            max_modules: config.max_modules,
            max_nesting_depth: config.max_nesting_depth,
            max_values: config.max_values,
            max_memory32_bytes: config.max_memory32_bytes,
            max_table_elements: config.max_table_elements,
            max_memory64_bytes_low: (config.max_memory64_bytes % WORD) as u64,
            max_memory64_bytes_high: (config.max_memory64_bytes / WORD) as u64,
            min_memories: config.min_memories,
            min_tables: config.min_tables,
            max_type_size: config.max_type_size,
            const_expr_fuel: config.const_expr_fuel,
            offsets_inside: inside,
            offsets_between: between,
            offsets_past: past,
            fuel: fuel.amount,
            allowed_instructions: config.allowed_instructions.bits(),
            min_uleb_size: config.min_uleb_size,
            has_fuel: request.additions.fuel.is_some(),
            is_fuel_exported: fuel.is_exported,
            is_observed: request.additions.is_observed,
            memory_max_size_required: config.memory_max_size_required,
            table_max_size_required: config.table_max_size_required,
            limit_arrays_in_const_exprs: config.limit_arrays_in_const_exprs,
            allow_start_export: config.allow_start_export,
            export_everything: config.export_everything,
            allow_floats: config.allow_floats,
            disallow_traps: config.disallow_traps,
            allow_invalid_funcs: config.allow_invalid_funcs,
            reference_types_enabled: config.reference_types_enabled,
            gc_enabled: config.gc_enabled,
            custom_descriptors_enabled: config.custom_descriptors_enabled,
            multi_value_enabled: config.multi_value_enabled,
            bulk_memory_enabled: config.bulk_memory_enabled,
            simd_enabled: config.simd_enabled,
            exceptions_enabled: config.exceptions_enabled,
            threads_enabled: config.threads_enabled,
            shared_everything_threads_enabled: config.shared_everything_threads_enabled,
            memory64_enabled: config.memory64_enabled,
            custom_page_sizes_enabled: config.custom_page_sizes_enabled,
            extended_const_enabled: config.extended_const_enabled,
            compact_imports_enabled: config.compact_imports_enabled,
            relaxed_simd_enabled: config.relaxed_simd_enabled,
            saturating_float_to_int_enabled: config.saturating_float_to_int_enabled,
            sign_extension_ops_enabled: config.sign_extension_ops_enabled,
            tail_call_enabled: config.tail_call_enabled,
            wide_arithmetic_enabled: config.wide_arithmetic_enabled,
            acquire_release_atomics_enabled: config.acquire_release_atomics_enabled,
            multibyte_array_access_enabled: config.multibyte_array_access_enabled,
            non_nullable_enabled: config.non_nullable_enabled,
            canonicalize_nans: config.canonicalize_nans,
            generate_custom_sections: config.generate_custom_sections,
        }
    }

    /// Returns the request that is kept.
    pub fn request(&self) -> Request
        ensures { result ≡ request_of self.now }
    {
        Request {
            config: self.config(),
            additions: self.additions(),
        }
    }

    // Returns what the request adds to a program.
    fn additions(&self) -> Additions
        ensures { result ≡ kept_additions self.now }
    {
        Additions {
            fuel: self.fuel(),
            is_observed: self.is_observed,
        }
    }

    // Returns the fuel of the request.
    fn fuel(&self) -> Option<Fuel>
        ensures { result ≡ kept_fuel self.now }
    {
        self.has_fuel.then_some(Fuel {
            amount: self.fuel,
            is_exported: self.is_fuel_exported,
        })
    }

    // Returns the configuration of the request.
    fn config(&self) -> Config
        ensures { result ≡ config_of self.now }
    {
        Config {
            min_types: self.min_types,
            max_types: self.max_types,
            min_imports: self.min_imports,
            max_imports: self.max_imports,
            min_tags: self.min_tags,
            max_tags: self.max_tags,
            min_funcs: self.min_funcs,
            max_funcs: self.max_funcs,
            min_globals: self.min_globals,
            max_globals: self.max_globals,
            min_exports: self.min_exports,
            max_exports: self.max_exports,
            min_element_segments: self.min_element_segments,
            max_element_segments: self.max_element_segments,
            min_elements: self.min_elements,
            max_elements: self.max_elements,
            min_data_segments: self.min_data_segments,
            max_data_segments: self.max_data_segments,
            min_memories: self.min_memories,
            max_memories: self.max_memories,
            min_tables: self.min_tables,
            max_tables: self.max_tables,
            max_memory32_bytes: self.max_memory32_bytes,
            max_memory64_bytes: u128::from(self.max_memory64_bytes_high) * WORD
                + u128::from(self.max_memory64_bytes_low),
            memory_max_size_required: self.memory_max_size_required,
            max_table_elements: self.max_table_elements,
            table_max_size_required: self.table_max_size_required,
            max_type_size: self.max_type_size,
            const_expr_fuel: self.const_expr_fuel,
            limit_arrays_in_const_exprs: self.limit_arrays_in_const_exprs,
            allow_start_export: self.allow_start_export,
            export_everything: self.export_everything,
            allow_floats: self.allow_floats,
            disallow_traps: self.disallow_traps,
            allow_invalid_funcs: self.allow_invalid_funcs,
            reference_types_enabled: self.reference_types_enabled,
            gc_enabled: self.gc_enabled,
            custom_descriptors_enabled: self.custom_descriptors_enabled,
            multi_value_enabled: self.multi_value_enabled,
            bulk_memory_enabled: self.bulk_memory_enabled,
            simd_enabled: self.simd_enabled,
            exceptions_enabled: self.exceptions_enabled,
            threads_enabled: self.threads_enabled,
            shared_everything_threads_enabled: self.shared_everything_threads_enabled,
            memory64_enabled: self.memory64_enabled,
            custom_page_sizes_enabled: self.custom_page_sizes_enabled,
            extended_const_enabled: self.extended_const_enabled,
            compact_imports_enabled: self.compact_imports_enabled,
            relaxed_simd_enabled: self.relaxed_simd_enabled,
            saturating_float_to_int_enabled: self.saturating_float_to_int_enabled,
            sign_extension_ops_enabled: self.sign_extension_ops_enabled,
            tail_call_enabled: self.tail_call_enabled,
            wide_arithmetic_enabled: self.wide_arithmetic_enabled,
            acquire_release_atomics_enabled: self.acquire_release_atomics_enabled,
            multibyte_array_access_enabled: self.multibyte_array_access_enabled,
            non_nullable_enabled: self.non_nullable_enabled,
            allowed_instructions: InstructionKinds::from_bits_retain(self.allowed_instructions),
            memory_offset_choices: MemoryOffsetChoices(
                self.offsets_inside,
                self.offsets_between,
                self.offsets_past,
            ),
            max_instructions: self.max_instructions,
            canonicalize_nans: self.canonicalize_nans,
            generate_custom_sections: self.generate_custom_sections,
            min_uleb_size: self.min_uleb_size,
            max_aliases: self.max_aliases,
            max_components: self.max_components,
            max_instances: self.max_instances,
            max_modules: self.max_modules,
            max_nesting_depth: self.max_nesting_depth,
            max_values: self.max_values,
            available_imports: None,
            exports: None,
            module_shape: None,
        }
    }
}
