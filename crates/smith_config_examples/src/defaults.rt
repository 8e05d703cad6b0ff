// Every field of the default configuration.

ghost use Rattle.std.specs.Prelude.{◌≡◌, ◌^◌, [], ◌∷◌, true, false, None, replicate, All};
ghost use Rattle.smith_types.specs.Syntax.Instructions.{every_kind};
ghost use Rattle.smith_config.specs.Config.{default_config};

fn counts()
    ensures a_hundred { All (λ most. most ≡ 100) (default_config.max_types ∷ default_config.max_imports ∷ default_config.max_tags
        ∷ default_config.max_funcs ∷ default_config.max_globals ∷ default_config.max_exports ∷ default_config.max_element_segments
        ∷ default_config.max_elements ∷ default_config.max_data_segments ∷ default_config.max_instructions ∷ []) }
    ensures one { All (λ most. most ≡ 1) (default_config.max_memories ∷ default_config.max_tables ∷ []) }
    ensures none_at_least { (default_config.min_types ∷ default_config.min_imports ∷ default_config.min_tags ∷ default_config.min_funcs
        ∷ default_config.min_globals ∷ default_config.min_exports ∷ default_config.min_element_segments ∷ default_config.min_elements
        ∷ default_config.min_data_segments ∷ default_config.min_memories ∷ default_config.min_tables ∷ []) ≡ replicate 11 0 }
    ensures ten { All (λ most. most ≡ 10) (default_config.max_components ∷ default_config.max_instances ∷ default_config.max_modules
        ∷ default_config.max_nesting_depth ∷ default_config.max_values ∷ []) }
    ensures aliases { default_config.max_aliases ≡ 1000 }
{}

fn shapes()
    ensures imports { default_config.available_imports ≡ None }
    ensures exports { default_config.exports ≡ None }
    ensures module { default_config.module_shape ≡ None }
{}

fn sizes()
    ensures bytes { default_config.max_memory32_bytes ≡ 2 ^ 32 }
    ensures wide_bytes { default_config.max_memory64_bytes ≡ 2 ^ 64 }
    ensures table_elements { default_config.max_table_elements ≡ 1000000 }
    ensures type_size { default_config.max_type_size ≡ 1000 }
    ensures fuel { default_config.const_expr_fuel ≡ 50 }
    ensures number_size { default_config.min_uleb_size ≡ 1 }
    ensures instructions { default_config.allowed_instructions ≡ every_kind }
    ensures offsets { default_config.memory_offset_choices ≡ record { 0 = 90; 1 = 9; 2 = 1 } }
{}

fn on_or_off()
    ensures on { All (λ enabled. enabled ≡ true) (default_config.allow_start_export ∷ default_config.allow_floats
        ∷ default_config.bulk_memory_enabled ∷ default_config.exceptions_enabled ∷ default_config.gc_enabled
        ∷ default_config.compact_imports_enabled ∷ default_config.memory64_enabled ∷ default_config.multi_value_enabled
        ∷ default_config.reference_types_enabled ∷ default_config.relaxed_simd_enabled ∷ default_config.saturating_float_to_int_enabled
        ∷ default_config.sign_extension_ops_enabled ∷ default_config.simd_enabled ∷ default_config.tail_call_enabled
        ∷ default_config.threads_enabled ∷ default_config.wide_arithmetic_enabled ∷ default_config.extended_const_enabled ∷ []) }
    ensures off { All (λ enabled. enabled ≡ false) (default_config.canonicalize_nans ∷ default_config.disallow_traps
        ∷ default_config.export_everything ∷ default_config.custom_descriptors_enabled ∷ default_config.custom_page_sizes_enabled
        ∷ default_config.generate_custom_sections ∷ default_config.memory_max_size_required
        ∷ default_config.shared_everything_threads_enabled ∷ default_config.table_max_size_required ∷ default_config.allow_invalid_funcs
        ∷ default_config.acquire_release_atomics_enabled ∷ default_config.multibyte_array_access_enabled
        ∷ default_config.non_nullable_enabled ∷ default_config.limit_arrays_in_const_exprs ∷ []) }
{}
