// Configurations: sanitised, passing, drawn, with their features and faults; and offset choices as
// text.

ghost use Rattle.smith_config.specs.declared.config.Config.{Config};
ghost use Rattle.std.specs.Prelude.{Bool, ◌≡◌, ◌+◌, ◌^◌, true, false, [], ◌∷◌, codes, Ok, Err};
ghost use Rattle.smith_bytes.specs.declared.error.Count.TheVariants as counts;
ghost use Rattle.smith_bytes.specs.declared.error.ConfigFault.TheVariants.{MinAboveMax, MaxTooLarge, Memory32Bytes, Memory64Bytes};
ghost use Rattle.smith_config.specs.Config.{default_config};
ghost use Rattle.smith_types.specs.Syntax.Features.{every_feature};
ghost use Rattle.smith_types.specs.ExampleFeatures.{no_features};
ghost use Rattle.smith_config.specs.Arbitrary.{config_at};
ghost use Rattle.smith_config.specs.ExampleConfigs.{least_config, counting_bytes, counting_config};
ghost use Rattle.smith_config.specs.Sanitized.{sanitized, IsSanitized, IsLowered};
ghost use Rattle.smith_config.specs.Features.{features_of, number_of};
ghost use Rattle.smith_config.specs.Faults.{Passes, HasFault, IsFirstFault};
ghost use Rattle.smith_config.specs.OffsetChoices.{AreReadChoices, zero_choices};
ghost use Rattle.smith_config.specs.declared.offset_choices.OffsetChoicesFault.TheVariants.{NeedThree, Number, TooMany, AllZero};

fn sanitising()
    ensures defaults_stay { sanitized default_config ≡ default_config }
    ensures one_table_without_references { (sanitized (record default_config { reference_types_enabled = false; max_tables = 5 })).max_tables ≡ 1 }
    ensures no_table_stays_none { (sanitized (record default_config { reference_types_enabled = false; max_tables = 0 })).max_tables ≡ 0 }
    ensures gc_needs_references { (sanitized (record default_config { reference_types_enabled = false })).gc_enabled ≡ false }
    ensures references_are_not_turned_on { (sanitized (record default_config { reference_types_enabled = false })).reference_types_enabled
        ≡ false }
    ensures sharing_needs_threads { (sanitized
        (record default_config { threads_enabled = false; shared_everything_threads_enabled = true })).shared_everything_threads_enabled
        ≡ false }
    ensures sharing_stays { (sanitized (record default_config
        { shared_everything_threads_enabled = true })).shared_everything_threads_enabled ≡ true }
    ensures sharing_needs_references { (sanitized (record default_config {
      reference_types_enabled = false;
      shared_everything_threads_enabled = true;
    })).shared_everything_threads_enabled ≡ false }
    ensures descriptors_need_gc { (sanitized
        (record default_config { gc_enabled = false; custom_descriptors_enabled = true })).custom_descriptors_enabled ≡ false }
    ensures descriptors_stay { (sanitized (record default_config { custom_descriptors_enabled = true })).custom_descriptors_enabled ≡ true }
    ensures accesses_to_arrays_need_gc { (sanitized
        (record default_config { gc_enabled = false; multibyte_array_access_enabled = true })).multibyte_array_access_enabled ≡ false }
    ensures accesses_to_arrays_stay { (sanitized
        (record default_config { multibyte_array_access_enabled = true })).multibyte_array_access_enabled ≡ true }
    ensures references_without_null_need_gc { (sanitized (record default_config { gc_enabled = false; non_nullable_enabled = true })).non_nullable_enabled ≡ false }
    ensures references_without_null_need_references { (sanitized (record default_config { reference_types_enabled = false; non_nullable_enabled = true })).non_nullable_enabled ≡ false }
    ensures references_without_null_stay { (sanitized (record default_config { non_nullable_enabled = true })).non_nullable_enabled ≡ true }
    ensures atomics_need_threads { (sanitized
        (record default_config { threads_enabled = false; acquire_release_atomics_enabled = true })).acquire_release_atomics_enabled
        ≡ false }
    ensures atomics_need_no_gc { (sanitized
        (record default_config { gc_enabled = false; acquire_release_atomics_enabled = true })).acquire_release_atomics_enabled ≡ true }
    ensures tables_with_references_stay { (sanitized (record default_config { max_tables = 5 })).max_tables ≡ 5 }
    ensures nothing_else_without_references { sanitized (record default_config { reference_types_enabled = false })
        ≡ record default_config { reference_types_enabled = false; gc_enabled = false } }
    ensures relaxed_needs_vectors { (sanitized (record default_config { simd_enabled = false })).relaxed_simd_enabled ≡ false }
{}

fn sanitised()
    ensures defaults { IsSanitized default_config }
    ensures gc_without_references { ¬ IsSanitized (record default_config { reference_types_enabled = false }) }
    ensures descriptors_without_gc { ¬ IsSanitized (record default_config { gc_enabled = false; custom_descriptors_enabled = true }) }
    ensures all_that_may_be { IsSanitized (record default_config {
      shared_everything_threads_enabled = true;
      custom_descriptors_enabled = true;
      multibyte_array_access_enabled = true;
      non_nullable_enabled = true;
      acquire_release_atomics_enabled = true;
      max_tables = 9;
    }) }
    ensures sharing_without_gc { ¬ IsSanitized (record default_config { gc_enabled = false; shared_everything_threads_enabled = true }) }
    ensures sharing_without_threads { ¬ IsSanitized
        (record default_config { threads_enabled = false; shared_everything_threads_enabled = true }) }
    ensures accesses_to_arrays_without_gc { ¬ IsSanitized
        (record default_config { gc_enabled = false; multibyte_array_access_enabled = true }) }
    ensures references_without_null_without_gc { ¬ IsSanitized (record default_config { gc_enabled = false; non_nullable_enabled = true }) }
    ensures relaxed_without_vectors { ¬ IsSanitized (record default_config { simd_enabled = false }) }
    ensures atomics_without_threads { ¬ IsSanitized
        (record default_config { threads_enabled = false; acquire_release_atomics_enabled = true }) }
    ensures one_table_without_references { IsSanitized (record default_config { reference_types_enabled = false; gc_enabled = false }) }
    ensures two_tables_without_references { ¬ IsSanitized
        (record default_config { reference_types_enabled = false; gc_enabled = false; max_tables = 2 }) }
{}

fn lowered()
    ensures itself { IsLowered default_config default_config }
    ensures gc_turned_off { IsLowered default_config (record default_config { gc_enabled = false }) }
    ensures descriptors_turned_on { ¬ IsLowered default_config (record default_config { custom_descriptors_enabled = true }) }
    ensures tables_taken_away { IsLowered default_config (record default_config { max_tables = 0; relaxed_simd_enabled = false }) }
    ensures gc_turned_on { ¬ IsLowered (record default_config { gc_enabled = false }) default_config }
    ensures sharing_turned_on { ¬ IsLowered default_config (record default_config { shared_everything_threads_enabled = true }) }
    ensures accesses_to_arrays_turned_on { ¬ IsLowered default_config (record default_config { multibyte_array_access_enabled = true }) }
    ensures references_without_null_turned_on { ¬ IsLowered default_config (record default_config { non_nullable_enabled = true }) }
    ensures references_without_null_turned_off { IsLowered (record default_config { non_nullable_enabled = true }) default_config }
    ensures relaxed_turned_on { ¬ IsLowered (record default_config { relaxed_simd_enabled = false }) default_config }
    ensures atomics_turned_on { ¬ IsLowered default_config (record default_config { acquire_release_atomics_enabled = true }) }
    ensures another_field_lowered { ¬ IsLowered default_config (record default_config { max_types = 99 }) }
    ensures another_field_turned_off { ¬ IsLowered default_config (record default_config { simd_enabled = false }) }
    ensures tables_raised { ¬ IsLowered default_config (record default_config { max_tables = 2 }) }
{}

fn feature_numbers()
    ensures no_feature { number_of no_features ≡ 0 }
    ensures every_feature { number_of every_feature ≡ 16777215 }
    ensures by_default { number_of (features_of default_config) ≡ 1703423 }
    ensures simd_off { number_of (features_of (record default_config { simd_enabled = false })) ≡ 1703295 }
{}

fn features()
    ensures by_default { features_of default_config ≡ record every_feature {
      multi_memory = false;
      shared_everything_threads = false;
      custom_page_sizes = false;
      acquire_release_atomics = false;
      multibyte_array_access = false;
      custom_descriptors = false;
    } }
    ensures saturating_float_to_int { (c : Config) (on : Bool) → features_of (record c { saturating_float_to_int_enabled = on })
        ≡ record (features_of c) { saturating_float_to_int = on } }
    ensures sign_extension { (c : Config) (on : Bool) → features_of (record c { sign_extension_ops_enabled = on })
        ≡ record (features_of c) { sign_extension = on } }
    ensures reference_types { (c : Config) (on : Bool) → features_of (record c { reference_types_enabled = on })
        ≡ record (features_of c) { reference_types = on } }
    ensures multi_value { (c : Config) (on : Bool) → features_of (record c { multi_value_enabled = on })
        ≡ record (features_of c) { multi_value = on } }
    ensures bulk_memory { (c : Config) (on : Bool) → features_of (record c { bulk_memory_enabled = on })
        ≡ record (features_of c) { bulk_memory = on } }
    ensures simd { (c : Config) (on : Bool) → features_of (record c { simd_enabled = on }) ≡ record (features_of c) { simd = on } }
    ensures relaxed_simd { (c : Config) (on : Bool) → features_of (record c { relaxed_simd_enabled = on })
        ≡ record (features_of c) { relaxed_simd = on } }
    ensures exceptions { (c : Config) (on : Bool) → features_of (record c { exceptions_enabled = on })
        ≡ record (features_of c) { exceptions = on } }
    ensures memory64 { (c : Config) (on : Bool) → features_of (record c { memory64_enabled = on })
        ≡ record (features_of c) { memory64 = on } }
    ensures tail_call { (c : Config) (on : Bool) → features_of (record c { tail_call_enabled = on })
        ≡ record (features_of c) { tail_call = on } }
    ensures compact_imports { (c : Config) (on : Bool) → features_of (record c { compact_imports_enabled = on })
        ≡ record (features_of c) { compact_imports = on } }
    ensures threads { (c : Config) (on : Bool) → features_of (record c { threads_enabled = on }) ≡ record (features_of c) { threads = on } }
    ensures extended_const { (c : Config) (on : Bool) → features_of (record c { extended_const_enabled = on })
        ≡ record (features_of c) { extended_const = on } }
    ensures wide_arithmetic { (c : Config) (on : Bool) → features_of (record c { wide_arithmetic_enabled = on })
        ≡ record (features_of c) { wide_arithmetic = on } }
    ensures shared_everything_threads { (c : Config) (on : Bool) → features_of (record c { shared_everything_threads_enabled = on })
        ≡ record (features_of c) { shared_everything_threads = on } }
    ensures custom_page_sizes { (c : Config) (on : Bool) → features_of (record c { custom_page_sizes_enabled = on })
        ≡ record (features_of c) { custom_page_sizes = on } }
    ensures acquire_release_atomics { (c : Config) (on : Bool) → features_of (record c { acquire_release_atomics_enabled = on })
        ≡ record (features_of c) { acquire_release_atomics = on } }
    ensures multibyte_array_access { (c : Config) (on : Bool) → features_of (record c { multibyte_array_access_enabled = on })
        ≡ record (features_of c) { multibyte_array_access = on } }
    ensures custom_descriptors { (c : Config) (on : Bool) → features_of (record c { custom_descriptors_enabled = on })
        ≡ record (features_of c) { custom_descriptors = on } }
    ensures gc_and_function_references { (c : Config) (on : Bool) → features_of (record c { gc_enabled = on })
        ≡ record (features_of c) { gc = on; function_references = on } }
{}

fn features_of_others()
    ensures several_memories { features_of (record default_config { max_memories = 2 })
        ≡ record (features_of default_config) { multi_memory = true } }
    ensures no_other_field { features_of
        (record default_config { max_tables = 2; canonicalize_nans = true; allow_floats = false; non_nullable_enabled = true })
        ≡ features_of default_config }
{}

fn faults()
    ensures not_crossed { ¬ HasFault default_config (MinAboveMax counts.Tags) }
    ensures exports_where_all_are_exported { ¬ HasFault (record default_config { min_exports = 101; export_everything = true })
        (MinAboveMax counts.Exports) }
    ensures as_many_types_as_may_be { ¬ HasFault (record default_config { max_types = 2 ^ 31 }) (MaxTooLarge counts.Types) }
    ensures bytes_past_the_addresses { HasFault (record default_config { max_memory32_bytes = 2 ^ 32 + 1 }) Memory32Bytes }
{}

fn crossed_pairs()
    ensures types { HasFault (record default_config { min_types = 3; max_types = 2 }) (MinAboveMax counts.Types) }
    ensures imports { HasFault (record default_config { min_imports = 3; max_imports = 2 }) (MinAboveMax counts.Imports) }
    ensures tags { HasFault (record default_config { min_tags = 3; max_tags = 2 }) (MinAboveMax counts.Tags) }
    ensures funcs { HasFault (record default_config { min_funcs = 3; max_funcs = 2 }) (MinAboveMax counts.Funcs) }
    ensures globals { HasFault (record default_config { min_globals = 3; max_globals = 2 }) (MinAboveMax counts.Globals) }
    ensures exports { HasFault (record default_config { min_exports = 3; max_exports = 2 }) (MinAboveMax counts.Exports) }
    ensures element_segments { HasFault (record default_config { min_element_segments = 3; max_element_segments = 2 })
        (MinAboveMax counts.ElementSegments) }
    ensures elements { HasFault (record default_config { min_elements = 3; max_elements = 2 }) (MinAboveMax counts.Elements) }
    ensures data_segments { HasFault (record default_config { min_data_segments = 3; max_data_segments = 2 })
        (MinAboveMax counts.DataSegments) }
    ensures memories { HasFault (record default_config { min_memories = 3; max_memories = 2 }) (MinAboveMax counts.Memories) }
    ensures tables { HasFault (record default_config { min_tables = 3; max_tables = 2 }) (MinAboveMax counts.Tables) }
    ensures of_others { ¬ HasFault (record default_config { min_types = 3; max_types = 2 }) (MinAboveMax counts.Tags) }
    ensures equal { ¬ HasFault (record default_config { min_types = 2; max_types = 2 }) (MinAboveMax counts.Types) }
    ensures tags_where_all_are_exported { HasFault (record default_config { min_tags = 101; export_everything = true })
        (MinAboveMax counts.Tags) }
{}

fn large_maximums()
    ensures types { HasFault (record default_config { max_types = 2 ^ 31 + 1 }) (MaxTooLarge counts.Types) }
    ensures imports { HasFault (record default_config { max_imports = 2 ^ 31 + 1 }) (MaxTooLarge counts.Imports) }
    ensures tags { HasFault (record default_config { max_tags = 2 ^ 31 + 1 }) (MaxTooLarge counts.Tags) }
    ensures funcs { HasFault (record default_config { max_funcs = 2 ^ 31 + 1 }) (MaxTooLarge counts.Funcs) }
    ensures globals { HasFault (record default_config { max_globals = 2 ^ 31 + 1 }) (MaxTooLarge counts.Globals) }
    ensures exports { HasFault (record default_config { max_exports = 2 ^ 31 + 1 }) (MaxTooLarge counts.Exports) }
    ensures element_segments { HasFault (record default_config { max_element_segments = 2 ^ 31 + 1 }) (MaxTooLarge counts.ElementSegments) }
    ensures elements { HasFault (record default_config { max_elements = 2 ^ 31 + 1 }) (MaxTooLarge counts.Elements) }
    ensures data_segments { HasFault (record default_config { max_data_segments = 2 ^ 31 + 1 }) (MaxTooLarge counts.DataSegments) }
    ensures memories { HasFault (record default_config { max_memories = 2 ^ 31 + 1 }) (MaxTooLarge counts.Memories) }
    ensures tables { HasFault (record default_config { max_tables = 2 ^ 31 + 1 }) (MaxTooLarge counts.Tables) }
    ensures of_others { ¬ HasFault (record default_config { max_types = 2 ^ 31 + 1 }) (MaxTooLarge counts.Imports) }
    ensures large_minimum { ¬ HasFault (record default_config { min_types = 2 ^ 31 + 1 }) (MaxTooLarge counts.Types) }
    ensures exports_where_all_are_exported { HasFault (record default_config { max_exports = 2 ^ 31 + 1; export_everything = true })
        (MaxTooLarge counts.Exports) }
{}

fn bytes()
    ensures of_narrow_addresses { ¬ HasFault default_config Memory32Bytes }
    ensures of_wide_addresses { ¬ HasFault default_config Memory64Bytes }
    ensures past_the_wide_addresses { HasFault (record default_config { max_memory64_bytes = 2 ^ 64 + 1 }) Memory64Bytes }
    ensures past_the_narrow_addresses_alone { ¬ HasFault (record default_config { max_memory32_bytes = 2 ^ 32 + 1 }) Memory64Bytes }
{}

fn first_faults()
    ensures alone { IsFirstFault (record default_config { min_tags = 3; max_tags = 2 }) (MinAboveMax counts.Tags) }
    ensures not_there { ¬ IsFirstFault default_config (MinAboveMax counts.Types) }
    ensures earlier_count { IsFirstFault (record default_config { min_types = 101; min_tables = 2 }) (MinAboveMax counts.Types) }
    ensures later_count { ¬ IsFirstFault (record default_config { min_types = 101; min_tables = 2 }) (MinAboveMax counts.Tables) }
    ensures pair_first { IsFirstFault (record default_config { max_types = 2 ^ 31 + 1; min_tables = 2 }) (MinAboveMax counts.Tables) }
    ensures maximum_after_pairs { ¬ IsFirstFault (record default_config { min_types = 2 ^ 31 + 2; max_types = 2 ^ 31 + 1 })
        (MaxTooLarge counts.Types) }
    ensures narrow_bytes_first { IsFirstFault (record default_config { max_memory32_bytes = 2 ^ 32 + 1; max_memory64_bytes = 2 ^ 64 + 1 })
        Memory32Bytes }
    ensures wide_bytes_after_pairs { ¬ IsFirstFault (record default_config { min_types = 101; max_memory64_bytes = 2 ^ 64 + 1 })
        Memory64Bytes }
{}

fn passing()
    ensures defaults { Passes default_config }
    ensures crossed { ¬ Passes (record default_config { min_tags = 3; max_tags = 2 }) }
    ensures too_many_types { ¬ Passes (record default_config { max_types = 2 ^ 31 + 1 }) }
    ensures bytes_past_the_addresses { ¬ Passes (record default_config { max_memory32_bytes = 2 ^ 32 + 1 }) }
    ensures bytes_past_the_wide_addresses { ¬ Passes (record default_config { max_memory64_bytes = 2 ^ 64 + 1 }) }
    ensures exports_where_all_are_exported { Passes (record default_config { min_exports = 101; export_everything = true }) }
    ensures two_tables_asked_for { Passes (record default_config { reference_types_enabled = false; min_tables = 2; max_tables = 2 }) }
    ensures two_tables_without_references { ¬ Passes
        (sanitized (record default_config { reference_types_enabled = false; min_tables = 2; max_tables = 2 })) }
    ensures tables_too_many_before_they_are_lowered { Passes
        (sanitized (record default_config { reference_types_enabled = false; max_tables = 2 ^ 31 + 1 })) }
{}

fn offset_choices()
    ensures one_weight { AreReadChoices (codes "1,0,0") (Ok (record { 0 = 1; 1 = 0; 2 = 0 })) }
    ensures plus_sign { AreReadChoices (codes "+1,0,0") (Ok (record { 0 = 1; 1 = 0; 2 = 0 })) }
    ensures in_order { ¬ AreReadChoices (codes "1,0,0") (Ok (record { 0 = 0; 1 = 0; 2 = 1 })) }
    ensures two { AreReadChoices (codes "1,2") (Err NeedThree) }
    ensures nothing { AreReadChoices (codes "") (Err (Number 0)) }
    ensures empty_part { AreReadChoices (codes "1,,2") (Err (Number 1)) }
    ensures number_of_33_bits { AreReadChoices (codes "4294967296,0,0") (Err (Number 0)) }
    ensures wrong_part_first { ¬ AreReadChoices (codes "1,x") (Err NeedThree) }
    ensures four { AreReadChoices (codes "1,2,3,4") (Err TooMany) }
    ensures fourth_is_not_read { AreReadChoices (codes "0,0,0,x") (Err TooMany) }
    ensures fourth_is_no_wrong_number { ¬ AreReadChoices (codes "0,0,0,x") (Err (Number 3)) }
    ensures zeros { AreReadChoices (codes "0,0,0") (Err AllZero) }
    ensures some_weight { ¬ AreReadChoices (codes "0,0,1") (Err AllZero) }
    ensures two_are_too_few { ¬ AreReadChoices (codes "1,2") (Err TooMany) }
    ensures four_are_enough { ¬ AreReadChoices (codes "1,2,3,4") (Err NeedThree) }
    ensures no_weight_is_no_choice { ¬ AreReadChoices (codes "0,0,0") (Ok zero_choices) }
{}

fn drawn()
    ensures of_no_bytes { config_at [] ≡ (least_config, []) }
    ensures of_two_numbers { config_at (0 ∷ 5 ∷ 3 ∷ 232 ∷ []) ≡ (record least_config { max_types = 5; max_imports = 1000 }, []) }
    ensures past_the_greatest { config_at (3 ∷ 233 ∷ []) ≡ (least_config, []) }
    ensures in_order { config_at counting_bytes ≡ (counting_config, 98 ∷ 99 ∷ []) }
{}
