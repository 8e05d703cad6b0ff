ghost use Rattle.std.specs.Prelude.{[], ◌∷◌, true, false, pos, negsuc};
ghost use Rattle.smith_config.specs.Config.{default_config};
ghost use Rattle.smith_types.specs.Syntax.value_type.AbstractHeapType.TheVariants as heap;
ghost use Rattle.smith_types.specs.Syntax.value_type.HeapType.TheVariants.{Concrete, Exact};
ghost use Rattle.smith_types.specs.Syntax.value_type.ValType.TheVariants.{Ref};
ghost use Rattle.smith_types.specs.Syntax.composite_type.StorageType.TheVariants.{I8, I16};
ghost use Rattle.smith_types.specs.ExampleTypes.{plain, not_null};
ghost use Rattle.smith_draw_types.specs.Spelling.{SpellsGroups, SpellsStorage, SpellsHeapType, SpellsUnshared, SpellsSize};
ghost use Rattle.smith_draw_types.specs.Spelling.{SpellsAfterClass};
ghost use Rattle.smith_bytes.specs.Spelling.{SpellsNone};
ghost use Rattle.smith_spell.specs.Spelling.{SpellsMember, SpellsRest, SpellsSegments, IsRest};
ghost use Rattle.smith_draw_types.specs.SpelledParts.{SpellsNoTag, SpellsFuncs, SpellsGlobal, SpellsBytes, SpellsNoStart};
ghost use Rattle.smith_config.specs.ExampleMembers.{final, one_function_type, array_and_struct, struct_and_holder, taking_a_number};
ghost use Rattle.smith_config.specs.ExampleMembers.{giving_two, alone, one_of_each_without_gc, no_types_and_imports, nothing_may_be};
ghost use Rattle.smith_config.specs.ExampleMembers.{with_shared_types, with_non_nullable, function_bytes, full_bytes};
ghost use Rattle.smith_config.specs.ExampleMembers.{array_and_struct_bytes, struct_and_holder_bytes, number_bytes, data_bytes, bytes_array};
ghost use Rattle.smith_config.specs.ExampleMembers.{plain_function};

fn members()
    ensures a_function { SpellsMember default_config one_function_type (0 ∷ []) function_bytes }
    ensures in_other_bytes { SpellsMember default_config one_function_type (0 ∷ []) (3 ∷ 102 ∷ 255 ∷ 4 ∷ 2 ∷ 4 ∷ 8 ∷ 6 ∷ 9 ∷ 2 ∷ 5 ∷ 200
        ∷ []) }
    ensures full_without_gc { SpellsMember one_of_each_without_gc (alone taking_a_number ∷ []) (0 ∷ []) full_bytes }
    ensures array_and_struct { SpellsMember default_config array_and_struct [] array_and_struct_bytes }
    ensures a_struct_of_a_reference_that_is_not_null { SpellsMember with_non_nullable struct_and_holder [] struct_and_holder_bytes }
    ensures nothing { SpellsMember default_config [] [] (0 ∷ 0 ∷ 0 ∷ []) }
    ensures nothing_where_nothing_may_be { SpellsMember no_types_and_imports [] [] (0 ∷ []) }
{}

fn rests()
    ensures a_number { SpellsRest default_config [] [] (pos 7 ∷ []) [] number_bytes }
    ensures data { SpellsRest default_config [] [] [] ((42 ∷ []) ∷ []) data_bytes }
    ensures no_start { SpellsRest default_config one_function_type (0 ∷ []) [] [] (0 ∷ 0 ∷ 0 ∷ 0 ∷ 0 ∷ 0 ∷ 0 ∷ []) }
    ensures nothing_but_a_flag { SpellsRest nothing_may_be [] [] [] [] (1 ∷ []) }
    ensures byte_lists_need_bulk_memory { ¬ IsRest (record default_config { bulk_memory_enabled = false }) [] ((42 ∷ []) ∷ []) }
    ensures no_more_numbers_than_globals { ¬ IsRest (record default_config { max_globals = 0 }) (pos 7 ∷ []) [] }
    ensures no_more_lists_than_segments { ¬ IsRest (record default_config { max_data_segments = 1 }) [] ([] ∷ [] ∷ []) }
    ensures a_number_and_a_list { IsRest default_config (pos 7 ∷ []) ((42 ∷ []) ∷ []) }
{}

fn parts_of_members()
    ensures no_turn { SpellsNone 1 (0 ∷ []) }
    ensures a_turn { ¬ SpellsNone 1 (1 ∷ []) }
    ensures no_turn_where_none_may_be { SpellsNone 0 [] }
    ensures a_bool_where_none_may_be { ¬ SpellsNone 0 (0 ∷ []) }
    ensures no_tag { SpellsNoTag default_config (final plain_function ∷ []) (0 ∷ []) }
    ensures a_tag { ¬ SpellsNoTag default_config (final plain_function ∷ []) (1 ∷ []) }
    ensures no_tag_without_exceptions { SpellsNoTag (record default_config { exceptions_enabled = false }) (final plain_function ∷ []) [] }
    ensures no_tag_where_none_may_be { SpellsNoTag (record default_config { max_tags = 0 }) (final plain_function ∷ []) [] }
    ensures no_tag_of_a_type_with_results { SpellsNoTag default_config (final giving_two ∷ []) [] }
    ensures second_function_type { SpellsFuncs default_config (final plain_function ∷ final bytes_array ∷ final taking_a_number ∷ []) (2
        ∷ []) (1 ∷ 1 ∷ 0 ∷ []) }
    ensures first_function_type { ¬ SpellsFuncs default_config (final plain_function ∷ final bytes_array ∷ final taking_a_number ∷ []) (2
        ∷ []) (1 ∷ 0 ∷ 0 ∷ []) }
    ensures no_function_type { SpellsFuncs default_config (final bytes_array ∷ []) [] [] }
    ensures a_bool_without_function_type { ¬ SpellsFuncs default_config (final bytes_array ∷ []) [] (0 ∷ []) }
    ensures a_function_of_no_type { ¬ SpellsFuncs default_config (final bytes_array ∷ []) (0 ∷ []) [] }
    ensures a_function_too_many { ¬ SpellsFuncs (record default_config { max_funcs = 0 }) (final plain_function ∷ []) (0 ∷ []) (1 ∷ []) }
{}

fn parts_of_rests()
    ensures a_number { SpellsGlobal default_config (negsuc 0) (0 ∷ 1 ∷ 0 ∷ 255 ∷ 255 ∷ 255 ∷ 255 ∷ []) }
    ensures another_class { ¬ SpellsGlobal default_config (pos 7) (1 ∷ 1 ∷ 0 ∷ 7 ∷ 0 ∷ 0 ∷ 0 ∷ []) }
    ensures a_constant_number { ¬ SpellsGlobal default_config (pos 7) (0 ∷ 0 ∷ 0 ∷ 7 ∷ 0 ∷ 0 ∷ 0 ∷ []) }
    ensures a_sum { ¬ SpellsGlobal default_config (pos 7) (0 ∷ 1 ∷ 1 ∷ 7 ∷ 0 ∷ 0 ∷ 0 ∷ []) }
    ensures where_there_are_no_sums { SpellsGlobal (record default_config { extended_const_enabled = false }) (pos 7) (0 ∷ 1 ∷ 7 ∷ 0 ∷ 0 ∷ 0
        ∷ []) }
    ensures where_types_may_be_shared { SpellsGlobal with_shared_types (pos 7) (0 ∷ 1 ∷ 1 ∷ 0 ∷ 7 ∷ 0 ∷ 0 ∷ 0 ∷ []) }
    ensures two_bytes { SpellsBytes (42 ∷ 0 ∷ []) (1 ∷ 42 ∷ 1 ∷ 0 ∷ 0 ∷ []) }
    ensures another_byte { ¬ SpellsBytes (42 ∷ []) (1 ∷ 41 ∷ 0 ∷ []) }
    ensures no_end_of_bytes { ¬ SpellsBytes [] [] }
    ensures no_start { SpellsNoStart default_config (final plain_function ∷ []) (0 ∷ []) (0 ∷ []) }
    ensures a_start { ¬ SpellsNoStart default_config (final plain_function ∷ []) (0 ∷ []) (1 ∷ []) }
    ensures no_start_where_it_is_not_allowed { SpellsNoStart (record default_config { allow_start_export = false }) (final plain_function
        ∷ []) (0 ∷ []) [] }
    ensures no_start_that_takes_a_number { SpellsNoStart default_config (final taking_a_number ∷ []) (0 ∷ []) [] }
    ensures no_start_that_gives_numbers { SpellsNoStart default_config (final giving_two ∷ []) (0 ∷ []) [] }
    ensures segments_without_bulk_memory { SpellsSegments (record default_config { bulk_memory_enabled = false }) [] [] }
    ensures data_without_bulk_memory { ¬ SpellsSegments (record default_config { bulk_memory_enabled = false }) ((42 ∷ []) ∷ []) [] }
    ensures a_bool_without_bulk_memory { ¬ SpellsSegments (record default_config { bulk_memory_enabled = false }) [] (0 ∷ []) }
{}

fn other_spellings()
    ensures no_group_but_a_bool { SpellsGroups default_config [] false [] (0 ∷ []) }
    ensures no_group_and_no_byte { ¬ SpellsGroups default_config [] false [] [] }
    ensures another_group { ¬ SpellsGroups default_config [] false [] (1 ∷ []) }
    ensures a_full_list { SpellsGroups no_types_and_imports [] false [] [] }
    ensures a_full_list_and_a_bool { ¬ SpellsGroups no_types_and_imports [] false [] (0 ∷ []) }
{}

fn types()
    ensures byte_field { SpellsStorage default_config 0 I8 (0 ∷ []) }
    ensures another_field { ¬ SpellsStorage default_config 0 I16 (0 ∷ []) }
    ensures abstract_type { SpellsHeapType default_config 0 (plain heap.Func) (0 ∷ []) }
    ensures type_of_an_index { ¬ SpellsHeapType default_config 1 (Concrete 1) (1 ∷ 1 ∷ []) }
    ensures exact_type { ¬ SpellsHeapType default_config 1 (Exact 0) (1 ∷ []) }
    ensures not_null { ¬ SpellsAfterClass default_config 0 (Ref (not_null (plain heap.Func))) (0 ∷ []) }
    ensures sharedness { SpellsUnshared (record default_config { shared_everything_threads_enabled = true }) (1 ∷ []) }
    ensures no_sharedness { ¬ SpellsUnshared default_config (1 ∷ []) }
    ensures one_type_without_gc { SpellsSize false default_config false 100 1 [] }
    ensures two_types_without_gc { ¬ SpellsSize false default_config false 100 2 [] }
    ensures a_group_after_another { SpellsSize true default_config true 99 1 (1 ∷ 1 ∷ []) }
    ensures a_group_that_is_cloned { ¬ SpellsSize true default_config true 99 1 (0 ∷ 1 ∷ []) }
{}
