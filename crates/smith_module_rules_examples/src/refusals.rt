ghost use Rattle.std.specs.Prelude.{true, false, [], ◌∷◌};
ghost use Rattle.smith_bytes.specs.declared.error.Error.TheVariants.{EmptyChoose, NotEnoughData, IncorrectFormat, Config as Faulty};
ghost use Rattle.smith_bytes.specs.declared.error.Error.TheVariants.{Shape as Misshapen, Memory};
ghost use Rattle.smith_bytes.specs.declared.error.ConfigFault.TheVariants.{MinAboveMax, MaxTooLarge};
ghost use Rattle.smith_bytes.specs.declared.error.ShapeFault.TheVariants.{DuplicateExport};
ghost use Rattle.smith_bytes.specs.declared.error.Which.TheVariants.{Exports, ModuleShape};
ghost use Rattle.smith_bytes.specs.declared.error.Count.TheVariants as counts;
ghost use Rattle.smith_bytes.specs.declared.error.Why.TheVariants.{Unmet, TypeSize, SeveralMemories, SeveralTables, Loop, RawBody};
ghost use Rattle.smith_config.specs.Config.{default_config};
ghost use Rattle.smith_module_rules.specs.Refusals.{MayRefuse, MayGive, AsksNothingImpossible};
ghost use Rattle.smith_module_rules_examples.specs.ExampleShapes.{for_module, for_imports, for_exports, imported_memories, exporting};
ghost use Rattle.smith_module_rules_examples.specs.ExampleShapes.{environment, non_nullable, table_exported, twice_exported, empty_shape};
ghost use Rattle.smith_module_rules_examples.specs.ExampleShapes.{taking_non_nullable, memory_available, room_for_two};

fn refusals()
    ensures choice_from_nothing { MayRefuse (for_exports non_nullable default_config) EmptyChoose }
    ensures choice_in_a_type { MayRefuse (for_module taking_non_nullable default_config) EmptyChoose }
    ensures choice_without_shapes { ¬ MayRefuse default_config EmptyChoose }
    ensures choice_of_nullable_references { ¬ MayRefuse (for_exports exporting default_config) EmptyChoose }
    ensures choice_of_exports_beside_a_module { ¬ MayRefuse (for_module exporting (for_exports non_nullable default_config)) EmptyChoose }
    ensures too_few_bytes { ¬ MayRefuse default_config NotEnoughData }
    ensures stopped_loop { ¬ MayRefuse default_config (IncorrectFormat Loop) }
    ensures raw_body { ¬ MayRefuse default_config (IncorrectFormat RawBody) }
    ensures type_size { MayRefuse (record default_config { export_everything = true }) (IncorrectFormat TypeSize) }
    ensures type_size_of_drawn_exports { ¬ MayRefuse default_config (IncorrectFormat TypeSize) }
    ensures type_size_of_a_shape { ¬ MayRefuse (for_exports exporting (record default_config { export_everything = true }))
        (IncorrectFormat TypeSize) }
    ensures several_memories { MayRefuse (for_module imported_memories default_config) (IncorrectFormat SeveralMemories) }
    ensures an_exported_memory { MayRefuse (for_exports exporting default_config) (IncorrectFormat SeveralMemories) }
    ensures a_memory_that_a_module_exports { MayRefuse (for_module exporting default_config) (IncorrectFormat SeveralMemories) }
    ensures memories_that_may_be_several { ¬ MayRefuse (for_module imported_memories (record default_config { max_memories = 2 }))
        (IncorrectFormat SeveralMemories) }
    ensures memories_of_available_imports { ¬ MayRefuse (for_imports environment default_config) (IncorrectFormat SeveralMemories) }
    ensures memory_that_nothing_exports { ¬ MayRefuse (for_exports (record exporting { exports = [] }) default_config)
        (IncorrectFormat SeveralMemories) }
    ensures an_exported_table { MayRefuse (for_exports table_exported
        (record default_config { reference_types_enabled = false; gc_enabled = false })) (IncorrectFormat SeveralTables) }
    ensures a_table_that_a_module_exports { MayRefuse
        (for_module table_exported (record default_config { reference_types_enabled = false; gc_enabled = false }))
        (IncorrectFormat SeveralTables) }
    ensures tables_that_may_be_several { ¬ MayRefuse (for_exports table_exported default_config) (IncorrectFormat SeveralTables) }
    ensures a_table_of_available_imports { ¬ MayRefuse
        (for_imports table_exported (record default_config { reference_types_enabled = false; gc_enabled = false }))
        (IncorrectFormat SeveralTables) }
    ensures an_exported_table_beside_a_module { ¬ MayRefuse
        (for_module exporting (for_exports table_exported (record default_config { reference_types_enabled = false; gc_enabled = false })))
        (IncorrectFormat SeveralTables) }
    ensures no_table_of_a_shape { ¬ MayRefuse (for_exports exporting
        (record default_config { reference_types_enabled = false; gc_enabled = false })) (IncorrectFormat SeveralTables) }
    ensures memory { MayRefuse default_config Memory }
{}

fn faults()
    ensures of_nothing { ¬ MayRefuse default_config (Faulty (MinAboveMax counts.Tags)) }
    ensures too_many_types_asked_for { MayRefuse (record default_config { min_types = 101 }) (Faulty (MinAboveMax counts.Types)) }
    ensures too_many_imports_asked_for { MayRefuse (record default_config { min_imports = 101 }) (Faulty (MinAboveMax counts.Imports)) }
    ensures imports_of_a_shape { ¬ MayRefuse (for_imports environment (record default_config { min_imports = 101 }))
        (Faulty (MinAboveMax counts.Imports)) }
    ensures imports_of_a_module { ¬ MayRefuse (for_module environment (record default_config { min_imports = 101 }))
        (Faulty (MinAboveMax counts.Imports)) }
    ensures imports_beside_exports { MayRefuse (for_exports exporting (record default_config { min_imports = 101 }))
        (Faulty (MinAboveMax counts.Imports)) }
    ensures exports_of_a_shape { ¬ MayRefuse (for_exports exporting (record default_config { min_exports = 101 }))
        (Faulty (MinAboveMax counts.Exports)) }
    ensures exports_of_a_module { ¬ MayRefuse (for_module exporting (record default_config { min_exports = 101 }))
        (Faulty (MinAboveMax counts.Exports)) }
    ensures exports_beside_imports { MayRefuse (for_imports environment (record default_config { min_exports = 101 }))
        (Faulty (MinAboveMax counts.Exports)) }
    ensures not_the_first { ¬ MayRefuse (record default_config { min_types = 101; max_tags = 2147483649 })
        (Faulty (MaxTooLarge counts.Tags)) }
    ensures a_name_twice { MayRefuse (for_module twice_exported default_config) (Misshapen ModuleShape DuplicateExport) }
    ensures a_name_twice_for_another_use { ¬ MayRefuse (for_module twice_exported default_config) (Misshapen Exports DuplicateExport) }
    ensures a_name_twice_beside_available_imports { MayRefuse (for_imports environment (for_exports twice_exported default_config))
        (Misshapen Exports DuplicateExport) }
    ensures a_name_twice_beside_a_module { ¬ MayRefuse (for_module exporting (for_exports twice_exported default_config))
        (Misshapen Exports DuplicateExport) }
    ensures two_names { ¬ MayRefuse (for_module exporting default_config) (Misshapen ModuleShape DuplicateExport) }
{}

fn unmet_minimums()
    ensures functions_with_gc { MayRefuse (record default_config { min_funcs = 1; min_types = 1 }) (IncorrectFormat (Unmet counts.Funcs)) }
    ensures functions_of_some_type { ¬ MayRefuse (record default_config { min_funcs = 1; min_types = 1; gc_enabled = false })
        (IncorrectFormat (Unmet counts.Funcs)) }
    ensures functions_of_no_type { MayRefuse (record default_config { min_funcs = 1; gc_enabled = false })
        (IncorrectFormat (Unmet counts.Funcs)) }
    ensures nothing_asked_for { ¬ MayRefuse default_config (IncorrectFormat (Unmet counts.Funcs)) }
    ensures types { ¬ MayRefuse (record default_config { min_types = 1 }) (IncorrectFormat (Unmet counts.Types)) }
    ensures tables { ¬ MayRefuse (record default_config { min_tables = 1 }) (IncorrectFormat (Unmet counts.Tables)) }
    ensures memories { ¬ MayRefuse (record default_config { min_memories = 1 }) (IncorrectFormat (Unmet counts.Memories)) }
    ensures globals { ¬ MayRefuse (record default_config { min_globals = 1 }) (IncorrectFormat (Unmet counts.Globals)) }
    ensures elements { MayRefuse (record default_config { min_elements = 1 }) (IncorrectFormat (Unmet counts.Elements)) }
    ensures no_elements_asked_for { ¬ MayRefuse default_config (IncorrectFormat (Unmet counts.Elements)) }
    ensures no_tags_asked_for { ¬ MayRefuse default_config (IncorrectFormat (Unmet counts.Tags)) }
    ensures tags { MayRefuse (record default_config { min_tags = 1 }) (IncorrectFormat (Unmet counts.Tags)) }
    ensures element_segments { ¬ MayRefuse (record default_config { min_element_segments = 1 })
        (IncorrectFormat (Unmet counts.ElementSegments)) }
    ensures element_segments_without_bulk_memory { MayRefuse
        (record default_config { min_element_segments = 1; bulk_memory_enabled = false }) (IncorrectFormat (Unmet counts.ElementSegments)) }
    ensures segments { ¬ MayRefuse (record default_config { min_data_segments = 1 }) (IncorrectFormat (Unmet counts.DataSegments)) }
    ensures segments_without_bulk_memory { MayRefuse (record default_config { min_data_segments = 1; bulk_memory_enabled = false })
        (IncorrectFormat (Unmet counts.DataSegments)) }
{}

fn unmet_imports_and_exports()
    ensures imports_too_large { MayRefuse (record default_config { min_imports = 2; max_type_size = 83 })
        (IncorrectFormat (Unmet counts.Imports)) }
    ensures imports_that_fit { ¬ MayRefuse (record default_config { min_imports = 1; max_type_size = 42 })
        (IncorrectFormat (Unmet counts.Imports)) }
    ensures imports_of_two_tables { MayRefuse (record default_config { min_imports = 2 }) (IncorrectFormat (Unmet counts.Imports)) }
    ensures imports_that_fit_together { ¬ MayRefuse (record room_for_two { max_type_size = 84 }) (IncorrectFormat (Unmet counts.Imports)) }
    ensures one_table_for_two_imports { MayRefuse (record room_for_two { max_tables = 1 }) (IncorrectFormat (Unmet counts.Imports)) }
    ensures one_memory_for_two_imports { MayRefuse (record room_for_two { max_memories = 1 }) (IncorrectFormat (Unmet counts.Imports)) }
    ensures one_tag_for_two_imports { MayRefuse (record room_for_two { max_tags = 1 }) (IncorrectFormat (Unmet counts.Imports)) }
    ensures one_function_for_two_imports { MayRefuse (record room_for_two { max_funcs = 1 }) (IncorrectFormat (Unmet counts.Imports)) }
    ensures one_global_for_two_imports { MayRefuse (record room_for_two { max_globals = 1 }) (IncorrectFormat (Unmet counts.Imports)) }
    ensures room_for_two_imports { ¬ MayRefuse room_for_two (IncorrectFormat (Unmet counts.Imports)) }
    ensures imports_of_a_shape { ¬ MayRefuse (for_imports environment (record default_config { min_imports = 2 }))
        (IncorrectFormat (Unmet counts.Imports)) }
    ensures imports_of_a_module { ¬ MayRefuse (for_module environment (record default_config { min_imports = 2 }))
        (IncorrectFormat (Unmet counts.Imports)) }
    ensures exports_of_a_shape { ¬ MayRefuse (for_exports exporting (record default_config { min_exports = 1 }))
        (IncorrectFormat (Unmet counts.Exports)) }
    ensures exports_where_everything_is { ¬ MayRefuse (record default_config { min_exports = 1; export_everything = true })
        (IncorrectFormat (Unmet counts.Exports)) }
    ensures exports_of_nothing { MayRefuse (record default_config { min_exports = 1; max_imports = 0 })
        (IncorrectFormat (Unmet counts.Exports)) }
    ensures exports_of_a_global { ¬ MayRefuse (record default_config { min_exports = 1; max_imports = 0; min_globals = 1 })
        (IncorrectFormat (Unmet counts.Exports)) }
    ensures exports_of_a_table { ¬ MayRefuse (record default_config { min_exports = 1; max_imports = 0; min_tables = 1 })
        (IncorrectFormat (Unmet counts.Exports)) }
    ensures exports_of_a_memory { ¬ MayRefuse (record default_config { min_exports = 1; max_imports = 0; min_memories = 1 })
        (IncorrectFormat (Unmet counts.Exports)) }
    ensures exports_too_large { MayRefuse (record default_config { min_exports = 1; max_imports = 1; min_globals = 1; max_type_size = 84 })
        (IncorrectFormat (Unmet counts.Exports)) }
    ensures exports_that_fit { ¬ MayRefuse (record default_config { min_exports = 1; max_imports = 1; min_globals = 1; max_type_size = 85 })
        (IncorrectFormat (Unmet counts.Exports)) }
    ensures exports_beside_a_shape { MayRefuse (for_imports environment
        (record default_config { min_exports = 1; max_imports = 0; min_globals = 1 })) (IncorrectFormat (Unmet counts.Exports)) }
{}

fn given()
    ensures defaults { MayGive default_config }
    ensures a_fault { ¬ MayGive (record default_config { max_memory32_bytes = 4294967297 }) }
    ensures too_many_imports_asked_for { ¬ MayGive (record default_config { min_imports = 101 }) }
    ensures imports_of_a_shape { MayGive (for_imports memory_available (record default_config { min_imports = 101 })) }
    ensures a_name_twice { ¬ MayGive (for_module twice_exported default_config) }
    ensures a_name_twice_beside_a_module { MayGive (for_module empty_shape (for_exports twice_exported default_config)) }
{}

fn nothing_impossible()
    ensures defaults { AsksNothingImpossible default_config }
    ensures a_minimum { ¬ AsksNothingImpossible (record default_config { min_tags = 1 }) }
    ensures everything_exported { ¬ AsksNothingImpossible (record default_config { export_everything = true }) }
    ensures a_fault { ¬ AsksNothingImpossible (record default_config { max_memory32_bytes = 4294967297 }) }
    ensures one_memory_for_a_shape { ¬ AsksNothingImpossible (for_exports exporting default_config) }
    ensures two_memories_for_a_shape { AsksNothingImpossible (for_imports memory_available (record default_config { max_memories = 2 })) }
    ensures one_table_for_a_shape { ¬ AsksNothingImpossible
        (for_imports memory_available (record default_config { max_memories = 2; reference_types_enabled = false; gc_enabled = false })) }
    ensures a_reference_that_is_not_null { ¬ AsksNothingImpossible (for_exports non_nullable (record default_config { max_memories = 2 })) }
{}
