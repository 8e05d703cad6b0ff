ghost use Rattle.std.specs.Prelude.{[], ◌∷◌, true, false, pos, Some, None, codes, All};
ghost use Rattle.smith_types.specs.Flags.{funcref};
ghost use Rattle.smith_types.specs.Imports.{IsImportsValid};
ghost use Rattle.smith_types.specs.Entities.{AreEntitiesValid, AreCountsEnabled};
ghost use Rattle.smith_types.specs.Segments.{IsElementSegmentValid, IsDataValid};
ghost use Rattle.smith_types.specs.Exports.{AreExportsValid, IsStartValid};
ghost use Rattle.smith_types.specs.ValidTypes.{AreTypesValid};
ghost use Rattle.smith_types.specs.ExampleTypes.{anyref, eqref, nullable, plain};
ghost use Rattle.smith_types.specs.Syntax.value_type.AbstractHeapType.TheVariants as heap;
ghost use Rattle.smith_types.specs.Syntax.value_type.HeapType.TheVariants.{Concrete};
ghost use Rattle.smith_types.specs.Syntax.value_type.ValType.TheVariants.{I32, Ref};
ghost use Rattle.smith_types.specs.Syntax.entity_type.EntityType.TheVariants as entity;
ghost use Rattle.smith_types.specs.Syntax.entity_type.ExportKind.TheVariants as kind;
ghost use Rattle.smith_types.specs.Syntax.imports.Imports.TheVariants.{Compact2};
ghost use Rattle.smith_types.specs.Syntax.const_instr.ConstInstr.TheVariants.{I32Const, F64Const, GlobalGet, RefNull};
ghost use Rattle.smith_types.specs.Syntax.segments.Offset.TheVariants.{Const32};
ghost use Rattle.smith_config.specs.Config.{default_config};
ghost use Rattle.smith_config.specs.Features.{features_of};
ghost use Rattle.smith_config.specs.ExampleMembers.{a_type, bytes_array, taking};
ghost use Rattle.smith_module_rules.specs.Module.{IsValid, AreDefinitionsValid, AreBodiesValid, AreSpacesMade, module_features};
ghost use Rattle.smith_module_rules.specs.Module.{module_types, module_spaces, segment_context};
ghost use Rattle.smith_module_rules_examples.specs.ExampleParts.{memory, table, global, number, no_function};
ghost use Rattle.smith_module_rules_examples.specs.ExampleModules.{empty_module, referring_to, types_together, types_apart};
ghost use Rattle.smith_module_rules_examples.specs.ExampleModules.{table_from_import, table_from_definition, table_without_gc, table_after};
ghost use Rattle.smith_module_rules_examples.specs.ExampleModules.{null_of_no_null, one_table, one_memory, one_number, one_tag};
ghost use Rattle.smith_module_rules_examples.specs.ExampleModules.{one_of_each, two_memories, two_elements, two_imports, memories_after};
ghost use Rattle.smith_module_rules_examples.specs.ExampleModules.{filled_table, table_from_a_number, passive_bytes, exported_twice};
ghost use Rattle.smith_module_rules_examples.specs.ExampleModules.{bodiless, imported_counter, out_of_order, one_function, one_import};
ghost use Rattle.smith_module_rules_examples.specs.ExampleGiven.{without_gc, raw_body, counting_once, counting_after, last_byte};
ghost use Rattle.smith_module_rules_examples.specs.ExampleGiven.{three_numbers};

fn types()
    ensures below_a_final_type { ¬ AreTypesValid (module_features (types_together []))
        (module_types (types_together (a_type bytes_array true None ∷ a_type bytes_array true (Some 0) ∷ []))) }
    ensures narrowed_parameter { ¬ AreTypesValid (module_features (types_together []))
        (module_types (types_together (a_type (taking anyref) false None ∷ a_type (taking eqref) true (Some 0) ∷ []))) }
    ensures within_its_group { AreTypesValid (module_features (types_together []))
        (module_types (types_together (a_type (referring_to 1) true None ∷ a_type bytes_array true None ∷ []))) }
    ensures past_its_group { ¬ AreTypesValid (module_features (types_together []))
        (module_types (types_apart (a_type (referring_to 1) true None) (a_type bytes_array true None))) }
{}

fn spaces()
    ensures after_an_import { AreSpacesMade (memories_after (memory 1 None ∷ memory 2 None ∷ [])) }
    ensures before_an_import { ¬ AreSpacesMade (memories_after (memory 2 None ∷ memory 1 None ∷ [])) }
    ensures imports_that_are_not_there { ¬ AreSpacesMade (record one_import { imports = [] }) }
    ensures imports_that_are_not_counted { ¬ AreSpacesMade (record one_import { num_imports = 0 }) }
    ensures a_tag_that_is_not_counted { ¬ AreSpacesMade (record one_tag { num_defined_tags = 0 }) }
    ensures a_function_that_is_not_counted { ¬ AreSpacesMade (record one_function { num_defined_funcs = 0 }) }
    ensures a_table_without_a_definition { ¬ AreSpacesMade (record one_table { defined_tables = [] }) }
    ensures a_memory_that_is_not_counted { ¬ AreSpacesMade (record one_memory { num_defined_memories = 0 }) }
    ensures a_global_without_a_definition { ¬ AreSpacesMade (record one_number { defined_globals = [] }) }
{}

fn imports()
    ensures a_group { All (IsImportsValid (module_features two_imports)) two_imports.imports }
    ensures an_empty_group { ¬ All (IsImportsValid (module_features two_imports)) (Compact2 [] (entity.Global number) [] ∷ []) }
    ensures a_group_without_its_feature { ¬ All (IsImportsValid (features_of (record default_config { compact_imports_enabled = false })))
        two_imports.imports }
{}

fn entities()
    ensures a_tag_with_a_result { ¬ AreEntitiesValid (module_features one_of_each) one_of_each.types
        (record (module_spaces one_of_each) { tags = 0 ∷ [] }) }
    ensures a_function_of_no_type { ¬ AreEntitiesValid (module_features one_of_each) one_of_each.types
        (record (module_spaces one_of_each) { funcs = 2 ∷ [] }) }
    ensures a_table_above_its_maximum { ¬ AreEntitiesValid (module_features one_of_each) one_of_each.types
        (record (module_spaces one_of_each) { tables = table funcref 2 (Some 1) ∷ [] }) }
    ensures a_memory_above_its_maximum { ¬ AreEntitiesValid (module_features one_of_each) one_of_each.types
        (record (module_spaces one_of_each) { memories = memory 2 (Some 1) ∷ [] }) }
    ensures a_global_of_no_type { ¬ AreEntitiesValid (module_features one_of_each) one_of_each.types
        (record (module_spaces one_of_each) { globals = global (Ref (nullable (Concrete 2))) false ∷ [] }) }
{}

fn counts()
    ensures two_memories { AreCountsEnabled (module_features (two_memories 2)) (module_spaces (two_memories 2)) }
    ensures two_memories_without_their_feature { ¬ AreCountsEnabled (module_features (two_memories 1)) (module_spaces (two_memories 1)) }
    ensures two_tables_without_their_feature { ¬ AreCountsEnabled (features_of (record default_config { reference_types_enabled = false }))
        (record (module_spaces one_table) { tables = table funcref 1 None ∷ table funcref 1 None ∷ [] }) }
    ensures a_tag_without_its_feature { ¬ AreCountsEnabled (features_of (record default_config { exceptions_enabled = false }))
        (module_spaces one_tag) }
{}

fn tables()
    ensures from_an_import { AreDefinitionsValid table_from_import }
    ensures from_a_definition { ¬ AreDefinitionsValid table_from_definition }
    ensures with_an_initialiser_without_gc { ¬ AreDefinitionsValid table_without_gc }
    ensures from_a_number { ¬ AreDefinitionsValid (record one_table { defined_tables = Some (I32Const (pos 0) ∷ []) ∷ [] }) }
    ensures after_an_imported_one { AreDefinitionsValid (table_after no_function) }
    ensures by_the_references_of_an_imported_one { ¬ AreDefinitionsValid (table_after (RefNull (plain heap.Extern) ∷ [])) }
    ensures of_no_null_without_an_initialiser { ¬ AreDefinitionsValid null_of_no_null }
    ensures that_is_not_there { ¬ AreDefinitionsValid (record one_table { tables = [] }) }
{}

fn globals()
    ensures counted_from_the_first_definition { ¬ AreDefinitionsValid
        (record counting_after { defined_globals = (0, I32Const (pos 5) ∷ []) ∷ [] }) }
    ensures out_of_order { ¬ AreDefinitionsValid out_of_order }
    ensures that_is_not_there { ¬ AreDefinitionsValid (record one_number { globals = [] }) }
    ensures from_a_float { ¬ AreDefinitionsValid (record one_number { defined_globals = (0, F64Const 0 ∷ []) ∷ [] }) }
    ensures from_itself { ¬ AreDefinitionsValid (three_numbers true (GlobalGet 1)) }
    ensures from_a_definition_without_gc { ¬ AreDefinitionsValid (three_numbers false (GlobalGet 0)) }
    ensures from_one_that_changes { ¬ AreDefinitionsValid
        (record (three_numbers true (GlobalGet 0)) { globals = global I32 true ∷ number ∷ number ∷ [] }) }
{}

fn exports()
    ensures two_names { AreExportsValid (module_spaces (exported_twice [] [])) (exported_twice (codes "a") (codes "b")).exports }
    ensures a_name_twice { ¬ AreExportsValid (module_spaces (exported_twice [] [])) (exported_twice (codes "a") (codes "a")).exports }
    ensures what_is_not_there { ¬ AreExportsValid (module_spaces one_number) (([], kind.Func, 0) ∷ []) }
    ensures start_that_takes_a_number { ¬ IsStartValid without_gc.types without_gc.funcs (Some 0) }
    ensures start_that_is_not_there { ¬ IsStartValid one_function.types one_function.funcs (Some 1) }
{}

fn segments()
    ensures elements_without_bulk_memory { ¬ All (IsElementSegmentValid
        (segment_context (record two_elements { config = record default_config { bulk_memory_enabled = false } })) []) two_elements.elems }
    ensures elements_in_no_table { ¬ All (IsElementSegmentValid (segment_context one_function) []) (filled_table (Const32 (pos 0))).elems }
    ensures from_where_a_defined_number_says_without_gc { ¬ All (IsElementSegmentValid (segment_context (table_from_a_number false))
        (table_from_a_number false).tables) (table_from_a_number false).elems }
    ensures bytes_in_no_memory { ¬ All (IsDataValid (segment_context last_byte) []) last_byte.datas }
    ensures bytes_without_bulk_memory { ¬ All
        (IsDataValid (segment_context (record passive_bytes { config = record default_config { bulk_memory_enabled = false } })) [])
        passive_bytes.datas }
{}

fn bodies()
    ensures function_without_a_body { ¬ AreBodiesValid bodiless }
    ensures raw_bytes_that_are_not_allowed { ¬ AreBodiesValid (record raw_body { config = without_gc.config }) }
    ensures a_counter_that_does_not_change { ¬ AreBodiesValid (record counting_once { globals = number ∷ [] }) }
    ensures a_counter_that_is_imported { ¬ AreBodiesValid imported_counter }
{}

fn refused()
    ensures by_its_types { ¬ IsValid (record one_function { groups = [] }) }
    ensures by_its_imports { ¬ IsValid (record (empty_module default_config) { imports = Compact2 [] (entity.Global number) [] ∷ [] }) }
    ensures by_its_spaces { ¬ IsValid (record one_import { num_imports = 0 }) }
    ensures by_its_entities { ¬ IsValid (record one_memory { memories = memory 2 (Some 1) ∷ [] }) }
    ensures by_their_counts { ¬ IsValid (two_memories 1) }
    ensures by_its_definitions { ¬ IsValid null_of_no_null }
    ensures by_its_exports { ¬ IsValid (exported_twice (codes "a") (codes "a")) }
    ensures by_its_start { ¬ IsValid (record without_gc { start = Some 0 }) }
    ensures by_its_elements { ¬ IsValid (record two_elements { config = record default_config { bulk_memory_enabled = false } }) }
    ensures by_its_data { ¬ IsValid (record passive_bytes { config = record default_config { bulk_memory_enabled = false } }) }
    ensures by_its_bodies { ¬ IsValid bodiless }
{}
