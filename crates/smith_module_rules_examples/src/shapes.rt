ghost use Rattle.std.specs.Prelude.{[], ◌∷◌, ◌≡◌, ◌++◌, take, drop, true, false, Some, None, codes};
ghost use Rattle.smith_types.specs.Syntax.entity_type.EntityType.TheVariants as entity;
ghost use Rattle.smith_types.specs.Syntax.entity_type.ExportKind.TheVariants as kind;
ghost use Rattle.smith_types.specs.Syntax.imports.Imports.TheVariants.{Single};
ghost use Rattle.smith_config.specs.Config.{default_config};
ghost use Rattle.smith_config.specs.ExampleMembers.{final, taking_a_number, foo_type, quux_type};
ghost use Rattle.smith_module_rules.specs.Module.{shown_config};
ghost use Rattle.smith_module_rules.specs.ShapesKept.{KeepsTypes, KeepsModuleShape, KeepsAvailableImports, KeepsExports, KeepsShapes};
ghost use Rattle.smith_module_rules.specs.ShapesKept.{IsSameType};
ghost use Rattle.smith_module_rules.specs.ShapeImports.{kept_groups, taken_from};
ghost use Rattle.smith_module_rules_examples.specs.ExampleParts.{memory};
ghost use Rattle.smith_module_rules_examples.specs.ExampleModules.{group_of, one_function, one_of_each, three_memories};
ghost use Rattle.smith_module_rules_examples.specs.ExampleGiven.{memories_one_by_one};
ghost use Rattle.smith_module_rules_examples.specs.ExampleShapes.{for_module, for_imports, for_exports, imported_memories};
ghost use Rattle.smith_module_rules_examples.specs.ExampleShapes.{memories_in_and_out, with_memories_in_and_out, memory_named, ping};
ghost use Rattle.smith_module_rules_examples.specs.ExampleShapes.{shared_bytes, environment, with_environment, with_ping, in_one_group};
ghost use Rattle.smith_module_rules_examples.specs.ExampleShapes.{exporting, exported, imported_kinds, five_exports, equal_types};
ghost use Rattle.smith_module_rules_examples.specs.ExampleShapes.{of_equal_types};

fn module_shapes()
    ensures without_empty_groups { kept_groups default_config imported_memories ≡ three_memories.imports }
    ensures one_by_one { kept_groups (record default_config { compact_imports_enabled = false }) imported_memories
        ≡ Single (memory_named (codes "a")) ∷ Single (memory_named (codes "b")) ∷ Single (memory_named (codes "c")) ∷ [] }
    ensures kept { KeepsModuleShape imported_memories three_memories }
    ensures kept_one_by_one { KeepsModuleShape imported_memories memories_one_by_one }
    ensures one_by_one_where_groups_may_be { ¬ KeepsModuleShape imported_memories
        (record memories_one_by_one { config = three_memories.config }) }
    ensures one_left_out { ¬ KeepsModuleShape imported_memories (record three_memories { imports = [] }) }
    ensures another_type_first { ¬ KeepsModuleShape environment one_function }
    ensures imports_and_an_export { KeepsModuleShape memories_in_and_out with_memories_in_and_out }
    ensures an_export_left_out { ¬ KeepsModuleShape memories_in_and_out three_memories }
    ensures an_export_of_another_name { ¬ KeepsModuleShape memories_in_and_out
        (record with_memories_in_and_out { exports = (codes "e", kind.Memory, 3) ∷ [] }) }
    ensures a_function_of_its_type { KeepsModuleShape equal_types (of_equal_types 0) }
    ensures a_function_of_an_equal_type { ¬ KeepsModuleShape equal_types (of_equal_types 1) }
{}

fn types()
    ensures kept { KeepsTypes environment with_environment }
    ensures more_after { KeepsTypes environment
        (record with_environment { types = final taking_a_number ∷ foo_type ∷ []; groups = group_of 0 1 ∷ group_of 1 2 ∷ [] }) }
    ensures more_before { ¬ KeepsTypes environment
        (record with_environment { types = foo_type ∷ final taking_a_number ∷ []; groups = group_of 0 1 ∷ group_of 1 2 ∷ [] }) }
    ensures none { ¬ KeepsTypes environment (record with_environment { types = [] }) }
    ensures in_another_group { ¬ KeepsTypes environment (record with_environment { groups = group_of 0 2 ∷ [] }) }
{}

#[tactic(auto, unfolding(smith_module_rules::specs::ShapeImports::is_fitting))]
fn available_imports()
    ensures both { taken_from default_config (final taking_a_number ∷ []) (1 ∷ 1 ∷ []) 0 [] (ping ∷ shared_bytes ∷ []) ≡ ping ∷ shared_bytes
        ∷ [] }
    ensures the_second { taken_from default_config (final taking_a_number ∷ []) (0 ∷ 1 ∷ []) 0 [] (ping ∷ shared_bytes ∷ []) ≡ shared_bytes
        ∷ [] }
    ensures the_first_alone { taken_from (record default_config { max_imports = 1 }) (final taking_a_number ∷ []) (1 ∷ 1 ∷ []) 0 [] (ping
        ∷ shared_bytes ∷ []) ≡ ping ∷ [] }
    ensures past_the_end { taken_from default_config (final taking_a_number ∷ []) (1 ∷ []) 0 [] (ping ∷ shared_bytes ∷ []) ≡ ping ∷ [] }
    ensures no_room_for_a_memory { taken_from (record default_config { max_memories = 0 }) (final taking_a_number ∷ []) (1 ∷ 1 ∷ []) 0 []
        (shared_bytes ∷ ping ∷ []) ≡ ping ∷ [] }
    ensures too_large { taken_from (record default_config { max_type_size = 1 }) (final taking_a_number ∷ []) (1 ∷ 1 ∷ []) 0 [] (ping
        ∷ shared_bytes ∷ []) ≡ shared_bytes ∷ [] }
    ensures tag_without_exceptions { taken_from (record default_config { exceptions_enabled = false }) (final taking_a_number ∷ []) (1
        ∷ []) 0 [] (record ping { entity_type = entity.Tag 0 } ∷ []) ≡ [] }
    ensures kept { KeepsAvailableImports (1 ∷ 1 ∷ []) environment with_environment }
    ensures the_first_kept { KeepsAvailableImports (3 ∷ 2 ∷ []) environment with_ping }
    ensures kept_in_one_group { KeepsAvailableImports (1 ∷ 1 ∷ []) environment in_one_group }
    ensures types_left_out { ¬ KeepsAvailableImports (1 ∷ 1 ∷ []) environment (record with_environment { types = []; groups = [] }) }
    ensures sorted_otherwise { ¬ KeepsAvailableImports (1 ∷ 1 ∷ []) environment
        (record with_environment { imports = Single shared_bytes ∷ Single ping ∷ [] }) }
    ensures all_skipped { ¬ KeepsAvailableImports (1 ∷ 1 ∷ []) environment (record with_ping { imports = [] }) }
{}

#[tactic(auto, unfolding(smith_module_rules::specs::ShapeImports::is_fitting))]
fn full_kinds()
    ensures none { taken_from default_config (final taking_a_number ∷ []) (1 ∷ 1 ∷ 1 ∷ 1 ∷ 1 ∷ []) 0 [] imported_kinds ≡ imported_kinds }
    ensures tags { taken_from (record default_config { max_tags = 0 }) (final taking_a_number ∷ []) (1 ∷ 1 ∷ 1 ∷ 1 ∷ 1
        ∷ []) 0 [] imported_kinds ≡ drop 1 imported_kinds }
    ensures functions { taken_from (record default_config { max_funcs = 0 }) (final taking_a_number ∷ []) (1 ∷ 1 ∷ 1 ∷ 1 ∷ 1
        ∷ []) 0 [] imported_kinds ≡ take 1 imported_kinds ++ drop 2 imported_kinds }
    ensures tables { taken_from (record default_config { max_tables = 0 }) (final taking_a_number ∷ []) (1 ∷ 1 ∷ 1 ∷ 1 ∷ 1
        ∷ []) 0 [] imported_kinds ≡ take 2 imported_kinds ++ drop 3 imported_kinds }
    ensures memories { taken_from (record default_config { max_memories = 0 }) (final taking_a_number ∷ []) (1 ∷ 1 ∷ 1 ∷ 1 ∷ 1
        ∷ []) 0 [] imported_kinds ≡ take 3 imported_kinds ++ drop 4 imported_kinds }
    ensures globals { taken_from (record default_config { max_globals = 0 }) (final taking_a_number ∷ []) (1 ∷ 1 ∷ 1 ∷ 1 ∷ 1
        ∷ []) 0 [] imported_kinds ≡ take 4 imported_kinds }
{}

fn exports()
    ensures kept { KeepsExports exporting (exported exporting.exports) }
    ensures sorted_otherwise { ¬ KeepsExports exporting (exported ((codes "baz", kind.Memory, 0) ∷ (codes "bar", kind.Global, 0) ∷ [])) }
    ensures another_name { ¬ KeepsExports exporting (exported ((codes "foo", kind.Global, 0) ∷ (codes "baz", kind.Memory, 0) ∷ [])) }
    ensures one_left_out { ¬ KeepsExports exporting (exported ((codes "bar", kind.Global, 0) ∷ [])) }
    ensures another_type { ¬ KeepsExports exporting (record (exported exporting.exports) { memories = memory 0 None ∷ [] }) }
    ensures another_kind { ¬ KeepsExports exporting (exported ((codes "bar", kind.Memory, 0) ∷ (codes "baz", kind.Memory, 0) ∷ [])) }
    ensures one_of_each_kind { KeepsExports five_exports one_of_each }
    ensures a_function_of_an_equal_type { KeepsExports equal_types (of_equal_types 1) }
{}

fn shapes()
    ensures none { KeepsShapes default_config [] one_function }
    ensures of_exports { KeepsShapes (for_exports five_exports default_config) [] one_of_each }
    ensures of_exports_not_kept { ¬ KeepsShapes (for_exports five_exports default_config) [] one_function }
    ensures of_a_module { KeepsShapes (for_module imported_memories default_config) [] three_memories }
    ensures of_a_module_not_kept { ¬ KeepsShapes (for_module imported_memories default_config) [] one_function }
    ensures of_available_imports { KeepsShapes (for_imports environment default_config) (1 ∷ 1 ∷ []) with_environment }
    ensures of_a_module_beside_others { KeepsShapes
        (for_module imported_memories (for_imports environment (for_exports five_exports default_config))) [] three_memories }
    ensures of_available_imports_not_kept { ¬ KeepsShapes (for_imports environment default_config) (1 ∷ 0 ∷ []) with_environment }
{}

fn shown()
    ensures sanitised { shown_config (record default_config { gc_enabled = false; custom_descriptors_enabled = true })
        ≡ record default_config { gc_enabled = false } }
    ensures available_imports_are_used_up { shown_config (for_imports environment default_config) ≡ default_config }
    ensures exports_stay { shown_config (for_exports exporting default_config) ≡ for_exports exporting default_config }
    ensures a_module_shape_stays { shown_config (for_module environment (for_exports exporting default_config))
        ≡ for_module environment default_config }
{}

fn types_of_exports()
    ensures the_same_function_type { IsSameType (foo_type ∷ []) (quux_type ∷ foo_type ∷ []) (entity.Func 0) (entity.Func 1) }
    ensures the_same_type_of_a_tag { IsSameType (quux_type ∷ []) (quux_type ∷ []) (entity.Tag 0) (entity.Tag 0) }
    ensures another_function_type { ¬ IsSameType (foo_type ∷ []) (quux_type ∷ []) (entity.Func 0) (entity.Func 0) }
    ensures of_no_type { ¬ IsSameType [] (foo_type ∷ []) (entity.Func 0) (entity.Func 0) }
    ensures as_no_type { ¬ IsSameType (foo_type ∷ []) [] (entity.Func 0) (entity.Func 0) }
    ensures not_final { ¬ IsSameType (record foo_type { is_final = false } ∷ []) (foo_type ∷ []) (entity.Func 0) (entity.Func 0) }
    ensures below_another { ¬ IsSameType (record foo_type { supertype = Some 0 } ∷ []) (foo_type ∷ []) (entity.Func 0) (entity.Func 0) }
    ensures a_tag_for_a_function { ¬ IsSameType (foo_type ∷ []) (foo_type ∷ []) (entity.Tag 0) (entity.Func 0) }
    ensures another_limit { ¬ IsSameType [] [] (entity.Memory (memory 0 None)) (entity.Memory (memory 1 None)) }
{}
