ghost use Rattle.std.specs.Prelude.{[], ◌∷◌, ◌≡◌, true, None};
ghost use Rattle.smith_bytes.specs.declared.error.Count.TheVariants as counts;
ghost use Rattle.smith_types.specs.Syntax.entity_type.ExportKind.TheVariants as kind;
ghost use Rattle.smith_types.specs.Syntax.segments.Elements.TheVariants.{Functions, Expressions};
ghost use Rattle.smith_types.specs.Syntax.const_instr.ConstInstr.TheVariants.{GlobalGet};
ghost use Rattle.smith_config.specs.Config.{default_config};
ghost use Rattle.smith_config.specs.ExampleMembers.{plain_function, foo_type};
ghost use Rattle.smith_module_rules.specs.Held.{HasNoCandidates};
ghost use Rattle.smith_module_rules.specs.Bounds.{count_of, export_size, imports_size, exports_size, items_of_shapes};
ghost use Rattle.smith_module_rules.specs.Bounds.{items_of_export_shape, MaximumApplies, MinimumApplies, HasEnough, KeepsBounds};
ghost use Rattle.smith_module_rules.specs.Bounds.{MeetsMinimums};
ghost use Rattle.smith_module_rules_examples.specs.ExampleParts.{memory, no_function, passive_elements};
ghost use Rattle.smith_module_rules_examples.specs.ExampleModules.{empty_module, arrays, three_arrays, one_function, one_table, one_tag};
ghost use Rattle.smith_module_rules_examples.specs.ExampleModules.{one_of_each, passive_bytes, one_import, two_imports, two_exports};
ghost use Rattle.smith_module_rules_examples.specs.ExampleModules.{two_memories, two_segments, three_memories, elements_asked_for};
ghost use Rattle.smith_module_rules_examples.specs.ExampleGiven.{nothing_allowed, two_singles, exported_number, three_numbers, forced_page};
ghost use Rattle.smith_module_rules_examples.specs.ExampleGiven.{full_memory, null_table, last_byte, sixty_elements};
ghost use Rattle.smith_module_rules_examples.specs.ExampleShapes.{for_module, for_imports, for_exports, empty_shape, imported_memories};
ghost use Rattle.smith_module_rules_examples.specs.ExampleShapes.{memories_in_and_out, environment, with_environment, with_ping, exporting};
ghost use Rattle.smith_module_rules_examples.specs.ExampleShapes.{exported, five_imports, five_exports};

fn sizes()
    ensures two_numbers { imports_size two_imports.config two_imports ≡ 4 }
    ensures two_functions { exports_size two_exports.config two_exports ≡ 4 }
    ensures available_imports { imports_size (for_imports environment default_config) with_environment ≡ 3 }
    ensures one_available_import { imports_size (for_imports environment default_config) with_ping ≡ 2 }
    ensures imports_of_a_shape { imports_size (for_module imported_memories three_memories.config) three_memories ≡ 0 }
    ensures exports_beside_available_imports { exports_size (for_imports environment two_exports.config) two_exports ≡ 4 }
    ensures exports_of_a_shape { exports_size (for_exports exporting two_exports.config) two_exports ≡ 0 }
{}

fn sizes_of_exports()
    ensures a_function { export_size with_environment kind.Func 0 ≡ 2 }
    ensures a_memory { export_size with_environment kind.Memory 0 ≡ 1 }
    ensures a_number { exports_size exported_number.config exported_number ≡ 2 }
{}

fn counted()
    ensures types { count_of one_of_each counts.Types ≡ 2 }
    ensures imports_of_all_groups { count_of three_memories counts.Imports ≡ 3 }
    ensures tags { count_of one_of_each counts.Tags ≡ 1 }
    ensures functions_with_imported_ones { count_of with_environment counts.Funcs ≡ 1 }
    ensures tables { count_of one_of_each counts.Tables ≡ 1 }
    ensures memories_with_imported_ones { count_of three_memories counts.Memories ≡ 3 }
    ensures globals_with_imported_ones { count_of two_imports counts.Globals ≡ 2 }
    ensures exports { count_of one_of_each counts.Exports ≡ 5 }
    ensures element_segments { count_of two_segments counts.ElementSegments ≡ 2 }
    ensures elements_of_all_segments { count_of two_segments counts.Elements ≡ 3 }
    ensures data_segments { count_of passive_bytes counts.DataSegments ≡ 1 }
{}

fn shapes_bring()
    ensures memories { items_of_shapes (for_module imported_memories default_config) counts.Memories ≡ 3 }
    ensures imports { items_of_shapes (for_module imported_memories default_config) counts.Imports ≡ 3 }
    ensures types { items_of_shapes (for_module five_exports default_config) counts.Types ≡ 2 }
    ensures what_is_imported_and_what_is_exported { items_of_shapes (for_module memories_in_and_out default_config) counts.Memories ≡ 4 }
    ensures no_segments { items_of_shapes (for_module five_exports default_config) counts.ElementSegments ≡ 0 }
    ensures an_imported_tag { items_of_shapes (for_module five_imports default_config) counts.Tags ≡ 1 }
    ensures an_imported_function { items_of_shapes (for_module five_imports default_config) counts.Funcs ≡ 1 }
    ensures an_imported_table { items_of_shapes (for_module five_imports default_config) counts.Tables ≡ 1 }
    ensures an_imported_global { items_of_shapes (for_module five_imports default_config) counts.Globals ≡ 1 }
    ensures types_of_available_imports { items_of_shapes (for_imports environment default_config) counts.Types ≡ 1 }
    ensures no_memory_of_available_imports { items_of_shapes (for_imports environment default_config) counts.Memories ≡ 0 }
    ensures nothing_without_shapes { items_of_shapes default_config counts.Types ≡ 0 }
    ensures nothing_past_the_maximum_by_exports { items_of_shapes (for_exports five_exports default_config) counts.Types ≡ 0 }
    ensures exports { items_of_export_shape (for_exports exporting default_config) counts.Globals ≡ 1 }
    ensures a_type_for_each_function_and_tag { items_of_export_shape (for_exports five_exports default_config) counts.Types ≡ 2 }
    ensures an_exported_tag { items_of_export_shape (for_exports five_exports default_config) counts.Tags ≡ 1 }
    ensures an_exported_function { items_of_export_shape (for_exports five_exports default_config) counts.Funcs ≡ 1 }
    ensures an_exported_table { items_of_export_shape (for_exports five_exports default_config) counts.Tables ≡ 1 }
    ensures an_exported_memory { items_of_export_shape (for_exports five_exports default_config) counts.Memories ≡ 1 }
    ensures no_imports_by_exports { items_of_export_shape (for_exports five_exports default_config) counts.Imports ≡ 0 }
    ensures nothing_added_by_a_module { items_of_export_shape (for_module five_exports default_config) counts.Types ≡ 0 }
    ensures exports_of_a_module { items_of_shapes (for_module exporting default_config) counts.Globals ≡ 1 }
    ensures no_available_imports_beside_a_module { items_of_shapes (for_module exporting (for_imports environment default_config))
        counts.Types ≡ 0 }
    ensures no_exports_beside_a_module { items_of_export_shape (for_module exporting (for_exports five_exports default_config)) counts.Types
        ≡ 0 }
{}

fn held()
    ensures exports_at_most { MaximumApplies default_config counts.Exports }
    ensures more_exports_where_everything_is { ¬ MaximumApplies (record default_config { export_everything = true }) counts.Exports }
    ensures exports_of_a_shape { ¬ MaximumApplies (for_exports exporting default_config) counts.Exports }
    ensures exports_of_a_module { ¬ MaximumApplies (for_module exporting default_config) counts.Exports }
    ensures exports_beside_available_imports { MaximumApplies (for_imports environment default_config) counts.Exports }
    ensures exports_at_least { MinimumApplies default_config counts.Exports }
    ensures no_export_where_everything_is { ¬ MinimumApplies (record default_config { export_everything = true }) counts.Exports }
    ensures no_export_beside_a_shape { ¬ MinimumApplies (for_exports exporting default_config) counts.Exports }
    ensures imports_at_least { MinimumApplies (for_exports exporting default_config) counts.Imports }
    ensures no_import_of_a_shape { ¬ MinimumApplies (for_module imported_memories default_config) counts.Imports }
    ensures no_available_import { ¬ MinimumApplies (for_imports environment default_config) counts.Imports }
    ensures elements_by_segments { ¬ MinimumApplies default_config counts.Elements }
{}

fn most()
    ensures two_numbers { KeepsBounds two_imports.config two_imports }
    ensures nothing_where_nothing_may_be { KeepsBounds nothing_allowed.config nothing_allowed }
    ensures two_functions { KeepsBounds two_exports.config two_exports }
    ensures available_imports { KeepsBounds (for_imports environment default_config) with_environment }
    ensures an_available_import_too_many { ¬ KeepsBounds (for_imports environment (record default_config { max_imports = 1 }))
        with_environment }
    ensures another_type_size { ¬ KeepsBounds two_imports.config (record two_imports { type_size = 3 }) }
    ensures too_large_together { ¬ KeepsBounds (record default_config { max_type_size = 3 }) two_imports }
    ensures a_type_too_many { ¬ KeepsBounds (record default_config { max_types = 1 }) arrays }
    ensures a_function_too_many { ¬ KeepsBounds (record default_config { max_funcs = 0 }) one_function }
    ensures an_element_too_many { ¬ KeepsBounds (record default_config { max_elements = 2 }) two_segments }
    ensures an_export_too_many { ¬ KeepsBounds (record default_config { max_exports = 0 }) exported_number }
    ensures any_exports_where_everything_is { KeepsBounds (record default_config { export_everything = true; max_exports = 0 })
        two_exports }
    ensures memories_of_a_shape { KeepsBounds (for_module imported_memories default_config) three_memories }
    ensures memories_of_no_shape { ¬ KeepsBounds default_config three_memories }
    ensures exports_of_a_shape { KeepsBounds (for_exports five_exports nothing_allowed.config) one_of_each }
{}

fn limits()
    ensures a_memory_too_large { ¬ KeepsBounds (record default_config { max_memory32_bytes = 65535 })
        (record (empty_module default_config) { memories = memory 1 None ∷ [] }) }
    ensures a_memory_of_a_shape { KeepsBounds (for_exports exporting (record default_config { max_memory32_bytes = 0 }))
        (exported exporting.exports) }
    ensures a_forced_page { KeepsBounds forced_page.config forced_page }
    ensures a_page_that_is_not_forced { ¬ KeepsBounds (record default_config { max_memory32_bytes = 0 }) forced_page }
    ensures a_memory_without_its_maximum { ¬ KeepsBounds (record default_config { max_memories = 2; memory_max_size_required = true })
        (two_memories 2) }
    ensures many_references { KeepsBounds default_config (null_table 996093) }
    ensures a_table_too_large { ¬ KeepsBounds (record default_config { max_table_elements = 6788 }) (null_table 6789) }
    ensures a_memory_of_a_shape_beside_a_module { ¬ KeepsBounds
        (for_module empty_shape (for_exports exporting (record default_config { max_memory32_bytes = 0 }))) (exported exporting.exports) }
    ensures a_table_of_a_shape { KeepsBounds (for_exports five_exports (record default_config { max_table_elements = 0 })) one_of_each }
    ensures a_forced_element { KeepsBounds one_table.config one_table }
    ensures an_element_that_is_not_forced { ¬ KeepsBounds (record default_config { max_table_elements = 0 }) one_table }
    ensures a_table_without_its_maximum { ¬ KeepsBounds (record default_config { table_max_size_required = true }) (null_table 1) }
{}

fn candidates()
    ensures none { HasNoCandidates [] [] }
    ensures shared_functions { HasNoCandidates (record foo_type { composite_type = record { inner = plain_function; shared = true } }
        ∷ []) one_function.funcs }
    ensures a_function { ¬ HasNoCandidates one_function.types one_function.funcs }
{}

fn least()
    ensures imports_count { MeetsMinimums two_imports.config two_imports }
    ensures no_function { ¬ MeetsMinimums (record default_config { min_funcs = 1 }) (empty_module default_config) }
    ensures no_export { ¬ MeetsMinimums (record default_config { min_exports = 1 }) (empty_module default_config) }
    ensures one_of_each_that_is_asked_for { MeetsMinimums one_tag.config one_tag }
    ensures enough { HasEnough (record default_config { min_elements = 1 }) (elements_asked_for 1 (Functions (0 ∷ [])))
        (passive_elements (Functions (0 ∷ []))) }
    ensures too_few { ¬ MeetsMinimums (record default_config { min_elements = 2 }) (elements_asked_for 2 (Expressions (no_function ∷ []))) }
    ensures none_of_a_candidate { ¬ HasEnough (record default_config { min_elements = 1 }) (elements_asked_for 1 (Functions []))
        (passive_elements (Functions [])) }
    ensures none_without_candidates { HasEnough (record default_config { min_elements = 1 })
        (record (elements_asked_for 1 (Functions [])) { funcs = [] }) (passive_elements (Functions [])) }
    ensures no_expressions_without_candidates { ¬ HasEnough (record default_config { min_elements = 1 })
        (record (elements_asked_for 1 (Functions [])) { funcs = [] }) (passive_elements (Expressions [])) }
{}

fn given_modules()
    ensures three_types { MeetsMinimums three_arrays.config three_arrays }
    ensures a_type_is_missing { ¬ MeetsMinimums three_arrays.config arrays }
    ensures two_imports { MeetsMinimums (two_singles []).config (two_singles []) }
    ensures an_import_is_missing { ¬ MeetsMinimums (two_singles []).config one_import }
    ensures a_table { MeetsMinimums (null_table 6789).config (null_table 6789) }
    ensures a_table_is_missing { ¬ MeetsMinimums (null_table 6789).config (empty_module default_config) }
    ensures a_memory { MeetsMinimums full_memory.config full_memory }
    ensures a_memory_is_missing { ¬ MeetsMinimums full_memory.config (empty_module default_config) }
    ensures three_globals { MeetsMinimums (three_numbers true (GlobalGet 0)).config (three_numbers true (GlobalGet 0)) }
    ensures a_byte { MeetsMinimums last_byte.config last_byte }
    ensures data_is_missing { ¬ MeetsMinimums last_byte.config (record last_byte { datas = [] }) }
    ensures sixty_elements { MeetsMinimums sixty_elements.config sixty_elements }
    ensures a_segment_is_missing { ¬ MeetsMinimums sixty_elements.config (empty_module default_config) }
    ensures a_tag_is_missing { ¬ MeetsMinimums one_tag.config (record one_tag { tags = [] }) }
{}
