ghost use Rattle.std.specs.Prelude.{[], ◌∷◌, true, false, pos, Some, None, codes};
ghost use Rattle.smith_types.specs.Syntax.value_type.AbstractHeapType.TheVariants as heap;
ghost use Rattle.smith_types.specs.Syntax.value_type.HeapType.TheVariants.{Concrete};
ghost use Rattle.smith_types.specs.Syntax.value_type.ValType.TheVariants.{F32, F64, V128, Ref};
ghost use Rattle.smith_types.specs.Syntax.composite_type.StorageType.TheVariants.{Val};
ghost use Rattle.smith_types.specs.Syntax.entity_type.EntityType.TheVariants as entity;
ghost use Rattle.smith_types.specs.Syntax.imports.Imports.TheVariants.{Single};
ghost use Rattle.smith_types.specs.Syntax.const_instr.ConstInstr.TheVariants.{F32Const, F64Const};
ghost use Rattle.smith_types.specs.Syntax.segments.Elements.TheVariants.{Expressions};
ghost use Rattle.smith_types.specs.Syntax.segments.Offset.TheVariants.{Const32};
ghost use Rattle.smith_types.specs.Syntax.code.Instructions.TheVariants.{Unreachable};
ghost use Rattle.smith_types.specs.ExampleTypes.{struct, constant, empty_struct, plain, not_null};
ghost use Rattle.smith_config.specs.Config.{default_config};
ghost use Rattle.smith_config.specs.ExampleMembers.{final, taking};
ghost use Rattle.smith_module_rules.specs.Promises.{HasDistinctImports, HasNoFloats, HoldsGranted, HasGrantedLocals, ExportsEverything};
ghost use Rattle.smith_module_rules.specs.Promises.{HasNoStart, HasNoCounter, IsInside, WritesSections, KeepsPromises};
ghost use Rattle.smith_module_rules_examples.specs.ExampleShapes.{for_module, for_imports, for_exports, environment, exporting};
ghost use Rattle.smith_module_rules_examples.specs.ExampleShapes.{memories_in_and_out, non_nullable};
ghost use Rattle.smith_module_rules_examples.specs.ExampleParts.{global, table, number, import_named, passive_elements};
ghost use Rattle.smith_module_rules_examples.specs.ExampleReferences.{with_references, holding_reference};
ghost use Rattle.smith_module_rules_examples.specs.ExampleModules.{a_float, one_function, one_number, one_table, one_data_segment};
ghost use Rattle.smith_module_rules_examples.specs.ExampleModules.{one_import, one_of_each, all_of_each, two_elements, two_imports};
ghost use Rattle.smith_module_rules_examples.specs.ExampleModules.{two_exports, named_imports, exported_twice, last_bytes, filled_table};
ghost use Rattle.smith_module_rules_examples.specs.ExampleModules.{table_from_a_number};
ghost use Rattle.smith_module_rules_examples.specs.ExampleGiven.{counting_fuel};

fn names()
    ensures two_names { HasDistinctImports (named_imports [] (codes "1")) }
    ensures one_name_of_two_modules { HasDistinctImports (record two_imports {
      imports = Single
          (record { «module» = codes "a"; name = []; entity_type = entity.Global number })
          ∷ Single (import_named [] (entity.Global number)) ∷ [];
    }) }
    ensures one_name_twice { ¬ HasDistinctImports (named_imports [] []) }
{}

fn floats()
    ensures none { HasNoFloats counting_fuel }
    ensures a_vector { HasNoFloats (record one_function { types = final (taking V128) ∷ [] }) }
    ensures in_a_type { ¬ HasNoFloats (record one_function { types = final (taking F32) ∷ [] }) }
    ensures in_a_field { ¬ HasNoFloats (record one_function { types = final (struct (constant (Val F64) ∷ [])) ∷ [] }) }
    ensures in_a_local { ¬ HasNoFloats (record one_function { code = record { locals = F32 ∷ []; instructions = Unreachable } ∷ [] }) }
    ensures in_a_global { ¬ HasNoFloats (record one_number { globals = global F32 true ∷ [] }) }
    ensures in_an_expression { ¬ HasNoFloats (record one_number { defined_globals = (0, F64Const 0 ∷ []) ∷ [] }) }
    ensures in_the_initialiser_of_a_table { ¬ HasNoFloats (record one_table { defined_tables = Some (F32Const 0 ∷ []) ∷ [] }) }
    ensures in_an_element { ¬ HasNoFloats (record two_elements { elems = passive_elements (Expressions ((F32Const 0 ∷ []) ∷ [])) ∷ [] }) }
{}

fn references()
    ensures a_number { HoldsGranted default_config one_number }
    ensures that_may_be_null { HoldsGranted default_config one_table }
    ensures to_a_struct { HoldsGranted with_references (holding_reference (final empty_struct ∷ []) (Concrete 0)) }
    ensures to_a_struct_by_default { ¬ HoldsGranted default_config (holding_reference (final empty_struct ∷ []) (Concrete 0)) }
    ensures in_a_global { ¬ HoldsGranted with_references (holding_reference [] (plain heap.Any)) }
    ensures in_a_table { ¬ HoldsGranted with_references (record one_table { tables = table (not_null (plain heap.Any)) 1 None ∷ [] }) }
    ensures in_a_parameter { ¬ HoldsGranted with_references
        (record one_number { types = final (taking (Ref (not_null (plain heap.Any)))) ∷ [] }) }
    ensures in_a_segment { ¬ HoldsGranted with_references
        (record one_number { elems = record (passive_elements (Expressions [])) { ty = not_null (plain heap.Any) } ∷ [] }) }
    ensures in_a_local { HoldsGranted with_references
        (record one_number { code = record { locals = Ref (not_null (plain heap.Any)) ∷ []; instructions = Unreachable } ∷ [] }) }
{}

fn locals()
    ensures none { HasGrantedLocals default_config one_number }
    ensures a_number { HasGrantedLocals default_config
        (record one_function { code = record { locals = F32 ∷ []; instructions = Unreachable } ∷ [] }) }
    ensures to_functions { HasGrantedLocals with_references
        (record one_function { code = record { locals = Ref (not_null (plain heap.Func)) ∷ []; instructions = Unreachable } ∷ [] }) }
    ensures to_anything { ¬ HasGrantedLocals with_references
        (record one_number { code = record { locals = Ref (not_null (plain heap.Any)) ∷ []; instructions = Unreachable } ∷ [] }) }
{}

fn exports()
    ensures everything { ExportsEverything two_exports }
    ensures nothing { ¬ ExportsEverything one_function }
    ensures one_of_each_kind { ExportsEverything (record one_of_each { exports = all_of_each }) }
    ensures in_another_order { ¬ ExportsEverything one_of_each }
    ensures one_twice { ¬ ExportsEverything (exported_twice (codes "a") (codes "b")) }
    ensures nothing_of_nothing { ExportsEverything (record one_function { funcs = [] }) }
{}

fn start()
    ensures none { HasNoStart one_function }
    ensures a_function { ¬ HasNoStart (filled_table (Const32 (pos 0))) }
{}

fn elements()
    ensures up_to_the_end { IsInside (filled_table (Const32 (pos 0))) }
    ensures past_the_end { ¬ IsInside (filled_table (Const32 (pos 1))) }
    ensures from_where_a_global_says { ¬ IsInside (table_from_a_number true) }
    ensures copied_nowhere { IsInside two_elements }
{}

fn segments()
    ensures no_bytes { IsInside one_data_segment }
    ensures up_to_the_last_byte { IsInside (last_bytes 65536 (42 ∷ [])) }
    ensures one_byte_past { ¬ IsInside (last_bytes 65536 (42 ∷ 42 ∷ [])) }
    ensures a_page_less { ¬ IsInside (last_bytes 65535 (42 ∷ [])) }
{}

fn sections()
    ensures of_types { WritesSections one_function }
    ensures of_types_left_out { ¬ WritesSections (record one_function { encodes_types = false }) }
    ensures of_imports { WritesSections one_import }
    ensures of_imports_left_out { ¬ WritesSections (record one_import { encodes_imports = false }) }
    ensures of_nothing { WritesSections (record one_number { encodes_types = true; encodes_imports = true }) }
{}

fn fuel()
    ensures none { HasNoCounter one_number }
    ensures a_counter { ¬ HasNoCounter counting_fuel }
{}

fn asked_for()
    ensures distinct_names { KeepsPromises true default_config (named_imports [] (codes "1")) }
    ensures one_name_twice { ¬ KeepsPromises true default_config (named_imports [] []) }
    ensures one_name_twice_where_it_may_be { KeepsPromises false default_config (named_imports [] []) }
    ensures one_name_twice_in_a_shape { KeepsPromises true (for_imports environment default_config) (named_imports [] []) }
    ensures one_name_twice_beside_exports_of_a_shape { ¬ KeepsPromises true (for_exports exporting default_config) (named_imports [] []) }
    ensures a_float { ¬ KeepsPromises false (record default_config { allow_floats = false }) a_float }
    ensures a_float_where_they_may_be { KeepsPromises false default_config a_float }
    ensures a_float_beside_a_shape { KeepsPromises false (for_exports exporting (record default_config { allow_floats = false })) a_float }
    ensures a_float_beside_an_unused_shape { KeepsPromises false
        (for_module environment (for_exports exporting (record default_config { allow_floats = false }))) a_float }
    ensures a_reference_that_nothing_grounds { ¬ KeepsPromises false with_references (holding_reference [] (plain heap.Any)) }
    ensures the_same_beside_a_shape_that_holds_one { KeepsPromises false (for_module non_nullable with_references)
        (holding_reference [] (plain heap.Any)) }
    ensures the_same_beside_another_shape { ¬ KeepsPromises false (for_exports memories_in_and_out with_references)
        (holding_reference [] (plain heap.Any)) }
    ensures a_local_that_nothing_grounds { ¬ KeepsPromises false (for_module non_nullable with_references)
        (record one_number { code = record { locals = Ref (not_null (plain heap.Any)) ∷ []; instructions = Unreachable } ∷ [] }) }
    ensures everything_exported { KeepsPromises false two_exports.config two_exports }
    ensures not_everything_exported { ¬ KeepsPromises false two_exports.config one_function }
    ensures not_everything_beside_a_shape { KeepsPromises false (for_exports exporting two_exports.config) one_function }
    ensures a_start { ¬ KeepsPromises false (record default_config { allow_start_export = false }) (filled_table (Const32 (pos 0))) }
    ensures a_start_where_it_may_be { KeepsPromises false default_config (filled_table (Const32 (pos 0))) }
    ensures a_trap { ¬ KeepsPromises false (record default_config { disallow_traps = true }) (filled_table (Const32 (pos 1))) }
    ensures a_trap_where_it_may_be { KeepsPromises false default_config (filled_table (Const32 (pos 1))) }
    ensures a_counter { ¬ KeepsPromises false default_config counting_fuel }
    ensures the_same_global_that_counts_nothing { KeepsPromises false default_config (record counting_fuel { fuel_globals = [] }) }
    ensures no_section_of_types { ¬ KeepsPromises false default_config (record one_function { encodes_types = false }) }
{}
