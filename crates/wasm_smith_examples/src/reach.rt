ghost use Rattle.std.specs.Prelude.{[], ◌∷◌, ◌++◌, pos, true, false, Some, None, Ok, Err};
ghost use Rattle.smith_bytes.specs.declared.error.Error.TheVariants.{EmptyChoose, Memory};
ghost use Rattle.smith_types.specs.Flags.{funcref};
ghost use Rattle.smith_types.specs.Syntax.value_type.ValType.TheVariants.{I32};
ghost use Rattle.smith_types.specs.Syntax.segments.Elements.TheVariants.{Functions};
ghost use Rattle.smith_types.specs.Syntax.entity_type.ExportKind.TheVariants as kind;
ghost use Rattle.smith_config.specs.Config.{default_config};
ghost use Rattle.smith_config.specs.ExampleMembers.{alone, one_function_type, taking_a_number, nothing_may_be, function_bytes};
ghost use Rattle.wasm_smith.specs.Members.{HasMember, HasRest};
ghost use Rattle.wasm_smith.specs.Reached.{BeginsWithMember, BeginsWithRest, ReachesMembers};
ghost use Rattle.smith_module_rules_examples.specs.ExampleParts.{memory, table, global, passive_elements, active_data};
ghost use Rattle.smith_module_rules_examples.specs.ExampleModules.{empty_module, one_function, number_and_bytes};

fn members()
    ensures a_function { HasMember one_function_type (0 ∷ []) one_function }
    ensures another_type { ¬ HasMember (alone taking_a_number ∷ []) (0 ∷ []) one_function }
    ensures a_type_without_a_group { ¬ HasMember one_function_type (0 ∷ []) (record one_function { groups = [] }) }
    ensures no_function { ¬ HasMember one_function_type [] one_function }
{}

fn rests()
    ensures a_number_and_bytes { HasRest (pos 7 ∷ []) ((42 ∷ []) ∷ []) number_and_bytes }
    ensures nothing_else { HasRest [] [] one_function }
    ensures a_table { ¬ HasRest (pos 7 ∷ []) ((42 ∷ []) ∷ []) (record number_and_bytes { tables = table funcref 1 None ∷ [] }) }
    ensures a_memory { ¬ HasRest (pos 7 ∷ []) ((42 ∷ []) ∷ []) (record number_and_bytes { memories = memory 1 None ∷ [] }) }
    ensures a_constant_global { ¬ HasRest (pos 7 ∷ []) ((42 ∷ []) ∷ []) (record number_and_bytes { globals = global I32 false ∷ [] }) }
    ensures another_number { ¬ HasRest (pos 8 ∷ []) ((42 ∷ []) ∷ []) number_and_bytes }
    ensures an_export { ¬ HasRest (pos 7 ∷ []) ((42 ∷ []) ∷ []) (record number_and_bytes { exports = ([], kind.Global, 0) ∷ [] }) }
    ensures a_start { ¬ HasRest [] [] (record one_function { start = Some 0 }) }
    ensures elements { ¬ HasRest (pos 7 ∷ []) ((42 ∷ []) ∷ []) (record number_and_bytes { elems = passive_elements (Functions []) ∷ [] }) }
    ensures other_bytes { ¬ HasRest (pos 7 ∷ []) ((43 ∷ []) ∷ []) number_and_bytes }
    ensures bytes_that_are_copied { ¬ HasRest (pos 7 ∷ []) ((42 ∷ [])
        ∷ []) (record number_and_bytes { datas = active_data (pos 0) (42 ∷ []) ∷ [] }) }
{}

fn sources()
    ensures a_function { BeginsWithMember default_config one_function_type (0 ∷ []) (function_bytes ++ 255 ∷ []) (255 ∷ []) }
    ensures a_function_of_no_type { ¬ BeginsWithMember default_config one_function_type (1 ∷ []) function_bytes [] }
    ensures too_few_bytes { ¬ BeginsWithMember default_config [] [] [] (255 ∷ []) }
    ensures a_flag_after { BeginsWithRest nothing_may_be [] [] [] [] (1 ∷ 255 ∷ []) }
    ensures no_room_for_a_number { ¬ BeginsWithRest nothing_may_be [] [] (pos 7 ∷ []) [] (1 ∷ 255 ∷ []) }
{}

fn answers()
    ensures want_of_memory { ReachesMembers default_config function_bytes (Err Memory) }
    ensures another_refusal { ¬ ReachesMembers default_config function_bytes (Err EmptyChoose) }
    ensures no_function { ¬ ReachesMembers default_config function_bytes (Ok (empty_module default_config)) }
{}
