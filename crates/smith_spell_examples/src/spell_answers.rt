ghost use Rattle.std.specs.Prelude.{◌^◌, ◌+◌, [], ◌∷◌, true, false, Some, None, Ok, Err};
ghost use Rattle.smith_bytes.specs.declared.error.Error.TheVariants.{EmptyChoose, Memory};
ghost use Rattle.smith_config.specs.Config.{default_config};
ghost use Rattle.smith_config.specs.ExampleShapes.{exported_table};
ghost use Rattle.smith_spell.specs.SpellAnswers.{IsSpellable, AnswersSpelling};
ghost use Rattle.smith_config.specs.ExampleMembers.{one_function_type, function_bytes};

fn spellable()
    ensures nothing { IsSpellable default_config [] [] }
    ensures a_function { IsSpellable default_config one_function_type (0 ∷ []) }
    ensures an_empty_group { ¬ IsSpellable default_config ([] ∷ []) [] }
    ensures a_function_of_no_type { ¬ IsSpellable default_config one_function_type (1 ∷ []) }
{}

fn spelled()
    ensures nothing { AnswersSpelling default_config [] [] (Ok (Some (0 ∷ 0 ∷ 0 ∷ []))) }
    ensures a_function { AnswersSpelling default_config one_function_type (0 ∷ []) (Ok (Some function_bytes)) }
    ensures nothing_by_no_byte { ¬ AnswersSpelling default_config [] [] (Ok (Some [])) }
    ensures no_answer_to_what_can_be_spelled { ¬ AnswersSpelling default_config [] [] (Ok None) }
{}

fn not_spelled()
    ensures an_empty_group { AnswersSpelling default_config ([] ∷ []) [] (Ok None) }
    ensures beside_a_minimum { AnswersSpelling (record default_config { min_types = 1 }) [] [] (Ok None) }
    ensures beside_a_shape { AnswersSpelling (record default_config { exports = Some exported_table }) [] [] (Ok None) }
    ensures where_everything_is_exported { AnswersSpelling (record default_config { export_everything = true }) [] [] (Ok None) }
    ensures where_the_configuration_fails { AnswersSpelling (record default_config { max_types = 2 ^ 31 + 1 }) [] [] (Ok None) }
{}

fn refused()
    ensures no_memory { AnswersSpelling default_config [] [] (Err Memory) }
    ensures no_memory_for_a_function_of_no_type { AnswersSpelling default_config one_function_type (1 ∷ []) (Err Memory) }
    ensures memory_for_an_empty_group { ¬ AnswersSpelling default_config ([] ∷ []) [] (Err Memory) }
    ensures memory_for_too_many_functions { ¬ AnswersSpelling (record default_config { max_funcs = 0 }) one_function_type (0
        ∷ []) (Err Memory) }
    ensures memory_beside_a_minimum { ¬ AnswersSpelling (record default_config { min_types = 1 }) [] [] (Err Memory) }
    ensures memory_beside_a_shape { ¬ AnswersSpelling (record default_config { exports = Some exported_table }) [] [] (Err Memory) }
    ensures for_another_cause { ¬ AnswersSpelling default_config [] [] (Err EmptyChoose) }
{}
