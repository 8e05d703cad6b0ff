ghost use Rattle.std.specs.Prelude.{[], ◌∷◌, pos};
ghost use Rattle.smith_config.specs.Config.{default_config};
ghost use Rattle.smith_spell.specs.Spelling.{SpellsMember, SpellsRest};
ghost use Rattle.smith_config.specs.ExampleMembers.{alone, one_function_type, array_and_struct, struct_and_holder, taking_a_number};
ghost use Rattle.smith_config.specs.ExampleMembers.{one_of_each_without_gc, no_types_and_imports, with_non_nullable, function_bytes};
ghost use Rattle.smith_config.specs.ExampleMembers.{full_bytes, array_and_struct_bytes, struct_and_holder_bytes, number_bytes, data_bytes};
ghost use Rattle.smith_config.specs.ExampleMembers.{EachChangeCounts};

fn types()
    ensures a_function { EachChangeCounts (SpellsMember default_config one_function_type (0 ∷ [])) function_bytes ((0, 0) ∷ (1, 2) ∷ (2, 0)
        ∷ (3, 0) ∷ (4, 1) ∷ (5, 1) ∷ (6, 1) ∷ (7, 1) ∷ (9, 1) ∷ (10, 0) ∷ (11, 1) ∷ []) }
    ensures full_without_gc { EachChangeCounts (SpellsMember one_of_each_without_gc (alone taking_a_number ∷ []) (0 ∷ [])) full_bytes
        ((0, 0) ∷ (1, 0) ∷ (2, 1) ∷ (3, 1) ∷ (4, 1) ∷ (5, 1) ∷ (7, 1) ∷ (8, 0) ∷ []) }
    ensures array_and_struct { EachChangeCounts (SpellsMember default_config array_and_struct []) array_and_struct_bytes ((0, 0) ∷ (1, 2)
        ∷ (2, 0) ∷ (3, 1) ∷ (4, 1) ∷ (5, 1) ∷ (6, 0) ∷ (7, 0) ∷ (8, 2) ∷ (9, 0) ∷ (10, 1) ∷ (11, 2) ∷ (12, 1) ∷ (13, 4) ∷ (14, 0) ∷ (15, 1)
        ∷ (16, 0) ∷ (17, 1) ∷ (18, 1) ∷ []) }
    ensures a_struct_of_a_reference_that_is_not_null { EachChangeCounts (SpellsMember with_non_nullable struct_and_holder [])
        struct_and_holder_bytes ((14, 1) ∷ (15, 0) ∷ []) }
    ensures nothing { EachChangeCounts (SpellsMember default_config [] []) (0 ∷ 0 ∷ 0 ∷ []) ((0, 1) ∷ (1, 1) ∷ []) }
    ensures a_byte_less { ¬ SpellsMember no_types_and_imports [] [] [] }
    ensures a_byte_more { ¬ SpellsMember no_types_and_imports [] [] (0 ∷ 0 ∷ []) }
    ensures another_import_flag { SpellsMember no_types_and_imports [] [] (7 ∷ []) }
{}

fn rests()
    ensures a_number { EachChangeCounts (SpellsRest default_config [] [] (pos 7 ∷ []) []) number_bytes ((0, 1) ∷ (1, 1) ∷ (2, 0) ∷ (3, 1)
        ∷ (4, 0) ∷ (5, 1) ∷ (6, 8) ∷ (7, 1) ∷ (8, 1) ∷ (9, 1) ∷ (10, 1) ∷ (11, 1) ∷ (13, 1) ∷ (14, 1) ∷ []) }
    ensures data { EachChangeCounts (SpellsRest default_config [] [] [] ((42 ∷ []) ∷ [])) data_bytes ((0, 1) ∷ (1, 1) ∷ (2, 1) ∷ (3, 1)
        ∷ (5, 1) ∷ (6, 0) ∷ (7, 0) ∷ (8, 43) ∷ (9, 1) ∷ (10, 1) ∷ []) }
{}
