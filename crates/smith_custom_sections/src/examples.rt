ghost use Rattle.std.specs.Prelude.{◌≡◌, [], ◌∷◌, codes};
ghost use Rattle.smith_binary.specs.Spelling.Spelling.{any};
ghost use Rattle.smith_custom_sections.specs.CustomDraws.{custom_sections_at};
ghost use Rattle.smith_custom_sections.specs.CustomSections.{IsPlain, IsWithCustomsIn};
ghost use Rattle.smith_custom_sections.specs.ExampleCustoms.{after_preamble, custom};
ghost use Rattle.smith_custom_sections.specs.WithoutCustoms.{IsWithoutCustoms};

fn draws()
    ensures of_nothing { custom_sections_at [] ≡ ([], []) }
    ensures none { custom_sections_at (0 ∷ 5 ∷ []) ≡ ([], 5 ∷ []) }
    ensures one_section { custom_sections_at (1 ∷ 3 ∷ 0 ∷ 0x61 ∷ 9 ∷ 8 ∷ 0 ∷ 2 ∷ 1 ∷ [])
        ≡ (custom 3 (codes "a") (9 ∷ 8 ∷ []) ∷ [], []) }
    ensures function_name { custom_sections_at (1 ∷ 0 ∷ 7 ∷ 2 ∷ 0x66 ∷ 0 ∷ 1 ∷ [])
        ≡ (custom 0 (codes "name") (1 ∷ 4 ∷ 1 ∷ 2 ∷ 1 ∷ 0x66 ∷ []) ∷ [], []) }
    ensures other_name_section { custom_sections_at (1 ∷ 20 ∷ 6 ∷ 7 ∷ 0 ∷ 1 ∷ [])
        ≡ (custom 6 (codes "name") (7 ∷ []) ∷ [], []) }
{}

fn files()
    ensures preamble { IsPlain (after_preamble []) }
    ensures custom_section { IsPlain (after_preamble (0x00 ∷ 0x01 ∷ 0x00 ∷ [])) → ⊥ }
    ensures two_customs { IsWithCustomsIn any (custom 5 [] [] ∷ custom 0 [] (7 ∷ []) ∷ [])
        (after_preamble (0x01 ∷ 0x01 ∷ 0x00 ∷ []))
        (after_preamble (0x00 ∷ 0x02 ∷ 0x00 ∷ 0x07 ∷ 0x01 ∷ 0x01 ∷ 0x00 ∷ 0x00 ∷ 0x01 ∷ 0x00 ∷ [])) }
    ensures left_out { IsWithCustomsIn any (custom 0 [] [] ∷ []) (after_preamble [])
        (after_preamble []) → ⊥ }
{}

fn files_without_customs()
    ensures custom_section { IsWithoutCustoms
        (after_preamble (0x00 ∷ 0x02 ∷ 0x00 ∷ 0x2A ∷ 0x01 ∷ 0x01 ∷ 0x00 ∷ []))
        (after_preamble (0x01 ∷ 0x01 ∷ 0x00 ∷ [])) }
    ensures custom_section_that_stays { IsWithoutCustoms (after_preamble (0x00 ∷ 0x01 ∷ 0x00 ∷ []))
        (after_preamble (0x00 ∷ 0x01 ∷ 0x00 ∷ [])) → ⊥ }
    ensures section_that_goes { IsWithoutCustoms (after_preamble (0x01 ∷ 0x01 ∷ 0x00 ∷ []))
        (after_preamble []) → ⊥ }
{}
