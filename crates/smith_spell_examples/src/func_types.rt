ghost use Rattle.std.specs.Prelude.{[], ◌∷◌, ◌≡◌, true, false};
ghost use Rattle.smith_draw_types.specs.TypeUses.{is_tag_type, func_types};
ghost use Rattle.smith_config.specs.ExampleMembers.{final, bytes_array, plain_function, foo_type, quux_type};

fn chosen_types()
    ensures functions_alone { func_types (final bytes_array ∷ final plain_function ∷ foo_type ∷ []) ≡ 1 ∷ 2 ∷ [] }
    ensures no_shared_function { func_types (record foo_type { composite_type = record { inner = plain_function; shared = true } } ∷ [])
        ≡ [] }
    ensures tag { is_tag_type quux_type ≡ true }
    ensures no_tag_with_results { is_tag_type foo_type ≡ false }
    ensures no_tag_of_an_array { is_tag_type (final bytes_array) ≡ false }
{}
