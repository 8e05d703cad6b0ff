// Drawn bodies. The clauses are proved; nothing calls these functions.

ghost use Rattle.std.specs.Prelude.{◌≡◌, [], ◌∷◌, true, replicate};
ghost use Rattle.smith_types.specs.Syntax.value_type.ValType.TheVariants.{I32, I64};
ghost use Rattle.smith_types.specs.Syntax.code.Instructions.TheVariants.{Unreachable, Arbitrary};
ghost use Rattle.smith_draw_consts.specs.ExampleConstExprs.{context_of_types};
ghost use Rattle.smith_config.specs.Config.{default_config};
ghost use Rattle.smith_draw_contents.specs.DrawnBodies.{raw_bytes_at, bodies_at};
ghost use Rattle.smith_module_rules_examples.specs.ExampleParts.{trapping};

#[tactic(auto, unfolding(smith_draw_contents::specs::DrawnBodies::raw_bytes_at, smith_bytes::specs::Draws::len_at, smith_bytes::specs::Draws::range_at, smith_bytes::specs::Draws::digit_count))]
fn raw_bytes()
    ensures of_nothing { raw_bytes_at [] ≡ (Arbitrary [], []) }
    ensures all { raw_bytes_at (7 ∷ 8 ∷ 2 ∷ []) ≡ (Arbitrary (7 ∷ 8 ∷ []), []) }
    ensures from_the_front { raw_bytes_at (7 ∷ 8 ∷ 1 ∷ []) ≡ (Arbitrary (7 ∷ []), 8 ∷ []) }
    ensures none { raw_bytes_at (7 ∷ 8 ∷ 3 ∷ []) ≡ (Arbitrary [], 7 ∷ 8 ∷ []) }
{}

// The locals of a body come before its instructions, and one body before the next.
#[tactic(auto, unfolding(smith_draw_contents::specs::DrawnBodies::bodies_at, smith_draw_contents::specs::DrawnBodies::body_at, smith_draw_contents::specs::DrawnBodies::instructions_at, smith_draw_contents::specs::DrawnBodies::is_raw_at, smith_draw_contents::specs::DrawnBodies::raw_bytes_at, smith_draw_types::specs::Locals::locals_at, smith_draw_types::specs::CompositeTypes::val_types_at, smith_draw_types::specs::ValueTypes::val_type_at, smith_draw_types::specs::Choices::chosen_at, smith_bytes::specs::Growth::grow_at, smith_bytes::specs::Draws::bool_at, smith_bytes::specs::Draws::len_at, smith_bytes::specs::Draws::range_at, smith_bytes::specs::Draws::digit_count))]
fn bodies()
    ensures of_no_function { bodies_at default_config (context_of_types []) 0 (1 ∷ []) ≡ ([], 1 ∷ []) }
    ensures of_nothing { bodies_at default_config (context_of_types []) 3 [] ≡ (replicate 3 trapping, []) }
    ensures never_raw { bodies_at default_config (context_of_types []) 1 (0 ∷ 1 ∷ 7 ∷ []) ≡ (trapping ∷ [], 1 ∷ 7 ∷ []) }
    ensures with_locals { bodies_at default_config (context_of_types []) 2 (1 ∷ 0 ∷ 1 ∷ 1 ∷ 0 ∷ 0 ∷ 7 ∷ [])
        ≡ (record { locals = I32 ∷ I64 ∷ []; instructions = Unreachable } ∷ trapping ∷ [], 7 ∷ []) }
    ensures raw { bodies_at (record default_config { allow_invalid_funcs = true }) (context_of_types []) 1 (0 ∷ 1 ∷ 7 ∷ 8 ∷ 2 ∷ [])
        ≡ (record { locals = []; instructions = Arbitrary (7 ∷ 8 ∷ []) } ∷ [], []) }
    ensures raw_with_a_local { bodies_at (record default_config { allow_invalid_funcs = true }) (context_of_types []) 1 (1 ∷ 0 ∷ 0 ∷ 1 ∷ 9
        ∷ 1 ∷ []) ≡ (record { locals = I32 ∷ []; instructions = Arbitrary (9 ∷ []) } ∷ [], []) }
    ensures not_raw { bodies_at (record default_config { allow_invalid_funcs = true }) (context_of_types []) 1 (0 ∷ 0 ∷ 7 ∷ [])
        ≡ (trapping ∷ [], 7 ∷ []) }
{}
