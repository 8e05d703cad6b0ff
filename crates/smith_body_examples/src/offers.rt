#![tactic(auto, unfolding(smith_body_leaves::specs::Constants::double_at, smith_body_leaves::specs::Constants::float_at, smith_body_leaves::specs::Constants::integer32_at, smith_body_leaves::specs::Constants::integer64_at, smith_body_leaves::specs::Constants::lanes_at, smith_body_leaves::specs::Constants::vector_at, smith_body_leaves::specs::Leaves::constant_instr_at, smith_body_leaves::specs::Leaves::first_single, smith_body_leaves::specs::Leaves::leaf_choice_at, smith_body_nodes::specs::Scopes::is_permitted, smith_instr::specs::Enabled::is_enabled, smith_draw_types::specs::Choices::chosen_at, smith_body_nodes::specs::Offered::chunk_at, smith_body_nodes::specs::Offered::offered, smith_bytes::specs::Draws::choose_at, smith_bytes::specs::Draws::digit_count, smith_bytes::specs::Draws::range_at))]

ghost use Rattle.std.specs.Prelude.{◌≡◌, ◌≤◌, ℕ, ◌==◌, ◌||◌, Bool, true, List, Some, None, [], ◌∷◌};
ghost use Rattle.smith_bytes.specs.Draws.{choose_at};
ghost use Rattle.smith_types.specs.Syntax.value_type.ValType.TheVariants.{I32};
ghost use Rattle.smith_instr.specs.declared.instr.Instr.TheVariants as instr;
ghost use Rattle.smith_body_leaves.specs.Leaves.{first_single, leaf_choice_at};
ghost use Rattle.smith_body_nodes.specs.Offered.{chunk_at, offered};
ghost use Rattle.smith_body_examples.specs.ExampleBytes.{trapless};
ghost use Rattle.smith_body_examples.specs.ExampleContexts.{many_globals};

fn chunks()
    ensures no_item { chunk_at (λ index. true) 0 (1 ∷ []) ≡ (None, 1 ∷ []) }
    ensures one_chunk { chunk_at (λ index. index == 3 || index == 5) 256 (1 ∷ 9 ∷ []) ≡ (Some 5, 9 ∷ []) }
    ensures as_among_all { chunk_at (λ index. true) 3 (2 ∷ 9 ∷ []) ≡ choose_at (offered (λ index. true) 3) (2 ∷ 9 ∷ []) }
    ensures second_of_two { chunk_at (λ index. true) 259 (1 ∷ 2 ∷ 9 ∷ []) ≡ (Some 258, 9 ∷ []) }
    ensures third_of_four { chunk_at (λ index. index == 600) 1000 (2 ∷ 9 ∷ []) ≡ (Some 600, 9 ∷ []) }
    ensures offered_in_another { chunk_at (λ index. index == 3) 300 (1 ∷ 9 ∷ []) ≡ (None, 9 ∷ []) }
{}

// At most 256 items are one chunk, and the choice is one among all of them.
fn few_items()
    ensures { (test : ℕ → Bool) (size : ℕ) (bytes : List ℕ) → size ≤ 256 → chunk_at test size bytes ≡ choose_at (offered test size) bytes }
{}

fn globals()
    ensures in_the_first_chunk { leaf_choice_at many_globals [] I32 (2 ∷ 0 ∷ 7 ∷ []) ≡ (None, 7 ∷ []) }
    ensures in_the_second_chunk { leaf_choice_at many_globals [] I32 (2 ∷ 1 ∷ 7 ∷ []) ≡ (Some (instr.GlobalGet 256), 7 ∷ []) }
    ensures without_a_draw { first_single trapless many_globals [] I32 ≡ Some (instr.GlobalGet 256) }
{}
