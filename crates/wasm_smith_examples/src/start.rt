// Drawn start functions. The clauses are proved; nothing calls these functions.

ghost use Rattle.std.specs.Prelude.{◌≡◌, [], ◌∷◌, false, Some, None};
ghost use Rattle.smith_config.specs.Config.{default_config};
ghost use Rattle.smith_config.specs.ExampleMembers.{final, taking_a_number, giving_two, plain_function};
ghost use Rattle.smith_draw_contents.specs.Start.{start_funcs, start_at};

fn start_funcs()
    ensures by_type { start_funcs (final taking_a_number ∷ final plain_function ∷ final giving_two ∷ []) (1 ∷ 0 ∷ 2 ∷ 1 ∷ []) ≡ 0 ∷ 3 ∷ [] }
    ensures of_no_type { start_funcs (final plain_function ∷ []) (1 ∷ []) ≡ [] }
{}

// The bytes decide whether a function starts the module, then which.
#[tactic(auto, unfolding(smith_draw_contents::specs::Start::start_at, smith_draw_contents::specs::Start::start_wanted_at, smith_draw_types::specs::Choices::chosen_at, smith_bytes::specs::Draws::bool_at, smith_bytes::specs::Draws::range_at, smith_bytes::specs::Draws::digit_count))]
fn start()
    ensures none_to_choose { start_at default_config (final taking_a_number ∷ []) (0 ∷ []) (1 ∷ []) ≡ (None, 1 ∷ []) }
    ensures not_allowed { start_at (record default_config { allow_start_export = false }) (final plain_function ∷ []) (0 ∷ []) (1 ∷ [])
        ≡ (None, 1 ∷ []) }
    ensures of_nothing { start_at default_config (final plain_function ∷ []) (0 ∷ []) [] ≡ (None, []) }
    ensures not_asked_for { start_at default_config (final plain_function ∷ []) (0 ∷ []) (0 ∷ 1 ∷ []) ≡ (None, 1 ∷ []) }
    ensures only_one { start_at default_config (final plain_function ∷ []) (0 ∷ []) (1 ∷ 7 ∷ []) ≡ (Some 0, 7 ∷ []) }
    ensures last { start_at default_config (final taking_a_number ∷ final plain_function ∷ []) (1 ∷ 0 ∷ 1 ∷ []) (1 ∷ 1 ∷ 7 ∷ [])
        ≡ (Some 2, 7 ∷ []) }
    ensures first_again { start_at default_config (final taking_a_number ∷ final plain_function ∷ []) (1 ∷ 0 ∷ 1 ∷ []) (1 ∷ 2 ∷ [])
        ≡ (Some 0, []) }
{}
