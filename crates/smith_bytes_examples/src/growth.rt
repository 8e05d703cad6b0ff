ghost use Rattle.std.specs.Prelude.{◌≡◌, ℕ, List, [], ◌∷◌, true, false};
ghost use Rattle.smith_bytes.specs.Growth.{goes_at, grow_at};
ghost use Rattle.smith_bytes_examples.specs.ExampleBytes.{any_byte};

#[tactic(auto, unfolding(smith_bytes::specs::Draws::bool_at))]
fn going_on()
    ensures too_few_takes_nothing { goes_at true (0 ∷ 9 ∷ []) ≡ (true, 0 ∷ 9 ∷ []) }
    ensures asked_and_told { goes_at false (1 ∷ 9 ∷ []) ≡ (true, 9 ∷ []) }
    ensures asked_and_stopped { goes_at false (0 ∷ 9 ∷ []) ≡ (false, 9 ∷ []) }
    ensures past_the_end { goes_at false [] ≡ (false, []) }
{}

#[tactic(auto, unfolding(smith_bytes::specs::Growth::grow_at, smith_bytes::specs::Draws::bool_at, smith_bytes::specs::Draws::whole_at))]
fn growing()
    ensures stopped { grow_at any_byte 0 3 [] (1 ∷ 40 ∷ 0 ∷ 9 ∷ []) ≡ (40 ∷ [], 9 ∷ []) }
    ensures stopped_at_once { grow_at any_byte 0 3 [] (0 ∷ 9 ∷ []) ≡ ([], 9 ∷ []) }
    ensures past_the_end { grow_at any_byte 0 3 [] [] ≡ ([], []) }
    ensures full_is_not_asked { grow_at any_byte 0 1 [] (1 ∷ 40 ∷ 0 ∷ 9 ∷ []) ≡ (40 ∷ [], 0 ∷ 9 ∷ []) }
    ensures none_may_be { grow_at any_byte 0 0 [] (1 ∷ 40 ∷ []) ≡ ([], 1 ∷ 40 ∷ []) }
    ensures needed_without_asking { grow_at any_byte 2 2 [] (40 ∷ 41 ∷ 9 ∷ []) ≡ (40 ∷ 41 ∷ [], 9 ∷ []) }
    ensures needed_then_asked { grow_at any_byte 1 3 [] (40 ∷ 1 ∷ 41 ∷ 0 ∷ 9 ∷ []) ≡ (40 ∷ 41 ∷ [], 9 ∷ []) }
    ensures needed_past_the_end { grow_at any_byte 2 3 [] [] ≡ (0 ∷ 0 ∷ [], []) }
    ensures what_stands_counts { grow_at any_byte 1 2 (7 ∷ []) (0 ∷ 9 ∷ []) ≡ (7 ∷ [], 9 ∷ []) }
    ensures after_what_stands { grow_at any_byte 2 2 (7 ∷ []) (40 ∷ 0 ∷ 9 ∷ []) ≡ (7 ∷ 40 ∷ [], 9 ∷ []) }
{}
