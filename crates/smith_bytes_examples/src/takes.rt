ghost use Rattle.std.specs.Prelude.{◌<◌, ℕ, [], ◌∷◌, true, false};
ghost use Rattle.smith_bytes.specs.Spelling.{SpellsBool};
ghost use Rattle.smith_bytes.specs.Takes.{Takes, SpellsSuch};
ghost use Rattle.smith_bytes_examples.specs.ExampleBytes.{SpellsByte};

fn taken()
    ensures what_is_spelled { Takes SpellsBool (3 ∷ 9 ∷ []) true (9 ∷ []) }
    ensures where_nothing_is_spelled { Takes SpellsBool [] true (9 ∷ []) }
    ensures another_value { ¬ Takes SpellsBool (3 ∷ 9 ∷ []) false (9 ∷ []) }
    ensures piece_is_left { ¬ Takes SpellsBool (3 ∷ 9 ∷ []) true (3 ∷ 9 ∷ []) }
    ensures too_much_taken { ¬ Takes SpellsBool (3 ∷ 9 ∷ []) true [] }
{}

#[tactic(auto, unfolding(smith_bytes::specs::Draws::digit_count))]
fn such()
    ensures both { SpellsSuch (λ (n : ℕ). n < 7) SpellsByte 6 (6 ∷ []) }
    ensures does_not_hold { ¬ SpellsSuch (λ (n : ℕ). n < 6) SpellsByte 6 (6 ∷ []) }
    ensures another_value { ¬ SpellsSuch (λ (n : ℕ). n < 7) SpellsByte 6 (5 ∷ []) }
{}
