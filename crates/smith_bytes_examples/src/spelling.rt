ghost use Rattle.std.specs.Prelude.{◌≡◌, [], ◌∷◌, true, false};
ghost use Rattle.smith_bytes.specs.Spelling.{SpellsBool, SpellsNumber, SpellsRefusal, SpellsNothing, SpellsAnyByte, Where, Joined, Each};
ghost use Rattle.smith_bytes.specs.Spelling.{Listed};
ghost use Rattle.smith_bytes_examples.specs.ExampleBytes.{SpellsByte};

fn bools()
    ensures odd { SpellsBool true (3 ∷ []) }
    ensures even { SpellsBool false (2 ∷ []) }
    ensures even_for_true { ¬ SpellsBool true (2 ∷ []) }
    ensures odd_for_false { ¬ SpellsBool false (3 ∷ []) }
    ensures no_byte { ¬ SpellsBool false [] }
    ensures two_bytes { ¬ SpellsBool true (1 ∷ 1 ∷ []) }
{}

#[tactic(auto, unfolding(smith_bytes::specs::Draws::digit_count))]
fn numbers()
    ensures greatest { SpellsNumber 1000 0 1000 (3 ∷ 232 ∷ []) }
    ensures round_again { SpellsNumber 470 0 1000 (255 ∷ 255 ∷ []) }
    ensures from_the_lowest { SpellsNumber 11 10 12 (4 ∷ []) }
    ensures the_only_one { SpellsNumber 5 5 5 [] }
    ensures a_byte_changed { ¬ SpellsNumber 1000 0 1000 (3 ∷ 231 ∷ []) }
    ensures lowest_byte_first { ¬ SpellsNumber 1000 0 1000 (232 ∷ 3 ∷ []) }
    ensures too_few_bytes { ¬ SpellsNumber 3 0 1000 (3 ∷ []) }
    ensures a_byte_for_the_only_one { ¬ SpellsNumber 5 5 5 (0 ∷ []) }
    ensures out_of_its_range { ¬ SpellsNumber 13 10 12 (3 ∷ []) }
{}

#[tactic(auto, unfolding(smith_bytes::specs::Draws::digit_count))]
fn refusals()
    ensures second { SpellsRefusal 255 (1 ∷ []) }
    ensures last { SpellsRefusal 255 (254 ∷ []) }
    ensures first { ¬ SpellsRefusal 255 (0 ∷ []) }
    ensures first_again { ¬ SpellsRefusal 255 (255 ∷ []) }
    ensures of_one_chance { ¬ SpellsRefusal 1 [] }
{}

fn single_bytes()
    ensures nothing { SpellsNothing [] }
    ensures something { ¬ SpellsNothing (0 ∷ []) }
    ensures any { SpellsAnyByte (7 ∷ []) }
    ensures none { ¬ SpellsAnyByte [] }
    ensures two { ¬ SpellsAnyByte (7 ∷ 7 ∷ []) }
{}

fn conditions()
    ensures holds { Where true (SpellsBool true) (1 ∷ []) }
    ensures fails { Where false (SpellsBool true) [] }
    ensures holds_and_nothing { ¬ Where true (SpellsBool true) [] }
    ensures fails_and_a_piece { ¬ Where false (SpellsBool true) (1 ∷ []) }
{}

#[tactic(auto, unfolding(smith_bytes::specs::Draws::digit_count))]
fn joined_pieces()
    ensures one_after_another { Joined (SpellsBool true) (SpellsByte 6) (1 ∷ 6 ∷ []) }
    ensures turned_round { ¬ Joined (SpellsBool true) (SpellsByte 6) (6 ∷ 1 ∷ []) }
    ensures second_changed { ¬ Joined (SpellsBool true) (SpellsByte 6) (1 ∷ 7 ∷ []) }
    ensures second_missing { ¬ Joined (SpellsBool true) (SpellsByte 6) (1 ∷ []) }
    ensures a_byte_more { ¬ Joined (SpellsBool true) (SpellsByte 6) (1 ∷ 6 ∷ 0 ∷ []) }
{}

#[tactic(auto, unfolding(smith_bytes::specs::Spelling::Each))]
fn items()
    ensures none { Each SpellsByte [] [] }
    ensures two { Each SpellsByte (6 ∷ 7 ∷ []) (6 ∷ 7 ∷ []) }
    ensures turned_round { ¬ Each SpellsByte (6 ∷ 7 ∷ []) (7 ∷ 6 ∷ []) }
    ensures one_missing { ¬ Each SpellsByte (6 ∷ 7 ∷ []) (6 ∷ []) }
    ensures one_too_many { ¬ Each SpellsByte (6 ∷ []) (6 ∷ 7 ∷ []) }
{}

#[tactic(auto, unfolding(smith_bytes::specs::Spelling::Listed))]
fn lists()
    ensures stopped { Listed SpellsByte 2 (6 ∷ []) (1 ∷ 6 ∷ 0 ∷ []) }
    ensures full { Listed SpellsByte 1 (6 ∷ []) (1 ∷ 6 ∷ []) }
    ensures empty { Listed SpellsByte 2 [] (0 ∷ []) }
    ensures none_may_be { Listed SpellsByte 0 [] [] }
    ensures full_and_stopped { ¬ Listed SpellsByte 1 (6 ∷ []) (1 ∷ 6 ∷ 0 ∷ []) }
    ensures not_stopped { ¬ Listed SpellsByte 2 (6 ∷ []) (1 ∷ 6 ∷ []) }
    ensures not_asked_for { ¬ Listed SpellsByte 1 (6 ∷ []) (0 ∷ 6 ∷ []) }
    ensures another_item { ¬ Listed SpellsByte 1 (6 ∷ []) (1 ∷ 7 ∷ []) }
    ensures more_than_may_be { ¬ Listed SpellsByte 0 (6 ∷ []) (1 ∷ 6 ∷ []) }
{}
