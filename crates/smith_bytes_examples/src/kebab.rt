ghost use Rattle.std.specs.Prelude.{◌≡◌, [], ◌∷◌, codes, IsTrue};
ghost use Rattle.smith_bytes.specs.Kebab.{is_open, character, character_at, closed, kebab_at, IsKebab};

fn open_names()
    ensures empty { IsTrue (is_open []) }
    ensures dash_at_the_end { IsTrue (is_open (codes "a-")) }
    ensures letter_at_the_end { ¬ IsTrue (is_open (codes "a-b")) }
    ensures digit_at_the_end { ¬ IsTrue (is_open (codes "a1")) }
{}

fn characters()
    ensures first_letter { character [] 0 ≡ 97 }
    ensures last_letter { character [] 25 ≡ 122 }
    ensures no_digit_at_the_front { character [] 26 ≡ 97 }
    ensures last_letter_for_a_digit { character [] 35 ≡ 106 }
    ensures no_dash_at_the_front { character [] 36 ≡ 97 }
    ensures first_digit { character (codes "a") 26 ≡ 48 }
    ensures last_digit { character (codes "a") 35 ≡ 57 }
    ensures digit_after_a_dash { character (codes "a-") 26 ≡ 48 }
    ensures dash { character (codes "a") 36 ≡ 45 }
    ensures no_second_dash { character (codes "a-") 36 ≡ 97 }
{}

fn closing()
    ensures empty { closed [] ≡ codes "a" }
    ensures dash_at_the_end { closed (codes "b-") ≡ codes "b-a" }
    ensures letter_at_the_end { closed (codes "b-c") ≡ codes "b-c" }
{}

#[tactic(auto, unfolding(smith_bytes::specs::Kebab::character_at, smith_bytes::specs::Draws::range_at, smith_bytes::specs::Draws::digit_count))]
fn drawn_characters()
    ensures past_the_end { character_at [] [] ≡ (97, []) }
    ensures last_of_37 { character_at (codes "a") (36 ∷ 9 ∷ []) ≡ (45, 9 ∷ []) }
    ensures wraps_round { character_at (codes "a") (38 ∷ []) ≡ (98, []) }
{}

#[tactic(auto, unfolding(smith_bytes::specs::Kebab::kebab_at, smith_bytes::specs::Kebab::characters_at, smith_bytes::specs::Kebab::character_at, smith_bytes::specs::Draws::len_at, smith_bytes::specs::Draws::range_at, smith_bytes::specs::Draws::digit_count))]
fn drawn_names()
    ensures dash_is_closed { kebab_at 1000 (0 ∷ 36 ∷ 2 ∷ []) ≡ (codes "a-a", []) }
    ensures of_no_bytes { kebab_at 9 [] ≡ (codes "a", []) }
    ensures of_one_byte { kebab_at 9 (7 ∷ []) ≡ (codes "a", []) }
    ensures cut { kebab_at 2 (0 ∷ 36 ∷ 27 ∷ 3 ∷ []) ≡ (codes "a-a", 27 ∷ []) }
    ensures cut_to_nothing { kebab_at 0 (1 ∷ 1 ∷ []) ≡ (codes "a", 1 ∷ []) }
    ensures digit_after_a_letter { kebab_at 9 (26 ∷ 26 ∷ 2 ∷ []) ≡ (codes "a0", []) }
    ensures dashes_alone { kebab_at 9 (36 ∷ 36 ∷ 36 ∷ 3 ∷ []) ≡ (codes "a-a", []) }
    ensures single_dashes { kebab_at 9 (1 ∷ 36 ∷ 36 ∷ 3 ∷ []) ≡ (codes "b-a", []) }
{}

fn kebab_names()
    ensures letter { IsKebab (codes "a") }
    ensures parts { IsKebab (codes "z9-0") }
    ensures empty { ¬ IsKebab [] }
    ensures two_dashes { ¬ IsKebab (codes "a--b") }
    ensures dash_at_the_end { ¬ IsKebab (codes "a-") }
    ensures dash_at_the_front { ¬ IsKebab (codes "-a") }
    ensures digit_at_the_front { ¬ IsKebab (codes "1a") }
    ensures capital { ¬ IsKebab (codes "aB") }
    ensures blank { ¬ IsKebab (codes "a b") }
{}
