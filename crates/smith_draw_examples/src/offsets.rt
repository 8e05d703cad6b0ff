// Drawn offsets. The clauses are proved; nothing calls these functions.

ghost use Rattle.std.specs.Prelude.{◌≡◌, [], ◌∷◌};
ghost use Rattle.smith_draw_types.specs.Offsets.{offset_at};

// The offset of a segment that does not fit into 10, up to a thousand.
#[tactic(auto, unfolding(smith_draw_types::specs::Offsets::offset_at, smith_bytes::specs::Draws::range_at, smith_bytes::specs::Draws::digit_count))]
fn too_large()
    ensures anywhere { offset_at 10 1000 11 (3 ∷ 232 ∷ 9 ∷ []) ≡ (1000, 9 ∷ []) }
    ensures past_the_end { offset_at 10 1000 11 [] ≡ (0, []) }
    ensures round_again { offset_at 10 1000 11 (255 ∷ 255 ∷ []) ≡ (470, []) }
    ensures without_a_choice { offset_at 0 0 1 (9 ∷ []) ≡ (0, 9 ∷ []) }
{}

// The offset of a segment that fits: inside, and anywhere for the greatest numbers.
#[tactic(auto, unfolding(smith_draw_types::specs::Offsets::offset_at, smith_draw_types::specs::Limits::gradually_at, smith_draw_types::specs::Limits::gradual, smith_draw_types::specs::Limits::sixth_power, smith_draw_types::specs::Limits::scaled, smith_bytes::specs::Draws::whole_at))]
fn fitting()
    ensures at_the_start { offset_at 10000 1000000 0 [] ≡ (0, []) }
    ensures inside { offset_at 10001 1000000 1 (0 ∷ 0 ∷ 0 ∷ 240 ∷ []) ≡ (6789, []) }
    ensures the_last_inside { offset_at 10001 1000000 1 (234 ∷ 81 ∷ 184 ∷ 254 ∷ []) ≡ (9703, []) }
    ensures the_first_anywhere { offset_at 10001 1000000 1 (235 ∷ 81 ∷ 184 ∷ 254 ∷ []) ≡ (995000, []) }
    ensures of_all_that_there_is { offset_at 10 1000000 10 (0 ∷ 0 ∷ 0 ∷ 128 ∷ 7 ∷ []) ≡ (0, 7 ∷ []) }
    ensures without_a_choice { offset_at 0 0 0 (9 ∷ []) ≡ (0, 9 ∷ []) }
{}
