ghost use Rattle.std.specs.Prelude.{◌≡◌, ℕ, ◌+◌, ◌-◌, ◌^◌, [], ◌∷◌, ◌++◌, true, false, Some, None, replicate};
ghost use Rattle.smith_bytes.specs.Draws.{little_endian, big_endian, digit_count, whole_at, bool_at, range_at, ratio_at, choose_at};
ghost use Rattle.smith_bytes.specs.Draws.{length_size, len_at};

fn numbers_of_bytes()
    ensures little { little_endian (1 ∷ 2 ∷ 3 ∷ []) ≡ 197121 }
    ensures little_of_none { little_endian [] ≡ 0 }
    ensures little_with_a_zero_after { little_endian (1 ∷ 0 ∷ []) ≡ 1 }
    ensures big { big_endian (1 ∷ 2 ∷ 3 ∷ []) ≡ 66051 }
    ensures big_of_none { big_endian [] ≡ 0 }
    ensures big_with_a_zero_before { big_endian (0 ∷ 1 ∷ []) ≡ 1 }
{}

#[tactic(auto, unfolding(smith_bytes::specs::Draws::digit_count))]
fn digit_counts()
    ensures of_zero { digit_count 0 ≡ 0 }
    ensures of_one { digit_count 1 ≡ 1 }
    ensures last_of_one_digit { digit_count 255 ≡ 1 }
    ensures first_of_two_digits { digit_count 256 ≡ 2 }
    ensures last_of_two_digits { digit_count 65535 ≡ 2 }
    ensures first_of_three_digits { digit_count 65536 ≡ 3 }
    ensures last_of_four_digits { digit_count (2 ^ 32 - 1) ≡ 4 }
    ensures first_of_five_digits { digit_count (2 ^ 32) ≡ 5 }
    ensures last_of_sixteen_digits { digit_count (2 ^ 128 - 1) ≡ 16 }
{}

#[tactic(auto, unfolding(smith_bytes::specs::Draws::whole_at))]
fn whole_numbers()
    ensures missing_bytes_are_zeros { whole_at 4 (1 ∷ 2 ∷ []) ≡ (513, []) }
    ensures the_others_are_left { whole_at 2 (1 ∷ 2 ∷ 3 ∷ []) ≡ (513, 3 ∷ []) }
    ensures of_one_byte { whole_at 1 (7 ∷ 8 ∷ []) ≡ (7, 8 ∷ []) }
    ensures past_the_end { whole_at 4 [] ≡ (0, []) }
    ensures lowest_byte_first { whole_at 4 (254 ∷ 255 ∷ 255 ∷ 255 ∷ []) ≡ (4294967294, []) }
{}

#[tactic(auto, unfolding(smith_bytes::specs::Draws::bool_at))]
fn bools()
    ensures past_the_end { bool_at [] ≡ (false, []) }
    ensures even { bool_at (2 ∷ 9 ∷ []) ≡ (false, 9 ∷ []) }
    ensures odd { bool_at (3 ∷ 9 ∷ []) ≡ (true, 9 ∷ []) }
    ensures greatest_byte { bool_at (255 ∷ []) ≡ (true, []) }
{}

#[tactic(auto, unfolding(smith_bytes::specs::Draws::range_at, smith_bytes::specs::Draws::digit_count))]
fn ranges()
    ensures of_one_number_takes_nothing { range_at 5 5 (9 ∷ []) ≡ (5, 9 ∷ []) }
    ensures fewer_bytes_than_digits { range_at 0 1000 (3 ∷ []) ≡ (3, []) }
    ensures highest_byte_first { range_at 0 1000 (3 ∷ 232 ∷ []) ≡ (1000, []) }
    ensures wraps_round { range_at 0 1000 (255 ∷ 255 ∷ []) ≡ (470, []) }
    ensures past_the_end { range_at 10 12 [] ≡ (10, []) }
    ensures from_the_lowest { range_at 10 12 (4 ∷ 9 ∷ []) ≡ (11, 9 ∷ []) }
    ensures one_byte_for_256_numbers { range_at 0 255 (200 ∷ 1 ∷ []) ≡ (200, 1 ∷ []) }
    ensures two_bytes_for_257_numbers { range_at 0 256 (1 ∷ 1 ∷ 7 ∷ []) ≡ (0, 7 ∷ []) }
{}

#[tactic(auto, unfolding(smith_bytes::specs::Draws::ratio_at, smith_bytes::specs::Draws::range_at, smith_bytes::specs::Draws::digit_count))]
fn ratios()
    ensures wraps_round { ratio_at 1 255 (255 ∷ []) ≡ (true, []) }
    ensures past_the_end { ratio_at 1 255 [] ≡ (true, []) }
    ensures second_of_255 { ratio_at 1 255 (1 ∷ 9 ∷ []) ≡ (false, 9 ∷ []) }
    ensures third_of_three { ratio_at 3 4 (2 ∷ []) ≡ (true, []) }
    ensures fourth_of_three { ratio_at 3 4 (3 ∷ []) ≡ (false, []) }
    ensures always_takes_a_byte_too { ratio_at 4 4 (7 ∷ 8 ∷ []) ≡ (true, 8 ∷ []) }
    ensures one_of_one_takes_nothing { ratio_at 1 1 (5 ∷ []) ≡ (true, 5 ∷ []) }
{}

#[tactic(auto, unfolding(smith_bytes::specs::Draws::choose_at, smith_bytes::specs::Draws::range_at, smith_bytes::specs::Draws::digit_count))]
fn choices()
    ensures from_nothing { choose_at {A = ℕ} [] (1 ∷ []) ≡ (None, 1 ∷ []) }
    ensures of_one_takes_nothing { choose_at {A = ℕ} (40 ∷ []) (4 ∷ []) ≡ (Some 40, 4 ∷ []) }
    ensures of_three { choose_at {A = ℕ} (40 ∷ 41 ∷ 42 ∷ []) (4 ∷ 9 ∷ []) ≡ (Some 41, 9 ∷ []) }
    ensures past_the_end { choose_at {A = ℕ} (40 ∷ 41 ∷ 42 ∷ []) [] ≡ (Some 40, []) }
{}

fn sizes_of_lengths()
    ensures of_no_bytes { length_size 0 ≡ 0 }
    ensures of_one_byte { length_size 1 ≡ 1 }
    ensures last_of_one { length_size 256 ≡ 1 }
    ensures first_of_two { length_size 257 ≡ 2 }
    ensures last_of_two { length_size 65537 ≡ 2 }
    ensures first_of_four { length_size 65538 ≡ 4 }
    ensures last_of_four { length_size (2 ^ 32 + 3) ≡ 4 }
    ensures first_of_eight { length_size (2 ^ 32 + 4) ≡ 8 }
{}

#[tactic(auto, unfolding(smith_bytes::specs::Draws::len_at, smith_bytes::specs::Draws::range_at, smith_bytes::specs::Draws::digit_count))]
fn lengths()
    ensures of_nothing { len_at [] ≡ (0, []) }
    ensures one_byte_is_dropped { len_at (9 ∷ []) ≡ (0, []) }
    ensures of_two_bytes { len_at (1 ∷ 2 ∷ []) ≡ (0, 1 ∷ []) }
    ensures from_the_end { len_at (1 ∷ 1 ∷ 1 ∷ 2 ∷ []) ≡ (2, 1 ∷ 1 ∷ 1 ∷ []) }
    ensures wraps_round { len_at (7 ∷ 8 ∷ 5 ∷ []) ≡ (2, 7 ∷ 8 ∷ []) }
    ensures of_256_bytes { len_at (replicate 255 0 ++ (7 ∷ [])) ≡ (7, replicate 255 0) }
    ensures of_257_bytes_the_last_is_not_read { len_at (replicate 255 0 ++ (7 ∷ 44 ∷ [])) ≡ (7, replicate 255 0) }
    ensures of_258_bytes_both_are_read { len_at (replicate 256 0 ++ (1 ∷ 44 ∷ [])) ≡ (43, replicate 256 0) }
{}
