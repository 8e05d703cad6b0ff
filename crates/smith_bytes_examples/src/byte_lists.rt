ghost use Rattle.std.specs.Prelude.{◌≡◌, [], ◌∷◌};
ghost use Rattle.smith_bytes.specs.ByteLists.{byte_list_at};

#[tactic(auto, unfolding(smith_bytes::specs::ByteLists::byte_list_at, smith_bytes::specs::Growth::grow_at, smith_bytes::specs::Draws::bool_at, smith_bytes::specs::Draws::whole_at))]
fn byte_lists()
    ensures of_two { byte_list_at (1 ∷ 40 ∷ 1 ∷ 41 ∷ 0 ∷ 9 ∷ []) ≡ (40 ∷ 41 ∷ [], 9 ∷ []) }
    ensures of_none { byte_list_at (0 ∷ 9 ∷ []) ≡ ([], 9 ∷ []) }
    ensures past_the_end { byte_list_at [] ≡ ([], []) }
    ensures ended_by_the_end { byte_list_at (1 ∷ 40 ∷ []) ≡ (40 ∷ [], []) }
    ensures of_a_byte_past_the_end { byte_list_at (1 ∷ []) ≡ (0 ∷ [], []) }
    ensures by_the_lowest_bits { byte_list_at (3 ∷ 40 ∷ 2 ∷ 9 ∷ []) ≡ (40 ∷ [], 9 ∷ []) }
    ensures of_a_byte_that_asks_for_nothing { byte_list_at (1 ∷ 0 ∷ 0 ∷ []) ≡ (0 ∷ [], []) }
{}
