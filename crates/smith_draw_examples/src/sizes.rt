// Drawn sizes. The clauses are proved; nothing calls these functions.

ghost use Rattle.std.specs.Prelude.{◌≡◌, ◌^◌, [], ◌∷◌, true, false, Some, None};
ghost use Rattle.smith_types.specs.ExampleEntities.{memory};
ghost use Rattle.smith_config.specs.Config.{default_config};
ghost use Rattle.smith_draw_types.specs.Limits.{gradually_at, limits64_at};
ghost use Rattle.smith_draw_types.specs.Memories.{shared_memory_at, stated_page_at, page_size_at, drawn_pages, likely_pages, memtype_at};

// Numbers that grow from 0, mostly at most 10,000, and at most a million.
#[tactic(auto, unfolding(smith_draw_types::specs::Limits::gradually_at, smith_draw_types::specs::Limits::gradual, smith_draw_types::specs::Limits::sixth_power, smith_draw_types::specs::Limits::scaled, smith_bytes::specs::Draws::whole_at))]
fn growth()
    ensures of_nothing { gradually_at 0 10000 1000000 [] ≡ (0, []) }
    ensures of_a_half { gradually_at 0 10000 1000000 (0 ∷ 0 ∷ 0 ∷ 128 ∷ []) ≡ (156, []) }
    ensures of_most { gradually_at 0 10000 1000000 (0 ∷ 0 ∷ 0 ∷ 240 ∷ []) ≡ (6789, []) }
    ensures of_the_last_inside { gradually_at 0 10000 1000000 (234 ∷ 81 ∷ 184 ∷ 254 ∷ []) ≡ (9703, []) }
    ensures of_the_first_anywhere { gradually_at 0 10000 1000000 (235 ∷ 81 ∷ 184 ∷ 254 ∷ []) ≡ (995000, []) }
    ensures of_nearly_all { gradually_at 0 10000 1000000 (0 ∷ 0 ∷ 0 ∷ 255 ∷ []) ≡ (996093, []) }
    ensures of_all { gradually_at 0 10000 1000000 (255 ∷ 255 ∷ 255 ∷ 255 ∷ 7 ∷ []) ≡ (1000000, 7 ∷ []) }
    ensures without_a_choice { gradually_at 5 5 5 (1 ∷ []) ≡ (5, 1 ∷ []) }
{}

#[tactic(auto, unfolding(smith_draw_types::specs::Limits::limits64_at, smith_draw_types::specs::Limits::gradually_at, smith_draw_types::specs::Limits::gradual, smith_draw_types::specs::Limits::sixth_power, smith_draw_types::specs::Limits::scaled, smith_bytes::specs::Draws::whole_at, smith_bytes::specs::Draws::bool_at, smith_bytes::specs::Draws::range_at, smith_bytes::specs::Draws::digit_count))]
fn limits()
    ensures no_maximum { limits64_at 1 9 false 9 (0 ∷ 0 ∷ 0 ∷ 0 ∷ 0 ∷ 3 ∷ []) ≡ ((1, None), 3 ∷ []) }
    ensures a_maximum { limits64_at 1 9 false 9 (0 ∷ 0 ∷ 0 ∷ 0 ∷ 1 ∷ 3 ∷ []) ≡ ((1, Some 4), []) }
    ensures a_required_maximum { limits64_at 1 9 true 9 (0 ∷ 0 ∷ 0 ∷ 0 ∷ 3 ∷ []) ≡ ((1, Some 4), []) }
{}

#[tactic(auto, unfolding(smith_draw_types::specs::Memories::shared_memory_at, smith_bytes::specs::Draws::ratio_at, smith_bytes::specs::Draws::range_at, smith_bytes::specs::Draws::digit_count))]
fn shared_memories()
    ensures first_of_four { shared_memory_at default_config (0 ∷ []) ≡ (true, []) }
    ensures second_of_four { shared_memory_at default_config (1 ∷ []) ≡ (false, []) }
    ensures third_of_four { shared_memory_at default_config (2 ∷ []) ≡ (false, []) }
    ensures last_of_four { shared_memory_at default_config (3 ∷ []) ≡ (false, []) }
    ensures past_the_four { shared_memory_at default_config (4 ∷ []) ≡ (true, []) }
    ensures without_threads { shared_memory_at (record default_config { threads_enabled = false }) (0 ∷ []) ≡ (false, 0 ∷ []) }
{}

#[tactic(auto, unfolding(smith_draw_types::specs::Memories::page_size_at, smith_draw_types::specs::Memories::stated_page_at, smith_bytes::specs::Draws::bool_at))]
fn page_sizes()
    ensures one_byte { stated_page_at (1 ∷ []) ≡ (Some 0, []) }
    ensures usual { stated_page_at (0 ∷ []) ≡ (Some 16, []) }
    ensures stated { page_size_at (record default_config { custom_page_sizes_enabled = true }) (1 ∷ 1 ∷ []) ≡ (Some 0, []) }
    ensures not_stated { page_size_at (record default_config { custom_page_sizes_enabled = true }) (0 ∷ 1 ∷ []) ≡ (None, 1 ∷ []) }
    ensures not_enabled { page_size_at default_config (1 ∷ 1 ∷ []) ≡ (None, 1 ∷ 1 ∷ []) }
{}

// The likely sizes of all memories together are at most 1 GiB.
#[tactic(auto, unfolding(smith_draw_types::specs::Memories::likely_pages, smith_draw_types::specs::Memories::drawn_pages))]
fn pages()
    ensures likely { likely_pages default_config false None ≡ 16384 }
    ensures likely_of_two { likely_pages (record default_config { max_memories = 2 }) false None ≡ 8192 }
    ensures likely_of_none { likely_pages (record default_config { max_memories = 0 }) false None ≡ 16384 }
    ensures likely_bytes { likely_pages default_config false (Some 0) ≡ 1073741824 }
    ensures likely_of_wide_addresses { likely_pages default_config true None ≡ 16384 }
    ensures likely_where_fewer_are_drawn { likely_pages (record default_config { max_memory32_bytes = 65536 }) false None ≡ 1 }
    ensures drawn { drawn_pages default_config false None ≡ 65536 }
    ensures drawn_bytes { drawn_pages default_config false (Some 0) ≡ 4294967295 }
    ensures drawn_of_wide_addresses { drawn_pages default_config true None ≡ 2 ^ 48 }
    ensures drawn_of_no_bytes { drawn_pages (record default_config { max_memory32_bytes = 0 }) false None ≡ 0 }
    ensures drawn_with_traps_disallowed { drawn_pages (record default_config { max_memory32_bytes = 0; disallow_traps = true }) false None
        ≡ 1 }
{}

#[tactic(auto, unfolding(smith_draw_types::specs::Memories::memtype_at, smith_draw_types::specs::Memories::shared_memory_at, smith_draw_types::specs::Memories::memory64_at, smith_draw_types::specs::Memories::page_size_at, smith_draw_types::specs::Memories::likely_pages, smith_draw_types::specs::Memories::drawn_pages, smith_draw_types::specs::Limits::limits64_at, smith_draw_types::specs::Limits::gradually_at, smith_draw_types::specs::Limits::gradual, smith_draw_types::specs::Limits::sixth_power, smith_draw_types::specs::Limits::scaled, smith_bytes::specs::Draws::whole_at, smith_bytes::specs::Draws::bool_at, smith_bytes::specs::Draws::range_at, smith_bytes::specs::Draws::digit_count, smith_bytes::specs::Draws::ratio_at))]
fn memories()
    ensures of_nothing { memtype_at default_config [] ≡ (record (memory 0 (Some 0)) { shared = true }, []) }
    ensures every_page { memtype_at default_config (1 ∷ 0 ∷ 255 ∷ 255 ∷ 255 ∷ 255 ∷ 1 ∷ []) ≡ (memory 65536 (Some 65536), []) }
    ensures wide { memtype_at default_config (1 ∷ 1 ∷ []) ≡ (record (memory 0 None) { memory64 = true }, []) }
    ensures likely { memtype_at default_config (1 ∷ 0 ∷ 0 ∷ 0 ∷ 0 ∷ 240 ∷ 0 ∷ []) ≡ (memory 11123 None, []) }
{}
