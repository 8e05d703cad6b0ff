// Drawn data segments. The clauses are proved; nothing calls these functions.

ghost use Rattle.std.specs.Prelude.{◌≡◌, ◌^◌, [], ◌∷◌, true, false, pos, negsuc, None, Some, Ok, Err};
ghost use Rattle.smith_bytes.specs.declared.error.Count.TheVariants as counts;
ghost use Rattle.smith_bytes.specs.declared.error.Why.TheVariants.{Unmet};
ghost use Rattle.smith_types.specs.ExampleEntities.{all_addresses};
ghost use Rattle.smith_types.specs.Syntax.segments.DataSegmentKind.TheVariants.{Passive, Active};
ghost use Rattle.smith_types.specs.Syntax.segments.Offset.TheVariants.{Const32, Const64, Global};
ghost use Rattle.smith_config.specs.Config.{default_config};
ghost use Rattle.smith_draw_contents.specs.DataSegments.{counting_at, data_at};
ghost use Rattle.smith_draw_definitions.specs.Definitions.{global_scope};
ghost use Rattle.wasm_smith_examples.specs.ExampleDefinitions.{beside_globals};
ghost use Rattle.smith_module_rules_examples.specs.ExampleParts.{active_data, memory, number};

#[tactic(auto, unfolding(smith_draw_contents::specs::DataSegments::counting_at, smith_draw_contents::specs::DataSegments::may_hold_data_at, smith_bytes::specs::Draws::range_at, smith_bytes::specs::Draws::digit_count))]
fn counting()
    ensures by_pages_or_a_number { counting_at [] 0 (memory 0 None ∷ memory 1 None ∷ memory 0 None ∷ []) (11 ∷ 3 ∷ 9 ∷ [])
        ≡ ((0, memory 0 None) ∷ (1, memory 1 None) ∷ [], 9 ∷ []) }
    ensures of_nothing { counting_at [] 0 (memory 0 None ∷ []) [] ≡ ((0, memory 0 None) ∷ [], []) }
{}

// A data segment takes its bytes, whether it is passive, its memory and its offset, in this order.
#[tactic(auto, unfolding(smith_draw_contents::specs::DataSegments::data_at, smith_draw_contents::specs::DataSegments::counting_at, smith_draw_contents::specs::DataSegments::may_hold_data_at, smith_draw_contents::specs::DataSegments::data_segments_at, smith_draw_contents::specs::DataSegments::data_segment_at, smith_draw_contents::specs::DataSegments::passive_at, smith_draw_contents::specs::DataSegments::active_at, smith_draw_contents::specs::DataSegments::placed_at, smith_draw_contents::specs::DataSegments::constant_placed_at, smith_draw_contents::specs::DataSegments::address_at, smith_draw_types::specs::Offsets::offset_at, smith_draw_types::specs::Limits::gradually_at, smith_draw_types::specs::Limits::gradual, smith_draw_types::specs::Limits::sixth_power, smith_draw_types::specs::Limits::scaled, smith_draw_types::specs::Choices::chosen_at, smith_bytes::specs::ByteLists::byte_list_at, smith_bytes::specs::Growth::grow_at, smith_bytes::specs::Draws::whole_at, smith_bytes::specs::Draws::bool_at, smith_bytes::specs::Draws::range_at, smith_bytes::specs::Draws::digit_count))]
fn segments()
    ensures without_a_memory { data_at default_config (global_scope default_config (beside_globals []) []) [] (1 ∷ 1 ∷ 42 ∷ 0 ∷ 0 ∷ 9 ∷ [])
        ≡ Ok (record { kind = Passive; init = 42 ∷ [] } ∷ [], 9 ∷ []) }
    ensures without_bulk_memory { data_at (record default_config { bulk_memory_enabled = false })
        (global_scope default_config (beside_globals []) []) [] (1 ∷ []) ≡ Ok ([], 1 ∷ []) }
    ensures asked_for_without_bulk_memory { data_at (record default_config { bulk_memory_enabled = false; min_data_segments = 1 })
        (global_scope default_config (beside_globals []) []) [] [] ≡ Err (Unmet counts.DataSegments) }
    ensures asked_for { data_at (record default_config { min_data_segments = 1; max_data_segments = 1 })
        (global_scope default_config (beside_globals []) []) [] (0 ∷ 9 ∷ []) ≡ Ok (record { kind = Passive; init = [] } ∷ [], 9 ∷ []) }
    ensures beside_a_memory { data_at default_config (global_scope default_config (beside_globals []) []) (memory 1 None ∷ []) (1 ∷ 0 ∷ 1
        ∷ 0 ∷ 9 ∷ []) ≡ Ok (record { kind = Passive; init = [] } ∷ [], 9 ∷ []) }
    ensures at_a_constant { data_at default_config (global_scope default_config (beside_globals []) []) (memory 1 None ∷ []) (1 ∷ 1 ∷ 42 ∷ 0
        ∷ 0 ∷ 0 ∷ 0 ∷ 0 ∷ 240 ∷ 0 ∷ 9 ∷ []) ≡ Ok (active_data (pos 44493) (42 ∷ []) ∷ [], 9 ∷ []) }
    ensures into_the_second { data_at default_config (global_scope default_config (beside_globals []) []) (memory 1 None ∷ memory 1 None
        ∷ []) (1 ∷ 0 ∷ 0 ∷ 1 ∷ 0 ∷ 0 ∷ 0 ∷ 0 ∷ 0 ∷ 9 ∷ []) ≡ Ok (record { kind = Active 1 (Const32 (pos 0)); init = [] } ∷ [], 9 ∷ []) }
    ensures where_a_global_says { data_at default_config (global_scope default_config (beside_globals []) (number ∷ [])) (memory 1 None
        ∷ []) (1 ∷ 1 ∷ 42 ∷ 0 ∷ 0 ∷ 1 ∷ 0 ∷ 9 ∷ []) ≡ Ok (record { kind = Active 0 (Global 0); init = 42 ∷ [] } ∷ [], 9 ∷ []) }
    ensures lowered { data_at (record default_config { disallow_traps = true }) (global_scope default_config (beside_globals []) (number
        ∷ [])) (memory 1 None ∷ []) (1 ∷ 1 ∷ 42 ∷ 0 ∷ 0 ∷ 255 ∷ 255 ∷ 255 ∷ 255 ∷ 0 ∷ 9 ∷ [])
        ≡ Ok (active_data (pos 65535) (42 ∷ []) ∷ [], 9 ∷ []) }
    ensures cut { data_at (record default_config { disallow_traps = true }) (global_scope default_config (beside_globals []) [])
        (record (memory 1 None) { page_size_log2 = Some 0 } ∷ []) (1 ∷ 1 ∷ 42 ∷ 1 ∷ 43 ∷ 0 ∷ 0 ∷ 1 ∷ 0 ∷ 9 ∷ [])
        ≡ Ok (active_data (pos 0) (42 ∷ []) ∷ [], 9 ∷ []) }
    ensures at_the_last_of_32_bits { data_at (record default_config { disallow_traps = true })
        (global_scope default_config (beside_globals []) []) (memory (2 ^ 16) None ∷ []) (1 ∷ 0 ∷ 0 ∷ 255 ∷ 255 ∷ 255 ∷ 255 ∷ 0 ∷ 9 ∷ [])
        ≡ Ok (active_data (negsuc 0) [] ∷ [], 9 ∷ []) }
    ensures at_the_last_of_64_bits { data_at (record default_config { disallow_traps = true })
        (global_scope default_config (beside_globals []) []) (all_addresses ∷ []) (1 ∷ 0 ∷ 0 ∷ 255 ∷ 255 ∷ 255 ∷ 255 ∷ 0 ∷ 9 ∷ [])
        ≡ Ok (record { kind = Active 0 (Const64 (negsuc 0)); init = [] } ∷ [], 9 ∷ []) }
{}
