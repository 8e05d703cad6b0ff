#![tactic(auto, unfolding(smith_body_aggregates::specs::CreationChoices::created_at, smith_body_aggregates::specs::CreationChoices::creation_at, smith_body_nodes::specs::Items::index_at, smith_body_nodes::specs::Offered::chunk_at, smith_body_nodes::specs::Offered::offered, smith_draw_types::specs::Below::is_heap_below, smith_draw_types::specs::Choices::chosen_at, smith_draw_types::specs::Offered::ancestors, smith_bytes::specs::Draws::choose_at, smith_bytes::specs::Draws::digit_count, smith_bytes::specs::Draws::range_at))]

ghost use Rattle.std.specs.Prelude.{◌≡◌, Some, None, [], ◌∷◌};
ghost use Rattle.smith_types.specs.Flags.{funcref};
ghost use Rattle.smith_types.specs.Syntax.value_type.AbstractHeapType.TheVariants as heap;
ghost use Rattle.smith_types.specs.Syntax.value_type.ValType.TheVariants.{I32, I64, Ref};
ghost use Rattle.smith_instr.specs.declared.aggregate.AggregateInstr.TheVariants as aggregate;
ghost use Rattle.smith_instr_examples.specs.ExampleBodies.{some_func};
ghost use Rattle.smith_body_nodes.specs.Nodes.{aggregate_of};
ghost use Rattle.smith_body_aggregates.specs.CreationChoices.{creation_at};
ghost use Rattle.smith_body_examples.specs.ExampleAggregates.{aggregates, any, some, some_of};

fn structs()
    ensures operands_in_the_order_of_fields { creation_at (aggregates []) (some 0) (0 ∷ 9 ∷ [])
        ≡ (Some (aggregate_of (I32 ∷ I64 ∷ []) (aggregate.StructNew 0)), 9 ∷ []) }
    ensures last_field_first { ¬ (creation_at (aggregates []) (some 0) (0 ∷ 9 ∷ [])
        ≡ (Some (aggregate_of (I64 ∷ I32 ∷ []) (aggregate.StructNew 0)), 9 ∷ [])) }
    ensures one_of_two { creation_at (aggregates []) (some_of heap.Struct) (0 ∷ 1 ∷ 9 ∷ [])
        ≡ (Some (aggregate_of (some_func ∷ []) (aggregate.StructNew 1)), 9 ∷ []) }
    ensures default_values { creation_at (aggregates []) (some_of heap.Struct) (1 ∷ 9 ∷ [])
        ≡ (Some (aggregate_of [] (aggregate.StructNewDefault 0)), 9 ∷ []) }
    ensures reference_without_a_default { creation_at (aggregates []) (some 1) (1 ∷ 9 ∷ []) ≡ (None, 9 ∷ []) }
    ensures array_is_no_struct { creation_at (aggregates []) (some 2) (0 ∷ 9 ∷ []) ≡ (None, 9 ∷ []) }
{}

fn arrays()
    ensures element_before_the_length { creation_at (aggregates []) (some 4) (2 ∷ 9 ∷ [])
        ≡ (Some (aggregate_of (Ref funcref ∷ I32 ∷ []) (aggregate.ArrayNew 4)), 9 ∷ []) }
    ensures packed_element { creation_at (aggregates []) (some_of heap.Array) (2 ∷ 1 ∷ [])
        ≡ (Some (aggregate_of (I32 ∷ I32 ∷ []) (aggregate.ArrayNew 3)), []) }
    ensures default_value { creation_at (aggregates []) (some_of heap.Eq) (3 ∷ 2 ∷ [])
        ≡ (Some (aggregate_of (I32 ∷ []) (aggregate.ArrayNewDefault 4)), []) }
    ensures three_elements { creation_at (aggregates []) (any 4) (4 ∷ 3 ∷ [])
        ≡ (Some (aggregate_of (Ref funcref ∷ Ref funcref ∷ Ref funcref ∷ []) (aggregate.ArrayNewFixed 4 3)), []) }
    ensures no_elements { creation_at (aggregates []) (some 2) (4 ∷ 8 ∷ []) ≡ (Some (aggregate_of [] (aggregate.ArrayNewFixed 2 0)), []) }
{}

fn segments()
    ensures numbers_from_a_data_segment { creation_at (aggregates []) (some_of heap.Array) (5 ∷ 1 ∷ 9 ∷ [])
        ≡ (Some (aggregate_of (I32 ∷ I32 ∷ []) (aggregate.ArrayNewData 3 0)), 9 ∷ []) }
    ensures references_from_a_data_segment { creation_at (aggregates []) (some 4) (5 ∷ 9 ∷ []) ≡ (None, 9 ∷ []) }
    ensures references_from_an_element_segment { creation_at (aggregates []) (some_of heap.Array) (6 ∷ 9 ∷ [])
        ≡ (Some (aggregate_of (I32 ∷ I32 ∷ []) (aggregate.ArrayNewElem 4 0)), 9 ∷ []) }
    ensures numbers_from_an_element_segment { creation_at (aggregates []) (some 2) (6 ∷ 9 ∷ []) ≡ (None, 9 ∷ []) }
    ensures without_data_segments { creation_at (record (aggregates []) { datas = 0 }) (some 3) (5 ∷ 9 ∷ []) ≡ (None, 9 ∷ []) }
    ensures without_element_segments { creation_at (record (aggregates []) { elems = [] }) (some 4) (6 ∷ 9 ∷ []) ≡ (None, 9 ∷ []) }
{}

fn others()
    ensures number { creation_at (aggregates []) I32 (0 ∷ 9 ∷ []) ≡ (None, 0 ∷ 9 ∷ []) }
    ensures function { creation_at (aggregates []) (Ref funcref) (0 ∷ 9 ∷ []) ≡ (None, 9 ∷ []) }
{}
