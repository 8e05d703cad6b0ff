#![tactic(auto, unfolding(smith_body_aggregates::specs::FieldChoices::field_read_at, smith_body_aggregates::specs::FieldChoices::field_write_at, smith_body_aggregates::specs::FieldChoices::read_at, smith_body_aggregates::specs::FieldChoices::write_at, smith_body_nodes::specs::Items::index_at, smith_body_nodes::specs::Offered::chunk_at, smith_body_nodes::specs::Offered::offered, smith_draw_types::specs::Below::is_heap_below, smith_draw_types::specs::Choices::chosen_at, smith_draw_types::specs::Offered::ancestors, smith_bytes::specs::Draws::bool_at, smith_bytes::specs::Draws::choose_at, smith_bytes::specs::Draws::digit_count, smith_bytes::specs::Draws::range_at))]

ghost use Rattle.std.specs.Prelude.{◌≡◌, Some, None, [], ◌∷◌};
ghost use Rattle.smith_types.specs.Flags.{funcref};
ghost use Rattle.smith_types.specs.Syntax.value_type.ValType.TheVariants.{I32, I64, F32, Ref};
ghost use Rattle.smith_instr.specs.declared.aggregate.AggregateInstr.TheVariants as aggregate;
ghost use Rattle.smith_instr.specs.declared.aggregate.Extension.TheVariants as extension;
ghost use Rattle.smith_body_nodes.specs.Nodes.{aggregate_of};
ghost use Rattle.smith_body_aggregates.specs.FieldChoices.{field_read_at, field_write_at};
ghost use Rattle.smith_body_examples.specs.ExampleAggregates.{aggregates, any, unmanaged};

fn reads()
    ensures packed_field { field_read_at (aggregates []) I32 (1 ∷ 1 ∷ 9 ∷ [])
        ≡ (Some (aggregate_of (any 0 ∷ []) (aggregate.StructGet 0 0 extension.Signed)), 9 ∷ []) }
    ensures packed_field_without_a_sign { field_read_at (aggregates []) I32 (1 ∷ 0 ∷ 9 ∷ [])
        ≡ (Some (aggregate_of (any 0 ∷ []) (aggregate.StructGet 0 0 extension.Unsigned)), 9 ∷ []) }
    ensures whole_field { field_read_at (aggregates []) I64 (1 ∷ 1 ∷ 9 ∷ [])
        ≡ (Some (aggregate_of (any 0 ∷ []) (aggregate.StructGet 0 1 extension.Unpacked)), 9 ∷ []) }
    ensures whole_field_with_a_sign { ¬ (field_read_at (aggregates []) I64 (1 ∷ 1 ∷ 9 ∷ [])
        ≡ (Some (aggregate_of (any 0 ∷ []) (aggregate.StructGet 0 1 extension.Signed)), 9 ∷ [])) }
    ensures one_of_two_arrays { field_read_at (aggregates []) I32 (0 ∷ 1 ∷ 1 ∷ [])
        ≡ (Some (aggregate_of (any 3 ∷ I32 ∷ []) (aggregate.ArrayGet 3 extension.Signed)), []) }
    ensures reference { field_read_at (aggregates []) (Ref funcref) (0 ∷ 0 ∷ [])
        ≡ (Some (aggregate_of (any 4 ∷ I32 ∷ []) (aggregate.ArrayGet 4 extension.Unpacked)), []) }
    ensures no_field_of_the_type { field_read_at (aggregates []) F32 (1 ∷ 9 ∷ []) ≡ (None, 9 ∷ []) }
    ensures without_garbage_collection { field_read_at unmanaged I32 (1 ∷ 1 ∷ []) ≡ (None, 1 ∷ 1 ∷ []) }
{}

fn sets()
    ensures variable_field { field_write_at (aggregates []) (0 ∷ 9 ∷ [])
        ≡ (Some (aggregate_of (any 0 ∷ I64 ∷ []) (aggregate.StructSet 0 1)), 9 ∷ []) }
    ensures constant_field { ¬ (field_write_at (aggregates []) (0 ∷ 9 ∷ [])
        ≡ (Some (aggregate_of (any 0 ∷ I32 ∷ []) (aggregate.StructSet 0 0)), 9 ∷ [])) }
    ensures element { field_write_at (aggregates []) (1 ∷ 1 ∷ [])
        ≡ (Some (aggregate_of (any 4 ∷ I32 ∷ Ref funcref ∷ []) (aggregate.ArraySet 4)), []) }
    ensures elements { field_write_at (aggregates []) (2 ∷ 0 ∷ [])
        ≡ (Some (aggregate_of (any 2 ∷ I32 ∷ I32 ∷ I32 ∷ []) (aggregate.ArrayFill 2)), []) }
    ensures without_garbage_collection { field_write_at unmanaged (0 ∷ []) ≡ (None, 0 ∷ []) }
{}

fn copies()
    ensures elements_of_the_same_type { field_write_at (aggregates []) (3 ∷ 0 ∷ 9 ∷ [])
        ≡ (Some (aggregate_of (any 2 ∷ I32 ∷ any 2 ∷ I32 ∷ I32 ∷ []) (aggregate.ArrayCopy 2 2)), 9 ∷ []) }
    ensures elements_of_another_type { ¬ (field_write_at (aggregates []) (3 ∷ 0 ∷ 1 ∷ [])
        ≡ (Some (aggregate_of (any 2 ∷ I32 ∷ any 3 ∷ I32 ∷ I32 ∷ []) (aggregate.ArrayCopy 2 3)), [])) }
    ensures bytes_of_a_data_segment { field_write_at (aggregates []) (4 ∷ 9 ∷ [])
        ≡ (Some (aggregate_of (any 2 ∷ I32 ∷ I32 ∷ I32 ∷ []) (aggregate.ArrayInitData 2 0)), 9 ∷ []) }
    ensures references_of_an_element_segment { field_write_at (aggregates []) (5 ∷ 9 ∷ [])
        ≡ (Some (aggregate_of (any 4 ∷ I32 ∷ I32 ∷ I32 ∷ []) (aggregate.ArrayInitElem 4 0)), 9 ∷ []) }
    ensures without_data_segments { field_write_at (record (aggregates []) { datas = 0 }) (4 ∷ 9 ∷ []) ≡ (None, 9 ∷ []) }
{}
