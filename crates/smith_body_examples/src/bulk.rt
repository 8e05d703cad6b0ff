#![tactic(auto, unfolding(smith_body_tables::specs::BulkChoices::bulk_at, smith_body_nodes::specs::Items::index_at, smith_body_nodes::specs::Items::item_at, smith_draw_types::specs::Choices::chosen_at, smith_bytes::specs::Draws::digit_count, smith_bytes::specs::Draws::range_at))]

ghost use Rattle.std.specs.Prelude.{◌≡◌, Some, None, [], ◌∷◌};
ghost use Rattle.smith_types.specs.Syntax.value_type.ValType.TheVariants.{I32, I64};
ghost use Rattle.smith_instr.specs.declared.instr.Instr.TheVariants as instr;
ghost use Rattle.smith_instr.specs.declared.memory.MemoryInstr.TheVariants as memory;
ghost use Rattle.smith_instr_examples.specs.ExampleBodies.{function_of};
ghost use Rattle.smith_body_tables.specs.BulkChoices.{bulk_at};
ghost use Rattle.smith_body_nodes.specs.Nodes.{node_of};

fn fills()
    ensures narrow { bulk_at (function_of [] []) (0 ∷ 0 ∷ [])
        ≡ (Some (node_of (I32 ∷ I32 ∷ I32 ∷ []) (instr.Memory (memory.Fill 0)) 0), []) }
    ensures wide { bulk_at (function_of [] []) (4 ∷ 3 ∷ []) ≡ (Some (node_of (I64 ∷ I32 ∷ I64 ∷ []) (instr.Memory (memory.Fill 1)) 0), []) }
    ensures value_above_the_number { ¬ (bulk_at (function_of [] []) (4 ∷ 3 ∷ [])
        ≡ (Some (node_of (I64 ∷ I64 ∷ I32 ∷ []) (instr.Memory (memory.Fill 1)) 0), [])) }
    ensures without_a_memory { bulk_at (record (function_of [] []) { memories = [] }) (0 ∷ 1 ∷ []) ≡ (None, 1 ∷ []) }
{}

fn copies()
    ensures into_a_wide_memory { bulk_at (function_of [] []) (1 ∷ 1 ∷ 0 ∷ [])
        ≡ (Some (node_of (I64 ∷ I32 ∷ I32 ∷ []) (instr.Memory (memory.Copy 1 0)) 0), []) }
    ensures into_a_narrow_memory { bulk_at (function_of [] []) (1 ∷ 0 ∷ 1 ∷ [])
        ≡ (Some (node_of (I32 ∷ I64 ∷ I32 ∷ []) (instr.Memory (memory.Copy 0 1)) 0), []) }
    ensures within_a_wide_memory { bulk_at (function_of [] []) (1 ∷ 1 ∷ 1 ∷ [])
        ≡ (Some (node_of (I64 ∷ I64 ∷ I64 ∷ []) (instr.Memory (memory.Copy 1 1)) 0), []) }
{}

fn segments()
    ensures only_one { bulk_at (function_of [] []) (2 ∷ 1 ∷ 8 ∷ [])
        ≡ (Some (node_of (I64 ∷ I32 ∷ I32 ∷ []) (instr.Memory (memory.Init 1 0)) 0), 8 ∷ []) }
    ensures one_of_three { bulk_at (record (function_of [] []) { datas = 3 }) (2 ∷ 0 ∷ 5 ∷ [])
        ≡ (Some (node_of (I32 ∷ I32 ∷ I32 ∷ []) (instr.Memory (memory.Init 0 2)) 0), []) }
    ensures none { bulk_at (record (function_of [] []) { datas = 0 }) (2 ∷ 1 ∷ 8 ∷ []) ≡ (None, 8 ∷ []) }
    ensures dropped { bulk_at (record (function_of [] []) { datas = 3 }) (3 ∷ 1 ∷ [])
        ≡ (Some (node_of [] (instr.Memory (memory.DataDrop 1)) 0), []) }
    ensures none_to_drop { bulk_at (record (function_of [] []) { datas = 0 }) (3 ∷ 1 ∷ []) ≡ (None, 1 ∷ []) }
{}
