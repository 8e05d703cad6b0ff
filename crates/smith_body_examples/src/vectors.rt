#![tactic(auto, unfolding(smith_body_memory::specs::VectorChoices::lane_access_at, smith_body_memory::specs::VectorChoices::lanes_at, smith_body_memory::specs::VectorChoices::shuffled_at, smith_body_memory::specs::VectorChoices::store_lane_at, smith_body_memory::specs::VectorChoices::vector_at, smith_body_memory::specs::VectorChoices::vector_choice_at, smith_body_memory::specs::VectorChoices::vector_load_at, smith_body_memory::specs::VectorChoices::vector_row_at, smith_body_memory::specs::VectorChoices::vector_store_at, smith_body_memory::specs::Accesses::access_at, smith_body_memory::specs::Accesses::offset_at, smith_body_memory::specs::Accesses::place_at, smith_draw_types::specs::Choices::chosen_at, smith_bytes::specs::Draws::choose_at, smith_bytes::specs::Draws::digit_count, smith_bytes::specs::Draws::range_at))]

ghost use Rattle.std.specs.Prelude.{◌≡◌, Some, None, [], ◌∷◌};
ghost use Rattle.smith_types.specs.Flags.{funcref};
ghost use Rattle.smith_types.specs.Syntax.value_type.ValType.TheVariants.{I32, I64, V128, Ref};
ghost use Rattle.smith_config.specs.Config.{default_config};
ghost use Rattle.smith_instr.specs.declared.instr.Instr.TheVariants as instr;
ghost use Rattle.smith_instr.specs.declared.vector.LaneExtract.TheVariants as extract;
ghost use Rattle.smith_instr.specs.declared.vector.LaneShape.TheVariants as shape;
ghost use Rattle.smith_instr.specs.declared.vector.VectorInstr.TheVariants as vector;
ghost use Rattle.smith_instr.specs.declared.vector.VectorLoad.TheVariants as load;
ghost use Rattle.smith_instr.specs.declared.vector.VectorUnary.TheVariants as unary;
ghost use Rattle.smith_instr_examples.specs.ExampleBodies.{aligned, function_of};
ghost use Rattle.smith_body_nodes.specs.Nodes.{node_of};
ghost use Rattle.smith_body_memory.specs.VectorChoices.{lanes_at, shuffled_at, store_lane_at, vector_at, vector_store_at};
ghost use Rattle.smith_body_examples.specs.ExampleContexts.{without_vectors};

fn lanes()
    ensures of_two_vectors { shuffled_at 3 (33 ∷ 31 ∷ 2 ∷ 9 ∷ []) ≡ (1 ∷ 31 ∷ 2 ∷ [], 9 ∷ []) }
    ensures last_first { ¬ (shuffled_at 3 (33 ∷ 31 ∷ 2 ∷ 9 ∷ []) ≡ (2 ∷ 31 ∷ 1 ∷ [], 9 ∷ [])) }
    ensures of_sixteen { lanes_at (vector.ExtractLane extract.I8x16S 0) (18 ∷ 9 ∷ []) ≡ (vector.ExtractLane extract.I8x16S 2, 9 ∷ []) }
    ensures of_two { lanes_at (vector.ReplaceLane shape.F64x2 0) (3 ∷ 9 ∷ []) ≡ (vector.ReplaceLane shape.F64x2 1, 9 ∷ []) }
    ensures none { lanes_at vector.AnyTrue (3 ∷ 9 ∷ []) ≡ (vector.AnyTrue, 3 ∷ 9 ∷ []) }
{}

fn numbers()
    ensures only_row { vector_at default_config (function_of [] []) I64 (1 ∷ 9 ∷ [])
        ≡ (Some (node_of (V128 ∷ []) (instr.Vector (vector.ExtractLane extract.I64x2 1)) 0), 9 ∷ []) }
    ensures first_row { vector_at default_config (function_of [] []) I32 (14 ∷ 9 ∷ [])
        ≡ (Some (node_of (V128 ∷ []) (instr.Vector vector.AnyTrue) 0), 9 ∷ []) }
    ensures reference { vector_at default_config (function_of [] []) (Ref funcref) (1 ∷ 9 ∷ []) ≡ (None, 1 ∷ 9 ∷ []) }
    ensures without_simd { vector_at default_config (without_vectors (function_of [] [])) I64 (1 ∷ 9 ∷ []) ≡ (None, 1 ∷ 9 ∷ []) }
{}

fn vectors()
    ensures first_row { vector_at default_config (function_of [] []) V128 (0 ∷ 0 ∷ 9 ∷ [])
        ≡ (Some (node_of (V128 ∷ []) (instr.Vector (vector.Unary unary.V128Not)) 0), 9 ∷ []) }
    ensures load_of_a_vector { vector_at default_config (function_of [] []) V128 (5 ∷ 0 ∷ 0 ∷ 4 ∷ 0 ∷ 0 ∷ 8 ∷ [])
        ≡ (Some (node_of (I32 ∷ []) (instr.VectorLoad load.V128 (record (aligned 0 4) { offset = 8 })) 0), []) }
    ensures load_of_a_byte { vector_at default_config (function_of [] []) V128 (6 ∷ 7 ∷ 0 ∷ 0 ∷ 0 ∷ 8 ∷ 9 ∷ [])
        ≡ (Some (node_of (I32 ∷ []) (instr.VectorLoad load.Splat8 (record (aligned 0 0) { offset = 8 })) 0), 9 ∷ []) }
    ensures load_into_a_lane { vector_at default_config (function_of [] []) V128 (7 ∷ 3 ∷ 1 ∷ 3 ∷ 0 ∷ 0 ∷ 8 ∷ 1 ∷ [])
        ≡ (Some (node_of (I64 ∷ V128 ∷ []) (instr.VectorLoadLane 3 (record (aligned 1 3) { offset = 8 }) 1) 0), []) }
    ensures load_without_a_memory { vector_at default_config (record (function_of [] []) { memories = [] }) V128 (5 ∷ 0 ∷ 9 ∷ [])
        ≡ (None, 9 ∷ []) }
{}

fn stores()
    ensures wide { vector_store_at default_config (function_of [] []) (1 ∷ 2 ∷ 0 ∷ 0 ∷ 8 ∷ [])
        ≡ (Some (node_of (I64 ∷ V128 ∷ []) (instr.VectorStore (record (aligned 1 2) { offset = 8 })) 0), []) }
    ensures lane_of_a_byte { store_lane_at default_config (function_of [] []) (0 ∷ 0 ∷ 0 ∷ 0 ∷ 8 ∷ 15 ∷ [])
        ≡ (Some (node_of (I32 ∷ V128 ∷ []) (instr.VectorStoreLane 0 (record (aligned 0 0) { offset = 8 }) 15) 0), []) }
    ensures lane_before_the_access { ¬ (store_lane_at default_config (function_of [] []) (0 ∷ 0 ∷ 0 ∷ 0 ∷ 8 ∷ 15 ∷ [])
        ≡ (Some (node_of (I32 ∷ V128 ∷ []) (instr.VectorStoreLane 0 (record (aligned 0 0) { offset = 2063 }) 0) 0), [])) }
    ensures without_simd { vector_store_at default_config (without_vectors (function_of [] [])) (1 ∷ 2 ∷ []) ≡ (None, 1 ∷ 2 ∷ []) }
{}
