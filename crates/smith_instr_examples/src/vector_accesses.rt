ghost use Rattle.std.specs.List.{AllByRecursion as Each};
ghost use Rattle.std.specs.Prelude.{[], ◌∷◌, ◌≡◌, ◌≤◌, ◌<◌, ℕ};
ghost use Rattle.smith_types.specs.Syntax.value_type.ValType.TheVariants.{I32, I64, V128};
ghost use Rattle.smith_instr.specs.declared.instr.Instr.TheVariants as instr;
ghost use Rattle.smith_instr.specs.declared.vector.VectorLoad.TheVariants as vload;
ghost use Rattle.smith_instr.specs.declared.vector.VectorLoad.{VectorLoad};
ghost use Rattle.smith_instr_examples.specs.ExampleBodies.{aligned};
ghost use Rattle.smith_instr_examples.specs.ExampleTyping.{HasNoType, HasOnlyType};
ghost use Rattle.smith_instr.specs.MemoryTypes.{IsLane, vector_bytes};

fn loads()
    ensures bytes_of_each { Each (λ (row : VectorLoad × ℕ). vector_bytes row.0 ≡ row.1) ((vload.V128, 4) ∷ (vload.I8x8S, 3)
        ∷ (vload.I8x8U, 3) ∷ (vload.I16x4S, 3) ∷ (vload.I16x4U, 3) ∷ (vload.I32x2S, 3) ∷ (vload.I32x2U, 3) ∷ (vload.Splat8, 0)
        ∷ (vload.Splat16, 1) ∷ (vload.Splat32, 2) ∷ (vload.Splat64, 3) ∷ (vload.Zero32, 2) ∷ (vload.Zero64, 3) ∷ []) }
    ensures of_a_narrow_memory { (op : VectorLoad) (align : ℕ) → align ≤ vector_bytes op → HasOnlyType
        (instr.VectorLoad op (aligned 0 align)) (I32 ∷ []) (V128 ∷ []) }
    ensures of_a_wide_memory { (op : VectorLoad) (align : ℕ) → align ≤ vector_bytes op → HasOnlyType (instr.VectorLoad op (aligned 1 align))
        (I64 ∷ []) (V128 ∷ []) }
    ensures above_its_alignment { (op : VectorLoad) (memory align : ℕ) → vector_bytes op < align → HasNoType
        (instr.VectorLoad op (aligned memory align)) }
    ensures past_the_last_memory { (op : VectorLoad) → HasNoType (instr.VectorLoad op (aligned 2 0)) }
    ensures offset_too_high { (op : VectorLoad) → HasNoType (instr.VectorLoad op (record (aligned 0 0) { offset = 4294967296 })) }
{}

fn stores()
    ensures of_a_narrow_memory { (align : ℕ) → align ≤ 4 → HasOnlyType (instr.VectorStore (aligned 0 align)) (I32 ∷ V128 ∷ []) [] }
    ensures of_a_wide_memory { (align : ℕ) → align ≤ 4 → HasOnlyType (instr.VectorStore (aligned 1 align)) (I64 ∷ V128 ∷ []) [] }
    ensures above_its_alignment { (memory align : ℕ) → 4 < align → HasNoType (instr.VectorStore (aligned memory align)) }
    ensures past_the_last_memory { (align : ℕ) → HasNoType (instr.VectorStore (aligned 2 align)) }
{}

fn lanes()
    ensures last_of_1_byte { IsLane 0 15 }
    ensures past_those_of_1_byte { ¬ IsLane 0 16 }
    ensures last_of_2_bytes { IsLane 1 7 }
    ensures past_those_of_2_bytes { ¬ IsLane 1 8 }
    ensures last_of_4_bytes { IsLane 2 3 }
    ensures past_those_of_4_bytes { ¬ IsLane 2 4 }
    ensures last_of_8_bytes { IsLane 3 1 }
    ensures past_those_of_8_bytes { ¬ IsLane 3 2 }
    ensures whole_vector { (lane : ℕ) → ¬ IsLane 4 lane }
{}

fn lanes_loaded()
    ensures of_a_narrow_memory { (bytes lane align : ℕ) → IsLane bytes lane → align ≤ bytes → HasOnlyType
        (instr.VectorLoadLane bytes (aligned 0 align) lane) (I32 ∷ V128 ∷ []) (V128 ∷ []) }
    ensures of_a_wide_memory { (bytes lane align : ℕ) → IsLane bytes lane → align ≤ bytes → HasOnlyType
        (instr.VectorLoadLane bytes (aligned 1 align) lane) (I64 ∷ V128 ∷ []) (V128 ∷ []) }
    ensures above_its_alignment { (bytes lane memory align : ℕ) → bytes < align → HasNoType
        (instr.VectorLoadLane bytes (aligned memory align) lane) }
    ensures past_its_lanes { (bytes lane memory align : ℕ) → ¬ IsLane bytes lane → HasNoType
        (instr.VectorLoadLane bytes (aligned memory align) lane) }
    ensures past_the_last_memory { (bytes lane align : ℕ) → HasNoType (instr.VectorLoadLane bytes (aligned 2 align) lane) }
{}

fn lanes_stored()
    ensures of_a_narrow_memory { (bytes lane align : ℕ) → IsLane bytes lane → align ≤ bytes → HasOnlyType
        (instr.VectorStoreLane bytes (aligned 0 align) lane) (I32 ∷ V128 ∷ []) [] }
    ensures of_a_wide_memory { (bytes lane align : ℕ) → IsLane bytes lane → align ≤ bytes → HasOnlyType
        (instr.VectorStoreLane bytes (aligned 1 align) lane) (I64 ∷ V128 ∷ []) [] }
    ensures above_its_alignment { (bytes lane memory align : ℕ) → bytes < align → HasNoType
        (instr.VectorStoreLane bytes (aligned memory align) lane) }
    ensures past_its_lanes { (bytes lane memory align : ℕ) → ¬ IsLane bytes lane → HasNoType
        (instr.VectorStoreLane bytes (aligned memory align) lane) }
    ensures past_the_last_memory { (bytes lane align : ℕ) → HasNoType (instr.VectorStoreLane bytes (aligned 2 align) lane) }
{}
