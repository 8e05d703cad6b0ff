ghost use Rattle.std.specs.List.{AllByRecursion as Each};
ghost use Rattle.std.specs.Prelude.{[], ◌∷◌, ◌++◌, replicate, ◌≡◌, ◌≤◌, ◌<◌, ℕ};
ghost use Rattle.smith_types.specs.Syntax.value_type.ValType.TheVariants.{F32, F64, I32, I64, V128};
ghost use Rattle.smith_instr.specs.declared.instr.Instr.TheVariants as instr;
ghost use Rattle.smith_instr.specs.declared.vector.LaneExtract.TheVariants as extract;
ghost use Rattle.smith_instr.specs.declared.vector.LaneExtract.{LaneExtract};
ghost use Rattle.smith_instr.specs.declared.vector.LaneShape.TheVariants as shape;
ghost use Rattle.smith_instr.specs.declared.vector.LaneShape.{LaneShape};
ghost use Rattle.smith_instr.specs.declared.vector.VectorInstr.TheVariants as vector;
ghost use Rattle.smith_instr_examples.specs.ExampleTyping.{HasNoType, HasOnlyType, HasType, LeavesNot, TakesNot};
ghost use Rattle.smith_types.specs.Syntax.value_type.ValType.{ValType};
ghost use Rattle.smith_instr.specs.VectorTypes.{extracted, lanes};

fn shapes()
    ensures of_each { Each (λ (row : LaneShape × ℕ × ValType). lanes row.0 ≡ (row.1, row.2)) ((shape.I8x16, 16, I32) ∷ (shape.I16x8, 8, I32)
        ∷ (shape.I32x4, 4, I32) ∷ (shape.I64x2, 2, I64) ∷ (shape.F32x4, 4, F32) ∷ (shape.F64x2, 2, F64) ∷ []) }
    ensures extracted_from { Each (λ (row : LaneExtract × LaneShape). extracted row.0 ≡ row.1) ((extract.I8x16S, shape.I8x16)
        ∷ (extract.I8x16U, shape.I8x16) ∷ (extract.I16x8S, shape.I16x8) ∷ (extract.I16x8U, shape.I16x8) ∷ (extract.I32x4, shape.I32x4)
        ∷ (extract.I64x2, shape.I64x2) ∷ (extract.F32x4, shape.F32x4) ∷ (extract.F64x2, shape.F64x2) ∷ []) }
{}

fn splats()
    ensures splat { (ty : LaneShape) → HasOnlyType (instr.Vector (vector.Splat ty)) ((lanes ty).1 ∷ []) (V128 ∷ []) }
{}

fn single_lanes()
    ensures extract_lane { (op : LaneExtract) (lane : ℕ) → lane < (lanes (extracted op)).0 → HasOnlyType
        (instr.Vector (vector.ExtractLane op lane)) (V128 ∷ []) ((lanes (extracted op)).1 ∷ []) }
    ensures extract_lane_past_the_last { (op : LaneExtract) (lane : ℕ) → (lanes (extracted op)).0 ≤ lane → HasNoType
        (instr.Vector (vector.ExtractLane op lane)) }
    ensures replace_lane { (ty : LaneShape) (lane : ℕ) → lane < (lanes ty).0 → HasOnlyType (instr.Vector (vector.ReplaceLane ty lane)) (V128
        ∷ (lanes ty).1 ∷ []) (V128 ∷ []) }
    ensures replace_lane_past_the_last { (ty : LaneShape) (lane : ℕ) → (lanes ty).0 ≤ lane → HasNoType
        (instr.Vector (vector.ReplaceLane ty lane)) }
{}

fn shuffles()
    ensures of_the_last_lane { HasType (instr.Vector (vector.Shuffle (replicate 16 31))) (V128 ∷ V128 ∷ []) (V128 ∷ []) }
    ensures with_the_first_lane_too_high { HasNoType (instr.Vector (vector.Shuffle (32 ∷ replicate 15 0))) }
    ensures with_the_last_lane_too_high { HasNoType (instr.Vector (vector.Shuffle (replicate 15 0 ++ 32 ∷ []))) }
    ensures of_one { TakesNot (instr.Vector (vector.Shuffle (replicate 16 31))) (V128 ∷ []) }
    ensures of_a_number { TakesNot (instr.Vector (vector.Shuffle (replicate 16 31))) (V128 ∷ I64 ∷ []) }
    ensures to_i32 { LeavesNot (instr.Vector (vector.Shuffle (replicate 16 31))) (I32 ∷ []) }
{}
