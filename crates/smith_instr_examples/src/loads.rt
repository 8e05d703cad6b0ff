ghost use Rattle.std.specs.List.{AllByRecursion as Each};
ghost use Rattle.std.specs.Prelude.{◌≡◌, ◌≤◌, ◌<◌, ℕ, [], ◌∷◌};
ghost use Rattle.smith_types.specs.Syntax.value_type.ValType.TheVariants.{F32, F64, I32, I64};
ghost use Rattle.smith_instr.specs.declared.instr.Instr.TheVariants as instr;
ghost use Rattle.smith_instr.specs.declared.memory.Load.TheVariants as load;
ghost use Rattle.smith_instr.specs.declared.memory.Load.{Load};
ghost use Rattle.smith_instr_examples.specs.ExampleBodies.{aligned};
ghost use Rattle.smith_instr_examples.specs.ExampleTyping.{HasNoType, HasOnlyType};
ghost use Rattle.smith_types.specs.Syntax.value_type.ValType.{ValType};
ghost use Rattle.smith_instr.specs.MemoryTypes.{loaded};

fn values()
    ensures of_each { Each (λ (row : Load × ValType × ℕ). loaded row.0 ≡ (row.1, row.2)) ((load.I32, I32, 2) ∷ (load.I64, I64, 3)
        ∷ (load.F32, F32, 2) ∷ (load.F64, F64, 3) ∷ (load.I32From8S, I32, 0) ∷ (load.I32From8U, I32, 0) ∷ (load.I32From16S, I32, 1)
        ∷ (load.I32From16U, I32, 1) ∷ (load.I64From8S, I64, 0) ∷ (load.I64From8U, I64, 0) ∷ (load.I64From16S, I64, 1)
        ∷ (load.I64From16U, I64, 1) ∷ (load.I64From32S, I64, 2) ∷ (load.I64From32U, I64, 2) ∷ []) }
{}

fn aligned_loads()
    ensures of_a_narrow_memory { (op : Load) (align : ℕ) → align ≤ (loaded op).1 → HasOnlyType (instr.Load op (aligned 0 align)) (I32
        ∷ []) ((loaded op).0 ∷ []) }
    ensures of_a_wide_memory { (op : Load) (align : ℕ) → align ≤ (loaded op).1 → HasOnlyType (instr.Load op (aligned 1 align)) (I64
        ∷ []) ((loaded op).0 ∷ []) }
    ensures above_its_alignment { (op : Load) (memory align : ℕ) → (loaded op).1 < align → HasNoType
        (instr.Load op (aligned memory align)) }
    ensures past_the_last_memory { (op : Load) → HasNoType (instr.Load op (aligned 2 0)) }
    ensures offset_too_high_for_a_narrow_memory { (op : Load) → HasNoType (instr.Load op (record (aligned 0 0) { offset = 4294967296 })) }
    ensures offset_too_high_for_a_wide_memory { (op : Load) → HasNoType
        (instr.Load op (record (aligned 1 0) { offset = 18446744073709551616 })) }
{}

fn of_the_last_offset()
    ensures i64_load8_s { HasOnlyType (instr.Load load.I64From8S (record (aligned 0 0) { offset = 4294967295 })) (I32 ∷ []) (I64 ∷ []) }
    ensures i64_load8_s_of_a_wide_memory { HasOnlyType (instr.Load load.I64From8S (record (aligned 1 0) { offset = 18446744073709551615 }))
        (I64 ∷ []) (I64 ∷ []) }
{}
