ghost use Rattle.std.specs.List.{AllByRecursion as Each};
ghost use Rattle.std.specs.Prelude.{◌≡◌, ◌≤◌, ◌<◌, ℕ, [], ◌∷◌};
ghost use Rattle.smith_types.specs.Syntax.value_type.ValType.TheVariants.{F32, F64, I32, I64};
ghost use Rattle.smith_types.specs.Syntax.value_type.ValType.{ValType};
ghost use Rattle.smith_instr.specs.declared.instr.Instr.TheVariants as instr;
ghost use Rattle.smith_instr.specs.declared.memory.Store.TheVariants as store;
ghost use Rattle.smith_instr.specs.declared.memory.Store.{Store};
ghost use Rattle.smith_instr_examples.specs.ExampleBodies.{aligned};
ghost use Rattle.smith_instr_examples.specs.ExampleTyping.{HasNoType, HasOnlyType};
ghost use Rattle.smith_instr.specs.MemoryTypes.{stored};

fn values()
    ensures of_each { Each (λ (row : Store × ValType × ℕ). stored row.0 ≡ (row.1, row.2)) ((store.I32, I32, 2) ∷ (store.I64, I64, 3)
        ∷ (store.F32, F32, 2) ∷ (store.F64, F64, 3) ∷ (store.I32To8, I32, 0) ∷ (store.I32To16, I32, 1) ∷ (store.I64To8, I64, 0)
        ∷ (store.I64To16, I64, 1) ∷ (store.I64To32, I64, 2) ∷ []) }
{}

fn aligned_stores()
    ensures of_a_narrow_memory { (op : Store) (align : ℕ) → align ≤ (stored op).1 → HasOnlyType (instr.Store op (aligned 0 align)) (I32
        ∷ (stored op).0 ∷ []) [] }
    ensures of_a_wide_memory { (op : Store) (align : ℕ) → align ≤ (stored op).1 → HasOnlyType (instr.Store op (aligned 1 align)) (I64
        ∷ (stored op).0 ∷ []) [] }
    ensures above_its_alignment { (op : Store) (memory align : ℕ) → (stored op).1 < align → HasNoType
        (instr.Store op (aligned memory align)) }
    ensures past_the_last_memory { (op : Store) → HasNoType (instr.Store op (aligned 2 0)) }
    ensures offset_too_high_for_a_narrow_memory { (op : Store) → HasNoType (instr.Store op (record (aligned 0 0) { offset = 4294967296 })) }
    ensures offset_too_high_for_a_wide_memory { (op : Store) → HasNoType
        (instr.Store op (record (aligned 1 0) { offset = 18446744073709551616 })) }
{}
