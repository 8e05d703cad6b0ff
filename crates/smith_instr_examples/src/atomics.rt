ghost use Rattle.std.specs.List.{AllByRecursion as Each};
ghost use Rattle.smith_instr.specs.MemoryTypes.{atomic_width};
ghost use Rattle.std.specs.Prelude.{◌≡◌, [], ◌∷◌, ℕ};
ghost use Rattle.smith_types.specs.Syntax.value_type.ValType.TheVariants.{I32, I64};
ghost use Rattle.smith_types.specs.Syntax.value_type.ValType.{ValType};
ghost use Rattle.smith_instr.specs.declared.atomic.AtomicAccess.TheVariants as atomic;
ghost use Rattle.smith_instr.specs.declared.atomic.AtomicUpdate.{AtomicUpdate};
ghost use Rattle.smith_instr.specs.declared.atomic.AtomicWidth.TheVariants as width;
ghost use Rattle.smith_instr.specs.declared.atomic.AtomicWidth.{AtomicWidth};
ghost use Rattle.smith_instr.specs.declared.instr.Instr.TheVariants as instr;
ghost use Rattle.smith_instr_examples.specs.ExampleBodies.{aligned};
ghost use Rattle.smith_instr_examples.specs.ExampleTyping.{HasNoType, HasOnlyType, TakesNot};

fn widths()
    ensures of_each { Each (λ (row : AtomicWidth × ValType × ℕ). atomic_width row.0 ≡ (row.1, row.2)) ((width.I32, I32, 2)
        ∷ (width.I64, I64, 3) ∷ (width.I32Of8, I32, 0) ∷ (width.I32Of16, I32, 1) ∷ (width.I64Of8, I64, 0) ∷ (width.I64Of16, I64, 1)
        ∷ (width.I64Of32, I64, 2) ∷ []) }
{}

fn aligned_accesses()
    ensures load { (op : AtomicWidth) → HasOnlyType (instr.Atomic (atomic.Load op) (aligned 0 (atomic_width op).1)) (I32
        ∷ []) ((atomic_width op).0 ∷ []) }
    ensures store { (op : AtomicWidth) → HasOnlyType (instr.Atomic (atomic.Store op) (aligned 1 (atomic_width op).1)) (I64
        ∷ (atomic_width op).0 ∷ []) [] }
    ensures update { (op : AtomicWidth) (update : AtomicUpdate) → HasOnlyType
        (instr.Atomic (atomic.Update update op) (aligned 0 (atomic_width op).1)) (I32 ∷ (atomic_width op).0 ∷ []) ((atomic_width op).0
        ∷ []) }
    ensures exchange { (op : AtomicWidth) → HasOnlyType (instr.Atomic (atomic.CompareExchange op) (aligned 0 (atomic_width op).1)) (I32
        ∷ (atomic_width op).0 ∷ (atomic_width op).0 ∷ []) ((atomic_width op).0 ∷ []) }
{}

fn of_other_alignments()
    ensures load { (op : AtomicWidth) (memory align : ℕ) → ¬ align ≡ (atomic_width op).1 → HasNoType
        (instr.Atomic (atomic.Load op) (aligned memory align)) }
    ensures store { (op : AtomicWidth) (memory align : ℕ) → ¬ align ≡ (atomic_width op).1 → HasNoType
        (instr.Atomic (atomic.Store op) (aligned memory align)) }
    ensures update { (op : AtomicWidth) (update : AtomicUpdate) (memory align : ℕ) → ¬ align ≡ (atomic_width op).1 → HasNoType
        (instr.Atomic (atomic.Update update op) (aligned memory align)) }
    ensures exchange { (op : AtomicWidth) (memory align : ℕ) → ¬ align ≡ (atomic_width op).1 → HasNoType
        (instr.Atomic (atomic.CompareExchange op) (aligned memory align)) }
    ensures notify { (memory align : ℕ) → ¬ align ≡ 2 → HasNoType (instr.Atomic atomic.Notify (aligned memory align)) }
    ensures wait32 { (memory align : ℕ) → ¬ align ≡ 2 → HasNoType (instr.Atomic atomic.Wait32 (aligned memory align)) }
    ensures wait64 { (memory align : ℕ) → ¬ align ≡ 3 → HasNoType (instr.Atomic atomic.Wait64 (aligned memory align)) }
{}

fn at_other_addresses()
    ensures load_at_a_wide_address { (op : AtomicWidth) (align : ℕ) → TakesNot (instr.Atomic (atomic.Load op) (aligned 0 align)) (I64
        ∷ []) }
    ensures load_at_a_narrow_address_of_a_wide_memory { (op : AtomicWidth) (align : ℕ) → TakesNot
        (instr.Atomic (atomic.Load op) (aligned 1 align)) (I32 ∷ []) }
    ensures load_past_the_last_memory { (op : AtomicWidth) (align : ℕ) → HasNoType (instr.Atomic (atomic.Load op) (aligned 2 align)) }
    ensures load_of_none { (op : AtomicWidth) (align : ℕ) → TakesNot (instr.Atomic (atomic.Load op) (aligned 0 align)) [] }
    ensures store_at_a_wide_address { (op : AtomicWidth) (value : ValType) (align : ℕ) → TakesNot
        (instr.Atomic (atomic.Store op) (aligned 0 align)) (I64 ∷ value ∷ []) }
    ensures store_at_a_narrow_address_of_a_wide_memory { (op : AtomicWidth) (value : ValType) (align : ℕ) → TakesNot
        (instr.Atomic (atomic.Store op) (aligned 1 align)) (I32 ∷ value ∷ []) }
    ensures store_past_the_last_memory { (op : AtomicWidth) (align : ℕ) → HasNoType (instr.Atomic (atomic.Store op) (aligned 2 align)) }
    ensures store_of_none { (op : AtomicWidth) (align : ℕ) → TakesNot (instr.Atomic (atomic.Store op) (aligned 0 align)) [] }
    ensures exchange_at_a_wide_address { (op : AtomicWidth) (value : ValType) (align : ℕ) → TakesNot
        (instr.Atomic (atomic.CompareExchange op) (aligned 0 align)) (I64 ∷ value ∷ value ∷ []) }
    ensures exchange_at_a_narrow_address_of_a_wide_memory { (op : AtomicWidth) (value : ValType) (align : ℕ) → TakesNot
        (instr.Atomic (atomic.CompareExchange op) (aligned 1 align)) (I32 ∷ value ∷ value ∷ []) }
    ensures exchange_past_the_last_memory { (op : AtomicWidth) (align : ℕ) → HasNoType
        (instr.Atomic (atomic.CompareExchange op) (aligned 2 align)) }
    ensures exchange_of_none { (op : AtomicWidth) (align : ℕ) → TakesNot (instr.Atomic (atomic.CompareExchange op) (aligned 0 align)) [] }
{}

fn waiting()
    ensures notify { HasOnlyType (instr.Atomic atomic.Notify (aligned 0 2)) (I32 ∷ I32 ∷ []) (I32 ∷ []) }
    ensures notify_in_a_wide_memory { HasOnlyType (instr.Atomic atomic.Notify (aligned 1 2)) (I64 ∷ I32 ∷ []) (I32 ∷ []) }
    ensures wait32 { HasOnlyType (instr.Atomic atomic.Wait32 (aligned 0 2)) (I32 ∷ I32 ∷ I64 ∷ []) (I32 ∷ []) }
    ensures wait32_in_a_wide_memory { HasOnlyType (instr.Atomic atomic.Wait32 (aligned 1 2)) (I64 ∷ I32 ∷ I64 ∷ []) (I32 ∷ []) }
    ensures wait64 { HasOnlyType (instr.Atomic atomic.Wait64 (aligned 0 3)) (I32 ∷ I64 ∷ I64 ∷ []) (I32 ∷ []) }
{}

fn fences()
    ensures fence { HasOnlyType instr.AtomicFence [] [] }
{}
