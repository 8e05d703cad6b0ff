ghost use Rattle.std.specs.Prelude.{[], ◌∷◌};
ghost use Rattle.smith_types.specs.Syntax.value_type.ValType.TheVariants.{I32, I64};
ghost use Rattle.smith_instr.specs.declared.instr.Instr.TheVariants as instr;
ghost use Rattle.smith_instr.specs.declared.memory.MemoryInstr.TheVariants as memory;
ghost use Rattle.smith_instr_examples.specs.ExampleTyping.{HasNoType, HasType, LeavesNot, TakesNot};

fn sizes()
    ensures size { HasType (instr.Memory (memory.Size 0)) [] (I32 ∷ []) }
    ensures size_to_i64 { LeavesNot (instr.Memory (memory.Size 0)) (I64 ∷ []) }
    ensures size_of_one { TakesNot (instr.Memory (memory.Size 0)) (I32 ∷ []) }
    ensures size_past_the_last { HasNoType (instr.Memory (memory.Size 2)) }
    ensures grow { HasType (instr.Memory (memory.Grow 0)) (I32 ∷ []) (I32 ∷ []) }
    ensures grow_by_i64 { TakesNot (instr.Memory (memory.Grow 0)) (I64 ∷ []) }
    ensures grow_to_i64 { LeavesNot (instr.Memory (memory.Grow 0)) (I64 ∷ []) }
    ensures grow_of_a_wide_memory_to_i32 { LeavesNot (instr.Memory (memory.Grow 1)) (I32 ∷ []) }
    ensures grow_by_none { TakesNot (instr.Memory (memory.Grow 0)) [] }
{}

fn fills()
    ensures fill { HasType (instr.Memory (memory.Fill 0)) (I32 ∷ I32 ∷ I32 ∷ []) [] }
    ensures fill_at_i64 { TakesNot (instr.Memory (memory.Fill 0)) (I64 ∷ I32 ∷ I32 ∷ []) }
    ensures fill_of_i64 { TakesNot (instr.Memory (memory.Fill 0)) (I32 ∷ I32 ∷ I64 ∷ []) }
    ensures fill_of_a_wide_memory_at_i32 { TakesNot (instr.Memory (memory.Fill 1)) (I32 ∷ I32 ∷ I64 ∷ []) }
    ensures fill_without_a_size { TakesNot (instr.Memory (memory.Fill 0)) (I32 ∷ I32 ∷ []) }
    ensures fill_to_one { LeavesNot (instr.Memory (memory.Fill 0)) (I32 ∷ []) }
    ensures fill_past_the_last { HasNoType (instr.Memory (memory.Fill 2)) }
{}

fn copies()
    ensures from_narrow_to_narrow { HasType (instr.Memory (memory.Copy 0 0)) (I32 ∷ I32 ∷ I32 ∷ []) [] }
    ensures from_narrow_to_narrow_by_i64 { TakesNot (instr.Memory (memory.Copy 0 0)) (I32 ∷ I32 ∷ I64 ∷ []) }
    ensures from_narrow_to_narrow_at_another_address { TakesNot (instr.Memory (memory.Copy 0 0)) (I64 ∷ I32 ∷ I32 ∷ []) }
    ensures from_narrow_to_narrow_from_another_address { TakesNot (instr.Memory (memory.Copy 0 0)) (I32 ∷ I64 ∷ I32 ∷ []) }
    ensures from_wide_to_narrow { HasType (instr.Memory (memory.Copy 0 1)) (I32 ∷ I64 ∷ I32 ∷ []) [] }
    ensures from_wide_to_narrow_by_i64 { TakesNot (instr.Memory (memory.Copy 0 1)) (I32 ∷ I64 ∷ I64 ∷ []) }
    ensures from_wide_to_narrow_at_another_address { TakesNot (instr.Memory (memory.Copy 0 1)) (I64 ∷ I64 ∷ I32 ∷ []) }
    ensures from_wide_to_narrow_from_another_address { TakesNot (instr.Memory (memory.Copy 0 1)) (I32 ∷ I32 ∷ I32 ∷ []) }
    ensures from_narrow_to_wide { HasType (instr.Memory (memory.Copy 1 0)) (I64 ∷ I32 ∷ I32 ∷ []) [] }
    ensures from_narrow_to_wide_by_i64 { TakesNot (instr.Memory (memory.Copy 1 0)) (I64 ∷ I32 ∷ I64 ∷ []) }
    ensures from_narrow_to_wide_at_another_address { TakesNot (instr.Memory (memory.Copy 1 0)) (I32 ∷ I32 ∷ I32 ∷ []) }
    ensures from_narrow_to_wide_from_another_address { TakesNot (instr.Memory (memory.Copy 1 0)) (I64 ∷ I64 ∷ I32 ∷ []) }
    ensures from_wide_to_wide { HasType (instr.Memory (memory.Copy 1 1)) (I64 ∷ I64 ∷ I64 ∷ []) [] }
    ensures from_wide_to_wide_by_i32 { TakesNot (instr.Memory (memory.Copy 1 1)) (I64 ∷ I64 ∷ I32 ∷ []) }
    ensures from_wide_to_wide_at_another_address { TakesNot (instr.Memory (memory.Copy 1 1)) (I32 ∷ I64 ∷ I64 ∷ []) }
    ensures from_wide_to_wide_from_another_address { TakesNot (instr.Memory (memory.Copy 1 1)) (I64 ∷ I32 ∷ I64 ∷ []) }
{}

fn copies_otherwise()
    ensures to_one { LeavesNot (instr.Memory (memory.Copy 0 0)) (I32 ∷ []) }
    ensures without_a_size { TakesNot (instr.Memory (memory.Copy 0 0)) (I32 ∷ I32 ∷ []) }
    ensures into_past_the_last { HasNoType (instr.Memory (memory.Copy 2 0)) }
    ensures from_past_the_last { HasNoType (instr.Memory (memory.Copy 0 2)) }
{}

fn segments()
    ensures init { HasType (instr.Memory (memory.Init 0 0)) (I32 ∷ I32 ∷ I32 ∷ []) [] }
    ensures init_at_i64 { TakesNot (instr.Memory (memory.Init 0 0)) (I64 ∷ I32 ∷ I32 ∷ []) }
    ensures init_from_i64 { TakesNot (instr.Memory (memory.Init 0 0)) (I32 ∷ I64 ∷ I32 ∷ []) }
    ensures init_of_a_wide_memory_from_i64 { TakesNot (instr.Memory (memory.Init 1 0)) (I64 ∷ I64 ∷ I32 ∷ []) }
    ensures init_of_a_wide_memory_at_i32 { TakesNot (instr.Memory (memory.Init 1 0)) (I32 ∷ I32 ∷ I32 ∷ []) }
    ensures init_to_one { LeavesNot (instr.Memory (memory.Init 0 0)) (I32 ∷ []) }
    ensures init_past_the_last { HasNoType (instr.Memory (memory.Init 2 0)) }
    ensures drop { HasType (instr.Memory (memory.DataDrop 0)) [] [] }
    ensures drop_of_one { TakesNot (instr.Memory (memory.DataDrop 0)) (I32 ∷ []) }
    ensures drop_to_one { LeavesNot (instr.Memory (memory.DataDrop 0)) (I32 ∷ []) }
{}
