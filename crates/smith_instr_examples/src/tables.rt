ghost use Rattle.std.specs.Prelude.{[], ◌∷◌};
ghost use Rattle.smith_types.specs.Flags.{funcref};
ghost use Rattle.smith_types.specs.Syntax.value_type.ValType.TheVariants.{I32, I64, Ref};
ghost use Rattle.smith_instr.specs.declared.instr.Instr.TheVariants as instr;
ghost use Rattle.smith_instr.specs.declared.table.TableInstr.TheVariants as table;
ghost use Rattle.smith_instr_examples.specs.ExampleManaged.{external};
ghost use Rattle.smith_instr_examples.specs.ExampleTyping.{HasNoType, HasType, LeavesNot, TakesNot};

fn elements()
    ensures get { HasType (instr.Table (table.Get 0)) (I32 ∷ []) (Ref funcref ∷ []) }
    ensures get_of_external_references { HasType (instr.Table (table.Get 1)) (I32 ∷ []) (Ref external ∷ []) }
    ensures get_of_a_wide_table { HasType (instr.Table (table.Get 2)) (I64 ∷ []) (Ref funcref ∷ []) }
    ensures get_at_i64 { TakesNot (instr.Table (table.Get 0)) (I64 ∷ []) }
    ensures get_of_another_type { LeavesNot (instr.Table (table.Get 0)) (Ref external ∷ []) }
    ensures get_without_an_index { TakesNot (instr.Table (table.Get 0)) [] }
    ensures get_past_the_last { HasNoType (instr.Table (table.Get 3)) }
    ensures set_of_a_wide_table { HasType (instr.Table (table.Set 2)) (I64 ∷ Ref funcref ∷ []) [] }
    ensures set_of_a_wide_table_at_i32 { TakesNot (instr.Table (table.Set 2)) (I32 ∷ Ref funcref ∷ []) }
    ensures set_without_a_reference { TakesNot (instr.Table (table.Set 0)) (I32 ∷ []) }
    ensures set_to_one { LeavesNot (instr.Table (table.Set 0)) (Ref funcref ∷ []) }
    ensures set_past_the_last { HasNoType (instr.Table (table.Set 3)) }
{}

fn sizes()
    ensures size { HasType (instr.Table (table.Size 0)) [] (I32 ∷ []) }
    ensures size_to_i64 { LeavesNot (instr.Table (table.Size 0)) (I64 ∷ []) }
    ensures size_past_the_last { HasNoType (instr.Table (table.Size 3)) }
    ensures grow { HasType (instr.Table (table.Grow 0)) (Ref funcref ∷ I32 ∷ []) (I32 ∷ []) }
    ensures grow_of_a_wide_table { HasType (instr.Table (table.Grow 2)) (Ref funcref ∷ I64 ∷ []) (I64 ∷ []) }
    ensures grow_of_a_wide_table_by_i32 { TakesNot (instr.Table (table.Grow 2)) (Ref funcref ∷ I32 ∷ []) }
    ensures grow_of_a_wide_table_to_i32 { LeavesNot (instr.Table (table.Grow 2)) (I32 ∷ []) }
    ensures grow_with_another_type { TakesNot (instr.Table (table.Grow 0)) (Ref external ∷ I32 ∷ []) }
    ensures grow_past_the_last { HasNoType (instr.Table (table.Grow 3)) }
{}

fn fills()
    ensures fill { HasType (instr.Table (table.Fill 0)) (I32 ∷ Ref funcref ∷ I32 ∷ []) [] }
    ensures fill_at_i64 { TakesNot (instr.Table (table.Fill 0)) (I64 ∷ Ref funcref ∷ I32 ∷ []) }
    ensures fill_without_a_size { TakesNot (instr.Table (table.Fill 0)) (I32 ∷ Ref funcref ∷ []) }
    ensures fill_to_one { LeavesNot (instr.Table (table.Fill 0)) (I32 ∷ []) }
    ensures fill_past_the_last { HasNoType (instr.Table (table.Fill 3)) }
{}

fn copies()
    ensures from_narrow_to_narrow { HasType (instr.Table (table.Copy 0 0)) (I32 ∷ I32 ∷ I32 ∷ []) [] }
    ensures from_narrow_to_narrow_by_i64 { TakesNot (instr.Table (table.Copy 0 0)) (I32 ∷ I32 ∷ I64 ∷ []) }
    ensures from_narrow_to_narrow_at_another_index { TakesNot (instr.Table (table.Copy 0 0)) (I64 ∷ I32 ∷ I32 ∷ []) }
    ensures from_wide_to_narrow { HasType (instr.Table (table.Copy 0 2)) (I32 ∷ I64 ∷ I32 ∷ []) [] }
    ensures from_wide_to_narrow_by_i64 { TakesNot (instr.Table (table.Copy 0 2)) (I32 ∷ I64 ∷ I64 ∷ []) }
    ensures from_wide_to_narrow_at_another_index { TakesNot (instr.Table (table.Copy 0 2)) (I64 ∷ I64 ∷ I32 ∷ []) }
    ensures from_narrow_to_wide { HasType (instr.Table (table.Copy 2 0)) (I64 ∷ I32 ∷ I32 ∷ []) [] }
    ensures from_narrow_to_wide_by_i64 { TakesNot (instr.Table (table.Copy 2 0)) (I64 ∷ I32 ∷ I64 ∷ []) }
    ensures from_narrow_to_wide_at_another_index { TakesNot (instr.Table (table.Copy 2 0)) (I32 ∷ I32 ∷ I32 ∷ []) }
    ensures from_wide_to_wide { HasType (instr.Table (table.Copy 2 2)) (I64 ∷ I64 ∷ I64 ∷ []) [] }
    ensures from_wide_to_wide_by_i32 { TakesNot (instr.Table (table.Copy 2 2)) (I64 ∷ I64 ∷ I32 ∷ []) }
    ensures from_wide_to_wide_at_another_index { TakesNot (instr.Table (table.Copy 2 2)) (I32 ∷ I64 ∷ I64 ∷ []) }
    ensures into_past_the_last { HasNoType (instr.Table (table.Copy 3 0)) }
    ensures from_past_the_last { HasNoType (instr.Table (table.Copy 0 3)) }
{}

fn segments()
    ensures init_of_a_wide_table { HasType (instr.Table (table.Init 2 0)) (I64 ∷ I32 ∷ I32 ∷ []) [] }
    ensures init_from_i64 { TakesNot (instr.Table (table.Init 2 0)) (I64 ∷ I64 ∷ I32 ∷ []) }
    ensures init_by_i64 { TakesNot (instr.Table (table.Init 2 0)) (I64 ∷ I32 ∷ I64 ∷ []) }
    ensures init_to_one { LeavesNot (instr.Table (table.Init 0 0)) (I32 ∷ []) }
    ensures init_past_the_last { HasNoType (instr.Table (table.Init 3 0)) }
    ensures drop_of_one { TakesNot (instr.Table (table.ElemDrop 0)) (I32 ∷ []) }
    ensures drop_to_one { LeavesNot (instr.Table (table.ElemDrop 0)) (I32 ∷ []) }
{}
