ghost use Rattle.std.specs.Prelude.{List, [], ◌∷◌};
ghost use Rattle.smith_types.specs.Flags.{funcref};
ghost use Rattle.smith_types.specs.Syntax.value_type.ValType.{ValType};
ghost use Rattle.smith_types.specs.Syntax.value_type.ValType.TheVariants.{I32, I64, Ref};
ghost use Rattle.smith_instr.specs.InstrTypes.{HasInstrType};
ghost use Rattle.smith_instr.specs.declared.instr.Instr.TheVariants as instr;
ghost use Rattle.smith_instr.specs.declared.memory.MemoryInstr.TheVariants as memory;
ghost use Rattle.smith_instr.specs.declared.table.TableInstr.TheVariants as table;
ghost use Rattle.smith_instr_examples.specs.ExampleManaged.{external, managed};

fn tables()
    ensures set { HasInstrType (managed [] []) [] (instr.Table (table.Set 0)) (I32 ∷ Ref funcref ∷ []) [] }
    ensures set_to_another_type { (results : List ValType) → ¬ HasInstrType (managed [] []) [] (instr.Table (table.Set 0)) (I32
        ∷ Ref external ∷ []) results }
    ensures read_by_a_narrow_index_of_a_wide_table { (results : List ValType) → ¬ HasInstrType (managed [] []) []
        (instr.Table (table.Get 2)) (I32 ∷ []) results }
    ensures wide_size { HasInstrType (managed [] []) [] (instr.Table (table.Size 2)) [] (I64 ∷ []) }
    ensures narrow_size_of_a_wide_table { ¬ HasInstrType (managed [] []) [] (instr.Table (table.Size 2)) [] (I32 ∷ []) }
    ensures grown_by_the_size_first { (results : List ValType) → ¬ HasInstrType (managed [] []) [] (instr.Table (table.Grow 0)) (I32
        ∷ Ref funcref ∷ []) results }
    ensures filled { HasInstrType (managed [] []) [] (instr.Table (table.Fill 2)) (I64 ∷ Ref funcref ∷ I64 ∷ []) [] }
    ensures filled_by_a_narrow_size { (results : List ValType) → ¬ HasInstrType (managed [] []) [] (instr.Table (table.Fill 2)) (I64
        ∷ Ref funcref ∷ I32 ∷ []) results }
    ensures filled_with_another_type { (results : List ValType) → ¬ HasInstrType (managed [] []) [] (instr.Table (table.Fill 0)) (I32
        ∷ Ref external ∷ I32 ∷ []) results }
    ensures copied { HasInstrType (managed [] []) [] (instr.Table (table.Copy 0 2)) (I32 ∷ I64 ∷ I32 ∷ []) [] }
    ensures copied_by_the_wider { (results : List ValType) → ¬ HasInstrType (managed [] []) [] (instr.Table (table.Copy 0 2)) (I32 ∷ I64
        ∷ I64 ∷ []) results }
    ensures copied_with_addresses_exchanged { (results : List ValType) → ¬ HasInstrType (managed [] []) [] (instr.Table (table.Copy 0 2))
        (I64 ∷ I32 ∷ I32 ∷ []) results }
    ensures copied_from_another_type { (operands results : List ValType) → ¬ HasInstrType (managed [] []) []
        (instr.Table (table.Copy 0 1)) operands results }
    ensures initialised { HasInstrType (managed [] []) [] (instr.Table (table.Init 0 0)) (I32 ∷ I32 ∷ I32 ∷ []) [] }
    ensures initialised_from_another_type { (operands results : List ValType) → ¬ HasInstrType (managed [] []) []
        (instr.Table (table.Init 0 1)) operands results }
    ensures initialised_past_the_last_segment { (operands results : List ValType) → ¬ HasInstrType (managed [] []) []
        (instr.Table (table.Init 0 3)) operands results }
    ensures initialised_at_a_narrow_address_of_a_wide_table { (results : List ValType) → ¬ HasInstrType (managed [] []) []
        (instr.Table (table.Init 2 0)) (I32 ∷ I32 ∷ I32 ∷ []) results }
{}

fn memories()
    ensures grown { HasInstrType (managed [] []) [] (instr.Memory (memory.Grow 1)) (I64 ∷ []) (I64 ∷ []) }
    ensures grown_by_a_narrow_size { (results : List ValType) → ¬ HasInstrType (managed [] []) [] (instr.Memory (memory.Grow 1)) (I32
        ∷ []) results }
    ensures grown_past_the_last { (operands results : List ValType) → ¬ HasInstrType (managed [] []) []
        (instr.Memory (memory.Grow 2)) operands results }
    ensures filled { HasInstrType (managed [] []) [] (instr.Memory (memory.Fill 1)) (I64 ∷ I32 ∷ I64 ∷ []) [] }
    ensures filled_with_a_wide_value { (results : List ValType) → ¬ HasInstrType (managed [] []) [] (instr.Memory (memory.Fill 1)) (I64
        ∷ I64 ∷ I64 ∷ []) results }
    ensures filled_by_a_narrow_size { (results : List ValType) → ¬ HasInstrType (managed [] []) [] (instr.Memory (memory.Fill 1)) (I64 ∷ I32
        ∷ I32 ∷ []) results }
    ensures initialised { HasInstrType (managed [] []) [] (instr.Memory (memory.Init 1 0)) (I64 ∷ I32 ∷ I32 ∷ []) [] }
    ensures initialised_by_a_wide_size { (results : List ValType) → ¬ HasInstrType (managed [] []) [] (instr.Memory (memory.Init 1 0)) (I64
        ∷ I32 ∷ I64 ∷ []) results }
    ensures last_segment_dropped { HasInstrType (managed [] []) [] (instr.Memory (memory.DataDrop 0)) [] [] }
    ensures past_the_last_segment { (operands results : List ValType) → ¬ HasInstrType (managed [] []) []
        (instr.Memory (memory.DataDrop 1)) operands results }
{}
