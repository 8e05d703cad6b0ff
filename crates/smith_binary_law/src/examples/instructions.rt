ghost use Rattle.std.specs.Prelude.{ℕ, List, [], ◌∷◌};
ghost use Rattle.smith_instr.specs.declared.instr.Instr.TheVariants as instr;
ghost use Rattle.smith_binary_instr.specs.Instructions.{IsInstr, IsInstrWritten};
ghost use Rattle.smith_binary_law.specs.ExampleInstructions.{add, all_true, cast};
ghost use Rattle.smith_binary_law.specs.ExampleInstructions.{load_word, saturating};

fn operators()
    ensures sum { IsInstr add (0x6A ∷ []) }
    ensures difference_as_sum { ¬ IsInstr add (0x6B ∷ []) }
    ensures saturating { IsInstr saturating (0xFC ∷ 0x03 ∷ []) }
    ensures number_in_two_bytes { IsInstr saturating (0xFC ∷ 0x83 ∷ 0x00 ∷ []) }
    ensures without_its_prefix { ¬ IsInstr saturating (0x03 ∷ []) }
    ensures number_above_127 { IsInstr all_true (0xFD ∷ 0x83 ∷ 0x01 ∷ []) }
{}

fn accesses()
    ensures first_memory { IsInstr (load_word 2 5 0) (0x28 ∷ 0x02 ∷ 0x05 ∷ []) }
    ensures first_memory_by_its_index { IsInstr (load_word 2 5 0) (0x28 ∷ 0x42 ∷ 0x00 ∷ 0x05 ∷ []) }
    ensures second_memory { IsInstr (load_word 2 5 1) (0x28 ∷ 0x42 ∷ 0x01 ∷ 0x05 ∷ []) }
    ensures offset_first { ¬ IsInstr (load_word 2 5 0) (0x28 ∷ 0x05 ∷ 0x02 ∷ []) }
    ensures first_memory_as_written { IsInstrWritten (load_word 2 5 0) (0x28 ∷ 0x02 ∷ 0x05 ∷ []) }
    ensures second_memory_as_written { IsInstrWritten (load_word 2 5 1)
        (0x28 ∷ 0x42 ∷ 0x01 ∷ 0x05 ∷ []) }
    ensures first_memory_is_not_named { ¬ IsInstrWritten (load_word 2 5 0)
        (0x28 ∷ 0x42 ∷ 0x00 ∷ 0x05 ∷ []) }
    ensures too_wide { (piece : List ℕ) → ¬ IsInstr (load_word 64 0 0) piece }
{}

fn branches()
    ensures labels { IsInstr (instr.BrTable (1 ∷ 0 ∷ []) 2)
        (0x0E ∷ 0x02 ∷ 0x01 ∷ 0x00 ∷ 0x02 ∷ []) }
    ensures indirect { IsInstr (instr.CallIndirect 1 3) (0x11 ∷ 0x03 ∷ 0x01 ∷ []) }
    ensures table_first { ¬ IsInstr (instr.CallIndirect 1 3) (0x11 ∷ 0x01 ∷ 0x03 ∷ []) }
    ensures on_cast { IsInstr (instr.BrOnCast cast) (0xFB ∷ 0x18 ∷ 0x01 ∷ 0x07 ∷ 0x6E ∷ 0x6C ∷ []) }
{}
