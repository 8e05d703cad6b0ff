ghost use Rattle.std.specs.Prelude.{List, [], ◌∷◌};
ghost use Rattle.smith_types.specs.Flags.{funcref};
ghost use Rattle.smith_types.specs.Syntax.value_type.HeapType.TheVariants.{Concrete};
ghost use Rattle.smith_types.specs.Syntax.value_type.ValType.{ValType};
ghost use Rattle.smith_types.specs.Syntax.value_type.ValType.TheVariants.{F32, I32, I64, Ref};
ghost use Rattle.smith_instr.specs.Contexts.{nullable_to};
ghost use Rattle.smith_instr.specs.InstrTypes.{HasInstrType};
ghost use Rattle.smith_instr.specs.declared.instr.Instr.TheVariants as instr;
ghost use Rattle.smith_instr_examples.specs.ExampleManaged.{managed};

fn indirect()
    ensures by_a_table { HasInstrType (managed [] []) [] (instr.CallIndirect 0 6) (I64 ∷ I32 ∷ []) (I32 ∷ []) }
    ensures by_a_wide_table { HasInstrType (managed [] []) [] (instr.CallIndirect 2 6) (I64 ∷ I64 ∷ []) (I32 ∷ []) }
    ensures by_a_narrow_index_of_a_wide_table { (results : List ValType) → ¬ HasInstrType (managed [] []) [] (instr.CallIndirect 2 6) (I64
        ∷ I32 ∷ []) results }
    ensures by_a_wide_index_of_a_narrow_table { (results : List ValType) → ¬ HasInstrType (managed [] []) [] (instr.CallIndirect 0 6) (I64
        ∷ I64 ∷ []) results }
    ensures of_external_references { (operands results : List ValType) → ¬ HasInstrType (managed [] []) []
        (instr.CallIndirect 1 6) operands results }
    ensures past_the_last_table { (operands results : List ValType) → ¬ HasInstrType (managed [] []) []
        (instr.CallIndirect 3 6) operands results }
    ensures of_a_struct { (operands results : List ValType) → ¬ HasInstrType (managed [] []) [] (instr.CallIndirect 0 0) operands results }
    ensures index_first { (results : List ValType) → ¬ HasInstrType (managed [] []) [] (instr.CallIndirect 0 6) (I32 ∷ I64 ∷ []) results }
    ensures without_an_index { (results : List ValType) → ¬ HasInstrType (managed [] []) [] (instr.CallIndirect 0 6) (I64 ∷ []) results }
    ensures another_result { ¬ HasInstrType (managed [] []) [] (instr.CallIndirect 0 6) (I64 ∷ I32 ∷ []) (I64 ∷ []) }
    ensures past_the_last_type { (operands results : List ValType) → ¬ HasInstrType (managed [] []) []
        (instr.CallIndirect 0 8) operands results }
{}

fn by_reference()
    ensures of_its_type { HasInstrType (managed [] []) [] (instr.CallRef 6) (I64 ∷ nullable_to (Concrete 6) ∷ []) (I32 ∷ []) }
    ensures of_another_type { (results : List ValType) → ¬ HasInstrType (managed [] []) [] (instr.CallRef 6) (I64 ∷ nullable_to (Concrete 7)
        ∷ []) results }
    ensures of_any_function { (results : List ValType) → ¬ HasInstrType (managed [] []) [] (instr.CallRef 6) (I64 ∷ Ref funcref
        ∷ []) results }
    ensures of_a_struct { (operands results : List ValType) → ¬ HasInstrType (managed [] []) [] (instr.CallRef 0) operands results }
    ensures reference_first { (results : List ValType) → ¬ HasInstrType (managed [] []) [] (instr.CallRef 6) (nullable_to (Concrete 6) ∷ I64
        ∷ []) results }
    ensures past_the_last_type { (operands results : List ValType) → ¬ HasInstrType (managed [] []) [] (instr.CallRef 8) operands results }
{}

fn tail()
    ensures call { HasInstrType (managed [] (I32 ∷ [])) [] (instr.ReturnCall 0) (I32 ∷ I64 ∷ []) (F32 ∷ []) }
    ensures call_with_another_operand { (results : List ValType) → ¬ HasInstrType (managed [] (I32 ∷ [])) [] (instr.ReturnCall 0) (I32
        ∷ []) results }
    ensures call_with_other_results { (operands results : List ValType) → ¬ HasInstrType (managed [] (I64 ∷ [])) []
        (instr.ReturnCall 0) operands results }
    ensures past_the_last { (operands results : List ValType) → ¬ HasInstrType (managed [] []) [] (instr.ReturnCall 2) operands results }
    ensures indirect { HasInstrType (managed [] (I32 ∷ [])) [] (instr.ReturnCallIndirect 0 6) (I32 ∷ I64 ∷ I32 ∷ []) (F32 ∷ []) }
    ensures indirect_with_other_results { (operands results : List ValType) → ¬ HasInstrType (managed [] []) []
        (instr.ReturnCallIndirect 0 6) operands results }
    ensures indirect_of_external_references { (operands results : List ValType) → ¬ HasInstrType (managed [] (I32 ∷ [])) []
        (instr.ReturnCallIndirect 1 6) operands results }
    ensures indirect_without_an_index { (results : List ValType) → ¬ HasInstrType (managed [] (I32 ∷ [])) [] (instr.ReturnCallIndirect 0 6)
        (I64 ∷ []) results }
    ensures reference { HasInstrType (managed [] (I32 ∷ [])) [] (instr.ReturnCallRef 6) (I64 ∷ nullable_to (Concrete 6) ∷ []) (F32 ∷ []) }
    ensures reference_with_other_results { (operands results : List ValType) → ¬ HasInstrType (managed [] (I64 ∷ [])) []
        (instr.ReturnCallRef 6) operands results }
    ensures reference_to_any_function { (results : List ValType) → ¬ HasInstrType (managed [] (I32 ∷ [])) [] (instr.ReturnCallRef 6) (I64
        ∷ Ref funcref ∷ []) results }
    ensures indirect_past_the_last_table { (operands results : List ValType) → ¬ HasInstrType (managed [] (I32 ∷ [])) []
        (instr.ReturnCallIndirect 3 6) operands results }
    ensures indirect_past_the_last_type { (operands results : List ValType) → ¬ HasInstrType (managed [] (I32 ∷ [])) []
        (instr.ReturnCallIndirect 0 8) operands results }
    ensures indirect_of_a_struct { (operands results : List ValType) → ¬ HasInstrType (managed [] (I32 ∷ [])) []
        (instr.ReturnCallIndirect 0 0) operands results }
    ensures reference_past_the_last_type { (operands results : List ValType) → ¬ HasInstrType (managed [] (I32 ∷ [])) []
        (instr.ReturnCallRef 8) operands results }
    ensures reference_of_a_struct { (operands results : List ValType) → ¬ HasInstrType (managed [] (I32 ∷ [])) []
        (instr.ReturnCallRef 0) operands results }
{}
