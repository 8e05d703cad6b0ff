ghost use Rattle.std.specs.Prelude.{List, [], ◌∷◌};
ghost use Rattle.smith_types.specs.ExampleTypes.{anyref};
ghost use Rattle.smith_types.specs.Flags.{funcref};
ghost use Rattle.smith_types.specs.Syntax.value_type.HeapType.TheVariants.{Concrete};
ghost use Rattle.smith_types.specs.Syntax.value_type.ValType.{ValType};
ghost use Rattle.smith_types.specs.Syntax.value_type.ValType.TheVariants.{F32, I32, I64, Ref};
ghost use Rattle.smith_instr.specs.Contexts.{nullable_to};
ghost use Rattle.smith_instr.specs.InstrTypes.{HasInstrType};
ghost use Rattle.smith_instr.specs.declared.instr.Instr.TheVariants as instr;
ghost use Rattle.smith_instr_examples.specs.ExampleBodies.{function_of, some_func};
ghost use Rattle.smith_instr_examples.specs.ExampleManaged.{managed};

fn parametric()
    ensures nop { HasInstrType (managed [] []) [] instr.Nop [] [] }
    ensures nop_leaves_nothing { ¬ HasInstrType (managed [] []) [] instr.Nop [] (I32 ∷ []) }
    ensures typed_select { HasInstrType (managed [] []) [] (instr.SelectTyped (anyref ∷ [])) (anyref ∷ anyref ∷ I32 ∷ []) (anyref ∷ []) }
    ensures typed_select_of_another_type { (results : List ValType) → ¬ HasInstrType (managed [] []) [] (instr.SelectTyped (anyref ∷ []))
        (anyref ∷ Ref funcref ∷ I32 ∷ []) results }
    ensures typed_select_of_no_type { (operands results : List ValType) → ¬ HasInstrType (managed [] []) []
        (instr.SelectTyped (nullable_to (Concrete 8) ∷ [])) operands results }
    ensures returned { HasInstrType (managed [] (I32 ∷ [])) [] instr.Return (I64 ∷ I32 ∷ []) (F32 ∷ []) }
    ensures returned_without_a_value { (results : List ValType) → ¬ HasInstrType (managed [] (I32 ∷ [])) [] instr.Return [] results }
{}

fn locals()
    ensures kept { HasInstrType (function_of (some_func ∷ []) []) [] (instr.LocalTee 0) (some_func ∷ []) (some_func ∷ []) }
    ensures kept_of_another_type { (results : List ValType) → ¬ HasInstrType (function_of (I64 ∷ []) []) [] (instr.LocalTee 0) (I32
        ∷ []) results }
    ensures kept_past_the_last { (operands results : List ValType) → ¬ HasInstrType (function_of (I64 ∷ []) []) []
        (instr.LocalTee 1) operands results }
    ensures not_kept { ¬ HasInstrType (function_of (I64 ∷ []) []) [] (instr.LocalTee 0) (I64 ∷ []) [] }
    ensures set_past_the_last { (operands results : List ValType) → ¬ HasInstrType (function_of (I64 ∷ []) []) []
        (instr.LocalSet 1) operands results }
    ensures parameter_is_read { HasInstrType (record (function_of (some_func ∷ []) []) { params = 1 }) [] (instr.LocalGet 0) [] (some_func
        ∷ []) }
{}
