ghost use Rattle.std.specs.Prelude.{List, [], ◌∷◌};
ghost use Rattle.smith_types.specs.Expressions.{reference_to};
ghost use Rattle.smith_types.specs.Flags.{funcref};
ghost use Rattle.smith_types.specs.Syntax.value_type.HeapType.TheVariants.{Concrete};
ghost use Rattle.smith_types.specs.Syntax.value_type.ValType.{ValType};
ghost use Rattle.smith_types.specs.Syntax.value_type.ValType.TheVariants.{F32, I32, I64, Ref};
ghost use Rattle.smith_instr.specs.Contexts.{nullable_to};
ghost use Rattle.smith_instr.specs.InstrTypes.{HasInstrType};
ghost use Rattle.smith_instr.specs.declared.instr.Instr.TheVariants as instr;
ghost use Rattle.smith_instr_examples.specs.ExampleBodies.{some_func};
ghost use Rattle.smith_instr_examples.specs.ExampleManaged.{any_struct, external, managed, some_struct};

fn tables()
    ensures to_alike_labels { HasInstrType (managed ((I32 ∷ []) ∷ (I32 ∷ []) ∷ []) []) [] (instr.BrTable (0 ∷ 1 ∷ []) 0) (I64 ∷ I32 ∷ I32
        ∷ []) (F32 ∷ []) }
    ensures to_labels_above { HasInstrType (managed ((Ref funcref ∷ []) ∷ (some_func ∷ []) ∷ []) []) [] (instr.BrTable (0 ∷ []) 1)
        (some_func ∷ I32 ∷ []) [] }
    ensures to_the_last_alone { HasInstrType (managed ([] ∷ []) []) [] (instr.BrTable [] 0) (I32 ∷ []) [] }
    ensures to_labels_of_other_types { (results : List ValType) → ¬ HasInstrType (managed ((I32 ∷ []) ∷ (I64 ∷ []) ∷ []) []) []
        (instr.BrTable (0 ∷ []) 1) (I32 ∷ I32 ∷ []) results }
    ensures to_a_listed_label_of_another_type { (results : List ValType) → ¬ HasInstrType (managed ((I32 ∷ []) ∷ (I64 ∷ []) ∷ []) []) []
        (instr.BrTable (1 ∷ []) 0) (I32 ∷ I32 ∷ []) results }
    ensures to_labels_of_other_lengths { (operands results : List ValType) → ¬ HasInstrType (managed ([] ∷ (I32 ∷ []) ∷ []) []) []
        (instr.BrTable (0 ∷ []) 1) operands results }
    ensures without_an_index { (results : List ValType) → ¬ HasInstrType (managed ((I64 ∷ []) ∷ []) []) [] (instr.BrTable [] 0) (I64
        ∷ []) results }
    ensures by_a_wide_index { (results : List ValType) → ¬ HasInstrType (managed ([] ∷ []) []) [] (instr.BrTable [] 0) (I64 ∷ []) results }
    ensures past_the_last_label { (operands results : List ValType) → ¬ HasInstrType (managed ([] ∷ []) []) []
        (instr.BrTable (1 ∷ []) 0) operands results }
    ensures other_past_the_last_label { (operands results : List ValType) → ¬ HasInstrType (managed ([] ∷ []) []) []
        (instr.BrTable (0 ∷ []) 1) operands results }
{}

fn on_null()
    ensures with_a_value { HasInstrType (managed ((I32 ∷ []) ∷ []) []) [] (instr.BrOnNull 0) (I32 ∷ nullable_to (Concrete 0) ∷ []) (I32
        ∷ reference_to (Concrete 0) ∷ []) }
    ensures of_a_number { (results : List ValType) → ¬ HasInstrType (managed ([] ∷ []) []) [] (instr.BrOnNull 0) (I32 ∷ []) results }
    ensures reference_is_passed { (results : List ValType) → ¬ HasInstrType (managed ((Ref any_struct ∷ []) ∷ []) []) [] (instr.BrOnNull 0)
        (Ref any_struct ∷ []) results }
    ensures reference_is_dropped { ¬ HasInstrType (managed ([] ∷ []) []) [] (instr.BrOnNull 0) (Ref any_struct ∷ []) [] }
    ensures another_value { (results : List ValType) → ¬ HasInstrType (managed ((I64 ∷ []) ∷ []) []) [] (instr.BrOnNull 0) (I32
        ∷ Ref any_struct ∷ []) results }
    ensures past_the_last_type { (results : List ValType) → ¬ HasInstrType (managed ([] ∷ []) []) [] (instr.BrOnNull 0)
        (nullable_to (Concrete 8) ∷ []) results }
    ensures past_the_last_label { (operands results : List ValType) → ¬ HasInstrType (managed ([] ∷ []) []) []
        (instr.BrOnNull 1) operands results }
{}

fn on_non_null()
    ensures with_a_value { HasInstrType (managed ((I32 ∷ Ref some_struct ∷ []) ∷ []) []) [] (instr.BrOnNonNull 0) (I32 ∷ Ref any_struct
        ∷ []) (I32 ∷ []) }
    ensures to_a_label_that_may_be_null { HasInstrType (managed ((Ref any_struct ∷ []) ∷ []) []) [] (instr.BrOnNonNull 0) (Ref any_struct
        ∷ []) [] }
    ensures to_a_label_of_another_type { (results : List ValType) → ¬ HasInstrType (managed ((Ref external ∷ []) ∷ []) []) []
        (instr.BrOnNonNull 0) (Ref any_struct ∷ []) results }
    ensures to_a_label_of_a_number { (operands results : List ValType) → ¬ HasInstrType (managed ((I32 ∷ []) ∷ []) []) []
        (instr.BrOnNonNull 0) operands results }
    ensures null_is_left { ¬ HasInstrType (managed ((Ref some_struct ∷ []) ∷ []) []) [] (instr.BrOnNonNull 0) (Ref any_struct
        ∷ []) (Ref any_struct ∷ []) }
    ensures past_the_last_label { (operands results : List ValType) → ¬ HasInstrType (managed ((Ref any_struct ∷ []) ∷ []) []) []
        (instr.BrOnNonNull 1) operands results }
{}
