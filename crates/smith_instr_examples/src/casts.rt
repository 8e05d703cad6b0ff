ghost use Rattle.std.specs.Prelude.{List, [], ◌∷◌};
ghost use Rattle.smith_types.specs.ExampleTypes.{not_null, nullable};
ghost use Rattle.smith_types.specs.Flags.{funcref};
ghost use Rattle.smith_types.specs.Syntax.value_type.HeapType.TheVariants.{Concrete};
ghost use Rattle.smith_types.specs.Syntax.value_type.ValType.{ValType};
ghost use Rattle.smith_types.specs.Syntax.value_type.ValType.TheVariants.{I32, I64, Ref};
ghost use Rattle.smith_instr.specs.Contexts.{nullable_to};
ghost use Rattle.smith_instr.specs.InstrTypes.{HasInstrType};
ghost use Rattle.smith_instr.specs.declared.instr.Instr.TheVariants as instr;
ghost use Rattle.smith_instr.specs.declared.reference.ReferenceInstr.TheVariants as reference;
ghost use Rattle.smith_instr_examples.specs.ExampleManaged.{any_struct, anything, casting, external, managed, some_struct, something};

fn tests()
    ensures downwards { HasInstrType (managed [] []) [] (instr.Reference (reference.Test some_struct)) (Ref anything ∷ []) (I32 ∷ []) }
    ensures of_another_hierarchy { (results : List ValType) → ¬ HasInstrType (managed [] []) []
        (instr.Reference (reference.Test some_struct)) (Ref external ∷ []) results }
    ensures past_the_last_type { (operands results : List ValType) → ¬ HasInstrType (managed [] []) []
        (instr.Reference (reference.Test (not_null (Concrete 8)))) operands results }
    ensures leaves_no_reference { ¬ HasInstrType (managed [] []) [] (instr.Reference (reference.Test some_struct)) (Ref anything
        ∷ []) (Ref some_struct ∷ []) }
{}

fn casts()
    ensures downwards { HasInstrType (managed [] []) [] (instr.Reference (reference.Cast some_struct)) (Ref anything ∷ []) (Ref some_struct
        ∷ []) }
    ensures of_another_hierarchy { (results : List ValType) → ¬ HasInstrType (managed [] []) []
        (instr.Reference (reference.Cast some_struct)) (Ref external ∷ []) results }
    ensures past_the_last_type { (operands results : List ValType) → ¬ HasInstrType (managed [] []) []
        (instr.Reference (reference.Cast (not_null (Concrete 8)))) operands results }
    ensures null_passes { ¬ HasInstrType (managed [] []) [] (instr.Reference (reference.Cast any_struct)) (Ref anything
        ∷ []) (Ref some_struct ∷ []) }
{}

fn branches_on_success()
    ensures null_stays { HasInstrType (managed ((I32 ∷ Ref any_struct ∷ []) ∷ []) []) [] (instr.BrOnCast (casting 0 anything some_struct))
        (I32 ∷ Ref anything ∷ []) (I32 ∷ Ref anything ∷ []) }
    ensures null_branches { HasInstrType (managed ((I32 ∷ Ref any_struct ∷ []) ∷ []) []) [] (instr.BrOnCast (casting 0 anything any_struct))
        (I32 ∷ Ref anything ∷ []) (I32 ∷ Ref something ∷ []) }
    ensures null_does_not_branch { ¬ HasInstrType (managed ((I32 ∷ Ref any_struct ∷ []) ∷ []) []) []
        (instr.BrOnCast (casting 0 anything some_struct)) (I32 ∷ Ref anything ∷ []) (I32 ∷ Ref something ∷ []) }
    ensures null_to_a_label_without { (operands results : List ValType) → ¬ HasInstrType (managed ((Ref some_struct ∷ []) ∷ []) []) []
        (instr.BrOnCast (casting 0 anything any_struct)) operands results }
    ensures of_another_hierarchy { (operands results : List ValType) → ¬ HasInstrType (managed ((Ref any_struct ∷ []) ∷ []) []) []
        (instr.BrOnCast (casting 0 external any_struct)) operands results }
    ensures upwards { (operands results : List ValType) → ¬ HasInstrType (managed ((Ref anything ∷ []) ∷ []) []) []
        (instr.BrOnCast (casting 0 any_struct anything)) operands results }
    ensures to_a_label_of_another_type { (operands results : List ValType) → ¬ HasInstrType (managed ((Ref funcref ∷ []) ∷ []) []) []
        (instr.BrOnCast (casting 0 anything some_struct)) operands results }
    ensures past_the_last_type { (operands results : List ValType) → ¬ HasInstrType (managed ((nullable_to (Concrete 8) ∷ []) ∷ []) []) []
        (instr.BrOnCast (casting 0 (nullable (Concrete 8)) (nullable (Concrete 8)))) operands results }
    ensures to_a_label_of_a_number { (operands results : List ValType) → ¬ HasInstrType (managed ((I64 ∷ []) ∷ []) []) []
        (instr.BrOnCast (casting 0 anything some_struct)) operands results }
    ensures past_the_last_label { (operands results : List ValType) → ¬ HasInstrType (managed ((Ref anything ∷ []) ∷ []) []) []
        (instr.BrOnCast (casting 1 anything some_struct)) operands results }
    ensures without_the_value_below { (results : List ValType) → ¬ HasInstrType (managed ((I32 ∷ Ref any_struct ∷ []) ∷ []) []) []
        (instr.BrOnCast (casting 0 anything some_struct)) (Ref anything ∷ []) results }
{}

fn branches_on_failure()
    ensures null_branches { HasInstrType (managed ((I32 ∷ Ref anything ∷ []) ∷ []) []) []
        (instr.BrOnCastFail (casting 0 anything some_struct)) (I32 ∷ Ref anything ∷ []) (I32 ∷ Ref some_struct ∷ []) }
    ensures null_stays { HasInstrType (managed ((I32 ∷ Ref something ∷ []) ∷ []) []) [] (instr.BrOnCastFail (casting 0 anything any_struct))
        (I32 ∷ Ref anything ∷ []) (I32 ∷ Ref any_struct ∷ []) }
    ensures null_to_a_label_without { (operands results : List ValType) → ¬ HasInstrType (managed ((Ref something ∷ []) ∷ []) []) []
        (instr.BrOnCastFail (casting 0 anything some_struct)) operands results }
    ensures past_the_last_type { (operands results : List ValType) → ¬ HasInstrType (managed ((nullable_to (Concrete 8) ∷ []) ∷ []) []) []
        (instr.BrOnCastFail (casting 0 (nullable (Concrete 8)) (nullable (Concrete 8)))) operands results }
    ensures label_of_a_success { (operands results : List ValType) → ¬ HasInstrType (managed ((Ref any_struct ∷ []) ∷ []) []) []
        (instr.BrOnCastFail (casting 0 anything some_struct)) operands results }
    ensures of_another_hierarchy { (operands results : List ValType) → ¬ HasInstrType (managed ((Ref external ∷ []) ∷ []) []) []
        (instr.BrOnCastFail (casting 0 external any_struct)) operands results }
    ensures upwards { (operands results : List ValType) → ¬ HasInstrType (managed ((Ref any_struct ∷ []) ∷ []) []) []
        (instr.BrOnCastFail (casting 0 any_struct anything)) operands results }
    ensures past_the_last_label { (operands results : List ValType) → ¬ HasInstrType (managed ((Ref anything ∷ []) ∷ []) []) []
        (instr.BrOnCastFail (casting 1 anything some_struct)) operands results }
    ensures null_passes { ¬ HasInstrType (managed ((Ref anything ∷ []) ∷ []) []) [] (instr.BrOnCastFail (casting 0 anything any_struct))
        (Ref anything ∷ []) (Ref some_struct ∷ []) }
{}
