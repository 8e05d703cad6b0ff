ghost use Rattle.std.specs.Prelude.{List, [], ◌∷◌};
ghost use Rattle.smith_types.specs.ExampleTypes.{anyref, eqref, not_null, plain};
ghost use Rattle.smith_types.specs.Expressions.{reference_to};
ghost use Rattle.smith_types.specs.Flags.{funcref};
ghost use Rattle.smith_types.specs.Syntax.value_type.AbstractHeapType.TheVariants as heap;
ghost use Rattle.smith_types.specs.Syntax.value_type.HeapType.TheVariants.{Concrete};
ghost use Rattle.smith_types.specs.Syntax.value_type.ValType.{ValType};
ghost use Rattle.smith_types.specs.Syntax.value_type.ValType.TheVariants.{I32, I64, Ref};
ghost use Rattle.smith_instr.specs.Contexts.{nullable_to};
ghost use Rattle.smith_instr.specs.InstrTypes.{HasInstrType};
ghost use Rattle.smith_instr.specs.declared.aggregate.AggregateInstr.TheVariants as aggregate;
ghost use Rattle.smith_instr.specs.declared.instr.Instr.TheVariants as instr;
ghost use Rattle.smith_instr.specs.declared.reference.ReferenceInstr.TheVariants as reference;
ghost use Rattle.smith_instr_examples.specs.ExampleManaged.{anything, external, managed, something};

fn i31()
    ensures made { HasInstrType (managed [] []) [] (instr.Aggregate aggregate.RefI31) (I32 ∷ []) (reference_to (plain heap.I31) ∷ []) }
    ensures made_of_a_wide_number { (results : List ValType) → ¬ HasInstrType (managed [] []) [] (instr.Aggregate aggregate.RefI31) (I64
        ∷ []) results }
    ensures signed { HasInstrType (managed [] []) [] (instr.Aggregate aggregate.I31GetS) (nullable_to (plain heap.I31) ∷ []) (I32 ∷ []) }
    ensures unsigned { HasInstrType (managed [] []) [] (instr.Aggregate aggregate.I31GetU) (nullable_to (plain heap.I31) ∷ []) (I32 ∷ []) }
    ensures signed_of_a_type_above { (results : List ValType) → ¬ HasInstrType (managed [] []) [] (instr.Aggregate aggregate.I31GetS) (eqref
        ∷ []) results }
    ensures unsigned_of_a_type_above { (results : List ValType) → ¬ HasInstrType (managed [] []) [] (instr.Aggregate aggregate.I31GetU)
        (eqref ∷ []) results }
    ensures signed_wide { ¬ HasInstrType (managed [] []) [] (instr.Aggregate aggregate.I31GetS) (nullable_to (plain heap.I31) ∷ []) (I64
        ∷ []) }
{}

fn conversions()
    ensures inwards { HasInstrType (managed [] []) [] (instr.Aggregate aggregate.AnyConvertExtern) (Ref external ∷ []) (Ref anything ∷ []) }
    ensures inwards_without_null { HasInstrType (managed [] []) [] (instr.Aggregate aggregate.AnyConvertExtern)
        (Ref (not_null (plain heap.Extern)) ∷ []) (Ref something ∷ []) }
    ensures inwards_null_is_lost { ¬ HasInstrType (managed [] []) [] (instr.Aggregate aggregate.AnyConvertExtern) (Ref external
        ∷ []) (Ref something ∷ []) }
    ensures inwards_of_an_internal { (results : List ValType) → ¬ HasInstrType (managed [] []) []
        (instr.Aggregate aggregate.AnyConvertExtern) (Ref anything ∷ []) results }
    ensures inwards_to_a_type_below { ¬ HasInstrType (managed [] []) [] (instr.Aggregate aggregate.AnyConvertExtern) (Ref external
        ∷ []) (eqref ∷ []) }
    ensures outwards { HasInstrType (managed [] []) [] (instr.Aggregate aggregate.ExternConvertAny) (Ref anything ∷ []) (Ref external
        ∷ []) }
    ensures outwards_null_is_lost { ¬ HasInstrType (managed [] []) [] (instr.Aggregate aggregate.ExternConvertAny) (Ref anything
        ∷ []) (Ref (not_null (plain heap.Extern)) ∷ []) }
    ensures outwards_of_an_external { (results : List ValType) → ¬ HasInstrType (managed [] []) []
        (instr.Aggregate aggregate.ExternConvertAny) (Ref external ∷ []) results }
    ensures outwards_of_a_function { (results : List ValType) → ¬ HasInstrType (managed [] []) []
        (instr.Aggregate aggregate.ExternConvertAny) (Ref funcref ∷ []) results }
{}

fn nulls()
    ensures null { HasInstrType (managed [] []) [] (instr.Reference (reference.Null (Concrete 0))) [] (nullable_to (Concrete 0) ∷ []) }
    ensures null_of_no_type { (operands results : List ValType) → ¬ HasInstrType (managed [] []) []
        (instr.Reference (reference.Null (Concrete 8))) operands results }
    ensures null_is_not_null { ¬ HasInstrType (managed [] []) [] (instr.Reference (reference.Null (Concrete 0))) []
        (reference_to (Concrete 0) ∷ []) }
    ensures null_of_a_number { (results : List ValType) → ¬ HasInstrType (managed [] []) [] (instr.Reference reference.IsNull) (I32
        ∷ []) results }
    ensures equality { HasInstrType (managed [] []) [] (instr.Reference reference.Eq) (eqref ∷ eqref ∷ []) (I32 ∷ []) }
    ensures equality_of_any { (results : List ValType) → ¬ HasInstrType (managed [] []) [] (instr.Reference reference.Eq) (anyref ∷ eqref
        ∷ []) results }
    ensures equality_of_functions { (results : List ValType) → ¬ HasInstrType (managed [] []) [] (instr.Reference reference.Eq) (Ref funcref
        ∷ Ref funcref ∷ []) results }
{}
