ghost use Rattle.std.specs.Prelude.{List, [], ◌∷◌};
ghost use Rattle.smith_types.specs.Expressions.{reference_to};
ghost use Rattle.smith_types.specs.Flags.{funcref};
ghost use Rattle.smith_types.specs.Syntax.value_type.HeapType.TheVariants.{Concrete};
ghost use Rattle.smith_types.specs.Syntax.value_type.ValType.{ValType};
ghost use Rattle.smith_types.specs.Syntax.value_type.ValType.TheVariants.{I32, I64, Ref};
ghost use Rattle.smith_instr.specs.InstrTypes.{HasInstrType};
ghost use Rattle.smith_instr.specs.declared.aggregate.AggregateInstr.TheVariants as aggregate;
ghost use Rattle.smith_instr.specs.declared.instr.Instr.TheVariants as instr;
ghost use Rattle.smith_instr_examples.specs.ExampleBodies.{some_func};
ghost use Rattle.smith_instr_examples.specs.ExampleManaged.{managed, some_struct};
ghost use Rattle.smith_instr_examples.specs.ExampleTyping.{HasNoType};

fn structs()
    ensures packed_first { HasInstrType (managed [] []) [] (instr.Aggregate (aggregate.StructNew 0)) (I32 ∷ I64 ∷ []) (Ref some_struct
        ∷ []) }
    ensures in_another_order { (results : List ValType) → ¬ HasInstrType (managed [] []) [] (instr.Aggregate (aggregate.StructNew 0)) (I64
        ∷ I32 ∷ []) results }
    ensures without_the_last { (results : List ValType) → ¬ HasInstrType (managed [] []) [] (instr.Aggregate (aggregate.StructNew 0)) (I32
        ∷ []) results }
    ensures of_another_type { ¬ HasInstrType (managed [] []) [] (instr.Aggregate (aggregate.StructNew 0)) (I32 ∷ I64
        ∷ []) (reference_to (Concrete 1) ∷ []) }
    ensures of_an_array { (operands results : List ValType) → ¬ HasInstrType (managed [] []) [] (instr.Aggregate (aggregate.StructNew 2))
        operands results }
    ensures by_default { HasInstrType (managed [] []) [] (instr.Aggregate (aggregate.StructNewDefault 0)) [] (Ref some_struct ∷ []) }
    ensures without_a_default { (operands results : List ValType) → ¬ HasInstrType (managed [] []) []
        (instr.Aggregate (aggregate.StructNewDefault 1)) operands results }
{}

fn arrays()
    ensures of_a_value { HasInstrType (managed [] []) [] (instr.Aggregate (aggregate.ArrayNew 4)) (Ref funcref ∷ I32
        ∷ []) (reference_to (Concrete 4) ∷ []) }
    ensures size_first { (results : List ValType) → ¬ HasInstrType (managed [] []) [] (instr.Aggregate (aggregate.ArrayNew 4)) (I32
        ∷ Ref funcref ∷ []) results }
    ensures of_a_wide_size { (results : List ValType) → ¬ HasInstrType (managed [] []) [] (instr.Aggregate (aggregate.ArrayNew 3)) (I32
        ∷ I64 ∷ []) results }
    ensures of_a_struct { (operands results : List ValType) → ¬ HasInstrType (managed [] []) [] (instr.Aggregate (aggregate.ArrayNew 0))
        operands results }
    ensures by_default { HasInstrType (managed [] []) [] (instr.Aggregate (aggregate.ArrayNewDefault 4)) (I32
        ∷ []) (reference_to (Concrete 4) ∷ []) }
    ensures without_a_default { (operands results : List ValType) → ¬ HasInstrType (managed [] []) []
        (instr.Aggregate (aggregate.ArrayNewDefault 5)) operands results }
    ensures of_two { HasInstrType (managed [] []) [] (instr.Aggregate (aggregate.ArrayNewFixed 5 2)) (some_func ∷ some_func
        ∷ []) (reference_to (Concrete 5) ∷ []) }
    ensures of_two_with_one { (results : List ValType) → ¬ HasInstrType (managed [] []) [] (instr.Aggregate (aggregate.ArrayNewFixed 5 2))
        (some_func ∷ []) results }
    ensures of_two_with_a_size { (results : List ValType) → ¬ HasInstrType (managed [] []) []
        (instr.Aggregate (aggregate.ArrayNewFixed 5 2)) (some_func ∷ some_func ∷ I32 ∷ []) results }
    ensures struct_by_default { HasNoType (instr.Aggregate (aggregate.ArrayNewDefault 0)) }
    ensures struct_of_two { HasNoType (instr.Aggregate (aggregate.ArrayNewFixed 0 2)) }
    ensures struct_of_none { HasNoType (instr.Aggregate (aggregate.ArrayNewFixed 0 0)) }
{}

fn arrays_from_segments()
    ensures of_data { HasInstrType (managed [] []) [] (instr.Aggregate (aggregate.ArrayNewData 3 0)) (I32 ∷ I32
        ∷ []) (reference_to (Concrete 3) ∷ []) }
    ensures references_of_data { (operands results : List ValType) → ¬ HasInstrType (managed [] []) []
        (instr.Aggregate (aggregate.ArrayNewData 4 0)) operands results }
    ensures past_the_last_data_segment { (operands results : List ValType) → ¬ HasInstrType (managed [] []) []
        (instr.Aggregate (aggregate.ArrayNewData 3 1)) operands results }
    ensures of_elements { HasInstrType (managed [] []) [] (instr.Aggregate (aggregate.ArrayNewElem 4 0)) (I32 ∷ I32
        ∷ []) (reference_to (Concrete 4) ∷ []) }
    ensures numbers_of_elements { (operands results : List ValType) → ¬ HasInstrType (managed [] []) []
        (instr.Aggregate (aggregate.ArrayNewElem 2 0)) operands results }
    ensures of_elements_that_may_be_null { (operands results : List ValType) → ¬ HasInstrType (managed [] []) []
        (instr.Aggregate (aggregate.ArrayNewElem 5 0)) operands results }
    ensures of_external_elements { (operands results : List ValType) → ¬ HasInstrType (managed [] []) []
        (instr.Aggregate (aggregate.ArrayNewElem 4 1)) operands results }
    ensures past_the_last_element_segment { (operands results : List ValType) → ¬ HasInstrType (managed [] []) []
        (instr.Aggregate (aggregate.ArrayNewElem 4 3)) operands results }
    ensures struct_of_data { HasNoType (instr.Aggregate (aggregate.ArrayNewData 0 0)) }
    ensures struct_of_elements { HasNoType (instr.Aggregate (aggregate.ArrayNewElem 0 0)) }
{}
