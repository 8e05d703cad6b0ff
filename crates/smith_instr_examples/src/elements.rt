ghost use Rattle.std.specs.Prelude.{List, [], ◌∷◌, ◌≡◌};
ghost use Rattle.smith_types.specs.ExampleTypes.{constant, eqref, plain};
ghost use Rattle.smith_types.specs.Flags.{funcref};
ghost use Rattle.smith_types.specs.Syntax.composite_type.StorageType.TheVariants as storage;
ghost use Rattle.smith_types.specs.Syntax.value_type.AbstractHeapType.TheVariants as heap;
ghost use Rattle.smith_types.specs.Syntax.value_type.HeapType.TheVariants.{Concrete};
ghost use Rattle.smith_types.specs.Syntax.value_type.ValType.{ValType};
ghost use Rattle.smith_types.specs.Syntax.value_type.ValType.TheVariants.{F32, F64, I32, I64, Ref, V128};
ghost use Rattle.smith_instr.specs.AggregateTypes.{IsOfBytes, IsReadBy, value_of};
ghost use Rattle.smith_instr.specs.Contexts.{nullable_to};
ghost use Rattle.smith_instr.specs.InstrTypes.{HasInstrType};
ghost use Rattle.smith_instr.specs.declared.aggregate.AggregateInstr.TheVariants as aggregate;
ghost use Rattle.smith_instr.specs.declared.aggregate.Extension.TheVariants as extension;
ghost use Rattle.smith_instr.specs.declared.instr.Instr.TheVariants as instr;
ghost use Rattle.smith_instr_examples.specs.ExampleManaged.{any_struct, managed};
ghost use Rattle.smith_instr_examples.specs.ExampleTyping.{HasNoType};

fn fields()
    ensures past_the_last { (operands results : List ValType) → ¬ HasInstrType (managed [] []) []
        (instr.Aggregate (aggregate.StructGet 0 2 extension.Unpacked)) operands results }
    ensures signed_but_not_packed { (operands results : List ValType) → ¬ HasInstrType (managed [] []) []
        (instr.Aggregate (aggregate.StructGet 0 1 extension.Signed)) operands results }
    ensures of_another_struct { (results : List ValType) → ¬ HasInstrType (managed [] []) []
        (instr.Aggregate (aggregate.StructGet 0 1 extension.Unpacked)) (nullable_to (Concrete 1) ∷ []) results }
    ensures set_past_the_last { (operands results : List ValType) → ¬ HasInstrType (managed [] []) []
        (instr.Aggregate (aggregate.StructSet 0 2)) operands results }
    ensures set_value_first { (results : List ValType) → ¬ HasInstrType (managed [] []) [] (instr.Aggregate (aggregate.StructSet 0 1)) (I64
        ∷ Ref any_struct ∷ []) results }
{}

fn read()
    ensures unpacked { HasInstrType (managed [] []) [] (instr.Aggregate (aggregate.ArrayGet 2 extension.Unpacked)) (nullable_to (Concrete 2)
        ∷ I32 ∷ []) (I32 ∷ []) }
    ensures signed { HasInstrType (managed [] []) [] (instr.Aggregate (aggregate.ArrayGet 3 extension.Signed)) (nullable_to (Concrete 3)
        ∷ I32 ∷ []) (I32 ∷ []) }
    ensures unsigned { HasInstrType (managed [] []) [] (instr.Aggregate (aggregate.ArrayGet 3 extension.Unsigned)) (nullable_to (Concrete 3)
        ∷ I32 ∷ []) (I32 ∷ []) }
    ensures packed_without_a_sign { (operands results : List ValType) → ¬ HasInstrType (managed [] []) []
        (instr.Aggregate (aggregate.ArrayGet 3 extension.Unpacked)) operands results }
    ensures unpacked_with_a_sign { (operands results : List ValType) → ¬ HasInstrType (managed [] []) []
        (instr.Aggregate (aggregate.ArrayGet 2 extension.Unsigned)) operands results }
    ensures of_another_array { (results : List ValType) → ¬ HasInstrType (managed [] []) []
        (instr.Aggregate (aggregate.ArrayGet 2 extension.Unpacked)) (nullable_to (Concrete 3) ∷ I32 ∷ []) results }
    ensures of_a_struct { (operands results : List ValType) → ¬ HasInstrType (managed [] []) []
        (instr.Aggregate (aggregate.ArrayGet 0 extension.Unpacked)) operands results }
    ensures without_an_index { (results : List ValType) → ¬ HasInstrType (managed [] []) []
        (instr.Aggregate (aggregate.ArrayGet 2 extension.Unpacked)) (nullable_to (Concrete 2) ∷ []) results }
    ensures size { HasInstrType (managed [] []) [] (instr.Aggregate aggregate.ArrayLen) (nullable_to (plain heap.Array) ∷ []) (I32 ∷ []) }
    ensures size_of_a_type_above { (results : List ValType) → ¬ HasInstrType (managed [] []) [] (instr.Aggregate aggregate.ArrayLen) (eqref
        ∷ []) results }
{}

fn written()
    ensures variable_one { HasInstrType (managed [] []) [] (instr.Aggregate (aggregate.ArraySet 4)) (nullable_to (Concrete 4) ∷ I32
        ∷ Ref funcref ∷ []) [] }
    ensures constant_one { (operands results : List ValType) → ¬ HasInstrType (managed [] []) [] (instr.Aggregate (aggregate.ArraySet 3))
        operands results }
    ensures value_before_the_index { (results : List ValType) → ¬ HasInstrType (managed [] []) [] (instr.Aggregate (aggregate.ArraySet 4))
        (nullable_to (Concrete 4) ∷ Ref funcref ∷ I32 ∷ []) results }
    ensures filled { HasInstrType (managed [] []) [] (instr.Aggregate (aggregate.ArrayFill 2)) (nullable_to (Concrete 2) ∷ I32 ∷ I32 ∷ I32
        ∷ []) [] }
    ensures constant_one_filled { (operands results : List ValType) → ¬ HasInstrType (managed [] []) []
        (instr.Aggregate (aggregate.ArrayFill 3)) operands results }
    ensures filled_with_another_type { (results : List ValType) → ¬ HasInstrType (managed [] []) []
        (instr.Aggregate (aggregate.ArrayFill 4)) (nullable_to (Concrete 4) ∷ I32 ∷ I32 ∷ I32 ∷ []) results }
    ensures filled_without_a_size { (results : List ValType) → ¬ HasInstrType (managed [] []) [] (instr.Aggregate (aggregate.ArrayFill 2))
        (nullable_to (Concrete 2) ∷ I32 ∷ I32 ∷ []) results }
    ensures struct_written { HasNoType (instr.Aggregate (aggregate.ArraySet 0)) }
    ensures struct_filled { HasNoType (instr.Aggregate (aggregate.ArrayFill 0)) }
{}

fn copied()
    ensures of_one_type { HasInstrType (managed [] []) [] (instr.Aggregate (aggregate.ArrayCopy 2 2)) (nullable_to (Concrete 2) ∷ I32
        ∷ nullable_to (Concrete 2) ∷ I32 ∷ I32 ∷ []) [] }
    ensures of_a_type_below { HasInstrType (managed [] []) [] (instr.Aggregate (aggregate.ArrayCopy 4 5)) (nullable_to (Concrete 4) ∷ I32
        ∷ nullable_to (Concrete 5) ∷ I32 ∷ I32 ∷ []) [] }
    ensures with_the_references_exchanged { (results : List ValType) → ¬ HasInstrType (managed [] []) []
        (instr.Aggregate (aggregate.ArrayCopy 4 5)) (nullable_to (Concrete 5) ∷ I32 ∷ nullable_to (Concrete 4) ∷ I32 ∷ I32 ∷ []) results }
    ensures into_a_constant_one { (operands results : List ValType) → ¬ HasInstrType (managed [] []) []
        (instr.Aggregate (aggregate.ArrayCopy 3 3)) operands results }
    ensures of_packed_numbers { (operands results : List ValType) → ¬ HasInstrType (managed [] []) []
        (instr.Aggregate (aggregate.ArrayCopy 2 3)) operands results }
    ensures of_references_into_numbers { (operands results : List ValType) → ¬ HasInstrType (managed [] []) []
        (instr.Aggregate (aggregate.ArrayCopy 2 4)) operands results }
    ensures into_a_struct { HasNoType (instr.Aggregate (aggregate.ArrayCopy 0 2)) }
    ensures of_a_struct { HasNoType (instr.Aggregate (aggregate.ArrayCopy 2 0)) }
{}

fn initialised()
    ensures of_data { HasInstrType (managed [] []) [] (instr.Aggregate (aggregate.ArrayInitData 2 0)) (nullable_to (Concrete 2) ∷ I32 ∷ I32
        ∷ I32 ∷ []) [] }
    ensures constant_one_of_data { (operands results : List ValType) → ¬ HasInstrType (managed [] []) []
        (instr.Aggregate (aggregate.ArrayInitData 3 0)) operands results }
    ensures references_of_data { (operands results : List ValType) → ¬ HasInstrType (managed [] []) []
        (instr.Aggregate (aggregate.ArrayInitData 4 0)) operands results }
    ensures past_the_last_data_segment { (operands results : List ValType) → ¬ HasInstrType (managed [] []) []
        (instr.Aggregate (aggregate.ArrayInitData 2 1)) operands results }
    ensures of_elements { HasInstrType (managed [] []) [] (instr.Aggregate (aggregate.ArrayInitElem 4 0)) (nullable_to (Concrete 4) ∷ I32
        ∷ I32 ∷ I32 ∷ []) [] }
    ensures of_external_elements { (operands results : List ValType) → ¬ HasInstrType (managed [] []) []
        (instr.Aggregate (aggregate.ArrayInitElem 4 1)) operands results }
    ensures constant_one_of_elements { (operands results : List ValType) → ¬ HasInstrType (managed [] []) []
        (instr.Aggregate (aggregate.ArrayInitElem 5 2)) operands results }
    ensures past_the_last_element_segment { (operands results : List ValType) → ¬ HasInstrType (managed [] []) []
        (instr.Aggregate (aggregate.ArrayInitElem 4 3)) operands results }
    ensures struct_of_data { HasNoType (instr.Aggregate (aggregate.ArrayInitData 0 0)) }
    ensures struct_of_elements { HasNoType (instr.Aggregate (aggregate.ArrayInitElem 0 0)) }
{}

fn storage()
    ensures floats_of_bytes { IsOfBytes (storage.Val F32) }
    ensures wide_floats_of_bytes { IsOfBytes (storage.Val F64) }
    ensures wide_numbers_of_bytes { IsOfBytes (storage.Val I64) }
    ensures vectors_of_bytes { IsOfBytes (storage.Val V128) }
    ensures halves_of_bytes { IsOfBytes storage.I16 }
    ensures references_of_bytes { ¬ IsOfBytes (storage.Val (Ref funcref)) }
    ensures halves_signed { IsReadBy extension.Signed storage.I16 }
    ensures halves_unsigned { IsReadBy extension.Unsigned storage.I16 }
    ensures halves_unpacked { ¬ IsReadBy extension.Unpacked storage.I16 }
    ensures halves_as_numbers { value_of (constant storage.I16) ≡ I32 }
{}
