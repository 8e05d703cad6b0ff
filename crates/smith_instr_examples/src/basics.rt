ghost use Rattle.std.specs.Prelude.{List, [], ◌∷◌, ◌≡◌, ℕ};
ghost use Rattle.smith_types.specs.Expressions.{reference_to};
ghost use Rattle.smith_types.specs.Syntax.Features.{every_feature};
ghost use Rattle.smith_types.specs.Flags.{funcref};
ghost use Rattle.smith_types.specs.Syntax.value_type.HeapType.TheVariants.{Concrete, Exact};
ghost use Rattle.smith_types.specs.Syntax.value_type.ValType.TheVariants.{F32, I32, I64, Ref, V128};
ghost use Rattle.smith_types.specs.Syntax.value_type.ValType.{ValType};
ghost use Rattle.smith_instr.specs.Contexts.{IsBlockType, created_reference, nullable_to, reference_to_function};
ghost use Rattle.smith_instr.specs.InstrTypes.{HasInstrType, sets};
ghost use Rattle.smith_instr.specs.declared.aggregate.AggregateInstr.TheVariants as aggregate;
ghost use Rattle.smith_instr.specs.declared.aggregate.Extension.TheVariants as extension;
ghost use Rattle.smith_instr.specs.declared.control.BlockType.TheVariants as block;
ghost use Rattle.smith_instr.specs.declared.control.BlockType.{BlockType};
ghost use Rattle.smith_instr.specs.declared.instr.Instr.TheVariants as instr;
ghost use Rattle.smith_instr.specs.declared.reference.ReferenceInstr.TheVariants as reference;
ghost use Rattle.smith_instr_examples.specs.ExampleBodies.{function_of, some_func};
ghost use Rattle.smith_instr_examples.specs.ExampleManaged.{any_struct, managed};
ghost use Rattle.smith_instr_examples.specs.ExampleTyping.{HasNoType, HasType, LeavesNot, TakesNot};

fn parametric()
    ensures drop { HasType instr.Drop (I64 ∷ []) [] }
    ensures drop_of_a_reference { HasType instr.Drop (Ref funcref ∷ []) [] }
    ensures drop_of_none { TakesNot instr.Drop [] }
    ensures drop_of_two { TakesNot instr.Drop (I32 ∷ I32 ∷ []) }
    ensures drop_to_one { LeavesNot instr.Drop (I32 ∷ []) }
    ensures select_of_vectors { HasType instr.Select (V128 ∷ V128 ∷ I32 ∷ []) (V128 ∷ []) }
    ensures select_of_floats { HasType instr.Select (F32 ∷ F32 ∷ I32 ∷ []) (F32 ∷ []) }
    ensures select_of_two_types { TakesNot instr.Select (I32 ∷ I64 ∷ I32 ∷ []) }
    ensures select_by_i64 { TakesNot instr.Select (I32 ∷ I32 ∷ I64 ∷ []) }
    ensures select_without_a_condition { TakesNot instr.Select (I32 ∷ I32 ∷ []) }
    ensures select_to_another_type { ¬ HasType instr.Select (I32 ∷ I32 ∷ I32 ∷ []) (I64 ∷ []) }
    ensures select_of_references { TakesNot instr.Select (Ref funcref ∷ Ref funcref ∷ I32 ∷ []) }
    ensures select_to_none { LeavesNot instr.Select [] }
    ensures select_typed_of_numbers { HasType (instr.SelectTyped (I64 ∷ [])) (I64 ∷ I64 ∷ I32 ∷ []) (I64 ∷ []) }
    ensures select_typed_by_i64 { TakesNot (instr.SelectTyped (I64 ∷ [])) (I64 ∷ I64 ∷ I64 ∷ []) }
    ensures select_typed_to_another_type { LeavesNot (instr.SelectTyped (I64 ∷ [])) (I32 ∷ []) }
    ensures select_of_no_types { HasNoType (instr.SelectTyped []) }
    ensures select_of_two_listed_types { HasNoType (instr.SelectTyped (I64 ∷ I64 ∷ [])) }
{}

fn blocks()
    ensures block { (ty : BlockType) → HasNoType (instr.Block ty) }
    ensures loop_block { (ty : BlockType) → HasNoType (instr.Loop ty) }
    ensures if_else { (ty : BlockType) → HasNoType (instr.If ty) }
    ensures try_table { (ty : BlockType) → HasNoType (instr.TryTable ty []) }
    ensures else_alone { HasNoType instr.Else }
    ensures end { HasNoType instr.End }
{}

fn polymorphic()
    ensures unreachable { HasType instr.Unreachable (I32 ∷ []) (F32 ∷ []) }
    ensures unreachable_to_no_type { LeavesNot instr.Unreachable (nullable_to (Concrete 8) ∷ []) }
    ensures return_to_no_type { LeavesNot instr.Return (nullable_to (Concrete 8) ∷ []) }
    ensures throw_past_the_last { HasNoType (instr.Throw 1) }
    ensures throw_of_another_type { TakesNot (instr.Throw 0) (I64 ∷ []) }
    ensures throw_to_no_type { LeavesNot (instr.Throw 0) (nullable_to (Concrete 8) ∷ []) }
    ensures br_past_the_last_label { HasNoType (instr.Br 0) }
    ensures br_if_past_the_last_label { HasNoType (instr.BrIf 0) }
    ensures call_past_the_last { HasNoType (instr.Call 2) }
    ensures return_call_past_the_last { HasNoType (instr.ReturnCall 2) }
    ensures nop_of_one { TakesNot instr.Nop (I32 ∷ []) }
{}

fn locals()
    ensures get { HasInstrType (function_of (I64 ∷ []) []) [] (instr.LocalGet 0) [] (I64 ∷ []) }
    ensures get_past_the_last { (results : List ValType) → ¬ HasInstrType (function_of (I64 ∷ []) []) [] (instr.LocalGet 1) [] results }
    ensures get_of_another_type { ¬ HasInstrType (function_of (I64 ∷ []) []) [] (instr.LocalGet 0) [] (I32 ∷ []) }
    ensures get_before_it_is_set { ¬ HasInstrType (function_of (some_func ∷ []) []) [] (instr.LocalGet 0) [] (some_func ∷ []) }
    ensures set { HasInstrType (function_of (I64 ∷ []) []) [] (instr.LocalSet 0) (I64 ∷ []) [] }
    ensures set_of_another_type { ¬ HasInstrType (function_of (I64 ∷ []) []) [] (instr.LocalSet 0) (I32 ∷ []) [] }
    ensures set_to_one { ¬ HasInstrType (function_of (I64 ∷ []) []) [] (instr.LocalSet 0) (I64 ∷ []) (I64 ∷ []) }
    ensures set_by_set { (index : ℕ) → sets (instr.LocalSet index) ≡ index ∷ [] }
    ensures set_by_tee { (index : ℕ) → sets (instr.LocalTee index) ≡ index ∷ [] }
    ensures not_set_by_get { (index : ℕ) → sets (instr.LocalGet index) ≡ [] }
    ensures not_set_by_a_global { (index : ℕ) → sets (instr.GlobalSet index) ≡ [] }
{}

fn globals()
    ensures get_of_another_type { LeavesNot (instr.GlobalGet 0) (I64 ∷ []) }
    ensures get_of_one { TakesNot (instr.GlobalGet 0) (I32 ∷ []) }
    ensures get_of_a_variable { HasType (instr.GlobalGet 1) [] (I32 ∷ []) }
    ensures set_of_another_type { TakesNot (instr.GlobalSet 1) (I64 ∷ []) }
    ensures set_of_none { TakesNot (instr.GlobalSet 1) [] }
    ensures set_to_one { LeavesNot (instr.GlobalSet 1) (I32 ∷ []) }
    ensures set_past_the_last { HasNoType (instr.GlobalSet 2) }
    ensures set_of_a_constant { HasNoType (instr.GlobalSet 0) }
{}

fn block_types()
    ensures no_type { IsBlockType (managed [] []) (block.Empty) [] [] }
    ensures no_type_with_a_result { ¬ IsBlockType (managed [] []) (block.Empty) [] (I32 ∷ []) }
    ensures no_type_with_a_parameter { ¬ IsBlockType (managed [] []) (block.Empty) (I32 ∷ []) [] }
    ensures value { IsBlockType (managed [] []) (block.Value I64) [] (I64 ∷ []) }
    ensures value_as_a_parameter { ¬ IsBlockType (managed [] []) (block.Value I64) (I64 ∷ []) [] }
    ensures value_of_no_type { (params results : List ValType) → ¬ IsBlockType (managed [] []) (block.Value (nullable_to (Concrete 8)))
        params results }
    ensures function { IsBlockType (managed [] []) (block.Func 6) (I64 ∷ []) (I32 ∷ []) }
    ensures function_with_another_result { ¬ IsBlockType (managed [] []) (block.Func 6) (I64 ∷ []) (I64 ∷ []) }
    ensures function_without_its_parameter { ¬ IsBlockType (managed [] []) (block.Func 6) [] (I32 ∷ []) }
    ensures function_past_the_last_type { (params results : List ValType) → ¬ IsBlockType (managed [] []) (block.Func 8) params results }
    ensures of_a_struct { (params results : List ValType) → ¬ IsBlockType (managed [] []) (block.Func 0) params results }
{}

fn references()
    ensures created { created_reference (managed [] []) 0 ≡ reference_to (Concrete 0) }
    ensures created_exactly { created_reference (record (managed [] []) { features = every_feature }) 0 ≡ reference_to (Exact 0) }
    ensures function { reference_to_function (record (managed [] []) { features = every_feature }) 0 6 ≡ reference_to (Exact 6) }
    ensures imported_function { reference_to_function (record (record (managed [] []) { features = every_feature }) { imported_funcs = 1 })
        0 6 ≡ reference_to (Concrete 6) }
    ensures null_of_none { TakesNot (instr.Reference (reference.Null (Concrete 0))) (I32 ∷ []) }
    ensures function_past_the_last { HasNoType (instr.Reference (reference.Func 2)) }
    ensures function_not_named { HasNoType (instr.Reference (reference.Func 0)) }
    ensures is_null_to_i64 { LeavesNot (instr.Reference reference.IsNull) (I64 ∷ []) }
    ensures is_null_of_none { TakesNot (instr.Reference reference.IsNull) [] }
    ensures as_non_null_of_a_number { TakesNot (instr.Reference reference.AsNonNull) (I32 ∷ []) }
    ensures as_non_null_to_none { LeavesNot (instr.Reference reference.AsNonNull) [] }
    ensures as_non_null_of_no_type { TakesNot (instr.Reference reference.AsNonNull) (nullable_to (Concrete 8) ∷ []) }
{}

fn fields()
    ensures get { HasType (instr.Aggregate (aggregate.StructGet 0 1 extension.Unpacked)) (Ref any_struct ∷ []) (I64 ∷ []) }
    ensures get_unsigned { HasType (instr.Aggregate (aggregate.StructGet 0 0 extension.Unsigned)) (Ref any_struct ∷ []) (I32 ∷ []) }
    ensures get_unsigned_of_one_that_is_not_packed { HasNoType (instr.Aggregate (aggregate.StructGet 0 1 extension.Unsigned)) }
    ensures get_of_another_type { LeavesNot (instr.Aggregate (aggregate.StructGet 0 1 extension.Unpacked)) (I32 ∷ []) }
    ensures get_of_a_packed_type { LeavesNot (instr.Aggregate (aggregate.StructGet 0 0 extension.Signed)) (I64 ∷ []) }
    ensures get_of_no_struct { TakesNot (instr.Aggregate (aggregate.StructGet 0 1 extension.Unpacked)) [] }
    ensures get_of_an_array { HasNoType (instr.Aggregate (aggregate.StructGet 2 0 extension.Unpacked)) }
    ensures get_past_the_last_type { HasNoType (instr.Aggregate (aggregate.StructGet 8 0 extension.Unpacked)) }
    ensures set_of_another_type { TakesNot (instr.Aggregate (aggregate.StructSet 0 1)) (Ref any_struct ∷ I32 ∷ []) }
    ensures set_without_a_value { TakesNot (instr.Aggregate (aggregate.StructSet 0 1)) (Ref any_struct ∷ []) }
    ensures set_to_one { LeavesNot (instr.Aggregate (aggregate.StructSet 0 1)) (I64 ∷ []) }
    ensures set_of_an_array { HasNoType (instr.Aggregate (aggregate.StructSet 2 0)) }
    ensures set_past_the_last_type { HasNoType (instr.Aggregate (aggregate.StructSet 8 0)) }
{}
