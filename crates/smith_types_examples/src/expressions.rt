ghost use Rattle.std.specs.List.{AllByRecursion as Each};
ghost use Rattle.std.specs.Prelude.{[], ◌∷◌, ◌≡◌, true, false, pos};
ghost use Rattle.smith_types.specs.Syntax.value_type.AbstractHeapType.TheVariants as heap;
ghost use Rattle.smith_types.specs.Syntax.value_type.HeapType.TheVariants.{Abstract, Concrete, Exact};
ghost use Rattle.smith_types.specs.Syntax.value_type.ValType.TheVariants.{I32, I64, F32, F64, V128, Ref};
ghost use Rattle.smith_types.specs.Syntax.composite_type.StorageType.TheVariants.{I8, I16, Val};
ghost use Rattle.smith_types.specs.Syntax.const_instr.ConstInstr.{ConstInstr};
ghost use Rattle.smith_types.specs.Syntax.const_instr.ConstInstr.TheVariants.{I32Const, I64Const, F32Const, F64Const, V128Const};
ghost use Rattle.smith_types.specs.Syntax.const_instr.ConstInstr.TheVariants.{GlobalGet, RefNull, RefFunc, I32Add, I32Sub, I32Mul};
ghost use Rattle.smith_types.specs.Syntax.const_instr.ConstInstr.TheVariants.{I64Add, I64Sub, I64Mul, RefI31, RefI31Shared, StructNew};
ghost use Rattle.smith_types.specs.Syntax.const_instr.ConstInstr.TheVariants.{StructNewDefault, ArrayNew, ArrayNewDefault};
ghost use Rattle.smith_types.specs.Syntax.const_instr.ConstInstr.TheVariants.{ArrayNewFixed, AnyConvertExtern, ExternConvertAny};
ghost use Rattle.smith_types.specs.Flags.{funcref};
ghost use Rattle.smith_types.specs.Expressions.{IsDefaultable, IsVisible, HasType, IsStackStep, AreStackSteps, IsConstExpr, unpacked};
ghost use Rattle.smith_types.specs.Expressions.{created, function_reference, seen_by_tables, seen_by_global, seen_by_segments, seeing};
ghost use Rattle.smith_types.specs.Syntax.Features.{every_feature};
ghost use Rattle.smith_types.specs.ExampleFeatures.{usual_features, without_gc};
ghost use Rattle.smith_types.specs.ExampleTypes.{plain, nullable, not_null, anyref, shared_anyref};
ghost use Rattle.smith_types.specs.ExampleContexts.{context_with};
ghost use Rattle.smith_types_examples.specs.ExampleTables.{HasOnlyType, seeing_first, usual};

fn constants()
    ensures number { IsConstExpr usual I32 (I32Const (pos 1) ∷ []) }
    ensures of_another_type { ¬ IsConstExpr usual I64 (I32Const (pos 1) ∷ []) }
    ensures nothing { ¬ IsConstExpr usual I32 [] }
    ensures two_values { ¬ IsConstExpr usual I32 (I32Const (pos 1) ∷ I32Const (pos 2) ∷ []) }
    ensures sum { IsConstExpr usual I32 (I32Const (pos 1) ∷ I32Const (pos 2) ∷ I32Add ∷ []) }
    ensures sum_without_its_feature { ¬ IsConstExpr (context_with (record usual_features { extended_const = false }) 2) I32
        (I32Const (pos 1) ∷ I32Const (pos 2) ∷ I32Add ∷ []) }
    ensures sum_of_one_value { ¬ IsConstExpr usual I32 (I32Const (pos 1) ∷ I32Add ∷ []) }
{}

fn constant_instructions()
    ensures wide { HasOnlyType (I64Const (pos 1)) [] I64 }
    ensures narrow { HasOnlyType (I32Const (pos 1)) [] I32 }
    ensures float { HasOnlyType (F32Const 0) [] F32 }
    ensures wide_float { HasOnlyType (F64Const 0) [] F64 }
    ensures vector { HasOnlyType (V128Const (pos 0)) [] V128 }
{}

fn without_operands()
    ensures global { ¬ HasType usual (GlobalGet 0) (I32 ∷ []) I32 }
    ensures null { ¬ HasType usual (RefNull (plain heap.Func)) (I32 ∷ []) (Ref funcref) }
    ensures function { ¬ HasType usual (RefFunc 1) (I32 ∷ []) (Ref (not_null (Concrete 0))) }
    ensures struct_of_defaults { ¬ HasType usual (StructNewDefault 1) (I32 ∷ []) (Ref (not_null (Concrete 1))) }
{}

fn arithmetic()
    ensures narrow { Each (λ (op : ConstInstr). HasOnlyType op (I32 ∷ I32 ∷ []) I32) (I32Add ∷ I32Sub ∷ I32Mul ∷ []) }
    ensures wide { Each (λ (op : ConstInstr). HasOnlyType op (I64 ∷ I64 ∷ []) I64) (I64Add ∷ I64Sub ∷ I64Mul ∷ []) }
{}

fn steps()
    ensures above_others { IsStackStep usual I32Add (I64 ∷ I32 ∷ I32 ∷ []) (I64 ∷ I32 ∷ []) }
    ensures below_others { ¬ IsStackStep usual RefI31 (I32 ∷ I64 ∷ []) (I32 ∷ Ref (not_null (plain heap.I31)) ∷ []) }
    ensures losing_others { ¬ IsStackStep usual I32Add (I64 ∷ I32 ∷ I32 ∷ []) (I32 ∷ []) }
    ensures of_a_subtype { IsStackStep usual ExternConvertAny (Ref (not_null (plain heap.I31)) ∷ []) (Ref (not_null (plain heap.Extern))
        ∷ []) }
    ensures of_no_subtype { ¬ IsStackStep usual ExternConvertAny (Ref (not_null (plain heap.Func)) ∷ []) (Ref (not_null (plain heap.Extern))
        ∷ []) }
    ensures none { AreStackSteps usual [] (I32 ∷ []) (I32 ∷ []) }
    ensures none_to_another_stack { ¬ AreStackSteps usual [] (I32 ∷ []) [] }
{}

fn visible_globals()
    ensures imported { IsVisible usual 0 I32 }
    ensures of_another_type { ¬ IsVisible usual 0 I64 }
    ensures mutable { ¬ IsVisible usual 1 I32 }
    ensures defined { IsVisible (seeing_first 3) 2 I32 }
    ensures defined_for_a_table { ¬ IsVisible usual 2 I32 }
    ensures past_the_globals { ¬ IsVisible (seeing_first 9) 3 I32 }
    ensures before_a_global { IsVisible (seeing (seeing_first 0) (seen_by_global (seeing_first 0) 3)) 2 I32 }
    ensures a_global_by_itself { ¬ IsVisible (seeing (seeing_first 0) (seen_by_global (seeing_first 0) 2)) 2 I32 }
{}

fn seen()
    ensures by_tables { seen_by_tables (seeing_first 0) ≡ 2 }
    ensures by_a_global { seen_by_global (seeing_first 0) 5 ≡ 5 }
    ensures by_a_global_without_gc { seen_by_global (context_with without_gc 0) 5 ≡ 2 }
    ensures by_segments { seen_by_segments (seeing_first 0) ≡ 3 }
    ensures by_segments_without_gc { seen_by_segments (context_with without_gc 0) ≡ 2 }
{}

fn globals()
    ensures read { IsConstExpr usual I32 (GlobalGet 0 ∷ []) }
    ensures mutable_read { ¬ IsConstExpr usual I32 (GlobalGet 1 ∷ []) }
    ensures read_by_a_table { IsConstExpr (seeing (seeing_first 0) (seen_by_tables (seeing_first 0))) I32 (GlobalGet 0 ∷ []) }
    ensures defined_read_by_a_table { ¬ IsConstExpr (seeing (seeing_first 0) (seen_by_tables (seeing_first 0))) I32 (GlobalGet 2 ∷ []) }
    ensures defined_read_by_a_segment { IsConstExpr (seeing (seeing_first 0) (seen_by_segments (seeing_first 0))) I32 (GlobalGet 2 ∷ []) }
    ensures imported_read_without_gc { IsConstExpr (seeing (context_with without_gc 0) (seen_by_segments (context_with without_gc 0))) I32
        (GlobalGet 0 ∷ []) }
    ensures imported_read_by_a_global_without_gc { IsConstExpr
        (seeing (context_with without_gc 0) (seen_by_global (context_with without_gc 0) 2)) I32 (GlobalGet 0 ∷ []) }
    ensures defined_read_without_gc { ¬ IsConstExpr (seeing (context_with without_gc 0) (seen_by_segments (context_with without_gc 0))) I32
        (GlobalGet 2 ∷ []) }
{}

fn references()
    ensures null_function { IsConstExpr usual (Ref funcref) (RefNull (plain heap.Func) ∷ []) }
    ensures null_is_not_enough { ¬ IsConstExpr usual (Ref (not_null (plain heap.Func))) (RefNull (plain heap.Func) ∷ []) }
    ensures function_below { IsConstExpr usual (Ref (not_null (Concrete 0))) (RefFunc 1 ∷ []) }
    ensures null_of_a_type { HasType usual (RefNull (Concrete 5)) [] (Ref (nullable (Concrete 5))) }
    ensures null_past_the_types { ¬ HasType usual (RefNull (Concrete 6)) [] (Ref (nullable (Concrete 6))) }
    ensures null_of_another_type { ¬ HasType usual (RefNull (Concrete 5)) [] (Ref (nullable (Concrete 4))) }
    ensures null_that_is_not_enabled { ¬ HasType (context_with without_gc 2) (RefNull (plain heap.Any)) [] anyref }
    ensures function_of_another_type { ¬ HasType usual (RefFunc 1) [] (Ref (not_null (Concrete 1))) }
    ensures past_the_functions { ¬ IsConstExpr usual (Ref funcref) (RefFunc 2 ∷ []) }
    ensures i31 { IsConstExpr usual anyref (I32Const (pos 1) ∷ RefI31 ∷ []) }
    ensures i31_alone { HasOnlyType RefI31 (I32 ∷ []) (Ref (not_null (plain heap.I31))) }
    ensures shared_i31 { HasOnlyType RefI31Shared (I32 ∷ []) (Ref (not_null (Abstract true heap.I31))) }
{}

fn exact_references()
    ensures created_one { created (context_with every_feature 2) 1 ≡ Ref (not_null (Exact 1)) }
    ensures created_otherwise { created usual 1 ≡ Ref (not_null (Concrete 1)) }
    ensures defined_function { function_reference (context_with every_feature 2) 1 0 ≡ Ref (not_null (Exact 0)) }
    ensures imported_function { function_reference (context_with every_feature 2) 0 0 ≡ Ref (not_null (Concrete 0)) }
    ensures function_otherwise { function_reference usual 1 0 ≡ Ref (not_null (Concrete 0)) }
    ensures of_a_defined_function { IsConstExpr (context_with every_feature 2) (Ref (not_null (Exact 0))) (RefFunc 1 ∷ []) }
    ensures of_an_imported_function { ¬ IsConstExpr (context_with every_feature 2) (Ref (not_null (Exact 0))) (RefFunc 0 ∷ []) }
    ensures of_a_struct { IsConstExpr (context_with every_feature 2) (Ref (not_null (Exact 1))) (I32Const (pos 1) ∷ StructNew 1 ∷ []) }
{}

fn defaults()
    ensures packed { unpacked I8 ≡ I32 }
    ensures wider_packed { unpacked I16 ≡ I32 }
    ensures not_packed { unpacked (Val I64) ≡ I64 }
    ensures number { IsDefaultable I32 }
    ensures nullable_reference { IsDefaultable anyref }
    ensures other_reference { ¬ IsDefaultable (Ref (not_null (plain heap.Any))) }
{}

fn structs()
    ensures of_its_field { IsConstExpr usual (Ref (not_null (Concrete 1))) (I32Const (pos 1) ∷ StructNew 1 ∷ []) }
    ensures without_its_field { ¬ IsConstExpr usual (Ref (not_null (Concrete 1))) (StructNew 1 ∷ []) }
    ensures of_its_fields { HasType usual (StructNew 5) (I32 ∷ I64 ∷ []) (Ref (not_null (Concrete 5))) }
    ensures of_its_fields_the_other_way_round { ¬ HasType usual (StructNew 5) (I64 ∷ I32 ∷ []) (Ref (not_null (Concrete 5))) }
    ensures is_not_null { ¬ HasType usual (StructNew 5) (I32 ∷ I64 ∷ []) (Ref (nullable (Concrete 5))) }
    ensures past_the_types { ¬ HasType usual (StructNew 6) [] (Ref (not_null (Concrete 6))) }
    ensures of_defaults { IsConstExpr usual (Ref (not_null (Concrete 1))) (StructNewDefault 1 ∷ []) }
    ensures of_another_type { ¬ HasType usual (StructNewDefault 1) [] (Ref (not_null (Concrete 5))) }
    ensures field_without_default { ¬ HasType usual (StructNewDefault 3) [] (Ref (not_null (Concrete 3))) }
    ensures of_a_function_type { ¬ HasType usual (StructNewDefault 0) [] (Ref (not_null (Concrete 0))) }
{}

fn arrays()
    ensures of_an_element_and_a_length { HasType usual (ArrayNew 4) (Ref (not_null (plain heap.Func)) ∷ I32
        ∷ []) (Ref (not_null (Concrete 4))) }
    ensures of_a_length_and_an_element { ¬ HasType usual (ArrayNew 4) (I32 ∷ Ref (not_null (plain heap.Func))
        ∷ []) (Ref (not_null (Concrete 4))) }
    ensures is_not_null { ¬ HasType usual (ArrayNew 4) (Ref (not_null (plain heap.Func)) ∷ I32 ∷ []) (Ref (nullable (Concrete 4))) }
    ensures of_defaults_is_not_null { ¬ HasType usual (ArrayNewDefault 2) (I32 ∷ []) (Ref (nullable (Concrete 2))) }
    ensures of_two_is_not_null { ¬ HasType usual (ArrayNewFixed 2 2) (I32 ∷ I32 ∷ []) (Ref (nullable (Concrete 2))) }
    ensures of_a_struct_type { ¬ HasType usual (ArrayNew 1) (I32 ∷ I32 ∷ []) (Ref (not_null (Concrete 1))) }
    ensures of_defaults { HasType usual (ArrayNewDefault 2) (I32 ∷ []) (Ref (not_null (Concrete 2))) }
    ensures of_defaults_without_a_length { ¬ HasType usual (ArrayNewDefault 2) [] (Ref (not_null (Concrete 2))) }
    ensures element_without_default { ¬ HasType usual (ArrayNewDefault 4) (I32 ∷ []) (Ref (not_null (Concrete 4))) }
    ensures of_two { HasType usual (ArrayNewFixed 2 2) (I32 ∷ I32 ∷ []) (Ref (not_null (Concrete 2))) }
    ensures of_one_too_few { ¬ HasType usual (ArrayNewFixed 2 2) (I32 ∷ []) (Ref (not_null (Concrete 2))) }
    ensures of_none { HasType usual (ArrayNewFixed 4 0) [] (Ref (not_null (Concrete 4))) }
{}

fn conversions()
    ensures null_given_out { IsConstExpr usual (Ref (nullable (plain heap.Extern))) (RefNull (plain heap.Any) ∷ ExternConvertAny ∷ []) }
    ensures i31_given_out { IsConstExpr usual (Ref (not_null (plain heap.Extern))) (I32Const (pos 1) ∷ RefI31 ∷ ExternConvertAny ∷ []) }
    ensures shared_given_out { HasType usual ExternConvertAny (shared_anyref ∷ []) (Ref (nullable (Abstract true heap.Extern))) }
    ensures shared_taken_in { HasType usual AnyConvertExtern (Ref (nullable (Abstract true heap.Extern)) ∷ []) shared_anyref }
    ensures shared_taken_in_as_unshared { ¬ HasType usual AnyConvertExtern (Ref (nullable (Abstract true heap.Extern)) ∷ []) anyref }
    ensures unshared_taken_in_as_shared { ¬ HasType usual AnyConvertExtern (Ref (nullable (plain heap.Extern)) ∷ []) shared_anyref }
    ensures shared_given_out_as_unshared { ¬ HasType usual ExternConvertAny (shared_anyref ∷ []) (Ref (nullable (plain heap.Extern))) }
    ensures null_stays_null { ¬ HasType usual ExternConvertAny (anyref ∷ []) (Ref (not_null (plain heap.Extern))) }
    ensures sharedness_stays { ¬ HasType usual ExternConvertAny (anyref ∷ []) (Ref (nullable (Abstract true heap.Extern))) }
    ensures the_other_way { HasType usual AnyConvertExtern (Ref (not_null (plain heap.Extern)) ∷ []) (Ref (not_null (plain heap.Any))) }
    ensures of_what_is_inside_already { ¬ HasType usual AnyConvertExtern (anyref ∷ []) anyref }
{}
