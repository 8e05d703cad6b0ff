ghost use Rattle.std.specs.Prelude.{◌≡◌, [], ◌∷◌, true, IsTrue, Some, None};
ghost use Rattle.std.specs.List.{AllByRecursion as Each};
ghost use Rattle.smith_types.specs.Syntax.value_type.AbstractHeapType.{AbstractHeapType};
ghost use Rattle.smith_types.specs.Syntax.value_type.AbstractHeapType.TheVariants as heap;
ghost use Rattle.smith_types.specs.Syntax.value_type.HeapType.TheVariants.{Abstract, Concrete, Exact};
ghost use Rattle.smith_types.specs.Syntax.value_type.ValType.TheVariants.{I32, I64, F32, F64, V128, Ref};
ghost use Rattle.smith_types.specs.Syntax.composite_type.StorageType.TheVariants.{I8};
ghost use Rattle.smith_types.specs.Syntax.Kinds.{kind, bottom, shared};
ghost use Rattle.smith_types.specs.Subtyping.{IsBelow, IsRefBelow, IsValBelow, IsInRange, IsValInRange};
ghost use Rattle.smith_types.specs.ExampleTypes.{open_type, final_type, shared_type, array, empty_struct, plain_func, struct_and_below};
ghost use Rattle.smith_types.specs.ExampleTypes.{plain, nullable, not_null, anyref, eqref, variable, tops, kinds_of_values};
ghost use Rattle.smith_types_examples.specs.ExampleTables.{IsStrictlyBelow};

fn kinds()
    ensures of_a_struct { kind (final_type empty_struct) ≡ heap.Struct }
    ensures bottom_of_a_struct { bottom (final_type empty_struct) ≡ heap.None }
    ensures of_a_function { kind (final_type plain_func) ≡ heap.Func }
    ensures bottom_of_a_function { bottom (final_type plain_func) ≡ heap.NoFunc }
    ensures of_an_array { kind (final_type (array (variable I8))) ≡ heap.Array }
    ensures bottom_of_an_array { bottom (final_type (array (variable I8))) ≡ heap.None }
    ensures shared_one { IsTrue (shared (shared_type plain_func)) }
    ensures not_shared { ¬ IsTrue (shared (final_type plain_func)) }
{}

fn abstract_types()
    ensures strictly { Each IsStrictlyBelow ((heap.Eq, heap.Any) ∷ (heap.I31, heap.Eq) ∷ (heap.Struct, heap.Eq) ∷ (heap.Array, heap.Eq)
        ∷ (heap.None, heap.I31) ∷ (heap.None, heap.Struct) ∷ (heap.None, heap.Array) ∷ (heap.None, heap.Any) ∷ (heap.NoFunc, heap.Func)
        ∷ (heap.NoExtern, heap.Extern) ∷ (heap.NoExn, heap.Exn) ∷ []) }
    ensures no_function_below_nothing { ¬ IsBelow [] (plain heap.NoFunc) (plain heap.None) }
    ensures shared_ones { IsBelow [] (Abstract true heap.I31) (Abstract true heap.Any) }
    ensures shared_below_plain { ¬ IsBelow [] (Abstract true heap.Eq) (plain heap.Any) }
    ensures plain_below_shared { ¬ IsBelow [] (plain heap.Eq) (Abstract true heap.Any) }
{}

fn abstract_types_apart()
    ensures tops { Each (λ (a : AbstractHeapType). Each (λ (b : AbstractHeapType). IsBelow [] (plain a) (plain b) → a ≡ b) tops) tops }
    ensures kinds { Each (λ (a : AbstractHeapType). Each (λ (b : AbstractHeapType). IsBelow [] (plain a) (plain b) → a ≡ b) kinds_of_values)
        kinds_of_values }
{}

fn concrete_types()
    ensures declared { IsBelow struct_and_below (Concrete 1) (Concrete 0) }
    ensures declared_twice { IsBelow (open_type None plain_func ∷ open_type (Some 0) plain_func ∷ open_type (Some 1) plain_func
        ∷ []) (Concrete 2) (Concrete 0) }
    ensures itself { IsBelow struct_and_below (Concrete 1) (Concrete 1) }
    ensures not_upwards { ¬ IsBelow struct_and_below (Concrete 0) (Concrete 1) }
    ensures equal_types_apart { ¬ IsBelow (final_type plain_func ∷ final_type plain_func ∷ []) (Concrete 1) (Concrete 0) }
    ensures no_such_type { ¬ IsBelow [] (Concrete 0) (plain heap.Any) }
    ensures kind_and_above { IsBelow struct_and_below (Concrete 1) (plain heap.Any) }
    ensures not_of_another_kind { ¬ IsBelow struct_and_below (Concrete 1) (plain heap.Array) }
    ensures function_and_kind { IsBelow (final_type plain_func ∷ []) (Concrete 0) (plain heap.Func) }
    ensures function_not_of_any { ¬ IsBelow (final_type plain_func ∷ []) (Concrete 0) (plain heap.Any) }
    ensures array_and_kind { IsBelow (final_type (array (variable I8)) ∷ []) (Concrete 0) (plain heap.Array) }
    ensures not_shared { ¬ IsBelow struct_and_below (Concrete 1) (Abstract true heap.Struct) }
    ensures shared_and_kind { IsBelow (shared_type plain_func ∷ []) (Concrete 0) (Abstract true heap.Func) }
    ensures bottom { IsBelow struct_and_below (plain heap.None) (Concrete 1) }
    ensures not_another_bottom { ¬ IsBelow struct_and_below (plain heap.NoFunc) (Concrete 0) }
    ensures no_kind_below_its_types { ¬ IsBelow struct_and_below (plain heap.Struct) (Concrete 0) }
    ensures bottom_of_a_shared_one { IsBelow (shared_type plain_func ∷ []) (Abstract true heap.NoFunc) (Concrete 0) }
    ensures shared_bottom { ¬ IsBelow struct_and_below (Abstract true heap.None) (Concrete 0) }
{}

fn exact_types()
    ensures its_type_and_above { IsBelow struct_and_below (Exact 1) (Concrete 0) }
    ensures kind { IsBelow struct_and_below (Exact 1) (plain heap.Struct) }
    ensures not_what_is_below { ¬ IsBelow struct_and_below (Exact 0) (Concrete 1) }
    ensures itself { IsBelow struct_and_below (Exact 1) (Exact 1) }
    ensures not_another { ¬ IsBelow struct_and_below (Exact 1) (Exact 0) }
    ensures not_its_type { ¬ IsBelow struct_and_below (Concrete 0) (Exact 0) }
    ensures bottom { IsBelow struct_and_below (plain heap.None) (Exact 0) }
    ensures not_another_bottom { ¬ IsBelow struct_and_below (plain heap.NoFunc) (Exact 0) }
    ensures shared_bottom { ¬ IsBelow struct_and_below (Abstract true heap.None) (Exact 0) }
{}

fn references()
    ensures null_added { IsRefBelow [] (not_null (plain heap.Eq)) (nullable (plain heap.Any)) }
    ensures null_kept { IsRefBelow struct_and_below (nullable (Concrete 1)) (nullable (Concrete 0)) }
    ensures neither_null { IsRefBelow struct_and_below (not_null (Concrete 1)) (not_null (Concrete 0)) }
    ensures null_not_lost { ¬ IsRefBelow struct_and_below (nullable (Concrete 1)) (not_null (Concrete 0)) }
    ensures heap_types_apart { ¬ IsRefBelow [] (not_null (plain heap.Any)) (nullable (plain heap.Eq)) }
{}

fn value_types()
    ensures number { IsValBelow [] I32 I32 }
    ensures long_number { IsValBelow [] I64 I64 }
    ensures float { IsValBelow [] F32 F32 }
    ensures long_float { IsValBelow [] F64 F64 }
    ensures vector { IsValBelow [] V128 V128 }
    ensures numbers_apart { ¬ IsValBelow [] I32 I64 }
    ensures floats_apart { ¬ IsValBelow [] F32 F64 }
    ensures number_and_float_apart { ¬ IsValBelow [] I64 F64 }
    ensures vector_apart { ¬ IsValBelow [] V128 I32 }
    ensures reference { IsValBelow [] eqref anyref }
    ensures reference_not_upwards { ¬ IsValBelow [] anyref eqref }
    ensures reference_and_number_apart { ¬ IsValBelow [] anyref I32 }
    ensures number_and_reference_apart { ¬ IsValBelow [] I32 anyref }
{}

fn ranges()
    ensures abstract_one { IsInRange [] (plain heap.Any) }
    ensures concrete_one { IsInRange struct_and_below (Concrete 1) }
    ensures concrete_past_the_end { ¬ IsInRange struct_and_below (Concrete 2) }
    ensures exact_one { IsInRange struct_and_below (Exact 1) }
    ensures exact_past_the_end { ¬ IsInRange struct_and_below (Exact 2) }
    ensures number { IsValInRange [] I32 }
    ensures reference { IsValInRange struct_and_below (Ref (nullable (Concrete 1))) }
    ensures reference_past_the_end { ¬ IsValInRange struct_and_below (Ref (nullable (Concrete 2))) }
{}
