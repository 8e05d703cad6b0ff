ghost use Rattle.std.specs.Prelude.{[], ◌∷◌};
ghost use Rattle.smith_types.specs.Syntax.value_type.HeapType.TheVariants.{Concrete};
ghost use Rattle.smith_types.specs.Syntax.value_type.ValType.TheVariants.{I32, I64, Ref};
ghost use Rattle.smith_types.specs.Syntax.composite_type.StorageType.TheVariants.{I8, I16, Val};
ghost use Rattle.smith_types.specs.Syntax.composite_type.CompositeInnerType.TheVariants.{Func};
ghost use Rattle.smith_types.specs.Matching.{IsStorageMatch, IsFieldMatch, AreFieldsMatched, AreBelow, IsFuncMatch, IsInnerMatch};
ghost use Rattle.smith_types.specs.Matching.{IsCompositeMatch, IsStorageInRange, IsFieldInRange, IsFuncInRange, IsInnerInRange};
ghost use Rattle.smith_types.specs.ExampleTypes.{final_type, shared_type, struct, empty_struct, array, plain_func, struct_and_below};
ghost use Rattle.smith_types.specs.ExampleTypes.{nullable, anyref, eqref, constant, variable, func, taking};

fn storage_types()
    ensures bytes { IsStorageMatch [] I8 I8 }
    ensures pairs_of_bytes { IsStorageMatch [] I16 I16 }
    ensures packed_apart { ¬ IsStorageMatch [] I8 I16 }
    ensures packed_and_value_apart { ¬ IsStorageMatch [] I8 (Val I32) }
    ensures value_and_packed_apart { ¬ IsStorageMatch [] (Val I32) I16 }
    ensures value { IsStorageMatch [] (Val eqref) (Val anyref) }
    ensures values_apart { ¬ IsStorageMatch [] (Val I32) (Val I64) }
{}

fn field_types()
    ensures constant_one { IsFieldMatch [] (constant (Val eqref)) (constant (Val anyref)) }
    ensures constant_upwards { ¬ IsFieldMatch [] (constant (Val anyref)) (constant (Val eqref)) }
    ensures variable_one { IsFieldMatch [] (variable (Val eqref)) (variable (Val eqref)) }
    ensures variable_below { ¬ IsFieldMatch [] (variable (Val eqref)) (variable (Val anyref)) }
    ensures variable_made_constant { ¬ IsFieldMatch [] (variable I8) (constant I8) }
    ensures constant_made_variable { ¬ IsFieldMatch [] (constant I8) (variable I8) }
{}

fn fields()
    ensures longer_struct { AreFieldsMatched [] (constant I8 ∷ constant I16 ∷ []) (constant I8 ∷ []) }
    ensures shorter_struct { ¬ AreFieldsMatched [] (constant I8 ∷ []) (constant I8 ∷ constant I16 ∷ []) }
    ensures other_order { ¬ AreFieldsMatched [] (constant I16 ∷ constant I8 ∷ []) (constant I8 ∷ []) }
    ensures second_field { ¬ AreFieldsMatched [] (constant I8 ∷ constant I8 ∷ []) (constant I8 ∷ constant I16 ∷ []) }
{}

fn functions()
    ensures as_many_values { AreBelow [] (eqref ∷ I32 ∷ []) (anyref ∷ I32 ∷ []) }
    ensures more_values { ¬ AreBelow [] (I32 ∷ I32 ∷ []) (I32 ∷ []) }
    ensures fewer_values { ¬ AreBelow [] [] (I32 ∷ []) }
    ensures second_value { ¬ AreBelow [] (I32 ∷ anyref ∷ []) (I32 ∷ eqref ∷ []) }
    ensures widened_parameter { IsFuncMatch [] (func anyref eqref) (func eqref anyref) }
    ensures narrowed_parameter { ¬ IsFuncMatch [] (func eqref eqref) (func anyref anyref) }
    ensures widened_result { ¬ IsFuncMatch [] (func anyref anyref) (func eqref eqref) }
{}

fn composite_types()
    ensures arrays { IsInnerMatch [] (array (constant (Val eqref))) (array (constant (Val anyref))) }
    ensures arrays_apart { ¬ IsInnerMatch [] (array (variable I8)) (array (variable I16)) }
    ensures structs { IsInnerMatch [] (struct (constant I8 ∷ [])) empty_struct }
    ensures structs_apart { ¬ IsInnerMatch [] empty_struct (struct (constant I8 ∷ [])) }
    ensures functions { IsInnerMatch [] (taking (anyref ∷ [])) (taking (eqref ∷ [])) }
    ensures functions_apart { ¬ IsInnerMatch [] (taking (eqref ∷ [])) (taking (anyref ∷ [])) }
    ensures function_and_struct_apart { ¬ IsInnerMatch [] plain_func empty_struct }
    ensures struct_and_array_apart { ¬ IsInnerMatch [] (struct (variable I8 ∷ [])) (array (variable I8)) }
    ensures both_shared { IsCompositeMatch [] (shared_type plain_func).composite_type (shared_type plain_func).composite_type }
    ensures one_shared { ¬ IsCompositeMatch [] (shared_type plain_func).composite_type (final_type plain_func).composite_type }
    ensures one_that_does_not_match { ¬ IsCompositeMatch [] (final_type plain_func).composite_type
        (final_type empty_struct).composite_type }
{}

fn ranges()
    ensures packed { IsStorageInRange [] I8 }
    ensures reference { IsStorageInRange struct_and_below (Val (Ref (nullable (Concrete 1)))) }
    ensures reference_past_the_end { ¬ IsStorageInRange struct_and_below (Val (Ref (nullable (Concrete 2)))) }
    ensures field { IsFieldInRange struct_and_below (constant (Val (Ref (nullable (Concrete 1))))) }
    ensures field_past_the_end { ¬ IsFieldInRange struct_and_below (constant (Val (Ref (nullable (Concrete 2))))) }
    ensures function { IsFuncInRange struct_and_below (func (Ref (nullable (Concrete 1))) (Ref (nullable (Concrete 1)))) }
    ensures parameter_past_the_end { ¬ IsFuncInRange struct_and_below (func (Ref (nullable (Concrete 2))) (Ref (nullable (Concrete 1)))) }
    ensures result_past_the_end { ¬ IsFuncInRange struct_and_below (func (Ref (nullable (Concrete 1))) (Ref (nullable (Concrete 2)))) }
    ensures array_past_the_end { ¬ IsInnerInRange struct_and_below (array (constant (Val (Ref (nullable (Concrete 2)))))) }
    ensures function_past_the_end { ¬ IsInnerInRange struct_and_below
        (Func (func (Ref (nullable (Concrete 2))) (Ref (nullable (Concrete 1))))) }
    ensures struct_of_references { IsInnerInRange struct_and_below (struct (constant I8 ∷ constant (Val (Ref (nullable (Concrete 1))))
        ∷ [])) }
    ensures struct_past_the_end { ¬ IsInnerInRange struct_and_below (struct (constant I8 ∷ constant (Val (Ref (nullable (Concrete 2))))
        ∷ [])) }
{}
