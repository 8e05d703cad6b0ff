ghost use Rattle.std.specs.Prelude.{◌≡◌, [], ◌∷◌, true, false, Some, None};
ghost use Rattle.smith_types.specs.Syntax.value_type.AbstractHeapType.TheVariants as heap;
ghost use Rattle.smith_types.specs.Syntax.value_type.HeapType.TheVariants.{Abstract, Concrete, Exact};
ghost use Rattle.smith_types.specs.Syntax.value_type.ValType.TheVariants.{I32, I64, F32, F64, V128, Ref};
ghost use Rattle.smith_types.specs.Syntax.composite_type.StorageType.TheVariants.{I8, I16, Val};
ghost use Rattle.smith_types.specs.Syntax.composite_type.CompositeInnerType.TheVariants.{Func};
ghost use Rattle.smith_types.specs.ValidTypes.{IsHeapTypeValid, IsHeapTypeShared, IsRefTypeValid, IsValTypeValid, IsShareable};
ghost use Rattle.smith_types.specs.ValidTypes.{IsFuncTypeValid, IsSupertypeValid, IsTypeValid, IsGroupValid, AreTypesValid, values_of};
ghost use Rattle.smith_types.specs.Syntax.Features.{every_feature};
ghost use Rattle.smith_types.specs.ExampleFeatures.{usual_features, without_gc, no_features, gc_alone};
ghost use Rattle.smith_types.specs.ExampleTypes.{open_type, final_type, shared_type, array, struct, empty_struct, plain_func};
ghost use Rattle.smith_types.specs.ExampleTypes.{struct_and_below, below_final, referring, range, plain, nullable, not_null, anyref, eqref};
ghost use Rattle.smith_types.specs.ExampleTypes.{shared_anyref, constant, variable, func, taking, giving, refers_to};

fn heap_types()
    ensures abstract_one { IsHeapTypeValid gc_alone 0 (plain heap.Any) }
    ensures abstract_needs_gc { ¬ IsHeapTypeValid without_gc 0 (plain heap.Any) }
    ensures before_the_end { IsHeapTypeValid gc_alone 2 (Concrete 1) }
    ensures past_the_end { ¬ IsHeapTypeValid usual_features 1 (Concrete 1) }
    ensures concrete_needs_gc { ¬ IsHeapTypeValid without_gc 2 (Concrete 1) }
    ensures exact { IsHeapTypeValid every_feature 2 (Exact 1) }
    ensures exact_needs_descriptors { ¬ IsHeapTypeValid usual_features 2 (Exact 1) }
    ensures exact_past_the_end { ¬ IsHeapTypeValid every_feature 1 (Exact 1) }
{}

fn reference_types()
    ensures not_null { IsRefTypeValid (record no_features { function_references = true }) 0 (not_null (plain heap.Func)) }
    ensures not_null_needs_its_feature { ¬ IsRefTypeValid (record usual_features { function_references = false }) 0
        (not_null (plain heap.Any)) }
    ensures nullable_without { IsRefTypeValid no_features 0 (nullable (plain heap.Func)) }
    ensures past_the_end { ¬ IsRefTypeValid usual_features 1 (nullable (Concrete 1)) }
{}

fn value_types()
    ensures number { IsValTypeValid no_features 0 I32 }
    ensures long_number { IsValTypeValid no_features 0 I64 }
    ensures float { IsValTypeValid no_features 0 F32 }
    ensures long_float { IsValTypeValid no_features 0 F64 }
    ensures vector { IsValTypeValid (record no_features { simd = true }) 0 V128 }
    ensures vector_without_simd { ¬ IsValTypeValid (record usual_features { simd = false }) 0 V128 }
    ensures reference { IsValTypeValid (record no_features { reference_types = true }) 0 (Ref (nullable (plain heap.Func))) }
    ensures reference_without_its_feature { ¬ IsValTypeValid (record usual_features { reference_types = false }) 0
        (Ref (nullable (plain heap.Func))) }
    ensures reference_past_the_end { ¬ IsValTypeValid usual_features 1 (Ref (nullable (Concrete 1))) }
    ensures exception { IsValTypeValid usual_features 0 (Ref (nullable (plain heap.Exn))) }
    ensures exception_without_its_feature { ¬ IsValTypeValid (record usual_features { exceptions = false }) 0
        (Ref (nullable (plain heap.Exn))) }
{}

fn values()
    ensures of_bytes { values_of (array (variable I8)) ≡ [] }
    ensures of_an_array { values_of (array (variable (Val F64))) ≡ F64 ∷ [] }
    ensures of_a_function { values_of (Func (func anyref I32)) ≡ anyref ∷ I32 ∷ [] }
    ensures of_a_struct { values_of (struct (constant (Val I64) ∷ constant I16 ∷ variable (Val eqref) ∷ [])) ≡ I64 ∷ eqref ∷ [] }
{}

fn function_types()
    ensures parameter_and_result { IsFuncTypeValid no_features 0 (func I32 F64) }
    ensures several_results { IsFuncTypeValid usual_features 0 (record { params = []; results = I32 ∷ I32 ∷ [] }) }
    ensures several_results_without_their_feature { ¬ IsFuncTypeValid (record usual_features { multi_value = false }) 0
        (record { params = []; results = I32 ∷ I32 ∷ [] }) }
    ensures parameters_that_stand { ¬ IsFuncTypeValid usual_features 0
        (record { params = Ref (nullable (Concrete 0)) ∷ []; results = [] }) }
    ensures results_that_stand { ¬ IsFuncTypeValid usual_features 0 (record { params = []; results = Ref (nullable (Concrete 0)) ∷ [] }) }
{}

fn sharing()
    ensures abstract_one { IsHeapTypeShared [] (Abstract true heap.Any) }
    ensures abstract_not_shared { ¬ IsHeapTypeShared [] (plain heap.Any) }
    ensures concrete_one { IsHeapTypeShared (shared_type plain_func ∷ []) (Concrete 0) }
    ensures concrete_not_shared { ¬ IsHeapTypeShared (final_type plain_func ∷ []) (Concrete 0) }
    ensures no_such_type { ¬ IsHeapTypeShared [] (Concrete 0) }
    ensures exact_one { IsHeapTypeShared (shared_type plain_func ∷ []) (Exact 0) }
    ensures exact_not_shared { ¬ IsHeapTypeShared (final_type plain_func ∷ []) (Exact 0) }
    ensures number { IsShareable [] I32 }
    ensures vector { IsShareable [] V128 }
    ensures reference { IsShareable [] shared_anyref }
    ensures plain_reference { ¬ IsShareable [] anyref }
{}

fn supertypes()
    ensures one { IsSupertypeValid [] (open_type (Some 0) empty_struct) (open_type None empty_struct) }
    ensures a_final_one { ¬ IsSupertypeValid [] (open_type (Some 0) empty_struct) (final_type empty_struct) }
    ensures a_longer_one { ¬ IsSupertypeValid [] (open_type (Some 0) empty_struct) (open_type None (struct (constant I8 ∷ []))) }
    ensures widened_parameter { IsSupertypeValid [] (open_type (Some 0) (Func (func anyref eqref)))
        (open_type None (Func (func eqref anyref))) }
    ensures narrowed_parameter { ¬ IsSupertypeValid [] (open_type (Some 0) (Func (func eqref eqref)))
        (open_type None (Func (func anyref eqref))) }
{}

fn types()
    ensures alone { IsTypeValid no_features [] 0 (final_type plain_func) }
    ensures not_enabled { ¬ IsTypeValid without_gc [] 0 (final_type empty_struct) }
    ensures referring_to_itself { IsTypeValid usual_features [] 1 (final_type (struct (refers_to 0 ∷ []))) }
    ensures referring_past_the_end { ¬ IsTypeValid usual_features [] 0 (final_type (struct (refers_to 0 ∷ []))) }
    ensures one_below_another { IsTypeValid usual_features struct_and_below 2 (open_type (Some 0) empty_struct) }
    ensures below_a_final_one { ¬ IsTypeValid usual_features below_final 2 (open_type (Some 0) empty_struct) }
    ensures no_supertype { ¬ IsTypeValid usual_features [] 2 (open_type (Some 0) empty_struct) }
    ensures packed_and_shared { IsTypeValid usual_features [] 0 (shared_type (struct (constant I8 ∷ []))) }
    ensures holding_shared { IsTypeValid usual_features [] 0 (shared_type (struct (constant (Val shared_anyref) ∷ []))) }
    ensures holding_unshared { ¬ IsTypeValid usual_features [] 0 (shared_type (struct (constant (Val anyref) ∷ []))) }
    ensures holding_a_shared_type_after { IsTypeValid usual_features (shared_type (struct (refers_to 1 ∷ [])) ∷ shared_type plain_func
        ∷ []) 2 (shared_type (struct (refers_to 1 ∷ []))) }
    ensures holding_an_unshared_type_after { ¬ IsTypeValid usual_features (shared_type (struct (refers_to 1 ∷ [])) ∷ final_type plain_func
        ∷ []) 2 (shared_type (struct (refers_to 1 ∷ []))) }
    ensures taking_unshared { ¬ IsTypeValid usual_features [] 0 (shared_type (taking (anyref ∷ []))) }
    ensures giving_unshared { ¬ IsTypeValid usual_features [] 0 (shared_type (giving (anyref ∷ []))) }
{}

fn groups()
    ensures empty { IsGroupValid gc_alone [] (range 0 0) }
    ensures referring_within { IsGroupValid usual_features referring (range 0 2) }
    ensures referring_after { ¬ IsGroupValid usual_features referring (range 0 1) }
    ensures second_referring_after { ¬ IsGroupValid usual_features (final_type plain_func ∷ final_type (struct (refers_to 2 ∷ []))
        ∷ []) (range 0 2) }
    ensures single_without_gc { IsGroupValid no_features (final_type plain_func ∷ final_type plain_func ∷ []) (range 0 1) }
    ensures two_without_gc { ¬ IsGroupValid without_gc (final_type plain_func ∷ final_type plain_func ∷ []) (range 0 2) }
    ensures none_without_gc { ¬ IsGroupValid without_gc [] (range 0 0) }
{}

fn type_spaces()
    ensures no_group { AreTypesValid no_features (record { types = []; groups = [] }) }
    ensures an_empty_group { AreTypesValid gc_alone (record { types = []; groups = range 0 0 ∷ [] }) }
    ensures two_groups { AreTypesValid usual_features
        (record { types = final_type plain_func ∷ final_type (struct (refers_to 0 ∷ [])) ∷ []; groups = range 0 1 ∷ range 1 2 ∷ [] }) }
    ensures in_no_group { ¬ AreTypesValid usual_features (record { types = referring; groups = [] }) }
    ensures in_a_longer_group { ¬ AreTypesValid usual_features (record { types = referring; groups = range 0 3 ∷ [] }) }
{}
