ghost use Rattle.std.specs.Prelude.{[], ◌∷◌, true, false, Some, None};
ghost use Rattle.smith_types.specs.Syntax.value_type.AbstractHeapType.TheVariants as heap;
ghost use Rattle.smith_types.specs.Syntax.value_type.HeapType.TheVariants.{Abstract, Concrete, Exact};
ghost use Rattle.smith_types.specs.Syntax.value_type.ValType.TheVariants.{I32, I64, F32, F64, V128, Ref};
ghost use Rattle.smith_types.specs.Syntax.composite_type.StorageType.TheVariants.{I16, Val};
ghost use Rattle.smith_types.specs.ExampleTypes.{plain, constant, nullable, not_null};
ghost use Rattle.smith_config.specs.Config.{default_config};
ghost use Rattle.smith_spell.specs.Family.{IsInFamily, IsMemberType, IsMemberInner, IsMemberField, IsMemberValType, IsMemberHeapType};
ghost use Rattle.smith_config.specs.ExampleMembers.{final, alone, one_function_type, array_and_struct, array_and_struct_together};
ghost use Rattle.smith_config.specs.ExampleMembers.{taking_a_number, taking_numbers, giving_numbers, giving, giving_two, struct_of};
ghost use Rattle.smith_config.specs.ExampleMembers.{struct_of_bytes, struct_with, struct_and_holder, one_of_each_without_gc};
ghost use Rattle.smith_config.specs.ExampleMembers.{single_results, without_gc, without_floats, with_shared_types, with_non_nullable};
ghost use Rattle.smith_config.specs.ExampleMembers.{with_exact_types, a_type, bytes_array, plain_function, taking};

fn members()
    ensures a_function { IsInFamily default_config one_function_type (0 ∷ []) }
    ensures full_without_gc { IsInFamily one_of_each_without_gc (alone taking_a_number ∷ []) (0 ∷ []) }
    ensures array_and_struct { IsInFamily default_config array_and_struct [] }
    ensures an_earlier_type_of_its_group { IsInFamily default_config array_and_struct_together [] }
    ensures nothing { IsInFamily default_config [] [] }
    ensures a_struct_of_a_reference_that_is_not_null { IsInFamily with_non_nullable struct_and_holder [] }
    ensures where_references_are_nullable { ¬ IsInFamily default_config struct_and_holder [] }
    ensures a_struct_of_a_later_group { ¬ IsInFamily with_non_nullable (alone (struct_with (plain heap.Any)) ∷ alone (struct_of_bytes 0)
        ∷ []) [] }
    ensures an_empty_group { ¬ IsInFamily default_config ([] ∷ []) [] }
    ensures two_in_a_group_without_gc { ¬ IsInFamily (record default_config { gc_enabled = false })
        ((final plain_function ∷ final plain_function ∷ []) ∷ []) [] }
    ensures too_many_types { ¬ IsInFamily (record default_config { max_types = 0 }) one_function_type [] }
    ensures too_many_functions { ¬ IsInFamily (record default_config { max_funcs = 0 }) one_function_type (0 ∷ []) }
    ensures a_function_of_an_array_type { ¬ IsInFamily default_config (alone bytes_array ∷ []) (0 ∷ []) }
    ensures a_function_of_no_type { ¬ IsInFamily default_config one_function_type (1 ∷ []) }
    ensures a_type_that_refers_to_itself { ¬ IsInFamily default_config (alone (struct_of 0) ∷ []) [] }
    ensures a_type_that_refers_forward { ¬ IsInFamily default_config ((final (struct_of 1) ∷ final bytes_array ∷ []) ∷ []) [] }
    ensures a_type_of_a_later_group { ¬ IsInFamily default_config (alone (struct_of 1) ∷ alone bytes_array ∷ []) [] }
{}

fn types()
    ensures not_final { IsMemberType default_config [] (a_type bytes_array false None) }
    ensures not_final_without_gc { ¬ IsMemberType one_of_each_without_gc [] (a_type plain_function false None) }
    ensures below_another { ¬ IsMemberType default_config (final bytes_array ∷ []) (a_type bytes_array true (Some 0)) }
    ensures shared { ¬ IsMemberType default_config []
        (record (final plain_function) { composite_type = record { inner = plain_function; shared = true } }) }
    ensures an_array_without_gc { ¬ IsMemberInner one_of_each_without_gc [] bytes_array }
    ensures a_struct_without_gc { ¬ IsMemberInner one_of_each_without_gc [] (struct_of_bytes 0) }
    ensures twenty_fields { IsMemberInner default_config [] (struct_of_bytes 20) }
    ensures too_many_fields { ¬ IsMemberInner default_config [] (struct_of_bytes 21) }
    ensures a_field_where_floats_are_off { IsMemberField without_floats [] (constant I16) }
    ensures a_field_of_a_float_where_they_are_off { ¬ IsMemberField without_floats [] (constant (Val F64)) }
    ensures twenty_parameters { IsMemberInner default_config [] (taking_numbers 20) }
    ensures too_many_parameters { ¬ IsMemberInner default_config [] (taking_numbers 21) }
    ensures a_parameter_that_is_off { ¬ IsMemberInner without_floats [] (taking F32) }
    ensures twenty_results { IsMemberInner default_config [] (giving_numbers 20) }
    ensures too_many_results { ¬ IsMemberInner default_config [] (giving_numbers 21) }
    ensures a_result_that_is_off { ¬ IsMemberInner without_floats [] (giving F32) }
    ensures one_result { IsMemberInner single_results [] (giving I32) }
    ensures two_results { IsMemberInner default_config [] giving_two }
    ensures one_result_too_many { ¬ IsMemberInner single_results [] giving_two }
{}

fn values()
    ensures a_float { IsMemberValType default_config [] F32 }
    ensures a_float_where_floats_are_off { ¬ IsMemberValType without_floats [] F32 }
    ensures a_number { IsMemberValType without_floats [] I64 }
    ensures a_greater_float_where_floats_are_off { ¬ IsMemberValType without_floats [] F64 }
    ensures a_vector { IsMemberValType default_config [] V128 }
    ensures a_vector_without_simd { ¬ IsMemberValType (record default_config { simd_enabled = false }) [] V128 }
    ensures a_reference { IsMemberValType default_config [] (Ref (nullable (plain heap.Extern))) }
    ensures a_reference_that_is_not_null { ¬ IsMemberValType default_config [] (Ref (not_null (plain heap.Extern))) }
    ensures a_reference_without_its_feature { ¬ IsMemberValType
        (record default_config { reference_types_enabled = false; gc_enabled = false }) [] (Ref (nullable (plain heap.Func))) }
    ensures an_exception { IsMemberHeapType default_config [] (plain heap.Exn) }
    ensures an_exception_without_its_feature { ¬ IsMemberHeapType (record default_config { exceptions_enabled = false }) []
        (plain heap.Exn) }
    ensures the_last_that_is_offered { IsMemberHeapType default_config [] (plain heap.I31) }
    ensures any_without_gc { ¬ IsMemberHeapType without_gc [] (plain heap.Any) }
    ensures a_function_without_gc { IsMemberHeapType without_gc [] (plain heap.Func) }
    ensures no_exception { ¬ IsMemberHeapType default_config [] (plain heap.NoExn) }
    ensures a_shared_type { ¬ IsMemberHeapType default_config [] (Abstract true heap.Func) }
    ensures a_shared_type_where_types_may_be_shared { ¬ IsMemberHeapType with_shared_types [] (Abstract true heap.Func) }
    ensures a_smaller_index { IsMemberHeapType default_config (final bytes_array ∷ []) (Concrete 0) }
    ensures its_own_index { ¬ IsMemberHeapType default_config (final bytes_array ∷ []) (Concrete 1) }
    ensures an_exact_type { ¬ IsMemberHeapType default_config (final bytes_array ∷ []) (Exact 0) }
    ensures an_exact_type_where_types_may_be_exact { ¬ IsMemberHeapType with_exact_types (final bytes_array ∷ []) (Exact 0) }
    ensures an_index_without_gc { ¬ IsMemberHeapType one_of_each_without_gc (final bytes_array ∷ []) (Concrete 0) }
{}

fn nullability()
    ensures a_struct_that_is_not_null { IsMemberValType with_non_nullable (final (struct_of_bytes 1) ∷ []) (Ref (not_null (Concrete 0))) }
    ensures a_struct_below_any { IsMemberValType with_non_nullable (final (struct_of_bytes 1) ∷ []) (Ref (not_null (plain heap.Any))) }
    ensures an_exact_struct { IsMemberValType (record with_non_nullable { custom_descriptors_enabled = true }) (final (struct_of_bytes 1)
        ∷ []) (Ref (not_null (Concrete 0))) }
    ensures a_nullable_reference_beside_others { IsMemberValType with_non_nullable [] (Ref (nullable (plain heap.Extern))) }
    ensures a_struct_where_references_are_nullable { ¬ IsMemberValType default_config (final (struct_of_bytes 1)
        ∷ []) (Ref (not_null (Concrete 0))) }
    ensures no_struct_below_any { ¬ IsMemberValType with_non_nullable (final bytes_array ∷ []) (Ref (not_null (plain heap.Any))) }
    ensures an_array_that_is_not_null { ¬ IsMemberValType with_non_nullable (final bytes_array ∷ []) (Ref (not_null (Concrete 0))) }
    ensures no_struct_below_a_function { ¬ IsMemberValType with_non_nullable (final (struct_of_bytes 1)
        ∷ []) (Ref (not_null (plain heap.Func))) }
    ensures a_struct_without_defaults { ¬ IsMemberValType with_non_nullable (final (struct_with (plain heap.Any))
        ∷ []) (Ref (not_null (Concrete 0))) }
{}
