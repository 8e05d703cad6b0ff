ghost use Rattle.std.specs.Prelude.{ℕ, [], ◌∷◌, true, false, Some, None};
ghost use Rattle.smith_types.specs.Syntax.value_type.AbstractHeapType.TheVariants as heap;
ghost use Rattle.smith_types.specs.Syntax.value_type.HeapType.TheVariants.{Concrete};
ghost use Rattle.smith_types.specs.Syntax.value_type.ValType.TheVariants.{I32, I64, F32, Ref};
ghost use Rattle.smith_types.specs.Syntax.composite_type.StorageType.TheVariants.{I8};
ghost use Rattle.smith_types.specs.ExampleTypes.{plain, constant, variable, nullable, not_null};
ghost use Rattle.smith_config.specs.Config.{default_config};
ghost use Rattle.smith_config.specs.Shapes.{space_of};
ghost use Rattle.smith_draw_types.specs.Spelling.{SpellsPlace, SpellsConcrete, SpellsRefType, SpellsValType, SpellsField, SpellsFuncType};
ghost use Rattle.smith_draw_types.specs.Spelling.{SpellsStructType, SpellsCompositeType, SpellsSubType, SpellsGroup, ReferBack, GroupsFit};
ghost use Rattle.smith_draw_types.specs.Spelling.{SpellsAdded, SpellsSpace};
ghost use Rattle.smith_config.specs.ExampleMembers.{final, alone, one_function_type, array_and_struct, struct_of, struct_of_bytes};
ghost use Rattle.smith_config.specs.ExampleMembers.{struct_with, struct_and_holder, single_results, without_gc, without_floats};
ghost use Rattle.smith_config.specs.ExampleMembers.{with_shared_types, with_non_nullable, a_type, bytes_array, plain_function};

fn places()
    ensures a_place { SpellsPlace {A = ℕ} (7 ∷ 8 ∷ []) 8 (3 ∷ []) }
    ensures another_place { ¬ SpellsPlace {A = ℕ} (7 ∷ 8 ∷ []) 8 (2 ∷ []) }
    ensures not_in_the_list { ¬ SpellsPlace {A = ℕ} (7 ∷ []) 8 [] }
{}

fn values()
    ensures concrete { SpellsConcrete default_config 1 true (1 ∷ []) }
    ensures not_concrete { ¬ SpellsConcrete default_config 1 true (0 ∷ []) }
    ensures no_type_below { SpellsConcrete default_config 0 false [] }
    ensures no_type_without_gc { SpellsConcrete without_gc 1 false [] }
    ensures a_reference { SpellsRefType default_config 1 (nullable (Concrete 0)) (1 ∷ []) }
    ensures a_reference_of_two { SpellsRefType default_config 2 (nullable (Concrete 1)) (1 ∷ 1 ∷ []) }
    ensures a_reference_to_another { ¬ SpellsRefType default_config 2 (nullable (Concrete 1)) (1 ∷ 0 ∷ []) }
    ensures a_reference_that_is_not_null { ¬ SpellsRefType default_config 1 (not_null (Concrete 0)) (1 ∷ []) }
    ensures a_reference_and_a_bool { ¬ SpellsRefType default_config 1 (nullable (Concrete 0)) (1 ∷ 0 ∷ []) }
    ensures a_reference_without_its_feature { ¬ SpellsRefType (record without_gc { reference_types_enabled = false }) 0
        (nullable (plain heap.Func)) (0 ∷ []) }
    ensures a_number { SpellsValType default_config 0 I64 (7 ∷ []) }
    ensures another_number { ¬ SpellsValType default_config 0 I64 (0 ∷ []) }
    ensures a_float_where_floats_are_off { ¬ SpellsValType without_floats 0 F32 (2 ∷ []) }
    ensures a_mutable_byte { SpellsField default_config 0 (variable I8) (0 ∷ 1 ∷ []) }
    ensures a_constant_byte { ¬ SpellsField default_config 0 (constant I8) (0 ∷ 1 ∷ []) }
    ensures one_result { SpellsFuncType single_results 0 (record { params = []; results = I32 ∷ [] }) (0 ∷ 1 ∷ 0 ∷ []) }
    ensures one_result_and_a_bool { ¬ SpellsFuncType single_results 0 (record { params = []; results = I32 ∷ [] }) (0 ∷ 1 ∷ 0 ∷ 0 ∷ []) }
    ensures one_field { SpellsStructType default_config 0 (record { fields = constant I8 ∷ [] }) (1 ∷ 0 ∷ 0 ∷ []) }
    ensures two_fields { ¬ SpellsStructType default_config 0 (record { fields = constant I8 ∷ [] }) (2 ∷ 0 ∷ 0 ∷ []) }
    ensures no_field_once_round { SpellsStructType default_config 0 (record { fields = [] }) (21 ∷ []) }
{}

fn nullability()
    ensures nullable { SpellsRefType with_non_nullable 1 (nullable (Concrete 0)) (1 ∷ 0 ∷ []) }
    ensures not_nullable { SpellsRefType with_non_nullable 1 (not_null (Concrete 0)) (1 ∷ 1 ∷ []) }
    ensures not_nullable_of_two { SpellsRefType with_non_nullable 2 (not_null (Concrete 0)) (1 ∷ 0 ∷ 1 ∷ []) }
    ensures not_nullable_and_abstract { SpellsRefType with_non_nullable 0 (not_null (plain heap.Any)) (3 ∷ 1 ∷ []) }
    ensures nullable_by_another_bool { ¬ SpellsRefType with_non_nullable 1 (nullable (Concrete 0)) (1 ∷ 1 ∷ []) }
    ensures not_nullable_by_another_bool { ¬ SpellsRefType with_non_nullable 1 (not_null (Concrete 0)) (1 ∷ 0 ∷ []) }
    ensures no_bool { ¬ SpellsRefType with_non_nullable 1 (nullable (Concrete 0)) (1 ∷ []) }
    ensures a_bool_before_the_heap_type { ¬ SpellsRefType with_non_nullable 0 (not_null (plain heap.Func)) (1 ∷ 0 ∷ []) }
    ensures a_value_type { SpellsValType with_non_nullable 1 (Ref (not_null (Concrete 0))) (5 ∷ 1 ∷ 1 ∷ []) }
    ensures a_value_type_without_a_bool { ¬ SpellsValType with_non_nullable 1 (Ref (not_null (Concrete 0))) (5 ∷ 1 ∷ []) }
{}

fn types()
    ensures an_array { SpellsCompositeType default_config 0 (record { inner = bytes_array; shared = false }) (0 ∷ 0 ∷ 0 ∷ []) }
    ensures an_array_where_types_may_be_shared { SpellsCompositeType with_shared_types 0 (record { inner = bytes_array; shared = false }) (1
        ∷ 0 ∷ 0 ∷ 0 ∷ []) }
    ensures a_shared_array { ¬ SpellsCompositeType with_shared_types 0 (record { inner = bytes_array; shared = true }) (0 ∷ 0 ∷ 0 ∷ 0
        ∷ []) }
    ensures a_list_as_an_array { ¬ SpellsCompositeType default_config 0 (record { inner = bytes_array; shared = false }) (1 ∷ 0 ∷ 0 ∷ []) }
    ensures after_an_open_type { SpellsSubType default_config (a_type bytes_array false None ∷ []) 2 (final bytes_array) (1 ∷ 1 ∷ 0 ∷ 0 ∷ 0
        ∷ []) }
    ensures below_an_open_type { ¬ SpellsSubType default_config (a_type bytes_array false None ∷ []) 2 (final bytes_array) (0 ∷ 1 ∷ 0 ∷ 0
        ∷ 0 ∷ []) }
    ensures after_a_final_type { SpellsSubType default_config (final bytes_array ∷ []) 2 (final bytes_array) (1 ∷ 0 ∷ 0 ∷ 0 ∷ []) }
    ensures with_a_supertype { ¬ SpellsSubType default_config (a_type bytes_array false None ∷ []) 2 (a_type bytes_array true (Some 0)) (0
        ∷ 0 ∷ 0 ∷ 1 ∷ []) }
    ensures shared { ¬ SpellsSubType with_shared_types [] 1
        (record (final bytes_array) { composite_type = record { inner = bytes_array; shared = true } }) (1 ∷ 0 ∷ 0 ∷ 0 ∷ 0 ∷ []) }
    ensures not_final_without_gc { ¬ SpellsSubType without_gc [] 1 (a_type plain_function false None) (0 ∷ 0 ∷ []) }
    ensures an_array_without_gc { ¬ SpellsSubType without_gc [] 1 (final bytes_array) (0 ∷ 0 ∷ []) }
    ensures an_empty_group { SpellsGroup default_config [] false [] (0 ∷ []) }
    ensures a_group_of_one { ¬ SpellsGroup default_config [] false [] (1 ∷ []) }
{}

fn spaces()
    ensures back_to_an_array { ReferBack default_config [] (final bytes_array ∷ final (struct_of 0) ∷ []) }
    ensures to_itself { ¬ ReferBack default_config [] (final (struct_of 0) ∷ []) }
    ensures back_to_a_struct_that_is_not_null { ReferBack with_non_nullable [] (final (struct_of_bytes 0) ∷ final (struct_with (Concrete 0))
        ∷ []) }
    ensures back_to_no_struct { ¬ ReferBack with_non_nullable [] (final bytes_array ∷ final (struct_with (Concrete 0)) ∷ []) }
    ensures to_a_later_struct { ¬ ReferBack with_non_nullable [] (final (struct_with (plain heap.Any)) ∷ final (struct_of_bytes 0) ∷ []) }
    ensures two_types { GroupsFit (record default_config { max_types = 2 }) [] array_and_struct }
    ensures no_room_for_two { ¬ GroupsFit (record default_config { max_types = 1 }) [] array_and_struct }
    ensures an_empty_group { ¬ GroupsFit default_config [] ([] ∷ []) }
    ensures a_group_that_refers_to_itself { ¬ GroupsFit default_config [] (alone (struct_of 0) ∷ []) }
    ensures groups_of_a_struct_that_is_not_null { GroupsFit with_non_nullable [] struct_and_holder }
    ensures groups_of_a_struct_without_another { ¬ GroupsFit with_non_nullable [] (alone (struct_with (plain heap.Any)) ∷ []) }
    ensures one_group_more { SpellsAdded default_config (space_of []) (space_of one_function_type) (1 ∷ 1 ∷ 1 ∷ 0 ∷ 0 ∷ []) }
    ensures no_group_more { ¬ SpellsAdded default_config (space_of []) (space_of []) (0 ∷ []) }
    ensures one_group_that_refers_to_itself { ¬ SpellsAdded default_config (space_of []) (space_of (alone (struct_of 0) ∷ [])) (1 ∷ 1 ∷ 2
        ∷ 1 ∷ 2 ∷ 5 ∷ 1 ∷ 1 ∷ []) }
    ensures one_group_of_other_bytes { ¬ SpellsAdded default_config (space_of []) (space_of one_function_type) (2 ∷ 1 ∷ 1 ∷ 0 ∷ 0 ∷ []) }
    ensures a_space { SpellsSpace default_config (space_of one_function_type) (1 ∷ 1 ∷ 1 ∷ 1 ∷ 0 ∷ 0 ∷ 0 ∷ []) }
    ensures a_space_that_refers_to_itself { ¬ SpellsSpace default_config (space_of (alone (struct_of 0) ∷ [])) (1 ∷ 1 ∷ 1 ∷ 2 ∷ 1 ∷ 2 ∷ 5
        ∷ 1 ∷ 1 ∷ 0 ∷ []) }
    ensures a_space_of_other_bytes { ¬ SpellsSpace default_config (space_of one_function_type) (0 ∷ []) }
    ensures a_space_without_groups { ¬ SpellsSpace default_config (record { types = final plain_function ∷ []; groups = [] }) (1 ∷ 1 ∷ 1 ∷ 1
        ∷ 0 ∷ 0 ∷ 0 ∷ []) }
{}
