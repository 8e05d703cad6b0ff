// Drawn composite types, subtypes and groups. The clauses are proved; nothing calls these
// functions.

ghost use Rattle.std.specs.Prelude.{◌≡◌, [], ◌∷◌, replicate, true, false, Some};
ghost use Rattle.smith_types.specs.Syntax.composite_type.StorageType.TheVariants.{I8, I16};
ghost use Rattle.smith_types.specs.Syntax.value_type.ValType.TheVariants.{I64};
ghost use Rattle.smith_types.specs.ExampleTypes.{constant, variable, empty_struct, struct, array, plain_func, open_type, final_type};
ghost use Rattle.smith_types.specs.ExampleTypes.{struct_and_below};
ghost use Rattle.smith_draw_consts.specs.ExampleConstExprs.{context_of_types};
ghost use Rattle.smith_config.specs.Config.{default_config};
ghost use Rattle.smith_draw_types.specs.CompositeTypes.{struct_type_at, func_type_at, composite_type_at};
ghost use Rattle.smith_draw_types.specs.MatchingComposites.{matching_struct_type_at};
ghost use Rattle.smith_draw_types.specs.SubTypes.{may_have_subtypes, supertype_wanted_at, root_type_at, sub_type_of_at};
ghost use Rattle.smith_draw_types.specs.RecGroups.{clone_wanted_at};
ghost use Rattle.smith_draw_types.specs.ExampleReferenceScopes.{chain};

#[tactic(auto, unfolding(smith_draw_types::specs::CompositeTypes::struct_type_at, smith_draw_types::specs::MatchingComposites::matching_struct_type_at, smith_draw_types::specs::MatchingTypes::matched_fields_at, smith_draw_types::specs::MatchingTypes::each_at, smith_draw_types::specs::MatchingTypes::matching_field_type_at, smith_draw_types::specs::FieldTypes::fields_until_at, smith_draw_types::specs::FieldTypes::field_type_at, smith_draw_types::specs::FieldTypes::storage_type_at, smith_bytes::specs::Growth::grow_at, smith_bytes::specs::Draws::bool_at, smith_bytes::specs::Draws::range_at, smith_bytes::specs::Draws::digit_count))]
fn fields()
    ensures at_most { struct_type_at default_config (context_of_types []) false 0 (20 ∷ [])
        ≡ (record { fields = replicate 20 (constant I8) }, []) }
    ensures past_the_most { struct_type_at default_config (context_of_types []) false 0 (21 ∷ []) ≡ (record { fields = [] }, []) }
    ensures extra_at_most { matching_struct_type_at default_config (context_of_types []) false 0 (record { fields = [] }) (5 ∷ [])
        ≡ (record { fields = replicate 5 (constant I8) }, []) }
    ensures past_the_most_extra { matching_struct_type_at default_config (context_of_types []) false 0 (record { fields = [] }) (6 ∷ [])
        ≡ (record { fields = [] }, []) }
    ensures extra_ones_last { matching_struct_type_at default_config (context_of_types []) false 0 (record { fields = constant I8 ∷ [] }) (1
        ∷ 0 ∷ 1 ∷ []) ≡ (record { fields = constant I8 ∷ variable I8 ∷ [] }, []) }
{}

#[tactic(auto, unfolding(smith_draw_types::specs::CompositeTypes::func_type_at, smith_draw_types::specs::CompositeTypes::val_types_at, smith_draw_types::specs::ValueTypes::val_type_at, smith_draw_types::specs::Choices::chosen_at, smith_bytes::specs::Growth::grow_at, smith_bytes::specs::Draws::bool_at, smith_bytes::specs::Draws::range_at, smith_bytes::specs::Draws::digit_count))]
fn functions()
    ensures at_most { func_type_at default_config (context_of_types []) false 0 (replicate 90 1)
        ≡ (record { params = replicate 20 I64; results = replicate 20 I64 }, replicate 10 1) }
    ensures one_result { func_type_at (record default_config { multi_value_enabled = false }) (context_of_types []) false 0 (0
        ∷ replicate 9 1) ≡ (record { params = []; results = I64 ∷ [] }, replicate 7 1) }
{}

#[tactic(auto, unfolding(smith_draw_types::specs::CompositeTypes::composite_type_at, smith_draw_types::specs::CompositeTypes::func_type_at, smith_draw_types::specs::CompositeTypes::val_types_at, smith_draw_types::specs::CompositeTypes::struct_type_at, smith_draw_types::specs::ValueTypes::sharedness_at, smith_draw_types::specs::FieldTypes::fields_until_at, smith_draw_types::specs::FieldTypes::field_type_at, smith_draw_types::specs::FieldTypes::storage_type_at, smith_bytes::specs::Growth::grow_at, smith_bytes::specs::Draws::ratio_at, smith_bytes::specs::Draws::bool_at, smith_bytes::specs::Draws::range_at, smith_bytes::specs::Draws::digit_count))]
fn composite_types()
    ensures first { composite_type_at default_config (context_of_types []) 0 (0 ∷ 1 ∷ 1 ∷ [])
        ≡ (record { inner = array (variable I16); shared = false }, []) }
    ensures second { composite_type_at default_config (context_of_types []) 0 (1 ∷ 0 ∷ 0 ∷ 7 ∷ [])
        ≡ (record { inner = plain_func; shared = false }, 7 ∷ []) }
    ensures third { composite_type_at default_config (context_of_types []) 0 (2 ∷ 1 ∷ 0 ∷ 0 ∷ 7 ∷ [])
        ≡ (record { inner = struct (constant I8 ∷ []); shared = false }, 7 ∷ []) }
    ensures without_gc { composite_type_at (record default_config { gc_enabled = false }) (context_of_types []) 0 []
        ≡ (record { inner = plain_func; shared = false }, []) }
    ensures shared { composite_type_at (record default_config { shared_everything_threads_enabled = true }) (context_of_types []) 0 (0 ∷ 2
        ∷ 0 ∷ []) ≡ (record { inner = empty_struct; shared = true }, []) }
{}

#[tactic(auto, unfolding(smith_draw_types::specs::SubTypes::root_type_at, smith_draw_types::specs::SubTypes::sub_type_of_at, smith_draw_types::specs::MatchingComposites::matching_composite_type_at, smith_draw_types::specs::MatchingComposites::matching_struct_type_at, smith_draw_types::specs::MatchingTypes::matched_fields_at, smith_draw_types::specs::MatchingTypes::each_at, smith_draw_types::specs::CompositeTypes::composite_type_at, smith_draw_types::specs::CompositeTypes::func_type_at, smith_draw_types::specs::CompositeTypes::val_types_at, smith_draw_types::specs::ValueTypes::sharedness_at, smith_draw_types::specs::FieldTypes::fields_until_at, smith_draw_types::specs::FieldTypes::field_type_at, smith_draw_types::specs::FieldTypes::storage_type_at, smith_draw_types::specs::Choices::chosen_at, smith_bytes::specs::Growth::grow_at, smith_bytes::specs::Draws::bool_at, smith_bytes::specs::Draws::range_at, smith_bytes::specs::Draws::digit_count))]
fn subtypes()
    ensures final_first { root_type_at default_config (context_of_types []) 0 (1 ∷ 0 ∷ 0 ∷ 0 ∷ [])
        ≡ (final_type (array (constant I8)), []) }
    ensures final_without_gc { root_type_at (record default_config { gc_enabled = false }) (context_of_types []) 0 (0 ∷ 0 ∷ 1 ∷ [])
        ≡ (final_type plain_func, 1 ∷ []) }
    ensures final_last_below_a_type { sub_type_of_at default_config (context_of_types struct_and_below) 2 (0 ∷ []) (1 ∷ 0 ∷ 1 ∷ 0 ∷ [])
        ≡ (open_type (Some 0) (struct (variable I8 ∷ [])), []) }
{}

#[tactic(auto, unfolding(smith_draw_types::specs::Offered::ancestors))]
fn chains()
    ensures of_depth_59 { may_have_subtypes (chain 59) 58 (open_type (Some 57) empty_struct) ≡ true }
    ensures of_depth_60 { may_have_subtypes (chain 59) 59 (open_type (Some 58) empty_struct) ≡ false }
{}

#[tactic(auto, unfolding(smith_bytes::specs::Draws::ratio_at, smith_bytes::specs::Draws::range_at, smith_bytes::specs::Draws::digit_count))]
fn rare_choices()
    ensures a_supertype { supertype_wanted_at default_config 1 (0 ∷ []) ≡ (true, []) }
    ensures no_supertype { supertype_wanted_at default_config 1 (1 ∷ []) ≡ (false, []) }
    ensures no_supertype_of_32 { supertype_wanted_at default_config 1 (31 ∷ []) ≡ (false, []) }
    ensures a_supertype_past_32 { supertype_wanted_at default_config 1 (32 ∷ []) ≡ (true, []) }
    ensures a_clone { clone_wanted_at default_config (record { types = []; groups = record { start = 0; end = 0 } ∷ [] }) (0 ∷ [])
        ≡ (true, []) }
    ensures no_clone_of_255 { clone_wanted_at default_config (record { types = []; groups = record { start = 0; end = 0 } ∷ [] }) (254 ∷ [])
        ≡ (false, []) }
    ensures a_clone_past_255 { clone_wanted_at default_config (record { types = []; groups = record { start = 0; end = 0 } ∷ [] }) (255
        ∷ []) ≡ (true, []) }
{}
