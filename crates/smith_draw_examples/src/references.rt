// Drawn non-nullable references, if the configuration enables them. The clauses are proved; nothing
// calls these functions.

ghost use Rattle.std.specs.Prelude.{◌≡◌, [], ◌∷◌, true, false};
ghost use Rattle.smith_types.specs.Syntax.value_type.ValType.TheVariants.{I32, Ref};
ghost use Rattle.smith_types.specs.Syntax.value_type.AbstractHeapType.TheVariants as heap;
ghost use Rattle.smith_types.specs.Syntax.value_type.HeapType.TheVariants.{Concrete, Exact};
ghost use Rattle.smith_types.specs.Syntax.Features.{every_feature};
ghost use Rattle.smith_types.specs.ExampleFeatures.{usual_features};
ghost use Rattle.smith_types.specs.ExampleTypes.{final_type, struct, array, giving, taking, empty_struct, plain_func, struct_and_below};
ghost use Rattle.smith_types.specs.ExampleTypes.{constant, plain, nullable, not_null};
ghost use Rattle.smith_types.specs.Syntax.composite_type.StorageType.TheVariants.{Val};
ghost use Rattle.smith_types.specs.ExampleContexts.{context_of};
ghost use Rattle.smith_config.specs.Config.{default_config};
ghost use Rattle.smith_config.specs.Granted.{IsUngrounded, IsGranted, HasGranted, AreTypesGranted};
ghost use Rattle.smith_draw_types.specs.HeldFields.{HoldsUngroundedField};
ghost use Rattle.smith_draw_consts.specs.ExampleConstExprs.{context_of_types};
ghost use Rattle.smith_draw_types.specs.Grounding.{is_grounded};
ghost use Rattle.smith_draw_types.specs.ValueTypes.{granted_at, ref_type_at};
ghost use Rattle.smith_draw_types.specs.MatchingTypes.{references_offered, matching_ref_type_at};

#[tactic(auto, unfolding(smith_draw_types::specs::Grounding::is_grounded, smith_draw_types::specs::Below::is_heap_below, smith_draw_types::specs::Offered::ancestors))]
fn grounded()
    ensures a_struct { is_grounded (context_of_types struct_and_below) (Concrete 0) ≡ true }
    ensures its_kind { is_grounded (context_of_types struct_and_below) (plain heap.Eq) ≡ true }
    ensures another_kind { is_grounded (context_of_types struct_and_below) (plain heap.I31) ≡ false }
    ensures a_function { is_grounded (context_of usual_features (final_type plain_func ∷ []) (0 ∷ []) 1) (plain heap.Func) ≡ true }
    ensures a_type_alone { is_grounded (context_of usual_features (final_type plain_func ∷ []) [] 0) (plain heap.Func) ≡ false }
    ensures a_defined_function_exactly { is_grounded (context_of every_feature (final_type plain_func ∷ []) (0 ∷ []) 0) (Exact 0) ≡ true }
    ensures an_imported_function_exactly { is_grounded (context_of every_feature (final_type plain_func ∷ []) (0 ∷ []) 1) (Exact 0)
        ≡ false }
    ensures a_function_of_no_type { is_grounded (context_of usual_features [] (0 ∷ []) 0) (plain heap.Func) ≡ false }
{}

// A drawn bool decides whether a reference is non-nullable, if such references are enabled.
#[tactic(auto, unfolding(smith_draw_types::specs::ValueTypes::granted_at, smith_draw_types::specs::Grounding::is_grounded, smith_draw_types::specs::Below::is_heap_below, smith_draw_types::specs::Offered::ancestors, smith_bytes::specs::Draws::bool_at))]
fn granted()
    ensures wanted { granted_at (record default_config { non_nullable_enabled = true }) (context_of_types struct_and_below) (Concrete 0) (1
        ∷ 7 ∷ []) ≡ (true, 7 ∷ []) }
    ensures not_wanted { granted_at (record default_config { non_nullable_enabled = true }) (context_of_types struct_and_below) (Concrete 0)
        (0 ∷ 7 ∷ []) ≡ (false, 7 ∷ []) }
    ensures not_grounded { granted_at (record default_config { non_nullable_enabled = true }) (context_of_types struct_and_below)
        (plain heap.Array) (1 ∷ 7 ∷ []) ≡ (false, 7 ∷ []) }
    ensures without_a_draw { granted_at default_config (context_of_types struct_and_below) (Concrete 0) (1 ∷ 7 ∷ []) ≡ (false, 1 ∷ 7 ∷ []) }
{}

#[tactic(auto, unfolding(smith_draw_types::specs::ValueTypes::ref_type_at, smith_draw_types::specs::ValueTypes::granted_at, smith_draw_types::specs::ValueTypes::heap_type_at, smith_draw_types::specs::ValueTypes::type_index_at, smith_draw_types::specs::ValueTypes::abstract_heap_type_at, smith_draw_types::specs::ValueTypes::sharedness_at, smith_draw_types::specs::Choices::chosen_at, smith_draw_types::specs::Grounding::is_grounded, smith_draw_types::specs::Below::is_heap_below, smith_draw_types::specs::Offered::ancestors, smith_bytes::specs::Draws::bool_at, smith_bytes::specs::Draws::range_at, smith_bytes::specs::Draws::digit_count, smith_bytes::specs::Draws::ratio_at))]
fn references()
    ensures granted { ref_type_at (record default_config { non_nullable_enabled = true }) (context_of_types struct_and_below) false 2 (1 ∷ 1
        ∷ 1 ∷ []) ≡ (not_null (Concrete 1), []) }
    ensures to_an_abstract_type { ref_type_at (record default_config { non_nullable_enabled = true })
        (context_of_types struct_and_below) false 2 (0 ∷ 3 ∷ 1 ∷ []) ≡ (not_null (plain heap.Any), []) }
    ensures not_grounded { ref_type_at (record default_config { non_nullable_enabled = true }) (context_of_types struct_and_below) false 2
        (0 ∷ 9 ∷ 1 ∷ []) ≡ (nullable (plain heap.Array), []) }
    ensures without_references { ref_type_at (record default_config { reference_types_enabled = false; non_nullable_enabled = true })
        (context_of_types []) false 0 (1 ∷ []) ≡ (nullable (plain heap.Func), 1 ∷ []) }
{}

// The subtypes offered for a non-nullable reference: its own heap type first, then the grounded
// ones among all offered subtypes, possibly its own again.
#[tactic(auto, unfolding(smith_draw_types::specs::MatchingTypes::references_offered, smith_draw_types::specs::MatchingTypes::matching_ref_type_at, smith_draw_types::specs::Offered::subtypes_offered, smith_draw_types::specs::Choices::chosen_at, smith_draw_types::specs::Grounding::is_grounded, smith_draw_types::specs::Below::is_heap_below, smith_draw_types::specs::Offered::ancestors, smith_bytes::specs::Draws::range_at, smith_bytes::specs::Draws::digit_count))]
fn offered()
    ensures below_any { references_offered (record default_config { non_nullable_enabled = true }) (context_of_types struct_and_below)
        (not_null (plain heap.Any)) ≡ plain heap.Any ∷ plain heap.Eq ∷ plain heap.Struct ∷ Concrete 0 ∷ Concrete 1 ∷ [] }
    ensures itself_twice { references_offered (record default_config { non_nullable_enabled = true }) (context_of_types struct_and_below)
        (not_null (plain heap.Struct)) ≡ plain heap.Struct ∷ plain heap.Struct ∷ Concrete 0 ∷ Concrete 1 ∷ [] }
    ensures itself_alone { references_offered (record default_config { non_nullable_enabled = true }) (context_of_types [])
        (not_null (plain heap.Array)) ≡ plain heap.Array ∷ [] }
    ensures below_a_nullable_one { references_offered (record default_config { non_nullable_enabled = true }) (context_of_types [])
        (nullable (plain heap.Array)) ≡ plain heap.Array ∷ plain heap.Array ∷ plain heap.None ∷ [] }
    ensures where_there_are_none { references_offered default_config (context_of_types []) (not_null (plain heap.Array)) ≡ plain heap.Array
        ∷ plain heap.Array ∷ plain heap.None ∷ [] }
    ensures drawn { matching_ref_type_at (record default_config { non_nullable_enabled = true }) (context_of_types struct_and_below)
        (not_null (plain heap.Any)) (3 ∷ []) ≡ (not_null (Concrete 0), []) }
{}

#[tactic(auto, unfolding(smith_draw_types::specs::MatchingTypes::references_offered, smith_draw_types::specs::MatchingTypes::matching_ref_type_at, smith_draw_types::specs::Offered::subtypes_offered, smith_draw_types::specs::Choices::chosen_at, smith_draw_types::specs::Grounding::is_grounded, smith_draw_types::specs::Below::is_heap_below, smith_draw_types::specs::Offered::ancestors, smith_bytes::specs::Draws::range_at, smith_bytes::specs::Draws::digit_count))]
fn offered_over_functions()
    ensures below_func { references_offered (record default_config { non_nullable_enabled = true })
        (context_of usual_features (final_type plain_func ∷ []) (0 ∷ []) 1) (not_null (plain heap.Func)) ≡ plain heap.Func ∷ Concrete 0
        ∷ [] }
    ensures without_a_function { references_offered (record default_config { non_nullable_enabled = true })
        (context_of usual_features (final_type plain_func ∷ []) [] 0) (not_null (plain heap.Func)) ≡ plain heap.Func ∷ [] }
    ensures exactly { references_offered (record default_config { non_nullable_enabled = true; custom_descriptors_enabled = true })
        (context_of every_feature (final_type plain_func ∷ []) (0 ∷ []) 0) (not_null (Concrete 0)) ≡ Concrete 0 ∷ Exact 0 ∷ [] }
    ensures not_exactly_where_it_is_imported { references_offered
        (record default_config { non_nullable_enabled = true; custom_descriptors_enabled = true })
        (context_of every_feature (final_type plain_func ∷ []) (0 ∷ []) 1) (not_null (Concrete 0)) ≡ Concrete 0 ∷ [] }
{}

fn ungrounded()
    ensures where_nothing_exists { IsUngrounded (record default_config { non_nullable_enabled = true }) (context_of_types [])
        (Ref (not_null (plain heap.Any))) }
    ensures to_a_struct { ¬ IsUngrounded (record default_config { non_nullable_enabled = true }) (context_of_types struct_and_below)
        (Ref (not_null (Concrete 0))) }
    ensures to_a_struct_by_default { IsUngrounded default_config (context_of_types struct_and_below) (Ref (not_null (Concrete 0))) }
    ensures nullable { ¬ IsUngrounded (record default_config { non_nullable_enabled = true }) (context_of_types [])
        (Ref (nullable (plain heap.Any))) }
    ensures a_number { ¬ IsUngrounded (record default_config { non_nullable_enabled = true }) (context_of_types []) I32 }
    ensures in_an_element { HoldsUngroundedField (record default_config { non_nullable_enabled = true })
        (context_of_types (final_type (array (constant (Val (Ref (not_null (plain heap.Func)))))) ∷ [])) }
    ensures in_a_field_that_is_grounded { ¬ HoldsUngroundedField (record default_config { non_nullable_enabled = true })
        (context_of_types (final_type empty_struct ∷ final_type (struct (constant (Val (Ref (not_null (Concrete 0)))) ∷ [])) ∷ [])) }
{}

fn granted_types()
    ensures a_number { IsGranted default_config (context_of_types []) I32 }
    ensures a_struct { IsGranted (record default_config { non_nullable_enabled = true }) (context_of_types struct_and_below)
        (Ref (not_null (Concrete 0))) }
    ensures a_struct_by_default { ¬ IsGranted default_config (context_of_types struct_and_below) (Ref (not_null (Concrete 0))) }
    ensures giving_a_struct { HasGranted (record default_config { non_nullable_enabled = true }) (context_of_types struct_and_below)
        (final_type (giving (Ref (not_null (Concrete 0)) ∷ []))) }
    ensures giving_what_may_be_null { HasGranted default_config (context_of_types [])
        (final_type (giving (Ref (nullable (plain heap.Any)) ∷ []))) }
    ensures taking_what_nothing_grounds { ¬ HasGranted (record default_config { non_nullable_enabled = true }) (context_of_types [])
        (final_type (taking (Ref (not_null (plain heap.Any)) ∷ []))) }
    ensures holding_it { ¬ HasGranted (record default_config { non_nullable_enabled = true }) (context_of_types [])
        (final_type (array (constant (Val (Ref (not_null (plain heap.Any))))))) }
    ensures beside_the_struct { AreTypesGranted (record default_config { non_nullable_enabled = true })
        (context_of_types (final_type empty_struct ∷ final_type (giving (Ref (not_null (Concrete 0)) ∷ [])) ∷ [])) }
    ensures beside_no_struct { ¬ AreTypesGranted (record default_config { non_nullable_enabled = true })
        (context_of_types (final_type (taking (Ref (not_null (plain heap.Any)) ∷ [])) ∷ [])) }
{}
