// Lists of offered types, a law about them, and draws from them. The clauses are proved; nothing
// calls these functions.

ghost use Rattle.std.specs.Prelude.{◌≡◌, [], ◌∷◌, true, false, None};
ghost use Rattle.smith_types.specs.Syntax.value_type.AbstractHeapType.TheVariants as heap;
ghost use Rattle.smith_types.specs.Syntax.value_type.HeapType.TheVariants.{Abstract, Concrete, Exact};
ghost use Rattle.smith_types.specs.Syntax.composite_type.StorageType.TheVariants.{Val};
ghost use Rattle.smith_types.specs.ExampleTypes.{open_type, plain_func, struct_and_below, plain, nullable, not_null, anyref, eqref};
ghost use Rattle.smith_types.specs.ExampleTypes.{constant, variable};
ghost use Rattle.smith_draw_consts.specs.ExampleConstExprs.{context_of_types};
ghost use Rattle.smith_config.specs.Config.{default_config};
ghost use Rattle.smith_draw_types.specs.Offered.{subtypes_offered, supertypes_offered, AncestorsAreAll};
ghost use Rattle.smith_draw_types.specs.MatchingTypes.{matching_heap_type_at, matching_ref_type_at, matching_field_type_at};
ghost use Rattle.smith_draw_types.specs.MatchingTypes.{super_heap_type_at, super_ref_type_at};

#[tactic(auto, unfolding(smith_draw_types::specs::Offered::subtypes_offered))]
fn subtypes()
    ensures of_any { subtypes_offered default_config struct_and_below (plain heap.Any) ≡ plain heap.Any ∷ plain heap.Eq ∷ plain heap.Struct
        ∷ plain heap.Array ∷ plain heap.I31 ∷ plain heap.None ∷ Concrete 0 ∷ Concrete 1 ∷ [] }
    ensures of_a_type { subtypes_offered default_config struct_and_below (Concrete 0) ≡ Concrete 0 ∷ Concrete 1 ∷ plain heap.None ∷ [] }
    ensures with_descriptors { subtypes_offered (record default_config { custom_descriptors_enabled = true }) struct_and_below (Concrete 0)
        ≡ Concrete 0 ∷ Concrete 1 ∷ Exact 0 ∷ Concrete 1 ∷ plain heap.None ∷ [] }
    ensures of_a_function { subtypes_offered default_config (open_type None plain_func ∷ []) (Concrete 0) ≡ Concrete 0 ∷ plain heap.NoFunc
        ∷ [] }
    ensures of_another_sharedness { subtypes_offered default_config struct_and_below (Abstract true heap.Struct) ≡ Abstract true heap.Struct
        ∷ Abstract true heap.Struct ∷ Abstract true heap.None ∷ [] }
    ensures of_a_type_to_come { subtypes_offered default_config struct_and_below (Concrete 2) ≡ Concrete 2 ∷ [] }
    ensures without_collection { subtypes_offered (record default_config { gc_enabled = false }) struct_and_below (Concrete 0) ≡ Concrete 0
        ∷ [] }
{}

#[tactic(auto, unfolding(smith_draw_types::specs::Offered::supertypes_offered, smith_draw_types::specs::Offered::ancestors))]
fn supertypes()
    ensures of_a_type { supertypes_offered default_config struct_and_below (Concrete 1) ≡ Concrete 1 ∷ plain heap.Any ∷ plain heap.Eq
        ∷ plain heap.Struct ∷ Concrete 0 ∷ [] }
    ensures of_none { supertypes_offered default_config struct_and_below (plain heap.None) ≡ plain heap.None ∷ plain heap.Any
        ∷ plain heap.Eq ∷ plain heap.Struct ∷ plain heap.Array ∷ plain heap.I31 ∷ Concrete 0 ∷ Concrete 1 ∷ [] }
    ensures of_an_exact_type { supertypes_offered default_config struct_and_below (Exact 1) ≡ Exact 1 ∷ [] }
    ensures of_a_type_to_come { supertypes_offered default_config struct_and_below (Concrete 2) ≡ Concrete 2 ∷ [] }
{}

fn ancestors_are_all()
    ensures { AncestorsAreAll }
{}

#[tactic(auto, unfolding(smith_draw_types::specs::MatchingTypes::matching_heap_type_at, smith_draw_types::specs::MatchingTypes::references_offered, smith_draw_types::specs::MatchingTypes::matching_ref_type_at, smith_draw_types::specs::MatchingTypes::matching_field_type_at, smith_draw_types::specs::Offered::subtypes_offered, smith_draw_types::specs::Choices::chosen_at, smith_bytes::specs::Draws::range_at, smith_bytes::specs::Draws::digit_count,))]
fn matching_types()
    ensures last { matching_heap_type_at default_config struct_and_below (plain heap.Any) (7 ∷ []) ≡ (Concrete 1, []) }
    ensures none { matching_heap_type_at default_config struct_and_below (plain heap.Any) (5 ∷ []) ≡ (plain heap.None, []) }
    ensures not_null { matching_ref_type_at default_config (context_of_types struct_and_below) (not_null (Concrete 0)) (1 ∷ [])
        ≡ (not_null (Concrete 1), []) }
    ensures constant { matching_field_type_at default_config (context_of_types struct_and_below) (constant (Val anyref)) (1 ∷ [])
        ≡ (constant (Val eqref), []) }
    ensures variable { matching_field_type_at default_config (context_of_types struct_and_below) (variable (Val anyref)) (1 ∷ [])
        ≡ (variable (Val anyref), 1 ∷ []) }
{}

#[tactic(auto, unfolding(smith_draw_types::specs::MatchingTypes::super_heap_type_at, smith_draw_types::specs::MatchingTypes::super_ref_type_at, smith_draw_types::specs::Offered::supertypes_offered, smith_draw_types::specs::Offered::ancestors, smith_draw_types::specs::Choices::chosen_at, smith_bytes::specs::Draws::range_at, smith_bytes::specs::Draws::digit_count,))]
fn super_types()
    ensures ancestor { super_heap_type_at default_config struct_and_below (Concrete 1) (4 ∷ []) ≡ (Concrete 0, []) }
    ensures first { super_heap_type_at default_config struct_and_below (Concrete 1) (0 ∷ []) ≡ (Concrete 1, []) }
    ensures nullable { super_ref_type_at default_config struct_and_below (not_null (Concrete 1)) (4 ∷ []) ≡ (nullable (Concrete 0), []) }
{}
