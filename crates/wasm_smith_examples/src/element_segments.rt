// Drawn element segments. The clauses are proved; nothing calls these functions.

ghost use Rattle.std.specs.Prelude.{◌≡◌, [], ◌∷◌, true, false, pos, None, Some, Ok, Err};
ghost use Rattle.smith_bytes.specs.declared.error.Count.TheVariants as counts;
ghost use Rattle.smith_bytes.specs.declared.error.Error.TheVariants as errors;
ghost use Rattle.smith_bytes.specs.declared.error.Why.TheVariants.{Unmet};
ghost use Rattle.smith_types.specs.Flags.{funcref};
ghost use Rattle.smith_types.specs.ExampleTypes.{nullable, not_null, plain, shared_type, plain_func};
ghost use Rattle.smith_types.specs.Syntax.segments.Offset.TheVariants.{Const32};
ghost use Rattle.smith_types.specs.Syntax.segments.ElementKind.TheVariants as element_kind;
ghost use Rattle.smith_types.specs.Syntax.segments.Elements.TheVariants.{Functions, Expressions};
ghost use Rattle.smith_types.specs.Syntax.value_type.AbstractHeapType.TheVariants as heap;
ghost use Rattle.smith_draw_consts.specs.ExampleConstExprs.{context_of_types};
ghost use Rattle.smith_config.specs.Config.{default_config};
ghost use Rattle.smith_config.specs.ExampleMembers.{final, plain_function};
ghost use Rattle.smith_draw_definitions.specs.Definitions.{table_scope};
ghost use Rattle.smith_module_rules.specs.Held.{HasItems};
ghost use Rattle.smith_draw_contents.specs.DrawnElements.{MayRefuseElements};
ghost use Rattle.smith_draw_contents.specs.ElementSegments.{all_element_segments_at, constant_offset_at, are_functions_at, most_items};
ghost use Rattle.smith_draw_contents.specs.ElementSegments.{unshared_funcs};
ghost use Rattle.wasm_smith_examples.specs.ExampleDefinitions.{beside_globals};
ghost use Rattle.smith_module_rules_examples.specs.ExampleParts.{passive_elements, table};

#[tactic(auto, unfolding(smith_draw_contents::specs::ElementSegments::constant_offset_at, smith_draw_contents::specs::ElementSegments::hint_at, smith_draw_types::specs::Offsets::offset_at, smith_draw_types::specs::Limits::gradually_at, smith_draw_types::specs::Limits::gradual, smith_draw_types::specs::Limits::sixth_power, smith_draw_types::specs::Limits::scaled, smith_bytes::specs::Draws::whole_at, smith_bytes::specs::Draws::range_at, smith_bytes::specs::Draws::digit_count))]
fn offsets()
    ensures not_to_fit { constant_offset_at default_config (table funcref 5 None) (0 ∷ 0 ∷ 0 ∷ 0 ∷ 0 ∷ 9 ∷ [])
        ≡ ((Const32 (pos 0), None), 9 ∷ []) }
    ensures to_fit { constant_offset_at default_config (table funcref 5 None) (0 ∷ 0 ∷ 0 ∷ 0 ∷ 1 ∷ 9 ∷ [])
        ≡ ((Const32 (pos 0), Some 5), 9 ∷ []) }
    ensures without_traps { constant_offset_at (record default_config { disallow_traps = true }) (table funcref 5 None) (255 ∷ 255 ∷ 255
        ∷ 255 ∷ 9 ∷ []) ≡ ((Const32 (pos 5), Some 0), 9 ∷ []) }
{}

#[tactic(auto, unfolding(smith_draw_contents::specs::ElementSegments::are_functions_at, smith_bytes::specs::Draws::bool_at))]
fn items()
    ensures as_functions { are_functions_at default_config funcref (1 ∷ 9 ∷ []) ≡ (true, 9 ∷ []) }
    ensures as_expressions { are_functions_at default_config funcref (0 ∷ 9 ∷ []) ≡ (false, 9 ∷ []) }
    ensures of_others { are_functions_at default_config (nullable (plain heap.Extern)) (1 ∷ []) ≡ (false, 1 ∷ []) }
    ensures without_reference_types { are_functions_at (record default_config { reference_types_enabled = false }) funcref (0 ∷ [])
        ≡ (true, 0 ∷ []) }
    ensures unshared { unshared_funcs (final plain_function ∷ shared_type plain_func ∷ []) (1 ∷ 0 ∷ 1 ∷ 0 ∷ []) ≡ 1 ∷ 3 ∷ [] }
    ensures by_the_hint { most_items default_config (Some 5) 10 ≡ 5 }
    ensures by_what_is_left { most_items default_config (Some 5) 97 ≡ 3 }
    ensures without_a_hint { most_items default_config None 10 ≡ 90 }
{}

// Element segments without any type, function, table or global.
#[tactic(auto, unfolding(smith_draw_contents::specs::ElementSegments::all_element_segments_at, smith_draw_contents::specs::ElementSegments::element_segments_at, smith_draw_contents::specs::ElementSegments::element_segment_at, smith_draw_contents::specs::ElementSegments::element_kind_at, smith_draw_contents::specs::ElementSegments::item_type_at, smith_draw_contents::specs::ElementSegments::items_at, smith_draw_contents::specs::ElementSegments::functions_at, smith_draw_contents::specs::ElementSegments::expressions_at, smith_draw_contents::specs::ElementSegments::drawn_expressions_at, smith_draw_contents::specs::ElementSegments::element_kinds_at, smith_draw_contents::specs::ElementSegments::table_kinds_at, smith_draw_contents::specs::ElementSegments::are_functions_at, smith_draw_types::specs::ValueTypes::ref_type_at, smith_draw_types::specs::ValueTypes::granted_at, smith_draw_types::specs::ValueTypes::heap_type_at, smith_draw_types::specs::ValueTypes::type_index_at, smith_draw_types::specs::ValueTypes::abstract_heap_type_at, smith_draw_types::specs::ValueTypes::sharedness_at, smith_draw_types::specs::Choices::chosen_at, smith_bytes::specs::Growth::grow_at, smith_draw_consts::specs::TriedLists::try_grow_at, smith_bytes::specs::Draws::bool_at, smith_bytes::specs::Draws::range_at, smith_bytes::specs::Draws::digit_count))]
fn segments()
    ensures none { all_element_segments_at default_config (table_scope default_config (beside_globals [])) [] (0 ∷ 9 ∷ [])
        ≡ Ok ([], 9 ∷ []) }
    ensures one { all_element_segments_at default_config (table_scope default_config (beside_globals [])) [] (1 ∷ 0 ∷ 0 ∷ 0 ∷ 0 ∷ 0 ∷ 9
        ∷ []) ≡ Ok (passive_elements (Expressions []) ∷ [], 9 ∷ []) }
    ensures of_no_function { all_element_segments_at (record default_config { min_elements = 60; max_element_segments = 1 })
        (table_scope default_config (beside_globals [])) [] (1 ∷ 0 ∷ 0 ∷ 1 ∷ 9 ∷ []) ≡ Ok (passive_elements (Functions []) ∷ [], 9 ∷ []) }
    ensures more_than_may_be { all_element_segments_at (record default_config { min_elements = 60; max_elements = 50 })
        (table_scope default_config (beside_globals [])) [] (1 ∷ 0 ∷ 0 ∷ 0 ∷ []) ≡ Err (errors.IncorrectFormat (Unmet counts.Elements)) }
    ensures of_no_kind { all_element_segments_at (record default_config { bulk_memory_enabled = false })
        (table_scope default_config (beside_globals [])) [] (1 ∷ []) ≡ Ok ([], 1 ∷ []) }
    ensures asked_for_of_no_kind { all_element_segments_at (record default_config { bulk_memory_enabled = false; min_element_segments = 1 })
        (table_scope default_config (beside_globals [])) [] [] ≡ Err (errors.IncorrectFormat (Unmet counts.ElementSegments)) }
{}

// An element segment takes its kind and its offset. The items take no byte for the table's only
// type, and no function may be an item.
#[tactic(auto, unfolding(smith_draw_contents::specs::ElementSegments::all_element_segments_at, smith_draw_contents::specs::ElementSegments::element_segments_at, smith_draw_contents::specs::ElementSegments::element_segment_at, smith_draw_contents::specs::ElementSegments::element_kind_at, smith_draw_contents::specs::ElementSegments::table_offset_at, smith_draw_contents::specs::ElementSegments::is_global_wanted_at, smith_draw_contents::specs::ElementSegments::constant_offset_at, smith_draw_contents::specs::ElementSegments::hint_at, smith_draw_contents::specs::ElementSegments::item_type_at, smith_draw_contents::specs::ElementSegments::items_at, smith_draw_contents::specs::ElementSegments::functions_at, smith_draw_contents::specs::ElementSegments::element_kinds_at, smith_draw_contents::specs::ElementSegments::table_kinds_at, smith_draw_contents::specs::ElementSegments::is_offered_at, smith_draw_contents::specs::ElementSegments::are_functions_at, smith_draw_types::specs::Offsets::offset_at, smith_draw_types::specs::Limits::gradually_at, smith_draw_types::specs::Limits::gradual, smith_draw_types::specs::Limits::sixth_power, smith_draw_types::specs::Limits::scaled, smith_draw_types::specs::MatchingTypes::references_offered, smith_draw_types::specs::MatchingTypes::matching_ref_type_at, smith_draw_types::specs::MatchingTypes::matching_heap_type_at, smith_draw_types::specs::Offered::subtypes_offered, smith_draw_types::specs::Choices::chosen_at, smith_bytes::specs::Draws::whole_at, smith_bytes::specs::Draws::bool_at, smith_bytes::specs::Draws::range_at, smith_bytes::specs::Draws::digit_count))]
fn copied()
    ensures without_traps { all_element_segments_at
        (record default_config { reference_types_enabled = false; gc_enabled = false; disallow_traps = true; max_element_segments = 1 })
        (table_scope default_config (beside_globals [])) (table funcref 5 None ∷ []) (1 ∷ 2 ∷ 255 ∷ 255 ∷ 255 ∷ 255 ∷ 9 ∷ [])
        ≡ Ok (record { kind = element_kind.Active None (Const32 (pos 5)); ty = funcref; items = Functions [] } ∷ [], 9 ∷ []) }
{}

// No constant expression has the type of the elements.
#[tactic(auto, unfolding(smith_draw_contents::specs::ElementSegments::all_element_segments_at, smith_draw_contents::specs::ElementSegments::element_segments_at, smith_draw_contents::specs::ElementSegments::element_segment_at, smith_draw_contents::specs::ElementSegments::element_kind_at, smith_draw_contents::specs::ElementSegments::table_offset_at, smith_draw_contents::specs::ElementSegments::is_global_wanted_at, smith_draw_contents::specs::ElementSegments::constant_offset_at, smith_draw_contents::specs::ElementSegments::hint_at, smith_draw_contents::specs::ElementSegments::item_type_at, smith_draw_contents::specs::ElementSegments::items_at, smith_draw_contents::specs::ElementSegments::expressions_at, smith_draw_contents::specs::ElementSegments::drawn_expressions_at, smith_draw_contents::specs::ElementSegments::expression_item_at, smith_draw_contents::specs::ElementSegments::element_kinds_at, smith_draw_contents::specs::ElementSegments::table_kinds_at, smith_draw_contents::specs::ElementSegments::is_offered_at, smith_draw_contents::specs::ElementSegments::are_functions_at, smith_draw_types::specs::Offsets::offset_at, smith_draw_types::specs::Limits::gradually_at, smith_draw_types::specs::Limits::gradual, smith_draw_types::specs::Limits::sixth_power, smith_draw_types::specs::Limits::scaled, smith_draw_types::specs::MatchingTypes::references_offered, smith_draw_types::specs::MatchingTypes::matching_ref_type_at, smith_draw_types::specs::MatchingTypes::matching_heap_type_at, smith_draw_types::specs::Offered::subtypes_offered, smith_draw_types::specs::Choices::chosen_at, smith_draw_consts::specs::TriedLists::try_grow_at, smith_draw_consts::specs::ConstExprs::expression_alone_at, smith_draw_consts::specs::ConstExprs::expression_at, smith_draw_consts::specs::ConstOffers::offers, smith_bytes::specs::Draws::choose_at, smith_bytes::specs::Draws::whole_at, smith_bytes::specs::Draws::bool_at, smith_bytes::specs::Draws::range_at, smith_bytes::specs::Draws::digit_count))]
fn lacking()
    ensures of_an_item { all_element_segments_at (record default_config {
      gc_enabled = false;
      disallow_traps = true;
      min_elements = 1;
      max_elements = 1;
      const_expr_fuel = 0;
      max_element_segments = 1;
    }) (table_scope default_config (beside_globals []))
        (table (not_null (plain heap.Extern)) 5 None ∷ []) (1 ∷ 2 ∷ 0 ∷ 0 ∷ 0 ∷ 0 ∷ 9 ∷ [])
        ≡ Err errors.EmptyChoose }
    ensures of_no_item { all_element_segments_at (record default_config {
      gc_enabled = false;
      disallow_traps = true;
      max_element_segments = 1;
    }) (table_scope default_config (beside_globals []))
        (table (not_null (plain heap.Extern)) 5 None ∷ []) (1 ∷ 2 ∷ 0 ∷ 0 ∷ 0 ∷ 0 ∷ 0 ∷ 9 ∷ [])
        ≡ Ok (
          record {
            kind = element_kind.Active (Some 0) (Const32 (pos 0));
            ty = not_null (plain heap.Extern);
            items = Expressions [];
          } ∷ [],
          9 ∷ [],
        ) }
{}

fn enough()
    ensures as_many { HasItems (record default_config { min_elements = 1 }) [] [] (Functions (0 ∷ [])) }
    ensures of_shared_functions { HasItems (record default_config { min_elements = 1 }) (shared_type plain_func ∷ []) (0
        ∷ []) (Functions []) }
    ensures of_one_that_is_not { ¬ HasItems (record default_config { min_elements = 1 }) (final plain_function ∷ []) (0
        ∷ []) (Functions []) }
    ensures of_expressions { ¬ HasItems (record default_config { min_elements = 1 }) [] [] (Expressions []) }
{}

fn refused()
    ensures want_of_memory { MayRefuseElements default_config (context_of_types []) [] errors.Memory }
    ensures elements_that_may_not_be_null { MayRefuseElements default_config (context_of_types [])
        (table (not_null (plain heap.Extern)) 1 None ∷ []) errors.EmptyChoose }
    ensures no_table { ¬ MayRefuseElements default_config (context_of_types []) [] errors.EmptyChoose }
    ensures no_item_where_one_is_asked_for { MayRefuseElements (record default_config { min_elements = 1 }) (context_of_types []) []
        (errors.IncorrectFormat (Unmet counts.Elements)) }
    ensures none_asked_for { ¬ MayRefuseElements default_config (context_of_types []) [] (errors.IncorrectFormat (Unmet counts.Elements)) }
    ensures no_kind { MayRefuseElements (record default_config { min_element_segments = 1; bulk_memory_enabled = false })
        (context_of_types []) [] (errors.IncorrectFormat (Unmet counts.ElementSegments)) }
    ensures passive_ones { ¬ MayRefuseElements (record default_config { min_element_segments = 1 }) (context_of_types []) []
        (errors.IncorrectFormat (Unmet counts.ElementSegments)) }
{}
