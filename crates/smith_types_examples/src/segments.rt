ghost use Rattle.std.specs.Prelude.{[], ◌∷◌, ◌≡◌, true, false, Some, None, pos, negsuc};
ghost use Rattle.smith_types.specs.Syntax.value_type.AbstractHeapType.TheVariants as heap;
ghost use Rattle.smith_types.specs.Syntax.value_type.HeapType.TheVariants.{Abstract, Concrete, Exact};
ghost use Rattle.smith_types.specs.Syntax.value_type.ValType.TheVariants.{I64};
ghost use Rattle.smith_types.specs.Syntax.const_instr.ConstInstr.TheVariants.{RefNull};
ghost use Rattle.smith_types.specs.Syntax.segments.Elements.TheVariants.{Functions, Expressions};
ghost use Rattle.smith_types.specs.Syntax.segments.ElementKind.TheVariants as element_kind;
ghost use Rattle.smith_types.specs.Syntax.segments.DataSegmentKind.TheVariants as data_kind;
ghost use Rattle.smith_types.specs.Syntax.segments.Offset.TheVariants.{Const32, Const64, Global};
ghost use Rattle.smith_types.specs.Flags.{funcref};
ghost use Rattle.smith_types.specs.Segments.{IsOffsetValid, IsItem, AreItemsValid, IsActiveElementSegment, IsElementKindValid};
ghost use Rattle.smith_types.specs.Segments.{IsElementSegmentValid, IsDataKindValid, IsDataValid, IsOffsetInside, IsElementInside};
ghost use Rattle.smith_types.specs.Segments.{IsDataInside, table_index};
ghost use Rattle.smith_types.specs.Syntax.Features.{every_feature};
ghost use Rattle.smith_types.specs.ExampleFeatures.{usual_features};
ghost use Rattle.smith_types.specs.ExampleTypes.{shared_type, plain_func, plain, nullable, not_null};
ghost use Rattle.smith_types.specs.ExampleEntities.{memory, all_addresses, table, constant_global};
ghost use Rattle.smith_types.specs.ExampleContexts.{context_with};
ghost use Rattle.smith_types_examples.specs.ExampleTables.{elements, elements_at, bytes_at, seeing_first};

fn offsets()
    ensures narrow { IsOffsetValid (seeing_first 3) false (Const32 (pos 1)) }
    ensures wide_into_narrow { ¬ IsOffsetValid (seeing_first 3) false (Const64 (pos 1)) }
    ensures wide { IsOffsetValid (seeing_first 3) true (Const64 (pos 1)) }
    ensures narrow_into_wide { ¬ IsOffsetValid (seeing_first 3) true (Const32 (pos 1)) }
    ensures global { IsOffsetValid (seeing_first 3) false (Global 2) }
    ensures global_of_another_type { ¬ IsOffsetValid (seeing_first 3) true (Global 2) }
    ensures wide_global { IsOffsetValid (record (seeing_first 3) { globals = constant_global I64 ∷ [] }) true (Global 0) }
    ensures global_that_is_not_visible { ¬ IsOffsetValid (seeing_first 2) false (Global 2) }
    ensures global_past_the_globals { ¬ IsOffsetValid (seeing_first 4) false (Global 3) }
    ensures mutable_global { ¬ IsOffsetValid (seeing_first 3) false (Global 1) }
{}

fn items()
    ensures function { IsItem (seeing_first 3) funcref 1 }
    ensures function_that_is_not_there { ¬ IsItem (seeing_first 3) funcref 2 }
    ensures function_of_another_type { ¬ IsItem (seeing_first 3) (nullable (plain heap.Extern)) 1 }
    ensures exact_function { IsItem (context_with every_feature 3) (not_null (Exact 0)) 1 }
    ensures imported_function_is_not_exact { ¬ IsItem (context_with every_feature 3) (not_null (Exact 0)) 0 }
    ensures shared_function { IsItem (record (seeing_first 3) { types = shared_type plain_func ∷ [] })
        (nullable (Abstract true heap.Func)) 1 }
    ensures shared_function_among_unshared { ¬ IsItem (record (seeing_first 3) { types = shared_type plain_func ∷ [] }) funcref 1 }
    ensures list { AreItemsValid (seeing_first 3) funcref (Functions (0 ∷ 1 ∷ [])) }
    ensures list_past_the_functions { ¬ AreItemsValid (seeing_first 3) funcref (Functions (0 ∷ 2 ∷ [])) }
    ensures expression { AreItemsValid (seeing_first 3) funcref (Expressions ((RefNull (plain heap.Func) ∷ []) ∷ [])) }
    ensures expression_of_another_type { ¬ AreItemsValid (seeing_first 3) funcref (Expressions ((RefNull (plain heap.Extern) ∷ []) ∷ [])) }
    ensures list_without_reference_types { AreItemsValid (context_with (record usual_features { reference_types = false }) 3) funcref
        (Functions []) }
    ensures expression_without_reference_types { ¬ AreItemsValid (context_with (record usual_features { reference_types = false }) 3)
        funcref (Expressions []) }
{}

fn active_elements()
    ensures into_a_table { IsActiveElementSegment (seeing_first 3) (table funcref 1 None ∷ []) funcref 0 (Const32 (pos 0)) }
    ensures into_no_table { ¬ IsActiveElementSegment (seeing_first 3) [] funcref 0 (Const32 (pos 0)) }
    ensures not_below_the_table { ¬ IsActiveElementSegment (seeing_first 3) (table (not_null (plain heap.Func)) 1 None ∷ []) funcref 0
        (Const32 (pos 0)) }
    ensures into_a_table_of_supertypes { IsActiveElementSegment (seeing_first 3) (table funcref 1 None ∷ []) (not_null (plain heap.Func)) 0
        (Const32 (pos 0)) }
    ensures into_a_wide_table { IsActiveElementSegment (seeing_first 3) (record (table funcref 1 None) { table64 = true } ∷ []) funcref 0
        (Const64 (pos 0)) }
    ensures with_a_wide_offset { ¬ IsActiveElementSegment (seeing_first 3) (table funcref 1 None ∷ []) funcref 0 (Const64 (pos 0)) }
{}

fn element_kinds()
    ensures passive { IsElementKindValid (seeing_first 3) [] funcref element_kind.Passive }
    ensures passive_without_bulk_memory { ¬ IsElementKindValid (context_with (record usual_features { bulk_memory = false }) 3) [] funcref
        element_kind.Passive }
    ensures declared { IsElementKindValid (seeing_first 3) [] funcref element_kind.Declared }
    ensures declared_without_bulk_memory { ¬ IsElementKindValid (context_with (record usual_features { bulk_memory = false }) 3) [] funcref
        element_kind.Declared }
    ensures into_the_first_table { IsElementKindValid (context_with (record usual_features { bulk_memory = false }) 3) (table funcref 1 None
        ∷ []) funcref (element_kind.Active None (Const32 (pos 0))) }
    ensures first_is_named_by_none { table_index None ≡ 0 }
    ensures named { table_index (Some 2) ≡ 2 }
    ensures into_a_first_table_that_is_not_there { ¬ IsElementKindValid (seeing_first 3) [] funcref
        (element_kind.Active None (Const32 (pos 0))) }
    ensures into_a_second_table { IsElementKindValid (seeing_first 3) (table (nullable (plain heap.Extern)) 1 None ∷ table funcref 1 None
        ∷ []) funcref (element_kind.Active (Some 1) (Const32 (pos 0))) }
    ensures into_a_first_table_of_others { ¬ IsElementKindValid (seeing_first 3) (table (nullable (plain heap.Extern)) 1 None
        ∷ table funcref 1 None ∷ []) funcref (element_kind.Active None (Const32 (pos 0))) }
    ensures into_a_named_table_that_is_not_there { ¬ IsElementKindValid (seeing_first 3) (table funcref 1 None ∷ []) funcref
        (element_kind.Active (Some 1) (Const32 (pos 0))) }
    ensures into_a_named_table_without_bulk_memory { ¬ IsElementKindValid (context_with (record usual_features { bulk_memory = false }) 3)
        (table funcref 1 None ∷ []) funcref (element_kind.Active (Some 0) (Const32 (pos 0))) }
{}

fn element_segments()
    ensures passive { IsElementSegmentValid (seeing_first 3) [] (elements element_kind.Passive (Functions [])) }
    ensures of_an_unknown_type { ¬ IsElementSegmentValid (seeing_first 3) []
        (record { kind = element_kind.Passive; ty = nullable (Concrete 6); items = Functions [] }) }
    ensures of_a_known_type { IsElementSegmentValid (seeing_first 3) []
        (record { kind = element_kind.Passive; ty = nullable (Concrete 5); items = Functions [] }) }
    ensures of_an_unknown_function { ¬ IsElementSegmentValid (seeing_first 3) [] (elements element_kind.Passive (Functions (2 ∷ []))) }
    ensures into_no_table { ¬ IsElementSegmentValid (seeing_first 3) [] (elements_at None 0 (Functions [])) }
    ensures without_its_feature { ¬ IsElementSegmentValid (context_with (record usual_features { bulk_memory = false }) 3) []
        (elements element_kind.Passive (Functions [])) }
    ensures of_others_without_reference_types { ¬ IsElementSegmentValid (context_with (record usual_features { reference_types = false }) 3)
        [] (record { kind = element_kind.Passive; ty = nullable (plain heap.Extern); items = Functions [] }) }
{}

fn data_kinds()
    ensures passive { IsDataKindValid (seeing_first 3) [] data_kind.Passive }
    ensures passive_without_bulk_memory { ¬ IsDataKindValid (context_with (record usual_features { bulk_memory = false }) 3) []
        data_kind.Passive }
    ensures into_a_memory { IsDataKindValid (seeing_first 3) (memory 1 None ∷ []) (data_kind.Active 0 (Const32 (pos 0))) }
    ensures into_no_memory { ¬ IsDataKindValid (seeing_first 3) [] (data_kind.Active 0 (Const32 (pos 0))) }
    ensures into_a_second_memory_that_is_not_there { ¬ IsDataKindValid (seeing_first 3) (memory 1 None
        ∷ []) (data_kind.Active 1 (Const32 (pos 0))) }
    ensures into_a_wide_memory { IsDataValid (seeing_first 3) (all_addresses ∷ []) (bytes_at 0 (Const64 (pos 0)) []) }
    ensures with_a_narrow_offset { ¬ IsDataValid (seeing_first 3) (all_addresses ∷ []) (bytes_at 0 (Const32 (pos 0)) []) }
    ensures with_a_wide_offset { ¬ IsDataValid (seeing_first 3) (memory 1 None ∷ []) (bytes_at 0 (Const64 (pos 0)) []) }
{}

fn inside()
    ensures up_to_the_end { IsOffsetInside (Const32 (pos 7)) 3 10 }
    ensures past_the_end { ¬ IsOffsetInside (Const32 (pos 8)) 3 10 }
    ensures read_without_sign { IsOffsetInside (Const32 (negsuc 0)) 0 4294967295 }
    ensures wide_read_without_sign { IsOffsetInside (Const64 (negsuc 0)) 0 18446744073709551615 }
    ensures wide_past_the_end { ¬ IsOffsetInside (Const64 (negsuc 0)) 0 18446744073709551614 }
    ensures not_below_zero { ¬ IsOffsetInside (Const32 (negsuc 0)) 0 4294967294 }
    ensures global { ¬ IsOffsetInside (Global 0) 0 10 }
{}

fn elements_inside()
    ensures passive { IsElementInside [] (elements element_kind.Passive (Functions (0 ∷ []))) }
    ensures within { IsElementInside (table funcref 1 None ∷ []) (elements_at None 0 (Functions (0 ∷ []))) }
    ensures declared { IsElementInside [] (elements element_kind.Declared (Functions (0 ∷ []))) }
    ensures nothing_at_the_end { IsElementInside (table funcref 1 None ∷ []) (elements_at None 1 (Functions [])) }
    ensures expressions_within { IsElementInside (table funcref 2 None ∷ []) (elements_at None 0 (Expressions ([] ∷ [] ∷ []))) }
    ensures within_a_second_table { IsElementInside (table funcref 0 None ∷ table funcref 1 None
        ∷ []) (elements_at (Some 1) 0 (Functions (0 ∷ []))) }
    ensures past_a_first_table { ¬ IsElementInside (table funcref 0 None ∷ table funcref 1 None
        ∷ []) (elements_at None 0 (Functions (0 ∷ []))) }
    ensures in_no_table { ¬ IsElementInside [] (elements_at None 0 (Functions [])) }
    ensures past_the_least_of_a_table { ¬ IsElementInside (table funcref 0 (Some 1) ∷ []) (elements_at None 0 (Functions (0 ∷ []))) }
    ensures past_the_table { ¬ IsElementInside (table funcref 1 None ∷ []) (elements_at None 1 (Functions (0 ∷ []))) }
    ensures expressions_past_the_table { ¬ IsElementInside (table funcref 1 None ∷ []) (elements_at None 0 (Expressions ([] ∷ [] ∷ []))) }
{}

fn bytes_inside()
    ensures within { IsDataInside (memory 1 None ∷ []) (bytes_at 0 (Const32 (pos 65535)) (0 ∷ [])) }
    ensures passive { IsDataInside [] (record { kind = data_kind.Passive; init = 0 ∷ [] }) }
    ensures nothing_at_the_end { IsDataInside (memory 1 None ∷ []) (bytes_at 0 (Const32 (pos 65536)) []) }
    ensures within_a_second_memory { IsDataInside (memory 0 None ∷ memory 1 None ∷ []) (bytes_at 1 (Const32 (pos 0)) (0 ∷ [])) }
    ensures past_a_first_memory { ¬ IsDataInside (memory 0 None ∷ memory 1 None ∷ []) (bytes_at 0 (Const32 (pos 0)) (0 ∷ [])) }
    ensures in_no_memory { ¬ IsDataInside [] (bytes_at 0 (Const32 (pos 0)) []) }
    ensures at_a_global { ¬ IsDataInside (memory 1 None ∷ []) (bytes_at 0 (Global 0) []) }
    ensures past_the_memory { ¬ IsDataInside (memory 1 None ∷ []) (bytes_at 0 (Const32 (pos 65536)) (0 ∷ [])) }
    ensures past_pages_of_one_byte { ¬ IsDataInside (record (memory 1 None) { page_size_log2 = Some 0 }
        ∷ []) (bytes_at 0 (Const32 (pos 1)) (0 ∷ [])) }
    ensures minus_one { ¬ IsDataInside (memory 65535 None ∷ []) (bytes_at 0 (Const32 (negsuc 0)) (0 ∷ [])) }
    ensures last_byte { IsDataInside (memory 65536 None ∷ []) (bytes_at 0 (Const32 (negsuc 0)) (0 ∷ [])) }
    ensures last_of_all_addresses { IsDataInside (all_addresses ∷ []) (bytes_at 0 (Const64 (negsuc 0)) (0 ∷ [])) }
    ensures past_all_addresses { ¬ IsDataInside (all_addresses ∷ []) (bytes_at 0 (Const64 (negsuc 0)) (0 ∷ 0 ∷ [])) }
{}
