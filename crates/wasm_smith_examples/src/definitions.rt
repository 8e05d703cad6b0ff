ghost use Rattle.std.specs.Prelude.{◌≡◌, [], ◌∷◌, true, false, pos, None, Some, Ok, Err};
ghost use Rattle.smith_bytes.specs.declared.error.Count.TheVariants as counts;
ghost use Rattle.smith_bytes.specs.declared.error.Error.TheVariants.{IncorrectFormat};
ghost use Rattle.smith_bytes.specs.declared.error.Why.TheVariants.{Unmet};
ghost use Rattle.smith_types.specs.Flags.{funcref};
ghost use Rattle.smith_types.specs.ExampleTypes.{nullable, not_null, plain, shared_type, plain_func};
ghost use Rattle.smith_types.specs.Syntax.value_type.AbstractHeapType.TheVariants as heap;
ghost use Rattle.smith_types.specs.Syntax.value_type.HeapType.TheVariants.{Concrete};
ghost use Rattle.smith_types.specs.Syntax.value_type.ValType.TheVariants.{I32, Ref};
ghost use Rattle.smith_types.specs.Syntax.const_instr.ConstInstr.TheVariants.{I32Const, GlobalGet, RefFunc, RefNull};
ghost use Rattle.smith_types.specs.Syntax.entity_type.EntityType.TheVariants.{Func};
ghost use Rattle.smith_types.specs.Syntax.imports.Imports.TheVariants.{Single};
ghost use Rattle.smith_config.specs.ExampleMembers.{final, giving_two, plain_function};
ghost use Rattle.wasm_smith.specs.Build.{module_at};
ghost use Rattle.smith_draw_definitions.specs.Defined.{nothing_defined};
ghost use Rattle.smith_draw_definitions.specs.Definitions.{scope_over, definitions_at, tags_at, funcs_at, tables_at, memories_at};
ghost use Rattle.smith_draw_definitions.specs.Definitions.{globals_at};
ghost use Rattle.wasm_smith_examples.specs.ExampleDefinitions.{several_types, two_of_each, one_of_each_kind, two_at_least_of_each};
ghost use Rattle.wasm_smith_examples.specs.ExampleDefinitions.{one_import_of_a_function, beside_globals, up_to_three, no_imports};
ghost use Rattle.wasm_smith_examples.specs.ExampleDefinitions.{one_imported_of_each};
ghost use Rattle.smith_module_rules_examples.specs.ExampleModules.{empty_module, group_of};
ghost use Rattle.smith_module_rules_examples.specs.ExampleParts.{global, import_named, memory, no_function, number, table};

#[tactic(auto, unfolding(smith_draw_definitions::specs::Definitions::items_defined_at, smith_draw_definitions::specs::Definitions::type_indices_at, smith_draw_definitions::specs::Definitions::tags_at, smith_draw_definitions::specs::Definitions::funcs_at, smith_draw_types::specs::TypeUses::is_tag_type, smith_draw_types::specs::TypeUses::is_unshared_function, smith_draw_types::specs::Choices::chosen_at, smith_bytes::specs::Growth::grow_at, smith_bytes::specs::Draws::bool_at, smith_bytes::specs::Draws::range_at, smith_bytes::specs::Draws::digit_count))]
fn tags()
    ensures one_asked_for { tags_at (record two_of_each { min_tags = 1 }) several_types [] (1 ∷ 1 ∷ 0 ∷ 9 ∷ []) ≡ Ok (3 ∷ 2 ∷ [], 9 ∷ []) }
    ensures until_a_bool_ends_them { tags_at two_of_each several_types [] (1 ∷ 2 ∷ 0 ∷ 9 ∷ []) ≡ Ok (4 ∷ [], 9 ∷ []) }
    ensures after_an_imported_one { tags_at (record two_of_each { min_tags = 2 }) several_types (2 ∷ []) (1 ∷ 1 ∷ 9 ∷ [])
        ≡ Ok (2 ∷ 3 ∷ [], 9 ∷ []) }
    ensures enough_imported { tags_at (record two_of_each { min_tags = 1 }) several_types (2 ∷ []) (0 ∷ 9 ∷ []) ≡ Ok (2 ∷ [], 9 ∷ []) }
    ensures full { tags_at (record two_of_each { max_tags = 1 }) several_types (2 ∷ []) (1 ∷ 9 ∷ []) ≡ Ok (2 ∷ [], 9 ∷ []) }
    ensures more_than_the_maximum { tags_at (record two_of_each { max_tags = 1 }) several_types (2 ∷ 3 ∷ []) (1 ∷ 9 ∷ [])
        ≡ Ok (2 ∷ 3 ∷ [], 9 ∷ []) }
    ensures none_may_be { tags_at (record two_of_each { max_tags = 0 }) several_types (2 ∷ 3 ∷ []) (1 ∷ 9 ∷ [])
        ≡ Ok (2 ∷ 3 ∷ [], 1 ∷ 9 ∷ []) }
    ensures without_exceptions { tags_at (record two_of_each { exceptions_enabled = false }) several_types [] (1 ∷ 9 ∷ [])
        ≡ Ok ([], 1 ∷ 9 ∷ []) }
    ensures asked_for_without_exceptions { tags_at (record two_of_each { min_tags = 1; exceptions_enabled = false }) several_types [] []
        ≡ Err (IncorrectFormat (Unmet counts.Tags)) }
    ensures of_no_type { tags_at (record two_of_each { min_tags = 1 }) (final giving_two ∷ []) [] []
        ≡ Err (IncorrectFormat (Unmet counts.Tags)) }
{}

#[tactic(auto, unfolding(smith_draw_definitions::specs::Definitions::items_defined_at, smith_draw_definitions::specs::Definitions::type_indices_at, smith_draw_definitions::specs::Definitions::tags_at, smith_draw_definitions::specs::Definitions::funcs_at, smith_draw_types::specs::TypeUses::is_tag_type, smith_draw_types::specs::TypeUses::is_unshared_function, smith_draw_types::specs::Choices::chosen_at, smith_bytes::specs::Growth::grow_at, smith_bytes::specs::Draws::bool_at, smith_bytes::specs::Draws::range_at, smith_bytes::specs::Draws::digit_count))]
fn funcs()
    ensures one_asked_for { funcs_at (record two_of_each { min_funcs = 1 }) several_types [] (2 ∷ 1 ∷ 0 ∷ 9 ∷ [])
        ≡ Ok (3 ∷ 0 ∷ [], 9 ∷ []) }
    ensures after_an_imported_one { funcs_at (record two_of_each { min_funcs = 2 }) several_types (4 ∷ []) (1 ∷ 0 ∷ 9 ∷ [])
        ≡ Ok (4 ∷ 2 ∷ [], 9 ∷ []) }
    ensures of_no_type { funcs_at (record two_of_each { min_funcs = 1 }) (shared_type plain_func ∷ []) [] []
        ≡ Err (IncorrectFormat (Unmet counts.Funcs)) }
    ensures enough_imported { funcs_at (record two_of_each { min_funcs = 1 }) (shared_type plain_func ∷ []) (0 ∷ []) (1 ∷ [])
        ≡ Ok (0 ∷ [], 1 ∷ []) }
    ensures full_without_a_type { funcs_at (record two_of_each { max_funcs = 1 }) (shared_type plain_func ∷ []) (0 ∷ []) (1 ∷ [])
        ≡ Ok (0 ∷ [], 1 ∷ []) }
    ensures too_few_imported { funcs_at (record two_of_each { min_funcs = 2 }) (shared_type plain_func ∷ []) (0 ∷ []) []
        ≡ Err (IncorrectFormat (Unmet counts.Funcs)) }
{}

#[tactic(auto, unfolding(smith_draw_definitions::specs::Definitions::items_tried_at, smith_draw_consts::specs::TriedLists::try_grow_at, smith_draw_definitions::specs::Definitions::tables_at, smith_draw_definitions::specs::Definitions::table_at, smith_draw_types::specs::TableTypes::table_type_at, smith_draw_types::specs::TableTypes::drawn_elements, smith_draw_types::specs::Memories::memory64_at, smith_draw_consts::specs::ConstExprs::table_init_at, smith_draw_types::specs::Limits::limits64_at, smith_draw_types::specs::Limits::gradually_at, smith_draw_types::specs::Limits::gradual, smith_draw_types::specs::Limits::sixth_power, smith_draw_types::specs::Limits::scaled, smith_draw_types::specs::ValueTypes::val_type_at, smith_draw_types::specs::ValueTypes::ref_type_at, smith_draw_types::specs::ValueTypes::granted_at, smith_draw_types::specs::ValueTypes::heap_type_at, smith_draw_types::specs::ValueTypes::type_index_at, smith_draw_types::specs::ValueTypes::abstract_heap_type_at, smith_draw_types::specs::ValueTypes::sharedness_at, smith_draw_types::specs::Choices::chosen_at, smith_draw_consts::specs::ConstExprs::expression_alone_at, smith_draw_consts::specs::ConstExprs::expression_at, smith_draw_consts::specs::ConstNodes::node_at, smith_draw_consts::specs::Constants::constant_at, smith_draw_consts::specs::ConstOffers::offers, smith_draw_types::specs::Offered::ancestors, smith_draw_types::specs::Below::is_heap_below, smith_bytes::specs::Draws::choose_at, smith_bytes::specs::Draws::whole_at, smith_bytes::specs::Draws::bool_at, smith_bytes::specs::Draws::range_at, smith_bytes::specs::Draws::digit_count))]
fn tables()
    ensures without_an_initialiser { tables_at two_of_each (beside_globals []) [] [] (1 ∷ 0 ∷ 0 ∷ 0 ∷ 0 ∷ 0 ∷ 0 ∷ 1 ∷ 0 ∷ 9 ∷ [])
        ≡ Ok ((table funcref 0 None ∷ [], None ∷ []), 9 ∷ []) }
    ensures with_an_initialiser { tables_at (record two_of_each { min_tables = 1 }) (beside_globals []) [] [] (0 ∷ 0 ∷ 0 ∷ 0 ∷ 0 ∷ 0 ∷ 0 ∷ 0
        ∷ 9 ∷ []) ≡ Ok ((table funcref 0 None ∷ [], Some no_function ∷ []), 9 ∷ []) }
    ensures without_garbage_collection { tables_at (record two_of_each { min_tables = 1; gc_enabled = false }) (beside_globals []) [] [] (0
        ∷ 0 ∷ 0 ∷ 0 ∷ 0 ∷ 0 ∷ 0 ∷ 9 ∷ []) ≡ Ok ((table funcref 0 None ∷ [], None ∷ []), 9 ∷ []) }
    ensures reading_an_imported_global { tables_at (record two_of_each { min_tables = 1 })
        (beside_globals (global (Ref funcref) false ∷ [])) [] [] (0 ∷ 0 ∷ 0 ∷ 0 ∷ 0 ∷ 0 ∷ 0 ∷ 0 ∷ 0 ∷ 9 ∷ [])
        ≡ Ok ((table funcref 0 None ∷ [], Some (GlobalGet 0 ∷ []) ∷ []), 9 ∷ []) }
    ensures after_an_imported_one { tables_at (record two_of_each { min_tables = 2 }) (beside_globals []) (table funcref 5 None ∷ []) [] (0
        ∷ 0 ∷ 0 ∷ 0 ∷ 0 ∷ 0 ∷ 1 ∷ 0 ∷ 9 ∷ []) ≡ Ok ((table funcref 5 None ∷ table funcref 0 None ∷ [], None ∷ []), 9 ∷ []) }
    ensures enough_imported { tables_at (record two_of_each { min_tables = 1 }) (beside_globals []) (table funcref 5 None ∷ []) [] (0 ∷ 9
        ∷ []) ≡ Ok ((table funcref 5 None ∷ [], []), 9 ∷ []) }
{}

#[tactic(auto, unfolding(smith_draw_definitions::specs::Definitions::items_defined_at, smith_bytes::specs::Growth::grow_at, smith_draw_definitions::specs::Definitions::memories_at, smith_draw_types::specs::Memories::memtype_at, smith_draw_types::specs::Memories::shared_memory_at, smith_draw_types::specs::Memories::memory64_at, smith_draw_types::specs::Memories::page_size_at, smith_draw_types::specs::Memories::drawn_pages, smith_draw_types::specs::Memories::likely_pages, smith_draw_types::specs::Limits::limits64_at, smith_draw_types::specs::Limits::gradually_at, smith_draw_types::specs::Limits::gradual, smith_draw_types::specs::Limits::sixth_power, smith_draw_types::specs::Limits::scaled, smith_bytes::specs::Draws::whole_at, smith_bytes::specs::Draws::bool_at, smith_bytes::specs::Draws::range_at, smith_bytes::specs::Draws::digit_count))]
fn memories()
    ensures one_asked_for { memories_at (record two_of_each { min_memories = 1 }) [] (0 ∷ 0 ∷ 0 ∷ 0 ∷ 1 ∷ 0 ∷ 0 ∷ 3 ∷ 0 ∷ 9 ∷ [])
        ≡ (up_to_three ∷ [], 9 ∷ []) }
    ensures after_an_imported_one { memories_at (record two_of_each { min_memories = 2 }) (memory 5 None ∷ []) (0 ∷ 0 ∷ 0 ∷ 0 ∷ 1 ∷ 0 ∷ 0
        ∷ 3 ∷ 0 ∷ 9 ∷ []) ≡ (memory 5 None ∷ up_to_three ∷ [], 9 ∷ []) }
    ensures enough_imported { memories_at (record two_of_each { min_memories = 1 }) (memory 5 None ∷ []) (0 ∷ 9 ∷ [])
        ≡ (memory 5 None ∷ [], 9 ∷ []) }
{}

#[tactic(auto, unfolding(smith_draw_definitions::specs::Definitions::items_tried_at, smith_draw_consts::specs::TriedLists::try_grow_at, smith_draw_definitions::specs::Definitions::globals_at, smith_draw_definitions::specs::Definitions::global_at, smith_draw_definitions::specs::Definitions::initialised_at, smith_draw_types::specs::GlobalTypes::global_type_at, smith_draw_types::specs::ValueTypes::val_type_at, smith_draw_types::specs::ValueTypes::ref_type_at, smith_draw_types::specs::ValueTypes::granted_at, smith_draw_types::specs::ValueTypes::heap_type_at, smith_draw_types::specs::ValueTypes::type_index_at, smith_draw_types::specs::ValueTypes::abstract_heap_type_at, smith_draw_types::specs::ValueTypes::sharedness_at, smith_draw_types::specs::Choices::chosen_at, smith_draw_consts::specs::ConstExprs::expression_alone_at, smith_draw_consts::specs::ConstExprs::expression_at, smith_draw_consts::specs::ConstNodes::node_at, smith_draw_consts::specs::Constants::constant_at, smith_draw_consts::specs::ConstOffers::offers, smith_draw_types::specs::Offered::ancestors, smith_draw_types::specs::Below::is_heap_below, smith_bytes::specs::Draws::choose_at, smith_bytes::specs::Draws::whole_at, smith_bytes::specs::Draws::bool_at, smith_bytes::specs::Draws::range_at, smith_bytes::specs::Draws::digit_count))]
fn globals()
    ensures reading_the_one_before { globals_at (record two_of_each { min_globals = 1 }) (beside_globals []) [] [] (0 ∷ 0 ∷ 7 ∷ 0 ∷ 0 ∷ 0
        ∷ 1 ∷ 0 ∷ 1 ∷ 0 ∷ 9 ∷ []) ≡ Ok ((number ∷ global I32 true ∷ [], (0, I32Const (pos 7) ∷ []) ∷ (1, GlobalGet 0 ∷ []) ∷ []), 9 ∷ []) }
    ensures without_garbage_collection { globals_at (record two_of_each { min_globals = 1; gc_enabled = false }) (beside_globals []) [] []
        (0 ∷ 0 ∷ 7 ∷ 0 ∷ 0 ∷ 0 ∷ 1 ∷ 0 ∷ 1 ∷ 8 ∷ 0 ∷ 0 ∷ 0 ∷ 9 ∷ [])
        ≡ Ok ((number ∷ global I32 true ∷ [], (0, I32Const (pos 7) ∷ []) ∷ (1, I32Const (pos 8) ∷ []) ∷ []), 9 ∷ []) }
    ensures reading_an_imported_one { globals_at (record two_of_each { min_globals = 2; gc_enabled = false }) (beside_globals (number ∷ []))
        (number ∷ []) [] (0 ∷ 1 ∷ 0 ∷ 1 ∷ 9 ∷ []) ≡ Ok ((number ∷ global I32 true ∷ [], (1, GlobalGet 0 ∷ []) ∷ []), 9 ∷ []) }
    ensures reading_a_defined_one { globals_at (record two_of_each { min_globals = 2 }) (beside_globals []) (number
        ∷ []) ((0, I32Const (pos 7) ∷ []) ∷ []) (0 ∷ 1 ∷ 0 ∷ 1 ∷ 9 ∷ [])
        ≡ Ok ((number ∷ global I32 true ∷ [], (0, I32Const (pos 7) ∷ []) ∷ (1, GlobalGet 0 ∷ []) ∷ []), 9 ∷ []) }
    ensures a_defined_one_is_not_seen { globals_at (record two_of_each { min_globals = 2; gc_enabled = false }) (beside_globals []) (number
        ∷ []) ((0, I32Const (pos 7) ∷ []) ∷ []) (0 ∷ 1 ∷ 8 ∷ 0 ∷ 0 ∷ 0 ∷ 1 ∷ 9 ∷ [])
        ≡ Ok ((number ∷ global I32 true ∷ [], (0, I32Const (pos 7) ∷ []) ∷ (1, I32Const (pos 8) ∷ []) ∷ []), 9 ∷ []) }
    ensures enough_imported { globals_at (record two_of_each { min_globals = 1 }) (beside_globals (number ∷ [])) (number ∷ []) [] (0 ∷ 9
        ∷ []) ≡ Ok ((number ∷ [], []), 9 ∷ []) }
{}

#[tactic(auto, unfolding(smith_draw_definitions::specs::Definitions::items_tried_at, smith_draw_consts::specs::TriedLists::try_grow_at, smith_draw_definitions::specs::Definitions::globals_at, smith_draw_definitions::specs::Definitions::global_at, smith_draw_definitions::specs::Definitions::initialised_at, smith_draw_types::specs::GlobalTypes::global_type_at, smith_draw_types::specs::ValueTypes::val_type_at, smith_draw_types::specs::ValueTypes::ref_type_at, smith_draw_types::specs::ValueTypes::granted_at, smith_draw_types::specs::ValueTypes::heap_type_at, smith_draw_types::specs::ValueTypes::type_index_at, smith_draw_types::specs::ValueTypes::abstract_heap_type_at, smith_draw_types::specs::ValueTypes::sharedness_at, smith_draw_types::specs::Choices::chosen_at, smith_draw_consts::specs::ConstExprs::expression_alone_at, smith_draw_consts::specs::ConstExprs::expression_at, smith_draw_consts::specs::ConstNodes::node_at, smith_draw_consts::specs::Constants::constant_at, smith_draw_consts::specs::ConstOffers::offers, smith_draw_types::specs::Offered::ancestors, smith_draw_types::specs::Below::is_heap_below, smith_draw_types::specs::Grounding::is_grounded, smith_bytes::specs::Draws::choose_at, smith_bytes::specs::Draws::whole_at, smith_bytes::specs::Draws::bool_at, smith_bytes::specs::Draws::range_at, smith_bytes::specs::Draws::digit_count))]
fn references()
    ensures over_a_function { globals_at (record two_of_each { min_globals = 1; max_globals = 1; non_nullable_enabled = true })
        (scope_over (final plain_function ∷ []) (0 ∷ []) 0 []) [] [] (5 ∷ 1 ∷ 1 ∷ 0 ∷ 9 ∷ [])
        ≡ Ok ((global (Ref (not_null (Concrete 0))) false ∷ [], (0, RefFunc 0 ∷ []) ∷ []), 9 ∷ []) }
    ensures over_no_function { globals_at (record two_of_each { min_globals = 1; max_globals = 1; non_nullable_enabled = true })
        (scope_over (final plain_function ∷ []) [] 0 []) [] [] (5 ∷ 1 ∷ 1 ∷ 0 ∷ 9 ∷ [])
        ≡ Ok ((global (Ref (nullable (Concrete 0))) false ∷ [], (0, RefNull (Concrete 0) ∷ []) ∷ []), 9 ∷ []) }
{}

#[tactic(auto, unfolding(smith_draw_definitions::specs::Definitions::definitions_at, smith_draw_definitions::specs::Definitions::items_defined_at, smith_draw_definitions::specs::Definitions::items_tried_at, smith_draw_consts::specs::TriedLists::try_grow_at, smith_bytes::specs::Growth::grow_at, smith_draw_definitions::specs::Definitions::type_indices_at, smith_draw_definitions::specs::Definitions::tags_at, smith_draw_definitions::specs::Definitions::funcs_at, smith_draw_types::specs::TypeUses::is_tag_type, smith_draw_types::specs::TypeUses::is_unshared_function, smith_draw_definitions::specs::Definitions::tables_at, smith_draw_definitions::specs::Definitions::table_at, smith_draw_types::specs::TableTypes::table_type_at, smith_draw_types::specs::TableTypes::drawn_elements, smith_draw_types::specs::Memories::memory64_at, smith_draw_consts::specs::ConstExprs::table_init_at, smith_draw_definitions::specs::Definitions::memories_at, smith_draw_types::specs::Memories::memtype_at, smith_draw_types::specs::Memories::shared_memory_at, smith_draw_types::specs::Memories::page_size_at, smith_draw_types::specs::Memories::drawn_pages, smith_draw_types::specs::Memories::likely_pages, smith_draw_definitions::specs::Definitions::globals_at, smith_draw_definitions::specs::Definitions::global_at, smith_draw_definitions::specs::Definitions::initialised_at, smith_draw_types::specs::GlobalTypes::global_type_at, smith_draw_types::specs::Limits::limits64_at, smith_draw_types::specs::Limits::gradually_at, smith_draw_types::specs::Limits::gradual, smith_draw_types::specs::Limits::sixth_power, smith_draw_types::specs::Limits::scaled, smith_draw_types::specs::ValueTypes::val_type_at, smith_draw_types::specs::ValueTypes::ref_type_at, smith_draw_types::specs::ValueTypes::granted_at, smith_draw_types::specs::ValueTypes::heap_type_at, smith_draw_types::specs::ValueTypes::type_index_at, smith_draw_types::specs::ValueTypes::abstract_heap_type_at, smith_draw_types::specs::ValueTypes::sharedness_at, smith_draw_types::specs::Choices::chosen_at, smith_draw_consts::specs::ConstExprs::expression_alone_at, smith_draw_consts::specs::ConstExprs::expression_at, smith_draw_consts::specs::ConstNodes::node_at, smith_draw_consts::specs::Constants::constant_at, smith_draw_consts::specs::ConstOffers::offers, smith_draw_types::specs::Offered::ancestors, smith_draw_types::specs::Below::is_heap_below, smith_bytes::specs::Draws::choose_at, smith_bytes::specs::Draws::whole_at, smith_bytes::specs::Draws::bool_at, smith_bytes::specs::Draws::range_at, smith_bytes::specs::Draws::digit_count))]
fn spaces()
    ensures one_of_each { definitions_at one_of_each_kind several_types no_imports nothing_defined
        (1 ∷ 0 ∷ 0 ∷ 0 ∷ 0 ∷ 0 ∷ 0 ∷ 1 ∷ 0 ∷ 0 ∷ 0 ∷ 0 ∷ 1 ∷ 0 ∷ 0 ∷ 3 ∷ 0 ∷ 1 ∷ 7 ∷ 0 ∷ 0
        ∷ 0 ∷ 9 ∷ [])
        ≡ Ok (
          (
            record {
              tags = 3 ∷ [];
              funcs = 0 ∷ [];
              tables = table (nullable (plain heap.Extern)) 0 None ∷ [];
              memories = up_to_three ∷ [];
              globals = global I32 true ∷ [];
            },
            record {
              num_tags = 1;
              num_funcs = 1;
              tables = None ∷ [];
              num_memories = 1;
              globals = (0, I32Const (pos 7) ∷ []) ∷ [];
            },
          ),
          9 ∷ [],
        ) }
    ensures all_imported { definitions_at one_of_each_kind several_types one_imported_of_each nothing_defined (0 ∷ 1 ∷ 0 ∷ 1 ∷ 0 ∷ 9 ∷ [])
        ≡ Ok ((one_imported_of_each, record { num_tags = 0; num_funcs = 0; tables = []; num_memories = 0; globals = [] }), 9 ∷ []) }
    ensures all_defined { definitions_at one_of_each_kind several_types one_imported_of_each
        (record {
          num_tags = 1;
          num_funcs = 1;
          tables = None ∷ [];
          num_memories = 1;
          globals = (0, I32Const (pos 7) ∷ []) ∷ [];
        }) (0 ∷ 1 ∷ 0 ∷ 1 ∷ 0 ∷ 9 ∷ []) ≡ Ok (
          (
            one_imported_of_each,
            record {
              num_tags = 1;
              num_funcs = 1;
              tables = None ∷ [];
              num_memories = 1;
              globals = (0, I32Const (pos 7) ∷ []) ∷ [];
            },
          ),
          9 ∷ [],
        ) }
    ensures after_one_imported_of_each { definitions_at
        (record two_at_least_of_each { gc_enabled = false }) several_types one_imported_of_each
        nothing_defined (1 ∷ 0 ∷ 0 ∷ 0 ∷ 0 ∷ 0 ∷ 0 ∷ 0 ∷ 0 ∷ 0 ∷ 0 ∷ 0 ∷ 0 ∷ 0 ∷ 0 ∷ 1 ∷ 0 ∷ 0
        ∷ 3 ∷ 0 ∷ 0 ∷ 1 ∷ 0 ∷ 0 ∷ 9 ∷ [])
        ≡ Ok (
          (
            record {
              tags = 2 ∷ 3 ∷ [];
              funcs = 4 ∷ 0 ∷ [];
              tables = table funcref 5 None ∷ table funcref 0 None ∷ [];
              memories = memory 5 None ∷ up_to_three ∷ [];
              globals = number ∷ global I32 true ∷ [];
            },
            record {
              num_tags = 1;
              num_funcs = 1;
              tables = None ∷ [];
              num_memories = 1;
              globals = (1, GlobalGet 0 ∷ []) ∷ [];
            },
          ),
          9 ∷ [],
        ) }
    ensures a_table_of_a_defined_function { definitions_at (record two_of_each {
      min_funcs = 1;
      max_funcs = 1;
      min_tables = 1;
      max_tables = 1;
      max_tags = 0;
      max_memories = 0;
      max_globals = 0;
    }) (final plain_function ∷ []) no_imports nothing_defined
        (0 ∷ 0 ∷ 0 ∷ 0 ∷ 0 ∷ 0 ∷ 0 ∷ 0 ∷ 1 ∷ 9 ∷ [])
        ≡ Ok (
          (
            record {
              tags = [];
              funcs = 0 ∷ [];
              tables = table funcref 0 None ∷ [];
              memories = [];
              globals = [];
            },
            record {
              num_tags = 0;
              num_funcs = 1;
              tables = Some (RefFunc 0 ∷ []) ∷ [];
              num_memories = 0;
              globals = [];
            },
          ),
          9 ∷ [],
        ) }
{}

#[tactic(auto, unfolding(smith_draw_types::specs::RecGroups::types_at, smith_draw_types::specs::RecGroups::least_types_at, smith_draw_types::specs::RecGroups::more_types_at, smith_draw_imports::specs::Importing::imports_at, smith_draw_imports::specs::Importing::groups_at, wasm_smith::specs::Build::module_at, wasm_smith::specs::Build::first_parts_typed_at, wasm_smith::specs::FirstParts::first_parts_at, wasm_smith::specs::Build::imported_at, wasm_smith::specs::Build::defined_at, wasm_smith::specs::Build::exported_at, smith_draw_definitions::specs::Definitions::definitions_at, smith_bytes::specs::Steps::section_flag_at, wasm_smith::specs::DrawnContents::after_exports_at, wasm_smith::specs::DrawnContents::all_segments_at, smith_draw_contents::specs::AllExports::exports_at, smith_draw_contents::specs::Exporting::free_exports_at, smith_draw_contents::specs::Exporting::exports_from, smith_draw_contents::specs::Start::start_at, smith_draw_contents::specs::Start::start_wanted_at, smith_draw_contents::specs::ElementSegments::all_element_segments_at, smith_draw_contents::specs::ElementSegments::element_kinds_at, smith_draw_contents::specs::ElementSegments::table_kinds_at, smith_draw_contents::specs::DataSegments::data_at, smith_draw_contents::specs::DataSegments::counting_at, smith_draw_contents::specs::DrawnBodies::bodies_at, smith_draw_definitions::specs::Definitions::items_defined_at, smith_draw_definitions::specs::Definitions::items_tried_at, smith_draw_consts::specs::TriedLists::try_grow_at, smith_bytes::specs::Growth::grow_at, smith_draw_definitions::specs::Definitions::type_indices_at, smith_draw_definitions::specs::Definitions::tags_at, smith_draw_definitions::specs::Definitions::funcs_at, smith_draw_types::specs::TypeUses::is_tag_type, smith_draw_types::specs::TypeUses::is_unshared_function, smith_draw_definitions::specs::Definitions::tables_at, smith_draw_definitions::specs::Definitions::table_at, smith_draw_types::specs::TableTypes::table_type_at, smith_draw_types::specs::TableTypes::drawn_elements, smith_draw_types::specs::Memories::memory64_at, smith_draw_consts::specs::ConstExprs::table_init_at, smith_draw_definitions::specs::Definitions::memories_at, smith_draw_types::specs::Memories::memtype_at, smith_draw_types::specs::Memories::shared_memory_at, smith_draw_types::specs::Memories::page_size_at, smith_draw_types::specs::Memories::drawn_pages, smith_draw_types::specs::Memories::likely_pages, smith_draw_definitions::specs::Definitions::globals_at, smith_draw_definitions::specs::Definitions::global_at, smith_draw_definitions::specs::Definitions::initialised_at, smith_draw_types::specs::GlobalTypes::global_type_at, smith_draw_types::specs::Limits::limits64_at, smith_draw_types::specs::Limits::gradually_at, smith_draw_types::specs::Limits::gradual, smith_draw_types::specs::Limits::sixth_power, smith_draw_types::specs::Limits::scaled, smith_draw_types::specs::ValueTypes::val_type_at, smith_draw_types::specs::ValueTypes::ref_type_at, smith_draw_types::specs::ValueTypes::granted_at, smith_draw_types::specs::ValueTypes::heap_type_at, smith_draw_types::specs::ValueTypes::type_index_at, smith_draw_types::specs::ValueTypes::abstract_heap_type_at, smith_draw_types::specs::ValueTypes::sharedness_at, smith_draw_types::specs::Choices::chosen_at, smith_draw_consts::specs::ConstExprs::expression_alone_at, smith_draw_consts::specs::ConstExprs::expression_at, smith_draw_consts::specs::ConstNodes::node_at, smith_draw_consts::specs::Constants::constant_at, smith_draw_consts::specs::ConstOffers::offers, smith_draw_types::specs::Offered::ancestors, smith_draw_types::specs::Below::is_heap_below, smith_bytes::specs::Draws::choose_at, smith_bytes::specs::Draws::whole_at, smith_bytes::specs::Draws::bool_at, smith_bytes::specs::Draws::range_at, smith_bytes::specs::Draws::digit_count))]
fn modules()
    ensures flags { module_at false (record two_of_each {
      max_types = 0;
      max_imports = 0;
      max_tables = 0;
      max_memories = 0;
      min_globals = 1;
      max_globals = 1;
      max_exports = 0;
      bulk_memory_enabled = false;
    }) (1 ∷ 0 ∷ 1 ∷ 7 ∷ 0 ∷ 0 ∷ 0 ∷ 0 ∷ 9 ∷ []) ≡ Ok (
      record (empty_module (record two_of_each {
        max_types = 0;
        max_imports = 0;
        max_tables = 0;
        max_memories = 0;
        min_globals = 1;
        max_globals = 1;
        max_exports = 0;
        bulk_memory_enabled = false;
      })) {
        globals = global I32 true ∷ [];
        defined_globals = (0, I32Const (pos 7) ∷ []) ∷ [];
        encodes_imports = true;
      },
      9 ∷ [],
    ) }
{}

fn an_imported_function()
    ensures { module_at false one_import_of_a_function (0 ∷ 0 ∷ 1 ∷ 9 ∷ 0 ∷ 0 ∷ [])
        ≡ Ok (
          record (empty_module one_import_of_a_function) {
            types = final plain_function ∷ [];
            groups = group_of 0 1 ∷ [];
            imports = Single (import_named [] (Func 0)) ∷ [];
            num_imports = 1;
            funcs = 0 ∷ [];
            encodes_types = true;
            encodes_imports = true;
            type_size = 2;
          },
          9 ∷ [],
        ) }
{}
