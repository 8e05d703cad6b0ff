#![tactic(auto, unfolding(smith_body_control::specs::CallChoices::by_reference_at, smith_body_control::specs::CallChoices::indirect_at, smith_body_control::specs::CallChoices::return_call_at, smith_body_control::specs::CallChoices::tail_call_at, smith_body_choices::specs::Choices::any_call_at, smith_body_choices::specs::Choices::any_statement_at, smith_body_choices::specs::Choices::call_at, smith_body_choices::specs::Choices::statement_choice_at, smith_body_choices::specs::Choices::value_choice_at, smith_body_nodes::specs::Items::index_at, smith_body_nodes::specs::Offered::chunk_at, smith_body_nodes::specs::Offered::offered, smith_body_nodes::specs::Scopes::is_permitted, smith_instr::specs::Enabled::is_enabled, smith_draw_types::specs::Below::is_heap_below, smith_draw_types::specs::Choices::chosen_at, smith_bytes::specs::Draws::choose_at, smith_bytes::specs::Draws::digit_count, smith_bytes::specs::Draws::range_at))]

ghost use Rattle.std.specs.Prelude.{◌≡◌, Some, None, [], ◌∷◌};
ghost use Rattle.smith_types.specs.ExampleTypes.{nullable};
ghost use Rattle.smith_types.specs.Syntax.value_type.HeapType.TheVariants.{Concrete};
ghost use Rattle.smith_types.specs.Syntax.value_type.ValType.TheVariants.{I32, I64, F32, Ref};
ghost use Rattle.smith_config.specs.Config.{default_config};
ghost use Rattle.smith_instr.specs.declared.instr.Instr.TheVariants as instr;
ghost use Rattle.smith_instr_examples.specs.ExampleBodies.{function_of, some_func};
ghost use Rattle.smith_body_control.specs.CallChoices.{tail_call_at};
ghost use Rattle.smith_body_choices.specs.Choices.{statement_choice_at, value_choice_at};
ghost use Rattle.smith_body_nodes.specs.Nodes.{node_of};
ghost use Rattle.smith_body_examples.specs.ExampleBytes.{calling};
ghost use Rattle.smith_body_examples.specs.ExampleContexts.{externals, holding, unmanaged, wide_functions, without_references};

fn of_functions()
    ensures of_another_type { statement_choice_at default_config (function_of [] []) (5 ∷ 1 ∷ 9 ∷ [])
        ≡ (node_of (I32 ∷ []) (instr.Call 1) 0, 9 ∷ []) }
    ensures of_its_own_type { statement_choice_at default_config (function_of [] []) (5 ∷ 0 ∷ 1 ∷ 9 ∷ [])
        ≡ (node_of (I32 ∷ []) (instr.Call 1) 0, 9 ∷ []) }
    ensures of_its_own_type_once_more { statement_choice_at default_config (function_of [] []) (5 ∷ 0 ∷ 0 ∷ 9 ∷ [])
        ≡ (node_of [] (instr.Call 0) 0, 9 ∷ []) }
    ensures of_other_results { statement_choice_at default_config (calling []) (5 ∷ 0 ∷ 9 ∷ []) ≡ (node_of [] (instr.Call 0) 1, 9 ∷ []) }
    ensures of_other_parameters { value_choice_at default_config (record (calling (I32 ∷ [])) { locals = I32 ∷ []; params = 1 }) I32 (8 ∷ 0
        ∷ 9 ∷ []) ≡ (Some (node_of [] (instr.Call 0) 0), 9 ∷ []) }
    ensures for_a_value { value_choice_at default_config (calling (I32 ∷ [])) I32 (8 ∷ 0 ∷ 1 ∷ 9 ∷ [])
        ≡ (Some (node_of (I64 ∷ []) (instr.Call 1) 1), 9 ∷ []) }
{}

fn through_tables()
    ensures first_of_two_results { value_choice_at default_config (calling []) I32 (19 ∷ 1 ∷ 9 ∷ [])
        ≡ (Some (node_of (I64 ∷ I32 ∷ []) (instr.CallIndirect 0 1) 1), 9 ∷ []) }
    ensures place_below_the_parameters { ¬ (value_choice_at default_config (calling []) I32 (19 ∷ 1 ∷ 9 ∷ [])
        ≡ (Some (node_of (I32 ∷ I64 ∷ []) (instr.CallIndirect 0 1) 1), 9 ∷ [])) }
    ensures no_function_type { value_choice_at default_config (calling []) F32 (19 ∷ 1 ∷ 9 ∷ []) ≡ (None, 1 ∷ 9 ∷ []) }
    ensures any_function_type { statement_choice_at default_config (function_of [] []) (18 ∷ 2 ∷ [])
        ≡ (node_of (some_func ∷ I32 ∷ []) (instr.CallIndirect 0 4) 1, []) }
    ensures by_a_wide_address { statement_choice_at default_config (holding (externals ∷ wide_functions ∷ [])) (18 ∷ 0 ∷ 5 ∷ [])
        ≡ (node_of (I64 ∷ []) (instr.CallIndirect 1 0) 0, 5 ∷ []) }
    ensures no_table_of_functions { statement_choice_at default_config (holding (externals ∷ [])) (18 ∷ 0 ∷ 18 ∷ 0 ∷ 5 ∷ [])
        ≡ (node_of [] instr.Nop 0, 5 ∷ []) }
{}

fn by_references()
    ensures of_a_function_that_may_be_named { value_choice_at default_config (calling []) I32 (20 ∷ 0 ∷ 9 ∷ [])
        ≡ (Some (node_of (I64 ∷ Ref (nullable (Concrete 1)) ∷ []) (instr.CallRef 1) 1), 9 ∷ []) }
    ensures no_function_of_the_type { ¬ (value_choice_at default_config (calling []) I32 (20 ∷ 0 ∷ 0 ∷ [])
        ≡ (Some (node_of (Ref (nullable (Concrete 0)) ∷ []) (instr.CallRef 0) 0), [])) }
    ensures of_any_function_type { value_choice_at default_config (calling []) I32 (20 ∷ 15 ∷ 0 ∷ [])
        ≡ (Some (node_of (Ref (nullable (Concrete 0)) ∷ []) (instr.CallRef 0) 0), []) }
    ensures no_function_may_be_named { value_choice_at default_config (record (calling []) { references = [] }) I32 (20 ∷ 0 ∷ 9 ∷ [])
        ≡ (None, 9 ∷ []) }
    ensures function_past_the_end { value_choice_at default_config (record (calling []) { references = 2 ∷ [] }) I32 (20 ∷ 0 ∷ 9 ∷ [])
        ≡ (None, 9 ∷ []) }
    ensures dropped { statement_choice_at default_config (calling []) (19 ∷ 14 ∷ [])
        ≡ (node_of (I64 ∷ Ref (nullable (Concrete 1)) ∷ []) (instr.CallRef 1) 2, []) }
    ensures without_gc { value_choice_at default_config (unmanaged (calling [])) I32 (20 ∷ 1 ∷ []) ≡ (None, 1 ∷ []) }
    ensures without_reference_types { statement_choice_at default_config (without_references (calling [])) (19 ∷ 19 ∷ 1 ∷ [])
        ≡ (node_of [] instr.Nop 0, 1 ∷ []) }
{}

fn tail_calls()
    ensures function { tail_call_at (calling (I32 ∷ I64 ∷ [])) (0 ∷ 8 ∷ []) ≡ (Some (node_of (I64 ∷ []) (instr.ReturnCall 1) 0), 8 ∷ []) }
    ensures of_fewer_results { ¬ (tail_call_at (calling (I32 ∷ I64 ∷ [])) (0 ∷ 8 ∷ [])
        ≡ (Some (node_of [] (instr.ReturnCall 0) 0), 8 ∷ [])) }
    ensures through_a_table { tail_call_at (calling (I32 ∷ [])) (1 ∷ 8 ∷ [])
        ≡ (Some (node_of (I32 ∷ []) (instr.ReturnCallIndirect 0 0) 0), 8 ∷ []) }
    ensures by_a_reference { tail_call_at (calling (I32 ∷ [])) (5 ∷ 15 ∷ 8 ∷ [])
        ≡ (Some (node_of (Ref (nullable (Concrete 0)) ∷ []) (instr.ReturnCallRef 0) 0), 8 ∷ []) }
    ensures of_other_results { tail_call_at (calling (I64 ∷ [])) (0 ∷ 8 ∷ []) ≡ (None, 8 ∷ []) }
{}
