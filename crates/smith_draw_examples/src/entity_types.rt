// Drawn global and table types, and the types that tags and imported functions may have. The
// clauses are proved; nothing calls these functions.

ghost use Rattle.std.specs.Prelude.{◌≡◌, ◌^◌, ◌++◌, [], ◌∷◌, true, false, Some, None};
ghost use Rattle.smith_types.specs.Flags.{funcref};
ghost use Rattle.smith_types.specs.ExampleEntities.{constant_global, variable_global, table};
ghost use Rattle.smith_types.specs.ExampleTypes.{anyref, shared_anyref, nullable, shared_type, final_type, plain_func, giving};
ghost use Rattle.smith_types.specs.Syntax.value_type.ValType.TheVariants.{I32, I64, V128, Ref};
ghost use Rattle.smith_types.specs.Syntax.value_type.HeapType.TheVariants.{Abstract, Concrete};
ghost use Rattle.smith_types.specs.Syntax.value_type.AbstractHeapType.TheVariants as heap;
ghost use Rattle.smith_draw_consts.specs.ExampleConstExprs.{context_of_types};
ghost use Rattle.smith_config.specs.Config.{default_config};
ghost use Rattle.smith_draw_types.specs.Choices.{chosen_at};
ghost use Rattle.smith_draw_types.specs.ExampleReferenceScopes.{of_each_kind};
ghost use Rattle.smith_draw_types.specs.GlobalTypes.{global_type_at};
ghost use Rattle.smith_draw_types.specs.SharedHeapTypes.{is_heap_type_shared};
ghost use Rattle.smith_draw_types.specs.TableTypes.{drawn_elements, table_type_at};
ghost use Rattle.smith_draw_types.specs.TypeUses.{types_for};
ghost use Rattle.smith_draw_types.specs.declared.type_use.TypeUse.TheVariants as uses;

fn shared_heap_types()
    ensures abstract_one { is_heap_type_shared [] (Abstract true heap.Any) ≡ true }
    ensures as_its_type { is_heap_type_shared of_each_kind (Concrete 5) ≡ true }
    ensures not_as_its_type { is_heap_type_shared of_each_kind (Concrete 2) ≡ false }
    ensures of_no_type { is_heap_type_shared of_each_kind (Concrete 8) ≡ false }
{}

// A global type takes its value type, whether it is shared unless that is determined, and whether
// it is mutable.
#[tactic(auto, unfolding(smith_draw_types::specs::GlobalTypes::global_type_at, smith_draw_types::specs::Choices::chosen_at, smith_draw_types::specs::ValueTypes::val_type_at, smith_draw_types::specs::ValueTypes::ref_type_at, smith_draw_types::specs::ValueTypes::granted_at, smith_draw_types::specs::ValueTypes::heap_type_at, smith_draw_types::specs::ValueTypes::type_index_at, smith_draw_types::specs::ValueTypes::abstract_heap_type_at, smith_draw_types::specs::ValueTypes::sharedness_at, smith_bytes::specs::Draws::bool_at, smith_bytes::specs::Draws::range_at, smith_bytes::specs::Draws::digit_count, smith_bytes::specs::Draws::ratio_at))]
fn globals()
    ensures of_nothing { global_type_at default_config (context_of_types []) [] ≡ (constant_global I32, []) }
    ensures mutable { global_type_at default_config (context_of_types []) (0 ∷ 1 ∷ 7 ∷ []) ≡ (variable_global I32, 7 ∷ []) }
    ensures vector { global_type_at default_config (context_of_types []) (4 ∷ 0 ∷ []) ≡ (constant_global V128, []) }
    ensures reference { global_type_at default_config (context_of_types []) (5 ∷ 3 ∷ 1 ∷ []) ≡ (variable_global anyref, []) }
    ensures shared_number { global_type_at (record default_config { shared_everything_threads_enabled = true }) (context_of_types []) (1 ∷ 0
        ∷ 1 ∷ []) ≡ (record (variable_global I64) { shared = true }, []) }
    ensures unshared_number { global_type_at (record default_config { shared_everything_threads_enabled = true }) (context_of_types []) (1
        ∷ 1 ∷ 1 ∷ []) ≡ (variable_global I64, []) }
    ensures shared_reference { global_type_at (record default_config { shared_everything_threads_enabled = true }) (context_of_types []) (5
        ∷ 0 ∷ 3 ∷ 1 ∷ []) ≡ (record (variable_global shared_anyref) { shared = true }, []) }
    ensures reference_to_a_shared_type { global_type_at default_config (context_of_types (shared_type plain_func ∷ [])) (5 ∷ 1 ∷ 1 ∷ [])
        ≡ (record (variable_global (Ref (nullable (Concrete 0)))) { shared = true }, []) }
{}

#[tactic(auto, unfolding(smith_draw_types::specs::TableTypes::drawn_elements))]
fn elements()
    ensures configured { drawn_elements default_config false ≡ 1000000 }
    ensures none { drawn_elements (record default_config { max_table_elements = 0 }) true ≡ 0 }
    ensures with_traps_disallowed { drawn_elements (record default_config { max_table_elements = 0; disallow_traps = true }) true ≡ 1 }
    ensures configured_past_32_bits { drawn_elements (record default_config { max_table_elements = 2 ^ 32 }) false ≡ 4294967295 }
    ensures configured_of_wide_addresses { drawn_elements (record default_config { max_table_elements = 2 ^ 32 }) true ≡ 2 ^ 32 }
{}

// A table type takes the width of its addresses, its minimum and maximum, and its element type.
#[tactic(auto, unfolding(smith_draw_types::specs::TableTypes::table_type_at, smith_draw_types::specs::TableTypes::drawn_elements, smith_draw_types::specs::Memories::memory64_at, smith_draw_types::specs::Choices::chosen_at, smith_draw_types::specs::ValueTypes::ref_type_at, smith_draw_types::specs::ValueTypes::granted_at, smith_draw_types::specs::ValueTypes::heap_type_at, smith_draw_types::specs::ValueTypes::type_index_at, smith_draw_types::specs::ValueTypes::abstract_heap_type_at, smith_draw_types::specs::ValueTypes::sharedness_at, smith_draw_types::specs::Limits::limits64_at, smith_draw_types::specs::Limits::gradually_at, smith_draw_types::specs::Limits::gradual, smith_draw_types::specs::Limits::sixth_power, smith_draw_types::specs::Limits::scaled, smith_bytes::specs::Draws::whole_at, smith_bytes::specs::Draws::bool_at, smith_bytes::specs::Draws::range_at, smith_bytes::specs::Draws::digit_count, smith_bytes::specs::Draws::ratio_at))]
fn tables()
    ensures of_nothing { table_type_at default_config (context_of_types []) [] ≡ (table funcref 0 None, []) }
    ensures wide { table_type_at default_config (context_of_types []) (1 ∷ []) ≡ (record (table funcref 0 None) { table64 = true }, []) }
    ensures likely { table_type_at default_config (context_of_types []) (0 ∷ 0 ∷ 0 ∷ 0 ∷ 240 ∷ 0 ∷ 0 ∷ 1 ∷ [])
        ≡ (table funcref 6789 None, 1 ∷ []) }
    ensures unlikely { table_type_at default_config (context_of_types []) (0 ∷ 0 ∷ 0 ∷ 0 ∷ 255 ∷ 0 ∷ 0 ∷ [])
        ≡ (table funcref 996093 None, []) }
    ensures with_a_maximum { table_type_at default_config (context_of_types []) (0 ∷ 0 ∷ 0 ∷ 0 ∷ 0 ∷ 1 ∷ 0 ∷ 0 ∷ 9 ∷ 1 ∷ [])
        ≡ (table (nullable (Abstract false heap.Extern)) 0 (Some 9), []) }
    ensures where_one_is_required { table_type_at (record default_config { table_max_size_required = true }) (context_of_types []) (0 ∷ 0
        ∷ 0 ∷ 0 ∷ 0 ∷ 0 ∷ 0 ∷ 9 ∷ []) ≡ (table funcref 0 (Some 9), []) }
    ensures with_traps_disallowed { table_type_at (record default_config { max_table_elements = 0; disallow_traps = true })
        (context_of_types []) [] ≡ (table funcref 1 None, []) }
    ensures shared { table_type_at (record default_config { shared_everything_threads_enabled = true }) (context_of_types []) []
        ≡ (record (table (nullable (Abstract true heap.Func)) 0 None) { shared = true }, []) }
{}

#[tactic(auto, unfolding(smith_draw_types::specs::TypeUses::is_tag_type))]
fn usable_types()
    ensures tags { types_for uses.Tag (of_each_kind ++ final_type (giving (I32 ∷ [])) ∷ []) ≡ 2 ∷ 5 ∷ [] }
    ensures imported_functions { types_for uses.ImportedFunc (of_each_kind ++ final_type (giving (I32 ∷ [])) ∷ []) ≡ 2 ∷ 5 ∷ 8 ∷ [] }
{}
