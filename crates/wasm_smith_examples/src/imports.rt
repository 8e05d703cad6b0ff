ghost use Rattle.std.specs.Prelude.{◌≡◌, [], ◌∷◌, true, false, None, Some, Ok, Err, codes};
ghost use Rattle.smith_bytes.specs.declared.error.Count.TheVariants as counts;
ghost use Rattle.smith_bytes.specs.declared.error.Why.TheVariants.{Unmet};
ghost use Rattle.smith_types.specs.Imports.{imported_spaces};
ghost use Rattle.smith_types.specs.ExampleTypes.{nullable, not_null};
ghost use Rattle.smith_types.specs.Syntax.value_type.HeapType.TheVariants.{Concrete};
ghost use Rattle.smith_types.specs.Syntax.value_type.ValType.TheVariants.{Ref};
ghost use Rattle.smith_types.specs.Syntax.entity_type.EntityType.TheVariants.{Global, Memory, Func};
ghost use Rattle.smith_types.specs.Syntax.entity_type.ExportKind.TheVariants as kind;
ghost use Rattle.smith_types.specs.Syntax.imports.Imports.TheVariants.{Single, Compact1, Compact2};
ghost use Rattle.smith_config.specs.Config.{default_config};
ghost use Rattle.smith_draw_types.specs.Choices.{enabled};
ghost use Rattle.smith_config.specs.ExampleMembers.{final, taking_a_number, giving_two, plain_function};
ghost use Rattle.smith_draw_imports.specs.ImportNames.{is_taken, import_name_at};
ghost use Rattle.smith_bytes.specs.Names.{new_name};
ghost use Rattle.smith_draw_imports.specs.ImportedEntities.{kind_rows, entity_at, fits, again, sizes};
ghost use Rattle.smith_draw_imports.specs.Imported.{MayEnd};
ghost use Rattle.smith_draw_imports.specs.Importing.{with_filled, imports_at};
ghost use Rattle.smith_module_rules_examples.specs.ExampleParts.{global, number, memory, import_named};

fn drawn_imports()
    ensures of_one_type { imports_at (record default_config { max_imports = 2 }) [] false (1 ∷ 255 ∷ 255 ∷ 255 ∷ 255 ∷ 0 ∷ 0 ∷ 0 ∷ 1 ∷ 1
        ∷ 98 ∷ 1 ∷ 0 ∷ 0 ∷ []) ≡ Ok (Compact2 [] (Global number) ([] ∷ codes "b" ∷ []) ∷ [], []) }
    ensures names_twice { imports_at (record default_config { max_imports = 2 }) [] false (1 ∷ 255 ∷ 255 ∷ 255 ∷ 255 ∷ 0 ∷ 0 ∷ 0 ∷ 1 ∷ 1 ∷ 0
        ∷ 0 ∷ 0 ∷ []) ≡ Ok (Compact2 [] (Global number) ([] ∷ [] ∷ []) ∷ [], []) }
    ensures names_once { imports_at (record default_config { max_imports = 2 }) [] true (1 ∷ 255 ∷ 255 ∷ 255 ∷ 255 ∷ 0 ∷ 0 ∷ 0 ∷ 1 ∷ 1 ∷ 0
        ∷ 0 ∷ 0 ∷ []) ≡ Ok (Compact2 [] (Global number) ([] ∷ codes "1" ∷ []) ∷ [], []) }
    ensures empty_group { imports_at (record default_config { max_imports = 2 }) [] false (1 ∷ 86 ∷ 85 ∷ 85 ∷ 85 ∷ []) ≡ Ok ([], []) }
    ensures of_one_module { imports_at (record default_config { max_imports = 1 }) [] false (1 ∷ 86 ∷ 85 ∷ 85 ∷ 85 ∷ 1 ∷ 0 ∷ [])
        ≡ Ok (Compact1 [] (record { name = []; entity_type = Global number } ∷ []) ∷ [], []) }
    ensures by_itself { imports_at (record default_config { max_imports = 1; compact_imports_enabled = false }) [] false (1 ∷ 0 ∷ [])
        ≡ Ok (Single (import_named [] (Global number)) ∷ [], []) }
    ensures none_asked_for { imports_at default_config [] false (0 ∷ 9 ∷ []) ≡ Ok ([], 9 ∷ []) }
    ensures none_allowed { imports_at (record default_config { max_imports = 0 }) [] false (1 ∷ []) ≡ Ok ([], 1 ∷ []) }
    ensures too_large_together { imports_at (record default_config { min_imports = 2; max_imports = 2; max_type_size = 3 }) [] false []
        ≡ Err (Unmet counts.Imports) }
    ensures just_small_enough { imports_at (record default_config { min_imports = 2; max_imports = 2; max_type_size = 4 }) [] false []
        ≡ Ok (Single (import_named [] (Global number)) ∷ Single (import_named [] (Global number)) ∷ [], []) }
{}

#[tactic(auto, unfolding(smith_draw_types::specs::TypeUses::is_tag_type))]
fn offered_kinds()
    ensures without_types { enabled (kind_rows default_config [] (imported_spaces [])) ≡ kind.Global ∷ kind.Memory ∷ kind.Table ∷ [] }
    ensures for_all { enabled (kind_rows default_config (final plain_function ∷ []) (imported_spaces [])) ≡ kind.Tag ∷ kind.Func
        ∷ kind.Global ∷ kind.Memory ∷ kind.Table ∷ [] }
    ensures no_tag_with_results { enabled (kind_rows default_config (final giving_two ∷ []) (imported_spaces [])) ≡ kind.Func ∷ kind.Global
        ∷ kind.Memory ∷ kind.Table ∷ [] }
    ensures no_tag_without_exceptions { enabled (kind_rows (record default_config { exceptions_enabled = false }) (final plain_function
        ∷ []) (imported_spaces [])) ≡ kind.Func ∷ kind.Global ∷ kind.Memory ∷ kind.Table ∷ [] }
    ensures no_second_memory { enabled (kind_rows default_config [] (imported_spaces (import_named [] (Memory (memory 0 None)) ∷ [])))
        ≡ kind.Global ∷ kind.Table ∷ [] }
{}

// An imported function grounds the references of later imports.
#[tactic(auto, unfolding(smith_draw_imports::specs::ImportedEntities::entity_at, smith_draw_imports::specs::ImportedEntities::kind_at, smith_draw_imports::specs::ImportedEntities::entity_of_kind_at, smith_draw_types::specs::TypeUses::is_tag_type, smith_draw_types::specs::GlobalTypes::global_type_at, smith_draw_types::specs::ValueTypes::val_type_at, smith_draw_types::specs::ValueTypes::ref_type_at, smith_draw_types::specs::ValueTypes::granted_at, smith_draw_types::specs::ValueTypes::heap_type_at, smith_draw_types::specs::ValueTypes::type_index_at, smith_draw_types::specs::ValueTypes::abstract_heap_type_at, smith_draw_types::specs::ValueTypes::sharedness_at, smith_draw_types::specs::Choices::chosen_at, smith_draw_types::specs::Grounding::is_grounded, smith_draw_types::specs::Below::is_heap_below, smith_draw_types::specs::Offered::ancestors, smith_bytes::specs::Draws::bool_at, smith_bytes::specs::Draws::range_at, smith_bytes::specs::Draws::digit_count))]
fn entities()
    ensures after_a_function { entity_at (record default_config { non_nullable_enabled = true }) (final plain_function
        ∷ []) (imported_spaces (import_named [] (Func 0) ∷ [])) 0 (2 ∷ 5 ∷ 1 ∷ 1 ∷ 0 ∷ 9 ∷ [])
        ≡ (Some (Global (global (Ref (not_null (Concrete 0))) false)), 9 ∷ []) }
    ensures without_a_function { entity_at (record default_config { non_nullable_enabled = true }) (final plain_function
        ∷ []) (imported_spaces []) 0 (2 ∷ 5 ∷ 1 ∷ 1 ∷ 0 ∷ 9 ∷ []) ≡ (Some (Global (global (Ref (nullable (Concrete 0))) false)), 9 ∷ []) }
{}

fn sizes_of_imports()
    ensures one_more_each { sizes [] (import_named [] (Global number) ∷ import_named [] (Memory (memory 0 None)) ∷ []) ≡ 4 }
    ensures by_type { sizes (final taking_a_number ∷ []) (import_named [] (Func 0) ∷ []) ≡ 3 }
    ensures last_that_fits { fits (record default_config { max_type_size = 4 }) [] 2 (Global number) ≡ true }
    ensures first_too_large { fits (record default_config { max_type_size = 4 }) [] 3 (Global number) ≡ false }
    ensures once_more { again default_config [] (imported_spaces []) 0 (Memory (memory 0 None)) ≡ Some (Memory (memory 0 None)) }
    ensures no_room { again default_config [] (imported_spaces (import_named [] (Memory (memory 0 None)) ∷ [])) 2 (Memory (memory 0 None))
        ≡ None }
    ensures too_large { again (record default_config { max_type_size = 4 }) [] (imported_spaces []) 3 (Global number) ≡ None }
{}

fn names()
    ensures taken { is_taken (import_named (codes "b") (Global number) ∷ []) [] (codes "b") ≡ true }
    ensures of_another_module { is_taken (import_named (codes "b") (Global number) ∷ []) (codes "a") (codes "b") ≡ false }
    ensures number_after { import_name_at true (import_named [] (Global number) ∷ []) [] [] ≡ (codes "1", []) }
    ensures number_twice { new_name (is_taken (import_named [] (Global number) ∷ import_named (codes "2") (Global number) ∷ []) [])
        (codes "2") 3 [] ≡ codes "22" }
    ensures repeated { import_name_at false (import_named [] (Global number) ∷ []) [] [] ≡ ([], []) }
    ensures new_beside_another_module { import_name_at true (import_named [] (Global number) ∷ []) (codes "a") [] ≡ ([], []) }
{}

fn groups()
    ensures empty_is_dropped { with_filled [] (Compact2 [] (Global number) []) ≡ [] }
    ensures filled_is_kept { with_filled [] (Compact2 [] (Global number) ([] ∷ [])) ≡ Compact2 [] (Global number) ([] ∷ []) ∷ [] }
{}

fn ends()
    ensures by_size { MayEnd (record default_config { max_memories = 9; max_tables = 9; max_type_size = 41 }) 0 }
    ensures not_by_size { ¬ MayEnd (record default_config { max_type_size = 42 }) 0 }
    ensures full { MayEnd default_config 1 }
{}
