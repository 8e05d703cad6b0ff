ghost use Rattle.std.specs.Prelude.{◌≡◌, ◌-◌, ◌^◌, [], ◌∷◌, true, false, List, length, None, Ok, Err, codes};
ghost use Rattle.smith_bytes.specs.declared.error.Count.TheVariants as counts;
ghost use Rattle.smith_bytes.specs.declared.error.Why.TheVariants.{Unmet, TypeSize};
ghost use Rattle.smith_types.specs.Imports.{imported_spaces};
ghost use Rattle.smith_types.specs.Syntax.entity_type.EntityType.TheVariants as entity;
ghost use Rattle.smith_types.specs.Syntax.entity_type.ExportKind.TheVariants.{Func, Memory, Global, Tag};
ghost use Rattle.smith_config.specs.Config.{default_config};
ghost use Rattle.smith_config.specs.ExampleMembers.{final, taking_a_number, plain_function};
ghost use Rattle.smith_draw_contents.specs.Exporting.{is_exported, export_name_at, candidates, offered_kinds, free_exports_at};
ghost use Rattle.smith_module_rules.specs.ExportedItems.{exported_size};
ghost use Rattle.smith_draw_contents.specs.AllExports.{exports_at};
ghost use Rattle.smith_draw_contents.specs.Exported.{HasSizeIn32Bits, IsFuncWithin};
ghost use Rattle.smith_types.specs.Syntax.composite_type.CompositeInnerType.TheVariants as inner;
ghost use Rattle.smith_types.specs.Syntax.value_type.ValType.{ValType};
ghost use Rattle.smith_module_rules_examples.specs.ExampleParts.{memory, number, import_named};

fn drawn_exports()
    ensures by_kind_and_index { free_exports_at default_config (final plain_function ∷ []) (imported_spaces (import_named [] (entity.Func 0)
        ∷ import_named [] (entity.Func 0) ∷ import_named [] (entity.Global number) ∷ [])) 0 (1 ∷ 0 ∷ 1 ∷ 1 ∷ 1 ∷ 0 ∷ 0 ∷ [])
        ≡ Ok (([], Func, 1) ∷ (codes "1", Global, 0) ∷ [], []) }
    ensures of_a_text { free_exports_at (record default_config { max_exports = 1 }) []
        (imported_spaces (import_named [] (entity.Global number) ∷ [])) 0 (1 ∷ 98 ∷ 1 ∷ []) ≡ Ok ((codes "b", Global, 0) ∷ [], []) }
    ensures not_asked_for { free_exports_at (record default_config { min_exports = 1; max_exports = 1 }) []
        (imported_spaces (import_named [] (entity.Global number) ∷ [])) 0 (9 ∷ 0 ∷ []) ≡ Ok (([], Global, 0) ∷ [], 9 ∷ []) }
    ensures none_wanted { free_exports_at default_config [] (imported_spaces (import_named [] (entity.Global number) ∷ [])) 0 (0 ∷ 9 ∷ [])
        ≡ Ok ([], 9 ∷ []) }
    ensures none_allowed { free_exports_at (record default_config { max_exports = 0 }) []
        (imported_spaces (import_named [] (entity.Global number) ∷ [])) 0 (1 ∷ []) ≡ Ok ([], 1 ∷ []) }
    ensures asked_before_there_is_none { free_exports_at default_config [] (imported_spaces []) 0 (1 ∷ 9 ∷ []) ≡ Ok ([], 9 ∷ []) }
{}

fn ends()
    ensures without_items { free_exports_at (record default_config { min_exports = 1 }) [] (imported_spaces []) 0 []
        ≡ Err (Unmet counts.Exports) }
    ensures too_large { free_exports_at (record default_config { min_exports = 1; max_type_size = 2 }) []
        (imported_spaces (import_named [] (entity.Global number) ∷ [])) 0 [] ≡ Err (Unmet counts.Exports) }
    ensures just_small_enough { free_exports_at (record default_config { min_exports = 1; max_type_size = 3 }) []
        (imported_spaces (import_named [] (entity.Global number) ∷ [])) 0 [] ≡ Ok (([], Global, 0) ∷ [], []) }
    ensures too_large_beside_imports { free_exports_at (record default_config { min_exports = 1; max_type_size = 4 }) []
        (imported_spaces (import_named [] (entity.Global number) ∷ [])) 2 [] ≡ Err (Unmet counts.Exports) }
    ensures too_large_together { free_exports_at (record default_config { min_exports = 2; max_type_size = 4 }) []
        (imported_spaces (import_named [] (entity.Global number) ∷ [])) 0 [] ≡ Err (Unmet counts.Exports) }
{}

// Exports of everything.
fn every_export()
    ensures by_kind_and_index { exports_at (record default_config { export_everything = true }) (final plain_function
        ∷ []) (imported_spaces (import_named [] (entity.Global number) ∷ import_named [] (entity.Func 0) ∷ [])) 0 (98 ∷ 98 ∷ 1 ∷ 1 ∷ [])
        ≡ Ok ((codes "b", Func, 0) ∷ (codes "b1", Global, 0) ∷ [], []) }
    ensures tags_last { exports_at (record default_config { export_everything = true }) (final plain_function
        ∷ []) (imported_spaces (import_named [] (entity.Tag 0) ∷ import_named [] (entity.Memory (memory 1 None))
        ∷ import_named [] (entity.Func 0) ∷ import_named [] (entity.Func 0) ∷ [])) 0 []
        ≡ Ok (([], Func, 0) ∷ (codes "1", Func, 1) ∷ (codes "2", Memory, 0) ∷ (codes "3", Tag, 0) ∷ [], []) }
    ensures more_than_may_be { exports_at (record default_config { export_everything = true; max_exports = 0 }) []
        (imported_spaces (import_named [] (entity.Global number) ∷ [])) 0 (9 ∷ []) ≡ Ok (([], Global, 0) ∷ [], []) }
    ensures of_no_item { exports_at (record default_config { export_everything = true; min_exports = 1 }) [] (imported_spaces []) 0 (1 ∷ 9
        ∷ []) ≡ Ok ([], 1 ∷ 9 ∷ []) }
    ensures just_small_enough { exports_at (record default_config { export_everything = true; max_type_size = 6 }) (final plain_function
        ∷ []) (imported_spaces (import_named [] (entity.Global number) ∷ import_named [] (entity.Func 0) ∷ [])) 2 []
        ≡ Ok (([], Func, 0) ∷ (codes "1", Global, 0) ∷ [], []) }
    ensures too_large { exports_at (record default_config { export_everything = true; max_type_size = 5 }) (final plain_function
        ∷ []) (imported_spaces (import_named [] (entity.Global number) ∷ import_named [] (entity.Func 0) ∷ [])) 2 [] ≡ Err TypeSize }
    ensures freely_where_that_is_off { exports_at default_config [] (imported_spaces (import_named [] (entity.Global number) ∷ [])) 0 (0 ∷ 9
        ∷ []) ≡ Ok ([], 9 ∷ []) }
{}

fn exported_items()
    ensures by_size { candidates (final plain_function ∷ final taking_a_number ∷ []) (imported_spaces (import_named [] (entity.Func 1)
        ∷ import_named [] (entity.Func 0) ∷ [])) 3 Func ≡ 1 ∷ [] }
    ensures all { candidates (final plain_function ∷ final taking_a_number ∷ []) (imported_spaces (import_named [] (entity.Func 1)
        ∷ import_named [] (entity.Func 0) ∷ [])) 4 Func ≡ 0 ∷ 1 ∷ [] }
    ensures in_order { offered_kinds (final plain_function ∷ []) (imported_spaces (import_named [] (entity.Global number)
        ∷ import_named [] (entity.Func 0) ∷ [])) 3 ≡ Func ∷ Global ∷ [] }
    ensures no_tag { offered_kinds (final plain_function ∷ []) (imported_spaces (import_named [] (entity.Tag 0) ∷ [])) 1000 ≡ [] }
    ensures sizes { exported_size (final plain_function ∷ final taking_a_number ∷ []) (imported_spaces (import_named [] (entity.Func 1)
        ∷ import_named [] (entity.Global number) ∷ [])) (([], Func, 0) ∷ (codes "1", Global, 0) ∷ []) ≡ 5 }
{}

fn names()
    ensures taken { is_exported ((codes "b", Global, 0) ∷ []) (codes "b") ≡ true }
    ensures not_taken { is_exported ((codes "b", Global, 0) ∷ []) (codes "a") ≡ false }
    ensures number_after { export_name_at (([], Global, 0) ∷ []) [] ≡ (codes "1", []) }
    ensures number_twice { export_name_at (([], Global, 0) ∷ (codes "2", Global, 0) ∷ []) [] ≡ (codes "22", []) }
    ensures new_as_it_is { export_name_at ((codes "b", Global, 0) ∷ []) [] ≡ ([], []) }
{}

fn sizes()
    ensures as_many_values_as_may_be { (params : List ValType) → length params ≡ 2 ^ 32 - 3 → HasSizeIn32Bits
        (final (inner.Func (record { params = params; results = [] }))) }
    ensures too_many_values { (params : List ValType) → length params ≡ 2 ^ 32 - 2 → ¬ HasSizeIn32Bits
        (final (inner.Func (record { params = params; results = [] }))) }
    ensures within { IsFuncWithin (final taking_a_number ∷ []) 3 0 }
    ensures not_within { ¬ IsFuncWithin (final taking_a_number ∷ []) 2 0 }
{}
