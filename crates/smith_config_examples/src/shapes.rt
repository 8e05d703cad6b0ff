// Shapes, and the uses for which they are accepted.

ghost use Rattle.std.specs.Prelude.{◌≡◌, ℕ, ◌+◌, ◌^◌, List, [], ◌∷◌, length, true, false, Some, None, codes};
ghost use Rattle.smith_bytes.specs.declared.error.Which.TheVariants.{AvailableImports, Exports, ModuleShape};
ghost use Rattle.smith_types.specs.Syntax.value_type.AbstractHeapType.TheVariants as heap;
ghost use Rattle.smith_types.specs.Syntax.value_type.ValType.{ValType};
ghost use Rattle.smith_types.specs.Syntax.composite_type.FieldType.{FieldType};
ghost use Rattle.smith_types.specs.Syntax.composite_type.SubType.{SubType};
ghost use Rattle.smith_types.specs.Syntax.entity_type.GlobalType.{GlobalType};
ghost use Rattle.smith_types.specs.Syntax.entity_type.MemoryType.{MemoryType};
ghost use Rattle.smith_types.specs.Syntax.entity_type.TableType.{TableType};
ghost use Rattle.smith_types.specs.Syntax.entity_type.ExportKind.{ExportKind};
ghost use Rattle.smith_types.specs.Syntax.imports.Imports.{Imports};
ghost use Rattle.smith_types.specs.Syntax.value_type.HeapType.TheVariants.{Abstract, Concrete, Exact};
ghost use Rattle.smith_types.specs.Syntax.value_type.ValType.TheVariants.{I32, I64, Ref};
ghost use Rattle.smith_types.specs.Syntax.entity_type.EntityType.TheVariants as entity;
ghost use Rattle.smith_types.specs.Syntax.entity_type.ExportKind.TheVariants as kind;
ghost use Rattle.smith_types.specs.Syntax.imports.Imports.TheVariants.{Single, Compact1, Compact2};
ghost use Rattle.smith_types.specs.ExampleTypes.{open_type, final_type, shared_type, struct, empty_struct, plain_func, taking, giving};
ghost use Rattle.smith_types.specs.ExampleTypes.{range, nullable, anyref, shared_anyref};
ghost use Rattle.smith_types.specs.Flags.{funcref};
ghost use Rattle.smith_types.specs.ExampleEntities.{constant_global, memory, table};
ghost use Rattle.smith_types.specs.Imports.{import_of};
ghost use Rattle.smith_config.specs.Config.{default_config};
ghost use Rattle.smith_config.specs.Features.{features_of};
ghost use Rattle.smith_config.specs.Shapes.{no_shapes, in_use, ranges_from, shape_types, shape_spaces, shape_values, shape_imports};
ghost use Rattle.smith_config.specs.Shapes.{IsShort, IsShallow, HasNothingLeftOut, IsPlain, IsConsistent, AreCountsFit, IsShapeValid};
ghost use Rattle.smith_config.specs.ExampleShapes.{empty_shape, of_types, of_global, imported_tag, passed_on, imported_memory};
ghost use Rattle.smith_config.specs.ExampleShapes.{memory_passed_on, exported_table, one_of_each_kind, chain};

fn used()
    ensures a_module_shape_alone { in_use
        (record { available_imports = Some passed_on; exports = Some passed_on; module_shape = Some empty_shape })
        ≡ record no_shapes { module_shape = Some empty_shape } }
    ensures others { in_use (record no_shapes { available_imports = Some empty_shape; exports = Some passed_on })
        ≡ record { available_imports = Some empty_shape; exports = Some passed_on; module_shape = None } }
{}

fn ranges()
    ensures one_after_another { ranges_from 0 (chain 2 ∷ [] ∷ chain 1 ∷ []) ≡ range 0 2 ∷ range 2 2 ∷ range 2 3 ∷ [] }
{}

fn parts()
    ensures types_of_all_groups { shape_types (record empty_shape { groups = chain 1 ∷ [] ∷ (final_type plain_func ∷ []) ∷ [] })
        ≡ open_type None empty_struct ∷ final_type plain_func ∷ [] }
    ensures imported_first { shape_spaces (record empty_shape {
      imports = imported_memory ∷ [];
      tags = 1 ∷ [];
      funcs = 2 ∷ [];
      tables = table funcref 3 None ∷ [];
      memories = memory 4 None ∷ [];
      globals = constant_global I32 ∷ [];
    }) ≡ record {
      tags = 1 ∷ [];
      funcs = 2 ∷ [];
      tables = table funcref 3 None ∷ [];
      memories = memory 1 None ∷ memory 4 None ∷ [];
      globals = constant_global I32 ∷ [];
    } }
    ensures values { shape_values (record (of_types (final_type (taking (I64 ∷ [])) ∷ [])) {
      imports = Single (import_of (codes "m") (codes "g") (entity.Global (constant_global I32)))
          ∷ [];
      tables = table funcref 0 None ∷ [];
      globals = constant_global anyref ∷ [];
    }) ≡ I64 ∷ Ref funcref ∷ I32 ∷ anyref ∷ [] }
{}

fn short_lists()
    ensures none { IsShort empty_shape }
    ensures as_long_as_may_be { (funcs : List ℕ) → length funcs ≡ 2 ^ 29 → IsShort (record empty_shape { funcs = funcs }) }
    ensures groups { (groups : List (List SubType)) → length groups ≡ 2 ^ 29 + 1 → ¬ IsShort (record empty_shape { groups = groups }) }
    ensures types { (types : List SubType) → length types ≡ 2 ^ 29 + 1 → ¬ IsShort (of_types types) }
    ensures params { (params : List ValType) → length params ≡ 2 ^ 29 + 1 → ¬ IsShort (of_types (final_type (taking params) ∷ [])) }
    ensures results { (results : List ValType) → length results ≡ 2 ^ 29 + 1 → ¬ IsShort (of_types (final_type (giving results) ∷ [])) }
    ensures fields { (fields : List FieldType) → length fields ≡ 2 ^ 29 + 1 → ¬ IsShort (of_types (final_type (struct fields) ∷ [])) }
    ensures import_groups { (imports : List Imports) → length imports ≡ 2 ^ 29 + 1 → ¬ IsShort (record empty_shape { imports = imports }) }
    ensures imports { (names : List (List ℕ)) → length names
        ≡ 2 ^ 29 + 1 → ¬ IsShort (record empty_shape { imports = Compact2 (codes "m") (entity.Func 0) names ∷ [] }) }
    ensures funcs { (funcs : List ℕ) → length funcs ≡ 2 ^ 29 + 1 → ¬ IsShort (record empty_shape { funcs = funcs }) }
    ensures tags { (tags : List ℕ) → length tags ≡ 2 ^ 29 + 1 → ¬ IsShort (record empty_shape { tags = tags }) }
    ensures tables { (tables : List TableType) → length tables ≡ 2 ^ 29 + 1 → ¬ IsShort (record empty_shape { tables = tables }) }
    ensures memories { (memories : List MemoryType) → length memories
        ≡ 2 ^ 29 + 1 → ¬ IsShort (record empty_shape { memories = memories }) }
    ensures globals { (globals : List GlobalType) → length globals ≡ 2 ^ 29 + 1 → ¬ IsShort (record empty_shape { globals = globals }) }
    ensures exports { (exports : List (List ℕ × ExportKind × ℕ)) → length exports
        ≡ 2 ^ 29 + 1 → ¬ IsShort (record empty_shape { exports = exports }) }
{}

fn uses()
    ensures as_available_imports { IsShapeValid AvailableImports default_config passed_on }
    ensures as_exports { IsShapeValid Exports default_config passed_on }
    ensures one_of_each_kind { IsShapeValid Exports (record default_config { max_memories = 2 }) one_of_each_kind }
    ensures memory_passed_on { IsShapeValid ModuleShape default_config memory_passed_on }
    ensures table_without_references { IsShapeValid Exports (record default_config { reference_types_enabled = false; gc_enabled = false })
        exported_table }
    ensures available_tag_without_exceptions { IsShapeValid AvailableImports (record default_config { exceptions_enabled = false })
        imported_tag }
    ensures depth_of_63 { IsShapeValid ModuleShape default_config (of_types (chain 63)) }
    ensures as_a_module_shape { IsShapeValid ModuleShape default_config passed_on }
    ensures too_long { (tags : List ℕ) → length tags ≡ 2 ^ 29 + 1 → ¬ IsShapeValid AvailableImports default_config
        (record empty_shape { tags = tags }) }
    ensures something_left_out { ¬ IsShapeValid AvailableImports (record default_config { shared_everything_threads_enabled = true })
        (of_global shared_anyref) }
    ensures tag_without_exceptions { ¬ IsShapeValid ModuleShape (record default_config { exceptions_enabled = false }) imported_tag }
    ensures exported_struct_type { ¬ IsShapeValid Exports default_config (of_types (final_type empty_struct ∷ [])) }
    ensures a_name_twice { ¬ IsShapeValid ModuleShape default_config
        (record passed_on { exports = (codes "a", kind.Func, 0) ∷ (codes "a", kind.Func, 0) ∷ [] }) }
{}

fn left_out()
    ensures nothing { HasNothingLeftOut (of_global anyref) }
    ensures shared_memory { HasNothingLeftOut (record empty_shape { memories = record (memory 1 (Some 1)) { shared = true } ∷ [] }) }
    ensures shared_type { ¬ HasNothingLeftOut (of_types (shared_type plain_func ∷ [])) }
    ensures shared_table { ¬ HasNothingLeftOut (record empty_shape { tables = record (table funcref 1 None) { shared = true } ∷ [] }) }
    ensures table_of_shared_functions { ¬ HasNothingLeftOut
        (record empty_shape { tables = table (nullable (Abstract true heap.Func)) 1 None ∷ [] }) }
    ensures exact_parameter { ¬ HasNothingLeftOut (of_types (final_type (taking (Ref (nullable (Exact 0)) ∷ [])) ∷ [])) }
    ensures shared_global { ¬ HasNothingLeftOut (record empty_shape { globals = record (constant_global I32) { shared = true } ∷ [] }) }
    ensures shared_reference { ¬ HasNothingLeftOut (record empty_shape { globals = constant_global shared_anyref ∷ [] }) }
    ensures concrete_reference { HasNothingLeftOut (record passed_on { globals = constant_global (Ref (nullable (Concrete 0))) ∷ [] }) }
    ensures exact_reference { ¬ HasNothingLeftOut (record passed_on { globals = constant_global (Ref (nullable (Exact 0))) ∷ [] }) }
{}

fn plain()
    ensures final_function_type { IsPlain passed_on }
    ensures not_final { ¬ IsPlain (record passed_on { groups = (open_type None plain_func ∷ []) ∷ [] }) }
    ensures with_a_supertype { ¬ IsPlain (of_types (record (final_type plain_func) { supertype = Some 0 } ∷ [])) }
    ensures abstract_reference { IsPlain (of_global anyref) }
    ensures exact_reference { IsPlain (of_global (Ref (nullable (Exact 0)))) }
    ensures concrete_parameter { ¬ IsPlain (of_types (final_type (taking (Ref (nullable (Concrete 0)) ∷ [])) ∷ [])) }
    ensures table_of_concrete_references { ¬ IsPlain (record empty_shape { tables = table (nullable (Concrete 0)) 1 None ∷ [] }) }
    ensures struct_type { ¬ IsPlain (record passed_on { groups = (final_type empty_struct ∷ []) ∷ [] }) }
    ensures concrete_reference { ¬ IsPlain (record passed_on { globals = constant_global (Ref (nullable (Concrete 0))) ∷ [] }) }
{}

fn depths()
    ensures of_63_types { IsShallow (chain 63) }
    ensures of_64_types { ¬ IsShallow (chain 64) }
{}

fn tags_and_tables()
    ensures tag { AreCountsFit ModuleShape (features_of default_config) imported_tag }
    ensures tag_without_exceptions { ¬ AreCountsFit ModuleShape (features_of (record default_config { exceptions_enabled = false }))
        imported_tag }
    ensures tag_to_export_without_exceptions { ¬ AreCountsFit Exports (features_of (record default_config { exceptions_enabled = false }))
        imported_tag }
    ensures available_tag { AreCountsFit AvailableImports (features_of (record default_config { exceptions_enabled = false }))
        imported_tag }
    ensures two_tables { AreCountsFit Exports (features_of default_config)
        (record empty_shape { tables = table funcref 0 None ∷ table funcref 0 None ∷ [] }) }
    ensures two_tables_without_references { ¬ AreCountsFit Exports (features_of (record default_config { reference_types_enabled = false }))
        (record empty_shape { tables = table funcref 0 None ∷ table funcref 0 None ∷ [] }) }
    ensures one_table_without_references { AreCountsFit Exports (features_of (record default_config { reference_types_enabled = false }))
        (record empty_shape { tables = table funcref 0 None ∷ [] }) }
{}

fn consistent()
    ensures nothing { IsConsistent (features_of default_config) empty_shape }
    ensures type_below_itself { ¬ IsConsistent (features_of default_config) (of_types (open_type (Some 0) empty_struct ∷ [])) }
    ensures deep_types { ¬ IsConsistent (features_of default_config) (of_types (chain 64)) }
    ensures function_of_no_type { ¬ IsConsistent (features_of default_config) (record empty_shape { funcs = 5 ∷ [] }) }
    ensures table_of_crossed_limits { ¬ IsConsistent (features_of default_config)
        (record empty_shape { tables = table funcref 2 (Some 1) ∷ [] }) }
    ensures export_of_nothing { ¬ IsConsistent (features_of default_config)
        (record empty_shape { exports = (codes "a", kind.Memory, 0) ∷ [] }) }
    ensures type_that_is_not_final_without_gc { ¬ IsConsistent (features_of (record default_config { gc_enabled = false }))
        (of_types (open_type None plain_func ∷ [])) }
    ensures group_of_two_without_gc { ¬ IsConsistent (features_of (record default_config { gc_enabled = false }))
        (of_types (final_type plain_func ∷ final_type plain_func ∷ [])) }
    ensures empty_group_without_gc { ¬ IsConsistent (features_of (record default_config { gc_enabled = false })) (of_types []) }
{}

fn several_memories()
    ensures one { AreCountsFit ModuleShape (features_of default_config) (record empty_shape { imports = imported_memory ∷ [] }) }
    ensures two { ¬ AreCountsFit ModuleShape (features_of default_config)
        (record empty_shape { imports = imported_memory ∷ imported_memory ∷ [] }) }
    ensures two_with_their_feature { AreCountsFit ModuleShape (features_of (record default_config { max_memories = 2 }))
        (record empty_shape { imports = imported_memory ∷ imported_memory ∷ [] }) }
    ensures two_available { IsShapeValid AvailableImports default_config
        (record empty_shape { imports = imported_memory ∷ imported_memory ∷ [] }) }
{}

fn compact_imports()
    ensures flat { shape_imports (record empty_shape { imports = Compact1 (codes "m") [] ∷ imported_memory ∷ [] })
        ≡ shape_imports (record empty_shape { imports = imported_memory ∷ [] }) }
    ensures empty_of_no_type { IsShapeValid ModuleShape default_config
        (record empty_shape { imports = Compact2 (codes "m") (entity.Func 7) [] ∷ [] }) }
    ensures one_of_no_type { ¬ IsShapeValid ModuleShape default_config
        (record empty_shape { imports = Compact2 (codes "m") (entity.Func 7) (codes "f" ∷ []) ∷ [] }) }
    ensures without_their_feature { IsShapeValid ModuleShape (record default_config { compact_imports_enabled = false })
        (record passed_on { imports = Compact2 (codes "m") (entity.Func 0) (codes "f" ∷ []) ∷ [] }) }
{}
