// Faults of shapes, and shapes without them.

ghost use Rattle.std.specs.Prelude.{◌≡◌, ℕ, ◌+◌, ◌^◌, List, [], ◌∷◌, length, true, false, Some, None, codes};
ghost use Rattle.smith_bytes.specs.declared.error.Which.TheVariants.{AvailableImports, Exports, ModuleShape};
ghost use Rattle.smith_bytes.specs.declared.error.ShapeFault.TheVariants.{TooLong, BadType, Index, Limit, Feature, DuplicateExport};
ghost use Rattle.smith_bytes.specs.declared.error.ShapeFault.TheVariants.{NotPlain, LeftOut};
ghost use Rattle.smith_types.specs.Syntax.value_type.HeapType.TheVariants.{Concrete, Exact};
ghost use Rattle.smith_types.specs.Syntax.value_type.ValType.TheVariants.{I32, V128, Ref};
ghost use Rattle.smith_types.specs.Syntax.entity_type.ExportKind.TheVariants as kind;
ghost use Rattle.smith_types.specs.Syntax.composite_type.StorageType.TheVariants.{Val};
ghost use Rattle.smith_types.specs.ExampleTypes.{open_type, final_type, shared_type, struct, empty_struct, plain_func, giving, constant};
ghost use Rattle.smith_types.specs.ExampleTypes.{nullable, anyref, referring_type};
ghost use Rattle.smith_types.specs.Flags.{funcref};
ghost use Rattle.smith_types.specs.ExampleEntities.{constant_global, memory, table};
ghost use Rattle.smith_config.specs.Config.{default_config};
ghost use Rattle.smith_config.specs.ShapeFaults.{HasShapeFault};
ghost use Rattle.smith_config.specs.ExampleShapes.{empty_shape, of_types, of_global, imported_tag, passed_on, imported_memory, chain};

fn lengths()
    ensures short { ¬ HasShapeFault ModuleShape default_config passed_on TooLong }
    ensures long { (tags : List ℕ) → length tags ≡ 2 ^ 29 + 1 → HasShapeFault ModuleShape default_config
        (record empty_shape { tags = tags }) TooLong }
    ensures as_long_as_may_be { (tags : List ℕ) → length tags ≡ 2 ^ 29 → ¬ HasShapeFault ModuleShape default_config
        (record empty_shape { tags = tags }) TooLong }
{}

fn types()
    ensures right { ¬ HasShapeFault ModuleShape default_config passed_on BadType }
    ensures below_itself { HasShapeFault ModuleShape default_config (of_types (open_type (Some 0) empty_struct ∷ [])) BadType }
    ensures below_a_final_type { HasShapeFault ModuleShape default_config
        (of_types (final_type empty_struct ∷ open_type (Some 0) empty_struct ∷ [])) BadType }
    ensures below_another_kind { HasShapeFault ModuleShape default_config
        (of_types (open_type None plain_func ∷ open_type (Some 0) empty_struct ∷ [])) BadType }
    ensures reference_after_its_group { HasShapeFault ModuleShape default_config
        (record empty_shape { groups = (referring_type ∷ []) ∷ (final_type empty_struct ∷ []) ∷ [] }) BadType }
    ensures global_of_no_type { HasShapeFault ModuleShape default_config (of_global (Ref (nullable (Concrete 0)))) BadType }
    ensures table_of_no_type { HasShapeFault ModuleShape default_config
        (record empty_shape { tables = table (nullable (Concrete 0)) 1 None ∷ [] }) BadType }
    ensures function_of_no_type { ¬ HasShapeFault ModuleShape default_config (record empty_shape { funcs = 5 ∷ [] }) BadType }
    ensures vector_without_its_feature { ¬ HasShapeFault ModuleShape (record default_config { simd_enabled = false })
        (of_global V128) BadType }
    ensures shared_field_of_unshared { HasShapeFault ModuleShape default_config (of_types (shared_type (struct (constant (Val anyref) ∷ []))
        ∷ [])) BadType }
    ensures shared_global_of_unshared { HasShapeFault ModuleShape default_config
        (record empty_shape { globals = record (constant_global anyref) { shared = true } ∷ [] }) BadType }
    ensures shared_global_of_numbers { ¬ HasShapeFault ModuleShape default_config
        (record empty_shape { globals = record (constant_global I32) { shared = true } ∷ [] }) BadType }
    ensures shared_table_of_unshared { HasShapeFault ModuleShape default_config
        (record empty_shape { tables = record (table funcref 1 None) { shared = true } ∷ [] }) BadType }
{}

fn indices()
    ensures right { ¬ HasShapeFault ModuleShape default_config passed_on Index }
    ensures function_of_no_type { HasShapeFault ModuleShape default_config (record empty_shape { funcs = 5 ∷ [] }) Index }
    ensures function_of_a_struct_type { HasShapeFault ModuleShape default_config
        (record (of_types (final_type empty_struct ∷ [])) { funcs = 0 ∷ [] }) Index }
    ensures tag_with_a_result { HasShapeFault ModuleShape default_config
        (record (of_types (final_type (giving (I32 ∷ [])) ∷ [])) { tags = 0 ∷ [] }) Index }
    ensures tag { ¬ HasShapeFault ModuleShape default_config imported_tag Index }
    ensures export_of_nothing { HasShapeFault ModuleShape default_config (record passed_on { exports = (codes "a", kind.Func, 1) ∷ [] })
        Index }
    ensures export_of_another_kind { HasShapeFault ModuleShape default_config
        (record passed_on { exports = (codes "a", kind.Table, 0) ∷ [] }) Index }
    ensures reference_to_no_type { ¬ HasShapeFault ModuleShape default_config (of_global (Ref (nullable (Concrete 0)))) Index }
{}

fn limits()
    ensures right { ¬ HasShapeFault ModuleShape default_config passed_on Limit }
    ensures a_page_too_many { HasShapeFault ModuleShape default_config (record empty_shape { memories = memory 65537 None ∷ [] }) Limit }
    ensures every_page { ¬ HasShapeFault ModuleShape default_config (record empty_shape { memories = memory 65536 None ∷ [] }) Limit }
    ensures pages_of_16_bytes { HasShapeFault ModuleShape default_config
        (record empty_shape { memories = record (memory 1 None) { page_size_log2 = Some 4 } ∷ [] }) Limit }
    ensures pages_of_one_byte { ¬ HasShapeFault ModuleShape default_config
        (record empty_shape { memories = record (memory 1 None) { page_size_log2 = Some 0 } ∷ [] }) Limit }
    ensures shared_memory_without_maximum { HasShapeFault ModuleShape default_config
        (record empty_shape { memories = record (memory 1 None) { shared = true } ∷ [] }) Limit }
    ensures depth_of_63 { ¬ HasShapeFault ModuleShape default_config (of_types (chain 63)) Limit }
    ensures depth_of_64 { HasShapeFault ModuleShape default_config (of_types (chain 64)) Limit }
    ensures limits_crossed { HasShapeFault ModuleShape default_config (record empty_shape { tables = table funcref 2 (Some 1) ∷ [] })
        Limit }
    ensures limits_of_a_shared_table { ¬ HasShapeFault ModuleShape default_config
        (record empty_shape { tables = record (table funcref 1 None) { shared = true } ∷ [] }) Limit }
{}

fn features()
    ensures all_on { ¬ HasShapeFault ModuleShape default_config passed_on Feature }
    ensures vector { HasShapeFault ModuleShape (record default_config { simd_enabled = false }) (of_global V128) Feature }
    ensures pages_of_one_byte { HasShapeFault ModuleShape default_config
        (record empty_shape { memories = record (memory 1 None) { page_size_log2 = Some 0 } ∷ [] }) Feature }
    ensures type_that_is_not_final { HasShapeFault ModuleShape (record default_config { gc_enabled = false })
        (of_types (open_type None plain_func ∷ [])) Feature }
    ensures tag { HasShapeFault ModuleShape (record default_config { exceptions_enabled = false }) imported_tag Feature }
    ensures available_tag { ¬ HasShapeFault AvailableImports (record default_config { exceptions_enabled = false }) imported_tag Feature }
    ensures two_memories { HasShapeFault Exports default_config (record empty_shape { imports = imported_memory ∷ imported_memory ∷ [] })
        Feature }
    ensures two_available_memories { ¬ HasShapeFault AvailableImports default_config
        (record empty_shape { imports = imported_memory ∷ imported_memory ∷ [] }) Feature }
    ensures reference_to_no_type { ¬ HasShapeFault ModuleShape (record default_config { gc_enabled = false })
        (of_global (Ref (nullable (Concrete 0)))) Feature }
    ensures shared_global { HasShapeFault ModuleShape default_config
        (record empty_shape { globals = record (constant_global I32) { shared = true } ∷ [] }) Feature }
    ensures unshared_global { ¬ HasShapeFault ModuleShape default_config (record empty_shape { globals = constant_global I32 ∷ [] })
        Feature }
{}

fn names()
    ensures a_name_twice { HasShapeFault ModuleShape default_config
        (record passed_on { exports = (codes "a", kind.Func, 0) ∷ (codes "a", kind.Func, 0) ∷ [] }) DuplicateExport }
    ensures names_apart { ¬ HasShapeFault ModuleShape default_config passed_on DuplicateExport }
{}

fn plainness()
    ensures function_of_a_type_that_is_not_final { HasShapeFault Exports default_config
        (record (of_types (open_type None plain_func ∷ [])) { funcs = 0 ∷ []; exports = (codes "a", kind.Func, 0) ∷ [] }) NotPlain }
    ensures function_of_a_final_type { ¬ HasShapeFault Exports default_config passed_on NotPlain }
    ensures available_function { ¬ HasShapeFault AvailableImports default_config
        (record (of_types (open_type None plain_func ∷ [])) { funcs = 0 ∷ []; exports = (codes "a", kind.Func, 0) ∷ [] }) NotPlain }
    ensures exact_is_not_concrete { ¬ HasShapeFault Exports default_config
        (record passed_on { globals = constant_global (Ref (nullable (Exact 0))) ∷ [] }) NotPlain }
    ensures concrete_export { HasShapeFault Exports default_config
        (record passed_on { globals = constant_global (Ref (nullable (Concrete 0))) ∷ [] }) NotPlain }
    ensures concrete_elsewhere { ¬ HasShapeFault ModuleShape default_config
        (record passed_on { globals = constant_global (Ref (nullable (Concrete 0))) ∷ [] }) NotPlain }
{}

fn left_out()
    ensures nothing { ¬ HasShapeFault ModuleShape default_config passed_on LeftOut }
    ensures exact_reference { HasShapeFault ModuleShape (record default_config { custom_descriptors_enabled = true })
        (record (of_types (final_type empty_struct ∷ [])) { globals = constant_global (Ref (nullable (Exact 0))) ∷ [] }) LeftOut }
    ensures shared_type { HasShapeFault AvailableImports (record default_config { shared_everything_threads_enabled = true })
        (of_types (shared_type plain_func ∷ [])) LeftOut }
    ensures shared_memory { ¬ HasShapeFault ModuleShape default_config
        (record empty_shape { memories = record (memory 1 (Some 1)) { shared = true } ∷ [] }) LeftOut }
    ensures shared_table { HasShapeFault ModuleShape default_config
        (record empty_shape { tables = record (table funcref 1 None) { shared = true } ∷ [] }) LeftOut }
{}
