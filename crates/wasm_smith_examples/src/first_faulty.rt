// The first shape of a configuration that is refused, and the reason.

ghost use Rattle.smith_bytes.specs.declared.error.Error.TheVariants.{EmptyChoose, Memory, Shape as Misshapen};
ghost use Rattle.smith_bytes.specs.declared.error.ShapeFault.TheVariants.{BadType, DuplicateExport};
ghost use Rattle.smith_bytes.specs.declared.error.Which.TheVariants.{AvailableImports, Exports, ModuleShape};
ghost use Rattle.smith_config.specs.Config.{default_config};
ghost use Rattle.wasm_smith.specs.CheckedShapes.{IsFaultOf, IsFirstFaulty};
ghost use Rattle.smith_module_rules_examples.specs.ExampleShapes.{for_module, for_imports, for_exports, exporting, memory_available};
ghost use Rattle.smith_module_rules_examples.specs.ExampleShapes.{twice_exported, untyped};

fn module_shapes()
    ensures a_module_shape { IsFirstFaulty (for_module untyped default_config) (Misshapen ModuleShape BadType) }
    ensures beside_two_others { IsFirstFaulty (for_module untyped (for_imports untyped (for_exports untyped default_config)))
        (Misshapen ModuleShape BadType) }
    ensures available_imports_beside_it { ¬ IsFirstFaulty (for_module untyped (for_imports untyped default_config))
        (Misshapen AvailableImports BadType) }
    ensures exports_beside_one_that_is_valid { ¬ IsFirstFaulty (for_module memory_available (for_exports untyped default_config))
        (Misshapen Exports BadType) }
    ensures want_of_memory { IsFirstFaulty (for_module memory_available default_config) Memory }
    ensures a_fault_that_is_not_there { ¬ IsFirstFaulty (for_module memory_available default_config) (Misshapen ModuleShape BadType) }
    ensures another_fault { ¬ IsFirstFaulty (for_module untyped default_config) (Misshapen ModuleShape DuplicateExport) }
{}

fn available_imports_and_exports()
    ensures available_imports { IsFirstFaulty (for_imports untyped (for_exports untyped default_config))
        (Misshapen AvailableImports BadType) }
    ensures exports_after_their_fault { ¬ IsFirstFaulty (for_imports untyped (for_exports untyped default_config))
        (Misshapen Exports BadType) }
    ensures exports_after_valid_imports { IsFirstFaulty (for_imports memory_available (for_exports untyped default_config))
        (Misshapen Exports BadType) }
    ensures exports_alone { IsFirstFaulty (for_exports untyped default_config) (Misshapen Exports BadType) }
    ensures a_fault_for_another_use { ¬ IsFirstFaulty (for_exports untyped default_config) (Misshapen ModuleShape BadType) }
    ensures want_of_memory_after_valid_imports { IsFirstFaulty (for_imports memory_available (for_exports exporting default_config))
        Memory }
    ensures no_choice { ¬ IsFirstFaulty (for_exports exporting default_config) EmptyChoose }
    ensures want_of_memory_without_shapes { ¬ IsFirstFaulty default_config Memory }
    ensures a_name_twice_for_its_use { ¬ IsFaultOf default_config (for_exports twice_exported default_config).exports AvailableImports
        (Misshapen Exports DuplicateExport) }
{}
