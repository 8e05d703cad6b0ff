// Configurations with shapes: the shapes in effect, sanitised configurations, and their checks.

ghost use Rattle.std.specs.Prelude.{◌≡◌, true, Some, None};
ghost use Rattle.smith_bytes.specs.declared.error.Count.TheVariants as counts;
ghost use Rattle.smith_bytes.specs.declared.error.ConfigFault.TheVariants.{MinAboveMax, MaxTooLarge};
ghost use Rattle.smith_config.specs.Config.{default_config};
ghost use Rattle.smith_config.specs.Shapes.{no_shapes};
ghost use Rattle.smith_config.specs.InUse.{shapes_of, HasNoShapes, FixesImports, FixesExports};
ghost use Rattle.smith_config.specs.Sanitized.{sanitized, IsSanitized, IsLowered};
ghost use Rattle.smith_config.specs.Faults.{HasFault, Passes};
ghost use Rattle.smith_config.specs.ExampleShapes.{empty_shape, imported_tag, passed_on, exported_table};

fn used()
    ensures none_by_default { shapes_of default_config ≡ no_shapes }
    ensures available_imports { shapes_of (record default_config { available_imports = Some imported_tag })
        ≡ record no_shapes { available_imports = Some imported_tag } }
    ensures imports_and_exports { shapes_of (record default_config { available_imports = Some imported_tag; exports = Some exported_table })
        ≡ record { available_imports = Some imported_tag; exports = Some exported_table; module_shape = None } }
    ensures a_module_shape_alone { shapes_of
        (record default_config { available_imports = Some imported_tag; exports = Some exported_table; module_shape = Some passed_on })
        ≡ record no_shapes { module_shape = Some passed_on } }
{}

fn given()
    ensures none_by_default { HasNoShapes default_config }
    ensures available_imports { ¬ HasNoShapes (record default_config { available_imports = Some empty_shape }) }
    ensures exports { ¬ HasNoShapes (record default_config { exports = Some empty_shape }) }
    ensures a_module_shape { ¬ HasNoShapes (record default_config { module_shape = Some empty_shape }) }
{}

fn fixed()
    ensures no_imports_by_default { ¬ FixesImports default_config }
    ensures imports { FixesImports (record default_config { available_imports = Some empty_shape }) }
    ensures imports_of_a_module_shape { FixesImports (record default_config { module_shape = Some empty_shape }) }
    ensures no_imports_by_exports { ¬ FixesImports (record default_config { exports = Some exported_table }) }
    ensures no_exports_by_default { ¬ FixesExports default_config }
    ensures exports { FixesExports (record default_config { exports = Some empty_shape }) }
    ensures exports_of_a_module_shape { FixesExports (record default_config { module_shape = Some empty_shape }) }
    ensures no_exports_by_imports { ¬ FixesExports (record default_config { available_imports = Some passed_on }) }
{}

fn sanitising()
    ensures imports_beside_a_module_shape { (sanitized
        (record default_config { available_imports = Some imported_tag; module_shape = Some passed_on })).available_imports ≡ None }
    ensures exports_beside_a_module_shape { (sanitized (record default_config { exports = Some exported_table; module_shape = Some passed_on })).exports ≡ None }
    ensures a_module_shape_stays { sanitized (record default_config { module_shape = Some passed_on })
        ≡ record default_config { module_shape = Some passed_on } }
    ensures imports_and_exports_stay { sanitized
        (record default_config { available_imports = Some imported_tag; exports = Some exported_table })
        ≡ record default_config { available_imports = Some imported_tag; exports = Some exported_table } }
{}

fn sanitised()
    ensures a_module_shape_alone { IsSanitized (record default_config { module_shape = Some passed_on }) }
    ensures imports_and_exports { IsSanitized
        (record default_config { available_imports = Some imported_tag; exports = Some exported_table }) }
    ensures imports_beside_a_module_shape { ¬ IsSanitized
        (record default_config { available_imports = Some imported_tag; module_shape = Some passed_on }) }
    ensures exports_beside_a_module_shape { ¬ IsSanitized
        (record default_config { exports = Some exported_table; module_shape = Some passed_on }) }
{}

fn lowered()
    ensures imports_and_exports_taken_away { IsLowered
        (record default_config { available_imports = Some imported_tag; exports = Some exported_table }) default_config }
    ensures imports_and_exports_as_they_were { IsLowered
        (record default_config { available_imports = Some imported_tag; exports = Some exported_table })
        (record default_config { available_imports = Some imported_tag; exports = Some exported_table }) }
    ensures imports_added { ¬ IsLowered default_config (record default_config { available_imports = Some imported_tag }) }
    ensures exports_added { ¬ IsLowered default_config (record default_config { exports = Some exported_table }) }
    ensures a_module_shape_added { ¬ IsLowered default_config (record default_config { module_shape = Some passed_on }) }
    ensures a_module_shape_taken_away { ¬ IsLowered (record default_config { module_shape = Some passed_on }) default_config }
    ensures imports_emptied { ¬ IsLowered (record default_config { available_imports = Some imported_tag })
        (record default_config { available_imports = Some empty_shape }) }
{}

fn crossed_pairs()
    ensures imports { HasFault (record default_config { min_imports = 101 }) (MinAboveMax counts.Imports) }
    ensures imports_of_a_shape { ¬ HasFault (record default_config { min_imports = 101; available_imports = Some imported_tag })
        (MinAboveMax counts.Imports) }
    ensures imports_of_a_module_shape { ¬ HasFault (record default_config { min_imports = 101; module_shape = Some passed_on })
        (MinAboveMax counts.Imports) }
    ensures imports_beside_exports { HasFault (record default_config { min_imports = 101; exports = Some exported_table })
        (MinAboveMax counts.Imports) }
    ensures imports_where_all_are_exported { HasFault (record default_config { min_imports = 101; export_everything = true })
        (MinAboveMax counts.Imports) }
    ensures exports_of_a_shape { ¬ HasFault (record default_config { min_exports = 101; exports = Some exported_table })
        (MinAboveMax counts.Exports) }
    ensures exports_of_a_module_shape { ¬ HasFault (record default_config { min_exports = 101; module_shape = Some passed_on })
        (MinAboveMax counts.Exports) }
    ensures exports_beside_imports { HasFault (record default_config { min_exports = 101; available_imports = Some imported_tag })
        (MinAboveMax counts.Exports) }
    ensures types_of_a_module_shape { HasFault (record default_config { min_types = 101; module_shape = Some passed_on })
        (MinAboveMax counts.Types) }
    ensures many_imports_of_a_shape { HasFault (record default_config { max_imports = 2147483649; available_imports = Some imported_tag })
        (MaxTooLarge counts.Imports) }
{}

fn passing()
    ensures imports_of_a_shape { Passes (record default_config { min_imports = 101; available_imports = Some imported_tag }) }
    ensures exports_of_a_shape { Passes (record default_config { min_exports = 101; exports = Some exported_table }) }
    ensures both_of_a_module_shape { Passes
        (record default_config { min_imports = 101; min_exports = 101; module_shape = Some passed_on }) }
    ensures imports_beside_exports { ¬ Passes (record default_config { min_imports = 101; exports = Some exported_table }) }
    ensures exports_beside_imports { ¬ Passes (record default_config { min_exports = 101; available_imports = Some imported_tag }) }
{}
