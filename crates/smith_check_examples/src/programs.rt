// Modules that are valid, and modules of which one part is not.

ghost use Rattle.std.specs.Prelude.{◌≡◌, [], ◌∷◌};
ghost use Rattle.smith_types.specs.Syntax.entity_type.EntityType.TheVariants as entity;
ghost use Rattle.smith_types.specs.Syntax.entity_type.ExportKind.TheVariants as kind;
ghost use Rattle.smith_types.specs.ExampleFeatures.{usual_features};
ghost use Rattle.smith_check.specs.ValidPrograms.{IsValidProgram};
ghost use Rattle.smith_check_examples.specs.ExampleSyntax.{below_a_final_type, below_two_types, bodiless, copied_bytes};
ghost use Rattle.smith_check_examples.specs.ExampleSyntax.{copied_functions, crossed_limits};
ghost use Rattle.smith_check_examples.specs.ExampleSyntax.{exports, exports_twice, imported_memory, imports, passive_bytes};
ghost use Rattle.smith_check_examples.specs.ExampleSyntax.{refers_to_a_later_group};

fn types()
    ensures below_a_final_type { ¬ IsValidProgram usual_features below_a_final_type }
    ensures below_two_types { ¬ IsValidProgram usual_features below_two_types }
    ensures to_a_later_group { ¬ IsValidProgram usual_features refers_to_a_later_group }
{}

fn imports()
    ensures memory { IsValidProgram usual_features imported_memory }
    ensures of_a_missing_type { ¬ IsValidProgram usual_features (imports (entity.Func 0)) }
    ensures of_crossed_limits { ¬ IsValidProgram usual_features crossed_limits }
    ensures tag_of_a_missing_type { ¬ IsValidProgram usual_features (imports (entity.Tag 0)) }
{}

fn segments()
    ensures passive { IsValidProgram usual_features passive_bytes }
    ensures of_a_missing_memory { ¬ IsValidProgram usual_features copied_bytes }
    ensures of_a_missing_table { ¬ IsValidProgram usual_features copied_functions }
{}

fn definitions()
    ensures function_without_a_body { ¬ IsValidProgram usual_features bodiless }
    ensures one_name_for_two_exports { ¬ IsValidProgram usual_features exports_twice }
    ensures export_of_a_missing_tag { ¬ IsValidProgram usual_features (exports kind.Tag 0) }
{}
