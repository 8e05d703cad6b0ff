// Modules that are valid, and modules that are not.

ghost use Rattle.smith_types.specs.ExampleFeatures.{usual_features};
ghost use Rattle.smith_check_module.specs.ExampleSyntax.{nothing};
ghost use Rattle.smith_check.specs.ExamplePrograms.{does_nothing, returns_nothing};
ghost use Rattle.smith_check.specs.ValidPrograms.{IsValidProgram};

fn modules()
    ensures nothing { IsValidProgram usual_features nothing }
    ensures does_nothing { IsValidProgram usual_features does_nothing }
    ensures returns_nothing { ¬ IsValidProgram usual_features returns_nothing }
{}
