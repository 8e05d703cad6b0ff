// Modules that are valid, and modules that are not.

ghost use Rattle.std.specs.Prelude.{[]};
ghost use Rattle.smith_types.specs.Syntax.value_type.ValType.TheVariants.{I32};
ghost use Rattle.smith_types.specs.ExampleFeatures.{usual_features};
ghost use Rattle.smith_check_module.specs.Contexts.{context_in};
ghost use Rattle.smith_check_module.specs.ValidModules.{IsConstant, IsValidApart};
ghost use Rattle.smith_check_module.specs.ExampleSyntax.{
  nothing,
  exports_missing,
  starts_missing,
  one,
  first_global,
};

fn nothing()
    ensures valid { IsValidApart usual_features nothing }
{}

fn missing()
    ensures exported { ¬ IsValidApart usual_features exports_missing }
    ensures started { ¬ IsValidApart usual_features starts_missing }
{}

fn constants()
    ensures number { IsConstant (context_in usual_features [] nothing) [] I32 one }
{}
