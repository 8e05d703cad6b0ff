#![tactic(auto)]

ghost use Rattle.std.specs.Prelude.{◌≡◌, [], ◌∷◌};
ghost use Rattle.smith_config.specs.Config.{default_config};
ghost use Rattle.smith_module_rules_examples.specs.ExampleModules.{empty_module};
ghost use Rattle.smith_module_rules_examples.specs.ExampleParts.{trapping};
ghost use Rattle.smith_instr_examples.specs.ExampleBodies.{number};
ghost use Rattle.smith_program.specs.Bodies.{AreBodiesOf, IsOfBody};
ghost use Rattle.smith_program.specs.declared.program.Body.TheVariants as body;
ghost use Rattle.smith_program_examples.specs.ExamplePrograms.{after_an_import, constant, narrow_function, raw, raw_alone, raw_between};
ghost use Rattle.smith_program_examples.specs.ExamplePrograms.{two_functions};

fn one()
    ensures raw_bytes { IsOfBody (λ instructions. ⊥) raw body.Raw }
    ensures drawn { IsOfBody (λ instructions. instructions ≡ number 5 ∷ []) trapping (constant 5) }
    ensures without_the_property { ¬ IsOfBody (λ instructions. ⊥) trapping (constant 5) }
    ensures drawn_over_raw_bytes { ¬ IsOfBody (λ instructions. Unit {0}) raw (constant 5) }
    ensures raw_for_unreachable { ¬ IsOfBody (λ instructions. Unit {0}) trapping body.Raw }
{}

fn several()
    ensures none { AreBodiesOf (empty_module default_config) [] }
    ensures in_order { AreBodiesOf raw_between (constant 5 ∷ body.Raw ∷ constant 7 ∷ []) }
    ensures in_another_order { ¬ AreBodiesOf raw_between (body.Raw ∷ constant 5 ∷ constant 7 ∷ []) }
    ensures one_too_few { ¬ AreBodiesOf raw_between (constant 5 ∷ body.Raw ∷ []) }
    ensures one_too_many { ¬ AreBodiesOf two_functions (constant 5 ∷ constant 7 ∷ constant 9 ∷ []) }
{}

fn forms()
    ensures raw_bytes { AreBodiesOf raw_alone (body.Raw ∷ []) }
    ensures drawn_over_raw_bytes { ¬ AreBodiesOf raw_alone (constant 5 ∷ []) }
    ensures raw_for_unreachable { ¬ AreBodiesOf narrow_function (body.Raw ∷ []) }
    ensures after_an_imported_function { AreBodiesOf after_an_import (constant 5 ∷ []) }
    ensures of_the_imported_type { ¬ AreBodiesOf after_an_import (body.Drawn [] ∷ []) }
{}
