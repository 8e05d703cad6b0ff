// Runs of locals, and the first that is wrong.

ghost use Rattle.std.specs.Prelude.{◌≡◌, [], ◌∷◌};
ghost use Rattle.smith_types.specs.Syntax.value_type.ValType.TheVariants.{I32};
ghost use Rattle.smith_types.specs.ExampleFeatures.{usual_features};
ghost use Rattle.smith_decode.specs.BodyReadings.{local_run};
ghost use Rattle.smith_check.specs.Locals.{IsFirstWrongRun, IsRunRight};
ghost use Rattle.smith_check_examples.specs.ExampleModules.{fourth_type, three_runs};

fn runs()
    ensures numbers { IsRunRight usual_features 0 [] (local_run 2 I32) }
    ensures of_a_missing_type { ¬ IsRunRight usual_features 0 [] (local_run 1 fourth_type) }
    ensures of_the_last_type { IsRunRight usual_features 4 (0 ∷ 1 ∷ 2 ∷ 3 ∷ []) (local_run 1 fourth_type) }
    ensures of_an_equal_type { IsRunRight usual_features 1 (0 ∷ 0 ∷ 0 ∷ 0 ∷ []) (local_run 1 fourth_type) }
    ensures of_nothing { IsRunRight usual_features 0 [] (local_run 0 fourth_type) }
{}

fn first_wrong_runs()
    ensures second { IsFirstWrongRun usual_features 0 [] three_runs 1 }
    ensures not_the_first { ¬ IsFirstWrongRun usual_features 0 [] three_runs 0 }
    ensures not_the_last { ¬ IsFirstWrongRun usual_features 0 [] three_runs 2 }
    ensures none { ¬ IsFirstWrongRun usual_features 0 [] (local_run 2 I32 ∷ []) 0 }
{}
