// First faults of modules, and faults that are not the first.

ghost use Rattle.std.specs.Prelude.{◌≡◌, [], ◌∷◌};
ghost use Rattle.smith_types.specs.ExampleFeatures.{usual_features};
ghost use Rattle.smith_instr.specs.declared.instr.Instr.TheVariants as instr;
ghost use Rattle.smith_check.specs.Faults.{IsFirstFault};
ghost use Rattle.smith_check.specs.declared.judgement.Fault.TheVariants as fault;
ghost use Rattle.smith_check_module.specs.declared.faults.Part.TheVariants as part;
ghost use Rattle.smith_check_examples.specs.ExampleModules.{below_final, of_runs, of_several_supertypes, starts_missing, three_runs};
ghost use Rattle.smith_check_examples.specs.ExampleModules.{two_faults, with_body, without_body};

// Types come before the other sections.
fn types()
    ensures second { IsFirstFault usual_features below_final (fault.Types 1) }
    ensures not_the_first { ¬ IsFirstFault usual_features below_final (fault.Types 0) }
    ensures several_supertypes { IsFirstFault usual_features of_several_supertypes (fault.Types 0) }
    ensures not_a_later_section { ¬ IsFirstFault usual_features below_final (fault.Section (record { part = part.Start; index = 0 })) }
{}

// Tags come before functions.
fn sections()
    ensures start { IsFirstFault usual_features starts_missing (fault.Section (record { part = part.Start; index = 0 })) }
    ensures tag { IsFirstFault usual_features two_faults (fault.Section (record { part = part.Tags; index = 0 })) }
    ensures not_a_later_part { ¬ IsFirstFault usual_features two_faults (fault.Section (record { part = part.Functions; index = 0 })) }
    ensures not_a_right_item { ¬ IsFirstFault usual_features two_faults (fault.Section (record { part = part.Tags; index = 1 })) }
{}

// The locals of a function come before its instructions.
fn bodies()
    ensures run { IsFirstFault usual_features (of_runs three_runs) (fault.Local 0 1) }
    ensures not_a_later_run { ¬ IsFirstFault usual_features (of_runs three_runs) (fault.Local 0 2) }
    ensures instruction { IsFirstFault usual_features (with_body (instr.Drop ∷ [])) (fault.Body 0 0) }
    ensures not_a_later_instruction { ¬ IsFirstFault usual_features (with_body (instr.Drop ∷ [])) (fault.Body 0 1) }
    ensures not_a_right_body { ¬ IsFirstFault usual_features (with_body []) (fault.Body 0 0) }
    ensures without_a_body { IsFirstFault usual_features without_body (fault.Body 0 0) }
{}
