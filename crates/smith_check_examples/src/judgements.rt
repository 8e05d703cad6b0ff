// What a judgement says of a module.

ghost use Rattle.std.specs.Prelude.{◌≡◌, ◌<◌, ℕ, [], ◌∷◌};
ghost use Rattle.smith_types.specs.ExampleFeatures.{usual_features};
ghost use Rattle.smith_instr.specs.declared.instr.Instr.TheVariants as instr;
ghost use Rattle.smith_check.specs.ExamplePrograms.{does_nothing};
ghost use Rattle.smith_check.specs.Faults.{IsJudgement, IsUnjudged};
ghost use Rattle.smith_check.specs.declared.judgement.Fault.TheVariants as fault;
ghost use Rattle.smith_check.specs.declared.judgement.Judgement.TheVariants as judgement;
ghost use Rattle.smith_check.specs.declared.judgement.Unjudged.TheVariants as unjudged;
ghost use Rattle.smith_check_examples.specs.ExampleModules.{with_body};
ghost use Rattle.smith_check_examples.specs.ExampleSyntax.{with_locals};

fn judgements()
    ensures valid { IsJudgement usual_features (with_body []) judgement.Valid }
    ensures invalid { IsJudgement usual_features (with_body (instr.Drop ∷ [])) (judgement.Invalid (fault.Body 0 0)) }
    ensures not_valid { ¬ IsJudgement usual_features (with_body (instr.Drop ∷ [])) judgement.Valid }
    ensures not_invalid { ¬ IsJudgement usual_features (with_body []) (judgement.Invalid (fault.Body 0 0)) }
{}

fn many_locals()
    ensures too_many { (count : ℕ) → 50000 < count → IsUnjudged usual_features (with_locals count) (unjudged.Locals 0) }
    ensures few { ¬ IsUnjudged usual_features does_nothing (unjudged.Locals 0) }
    ensures few_types { ¬ IsUnjudged usual_features does_nothing unjudged.Types }
{}
