ghost use Rattle.std.specs.Prelude.{[], ◌∷◌, true, false, replicate};
ghost use Rattle.smith_types.specs.Syntax.value_type.HeapType.TheVariants.{Concrete};
ghost use Rattle.smith_types.specs.Syntax.value_type.ValType.TheVariants.{I32, I64, Ref};
ghost use Rattle.smith_types.specs.Syntax.code.Instructions.TheVariants.{Unreachable, Arbitrary};
ghost use Rattle.smith_types.specs.Bodies.{AreInstructionsValid, IsBodyValid, IsCounterGlobal};
ghost use Rattle.smith_types.specs.ExampleFeatures.{usual_features};
ghost use Rattle.smith_types.specs.ExampleTypes.{nullable};
ghost use Rattle.smith_types.specs.ExampleEntities.{constant_global, variable_global};

fn instructions()
    ensures unreachable { AreInstructionsValid false Unreachable }
    ensures raw_bytes { AreInstructionsValid true (Arbitrary (0 ∷ [])) }
    ensures raw_bytes_not_allowed { ¬ AreInstructionsValid false (Arbitrary (0 ∷ [])) }
{}

fn bodies()
    ensures a_hundred_locals { IsBodyValid usual_features 0 false (record { locals = replicate 100 I32; instructions = Unreachable }) }
    ensures one_local_more { ¬ IsBodyValid usual_features 0 false (record { locals = replicate 101 I32; instructions = Unreachable }) }
    ensures a_local_of_an_unknown_type { ¬ IsBodyValid usual_features 0 false
        (record { locals = Ref (nullable (Concrete 0)) ∷ []; instructions = Unreachable }) }
    ensures a_local_of_the_last_type { IsBodyValid usual_features 2 false
        (record { locals = Ref (nullable (Concrete 1)) ∷ []; instructions = Unreachable }) }
    ensures a_local_past_the_types { ¬ IsBodyValid usual_features 2 false
        (record { locals = Ref (nullable (Concrete 2)) ∷ []; instructions = Unreachable }) }
    ensures raw_bytes { IsBodyValid usual_features 0 true (record { locals = []; instructions = Arbitrary [] }) }
    ensures raw_bytes_not_allowed { ¬ IsBodyValid usual_features 0 false (record { locals = []; instructions = Arbitrary [] }) }
{}

fn fuel()
    ensures defined_and_mutable { IsCounterGlobal (constant_global I32 ∷ variable_global I32 ∷ []) 1 1 }
    ensures imported { ¬ IsCounterGlobal (variable_global I32 ∷ []) 1 0 }
    ensures immutable { ¬ IsCounterGlobal (constant_global I32 ∷ []) 0 0 }
    ensures shared { ¬ IsCounterGlobal (record (variable_global I32) { shared = true } ∷ []) 0 0 }
    ensures past_the_globals { ¬ IsCounterGlobal (variable_global I32 ∷ []) 0 1 }
    ensures wide { ¬ IsCounterGlobal (variable_global I64 ∷ []) 0 0 }
{}
