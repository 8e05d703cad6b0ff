ghost use Rattle.std.specs.Prelude.{[], ◌∷◌, length};
ghost use Rattle.smith_text.specs.Written.{HasBytes, IsMeasure, Keeps, Writes};
ghost use Rattle.smith_text.specs.ExampleDestinations.{Appends, HoldsAtLeast};

// Bounds of texts that hold, and others that do not. The clauses are proved, and nothing calls these
// functions.
fn counters()
    ensures kept { Keeps HoldsAtLeast 2 3 }
    ensures one_lost { ¬ Keeps HoldsAtLeast 3 2 }
    ensures written { Writes HoldsAtLeast 2 3 5 }
    ensures one_missing { ¬ Writes HoldsAtLeast 2 3 4 }
{}

fn measures()
    ensures bytes { IsMeasure Appends (λ bytes. length bytes) }
    ensures nothing { ¬ IsMeasure Appends (λ bytes. 0) }
{}

fn texts()
    ensures all { HasBytes Appends (1 ∷ 2 ∷ 3 ∷ []) 3 }
    ensures one_more { ¬ HasBytes Appends (1 ∷ 2 ∷ 3 ∷ []) 4 }
{}
