ghost use Rattle.smith_check_body.specs.Laws.{VerdictsAreUnique};

/// States that at most one verdict on a body is correct.
pub fn verdicts_are_unique()
    ensures { VerdictsAreUnique }
{}
