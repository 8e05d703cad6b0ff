ghost use Rattle.smith_body_leaves.specs.Laws.{TrapsOnlyForNoOther};

/// States that, if traps are disallowed, a value is `unreachable` only if no other permitted
/// instructions without a budget produce one of its type.
pub fn traps_only_for_no_other()
    ensures { TrapsOnlyForNoOther }
{}
