ghost use Rattle.smith_check_rules.specs.Laws.{EitherIsUnshared, TypedBodiesStayTyped, TypedSequencesStayTyped};

/// States that a body that is typed by the rules without bottom types is typed.
pub fn typed_bodies_stay_typed()
    ensures { TypedBodiesStayTyped }
{}

/// States that a sequence that is typed by the rules without bottom types is typed.
pub fn typed_sequences_stay_typed()
    ensures { TypedSequencesStayTyped }
{}

/// States that without shared-everything-threads, a reference that is shared or not has each valid
/// type that an unshared one has.
pub fn either_is_unshared()
    ensures { EitherIsUnshared }
{}
