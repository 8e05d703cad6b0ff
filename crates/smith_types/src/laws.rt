ghost use Rattle.smith_types.specs.Laws.{
  SubtypingIsReflexive,
  SubtypingIsTransitive,
  ConcreteIsNeverBelowExact,
  SubtypingSurvivesGrowth,
  MatchingIsReflexive,
  MatchingSurvivesGrowth,
  ValidTypesSurviveGrowth,
  ValidEntitiesSurviveGrowth,
  ValidExpressionsSurviveGrowth,
  GroundedSurvivesGrowth,
  ValidSegmentsSurviveGrowth,
  ValidExportsSurviveGrowth,
};

/// States that each type is a subtype of itself.
pub fn subtyping_is_reflexive()
    ensures { SubtypingIsReflexive }
{}

/// States that subtyping is transitive.
pub fn subtyping_is_transitive()
    ensures { SubtypingIsTransitive }
{}

/// States that no concrete type is a subtype of an exact type, not even of the exact type with the
/// same index.
pub fn concrete_is_never_below_exact()
    ensures { ConcreteIsNeverBelowExact }
{}

/// States that a subtype stays a subtype when more types are added.
pub fn subtyping_survives_growth()
    ensures { SubtypingSurvivesGrowth }
{}

/// States that each composite type matches itself.
pub fn matching_is_reflexive()
    ensures { MatchingIsReflexive }
{}

/// States that a composite type that matches another still does when more types are added.
pub fn matching_survives_growth()
    ensures { MatchingSurvivesGrowth }
{}

/// States that valid types stay valid when whole groups of valid types are added.
pub fn valid_types_survive_growth()
    ensures { ValidTypesSurviveGrowth }
{}

/// States that valid entities stay valid when more types are added.
pub fn valid_entities_survive_growth()
    ensures { ValidEntitiesSurviveGrowth }
{}

/// States that a valid constant expression stays valid when types, functions and globals are added,
/// and when more globals are visible.
pub fn valid_expressions_survive_growth()
    ensures { ValidExpressionsSurviveGrowth }
{}

/// States that a grounded heap type stays grounded when types and defined functions are added, or,
/// while all functions are imported, when types and imported functions are added.
pub fn grounded_survives_growth()
    ensures { GroundedSurvivesGrowth }
{}

/// States that a valid segment stays valid when types, functions, globals, tables and memories are
/// added.
pub fn valid_segments_survive_growth()
    ensures { ValidSegmentsSurviveGrowth }
{}

/// States that valid exports and a valid start function stay valid when index spaces grow.
pub fn valid_exports_survive_growth()
    ensures { ValidExportsSurviveGrowth }
{}
