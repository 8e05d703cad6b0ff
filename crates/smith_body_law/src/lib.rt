//! Laws of values that need no budget: which types have none if bodies may have all kinds of
//! instructions, and which types ground these.
#![tactic(auto)]

mod examples;

ghost use Rattle.smith_body_law.specs.Barren.{OnlyBarrenTypesHaveNoOther};
ghost use Rattle.smith_body_law.specs.Unnamed.{BarrenTypesAreGroundedByUnnamedFunctions};

/// States that, with garbage collection and where bodies may have all kinds of instructions, only
/// barren types have no value that needs no budget. These are non-nullable references to heap types
/// without a subtype whose values can be created or named. With `disallow_traps`, a body has
/// `unreachable` only in place of values of barren types.
pub fn only_barren_types_have_no_other()
    ensures { OnlyBarrenTypesHaveNoOther }
{}

/// States that a barren heap type that is grounded is grounded by functions alone, none of which may
/// be named in a body.
pub fn barren_types_are_grounded_by_unnamed_functions()
    ensures { BarrenTypesAreGroundedByUnnamedFunctions }
{}
