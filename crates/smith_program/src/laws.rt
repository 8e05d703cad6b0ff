ghost use Rattle.smith_program.specs.Laws.{CanonicalProgramsAreValid, CountedProgramsAreValid};
ghost use Rattle.smith_program.specs.Laws.{ObservedProgramsAreValid};
ghost use Rattle.smith_program.specs.Laws.{ProgramsAreDetermined};

/// States that the configuration and the bytes determine a program: two programs that
/// [`Program::new`] returns for the same are equal, and leave the same bytes.
///
/// [`Program::new`]: crate::Program::new
pub fn programs_are_determined()
    ensures { ProgramsAreDetermined }
{}

/// States that a valid program stays valid with a global that counts fuel.
pub fn counted_programs_are_valid()
    ensures { CountedProgramsAreValid }
{}

/// States that a valid program stays valid with its locals mixed into sinks.
pub fn observed_programs_are_valid()
    ensures { ObservedProgramsAreValid }
{}

/// States that a valid program stays valid with canonical NaNs.
pub fn canonical_programs_are_valid()
    ensures { CanonicalProgramsAreValid }
{}
