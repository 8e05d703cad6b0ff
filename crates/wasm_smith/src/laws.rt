ghost use Rattle.wasm_smith.specs.Determined.{ModulesAreDetermined};
ghost use Rattle.wasm_smith.specs.GlobalExport.{NamesAreNew};
ghost use Rattle.wasm_smith.specs.SpelledBack.{SpelledComesBack};
ghost use Rattle.wasm_smith.specs.Termination.{CountingIsValid};

pub use smith_spell::laws::groups_are_read;

/// States that lists of types and functions are read back from the bytes that spell them, whatever
/// bytes follow.
pub fn spelled_comes_back()
    ensures { SpelledComesBack }
{}

/// States that a valid module stays valid with a global that counts fuel.
pub fn counting_is_valid()
    ensures { CountingIsValid }
{}

/// States that an export of a counter or of a sink is under a name that no earlier export has.
pub fn names_are_new()
    ensures { NamesAreNew }
{}

/// States that the configuration and the bytes determine a module: two modules that
/// [`Module::new`] returns for the same are equal, and leave the same bytes.
///
/// [`Module::new`]: crate::Module::new
pub fn modules_are_determined()
    ensures { ModulesAreDetermined }
{}
