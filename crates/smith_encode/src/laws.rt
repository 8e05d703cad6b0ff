ghost use Rattle.std.specs.Prelude.{◌↔◌, ℕ, List};
ghost use Rattle.smith_decode.specs.declared.modules.Module.{Module};
ghost use Rattle.smith_decode.specs.Modules.{IsModuleBinary, Syntax, syntax_of};
ghost use Rattle.smith_encode.specs.Faults.{HasNoSpelling};

/// States that the bytes of a decoded module that is encoded spell the same module as the first
/// bytes, and no other module. A decoded module always has a spelling.
pub fn encoding_keeps_modules()
    ensures same { (m : Module) (bytes again : List ℕ) → IsModuleBinary (syntax_of m) bytes
        → IsModuleBinary (syntax_of m) again
        → (syntax : Syntax) → IsModuleBinary syntax again ↔ IsModuleBinary syntax bytes }
    ensures spelled { (m : Module) (bytes : List ℕ) → IsModuleBinary (syntax_of m) bytes
        → ¬ HasNoSpelling (syntax_of m) }
{}
