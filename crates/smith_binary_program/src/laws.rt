ghost use Rattle.std.specs.Prelude.{IsTrue, List};
ghost use Rattle.std.specs.List.{Contains};
ghost use Rattle.smith_config.specs.declared.config.Config.{Config};
ghost use Rattle.smith_config.specs.Features.{features_of};
ghost use Rattle.smith_module_rules.specs.Module.{IsValid, ModuleParts, shown_config};
ghost use Rattle.smith_program.specs.Bodies.{AreBodiesOf};
ghost use Rattle.smith_program.specs.Valid.{IsValidProgram};
ghost use Rattle.smith_program.specs.declared.program.Body.{Body};
ghost use Rattle.smith_program.specs.declared.program.Body.TheVariants.{Raw};
ghost use Rattle.smith_binary_program.specs.Decoded.{EncodedProgramsAreDecoded, EncodedProgramsComeBack};
ghost use Rattle.smith_binary_program.specs.Forms.{AreFormsEnabled, HasLongReferences};
ghost use Rattle.smith_binary_program.specs.Valid.{ProgramsAreUnambiguous};
ghost use Rattle.smith_binary_program.specs.Valid.{EncodedProgramsAreValid};

/// States that bytes spell at most one program: one module, and one list of instructions for each
/// body that is not raw bytes. These lists include the checks of fuel.
pub fn programs_are_unambiguous()
    ensures { ProgramsAreUnambiguous }
{}

/// States that the bytes that [`encode`] writes for a valid program spell a valid program, and no
/// other program.
///
/// [`encode`]: crate::encode
pub fn encoded_programs_are_valid()
    ensures { EncodedProgramsAreValid }
{}

/// States that a valid module and its typed bodies are written without the forms of disabled
/// features. Without garbage collection, a module has no feature whose reference types need the
/// long form.
pub fn forms_are_enabled()
    ensures enabled { (m : ModuleParts) (bodies : List Body) → IsValid m → AreBodiesOf m bodies
        → AreFormsEnabled m bodies }
    ensures long_references { (config : Config) → HasLongReferences
        (features_of (shown_config config)) → IsTrue (features_of (shown_config config)).gc }
{}

/// States that the bytes that [`encode`] writes for a valid program without raw bodies are a module for
/// the decoder. It has exactly the parts, the locals and the instructions of the program, with the
/// checks of fuel. Without `allow_invalid_funcs`, no body is raw.
///
/// [`encode`]: crate::encode
pub fn encoded_programs_are_decoded()
    ensures decoded { EncodedProgramsAreDecoded }
    ensures raw { (m : ModuleParts) (bodies : List Body) → IsValidProgram m bodies
        → Contains bodies Raw → IsTrue m.config.allow_invalid_funcs }
{}

/// States that the bytes that [`encode`] writes for a valid program without raw bodies come back from
/// [`smith_decode::decode`] as the module of the program, with the features of its configuration. For each
/// answer that the call's clause `exact` permits for these bytes and features, it is this module, or the
/// error is lack of memory: no form of the written module belongs to a disabled feature.
///
/// [`encode`]: crate::encode
pub fn encoded_programs_come_back()
    ensures { EncodedProgramsComeBack }
{}
