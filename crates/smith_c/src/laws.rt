ghost use Rattle.std.specs.Prelude.{◌≡◌, false, ℕ, List, take};
ghost use Rattle.smith_config.specs.Features.{features_of};
ghost use Rattle.smith_config.specs.declared.config.Config.{Config};
ghost use Rattle.smith_judge.specs.Files.{IsValidFile as IsValidModule};
ghost use Rattle.smith_binary_program.specs.Valid.{IsValidBinary};
ghost use Rattle.smith_c.specs.CallAnswers.{IsAnswered};
ghost use Rattle.smith_c.specs.declared.answer.Answer.{Answer as CallAnswer};
ghost use Rattle.smith_c.specs.Files.{IsInvalidMade};
ghost use Rattle.smith_c.specs.KeptConfigs.{AnswersFor, config_of, request_of};
ghost use Rattle.smith_c.specs.declared.fault.Fault.{Fault};
ghost use Rattle.smith_c.specs.declared.kept.KeptConfig.{KeptConfig};
ghost use Rattle.smith_request.specs.Requests.{IsBinary, IsConfigured, IsRequest};
ghost use Rattle.smith_request.specs.Invalid.{IsInvalid, IsInvalidOf, IsInvalidRefusal, IsUnbroken};
ghost use Rattle.smith_request.specs.Refusals.{IsRefusal};
ghost use Rattle.smith_request.specs.Shaped.{IsShapedBinary, IsShapedRefusal};
ghost use Rattle.smith_request.specs.declared.shaped.ShapeFiles.{ShapeFiles};
ghost use Rattle.smith_request.specs.ValidFiles.{IsValidFile};
ghost use Rattle.smith_request.specs.declared.manner.Form.TheVariants.{Binary};

// States that if `smith_binary` or `smith_binary_shaped` answers with status 0, the buffer begins with a
// valid program, which has as many bytes as the answer says, and custom sections only if the
// configuration has them; and that if `smith_invalid` or `smith_invalid_with` does, these bytes spell no
// valid module of the features of the configuration. Nothing calls this function.
fn answers_are_valid()
    ensures valid { (config input before after : List ℕ) (answer : CallAnswer)
        → IsAnswered (IsBinary config input) (IsRefusal Binary config input) before after answer
        → answer.status ≡ 0 → IsValidFile (take answer.length after) }
    ensures without_customs { (config input before after : List ℕ) (answer : CallAnswer)
        → ((read : Config) → IsConfigured config read → read.generate_custom_sections ≡ false)
        → IsAnswered (IsBinary config input) (IsRefusal Binary config input) before after answer
        → answer.status ≡ 0 → IsValidBinary (take answer.length after) }
    ensures shaped { (shapes : ShapeFiles) (config : KeptConfig) (input before after : List ℕ)
        (answer : CallAnswer) → IsAnswered (IsShapedBinary shapes (request_of config) input)
        (IsShapedRefusal Binary shapes (request_of config) input) before after answer
        → answer.status ≡ 0 → IsValidFile (take answer.length after) }
    ensures invalid { (config families input : List ℕ) (old new : Fault) (before after : List ℕ)
        (answer : CallAnswer) → IsInvalidMade (IsInvalid config families input)
        (IsInvalidRefusal config families input) old new before after answer → answer.status ≡ 0
        → (read : Config) × IsConfigured config read
        × (IsValidModule (features_of read) (take answer.length after) → ⊥) }
    ensures invalid_with { (config : KeptConfig) (families input : List ℕ) (old new : Fault)
        (before after : List ℕ) (answer : CallAnswer)
        → IsInvalidMade (IsInvalidOf (config_of config) families input)
        (IsUnbroken (config_of config) families input) old new before after answer → answer.status ≡ 0
        → IsValidModule (features_of (config_of config)) (take answer.length after) → ⊥ }
{}

// States that the calls for a configuration that `smith_config_read` read of a text answer what the
// calls for the text answer. Nothing calls this function.
fn read_configs_answer_for_their_texts()
    ensures { (text : List ℕ) (config : KeptConfig) → IsRequest text (request_of config)
        → AnswersFor config text }
{}
