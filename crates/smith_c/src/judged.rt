ghost use Rattle.std.specs.Prelude.{◌≡◌, IfOk, IfErr, OnOk};
ghost use Rattle.smith_types.specs.Syntax.FeatureBits.{features_in};
ghost use Rattle.smith_c.specs.Files.{IsJudgedBy, IsSet, IsUnjudged, IsUnset, IsVerdict, IsVerdictBy, judging_config};

use smith_bytes::Error;
use smith_config::Config;
use smith_config_json::{Preset, read_text};
use smith_judge::{Verdict, WasmFeatures, judge};
use smith_judge_text::words;
use smith_request::Refusal;
use std::alloc::Global;
use std::str;

/// Sets what `text`, a JSON object, says of a configuration.
fn read_into(alloc: Global, text: &str, config: &mut Config) -> Result<(), Refusal>
    ensures ok { OnOk result (IsSet text.now config.old config.new) }
    ensures refused { IfErr result (IsUnset text.now config.old) }
{
    match read_text(alloc, text, config) {
        Ok(()) => Ok(()),
        Err(refusal) => Err(Refusal::Config(refusal.in_text(text))),
    }
}

/// Sets what `text`, a JSON object or empty, says of a configuration.
fn set_from(alloc: Global, text: &[u8], config: &mut Config) -> Result<(), Refusal>
    ensures ok { OnOk result (IsSet text.now config.old config.new) }
    ensures refused { IfErr result (IsUnset text.now config.old) }
{
    if text.is_empty() {
        return Ok(());
    }
    match str::from_utf8(text) {
        Ok(text) => read_into(alloc, text, config),
        Err(_) => Err(Refusal::NotUtf8),
    }
}

/// Returns the configuration whose features are all that are known.
#[tactic(auto, unfolding(smith_config_json::specs::Presets::with_preset))]
fn judging_config() -> Config
    ensures { result ≡ judging_config }
{
    let mut config = Config::default();
    Preset::Proposals.apply(&mut config);
    config
}

/// Returns the features that the text of a configuration turns on: all that are known, changed by the
/// JSON object that it is, unless it is empty.
fn features_of(alloc: Global, text: &[u8]) -> Result<WasmFeatures, Refusal>
    ensures ok { IfOk result (λ features. IsJudgedBy text.now (features_in features)) }
    ensures refused { IfErr result (IsUnset text.now judging_config) }
{
    let mut config = judging_config();
    match set_from(alloc, text, &mut config) {
        Ok(()) => {
            let features = config.features();
            drop(config);
            Ok(features)
        }
        Err(refusal) => {
            drop(config);
            Err(refusal)
        }
    }
}

/// A verdict, and the same in words.
#[derive(Drop)]
pub struct Judged {
    /// The verdict.
    pub verdict: Verdict,
    /// The same in words, in one line.
    pub words: String,
}

/// Judges `file` by `features`.
fn judge_by(alloc: Global, features: WasmFeatures, file: &[u8]) -> Result<Judged, Error>
    ensures right { IfOk result (λ judged. IsVerdict (features_in features) file.now judged.verdict) }
    ensures memory { IfErr result (λ e. e ≡ Error.Memory) }
{
    let answer = judge(alloc, features, file)?;
    let words = words(alloc, features, file, &answer)?;
    Ok(Judged {
        verdict: Verdict::of(&answer),
        words,
    })
}

/// Judges `file` by the features that the text `config` of a configuration turns on.
///
/// # Errors
///
/// Refuses a text that is not UTF-8 or no configuration, and for lack of memory.
pub fn check(alloc: Global, config: &[u8], file: &[u8]) -> Result<Judged, Refusal>
    ensures right { IfOk result (λ judged. IsVerdictBy config.now file.now judged.verdict) }
    ensures refused { IfErr result (IsUnjudged config.now) }
{
    match features_of(alloc, config) {
        Ok(features) => match judge_by(alloc, features, file) {
            Ok(judged) => Ok(judged),
            Err(error) => Err(Refusal::Module(error)),
        },
        Err(refusal) => Err(refusal),
    }
}
