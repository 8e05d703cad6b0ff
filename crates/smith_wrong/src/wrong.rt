ghost use Rattle.std.specs.Prelude.{◌≡◌, ◌⊎◌, ◌↔◌, IsTrue, IfOk, IfErr, IfSome, IsSome};
ghost use Rattle.std.specs.List.{Contains};
ghost use Rattle.smith_binary_program.specs.Valid.{IsValidBinary};
ghost use Rattle.smith_config.specs.Features.{features_of};
ghost use Rattle.smith_decode.specs.ModuleReadings.{module_at};
ghost use Rattle.smith_decode.specs.declared.modules.Module.{Module};
ghost use Rattle.smith_judge.specs.Files.{IsValidFile};
ghost use Rattle.smith_types.specs.Syntax.FeatureBits.{features_in};
ghost use Rattle.smith_wrong_bytes.specs.Splices.{HasPreamble};
ghost use Rattle.smith_wrong.specs.Changes.{IsChangeOf, family_of};
ghost use Rattle.smith_wrong.specs.Wrong.{AreWithoutPreamble, IsBroken, IsRefused, IsTwin, IsWrong, NamesRule};
ghost use Rattle.smith_wrong.specs.declared.families.Family.TheVariants as families;
ghost use Rattle.smith_wrong_bytes.specs.declared.family.BytesFamily.{BytesFamily};
ghost use Rattle.smith_wrong.specs.declared.refusal.WrongRefusal.TheVariants as refusal;

use crate::changes::{Change, ChangedFile, draw_file, draw_preamble};
use crate::families::{Family, draw_family};
use crate::refusal::WrongRefusal;
use crate::seed::seed_of;
use smith_bytes::Unstructured;
use smith_config::Config;
use smith_judge::{Answer, judge};
use smith_program::Program;
use smith_types::WasmFeatures;
use std::alloc::Global;

/// The greatest number of drawn changes that are tried for a file before one of its first eight bytes.
pub const TRIES: u32 = 64;

/// An invalid file, with the valid one that it was.
#[derive(Debug, Drop)]
pub struct Wrong {
    /// The bytes of the invalid file.
    pub file: Vec<u8>,
    /// The bytes of the valid file from which it differs by one change.
    pub twin: Vec<u8>,
    /// The change.
    pub change: Change,
    /// The first fault of the file: `Invalid` or `Malformed`.
    pub answer: Answer,
}

impl Wrong {
    /// Draws a program from the bytes of `u` under `config`, as [`Program::new`] does, and makes one change
    /// in its binary, of one of `families`, that breaks a rule of the format or of validity under the
    /// features of `config`. The change is drawn from the bytes left, which stay in `u`, and, past their
    /// end, from numbers that depend on the binary alone. If a change breaks no rule, the next one is
    /// tried, at most [`TRIES`] in all. If none of them does, one of the first eight bytes is changed, or
    /// the file is cut there, by the first of `families` that has such changes: `Preamble` or `CutFile`.
    ///
    /// The binary has no custom sections. If `config` allows raw bodies, these can break a rule
    /// themselves.
    ///
    /// # Errors
    ///
    /// Returns `Module` with the refusal of [`Program::new`], `Encoding` if the program is too long for
    /// the binary format or memory runs out while it is written, `Memory` if memory runs out later, and
    /// `NoChange` if no change that was tried breaks a rule, and `families` has neither `Preamble` nor
    /// `CutFile`.
    pub fn new(
        alloc: Global,
        config: Config,
        families: &[Family],
        u: &mut Unstructured<'_>,
    ) -> Result<Wrong, WrongRefusal>
        // The file is no valid module.
        ensures invalid { IfOk result (λ wrong.
            IsValidFile (features_of config) wrong.file.items → ⊥) }
        // What it was, what was changed, and which rule that breaks.
        ensures made { IfOk result (IsWrong config u.old u.new) }
        ensures family { IfOk result (λ wrong. Contains families.now (family_of wrong.change)) }
        ensures refused { IfErr result (IsRefused config u.old u.new) }
        ensures found { IfErr result (λ e. e ≡ refusal.NoChange → AreWithoutPreamble families.now) }
    {
        let features = config.features();
        match draw_twin(alloc, config, u) {
            Ok(twin) => break_twin(alloc, features, twin, families, u),
            Err(refusal) => Err(refusal),
        }
    }

    /// Returns the family of the change.
    pub fn family(&self) -> Family
        ensures { result ≡ family_of self.now.change }
    {
        self.change.family()
    }
}

// Draws a program from the bytes of `u` under `config`, and writes it in the binary format.
fn draw_twin(
    alloc: Global,
    config: Config,
    u: &mut Unstructured<'_>,
) -> Result<Vec<u8>, WrongRefusal>
    ensures twin { IfOk result (λ twin. IsTwin config u.old u.new twin.items) }
    ensures refused { IfErr result (IsRefused config u.old u.new) }
    ensures drawn { IfErr result (λ e. e ≡ refusal.NoChange → ⊥) }
{
    match Program::new(alloc, config, u) {
        Ok(program) => match smith_binary_program::encode(alloc, &program) {
            Ok(twin) => Ok(twin),
            Err(fault) => Err(WrongRefusal::Encoding(fault)),
        },
        Err(refusal) => Err(WrongRefusal::Module(refusal)),
    }
}

// Returns `twin` with one change, drawn from the bytes that are left in `u`, that breaks a rule.
fn break_twin(
    alloc: Global,
    features: WasmFeatures,
    twin: Vec<u8>,
    families: &[Family],
    u: &Unstructured<'_>,
) -> Result<Wrong, WrongRefusal>
    requires { IsValidBinary twin.items }
    ensures twin { IfOk result (λ wrong. wrong.twin.items ≡ twin.items) }
    ensures change { IfOk result (λ wrong. IsChangeOf wrong.change twin.items wrong.file.items) }
    ensures broken { IfOk result (λ wrong.
        IsBroken (features_in features) wrong.file.items wrong.answer) }
    ensures family { IfOk result (λ wrong. Contains families.now (family_of wrong.change)) }
    ensures refused { IfErr result (λ e. (e ≡ refusal.Memory) ⊎ (e ≡ refusal.NoChange)) }
    ensures found { IfErr result (λ e. e ≡ refusal.NoChange → AreWithoutPreamble families.now) }
{
    match draw_broken(alloc, features, twin.as_slice(), families, u) {
        Ok(Some((file, answer))) => {
            let ChangedFile { bytes, change } = file;
            Ok(Wrong {
                file: bytes,
                twin,
                change,
                answer,
            })
        }
        Ok(None) => Err(WrongRefusal::NoChange),
        Err(_) => Err(WrongRefusal::Memory),
    }
}

// Draws changes of `twin` from the bytes that are left in `u` until one breaks a rule.
fn draw_broken(
    alloc: Global,
    features: WasmFeatures,
    twin: &[u8],
    families: &[Family],
    u: &Unstructured<'_>,
) -> Result<Option<(ChangedFile, Answer)>, WrongRefusal>
    requires { IsValidBinary twin.now }
    ensures change { IfOk result (λ found. IfSome found (λ one.
        IsChangeOf one.0.change twin.now one.0.bytes.items)) }
    ensures broken { IfOk result (λ found. IfSome found (λ one.
        IsBroken (features_in features) one.0.bytes.items one.1)) }
    ensures family { IfOk result (λ found. IfSome found (λ one.
        Contains families.now (family_of one.0.change))) }
    ensures found { IfOk result (λ found. found ≡ None → AreWithoutPreamble families.now) }
    ensures memory { IfErr result (λ e. e ≡ refusal.Memory) }
{
    let seed = match seed_of(alloc, twin, u) {
        Ok(seed) => seed,
        Err(_) => return Err(WrongRefusal::Memory),
    };
    let mut source = Unstructured::new(seed.as_slice());
    for _ in 0..TRIES {
        if let Some(found) = try_change(alloc, features, twin, families, &mut source)? {
            return Ok(Some(found));
        }
    }
    try_preambles(alloc, features, twin, families, &mut source)
}

// Changes the first eight bytes of `twin` by the first of `families` that has such changes.
fn try_preambles(
    alloc: Global,
    features: WasmFeatures,
    twin: &[u8],
    families: &[Family],
    u: &mut Unstructured<'_>,
) -> Result<Option<(ChangedFile, Answer)>, WrongRefusal>
    requires { IsValidBinary twin.now }
    ensures change { IfOk result (λ found. IfSome found (λ one.
        IsChangeOf one.0.change twin.now one.0.bytes.items)) }
    ensures broken { IfOk result (λ found. IfSome found (λ one.
        IsBroken (features_in features) one.0.bytes.items one.1)) }
    ensures family { IfOk result (λ found. IfSome found (λ one.
        Contains families.now (family_of one.0.change))) }
    ensures found { IfOk result (λ found. found ≡ None → AreWithoutPreamble families.now) }
    ensures memory { IfErr result (λ e. e ≡ refusal.Memory) }
{
    for family in families {
        if let Some(found) = try_preamble(alloc, features, twin, *family, u)? {
            return Ok(Some(found));
        }
    }
    Ok(None)
}

// Changes the first eight bytes of `twin` by a change of `family`, if it has such changes.
fn try_preamble(
    alloc: Global,
    features: WasmFeatures,
    twin: &[u8],
    family: Family,
    u: &mut Unstructured<'_>,
) -> Result<Option<(ChangedFile, Answer)>, WrongRefusal>
    requires { IsValidBinary twin.now }
    ensures change { IfOk result (λ found. IfSome found (λ one.
        IsChangeOf one.0.change twin.now one.0.bytes.items)) }
    ensures broken { IfOk result (λ found. IfSome found (λ one.
        IsBroken (features_in features) one.0.bytes.items one.1)) }
    ensures family { IfOk result (λ found. IfSome found (λ one. family_of one.0.change ≡ family)) }
    ensures found { (one : BytesFamily) → family ≡ families.Bytes one → HasPreamble one → IfOk result IsSome }
    ensures memory { IfErr result (λ e. e ≡ refusal.Memory) }
{
    let Family::Bytes(family) = family else {
        return Ok(None);
    };
    match draw_preamble(alloc, twin, family, u)? {
        Some(file) => judge_change(alloc, features, file),
        None => Ok(None),
    }
}

// Draws one change of `twin`, and judges it. Returns `None` unless it breaks a rule.
fn try_change(
    alloc: Global,
    features: WasmFeatures,
    twin: &[u8],
    families: &[Family],
    u: &mut Unstructured<'_>,
) -> Result<Option<(ChangedFile, Answer)>, WrongRefusal>
    ensures change { IfOk result (λ found. IfSome found (λ one.
        IsChangeOf one.0.change twin.now one.0.bytes.items)) }
    ensures broken { IfOk result (λ found. IfSome found (λ one.
        IsBroken (features_in features) one.0.bytes.items one.1)) }
    ensures family { IfOk result (λ found. IfSome found (λ one.
        Contains families.now (family_of one.0.change))) }
    ensures memory { IfErr result (λ e. e ≡ refusal.Memory) }
{
    let Some(family) = draw_family(families, u) else {
        return Ok(None);
    };
    match draw_file(alloc, twin, family, u)? {
        Some(file) => judge_change(alloc, features, file),
        None => Ok(None),
    }
}

// Returns `file` and what is said of it if that is a rule that it breaks.
fn judge_change(
    alloc: Global,
    features: WasmFeatures,
    file: ChangedFile,
) -> Result<Option<(ChangedFile, Answer)>, WrongRefusal>
    ensures same { IfOk result (λ found. IfSome found (λ one. one.0 ≡ file)) }
    ensures broken { IfOk result (λ found. IfSome found (λ one.
        IsBroken (features_in features) file.bytes.items one.1)) }
    ensures found { ((m : Module) → module_at file.bytes.items ≡ Ok m → ⊥) → IfOk result IsSome }
    ensures memory { IfErr result (λ e. e ≡ refusal.Memory) }
{
    match judge(alloc, features, file.bytes.as_slice()) {
        Ok(answer) if names_rule(&answer) => Ok(Some((file, answer))),
        Ok(_) => Ok(None),
        Err(_) => Err(WrongRefusal::Memory),
    }
}

// Returns whether `answer` says which rule a file breaks: one of the format, or one of validity.
fn names_rule(answer: &Answer) -> bool
    ensures { IsTrue result ↔ NamesRule answer.now }
{
    matches!(answer, Answer::Invalid(_) | Answer::Malformed { .. })
}
