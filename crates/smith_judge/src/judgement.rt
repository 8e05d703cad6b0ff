ghost use Rattle.std.specs.Prelude.{◌≡◌, IfOk, IfErr};
ghost use Rattle.smith_types.specs.Syntax.FeatureBits.{features_in};
ghost use Rattle.smith_decode.specs.Forms.{AreFormsEnabled};
ghost use Rattle.smith_decode.specs.Results.{offset_in};
ghost use Rattle.smith_judge.specs.Answers.{Decides, IsAnswer, IsDescribed};
ghost use Rattle.smith_judge.specs.Files.{IsModuleFile, IsValidFile};
ghost use Rattle.smith_judge.specs.Places.{gap_index, gap_place};

use crate::answer::{Answer, Gap};
use crate::finding::Finding;
use crate::places::{fault_index, fault_place, gap_index, gap_place};
use crate::rules::rule_of;
use smith_bytes::Error;
use smith_check::{Fault, Judgement, Unjudged, check};
use smith_decode::{DecodeError, Module, Place, decode, locate};
use smith_types::WasmFeatures;
use std::alloc::Global;

// Returns the offset of `place` in `bytes`, or of their end if there is no such place.
fn offset_of(alloc: Global, bytes: &[u8], place: Place) -> Result<usize, Error>
    ensures ok { IfOk result (λ offset. offset ≡ offset_in bytes.now place) }
    ensures memory { IfErr result (λ e. e ≡ Error.Memory) }
{
    match locate(alloc, bytes, place) {
        Ok(Some(offset)) => Ok(offset),
        Ok(None) => Ok(bytes.len()),
        Err(_) => Err(Error::Memory),
    }
}

// Returns what is said of `fault` of `module`, which `bytes` are.
fn describe(alloc: Global, bytes: &[u8], module: &Module, fault: Fault) -> Result<Finding, Error>
    ensures same { IfOk result (λ finding. finding.fault ≡ fault) }
    ensures described { IfOk result (IsDescribed bytes.now «module».now) }
    ensures memory { IfErr result (λ e. e ≡ Error.Memory) }
{
    let groups = module.imports.as_slice();
    let rule = rule_of(alloc, module, fault)?;
    let index = fault_index(alloc, groups, fault)?;
    let place = fault_place(alloc, groups, fault)?;
    let offset = offset_of(alloc, bytes, place)?;
    Ok(Finding {
        fault,
        rule,
        index,
        offset,
    })
}

// Returns what is not judged of `module`, which `bytes` are.
fn gap_of(alloc: Global, bytes: &[u8], module: &Module, why: Unjudged) -> Result<Gap, Error>
    ensures why { IfOk result (λ gap. gap.why ≡ why) }
    ensures index { IfOk result (λ gap. gap.index ≡ gap_index «module».now.imports why) }
    ensures offset { IfOk result (λ gap. gap.offset ≡ offset_in bytes.now (gap_place why)) }
    ensures memory { IfErr result (λ e. e ≡ Error.Memory) }
{
    let index = gap_index(alloc, module.imports.as_slice(), why)?;
    let offset = offset_of(alloc, bytes, gap_place(why))?;
    Ok(Gap { why, index, offset })
}

// Judges `module`, which `bytes` are.
fn judge_module(
    alloc: Global,
    features: WasmFeatures,
    bytes: &[u8],
    module: &Module,
) -> Result<Answer, Error>
    requires file { IsModuleFile bytes.now «module».now }
    requires enabled { AreFormsEnabled (features_in features) «module».now }
    ensures right { IfOk result (IsAnswer (features_in features) bytes.now) }
    ensures memory { IfErr result (λ e. e ≡ Error.Memory) }
{
    let judgement = check(alloc, features, module)?;
    match judgement {
        Judgement::Valid => Ok(Answer::Valid),
        Judgement::Invalid(fault) => {
            let finding = describe(alloc, bytes, module, fault)?;
            Ok(Answer::Invalid(finding))
        }
        Judgement::NotJudged(why) => {
            let gap = gap_of(alloc, bytes, module, why)?;
            Ok(Answer::NotJudged(gap))
        }
    }
}

// Judges a file.
fn judge_file(alloc: Global, features: WasmFeatures, bytes: &[u8]) -> Result<Answer, Error>
    ensures right { IfOk result (IsAnswer (features_in features) bytes.now) }
    ensures memory { IfErr result (λ e. e ≡ Error.Memory) }
{
    match decode(alloc, bytes, features) {
        Ok(module) => judge_module(alloc, features, bytes, &module),
        Err(DecodeError::Memory) => Err(Error::Memory),
        Err(DecodeError::Malformed { offset, reason }) => Ok(Answer::Malformed { offset, reason }),
        Err(DecodeError::FeatureOff { offset }) => Ok(Answer::FeatureOff { offset }),
    }
}

/// Judges the file whose bytes are `bytes`, as a module whose forms may be of `features` alone.
/// Allocates the module and what its check needs from `alloc`.
///
/// # Errors
///
/// Returns `Memory` if an allocation fails.
pub fn judge(alloc: Global, features: WasmFeatures, bytes: &[u8]) -> Result<Answer, Error>
    // Unless the file is not judged, the answer decides whether it is valid.
    ensures decided { IfOk result (λ answer.
        Decides answer (IsValidFile (features_in features) bytes.now)) }
    // What it says of the first fault, and of what is not judged, is so.
    ensures right { IfOk result (IsAnswer (features_in features) bytes.now) }
    ensures memory { IfErr result (λ e. e ≡ Error.Memory) }
{
    judge_file(alloc, features, bytes)
}
