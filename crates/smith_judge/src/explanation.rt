ghost use Rattle.std.specs.Prelude.{◌≡◌, IfOk, IfErr, MatchOption};
ghost use Rattle.smith_types.specs.Syntax.FeatureBits.{features_in};
ghost use Rattle.smith_judge.specs.Explanations.{IsExplainedAnswer, IsExplainedFile};

use crate::answer::Answer;
use smith_bytes::Error;
use smith_check::{Explanation, Fault};
use smith_decode::{DecodeError, decode};
use smith_types::WasmFeatures;
use std::alloc::Global;

// Returns what is known of the instruction `at` of the body `place` of a file.
fn explain_body(
    alloc: Global,
    features: WasmFeatures,
    bytes: &[u8],
    place: usize,
    at: usize,
) -> Result<Option<Explanation>, Error>
    ensures ok { IfOk result (λ found. MatchOption found (Unit {0})
        (IsExplainedFile (features_in features) bytes.now place at)) }
    ensures memory { IfErr result (λ e. e ≡ Error.Memory) }
{
    match decode(alloc, bytes, features) {
        Ok(module) => smith_check::explain(alloc, features, &module, place, at),
        Err(DecodeError::Memory) => Err(Error::Memory),
        Err(_) => Ok(None),
    }
}

/// Returns what is known of the instruction at which `answer`, to the file whose bytes are `bytes`, finds a
/// body wrong, or nothing if it finds none. The types are by canonical indices: of types that are equal,
/// that of the first.
///
/// The file is read and judged once more, up to the instruction. Allocates what that needs, and the
/// explanation, from `alloc`.
///
/// # Errors
///
/// Returns `Memory` if an allocation fails.
pub fn explain(
    alloc: Global,
    features: WasmFeatures,
    bytes: &[u8],
    answer: &Answer,
) -> Result<Option<Explanation>, Error>
    // The types on the stack are those that the instructions before it leave, and the cause is so.
    ensures right { IfOk result (λ found. MatchOption found (Unit {0})
        (IsExplainedAnswer (features_in features) bytes.now answer.now)) }
    ensures memory { IfErr result (λ e. e ≡ Error.Memory) }
{
    match answer {
        Answer::Invalid(finding) => match finding.fault {
            Fault::Body { body, instruction } => {
                explain_body(alloc, features, bytes, body, instruction)
            }
            _ => Ok(None),
        },
        _ => Ok(None),
    }
}
