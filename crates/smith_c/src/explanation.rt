ghost use Rattle.smith_c.specs.CallAnswers.{PutsText};
ghost use Rattle.smith_request.specs.Refusals.{status_of};

use crate::answer::{Answer, put};
use smith_request::Refusal;
use std::alloc::Global;

// The words of a refusal that has none of its own, since there is no memory for them.
const NO_WORDS: &str = "refused, and out of memory for the reason";

/// Writes `refusal` in words to `out`, with its number. If there is no memory for its words, the
/// text says so.
pub fn explain(alloc: Global, refusal: &Refusal, out: &mut [u8]) -> Answer
    ensures { PutsText (status_of refusal.now) out.old out.new result }
{
    match format!(in alloc; "{refusal}") {
        Ok(text) if !text.is_empty() => put(refusal.status(), text.as_str().as_bytes(), out),
        _ => put(refusal.status(), NO_WORDS.as_bytes(), out),
    }
}
