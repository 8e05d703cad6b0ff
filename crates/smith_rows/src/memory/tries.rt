//! Functions that tries share.

use smith_bytes::{Error, Unstructured};
use smith_rows_memory::{Attempt, Ended, is_piece, refusals};
use std::alloc::Global;
use std::test::Fail;

/// Returns the outcome of a try that was refused for the reason `refusal`.
pub(crate) fn outcome_of_refusal(refusal: Error) -> Ended {
    match refusal {
        Error::Memory => Ended::Refused,
        _ => Ended::Wrong("a call is refused for another reason"),
    }
}

/// Returns whether the rest of `u` is a piece of `input`.
pub(crate) fn is_left(u: &Unstructured<'_>, input: &[u8]) -> bool {
    match u.peek_bytes(u.len()) {
        Some(left) => is_piece(left, input),
        None => false,
    }
}

/// Fails unless `call` is refused before there is enough memory for it.
pub(crate) fn is_refused_first<T: Attempt>(alloc: Global, call: &mut T) -> Result<(), Fail> {
    if refusals(alloc, call)? == 0 {
        return Err(Fail::new("the call takes no memory"));
    }
    Ok(())
}
