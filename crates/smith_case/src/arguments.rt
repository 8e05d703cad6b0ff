//! Reads the arguments of a case.

use crate::case::Case;
use crate::fault::Fault;
use std::str::FromStr;

/// Returns the argument of `case` at `place`, from 0.
///
/// # Errors
///
/// Returns `Argument` if it is missing.
pub fn word(case: &Case, place: usize) -> Result<&str, Fault> {
    match case.args().get(place) {
        Some(word) => Ok(word.as_str()),
        None => Err(Fault::Argument(place)),
    }
}

/// Parses the argument of `case` at `place`, from 0, as a `T`.
///
/// # Errors
///
/// Returns `Argument` if it is missing, or is no `T`.
pub fn value<T: FromStr + Drop>(case: &Case, place: usize) -> Result<T, Fault>
where
    T::Err: Drop,
{
    word(case, place)?
        .parse::<T>()
        .or(Err(Fault::Argument(place)))
}
