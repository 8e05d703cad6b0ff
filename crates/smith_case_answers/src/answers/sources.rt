use crate::answer_lines::{
    write_bytes, write_debug, write_line, write_pair, write_refusal, write_rest,
};
use smith_bytes::{Arbitrary, Error, Int, Unstructured, arbitrary_loop};
use smith_case::arguments::{value, word};
use smith_case::call::SourceCall;
use smith_case::{Case, Fault};
use std::fmt::Display;
use std::str::FromStr;

/// Appends the result of the draw `call` from `input`, and the bytes left.
pub(crate) fn answer_source(
    case: &Case,
    call: SourceCall,
    input: &[u8],
    answer: &mut String,
) -> Result<(), Fault> {
    let mut u = Unstructured::new(input);
    answer_from(case, call, &mut u, answer)?;
    write_rest(&u, answer)
}

// Appends the result of the draw `call` from `u`.
fn answer_from(
    case: &Case,
    call: SourceCall,
    u: &mut Unstructured<'_>,
    answer: &mut String,
) -> Result<(), Fault> {
    match call {
        SourceCall::Arbitrary => answer_value(case, u, answer),
        SourceCall::IntInRange => answer_in_range(case, u, answer),
        SourceCall::Ratio => answer_ratio(case, u, answer),
        SourceCall::Choose => answer_choice(case, u, answer),
        SourceCall::Bytes => answer_bytes(case, u, answer),
        SourceCall::PeekBytes => answer_peeked(case, u, answer),
        SourceCall::ArbitraryLen => write_line(u.arbitrary_len(), answer),
        SourceCall::ArbitraryLoop => answer_loop(case, u, answer),
    }
}

fn write_draw<T: Arbitrary + Display + Copy>(
    u: &mut Unstructured<'_>,
    answer: &mut String,
) -> Result<(), Fault> {
    write_line(u.arbitrary::<T>(), answer)
}

// Appends a value of the type that the argument names.
fn answer_value(case: &Case, u: &mut Unstructured<'_>, answer: &mut String) -> Result<(), Fault> {
    match word(case, 0)? {
        "bool" => write_draw::<bool>(u, answer),
        "u8" => write_draw::<u8>(u, answer),
        "u16" => write_draw::<u16>(u, answer),
        "u32" => write_draw::<u32>(u, answer),
        "u64" => write_draw::<u64>(u, answer),
        "u128" => write_draw::<u128>(u, answer),
        "i32" => write_draw::<i32>(u, answer),
        "i64" => write_draw::<i64>(u, answer),
        "i128" => write_draw::<i128>(u, answer),
        _ => Err(Fault::Argument(0)),
    }
}

// Draws a number of the type `T` between the second and the third argument, and appends it.
fn write_in_range<T: Int + FromStr + Display>(
    case: &Case,
    u: &mut Unstructured<'_>,
    answer: &mut String,
) -> Result<(), Fault>
where
    T::Err: Drop,
{
    let least: T = value(case, 1)?;
    let most: T = value(case, 2)?;
    if most.widen() < least.widen() {
        return Err(Fault::Argument(2));
    }
    write_line(u.int_in_range(least..=most), answer)
}

// Appends a number of the type that the first argument names.
fn answer_in_range(
    case: &Case,
    u: &mut Unstructured<'_>,
    answer: &mut String,
) -> Result<(), Fault> {
    match word(case, 0)? {
        "u8" => write_in_range::<u8>(case, u, answer),
        "u16" => write_in_range::<u16>(case, u, answer),
        "u32" => write_in_range::<u32>(case, u, answer),
        "u64" => write_in_range::<u64>(case, u, answer),
        "u128" => write_in_range::<u128>(case, u, answer),
        "usize" => write_in_range::<usize>(case, u, answer),
        _ => Err(Fault::Argument(0)),
    }
}

// Appends whether a chance of the first argument in the second occurs.
fn answer_ratio(case: &Case, u: &mut Unstructured<'_>, answer: &mut String) -> Result<(), Fault> {
    let (n, m): (u8, u8) = (value(case, 0)?, value(case, 1)?);
    if n == 0 || m < n {
        return Err(Fault::Argument(1));
    }
    write_line(u.ratio(n, m), answer)
}

// Appends one of the arguments.
fn answer_choice(case: &Case, u: &mut Unstructured<'_>, answer: &mut String) -> Result<(), Fault> {
    match u.choose(case.args()) {
        Ok(chosen) => write_debug(chosen, answer),
        Err(refusal) => write_refusal(refusal, answer),
    }
}

// Takes as many bytes as the argument says, and appends them.
fn answer_bytes(case: &Case, u: &mut Unstructured<'_>, answer: &mut String) -> Result<(), Fault> {
    match u.bytes(value(case, 0)?) {
        Ok(bytes) => write_bytes("bytes", bytes, answer),
        Err(refusal) => write_refusal(refusal, answer),
    }
}

// Appends as many bytes as the argument says, and leaves them in the source.
fn answer_peeked(case: &Case, u: &Unstructured<'_>, answer: &mut String) -> Result<(), Fault> {
    match u.peek_bytes(value(case, 0)?) {
        Some(bytes) => write_bytes("bytes", bytes, answer),
        None => write_line("none", answer),
    }
}

// Returns the result of one call of a loop's closure: `false` or a refusal if the argument at
// `place` names it, else `true`.
fn turn_of(case: &Case, place: usize) -> Result<bool, Error> {
    match word(case, place) {
        Ok("false") => Ok(false),
        Ok("refused") => Err(Error::EmptyChoose),
        _ => Ok(true),
    }
}

// Runs a loop of at least the first argument and at most the second, whose calls return the results
// that the other arguments name. Appends the number of calls.
fn answer_loop(case: &Case, u: &mut Unstructured<'_>, answer: &mut String) -> Result<(), Fault> {
    let (min, max): (usize, usize) = (value(case, 0)?, value(case, 1)?);
    if max < min {
        return Err(Fault::Argument(1));
    }
    let mut calls: usize = 0;
    let ended = arbitrary_loop(u, min, max, |_u| {
        let turn = turn_of(case, calls.saturating_add(2));
        calls = calls.saturating_add(1);
        turn
    });
    if let Err(refusal) = ended {
        write_refusal(refusal, answer)?;
    }
    write_pair("calls", calls, answer)
}
