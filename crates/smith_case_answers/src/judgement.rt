use crate::answers::answer;
use smith_case::call::RECORDED;
use smith_case::{Case, Fault, bytes_of, check_wanted, first_difference, read_case, text_or};
use std::alloc::{AllocError, Global};
use std::fmt::Display;

/// Answers the case of `line` twice for each of its inputs, or once if the answer is a checksum,
/// and appends to `report` the line `ok NAME`, or `not ok NAME: ` and the fault of the case or the
/// first difference. Returns whether the answers are as the case wants.
///
/// # Errors
///
/// Fails if memory for the line of `report` runs out.
pub fn judge(alloc: Global, line: &str, report: &mut String) -> Result<bool, AllocError> {
    let mut case = Case::default();
    let answer = judge_case(alloc, line, &mut case, report);
    drop(case);
    answer
}

// Judges the case of `line`, which is read into `case`.
fn judge_case(
    alloc: Global,
    line: &str,
    case: &mut Case,
    report: &mut String,
) -> Result<bool, AllocError> {
    let judged = judge_line(alloc, line, case);
    write_judged(text_or(&case.name, ""), &judged, report)?;
    Ok(matches!(judged, Ok(None)))
}

// Appends the line of the case `name`.
fn write_judged(
    name: &str,
    judged: &Result<Option<String>, Fault>,
    report: &mut String,
) -> Result<(), AllocError> {
    match judged {
        Ok(None) => writeln!(report, "ok {name}"),
        Ok(Some(difference)) => write_wrong(name, difference, report),
        Err(fault) => write_wrong(name, fault, report),
    }
}

// Appends the line of the case `name`, which is not ok for the reason `reason`.
fn write_wrong<T: Display>(name: &str, reason: &T, report: &mut String) -> Result<(), AllocError> {
    writeln!(report, "not ok {name}: {reason}")
}

// Returns the first difference between the answers to the case of `line`, which is read into
// `case`, and those that the case wants.
fn judge_line(alloc: Global, line: &str, case: &mut Case) -> Result<Option<String>, Fault> {
    read_case(alloc, line, case)?;
    of_case(alloc, line, case)
}

// Returns the first difference between the answers to `case`, which `line` holds, and those that it
// wants.
fn of_case(alloc: Global, line: &str, case: &Case) -> Result<Option<String>, Fault> {
    if text_or(&case.name, "").is_empty() {
        return Err(Fault::NoName);
    }
    check_wanted(case)?;
    let input = bytes_of(alloc, text_or(&case.input, ""))?;
    of_inputs(alloc, line, case, input.as_slice())
}

// Returns the first difference over the inputs that `case` makes of `input`.
fn of_inputs(
    alloc: Global,
    line: &str,
    case: &Case,
    input: &[u8],
) -> Result<Option<String>, Fault> {
    let Some(inputs) = &case.inputs else {
        return of_input(alloc, line, case, input);
    };
    if inputs.as_str() == "each cut" {
        return of_each_cut(alloc, line, case, input);
    }
    of_each_byte(alloc, line, case, bytes_named(inputs.as_str())?)
}

// Returns the bytes that `name` names.
fn bytes_named(name: &str) -> Result<Bytes, Fault> {
    match name {
        "each byte" => Ok(Bytes::All),
        "each even byte" => Ok(Bytes::Even),
        "each odd byte" => Ok(Bytes::Odd),
        _ => Err(Fault::UnknownInputs),
    }
}

// Returns the first difference of the answer to `case`, which `line` holds, over `input`.
fn of_input(alloc: Global, line: &str, case: &Case, input: &[u8]) -> Result<Option<String>, Fault> {
    let given = answer(alloc, line, case, input)?;
    if !is_recorded(case) {
        check_again(alloc, line, case, input, given.as_str())?;
    }
    difference_of(alloc, given.as_str(), case)
}

// Checks that a second answer to `case`, which `line` holds, over `input` is `first`.
fn check_again(
    alloc: Global,
    line: &str,
    case: &Case,
    input: &[u8],
    first: &str,
) -> Result<(), Fault> {
    let second = answer(alloc, line, case, input)?;
    check_steady(first, second.as_str())
}

// Returns the first difference of the answer `given` from the one that `case` wants.
fn difference_of(alloc: Global, given: &str, case: &Case) -> Result<Option<String>, Fault> {
    match first_difference(given, case) {
        Some(difference) => Ok(Some(format!(in alloc; "{difference}")?)),
        None => Ok(None),
    }
}

// Checks that two answers to a case are equal. If they differ and memory ran out in one of them,
// the fault is `Memory`.
fn check_steady(first: &str, second: &str) -> Result<(), Fault> {
    if first == second {
        return Ok(());
    }
    Err(if lacks_memory(first) || lacks_memory(second) {
        Fault::Memory
    } else {
        Fault::Unsteady
    })
}

// Returns whether memory ran out in a call of an answer.
fn lacks_memory(answer: &str) -> bool {
    answer.contains("refused: Memory")
}

// Returns whether the answer to `case` is a checksum of many answers, which is made once.
fn is_recorded(case: &Case) -> bool {
    text_or(&case.call, "") == RECORDED
}

// Bytes that are inputs.
#[derive(Clone, Copy)]
enum Bytes {
    All,
    Even,
    Odd,
}

fn is_among(byte: u8, bytes: Bytes) -> bool {
    match bytes {
        Bytes::All => true,
        Bytes::Even => byte % 2 == 0,
        Bytes::Odd => byte % 2 == 1,
    }
}

// Returns the first difference over all inputs of one of `bytes`.
fn of_each_byte(
    alloc: Global,
    line: &str,
    case: &Case,
    bytes: Bytes,
) -> Result<Option<String>, Fault> {
    if case.input.is_some() {
        return Err(Fault::UselessKey);
    }
    for byte in 0..=u8::MAX {
        if is_among(byte, bytes) {
            let difference = of_byte(alloc, line, case, byte)?;
            if difference.is_some() {
                return Ok(difference);
            }
        }
    }
    Ok(None)
}

// Returns the first difference over the input `byte`, after a text that names it.
fn of_byte(alloc: Global, line: &str, case: &Case, byte: u8) -> Result<Option<String>, Fault> {
    match of_input(alloc, line, case, &[byte])? {
        Some(difference) => Ok(Some(format!(in alloc; "of the byte {byte:02x}: {difference}")?)),
        None => Ok(None),
    }
}

// Returns the first difference over `input` cut at each length, and over the whole of it.
fn of_each_cut(
    alloc: Global,
    line: &str,
    case: &Case,
    input: &[u8],
) -> Result<Option<String>, Fault> {
    for length in 0..=input.len() {
        let difference = of_cut(alloc, line, case, &input[..length])?;
        if difference.is_some() {
            return Ok(difference);
        }
    }
    Ok(None)
}

// Returns the first difference over the cut input `cut`, after a text that names its length.
fn of_cut(alloc: Global, line: &str, case: &Case, cut: &[u8]) -> Result<Option<String>, Fault> {
    let length = cut.len();
    match of_input(alloc, line, case, cut)? {
        Some(difference) => Ok(Some(format!(in alloc; "cut at {length}: {difference}")?)),
        None => Ok(None),
    }
}
