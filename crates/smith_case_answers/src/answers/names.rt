use crate::answer_lines::{or_memory, write_debug, write_refusal, write_rest};
use smith_bytes::{
    Error, Unstructured, limited_str, limited_string, unique_kebab_string, unique_string,
    unique_url,
};
use smith_case::arguments::value;
use smith_case::call::NameCall;
use smith_case::{Case, Fault};
use std::alloc::Global;
use std::collections::HashSet;

/// Appends to `answer` the name that `call` draws from `input`, then the taken names unless `call`
/// is `limited_str`, then the bytes left. The first argument of `case` is the greatest number of
/// bytes of a name. The other arguments are the names taken before.
pub(crate) fn answer_name(
    alloc: Global,
    case: &Case,
    call: NameCall,
    input: &[u8],
    answer: &mut String,
) -> Result<(), Fault> {
    let mut u = Unstructured::new(input);
    answer_from(alloc, case, call, &mut u, answer)?;
    write_rest(&u, answer)
}

// Appends the name that `call` draws from `u`, and the names taken after the draw.
fn answer_from(
    alloc: Global,
    case: &Case,
    call: NameCall,
    u: &mut Unstructured<'_>,
    answer: &mut String,
) -> Result<(), Fault> {
    let most = value(case, 0)?;
    match call {
        NameCall::LimitedStr => write_debug(&limited_str(most, u), answer),
        _ => answer_made_name(alloc, case, call, most, u, answer),
    }
}

fn answer_made_name(
    alloc: Global,
    case: &Case,
    call: NameCall,
    most: usize,
    u: &mut Unstructured<'_>,
    answer: &mut String,
) -> Result<(), Fault> {
    let mut names = HashSet::new(alloc);
    add_names(case.args().get(1..).unwrap_or(&[]), &mut names)?;
    answer_among(alloc, call, most, &mut names, u, answer)
}

// Appends the name that `call` draws where `names` are taken, and the names taken after the draw.
fn answer_among(
    alloc: Global,
    call: NameCall,
    most: usize,
    names: &mut HashSet<String>,
    u: &mut Unstructured<'_>,
    answer: &mut String,
) -> Result<(), Fault> {
    write_name(draw_name(alloc, call, most, names, u), answer)?;
    write_names(alloc, names, answer)
}

fn write_name(drawn: Result<String, Error>, answer: &mut String) -> Result<(), Fault> {
    match drawn {
        Ok(name) => write_debug(&name, answer),
        Err(refusal) => write_refusal(refusal, answer),
    }
}

// Adds the names `taken` to `names`.
fn add_names(taken: &[String], names: &mut HashSet<String>) -> Result<(), Fault> {
    for name in taken {
        names.insert(name.clone()?)?;
    }
    Ok(())
}

fn draw_name(
    alloc: Global,
    call: NameCall,
    most: usize,
    names: &mut HashSet<String>,
    u: &mut Unstructured<'_>,
) -> Result<String, Error> {
    match call {
        NameCall::LimitedString => limited_string(alloc, most, u),
        NameCall::UniqueKebabString => unique_kebab_string(alloc, most, names, u),
        NameCall::UniqueUrl => unique_url(alloc, most, names, u),
        _ => unique_string(alloc, most, names, u),
    }
}

// Appends a line of the names in order.
fn write_names(alloc: Global, names: &HashSet<String>, answer: &mut String) -> Result<(), Fault> {
    let mut sorted: Vec<&str> = Vec::with_capacity(alloc, names.len())?;
    add_sorted(names, &mut sorted)?;
    or_memory(writeln!(answer, "names {sorted:?}"))
}

// Adds `names` to `sorted` in order.
fn add_sorted<'a>(names: &'a HashSet<String>, sorted: &mut Vec<&'a str>) -> Result<(), Fault> {
    for name in names.iter() {
        or_memory(sorted.push(name.as_str()))?;
    }
    or_memory(sorted.sort())
}
