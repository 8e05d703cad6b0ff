use crate::answer_lines::{or_memory, write_debug, write_line, write_pair, write_refusal};
use smith_case::arguments::{value, word};
use smith_case::call::ParserCall;
use smith_case::{Case, Fault};
use smith_config::MemoryOffsetChoices;
use smith_types::{InstructionKind, InstructionKinds, UnknownKind};
use std::str::FromStr;

/// Appends the result of parsing the argument with `call`, or a set of kinds.
pub(crate) fn answer_parser(
    case: &Case,
    call: ParserCall,
    answer: &mut String,
) -> Result<(), Fault> {
    match call {
        ParserCall::Kind => answer_each_kind(case, answer),
        ParserCall::NoKinds => write_kinds(InstructionKinds::none(), answer),
        ParserCall::AllKinds => write_kinds(InstructionKinds::all(), answer),
        ParserCall::DefaultKinds => write_kinds(InstructionKinds::default(), answer),
        ParserCall::Contains => answer_contains(case, answer),
        ParserCall::OffsetChoices => answer_choices(word(case, 0)?, answer),
        _ => answer_kinds(word(case, 0)?, call, answer),
    }
}

// Appends the kind of each argument.
fn answer_each_kind(case: &Case, answer: &mut String) -> Result<(), Fault> {
    let _first = word(case, 0)?;
    for name in case.args() {
        answer_kind(name.as_str(), answer)?;
    }
    Ok(())
}

fn answer_kind(text: &str, answer: &mut String) -> Result<(), Fault> {
    match InstructionKind::from_str(text) {
        Ok(kind) => write_debug(&kind, answer),
        Err(fault) => write_unknown(fault, answer),
    }
}

// Appends the refusal of a text that names no kind.
fn write_unknown(fault: UnknownKind, answer: &mut String) -> Result<(), Fault> {
    write_pair("refused: part", fault.part, answer)
}

fn answer_choices(text: &str, answer: &mut String) -> Result<(), Fault> {
    match MemoryOffsetChoices::from_str(text) {
        Ok(MemoryOffsetChoices(first, second, third)) => {
            or_memory(writeln!(answer, "{first} {second} {third}"))
        }
        Err(fault) => write_refusal(fault, answer),
    }
}

// Appends the kinds that `text` names, without those of floats if `call` removes them.
fn answer_kinds(text: &str, call: ParserCall, answer: &mut String) -> Result<(), Fault> {
    let is_whole = matches!(call, ParserCall::Kinds);
    match InstructionKinds::from_str(text) {
        Ok(kinds) if is_whole => write_kinds(kinds, answer),
        Ok(kinds) => write_kinds(kinds.without_floats(), answer),
        Err(fault) if is_whole => write_unknown(fault, answer),
        Err(_) => Err(Fault::Argument(0)),
    }
}

// Appends whether the kinds that the first argument names contain the kind that the second names.
fn answer_contains(case: &Case, answer: &mut String) -> Result<(), Fault> {
    let kinds: InstructionKinds = value(case, 0)?;
    let kind: InstructionKind = value(case, 1)?;
    write_line(kinds.contains(kind), answer)
}

// The kinds in the order of their bits.
static KINDS: [InstructionKind; 12] = [
    InstructionKind::NumericInt,
    InstructionKind::Numeric,
    InstructionKind::VectorInt,
    InstructionKind::Vector,
    InstructionKind::Reference,
    InstructionKind::Parametric,
    InstructionKind::Variable,
    InstructionKind::Table,
    InstructionKind::MemoryInt,
    InstructionKind::Memory,
    InstructionKind::Control,
    InstructionKind::Aggregate,
];

fn every_kind() -> &'static [InstructionKind] {
    &KINDS
}

// Appends a line for each kind that `kinds` contains, or the line `no kinds`.
fn write_kinds(kinds: InstructionKinds, answer: &mut String) -> Result<(), Fault> {
    if kinds == InstructionKinds::none() {
        return write_line("no kinds", answer);
    }
    for kind in every_kind() {
        if kinds.contains(*kind) {
            write_debug(kind, answer)?;
        }
    }
    Ok(())
}
