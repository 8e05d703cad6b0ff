//! Recorded answers: checksums of the results for generated inputs, to compare two ways to make the
//! same modules.

mod answer_kinds;
mod formula;

use crate::recorded::answer_kinds::AnswerKinds;
use crate::recorded::formula::{Formula, formula_named};
use sha2::{Digest, Sha256};
use smith_bytes::{Error, Unstructured};
use smith_case::arguments::{value, word};
use smith_case::{Case, Fault};
use smith_config::Config;
use smith_text::text;
use std::alloc::Global;
use std::ops::Range;
use wasm_smith::Module;

// The number of inputs of a line.
const INPUTS_A_LINE: u32 = 64;

/// Appends the results for generated inputs under `config`. The arguments of `case` are the formula
/// of the inputs, the first of their numbers and their count. Each 64 inputs have a line: the first
/// and the last number, the number of answers of each kind, and the checksum of the answers.
pub(crate) fn answer_recorded(
    alloc: Global,
    case: &Case,
    config: &Config,
    answer: &mut String,
) -> Result<(), Fault> {
    let Some(formula) = formula_named(word(case, 0)?) else {
        return Err(Fault::Argument(0));
    };
    let first = u32::from(value::<u16>(case, 1)?);
    let count = u32::from(value::<u16>(case, 2)?);
    Ok(append_lines(alloc, config, formula, first, count, answer)?)
}

// Appends the lines of `count` inputs from the number `first` on.
fn append_lines(
    alloc: Global,
    config: &Config,
    formula: Formula,
    first: u32,
    count: u32,
    answer: &mut String,
) -> Result<(), Error> {
    let end = first.saturating_add(count);
    let mut start = first;
    for _ in 0..count.div_ceil(INPUTS_A_LINE) {
        let next = start.saturating_add(INPUTS_A_LINE).min(end);
        append_line(alloc, config, formula, start..next, answer)?;
        start = next;
    }
    Ok(())
}

// Appends the line of the inputs `numbers`.
fn append_line(
    alloc: Global,
    config: &Config,
    formula: Formula,
    numbers: Range<u32>,
    answer: &mut String,
) -> Result<(), Error> {
    let (first, last) = (numbers.start, numbers.end.saturating_sub(1));
    let mut hasher = Sha256::new();
    let mut kinds = AnswerKinds::new(alloc);
    for number in numbers {
        feed_input(alloc, config, formula, number, &mut hasher, &mut kinds)?;
    }
    let checksum = hex::encode(alloc, hasher.finalize())?;
    writeln!(answer, "{first} to {last}: {kinds}SHA-256 {checksum}")?;
    Ok(())
}

// Feeds `hasher` with the answer to the input with the number `number`, and counts its kind.
fn feed_input(
    alloc: Global,
    config: &Config,
    formula: Formula,
    number: u32,
    hasher: &mut Sha256,
    kinds: &mut AnswerKinds,
) -> Result<(), Error> {
    let input = formula.input(alloc, number)?;
    kinds.count(feed(alloc, config, &input, hasher)?)
}

// Draws a module from `u` for a copy of `config`.
fn draw_module(alloc: Global, config: &Config, u: &mut Unstructured<'_>) -> Result<Module, Error> {
    Module::new(alloc, config.clone(alloc)?, u)
}

// Feeds `hasher` with the answer to `input` and with the bytes left: the text of the module, or a
// line of the refusal; then a line with the number of bytes left, and these bytes. Returns the kind
// of the answer.
fn feed(
    alloc: Global,
    config: &Config,
    input: &[u8],
    hasher: &mut Sha256,
) -> Result<String, Error> {
    let mut u = Unstructured::new(input);
    let kind = feed_drawn(alloc, draw_module(alloc, config, &mut u), hasher)?;
    feed_left(alloc, &u, hasher)?;
    Ok(kind)
}

// Feeds `hasher` with the text of the module that is drawn, or a line of the refusal. Returns the
// kind of the answer.
fn feed_drawn(
    alloc: Global,
    drawn: Result<Module, Error>,
    hasher: &mut Sha256,
) -> Result<String, Error> {
    match drawn {
        Ok(module) => {
            let kind = feed_text(alloc, &module, hasher);
            drop(module);
            kind
        }
        Err(refusal) => feed_refusal(alloc, refusal, hasher),
    }
}

fn feed_text(alloc: Global, module: &Module, hasher: &mut Sha256) -> Result<String, Error> {
    hasher.update(text(alloc, module)?.as_str());
    Ok(String::from_str(alloc, "Ok")?)
}

fn feed_refusal(alloc: Global, refusal: Error, hasher: &mut Sha256) -> Result<String, Error> {
    let kind = format!(in alloc; "{refusal:?}")?;
    hasher.update("refused: ");
    hasher.update(kind.as_str());
    hasher.update("\n");
    Ok(kind)
}

// Feeds `hasher` with a line of the number of bytes that `u` has left, and with these bytes.
fn feed_left(alloc: Global, u: &Unstructured<'_>, hasher: &mut Sha256) -> Result<(), Error> {
    let left = u.len();
    hasher.update(format!(in alloc; "left {left}\n")?.as_str());
    if let Some(bytes) = u.peek_bytes(left) {
        hasher.update(bytes);
    }
    Ok(())
}
