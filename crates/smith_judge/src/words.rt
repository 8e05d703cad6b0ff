use crate::answer::{Answer, Gap};
use crate::finding::{Finding, Item};
use crate::wording::wording_of;
use smith_check::{Fault, LOCALS, Unjudged};
use std::fmt;

/// An answer in words, in one line.
#[derive(Clone, Copy, Debug)]
pub struct Words<'a> {
    /// The answer.
    pub answer: &'a Answer,
    /// The name of the instruction at its place, or empty if there is none or it is not known.
    pub keyword: &'a str,
    /// Why the instruction is wrong, or empty if that is not known.
    pub cause: &'a str,
}

impl fmt::Display for Words<'_> {
    fn fmt<W: fmt::Write>(&self, f: &mut fmt::Formatter<W>) -> fmt::Result {
        let name = self.answer.name();
        match self.answer {
            Answer::Valid => f.write_str(name),
            Answer::Invalid(finding) => {
                write!(f, "{name}: ")?;
                write_finding(finding, self, f)
            }
            Answer::Malformed { offset, reason } => write!(f, "{name}: {reason} at 0x{offset:x}"),
            Answer::FeatureOff { offset } => {
                write!(f, "{name}: a form of a feature that is off at 0x{offset:x}")
            }
            Answer::NotJudged(gap) => {
                write!(f, "{name}: ")?;
                write_gap(gap, f)
            }
        }
    }
}

// Writes where a fault is, and which rule it breaks.
fn write_finding<W: fmt::Write>(
    finding: &Finding,
    words: &Words<'_>,
    f: &mut fmt::Formatter<W>,
) -> fmt::Result {
    write_item(finding.item(), finding.index, f)?;
    match finding.fault {
        Fault::Types(_) | Fault::Section(_) => {}
        Fault::Local { run, .. } => write!(f, ", run {run} of locals")?,
        Fault::Body { instruction, .. } => write_instruction(instruction, words.keyword, f)?,
    }
    let offset = finding.offset;
    let wording = wording_of(finding.rule);
    let section = wording.section;
    let why = if words.cause.is_empty() {
        wording.sentence
    } else {
        words.cause
    };
    write!(f, " at 0x{offset:x}: {why} (Validation, {section})")
}

// Writes an item. There is one start function, so it has no index.
fn write_item<W: fmt::Write>(item: Item, index: usize, f: &mut fmt::Formatter<W>) -> fmt::Result {
    let name = item.name();
    match item {
        Item::Start => f.write_str(name),
        _ => write!(f, "{name} {index}"),
    }
}

// Writes an instruction by its index, with its name if there is one.
fn write_instruction<W: fmt::Write>(
    index: usize,
    keyword: &str,
    f: &mut fmt::Formatter<W>,
) -> fmt::Result {
    write!(f, ", instruction {index}")?;
    if keyword.is_empty() {
        return Ok(());
    }
    write!(f, " ({keyword})")
}

// Writes what is not judged, and why.
fn write_gap<W: fmt::Write>(gap: &Gap, f: &mut fmt::Formatter<W>) -> fmt::Result {
    let offset = gap.offset;
    match gap.why {
        Unjudged::Types => write!(f, "there are 2^32 - 1 types or more"),
        Unjudged::Locals { .. } => {
            write_item(gap.item(), gap.index, f)?;
            write!(f, " at 0x{offset:x}: it has more than {LOCALS} locals")
        }
    }
}
