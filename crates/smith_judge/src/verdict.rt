ghost use Rattle.std.specs.Prelude.{◌≡◌, Option};
ghost use Rattle.smith_judge.specs.Verdicts.{
  finding_verdict,
  format_verdict,
  gap_verdict,
  inner_number,
  nothing_found,
  reason_number,
  verdict_of,
};

use crate::answer::{Answer, Gap};
use crate::finding::Finding;
use smith_binary_read::Reason;

/// An answer in numbers, in memory as a caller in C has it. Later versions append numbers and renumber
/// none.
#[repr(C)]
#[derive(Clone, Copy, Debug, PartialEq, Eq)]
pub struct Verdict {
    /// The number of the kind of the answer.
    pub kind: u32,
    /// The number of the rule of validity that is broken, or 0.
    pub rule: u32,
    /// The number of the rule of the format that is broken, or 0.
    pub reason: u32,
    /// The number of the kind of the item, or 0.
    pub item: u32,
    /// The index of the item, with imported items first, or 0.
    pub index: u64,
    /// The index of the instruction in the item, or of the run of locals, or [`NOWHERE`].
    pub inner: u64,
    /// The offset in the file, or [`NOWHERE`].
    pub offset: u64,
}

/// The number in place of an index or an offset that there isn't.
pub const NOWHERE: u64 = u64::MAX;

impl Verdict {
    /// Returns the verdict on a valid file.
    pub fn valid() -> Verdict
        ensures { result ≡ nothing_found }
    {
        Verdict {
            kind: 0,
            rule: 0,
            reason: 0,
            item: 0,
            index: 0,
            inner: NOWHERE,
            offset: NOWHERE,
        }
    }

    /// Returns `answer` in numbers.
    pub fn of(answer: &Answer) -> Verdict
        ensures { result ≡ verdict_of answer.now }
    {
        match answer {
            Answer::Valid => Verdict::valid(),
            Answer::Invalid(finding) => of_finding(finding),
            Answer::Malformed { offset, reason } => of_format(reason_number(*reason), *offset),
            Answer::FeatureOff { offset } => of_format(FEATURE_OFF, *offset),
            Answer::NotJudged(gap) => of_gap(gap),
        }
    }
}

// The number of the rule that a form is of no feature that is off, after those of the format.
const FEATURE_OFF: u32 = 12;

fn inner_number(inner: Option<usize>) -> u64
    ensures { result ≡ inner_number inner }
{
    match inner {
        Some(index) => index as u64,
        None => NOWHERE,
    }
}

fn of_finding(finding: &Finding) -> Verdict
    ensures { result ≡ finding_verdict finding.now }
{
    Verdict {
        kind: 1,
        rule: finding.rule.number(),
        reason: 0,
        item: finding.item().number(),
        index: finding.index as u64,
        inner: inner_number(finding.inner()),
        offset: finding.offset as u64,
    }
}

fn of_format(reason: u32, offset: usize) -> Verdict
    ensures { result ≡ format_verdict reason offset }
{
    Verdict {
        kind: 2,
        rule: 0,
        reason,
        item: 0,
        index: 0,
        inner: NOWHERE,
        offset: offset as u64,
    }
}

fn of_gap(gap: &Gap) -> Verdict
    ensures { result ≡ gap_verdict gap.now }
{
    Verdict {
        kind: 3,
        rule: 0,
        reason: 0,
        item: gap.item().number(),
        index: gap.index as u64,
        inner: NOWHERE,
        offset: gap.offset as u64,
    }
}

fn reason_number(reason: Reason) -> u32
    ensures { result ≡ reason_number reason }
{
    match reason {
        Reason::UnexpectedEnd => 1,
        Reason::IntegerTooLong => 2,
        Reason::IntegerTooLarge => 3,
        Reason::NotUtf8 => 4,
        Reason::TrailingBytes => 5,
        Reason::UnknownByte => 6,
        Reason::ListLength => 7,
        Reason::ManyLocals => 8,
        Reason::SectionOrder => 9,
        Reason::CountMismatch => 10,
        Reason::DataCountMissing => 11,
    }
}
