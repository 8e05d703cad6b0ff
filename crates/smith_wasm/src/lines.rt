use json::Writer;
use smith_judge::{Answer, Finding, Gap, Words};
use std::alloc::{AllocError, Global};
use std::fmt;

/// The number of files of each kind of answer.
#[derive(Clone, Copy)]
pub(crate) struct Sums {
    /// The files that were read.
    pub(crate) files: u64,
    /// Those that are valid.
    pub(crate) valid: u64,
    invalid: u64,
    malformed: u64,
    not_judged: u64,
    /// The files and folders that can't be read.
    pub(crate) unread: u64,
}

impl Sums {
    /// Returns the sums of no files.
    pub(crate) fn none() -> Sums {
        Sums {
            files: 0,
            valid: 0,
            invalid: 0,
            malformed: 0,
            not_judged: 0,
            unread: 0,
        }
    }

    /// Counts a file with this answer.
    pub(crate) fn add(&mut self, answer: &Answer) {
        self.files = self.files.saturating_add(1);
        let sum = match answer {
            Answer::Valid => &mut self.valid,
            Answer::Invalid(_) => &mut self.invalid,
            Answer::Malformed { .. } | Answer::FeatureOff { .. } => &mut self.malformed,
            Answer::NotJudged(_) => &mut self.not_judged,
        };
        *sum = sum.saturating_add(1);
    }
}

impl fmt::Display for Sums {
    fn fmt<W: fmt::Write>(&self, f: &mut fmt::Formatter<W>) -> fmt::Result {
        let (files, valid, invalid) = (self.files, self.valid, self.invalid);
        let (malformed, not_judged, unread) = (self.malformed, self.not_judged, self.unread);
        write!(
            f,
            "{files} files: {valid} valid, {invalid} invalid, {malformed} malformed"
        )?;
        write!(f, ", {not_judged} not judged, {unread} not read")
    }
}

/// Returns the sums as a line with a JSON object.
pub(crate) fn sums_object(alloc: Global, sums: &Sums) -> Result<Vec<u8>, AllocError> {
    let mut writer = Writer::new(Vec::new(alloc));
    writer.begin_object()?;
    write_number(&mut writer, "files", sums.files)?;
    write_number(&mut writer, "valid", sums.valid)?;
    write_number(&mut writer, "invalid", sums.invalid)?;
    write_number(&mut writer, "malformed", sums.malformed)?;
    write_number(&mut writer, "not-judged", sums.not_judged)?;
    write_number(&mut writer, "not-read", sums.unread)?;
    end_line(writer)
}

/// Returns the answer to the file at `path` as a line with a JSON object.
pub(crate) fn answer_object(
    alloc: Global,
    path: &str,
    words: Words<'_>,
) -> Result<Vec<u8>, AllocError> {
    let answer = words.answer;
    let mut writer = Writer::new(Vec::new(alloc));
    writer.begin_object()?;
    write_text(&mut writer, "file", path)?;
    write_text(&mut writer, "answer", answer.name())?;
    match answer {
        Answer::Valid => {}
        Answer::Invalid(finding) => write_finding(&mut writer, finding)?,
        Answer::Malformed { offset, .. } | Answer::FeatureOff { offset } => {
            write_number(&mut writer, "offset", *offset as u64)?;
        }
        Answer::NotJudged(gap) => write_gap(&mut writer, gap)?,
    }
    if !words.keyword.is_empty() {
        write_text(&mut writer, "keyword", words.keyword)?;
    }
    if !words.cause.is_empty() {
        write_text(&mut writer, "cause", words.cause)?;
    }
    let text = format!(in alloc; "{words}")?;
    write_text(&mut writer, "words", text.as_str())?;
    end_line(writer)
}

/// Writes the members of a fault.
fn write_finding(writer: &mut Writer, finding: &Finding) -> Result<(), AllocError> {
    let rule = finding.rule;
    write_text(writer, "rule", rule.name())?;
    write_number(writer, "number", u64::from(rule.number()))?;
    write_text(writer, "section", rule.section())?;
    write_text(writer, "item", finding.item().name())?;
    write_number(writer, "index", finding.index as u64)?;
    if let Some(inner) = finding.inner() {
        write_number(writer, "inner", inner as u64)?;
    }
    write_number(writer, "offset", finding.offset as u64)
}

/// Writes the members of what is not judged.
fn write_gap(writer: &mut Writer, gap: &Gap) -> Result<(), AllocError> {
    write_text(writer, "item", gap.item().name())?;
    write_number(writer, "index", gap.index as u64)?;
    write_number(writer, "offset", gap.offset as u64)
}

fn write_text(writer: &mut Writer, name: &str, text: &str) -> Result<(), AllocError> {
    writer.key(name)?;
    writer.string(text)
}

fn write_number(writer: &mut Writer, name: &str, number: u64) -> Result<(), AllocError> {
    writer.key(name)?;
    writer.u64(number)
}

fn end_line(mut writer: Writer) -> Result<Vec<u8>, AllocError> {
    writer.end_object()?;
    let mut line = writer.into_inner();
    line.push(b'\n')?;
    Ok(line)
}
