use crate::failure::Failure;
use smith_judge::Answer;
use smith_wrong::Wrong;
use std::alloc::Global;

/// The first line of an index of invalid files, which names its columns.
pub(crate) const HEADER: &str = "file\tanswer\toffset\trule\tfamily\ttwin\n";

/// Returns the line of the index for the file of the number `number`. Without a twin its last column is a
/// dash.
pub(crate) fn index_line(
    alloc: Global,
    number: u32,
    wrong: &Wrong,
    has_twin: bool,
) -> Result<String, Failure> {
    let answer = wrong.answer.name();
    let offset = offset_of(&wrong.answer);
    let rule = rule_of(alloc, &wrong.answer)?;
    let family = wrong.family().name();
    let mut line = format!(in alloc; "{number}.wasm\t{answer}\t{offset}\t{rule}\t{family}\t")?;
    if has_twin {
        let twin = format!(in alloc; "twins/{number}.wasm\n")?;
        line.push_str(twin.as_str())?;
    } else {
        line.push_str("-\n")?;
    }
    Ok(line)
}

fn offset_of(answer: &Answer) -> usize {
    match answer {
        Answer::Invalid(finding) => finding.offset,
        Answer::Malformed { offset, .. } | Answer::FeatureOff { offset } => *offset,
        Answer::NotJudged(gap) => gap.offset,
        Answer::Valid => 0,
    }
}

/// Returns the rule that a file breaks: the name of one of validity, or one of the format in words.
fn rule_of(alloc: Global, answer: &Answer) -> Result<String, Failure> {
    match answer {
        Answer::Invalid(finding) => Ok(String::from_str(alloc, finding.rule.name())?),
        Answer::Malformed { reason, .. } => Ok(format!(in alloc; "{reason}")?),
        _ => Ok(String::new(alloc)),
    }
}
