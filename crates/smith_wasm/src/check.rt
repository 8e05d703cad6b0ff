use crate::configuration::check_features;
use crate::failure::Failure;
use crate::files::{STANDARD_INPUT, names_in, read_from, write_to};
use crate::lines::{Sums, answer_object, sums_object};
use crate::request::config_text;
use crate::words::{FILES, JSON, QUIET};
use clap::ArgMatches;
use smith_judge::{WasmFeatures, Words, judge};
use smith_judge_text::{cause, keyword, words};
use std::path::Path;

/// The status if all files are valid, and the one if a file isn't.
const ALL_VALID: u8 = 0;

const NOT_VALID: u8 = 1;

/// The status if a word is wrong, or a file was not read or a line not written.
pub(crate) const NOT_CHECKED: u8 = 2;

/// How files are judged, and what is shown of that.
#[derive(Clone, Copy)]
struct Manner {
    features: WasmFeatures,
    /// Whether an answer is a JSON object.
    is_json: bool,
    /// Whether sums are shown in place of answers.
    is_quiet: bool,
}

/// Judges the files that `matches` names, and shows a line for each, or their sums. A file that can't be
/// read is named on standard error. Returns the status.
pub(crate) fn check_files(rt: &HostRuntime, matches: &ArgMatches<'_>) -> Result<u8, Failure> {
    let (config, _) = config_text(rt, matches)?;
    let manner = Manner {
        features: check_features(rt.alloc(), matches, config)?,
        is_json: matches.get_flag(JSON),
        is_quiet: matches.get_flag(QUIET),
    };
    let mut sums = Sums::none();
    for path in matches.get_strs(FILES).unwrap_or(&[]) {
        check_path(rt, manner, path, &mut sums)?;
    }
    if manner.is_quiet {
        show_sums(rt, manner, &sums)?;
    }
    Ok(status_of(&sums))
}

fn status_of(sums: &Sums) -> u8 {
    if sums.unread > 0 {
        NOT_CHECKED
    } else if sums.valid < sums.files {
        NOT_VALID
    } else {
        ALL_VALID
    }
}

/// Judges standard input, the file at `path`, or the files of the folder at `path` whose names end in
/// `.wasm`, in the order of their names.
fn check_path(
    rt: &HostRuntime,
    manner: Manner,
    path: &str,
    sums: &mut Sums,
) -> Result<(), Failure> {
    if path == "-" {
        return check_file(rt, manner, None, sums);
    }
    if !Path::new(path).is_dir(rt) {
        return check_file(rt, manner, Some(path), sums);
    }
    match names_in(rt, path) {
        Ok(names) => check_each(rt, manner, &names, sums),
        Err(failure) => note_unread(rt, failure, sums),
    }
}

fn check_each(
    rt: &HostRuntime,
    manner: Manner,
    paths: &Vec<String>,
    sums: &mut Sums,
) -> Result<(), Failure> {
    for path in paths {
        check_file(rt, manner, Some(path.as_str()), sums)?;
    }
    Ok(())
}

/// Judges the file at `path`, or standard input if there is no path.
fn check_file(
    rt: &HostRuntime,
    manner: Manner,
    path: Option<&str>,
    sums: &mut Sums,
) -> Result<(), Failure> {
    match read_from(rt, path) {
        Ok(bytes) => check_bytes(
            rt,
            manner,
            path.unwrap_or(STANDARD_INPUT),
            bytes.as_slice(),
            sums,
        ),
        Err(failure) => note_unread(rt, failure, sums),
    }
}

/// Names a file that can't be read.
fn note_unread(rt: &HostRuntime, failure: Failure, sums: &mut Sums) -> Result<(), Failure> {
    sums.unread = sums.unread.saturating_add(1);
    let shown = eprintln!(rt; "smith_wasm: {failure}");
    drop(failure);
    Ok(shown?)
}

/// Judges `bytes`, the contents of the file at `path`, and shows the answer.
fn check_bytes(
    rt: &HostRuntime,
    manner: Manner,
    path: &str,
    bytes: &[u8],
    sums: &mut Sums,
) -> Result<(), Failure> {
    let answer = judge(rt.alloc(), manner.features, bytes)?;
    sums.add(&answer);
    if manner.is_quiet {
        return Ok(());
    }
    if manner.is_json {
        let name = keyword(rt.alloc(), bytes, &answer)?;
        let why = cause(rt.alloc(), manner.features, bytes, &answer)?;
        let words = Words {
            answer: &answer,
            keyword: name.as_str(),
            cause: why.as_str(),
        };
        let line = answer_object(rt.alloc(), path, words)?;
        return write_to(rt, None, line.as_slice());
    }
    let words = words(rt.alloc(), manner.features, bytes, &answer)?;
    Ok(println!(rt; "{path}: {words}")?)
}

/// Shows the sums.
fn show_sums(rt: &HostRuntime, manner: Manner, sums: &Sums) -> Result<(), Failure> {
    if manner.is_json {
        let line = sums_object(rt.alloc(), sums)?;
        return write_to(rt, None, line.as_slice());
    }
    Ok(println!(rt; "{sums}")?)
}
