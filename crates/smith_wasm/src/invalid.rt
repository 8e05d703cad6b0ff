use crate::configuration::{check_config, config_of};
use crate::corpus::{NO_MEMORY, empty_input, word_failure, write_numbered};
use crate::failure::Failure;
use crate::files::{make_folder, read_from, shows_output, write_to, write_whole_file};
use crate::index::{HEADER, index_line};
use crate::request::{Request, config_text, path_of};
use crate::shapes::Shapes;
use crate::warnings::warn;
use crate::words::{COUNT, FAMILIES, INPUT, OUTPUT, OUTPUT_DIR, SEED, TWINS};
use clap::ArgMatches;
use rand_core::{Rng, SeedableRng};
use rand_xoshiro::Xoshiro256PlusPlus;
use smith_bytes::Unstructured;
use smith_request::{Additions, Form, Manner, Refusal};
use smith_wrong::{Family, Wrong, WrongRefusal};
use std::alloc::Global;

/// What is requested of invalid files.
#[derive(Clone, Copy)]
struct InvalidRequest<'a, 'm, 'w> {
    request: &'a Request<'m, 'w>,
    families: &'a [Family],
}

/// What is made of a corpus of invalid files.
#[derive(Drop)]
struct Corpus {
    /// The number of files that are written, twins aside.
    written: u32,
    /// The number of bytes in them.
    bytes: u64,
    /// The number of inputs of which no change that was tried breaks a rule.
    unchanged: u32,
    /// The number of inputs that were refused.
    refused: u32,
    /// The lines of the index.
    index: String,
}

/// Writes the invalid file, or the corpus of invalid files, that `matches` requests.
pub(crate) fn make_invalid(rt: &HostRuntime, matches: &ArgMatches<'_>) -> Result<(), Failure> {
    let families = families_of(rt.alloc(), matches)?;
    let (config, paths) = config_text(rt, matches)?;
    let shapes = Shapes::read(rt, matches, &paths)?;
    let request = Request {
        matches,
        config,
        manner: Manner {
            form: Form::Binary,
            additions: Additions {
                fuel: None,
                is_observed: false,
            },
        },
        shapes,
    };
    let asked = InvalidRequest {
        request: &request,
        families: families.as_slice(),
    };
    make(rt, &asked)
}

/// Makes the file or the corpus that `asked` requests, after the warnings.
fn make(rt: &HostRuntime, asked: &InvalidRequest<'_, '_, '_>) -> Result<(), Failure> {
    warn(rt, asked.request)?;
    match asked.request.matches.get_str(OUTPUT_DIR) {
        Some(folder) => make_corpus(rt, asked, folder),
        None => make_one(rt, asked),
    }
}

/// Returns the families that the words select: all, or those that are named.
fn families_of(alloc: Global, matches: &ArgMatches<'_>) -> Result<Vec<Family>, Failure> {
    let Some(names) = matches.get_str(FAMILIES) else {
        return Ok(Vec::from_slice(alloc, &Family::ALL)?);
    };
    let mut families = Vec::new(alloc);
    for name in names.split(',') {
        match Family::from_name(name) {
            Some(family) => families.push(family)?,
            None => return Err(unknown_family(alloc, name)),
        }
    }
    Ok(families)
}

/// Returns the failure of a name that is no family.
fn unknown_family(alloc: Global, name: &str) -> Failure {
    match list_families(alloc, name) {
        Ok(sentence) => Failure::Word(sentence),
        Err(failure) => failure,
    }
}

/// Returns the sentence that `name` is no family, with the names of all.
fn list_families(alloc: Global, name: &str) -> Result<String, Failure> {
    let mut sentence = format!(in alloc; "{name:?} is no family. The families are")?;
    let mut sign = "";
    for family in Family::ALL {
        sentence.push_str(sign)?;
        sentence.push(' ')?;
        sentence.push_str(family.name())?;
        sign = ",";
    }
    Ok(sentence)
}

/// Makes the invalid file of the input, and writes it.
fn make_one(rt: &HostRuntime, asked: &InvalidRequest<'_, '_, '_>) -> Result<(), Failure> {
    let matches = asked.request.matches;
    let path = path_of(matches, OUTPUT);
    if path.is_none() && shows_output(rt) {
        return Err(Failure::InvalidTerminal);
    }
    let input = read_from(rt, path_of(matches, INPUT))?;
    let wrong = wrong_of(rt.alloc(), asked, input.as_slice())?;
    write_to(rt, path, wrong.file.as_slice())
}

/// Makes the invalid file of `input`.
fn wrong_of(
    alloc: Global,
    asked: &InvalidRequest<'_, '_, '_>,
    input: &[u8],
) -> Result<Wrong, Failure> {
    let mut u = Unstructured::new(input);
    let config = config_of(alloc, asked.request, &mut u)?;
    match Wrong::new(alloc, config, asked.families, &mut u) {
        Ok(wrong) => Ok(wrong),
        Err(refusal) => Err(failure_of(refusal)),
    }
}

fn failure_of(refusal: WrongRefusal) -> Failure {
    match refusal {
        WrongRefusal::NoChange => Failure::NoChange,
        refusal => Failure::Refused(Refusal::from(refusal)),
    }
}

/// Writes the invalid files of random inputs into the folder `folder`, each named by its number, and after
/// them an index. Writes no file for an input that is refused, or of which no change breaks a rule; a file
/// of that name from before stays. At the end a line on standard error counts.
fn make_corpus(
    rt: &HostRuntime,
    asked: &InvalidRequest<'_, '_, '_>,
    folder: &str,
) -> Result<(), Failure> {
    let Some(count) = asked.request.matches.get_one::<u32>(COUNT) else {
        return Err(word_failure(rt, "--output-dir needs --count"));
    };
    if folder.is_empty() {
        return Err(word_failure(rt, "--output-dir names no folder"));
    }
    check_config(rt.alloc(), asked.request)?;
    make_folders(rt, asked, folder)?;
    let mut corpus = Corpus {
        written: 0,
        bytes: 0,
        unchanged: 0,
        refused: 0,
        index: String::from_str(rt.alloc(), HEADER)?,
    };
    let made = make_each(rt, asked, folder, count, &mut corpus);
    write_index(rt, folder, &corpus)?;
    show_counts(rt, &corpus)?;
    made
}

/// Creates the folder `folder`, and the one of the twins if they are requested.
fn make_folders(
    rt: &HostRuntime,
    asked: &InvalidRequest<'_, '_, '_>,
    folder: &str,
) -> Result<(), Failure> {
    if !asked.request.matches.get_flag(TWINS) {
        return make_folder(rt, folder);
    }
    let twins = format!(in rt.alloc(); "{folder}/twins")?;
    make_folder(rt, twins.as_str())
}

/// Makes the invalid files of `count` random inputs, and keeps in `corpus` what became of them.
fn make_each(
    rt: &HostRuntime,
    asked: &InvalidRequest<'_, '_, '_>,
    folder: &str,
    count: u32,
    corpus: &mut Corpus,
) -> Result<(), Failure> {
    let seed = asked.request.matches.get_one::<u32>(SEED).unwrap_or(0);
    let mut random = Xoshiro256PlusPlus::seed_from_u64(u64::from(seed));
    let mut input = empty_input(rt, asked.request)?;
    for number in 0..count {
        random.fill_bytes(input.as_mut_slice());
        make_next(rt, asked, folder, number, input.as_slice(), corpus)?;
    }
    Ok(())
}

/// Writes the invalid file of `input` as the file of the number `number`, and keeps in `corpus` what became
/// of it. Lack of memory is a failure.
fn make_next(
    rt: &HostRuntime,
    asked: &InvalidRequest<'_, '_, '_>,
    folder: &str,
    number: u32,
    input: &[u8],
    corpus: &mut Corpus,
) -> Result<(), Failure> {
    match wrong_of(rt.alloc(), asked, input) {
        Ok(wrong) => write_wrong(rt, asked, folder, number, &wrong, corpus),
        Err(Failure::NoChange) => {
            corpus.unchanged = corpus.unchanged.saturating_add(1);
            Ok(())
        }
        Err(Failure::Refused(refusal)) => count_refusal(refusal, corpus),
        Err(failure) => Err(failure),
    }
}

/// Counts an input that is refused, unless memory ran out.
fn count_refusal(refusal: Refusal, corpus: &mut Corpus) -> Result<(), Failure> {
    if refusal.status() == NO_MEMORY {
        return Err(Failure::Refused(refusal));
    }
    drop(refusal);
    corpus.refused = corpus.refused.saturating_add(1);
    Ok(())
}

/// Writes `wrong` as the file of the number `number`, with its twin if that is requested, and its line of
/// the index.
fn write_wrong(
    rt: &HostRuntime,
    asked: &InvalidRequest<'_, '_, '_>,
    folder: &str,
    number: u32,
    wrong: &Wrong,
    corpus: &mut Corpus,
) -> Result<(), Failure> {
    write_numbered(rt, folder, number, "wasm", wrong.file.as_slice())?;
    let has_twin = asked.request.matches.get_flag(TWINS);
    if has_twin {
        let twins = format!(in rt.alloc(); "{folder}/twins")?;
        write_numbered(rt, twins.as_str(), number, "wasm", wrong.twin.as_slice())?;
    }
    let line = index_line(rt.alloc(), number, wrong, has_twin)?;
    corpus.index.push_str(line.as_str())?;
    corpus.written = corpus.written.saturating_add(1);
    corpus.bytes = corpus.bytes.saturating_add(wrong.file.len() as u64);
    Ok(())
}

fn write_index(rt: &HostRuntime, folder: &str, corpus: &Corpus) -> Result<(), Failure> {
    let path = format!(in rt.alloc(); "{folder}/index.tsv")?;
    write_whole_file(rt, path.as_str(), corpus.index.as_bytes())
}

/// Shows how many files and bytes were written, and of how many inputs there is no file.
fn show_counts(rt: &HostRuntime, corpus: &Corpus) -> Result<(), Failure> {
    let (written, bytes) = (corpus.written, corpus.bytes);
    let (unchanged, refused) = (corpus.unchanged, corpus.refused);
    eprintln!(rt;
        "smith_wasm: {written} invalid files written, {bytes} bytes, {unchanged} inputs without a change, {refused} inputs refused"
    )?;
    Ok(())
}
