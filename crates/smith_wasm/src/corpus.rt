use crate::configuration::check_config;
use crate::counts::{Counts, KINDS};
use crate::failure::Failure;
use crate::files::{make_folder, write_whole_file};
use crate::request::{Made, Request, module_of};
use crate::words::{COUNT, INPUTS, SEED, SIZE, UNTIL, VERBOSE};
use rand_core::{Rng, SeedableRng};
use rand_xoshiro::Xoshiro256PlusPlus;
use smith_request::{Form, Refusal};
use std::io::IsTerminal;

// The default length of an input.
const DEFAULT_SIZE: u32 = 4096;

/// The number of a refusal for lack of memory.
pub(crate) const NO_MEMORY: u32 = 2;

// The number of inputs from one bar of progress to the next.
const STRIDE: u32 = 256;

// The length of a bar of progress in characters.
const BAR: u32 = 20;

// The number of refused inputs in a row after which a corpus of a number of files ends.
const PATIENCE: u32 = 10_000;

/// The end of a corpus.
#[derive(Clone, Copy)]
enum End {
    /// After this number of inputs.
    Inputs(u32),
    /// After this number of files.
    Files(u32),
}

/// What is made of a corpus.
#[derive(Drop)]
struct Corpus {
    /// The number of modules that are written.
    written: u32,
    /// The number of bytes in them.
    bytes: u64,
    /// The counts of their bodies.
    counts: Counts,
    /// The number of inputs that were refused since the last module was written.
    in_a_row: u32,
    /// The number of each refused input, and why it is refused.
    refusals: Vec<(u32, Refusal)>,
}

/// A reason for which inputs are refused.
#[derive(Drop)]
struct Reason {
    /// The reason in words.
    words: String,
    /// The number of inputs.
    inputs: u32,
}

/// Writes the modules of random inputs into the folder `folder`, each named by its number, until the
/// requested number of inputs or files is reached, after the configuration has passed its check.
/// Writes no file for an input that is refused; a file of that name from before stays. At the end,
/// or after a failure, standard error has a line for each reason of refusals, or for each refused
/// input if a word selects that, and two last lines that count.
pub(crate) fn make_corpus(
    rt: &HostRuntime,
    asked: &Request<'_, '_>,
    folder: &str,
) -> Result<(), Failure> {
    let end = end_of(rt, asked)?;
    if folder.is_empty() {
        return Err(word_failure(rt, "--output-dir names no folder"));
    }
    check_config(rt.alloc(), asked)?;
    make_folder(rt, folder)?;
    let mut corpus = Corpus {
        written: 0,
        bytes: 0,
        counts: Counts::none(),
        in_a_row: 0,
        refusals: Vec::new(rt.alloc()),
    };
    let made = make_each(rt, asked, folder, end, &mut corpus);
    end_progress(rt, end)?;
    if asked.matches.get_flag(VERBOSE) {
        show_refusals(rt, &corpus)?;
    } else {
        show_reasons(rt, &corpus)?;
    }
    show_counts(rt, &corpus)?;
    made
}

/// Returns the failure of words that do not fit together.
pub(crate) fn word_failure(rt: &HostRuntime, sentence: &str) -> Failure {
    match String::from_str(rt.alloc(), sentence) {
        Ok(sentence) => Failure::Word(sentence),
        Err(refused) => Failure::from(refused),
    }
}

/// Returns the end of the corpus that the words select.
fn end_of(rt: &HostRuntime, asked: &Request<'_, '_>) -> Result<End, Failure> {
    let inputs = asked.matches.get_one::<u32>(COUNT);
    let files = asked.matches.get_one::<u32>(UNTIL);
    match (inputs, files) {
        (Some(count), _) => Ok(End::Inputs(count)),
        (None, Some(count)) => Ok(End::Files(count)),
        (None, None) => Err(word_failure(rt, "--output-dir needs --count or --until")),
    }
}

/// Returns whether the corpus is whole after the inputs below `number`.
fn is_whole(end: End, number: u32, corpus: &Corpus) -> bool {
    match end {
        End::Inputs(count) => number >= count,
        End::Files(count) => corpus.written >= count,
    }
}

/// Makes the modules of random inputs up to `end`, and keeps in `corpus` what became of them.
fn make_each(
    rt: &HostRuntime,
    asked: &Request<'_, '_>,
    folder: &str,
    end: End,
    corpus: &mut Corpus,
) -> Result<(), Failure> {
    let seed = asked.matches.get_one::<u32>(SEED).unwrap_or(0);
    let mut random = Xoshiro256PlusPlus::seed_from_u64(u64::from(seed));
    let mut input = empty_input(rt, asked)?;
    for number in 0..u32::MAX {
        if is_whole(end, number, corpus) {
            break;
        }
        random.fill_bytes(input.as_mut_slice());
        make_next(rt, asked, folder, number, input.as_slice(), corpus)?;
        if matches!(end, End::Files(_)) && corpus.in_a_row >= PATIENCE {
            return Err(word_failure(rt, "10000 inputs in a row are refused"));
        }
        show_progress(rt, number, end, corpus)?;
    }
    Ok(())
}

/// Writes the module of `input` as the file of the number `number`, and keeps in `corpus` what became
/// of it.
fn make_next(
    rt: &HostRuntime,
    asked: &Request<'_, '_>,
    folder: &str,
    number: u32,
    input: &[u8],
    corpus: &mut Corpus,
) -> Result<(), Failure> {
    match write_module(rt, asked, folder, number, input)? {
        Written::Refused(refusal) => {
            corpus.refusals.push((number, refusal))?;
            corpus.in_a_row = corpus.in_a_row.saturating_add(1);
        }
        Written::Module(length, counts) => {
            corpus.written = corpus.written.saturating_add(1);
            corpus.bytes = corpus.bytes.saturating_add(length as u64);
            corpus.counts.add(&counts);
            corpus.in_a_row = 0;
        }
    }
    Ok(())
}

/// Shows each refused input with its refusal.
fn show_refusals(rt: &HostRuntime, corpus: &Corpus) -> Result<(), Failure> {
    for (number, refusal) in &corpus.refusals {
        eprintln!(rt; "smith_wasm: input {number}: refused: {refusal}")?;
    }
    Ok(())
}

/// Shows for each reason how many inputs are refused for it.
fn show_reasons(rt: &HostRuntime, corpus: &Corpus) -> Result<(), Failure> {
    let mut reasons: Vec<Reason> = Vec::new(rt.alloc());
    for (_, refusal) in &corpus.refusals {
        let words = format!(in rt.alloc(); "{refusal}")?;
        add_reason(&mut reasons, words)?;
    }
    for reason in &reasons {
        let (inputs, words) = (reason.inputs, reason.words.as_str());
        eprintln!(rt; "smith_wasm: inputs refused: {inputs}: {words}")?;
    }
    Ok(())
}

/// Counts an input that is refused for the reason `words`.
fn add_reason(reasons: &mut Vec<Reason>, words: String) -> Result<(), Failure> {
    for reason in reasons.iter_mut() {
        if reason.words.as_str() == words.as_str() {
            reason.inputs = reason.inputs.saturating_add(1);
            return Ok(());
        }
    }
    reasons.push(Reason { words, inputs: 1 })?;
    Ok(())
}

/// Shows how many modules and bytes were written, how many inputs were refused, and what is in the
/// bodies.
fn show_counts(rt: &HostRuntime, corpus: &Corpus) -> Result<(), Failure> {
    let (written, bytes, refused) = (corpus.written, corpus.bytes, corpus.refusals.len());
    eprintln!(rt;
        "smith_wasm: {written} modules written, {bytes} bytes, {refused} inputs refused"
    )?;
    let functions = corpus.counts.functions;
    eprint!(rt; "smith_wasm: {functions} functions with instructions")?;
    let mut sign = ':';
    for (kind, count) in KINDS.iter().zip(corpus.counts.instructions.iter()) {
        if *count > 0 {
            eprint!(rt; "{sign} {count} {kind}")?;
            sign = ',';
        }
    }
    eprintln!(rt)?;
    Ok(())
}

/// Makes room for an input of the requested length.
pub(crate) fn empty_input(rt: &HostRuntime, asked: &Request<'_, '_>) -> Result<Vec<u8>, Failure> {
    let size = asked.matches.get_one::<u32>(SIZE).unwrap_or(DEFAULT_SIZE);
    Ok(vec![in rt.alloc(); 0; size as usize]?)
}

/// What became of an input.
#[derive(Drop)]
enum Written {
    /// A file of this number of bytes, with bodies of these counts.
    Module(usize, Counts),
    /// No file, for this reason.
    Refused(Refusal),
}

/// Writes the module of `input` as the file of the number `number`, and `input` beside it if a word
/// selects that, unless `input` is refused. Lack of memory is a failure.
fn write_module(
    rt: &HostRuntime,
    asked: &Request<'_, '_>,
    folder: &str,
    number: u32,
    input: &[u8],
) -> Result<Written, Failure> {
    match module_of(rt.alloc(), asked, input) {
        Ok(Made { bytes, counts }) => {
            let ending = ending_of(asked.manner.form);
            write_numbered(rt, folder, number, ending, bytes.as_slice())?;
            if asked.matches.get_flag(INPUTS) {
                write_numbered(rt, folder, number, "bin", input)?;
            }
            Ok(Written::Module(bytes.len(), counts))
        }
        Err(failure) => unless_refused(failure),
    }
}

/// Writes `bytes` as the file of the number `number` with the extension `ending`.
pub(crate) fn write_numbered(
    rt: &HostRuntime,
    folder: &str,
    number: u32,
    ending: &str,
    bytes: &[u8],
) -> Result<(), Failure> {
    let path = format!(in rt.alloc(); "{folder}/{number}.{ending}")?;
    write_whole_file(rt, path.as_str(), bytes)
}

/// Returns a refusal as what became of an input, and any other failure as it is.
fn unless_refused(failure: Failure) -> Result<Written, Failure> {
    match failure {
        Failure::Refused(refusal) => unless_no_memory(refusal),
        other => Err(other),
    }
}

/// Returns `refusal` as what became of an input, unless memory ran out.
fn unless_no_memory(refusal: Refusal) -> Result<Written, Failure> {
    if refusal.status() == NO_MEMORY {
        return Err(Failure::Refused(refusal));
    }
    Ok(Written::Refused(refusal))
}

fn ending_of(form: Form) -> &'static str {
    match form {
        Form::Binary => "wasm",
        Form::Text(_) => "wat",
    }
}

/// Shows on a terminal, at every 256th input, how much of the corpus is made.
fn show_progress(rt: &HostRuntime, number: u32, end: End, corpus: &Corpus) -> Result<(), Failure> {
    if number % STRIDE != 0 || !rt.stderr().is_terminal() {
        return Ok(());
    }
    match end {
        End::Inputs(count) => show_bar(rt, number, count),
        End::Files(count) => show_bar(rt, corpus.written, count),
    }
}

/// Shows a bar for `done` of `count` in place of the last bar.
fn show_bar(rt: &HostRuntime, done: u32, count: u32) -> Result<(), Failure> {
    let filled = u64::from(done) * u64::from(BAR) / u64::from(count).max(1);
    eprint!(rt; "\r[")?;
    for place in 0..u64::from(BAR) {
        eprint!(rt; "{}", if place < filled { '#' } else { '.' })?;
    }
    eprint!(rt; "] {done} of {count}")?;
    Ok(())
}

/// Ends the line of the bar.
fn end_progress(rt: &HostRuntime, end: End) -> Result<(), Failure> {
    let count = match end {
        End::Inputs(count) | End::Files(count) => count,
    };
    if count > 0 && rt.stderr().is_terminal() {
        eprintln!(rt)?;
    }
    Ok(())
}
