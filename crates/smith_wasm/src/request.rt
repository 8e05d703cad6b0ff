use crate::configuration::config_of;
use crate::corpus::make_corpus;
use crate::counts::Counts;
use crate::failure::Failure;
use crate::files::{read_from, read_text, shows_output, write_to};
use crate::paths::{NO_PATHS, Paths, take_paths};
use crate::shapes::Shapes;
use crate::warnings::warn;
use crate::words::{
    CONFIG, ENSURE_TERMINATION, FUEL, FUEL_EXPORT, INPUT, NOTES, OBSERVE, OUTPUT, OUTPUT_DIR, WAT,
};
use clap::ArgMatches;
use smith_bytes::Unstructured;
use smith_program::Program;
use smith_request::{Additions, Form, Fuel, Layout, Manner, write_program};
use std::alloc::{AllocError, Global};

// The mark that some editors write at the beginning of a text.
const BYTE_ORDER_MARK: char = '\u{FEFF}';

// The default number of allowed calls and iterations of loops.
const DEFAULT_FUEL: u32 = 100;

/// The request of the command line.
#[derive(Drop)]
pub(crate) struct Request<'m, 'w> {
    /// The words of the command line.
    pub(crate) matches: &'m ArgMatches<'w>,
    /// The text of the configuration file, if there is one.
    pub(crate) config: Option<String>,
    /// The manner of writing modules.
    pub(crate) manner: Manner,
    /// The shapes of the configuration.
    pub(crate) shapes: Shapes,
}

/// Makes the modules that `matches` requests.
pub(crate) fn answer(rt: &HostRuntime, matches: &ArgMatches<'_>) -> Result<(), Failure> {
    let (config, paths) = config_text(rt, matches)?;
    let manner = manner_of(rt, matches, &config)?;
    let shapes = Shapes::read(rt, matches, &paths)?;
    let asked = Request {
        matches,
        config,
        manner,
        shapes,
    };
    make(rt, &asked)
}

/// Reads the text of the configuration file, if there is one, without a byte order mark and without the
/// paths of shapes, and these paths.
pub(crate) fn config_text(
    rt: &HostRuntime,
    matches: &ArgMatches<'_>,
) -> Result<(Option<String>, Paths), Failure> {
    let Some(path) = matches.get_str(CONFIG) else {
        return Ok((None, NO_PATHS));
    };
    let mut text = unmarked(rt.alloc(), read_text(rt, path)?)?;
    let paths = take_paths(rt.alloc(), path, &mut text)?;
    Ok((Some(text), paths))
}

/// Returns `text` without a byte order mark.
fn unmarked(alloc: Global, text: String) -> Result<String, AllocError> {
    match text.as_str().strip_prefix(BYTE_ORDER_MARK) {
        Some(rest) => String::from_str(alloc, rest),
        None => Ok(text),
    }
}

/// Makes the module or the corpus that `asked` requests, after the warnings.
fn make(rt: &HostRuntime, asked: &Request<'_, '_>) -> Result<(), Failure> {
    warn(rt, asked)?;
    match asked.matches.get_str(OUTPUT_DIR) {
        Some(folder) => make_corpus(rt, asked, folder),
        None => make_one(rt, asked),
    }
}

/// Makes the module of the input, and writes it.
fn make_one(rt: &HostRuntime, asked: &Request<'_, '_>) -> Result<(), Failure> {
    let path = path_of(asked.matches, OUTPUT);
    if asked.manner.form == Form::Binary && path.is_none() && shows_output(rt) {
        return Err(Failure::Terminal);
    }
    let input = read_from(rt, path_of(asked.matches, INPUT))?;
    let Made { bytes, counts: _ } = module_of(rt.alloc(), asked, input.as_slice())?;
    write_to(rt, path, bytes.as_slice())
}

/// A module that was made.
#[derive(Drop)]
pub(crate) struct Made {
    /// The bytes to write.
    pub(crate) bytes: Vec<u8>,
    /// The counts of the bodies.
    pub(crate) counts: Counts,
}

/// Makes the module of `input`.
pub(crate) fn module_of(
    alloc: Global,
    asked: &Request<'_, '_>,
    input: &[u8],
) -> Result<Made, Failure> {
    let mut u = Unstructured::new(input);
    let config = config_of(alloc, asked, &mut u)?;
    let program = Program::new(alloc, config, &mut u)?;
    let counts = Counts::of(&program);
    let bytes = write_program(alloc, program, asked.manner, &u)?;
    Ok(Made { bytes, counts })
}

/// Returns the path that the word `name` is, unless it is a dash or omitted.
pub(crate) fn path_of<'w>(matches: &ArgMatches<'w>, name: &str) -> Option<&'w str> {
    match matches.get_str(name) {
        Some("-") => None,
        path => path,
    }
}

/// Returns the manner of writing that the words and the text `config` of the configuration file
/// select.
fn manner_of(
    rt: &HostRuntime,
    matches: &ArgMatches<'_>,
    config: &Option<String>,
) -> Result<Manner, Failure> {
    let form = match (matches.get_flag(WAT), matches.get_flag(NOTES)) {
        (false, _) => Form::Binary,
        (true, false) => Form::Text(Layout::Signatures),
        (true, true) => Form::Text(Layout::Notes),
    };
    let in_file = match config {
        Some(text) => read_additions(rt.alloc(), text.as_str())?,
        None => NO_ADDITIONS,
    };
    Ok(Manner {
        form,
        additions: additions_of(matches, in_file),
    })
}

/// What the text of a configuration file adds to a program.
#[derive(Clone, Copy)]
struct FileAdditions {
    fuel: Option<u32>,
    is_fuel_exported: bool,
    is_observed: bool,
}

// The additions without a configuration file.
const NO_ADDITIONS: FileAdditions = FileAdditions {
    fuel: None,
    is_fuel_exported: false,
    is_observed: false,
};

/// Finds what `text`, that of the configuration file, adds to a program.
fn read_additions(alloc: Global, text: &str) -> Result<FileAdditions, AllocError> {
    Ok(FileAdditions {
        fuel: smith_config_json::fuel(alloc, text)?,
        is_fuel_exported: smith_config_json::is_fuel_exported(alloc, text)?,
        is_observed: smith_config_json::is_observed(alloc, text)?,
    })
}

/// Returns what the words select to be added to a program, beside `in_file`, that of the
/// configuration file.
fn additions_of(matches: &ArgMatches<'_>, in_file: FileAdditions) -> Additions {
    let is_exported = in_file.is_fuel_exported || matches.get_flag(FUEL_EXPORT);
    let fuel = match amount_of(matches, in_file.fuel) {
        Some(amount) => Some(Fuel {
            amount,
            is_exported,
        }),
        None => None,
    };
    Additions {
        fuel,
        is_observed: in_file.is_observed || matches.get_flag(OBSERVE),
    }
}

/// Returns the number of calls and iterations that the words select. `in_file` is that of the
/// configuration file.
fn amount_of(matches: &ArgMatches<'_>, in_file: Option<u32>) -> Option<u32> {
    if !matches.get_flag(ENSURE_TERMINATION) {
        return in_file;
    }
    matches
        .get_one::<u32>(FUEL)
        .or(in_file)
        .or(Some(DEFAULT_FUEL))
}
