use crate::failure::Failure;
use crate::fields::{Field, fields};
use crate::warnings::has_no_effect;
use clap::{Arg, ArgAction, Command, value_parser};
use smith_config_json::{FieldKind, kind_of};
use std::alloc::Global;

/// The version of the program, the library for C and its callers. Versions with the same second
/// number produce the same file of the same configuration and bytes.
const VERSION: &str = "0.11.0";

/// The command that prints a file.
pub(crate) const PRINT: &str = "print";
/// The command that judges files.
pub(crate) const CHECK: &str = "check";
/// The word of the files that are judged.
pub(crate) const FILES: &str = "files";
/// The word of answers in JSON.
pub(crate) const JSON: &str = "json";
/// The word of sums in place of answers.
pub(crate) const QUIET: &str = "quiet";
/// The command that prints the shape of a file.
pub(crate) const SHAPE: &str = "shape";
/// The command that makes invalid files.
pub(crate) const INVALID: &str = "invalid";
/// The word of the families of changes.
pub(crate) const FAMILIES: &str = "families";
/// The word of the valid files beside invalid ones.
pub(crate) const TWINS: &str = "twins";
/// The word of the imports to choose from.
pub(crate) const AVAILABLE_IMPORTS: &str = "available-imports";
/// The word of the exports of a module.
pub(crate) const EXPORTS: &str = "exports";
/// The word of the imports and exports of a module.
pub(crate) const MODULE_SHAPE: &str = "module-shape";
/// The word of the file that is printed.
pub(crate) const FILE: &str = "file";
/// The word of the input.
pub(crate) const INPUT: &str = "input";
/// The word of the file that is written.
pub(crate) const OUTPUT: &str = "output";
/// The word of the text format.
pub(crate) const WAT: &str = "wat";
/// The word of the notes that follow a text.
pub(crate) const NOTES: &str = "notes";
/// The word of the configuration file.
pub(crate) const CONFIG: &str = "config";
/// The word of a preset.
pub(crate) const PRESET: &str = "preset";
/// The word of a drawn configuration.
pub(crate) const ARBITRARY: &str = "arbitrary";
/// The word of counted calls and loops.
pub(crate) const ENSURE_TERMINATION: &str = "ensure-termination";
/// The word of the number of calls and iterations.
pub(crate) const FUEL: &str = "fuel";
/// The word of the export of the counter.
pub(crate) const FUEL_EXPORT: &str = "fuel-export";
/// The word of the sinks of the values of locals.
pub(crate) const OBSERVE: &str = "observe";
/// The word of the number of modules of a corpus.
pub(crate) const COUNT: &str = "count";
/// The word of the number of files of a corpus.
pub(crate) const UNTIL: &str = "until";
/// The word of the seed of a corpus.
pub(crate) const SEED: &str = "seed";
/// The word of the length of the inputs of a corpus.
pub(crate) const SIZE: &str = "size";
/// The word of the folder of a corpus.
pub(crate) const OUTPUT_DIR: &str = "output-dir";
/// The word of the inputs of a corpus.
pub(crate) const INPUTS: &str = "inputs";
/// The word of a line for each refused input.
pub(crate) const VERBOSE: &str = "verbose";

/// The value of a word.
#[derive(Clone, Copy)]
enum Takes {
    /// Nothing.
    Nothing,
    /// A text of this name.
    Text(&'static str),
    /// A number below 2^32.
    Number,
}

/// A word of the command line that is not a field of the configuration.
struct Word {
    name: &'static str,
    short: Option<char>,
    takes: Takes,
    // The word that it requires.
    needs: Option<&'static str>,
    // The words that it excludes.
    excludes: &'static [&'static str],
    about: &'static str,
}

/// What the file that is written is.
const OUTPUT_ABOUT: &str = "Writes to this file; to standard output if it is - or omitted.";

/// What the command prints.
const PRINT_ABOUT: &str = "Prints the module of a file in the binary format as text.";

/// What the command judges.
const CHECK_ABOUT: &str =
    "Says whether files are valid modules, and if not, where and by which rule.";

/// Which files are judged.
const FILES_ABOUT: &str =
    "Files in the binary format, standard input if it is -, or folders, of which the files *.wasm are judged.";

/// The statuses of the command.
const CHECK_STATUS: &str =
    "The status is 0 if all files are valid, 1 if one isn't or isn't judged, and 2 if a word is wrong or a file can't be read.
All features are on unless a preset, the configuration file or a word turns them off.";

/// What the configuration file is.
const CONFIG_ABOUT: &str = "Reads the configuration from this file, a JSON object.";

/// What the command of invalid files makes.
const INVALID_ABOUT: &str =
    "Makes a file that is no valid module: a module of the input with one change that breaks a rule.";

/// What a corpus of invalid files has.
const INVALID_INDEX: &str =
    "A corpus has a line for each file in index.tsv: its name, the answer of `check`, the offset of the first fault, its rule, the family, and the twin.";

/// The words of the command that makes invalid files which are those of valid ones, too.
const SHARED_WORDS: [&str; 8] = [
    OUTPUT, CONFIG, PRESET, ARBITRARY, COUNT, SEED, SIZE, OUTPUT_DIR,
];

/// Its other words, its input and the fields aside.
#[rattlefmt::skip]
static INVALID_WORDS: [Word; 2] = [
    Word { name: FAMILIES, short: None, takes: Takes::Text("NAMES"), needs: None, excludes: &[],
        about: "The families of changes that are drawn, with commas between them. The default is all; a wrong name lists them." },
    Word { name: TWINS, short: None, takes: Takes::Nothing, needs: Some(OUTPUT_DIR), excludes: &[],
        about: "Writes the valid file from which each file of a corpus differs, too, into the folder twins." },
];

/// The words of the command that judges files, its files and the fields aside.
#[rattlefmt::skip]
static CHECK_WORDS: [Word; 4] = [
    Word { name: JSON, short: None, takes: Takes::Nothing, needs: None, excludes: &[],
        about: "Shows each answer as a JSON object in a line." },
    Word { name: QUIET, short: Some('q'), takes: Takes::Nothing, needs: None, excludes: &[],
        about: "Shows nothing but how many files have each answer." },
    Word { name: CONFIG, short: Some('c'), takes: Takes::Text("FILE"), needs: None, excludes: &[], about: CONFIG_ABOUT },
    Word { name: PRESET, short: None, takes: Takes::Text("NAME"), needs: None, excludes: &[], about: PRESET_ABOUT },
];
/// What the command prints of a shape.
const SHAPE_ABOUT: &str =
    "Prints the types, imports, definitions and exports of a file in the binary format as text.";

/// What a preset is, and the names of all.
const PRESET_ABOUT: &str =
    "Begins with a preset, before the configuration file and the fields below: \
run (modules without imports, whose functions can be called), mvp, 2.0 and 3.0 (versions of the standard), \
proposals, or what a tool accepts: wabt, binaryen, v8, spidermonkey, jsc.";

/// What the export of the counter is for, and its name.
const FUEL_EXPORT_ABOUT: &str =
    "Exports the global that counts, so that a caller can refill it, after all other exports: as `fuel`, \
or if an export has that name, as `fuel` and as many `_` as the longest name has bytes.";

/// What the sinks are for, and the names of their exports.
const OBSERVE_ABOUT: &str =
    "Mixes the values of locals into three globals where functions end, so that engines can be compared, and exports these \
after all other exports: as `sink_i32`, `sink_i64` and `sink_i64_2`, each with `_` after it if an export has that name, as after `fuel`. \
Also exports the global that counts.";

#[rattlefmt::skip]
static WORDS: [Word; 17] = [
    Word { name: OUTPUT, short: Some('o'), takes: Takes::Text("FILE"), needs: None, excludes: &[], about: OUTPUT_ABOUT },
    Word { name: WAT, short: Some('t'), takes: Takes::Nothing, needs: None, excludes: &[],
        about: "Writes the text format instead of the binary format." },
    Word { name: NOTES, short: None, takes: Takes::Nothing, needs: Some(WAT), excludes: &[],
        about: "Adds comments to a text: raw bodies, and values of interest to who runs the module." },
    Word { name: CONFIG, short: Some('c'), takes: Takes::Text("FILE"), needs: None, excludes: &[], about: CONFIG_ABOUT },
    Word { name: PRESET, short: None, takes: Takes::Text("NAME"), needs: None, excludes: &[], about: PRESET_ABOUT },
    Word { name: ARBITRARY, short: None, takes: Takes::Nothing, needs: None, excludes: &[],
        about: "Draws the configuration from the input first, then the module from the bytes left." },
    Word { name: ENSURE_TERMINATION, short: None, takes: Takes::Nothing, needs: None, excludes: &[],
        about: "Adds a global that counts calls and iterations of loops, so that each call ends." },
    Word { name: FUEL, short: Some('f'), takes: Takes::Number, needs: Some(ENSURE_TERMINATION), excludes: &[],
        about: "The number of calls and iterations before the module traps. The default is 100." },
    Word { name: FUEL_EXPORT, short: None, takes: Takes::Nothing, needs: Some(ENSURE_TERMINATION), excludes: &[],
        about: FUEL_EXPORT_ABOUT },
    Word { name: OBSERVE, short: None, takes: Takes::Nothing, needs: None, excludes: &[], about: OBSERVE_ABOUT },
    Word { name: COUNT, short: None, takes: Takes::Number, needs: Some(OUTPUT_DIR), excludes: &[INPUT, OUTPUT],
        about: "Makes a corpus of this number of pseudorandom inputs." },
    Word { name: UNTIL, short: None, takes: Takes::Number, needs: Some(OUTPUT_DIR), excludes: &[INPUT, OUTPUT, COUNT],
        about: "Makes a corpus of pseudorandom inputs until this number of modules is written." },
    Word { name: SEED, short: None, takes: Takes::Number, needs: Some(OUTPUT_DIR), excludes: &[],
        about: "The seed of the pseudorandom inputs. The default is 0." },
    Word { name: SIZE, short: None, takes: Takes::Number, needs: Some(OUTPUT_DIR), excludes: &[],
        about: "The length of each pseudorandom input in bytes. The default is 4096." },
    Word { name: OUTPUT_DIR, short: None, takes: Takes::Text("DIR"), needs: None, excludes: &[INPUT, OUTPUT],
        about: "Writes a corpus into this folder, each module in a file named by its number." },
    Word { name: INPUTS, short: None, takes: Takes::Nothing, needs: Some(OUTPUT_DIR), excludes: &[],
        about: "Writes the input of each module of a corpus, too, into a file of the same number that ends in .bin." },
    Word { name: VERBOSE, short: None, takes: Takes::Nothing, needs: Some(OUTPUT_DIR), excludes: &[],
        about: "Lists each refused input of a corpus." },
];

/// The end of the help.
const EXAMPLES: &str = "Examples:
  head -c 4096 /dev/urandom | smith_wasm --preset run --wat
  smith_wasm input.bin -o module.wasm --preset v8 --max-memories 1
  smith_wasm --output-dir corpus --until 1000 --preset wabt --seed 7
  smith_wasm print module.wasm
  smith_wasm check module.wasm
  smith_wasm invalid --output-dir wrong --count 1000 --twins
  smith_wasm shape library.wasm -o library.wat
  smith_wasm input.bin -o module.wasm --module-shape library.wat";

/// Creates the command line of the program.
pub(crate) fn command<'a>(alloc: Global) -> Result<Command<'a>, Failure> {
    let command = Command::new(alloc, "smith_wasm").version(VERSION).about(
        "Makes a valid WebAssembly module from the bytes of a file or of standard input.",
    );
    let command = command
        .after_help(EXAMPLES)
        .args_conflicts_with_subcommands(true)
        .disable_help_subcommand(true);
    let command = with_fields(alloc, with_words(alloc, command.arg(input_arg(alloc))?)?)?;
    let command = with_check(alloc, with_shape(alloc, with_print(alloc, command)?)?)?;
    with_invalid(alloc, command)
}

/// Returns the word of the input.
fn input_arg<'a>(alloc: Global) -> Arg<'a> {
    Arg::new(alloc, INPUT)
        .value_name("INPUT")
        .help("The input file; standard input if it is - or omitted.")
}

/// Adds the command that prints a file.
fn with_print<'a>(alloc: Global, command: Command<'a>) -> Result<Command<'a>, Failure> {
    match file_command(alloc, PRINT, PRINT_ABOUT) {
        Ok(print) => Ok(command.subcommand(print)?),
        Err(failure) => {
            drop(command);
            Err(failure)
        }
    }
}

/// Adds the command that prints the shape of a file.
fn with_shape<'a>(alloc: Global, command: Command<'a>) -> Result<Command<'a>, Failure> {
    match file_command(alloc, SHAPE, SHAPE_ABOUT) {
        Ok(shape) => Ok(command.subcommand(shape)?),
        Err(failure) => {
            drop(command);
            Err(failure)
        }
    }
}

/// Creates the command `name`, which prints a file.
fn file_command<'a>(
    alloc: Global,
    name: &'static str,
    about: &'static str,
) -> Result<Command<'a>, Failure> {
    let file = Arg::new(alloc, FILE)
        .value_name("FILE")
        .required(true)
        .help("The file; standard input if it is -.");
    let output = Arg::new(alloc, OUTPUT)
        .short('o')
        .long(OUTPUT)
        .value_name("FILE")
        .action(ArgAction::Set)
        .help(OUTPUT_ABOUT);
    let command = Command::new(alloc, name).about(about);
    Ok(command.arg(file)?.arg(output)?)
}

/// Adds the command that judges files.
fn with_check<'a>(alloc: Global, command: Command<'a>) -> Result<Command<'a>, Failure> {
    match check_command(alloc) {
        Ok(check) => Ok(command.subcommand(check)?),
        Err(failure) => {
            drop(command);
            Err(failure)
        }
    }
}

/// Creates the command that judges files.
fn check_command<'a>(alloc: Global) -> Result<Command<'a>, Failure> {
    let files = Arg::new(alloc, FILES)
        .value_name("FILE")
        .required(true)
        .num_args(1..)
        .action(ArgAction::Append)
        .help(FILES_ABOUT);
    let mut command = Command::new(alloc, CHECK)
        .about(CHECK_ABOUT)
        .after_help(CHECK_STATUS)
        .arg(files)?;
    for word in &CHECK_WORDS {
        command = with_word(alloc, command, word)?;
    }
    with_features(alloc, command)
}

/// Adds the command that makes invalid files.
fn with_invalid<'a>(alloc: Global, command: Command<'a>) -> Result<Command<'a>, Failure> {
    match invalid_command(alloc) {
        Ok(invalid) => Ok(command.subcommand(invalid)?),
        Err(failure) => {
            drop(command);
            Err(failure)
        }
    }
}

/// Creates the command that makes invalid files.
fn invalid_command<'a>(alloc: Global) -> Result<Command<'a>, Failure> {
    let mut command = Command::new(alloc, INVALID)
        .about(INVALID_ABOUT)
        .after_help(INVALID_INDEX)
        .arg(input_arg(alloc))?;
    for word in &WORDS {
        if SHARED_WORDS.contains(&word.name) {
            command = with_word(alloc, command, word)?;
        }
    }
    with_fields(alloc, with_invalid_words(alloc, command)?)
}

/// Adds the words that only the command of invalid files has.
fn with_invalid_words<'a>(alloc: Global, mut command: Command<'a>) -> Result<Command<'a>, Failure> {
    for word in &INVALID_WORDS {
        command = with_word(alloc, command, word)?;
    }
    Ok(command)
}

/// Adds a word for each field of the configuration that turns features on and off.
fn with_features<'a>(alloc: Global, mut command: Command<'a>) -> Result<Command<'a>, Failure> {
    for field in fields() {
        match kind_of(field.name) {
            Some(kind) if is_feature(field.name) => {
                let arg = field_arg(alloc, field, kind).help(without_default(field.about));
                command = command.arg(arg)?;
            }
            _ => {}
        }
    }
    Ok(command)
}

/// Returns whether the field `name` has an effect on the features of a file: several memories are one, and
/// `non-nullable-enabled` is about modules that are made.
fn is_feature(name: &str) -> bool {
    if name == "max-memories" {
        return true;
    }
    name.ends_with("-enabled") && name != "non-nullable-enabled" && !has_no_effect(name)
}

/// Returns `about` without the default of modules that are made.
fn without_default(about: &'static str) -> &'static str {
    match about.split_once(" The default ") {
        Some((front, _)) => front,
        None => about,
    }
}

/// Adds the words that are not fields.
fn with_words<'a>(alloc: Global, mut command: Command<'a>) -> Result<Command<'a>, Failure> {
    for word in &WORDS {
        command = with_word(alloc, command, word)?;
    }
    Ok(command)
}

/// Adds `word` to `command`.
fn with_word<'a>(
    alloc: Global,
    command: Command<'a>,
    word: &'static Word,
) -> Result<Command<'a>, Failure> {
    match arg_of(alloc, word) {
        Ok(arg) => Ok(command.arg(arg)?),
        Err(failure) => {
            drop(command);
            Err(failure)
        }
    }
}

fn arg_of<'a>(alloc: Global, word: &'static Word) -> Result<Arg<'a>, Failure> {
    let arg = with_value(Arg::new(alloc, word.name), word.takes)
        .long(word.name)
        .help(word.about);
    let arg = match word.short {
        Some(letter) => arg.short(letter),
        None => arg,
    };
    let arg = arg.conflicts_with_all(word.excludes)?;
    match word.needs {
        Some(other) => Ok(arg.requires_arg(other)?),
        None => Ok(arg),
    }
}

/// Returns `arg` with the value that it takes.
fn with_value<'a>(arg: Arg<'a>, takes: Takes) -> Arg<'a> {
    match takes {
        Takes::Nothing => arg.action(ArgAction::SetTrue),
        Takes::Text(name) => arg.value_name(name).action(ArgAction::Set),
        Takes::Number => arg
            .value_name("N")
            .value_parser(value_parser!(u32))
            .action(ArgAction::Set),
    }
}

/// Adds a word for each field of the configuration.
fn with_fields<'a>(alloc: Global, mut command: Command<'a>) -> Result<Command<'a>, Failure> {
    for field in fields() {
        match kind_of(field.name) {
            None => {}
            Some(kind) => command = command.arg(field_arg(alloc, field, kind))?,
        }
    }
    Ok(command)
}

fn field_arg<'a>(alloc: Global, field: &'static Field, kind: FieldKind) -> Arg<'a> {
    Arg::new(alloc, field.name)
        .long(field.name)
        .value_name(kind_name(kind))
        .help(field.about)
        .help_heading(heading_of(field.name))
        .action(ArgAction::Set)
}

/// Returns the group of the field `name` in the help.
fn heading_of(name: &str) -> &'static str {
    if has_no_effect(name) {
        return "Without effect here";
    }
    if name.starts_with("min-") || name.starts_with("max-") {
        return "Numbers of the configuration";
    }
    if name.ends_with("-enabled") {
        return "Features of the configuration";
    }
    "Rules of the configuration"
}

/// Returns the name of the values of a field.
fn kind_name(kind: FieldKind) -> &'static str {
    match kind {
        FieldKind::Whole(_) => "NUMBER",
        FieldKind::Flag => "true|false",
        FieldKind::InstructionKinds => "NAMES",
        FieldKind::OffsetChoices => "INSIDE,NEAR,FAR",
        FieldKind::File => "FILE",
        FieldKind::Preset => "NAME",
    }
}
