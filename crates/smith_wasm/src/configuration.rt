use crate::failure::Failure;
use crate::fields::fields;
use crate::request::Request;
use crate::shapes::check_shapes;
use crate::words::{ARBITRARY, CONFIG, PRESET};
use clap::ArgMatches;
use smith_bytes::{Error, Unstructured};
use smith_config::{Config, MemoryOffsetChoices};
use smith_config_json::{Fault, FieldKind, Preset, kind_of, preset_named, read_text};
use smith_types::{InstructionKinds, WasmFeatures};
use std::alloc::Global;
use std::str::FromStr;

/// Returns the configuration that `asked` requests: the default, or one drawn from the first bytes
/// of `u` if a word selects it, with the preset that is a word, the preset and the fields of the
/// configuration file, and then the fields that are words.
pub(crate) fn config_of(
    alloc: Global,
    asked: &Request<'_, '_>,
    u: &mut Unstructured<'_>,
) -> Result<Config, Failure> {
    let mut config = first_config(asked, u)?;
    set_fields(alloc, asked, &mut config).and(Ok(config))
}

/// Returns the configuration before its fields are set.
fn first_config(asked: &Request<'_, '_>, u: &mut Unstructured<'_>) -> Result<Config, Failure> {
    if !asked.matches.get_flag(ARBITRARY) {
        return Ok(Config::default());
    }
    match Config::arbitrary(u) {
        Ok(config) => Ok(config),
        Err(refusal) => Err(Failure::from(refusal)),
    }
}

/// Returns the default configuration with the presets and the fields that `asked` sets.
pub(crate) fn set_default(alloc: Global, asked: &Request<'_, '_>) -> Result<Config, Failure> {
    let mut config = Config::default();
    set_fields(alloc, asked, &mut config).and(Ok(config))
}

/// Returns the features by which files are judged: all that are known, changed by the preset that is a
/// word, `text`, that of the configuration file if there is one, and the fields that are words.
pub(crate) fn check_features(
    alloc: Global,
    matches: &ArgMatches<'_>,
    text: Option<String>,
) -> Result<WasmFeatures, Failure> {
    let mut config = Config::default();
    Preset::Proposals.apply(&mut config);
    let set = set_members(alloc, matches, &text, &mut config);
    drop(text);
    let features = config.features();
    drop(config);
    set.and(Ok(features))
}

/// Checks the configuration that `asked` requests. Of a drawn configuration, which depends on the
/// input, only the fields are checked that replace drawn ones.
pub(crate) fn check_config(alloc: Global, asked: &Request<'_, '_>) -> Result<(), Failure> {
    let mut config = Config::default();
    let checked = set_and_check(alloc, asked, &mut config);
    drop(config);
    checked
}

fn set_and_check(
    alloc: Global,
    asked: &Request<'_, '_>,
    config: &mut Config,
) -> Result<(), Failure> {
    set_fields(alloc, asked, config)?;
    if asked.matches.get_flag(ARBITRARY) {
        return Ok(());
    }
    config.sanitize();
    match config.check() {
        Ok(()) => check_shapes(alloc, config),
        Err(fault) => Err(Failure::from(Error::Config(fault))),
    }
}

/// Sets what the words and the configuration file name, and the shapes.
fn set_fields(alloc: Global, asked: &Request<'_, '_>, config: &mut Config) -> Result<(), Failure> {
    set_members(alloc, asked.matches, &asked.config, config)?;
    asked.shapes.set(alloc, config)
}

/// Applies the preset that is a word, sets what `text`, that of the configuration file, names, and then
/// the fields that are words.
fn set_members(
    alloc: Global,
    matches: &ArgMatches<'_>,
    text: &Option<String>,
    config: &mut Config,
) -> Result<(), Failure> {
    set_preset(alloc, matches, config)?;
    set_from_file(alloc, matches, text, config)?;
    set_from_words(alloc, matches, config)
}

/// Applies the preset that is a word, if there is one.
fn set_preset(alloc: Global, matches: &ArgMatches<'_>, config: &mut Config) -> Result<(), Failure> {
    let Some(name) = matches.get_str(PRESET) else {
        return Ok(());
    };
    match preset_named(name) {
        Some(preset) => {
            preset.apply(config);
            Ok(())
        }
        None => Err(wrong_value(alloc, PRESET, name)),
    }
}

/// Sets the fields that the configuration file names.
fn set_from_file(
    alloc: Global,
    matches: &ArgMatches<'_>,
    text: &Option<String>,
    config: &mut Config,
) -> Result<(), Failure> {
    let Some(text) = text else {
        return Ok(());
    };
    match read_text(alloc, text.as_str(), config) {
        Ok(()) => Ok(()),
        Err(refusal) => {
            if refusal.fault == Fault::OutOfMemory {
                return Err(Failure::from(Error::Memory));
            }
            let path = String::from_str(alloc, matches.get_str(CONFIG).unwrap_or(""))?;
            Err(Failure::Config(path, refusal.in_text(text.as_str())))
        }
    }
}

/// Sets the fields that are words.
fn set_from_words(
    alloc: Global,
    matches: &ArgMatches<'_>,
    config: &mut Config,
) -> Result<(), Failure> {
    for field in fields() {
        match matches.get_str(field.name) {
            Some(value) if !is_file(field.name) => set_from_word(alloc, field.name, value, config)?,
            _ => {}
        }
    }
    Ok(())
}

/// Returns whether the word `name` is a file of a shape.
fn is_file(name: &str) -> bool {
    kind_of(name) == Some(FieldKind::File)
}

/// Sets the field `name` to the value that the word `value` denotes.
fn set_from_word(
    alloc: Global,
    name: &str,
    value: &str,
    config: &mut Config,
) -> Result<(), Failure> {
    if is_set(alloc, name, value, config)? {
        return Ok(());
    }
    Err(wrong_value(alloc, name, value))
}

/// Returns the failure of a word `value` that is not a value of the word `name`.
fn wrong_value(alloc: Global, name: &str, value: &str) -> Failure {
    let wanted = wanted_values(name);
    match format!(in alloc; "{value:?} is not a value of --{name}, which takes {wanted}") {
        Ok(sentence) => Failure::Word(sentence),
        Err(_) => Failure::from(Error::Memory),
    }
}

/// Returns in words which values the word `name` takes.
fn wanted_values(name: &str) -> &'static str {
    match kind_of(name) {
        Some(FieldKind::Whole(8)) => "a whole number below 2^8",
        Some(FieldKind::Whole(32)) => "a whole number below 2^32",
        Some(FieldKind::Whole(128)) => "a whole number below 2^128",
        Some(FieldKind::Whole(_)) => "a whole number below 2^64",
        Some(FieldKind::Flag) => "true or false",
        Some(FieldKind::InstructionKinds) => {
            "names of kinds of instructions with commas between them, as --help lists them"
        }
        Some(FieldKind::OffsetChoices) => {
            "three whole numbers below 2^32 with commas between them, one of them above zero"
        }
        Some(FieldKind::File) | None => "no value",
        Some(FieldKind::Preset) => {
            "run, mvp, 2.0, 3.0, proposals, wabt, binaryen, v8, spidermonkey or jsc"
        }
    }
}

/// Sets the field `name` to the value that the word `value` denotes. Returns whether it denotes a
/// value of the field.
fn is_set(alloc: Global, name: &str, value: &str, config: &mut Config) -> Result<bool, Failure> {
    match kind_of(name) {
        Some(FieldKind::InstructionKinds) => Ok(is_kinds_set(value, config)),
        Some(FieldKind::OffsetChoices) => Ok(is_choices_set(value, config)),
        _ if is_plain(value) => is_plain_set(alloc, name, value, config),
        _ => Ok(false),
    }
}

/// Sets the field `name` to `value`, a word that JSON may know. Returns whether it is a value of the
/// field.
fn is_plain_set(
    alloc: Global,
    name: &str,
    value: &str,
    config: &mut Config,
) -> Result<bool, Failure> {
    let text = format!(in alloc; "{{\"{name}\":{value}}}")?;
    match read_text(alloc, text.as_str(), config) {
        Ok(()) => Ok(true),
        Err(refusal) => match refusal.fault {
            Fault::OutOfMemory => Err(Failure::from(Error::Memory)),
            _ => Ok(false),
        },
    }
}

/// Returns whether `value` is a whole number or a truth value as JSON writes them, or a word that
/// JSON doesn't know.
fn is_plain(value: &str) -> bool {
    value != "null" && value.bytes().all(|byte| byte.is_ascii_alphanumeric())
}

fn is_kinds_set(value: &str, config: &mut Config) -> bool {
    match InstructionKinds::from_str(value) {
        Ok(kinds) => {
            config.allowed_instructions = kinds;
            true
        }
        Err(_) => false,
    }
}

fn is_choices_set(value: &str, config: &mut Config) -> bool {
    match MemoryOffsetChoices::from_str(value) {
        Ok(choices) => {
            config.memory_offset_choices = choices;
            true
        }
        Err(_) => false,
    }
}
