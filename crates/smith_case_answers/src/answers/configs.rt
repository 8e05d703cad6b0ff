use crate::answer_lines::{equality, or_memory, write_check, write_line, write_refusal};
use smith_bytes::{Error, Unstructured};
use smith_case::Fault;
use smith_case::call::ConfigCall;
use smith_config::Config;
use smith_types::WasmFeatures;
use std::alloc::{AllocError, Global};

/// Appends the result of `call` on `config`.
pub(crate) fn answer_config(
    alloc: Global,
    call: ConfigCall,
    config: &mut Config,
    answer: &mut String,
) -> Result<(), Fault> {
    match call {
        ConfigCall::Clone => answer_copy(alloc, config, answer),
        ConfigCall::Check => write_check(check_config(config), answer),
        ConfigCall::Features => write_features(config.features(), answer),
        _ => {
            config.sanitize();
            write_config(config, answer)
        }
    }
}

/// Appends the configuration drawn from `input`, and its features.
pub(crate) fn answer_drawn_config(input: &[u8], answer: &mut String) -> Result<(), Fault> {
    match Config::arbitrary(&mut Unstructured::new(input)) {
        Ok(config) => {
            let told = write_all(&config, answer);
            drop(config);
            told
        }
        Err(refusal) => write_refusal(refusal, answer),
    }
}

// Appends `config` and its features.
fn write_all(config: &Config, answer: &mut String) -> Result<(), Fault> {
    write_config(config, answer)?;
    write_features(config.features(), answer)
}

// Appends whether a copy of `config` is equal: whether the shapes are, and whether both print the
// same for debugging.
fn answer_copy(alloc: Global, config: &Config, answer: &mut String) -> Result<(), Fault> {
    match config.clone(alloc) {
        Ok(copy) => {
            let told = write_equality(alloc, &copy, config, answer);
            drop(copy);
            told
        }
        Err(refusal) => write_refusal(refusal, answer),
    }
}

fn write_equality(
    alloc: Global,
    copy: &Config,
    config: &Config,
    answer: &mut String,
) -> Result<(), Fault> {
    match prints_the_same(alloc, copy, config) {
        Ok(is_same) => write_line(equality(is_same && has_same_shapes(copy, config)), answer),
        Err(_) => Err(Fault::Memory),
    }
}

fn prints_the_same(alloc: Global, copy: &Config, config: &Config) -> Result<bool, AllocError> {
    Ok(debug_text(alloc, copy)? == debug_text(alloc, config)?)
}

fn debug_text(alloc: Global, config: &Config) -> Result<String, AllocError> {
    format!(in alloc; "{config:?}")
}

fn has_same_shapes(copy: &Config, config: &Config) -> bool {
    copy.available_imports == config.available_imports
        && copy.exports == config.exports
        && copy.module_shape == config.module_shape
}

// Appends a line `FIELD: VALUE,` for each field.
fn write_config(config: &Config, answer: &mut String) -> Result<(), Fault> {
    or_memory(writeln!(answer, "{config:#?}"))
}

// Appends a line for each feature that is on.
fn write_features(features: WasmFeatures, answer: &mut String) -> Result<(), Fault> {
    for flag in WasmFeatures::FLAGS {
        if features.contains(*flag.value()) {
            write_line(flag.name(), answer)?;
        }
    }
    Ok(())
}

// Checks `config`.
fn check_config(config: &Config) -> Result<(), Error> {
    match config.check() {
        Ok(()) => Ok(()),
        Err(fault) => Err(Error::Config(fault)),
    }
}
