use crate::answer_lines::{or_memory, write_debug};
use json::{Reader, Scratch};
use smith_case::arguments::word;
use smith_case::shapes::shape_named;
use smith_case::{Case, Fault};
use smith_config::{Config, Shape};
use smith_config_json::{ConfigRefusal, Refusal, config, read_config};
use std::alloc::Global;
use std::fmt::Debug;
use std::mem;

/// Sets the fields and the shapes of `case` in `config`, which is the default. `line` holds the
/// case.
pub(crate) fn set_config(
    alloc: Global,
    line: &str,
    case: &Case,
    config: &mut Config,
) -> Result<(), Fault> {
    set_fields(alloc, line, case, config)?;
    set_shapes(alloc, case, config)
}

/// Appends a line for each argument, a text: its configuration, or the refusal of the text.
pub(crate) fn answer_read_config(
    alloc: Global,
    case: &Case,
    answer: &mut String,
) -> Result<(), Fault> {
    let _first = word(case, 0)?;
    for text in case.args() {
        write_read(config(alloc, text.as_str()), answer)?;
    }
    Ok(())
}

// Appends the value that is read, or the refusal of its text.
fn write_read<T: Debug + Drop>(
    read: Result<T, ConfigRefusal>,
    answer: &mut String,
) -> Result<(), Fault> {
    match read {
        Ok(value) => write_debug(&value, answer),
        Err(refusal) => write_read_refusal(&refusal, answer),
    }
}

fn write_read_refusal(refusal: &ConfigRefusal, answer: &mut String) -> Result<(), Fault> {
    if matches!(refusal.fault, smith_config_json::Fault::OutOfMemory) {
        return Err(Fault::Memory);
    }
    or_memory(writeln!(answer, "refused: {refusal}"))
}

/// Returns the configuration `config`, and leaves the default in its place.
pub(crate) fn take_config(config: &mut Config) -> Config {
    mem::replace(config, Config::default())
}

// Sets the fields of `case`, which `line` holds.
fn set_fields(alloc: Global, line: &str, case: &Case, config: &mut Config) -> Result<(), Fault> {
    let Some(start) = case.config else {
        return Ok(());
    };
    let mut scratch = Scratch::new(alloc);
    let text = line.get(start..).unwrap_or("");
    let mut reader = Reader::new(text, &mut scratch)?;
    match read_config(alloc, &mut reader, config) {
        Ok(()) => Ok(()),
        Err(refusal) => Err(fault_of(refusal, start, line)),
    }
}

// Returns the fault of a configuration that begins at the offset `start` in `line` and is refused.
fn fault_of(mut refusal: Refusal, start: usize, line: &str) -> Fault {
    refusal.offset = refusal.offset.saturating_add(start);
    let ConfigRefusal {
        fault,
        field: _,
        line,
        column,
    } = refusal.in_text(line);
    if matches!(fault, smith_config_json::Fault::OutOfMemory) {
        return Fault::Memory;
    }
    Fault::Config {
        fault,
        line,
        column,
    }
}

// Sets the shapes that `case` names.
fn set_shapes(alloc: Global, case: &Case, config: &mut Config) -> Result<(), Fault> {
    let names = &case.shapes;
    set_shape(
        alloc,
        &names.available_imports,
        &mut config.available_imports,
    )?;
    set_shape(alloc, &names.exports, &mut config.exports)?;
    set_shape(alloc, &names.module_shape, &mut config.module_shape)
}

// Puts the shape named `name` into `slot`, if there is a name.
fn set_shape(alloc: Global, name: &Option<String>, slot: &mut Option<Shape>) -> Result<(), Fault> {
    match name {
        Some(name) => put(shape_named(alloc, name.as_str()), slot),
        None => Ok(()),
    }
}

// Puts the value that is made into `slot`.
fn put<T: Drop>(made: Result<T, Fault>, slot: &mut Option<T>) -> Result<(), Fault> {
    *slot = Some(made?);
    Ok(())
}
