//! The answers to calls, each as text.

mod case_config;
mod configs;
mod constants;
mod copies;
mod draws;
mod entities;
mod files;
mod free_types;
mod matching;
mod module_forms;
mod modules;
mod names;
mod numbers;
mod parsers;
mod programs;
mod shapes;
mod sources;
mod spaces;
mod subtypes;
mod type_spaces;
mod types;

use crate::answers::case_config::{answer_read_config, set_config};
use crate::answers::configs::{answer_config, answer_drawn_config};
use crate::answers::draws::answer_draw;
use crate::answers::files::answer_file;
use crate::answers::modules::answer_module;
use crate::answers::names::answer_name;
use crate::answers::parsers::answer_parser;
use crate::answers::programs::answer_program;
use crate::answers::shapes::answer_shape;
use crate::answers::sources::answer_source;
use crate::answers::type_spaces::answer_space;
use crate::recorded::answer_recorded;
use smith_case::call::{Call, ConfigCall, call_named};
use smith_case::{Case, Fault, check_keys, text_or};
use smith_config::Config;
use smith_config_json::Preset;
use std::alloc::Global;

/// Returns the answer to the call of `case`, which `line` holds, over the bytes `input`.
pub(crate) fn answer(
    alloc: Global,
    line: &str,
    case: &Case,
    input: &[u8],
) -> Result<String, Fault> {
    let Some((call, most)) = call_named(text_or(&case.call, "")) else {
        return Err(Fault::UnknownCall);
    };
    check_keys(case, call, most)?;
    let mut answer = String::new(alloc);
    append_answer(alloc, line, case, call, input, &mut answer)?;
    Ok(answer)
}

fn append_answer(
    alloc: Global,
    line: &str,
    case: &Case,
    call: Call,
    input: &[u8],
    answer: &mut String,
) -> Result<(), Fault> {
    match call {
        Call::Source(call) => answer_source(case, call, input, answer),
        Call::Name(call) => answer_name(alloc, case, call, input, answer),
        Call::Parser(call) => answer_parser(case, call, answer),
        Call::ReadConfig => answer_read_config(alloc, case, answer),
        Call::Space(call) => answer_space(alloc, case, call, answer),
        Call::Config(ConfigCall::Arbitrary) => answer_drawn_config(input, answer),
        _ => answer_configured(alloc, line, case, call, input, answer),
    }
}

// Appends the answer to a call that has a configuration.
fn answer_configured(
    alloc: Global,
    line: &str,
    case: &Case,
    call: Call,
    input: &[u8],
    answer: &mut String,
) -> Result<(), Fault> {
    let mut config = Config::default();
    let told = answer_call(alloc, line, case, call, &mut config, input, answer);
    drop(config);
    told
}

// Appends the answer to the call of `case`, after `config`, the default, is set as `line` says. Each
// feature is on for a file, unless `line` turns it off.
fn answer_call(
    alloc: Global,
    line: &str,
    case: &Case,
    call: Call,
    config: &mut Config,
    input: &[u8],
    answer: &mut String,
) -> Result<(), Fault> {
    if matches!(call, Call::File(_)) {
        Preset::Proposals.apply(config);
    }
    set_config(alloc, line, case, config)?;
    match call {
        Call::File(call) => answer_file(alloc, call, config.features(), input, answer),
        Call::Module(call) => answer_module(alloc, case, call, config, input, answer),
        Call::Program(call) => answer_program(alloc, case, call, config, input, answer),
        Call::Draw(call) => answer_draw(alloc, case, call, config, input, answer),
        Call::Config(call) => answer_config(alloc, call, config, answer),
        Call::Shape(call) => answer_shape(alloc, case, call, config, answer),
        _ => answer_recorded(alloc, case, config, answer),
    }
}
