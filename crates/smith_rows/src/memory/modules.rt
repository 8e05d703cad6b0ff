use crate::memory::parts::set_minimums;
use crate::memory::shapes::set_shape;
use crate::memory::tries::{is_left, is_refused_first, outcome_of_refusal};
use smith_bytes::{Error, Unstructured, Which};
use smith_case::Fault;
use smith_config::Config;
use smith_rows_memory::{Attempt, Ended};
use std::alloc::Global;
use std::test::Fail;
use wasm_smith::Module;

// A module that is drawn from `input`, for a copy of `config`.
#[derive(Clone, Copy)]
struct Drawing<'a> {
    config: &'a Config,
    input: &'static [u8],
}

impl Attempt for Drawing<'_> {
    fn run(&mut self, alloc: Global) -> Ended {
        draw_for_copy(alloc, self.config.clone(alloc), self.input)
    }
}

fn draw_for_copy(alloc: Global, copy: Result<Config, Error>, input: &[u8]) -> Ended {
    match copy {
        Ok(config) => draw_module(alloc, config, input),
        Err(refusal) => outcome_of_refusal(refusal),
    }
}

fn draw_module(alloc: Global, config: Config, input: &[u8]) -> Ended {
    let mut u = Unstructured::new(input);
    let ended = outcome_of(Module::new(alloc, config, &mut u));
    if is_left(&u, input) {
        ended
    } else {
        Ended::Wrong("the source is no piece of the input")
    }
}

// Returns the outcome of the call that answered `answer`.
fn outcome_of(answer: Result<Module, Error>) -> Ended {
    match answer {
        Ok(module) => {
            drop(module);
            Ended::Given
        }
        Err(refusal) => outcome_of_refusal(refusal),
    }
}

// Settings of a configuration.
#[derive(Clone, Copy)]
enum Settings {
    Nothing,
    /// At most two imports, and at least one global.
    Imports,
    /// At least some of each part.
    EachPart,
    /// The shape for this use.
    Shape(Which),
}

fn set(alloc: Global, config: &mut Config, settings: Settings) -> Result<(), Fault> {
    match settings {
        Settings::Nothing => {}
        Settings::Imports => set_imports(config),
        Settings::EachPart => set_minimums(config),
        Settings::Shape(which) => return set_shape(alloc, config, which),
    }
    Ok(())
}

fn set_imports(config: &mut Config) {
    config.max_imports = 2;
    config.min_globals = 1;
}

fn try_module(alloc: Global, settings: Settings, input: &'static [u8]) -> Result<(), Fail> {
    let mut config = Config::default();
    let tried = try_under(alloc, settings, input, &mut config);
    drop(config);
    tried
}

fn try_under(
    alloc: Global,
    settings: Settings,
    input: &'static [u8],
    config: &mut Config,
) -> Result<(), Fail> {
    set(alloc, config, settings)?;
    is_refused_first(alloc, &mut Drawing { config, input })
}

// A group that is cloned past the end of the input.
const CLONE: &[u8] = &[1, 1, 0, 0, 0, 0, 1];

// A passive segment.
const SEGMENT: &[u8] = &[0, 0, 0, 0, 0, 0, 0, 0, 1, 0, 0, 0, 1, 1, 0];

// Two imports in a group.
const GROUP: &[u8] = &[0, 1, 255, 255, 255, 255, 0, 0, 0, 1, 1, 98, 1, 0, 0];

// An array, and a struct that refers to it.
const SPELLED: &[u8] = &[1, 1, 1, 0, 0, 0, 1, 1, 1, 1, 2, 1, 2, 5, 1, 0, 1, 0, 0, 0];

// Types, functions and more.
const EACH: &[u8] = &[
    1, 1, 1, 1, 0, 0, 0, 0, 0, 0, 1, 1, 0, 1, 1, 1, 1, 1, 0, 1, 1, 0, 1, 0, 1, 1, 1, 1, 0, 1, 1, 1,
];

const ZEROS: &[u8] = &[0; 512];

#[test]
fn modules_without_shapes(rt: HostRuntime) -> Result<(), Fail> {
    let alloc = rt.alloc();
    try_module(alloc, Settings::Nothing, &[])?;
    try_module(alloc, Settings::Nothing, CLONE)?;
    try_module(alloc, Settings::Nothing, SEGMENT)?;
    try_module(alloc, Settings::Nothing, SPELLED)?;
    try_module(alloc, Settings::Imports, GROUP)?;
    try_module(alloc, Settings::EachPart, EACH)
}

#[test]
fn modules_with_shapes(rt: HostRuntime) -> Result<(), Fail> {
    let alloc = rt.alloc();
    try_module(alloc, Settings::Shape(Which::AvailableImports), &[1, 1])?;
    try_module(alloc, Settings::Shape(Which::Exports), &[])?;
    try_module(alloc, Settings::Shape(Which::ModuleShape), ZEROS)
}
