use crate::memory::parts::module_of_parts;
use crate::memory::tries::{is_refused_first, outcome_of_refusal};
use crate::memory::whole::{is_whole, whole};
use smith_bytes::{Error, Unstructured};
use smith_config::Config;
use smith_rows_memory::{Attempt, Ended};
use std::alloc::Global;
use std::test::Fail;
use wasm_smith::Module;

// A counter of fuel that is added to `module`. `text` is the text of the whole module before.
#[derive(Drop)]
struct Counting<'a> {
    module: &'a mut Module,
    text: &'a str,
}

impl Attempt for Counting<'_> {
    fn run(&mut self, alloc: Global) -> Ended {
        let ended = add_fuel(alloc, self.module);
        match (ended, is_whole(self.module, self.text)) {
            (Ended::Refused, false) => Ended::Wrong("the module is another"),
            (Ended::Given, true) => Ended::Wrong("the module is the same"),
            (ended, _) => ended,
        }
    }
}

fn add_fuel(alloc: Global, module: &mut Module) -> Ended {
    let count = module.globals().len();
    if count >= u32::MAX as usize {
        return Ended::Wrong("there are too many globals");
    }
    match module.ensure_termination(alloc, 5) {
        Ok(index) if index as usize == count => Ended::Given,
        Ok(_) => Ended::Wrong("the counter is another"),
        Err(refusal) => outcome_of_refusal(refusal),
    }
}

// A function with a parameter that is a number.
const INPUT: &[u8] = &[1, 1, 0, 0, 0, 0, 0, 0, 1];

fn config_of_a_function() -> Config {
    let mut config = Config::default();
    config.gc_enabled = false;
    config.max_types = 1;
    config.max_funcs = 1;
    config
}

// Returns a module of a function with a parameter that is a number.
fn function(alloc: Global) -> Result<Module, Error> {
    Module::new(alloc, config_of_a_function(), &mut Unstructured::new(INPUT))
}

fn try_beside(alloc: Global, module: &mut Module, text: &str) -> Result<(), Fail> {
    is_refused_first(alloc, &mut Counting { module, text })
}

fn try_module(alloc: Global, module: &mut Module) -> Result<(), Fail> {
    let text = whole(alloc, module)?;
    try_beside(alloc, module, text.as_str())
}

fn try_made(alloc: Global, mut module: Module) -> Result<(), Fail> {
    let tried = try_module(alloc, &mut module);
    drop(module);
    tried
}

#[test]
fn a_counter_of_a_function(rt: HostRuntime) -> Result<(), Fail> {
    try_made(rt.alloc(), function(rt.alloc())?)
}

#[test]
fn a_counter_of_a_module_of_parts(rt: HostRuntime) -> Result<(), Fail> {
    try_made(rt.alloc(), module_of_parts(rt.alloc())?)
}
