use crate::memory::tries::{is_refused_first, outcome_of_refusal};
use smith_case::shapes::shape_named;
use smith_config::{Config, Shape};
use smith_rows_memory::{Attempt, Ended};
use smith_spell::spell;
use std::alloc::Global;
use std::test::Fail;

// A shape whose types and functions are spelled.
#[derive(Clone, Copy)]
struct Spelling<'a> {
    config: &'a Config,
    shape: &'a Shape,
}

impl Attempt for Spelling<'_> {
    fn run(&mut self, alloc: Global) -> Ended {
        let groups = self.shape.groups.as_slice();
        match spell(alloc, self.config, groups, self.shape.funcs.as_slice()) {
            Ok(Some(_)) => Ended::Given,
            Ok(None) => Ended::Wrong("nothing is spelled"),
            Err(refusal) => outcome_of_refusal(refusal),
        }
    }
}

fn try_shape(alloc: Global, shape: &Shape) -> Result<(), Fail> {
    let config = Config::default();
    let mut spelling = Spelling {
        config: &config,
        shape,
    };
    let tried = is_refused_first(alloc, &mut spelling);
    drop(config);
    tried
}

fn try_named(alloc: Global, name: &str) -> Result<(), Fail> {
    let shape = shape_named(alloc, name)?;
    let tried = try_shape(alloc, &shape);
    drop(shape);
    tried
}

#[test]
fn spellings(rt: HostRuntime) -> Result<(), Fail> {
    let alloc = rt.alloc();
    try_named(alloc, "a function without parameters and results")?;
    try_named(alloc, "an array of bytes and a struct that refers to it")
}
