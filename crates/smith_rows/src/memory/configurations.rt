use crate::memory::shapes::{USES, config_of_memories, set_shape, shape_for};
use crate::memory::tries::{is_refused_first, outcome_of_refusal};
use smith_bytes::{Error, Which};
use smith_case::Fault;
use smith_config::{Config, Shape};
use smith_rows_memory::{Attempt, Ended};
use std::alloc::Global;
use std::test::Fail;

// A copy of a configuration.
#[derive(Clone, Copy)]
struct Copying<'a> {
    config: &'a Config,
}

impl Attempt for Copying<'_> {
    fn run(&mut self, alloc: Global) -> Ended {
        outcome_of_copy(self.config.clone(alloc), self.config)
    }
}

// Returns the outcome of a copy of `config`.
fn outcome_of_copy(copy: Result<Config, Error>, config: &Config) -> Ended {
    match copy {
        Ok(copy) => {
            let ended = compare(&copy, config);
            drop(copy);
            ended
        }
        Err(refusal) => outcome_of_refusal(refusal),
    }
}

fn compare(copy: &Config, config: &Config) -> Ended {
    if copy.exports == config.exports
        && copy.available_imports == config.available_imports
        && copy.module_shape == config.module_shape
    {
        Ended::Given
    } else {
        Ended::Wrong("the copy is another")
    }
}

fn set_shapes(alloc: Global, config: &mut Config) -> Result<(), Fault> {
    for which in &USES {
        set_shape(alloc, config, *which)?;
    }
    Ok(())
}

fn try_copy(alloc: Global, config: &mut Config) -> Result<(), Fail> {
    set_shapes(alloc, config)?;
    is_refused_first(alloc, &mut Copying { config })
}

// Copies a configuration with all shapes.
#[test]
fn copies(rt: HostRuntime) -> Result<(), Fail> {
    let mut config = Config::default();
    let tried = try_copy(rt.alloc(), &mut config);
    drop(config);
    tried
}

// A check of a shape.
#[derive(Clone, Copy)]
struct Checking<'a> {
    config: &'a Config,
    shape: &'a Shape,
    which: Which,
}

impl Attempt for Checking<'_> {
    fn run(&mut self, alloc: Global) -> Ended {
        match self.shape.check(alloc, self.which, self.config) {
            Ok(()) => Ended::Given,
            Err(refusal) => outcome_of_refusal(refusal),
        }
    }
}

fn try_check(alloc: Global, shape: &Shape, which: Which) -> Result<(), Fail> {
    let config = config_of_memories();
    let mut checking = Checking {
        config: &config,
        shape,
        which,
    };
    let tried = is_refused_first(alloc, &mut checking);
    drop(config);
    tried
}

fn try_check_for(alloc: Global, which: Which) -> Result<(), Fail> {
    let shape = shape_for(alloc, which)?;
    let tried = try_check(alloc, &shape, which);
    drop(shape);
    tried
}

// Checks shapes of each use, the last one without types and exports.
#[test]
fn checks(rt: HostRuntime) -> Result<(), Fail> {
    for which in &USES {
        try_check_for(rt.alloc(), *which)?;
    }
    Ok(())
}
