//! Complete examples of the library: they compile, and return the expected answers.

use smith_types::{CompositeType, FuncType};
use std::alloc::Global;
use wasm_smith::{
    CompositeInnerType, Config, Error, Items, Module, SubType, Unstructured, ValType, spell,
};

fn parameters_of(alloc: Global, input: &[u8]) -> Result<usize, Error> {
    let mut config = Config::default();
    config.max_memories = 2;
    let module = Module::new(alloc, config, &mut Unstructured::new(input))?;
    let parameters = parameters_in(&module);
    drop(module);
    Ok(parameters)
}

fn parameters_in(module: &Module) -> usize {
    let mut count: usize = 0;
    for index in module.funcs() {
        if let Some(ty) = module.types().get(*index as usize) {
            if let CompositeInnerType::Func(function) = &ty.composite_type.inner {
                count = count.saturating_add(function.params.len());
            }
        }
    }
    count
}

// One function with a parameter i32 and no results, and the empty module.
#[test]
fn functions_take_what_the_bytes_say(rt: HostRuntime) {
    let spelled = [1, 1, 1, 1, 1, 0, 0, 0, 0, 0, 0, 0, 1, 0];
    assert_eq!(rt; parameters_of(rt.alloc(), &spelled).ok(), Some(1));
    assert_eq!(rt; parameters_of(rt.alloc(), &[]).ok(), Some(0));
}

fn seed(
    alloc: Global,
    config: &Config,
    groups: &[Items<SubType>],
    corpus: &mut Vec<Items<u8>>,
) -> Result<(), Error> {
    if let Some(seed) = spell(alloc, config, groups, &[0])? {
        // The module of these bytes, whatever follows them, has these groups and this function.
        corpus.push(seed)?;
    }
    Ok(())
}

// Returns a final type of functions with a parameter i32 and no results.
fn takes_a_number(alloc: Global) -> Result<SubType, Error> {
    Ok(SubType {
        is_final: true,
        supertype: None,
        composite_type: CompositeType {
            inner: CompositeInnerType::Func(FuncType {
                params: Items::from_slice(alloc, &[ValType::I32])?,
                results: Items::new(alloc),
            }),
            shared: false,
        },
    })
}

// Returns a group of this type.
fn one_group(alloc: Global) -> Result<Vec<Items<SubType>>, Error> {
    let mut group = Items::new(alloc);
    group.push(takes_a_number(alloc)?)?;
    let mut groups = Vec::new(alloc);
    groups.push(group)?;
    Ok(groups)
}

// Adds the bytes that spell `groups` for the default configuration.
fn seed_by_default(
    alloc: Global,
    groups: &[Items<SubType>],
    corpus: &mut Vec<Items<u8>>,
) -> Result<(), Error> {
    let config = Config::default();
    let seeded = seed(alloc, &config, groups, corpus);
    drop(config);
    seeded
}

// Returns a corpus of the bytes that spell the group.
fn corpus_of(alloc: Global) -> Result<Vec<Items<u8>>, Error> {
    let groups = one_group(alloc)?;
    let mut corpus = Vec::new(alloc);
    seed_by_default(alloc, groups.as_slice(), &mut corpus)?;
    Ok(corpus)
}

// Returns the number of parameters of the functions that each seed produces.
fn parameters_of_seeds(alloc: Global, corpus: &[Items<u8>]) -> Result<(usize, usize), Error> {
    let mut count: usize = 0;
    for seed in corpus {
        count = count.saturating_add(parameters_of(alloc, seed.as_slice())?);
    }
    Ok((corpus.len(), count))
}

fn count_parameters(alloc: Global) -> Result<(usize, usize), Error> {
    let corpus = corpus_of(alloc)?;
    parameters_of_seeds(alloc, corpus.as_slice())
}

#[test]
fn a_seed_has_the_wanted_functions(rt: HostRuntime) {
    assert_eq!(rt; count_parameters(rt.alloc()).ok(), Some((1, 1)));
}
