//! A module with some of each part.

use smith_bytes::{Error, Unstructured};
use smith_config::Config;
use std::alloc::Global;
use wasm_smith::Module;

/// Sets a minimum above 0 for types, tables, memories, globals and segments.
pub(crate) fn set_minimums(config: &mut Config) {
    config.min_types = 4;
    config.min_tables = 1;
    config.min_memories = 1;
    config.min_globals = 2;
    config.min_element_segments = 2;
    config.min_data_segments = 1;
}

// The input of a module with some of each part.
const PARTS: &[u8] = &[
    1, 1, 1, 1, 0, 0, 0, 0, 0, 0, 1, 1, 0, 1, 0, 1, 1, 0, 1, 1, 1, 0, 1, 0, 1, 1, 1,
];

fn config_of_parts() -> Config {
    let mut config = Config::default();
    set_minimums(&mut config);
    config
}

/// Creates a module with some of each part.
pub(crate) fn module_of_parts(alloc: Global) -> Result<Module, Error> {
    Module::new(alloc, config_of_parts(), &mut Unstructured::new(PARTS))
}
