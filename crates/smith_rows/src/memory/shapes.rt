//! The shapes of tries, one for each use.

use smith_bytes::Which;
use smith_case::Fault;
use smith_case::shapes::shape_named;
use smith_config::{Config, Shape};
use std::alloc::Global;

/// All uses of a shape.
pub(crate) const USES: [Which; 3] = [Which::Exports, Which::AvailableImports, Which::ModuleShape];

// Returns the name of the shape for `which`.
fn name_for(which: Which) -> &'static str {
    match which {
        Which::AvailableImports => "a function and a memory to import",
        Which::Exports => "one of each",
        Which::ModuleShape => "memories in groups",
    }
}

/// Creates the shape for `which`: a function and a memory to import, exports of one of each kind,
/// or three memories in groups, which are imported.
pub(crate) fn shape_for(alloc: Global, which: Which) -> Result<Shape, Fault> {
    shape_named(alloc, name_for(which))
}

// Puts `value` into `slot`, the field of a configuration.
fn put<T: Drop>(slot: &mut Option<T>, value: T) {
    *slot = Some(value);
}

/// Sets the field of `config` that `which` names to the shape for it. With the module shape, allows
/// three memories.
pub(crate) fn set_shape(alloc: Global, config: &mut Config, which: Which) -> Result<(), Fault> {
    let shape = shape_for(alloc, which)?;
    match which {
        Which::AvailableImports => put(&mut config.available_imports, shape),
        Which::Exports => put(&mut config.exports, shape),
        Which::ModuleShape => {
            config.max_memories = 3;
            put(&mut config.module_shape, shape);
        }
    }
    Ok(())
}

/// Creates a configuration that allows three memories, otherwise the default.
pub(crate) fn config_of_memories() -> Config {
    let mut config = Config::default();
    config.max_memories = 3;
    config
}
