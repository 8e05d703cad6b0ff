//! The check of the shapes that a configuration uses.

ghost use Rattle.std.specs.Prelude.{IfErr, IfSome, OnOk, Some};
ghost use Rattle.smith_config.specs.Sanitized.{IsSanitized};
ghost use Rattle.smith_config.specs.Shapes.{IsShapeValid};
ghost use Rattle.wasm_smith.specs.CheckedShapes.{IsFaultOf, IsFirstFaulty};
ghost use Rattle.smith_module_rules.specs.Refusals.{AreShapesValid};

use smith_bytes::{Error, Which};
use smith_config::{Config, Shape};
use std::alloc::Global;

/// Checks the shape `given`, if any, for the use `which`.
fn check_given(
    alloc: Global,
    config: &Config,
    given: &Option<Shape>,
    which: Which,
) -> Result<(), Error>
    ensures valid { OnOk result (IfSome given.now (λ shape. IsShapeValid which config.now shape)) }
    ensures refused { IfErr result (IsFaultOf config.now given.now which) }
{
    match given {
        Some(shape) => shape.check(alloc, which, config),
        None => Ok(()),
    }
}

/// Checks the shapes that `config` uses: a module shape, else available imports, then exports.
pub(crate) fn check_shapes(alloc: Global, config: &Config) -> Result<(), Error>
    requires sanitized { IsSanitized config.now }
    ensures valid { OnOk result (AreShapesValid config.now) }
    ensures refused { IfErr result (IsFirstFaulty config.now) }
{
    check_given(alloc, config, &config.module_shape, Which::ModuleShape)?;
    check_given(
        alloc,
        config,
        &config.available_imports,
        Which::AvailableImports,
    )?;
    check_given(alloc, config, &config.exports, Which::Exports)
}
