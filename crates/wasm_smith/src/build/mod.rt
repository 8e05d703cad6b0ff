//! The steps of building a module.

ghost use Rattle.std.specs.Prelude.{◌≡◌, None, IfOk, IfErr};
ghost use Rattle.smith_bytes.specs.Source.{KeepsPieces};
ghost use Rattle.smith_config.specs.Faults.{Passes};
ghost use Rattle.smith_config.specs.Sanitized.{IsSanitized};
ghost use Rattle.smith_module_rules.specs.Bounds.{KeepsBounds, MeetsMinimums};
ghost use Rattle.smith_bytes.specs.Steps.{Returns, is_memory};
ghost use Rattle.wasm_smith.specs.Build.{as_drawn, module_at};
ghost use Rattle.smith_module_rules.specs.InterestingValues.{HasInterestingValues};
ghost use Rattle.smith_module_rules.specs.Module.{IsValid};
ghost use Rattle.smith_module_rules.specs.Promises.{KeepsPromises};
ghost use Rattle.smith_module_rules.specs.ShapesKept.{KeepsShapes};
ghost use Rattle.smith_module_rules.specs.Refusals.{AreShapesValid, MayRefuse};

mod contents;
mod exports;
mod first_parts;
mod func_grounds;
mod parts_so_far;
mod section_flag;
mod segment_spaces;
mod segments;
mod shapes_in_use;
mod steps;
mod types;

use crate::module::Module;
pub(crate) use parts_so_far::PartsSoFar;
use parts_so_far::draw;
pub(crate) use shapes_in_use::check_shapes;
use smith_bytes::{Error, Unstructured};
use smith_config::Config;
use smith_types::Items;
use std::alloc::Global;

/// Draws a module for `config`, which is sanitised and passes its check, and whose shapes pass
/// theirs. If `distinct` is set and no shape fixes the imports, no two imports have the same pair
/// of names.
pub(crate) fn build(
    alloc: Global,
    config: Config,
    distinct: bool,
    u: &mut Unstructured<'_>,
) -> Result<Module, Error>
    requires passes { Passes config }
    requires sanitized { IsSanitized config }
    requires valid { AreShapesValid config }

    // The draw.
    ensures exact { Returns is_memory (λ m. (as_drawn m, u.new)) result
        (module_at distinct config u.old) }
    ensures config { IfOk result (λ m. m.config ≡ record config { available_imports = None }) }

    // Validity and bounds.
    ensures valid { IfOk result IsValid }
    ensures bounds { IfOk result (KeepsBounds config) }
    ensures minimums { IfOk result (MeetsMinimums config) }

    // Shapes, promises and interesting values.
    ensures shapes { IfOk result (KeepsShapes config u.old) }
    ensures promises { IfOk result (KeepsPromises distinct config) }
    ensures interesting { IfOk result HasInterestingValues }

    // Refusals and the source.
    ensures refusal { IfErr result (MayRefuse config) }
    ensures left { KeepsPieces u.old u.new }
{
    let mut config = Box::new(alloc, config)?;
    match draw(alloc, config.as_ref(), distinct, u) {
        Ok(drawn) => {
            config.as_mut().available_imports = None;
            Ok(Module {
                config,
                drawn,
                fuel_globals: Items::new(alloc),
            })
        }
        Err(refusal) => {
            drop(config);
            Err(refusal)
        }
    }
}
