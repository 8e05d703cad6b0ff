//! The exports of a module.

ghost use Rattle.std.specs.Prelude.{◌≡◌, IfErr, IfOk, IfSome, OnOk};
ghost use Rattle.std.specs.List.{AllZip};
ghost use Rattle.smith_bytes.specs.Source.{KeepsPieces};
ghost use Rattle.smith_types.specs.EntitySpaces.{spaces_in};
ghost use Rattle.smith_config.specs.Faults.{Passes};
ghost use Rattle.smith_config.specs.InUse.{shapes_of};
ghost use Rattle.smith_config.specs.Sanitized.{IsSanitized};
ghost use Rattle.smith_config.specs.Shapes.{shape_spaces, shape_types};
ghost use Rattle.smith_draw_types.specs.KeptGrounds.{AreKeptGrounds};
ghost use Rattle.wasm_smith.specs.FirstParts.{module_so_far};
ghost use Rattle.smith_bytes.specs.Steps.{Returns, is_memory};
ghost use Rattle.wasm_smith.specs.Build.{exported_at, exports_of};
ghost use Rattle.wasm_smith.specs.DrawnContents.{AreExportsMade};
ghost use Rattle.wasm_smith.specs.DrawnSteps.{AreEntitiesDrawn, AreExportsDrawn, HasSameImports};
ghost use Rattle.wasm_smith.specs.DrawnSteps.{IsBeyond, drawn_next};
ghost use Rattle.smith_module_rules.specs.Refusals.{AreShapesValid, MayRefuse};
ghost use Rattle.smith_module_rules.specs.ShapesKept.{IsSameExport, IsSameType};

use crate::build::func_grounds::func_grounds;
use crate::build::parts_so_far::PartsSoFar;
use smith_bytes::{Error, Unstructured};
use smith_config::Config;
use smith_draw_contents::{Exports, arbitrary_exports};
use smith_draw_definitions::make_required_exports;
use smith_draw_types::KeptGrounds;
use smith_types::Items;
use std::alloc::Global;
use std::mem;

/// Returns the exports of a module shape, which exist already. Without a module shape, makes the
/// exports of a shape for exports and defines an entity for each. Without either, draws exports.
/// Keeps `grounds` up to date with the functions.
#[tactic(auto, unfolding(crate::specs::Build::exported_at))]
pub(crate) fn make_exports(
    alloc: Global,
    config: &Config,
    drawn: &mut PartsSoFar,
    grounds: &mut KeptGrounds,
    u: &mut Unstructured<'_>,
) -> Result<Exports, Error>
    requires passes { Passes config.now }
    requires sanitized { IsSanitized config.now }
    requires valid { AreShapesValid config.now }
    requires entities { AreEntitiesDrawn config.now drawn.old }
    requires grounds { AreKeptGrounds (drawn_next config.now drawn.old) grounds.old }

    // The draw.
    ensures exact { Returns is_memory
        (λ made. (record (module_so_far drawn.new) { exports = made.exports }, u.new)) result
        (exported_at config.now (module_so_far drawn.old) u.old) }
    ensures size { IfOk result (λ made. made
        ≡ exports_of config.now (record (module_so_far drawn.new) { exports = made.exports })) }

    // The parts so far, the record and the exports.
    ensures drawn { OnOk result (AreExportsDrawn config.now drawn.new) }
    ensures grounds { OnOk result (AreKeptGrounds (drawn_next config.now drawn.new) grounds.new) }
    ensures made { IfOk result (AreExportsMade config.now drawn.new.types.types
        (spaces_in drawn.new.imported.spaces) drawn.new.imported.type_size) }
    ensures kept { IfOk result (λ made. IfSome (shapes_of config.now).exports (λ shape.
        AllZip (IsSameExport (IsSameType drawn.new.types.types (shape_types shape))
        (spaces_in drawn.new.imported.spaces) (shape_spaces shape)) made.exports shape.exports)) }
    ensures imports { OnOk result (HasSameImports drawn.old.imported drawn.new.imported) }
    ensures beyond { IfOk result (λ made. IsBeyond config.now (module_so_far drawn.old)
        (record (module_so_far drawn.new) { exports = made.exports })) }

    // Refusals and the source.
    ensures refusal { IfErr result (MayRefuse config.now) }
    ensures left { KeepsPieces u.old u.new }
{
    if config.module_shape.is_some() {
        let exports = mem::replace(&mut drawn.contents.exports, Items::new(alloc));
        let type_size = drawn.imported.type_size;
        return Ok(Exports { exports, type_size });
    }
    if let Some(shape) = &config.exports {
        let exports = make_required_exports(
            alloc,
            config,
            shape,
            &mut drawn.types,
            &mut drawn.imported.spaces,
            &mut drawn.definitions,
            u,
        )?;
        // The shape may add types, so all functions are recorded again.
        *grounds = func_grounds(alloc, config, drawn)?;
        let type_size = drawn.imported.type_size;
        return Ok(Exports { exports, type_size });
    }
    let size = drawn.imported.type_size;
    arbitrary_exports(alloc, config, &drawn.types, &drawn.imported.spaces, size, u)
}
