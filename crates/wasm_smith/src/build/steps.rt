//! The steps of drawing a module, up to its definitions.

ghost use Rattle.std.specs.Prelude.{IfErr, OnOk};
ghost use Rattle.smith_bytes.specs.Source.{KeepsPieces};
ghost use Rattle.smith_config.specs.Faults.{Passes};
ghost use Rattle.smith_config.specs.InUse.{FixesImports};
ghost use Rattle.smith_config.specs.Sanitized.{IsSanitized};
ghost use Rattle.smith_draw_types.specs.KeptGrounds.{AreKeptGrounds};
ghost use Rattle.wasm_smith.specs.FirstParts.{HasNothing, module_so_far};
ghost use Rattle.smith_bytes.specs.Steps.{Returns, is_memory};
ghost use Rattle.wasm_smith.specs.Build.{first_parts_typed_at, imported_at, defined_at};
ghost use Rattle.wasm_smith.specs.DrawnSteps.{AreTypesDrawn, AreImportsDrawn, AreFreeImports};
ghost use Rattle.wasm_smith.specs.DrawnSteps.{AreEntitiesDrawn, HasSameImports, IsBeyond};
ghost use Rattle.wasm_smith.specs.DrawnSteps.{KeepsShapesSoFar, drawn_next};
ghost use Rattle.smith_module_rules.specs.Refusals.{AreShapesValid, MayRefuse};

use crate::build::first_parts::begin;
use crate::build::parts_so_far::PartsSoFar;
use crate::build::types::add_more_types;
use smith_bytes::{Error, Unstructured};
use smith_config::Config;
use smith_draw_definitions::define;
use smith_draw_imports::arbitrary_imports;
use smith_draw_types::KeptGrounds;
use std::alloc::Global;

/// Begins a module with the module shape or the available imports of `config`, and draws types
/// after the types of the shape.
#[tactic(auto, unfolding(crate::specs::Build::first_parts_typed_at))]
pub(crate) fn begin_with_types(
    alloc: Global,
    config: &Config,
    drawn: &mut PartsSoFar,
    u: &mut Unstructured<'_>,
) -> Result<(), Error>
    requires passes { Passes config.now }
    requires sanitized { IsSanitized config.now }
    requires valid { AreShapesValid config.now }
    requires nothing { HasNothing drawn.old }
    ensures exact { Returns is_memory (λ _. (module_so_far drawn.new, u.new)) result
        (first_parts_typed_at config.now u.old) }
    ensures drawn { OnOk result (AreTypesDrawn config.now drawn.new) }
    ensures kept { OnOk result (KeepsShapesSoFar config.now u.old (module_so_far drawn.new)) }
    ensures refusal { IfErr result (MayRefuse config.now) }
    ensures left { KeepsPieces u.old u.new }
{
    begin(alloc, config, drawn, u)?;
    let funcs = drawn.imported.spaces.funcs.as_slice();
    let imported_funcs = funcs.len() - drawn.definitions.num_funcs;
    add_more_types(alloc, config, &mut drawn.types, funcs, imported_funcs, u)
}

/// Draws imports, unless a shape fixes them. Notes each imported function in `grounds`. If
/// `distinct` is set, no two imports have the same pair of names.
#[tactic(auto, unfolding(crate::specs::Build::imported_at))]
pub(crate) fn add_imports(
    alloc: Global,
    config: &Config,
    distinct: bool,
    drawn: &mut PartsSoFar,
    grounds: &mut KeptGrounds,
    u: &mut Unstructured<'_>,
) -> Result<(), Error>
    requires passes { Passes config.now }
    requires sanitized { IsSanitized config.now }
    requires types { AreTypesDrawn config.now drawn.old }
    requires grounds { AreKeptGrounds (drawn_next config.now drawn.old) grounds.old }

    // The draw.
    ensures exact { Returns is_memory (λ _. (module_so_far drawn.new, u.new)) result
        (imported_at distinct config.now (module_so_far drawn.old) u.old) }

    // The parts so far and the record.
    ensures drawn { OnOk result (AreImportsDrawn config.now drawn.new) }
    ensures grounds { OnOk result (AreKeptGrounds (drawn_next config.now drawn.new) grounds.new) }
    ensures free { (FixesImports config.now → ⊥)
        → OnOk result (AreFreeImports distinct config.now drawn.new.imported) }
    ensures beyond { OnOk result (IsBeyond config.now (module_so_far drawn.old)
        (module_so_far drawn.new)) }

    // Refusals and the source.
    ensures refusal { IfErr result (MayRefuse config.now) }
    ensures left { KeepsPieces u.old u.new }
{
    if config.available_imports.is_some() || config.module_shape.is_some() {
        return Ok(());
    }
    let types = &drawn.types;
    let imported = &mut drawn.imported;
    arbitrary_imports(alloc, config, distinct, types, imported, grounds, u)
}

/// Defines entities after those of `drawn`. Notes each defined function in `grounds`.
#[tactic(auto, unfolding(crate::specs::Build::defined_at))]
pub(crate) fn add_definitions(
    alloc: Global,
    config: &Config,
    drawn: &mut PartsSoFar,
    grounds: &mut KeptGrounds,
    u: &mut Unstructured<'_>,
) -> Result<(), Error>
    requires passes { Passes config.now }
    requires sanitized { IsSanitized config.now }
    requires valid { AreShapesValid config.now }
    requires imports { AreImportsDrawn config.now drawn.old }
    requires grounds { AreKeptGrounds (drawn_next config.now drawn.old) grounds.old }

    // The draw.
    ensures exact { Returns is_memory (λ _. (module_so_far drawn.new, u.new)) result
        (defined_at config.now (module_so_far drawn.old) u.old) }

    // The parts so far and the record.
    ensures drawn { OnOk result (AreEntitiesDrawn config.now drawn.new) }
    ensures grounds { OnOk result (AreKeptGrounds (drawn_next config.now drawn.new) grounds.new) }
    ensures imports { OnOk result (HasSameImports drawn.old.imported drawn.new.imported) }
    ensures beyond { OnOk result (IsBeyond config.now (module_so_far drawn.old)
        (module_so_far drawn.new)) }

    // Refusals and the source.
    ensures refusal { IfErr result (MayRefuse config.now) }
    ensures left { KeepsPieces u.old u.new }
{
    define(
        alloc,
        config,
        &drawn.types,
        &mut drawn.imported.spaces,
        &mut drawn.definitions,
        grounds,
        u,
    )
}
