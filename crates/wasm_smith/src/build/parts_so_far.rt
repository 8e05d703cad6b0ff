//! The parts of a module, drawn step by step.

ghost use Rattle.std.specs.Prelude.{IfErr, IfOk, OnOk};
ghost use Rattle.smith_bytes.specs.Source.{KeepsPieces};
ghost use Rattle.smith_config.specs.Faults.{Passes};
ghost use Rattle.smith_config.specs.Sanitized.{IsSanitized};
ghost use Rattle.wasm_smith.specs.FirstParts.{HasNothing};
ghost use Rattle.smith_module_rules.specs.Bounds.{KeepsBounds, MeetsMinimums};
ghost use Rattle.smith_bytes.specs.Steps.{Returns, is_memory};
ghost use Rattle.wasm_smith.specs.Build.{parts_of, as_drawn, module_at};
ghost use Rattle.wasm_smith.specs.DrawnParts.{IsDrawnFor};
ghost use Rattle.smith_module_rules.specs.InterestingValues.{HasInterestingValues};
ghost use Rattle.smith_module_rules.specs.Module.{IsValid};
ghost use Rattle.smith_module_rules.specs.Promises.{KeepsPromises};
ghost use Rattle.smith_module_rules.specs.Refusals.{AreShapesValid, MayRefuse};
ghost use Rattle.smith_module_rules.specs.ShapesKept.{KeepsShapes};

use crate::build::contents::{Contents, draw_contents};
use crate::build::exports::make_exports;
use crate::build::func_grounds::func_grounds;
use crate::build::section_flag::draw_section_flag;
use crate::build::steps::{add_definitions, add_imports, begin_with_types};
use smith_bytes::{Error, Unstructured};
use smith_config::Config;
use smith_draw_definitions::Definitions;
use smith_draw_imports::Imported;
use smith_module_rules::collect_interesting_values;
use smith_types::{Items, TypeSpace};
use std::alloc::Global;

/// The parts of a module, as they are drawn.
#[derive(Drop)]
pub(crate) struct PartsSoFar {
    /// The types, in their recursive groups.
    pub(crate) types: TypeSpace,
    /// The imports, and the complete index spaces, in which imported items come first.
    pub(crate) imported: Imported,
    /// The definitions after the imports.
    pub(crate) definitions: Definitions,
    /// The contents after the definitions.
    pub(crate) contents: Contents,
    /// Whether an import section is written.
    pub(crate) encodes_imports: bool,
    /// The interesting values of 32 bits.
    pub(crate) interesting_values32: Items<u32>,
    /// The interesting values of 64 bits.
    pub(crate) interesting_values64: Items<u64>,
}

impl PartsSoFar {
    /// Creates empty parts. Does not allocate.
    pub(crate) fn none(alloc: Global) -> Self
        ensures { HasNothing result }
    {
        PartsSoFar {
            types: TypeSpace::new(alloc),
            imported: Imported::new(alloc),
            definitions: Definitions::none(alloc),
            contents: Contents::none(alloc),
            encodes_imports: false,
            interesting_values32: Items::new(alloc),
            interesting_values64: Items::new(alloc),
        }
    }
}

/// Draws the parts of a module into `drawn`, which is empty, in the order of the steps. The steps
/// share a record of the heap types that functions ground. Collects the interesting values.
#[tactic(auto, unfolding(crate::specs::Build::module_at))]
fn draw_parts(
    alloc: Global,
    config: &Config,
    distinct: bool,
    drawn: &mut PartsSoFar,
    u: &mut Unstructured<'_>,
) -> Result<(), Error>
    requires passes { Passes config.now }
    requires sanitized { IsSanitized config.now }
    requires valid { AreShapesValid config.now }
    requires nothing { HasNothing drawn.old }
    ensures exact { Returns is_memory (λ _. (as_drawn (parts_of config.now drawn.new), u.new)) result
        (module_at distinct config.now u.old) }
    ensures drawn { OnOk result (IsDrawnFor distinct config.now drawn.new) }
    ensures kept { OnOk result (KeepsShapes config.now u.old (parts_of config.now drawn.new)) }
    ensures refusal { IfErr result (MayRefuse config.now) }
    ensures left { KeepsPieces u.old u.new }
{
    begin_with_types(alloc, config, drawn, u)?;
    let mut grounds = func_grounds(alloc, config, drawn)?;
    add_imports(alloc, config, distinct, drawn, &mut grounds, u)?;
    let encodes_imports = draw_section_flag(drawn.imported.groups.len(), u);
    add_definitions(alloc, config, drawn, &mut grounds, u)?;
    let made = make_exports(alloc, config, drawn, &mut grounds, u)?;
    drawn.contents = draw_contents(alloc, config, drawn, &grounds, made, u)?;
    drawn.encodes_imports = encodes_imports;
    let (narrow, wide) = collect_interesting_values(
        alloc,
        drawn.imported.spaces.tables.as_slice(),
        drawn.imported.spaces.memories.as_slice(),
    )?;
    drawn.interesting_values32 = narrow;
    drawn.interesting_values64 = wide;
    Ok(())
}

/// Draws the parts of a module. If `distinct` is set and no shape fixes the imports, no two imports
/// have the same pair of names.
pub(crate) fn draw(
    alloc: Global,
    config: &Config,
    distinct: bool,
    u: &mut Unstructured<'_>,
) -> Result<Box<PartsSoFar>, Error>
    requires passes { Passes config.now }
    requires sanitized { IsSanitized config.now }
    requires valid { AreShapesValid config.now }

    // The draw.
    ensures exact { Returns is_memory (λ drawn. (as_drawn (parts_of config.now drawn.value), u.new))
        result (module_at distinct config.now u.old) }

    // Validity and bounds.
    ensures valid { IfOk result (λ drawn. IsValid (parts_of config.now drawn.value)) }
    ensures bounds { IfOk result (λ drawn.
        KeepsBounds config.now (parts_of config.now drawn.value)) }
    ensures minimums { IfOk result (λ drawn.
        MeetsMinimums config.now (parts_of config.now drawn.value)) }

    // Shapes, promises and interesting values.
    ensures shapes { IfOk result (λ drawn.
        KeepsShapes config.now u.old (parts_of config.now drawn.value)) }
    ensures promises { IfOk result (λ drawn.
        KeepsPromises distinct config.now (parts_of config.now drawn.value)) }
    ensures interesting { IfOk result (λ drawn.
        HasInterestingValues (parts_of config.now drawn.value)) }

    // Refusals and the source.
    ensures refusal { IfErr result (MayRefuse config.now) }
    ensures left { KeepsPieces u.old u.new }
{
    let mut drawn = Box::new(alloc, PartsSoFar::none(alloc))?;
    match draw_parts(alloc, config, distinct, drawn.as_mut(), u) {
        Ok(()) => Ok(drawn),
        Err(refusal) => {
            drop(drawn);
            Err(refusal)
        }
    }
}
