//! The first parts of a module, from the shapes that its configuration uses.

ghost use Rattle.std.specs.Prelude.{◌≡◌, [], IfOk, IfErr, OnOk};
ghost use Rattle.smith_bytes.specs.Source.{KeepsPieces};
ghost use Rattle.smith_bytes.specs.declared.error.Which.TheVariants.{AvailableImports, ModuleShape};
ghost use Rattle.smith_config.specs.Sanitized.{IsSanitized};
ghost use Rattle.smith_config.specs.Shapes.{IsShapeValid, shape_imports, shape_types};
ghost use Rattle.wasm_smith.specs.FirstParts.{module_so_far, HasNothing};
ghost use Rattle.wasm_smith.specs.FirstParts.{first_parts_by_module_at, first_parts_by_imports_at};
ghost use Rattle.wasm_smith.specs.FirstParts.{first_parts_at, AreFirstPartsByModule};
ghost use Rattle.wasm_smith.specs.FirstParts.{AreFirstPartsByImports, AreFirstParts};
ghost use Rattle.wasm_smith.specs.FirstParts.{MayRefuseFirstParts};
ghost use Rattle.smith_types.specs.Imports.{imported_spaces};
ghost use Rattle.smith_draw_definitions.specs.Defined.{drawn_beside, nothing_defined};
ghost use Rattle.smith_module_rules.specs.Refusals.{AreShapesValid};
ghost use Rattle.smith_draw_definitions.specs.Required.{MayRefuseRequired};
ghost use Rattle.smith_bytes.specs.Steps.{Returns, is_memory};

use crate::build::parts_so_far::PartsSoFar;
use smith_bytes::{Error, Unstructured};
use smith_config::{Config, Shape};
use smith_draw_definitions::make_shape_exports;
use smith_draw_shape_imports::{imports_of_shape, take_available_imports, types_of_shape};
use smith_types::TypeSpace;
use std::alloc::Global;

/// Begins a module with the types, the imports and the exports of the module shape `shape`. Defines
/// an entity for each export.
#[tactic(auto, unfolding(crate::specs::FirstParts::first_parts_by_module_at))]
pub(crate) fn begin_with_module(
    alloc: Global,
    config: &Config,
    shape: &Shape,
    drawn: &mut PartsSoFar,
    u: &mut Unstructured<'_>,
) -> Result<(), Error>
    requires sanitized { IsSanitized config.now }
    requires valid { IsShapeValid ModuleShape config.now shape.now }
    requires nothing { HasNothing drawn.old }
    ensures exact { Returns is_memory (λ _. (module_so_far drawn.new, u.new)) result
        (first_parts_by_module_at config.now shape.now u.old) }
    ensures parts { OnOk result (AreFirstPartsByModule config.now shape.now drawn.new) }
    ensures refusal { IfErr result
        (MayRefuseRequired config.now (drawn_beside config.now (shape_types shape.now)
        (imported_spaces (shape_imports shape.now)) nothing_defined) shape.now) }
    ensures left { KeepsPieces u.old u.new }
{
    drawn.types = types_of_shape(alloc, shape)?;
    drawn.imported = imports_of_shape(alloc, config, shape)?;
    drawn.contents.exports = make_shape_exports(
        alloc,
        config,
        shape,
        &mut drawn.types,
        &mut drawn.imported.spaces,
        &mut drawn.definitions,
        u,
    )?;
    Ok(())
}

/// Begins a module with the types of the available imports `shape`, and those of its imports that
/// the bytes pick and that fit.
#[tactic(auto, unfolding(crate::specs::FirstParts::first_parts_by_imports_at))]
pub(crate) fn begin_with_imports(
    alloc: Global,
    config: &Config,
    shape: &Shape,
    drawn: &mut PartsSoFar,
    u: &mut Unstructured<'_>,
) -> Result<(), Error>
    requires sanitized { IsSanitized config.now }
    requires valid { IsShapeValid AvailableImports config.now shape.now }
    requires nothing { HasNothing drawn.old }
    ensures exact { OnOk result
        (first_parts_by_imports_at config.now shape.now u.old ≡ (module_so_far drawn.new, u.new)) }
    ensures parts { OnOk result (AreFirstPartsByImports config.now shape.now u.old drawn.new) }
    ensures memory { IfErr result (λ e. e ≡ Error.Memory) }
    ensures left { KeepsPieces u.old u.new }
{
    let (types, imported) = take_available_imports(alloc, config, shape, u)?;
    drawn.types = types;
    drawn.imported = imported;
    Ok(())
}

/// Begins a module with the shapes that `config` uses: a module shape, else available imports, else
/// nothing.
#[tactic(auto, unfolding(crate::specs::FirstParts::first_parts_at))]
pub(crate) fn begin(
    alloc: Global,
    config: &Config,
    drawn: &mut PartsSoFar,
    u: &mut Unstructured<'_>,
) -> Result<(), Error>
    requires sanitized { IsSanitized config.now }
    requires valid { AreShapesValid config.now }
    requires nothing { HasNothing drawn.old }
    ensures exact { Returns is_memory (λ _. (module_so_far drawn.new, u.new)) result
        (first_parts_at config.now u.old) }
    ensures parts { OnOk result (AreFirstParts config.now u.old drawn.new) }
    ensures refusal { IfErr result (MayRefuseFirstParts config.now) }
    ensures left { KeepsPieces u.old u.new }
{
    if let Some(shape) = &config.module_shape {
        return begin_with_module(alloc, config, shape, drawn, u);
    }
    if let Some(shape) = &config.available_imports {
        return begin_with_imports(alloc, config, shape, drawn, u);
    }
    drawn.types = no_types(alloc, config)?;
    Ok(())
}

/// Creates an empty type space with room for the minimum number of types of `config`. The space
/// records which heap types its types ground only if `config` has non-nullable references.
fn no_types(alloc: Global, config: &Config) -> Result<TypeSpace, Error>
    ensures ok { IfOk result (λ space. space ≡ record { types = []; groups = [] }) }
    ensures memory { IfErr result (λ e. e ≡ Error.Memory) }
{
    let mut types = TypeSpace::with_capacity(alloc, config.min_types)?;
    if !config.non_nullable_enabled {
        types.keep_no_grounds();
    }
    Ok(types)
}
