ghost use Rattle.std.specs.Prelude.{◌≡◌, [], IfOk, IfErr, OnOk};
ghost use Rattle.smith_bytes.specs.Source.{KeepsPieces};
ghost use Rattle.smith_bytes.specs.declared.error.Which.TheVariants.{AvailableImports};
ghost use Rattle.smith_types.specs.Groups.{space_of};
ghost use Rattle.smith_types.specs.Imports.{flattened};
ghost use Rattle.smith_config.specs.Shapes.{IsShapeValid, shape_types, shape_imports};
ghost use Rattle.smith_draw_imports.specs.Imported.{HasNoImports};
ghost use Rattle.smith_draw_shape_imports.specs.AvailableImports.{available_at, IsTaken};
ghost use Rattle.smith_module_rules.specs.ShapeImports.{taken_from};

use crate::flat_imports::flat_imports;
use crate::grouped_imports::group_imports;
use crate::shape_types::types_of_shape;
use crate::taken_imports::take_imports;
use smith_bytes::{Error, Unstructured};
use smith_config::{Config, Shape};
use smith_draw_imports::Imported;
use smith_types::TypeSpace;
use std::alloc::Global;

/// Takes the imports of `shape` that fit and for which a drawn bool is true into `imported`, which
/// has none. Puts them into groups of drawn kinds. `types` are the types of `shape`.
#[tactic(auto, unfolding(crate::specs::AvailableImports::available_at))]
fn take_into(
    alloc: Global,
    config: &Config,
    shape: &Shape,
    types: &TypeSpace,
    imported: &mut Imported,
    u: &mut Unstructured<'_>,
) -> Result<(), Error>
    requires valid { IsShapeValid AvailableImports config.now shape.now }
    requires types { types.now ≡ space_of shape.now.groups }
    requires none { HasNoImports imported.old }
    ensures exact { OnOk result
        (available_at config.now shape.now u.old ≡ (imported.new.groups, u.new)) }
    ensures kept { OnOk result (flattened imported.new.groups
        ≡ taken_from config.now (shape_types shape.now) u.old 0 [] (shape_imports shape.now)) }
    ensures taken { OnOk result (IsTaken config.now shape.now imported.new) }
    ensures memory { IfErr result (λ e. e ≡ Error.Memory) }
    ensures left { KeepsPieces u.old u.new }
{
    let offered = flat_imports(alloc, shape.imports.as_slice())?;
    let taken = take_imports(alloc, config, types, imported, offered.as_slice(), u)?;
    imported.groups = group_imports(alloc, config, taken.as_slice(), u)?;
    Ok(())
}

/// Takes the types of `shape`, and the imports of `shape` that fit and for which a drawn bool is
/// true. Puts these imports into groups of drawn kinds.
///
/// An import fits if it stays within the maximums and the type size of `config`. A tag also needs
/// exceptions. Requires `shape` to pass [`Shape::check`] as available imports for `config`.
pub fn take_available_imports(
    alloc: Global,
    config: &Config,
    shape: &Shape,
    u: &mut Unstructured<'_>,
) -> Result<(TypeSpace, Imported), Error>
    requires valid { IsShapeValid AvailableImports config.now shape.now }

    // The draw.
    ensures exact { IfOk result (λ given.
        available_at config.now shape.now u.old ≡ (given.1.groups, u.new)) }
    ensures types { IfOk result (λ given. given.0 ≡ space_of shape.now.groups) }

    // The imports taken.
    ensures kept { IfOk result (λ given. flattened given.1.groups
        ≡ taken_from config.now (shape_types shape.now) u.old 0 [] (shape_imports shape.now)) }
    ensures taken { IfOk result (λ given. IsTaken config.now shape.now given.1) }

    // Refusals and the source.
    ensures memory { IfErr result (λ e. e ≡ Error.Memory) }
    ensures left { KeepsPieces u.old u.new }
{
    let types = types_of_shape(alloc, shape)?;
    let mut imported = Imported::new(alloc);
    take_into(alloc, config, shape, &types, &mut imported, u).and(Ok((types, imported)))
}
