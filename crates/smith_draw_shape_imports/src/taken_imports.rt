ghost use Rattle.std.specs.Prelude.{◌≡◌, ◌<◌, ◌+◌, ◌++◌, ◌∷◌, ◌^◌, [], IsTrue, All, IfOk, IfErr};
ghost use Rattle.std.specs.Prelude.{OnOk, if◌then◌else◌};
ghost use Rattle.smith_types.specs.Sizes.{IsTyped, size_in};
ghost use Rattle.smith_draw_types.specs.Drawing.{Draws};
ghost use Rattle.smith_draw_shape_imports.specs.AvailableImports.{picked_at, fits_beside, CountsTaken};
ghost use Rattle.smith_draw_shape_imports.specs.AvailableImports.{IsImportSized};
ghost use Rattle.smith_module_rules.specs.ShapeImports.{is_allowed, is_fitting};

use smith_bytes::{Error, Unstructured};
use smith_config::Config;
use smith_draw_imports::{Imported, entity_kind, has_room};
use smith_types::{EntityType, Import, Items, TypeSpace};
use std::alloc::Global;

fn is_allowed(config: &Config, added: &EntityType) -> bool
    ensures { result ≡ is_allowed config.now added.now }
{
    match added {
        EntityType::Tag(_) => config.exceptions_enabled,
        _ => true,
    }
}

/// Returns whether an import of the entity `added` fits after `imported`.
fn fits(config: &Config, types: &TypeSpace, imported: &Imported, added: &EntityType) -> bool
    requires typed { IsTyped types.now.types added.now }
    requires few { size_in types.now.types added.now < 2 ^ 32 }
    ensures exact { result ≡ fits_beside config.now types.now.types imported.now added.now }
    ensures count { IsTrue result → imported.now.count + 1 < 2 ^ 64 }
    ensures sum { IsTrue result
        → imported.now.type_size + size_in types.now.types added.now < 2 ^ 32 }
{
    let size = types.size_of(added);
    let most = config.max_type_size;
    imported.count < config.max_imports
        && has_room(config, imported, entity_kind(added))
        && is_allowed(config, added)
        && u64::from(imported.type_size) + u64::from(size) <= u64::from(most)
}

/// Adds the import `one` to `taken` and counts it in `imported`, if it fits.
fn take(
    alloc: Global,
    config: &Config,
    types: &TypeSpace,
    imported: &mut Imported,
    taken: &mut Items<Import>,
    one: &Import,
) -> Result<(), Error>
    requires sized { IsImportSized types.now.types one.now }
    requires counts { CountsTaken types.now.types imported.old taken.old }
    ensures taken { OnOk result
        (taken.new ≡ (if is_fitting config.now types.now.types taken.old one.now
        then taken.old ++ one.now ∷ [] else taken.old)) }
    ensures counts { OnOk result (CountsTaken types.now.types imported.new taken.new) }
    ensures memory { IfErr result (λ e. e ≡ Error.Memory) }
{
    if !fits(config, types, imported, &one.entity_type) {
        return Ok(());
    }
    imported.spaces.push(one.entity_type)?;
    imported.count += 1;
    imported.type_size += types.size_of(&one.entity_type);
    taken.push(one.clone(alloc)?)?;
    Ok(())
}

/// Draws a bool for each import of `offered`, and takes the import if it fits and the bool is true.
pub(crate) fn take_imports(
    alloc: Global,
    config: &Config,
    types: &TypeSpace,
    imported: &mut Imported,
    offered: &[Import],
    u: &mut Unstructured<'_>,
) -> Result<Items<Import>, Error>
    requires sized { All (IsImportSized types.now.types) offered.now }
    requires none { CountsTaken types.now.types imported.old [] }
    ensures draws { Draws (picked_at config.now types.now.types [] offered.now u.old)
        result u.old u.new }
    ensures counts { IfOk result (CountsTaken types.now.types imported.new) }
{
    let mut taken = Items::new(alloc);
    for one in offered {
        if !u.arbitrary::<bool>() {
            continue;
        }
        take(alloc, config, types, imported, &mut taken, one)?;
    }
    Ok(taken)
}
