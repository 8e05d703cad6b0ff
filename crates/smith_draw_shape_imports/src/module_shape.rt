ghost use Rattle.std.specs.Prelude.{◌≡◌, ◌<◌, ◌^◌, ◌++◌, map, length, IfOk, IfErr, OnOk};
ghost use Rattle.smith_bytes.specs.declared.error.Which.TheVariants.{ModuleShape};
ghost use Rattle.smith_types.specs.Imports.{flattened, imports_of, import_of};
ghost use Rattle.smith_types.specs.Syntax.imports.ImportItem.{ImportItem as Item};
ghost use Rattle.smith_types.specs.Syntax.imports.Imports.TheVariants.{Single};
ghost use Rattle.smith_config.specs.Shapes.{IsShapeValid};
ghost use Rattle.smith_draw_shape_imports.specs.KeptImports.{kept_of, AreKept};
ghost use Rattle.smith_module_rules.specs.ShapeImports.{kept_groups};

use smith_bytes::Error;
use smith_config::{Config, Shape};
use smith_draw_imports::{Imported, has_imports};
use smith_types::{EntityType, Import, ImportItem, Imports, Items, Name, imported_spaces_of};
use std::alloc::Global;
use std::collections::HashSet;

fn push_items(
    alloc: Global,
    module: &Name,
    items: &[ImportItem],
    groups: &mut Items<Imports>,
) -> Result<(), Error>
    ensures ok { OnOk result (groups.new ≡ groups.old ++ map Single (map
        (λ (item : Item). import_of «module».now item.name item.entity_type) items.now)) }
    ensures memory { IfErr result (λ e. e ≡ Error.Memory) }
{
    for item in items {
        groups.push(Imports::Single(Import {
            module: module.clone(alloc)?,
            name: item.name.clone(alloc)?,
            entity_type: item.entity_type,
        }))?;
    }
    Ok(())
}

fn push_names(
    alloc: Global,
    module: &Name,
    entity_type: EntityType,
    names: &[Name],
    groups: &mut Items<Imports>,
) -> Result<(), Error>
    ensures ok { OnOk result (groups.new ≡ groups.old ++ map Single (map
        (λ name. import_of «module».now name entity_type) names.now)) }
    ensures memory { IfErr result (λ e. e ≡ Error.Memory) }
{
    for name in names {
        groups.push(Imports::Single(Import {
            module: module.clone(alloc)?,
            name: name.clone(alloc)?,
            entity_type,
        }))?;
    }
    Ok(())
}

/// Adds the imports of `group` to `groups` one by one.
fn push_singles(alloc: Global, group: &Imports, groups: &mut Items<Imports>) -> Result<(), Error>
    ensures ok { OnOk result (groups.new ≡ groups.old ++ map Single (imports_of group.now)) }
    ensures memory { IfErr result (λ e. e ≡ Error.Memory) }
{
    match group {
        Imports::Single(import) => groups.push(Imports::Single(import.clone(alloc)?)),
        Imports::Compact1 { module, items } => push_items(alloc, module, items.as_slice(), groups),
        Imports::Compact2 {
            module,
            entity_type,
            names,
        } => push_names(alloc, module, *entity_type, names.as_slice(), groups),
    }
}

/// Adds `group` to `groups` in the form in which a module has it: whole unless it is empty, or as
/// single imports if `config` has no compact imports.
fn push_kept(
    alloc: Global,
    config: &Config,
    group: &Imports,
    groups: &mut Items<Imports>,
) -> Result<(), Error>
    ensures ok { OnOk result
        (groups.new ≡ groups.old ++ kept_of config.now.compact_imports_enabled group.now) }
    ensures memory { IfErr result (λ e. e ≡ Error.Memory) }
{
    if !config.compact_imports_enabled {
        return push_singles(alloc, group, groups);
    }
    if !has_imports(group) {
        return Ok(());
    }
    groups.push(group.clone(alloc)?)
}

/// Lists the groups of the imports of `shape` in the form in which a module has them.
fn kept_groups_of(alloc: Global, config: &Config, shape: &Shape) -> Result<Items<Imports>, Error>
    ensures kept { IfOk result (λ groups. groups ≡ kept_groups config.now shape.now) }
    ensures memory { IfErr result (λ e. e ≡ Error.Memory) }
{
    let mut groups = Items::new(alloc);
    for group in shape.imports.as_slice() {
        push_kept(alloc, config, group, &mut groups)?;
    }
    Ok(groups)
}

fn group_size(group: &Imports) -> usize
    ensures { result ≡ length (imports_of group.now) }
{
    match group {
        Imports::Single(_) => 1,
        Imports::Compact1 { items, .. } => items.len(),
        Imports::Compact2 { names, .. } => names.len(),
    }
}

/// Counts the imports of all `groups`.
fn count_imports(groups: &[Imports]) -> usize
    requires few { length (flattened groups.now) < 2 ^ 64 }
    ensures { result ≡ length (flattened groups.now) }
{
    let mut count = 0;
    for group in groups {
        count += group_size(group);
    }
    count
}

/// Copies the imports of the module shape `shape`: its groups without the empty ones, or single
/// imports if `config` has no compact imports. They add nothing to the type size.
///
/// Requires `shape` to pass [`Shape::check`] as a module shape for `config`.
pub fn imports_of_shape(alloc: Global, config: &Config, shape: &Shape) -> Result<Imported, Error>
    requires valid { IsShapeValid ModuleShape config.now shape.now }
    ensures kept { IfOk result (AreKept config.now shape.now) }
    ensures memory { IfErr result (λ e. e ≡ Error.Memory) }
{
    let groups = kept_groups_of(alloc, config, shape)?;
    let imports = shape.imports.as_slice();
    let spaces = imported_spaces_of(alloc, imports)?;
    Ok(Imported {
        groups,
        spaces,
        count: count_imports(imports),
        type_size: 0,
        pairs: HashSet::new(alloc),
    })
}
