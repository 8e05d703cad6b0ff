ghost use Rattle.std.specs.Prelude.{◌≡◌, ◌++◌, map, OnOk, IfOk, IfErr};
ghost use Rattle.smith_types.specs.Imports.{import_of, imports_of, flattened};
ghost use Rattle.smith_types.specs.Syntax.imports.ImportItem.{ImportItem as Item};

use smith_bytes::Error;
use smith_types::{EntityType, Import, ImportItem, Imports, Items, Name};
use std::alloc::Global;

fn push_items(
    alloc: Global,
    flat: &mut Items<Import>,
    from: &Name,
    items: &[ImportItem],
) -> Result<(), Error>
    ensures ok { OnOk result (flat.new ≡ flat.old
        ++ map (λ (item : Item). import_of from.now item.name item.entity_type) items.now) }
    ensures memory { IfErr result (λ e. e ≡ Error.Memory) }
{
    for item in items {
        flat.push(Import {
            module: from.clone(alloc)?,
            name: item.name.clone(alloc)?,
            entity_type: item.entity_type,
        })?;
    }
    Ok(())
}

fn push_names(
    alloc: Global,
    flat: &mut Items<Import>,
    from: &Name,
    entity_type: EntityType,
    names: &[Name],
) -> Result<(), Error>
    ensures ok { OnOk result
        (flat.new ≡ flat.old ++ map (λ name. import_of from.now name entity_type) names.now) }
    ensures memory { IfErr result (λ e. e ≡ Error.Memory) }
{
    for name in names {
        flat.push(Import {
            module: from.clone(alloc)?,
            name: name.clone(alloc)?,
            entity_type,
        })?;
    }
    Ok(())
}

/// Adds the imports of `group` to `flat` one by one. An empty group adds none.
fn push_group(alloc: Global, flat: &mut Items<Import>, group: &Imports) -> Result<(), Error>
    ensures ok { OnOk result (flat.new ≡ flat.old ++ imports_of group.now) }
    ensures memory { IfErr result (λ e. e ≡ Error.Memory) }
{
    match group {
        Imports::Single(import) => flat.push(import.clone(alloc)?),
        Imports::Compact1 { module, items } => push_items(alloc, flat, module, items.as_slice()),
        Imports::Compact2 {
            module,
            entity_type,
            names,
        } => push_names(alloc, flat, module, *entity_type, names.as_slice()),
    }
}

/// Lists the imports of `groups` one by one, in a list allocated from `alloc`.
pub(crate) fn flat_imports(alloc: Global, groups: &[Imports]) -> Result<Items<Import>, Error>
    ensures ok { IfOk result (λ flat. flat ≡ flattened groups.now) }
    ensures memory { IfErr result (λ e. e ≡ Error.Memory) }
{
    let mut flat = Items::new(alloc);
    for group in groups {
        push_group(alloc, &mut flat, group)?;
    }
    Ok(flat)
}
