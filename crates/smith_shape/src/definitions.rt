ghost use Rattle.std.specs.Prelude.{◌≡◌, map, IfOk, IfErr};
ghost use Rattle.smith_decode.specs.Modules.{export_triple, tag_index};
ghost use Rattle.smith_shape.specs.ModuleShapes.{global_type, table_type};

use smith_binary_read::{Export, TagDefinition};
use smith_bytes::Error;
use smith_decode::{GlobalDefinition, TableDefinition};
use smith_types::{CloneIn, ExportKind, GlobalType, Items, Name, TableType};
use std::alloc::Global;

/// Returns the type index of each of `tags`.
pub(crate) fn tag_indices(alloc: Global, tags: &[TagDefinition]) -> Result<Items<u32>, Error>
    ensures ok { IfOk result (λ made. made ≡ map tag_index tags.now) }
    ensures memory { IfErr result (λ e. e ≡ Error.Memory) }
{
    let mut made = Items::with_capacity(alloc, tags.len())?;
    for tag in tags {
        made.push(tag.0)?;
    }
    Ok(made)
}

/// Returns the type of each of `tables`.
pub(crate) fn table_types(
    alloc: Global,
    tables: &[TableDefinition],
) -> Result<Items<TableType>, Error>
    ensures ok { IfOk result (λ made. made ≡ map table_type tables.now) }
    ensures memory { IfErr result (λ e. e ≡ Error.Memory) }
{
    let mut made = Items::with_capacity(alloc, tables.len())?;
    for table in tables {
        made.push(table.ty)?;
    }
    Ok(made)
}

/// Returns the type of each of `globals`.
pub(crate) fn global_types(
    alloc: Global,
    globals: &[GlobalDefinition],
) -> Result<Items<GlobalType>, Error>
    ensures ok { IfOk result (λ made. made ≡ map global_type globals.now) }
    ensures memory { IfErr result (λ e. e ≡ Error.Memory) }
{
    let mut made = Items::with_capacity(alloc, globals.len())?;
    for global in globals {
        made.push(global.ty)?;
    }
    Ok(made)
}

/// Returns the name, the kind and the index of each of `exports`.
pub(crate) fn export_triples(
    alloc: Global,
    exports: &[Export],
) -> Result<Items<(Name, ExportKind, u32)>, Error>
    ensures ok { IfOk result (λ made. made ≡ map export_triple exports.now) }
    ensures memory { IfErr result (λ e. e ≡ Error.Memory) }
{
    let mut made = Items::with_capacity(alloc, exports.len())?;
    for export in exports {
        made.push((export.name.clone_in(alloc)?, export.kind, export.index))?;
    }
    Ok(made)
}
