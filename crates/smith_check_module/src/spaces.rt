ghost use Rattle.std.specs.Prelude.{◌≡◌, ◌++◌, map, OnOk, IfOk, IfErr};
ghost use Rattle.smith_types.specs.EntitySpaces.{spaces_in};
ghost use Rattle.smith_types.specs.Imports.{imported_spaces};
ghost use Rattle.smith_decode.specs.Modules.{syntax_of, tag_index};
ghost use Rattle.smith_check_types.specs.TypeSections.{canonical_index};
ghost use Rattle.smith_check_module.specs.CanonicalModules.{renamed_global, renamed_table};
ghost use Rattle.smith_check_module.specs.Contexts.{spaces_in as spaces_of_module};
ghost use Rattle.smith_check_module.specs.Judges.{global_type, table_type};

use smith_binary_read::TagDefinition;
use smith_bytes::Error;
use smith_check_types::{canonical_index, canonical_ref_type, canonical_val_type};
use smith_decode::{GlobalDefinition, Module, TableDefinition};
use smith_types::{EntitySpaces, GlobalType, Items, MemoryType, TableType};
use std::alloc::Global;

/// Returns the index spaces of `module`, whose imports have the index spaces `imported`, by the
/// canonical `indices` of types.
pub fn canonical_spaces(
    alloc: Global,
    indices: &[u32],
    imported: &EntitySpaces,
    module: &Module,
) -> Result<EntitySpaces, Error>
    requires { spaces_in imported.now ≡ imported_spaces (syntax_of «module».now).imports }
    ensures ok { IfOk result (λ made.
        spaces_in made ≡ spaces_of_module indices.now (syntax_of «module».now)) }
    ensures memory { IfErr result (λ e. e ≡ Error.Memory) }
{
    let tags = tags_of(
        alloc,
        indices,
        imported.tags.as_slice(),
        module.tags.as_slice(),
    )?;
    let funcs = funcs_of(
        alloc,
        indices,
        imported.funcs.as_slice(),
        module.functions.as_slice(),
    )?;
    let tables = tables_of(
        alloc,
        indices,
        imported.tables.as_slice(),
        module.tables.as_slice(),
    )?;
    let memories = memories_of(
        alloc,
        imported.memories.as_slice(),
        module.memories.as_slice(),
    )?;
    let globals = globals_of(
        alloc,
        indices,
        imported.globals.as_slice(),
        module.globals.as_slice(),
    )?;
    Ok(EntitySpaces {
        tags,
        funcs,
        tables,
        memories,
        globals,
    })
}

fn tags_of(
    alloc: Global,
    indices: &[u32],
    imported: &[u32],
    tags: &[TagDefinition],
) -> Result<Items<u32>, Error>
    ensures ok { IfOk result (λ made. made
        ≡ map (canonical_index indices.now) (imported.now ++ map tag_index tags.now)) }
    ensures memory { IfErr result (λ e. e ≡ Error.Memory) }
{
    let mut made = Items::new(alloc);
    push_indices(&mut made, indices, imported)?;
    push_tags(&mut made, indices, tags)?;
    Ok(made)
}

fn funcs_of(
    alloc: Global,
    indices: &[u32],
    imported: &[u32],
    functions: &[u32],
) -> Result<Items<u32>, Error>
    ensures ok { IfOk result (λ made. made
        ≡ map (canonical_index indices.now) (imported.now ++ functions.now)) }
    ensures memory { IfErr result (λ e. e ≡ Error.Memory) }
{
    let mut made = Items::new(alloc);
    push_indices(&mut made, indices, imported)?;
    push_indices(&mut made, indices, functions)?;
    Ok(made)
}

fn tables_of(
    alloc: Global,
    indices: &[u32],
    imported: &[TableType],
    tables: &[TableDefinition],
) -> Result<Items<TableType>, Error>
    ensures ok { IfOk result (λ made. made
        ≡ map (renamed_table (canonical_index indices.now)) (imported.now ++ map table_type tables.now)) }
    ensures memory { IfErr result (λ e. e ≡ Error.Memory) }
{
    let mut made = Items::new(alloc);
    push_tables(&mut made, indices, imported)?;
    push_table_definitions(&mut made, indices, tables)?;
    Ok(made)
}

fn memories_of(
    alloc: Global,
    imported: &[MemoryType],
    memories: &[MemoryType],
) -> Result<Items<MemoryType>, Error>
    ensures ok { IfOk result (λ made. made ≡ imported.now ++ memories.now) }
    ensures memory { IfErr result (λ e. e ≡ Error.Memory) }
{
    let mut made = Items::from_slice(alloc, imported)?;
    made.extend_from_slice(memories)?;
    Ok(made)
}

fn globals_of(
    alloc: Global,
    indices: &[u32],
    imported: &[GlobalType],
    globals: &[GlobalDefinition],
) -> Result<Items<GlobalType>, Error>
    ensures ok { IfOk result (λ made. made
        ≡ map (renamed_global (canonical_index indices.now)) (imported.now ++ map global_type globals.now)) }
    ensures memory { IfErr result (λ e. e ≡ Error.Memory) }
{
    let mut made = Items::new(alloc);
    push_globals(&mut made, indices, imported)?;
    push_global_definitions(&mut made, indices, globals)?;
    Ok(made)
}

fn push_indices(made: &mut Items<u32>, indices: &[u32], list: &[u32]) -> Result<(), Error>
    ensures ok { OnOk result (made.new ≡ made.old ++ map (canonical_index indices.now) list.now) }
    ensures memory { IfErr result (λ e. e ≡ Error.Memory) }
{
    for item in list {
        made.push(canonical_index(indices, *item))?;
    }
    Ok(())
}

fn push_tags(made: &mut Items<u32>, indices: &[u32], list: &[TagDefinition]) -> Result<(), Error>
    ensures ok { OnOk result (made.new
        ≡ made.old ++ map (canonical_index indices.now) (map tag_index list.now)) }
    ensures memory { IfErr result (λ e. e ≡ Error.Memory) }
{
    for item in list {
        made.push(canonical_index(indices, item.0))?;
    }
    Ok(())
}

fn canonical_table(indices: &[u32], table: TableType) -> TableType
    ensures { result ≡ renamed_table (canonical_index indices.now) table }
{
    TableType {
        element_type: canonical_ref_type(indices, table.element_type),
        minimum: table.minimum,
        maximum: table.maximum,
        table64: table.table64,
        shared: table.shared,
    }
}

fn push_tables(
    made: &mut Items<TableType>,
    indices: &[u32],
    list: &[TableType],
) -> Result<(), Error>
    ensures ok { OnOk result (made.new
        ≡ made.old ++ map (renamed_table (canonical_index indices.now)) list.now) }
    ensures memory { IfErr result (λ e. e ≡ Error.Memory) }
{
    for item in list {
        made.push(canonical_table(indices, *item))?;
    }
    Ok(())
}

fn push_table_definitions(
    made: &mut Items<TableType>,
    indices: &[u32],
    list: &[TableDefinition],
) -> Result<(), Error>
    ensures ok { OnOk result (made.new ≡ made.old
        ++ map (renamed_table (canonical_index indices.now)) (map table_type list.now)) }
    ensures memory { IfErr result (λ e. e ≡ Error.Memory) }
{
    for item in list {
        made.push(canonical_table(indices, item.ty))?;
    }
    Ok(())
}

fn canonical_global(indices: &[u32], global: GlobalType) -> GlobalType
    ensures { result ≡ renamed_global (canonical_index indices.now) global }
{
    GlobalType {
        val_type: canonical_val_type(indices, global.val_type),
        mutable: global.mutable,
        shared: global.shared,
    }
}

fn push_globals(
    made: &mut Items<GlobalType>,
    indices: &[u32],
    list: &[GlobalType],
) -> Result<(), Error>
    ensures ok { OnOk result (made.new
        ≡ made.old ++ map (renamed_global (canonical_index indices.now)) list.now) }
    ensures memory { IfErr result (λ e. e ≡ Error.Memory) }
{
    for item in list {
        made.push(canonical_global(indices, *item))?;
    }
    Ok(())
}

fn push_global_definitions(
    made: &mut Items<GlobalType>,
    indices: &[u32],
    list: &[GlobalDefinition],
) -> Result<(), Error>
    ensures ok { OnOk result (made.new ≡ made.old
        ++ map (renamed_global (canonical_index indices.now)) (map global_type list.now)) }
    ensures memory { IfErr result (λ e. e ≡ Error.Memory) }
{
    for item in list {
        made.push(canonical_global(indices, item.ty))?;
    }
    Ok(())
}
