use crate::change::Change;
use smith_bytes::Unstructured;
use smith_decode::Module;
use smith_types::{MemoryType, TableType};

// Draws a minimum above the maximum `most`, of 64 bits or of 32, if there is one.
fn above(most: u64, is_64_bit: bool, u: &mut Unstructured<'_>) -> Option<u64> {
    let greatest = if is_64_bit {
        u64::MAX
    } else {
        u64::from(u32::MAX)
    };
    if most >= greatest {
        return None;
    }
    Some(u.int_in_range(most + 1..=greatest))
}

/// Returns a type with a minimum above its maximum.
pub(crate) fn disordered_table(table: TableType, u: &mut Unstructured<'_>) -> Option<TableType> {
    let most = table.maximum.unwrap_or(table.minimum);
    let minimum = above(most, table.table64, u)?;
    Some(TableType {
        element_type: table.element_type,
        minimum,
        maximum: Some(most),
        table64: table.table64,
        shared: table.shared,
    })
}

/// Returns a type with a minimum above its maximum.
pub(crate) fn disordered_memory(
    memory: MemoryType,
    u: &mut Unstructured<'_>,
) -> Option<MemoryType> {
    let most = memory.maximum.unwrap_or(memory.minimum);
    let minimum = above(most, memory.memory64, u)?;
    Some(MemoryType {
        minimum,
        maximum: Some(most),
        memory64: memory.memory64,
        shared: memory.shared,
        page_size_log2: memory.page_size_log2,
    })
}

// Draws a table whose minimum gets above its maximum.
fn break_table(module: &Module, u: &mut Unstructured<'_>) -> Option<Change> {
    let count = module.tables.len();
    if count == 0 {
        return None;
    }
    let index = u.int_in_range(0..=count - 1);
    let ty = disordered_table(module.tables[index].ty, u)?;
    Some(Change::Table { index, ty })
}

// Draws a memory whose minimum gets above its maximum.
fn break_memory(module: &Module, u: &mut Unstructured<'_>) -> Option<Change> {
    let count = module.memories.len();
    if count == 0 {
        return None;
    }
    let index = u.int_in_range(0..=count - 1);
    let ty = disordered_memory(module.memories[index], u)?;
    Some(Change::Memory { index, ty })
}

/// Draws a table or a memory whose minimum gets above its maximum.
pub(crate) fn break_limits(module: &Module, u: &mut Unstructured<'_>) -> Option<Change> {
    let is_table_first: bool = u.arbitrary();
    let first = if is_table_first {
        break_table(module, u)
    } else {
        break_memory(module, u)
    };
    match first {
        Some(change) => Some(change),
        None if is_table_first => break_memory(module, u),
        None => break_table(module, u),
    }
}
