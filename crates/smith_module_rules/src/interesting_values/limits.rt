//! The values near the limits of tables and memories.

ghost use Rattle.std.specs.Prelude.{◌≡◌, ◌+◌, ◌≤◌, Any, All, IfOk, OnOk, IfErr};
ghost use Rattle.smith_types.specs.Entities.{page_log2};
ghost use Rattle.smith_types.specs.Syntax.entity_type.MemoryType.{MemoryType as Memory};
ghost use Rattle.smith_module_rules.specs.InterestingValues.{IsNearTable, IsNearMemory, bytes_of};
ghost use Rattle.smith_module_rules.specs.CollectedValues.{AreExactly, AddsNumbers, Wide, IsNearElements};
ghost use Rattle.smith_module_rules.specs.CollectedValues.{IsBeside, IsNearBytes, IsNearLimit, distances};

use smith_bytes::Error;
use smith_types::{Items, MemoryType, TableType};
use std::alloc::Global;

fn push_sum(numbers: &mut Items<u64>, limit: u64, distance: u64) -> Result<(), Error>
    ensures adds { OnOk result (AddsNumbers (λ n. n ≡ limit + distance) numbers.old numbers.new) }
    ensures memory { IfErr result (λ e. e ≡ Error.Memory) }
{
    match limit.checked_add(distance) {
        Some(sum) => numbers.push(sum),
        None => Ok(()),
    }
}

fn push_difference(numbers: &mut Items<u64>, limit: u64, distance: u64) -> Result<(), Error>
    ensures adds { OnOk result (AddsNumbers (λ n. n + distance ≡ limit) numbers.old numbers.new) }
    ensures memory { IfErr result (λ e. e ≡ Error.Memory) }
{
    match limit.checked_sub(distance) {
        Some(difference) => numbers.push(difference),
        None => Ok(()),
    }
}

fn push_beside(numbers: &mut Items<u64>, limit: u64, distance: u64) -> Result<(), Error>
    ensures adds { OnOk result (AddsNumbers (IsBeside limit distance) numbers.old numbers.new) }
    ensures memory { IfErr result (λ e. e ≡ Error.Memory) }
{
    push_sum(numbers, limit, distance)?;
    push_difference(numbers, limit, distance)
}

fn push_near_elements(numbers: &mut Items<u64>, limit: u64) -> Result<(), Error>
    ensures adds { OnOk result (AddsNumbers (IsNearElements limit) numbers.old numbers.new) }
    ensures memory { IfErr result (λ e. e ≡ Error.Memory) }
{
    numbers.push(limit)?;
    push_sum(numbers, limit, 1)
}

fn push_near_table(numbers: &mut Items<u64>, table: &TableType) -> Result<(), Error>
    ensures adds { OnOk result
        (AddsNumbers (λ n. IsNearTable n table.now) numbers.old numbers.new) }
    ensures memory { IfErr result (λ e. e ≡ Error.Memory) }
{
    push_near_elements(numbers, table.minimum)?;
    match table.maximum {
        Some(maximum) => push_near_elements(numbers, maximum),
        None => Ok(()),
    }
}

fn push_distances(numbers: &mut Items<u64>, bytes: u64) -> Result<(), Error>
    ensures adds { OnOk result (AddsNumbers
        (λ n. Any (λ distance. IsBeside bytes distance n) distances) numbers.old numbers.new) }
    ensures memory { IfErr result (λ e. e ≡ Error.Memory) }
{
    for distance in [1, 2, 4, 8, 16] {
        push_beside(numbers, bytes, distance)?;
    }
    Ok(())
}

fn push_near_bytes(numbers: &mut Items<u64>, bytes: u64) -> Result<(), Error>
    ensures adds { OnOk result (AddsNumbers (IsNearBytes bytes) numbers.old numbers.new) }
    ensures memory { IfErr result (λ e. e ≡ Error.Memory) }
{
    numbers.push(bytes)?;
    push_distances(numbers, bytes)
}

// Returns the number of bytes of `pages` pages of `memory`, at most `2^64 - 1`.
fn bytes_of(memory: &MemoryType, pages: u64) -> u64
    requires { page_log2 memory.now.page_size_log2 ≤ 16 }
    ensures { result ≡ bytes_of memory.now pages }
{
    pages.saturating_mul(1 << memory.page_size_log2.unwrap_or(16))
}

fn push_near_memory(numbers: &mut Items<u64>, memory: &MemoryType) -> Result<(), Error>
    requires { page_log2 memory.now.page_size_log2 ≤ 16 }
    ensures adds { OnOk result
        (AddsNumbers (λ n. IsNearMemory n memory.now) numbers.old numbers.new) }
    ensures memory { IfErr result (λ e. e ≡ Error.Memory) }
{
    push_near_bytes(numbers, bytes_of(memory, memory.minimum))?;
    match memory.maximum {
        Some(maximum) => push_near_bytes(numbers, bytes_of(memory, maximum)),
        None => Ok(()),
    }
}

fn push_near_tables(numbers: &mut Items<u64>, tables: &[TableType]) -> Result<(), Error>
    ensures adds { OnOk result
        (AddsNumbers (λ n. Any (IsNearTable n) tables.now) numbers.old numbers.new) }
    ensures memory { IfErr result (λ e. e ≡ Error.Memory) }
{
    for table in tables {
        push_near_table(numbers, table)?;
    }
    Ok(())
}

fn push_near_memories(numbers: &mut Items<u64>, memories: &[MemoryType]) -> Result<(), Error>
    requires { All (λ (memory : Memory). page_log2 memory.page_size_log2 ≤ 16) memories.now }
    ensures adds { OnOk result
        (AddsNumbers (λ n. Any (IsNearMemory n) memories.now) numbers.old numbers.new) }
    ensures memory { IfErr result (λ e. e ≡ Error.Memory) }
{
    for memory in memories {
        push_near_memory(numbers, memory)?;
    }
    Ok(())
}

/// Lists the values near the limits of `tables` and `memories`, in their order, some more than
/// once.
pub(super) fn near_limits(
    alloc: Global,
    tables: &[TableType],
    memories: &[MemoryType],
) -> Result<Items<u64>, Error>
    requires { All (λ (memory : Memory). page_log2 memory.page_size_log2 ≤ 16) memories.now }
    ensures near { IfOk result (AreExactly (Wide (IsNearLimit tables.now memories.now))) }
    ensures memory { IfErr result (λ e. e ≡ Error.Memory) }
{
    let mut numbers = Items::new(alloc);
    push_near_tables(&mut numbers, tables)?;
    push_near_memories(&mut numbers, memories)?;
    Ok(numbers)
}
