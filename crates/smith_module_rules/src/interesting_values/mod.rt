//! The interesting values of a module: values for every module, and values near the limits of its
//! tables and memories.

ghost use Rattle.std.specs.Prelude.{◌≡◌, ◌≤◌, List, All, IfOk, IfErr};
ghost use Rattle.smith_types.specs.Entities.{page_log2};
ghost use Rattle.smith_types.specs.Syntax.entity_type.TableType.{TableType as Table};
ghost use Rattle.smith_types.specs.Syntax.entity_type.MemoryType.{MemoryType as Memory};
ghost use Rattle.smith_module_rules.specs.InterestingValues.{AreAll, IsInteresting64, IsInteresting32};
ghost use Rattle.smith_module_rules.specs.CollectedValues.{AreExactly, Wide, IsNearLimit, IsSortedSet};

mod constants;
mod limits;
mod merges;

use constants::{narrow_constants, wide_constants};
use limits::near_limits;
use merges::{merge32, merge64};
use smith_bytes::Error;
use smith_types::{Items, MemoryType, TableType};
use std::alloc::Global;

fn in_order64(mut wide: Vec<u64>) -> Result<Vec<u64>, Error>
    ensures order { IfOk result (λ made. IsSortedSet wide.items made.items) }
    ensures memory { IfErr result (λ e. e ≡ Error.Memory) }
{
    wide.sort()?;
    wide.dedup();
    Ok(wide)
}

fn in_order32(mut narrow: Vec<u32>) -> Result<Vec<u32>, Error>
    ensures order { IfOk result (λ made. IsSortedSet narrow.items made.items) }
    ensures memory { IfErr result (λ e. e ≡ Error.Memory) }
{
    narrow.sort()?;
    narrow.dedup();
    Ok(narrow)
}

// Lists the 64-bit values of a module: the values for every module, and `near`, the values near its
// limits.
fn wide_values(alloc: Global, near: &[u64]) -> Result<Items<u64>, Error>
    ensures those { (tables : List Table) (memories : List Memory)
        → AreExactly (Wide (IsNearLimit tables memories)) near.now
        → IfOk result (AreAll (IsInteresting64 tables memories)) }
    ensures memory { IfErr result (λ e. e ≡ Error.Memory) }
{
    let numbers = in_order64(Vec::from_slice(alloc, near)?)?;
    merge64(alloc, wide_constants(), &numbers)
}

// Lists the 32-bit values of a module: the low halves of its 64-bit values. `near` has the values
// near its limits.
fn narrow_values(alloc: Global, near: &[u64]) -> Result<Items<u32>, Error>
    ensures those { (tables : List Table) (memories : List Memory)
        → AreExactly (Wide (IsNearLimit tables memories)) near.now
        → IfOk result (AreAll (IsInteresting32 tables memories)) }
    ensures memory { IfErr result (λ e. e ≡ Error.Memory) }
{
    let mut halves = Vec::with_capacity(alloc, near.len())?;
    for number in near {
        halves.push((*number % (1 << 32)) as u32)?;
    }
    let numbers = in_order32(halves)?;
    merge32(alloc, narrow_constants(), &numbers)
}

/// Collects the interesting values of a module with `tables` and `memories`: first the values of 32
/// bits, then the values of 64 bits, each list in ascending order. A page of a memory has at most
/// 2^16 bytes.
pub fn collect_interesting_values(
    alloc: Global,
    tables: &[TableType],
    memories: &[MemoryType],
) -> Result<(Items<u32>, Items<u64>), Error>
    requires pages { All (λ (memory : Memory). page_log2 memory.page_size_log2 ≤ 16) memories.now }
    ensures narrow { IfOk result (λ values.
        AreAll (IsInteresting32 tables.now memories.now) values.0) }
    ensures wide { IfOk result (λ values.
        AreAll (IsInteresting64 tables.now memories.now) values.1) }
    ensures memory { IfErr result (λ e. e ≡ Error.Memory) }
{
    let near = near_limits(alloc, tables, memories)?;
    let narrow = narrow_values(alloc, near.as_slice())?;
    let wide = wide_values(alloc, near.as_slice())?;
    Ok((narrow, wide))
}
