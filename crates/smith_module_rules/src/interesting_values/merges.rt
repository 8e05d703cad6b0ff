//! Merges of the values near limits with the values of every module.

ghost use Rattle.std.specs.Prelude.{◌≡◌, ◌++◌, IfOk, IfErr};
ghost use Rattle.std.specs.List.Sorted.{IsStrictlyIncreasing};
ghost use Rattle.smith_module_rules.specs.CollectedValues.{IsSortedSet, IsPlaceOf, IsInserted};

use smith_bytes::Error;
use smith_types::Items;
use std::alloc::Global;

// Returns the range of `numbers` that holds `number`. If `number` is absent, the range is empty, at
// the place where it would be.
fn place64(numbers: &[u64], number: u64) -> (usize, usize)
    requires { IsStrictlyIncreasing numbers.now }
    ensures { IsPlaceOf numbers.now number result.0 result.1 }
{
    match numbers.binary_search(&number) {
        Ok(at) => (at, at + 1),
        Err(at) => (at, at),
    }
}

// Adds the numbers of `rest` below `number` to `made`, then `number`. Returns the numbers of `rest`
// above it.
fn put64<'a>(made: &mut Vec<u64>, rest: &'a [u64], number: u64) -> Result<&'a [u64], Error>
    requires { IsStrictlyIncreasing rest.now }
    ensures put { IfOk result (λ left.
        IsInserted made.old.items rest.now number made.new.items left.now) }
    ensures memory { IfErr result (λ e. e ≡ Error.Memory) }
{
    let (before, after) = place64(rest, number);
    made.extend_from_slice(&rest[..before])?;
    made.push(number)?;
    Ok(&rest[after..])
}

/// Merges `constants` and `near`. Each list is in ascending order and has each number once.
pub(super) fn merge64(alloc: Global, constants: &[u64], near: &[u64]) -> Result<Items<u64>, Error>
    requires constants { IsStrictlyIncreasing constants.now }
    requires near { IsStrictlyIncreasing near.now }
    ensures order { IfOk result (IsSortedSet (constants.now ++ near.now)) }
    ensures memory { IfErr result (λ e. e ≡ Error.Memory) }
{
    let mut made = Vec::with_capacity(alloc, constants.len().saturating_add(near.len()))?;
    let mut rest = constants;
    for number in near {
        rest = put64(&mut made, rest, *number)?;
    }
    made.extend_from_slice(rest)?;
    Ok(Items::from_vec(made))
}

// Returns the range of `numbers` that holds `number`. If `number` is absent, the range is empty, at
// the place where it would be.
fn place32(numbers: &[u32], number: u32) -> (usize, usize)
    requires { IsStrictlyIncreasing numbers.now }
    ensures { IsPlaceOf numbers.now number result.0 result.1 }
{
    match numbers.binary_search(&number) {
        Ok(at) => (at, at + 1),
        Err(at) => (at, at),
    }
}

// Adds the numbers of `rest` below `number` to `made`, then `number`. Returns the numbers of `rest`
// above it.
fn put32<'a>(made: &mut Vec<u32>, rest: &'a [u32], number: u32) -> Result<&'a [u32], Error>
    requires { IsStrictlyIncreasing rest.now }
    ensures put { IfOk result (λ left.
        IsInserted made.old.items rest.now number made.new.items left.now) }
    ensures memory { IfErr result (λ e. e ≡ Error.Memory) }
{
    let (before, after) = place32(rest, number);
    made.extend_from_slice(&rest[..before])?;
    made.push(number)?;
    Ok(&rest[after..])
}

/// Merges `constants` and `near`. Each list is in ascending order and has each number once.
pub(super) fn merge32(alloc: Global, constants: &[u32], near: &[u32]) -> Result<Items<u32>, Error>
    requires constants { IsStrictlyIncreasing constants.now }
    requires near { IsStrictlyIncreasing near.now }
    ensures order { IfOk result (IsSortedSet (constants.now ++ near.now)) }
    ensures memory { IfErr result (λ e. e ≡ Error.Memory) }
{
    let mut made = Vec::with_capacity(alloc, constants.len().saturating_add(near.len()))?;
    let mut rest = constants;
    for number in near {
        rest = put32(&mut made, rest, *number)?;
    }
    made.extend_from_slice(rest)?;
    Ok(Items::from_vec(made))
}
