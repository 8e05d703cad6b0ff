ghost use Rattle.std.specs.Prelude.{◌≡◌, ◌+◌, ◌<◌, ◌^◌, ◌++◌, ℕ, List, Some, IfOk, IfErr, OnOk};
ghost use Rattle.std.specs.Prelude.{unwrap_or, bytes_eq, if◌then◌else◌};
ghost use Rattle.smith_check_types.specs.FirstGroups.{known_start, numbers_from};

use smith_bytes::Error;
use std::collections::BTreeMap;

// Returns the start of the first group whose numbers are `codes`. If there is none yet, that is
// `next`, which is added to `starts`.
pub(crate) fn first_start(
    starts: &mut BTreeMap<Vec<u64>, u32>,
    codes: Vec<u64>,
    next: u32,
) -> Result<u32, Error>
    ensures start { IfOk result (λ start.
        start ≡ unwrap_or (known_start starts.old codes.items) next) }
    ensures starts { IfOk result (λ start. (other : List ℕ) → known_start starts.new other
        ≡ (if bytes_eq codes.items other then Some start else known_start starts.old other)) }
    ensures memory { IfErr result (λ e. e ≡ Error.Memory) }
{
    let known = starts.get(&codes).copied();
    match known {
        Some(start) => Ok(start),
        None => {
            starts.insert(codes, next)?;
            Ok(next)
        }
    }
}

// Appends `count` numbers to `indices`, from `start` on.
pub(crate) fn push_numbers(indices: &mut Vec<u32>, start: u32, count: usize) -> Result<(), Error>
    requires few { start + count < 2 ^ 32 }
    ensures ok { OnOk result (indices.new.items ≡ indices.old.items ++ numbers_from start count) }
    ensures memory { IfErr result (λ e. e ≡ Error.Memory) }
{
    let end = start + count as u32;
    for index in start..end {
        indices.push(index)?;
    }
    Ok(())
}
