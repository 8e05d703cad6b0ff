ghost use Rattle.std.specs.Prelude.{◌≡◌, ◌↔◌, ◌+◌, ◌≤◌, ◌++◌, map, replicate, All};
ghost use Rattle.std.specs.Prelude.{IsTrue, IfOk, IfErr, OnOk, MatchOption};
ghost use Rattle.smith_types.specs.Syntax.FeatureBits.{features_in};
ghost use Rattle.smith_binary_sections.specs.Codes.{locals_of};
ghost use Rattle.smith_decode.specs.BodyReadings.{run_pair, total};
ghost use Rattle.smith_check_types.specs.Renamed.{renamed_val};
ghost use Rattle.smith_check_types.specs.TypeSections.{canonical_index};
ghost use Rattle.smith_check.specs.Faults.{most_locals};
ghost use Rattle.smith_check.specs.Locals.{IsFirstWrongRun, IsRunRight};

use crate::judgement::LOCALS;
use smith_bytes::Error;
use smith_check_types::canonical_val_type;
use smith_decode::LocalRun;
use smith_types::{Items, ValType, WasmFeatures};
use smith_validity::is_val_type_valid;
use std::alloc::Global;

/// Returns whether a function with `params` parameters and the locals of `runs` has no more than
/// [`LOCALS`] locals.
pub(crate) fn are_few(params: usize, runs: &[LocalRun]) -> bool
    ensures { IsTrue result ↔ (params + total runs.now ≤ most_locals) }
{
    if params > LOCALS {
        return false;
    }
    let mut count = params;
    for run in runs {
        if run.count as usize > LOCALS - count {
            return false;
        }
        count += run.count as usize;
    }
    true
}

// Returns whether the type of a run of locals is valid over `end` types, if the run has any locals.
fn is_run_right(features: WasmFeatures, end: usize, indices: &[u32], run: LocalRun) -> bool
    ensures { IsTrue result ↔ IsRunRight (features_in features) end indices.now run }
{
    run.count == 0 || is_val_type_valid(features, end, canonical_val_type(indices, run.ty))
}

/// Returns the index of the first of `runs` whose type is not valid over `end` types, if there is one.
pub(crate) fn first_wrong_run(
    features: WasmFeatures,
    end: usize,
    indices: &[u32],
    runs: &[LocalRun],
) -> Option<usize>
    ensures { MatchOption result
        (All (IsRunRight (features_in features) end indices.now) runs.now)
        (IsFirstWrongRun (features_in features) end indices.now runs.now) }
{
    for i in 0..runs.len() {
        if !is_run_right(features, end, indices, runs[i]) {
            return Some(i);
        }
    }
    None
}

// Appends locals of one type.
fn push_run(made: &mut Items<ValType>, ty: ValType, count: u32) -> Result<(), Error>
    ensures ok { OnOk result (made.new ≡ made.old ++ replicate count ty) }
    ensures memory { IfErr result (λ e. e ≡ Error.Memory) }
{
    for _ in 0..count {
        made.push(ty)?;
    }
    Ok(())
}

/// Returns the locals of a function: its parameters, then those of `runs` by the canonical `indices` of
/// types.
pub(crate) fn locals_of(
    alloc: Global,
    indices: &[u32],
    params: &[ValType],
    runs: &[LocalRun],
) -> Result<Items<ValType>, Error>
    ensures ok { IfOk result (λ made. made ≡ params.now
        ++ map (renamed_val (canonical_index indices.now)) (locals_of (map run_pair runs.now))) }
    ensures memory { IfErr result (λ e. e ≡ Error.Memory) }
{
    let mut made = Items::from_slice(alloc, params)?;
    for run in runs {
        push_run(&mut made, canonical_val_type(indices, run.ty), run.count)?;
    }
    Ok(made)
}
