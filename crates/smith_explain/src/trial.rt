ghost use Rattle.std.specs.Prelude.{◌≡◌, ◌↔◌, IsTrue, MatchBool, IfOk, IfErr, All};
ghost use Rattle.smith_check_rules.specs.Slots.{AreSlotsValid, IsSlotValid};
ghost use Rattle.smith_check_operands.specs.Scopes.{bare, IsScope};
ghost use Rattle.smith_check_operands.specs.Closes.{IsPlain};
ghost use Rattle.smith_check_body.specs.Checks.{IsWell};
ghost use Rattle.smith_explain.specs.Causes.{IsTaking};

use smith_bytes::Error;
use smith_check_body::checker::Checker;
use smith_check_body::step::step;
use smith_check_operands::lookups::is_valid;
use smith_check_operands::{Operands, Scope};
use smith_check_rules::Slot;
use smith_instr::Instr;
use std::alloc::Global;

// Returns whether a type is valid, and not one of a conversion in dead code.
fn is_slot_valid(scope: &Scope, slot: Slot) -> bool
    ensures { IsTrue result → IsSlotValid (bare scope.now) slot }
{
    match slot {
        Slot::Value(value) => is_valid(scope, value),
        Slot::EitherRef(_) => false,
        _ => true,
    }
}

fn are_slots_valid(scope: &Scope, slots: &[Slot]) -> bool
    ensures { IsTrue result → AreSlotsValid (bare scope.now) slots.now }
{
    for slot in slots {
        if !is_slot_valid(scope, *slot) {
            return false;
        }
    }
    true
}

/// Returns whether an instruction that opens and closes no block takes a stack of the types `wanted`, as
/// far as these are valid.
pub fn takes(
    alloc: Global,
    scope: &Scope,
    checker: &Checker,
    instr: &Instr,
    wanted: &[Slot],
) -> Result<bool, Error>
    requires scope { IsScope (bare scope.now) }
    requires well { IsWell (bare scope.now) checker.now }
    requires plain { IsPlain instr.now }
    ensures ok { IfOk result (λ taken. IsTrue taken
        → IsTaking (bare scope.now) checker.now instr.now wanted.now) }
    ensures memory { IfErr result (λ e. e ≡ Error.Memory) }
{
    if !are_slots_valid(scope, wanted) {
        return Ok(false);
    }
    let mut tried = Operands {
        known: Vec::from_slice(alloc, wanted)?,
        dead: false,
    };
    step(
        &mut tried,
        scope,
        &checker.shape,
        &checker.outers,
        &checker.log,
        instr,
    )
}
