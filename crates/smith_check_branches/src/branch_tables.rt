ghost use Rattle.std.specs.Prelude.{◌∷◌, ℕ, List, All, MatchBool, reverse};
ghost use Rattle.smith_types.specs.Syntax.value_type.ValType.{ValType};
ghost use Rattle.smith_types.specs.Subtyping.{IsValInRange};
ghost use Rattle.smith_instr.specs.Contexts.{AreValid};
ghost use Rattle.smith_instr.specs.declared.instr.Instr.TheVariants as instr;
ghost use Rattle.smith_check_rules.specs.Slots.{AreSlotsValid, values};
ghost use Rattle.smith_check_operands.specs.Scopes.{bare};
ghost use Rattle.smith_check_operands.specs.Covers.{held, PopsNothing};
ghost use Rattle.smith_check_operands.specs.Closes.{label_of, labels_of};
ghost use Rattle.smith_check_operands.specs.Applies.{IsTried};
ghost use Rattle.smith_check_branches.specs.Tops.{IsOnTop};

use smith_check_operands::below::slots_fit;
use smith_check_operands::lookups::label;
use smith_check_operands::{Frame, Operands, Scope, Shape};
use smith_types::ValType;

/// Returns whether values of the types `expected` may be on top of the stack.
pub fn is_on_top(operands: &Operands, scope: &Scope, expected: &[ValType]) -> bool
    requires known { AreSlotsValid (bare scope.now) operands.now.known.items }
    requires expected { All (IsValInRange scope.now.types.now.types) expected.now }
    ensures { MatchBool result (IsOnTop (bare scope.now) expected.now (held operands.now))
        (PopsNothing (bare scope.now) (values expected.now) (held operands.now)) }
{
    let known = operands.known.len();
    let wanted = expected.len();
    if wanted <= known {
        return slots_fit(scope.types, &operands.known[known - wanted..], expected);
    }
    if !operands.dead {
        return false;
    }
    slots_fit(scope.types, &operands.known, &expected[wanted - known..])
}

/// Tries `br_table`.
pub fn br_table(
    operands: &mut Operands,
    scope: &Scope,
    shape: &Shape,
    outers: &[Frame],
    labels: &[u32],
    other: u32,
) -> bool
    requires known { AreSlotsValid (bare scope.now) operands.old.known.items }
    requires labels { All (AreValid (bare scope.now))
        (label_of shape.now ∷ labels_of (reverse outers.now)) }
    ensures { (set : List ℕ)
        → IsTried (bare scope.now) (label_of shape.now ∷ labels_of (reverse outers.now))
        (instr.BrTable labels.now other) set result (held operands.old) (held operands.new) }
{
    if !operands.pop_all(scope, &[ValType::I32]) {
        return false;
    }
    let Some(given) = label(shape, outers, other) else {
        return false;
    };
    if !is_on_top(operands, scope, given) {
        return false;
    }
    for index in labels {
        let Some(taken) = label(shape, outers, *index) else {
            return false;
        };
        if taken.len() != given.len() || !is_on_top(operands, scope, taken) {
            return false;
        }
    }
    operands.leave();
    true
}
