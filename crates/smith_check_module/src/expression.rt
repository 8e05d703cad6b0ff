ghost use Rattle.std.specs.Prelude.{◌≡◌, ◌↔◌, ◌∷◌, [], All, IsTrue, IfOk, IfErr, MatchBool};
ghost use Rattle.smith_types.specs.Syntax.value_type.ValType.{ValType as Value};
ghost use Rattle.smith_types.specs.Subtyping.{IsValBelow, IsValInRange};
ghost use Rattle.smith_check_module.specs.ConstInstrs.{Goes, Stops};
ghost use Rattle.smith_check_module.specs.ConstScopes.{IsScope, context_of};
ghost use Rattle.smith_check_module.specs.ValidModules.{IsConstant};

use crate::constants::{canonical_const, const_of, is_enabled};
use crate::scope::Scope;
use crate::step::step;
use smith_bytes::Error;
use smith_instr::Instr;
use smith_types::ValType;
use smith_validity::{Predicate, StandingValue};
use std::alloc::Global;

// Goes one instruction on, and returns whether it can.
fn go(
    alloc: Global,
    scope: &Scope<'_>,
    instruction: &Instr,
    stack: &mut Vec<ValType>,
) -> Result<bool, Error>
    requires scope { IsScope (context_of scope.now) }
    requires stand { All (IsValInRange (context_of scope.now).types) stack.old.items }
    ensures ok { IfOk result (λ done. MatchBool done
        (Goes (context_of scope.now) scope.now.indices.now instruction.now
        stack.old.items stack.new.items)
        (Stops (context_of scope.now) scope.now.indices.now instruction.now stack.old.items)) }
    ensures memory { IfErr result (λ e. e ≡ Error.Memory) }
{
    match const_of(instruction) {
        Some(constant) => {
            let constant = canonical_const(scope.indices, constant);
            if !is_enabled(scope.features, scope.imported_globals, constant) {
                return Ok(false);
            }
            step(alloc, scope, constant, stack)
        }
        None => Ok(false),
    }
}

// Returns whether one value is left, of the type `wanted` or of a subtype.
fn is_value(scope: &Scope<'_>, stack: &[ValType], wanted: ValType) -> bool
    requires scope { IsScope (context_of scope.now) }
    requires stand { All (IsValInRange (context_of scope.now).types) stack.now }
    ensures { IsTrue result ↔ ((value : Value) × (stack.now ≡ value ∷ [])
        × IsValBelow (context_of scope.now).types value wanted) }
{
    match stack {
        [value] => is_below(scope, *value, wanted),
        _ => false,
    }
}

/// Returns whether `value` is a subtype of `wanted`, which may refer to a type that does not exist.
pub(crate) fn is_below(scope: &Scope<'_>, value: ValType, wanted: ValType) -> bool
    requires scope { IsScope (context_of scope.now) }
    requires stands { IsValInRange (context_of scope.now).types value }
    ensures { IsTrue result ↔ IsValBelow (context_of scope.now).types value wanted }
{
    let standing = StandingValue {
        types: scope.types.types(),
    };
    standing.holds(&wanted) && scope.types.val_type_is_sub_type(value, wanted)
}

/// Returns whether `expression` is a constant expression of a value of the type `wanted` (Validation,
/// Constant Expressions). Types in the expression are given by their indices in the module, `wanted` by
/// canonical indices.
///
/// Fails only if an allocation fails.
pub fn is_constant(
    alloc: Global,
    scope: &Scope<'_>,
    wanted: ValType,
    expression: &[Instr],
) -> Result<bool, Error>
    requires { IsScope (context_of scope.now) }
    ensures decided { IfOk result (λ yes. IsTrue yes
        ↔ IsConstant (context_of scope.now) scope.now.indices.now wanted expression.now) }
    ensures memory { IfErr result (λ e. e ≡ Error.Memory) }
{
    let mut stack = Vec::new(alloc);
    for instruction in expression {
        let done = go(alloc, scope, instruction, &mut stack)?;
        if !done {
            return Ok(false);
        }
    }
    Ok(is_value(scope, stack.as_slice(), wanted))
}
