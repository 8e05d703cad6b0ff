ghost use Rattle.std.specs.Prelude.{◌≡◌, ℕ, List, IfOk, IfErr};
ghost use Rattle.smith_types.specs.Syntax.value_type.ValType.{ValType};
ghost use Rattle.smith_instr.specs.declared.instr.Instr.TheVariants as instr;
ghost use Rattle.smith_check_rules.specs.Slots.{AreSlotsValid};
ghost use Rattle.smith_check_operands.specs.Scopes.{bare};
ghost use Rattle.smith_check_operands.specs.Covers.{held};
ghost use Rattle.smith_check_operands.specs.Applies.{IsTried};
ghost use Rattle.smith_check_instr.specs.Selects.{both, join, number};

use smith_bytes::Error;
use smith_check_operands::lookups::is_valid;
use smith_check_operands::{Operands, Scope};
use smith_check_rules::Slot;
use smith_types::{Items, ValType};

/// Returns a number type or a vector type itself.
pub fn number(value: ValType) -> Option<Slot>
    ensures { result ≡ number value }
{
    match value {
        ValType::Ref(_) => None,
        _ => Some(Slot::Value(value)),
    }
}

/// Returns the number type or vector type that both types are.
pub fn both(a: ValType, b: ValType) -> Option<Slot>
    ensures { result ≡ both a b }
{
    match (a, b) {
        (ValType::I32, ValType::I32) => Some(Slot::Value(ValType::I32)),
        (ValType::I64, ValType::I64) => Some(Slot::Value(ValType::I64)),
        (ValType::F32, ValType::F32) => Some(Slot::Value(ValType::F32)),
        (ValType::F64, ValType::F64) => Some(Slot::Value(ValType::F64)),
        (ValType::V128, ValType::V128) => Some(Slot::Value(ValType::V128)),
        _ => None,
    }
}

/// Returns the least numeric type that both types match (Validation, Parametric Instructions,
/// select).
pub fn join(first: Slot, second: Slot) -> Option<Slot>
    ensures { result ≡ join first second }
{
    match first {
        Slot::Bottom => match second {
            Slot::Bottom => Some(Slot::Bottom),
            Slot::SomeRef | Slot::EitherRef(_) => None,
            Slot::Value(value) => number(value),
        },
        Slot::SomeRef | Slot::EitherRef(_) => None,
        Slot::Value(value) => match second {
            Slot::Bottom => number(value),
            Slot::SomeRef | Slot::EitherRef(_) => None,
            Slot::Value(other) => both(value, other),
        },
    }
}

/// Tries `select` without a type.
pub fn select(operands: &mut Operands, scope: &Scope) -> Result<bool, Error>
    requires { AreSlotsValid (bare scope.now) operands.old.known.items }
    ensures ok { (labels : List (List ValType)) (set : List ℕ) → IfOk result
        (λ there. IsTried (bare scope.now) labels instr.Select set there
        (held operands.old) (held operands.new)) }
    ensures memory { IfErr result (λ e. e ≡ Error.Memory) }
{
    if !operands.pop_all(scope, &[ValType::I32]) {
        return Ok(false);
    }
    let Some(second) = operands.pop(scope) else {
        return Ok(false);
    };
    let Some(first) = operands.pop(scope) else {
        return Ok(false);
    };
    let Some(given) = join(first, second) else {
        return Ok(false);
    };
    operands.known.push(given)?;
    Ok(true)
}

/// Tries `select` with a list of types.
pub fn select_typed(
    operands: &mut Operands,
    scope: &Scope,
    types: &Items<ValType>,
) -> Result<bool, Error>
    requires { AreSlotsValid (bare scope.now) operands.old.known.items }
    ensures ok { (labels : List (List ValType)) (set : List ℕ) → IfOk result
        (λ there. IsTried (bare scope.now) labels (instr.SelectTyped types.now) set there
        (held operands.old) (held operands.new)) }
    ensures memory { IfErr result (λ e. e ≡ Error.Memory) }
{
    if types.len() != 1 {
        return Ok(false);
    }
    let value = types[0];
    if !is_valid(scope, value) {
        return Ok(false);
    }
    operands.apply(scope, &[value, value, ValType::I32], &[value])
}
