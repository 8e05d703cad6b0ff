ghost use Rattle.std.specs.Prelude.{◌≡◌, ℕ, ℤ, List, ◌∷◌, IfOk, IfErr, All, reverse};
ghost use Rattle.smith_types.specs.Syntax.value_type.ValType.{ValType};
ghost use Rattle.smith_instr.specs.declared.instr.Instr.TheVariants as instr;
ghost use Rattle.smith_check_rules.specs.Slots.{AreSlotsValid};
ghost use Rattle.smith_check_operands.specs.Scopes.{bare, IsScope};
ghost use Rattle.smith_check_operands.specs.Covers.{held};
ghost use Rattle.smith_check_operands.specs.Applies.{IsTried};
ghost use Rattle.std.specs.Prelude.{IsTrue, ◌↔◌, ◌⊎◌, ◌<◌};
ghost use Rattle.std.specs.List.{Contains};
ghost use Rattle.smith_types.specs.Expressions.{IsDefaultable};

use smith_bytes::Error;
use smith_check_operands::lookups::{global_at, value_at};
use smith_check_operands::{Operands, Scope};
use smith_instr::SetLocals;
use smith_types::ValType;

/// Returns whether values of the type `value` have a default (Validation, Local Types).
pub fn has_default(value: ValType) -> bool
    ensures { IsTrue result ↔ IsDefaultable value }
{
    match value {
        ValType::Ref(reference) => reference.nullable,
        _ => true,
    }
}

/// Returns whether the local `index` is among those that were set.
pub fn is_among(log: &SetLocals, index: u32) -> bool
    ensures { IsTrue result ↔ Contains log.now.items index }
{
    log.contains(index as usize)
}

/// Returns whether a local of the type `value` is set (Validation, Local Types).
pub fn is_set(scope: &Scope, log: &SetLocals, index: u32, value: ValType) -> bool
    ensures { IsTrue result
        ↔ ((index < scope.now.params) ⊎ (IsDefaultable value ⊎ Contains log.now.items index)) }
{
    (index as usize) < scope.params || has_default(value) || is_among(log, index)
}

/// Tries `local.get`.
pub fn local_get(
    operands: &mut Operands,
    scope: &Scope,
    log: &SetLocals,
    index: u32,
) -> Result<bool, Error>
    requires known { AreSlotsValid (bare scope.now) operands.old.known.items }
    requires scope { IsScope (bare scope.now) }
    ensures ok { (labels : List (List ValType)) → IfOk result
        (λ there. IsTried (bare scope.now) labels (instr.LocalGet index) log.now.items there
        (held operands.old) (held operands.new)) }
    ensures memory { IfErr result (λ e. e ≡ Error.Memory) }
{
    let Some(value) = value_at(scope.locals, index) else {
        return Ok(false);
    };
    if !is_set(scope, log, index, value) {
        return Ok(false);
    }
    operands.apply(scope, &[], &[value])
}

/// Tries `local.set`.
pub fn local_set(operands: &mut Operands, scope: &Scope, index: u32) -> Result<bool, Error>
    requires known { AreSlotsValid (bare scope.now) operands.old.known.items }
    requires scope { IsScope (bare scope.now) }
    ensures ok { (labels : List (List ValType)) (set : List ℕ) → IfOk result
        (λ there. IsTried (bare scope.now) labels (instr.LocalSet index) set there
        (held operands.old) (held operands.new)) }
    ensures memory { IfErr result (λ e. e ≡ Error.Memory) }
{
    match value_at(scope.locals, index) {
        Some(value) => operands.apply(scope, &[value], &[]),
        None => Ok(false),
    }
}

/// Tries `local.tee`.
pub fn local_tee(operands: &mut Operands, scope: &Scope, index: u32) -> Result<bool, Error>
    requires known { AreSlotsValid (bare scope.now) operands.old.known.items }
    requires scope { IsScope (bare scope.now) }
    ensures ok { (labels : List (List ValType)) (set : List ℕ) → IfOk result
        (λ there. IsTried (bare scope.now) labels (instr.LocalTee index) set there
        (held operands.old) (held operands.new)) }
    ensures memory { IfErr result (λ e. e ≡ Error.Memory) }
{
    match value_at(scope.locals, index) {
        Some(value) => operands.apply(scope, &[value], &[value]),
        None => Ok(false),
    }
}

/// Tries `global.get`.
pub fn global_get(operands: &mut Operands, scope: &Scope, index: u32) -> Result<bool, Error>
    requires known { AreSlotsValid (bare scope.now) operands.old.known.items }
    requires scope { IsScope (bare scope.now) }
    ensures ok { (labels : List (List ValType)) (set : List ℕ) → IfOk result
        (λ there. IsTried (bare scope.now) labels (instr.GlobalGet index) set there
        (held operands.old) (held operands.new)) }
    ensures memory { IfErr result (λ e. e ≡ Error.Memory) }
{
    match global_at(scope.globals, index) {
        Some(global) => operands.apply(scope, &[], &[global.val_type]),
        None => Ok(false),
    }
}

/// Tries `global.set`.
pub fn global_set(operands: &mut Operands, scope: &Scope, index: u32) -> Result<bool, Error>
    requires known { AreSlotsValid (bare scope.now) operands.old.known.items }
    requires scope { IsScope (bare scope.now) }
    ensures ok { (labels : List (List ValType)) (set : List ℕ) → IfOk result
        (λ there. IsTried (bare scope.now) labels (instr.GlobalSet index) set there
        (held operands.old) (held operands.new)) }
    ensures memory { IfErr result (λ e. e ≡ Error.Memory) }
{
    let Some(global) = global_at(scope.globals, index) else {
        return Ok(false);
    };
    if !global.mutable {
        return Ok(false);
    }
    operands.apply(scope, &[global.val_type], &[])
}
