ghost use Rattle.std.specs.Prelude.{◌≡◌, ℕ, ℤ, List, ◌∷◌, IfOk, IfErr, All, reverse};
ghost use Rattle.smith_types.specs.Syntax.value_type.ValType.{ValType};
ghost use Rattle.smith_instr.specs.declared.instr.Instr.TheVariants as instr;
ghost use Rattle.smith_check_rules.specs.Slots.{AreSlotsValid};
ghost use Rattle.smith_instr.specs.declared.instr.Instr.{Instr};
ghost use Rattle.smith_check_instr.specs.Constants.{IsConstantOf, IsNumber};
ghost use Rattle.smith_check_operands.specs.Scopes.{bare, IsScope};
ghost use Rattle.smith_check_operands.specs.Covers.{held};
ghost use Rattle.smith_check_operands.specs.Applies.{IsTried};

use smith_bytes::Error;
use smith_check_operands::lookups::is_valid;
use smith_check_operands::{Operands, Scope};
use smith_instr::NumericInstr;
use smith_types::ValType;

/// Tries a numeric instruction without immediates.
pub fn numeric(operands: &mut Operands, scope: &Scope, op: NumericInstr) -> Result<bool, Error>
    requires { AreSlotsValid (bare scope.now) operands.old.known.items }
    ensures ok { (labels : List (List ValType)) (set : List ℕ) → IfOk result
        (λ there. IsTried (bare scope.now) labels (instr.Numeric op) set there
        (held operands.old) (held operands.new)) }
    ensures memory { IfErr result (λ e. e ≡ Error.Memory) }
{
    operands.apply(scope, op.operands(), op.results())
}

/// Tries a constant of the number type `ty`.
#[inline(always)]
pub fn number_const(operands: &mut Operands, scope: &Scope, ty: ValType) -> Result<bool, Error>
    requires known { AreSlotsValid (bare scope.now) operands.old.known.items }
    requires number { IsNumber ty }
    ensures ok { (instruction : Instr) (labels : List (List ValType)) (set : List ℕ)
        → IsConstantOf ty instruction → IfOk result
        (λ there. IsTried (bare scope.now) labels instruction set there
        (held operands.old) (held operands.new)) }
    ensures memory { IfErr result (λ e. e ≡ Error.Memory) }
{
    operands.apply(scope, &[], &[ty])
}

/// Tries `v128.const`.
pub fn v128_const(operands: &mut Operands, scope: &Scope) -> Result<bool, Error>
    requires { AreSlotsValid (bare scope.now) operands.old.known.items }
    ensures ok { (value : ℤ) (labels : List (List ValType)) (set : List ℕ) → IfOk result
        (λ there. IsTried (bare scope.now) labels (instr.V128Const value) set there
        (held operands.old) (held operands.new)) }
    ensures memory { IfErr result (λ e. e ≡ Error.Memory) }
{
    if !is_valid(scope, ValType::V128) {
        return Ok(false);
    }
    operands.apply(scope, &[], &[ValType::V128])
}
