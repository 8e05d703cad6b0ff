ghost use Rattle.std.specs.Prelude.{◌≡◌, ℕ, List, IfOk, IfErr};
ghost use Rattle.smith_types.specs.Syntax.value_type.ValType.{ValType};
ghost use Rattle.smith_instr.specs.declared.instr.Instr.TheVariants as instr;
ghost use Rattle.smith_check_rules.specs.Slots.{AreSlotsValid};
ghost use Rattle.smith_check_operands.specs.Scopes.{bare, IsScope};
ghost use Rattle.smith_check_operands.specs.Covers.{held};
ghost use Rattle.smith_check_operands.specs.Applies.{IsTried};

use crate::function_tables::function_table;
use crate::references::nullable_to;
use smith_bytes::Error;
use smith_check_instr::memory::address_type;
use smith_check_operands::lookups::func_at;
use smith_check_operands::{Operands, Scope};
use smith_types::HeapType;

/// Tries `call_ref`.
pub fn call_ref(operands: &mut Operands, scope: &Scope, ty: u32) -> Result<bool, Error>
    requires known { AreSlotsValid (bare scope.now) operands.old.known.items }
    requires scope { IsScope (bare scope.now) }
    ensures ok { (labels : List (List ValType)) (set : List ℕ) → IfOk result
        (λ there. IsTried (bare scope.now) labels (instr.CallRef ty) set there
        (held operands.old) (held operands.new)) }
    ensures memory { IfErr result (λ e. e ≡ Error.Memory) }
{
    let Some(function) = func_at(scope.types.types(), ty) else {
        return Ok(false);
    };
    let callee = nullable_to(HeapType::Concrete(ty));
    operands.apply_below(scope, &function.params, &[callee], &function.results)
}

/// Tries `call_indirect`.
pub fn call_indirect(
    operands: &mut Operands,
    scope: &Scope,
    table: u32,
    ty: u32,
) -> Result<bool, Error>
    requires known { AreSlotsValid (bare scope.now) operands.old.known.items }
    requires scope { IsScope (bare scope.now) }
    ensures ok { (labels : List (List ValType)) (set : List ℕ) → IfOk result
        (λ there. IsTried (bare scope.now) labels (instr.CallIndirect table ty) set there
        (held operands.old) (held operands.new)) }
    ensures memory { IfErr result (λ e. e ≡ Error.Memory) }
{
    let Some(wide) = function_table(scope, table) else {
        return Ok(false);
    };
    let Some(function) = func_at(scope.types.types(), ty) else {
        return Ok(false);
    };
    let place = address_type(wide);
    operands.apply_below(scope, &function.params, &[place], &function.results)
}
