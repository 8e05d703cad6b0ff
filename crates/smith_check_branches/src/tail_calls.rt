ghost use Rattle.std.specs.Prelude.{◌↔◌, [], ◌∷◌, ◌++◌, ℕ, IsTrue, MatchBool, List, All};
ghost use Rattle.smith_types.specs.Syntax.value_type.ValType.{ValType};
ghost use Rattle.smith_types.specs.Subtyping.{IsValInRange};
ghost use Rattle.smith_instr.specs.Contexts.{AreValid};
ghost use Rattle.smith_instr.specs.InstrTypes.{ReturnsFrom};
ghost use Rattle.smith_instr.specs.declared.instr.Instr.TheVariants as instr;
ghost use Rattle.smith_check_rules.specs.Slots.{AreSlotsValid, values};
ghost use Rattle.smith_check_operands.specs.Scopes.{bare, IsScope};
ghost use Rattle.smith_check_operands.specs.Covers.{held, PopsNothing};
ghost use Rattle.smith_check_operands.specs.Applies.{IsTried, LeavesBy};

use crate::function_tables::function_table;
use crate::references::nullable_to;
use smith_check_instr::memory::address_type;
use smith_check_operands::below::values_fit;
use smith_check_operands::lookups::{func_at, type_index_at};
use smith_check_operands::{Operands, Scope};
use smith_types::{FuncType, HeapType, ValType};

/// Returns whether the body may return the results of a function (Validation, Control Instructions,
/// return_call).
pub fn returns_from(scope: &Scope, function: &FuncType) -> bool
    requires results { AreValid (bare scope.now) function.now.results }
    requires scope { IsScope (bare scope.now) }
    ensures { IsTrue result ↔ ReturnsFrom (bare scope.now) function.now }
{
    values_fit(scope.types, &function.results, scope.results)
}

/// Takes values off the stack, `top` above those of the types `taken`, if they are there, and goes on
/// in dead code.
pub fn leave_below(operands: &mut Operands, scope: &Scope, taken: &[ValType], top: ValType) -> bool
    requires known { AreSlotsValid (bare scope.now) operands.old.known.items }
    requires expected { All (IsValInRange scope.now.types.now.types) taken.now }
    requires expected_top { IsValInRange scope.now.types.now.types top }
    ensures { MatchBool result
        (LeavesBy (bare scope.now) (values (taken.now ++ top ∷ [])) (held operands.old) (held operands.new))
        (PopsNothing (bare scope.now) (values (taken.now ++ top ∷ [])) (held operands.old)) }
{
    operands.pop_all(scope, &[top]) && operands.leave_with(scope, taken)
}

/// Tries `return_call`.
pub fn return_call(operands: &mut Operands, scope: &Scope, index: u32) -> bool
    requires known { AreSlotsValid (bare scope.now) operands.old.known.items }
    requires scope { IsScope (bare scope.now) }
    ensures { (labels : List (List ValType)) (set : List ℕ)
        → IsTried (bare scope.now) labels (instr.ReturnCall index) set result
        (held operands.old) (held operands.new) }
{
    let Some(ty) = type_index_at(scope.funcs, index) else {
        return false;
    };
    let Some(function) = func_at(scope.types.types(), ty) else {
        return false;
    };
    if !returns_from(scope, function) {
        return false;
    }
    operands.leave_with(scope, &function.params)
}

/// Tries `return_call_indirect`.
pub fn return_call_indirect(operands: &mut Operands, scope: &Scope, table: u32, ty: u32) -> bool
    requires known { AreSlotsValid (bare scope.now) operands.old.known.items }
    requires scope { IsScope (bare scope.now) }
    ensures { (labels : List (List ValType)) (set : List ℕ)
        → IsTried (bare scope.now) labels (instr.ReturnCallIndirect table ty) set result
        (held operands.old) (held operands.new) }
{
    let Some(wide) = function_table(scope, table) else {
        return false;
    };
    let Some(function) = func_at(scope.types.types(), ty) else {
        return false;
    };
    if !returns_from(scope, function) {
        return false;
    }
    leave_below(operands, scope, &function.params, address_type(wide))
}

/// Tries `return_call_ref`.
pub fn return_call_ref(operands: &mut Operands, scope: &Scope, ty: u32) -> bool
    requires known { AreSlotsValid (bare scope.now) operands.old.known.items }
    requires scope { IsScope (bare scope.now) }
    ensures { (labels : List (List ValType)) (set : List ℕ)
        → IsTried (bare scope.now) labels (instr.ReturnCallRef ty) set result
        (held operands.old) (held operands.new) }
{
    let Some(function) = func_at(scope.types.types(), ty) else {
        return false;
    };
    if !returns_from(scope, function) {
        return false;
    }
    leave_below(
        operands,
        scope,
        &function.params,
        nullable_to(HeapType::Concrete(ty)),
    )
}
