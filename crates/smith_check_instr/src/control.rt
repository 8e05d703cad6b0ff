ghost use Rattle.std.specs.Prelude.{◌≡◌, ℕ, ℤ, List, ◌∷◌, IfOk, IfErr, All, reverse};
ghost use Rattle.smith_types.specs.Syntax.value_type.ValType.{ValType};
ghost use Rattle.smith_instr.specs.declared.instr.Instr.TheVariants as instr;
ghost use Rattle.smith_check_rules.specs.Slots.{AreSlotsValid};
ghost use Rattle.smith_check_operands.specs.Scopes.{bare, IsScope};
ghost use Rattle.smith_check_operands.specs.Covers.{held};
ghost use Rattle.smith_check_operands.specs.Applies.{IsTried};
ghost use Rattle.smith_instr.specs.Contexts.{AreValid};
ghost use Rattle.smith_check_operands.specs.Closes.{label_of, labels_of};

use smith_bytes::Error;
use smith_check_operands::lookups::{func_at, label, type_index_at};
use smith_check_operands::{Frame, Operands, Scope, Shape};
use smith_types::{AbstractHeapType, HeapType, RefType, ValType};

/// Tries `unreachable`.
pub fn unreachable(operands: &mut Operands, scope: &Scope) -> bool
    requires { AreSlotsValid (bare scope.now) operands.old.known.items }
    ensures { (labels : List (List ValType)) (set : List ℕ)
        → IsTried (bare scope.now) labels instr.Unreachable set result
        (held operands.old) (held operands.new) }
{
    operands.leave_with(scope, &[])
}

/// Tries `nop`.
pub fn nop(operands: &mut Operands, scope: &Scope) -> Result<bool, Error>
    requires { AreSlotsValid (bare scope.now) operands.old.known.items }
    ensures ok { (labels : List (List ValType)) (set : List ℕ) → IfOk result
        (λ there. IsTried (bare scope.now) labels instr.Nop set there
        (held operands.old) (held operands.new)) }
    ensures memory { IfErr result (λ e. e ≡ Error.Memory) }
{
    operands.apply(scope, &[], &[])
}

/// Tries `drop`.
pub fn drop_one(operands: &mut Operands, scope: &Scope) -> bool
    requires { AreSlotsValid (bare scope.now) operands.old.known.items }
    ensures { (labels : List (List ValType)) (set : List ℕ)
        → IsTried (bare scope.now) labels instr.Drop set result
        (held operands.old) (held operands.new) }
{
    operands.pop(scope).is_some()
}

/// Tries `br`.
pub fn br(
    operands: &mut Operands,
    scope: &Scope,
    shape: &Shape,
    outers: &[Frame],
    index: u32,
) -> bool
    requires known { AreSlotsValid (bare scope.now) operands.old.known.items }
    requires labels { All (AreValid (bare scope.now))
        (label_of shape.now ∷ labels_of (reverse outers.now)) }
    ensures { (set : List ℕ)
        → IsTried (bare scope.now) (label_of shape.now ∷ labels_of (reverse outers.now))
        (instr.Br index) set result (held operands.old) (held operands.new) }
{
    match label(shape, outers, index) {
        Some(taken) => operands.leave_with(scope, taken),
        None => false,
    }
}

/// Tries `br_if`.
pub fn br_if(
    operands: &mut Operands,
    scope: &Scope,
    shape: &Shape,
    outers: &[Frame],
    index: u32,
) -> Result<bool, Error>
    requires known { AreSlotsValid (bare scope.now) operands.old.known.items }
    requires labels { All (AreValid (bare scope.now))
        (label_of shape.now ∷ labels_of (reverse outers.now)) }
    ensures ok { (set : List ℕ) → IfOk result
        (λ there. IsTried (bare scope.now) (label_of shape.now ∷ labels_of (reverse outers.now))
        (instr.BrIf index) set there (held operands.old) (held operands.new)) }
    ensures memory { IfErr result (λ e. e ≡ Error.Memory) }
{
    let Some(taken) = label(shape, outers, index) else {
        return Ok(false);
    };
    operands.apply_below(scope, taken, &[ValType::I32], taken)
}

/// Tries `return`.
pub fn return_all(operands: &mut Operands, scope: &Scope) -> bool
    requires known { AreSlotsValid (bare scope.now) operands.old.known.items }
    requires scope { IsScope (bare scope.now) }
    ensures { (labels : List (List ValType)) (set : List ℕ)
        → IsTried (bare scope.now) labels instr.Return set result
        (held operands.old) (held operands.new) }
{
    operands.leave_with(scope, scope.results)
}

/// Tries `call`.
pub fn call(operands: &mut Operands, scope: &Scope, index: u32) -> Result<bool, Error>
    requires known { AreSlotsValid (bare scope.now) operands.old.known.items }
    requires scope { IsScope (bare scope.now) }
    ensures ok { (labels : List (List ValType)) (set : List ℕ) → IfOk result
        (λ there. IsTried (bare scope.now) labels (instr.Call index) set there
        (held operands.old) (held operands.new)) }
    ensures memory { IfErr result (λ e. e ≡ Error.Memory) }
{
    let Some(ty) = type_index_at(scope.funcs, index) else {
        return Ok(false);
    };
    let Some(function) = func_at(scope.types.types(), ty) else {
        return Ok(false);
    };
    operands.apply(scope, &function.params, &function.results)
}

/// Tries `throw`.
pub fn throw(operands: &mut Operands, scope: &Scope, tag: u32) -> bool
    requires known { AreSlotsValid (bare scope.now) operands.old.known.items }
    requires scope { IsScope (bare scope.now) }
    ensures { (labels : List (List ValType)) (set : List ℕ)
        → IsTried (bare scope.now) labels (instr.Throw tag) set result
        (held operands.old) (held operands.new) }
{
    let Some(ty) = type_index_at(scope.tags, tag) else {
        return false;
    };
    let Some(function) = func_at(scope.types.types(), ty) else {
        return false;
    };
    if !function.results.is_empty() {
        return false;
    }
    operands.leave_with(scope, &function.params)
}

/// Tries `throw_ref`.
pub fn throw_ref(operands: &mut Operands, scope: &Scope) -> bool
    requires { AreSlotsValid (bare scope.now) operands.old.known.items }
    ensures { (labels : List (List ValType)) (set : List ℕ)
        → IsTried (bare scope.now) labels instr.ThrowRef set result
        (held operands.old) (held operands.new) }
{
    let exception = ValType::Ref(RefType {
        nullable: true,
        heap_type: HeapType::Abstract {
            shared: false,
            ty: AbstractHeapType::Exn,
        },
    });
    operands.leave_with(scope, &[exception])
}

/// Tries `atomic.fence`.
pub fn atomic_fence(operands: &mut Operands, scope: &Scope) -> Result<bool, Error>
    requires { AreSlotsValid (bare scope.now) operands.old.known.items }
    ensures ok { (labels : List (List ValType)) (set : List ℕ) → IfOk result
        (λ there. IsTried (bare scope.now) labels instr.AtomicFence set there
        (held operands.old) (held operands.new)) }
    ensures memory { IfErr result (λ e. e ≡ Error.Memory) }
{
    operands.apply(scope, &[], &[])
}
