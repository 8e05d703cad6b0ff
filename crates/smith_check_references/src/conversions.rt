ghost use Rattle.std.specs.Prelude.{◌≡◌, ℕ, List, IfOk, IfErr, MatchOption};
ghost use Rattle.smith_types.specs.Syntax.value_type.ValType.{ValType};
ghost use Rattle.smith_types.specs.Syntax.value_type.ValType.TheVariants.{Ref};
ghost use Rattle.smith_instr.specs.Contexts.{IsValid};
ghost use Rattle.smith_instr.specs.declared.aggregate.AggregateInstr.TheVariants as aggregate;
ghost use Rattle.smith_instr.specs.declared.instr.Instr.TheVariants as instr;
ghost use Rattle.smith_check_rules.specs.Slots.{AreSlotsValid, IsBelow, IsConvertible, IsSlotValid};
ghost use Rattle.smith_check_rules.specs.StackTypes.{IsConverted};
ghost use Rattle.smith_check_rules.specs.declared.slot.Slot.{Slot};
ghost use Rattle.smith_check_rules.specs.declared.slot.Slot.TheVariants.{EitherRef, Value};
ghost use Rattle.smith_check_operands.specs.Applies.{IsTried};
ghost use Rattle.smith_check_operands.specs.Covers.{held};
ghost use Rattle.smith_check_operands.specs.Scopes.{bare};
ghost use Rattle.smith_check_references.specs.Rows.{HasNoneOf, IsLeastOf, IsOneApplied};

use crate::casts::{is_ref_valid, top_of};
use smith_bytes::Error;
use smith_check_operands::{Operands, Scope};
use smith_check_rules::Slot;
use smith_types::{AbstractHeapType, HeapType, RefType, ValType};

/// Returns what a conversion into references to `inner` leaves of an operand in dead code, which may
/// be shared or not.
fn conversion_in_dead_code(scope: &Scope, inner: AbstractHeapType) -> Option<Slot>
    requires { IsConvertible inner }
    ensures { (outer : AbstractHeapType) (top : Slot)
        → IsBelow scope.now.types.now.types top (EitherRef outer)
        → MatchOption result (HasNoneOf (bare scope.now) (IsConverted outer inner) top)
        (λ given. IsLeastOf (bare scope.now) (IsConverted outer inner) top given) }
{
    let nullable = RefType {
        nullable: true,
        heap_type: HeapType::Abstract {
            shared: false,
            ty: inner,
        },
    };
    if is_ref_valid(scope, nullable) {
        Some(Slot::EitherRef(inner))
    } else {
        None
    }
}

/// Returns what a conversion of references to `outer` into references to `inner` leaves of
/// `reference`.
fn conversion_of_reference(
    scope: &Scope,
    reference: RefType,
    outer: AbstractHeapType,
    inner: AbstractHeapType,
) -> Option<Slot>
    requires valid { IsValid (bare scope.now) (Ref reference) }
    requires outer { IsConvertible outer }
    requires inner { IsConvertible inner }
    ensures { MatchOption result
        (HasNoneOf (bare scope.now) (IsConverted outer inner) (Value (Ref reference)))
        (λ given. IsLeastOf (bare scope.now) (IsConverted outer inner) (Value (Ref reference)) given) }
{
    let HeapType::Abstract { shared, ty } = top_of(scope.types, reference.heap_type) else {
        return None;
    };
    let given = RefType {
        nullable: reference.nullable,
        heap_type: HeapType::Abstract { shared, ty: inner },
    };
    if !is_ref_valid(scope, given) {
        return None;
    }
    if ty == outer {
        Some(Slot::Value(ValType::Ref(given)))
    } else {
        None
    }
}

/// Returns what a conversion of references to `outer` into references to `inner` leaves of an operand
/// of the type `top`.
fn conversion_of(
    scope: &Scope,
    top: Slot,
    outer: AbstractHeapType,
    inner: AbstractHeapType,
) -> Option<Slot>
    requires valid { IsSlotValid (bare scope.now) top }
    requires outer { IsConvertible outer }
    requires inner { IsConvertible inner }
    ensures { MatchOption result (HasNoneOf (bare scope.now) (IsConverted outer inner) top)
        (λ given. IsLeastOf (bare scope.now) (IsConverted outer inner) top given) }
{
    match top {
        Slot::Bottom => conversion_in_dead_code(scope, inner),
        Slot::SomeRef => conversion_in_dead_code(scope, inner),
        Slot::EitherRef(ty) => {
            if ty == outer {
                conversion_in_dead_code(scope, inner)
            } else {
                None
            }
        }
        Slot::Value(ValType::Ref(reference)) => conversion_of_reference(
            scope, reference, outer, inner,
        ),
        Slot::Value(_) => None,
    }
}

/// Takes a reference to `outer` off the stack and puts it on as one to `inner`, and returns whether it
/// is there and counts as one of a valid type.
fn convert(
    operands: &mut Operands,
    scope: &Scope,
    outer: AbstractHeapType,
    inner: AbstractHeapType,
) -> Result<bool, Error>
    requires known { AreSlotsValid (bare scope.now) operands.old.known.items }
    requires outer { IsConvertible outer }
    requires inner { IsConvertible inner }
    ensures ok { IfOk result (λ there. IsOneApplied (bare scope.now) (IsConverted outer inner) there
        (held operands.old) (held operands.new)) }
    ensures memory { IfErr result (λ e. e ≡ Error.Memory) }
{
    let Some(top) = operands.pop(scope) else {
        return Ok(false);
    };
    let Some(given) = conversion_of(scope, top, outer, inner) else {
        return Ok(false);
    };
    operands.known.push(given)?;
    Ok(true)
}

/// Tries `any.convert_extern`.
pub fn any_convert_extern(operands: &mut Operands, scope: &Scope) -> Result<bool, Error>
    requires { AreSlotsValid (bare scope.now) operands.old.known.items }
    ensures ok { (labels : List (List ValType)) (set : List ℕ) → IfOk result
        (λ there. IsTried (bare scope.now) labels
        (instr.Aggregate aggregate.AnyConvertExtern) set there
        (held operands.old) (held operands.new)) }
    ensures memory { IfErr result (λ e. e ≡ Error.Memory) }
{
    convert(
        operands,
        scope,
        AbstractHeapType::Extern,
        AbstractHeapType::Any,
    )
}

/// Tries `extern.convert_any`.
pub fn extern_convert_any(operands: &mut Operands, scope: &Scope) -> Result<bool, Error>
    requires { AreSlotsValid (bare scope.now) operands.old.known.items }
    ensures ok { (labels : List (List ValType)) (set : List ℕ) → IfOk result
        (λ there. IsTried (bare scope.now) labels
        (instr.Aggregate aggregate.ExternConvertAny) set there
        (held operands.old) (held operands.new)) }
    ensures memory { IfErr result (λ e. e ≡ Error.Memory) }
{
    convert(
        operands,
        scope,
        AbstractHeapType::Any,
        AbstractHeapType::Extern,
    )
}
