ghost use Rattle.std.specs.Prelude.{◌≡◌, ◌∷◌, ℕ, List, All, IfOk, IfErr, reverse};
ghost use Rattle.smith_instr.specs.Contexts.{AreValid};
ghost use Rattle.smith_instr.specs.declared.instr.Instr.TheVariants as instr;
ghost use Rattle.smith_check_rules.specs.Slots.{AreSlotsValid};
ghost use Rattle.smith_check_operands.specs.Scopes.{bare};
ghost use Rattle.smith_check_operands.specs.Covers.{held};
ghost use Rattle.smith_check_operands.specs.Closes.{label_of, labels_of};
ghost use Rattle.smith_check_operands.specs.Applies.{IsTried};
ghost use Rattle.smith_check_branches.specs.References.{least_non_null};

use crate::references::{least_valid, nullable_to, split_reference};
use smith_bytes::Error;
use smith_check_operands::lookups::label;
use smith_check_operands::{Frame, Operands, Scope, Shape};
use smith_check_rules::Slot;
use smith_types::{RefType, ValType};

/// Returns the least valid type of a reference that is not null, where its type may be null
/// (Validation, Reference Instructions, ref.as_non_null), if values of the type are references.
pub fn least_non_null(scope: &Scope, slot: Slot) -> Option<Slot>
    ensures { result ≡ least_non_null (bare scope.now) slot }
{
    match slot {
        Slot::Bottom => Some(Slot::SomeRef),
        Slot::SomeRef => Some(Slot::SomeRef),
        Slot::EitherRef(ty) => Some(Slot::EitherRef(ty)),
        Slot::Value(value) => match value {
            ValType::Ref(reference) => {
                let least = RefType {
                    nullable: false,
                    heap_type: reference.heap_type,
                };
                Some(Slot::Value(ValType::Ref(least_valid(scope, least))))
            }
            _ => None,
        },
    }
}

/// Tries `br_on_null`.
pub fn br_on_null(
    operands: &mut Operands,
    scope: &Scope,
    shape: &Shape,
    outers: &[Frame],
    index: u32,
) -> Result<bool, Error>
    requires known { AreSlotsValid (bare scope.now) operands.old.known.items }
    requires labels { All (AreValid (bare scope.now))
        (label_of shape.now ∷ labels_of (reverse outers.now)) }
    ensures ok { (set : List ℕ) → IfOk result
        (λ there. IsTried (bare scope.now) (label_of shape.now ∷ labels_of (reverse outers.now))
        (instr.BrOnNull index) set there (held operands.old) (held operands.new)) }
    ensures memory { IfErr result (λ e. e ≡ Error.Memory) }
{
    let Some(taken) = label(shape, outers, index) else {
        return Ok(false);
    };
    let Some(slot) = operands.pop(scope) else {
        return Ok(false);
    };
    let Some(least) = least_non_null(scope, slot) else {
        return Ok(false);
    };
    let there = operands.apply(scope, taken, taken)?;
    if !there {
        return Ok(false);
    }
    operands.known.push(least)?;
    Ok(true)
}

/// Tries `br_on_non_null`.
pub fn br_on_non_null(
    operands: &mut Operands,
    scope: &Scope,
    shape: &Shape,
    outers: &[Frame],
    index: u32,
) -> Result<bool, Error>
    requires known { AreSlotsValid (bare scope.now) operands.old.known.items }
    requires labels { All (AreValid (bare scope.now))
        (label_of shape.now ∷ labels_of (reverse outers.now)) }
    ensures ok { (set : List ℕ) → IfOk result
        (λ there. IsTried (bare scope.now) (label_of shape.now ∷ labels_of (reverse outers.now))
        (instr.BrOnNonNull index) set there (held operands.old) (held operands.new)) }
    ensures memory { IfErr result (λ e. e ≡ Error.Memory) }
{
    let Some(taken) = label(shape, outers, index) else {
        return Ok(false);
    };
    let Some((others, reference)) = split_reference(taken) else {
        return Ok(false);
    };
    let operand = nullable_to(reference.heap_type);
    operands.apply_below(scope, others, &[operand], others)
}
