ghost use Rattle.std.specs.Prelude.{◌≡◌, ◌↔◌, [], ◌∷◌, ◌++◌, ℕ, List, All, IsTrue, IfOk, IfErr, MatchBool, MatchOption, reverse};
ghost use Rattle.smith_types.specs.Subtyping.{IsInRange, IsValInRange};
ghost use Rattle.smith_types.specs.Syntax.value_type.ValType.TheVariants.{Ref};
ghost use Rattle.smith_instr.specs.Contexts.{AreValid, IsValid};
ghost use Rattle.smith_instr.specs.InstrTypes.{difference};
ghost use Rattle.smith_instr.specs.declared.instr.Instr.TheVariants as instr;
ghost use Rattle.smith_check_rules.specs.Slots.{AreSlotsValid, values};
ghost use Rattle.smith_check_operands.specs.Scopes.{bare};
ghost use Rattle.smith_check_operands.specs.Covers.{held, PopsNothing};
ghost use Rattle.smith_check_operands.specs.Closes.{label_of, labels_of};
ghost use Rattle.smith_check_operands.specs.Applies.{Applies, IsTried};
ghost use Rattle.smith_check_branches.specs.References.{IsCastValid, TakesReference, TakesNoReference};

use crate::references::{least_valid, split_reference};
use smith_bytes::Error;
use smith_check_operands::lookups::label;
use smith_check_operands::{Frame, Operands, Scope, Shape};
use smith_check_rules::Slot;
use smith_instr::BranchCast;
use smith_types::{RefType, ValType};
use smith_validity::is_ref_type_valid;

/// Returns the type of a reference whose cast failed (Validation, Conventions, Types, type
/// difference).
pub fn difference(from: RefType, to: RefType) -> RefType
    ensures { result ≡ difference from to }
{
    RefType {
        nullable: if to.nullable { false } else { from.nullable },
        heap_type: from.heap_type,
    }
}

/// Returns whether the types of a cast are valid, and its target matches its source (Validation,
/// Control Instructions, br_on_cast and br_on_cast_fail).
pub fn is_cast_valid(scope: &Scope, cast: BranchCast) -> bool
    ensures { IsTrue result ↔ IsCastValid (bare scope.now) cast }
{
    let end = scope.types.types().len();
    is_ref_type_valid(scope.features, end, cast.from)
        && is_ref_type_valid(scope.features, end, cast.to)
        && scope.types.ref_type_is_sub_type(cast.to, cast.from)
}

/// Returns the types of the values that a label takes below a reference whose type `reference`
/// matches, if it takes these.
pub fn taken_below<'a>(
    scope: &Scope,
    shape: &'a Shape,
    outers: &'a [Frame],
    index: u32,
    reference: RefType,
) -> Option<&'a [ValType]>
    requires labels { All (AreValid (bare scope.now))
        (label_of shape.now ∷ labels_of (reverse outers.now)) }
    requires reference { IsInRange scope.now.types.now.types reference.heap_type }
    ensures { MatchOption result
        (TakesNoReference (bare scope.now) (label_of shape.now ∷ labels_of (reverse outers.now)) index reference)
        (λ others. TakesReference (bare scope.now) (label_of shape.now ∷ labels_of (reverse outers.now)) index reference others.now) }
{
    let Some(taken) = label(shape, outers, index) else {
        return None;
    };
    let Some((others, wanted)) = split_reference(taken) else {
        return None;
    };
    if scope.types.ref_type_is_sub_type(reference, wanted) {
        Some(others)
    } else {
        None
    }
}

/// Takes a value of the type `top` above values of the types `others` off the stack, if they are
/// there, and puts one of the type `given` in its place.
pub fn replace_top(
    operands: &mut Operands,
    scope: &Scope,
    others: &[ValType],
    top: ValType,
    given: ValType,
) -> Result<bool, Error>
    requires known { AreSlotsValid (bare scope.now) operands.old.known.items }
    requires others { AreValid (bare scope.now) others.now }
    requires top { IsValInRange scope.now.types.now.types top }
    requires given { IsValid (bare scope.now) given }
    ensures ok { IfOk result (λ there. MatchBool there
        (Applies (bare scope.now) (values (others.now ++ top ∷ [])) (values (others.now ++ given ∷ []))
        (held operands.old) (held operands.new))
        (PopsNothing (bare scope.now) (values (others.now ++ top ∷ [])) (held operands.old))) }
    ensures memory { IfErr result (λ e. e ≡ Error.Memory) }
{
    let there = operands.apply_below(scope, others, &[top], others)?;
    if !there {
        return Ok(false);
    }
    operands.known.push(Slot::Value(given))?;
    Ok(true)
}

/// Tries `br_on_cast`.
pub fn br_on_cast(
    operands: &mut Operands,
    scope: &Scope,
    shape: &Shape,
    outers: &[Frame],
    cast: BranchCast,
) -> Result<bool, Error>
    requires known { AreSlotsValid (bare scope.now) operands.old.known.items }
    requires labels { All (AreValid (bare scope.now))
        (label_of shape.now ∷ labels_of (reverse outers.now)) }
    ensures ok { (set : List ℕ) → IfOk result
        (λ there. IsTried (bare scope.now) (label_of shape.now ∷ labels_of (reverse outers.now))
        (instr.BrOnCast cast) set there (held operands.old) (held operands.new)) }
    ensures memory { IfErr result (λ e. e ≡ Error.Memory) }
{
    if !is_cast_valid(scope, cast) {
        return Ok(false);
    }
    let Some(others) = taken_below(scope, shape, outers, cast.label, cast.to) else {
        return Ok(false);
    };
    let rest = least_valid(scope, difference(cast.from, cast.to));
    replace_top(
        operands,
        scope,
        others,
        ValType::Ref(cast.from),
        ValType::Ref(rest),
    )
}

/// Tries `br_on_cast_fail`.
pub fn br_on_cast_fail(
    operands: &mut Operands,
    scope: &Scope,
    shape: &Shape,
    outers: &[Frame],
    cast: BranchCast,
) -> Result<bool, Error>
    requires known { AreSlotsValid (bare scope.now) operands.old.known.items }
    requires labels { All (AreValid (bare scope.now))
        (label_of shape.now ∷ labels_of (reverse outers.now)) }
    ensures ok { (set : List ℕ) → IfOk result
        (λ there. IsTried (bare scope.now) (label_of shape.now ∷ labels_of (reverse outers.now))
        (instr.BrOnCastFail cast) set there (held operands.old) (held operands.new)) }
    ensures memory { IfErr result (λ e. e ≡ Error.Memory) }
{
    if !is_cast_valid(scope, cast) {
        return Ok(false);
    }
    let branches = difference(cast.from, cast.to);
    let Some(others) = taken_below(scope, shape, outers, cast.label, branches) else {
        return Ok(false);
    };
    replace_top(
        operands,
        scope,
        others,
        ValType::Ref(cast.from),
        ValType::Ref(cast.to),
    )
}
