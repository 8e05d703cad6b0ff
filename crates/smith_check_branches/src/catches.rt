ghost use Rattle.std.specs.Prelude.{◌≡◌, ◌↔◌, [], ◌∷◌, ◌++◌, false, IsTrue, All, MatchOption, reverse};
ghost use Rattle.smith_types.specs.Expressions.{reference_to};
ghost use Rattle.smith_types.specs.Syntax.value_type.AbstractHeapType.TheVariants as abstract;
ghost use Rattle.smith_types.specs.Syntax.value_type.HeapType.TheVariants.{Abstract};
ghost use Rattle.smith_types.specs.Subtyping.{IsValInRange};
ghost use Rattle.smith_instr.specs.Contexts.{AreValid, IsTag};
ghost use Rattle.smith_instr.specs.InstrTypes.{IsCatch, IsTaken};
ghost use Rattle.smith_check_operands.specs.Scopes.{bare, IsScope};
ghost use Rattle.smith_check_operands.specs.Closes.{label_of, labels_of, with_labels};
ghost use Rattle.smith_check_branches.specs.Catches.{HasNoTag};

use smith_check_operands::below::values_fit;
use smith_check_operands::lookups::{func_at, label, type_index_at};
use smith_check_operands::{Frame, Scope, Shape};
use smith_instr::Catch;
use smith_types::{AbstractHeapType, HeapType, RefType, ValType};

/// Returns the types of the values that the exceptions of a tag hold, if there is such a tag.
pub fn tag_values<'a>(scope: &'a Scope, tag: u32) -> Option<&'a [ValType]>
    ensures { MatchOption result (HasNoTag (bare scope.now) tag)
        (λ values. IsTag (bare scope.now) tag values.now) }
{
    let Some(ty) = type_index_at(scope.tags, tag) else {
        return None;
    };
    let Some(function) = func_at(scope.types.types(), ty) else {
        return None;
    };
    if function.results.is_empty() {
        Some(function.params.as_slice())
    } else {
        None
    }
}

/// Returns whether a branch to a label may take values of the types `lower`, and `upper` above them.
pub fn may_take(
    scope: &Scope,
    shape: &Shape,
    outers: &[Frame],
    index: u32,
    lower: &[ValType],
    upper: &[ValType],
) -> bool
    requires labels { All (AreValid (bare scope.now))
        (label_of shape.now ∷ labels_of (reverse outers.now)) }
    requires lower { All (IsValInRange scope.now.types.now.types) lower.now }
    requires upper { All (IsValInRange scope.now.types.now.types) upper.now }
    ensures { IsTrue result
        ↔ IsTaken (with_labels (bare scope.now) (label_of shape.now ∷ labels_of (reverse outers.now)))
        (lower.now ++ upper.now) index }
{
    let Some(taken) = label(shape, outers, index) else {
        return false;
    };
    if taken.len() < lower.len() {
        return false;
    }
    let (front, back) = taken.split_at(lower.len());
    values_fit(scope.types, lower, front) && values_fit(scope.types, upper, back)
}

/// Returns the type of a reference to an exception.
pub fn exception() -> ValType
    ensures { result ≡ reference_to (Abstract false abstract.Exn) }
{
    ValType::Ref(RefType {
        nullable: false,
        heap_type: HeapType::Abstract {
            shared: false,
            ty: AbstractHeapType::Exn,
        },
    })
}

/// Returns whether the label of a clause takes the values that the clause passes (Validation, Control
/// Instructions, Catch Clauses).
pub fn is_catch(scope: &Scope, shape: &Shape, outers: &[Frame], clause: Catch) -> bool
    requires scope { IsScope (bare scope.now) }
    requires labels { All (AreValid (bare scope.now))
        (label_of shape.now ∷ labels_of (reverse outers.now)) }
    ensures { IsTrue result
        ↔ IsCatch (with_labels (bare scope.now) (label_of shape.now ∷ labels_of (reverse outers.now)))
        clause }
{
    match clause {
        Catch::One { tag, label } => match tag_values(scope, tag) {
            Some(values) => may_take(scope, shape, outers, label, values, &[]),
            None => false,
        },
        Catch::OneRef { tag, label } => match tag_values(scope, tag) {
            Some(values) => may_take(scope, shape, outers, label, values, &[exception()]),
            None => false,
        },
        Catch::All { label } => may_take(scope, shape, outers, label, &[], &[]),
        Catch::AllRef { label } => may_take(scope, shape, outers, label, &[], &[exception()]),
    }
}

/// Returns whether the label of each clause takes the values that the clause passes (Validation,
/// Control Instructions, Catch Clauses).
pub fn are_catches(scope: &Scope, shape: &Shape, outers: &[Frame], clauses: &[Catch]) -> bool
    requires scope { IsScope (bare scope.now) }
    requires labels { All (AreValid (bare scope.now))
        (label_of shape.now ∷ labels_of (reverse outers.now)) }
    ensures { IsTrue result
        ↔ All (IsCatch (with_labels (bare scope.now) (label_of shape.now ∷ labels_of (reverse outers.now))))
        clauses.now }
{
    for clause in clauses {
        if !is_catch(scope, shape, outers, *clause) {
            return false;
        }
    }
    true
}
