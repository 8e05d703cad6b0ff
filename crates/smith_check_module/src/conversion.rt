ghost use Rattle.std.specs.Prelude.{◌≡◌, Bool, All, IfOk, IfErr, MatchOption};
ghost use Rattle.smith_types.specs.Syntax.value_type.HeapType.TheVariants.{Abstract};
ghost use Rattle.smith_types.specs.Subtyping.{IsBelow, IsInRange, IsValInRange};
ghost use Rattle.smith_check_module.specs.ConstScopes.{IsScope, context_of};
ghost use Rattle.smith_check_module.specs.Typings.{IsBestConversion, TakesNoConversion, converted};

use crate::scope::Scope;
use crate::signature::Signature;
use smith_bytes::Error;
use smith_types::{AbstractHeapType, HeapType, Items, RefType, ValType};
use std::alloc::Global;

/// Returns the signature of the conversion of the value on top of the stack `before` from references
/// below `from` to references to `into`.
pub(crate) fn conversion_signature(
    alloc: Global,
    scope: &Scope<'_>,
    before: &[ValType],
    from: AbstractHeapType,
    into: AbstractHeapType,
) -> Result<Option<Signature>, Error>
    requires scope { IsScope (context_of scope.now) }
    requires stand { All (IsValInRange (context_of scope.now).types) before.now }
    ensures ok { IfOk result (λ found. MatchOption found
        (TakesNoConversion (context_of scope.now) from into before.now)
        (λ s. IsBestConversion (context_of scope.now) from into before.now s.operands s.result)) }
    ensures memory { IfErr result (λ e. e ≡ Error.Memory) }
{
    if before.is_empty() {
        return Ok(None);
    }
    let top = before[before.len() - 1];
    let reference = match top {
        ValType::Ref(reference) => reference,
        _ => return Ok(None),
    };
    match sharedness_below(scope, reference.heap_type, from) {
        Some(shared) => Ok(Some(Signature {
            operands: Items::from_slice(alloc, &[converted(reference, shared, from)])?,
            result: converted(reference, shared, into),
        })),
        None => Ok(None),
    }
}

// Returns a reference to `ty` that is null if `reference` may be.
fn converted(reference: RefType, shared: bool, ty: AbstractHeapType) -> ValType
    ensures { result ≡ converted reference.nullable shared ty }
{
    ValType::Ref(RefType {
        nullable: reference.nullable,
        heap_type: HeapType::Abstract { shared, ty },
    })
}

// Returns whether `ty` is shared where the heap type `lower` is below it, if it is.
fn sharedness_below(scope: &Scope<'_>, lower: HeapType, ty: AbstractHeapType) -> Option<bool>
    requires scope { IsScope (context_of scope.now) }
    requires stands { IsInRange (context_of scope.now).types lower }
    ensures { MatchOption result
        ((shared : Bool) → IsBelow (context_of scope.now).types lower (Abstract shared ty) → ⊥)
        (λ shared. IsBelow (context_of scope.now).types lower (Abstract shared ty)) }
{
    let plain = HeapType::Abstract { shared: false, ty };
    if scope.types.heap_type_is_sub_type(lower, plain) {
        return Some(false);
    }
    let shared = HeapType::Abstract { shared: true, ty };
    if scope.types.heap_type_is_sub_type(lower, shared) {
        return Some(true);
    }
    None
}
