ghost use Rattle.std.specs.Prelude.{◌≡◌, None, All, IfOk, IfErr, MatchBool, MatchOption};
ghost use Rattle.smith_types.specs.Subtyping.{IsValInRange};
ghost use Rattle.smith_check_module.specs.ConstScopes.{IsScope, context_of};
ghost use Rattle.smith_check_module.specs.Typings.{HasNoStep, IsBest, IsBestStep, TakesNothing};
ghost use Rattle.smith_check_module.specs.Typings.{IsApart, IsApplied, fixed_signature};

use crate::aggregates::{
    array_signature, default_array_signature, default_struct_signature, fixed_array_signature,
    struct_signature,
};
use crate::conversion::conversion_signature;
use crate::scope::Scope;
use crate::signature::{
    Signature, fixed_signature, function_signature, global_signature, null_signature,
};
use smith_bytes::Error;
use smith_check_operands::below::values_fit;
use smith_types::{AbstractHeapType, ConstInstr, ValType};
use std::alloc::Global;

// Returns the signature of an instruction that depends on the context or the stack `before`, by which
// it takes operands from the top of this stack, if it does.
fn context_signature(
    alloc: Global,
    scope: &Scope<'_>,
    before: &[ValType],
    instruction: ConstInstr,
) -> Result<Option<Signature>, Error>
    requires scope { IsScope (context_of scope.now) }
    requires stand { All (IsValInRange (context_of scope.now).types) before.now }
    requires depends { fixed_signature instruction ≡ None }
    ensures ok { IfOk result (λ found. MatchOption found
        (TakesNothing (context_of scope.now) instruction before.now)
        (λ s. IsBest (context_of scope.now) instruction before.now s.operands s.result)) }
    ensures memory { IfErr result (λ e. e ≡ Error.Memory) }
{
    let most = before.len();
    match instruction {
        ConstInstr::GlobalGet(index) => Ok(global_signature(alloc, scope, index)),
        ConstInstr::RefNull(heap_type) => Ok(null_signature(alloc, scope, heap_type)),
        ConstInstr::RefFunc(function) => Ok(function_signature(alloc, scope, function)),
        ConstInstr::StructNew(index) => struct_signature(alloc, scope, most, index),
        ConstInstr::StructNewDefault(index) => Ok(default_struct_signature(alloc, scope, index)),
        ConstInstr::ArrayNew(index) => array_signature(alloc, scope, index),
        ConstInstr::ArrayNewDefault(index) => default_array_signature(alloc, scope, index),
        ConstInstr::ArrayNewFixed {
            array_type_index,
            array_size,
        } => fixed_array_signature(alloc, scope, most, array_type_index, array_size),
        ConstInstr::AnyConvertExtern => conversion_signature(
            alloc,
            scope,
            before,
            AbstractHeapType::Extern,
            AbstractHeapType::Any,
        ),
        ConstInstr::ExternConvertAny => conversion_signature(
            alloc,
            scope,
            before,
            AbstractHeapType::Any,
            AbstractHeapType::Extern,
        ),
        _ => Ok(None),
    }
}

// Returns the signature by which `instruction` takes operands from the top of the stack `before`, if it
// does.
fn signature_of(
    alloc: Global,
    scope: &Scope<'_>,
    before: &[ValType],
    instruction: ConstInstr,
) -> Result<Option<Signature>, Error>
    requires scope { IsScope (context_of scope.now) }
    requires stand { All (IsValInRange (context_of scope.now).types) before.now }
    ensures ok { IfOk result (λ found. MatchOption found
        (TakesNothing (context_of scope.now) instruction before.now)
        (λ s. IsBest (context_of scope.now) instruction before.now s.operands s.result)) }
    ensures memory { IfErr result (λ e. e ≡ Error.Memory) }
{
    let fixed = fixed_signature(alloc, instruction)?;
    match fixed {
        Some(signature) => Ok(Some(signature)),
        None => context_signature(alloc, scope, before, instruction),
    }
}

// Takes the operands of `signature` from the stack and puts its result on it, and returns whether the
// operands are there.
fn apply(scope: &Scope<'_>, stack: &mut Vec<ValType>, signature: &Signature) -> Result<bool, Error>
    requires stand { All (IsValInRange (context_of scope.now).types) stack.old.items }
    requires operands { All (IsValInRange (context_of scope.now).types) signature.now.operands }
    ensures ok { IfOk result (λ done. MatchBool done
        (IsApplied (context_of scope.now) signature.now stack.old.items stack.new.items)
        (IsApart (context_of scope.now) signature.now stack.old.items)) }
    ensures memory { IfErr result (λ e. e ≡ Error.Memory) }
{
    let height = stack.len();
    let wanted = signature.operands.len();
    if wanted > height {
        return Ok(false);
    }
    let base = height - wanted;
    if !values_fit(scope.types, &stack[base..], signature.operands.as_slice()) {
        return Ok(false);
    }
    stack.truncate(base);
    stack.push(signature.result)?;
    Ok(true)
}

/// Takes the operands of `instruction` from the stack and puts its result on it, with the least types,
/// and returns whether it can.
pub(crate) fn step(
    alloc: Global,
    scope: &Scope<'_>,
    instruction: ConstInstr,
    stack: &mut Vec<ValType>,
) -> Result<bool, Error>
    requires scope { IsScope (context_of scope.now) }
    requires stand { All (IsValInRange (context_of scope.now).types) stack.old.items }
    ensures ok { IfOk result (λ done. MatchBool done
        (IsBestStep (context_of scope.now) instruction stack.old.items stack.new.items)
        (HasNoStep (context_of scope.now) instruction stack.old.items)) }
    ensures memory { IfErr result (λ e. e ≡ Error.Memory) }
{
    let found = signature_of(alloc, scope, stack.as_slice(), instruction)?;
    match found {
        Some(signature) => apply(scope, stack, &signature),
        None => Ok(false),
    }
}
