ghost use Rattle.std.specs.Prelude.{◌≡◌, false, Some, IfOk, IfErr, MatchOption};
ghost use Rattle.smith_types.specs.Syntax.const_instr.ConstInstr.TheVariants as constant;
ghost use Rattle.smith_types.specs.Syntax.value_type.AbstractHeapType.TheVariants as abstract;
ghost use Rattle.smith_types.specs.Syntax.value_type.HeapType.TheVariants.{Abstract};
ghost use Rattle.smith_types.specs.Expressions.{created, function_reference, reference_to};
ghost use Rattle.smith_check_module.specs.ConstScopes.{IsScope, context_of};
ghost use Rattle.smith_check_module.specs.Typings.{HasNoType, IsOnly, fixed_signature};

use crate::scope::Scope;
use smith_bytes::Error;
use smith_check_operands::lookups::{global_at, type_index_at};
use smith_types::{AbstractHeapType, ConstInstr, HeapType, Items, RefType, ValType, WasmFeatures};
use smith_validity::is_ref_type_valid;
use std::alloc::Global;

/// The operands that an instruction takes, the last on top, and its result.
#[derive(Drop)]
pub struct Signature {
    /// The types of the operands.
    pub operands: Items<ValType>,
    /// The type of the result.
    pub result: ValType,
}

/// Returns the signature of `instruction`, if it depends on nothing.
pub(crate) fn fixed_signature(
    alloc: Global,
    instruction: ConstInstr,
) -> Result<Option<Signature>, Error>
    ensures ok { IfOk result (λ found. found ≡ fixed_signature instruction) }
    ensures memory { IfErr result (λ e. e ≡ Error.Memory) }
{
    match instruction {
        ConstInstr::I32Const(_) => given(alloc, &[], ValType::I32),
        ConstInstr::I64Const(_) => given(alloc, &[], ValType::I64),
        ConstInstr::F32Const(_) => given(alloc, &[], ValType::F32),
        ConstInstr::F64Const(_) => given(alloc, &[], ValType::F64),
        ConstInstr::V128Const(_) => given(alloc, &[], ValType::V128),
        ConstInstr::I32Add | ConstInstr::I32Sub | ConstInstr::I32Mul => {
            given(alloc, &[ValType::I32, ValType::I32], ValType::I32)
        }
        ConstInstr::I64Add | ConstInstr::I64Sub | ConstInstr::I64Mul => {
            given(alloc, &[ValType::I64, ValType::I64], ValType::I64)
        }
        ConstInstr::RefI31 => given(alloc, &[ValType::I32], small_integer(false)),
        ConstInstr::RefI31Shared => given(alloc, &[ValType::I32], small_integer(true)),
        _ => Ok(None),
    }
}

fn given(alloc: Global, operands: &[ValType], pushed: ValType) -> Result<Option<Signature>, Error>
    ensures ok { IfOk result (λ found.
        found ≡ Some (record { operands = operands.now; result = pushed })) }
    ensures memory { IfErr result (λ e. e ≡ Error.Memory) }
{
    Ok(Some(Signature {
        operands: Items::from_slice(alloc, operands)?,
        result: pushed,
    }))
}

// Returns the type of references to integers of 31 bits.
fn small_integer(shared: bool) -> ValType
    ensures { result ≡ reference_to (Abstract shared abstract.I31) }
{
    reference_to(HeapType::Abstract {
        shared,
        ty: AbstractHeapType::I31,
    })
}

fn reference_to(heap_type: HeapType) -> ValType
    ensures { result ≡ reference_to heap_type }
{
    ValType::Ref(RefType {
        nullable: false,
        heap_type,
    })
}

/// Returns the type of the value that an instruction creates of the type `index`.
pub(crate) fn created(scope: &Scope<'_>, index: u32) -> ValType
    ensures { result ≡ created (context_of scope.now) index }
{
    if scope.features.contains(WasmFeatures::CUSTOM_DESCRIPTORS) {
        reference_to(HeapType::Exact(index))
    } else {
        reference_to(HeapType::Concrete(index))
    }
}

/// Returns the type of the reference to the function `function`, of the type `index` (Validation,
/// Instructions, ref.func).
pub(crate) fn function_reference(scope: &Scope<'_>, function: u32, index: u32) -> ValType
    ensures { result ≡ function_reference (context_of scope.now) function index }
{
    if scope.imported_funcs <= function as usize {
        created(scope, index)
    } else {
        reference_to(HeapType::Concrete(index))
    }
}

/// Returns the signature of `global.get`.
pub(crate) fn global_signature(alloc: Global, scope: &Scope<'_>, index: u32) -> Option<Signature>
    requires { IsScope (context_of scope.now) }
    ensures { MatchOption result
        (HasNoType (context_of scope.now) (constant.GlobalGet index))
        (λ s. IsOnly (context_of scope.now) (constant.GlobalGet index) s.operands s.result) }
{
    if index as usize >= scope.visible {
        return None;
    }
    match global_at(scope.globals, index) {
        Some(global) => {
            if global.mutable {
                return None;
            }
            Some(Signature {
                operands: Items::new(alloc),
                result: global.val_type,
            })
        }
        None => None,
    }
}

/// Returns the signature of `ref.null`.
pub(crate) fn null_signature(
    alloc: Global,
    scope: &Scope<'_>,
    heap_type: HeapType,
) -> Option<Signature>
    ensures { MatchOption result
        (HasNoType (context_of scope.now) (constant.RefNull heap_type))
        (λ s. IsOnly (context_of scope.now) (constant.RefNull heap_type) s.operands s.result) }
{
    let reference = RefType {
        nullable: true,
        heap_type,
    };
    if !is_ref_type_valid(scope.features, scope.types.types().len(), reference) {
        return None;
    }
    Some(Signature {
        operands: Items::new(alloc),
        result: ValType::Ref(reference),
    })
}

/// Returns the signature of `ref.func`.
pub(crate) fn function_signature(
    alloc: Global,
    scope: &Scope<'_>,
    function: u32,
) -> Option<Signature>
    requires { IsScope (context_of scope.now) }
    ensures { MatchOption result
        (HasNoType (context_of scope.now) (constant.RefFunc function))
        (λ s. IsOnly (context_of scope.now) (constant.RefFunc function) s.operands s.result) }
{
    match type_index_at(scope.funcs, function) {
        Some(index) => Some(Signature {
            operands: Items::new(alloc),
            result: function_reference(scope, function, index),
        }),
        None => None,
    }
}
