ghost use Rattle.std.specs.Prelude.{◌≡◌, ◌∷◌, ◌↔◌, IsTrue, MatchOption, None, Some, slice_get, reverse};
ghost use Rattle.smith_instr.specs.Contexts.{IsValid, address};
ghost use Rattle.smith_check_operands.specs.Scopes.{bare};
ghost use Rattle.smith_types.specs.Entities.{IsFuncAt};
ghost use Rattle.smith_check_operands.specs.Closes.{label_of, labels_of};
ghost use Rattle.smith_check_operands.specs.Lookups.{HasNoFunc};

use crate::frame::{Frame, Kind, Shape};
use crate::scope::Scope;
use smith_types::{CompositeInnerType, FuncType, GlobalType, SubType, ValType};
use smith_validity::is_val_type_valid;

/// Returns whether a value type is valid (Validation, Value Types).
pub fn is_valid(scope: &Scope, value: ValType) -> bool
    ensures { IsTrue result ↔ IsValid (bare scope.now) value }
{
    is_val_type_valid(scope.features, scope.types.types().len(), value)
}

/// Returns the value type at an index.
pub fn value_at(values: &[ValType], index: u32) -> Option<ValType>
    ensures { result ≡ slice_get values.now index }
{
    let index = index as usize;
    if index < values.len() {
        Some(values[index])
    } else {
        None
    }
}

/// Returns the global type at an index.
pub fn global_at(globals: &[GlobalType], index: u32) -> Option<GlobalType>
    ensures { result ≡ slice_get globals.now index }
{
    let index = index as usize;
    if index < globals.len() {
        Some(globals[index])
    } else {
        None
    }
}

/// Returns the index of the type of the function at an index.
pub fn type_index_at(funcs: &[u32], index: u32) -> Option<u32>
    ensures { result ≡ slice_get funcs.now index }
{
    let index = index as usize;
    if index < funcs.len() {
        Some(funcs[index])
    } else {
        None
    }
}

/// Returns the function type at an index, if there is one.
pub fn func_at<'a>(types: &'a [SubType], index: u32) -> Option<&'a FuncType>
    ensures { MatchOption result (HasNoFunc types.now index)
        (λ function. IsFuncAt types.now index function.now) }
{
    match types.get(index as usize) {
        Some(ty) => match &ty.composite_type.inner {
            CompositeInnerType::Func(function) => Some(function),
            _ => None,
        },
        None => None,
    }
}

/// Returns the type of the addresses of a memory or a table, which are of 64 bits if `wide` is
/// `true` (Validation, Address Types).
pub fn address_type(wide: bool) -> ValType
    ensures { result ≡ address wide }
{
    if wide { ValType::I64 } else { ValType::I32 }
}

/// Returns the types of the operands of a branch to a block.
pub fn label_types<'a>(shape: &'a Shape) -> &'a [ValType]
    ensures { result.now ≡ label_of shape.now }
{
    match shape.kind {
        Kind::Loop => shape.params.as_slice(),
        Kind::Block | Kind::If => shape.results.as_slice(),
    }
}

/// Returns the types of the operands of a branch to the label `index`, where `shape` is the
/// innermost block and `outers` are the blocks around it, the innermost last.
pub fn label<'a>(shape: &'a Shape, outers: &'a [Frame], index: u32) -> Option<&'a [ValType]>
    ensures { MatchOption result
        (slice_get (label_of shape.now ∷ labels_of (reverse outers.now)) index ≡ None)
        (λ taken. slice_get (label_of shape.now ∷ labels_of (reverse outers.now)) index
        ≡ Some taken.now) }
{
    let index = index as usize;
    if index == 0 {
        return Some(label_types(shape));
    }
    if outers.len() < index {
        return None;
    }
    Some(label_types(&outers[outers.len() - index].shape))
}
