ghost use Rattle.std.specs.Prelude.{◌↔◌, IsTrue};
ghost use Rattle.smith_types.specs.Subtyping.{IsInRange, IsValInRange};

use crate::answer_lines::write_line;
use crate::answers::spaces::MISSING;
use smith_case::arguments::word;
use smith_case::call::SubtypeCall;
use smith_case::shapes::{heap_type_of, ref_type_of, val_type_of};
use smith_case::{Case, Fault};
use smith_types::{HeapType, TypeSpace, ValType};

/// Appends `yes` if the first argument is a subtype of the second over `types`, else `no`.
pub(crate) fn answer_subtype(
    types: &TypeSpace,
    case: &Case,
    call: SubtypeCall,
    answer: &mut String,
) -> Result<(), Fault> {
    let (a, b) = (word(case, 0)?, word(case, 1)?);
    let is_below = match call {
        SubtypeCall::HeapType => is_heap_below(types, a, b),
        SubtypeCall::RefType => is_ref_below(types, a, b),
        SubtypeCall::ValType => is_val_below(types, a, b),
    };
    write_line(if is_below? { "yes" } else { "no" }, answer)
}

// Returns whether the type that `heap_type` names exists.
fn heap_type_exists(types: &TypeSpace, heap_type: HeapType) -> bool
    ensures { IsTrue result ↔ IsInRange types.now.types heap_type }
{
    match heap_type {
        HeapType::Abstract { shared: _, ty: _ } => true,
        HeapType::Concrete(index) | HeapType::Exact(index) => (index as usize)
            < types.types().len(),
    }
}

// Returns whether the type that `value` refers to exists.
fn value_exists(types: &TypeSpace, value: ValType) -> bool
    ensures { IsTrue result → IsValInRange types.now.types value }
{
    match value {
        ValType::Ref(reference) => heap_type_exists(types, reference.heap_type),
        _ => true,
    }
}

// Returns whether the heap type that `a` denotes is a subtype of the one that `b` denotes.
fn is_heap_below(types: &TypeSpace, a: &str, b: &str) -> Result<bool, Fault> {
    match (heap_type_of(a), heap_type_of(b)) {
        (None, _) => Err(Fault::Argument(0)),
        (_, None) => Err(Fault::Argument(1)),
        (Some(a), Some(b)) if heap_type_exists(types, a) && heap_type_exists(types, b) => {
            Ok(types.heap_type_is_sub_type(a, b))
        }
        _ => Err(MISSING),
    }
}

// Returns whether the reference type that `a` denotes is a subtype of the one that `b` denotes.
fn is_ref_below(types: &TypeSpace, a: &str, b: &str) -> Result<bool, Fault> {
    match (ref_type_of(a), ref_type_of(b)) {
        (None, _) => Err(Fault::Argument(0)),
        (_, None) => Err(Fault::Argument(1)),
        (Some(a), Some(b))
            if heap_type_exists(types, a.heap_type) && heap_type_exists(types, b.heap_type) => {
            Ok(types.ref_type_is_sub_type(a, b))
        }
        _ => Err(MISSING),
    }
}

// Returns whether the value type that `a` denotes is a subtype of the one that `b` denotes.
fn is_val_below(types: &TypeSpace, a: &str, b: &str) -> Result<bool, Fault> {
    match (val_type_of(a), val_type_of(b)) {
        (None, _) => Err(Fault::Argument(0)),
        (_, None) => Err(Fault::Argument(1)),
        (Some(a), Some(b)) if value_exists(types, a) && value_exists(types, b) => {
            Ok(types.val_type_is_sub_type(a, b))
        }
        _ => Err(MISSING),
    }
}
