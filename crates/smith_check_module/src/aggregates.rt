ghost use Rattle.std.specs.Prelude.{◌≡◌, replicate, IfOk, IfErr, MatchOption};
ghost use Rattle.smith_types.specs.Syntax.const_instr.ConstInstr.TheVariants as constant;
ghost use Rattle.smith_types.specs.Expressions.{IsArrayAt, IsStructAt, field_values};
ghost use Rattle.smith_check_module.specs.ConstScopes.{IsScope, context_of};
ghost use Rattle.smith_check_module.specs.Typings.{HasMore, HasNoArray, HasNoStruct, HasNoType};
ghost use Rattle.smith_check_module.specs.Typings.{IsOnly};

use crate::scope::Scope;
use crate::signature::{Signature, created};
use smith_bytes::Error;
use smith_types::{
    CompositeInnerType, FieldType, Items, SubType, ValType, are_defaultable, is_defaultable, unpack,
};
use std::alloc::Global;

// Returns the fields of the struct type at an index, if there is one.
fn struct_at<'a>(types: &'a [SubType], index: u32) -> Option<&'a [FieldType]>
    ensures { MatchOption result (HasNoStruct types.now index)
        (λ fields. IsStructAt types.now index fields.now) }
{
    match types.get(index as usize) {
        Some(ty) => match &ty.composite_type.inner {
            CompositeInnerType::Struct(structure) => Some(structure.fields.as_slice()),
            _ => None,
        },
        None => None,
    }
}

// Returns the element of the array type at an index, if there is one.
fn array_at(types: &[SubType], index: u32) -> Option<FieldType>
    ensures { MatchOption result (HasNoArray types.now index)
        (λ element. IsArrayAt types.now index element) }
{
    match types.get(index as usize) {
        Some(ty) => match &ty.composite_type.inner {
            CompositeInnerType::Array(array) => Some(array.0),
            _ => None,
        },
        None => None,
    }
}

// Returns the types of the operands that create a struct with these fields.
fn field_values(alloc: Global, fields: &[FieldType]) -> Result<Items<ValType>, Error>
    ensures ok { IfOk result (λ made. made ≡ field_values fields.now) }
    ensures memory { IfErr result (λ e. e ≡ Error.Memory) }
{
    let mut made = Items::with_capacity(alloc, fields.len())?;
    for field in fields {
        made.push(unpack(field.element_type))?;
    }
    Ok(made)
}

// Returns `count` times `value`.
fn repeated(alloc: Global, count: usize, value: ValType) -> Result<Items<ValType>, Error>
    ensures ok { IfOk result (λ made. made ≡ replicate count value) }
    ensures memory { IfErr result (λ e. e ≡ Error.Memory) }
{
    let mut made = Items::with_capacity(alloc, count)?;
    for _ in 0..count {
        made.push(value)?;
    }
    Ok(made)
}

/// Returns the signature of `struct.new`, if it has no more than `most` operands.
pub(crate) fn struct_signature(
    alloc: Global,
    scope: &Scope<'_>,
    most: usize,
    index: u32,
) -> Result<Option<Signature>, Error>
    requires { IsScope (context_of scope.now) }
    ensures ok { IfOk result (λ found. MatchOption found
        (HasMore (context_of scope.now) (constant.StructNew index) most)
        (λ s. IsOnly (context_of scope.now) (constant.StructNew index) s.operands s.result)) }
    ensures memory { IfErr result (λ e. e ≡ Error.Memory) }
{
    let fields = match struct_at(scope.types.types(), index) {
        Some(fields) => fields,
        None => return Ok(None),
    };
    if fields.len() > most {
        return Ok(None);
    }
    Ok(Some(Signature {
        operands: field_values(alloc, fields)?,
        result: created(scope, index),
    }))
}

/// Returns the signature of `struct.new_default`.
pub(crate) fn default_struct_signature(
    alloc: Global,
    scope: &Scope<'_>,
    index: u32,
) -> Option<Signature>
    requires { IsScope (context_of scope.now) }
    ensures { MatchOption result
        (HasNoType (context_of scope.now) (constant.StructNewDefault index))
        (λ s. IsOnly (context_of scope.now) (constant.StructNewDefault index) s.operands s.result) }
{
    match struct_at(scope.types.types(), index) {
        Some(fields) => {
            if !are_defaultable(fields) {
                return None;
            }
            Some(Signature {
                operands: Items::new(alloc),
                result: created(scope, index),
            })
        }
        None => None,
    }
}

/// Returns the signature of `array.new`.
pub(crate) fn array_signature(
    alloc: Global,
    scope: &Scope<'_>,
    index: u32,
) -> Result<Option<Signature>, Error>
    requires { IsScope (context_of scope.now) }
    ensures ok { IfOk result (λ found. MatchOption found
        (HasNoType (context_of scope.now) (constant.ArrayNew index))
        (λ s. IsOnly (context_of scope.now) (constant.ArrayNew index) s.operands s.result)) }
    ensures memory { IfErr result (λ e. e ≡ Error.Memory) }
{
    let element = match array_at(scope.types.types(), index) {
        Some(element) => element,
        None => return Ok(None),
    };
    let operands = [unpack(element.element_type), ValType::I32];
    Ok(Some(Signature {
        operands: Items::from_slice(alloc, &operands)?,
        result: created(scope, index),
    }))
}

/// Returns the signature of `array.new_default`.
pub(crate) fn default_array_signature(
    alloc: Global,
    scope: &Scope<'_>,
    index: u32,
) -> Result<Option<Signature>, Error>
    requires { IsScope (context_of scope.now) }
    ensures ok { IfOk result (λ found. MatchOption found
        (HasNoType (context_of scope.now) (constant.ArrayNewDefault index))
        (λ s. IsOnly (context_of scope.now) (constant.ArrayNewDefault index) s.operands s.result)) }
    ensures memory { IfErr result (λ e. e ≡ Error.Memory) }
{
    let element = match array_at(scope.types.types(), index) {
        Some(element) => element,
        None => return Ok(None),
    };
    if !is_defaultable(unpack(element.element_type)) {
        return Ok(None);
    }
    Ok(Some(Signature {
        operands: Items::from_slice(alloc, &[ValType::I32])?,
        result: created(scope, index),
    }))
}

/// Returns the signature of `array.new_fixed` with `size` elements, if these are no more than `most`.
pub(crate) fn fixed_array_signature(
    alloc: Global,
    scope: &Scope<'_>,
    most: usize,
    index: u32,
    size: u32,
) -> Result<Option<Signature>, Error>
    requires { IsScope (context_of scope.now) }
    ensures ok { IfOk result (λ found. MatchOption found
        (HasMore (context_of scope.now) (constant.ArrayNewFixed index size) most)
        (λ s. IsOnly (context_of scope.now) (constant.ArrayNewFixed index size)
        s.operands s.result)) }
    ensures memory { IfErr result (λ e. e ≡ Error.Memory) }
{
    let element = match array_at(scope.types.types(), index) {
        Some(element) => element,
        None => return Ok(None),
    };
    if size as usize > most {
        return Ok(None);
    }
    Ok(Some(Signature {
        operands: repeated(alloc, size as usize, unpack(element.element_type))?,
        result: created(scope, index),
    }))
}
