ghost use Rattle.std.specs.Prelude.{◌≡◌, ◌↔◌, IsTrue, MatchOption, slice_get, true};
ghost use Rattle.smith_instr.specs.AggregateTypes.{IsFieldAt, IsReadBy, IsOfBytes, IsElemOf, value_of};
ghost use Rattle.smith_instr.specs.Contexts.{IsValid};
ghost use Rattle.smith_types.specs.Expressions.{IsArrayAt, IsStructAt};
ghost use Rattle.smith_check_operands.specs.Scopes.{bare, IsScope};
ghost use Rattle.smith_check_references.specs.Lookups.{HasNoArray, HasNoField, HasNoMutableArray, HasNoMutableField, HasNoStruct};

use smith_check_operands::Scope;
use smith_instr::Extension;
use smith_types::{
    CompositeInnerType, FieldType, RefType, StorageType, TableType, TypeSpace, ValType,
};

/// Returns the table type at an index.
pub fn table_at(tables: &[TableType], index: u32) -> Option<TableType>
    ensures { result ≡ slice_get tables.now index }
{
    let index = index as usize;
    if index < tables.len() {
        Some(tables[index])
    } else {
        None
    }
}

/// Returns the type of the element segment at an index.
pub fn elem_at(elems: &[RefType], index: u32) -> Option<RefType>
    ensures { result ≡ slice_get elems.now index }
{
    let index = index as usize;
    if index < elems.len() {
        Some(elems[index])
    } else {
        None
    }
}

/// Returns the element of the array type at an index, if there is one.
pub fn array_at(types: &TypeSpace, index: u32) -> Option<FieldType>
    ensures { MatchOption result (HasNoArray types.now.types index)
        (λ element. IsArrayAt types.now.types index element) }
{
    match types.types().get(index as usize) {
        Some(ty) => match &ty.composite_type.inner {
            CompositeInnerType::Array(array) => Some(array.0),
            _ => None,
        },
        None => None,
    }
}

/// Returns the fields of the struct type at an index, if there is one.
pub fn fields_at<'a>(types: &'a TypeSpace, index: u32) -> Option<&'a [FieldType]>
    ensures { MatchOption result (HasNoStruct types.now.types index)
        (λ fields. IsStructAt types.now.types index fields.now) }
{
    match types.types().get(index as usize) {
        Some(ty) => match &ty.composite_type.inner {
            CompositeInnerType::Struct(structure) => Some(structure.fields.as_slice()),
            _ => None,
        },
        None => None,
    }
}

fn field_in(fields: &[FieldType], index: u32) -> Option<FieldType>
    ensures { result ≡ slice_get fields.now index }
{
    let index = index as usize;
    if index < fields.len() {
        Some(fields[index])
    } else {
        None
    }
}

/// Returns the field `index` of the struct type `ty`, if there is one.
pub fn field_at(scope: &Scope, ty: u32, index: u32) -> Option<FieldType>
    ensures { MatchOption result (HasNoField (bare scope.now) ty index)
        (λ field. IsFieldAt (bare scope.now) ty index field) }
{
    match fields_at(scope.types, ty) {
        Some(fields) => field_in(fields, index),
        None => None,
    }
}

/// Returns the element of the array type at an index, if there is one and it is mutable.
pub fn mutable_array_at(types: &TypeSpace, index: u32) -> Option<FieldType>
    ensures { MatchOption result (HasNoMutableArray types.now.types index)
        (λ element. IsArrayAt types.now.types index element × (element.mutable ≡ true)) }
{
    match array_at(types, index) {
        Some(element) => { if element.mutable { Some(element) } else { None } }
        None => None,
    }
}

/// Returns the field `index` of the struct type `ty`, if there is one and it is mutable.
pub fn mutable_field_at(scope: &Scope, ty: u32, index: u32) -> Option<FieldType>
    ensures { MatchOption result (HasNoMutableField (bare scope.now) ty index)
        (λ field. IsFieldAt (bare scope.now) ty index field × (field.mutable ≡ true)) }
{
    match field_at(scope, ty, index) {
        Some(field) => { if field.mutable { Some(field) } else { None } }
        None => None,
    }
}

/// Returns whether a field that stores `stored` is read with `extension` (Validation, Aggregate
/// Instructions, struct.get and array.get).
pub fn is_read_by(extension: Extension, stored: StorageType) -> bool
    ensures { IsTrue result ↔ IsReadBy extension stored }
{
    match stored {
        StorageType::Val(_) => matches!(extension, Extension::Unpacked),
        _ => !matches!(extension, Extension::Unpacked),
    }
}

/// Returns whether bytes may fill a field that stores `stored` (Validation, Aggregate Instructions,
/// array.new_data).
pub fn is_of_bytes(stored: StorageType) -> bool
    ensures { IsTrue result ↔ IsOfBytes stored }
{
    !matches!(stored, StorageType::Val(ValType::Ref(_)))
}

/// Returns whether an array of `element` may hold the references of an element segment (Validation,
/// Aggregate Instructions, array.new_elem).
pub fn is_elem_of(scope: &Scope, segment: u32, element: FieldType) -> bool
    requires scope { IsScope (bare scope.now) }
    requires element { IsValid (bare scope.now) (value_of element) }
    ensures { IsTrue result ↔ IsElemOf (bare scope.now) segment element }
{
    match element.element_type {
        StorageType::Val(ValType::Ref(reference)) => match elem_at(scope.elems, segment) {
            Some(held) => scope.types.ref_type_is_sub_type(held, reference),
            None => false,
        },
        _ => false,
    }
}
