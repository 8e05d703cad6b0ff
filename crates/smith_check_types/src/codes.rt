ghost use Rattle.std.specs.Prelude.{◌≡◌, ◌++◌, ◌<◌, ◌^◌, length, map, OnOk, IfOk, IfErr};
ghost use Rattle.std.specs.List.{flat_map};
ghost use Rattle.smith_check_types.specs.Canonical.{rolled_index, rolled};
ghost use Rattle.smith_check_types.specs.Codes.{
  flag_code,
  abstract_code,
  heap_codes,
  val_codes,
  storage_codes,
  field_codes,
  vals_codes,
  fields_codes,
  inner_codes,
  supertype_codes,
  type_codes,
  group_codes,
};
ghost use Rattle.smith_check_types.specs.Renamed.{
  renamed_heap,
  renamed_val,
  renamed_storage,
  renamed_field,
  renamed_inner,
  renamed_supertype,
  renamed,
};

use smith_bytes::Error;
use smith_types::{
    AbstractHeapType, CompositeInnerType, FieldType, HeapType, Items, StorageType, SubType, ValType,
};
use std::alloc::Global;

// Returns the numbers of `group`, the group after the types whose canonical indices are `indices`,
// once it is rolled.
pub(crate) fn codes_of_group(
    alloc: Global,
    indices: &[u32],
    group: &[SubType],
) -> Result<Vec<u64>, Error>
    ensures ok { IfOk result (λ codes.
        codes.items ≡ group_codes (rolled indices.now (length indices.now) group.now)) }
    ensures memory { IfErr result (λ e. e ≡ Error.Memory) }
{
    let mut codes = Items::new(alloc);
    for ty in group {
        push_type(&mut codes, indices, ty)?;
    }
    Ok(codes.into_vec())
}

fn push_type(codes: &mut Items<u64>, indices: &[u32], ty: &SubType) -> Result<(), Error>
    ensures ok { OnOk result (codes.new
        ≡ codes.old ++ type_codes (renamed (rolled_index indices.now (length indices.now)) ty.now)) }
    ensures memory { IfErr result (λ e. e ≡ Error.Memory) }
{
    codes.push(flag_code(ty.is_final))?;
    push_supertype(codes, indices, ty.supertype)?;
    codes.push(flag_code(ty.composite_type.shared))?;
    push_inner(codes, indices, &ty.composite_type.inner)
}

fn push_supertype(
    codes: &mut Items<u64>,
    indices: &[u32],
    supertype: Option<u32>,
) -> Result<(), Error>
    ensures ok { OnOk result (codes.new ≡ codes.old
        ++ supertype_codes (renamed_supertype (rolled_index indices.now (length indices.now)) supertype)) }
    ensures memory { IfErr result (λ e. e ≡ Error.Memory) }
{
    match supertype {
        Some(index) => codes.extend_from_slice(&[1, rolled_index(indices, index)]),
        None => codes.push(0),
    }
}

fn push_inner(
    codes: &mut Items<u64>,
    indices: &[u32],
    inner: &CompositeInnerType,
) -> Result<(), Error>
    ensures ok { OnOk result (codes.new ≡ codes.old
        ++ inner_codes (renamed_inner (rolled_index indices.now (length indices.now)) inner.now)) }
    ensures memory { IfErr result (λ e. e ≡ Error.Memory) }
{
    match inner {
        CompositeInnerType::Array(array) => {
            codes.push(0)?;
            push_field(codes, indices, array.0)
        }
        CompositeInnerType::Func(function) => {
            codes.push(1)?;
            push_values(codes, indices, function.params.as_slice())?;
            push_values(codes, indices, function.results.as_slice())
        }
        CompositeInnerType::Struct(structure) => {
            codes.push(2)?;
            push_fields(codes, indices, structure.fields.as_slice())
        }
    }
}

fn push_values(codes: &mut Items<u64>, indices: &[u32], values: &[ValType]) -> Result<(), Error>
    ensures ok { OnOk result (codes.new ≡ codes.old
        ++ vals_codes (map (renamed_val (rolled_index indices.now (length indices.now))) values.now)) }
    ensures memory { IfErr result (λ e. e ≡ Error.Memory) }
{
    codes.push(values.len() as u64)?;
    for value in values {
        push_value(codes, indices, *value)?;
    }
    Ok(())
}

fn push_fields(codes: &mut Items<u64>, indices: &[u32], fields: &[FieldType]) -> Result<(), Error>
    ensures ok { OnOk result (codes.new ≡ codes.old
        ++ fields_codes (map (renamed_field (rolled_index indices.now (length indices.now))) fields.now)) }
    ensures memory { IfErr result (λ e. e ≡ Error.Memory) }
{
    codes.push(fields.len() as u64)?;
    for field in fields {
        push_field(codes, indices, *field)?;
    }
    Ok(())
}

fn push_field(codes: &mut Items<u64>, indices: &[u32], field: FieldType) -> Result<(), Error>
    ensures ok { OnOk result (codes.new ≡ codes.old
        ++ field_codes (renamed_field (rolled_index indices.now (length indices.now)) field)) }
    ensures memory { IfErr result (λ e. e ≡ Error.Memory) }
{
    codes.push(flag_code(field.mutable))?;
    match field.element_type {
        StorageType::I8 => codes.push(6),
        StorageType::I16 => codes.push(7),
        StorageType::Val(value) => push_value(codes, indices, value),
    }
}

fn push_value(codes: &mut Items<u64>, indices: &[u32], value: ValType) -> Result<(), Error>
    ensures ok { OnOk result (codes.new ≡ codes.old
        ++ val_codes (renamed_val (rolled_index indices.now (length indices.now)) value)) }
    ensures memory { IfErr result (λ e. e ≡ Error.Memory) }
{
    match value {
        ValType::I32 => codes.push(0),
        ValType::I64 => codes.push(1),
        ValType::F32 => codes.push(2),
        ValType::F64 => codes.push(3),
        ValType::V128 => codes.push(4),
        ValType::Ref(reference) => {
            codes.extend_from_slice(&[5, flag_code(reference.nullable)])?;
            push_heap(codes, indices, reference.heap_type)
        }
    }
}

fn push_heap(codes: &mut Items<u64>, indices: &[u32], heap_type: HeapType) -> Result<(), Error>
    ensures ok { OnOk result (codes.new ≡ codes.old
        ++ heap_codes (renamed_heap (rolled_index indices.now (length indices.now)) heap_type)) }
    ensures memory { IfErr result (λ e. e ≡ Error.Memory) }
{
    match heap_type {
        HeapType::Abstract { shared, ty } => {
            codes.extend_from_slice(&[0, flag_code(shared), abstract_code(ty)])
        }
        HeapType::Concrete(index) => codes.extend_from_slice(&[1, rolled_index(indices, index)]),
        HeapType::Exact(index) => codes.extend_from_slice(&[2, rolled_index(indices, index)]),
    }
}

// Returns how the group after the types whose canonical indices are `indices` refers to the type
// `index` once it is rolled.
fn rolled_index(indices: &[u32], index: u32) -> u64
    ensures { result ≡ rolled_index indices.now (length indices.now) index }
{
    let place = index as usize;
    if place < indices.len() {
        u64::from(indices[place])
    } else {
        (place - indices.len()) as u64 + 0x1_0000_0000
    }
}

fn flag_code(flag: bool) -> u64
    ensures { result ≡ flag_code flag }
{
    if flag { 1 } else { 0 }
}

fn abstract_code(ty: AbstractHeapType) -> u64
    ensures { result ≡ abstract_code ty }
{
    match ty {
        AbstractHeapType::Func => 0,
        AbstractHeapType::Extern => 1,
        AbstractHeapType::Any => 2,
        AbstractHeapType::None => 3,
        AbstractHeapType::NoExtern => 4,
        AbstractHeapType::NoFunc => 5,
        AbstractHeapType::Eq => 6,
        AbstractHeapType::Struct => 7,
        AbstractHeapType::Array => 8,
        AbstractHeapType::I31 => 9,
        AbstractHeapType::Exn => 10,
        AbstractHeapType::NoExn => 11,
    }
}
