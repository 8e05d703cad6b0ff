ghost use Rattle.std.specs.Prelude.{◌≡◌, map, IfOk, IfErr};
ghost use Rattle.smith_check_types.specs.Renamed.{
  renamed_heap,
  renamed_ref,
  renamed_val,
  renamed_field,
  renamed_inner,
  renamed_supertype,
  renamed,
};
ghost use Rattle.smith_check_types.specs.TypeSections.{canonical_index, canonical_groups};

use smith_bytes::Error;
use smith_types::{
    ArrayType, CompositeInnerType, CompositeType, FieldType, FuncType, HeapType, Items, RefType,
    StorageType, StructType, SubType, ValType,
};
use std::alloc::Global;

/// Returns copies of `groups` whose types refer to one another by the canonical `indices`.
pub fn canonical_groups(
    alloc: Global,
    indices: &[u32],
    groups: &[Items<SubType>],
) -> Result<Items<Items<SubType>>, Error>
    ensures ok { IfOk result (λ made. made ≡ canonical_groups indices.now groups.now) }
    ensures memory { IfErr result (λ e. e ≡ Error.Memory) }
{
    let mut made = Items::with_capacity(alloc, groups.len())?;
    for group in groups {
        made.push(canonical_group(alloc, indices, group.as_slice())?)?;
    }
    Ok(made)
}

fn canonical_group(
    alloc: Global,
    indices: &[u32],
    group: &[SubType],
) -> Result<Items<SubType>, Error>
    ensures ok { IfOk result (λ made. made ≡ map (renamed (canonical_index indices.now)) group.now) }
    ensures memory { IfErr result (λ e. e ≡ Error.Memory) }
{
    let mut made = Items::with_capacity(alloc, group.len())?;
    for ty in group {
        made.push(canonical_type(alloc, indices, ty)?)?;
    }
    Ok(made)
}

fn canonical_type(alloc: Global, indices: &[u32], ty: &SubType) -> Result<SubType, Error>
    ensures ok { IfOk result (λ made. made ≡ renamed (canonical_index indices.now) ty.now) }
    ensures memory { IfErr result (λ e. e ≡ Error.Memory) }
{
    let inner = canonical_inner(alloc, indices, &ty.composite_type.inner)?;
    Ok(SubType {
        is_final: ty.is_final,
        supertype: canonical_supertype(indices, ty.supertype),
        composite_type: CompositeType {
            inner,
            shared: ty.composite_type.shared,
        },
    })
}

fn canonical_supertype(indices: &[u32], supertype: Option<u32>) -> Option<u32>
    ensures { result ≡ renamed_supertype (canonical_index indices.now) supertype }
{
    match supertype {
        Some(index) => Some(canonical_index(indices, index)),
        None => None,
    }
}

fn canonical_inner(
    alloc: Global,
    indices: &[u32],
    inner: &CompositeInnerType,
) -> Result<CompositeInnerType, Error>
    ensures ok { IfOk result (λ made. made ≡ renamed_inner (canonical_index indices.now) inner.now) }
    ensures memory { IfErr result (λ e. e ≡ Error.Memory) }
{
    Ok(match inner {
        CompositeInnerType::Array(array) => {
            CompositeInnerType::Array(ArrayType(canonical_field(indices, array.0)))
        }
        CompositeInnerType::Func(function) => CompositeInnerType::Func(FuncType {
            params: canonical_values(alloc, indices, function.params.as_slice())?,
            results: canonical_values(alloc, indices, function.results.as_slice())?,
        }),
        CompositeInnerType::Struct(structure) => CompositeInnerType::Struct(StructType {
            fields: canonical_fields(alloc, indices, structure.fields.as_slice())?,
        }),
    })
}

fn canonical_values(
    alloc: Global,
    indices: &[u32],
    values: &[ValType],
) -> Result<Items<ValType>, Error>
    ensures ok { IfOk result (λ made.
        made ≡ map (renamed_val (canonical_index indices.now)) values.now) }
    ensures memory { IfErr result (λ e. e ≡ Error.Memory) }
{
    let mut made = Items::with_capacity(alloc, values.len())?;
    for value in values {
        made.push(canonical_val_type(indices, *value))?;
    }
    Ok(made)
}

fn canonical_fields(
    alloc: Global,
    indices: &[u32],
    fields: &[FieldType],
) -> Result<Items<FieldType>, Error>
    ensures ok { IfOk result (λ made.
        made ≡ map (renamed_field (canonical_index indices.now)) fields.now) }
    ensures memory { IfErr result (λ e. e ≡ Error.Memory) }
{
    let mut made = Items::with_capacity(alloc, fields.len())?;
    for field in fields {
        made.push(canonical_field(indices, *field))?;
    }
    Ok(made)
}

fn canonical_field(indices: &[u32], field: FieldType) -> FieldType
    ensures { result ≡ renamed_field (canonical_index indices.now) field }
{
    let element_type = match field.element_type {
        StorageType::I8 => StorageType::I8,
        StorageType::I16 => StorageType::I16,
        StorageType::Val(value) => StorageType::Val(canonical_val_type(indices, value)),
    };
    FieldType {
        element_type,
        mutable: field.mutable,
    }
}

/// Returns the value type `value` with the canonical index in `indices` of the type that it refers
/// to, if any.
pub fn canonical_val_type(indices: &[u32], value: ValType) -> ValType
    ensures { result ≡ renamed_val (canonical_index indices.now) value }
{
    match value {
        ValType::Ref(reference) => ValType::Ref(canonical_ref_type(indices, reference)),
        _ => value,
    }
}

/// Returns the reference type `reference` with the canonical index in `indices` of the type that it
/// refers to, if any.
pub fn canonical_ref_type(indices: &[u32], reference: RefType) -> RefType
    ensures { result ≡ renamed_ref (canonical_index indices.now) reference }
{
    RefType {
        nullable: reference.nullable,
        heap_type: canonical_heap_type(indices, reference.heap_type),
    }
}

/// Returns the heap type `heap_type` with the canonical index in `indices` of the type that it
/// refers to, if any.
pub fn canonical_heap_type(indices: &[u32], heap_type: HeapType) -> HeapType
    ensures { result ≡ renamed_heap (canonical_index indices.now) heap_type }
{
    match heap_type {
        HeapType::Abstract { shared, ty } => HeapType::Abstract { shared, ty },
        HeapType::Concrete(index) => HeapType::Concrete(canonical_index(indices, index)),
        HeapType::Exact(index) => HeapType::Exact(canonical_index(indices, index)),
    }
}

/// Returns the canonical index in `indices` of the type `index`, or `index` if it is past all types.
pub fn canonical_index(indices: &[u32], index: u32) -> u32
    ensures { result ≡ canonical_index indices.now index }
{
    match indices.get(index as usize) {
        Some(first) => *first,
        None => index,
    }
}
