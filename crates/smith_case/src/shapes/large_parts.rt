//! Parts of shapes that are too large to be written out.

use crate::fault::Fault;
use smith_types::{
    CompositeInnerType, CompositeType, ExportKind, FieldType, HeapType, Items, Name, RefType,
    StorageType, StructType, SubType, ValType,
};
use std::alloc::Global;

/// Adds `count` structs without fields to `types`, each a subtype of the one before.
pub(crate) fn add_chain(
    alloc: Global,
    count: u32,
    types: &mut Items<SubType>,
) -> Result<(), Fault> {
    for index in 0..count {
        types.push(empty_struct(alloc, index.checked_sub(1)))?;
    }
    Ok(())
}

/// Adds `count` structs without fields to `types`, each a subtype of the next, and the last of the
/// first.
pub(crate) fn add_cycle(
    alloc: Global,
    count: u32,
    types: &mut Items<SubType>,
) -> Result<(), Fault> {
    for index in 0..count {
        types.push(empty_struct(alloc, Some((index + 1) % count)))?;
    }
    Ok(())
}

// Creates an open struct without fields, a subtype of `supertype` if there is one.
fn empty_struct(alloc: Global, supertype: Option<u32>) -> SubType {
    struct_of(false, supertype, Items::new(alloc))
}

fn struct_of(is_final: bool, supertype: Option<u32>, fields: Items<FieldType>) -> SubType {
    SubType {
        is_final,
        supertype,
        composite_type: CompositeType {
            inner: CompositeInnerType::Struct(StructType { fields }),
            shared: false,
        },
    }
}

// Returns a constant field that refers to the type at `index`.
fn field_of(index: u32) -> FieldType {
    FieldType {
        element_type: StorageType::Val(ValType::Ref(RefType {
            nullable: true,
            heap_type: HeapType::Concrete(index),
        })),
        mutable: false,
    }
}

/// Adds a struct of `count` fields that refer to the first type to `types`.
pub(crate) fn add_wide(alloc: Global, count: u32, types: &mut Items<SubType>) -> Result<(), Fault> {
    let mut fields = Items::new(alloc);
    add_fields(count, &mut fields)?;
    Ok(types.push(struct_of(true, None, fields))?)
}

// Adds `count` fields that refer to the first type to `fields`.
fn add_fields(count: u32, fields: &mut Items<FieldType>) -> Result<(), Fault> {
    for _ in 0..count {
        fields.push(field_of(0))?;
    }
    Ok(())
}

/// Adds `count` structs that refer to the first type to `types`, each a subtype of the one before,
/// and `count` subtypes of the last of these that refer to it. A match of each of the latter
/// follows the whole chain.
pub(crate) fn add_fan(alloc: Global, count: u32, types: &mut Items<SubType>) -> Result<(), Fault> {
    for index in 0..count {
        add_referring(alloc, 0, index.checked_sub(1), types)?;
    }
    let last = count.saturating_sub(1);
    for _ in 0..count {
        add_referring(alloc, last, Some(last), types)?;
    }
    Ok(())
}

// Adds a subtype of `supertype` to `types`, a struct of a field that refers to the type `to`.
fn add_referring(
    alloc: Global,
    to: u32,
    supertype: Option<u32>,
    types: &mut Items<SubType>,
) -> Result<(), Fault> {
    let fields = Items::from_slice(alloc, &[field_of(to)])?;
    Ok(types.push(struct_of(false, supertype, fields))?)
}

/// Adds `count` exports of the first global to `exports`, with the names 1, 2 and so on.
pub(crate) fn export_many(
    alloc: Global,
    count: u32,
    exports: &mut Items<(Name, ExportKind, u32)>,
) -> Result<(), Fault> {
    for index in 0..count {
        let name = Name::from_string(format!(in alloc; "{}", u64::from(index) + 1)?);
        exports.push((name, ExportKind::Global, 0))?;
    }
    Ok(())
}
