use crate::answer_lines::{equality, write_debug, write_pair};
use smith_bytes::Error;
use smith_case::Fault;
use smith_config::Shape;
use smith_types::{CompositeInnerType, CompositeType, ImportItem, Imports, Items, SubType};
use std::alloc::Global;

/// Appends a line for each group, type and import of `shape`, and for each of their parts, that says
/// whether a copy is equal. A group of imports is printed before its lines.
pub(crate) fn answer_copies(
    alloc: Global,
    shape: &Shape,
    answer: &mut String,
) -> Result<(), Fault> {
    answer_groups(alloc, shape.groups.as_slice(), answer)?;
    answer_imports(alloc, shape.imports.as_slice(), answer)
}

// Appends whether `copy` is equal to `value`, which has the type `name`.
fn write_copy<T: PartialEq + Drop>(
    name: &str,
    copy: Result<T, Error>,
    value: &T,
    answer: &mut String,
) -> Result<(), Fault> {
    match copy {
        Ok(copy) => write_pair(name, equality(copy == *value), answer),
        Err(_) => Err(Fault::Memory),
    }
}

fn answer_groups(
    alloc: Global,
    groups: &[Items<SubType>],
    answer: &mut String,
) -> Result<(), Fault> {
    for group in groups {
        write_copy("Items<SubType>", group.clone(alloc), group, answer)?;
        answer_types(alloc, group.as_slice(), answer)?;
    }
    Ok(())
}

fn answer_types(alloc: Global, types: &[SubType], answer: &mut String) -> Result<(), Fault> {
    for ty in types {
        write_copy("SubType", ty.clone(alloc), ty, answer)?;
        answer_composite(alloc, &ty.composite_type, answer)?;
    }
    Ok(())
}

fn answer_composite(alloc: Global, ty: &CompositeType, answer: &mut String) -> Result<(), Fault> {
    write_copy("CompositeType", ty.clone(alloc), ty, answer)?;
    write_copy(
        "CompositeInnerType",
        ty.inner.clone(alloc),
        &ty.inner,
        answer,
    )?;
    match &ty.inner {
        CompositeInnerType::Array(_) => Ok(()),
        CompositeInnerType::Func(func) => write_copy("FuncType", func.clone(alloc), func, answer),
        CompositeInnerType::Struct(structure) => {
            write_copy("StructType", structure.clone(alloc), structure, answer)
        }
    }
}

fn answer_imports(alloc: Global, imports: &[Imports], answer: &mut String) -> Result<(), Fault> {
    for group in imports {
        write_debug(group, answer)?;
        write_copy("Imports", group.clone(alloc), group, answer)?;
        answer_parts(alloc, group, answer)?;
    }
    Ok(())
}

fn answer_parts(alloc: Global, group: &Imports, answer: &mut String) -> Result<(), Fault> {
    match group {
        Imports::Single(import) => write_copy("Import", import.clone(alloc), import, answer),
        Imports::Compact1 { items, .. } => answer_items(alloc, items.as_slice(), answer),
        Imports::Compact2 { names, .. } => {
            write_copy("Items<Name>", names.clone(alloc), names, answer)
        }
    }
}

fn answer_items(alloc: Global, items: &[ImportItem], answer: &mut String) -> Result<(), Fault> {
    for item in items {
        write_copy("ImportItem", item.clone(alloc), item, answer)?;
    }
    Ok(())
}
