ghost use Rattle.std.specs.Prelude.{◌≡◌, IfErr};

use crate::change::Change;
use crate::edit::Edit;
use crate::rotation::rotated;
use smith_bytes::{Error, Unstructured};
use smith_decode::Module;
use smith_types::{
    ArrayType, CompositeInnerType, CompositeType, FieldType, FuncType, HeapType, Items, RefType,
    StorageType, StructType, SubType, ValType,
};
use std::alloc::Global;

// A type of a module.
#[derive(Clone, Copy)]
struct TypePlace {
    group: usize,
    index: usize,
    // The index of the first type after the group.
    end: usize,
}

/// Returns the number of types.
pub(crate) fn count_types(module: &Module) -> usize {
    let mut count: usize = 0;
    for group in module.types.as_slice() {
        count = count.saturating_add(group.len());
    }
    count
}

// Returns the place of the type at `index` in the index space.
fn place_of(module: &Module, index: usize) -> Option<TypePlace> {
    let mut start: usize = 0;
    for (group, types) in module.types.as_slice().iter().enumerate() {
        let end = start.saturating_add(types.len());
        if index < end {
            return Some(TypePlace {
                group,
                index: index.saturating_sub(start),
                end,
            });
        }
        start = end;
    }
    None
}

// Returns the type at a place.
fn type_at(module: &Module, place: TypePlace) -> Option<&SubType> {
    module
        .types
        .as_slice()
        .get(place.group)?
        .as_slice()
        .get(place.index)
}

// Draws a type.
fn draw_place(module: &Module, u: &mut Unstructured<'_>) -> Option<TypePlace> {
    let count = count_types(module);
    if count == 0 {
        return None;
    }
    place_of(module, u.int_in_range(0..=count - 1))
}

// Returns the change of the type at `place` to `ty`.
fn replacement(place: TypePlace, ty: SubType) -> Change {
    Change::Type {
        group: place.group,
        index: place.index,
        edit: Edit::Replace(ty),
    }
}

/// Draws another supertype for a type.
pub(crate) fn break_supertype(
    alloc: Global,
    module: &Module,
    u: &mut Unstructured<'_>,
) -> Result<Option<Change>, Error>
    ensures memory { IfErr result (λ e. e ≡ Error.Memory) }
{
    let Some(place) = draw_place(module, u) else {
        return Ok(None);
    };
    let Some(ty) = type_at(module, place) else {
        return Ok(None);
    };
    let count = u32::try_from(place.end).unwrap_or(u32::MAX);
    let supertype = u.int_in_range(0..=count);
    let changed = SubType {
        is_final: ty.is_final,
        supertype: Some(supertype),
        composite_type: ty.composite_type.clone(alloc)?,
    };
    Ok(Some(replacement(place, changed)))
}

// Returns the first declared supertype in `group`.
fn supertype_in(group: &[SubType]) -> Option<u32> {
    for ty in group {
        if let Some(supertype) = ty.supertype {
            return Some(supertype);
        }
    }
    None
}

// Draws a group, and returns the first declared supertype from there on, round the end.
fn find_supertype(module: &Module, u: &mut Unstructured<'_>) -> Option<u32> {
    let from = usize::from(u.arbitrary::<u16>());
    let groups = module.types.as_slice();
    for step in 0..groups.len() {
        let group = &groups[rotated(from, step, groups.len())];
        if let Some(supertype) = supertype_in(group.as_slice()) {
            return Some(supertype);
        }
    }
    None
}

/// Makes a type with subtypes final.
pub(crate) fn finish_type(
    alloc: Global,
    module: &Module,
    u: &mut Unstructured<'_>,
) -> Result<Option<Change>, Error>
    ensures memory { IfErr result (λ e. e ≡ Error.Memory) }
{
    let Some(supertype) = find_supertype(module, u) else {
        return Ok(None);
    };
    let Some(place) = place_of(module, supertype as usize) else {
        return Ok(None);
    };
    let Some(ty) = type_at(module, place) else {
        return Ok(None);
    };
    let changed = SubType {
        is_final: true,
        supertype: ty.supertype,
        composite_type: ty.composite_type.clone(alloc)?,
    };
    Ok(Some(replacement(place, changed)))
}

// Returns `list` with `first` in place of its first item, if it has one.
fn with_first<T: Copy>(alloc: Global, list: &[T], first: T) -> Result<Option<Items<T>>, Error>
    ensures memory { IfErr result (λ e. e ≡ Error.Memory) }
{
    let [_, rest @ ..] = list else {
        return Ok(None);
    };
    let mut changed = Items::from_slice(alloc, &[first])?;
    changed.extend_from_slice(rest)?;
    Ok(Some(changed))
}

// Returns `ty` with a first parameter, or else a first result, of the type `first`.
fn refer_from_function(
    alloc: Global,
    ty: &FuncType,
    first: ValType,
) -> Result<Option<CompositeInnerType>, Error>
    ensures memory { IfErr result (λ e. e ≡ Error.Memory) }
{
    if let Some(params) = with_first(alloc, ty.params.as_slice(), first)? {
        let results = ty.results.copy_in(alloc)?;
        return Ok(Some(CompositeInnerType::Func(FuncType { params, results })));
    }
    match with_first(alloc, ty.results.as_slice(), first)? {
        None => Ok(None),
        Some(results) => {
            let params = ty.params.copy_in(alloc)?;
            Ok(Some(CompositeInnerType::Func(FuncType { params, results })))
        }
    }
}

// Returns `inner` with a reference to the type `index`, if it has a value.
fn refer_to(
    alloc: Global,
    inner: &CompositeInnerType,
    index: u32,
) -> Result<Option<CompositeInnerType>, Error>
    ensures memory { IfErr result (λ e. e ≡ Error.Memory) }
{
    let first = ValType::Ref(RefType {
        nullable: true,
        heap_type: HeapType::Concrete(index),
    });
    let field = FieldType {
        element_type: StorageType::Val(first),
        mutable: false,
    };
    match inner {
        CompositeInnerType::Func(ty) => refer_from_function(alloc, ty, first),
        CompositeInnerType::Array(_) => Ok(Some(CompositeInnerType::Array(ArrayType(field)))),
        CompositeInnerType::Struct(ty) => {
            match with_first(alloc, ty.fields.as_slice(), field)? {
                None => Ok(None),
                Some(fields) => Ok(Some(CompositeInnerType::Struct(StructType { fields }))),
            }
        }
    }
}

/// Draws a type, and a reference in it to a type after its group.
pub(crate) fn refer_forward(
    alloc: Global,
    module: &Module,
    u: &mut Unstructured<'_>,
) -> Result<Option<Change>, Error>
    ensures memory { IfErr result (λ e. e ≡ Error.Memory) }
{
    let Some(place) = draw_place(module, u) else {
        return Ok(None);
    };
    let Some(ty) = type_at(module, place) else {
        return Ok(None);
    };
    let end = u32::try_from(place.end).unwrap_or(u32::MAX);
    let index = end.saturating_add(u.int_in_range(0u32..=3));
    match refer_to(alloc, &ty.composite_type.inner, index)? {
        None => Ok(None),
        Some(inner) => {
            let composite_type = CompositeType {
                inner,
                shared: ty.composite_type.shared,
            };
            let changed = SubType {
                is_final: ty.is_final,
                supertype: ty.supertype,
                composite_type,
            };
            Ok(Some(replacement(place, changed)))
        }
    }
}
