use crate::part::Part;
use crate::places::{Finder, Kind};
use crate::stop::Stop;
use smith_types::{StorageType, ValType};

// Walks `count` value types.
fn walk_val_types(part: &mut Part<'_>, finder: &mut Finder) -> Result<(), Stop> {
    let count = part.read_count(finder)?;
    for _ in 0..count {
        part.read_type::<ValType>(finder)?;
    }
    Ok(())
}

// Walks the type of a field, and whether it is mutable (Composite Types).
fn walk_field(part: &mut Part<'_>, finder: &mut Finder) -> Result<(), Stop> {
    part.read_type::<StorageType>(finder)?;
    part.read_byte(Kind::Flag, finder)?;
    Ok(())
}

// Walks the fields of a struct type.
fn walk_fields(part: &mut Part<'_>, finder: &mut Finder) -> Result<(), Stop> {
    let count = part.read_count(finder)?;
    for _ in 0..count {
        walk_field(part, finder)?;
    }
    Ok(())
}

// Walks a composite type after its first byte `form` (Composite Types).
fn walk_composite(form: u8, part: &mut Part<'_>, finder: &mut Finder) -> Result<(), Stop> {
    match form {
        0x60 => {
            walk_val_types(part, finder)?;
            walk_val_types(part, finder)
        }
        0x5F => walk_fields(part, finder),
        0x5E => walk_field(part, finder),
        _ => Err(Stop::NoPlace),
    }
}

// Walks the indices of supertypes.
fn walk_supertypes(part: &mut Part<'_>, finder: &mut Finder) -> Result<(), Stop> {
    let count = part.read_count(finder)?;
    for _ in 0..count {
        part.read_u32(finder)?;
    }
    Ok(())
}

// Walks a sub type after its first byte `form` (Recursive Types).
fn walk_sub_type(form: u8, part: &mut Part<'_>, finder: &mut Finder) -> Result<(), Stop> {
    if form != 0x50 && form != 0x4F {
        return walk_composite(form, part, finder);
    }
    walk_supertypes(part, finder)?;
    let inner = part.read_byte(Kind::Flag, finder)?;
    walk_composite(inner, part, finder)
}

/// Walks a recursive group of types (Recursive Types).
pub(crate) fn walk_group(part: &mut Part<'_>, finder: &mut Finder) -> Result<(), Stop> {
    let form = part.read_byte(Kind::Flag, finder)?;
    if form != 0x4E {
        return walk_sub_type(form, part, finder);
    }
    let count = part.read_count(finder)?;
    for _ in 0..count {
        let inner = part.read_byte(Kind::Flag, finder)?;
        walk_sub_type(inner, part, finder)?;
    }
    Ok(())
}
