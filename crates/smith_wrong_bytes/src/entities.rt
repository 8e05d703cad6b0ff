use crate::part::Part;
use crate::places::{Finder, Kind};
use crate::stop::Stop;
use smith_types::{RefType, ValType};

/// Walks the type of a memory, or the limits of a table (Limits).
pub(crate) fn walk_limits(part: &mut Part<'_>, finder: &mut Finder) -> Result<(), Stop> {
    let flags = part.read_byte(Kind::Flag, finder)?;
    part.read_u64(finder)?;
    if flags % 2 == 1 {
        part.read_u64(finder)?;
    }
    if flags >= 8 {
        part.read_u32(finder)?;
    }
    Ok(())
}

/// Walks the type of a table (Table Types).
pub(crate) fn walk_table_type(part: &mut Part<'_>, finder: &mut Finder) -> Result<(), Stop> {
    part.read_type::<RefType>(finder)?;
    walk_limits(part, finder)
}

/// Walks the type of a global (Global Types).
pub(crate) fn walk_global_type(part: &mut Part<'_>, finder: &mut Finder) -> Result<(), Stop> {
    part.read_type::<ValType>(finder)?;
    part.read_byte(Kind::Flag, finder)?;
    Ok(())
}

/// Walks the type of a tag (Tag Types).
pub(crate) fn walk_tag_type(part: &mut Part<'_>, finder: &mut Finder) -> Result<(), Stop> {
    part.read_byte(Kind::Flag, finder)?;
    part.read_u32(finder)?;
    Ok(())
}

// Walks the type of an imported entity of the kind `kind` (External Types).
fn walk_extern_type(kind: u8, part: &mut Part<'_>, finder: &mut Finder) -> Result<(), Stop> {
    match kind {
        0 => {
            part.read_u32(finder)?;
            Ok(())
        }
        1 => walk_table_type(part, finder),
        2 => walk_limits(part, finder),
        3 => walk_global_type(part, finder),
        4 => walk_tag_type(part, finder),
        _ => Err(Stop::NoPlace),
    }
}

/// Walks an import (Import Section).
pub(crate) fn walk_import(part: &mut Part<'_>, finder: &mut Finder) -> Result<(), Stop> {
    part.read_name(finder)?;
    part.read_name(finder)?;
    let kind = part.read_byte(Kind::Flag, finder)?;
    walk_extern_type(kind, part, finder)
}

/// Walks an export (Export Section).
pub(crate) fn walk_export(part: &mut Part<'_>, finder: &mut Finder) -> Result<(), Stop> {
    part.read_name(finder)?;
    part.read_byte(Kind::Flag, finder)?;
    part.read_u32(finder)?;
    Ok(())
}
