use crate::entities::{
    walk_export, walk_global_type, walk_import, walk_limits, walk_table_type, walk_tag_type,
};
use crate::instructions::walk_expr;
use crate::part::Part;
use crate::places::{Finder, Frame, Frames, Kind};
use crate::stop::Stop;
use crate::types::walk_group;
use smith_types::{RefType, ValType};

// Walks a table (Table Section).
fn walk_table(part: &mut Part<'_>, finder: &mut Finder) -> Result<(), Stop> {
    if !part.reader.starts_with(0x40) {
        return walk_table_type(part, finder);
    }
    part.read_byte(Kind::Flag, finder)?;
    part.read_byte(Kind::Flag, finder)?;
    walk_table_type(part, finder)?;
    walk_expr(part, finder)
}

// Walks a global (Global Section).
fn walk_global(part: &mut Part<'_>, finder: &mut Finder) -> Result<(), Stop> {
    walk_global_type(part, finder)?;
    walk_expr(part, finder)
}

// Walks an item of an element segment: an index, or an expression if `typed` is set.
fn walk_element_item(typed: bool, part: &mut Part<'_>, finder: &mut Finder) -> Result<(), Stop> {
    if typed {
        return walk_expr(part, finder);
    }
    part.read_u32(finder)?;
    Ok(())
}

// Walks the items of an element segment.
fn walk_element_items(typed: bool, part: &mut Part<'_>, finder: &mut Finder) -> Result<(), Stop> {
    let count = part.read_count(finder)?;
    for _ in 0..count {
        walk_element_item(typed, part, finder)?;
    }
    Ok(())
}

// Walks the kind or the type of the items of an element segment.
fn walk_element_type(typed: bool, part: &mut Part<'_>, finder: &mut Finder) -> Result<(), Stop> {
    if typed {
        return part.read_type::<RefType>(finder);
    }
    part.read_byte(Kind::Flag, finder)?;
    Ok(())
}

// Walks an element segment (Element Section).
fn walk_element(part: &mut Part<'_>, finder: &mut Finder) -> Result<(), Stop> {
    let form = part.read_byte(Kind::Flag, finder)?;
    let typed = form >= 4;
    if form % 2 == 0 {
        if form % 4 == 2 {
            part.read_u32(finder)?;
        }
        walk_expr(part, finder)?;
    }
    if form % 4 != 0 {
        walk_element_type(typed, part, finder)?;
    }
    walk_element_items(typed, part, finder)
}

// Walks a data segment (Data Section).
fn walk_data(part: &mut Part<'_>, finder: &mut Finder) -> Result<(), Stop> {
    let form = part.read_byte(Kind::Flag, finder)?;
    if form == 2 {
        part.read_u32(finder)?;
    }
    if form != 1 {
        walk_expr(part, finder)?;
    }
    let count = part.read_count(finder)?;
    part.reader.read_bytes(count as usize)?;
    Ok(())
}

// Walks the content of a body: its locals, then its expression.
fn walk_body_content(part: &mut Part<'_>, finder: &mut Finder) -> Result<(), Stop> {
    let count = part.read_count(finder)?;
    for _ in 0..count {
        part.read_u32(finder)?;
        part.read_type::<ValType>(finder)?;
    }
    walk_expr(part, finder)
}

// Walks a body (Code Section).
fn walk_body(part: &mut Part<'_>, finder: &mut Finder) -> Result<(), Stop> {
    let size = part.offset();
    let count = part.read_u32(finder)?;
    part.note(Kind::BodySize, size, finder);
    let start = part.offset();
    let content = part.reader.read_bytes(count as usize)?;
    let end = part.offset();
    let frames = Frames {
        section: part.frames.section,
        body: Some(Frame { size, start, end }),
    };
    let mut inner = Part::new(part.reader.alloc(), content, end, frames);
    walk_body_content(&mut inner, finder)?;
    inner.note(Kind::ContentEnd, end, finder);
    Ok(())
}

// Walks an item of the list that is the section `id` (Modules).
fn walk_item(id: u8, part: &mut Part<'_>, finder: &mut Finder) -> Result<(), Stop> {
    match id {
        1 => walk_group(part, finder),
        2 => walk_import(part, finder),
        3 => {
            part.read_u32(finder)?;
            Ok(())
        }
        4 => walk_table(part, finder),
        5 => walk_limits(part, finder),
        6 => walk_global(part, finder),
        7 => walk_export(part, finder),
        9 => walk_element(part, finder),
        10 => walk_body(part, finder),
        11 => walk_data(part, finder),
        13 => walk_tag_type(part, finder),
        _ => Err(Stop::NoPlace),
    }
}

// Notes the number of items of the section `id` and the first item, from `start` up to the next byte.
fn note_first(id: u8, start: usize, part: &Part<'_>, finder: &mut Finder) {
    match id {
        3 | 10 => part.note(Kind::Functions, start, finder),
        11 => part.note(Kind::Segments, start, finder),
        _ => {}
    }
}

/// Walks the list that is the section `id` (Modules).
pub(crate) fn walk_list(id: u8, part: &mut Part<'_>, finder: &mut Finder) -> Result<(), Stop> {
    let start = part.offset();
    let count = part.read_count(finder)?;
    for index in 0..count {
        walk_item(id, part, finder)?;
        if index == 0 {
            note_first(id, start, part, finder);
        }
    }
    Ok(())
}
