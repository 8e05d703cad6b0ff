use crate::items::walk_list;
use crate::part::Part;
use crate::places::{Finder, Frame, Frames, Kind, Place};
use crate::stop::Stop;
use std::alloc::Global;

// The number of bytes of the magic number and the version.
const PREAMBLE: usize = 8;

// Passes over bytes that are malformed: what follows them is not walked.
fn pass(walked: Result<(), Stop>) -> Result<(), Stop> {
    match walked {
        Err(Stop::Memory) => Err(Stop::Memory),
        _ => Ok(()),
    }
}

// Walks the number of data segments.
fn walk_data_count(part: &mut Part<'_>, finder: &mut Finder) -> Result<(), Stop> {
    let start = part.offset();
    part.read_u32(finder)?;
    part.note(Kind::DataCount, start, finder);
    Ok(())
}

// Walks the content of the section `id` (Modules).
fn walk_content(id: u8, part: &mut Part<'_>, finder: &mut Finder) -> Result<(), Stop> {
    match id {
        0 => part.read_name(finder),
        8 => {
            part.read_u32(finder)?;
            Ok(())
        }
        12 => walk_data_count(part, finder),
        _ => walk_list(id, part, finder),
    }
}

// Notes the section `id`, which is not custom, from `start` up to the next byte.
fn note_section(id: u8, start: usize, part: &Part<'_>, finder: &mut Finder) {
    part.note(Kind::Section, start, finder);
    match id {
        3 | 10 => part.note(Kind::FunctionSection, start, finder),
        12 => part.note(Kind::DataCountSection, start, finder),
        _ => {}
    }
}

// Walks a section (Sections).
fn walk_section(part: &mut Part<'_>, finder: &mut Finder) -> Result<(), Stop> {
    let front = part.offset();
    let id = part.reader.read_byte()?;
    let size = part.offset();
    let count = part.read_u32(finder)?;
    part.note(Kind::SectionSize, size, finder);
    let start = part.offset();
    let content = part.reader.read_bytes(count as usize)?;
    let end = part.offset();
    let frames = Frames {
        section: Some(Frame { size, start, end }),
        body: None,
    };
    let mut inner = Part::new(part.reader.alloc(), content, end, frames);
    pass(walk_content(id, &mut inner, finder))?;
    if id != 0 {
        note_section(id, front, part, finder);
        note_end(end, frames, finder);
    }
    Ok(())
}

// Notes the end of a section, at the offset `end`.
fn note_end(end: usize, frames: Frames, finder: &mut Finder) {
    let place = Place {
        start: end,
        end,
        bits: 0,
        signed: false,
        frames,
    };
    finder.note(Kind::ContentEnd, place);
}

// Walks the sections of a file (Modules).
fn walk_sections(part: &mut Part<'_>, finder: &mut Finder) -> Result<(), Stop> {
    part.reader.read_bytes(PREAMBLE)?;
    for _ in 0..part.reader.left() {
        if part.reader.left() == 0 {
            return Ok(());
        }
        walk_section(part, finder)?;
    }
    Ok(())
}

// Walks `file`, and notes its places in `finder`. What follows a fault in a section is not walked, nor
// what follows a fault between sections.
fn walk(alloc: Global, file: &[u8], finder: &mut Finder) -> Result<(), Stop> {
    let mut part = Part::new(alloc, file, file.len(), Frames::NONE);
    pass(walk_sections(&mut part, finder))
}

/// Returns the number of places of `kind` in `file`.
pub(crate) fn count_places(alloc: Global, file: &[u8], kind: Kind) -> Result<usize, Stop> {
    let mut finder = Finder::new(kind, usize::MAX);
    walk(alloc, file, &mut finder)?;
    Ok(finder.seen())
}

/// Returns the place at `index` among those of `kind` in `file`.
pub(crate) fn place_at(
    alloc: Global,
    file: &[u8],
    kind: Kind,
    index: usize,
) -> Result<Place, Stop> {
    let mut finder = Finder::new(kind, index);
    walk(alloc, file, &mut finder)?;
    finder.found().ok_or(Stop::NoPlace)
}

/// Returns a place of `kind` in `file`: the one that `pick` picks.
pub(crate) fn pick_place(alloc: Global, file: &[u8], kind: Kind, pick: u32) -> Result<Place, Stop> {
    let count = count_places(alloc, file, kind)?;
    if count == 0 {
        return Err(Stop::NoPlace);
    }
    place_at(alloc, file, kind, pick as usize % count)
}
