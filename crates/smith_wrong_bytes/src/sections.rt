use crate::edit::{Edit, Picks, bytes_at, bytes_between, replace};
use crate::places::Kind;
use crate::preamble::other_byte;
use crate::stop::Stop;
use crate::walk::{count_places, pick_place, place_at};
use std::alloc::Global;

// The least identifier that no section has.
const UNKNOWN: u16 = 14;

// The number of identifiers that no section has.
const UNKNOWN_COUNT: u16 = 242;

/// Takes a section of the kind `kind` away.
pub(crate) fn section_removed(
    alloc: Global,
    file: &[u8],
    kind: Kind,
    picks: Picks,
) -> Result<Edit, Stop> {
    let place = pick_place(alloc, file, kind, picks.place)?;
    replace(alloc, file, &place, Vec::new(alloc))
}

/// Exchanges two sections between which there are at most custom ones, or gives the second the
/// identifier of the first.
pub(crate) fn section_order(alloc: Global, file: &[u8], picks: Picks) -> Result<Edit, Stop> {
    let count = count_places(alloc, file, Kind::Section)?;
    if count < 2 {
        return Err(Stop::NoPlace);
    }
    let index = picks.place as usize % (count - 1);
    let first = place_at(alloc, file, Kind::Section, index)?;
    let second = place_at(alloc, file, Kind::Section, index + 1)?;
    let front = bytes_at(file, &first)?;
    let back = bytes_at(file, &second)?;
    if let ([id, ..], [_, content @ ..], 1) = (front, back, picks.form % 2) {
        let mut inserted = Vec::from_slice(alloc, &[*id])?;
        inserted.extend_from_slice(content)?;
        return replace(alloc, file, &second, inserted);
    }
    let mut inserted = Vec::from_slice(alloc, back)?;
    inserted.extend_from_slice(bytes_between(file, first.end, second.start)?)?;
    inserted.extend_from_slice(front)?;
    Ok(Edit {
        start: first.start,
        end: second.end,
        inserted,
    })
}

/// Puts a section after itself once more, or an empty list of the same identifier.
pub(crate) fn section_twice(alloc: Global, file: &[u8], picks: Picks) -> Result<Edit, Stop> {
    let place = pick_place(alloc, file, Kind::Section, picks.place)?;
    let bytes = bytes_at(file, &place)?;
    let mut inserted = Vec::from_slice(alloc, bytes)?;
    match bytes {
        [id, ..] if picks.form % 2 == 1 => inserted.extend_from_slice(&[*id, 1, 0])?,
        _ => inserted.extend_from_slice(bytes)?,
    }
    replace(alloc, file, &place, inserted)
}

/// Gives a section an identifier that no section has, or puts an empty section of such an identifier
/// before it.
pub(crate) fn unknown_section(alloc: Global, file: &[u8], picks: Picks) -> Result<Edit, Stop> {
    let place = pick_place(alloc, file, Kind::Section, picks.place)?;
    let bytes = bytes_at(file, &place)?;
    let id = (UNKNOWN + picks.detail % UNKNOWN_COUNT) as u8;
    let mut inserted = Vec::from_slice(alloc, &[id])?;
    match bytes {
        [_, content @ ..] if picks.form % 2 == 1 => inserted.extend_from_slice(content)?,
        _ => {
            inserted.push(0)?;
            inserted.extend_from_slice(bytes)?;
        }
    }
    replace(alloc, file, &place, inserted)
}

/// Puts a byte at the end of a section or of a body.
pub(crate) fn left_over_byte(alloc: Global, file: &[u8], picks: Picks) -> Result<Edit, Stop> {
    let place = pick_place(alloc, file, Kind::ContentEnd, picks.place)?;
    let byte = (picks.form % 256) as u8;
    replace(alloc, file, &place, Vec::from_slice(alloc, &[byte])?)
}

/// Makes a byte of the magic number or of the version another.
pub(crate) fn preamble(alloc: Global, file: &[u8], picks: Picks) -> Result<Edit, Stop> {
    let start = (picks.place % 8) as usize;
    let byte = file.get(start).copied().ok_or(Stop::NoPlace)?;
    let inserted = Vec::from_slice(alloc, &[other_byte(byte, picks.form)])?;
    Ok(Edit {
        start,
        end: start + 1,
        inserted,
    })
}

/// Ends the file within a section.
pub(crate) fn cut_file(alloc: Global, file: &[u8], picks: Picks) -> Result<Edit, Stop> {
    let place = pick_place(alloc, file, Kind::Section, picks.place)?;
    let size = bytes_at(file, &place)?.len();
    if size < 2 {
        return Err(Stop::NoPlace);
    }
    let kept = 1 + picks.form as usize % (size - 1);
    Ok(Edit {
        start: place.start.saturating_add(kept),
        end: file.len(),
        inserted: Vec::new(alloc),
    })
}
