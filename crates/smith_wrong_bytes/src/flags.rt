use crate::edit::{Edit, Picks, bytes_at, replace};
use crate::places::Kind;
use crate::stop::Stop;
use crate::walk::pick_place;
use std::alloc::Global;

// Bytes that begin no type, or none outside of its place.
const NO_TYPES: [u8; 16] = [
    0x00, 0x3F, 0x40, 0x41, 0x4E, 0x5E, 0x5F, 0x60, 0x61, 0x66, 0x67, 0x68, 0x76, 0x79, 0x7A, 0xFF,
];

// Returns bytes that are not UTF-8 (Names).
fn not_utf8_bytes(form: u16) -> &'static [u8] {
    match form % 8 {
        0 => &[0xFF],
        1 => &[0x80],
        2 => &[0xC0, 0x80],
        3 => &[0xC1, 0xBF],
        4 => &[0xE0, 0x80, 0x80],
        5 => &[0xED, 0xA0, 0x80],
        6 => &[0xF0, 0x80, 0x80, 0x80],
        _ => &[0xF4, 0x90, 0x80, 0x80],
    }
}

// Returns `bytes` with `wrong` in place of as many of them, from an index on that `detail` picks.
fn overwritten(alloc: Global, bytes: &[u8], wrong: &[u8], detail: u16) -> Result<Vec<u8>, Stop> {
    if bytes.len() < wrong.len() {
        return Err(Stop::NoPlace);
    }
    let start = detail as usize % (bytes.len() - wrong.len() + 1);
    let (before, rest) = bytes.split_at(start);
    let (_, after) = rest.split_at(wrong.len());
    let mut made = Vec::from_slice(alloc, before)?;
    made.extend_from_slice(wrong)?;
    made.extend_from_slice(after)?;
    Ok(made)
}

/// Makes a name one that is not UTF-8, of the same length.
pub(crate) fn not_utf8(alloc: Global, file: &[u8], picks: Picks) -> Result<Edit, Stop> {
    let place = pick_place(alloc, file, Kind::Name, picks.place)?;
    let bytes = bytes_at(file, &place)?;
    let wrong = not_utf8_bytes(picks.form);
    let wrong = if bytes.len() < wrong.len() {
        &[0xC3]
    } else {
        wrong
    };
    let inserted = overwritten(alloc, bytes, wrong, picks.detail)?;
    replace(alloc, file, &place, inserted)
}

// Returns `byte`, below 0x80, as a signed integer of two bytes.
fn in_two_bytes(byte: u8) -> [u8; 2] {
    let high = if byte % 128 >= 64 { 0x7F } else { 0 };
    [byte | 0x80, high]
}

/// Makes a byte that chooses among forms another, or two: one of its bits is inverted, it is any byte, or
/// it is an integer that is longer than needed.
pub(crate) fn unknown_flag(alloc: Global, file: &[u8], picks: Picks) -> Result<Edit, Stop> {
    let place = pick_place(alloc, file, Kind::Flag, picks.place)?;
    let byte = bytes_at(file, &place)?
        .first()
        .copied()
        .ok_or(Stop::NoPlace)?;
    let inserted = match picks.form % 3 {
        0 => Vec::from_slice(alloc, &[byte ^ (1 << (picks.detail % 8))])?,
        1 => Vec::from_slice(alloc, &[(picks.detail % 256) as u8])?,
        _ => Vec::from_slice(alloc, &[byte | 0x80, 0])?,
    };
    replace(alloc, file, &place, inserted)
}

/// Makes a type a byte with which none begins, or gives it its first byte as an integer of two.
pub(crate) fn unknown_type(alloc: Global, file: &[u8], picks: Picks) -> Result<Edit, Stop> {
    let place = pick_place(alloc, file, Kind::Type, picks.place)?;
    let [first, rest @ ..] = bytes_at(file, &place)? else {
        return Err(Stop::NoPlace);
    };
    let index = picks.detail as usize % NO_TYPES.len();
    if picks.form % 2 == 0 {
        let inserted = Vec::from_slice(alloc, &[NO_TYPES[index]])?;
        return replace(alloc, file, &place, inserted);
    }
    let mut inserted = Vec::from_slice(alloc, in_two_bytes(*first).as_slice())?;
    inserted.extend_from_slice(rest)?;
    replace(alloc, file, &place, inserted)
}
