ghost use Rattle.std.specs.Prelude.{◌≤◌};

use crate::edit::{Edit, Picks, bytes_at, replace};
use crate::places::Kind;
use crate::stop::Stop;
use crate::walk::pick_place;
use std::alloc::Global;

// Returns the greatest number of bytes of an integer of `bits` bits (Integers).
fn most_bytes(bits: u32) -> usize
    ensures { result ≤ 10 }
{
    match bits {
        32 | 33 => 5,
        _ => 10,
    }
}

// Returns bits that the last of the most bytes of an integer of `bits` bits does not use.
fn unused_bits(bits: u32, form: u16) -> u8 {
    match bits {
        32 => (1 + form % 7) as u8 * 16,
        33 => (1 + form % 3) as u8 * 32,
        _ => (1 + form % 63) as u8 * 2,
    }
}

// Returns the seven bits that `bytes`, an integer, are extended by: those of its sign if it is signed.
fn extension(bytes: &[u8], signed: bool) -> u8 {
    match bytes {
        [.., last] if signed && last % 128 >= 64 => 0x7F,
        _ => 0,
    }
}

// Returns the integer `bytes` in `count` bytes, the last of them with the bits `flipped` inverted.
fn extended(
    alloc: Global,
    bytes: &[u8],
    signed: bool,
    count: usize,
    flipped: u8,
) -> Result<Vec<u8>, Stop> {
    let fill = extension(bytes, signed);
    let mut made = Vec::new(alloc);
    for index in 1..count {
        let byte = bytes.get(index - 1).copied().unwrap_or(fill);
        made.push(byte | 0x80)?;
    }
    let last = bytes.get(count.saturating_sub(1)).copied().unwrap_or(fill);
    made.push((last & 0x7F) ^ flipped)?;
    Ok(made)
}

/// Makes an integer longer than its type allows.
pub(crate) fn long_integer(alloc: Global, file: &[u8], picks: Picks) -> Result<Edit, Stop> {
    let place = pick_place(alloc, file, Kind::Integer, picks.place)?;
    let bytes = bytes_at(file, &place)?;
    let count = most_bytes(place.bits) + 1 + (picks.form % 3) as usize;
    let inserted = extended(alloc, bytes, place.signed, count, 0)?;
    replace(alloc, file, &place, inserted)
}

/// Sets unused bits of an integer.
pub(crate) fn unused_bits_set(alloc: Global, file: &[u8], picks: Picks) -> Result<Edit, Stop> {
    let place = pick_place(alloc, file, Kind::Integer, picks.place)?;
    let bytes = bytes_at(file, &place)?;
    let flipped = unused_bits(place.bits, picks.form);
    let inserted = extended(alloc, bytes, place.signed, most_bytes(place.bits), flipped)?;
    replace(alloc, file, &place, inserted)
}
