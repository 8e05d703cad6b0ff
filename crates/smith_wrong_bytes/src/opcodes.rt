use crate::edit::{Edit, Picks, bytes_at, replace};
use crate::places::Kind;
use crate::stop::Stop;
use crate::walk::pick_place;
use smith_binary::Sink;
use std::alloc::Global;

// The opcode of `end`.
const END: u8 = 0x0B;

// First bytes that no instruction has (Instructions).
const NO_OPCODES: [u8; 24] = [
    0x06, 0x07, 0x09, 0x16, 0x17, 0x18, 0x19, 0x1D, 0x1E, 0x27, 0xC5, 0xC6, 0xC7, 0xCF, 0xD7, 0xDF,
    0xE0, 0xE1, 0xE2, 0xE6, 0xF0, 0xF8, 0xFA, 0xFF,
];

// Numbers that no instruction has after the prefix 0xFD (Vector Instructions).
const NO_VECTORS: [u32; 16] = [
    0x9A, 0x9B, 0xA2, 0xA5, 0xAF, 0xB2, 0xBB, 0xC2, 0xC5, 0xCF, 0xD2, 0xE2, 0xEE, 0x114, 0x120,
    0x180,
];

// Returns a prefix, and a number that no instruction has after it.
fn no_prefixed(form: u16, detail: u16) -> (u8, u32) {
    match form % 4 {
        0 => (0xFB, u32::from(31 + detail % 128)),
        1 => (0xFC, u32::from(18 + detail % 128)),
        2 => (0xFD, NO_VECTORS[detail as usize % NO_VECTORS.len()]),
        _ => (0xFE, u32::from(4 + detail % 12)),
    }
}

// Writes an opcode that no instruction has.
fn write_no_opcode(picks: Picks, sink: &mut Sink) -> Result<(), Stop> {
    if picks.form % 2 == 0 {
        let byte = NO_OPCODES[picks.detail as usize % NO_OPCODES.len()];
        sink.write_byte(byte)?;
        return Ok(());
    }
    let (prefix, number) = no_prefixed(picks.form / 2, picks.detail);
    sink.write_byte(prefix)?;
    sink.write_u32(number)?;
    Ok(())
}

/// Puts an opcode that no instruction has before an instruction.
pub(crate) fn unknown_opcode(alloc: Global, file: &[u8], picks: Picks) -> Result<Edit, Stop> {
    let place = pick_place(alloc, file, Kind::Instruction, picks.place)?;
    let mut sink = Sink::new(alloc, 0);
    write_no_opcode(picks, &mut sink)?;
    sink.write_bytes(bytes_at(file, &place)?)?;
    replace(alloc, file, &place, sink.into_vec())
}

/// Takes the `end` of an expression away.
pub(crate) fn missing_end(alloc: Global, file: &[u8], picks: Picks) -> Result<Edit, Stop> {
    let place = pick_place(alloc, file, Kind::End, picks.place)?;
    replace(alloc, file, &place, Vec::new(alloc))
}

/// Puts a second `end` after that of an expression.
pub(crate) fn second_end(alloc: Global, file: &[u8], picks: Picks) -> Result<Edit, Stop> {
    let place = pick_place(alloc, file, Kind::End, picks.place)?;
    replace(alloc, file, &place, Vec::from_slice(alloc, &[END, END])?)
}
