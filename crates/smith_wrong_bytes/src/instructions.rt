use crate::part::Part;
use crate::places::{Finder, Kind};
use crate::stop::Stop;
use smith_binary_read_instr::read_instr;
use smith_instr::Instr;
use smith_types::ValType;

// Walks unsigned integers of 32 bits up to the end of `part`.
fn walk_indices(part: &mut Part<'_>, finder: &mut Finder) -> Result<(), Stop> {
    for _ in 0..part.reader.left() {
        if part.reader.left() == 0 {
            return Ok(());
        }
        part.read_u32(finder)?;
    }
    Ok(())
}

// Walks the labels of `br_table`, or of a list with one more item than its number says.
fn walk_labels(part: &mut Part<'_>, finder: &mut Finder) -> Result<(), Stop> {
    part.read_count(finder)?;
    walk_indices(part, finder)
}

// Walks where an access of a memory is, and how it is aligned (Memory Instructions).
fn walk_access(part: &mut Part<'_>, finder: &mut Finder) -> Result<(), Stop> {
    let flags = part.read_u32(finder)?;
    if flags >= 64 {
        part.read_u32(finder)?;
    }
    part.read_u64(finder)
}

// Walks the type of a block (Control Instructions).
fn walk_block_type(part: &mut Part<'_>, finder: &mut Finder) -> Result<(), Stop> {
    let first = part.reader.peek()?;
    if first < 0x40 || first >= 0x80 {
        return part.read_signed(33, finder);
    }
    if first == 0x40 {
        part.read_byte(Kind::Type, finder)?;
        return Ok(());
    }
    part.read_type::<ValType>(finder)
}

// Walks the catch clauses of `try_table` (Control Instructions).
fn walk_clauses(part: &mut Part<'_>, finder: &mut Finder) -> Result<(), Stop> {
    let count = part.read_count(finder)?;
    for _ in 0..count {
        let form = part.read_byte(Kind::Flag, finder)?;
        if form < 2 {
            part.read_u32(finder)?;
        }
        part.read_u32(finder)?;
    }
    Ok(())
}

// Walks what follows the prefix `prefix` (Instructions).
fn walk_prefixed(prefix: u8, part: &mut Part<'_>, finder: &mut Finder) -> Result<(), Stop> {
    let opcode = part.read_u32(finder)?;
    match (prefix, opcode) {
        (0xFB, 0..=0x13) => walk_indices(part, finder),
        (0xFB, 0x18 | 0x19) => {
            part.read_byte(Kind::Flag, finder)?;
            part.read_u32(finder)?;
            Ok(())
        }
        (0xFC, _) => walk_indices(part, finder),
        (0xFD, 0..=11 | 84..=93) => walk_access(part, finder),
        (0xFE, 3) => {
            part.read_byte(Kind::Flag, finder)?;
            Ok(())
        }
        (0xFE, _) => walk_access(part, finder),
        _ => Ok(()),
    }
}

// Walks what follows the first byte `first` of an instruction (Instructions).
fn walk_immediates(first: u8, part: &mut Part<'_>, finder: &mut Finder) -> Result<(), Stop> {
    match first {
        0x02..=0x04 => walk_block_type(part, finder),
        0x08 | 0x0C | 0x0D | 0x10..=0x15 | 0x20..=0x26 => walk_indices(part, finder),
        0x0E => walk_labels(part, finder),
        0x1C => {
            part.read_count(finder)?;
            part.read_type::<ValType>(finder)
        }
        0x1F => {
            walk_block_type(part, finder)?;
            walk_clauses(part, finder)
        }
        0x28..=0x3E => walk_access(part, finder),
        0x3F | 0x40 | 0xD2 | 0xD5 | 0xD6 => walk_indices(part, finder),
        0x41 => part.read_signed(32, finder),
        0x42 => part.read_signed(64, finder),
        0xFB..=0xFE => walk_prefixed(first, part, finder),
        _ => Ok(()),
    }
}

// Walks an instruction, and returns it.
fn walk_instruction(part: &mut Part<'_>, finder: &mut Finder) -> Result<Instr, Stop> {
    let start = part.offset();
    let bytes = part.reader.rest();
    let instruction = read_instr(&mut part.reader)?;
    part.note(Kind::Instruction, start, finder);
    let size = bytes.len().saturating_sub(part.reader.left());
    if let Some([first, rest @ ..]) = bytes.get(..size) {
        let mut inner = Part::new(part.reader.alloc(), rest, part.offset(), part.frames);
        walk_immediates(*first, &mut inner, finder)?;
    }
    Ok(instruction)
}

// Returns how many blocks are open after `instruction`, if `open` are open before it.
fn open_after(instruction: &Instr, open: usize) -> usize {
    match instruction {
        Instr::Block(_) | Instr::Loop(_) | Instr::If(_) | Instr::TryTable(_, _) => {
            open.saturating_add(1)
        }
        Instr::End => open.saturating_sub(1),
        _ => open,
    }
}

/// Walks an expression (Expressions).
pub(crate) fn walk_expr(part: &mut Part<'_>, finder: &mut Finder) -> Result<(), Stop> {
    let mut open = 1;
    for _ in 0..part.reader.left() {
        let start = part.offset();
        let instruction = walk_instruction(part, finder)?;
        open = open_after(&instruction, open);
        if open == 0 {
            part.note(Kind::End, start, finder);
            return Ok(());
        }
    }
    Err(Stop::NoPlace)
}
