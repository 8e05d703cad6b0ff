ghost use Rattle.std.specs.Prelude.{◌≡◌, ◌∷◌, Some, None, IfOk, IfErr, OnOk, [], reverse};
ghost use Rattle.std.specs.Prelude.{if◌then◌else◌, MatchOption};
ghost use Rattle.smith_binary_instr.specs.Nesting.{blocks_after};
ghost use Rattle.smith_binary_read.specs.declared.error.ReadError.TheVariants.{Memory};
ghost use Rattle.smith_binary_read.specs.Readings.{Gives, GivesBy};
ghost use Rattle.smith_binary_read_instr.specs.ExpressionReadings.{
  is_over,
  nested_instr_at,
  nested_at,
  expr_at,
};

use crate::instructions::read_instr;
use smith_binary_read::{ReadError, Reader, Reason};
use smith_instr::Instr;
use smith_types::Items;

// Opens a block within the open blocks, the innermost last, which may have an `else` or not.
#[inline(always)]
fn open(has_else: bool, blocks: &mut Vec<bool>) -> Result<(), ReadError>
    ensures opened { OnOk result
        (reverse blocks.new.items ≡ has_else ∷ reverse blocks.old.items) }
    ensures memory { IfErr result (λ e. e ≡ Memory) }
{
    blocks.push(has_else)?;
    Ok(())
}

// Closes the innermost open block, if there is one. Returns whether it may have an `else`.
fn close(blocks: &mut Vec<bool>) -> Option<bool>
    ensures { MatchOption result (reverse blocks.old.items ≡ [])
        (λ has_else. reverse blocks.old.items ≡ has_else ∷ reverse blocks.new.items) }
{
    blocks.pop()
}

// Notes `instruction` in the open blocks. Returns whether it belongs to them.
fn note_block(instruction: &Instr, blocks: &mut Vec<bool>) -> Result<bool, ReadError>
    ensures noted { IfOk result (λ belongs.
        blocks_after instruction.now (reverse blocks.old.items)
        ≡ (if belongs then Some (reverse blocks.new.items) else None)) }
    ensures memory { IfErr result (λ e. e ≡ Memory) }
{
    match instruction {
        Instr::Block(_) | Instr::Loop(_) | Instr::TryTable(_, _) => open(false, blocks)?,
        Instr::If(_) => open(true, blocks)?,
        Instr::Else => match close(blocks) {
            Some(true) => open(false, blocks)?,
            Some(false) => return Ok(false),
            None => return Ok(false),
        },
        Instr::End => match close(blocks) {
            Some(_) => {}
            None => return Ok(false),
        },
        _ => {}
    }
    Ok(true)
}

// Returns whether the expression ends: no block is open, and the next byte is its end.
#[tactic(auto, unfolding(crate::specs::ExpressionReadings::is_over))]
fn is_over(blocks: &[bool], reader: &Reader<'_>) -> bool
    ensures { result ≡ is_over blocks.now reader.now }
{
    match blocks {
        [] => reader.starts_with(0x0B),
        [_, ..] => false,
    }
}

// Reads an instruction in the open blocks.
#[tactic(auto, unfolding(crate::specs::ExpressionReadings::nested_instr_at))]
fn read_nested_instr(blocks: &mut Vec<bool>, reader: &mut Reader<'_>) -> Result<Instr, ReadError>
    ensures { GivesBy (λ instruction. (instruction, reverse blocks.new.items)) result reader.new
        (nested_instr_at (reverse blocks.old.items) reader.old) }
{
    let unknown = reader.fault(Reason::UnknownByte);
    let instruction = read_instr(reader)?;
    if !note_block(&instruction, blocks)? {
        return Err(unknown);
    }
    Ok(instruction)
}

// Reads fewer than `most` instructions, up to the end of an expression. There is room for `room` of
// them at first.
fn read_nested(reader: &mut Reader<'_>, most: usize, room: usize) -> Result<Items<Instr>, ReadError>
    ensures { Gives result reader.new (nested_at most [] reader.old) }
{
    let mut instructions = Vec::with_capacity(reader.alloc(), room)?;
    let mut blocks = Vec::new(reader.alloc());
    for _ in 0..most {
        if is_over(blocks.as_slice(), reader) {
            reader.skip();
            return Ok(Items::from_vec(instructions));
        }
        let instruction = read_nested_instr(&mut blocks, reader)?;
        instructions.push(instruction)?;
    }
    Err(reader.fault(Reason::UnexpectedEnd))
}

/// Reads the instructions of an expression and its end, which the list leaves out (Expressions).
/// Blocks may be nested to any depth: an open one takes a byte.
#[tactic(auto, unfolding(crate::specs::ExpressionReadings::expr_at))]
pub fn read_expr(reader: &mut Reader<'_>) -> Result<Items<Instr>, ReadError>
    ensures { Gives result reader.new (expr_at reader.old) }
{
    let most = reader.left();
    read_nested(reader, most, 0)
}

/// Reads an expression as [`read_expr`] does, with room for an instruction in each three bytes that are
/// left: for an expression that is most of them (Expressions).
#[tactic(auto, unfolding(crate::specs::ExpressionReadings::expr_at))]
pub fn read_long_expr(reader: &mut Reader<'_>) -> Result<Items<Instr>, ReadError>
    ensures { Gives result reader.new (expr_at reader.old) }
{
    let most = reader.left();
    read_nested(reader, most, most / 3)
}
