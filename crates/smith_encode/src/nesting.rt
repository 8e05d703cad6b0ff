ghost use Rattle.std.specs.Prelude.{◌≡◌, ◌∷◌, [], Some, None, IfOk, OnOk, MatchOption, reverse};
ghost use Rattle.std.specs.Prelude.{if◌then◌else◌};
ghost use Rattle.smith_binary_instr.specs.Nesting.{blocks_after};
ghost use Rattle.smith_encode.specs.Nesting.{is_nested};

use smith_instr::Instr;
use std::alloc::{AllocError, Global};

// Adds a block to the open blocks, the innermost last, with whether it may have an `else`.
fn open(has_else: bool, blocks: &mut Vec<bool>) -> Result<(), AllocError>
    ensures { OnOk result (reverse blocks.new.items ≡ has_else ∷ reverse blocks.old.items) }
{
    blocks.push(has_else)?;
    Ok(())
}

// Closes the innermost open block, if there is one. Returns whether it may have an `else`.
fn close(blocks: &mut Vec<bool>) -> Option<bool>
    ensures { MatchOption result (reverse blocks.old.items ≡ [])
        (λ has_else. reverse blocks.old.items ≡ has_else ∷ reverse blocks.new.items) }
{
    blocks.pop()
}

// Notes `instruction` in the open blocks. Returns whether it belongs to them.
fn note_block(instruction: &Instr, blocks: &mut Vec<bool>) -> Result<bool, AllocError>
    ensures { IfOk result (λ belongs. blocks_after instruction.now (reverse blocks.old.items)
        ≡ (if belongs then Some (reverse blocks.new.items) else None)) }
{
    match instruction {
        Instr::Block(_) | Instr::Loop(_) | Instr::TryTable(_, _) => open(false, blocks)?,
        Instr::If(_) => open(true, blocks)?,
        Instr::Else => match close(blocks) {
            Some(true) => open(false, blocks)?,
            Some(false) => return Ok(false),
            None => return Ok(false),
        },
        Instr::End => match close(blocks) {
            Some(_) => {}
            None => return Ok(false),
        },
        _ => {}
    }
    Ok(true)
}

/// Returns whether each block of the expression `instructions` ends, and no `else` or `end` is outside of
/// one (Binary Format, Expressions).
pub(crate) fn is_nested(alloc: Global, instructions: &[Instr]) -> Result<bool, AllocError>
    ensures { IfOk result (λ nested. nested ≡ is_nested instructions.now) }
{
    let mut blocks = Vec::new(alloc);
    for instruction in instructions {
        if !note_block(instruction, &mut blocks)? {
            return Ok(false);
        }
    }
    Ok(blocks.is_empty())
}
