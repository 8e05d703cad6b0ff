ghost use Rattle.std.specs.Prelude.{◌≡◌, IfOk, IfErr};
ghost use Rattle.smith_binary.specs.declared.error.EncodeError.TheVariants.{Memory};
ghost use Rattle.smith_binary_program.specs.Programs.{IsEncoded};
ghost use Rattle.smith_request.specs.Output.{IsText, IsUnwritten};
ghost use Rattle.smith_request.specs.declared.manner.Form.TheVariants.{Binary};
ghost use Rattle.smith_request.specs.declared.refusal.Refusal.TheVariants.{Encoding};

use crate::refusal::Refusal;
use smith_binary::EncodeError;
use smith_program::Program;
use smith_text_program::Layout;
use std::alloc::Global;

/// Writes `program` in the binary format.
pub fn write_binary(alloc: Global, program: &Program) -> Result<Vec<u8>, Refusal>
    ensures encoded { IfOk result (λ bytes.
        IsEncoded program.now.«module» program.now.bodies bytes.items) }
    ensures refused { IfErr result (IsUnwritten Binary program.now) }
{
    match smith_binary_program::encode(alloc, program) {
        Ok(bytes) => Ok(bytes),
        Err(fault) => Err(Refusal::Encoding(fault)),
    }
}

/// Writes `program` in the text format, in the form `layout`. Refuses it for lack of memory alone.
pub fn write_text(alloc: Global, program: &Program, layout: Layout) -> Result<Vec<u8>, Refusal>
    ensures text { IfOk result (λ text. IsText text.items) }
    ensures memory { IfErr result (λ refusal. refusal ≡ Encoding Memory) }
{
    match smith_text_program::text_in(alloc, program, layout) {
        Ok(text) => Ok(text.into_bytes()),
        Err(_) => Err(Refusal::Encoding(EncodeError::Memory)),
    }
}
