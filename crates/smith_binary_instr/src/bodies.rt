ghost use Rattle.std.specs.Prelude.{OnOk, IfErr};
ghost use Rattle.smith_binary.specs.Faults.{IsFault};
ghost use Rattle.smith_binary.specs.Pieces.{Writes};
ghost use Rattle.smith_binary_sections.specs.Codes.{IsLocals, IsLocalsWrittenIn, IsRunIn};
ghost use Rattle.smith_binary_sections.specs.Long.{IsLongList, IsNeverLong};
ghost use Rattle.smith_binary_instr.specs.Bodies.{IsFuncBody, IsFuncBodyWrittenIn};
ghost use Rattle.smith_binary_instr.specs.Long.{IsLongFunc};

use crate::instructions::encode_expr;
use smith_binary::{EncodeError, Sink};
use smith_binary_sections::{Encode, EncodeItem, Listed};
use smith_instr::Instr;
use smith_types::ValType;

// A writer of a local, as a run of its own.
#[derive(Clone, Copy)]
struct Runs;

impl EncodeItem<ValType> for Runs {
    ghost spells = { λ s _ local. IsRunIn s (1, local) };

    ghost is_long = { λ _. IsNeverLong };

    fn encode_item(&self, item: &ValType, sink: &mut Sink) -> Result<(), EncodeError> {
        sink.write_u32(1)?;
        item.encode(sink)
    }
}

/// Writes the locals `locals` of a body, each as a run of its own.
///
/// # Errors
///
/// Returns `TooLong` if there are 2^32 locals or more.
pub fn encode_locals(sink: &mut Sink, locals: &[ValType]) -> Result<(), EncodeError>
    ensures writes { OnOk result (Writes (λ _. IsLocals locals.now) sink.old sink.new) }
    ensures written { OnOk result (Writes (λ s. IsLocalsWrittenIn s locals.now) sink.old sink.new) }
    ensures fault { IfErr result (IsFault (IsLongList IsNeverLong locals.now)) }
{
    let list = Listed {
        writer: Runs,
        items: locals,
    };
    list.encode(sink)
}

/// Writes a body in the form of the standard's section Binary Format, Code Section: the number of
/// its bytes, its locals and its expression. `locals` does not include the parameters, and
/// `instructions` does not include the last `end`.
///
/// # Errors
///
/// Returns `TooLong` if there are 2^32 locals or more, if the body would have 2^32 bytes or more,
/// or as [`encode_instr`](crate::encode_instr) does.
pub fn encode_body(
    sink: &mut Sink,
    locals: &[ValType],
    instructions: &[Instr],
) -> Result<(), EncodeError>
    ensures writes { OnOk result
        (Writes (λ _. IsFuncBody locals.now instructions.now) sink.old sink.new) }
    ensures written { OnOk result
        (Writes (λ s. IsFuncBodyWrittenIn s locals.now instructions.now) sink.old sink.new) }
    ensures fault { IfErr result (IsFault (IsLongFunc locals.now instructions.now)) }
{
    let mut content = sink.fresh();
    encode_locals(&mut content, locals)?;
    encode_expr(&mut content, instructions)?;
    sink.write_sized(content.as_slice())
}
