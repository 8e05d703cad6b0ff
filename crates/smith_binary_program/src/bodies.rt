ghost use Rattle.std.specs.Prelude.{Any, OnOk, IfErr};
ghost use Rattle.std.specs.List.{zip};
ghost use Rattle.smith_binary.specs.Faults.{IsFault};
ghost use Rattle.smith_binary.specs.Pieces.{Each, Writes};
ghost use Rattle.smith_binary_instr.specs.Bodies.{IsFuncBodyWrittenIn};
ghost use Rattle.smith_program.specs.Counted.{counted};
ghost use Rattle.smith_binary_program.specs.Bodies.{AreBodiesOfIn, IsBodyOfIn};
ghost use Rattle.smith_binary_program.specs.Long.{IsLongBodyOf, IsLongDrawn};

use crate::fuel_checks::write_expression;
use smith_binary::{EncodeError, Sink};
use smith_binary_instr::encode_locals;
use smith_binary_sections::{Bodies as OwnBodies, Encode, EncodeItem};
use smith_instr::Instr;
use smith_program::Body;
use smith_types::{Code, ValType};

/// The bodies of a program.
#[derive(Clone, Copy)]
pub(crate) struct Bodies<'a> {
    /// The indices of the globals that count fuel.
    pub counters: &'a [u32],
    /// The locals of each function, and its raw bytes.
    pub codes: &'a [Code],
    /// The body of each function.
    pub bodies: &'a [Body],
}

impl<'a> Encode for Bodies<'a> {
    ghost use Rattle.smith_binary_program.specs.Long.{AreLongBodies};

    ghost spells = { λ s b. AreBodiesOfIn s b.counters.now b.codes.now b.bodies.now };

    ghost is_long = { λ b. AreLongBodies b.counters.now b.codes.now b.bodies.now };

    fn encode(&self, sink: &mut Sink) -> Result<(), EncodeError> {
        sink.write_length(self.codes.len().min(self.bodies.len()))?;
        write_each(self.counters, self.codes, self.bodies, sink)
    }
}

// Writes the bodies in order.
fn write_each(
    counters: &[u32],
    codes: &[Code],
    bodies: &[Body],
    sink: &mut Sink,
) -> Result<(), EncodeError>
    ensures writes { OnOk result
        (Writes (λ s. Each (IsBodyOfIn s counters.now) (zip codes.now bodies.now)) sink.old sink.new) }
    ensures fault { IfErr result
        (IsFault (Any (IsLongBodyOf counters.now) (zip codes.now bodies.now))) }
{
    for place in 0..codes.len().min(bodies.len()) {
        write_body(counters, &codes[place], &bodies[place], sink)?;
    }
    Ok(())
}

// Writes the body `body` of the function of `code`.
fn write_body(
    counters: &[u32],
    code: &Code,
    body: &Body,
    sink: &mut Sink,
) -> Result<(), EncodeError>
    ensures writes { OnOk result
        (Writes (λ s. IsBodyOfIn s counters.now (code.now, body.now)) sink.old sink.new) }
    ensures fault { IfErr result (IsFault (IsLongBodyOf counters.now (code.now, body.now))) }
{
    match body {
        Body::Drawn(instructions) => write_drawn(
            counters,
            code.locals.as_slice(),
            instructions.as_slice(),
            sink,
        ),
        Body::Raw => OwnBodies { counters }.encode_item(code, sink),
    }
}

// Writes a body of `locals` and `instructions`, with the checks of `counters`.
fn write_drawn(
    counters: &[u32],
    locals: &[ValType],
    instructions: &[Instr],
    sink: &mut Sink,
) -> Result<(), EncodeError>
    ensures writes { OnOk result
        (Writes (λ s. IsFuncBodyWrittenIn s locals.now (counted counters.now instructions.now))
        sink.old sink.new) }
    ensures fault { IfErr result (IsFault (IsLongDrawn counters.now locals.now instructions.now)) }
{
    let mut content = sink.fresh();
    encode_locals(&mut content, locals)?;
    write_expression(counters, instructions, &mut content)?;
    sink.write_sized(content.as_slice())
}
