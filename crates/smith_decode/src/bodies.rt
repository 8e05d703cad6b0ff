ghost use Rattle.std.specs.Prelude.{◌≡◌, ◌^◌, nat_lt};
ghost use Rattle.smith_instr.specs.Enabled.{names_data};
ghost use Rattle.smith_binary_read.specs.Readings.{GivesWhole, whole_at};
ghost use Rattle.smith_binary_read_instr.specs.ExpressionReadings.{expr_at};
ghost use Rattle.smith_decode.specs.BodyReadings.{total, names_data_in, name_data};

use crate::sections::{DecodeWhole, finish, read_sized};
use smith_binary_read::{Decode, ReadError, Reader, Reason, read_list};
use smith_binary_read_instr::read_long_expr;
use smith_instr::{AggregateInstr, Instr, MemoryInstr};
use smith_types::{Items, ValType};

/// A run of locals of one type (Code Section).
#[derive(Clone, Copy, Debug)]
pub struct LocalRun {
    /// The number of locals.
    pub count: u32,
    /// The type of each local.
    pub ty: ValType,
}

/// The body of a function (Code Section).
#[derive(Debug, Drop)]
pub struct Body {
    /// The locals, in runs: six bytes may spell 2^32 - 1 of them, and a body has no more.
    pub locals: Items<LocalRun>,
    /// The instructions of the expression, without its last `end`. The start of a block, `else` and
    /// `end` are instructions of their own.
    pub instructions: Items<Instr>,
}

impl Decode for LocalRun {
    ghost use Rattle.smith_decode.specs.BodyReadings.{run_at};

    ghost reading = { run_at };

    #[tactic(auto, unfolding(crate::specs::BodyReadings::run_at))]
    fn decode(reader: &mut Reader<'_>) -> Result<LocalRun, ReadError> {
        let count = reader.read_u32()?;
        let ty = ValType::decode(reader)?;
        Ok(LocalRun { count, ty })
    }
}

// Returns whether `runs` have fewer than 2^32 locals.
fn are_few(runs: &[LocalRun]) -> bool
    ensures { result ≡ nat_lt (total runs.now) (2 ^ 32) }
{
    let mut count: u64 = 0;
    for run in runs {
        count += u64::from(run.count);
        if count >= 1 << 32 {
            return false;
        }
    }
    true
}

// Returns whether `instruction` names a data segment.
fn names_data(instruction: &Instr) -> bool
    ensures { result ≡ names_data instruction.now }
{
    match instruction {
        Instr::Memory(MemoryInstr::Init { .. } | MemoryInstr::DataDrop(_)) => true,
        Instr::Aggregate(AggregateInstr::ArrayNewData { .. }) => true,
        Instr::Aggregate(AggregateInstr::ArrayInitData { .. }) => true,
        _ => false,
    }
}

// Returns whether `body` names a data segment.
fn names_data_in(body: &Body) -> bool
    ensures { result ≡ names_data_in body.now }
{
    for instruction in body.instructions.as_slice() {
        if names_data(instruction) {
            return true;
        }
    }
    false
}

/// Returns whether one of `bodies` names a data segment.
pub(crate) fn name_data(bodies: &[Body]) -> bool
    ensures { result ≡ name_data bodies.now }
{
    for body in bodies {
        if names_data_in(body) {
            return true;
        }
    }
    false
}

// Reads all bytes of `reader` as an expression.
fn read_whole_expr(reader: &mut Reader<'_>) -> Result<Items<Instr>, ReadError>
    ensures { GivesWhole result (whole_at expr_at reader.old) }
{
    let instructions = read_long_expr(reader)?;
    finish(instructions, reader)
}

impl DecodeWhole for Body {
    ghost use Rattle.smith_decode.specs.BodyReadings.{body_whole};

    ghost whole = { body_whole };

    #[tactic(auto, unfolding(crate::specs::BodyReadings::body_whole))]
    fn decode_whole(reader: &mut Reader<'_>) -> Result<Body, ReadError> {
        let many = reader.fault(Reason::ManyLocals);
        let locals = read_list(reader)?;
        if !are_few(locals.as_slice()) {
            return Err(many);
        }
        let instructions = read_whole_expr(reader)?;
        Ok(Body {
            locals,
            instructions,
        })
    }
}

impl Decode for Body {
    ghost use Rattle.smith_decode.specs.BodyReadings.{body_at};

    ghost reading = { body_at };

    #[tactic(auto, unfolding(crate::specs::BodyReadings::body_at))]
    fn decode(reader: &mut Reader<'_>) -> Result<Body, ReadError> {
        read_sized(reader)
    }
}
