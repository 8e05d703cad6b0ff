ghost use Rattle.std.specs.Prelude.{◌≡◌, false, is_err, OnOk};
ghost use Rattle.smith_text.specs.Written.{Keeps};

use crate::comments::FunctionNames;
use crate::names::Names;
use smith_decode::{Body, LocalRun};
use smith_text::{Sink, TextForm, TypeUse, write_function_start};
use smith_text_program::write_instrs;
use smith_types::SubType;
use std::fmt;

// The depth of the instructions of a body.
const DEPTH: usize = 2;

// The locals of a run, each after a space.
#[derive(Clone, Copy)]
struct Run(LocalRun);

impl TextForm for Run {
    fn write_text<S: Sink>(&self, sink: &mut S) -> fmt::Result {
        for _ in 0..self.0.count {
            (" ", &self.0.ty).write_text(sink)?;
        }
        Ok(())
    }
}

// Writes the locals of `runs`, each after a space.
fn write_runs<S: Sink>(runs: &[LocalRun], sink: &mut S) -> fmt::Result
    requires open { S.failed sink.old ≡ false }
    ensures fault { S.failed sink.new ≡ is_err result }
    ensures keeps { OnOk result (Keeps S.has sink.old sink.new) }
{
    for run in runs {
        Run(*run).write_text(sink)?;
    }
    Ok(())
}

// The locals of a body on a line, or nothing if there are none.
#[derive(Clone, Copy)]
struct Locals<'a>(&'a [LocalRun]);

/// The section Text Format, Functions, with the abbreviation that lists locals in one pair of
/// parentheses.
impl TextForm for Locals<'_> {
    fn write_text<S: Sink>(&self, sink: &mut S) -> fmt::Result {
        if self.0.iter().all(|run| run.count == 0) {
            return Ok(());
        }
        sink.write_str("    (local")?;
        write_runs(self.0, sink)?;
        sink.write_str(")\n")
    }
}

// Returns the use of the type of the defined function `place`, if there is one.
fn type_use<'a>(types: &[u32], place: usize, signatures: &'a [SubType]) -> Option<TypeUse<'a>> {
    let index = *types.get(place)?;
    Some(TypeUse { index, signatures })
}

// Writes the function `index` with the names that `names` begins with.
fn write_function<S: Sink>(
    index: usize,
    ty: Option<TypeUse<'_>>,
    body: &Body,
    names: FunctionNames<'_>,
    signatures: &[SubType],
    sink: &mut S,
) -> fmt::Result
    requires open { S.failed sink.old ≡ false }
    ensures fault { S.failed sink.new ≡ is_err result }
    ensures keeps { OnOk result (Keeps S.has sink.old sink.new) }
{
    names.comment(index).write_text(sink)?;
    let locals = (names.locals_comment(index), Locals(body.locals.as_slice()));
    write_function_start(index, &ty, &locals, sink)?;
    write_instrs(body.instructions.as_slice(), signatures, DEPTH, sink)?;
    sink.write_str("  )\n")
}

/// Writes functions of these types and bodies after comments with their names. The first function
/// has the index `start`. The function types among `signatures` are written with their parameters
/// and results.
pub(crate) fn write_functions<S: Sink>(
    types: &[u32],
    bodies: &[Body],
    start: usize,
    names: &Names,
    signatures: &[SubType],
    sink: &mut S,
) -> fmt::Result
    requires open { S.failed sink.old ≡ false }
    ensures fault { S.failed sink.new ≡ is_err result }
    ensures keeps { OnOk result (Keeps S.has sink.old sink.new) }
{
    let mut left = FunctionNames::of(names);
    for (place, body) in bodies.iter().enumerate() {
        let index = start.saturating_add(place);
        left = left.starting_at(index);
        let ty = type_use(types, place, signatures);
        write_function(index, ty, body, left, signatures, sink)?;
    }
    Ok(())
}
