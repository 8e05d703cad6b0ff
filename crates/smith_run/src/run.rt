ghost use Rattle.std.specs.Prelude.{◌≡◌, ◌⊎◌, ◌↔◌, ◌||◌, true, false, IfOk, IfErr, OnOk, IsErrOf};
ghost use Rattle.std.specs.Prelude.{is_err};
ghost use Rattle.std.specs.Io.KnownBytes.{Appends};
ghost use Rattle.smith_run.specs.Line.{line_of};
ghost use Rattle.smith_run.specs.Run.{MayAnswer, IsAnswered, IsUnread, outcome_of};

use crate::line::line;
use crate::sink::{Sink, write_whole};
use crate::source::{Failed, InputFault, Source, read_whole};
use std::alloc::Global;
use wasm_smith::{Config, Error, Module, Unstructured};

/// The outcome that the written line reports.
#[derive(Clone, Copy, Debug, PartialEq, Eq)]
pub enum Outcome {
    /// A module was drawn.
    Made,
    /// No module was drawn, for this reason.
    Refused(Error),
}

/// A fault of a run, after which there is no whole line.
#[derive(Clone, Copy, Debug, PartialEq, Eq, thiserror::Error)]
pub enum RunFault {
    /// The input was not read to its end. Nothing was written.
    #[error("read failed")]
    Read,
    /// The line was not written to its end. Any part of it may have been written.
    #[error("write failed")]
    Write,
}

/// Reads `r` to its end, draws a module from the bytes, and writes a line to `w` that reports the
/// module or the refusal. The line does not allocate. If `drawn` is set, the configuration is drawn
/// from the bytes first, else it is the default. A module is refused only for lack of memory.
///
/// Requires that neither `r` nor `w` has failed.
///
/// # Errors
///
/// - `Read` if a read fails. Nothing is written then.
/// - `Write` if a write fails.
pub fn run<R: Source, W: Sink>(
    alloc: Global,
    drawn: bool,
    r: &mut R,
    w: &mut W,
) -> Result<Outcome, RunFault>
    requires source { R.failed r.old ≡ false }
    requires sink { W.failed w.old ≡ false }
    ensures line { IfOk result (λ outcome.
        IsAnswered drawn (R.left r.old) (W.written w.old) (W.written w.new) outcome
        ⊎ IsUnread (W.written w.old) (W.written w.new) outcome) }
    ensures read { IsErrOf result RunFault.Read ↔ (R.failed r.new ≡ true) }
    ensures write { IsErrOf result RunFault.Write ↔ (W.failed w.new ≡ true) }
    ensures unwritten { IsErrOf result RunFault.Read → w.new ≡ w.old }
{
    match read_whole(alloc, r) {
        Ok(input) => write_outcome(w, generate(alloc, drawn, &input)),
        Err(InputFault::Memory) => write_outcome(w, Err(Error::Memory)),
        Err(InputFault::Read) => Err(RunFault::Read),
    }
}

fn generate(alloc: Global, drawn: bool, input: &[u8]) -> Result<Module, Error>
    ensures { MayAnswer drawn input.now result }
{
    let mut u = Unstructured::new(input);
    if drawn {
        let config = Config::arbitrary(&mut u)?;
        return Module::new(alloc, config, &mut u);
    }
    Module::arbitrary(alloc, &mut u)
}

fn write_outcome<W: Sink>(w: &mut W, answer: Result<Module, Error>) -> Result<Outcome, RunFault>
    ensures written { OnOk result (Appends (W.written w.old) (W.written w.new) (line_of answer)) }
    ensures told { IfOk result (λ outcome. outcome ≡ outcome_of answer) }
    ensures fault { IfErr result (λ fault. fault ≡ RunFault.Write) }
    ensures failed { W.failed w.new ≡ (W.failed w.old || is_err result) }
{
    let told = write_answer(w, &answer);
    drop(answer);
    told
}

fn write_answer<W: Sink>(w: &mut W, answer: &Result<Module, Error>) -> Result<Outcome, RunFault>
    ensures written { OnOk result
        (Appends (W.written w.old) (W.written w.new) (line_of answer.now)) }
    ensures told { IfOk result (λ outcome. outcome ≡ outcome_of answer.now) }
    ensures fault { IfErr result (λ fault. fault ≡ RunFault.Write) }
    ensures failed { W.failed w.new ≡ (W.failed w.old || is_err result) }
{
    match write_whole(w, line(answer).as_str().as_bytes()) {
        Ok(()) => Ok(outcome_for(answer)),
        Err(Failed) => Err(RunFault::Write),
    }
}

fn outcome_for(answer: &Result<Module, Error>) -> Outcome
    ensures { result ≡ outcome_of answer.now }
{
    match answer {
        Ok(_) => Outcome::Made,
        Err(refusal) => Outcome::Refused(*refusal),
    }
}
