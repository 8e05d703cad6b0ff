ghost use Rattle.std.specs.Prelude.{◌≡◌, ◌⊎◌, ◌↔◌, true, false, None, map, string_bytes, IfOk};
ghost use Rattle.std.specs.Prelude.{IfSome, IsErrOf};
ghost use Rattle.smith_run.specs.Run.{IsAnswered, IsUnread};
ghost use Rattle.smith_run.specs.Words.{drawn_by};
ghost use Rattle.smith_run.specs.Program.{exit_status_of};

use crate::run::{Outcome, RunFault, run};
use crate::sink::Sink;
use crate::source::Source;
use crate::words::{status, words};
use std::alloc::Global;

/// A fault of the program, after which there is no outcome.
#[derive(Clone, Copy, Debug, PartialEq, Eq, thiserror::Error)]
pub enum ProgramFault {
    /// The words are not accepted. Nothing was read or written.
    #[error("usage: smith_run [arbitrary]")]
    Usage,
    /// The run failed.
    #[error("{0}")]
    Run(RunFault),
}

/// Runs the program for `asked`, the words after its name. Checks `asked` first, then reads `r` to
/// its end and writes a line to `w` as [`run`] does.
///
/// Requires that neither `r` nor `w` has failed.
///
/// # Errors
///
/// Returns `Usage` if `asked` is not accepted, else the faults of [`run`].
pub fn run_words<R: Source, W: Sink>(
    alloc: Global,
    asked: &[String],
    r: &mut R,
    w: &mut W,
) -> Result<Outcome, ProgramFault>
    requires source { R.failed r.old ≡ false }
    requires sink { W.failed w.old ≡ false }

    // Words that are not accepted.
    ensures usage { IsErrOf result ProgramFault.Usage
        ↔ (drawn_by (map string_bytes asked.now) ≡ None) }
    ensures untouched { IsErrOf result ProgramFault.Usage → (r.new ≡ r.old) × (w.new ≡ w.old) }

    // The line written.
    ensures line { IfOk result (λ outcome. IfSome (drawn_by (map string_bytes asked.now)) (λ drawn.
        IsAnswered drawn (R.left r.old) (W.written w.old) (W.written w.new) outcome
        ⊎ IsUnread (W.written w.old) (W.written w.new) outcome)) }

    // Failures to read and to write.
    ensures read { IsErrOf result (ProgramFault.Run RunFault.Read) ↔ (R.failed r.new ≡ true) }
    ensures write { IsErrOf result (ProgramFault.Run RunFault.Write) ↔ (W.failed w.new ≡ true) }
    ensures unwritten { IsErrOf result (ProgramFault.Run RunFault.Read) → w.new ≡ w.old }
{
    let Some(drawn) = words(asked) else {
        return Err(ProgramFault::Usage);
    };
    run(alloc, drawn, r, w).map_err(ProgramFault::Run)
}

/// Returns the exit status of the program: 2 if its words are not accepted, else that of
/// [`status`].
pub fn exit_status(ended: &Result<Outcome, ProgramFault>) -> u8
    ensures { result ≡ exit_status_of ended.now }
{
    match ended {
        Ok(outcome) => status(&Ok(*outcome)),
        Err(ProgramFault::Usage) => 2,
        Err(ProgramFault::Run(fault)) => status(&Err(*fault)),
    }
}
