ghost use Rattle.std.specs.Prelude.{◌≡◌, ◌≤◌, ◌<◌, Ok, Err};
ghost use Rattle.std.specs.Fn.{CalledAtMut};
ghost use Rattle.smith_bytes.specs.Source.{KeepsPieces};
ghost use Rattle.smith_bytes.specs.Loop.{CallsKeepPieces, LoopRuns};

use crate::error::{Error, Why};
use crate::growth::goes_on;
use crate::unstructured::Unstructured;

/// Calls `f` with `u` at least `min` and at most `max` times.
///
/// After the first `min` calls, a bool is drawn from `u` before each call. The loop ends if that
/// bool is `false`, or if `f` returns `false`.
///
/// Requires `min` to be at most `max`, and `f` to be callable with any source, repeatedly.
///
/// # Errors
///
/// Returns [`Why::Loop`] if `f` returns `false` in one of the first `min` calls. Returns an error
/// of `f` at once.
///
/// # Examples
///
/// ```rust
/// let mut u = Unstructured::new(&[5, 1, 6, 0, 9]);
/// let mut last = 0u8;
/// arbitrary_loop(&mut u, 1, 3, |u| {
///     last = u.arbitrary();
///     Ok(true)
/// })?;
/// assert_eq!(rt; last, 6);
/// assert_eq!(rt; u.len(), 1);
/// ```
pub fn arbitrary_loop<'a, F: FnMut(&mut Unstructured<'a>) -> Result<bool, Error>>(
    u: &mut Unstructured<'a>,
    min: usize,
    max: usize,
    mut f: F,
) -> Result<(), Error>
    requires ordered { min ≤ max }
    requires callable { F.IsAlwaysCallable f }
    ensures runs { LoopRuns F.FnMut min max f u.old result u.new }
    ensures left { CallsKeepPieces F.FnMut → KeepsPieces u.old u.new }
{
    let mut calls = 0;
    while calls < max {
        if !goes_on(u, calls, min) {
            return Ok(());
        }
        if !call_once(&mut f, u)? {
            return at_false(min, calls);
        }
        calls += 1;
    }
    Ok(())
}

/// Calls `f` once with `u`. Requires `f` to be callable with any source, repeatedly.
fn call_once<'a, F: FnMut(&mut Unstructured<'a>) -> Result<bool, Error>>(
    f: &mut F,
    u: &mut Unstructured<'a>,
) -> Result<bool, Error>
    requires callable { F.IsAlwaysCallable f.old }
    ensures callable { F.IsAlwaysCallable f.new }
    ensures called { CalledAtMut F.FnMut f.old u.old result f.new u.new }
    ensures left { CallsKeepPieces F.FnMut → KeepsPieces u.old u.new }
{
    f(u)
}

/// Returns the result of a loop in which `f` returned `true` in `calls` calls and then `false`.
fn at_false(min: usize, calls: usize) -> Result<(), Error>
    ensures few { calls < min → result ≡ Err (Error.IncorrectFormat Why.Loop) }
    ensures enough { min ≤ calls → result ≡ Ok tt }
{
    if calls < min {
        return Err(Error::IncorrectFormat(Why::Loop));
    }
    Ok(())
}
