ghost use Rattle.std.specs.Prelude.{◌<◌};

/// The most items that are looked at for one instruction, so that a search takes linear time.
pub(crate) const MOST_LOOKED_AT: usize = 64;

/// Returns the index `step` steps after `start` in a list of `count` items, round its end.
pub(crate) fn rotated(start: usize, step: usize, count: usize) -> usize
    requires { 0 < count }
    ensures { result < count }
{
    start.saturating_add(step) % count
}
