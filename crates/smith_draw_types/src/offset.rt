ghost use Rattle.std.specs.Prelude.{◌≤◌};
ghost use Rattle.smith_draw_types.specs.Drawing.{AlwaysDraws};
ghost use Rattle.smith_draw_types.specs.Offsets.{offset_at};

use crate::limits::gradually_grow;
use smith_bytes::Unstructured;

/// Draws the offset of an active segment of `size` elements or bytes, in a table or a memory with a
/// minimum size of `min`.
///
/// The offset is between 0 and `max`, mostly near 0 and such that the segment fits into `min`. If
/// the segment is longer than `min`, the offset is any number between 0 and `max`.
///
/// Requires `min` to be at most `max`.
#[tactic(auto, unfolding(crate::specs::Offsets::offset_at))]
pub fn arbitrary_offset(min: u64, max: u64, size: usize, u: &mut Unstructured<'_>) -> u64
    requires { min ≤ max }
    ensures draws { AlwaysDraws (offset_at min max size u.old) result u.old u.new }
    ensures within { result ≤ max }
{
    let size = size as u64;
    if size > min {
        return u.int_in_range(0..=max);
    }
    gradually_grow(0, min - size, max, u)
}
