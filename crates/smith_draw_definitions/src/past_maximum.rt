ghost use Rattle.std.specs.Prelude.{◌≡◌, ◌&&◌, nat_lt, if◌then◌else◌};
ghost use Rattle.smith_bytes.specs.Draws.{bool_at};
ghost use Rattle.smith_bytes.specs.Source.{KeepsPieces};

use smith_bytes::Unstructured;

/// Draws and discards one bool, if `before` and `most` are above 0.
pub(crate) fn discard_past_maximum(before: usize, most: usize, u: &mut Unstructured<'_>)
    ensures exact { u.new
        ≡ (if nat_lt 0 before && nat_lt 0 most then (bool_at u.old).1 else u.old) }
    ensures left { KeepsPieces u.old u.new }
{
    if before > 0 && most > 0 {
        let _: bool = u.arbitrary();
    }
}
