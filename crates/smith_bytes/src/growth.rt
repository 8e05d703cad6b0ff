ghost use Rattle.std.specs.Prelude.{◌≡◌, nat_lt};
ghost use Rattle.smith_bytes.specs.Source.{KeepsPieces};
ghost use Rattle.smith_bytes.specs.Growth.{goes_at};

use crate::unstructured::Unstructured;

/// Returns whether a loop continues after `made` turns. Returns `true` if `made` is below `least`.
/// Otherwise draws one bool from `u` and returns it.
///
/// # Examples
///
/// ```rust
/// let mut u = Unstructured::new(&[0]);
/// assert!(rt; goes_on(&mut u, 0, 1));
/// assert_eq!(rt; u.len(), 1);
/// assert!(rt; !goes_on(&mut u, 1, 1));
/// ```
pub fn goes_on(u: &mut Unstructured<'_>, made: usize, least: usize) -> bool
    ensures exact { goes_at (nat_lt made least) u.old ≡ (result, u.new) }
    ensures left { KeepsPieces u.old u.new }
{
    if made < least {
        return true;
    }
    u.arbitrary()
}
