ghost use Rattle.std.specs.Prelude.{ℕ, List};
ghost use Rattle.smith_draw_types.specs.Drawing.{Draws};
ghost use Rattle.smith_draw_types.specs.MatchingTypes.{each_at};

use smith_bytes::{Error, Unstructured};
use smith_types::Items;
use std::alloc::Global;

/// A draw of an item in place of another.
pub(crate) trait Replacement<T> {
    /// Returns the item drawn in place of an item, and the bytes left.
    ghost draw_at: { Self → T → List ℕ → T × List ℕ };

    /// Draws an item in place of `item`.
    fn draw(&self, alloc: Global, item: T, u: &mut Unstructured<'_>) -> Result<T, Error>
        ensures { Draws (Self.draw_at self.now item u.old) result u.old u.new };
}

/// Draws an item in place of each of `items`, in order.
pub(crate) fn draw_each<T: Copy, R: Replacement<T>>(
    alloc: Global,
    replacement: &R,
    items: &[T],
    u: &mut Unstructured<'_>,
) -> Result<Items<T>, Error>
    ensures { Draws (each_at (R.draw_at replacement.now) items.now u.old) result u.old u.new }
{
    let mut drawn = Items::with_capacity(alloc, items.len())?;
    for item in items {
        drawn.push(replacement.draw(alloc, *item, u)?)?;
    }
    Ok(drawn)
}
