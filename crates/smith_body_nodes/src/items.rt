ghost use Rattle.std.specs.Prelude.{◌≡◌, ◌<◌, Some, slice_get, IfSome};
ghost use Rattle.smith_bytes.specs.Source.{KeepsPieces};
ghost use Rattle.smith_body_nodes.specs.Items.{index_at, item_at};

use crate::scope::indexed_count;
use smith_bytes::Unstructured;

/// Draws the index of one of `count` items. Returns `None` if there are no items.
pub fn draw_index(count: usize, u: &mut Unstructured<'_>) -> Option<u32>
    ensures exact { index_at count u.old ≡ (result, u.new) }
    ensures below { IfSome result (λ index. index < count) }
    ensures left { KeepsPieces u.old u.new }
{
    let last = indexed_count(count);
    if last == 0 {
        return None;
    }
    Some(u.int_in_range(0..=last - 1) as u32)
}

/// Draws one of `items`, and returns it with its index. Returns `None` if there are no items.
pub fn draw_item<T: Copy>(items: &[T], u: &mut Unstructured<'_>) -> Option<(u32, T)>
    ensures exact { item_at items.now u.old ≡ (result, u.new) }
    ensures there { IfSome result (λ item. slice_get items.now item.0 ≡ Some item.1) }
    ensures left { KeepsPieces u.old u.new }
{
    let index = draw_index(items.len(), u)?;
    Some((index, items[index as usize]))
}
