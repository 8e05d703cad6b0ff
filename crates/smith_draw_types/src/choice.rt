ghost use Rattle.std.specs.Prelude.{◌≡◌, ◌<◌, length};
ghost use Rattle.smith_bytes.specs.Source.{KeepsPieces};
ghost use Rattle.smith_draw_types.specs.Choices.{chosen_at};

use smith_bytes::Unstructured;

/// Chooses one of `items`, all about equally likely. Requires `items` to be non-empty.
#[tactic(auto, unfolding(crate::specs::Choices::chosen_at))]
pub fn choose<T: Copy>(items: &[T], u: &mut Unstructured<'_>) -> T
    requires { 0 < length items.now }
    ensures exact { (other : T) → chosen_at other items.now u.old ≡ (result, u.new) }
    ensures left { KeepsPieces u.old u.new }
{
    items[u.int_in_range(0..=items.len() - 1)]
}
