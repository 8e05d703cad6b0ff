ghost use Rattle.std.specs.Prelude.{◌↔◌, IsTrue, All};

/// A test that decides a property of values of type `T`.
pub trait Predicate<T> {
    /// The property decided by the test.
    ghost meaning: { Self → T → Type 0 };

    /// Returns whether `item` has the property.
    fn holds(&self, item: &T) -> bool
        ensures { IsTrue result ↔ Self.meaning self.now item.now };
}

/// Returns whether all `items` satisfy `predicate`.
pub fn all_hold<T, P: Predicate<T>>(predicate: &P, items: &[T]) -> bool
    ensures { IsTrue result ↔ All (P.meaning predicate.now) items.now }
{
    items.iter().all(|item| predicate.holds(item))
}
