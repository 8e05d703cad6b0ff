ghost use Rattle.std.specs.Prelude.{◌≡◌, ◌<◌, ℕ, Bool, true, length, slice_get, IfSome};
ghost use Rattle.smith_bytes.specs.Draws.{choose_at};
ghost use Rattle.smith_bytes.specs.Source.{KeepsPieces};
ghost use Rattle.smith_body_nodes.specs.Offered.{chunk_at, offered, within_at};

use smith_bytes::Unstructured;

/// A row of items, some of which are offered.
pub trait Offer {
    /// The condition on the row under which items may be tested.
    ghost ready: { Self → Type 0 };

    /// The number of items.
    ghost size: { Self → ℕ };

    /// Whether an item is offered.
    ghost test: { Self → ℕ → Bool };

    /// Returns the number of items.
    fn count(&self) -> usize
        ensures { result ≡ Self.size self.now };

    /// Returns whether the item at `index` is offered.
    fn is_offered(&self, index: usize) -> bool
        requires ready { Self.ready self.now }
        requires below { index < Self.size self.now }
        ensures { result ≡ Self.test self.now index };
}

/// Chooses one of the offered items, and returns its index. Returns `None` if no item is offered.
pub fn choose_offered<O: Offer>(offer: &O, u: &mut Unstructured<'_>) -> Option<usize>
    requires { O.ready offer.now }
    ensures exact { choose_at (offered (O.test offer.now) (O.size offer.now)) u.old
        ≡ (result, u.new) }
    ensures below { IfSome result (λ index. index < O.size offer.now) }
    ensures offered { IfSome result (λ index. O.test offer.now index ≡ true) }
    ensures left { KeepsPieces u.old u.new }
{
    let count = count_offered(offer);
    let place = u.int_in_range(0..=count.saturating_sub(1));
    offered_at(offer, place)
}

/// Items among which one is chosen.
#[derive(Clone, Copy)]
pub enum Reach {
    /// The items of a drawn chunk.
    Chunk,
    /// All items.
    Whole,
}

/// Chooses one of the offered items that `reach` covers, and returns its index. Returns `None` if
/// none of them is offered.
pub fn choose_within<O: Offer>(offer: &O, reach: Reach, u: &mut Unstructured<'_>) -> Option<usize>
    requires { O.ready offer.now }
    ensures exact { within_at reach (O.test offer.now) (O.size offer.now) u.old ≡ (result, u.new) }
    ensures below { IfSome result (λ index. index < O.size offer.now) }
    ensures offered { IfSome result (λ index. O.test offer.now index ≡ true) }
    ensures left { KeepsPieces u.old u.new }
{
    match reach {
        Reach::Chunk => choose_in_chunk(offer, u),
        Reach::Whole => choose_offered(offer, u),
    }
}

/// The items of a row from `start` to before `end`.
#[derive(Drop)]
struct Chunk<'a, O> {
    offer: &'a O,
    start: usize,
    end: usize,
}

impl<'a, O: Offer> Offer for Chunk<'a, O> {
    ghost use Rattle.std.specs.Prelude.{◌+◌, ◌-◌, ◌≤◌};

    ghost ready = { λ self. O.ready self.offer.now × (self.end ≤ O.size self.offer.now) };

    ghost size = { λ self. self.end - self.start };

    ghost test = { λ self index. O.test self.offer.now (self.start + index) };

    fn count(&self) -> usize {
        self.end.saturating_sub(self.start)
    }

    fn is_offered(&self, index: usize) -> bool {
        self.offer.is_offered(self.start + index)
    }
}

/// Draws a chunk of 256 items, chooses one of its offered items, and returns its index. Returns
/// `None` if no item of the chunk is offered.
///
/// So a choice tests at most 256 items, however many there are. If there are at most 256, they are
/// one chunk, and drawing it takes no byte.
pub fn choose_in_chunk<O: Offer>(offer: &O, u: &mut Unstructured<'_>) -> Option<usize>
    requires { O.ready offer.now }
    ensures exact { chunk_at (O.test offer.now) (O.size offer.now) u.old ≡ (result, u.new) }
    ensures below { IfSome result (λ index. index < O.size offer.now) }
    ensures offered { IfSome result (λ index. O.test offer.now index ≡ true) }
    ensures left { KeepsPieces u.old u.new }
{
    let count = offer.count();
    let start = 256 * u.int_in_range(0..=count.saturating_sub(1) / 256);
    let end = start + (count - start).min(256);
    let index = choose_offered(&Chunk { offer, start, end }, u)?;
    Some(start + index)
}

/// Counts the offered items.
pub fn count_offered<O: Offer>(offer: &O) -> usize
    requires { O.ready offer.now }
    ensures { result ≡ length (offered (O.test offer.now) (O.size offer.now)) }
{
    let mut count: usize = 0;
    for index in 0..offer.count() {
        if offer.is_offered(index) {
            count += 1;
        }
    }
    count
}

/// Finds the item at `place` among the offered items.
fn offered_at<O: Offer>(offer: &O, place: usize) -> Option<usize>
    requires { O.ready offer.now }
    ensures exact { result ≡ slice_get (offered (O.test offer.now) (O.size offer.now)) place }
    ensures below { IfSome result (λ index. index < O.size offer.now) }
    ensures offered { IfSome result (λ index. O.test offer.now index ≡ true) }
{
    let mut rest = place;
    for index in 0..offer.count() {
        if offer.is_offered(index) {
            if rest == 0 {
                return Some(index);
            }
            rest -= 1;
        }
    }
    None
}
