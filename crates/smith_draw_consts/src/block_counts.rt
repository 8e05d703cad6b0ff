ghost use Rattle.std.specs.Prelude.{◌≡◌, ℕ, ◌+◌, ◌*◌, ◌/◌, ◌<◌, ◌≤◌, ◌^◌, false, min, length, OnOk};
ghost use Rattle.std.specs.Prelude.{IfErr, IsTrue, slice_index};
ghost use Rattle.smith_draw_consts.specs.KeptOffers.{IsCounted, MayOffer};

use smith_bytes::Error;
use smith_types::Items;
use std::alloc::Global;

/// The number of items in a block.
const BLOCK: usize = 8;

/// The number of offered items among the items read so far, and before each block of them.
///
/// The search for the item at a place among the offered ones reads one block, without a list of
/// them.
#[derive(Drop)]
pub(crate) struct BlockCounts {
    /// The number of items read so far, from the first.
    pub seen: usize,
    // The number of offered items among them.
    total: usize,
    // The number of offered items before each block.
    starts: Items<usize>,
}

impl BlockCounts {
    /// Creates the counts of no items. Does not allocate.
    pub fn new(alloc: Global) -> BlockCounts
        ensures counted { (before : ℕ → ℕ) → before 0 ≡ 0 → IsCounted before result }
        ensures seen { result.seen ≡ 0 }
    {
        BlockCounts {
            seen: 0,
            total: 0,
            starts: Items::new(alloc),
        }
    }

    /// Returns the index after the last item of the block of the first item that has not been read.
    pub fn block_end(&self) -> usize
        requires { self.now.seen < 2 ^ 32 }
        ensures { result ≡ 8 * (self.now.seen / 8 + 1) }
    {
        (self.seen / BLOCK + 1) * BLOCK
    }

    /// Reads the items up to the index `end`, which belong to one block. `offered` of them are
    /// offered.
    pub fn read_to(&mut self, end: usize, offered: usize) -> Result<(), Error>
        requires some { self.old.seen < end }
        requires one_block { end ≤ 8 * (self.old.seen / 8 + 1) }
        requires few { self.old.total + offered < 2 ^ 64 }
        ensures counted { (before : ℕ → ℕ) → IsCounted before self.old
            → before end ≡ before self.old.seen + offered
            → OnOk result (IsCounted before self.new) }
        ensures seen { OnOk result (self.new.seen ≡ end) }
        ensures memory { IfErr result (λ e. e ≡ Error.Memory) }
    {
        if self.seen % BLOCK == 0 {
            self.starts.push(self.total)?;
        }
        self.seen = end;
        self.total += offered;
        Ok(())
    }

    /// Returns the number of offered items before the block `block`, or among all items read if
    /// there are fewer blocks.
    fn start_of(&self, block: usize) -> usize
        ensures { (before : ℕ → ℕ) → IsCounted before self.now
            → result ≡ before (min (8 * block) self.now.seen) }
    {
        let starts = self.starts.as_slice();
        if block < starts.len() {
            return starts[block];
        }
        self.total
    }

    /// Returns whether an item from the index `first` up to `end` may be offered: if not all of
    /// these items have been read, or if an item of their block is offered. Requires them to belong
    /// to one block.
    pub fn may_offer(&self, first: usize, end: usize) -> bool
        requires { first < end × end ≤ 8 * (first / 8 + 1) }
        ensures none { (before : ℕ → ℕ) → IsCounted before self.now
            → ((m n : ℕ) → m ≤ n → before m ≤ before n)
            → result ≡ false → before end ≡ before first }
        ensures some { (before : ℕ → ℕ) → IsCounted before self.now
            → IsTrue result → MayOffer before self.now first end }
    {
        if end > self.seen {
            return true;
        }
        let block = first / BLOCK;
        self.start_of(block) != self.start_of(block + 1)
    }

    /// Returns the index from which to search for the item at `place` among the offered items, and
    /// its place among the offered items from there on. The index is that of the first item of its
    /// block, or the number of items read if too few are offered.
    pub fn search_from(&self, place: usize) -> (usize, usize)
        requires { (before : ℕ → ℕ) × (before 0 ≡ 0) × IsCounted before self.now }
        ensures index { result.0 ≤ self.now.seen }
        ensures place { (before : ℕ → ℕ) → before 0 ≡ 0 → IsCounted before self.now
            → before result.0 + result.1 ≡ place }
    {
        if place >= self.total {
            return (self.seen, place - self.total);
        }
        let starts = self.starts.as_slice();
        let block = block_of(starts, place);
        (block * BLOCK, place - starts[block])
    }
}

/// Returns the last block that has, by `starts`, at most `place` offered items before it.
fn block_of(starts: &[usize], place: usize) -> usize
    requires some { 0 < length starts.now }
    requires first { slice_index starts.now 0 ≤ place }
    ensures inside { result < length starts.now }
    ensures reached { slice_index starts.now result ≤ place }
    ensures last { result + 1 < length starts.now → place < slice_index starts.now (result + 1) }
{
    let mut block = 0;
    let mut end = starts.len();
    while end - block > 1 {
        let middle = block + (end - block) / 2;
        if starts[middle] <= place {
            block = middle;
        } else {
            end = middle;
        }
    }
    block
}
