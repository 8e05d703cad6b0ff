ghost use Rattle.std.specs.Prelude.{◌≡◌, ◌<◌, ◌+◌, ◌^◌, ◌++◌, ◌∷◌, [], length, slice_index_or};
ghost use Rattle.std.specs.Prelude.{IsTrue, ◌↔◌, OnOk, IfErr};
ghost use Rattle.smith_draw_types.specs.Choices.{chosen_at};
ghost use Rattle.smith_draw_types.specs.Drawing.{AlwaysDraws};

use smith_bytes::{Error, Unstructured};
use smith_types::Items;
use std::alloc::Global;
use std::marker::Model;

/// The offered indices, in order: all indices below an end, except those left out.
///
/// Memory is allocated only for indices that are left out.
#[derive(Drop)]
pub(crate) struct OfferedIndices {
    /// The number of offered indices.
    count: u32,
    /// The number of offered indices below each index that is left out.
    skipped: Items<u32>,
}

impl Model for OfferedIndices {
    ghost use Rattle.smith_draw_contents.specs.OfferedIndices.{Indices, indices_beside, AreSkipped};

    ghost Value = { Indices };

    ghost view = { λ a. indices_beside a.count a.skipped };

    ghost invariant = { λ a. AreSkipped a.count a.skipped };
}

impl OfferedIndices {
    /// Creates an empty list of indices. Does not allocate.
    pub(crate) fn new(alloc: Global) -> Self
        ensures { result ≡ record { end = 0; offered = [] } }
    {
        OfferedIndices {
            count: 0,
            skipped: Items::new(alloc),
        }
    }

    /// Offers the next index.
    pub(crate) fn offer(&mut self)
        requires { self.old.end + 1 < 2 ^ 32 }
        ensures { self.new
            ≡ record { end = self.old.end + 1; offered = self.old.offered ++ self.old.end ∷ [] } }
    {
        self.count += 1;
    }

    /// Leaves out the next index.
    pub(crate) fn leave_out(&mut self) -> Result<(), Error>
        requires { self.old.end + 1 < 2 ^ 32 }
        ensures ok { OnOk result
            (self.new ≡ record { end = self.old.end + 1; offered = self.old.offered }) }
        ensures memory { IfErr result (λ e. e ≡ Error.Memory) }
    {
        let below = self.count;
        self.skipped.push(below)
    }

    /// Returns the number of offered indices.
    pub(crate) fn len(&self) -> usize
        ensures exact { result ≡ length self.now.offered }
        ensures few { result < 2 ^ 32 }
    {
        self.count as usize
    }

    /// Returns whether no index is offered.
    pub(crate) fn is_empty(&self) -> bool
        ensures { IsTrue result ↔ (length self.now.offered ≡ 0) }
    {
        self.len() == 0
    }

    /// Finds the offered index at `place`.
    pub(crate) fn at(&self, place: usize) -> u32
        requires { place < length self.now.offered }
        ensures { result ≡ slice_index_or self.now.offered place 0 }
    {
        let below = self
            .skipped
            .as_slice()
            .partition_point(|below| *below as usize <= place);
        place as u32 + below as u32
    }

    /// Draws an offered index. Requires at least one.
    #[tactic(auto, unfolding(smith_draw_types::specs::Choices::chosen_at))]
    pub(crate) fn choose(&self, u: &mut Unstructured<'_>) -> u32
        requires { 0 < length self.now.offered }
        ensures { AlwaysDraws (chosen_at 0 self.now.offered u.old) result u.old u.new }
    {
        let place = u.int_in_range(0..=self.len() - 1);
        self.at(place)
    }
}
