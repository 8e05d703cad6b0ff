ghost use Rattle.std.specs.Prelude.{◌≡◌, ◌<◌, Some, IsTrue, ◌↔◌, length, slice_index_or, All};
ghost use Rattle.smith_draw_types.specs.Choices.{chosen_at};
ghost use Rattle.smith_draw_types.specs.Drawing.{AlwaysDraws};
ghost use Rattle.smith_draw_contents.specs.ElementSegments.{kept_kinds};
ghost use Rattle.smith_draw_contents.specs.OfferedKinds.{table_at, unnamed_kinds, kinds_over};

use crate::element_kinds::{KindChoice, is_funcref};
use crate::offered_indices::OfferedIndices;
use smith_bytes::Unstructured;
use smith_config::Config;
use smith_types::TableType;
use std::marker::Model;

/// The offered kinds of element segments, in order: the kinds without a table, table 0 without its
/// index, and tables by their indices.
#[derive(Drop)]
pub(crate) struct OfferedKinds<'a> {
    config: &'a Config,
    tables: &'a [TableType],
    /// The indices of those of `tables` that segments may be copied into.
    offered: OfferedIndices,
}

impl<'a> Model for OfferedKinds<'a> {
    ghost use Rattle.std.specs.Prelude.{◌<◌, List, length, All};
    ghost use Rattle.smith_draw_contents.specs.ElementSegments.{KindChoice};
    ghost use Rattle.smith_draw_contents.specs.OfferedKinds.{kinds_over};

    ghost Value = { List KindChoice };

    ghost view = { λ a. kinds_over a.config.now a.tables.now a.offered.offered };

    ghost invariant = { λ a. All (λ index. index < length a.tables.now) a.offered.offered };
}

impl<'a> OfferedKinds<'a> {
    /// Offers the kinds over the tables of `tables` with the indices `offered`.
    pub(crate) fn new(
        config: &'a Config,
        tables: &'a [TableType],
        offered: OfferedIndices,
    ) -> OfferedKinds<'a>
        requires { All (λ index. index < length tables.now) offered.offered }
        ensures { result ≡ kinds_over config.now tables.now offered.offered }
    {
        OfferedKinds {
            config,
            tables,
            offered,
        }
    }

    /// Returns the number of kinds.
    fn len(&self) -> usize
        ensures { result ≡ length self.now }
    {
        let kept = count_kept(self.config);
        let unnamed = count_unnamed(self.tables, &self.offered);
        if self.config.bulk_memory_enabled {
            return kept + unnamed + self.offered.len();
        }
        kept + unnamed
    }

    /// Returns whether no kind is offered.
    pub(crate) fn is_empty(&self) -> bool
        ensures { IsTrue result ↔ (length self.now ≡ 0) }
    {
        self.len() == 0
    }

    /// Finds the kind at `place`.
    fn at(&self, place: usize) -> KindChoice
        requires { place < length self.now }
        ensures { result ≡ slice_index_or self.now place KindChoice.Passive }
    {
        let kept = count_kept(self.config);
        if place < kept {
            return kept_at(place);
        }
        let unnamed = count_unnamed(self.tables, &self.offered);
        if place < kept + unnamed {
            return KindChoice::Active(None, self.tables[0]);
        }
        named_at(self.tables, &self.offered, place - kept - unnamed)
    }

    /// Draws a kind. Requires at least one.
    #[tactic(auto, unfolding(smith_draw_types::specs::Choices::chosen_at))]
    pub(crate) fn choose(&self, u: &mut Unstructured<'_>) -> KindChoice
        requires { 0 < length self.now }
        ensures { AlwaysDraws (chosen_at KindChoice.Passive self.now u.old) result u.old u.new }
    {
        let place = u.int_in_range(0..=self.len() - 1);
        self.at(place)
    }
}

/// Counts the kinds without a table, which require bulk memory.
fn count_kept(config: &Config) -> usize
    ensures kinds { result ≡ length (kept_kinds config.now) }
    ensures few { result < 3 }
{
    if config.bulk_memory_enabled { 2 } else { 0 }
}

/// Returns the kind at `place` among those without a table.
fn kept_at(place: usize) -> KindChoice
    ensures first { place ≡ 0 → result ≡ KindChoice.Passive }
    ensures second { place ≡ 1 → result ≡ KindChoice.Declared }
{
    if place == 0 {
        KindChoice::Passive
    } else {
        KindChoice::Declared
    }
}

/// Returns 1 if the first of `tables` is offered without its index, else 0.
fn count_unnamed(tables: &[TableType], offered: &OfferedIndices) -> usize
    requires { All (λ index. index < length tables.now) offered.now.offered }
    ensures kinds { result ≡ length (unnamed_kinds tables.now offered.now.offered) }
    ensures few { result < 2 }
{
    if offered.is_empty() {
        return 0;
    }
    if offered.at(0) > 0 {
        return 0;
    }
    if is_funcref(tables[0].element_type) {
        1
    } else {
        0
    }
}

/// Returns the kind, with its index, of the table at `place` among those of `tables` whose indices
/// are `offered`.
fn named_at(tables: &[TableType], offered: &OfferedIndices, place: usize) -> KindChoice
    requires within { All (λ index. index < length tables.now) offered.now.offered }
    requires inside { place < length offered.now.offered }
    ensures { result
        ≡ KindChoice.Active (Some (slice_index_or offered.now.offered place 0))
        (table_at tables.now (slice_index_or offered.now.offered place 0)) }
{
    let index = offered.at(place);
    KindChoice::Active(Some(index), tables[index as usize])
}
