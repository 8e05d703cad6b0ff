ghost use Rattle.std.specs.Prelude.{◌≡◌, ◌<◌, ◌≤◌, ◌^◌, [], true, Bool, length, slice_index_or};
ghost use Rattle.std.specs.Prelude.{IsTrue};
ghost use Rattle.smith_draw_types.specs.Choices.{chosen_at};
ghost use Rattle.smith_draw_consts.specs.ConstScopes.{AreSpacesValid, seen_by, visible_end};
ghost use Rattle.smith_draw_types.specs.Drawing.{AlwaysDraws};
ghost use Rattle.smith_draw_contents.specs.DataSegments.{offset_globals};
ghost use Rattle.smith_draw_contents.specs.DataTargets.{TellOffsets};
ghost use Rattle.smith_draw_contents.specs.OffsetGlobals.{tells_offset, telling_from};

use smith_bytes::Unstructured;
use smith_config::Config;
use smith_draw_types::Spaces;
use smith_types::{GlobalType, ValType};
use std::marker::Model;

/// The indices of the globals that an offset may be read from, in order.
///
/// Does not allocate: the globals are counted, and each search reads them again.
#[derive(Drop)]
pub(crate) struct OffsetGlobals<'a> {
    /// The globals that a segment may read, of any type.
    globals: &'a [GlobalType],
    /// Whether an offset has 64 bits instead of 32.
    wide: bool,
    /// The number of globals in `globals` that the offset may be read from.
    count: usize,
}

impl<'a> Model for OffsetGlobals<'a> {
    ghost use Rattle.std.specs.Prelude.{ℕ, List};
    ghost use Rattle.smith_draw_contents.specs.OffsetGlobals.{telling_from, AreCounted};

    ghost Value = { List ℕ };

    ghost view = { λ a. telling_from a.wide 0 a.globals.now };

    ghost invariant = { λ a. AreCounted a.wide a.globals.now a.count };
}

impl<'a> OffsetGlobals<'a> {
    /// Counts the globals of `spaces` that an offset may be read from: of 64 bits if `wide` is set,
    /// else of 32 bits. There are none with `disallow_traps`.
    pub(crate) fn new(config: &Config, spaces: &'a Spaces<'_>, wide: bool) -> OffsetGlobals<'a>
        requires { AreSpacesValid config.now spaces.now }
        ensures exact { result
            ≡ offset_globals config.now (seen_by config.now spaces.now true) wide }
        ensures tell { TellOffsets (seen_by config.now spaces.now true) wide result }
        ensures none { IsTrue config.now.disallow_traps → result ≡ [] }
    {
        let globals = read_globals(config, spaces);
        let count = count_telling(globals, wide);
        OffsetGlobals {
            globals,
            wide,
            count,
        }
    }

    /// Returns the number of globals that the offset may be read from.
    pub(crate) fn len(&self) -> usize
        ensures { result ≡ length self.now }
    {
        self.count
    }

    /// Finds the index of the global at `place`.
    pub(crate) fn at(&self, place: usize) -> u32
        requires { place < length self.now }
        ensures { result ≡ slice_index_or self.now place 0 }
    {
        find_telling(self.globals, self.wide, place)
    }

    /// Draws the index of a global that the offset may be read from. Requires at least one.
    #[tactic(auto, unfolding(smith_draw_types::specs::Choices::chosen_at))]
    pub(crate) fn choose(&self, u: &mut Unstructured<'_>) -> u32
        requires { 0 < length self.now }
        ensures { AlwaysDraws (chosen_at 0 self.now u.old) result u.old u.new }
    {
        let place = u.int_in_range(0..=self.len() - 1);
        self.at(place)
    }
}

/// Returns the number of globals that a segment may read: the imported ones, or all with garbage
/// collection.
fn visible_end(config: &Config, spaces: &Spaces<'_>) -> usize
    requires { AreSpacesValid config.now spaces.now }
    ensures exact { result ≡ visible_end config.now spaces.now true }
    ensures within { result ≤ length spaces.now.entities.globals.now }
{
    let entities = spaces.entities;
    if config.gc_enabled {
        return entities.globals.len();
    }
    entities.imported_globals
}

/// Returns the globals that an offset may be read from if they have its type: none with
/// `disallow_traps`.
fn read_globals<'a>(config: &Config, spaces: &'a Spaces<'_>) -> &'a [GlobalType]
    requires { AreSpacesValid config.now spaces.now }
    ensures exact { (wide : Bool)
        → telling_from wide 0 result.now
        ≡ offset_globals config.now (seen_by config.now spaces.now true) wide }
    ensures few { length result.now < 2 ^ 32 }
{
    if config.disallow_traps {
        return &[];
    }
    let globals = spaces.entities.globals;
    let visible = visible_end(config, spaces);
    &globals[..visible]
}

/// Returns whether an offset may be read from `global` if it is visible: of 64 bits if `wide` is
/// set, else of 32 bits.
fn tells_offset(global: GlobalType, wide: bool) -> bool
    ensures { result ≡ tells_offset wide global }
{
    if global.mutable {
        return false;
    }
    match global.val_type {
        ValType::I32 => !wide,
        ValType::I64 => wide,
        _ => false,
    }
}

/// Counts the globals in `globals` that an offset may be read from: of 64 bits if `wide` is set,
/// else of 32 bits.
fn count_telling(globals: &[GlobalType], wide: bool) -> usize
    ensures exact { result ≡ length (telling_from wide 0 globals.now) }
    ensures within { result ≤ length globals.now }
{
    let mut count = 0;
    for index in 0..globals.len() {
        if !tells_offset(globals[index], wide) {
            continue;
        }
        count += 1;
    }
    count
}

/// Finds the index of the global at `place` among the globals that [`count_telling`] counts.
/// Returns 0 past their end.
fn find_telling(globals: &[GlobalType], wide: bool, place: usize) -> u32
    requires { length globals.now < 2 ^ 32 }
    ensures { result ≡ slice_index_or (telling_from wide 0 globals.now) place 0 }
{
    let mut left = place;
    for index in 0..globals.len() {
        if !tells_offset(globals[index], wide) {
            continue;
        }
        if left == 0 {
            return index as u32;
        }
        left -= 1;
    }
    0
}
