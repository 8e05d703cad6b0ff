ghost use Rattle.std.specs.Prelude.{◌≡◌, ◌+◌, ◌<◌, ◌≤◌, IsTrue, IfOk, IfErr, OnOk, All, length};
ghost use Rattle.smith_types.specs.Expressions.{Context};
ghost use Rattle.smith_types.specs.Subtyping.{IsValInRange};
ghost use Rattle.smith_types.specs.Syntax.value_type.ValType.{ValType as Wanted};
ghost use Rattle.smith_draw_consts.specs.ConstOffers.{type_offers, ways_by};
ghost use Rattle.smith_draw_consts.specs.ConstScopes.{context_of, IsScope};
ghost use Rattle.smith_draw_consts.specs.KeptOffers.{AreAllCounted, AreWaysCounted, AreWaysFor};
ghost use Rattle.smith_draw_consts.specs.KeptOffers.{AreWaysWhole, AreWaysWholeAt, IsKeptWays};
ghost use Rattle.smith_draw_consts.specs.KeptOffers.{offered_before};

use crate::block_counts::BlockCounts;
use crate::classes::{make_room, slot_of};
use crate::offers::past_type;
use crate::scope::Scope;
use smith_bytes::Error;
use smith_types::{CompositeInnerType, ValType, is_same};
use std::alloc::Global;

/// The number of entries for which there is always room.
const LEAST_ENTRIES: usize = 32;

/// The number of types that all entries together may have read before entries are replaced.
const MOST_READ: usize = 1 << 23;

/// The ways to create values by struct types and array types, counted for each wanted type.
#[derive(Drop)]
pub(crate) struct KeptTypes {
    /// The entries, each for another wanted type.
    pub entries: Vec<KeptWays>,
    // The entry to try first for a type, at the position that `slot_of` gives.
    hints: Vec<u32>,
}

/// The ways to create values of one type, counted by the types that have been read.
#[derive(Drop)]
pub(crate) struct KeptWays {
    wanted: ValType,
    // The ways without fuel, which are by struct types alone.
    bare_structs: BlockCounts,
    // The ways by struct types with fuel.
    structs: BlockCounts,
    // The ways by array types with fuel.
    arrays: BlockCounts,
}

impl KeptTypes {
    /// Creates an empty record. Does not allocate.
    pub fn new(alloc: Global) -> KeptTypes
        ensures { (context : Context) → All (IsKeptWays context) result.entries.items }
    {
        KeptTypes {
            entries: Vec::new(alloc),
            hints: Vec::new(alloc),
        }
    }

    /// Reads the types of `scope` that have not been read for the type `wanted`. Returns the
    /// position of the entry for `wanted`.
    pub fn look(
        &mut self,
        alloc: Global,
        scope: &Scope<'_>,
        wanted: ValType,
        fuel: u32,
    ) -> Result<usize, Error>
        requires scope { IsScope (context_of scope.now) }
        requires upper { IsValInRange (context_of scope.now).types wanted }
        requires kept { All (IsKeptWays (context_of scope.now)) self.old.entries.items }
        ensures kept { OnOk result
            (All (IsKeptWays (context_of scope.now)) self.new.entries.items) }
        ensures counted { IfOk result (λ place.
            AreWaysWholeAt (context_of scope.now) self.new.entries.items place wanted fuel) }
        ensures memory { IfErr result (λ e. e ≡ Error.Memory) }
    {
        let types = scope.spaces.types.types().len();
        let place = self.place_of(alloc, wanted, types)?;
        self.entries[place].look(scope, fuel)?;
        Ok(place)
    }

    /// Returns the position of the entry for the type `wanted`, and begins one if none is found. At
    /// most `types` types will be read for it.
    fn place_of(&mut self, alloc: Global, wanted: ValType, types: usize) -> Result<usize, Error>
        ensures kept { (context : Context) → IsValInRange context.types wanted
            → All (IsKeptWays context) self.old.entries.items
            → OnOk result (All (IsKeptWays context) self.new.entries.items) }
        ensures place { IfOk result (λ place. AreWaysFor self.new.entries.items place wanted) }
        ensures memory { IfErr result (λ e. e ≡ Error.Memory) }
    {
        let slot = slot_of(Some(wanted));
        make_room(&mut self.hints, slot)?;
        let hint = self.hints[slot] as usize;
        if is_for(self.entries.as_slice(), hint, wanted) {
            return Ok(hint);
        }
        let place = begin_entry(&mut self.entries, alloc, wanted, types, slot)?;
        self.hints[slot] = place.min(u32::MAX as usize) as u32;
        Ok(place)
    }
}

/// Adds an entry for the type `wanted` to `entries`, for which at most `types` types will be read.
/// If all entries together may have read too many, this one replaces another, as chosen by `slot`.
/// Returns its position.
fn begin_entry(
    entries: &mut Vec<KeptWays>,
    alloc: Global,
    wanted: ValType,
    types: usize,
    slot: usize,
) -> Result<usize, Error>
    ensures kept { (context : Context) → IsValInRange context.types wanted
        → All (IsKeptWays context) entries.old.items
        → OnOk result (All (IsKeptWays context) entries.new.items) }
    ensures place { IfOk result (λ place. AreWaysFor entries.new.items place wanted) }
    ensures memory { IfErr result (λ e. e ≡ Error.Memory) }
{
    let count = entries.len();
    if count < LEAST_ENTRIES || count < MOST_READ / types.max(1) {
        entries.push(KeptWays::new(alloc, wanted))?;
        return Ok(count);
    }
    let place = slot % count;
    entries[place] = KeptWays::new(alloc, wanted);
    Ok(place)
}

/// Returns whether the entry at `place` exists and is for the type `wanted`.
fn is_for(entries: &[KeptWays], place: usize, wanted: ValType) -> bool
    ensures { IsTrue result → AreWaysFor entries.now place wanted }
{
    match entries.get(place) {
        Some(found) => is_same(&found.wanted, &wanted),
        None => false,
    }
}

impl KeptWays {
    /// Creates an entry for the type `wanted`, with no type read.
    fn new(alloc: Global, wanted: ValType) -> KeptWays
        ensures kept { (context : Context) → IsValInRange context.types wanted
            → IsKeptWays context result }
        ensures wanted { result.wanted ≡ wanted }
    {
        KeptWays {
            wanted,
            bare_structs: BlockCounts::new(alloc),
            structs: BlockCounts::new(alloc),
            arrays: BlockCounts::new(alloc),
        }
    }

    /// Reads the types of `scope` that have not been read, for an expression with the fuel `fuel`.
    fn look(&mut self, scope: &Scope<'_>, fuel: u32) -> Result<(), Error>
        requires scope { IsScope (context_of scope.now) }
        requires kept { IsKeptWays (context_of scope.now) self.old }
        ensures kept { OnOk result (IsKeptWays (context_of scope.now) self.new) }
        ensures counted { OnOk result
            (AreWaysWhole (context_of scope.now) self.old.wanted fuel self.new) }
        ensures memory { IfErr result (λ e. e ≡ Error.Memory) }
    {
        if fuel == 0 {
            read_types(scope, self.wanted, 0, false, &mut self.bare_structs)?;
            return Ok(());
        }
        read_types(scope, self.wanted, 1, false, &mut self.structs)?;
        read_types(scope, self.wanted, 1, true, &mut self.arrays)?;
        Ok(())
    }

    /// Returns the counts of the ways with the fuel `fuel`, by struct types, or by array types if
    /// `arrays` is `true`.
    pub fn counts(&self, fuel: u32, arrays: bool) -> &BlockCounts
        requires { IsTrue arrays → 0 < fuel }
        ensures { (context : Context) (wanted : Wanted)
            → AreWaysWhole context wanted fuel self.now
            → AreAllCounted context wanted fuel arrays result.now }
    {
        if arrays {
            return &self.arrays;
        }
        if fuel == 0 {
            return &self.bare_structs;
        }
        &self.structs
    }
}

/// Reads the types of `scope` that have not been read into `counts`, which count the ways to create
/// a value of the type `wanted`, a block at a time.
fn read_types(
    scope: &Scope<'_>,
    wanted: ValType,
    fuel: u32,
    arrays: bool,
    counts: &mut BlockCounts,
) -> Result<(), Error>
    requires scope { IsScope (context_of scope.now) }
    requires upper { IsValInRange (context_of scope.now).types wanted }
    requires counted { AreWaysCounted (context_of scope.now) wanted fuel arrays counts.old }
    ensures counted { OnOk result
        (AreWaysCounted (context_of scope.now) wanted fuel arrays counts.new) }
    ensures all { OnOk result
        (AreAllCounted (context_of scope.now) wanted fuel arrays counts.new) }
    ensures memory { IfErr result (λ e. e ≡ Error.Memory) }
{
    let types = scope.spaces.types.types();
    while counts.seen < types.len() {
        let first = counts.seen;
        let end = counts.block_end().min(types.len());
        let ways = count_ways(scope, wanted, fuel, arrays, first, end);
        counts.read_to(end, ways)?;
    }
    Ok(())
}

/// Counts the ways to create a value of the type `wanted` by the types from the index `first` up to
/// `end`.
fn count_ways(
    scope: &Scope<'_>,
    wanted: ValType,
    fuel: u32,
    arrays: bool,
    first: usize,
    end: usize,
) -> usize
    requires scope { IsScope (context_of scope.now) }
    requires upper { IsValInRange (context_of scope.now).types wanted }
    requires there { first ≤ end × end ≤ length (context_of scope.now).types }
    ensures { offered_before (ways_by (context_of scope.now) wanted fuel arrays)
        (context_of scope.now).types end
        ≡ offered_before (ways_by (context_of scope.now) wanted fuel arrays)
        (context_of scope.now).types first + result }
{
    let types = scope.spaces.types.types();
    let mut count = 0;
    for index in first..end {
        let inner = &types[index].composite_type.inner;
        count += count_ways_by(scope, wanted, fuel, arrays, index as u32, inner);
    }
    count
}

/// Counts the ways to create a value of the type `wanted` by the type `inner` with the index
/// `index`.
fn count_ways_by(
    scope: &Scope<'_>,
    wanted: ValType,
    fuel: u32,
    arrays: bool,
    index: u32,
    inner: &CompositeInnerType,
) -> usize
    requires there { index < length (context_of scope.now).types }
    requires upper { IsValInRange (context_of scope.now).types wanted }
    ensures count { result
        ≡ length (type_offers (context_of scope.now) wanted fuel arrays index inner.now) }
    ensures few { result ≤ 3 }
{
    match past_type(scope, wanted, fuel, arrays, index, inner, usize::MAX) {
        Ok(rest) => usize::MAX - rest,
        Err(_) => usize::MAX,
    }
}
