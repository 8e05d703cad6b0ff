ghost use Rattle.std.specs.Prelude.{◌≡◌, ◌+◌, ◌*◌, ◌/◌, ◌<◌, ◌≤◌, ◌↔◌, ℕ, false, IsTrue, IfSome};
ghost use Rattle.std.specs.Prelude.{IfNone, IfOk, IfErr, OnOk, All, length, max, slice_index};
ghost use Rattle.smith_types.specs.Expressions.{Context};
ghost use Rattle.smith_types.specs.Subtyping.{IsValInRange};
ghost use Rattle.smith_types.specs.Types.{IsOrderly};
ghost use Rattle.smith_types.specs.Syntax.value_type.ValType.{ValType as Wanted};
ghost use Rattle.smith_draw_consts.specs.ConstOffers.{function_offers, global_offers};
ghost use Rattle.smith_draw_consts.specs.ConstScopes.{context_of, IsScope};
ghost use Rattle.smith_draw_consts.specs.KeptOffers.{AreAllRead, AreFewRead, AreFlags, AreItemsRead};
ghost use Rattle.smith_draw_consts.specs.KeptOffers.{AreKeptOffers, AreManyKept, HasReadAll, IsCounted};
ghost use Rattle.smith_draw_consts.specs.KeptOffers.{IsEntry, IsFor, IsKeptAt, IsKnown, IsTested};
ghost use Rattle.smith_draw_consts.specs.KeptOffers.{IsWhole, IsWholeAt, IsWiderOffer, MayOffer};
ghost use Rattle.smith_draw_consts.specs.KeptOffers.{AreWaysWhole, HasCountedWays, IsKeptWays};
ghost use Rattle.smith_draw_consts.specs.KeptOffers.{offered_before};
ghost use Rattle.smith_draw_consts.specs.declared.read_items.ReadItems.{ReadItems as Read};

use crate::block_counts::BlockCounts;
use crate::classes::{make_room, slot_of};
use crate::few_items::{FewItems, MOST};
use crate::kept_ways::{KeptTypes, KeptWays};
use crate::knowledge::Known;
use crate::read_items::ReadItems;
use crate::references::{is_offered, only_type, widest};
use crate::scope::Scope;
use smith_bytes::Error;
use smith_types::{Items, TypeSpace, ValType, is_same};
use std::alloc::Global;
use std::mem;

/// The globals and functions that have been read, and the counts of those offered for each wanted
/// type, with the ways to create values of it. All draws together look at each global and each
/// function once.
///
/// If there are few globals and functions, their types are recorded, and each draw tests these.
/// Nothing is counted or allocated. If there are few types, each draw tests them too.
///
/// If there are many, each is put into a class. A first draw of a type tests each class and counts
/// the items of the classes that are offered. Each later draw tests the classes of a few items at
/// most.
///
/// For a type of unshared references, a first draw counts only the globals near one that is offered
/// for the top of its hierarchy.
///
/// If there are many types, a first draw of a type of references tests each of them and counts the
/// ways to create a value by it. Each later draw tests a few types at most. So does each draw of a
/// reference to a type without subtypes, for which nothing is counted.
///
/// Initialisers of tables and of globals may share one value: an entry that has counted defined
/// globals is not used where only imported globals are visible.
#[derive(Drop)]
pub struct KeptOffers {
    // The types of the first globals and functions.
    few: FewItems,
    // The classes and counts, once there are many globals and functions.
    many: Option<ManyItems>,
    // The counts of the ways to create values, once there are many types.
    types: Option<KeptTypes>,
}

/// The classes of the globals and functions read so far, and an entry for each wanted type.
#[derive(Drop)]
pub(crate) struct ManyItems {
    kept: Vec<KeptOffer>,
    // The classes of the globals and functions.
    items: ReadItems,
    // The entry to try first for a type, at the position that `slot_of` gives.
    hints: Vec<u32>,
}

/// The counts of globals and functions offered for values of one type, among those read so far.
#[derive(Drop)]
pub(crate) struct KeptOffer {
    wanted: ValType,
    /// The counts of globals.
    pub globals: BlockCounts,
    /// The counts of functions.
    pub funcs: BlockCounts,
    // For each of the first classes of globals, whether its globals are offered.
    global_flags: Items<bool>,
    // For each of the first classes of functions, whether its functions are offered.
    func_flags: Items<bool>,
}

impl KeptOffers {
    /// Creates an empty record. Does not allocate.
    pub fn new() -> KeptOffers
        ensures { (context : Context) → AreKeptOffers context result }
    {
        KeptOffers {
            few: FewItems::new(),
            many: None,
            types: None,
        }
    }

    /// Reads the globals and functions of `scope` that have not been read and, if there are many,
    /// counts those that have not been counted for the type `wanted`. Returns the position of the
    /// entry for `wanted`, or 0 if nothing is counted.
    pub(crate) fn look(
        &mut self,
        alloc: Global,
        scope: &Scope<'_>,
        wanted: ValType,
    ) -> Result<usize, Error>
        requires scope { IsScope (context_of scope.now) }
        requires upper { IsValInRange (context_of scope.now).types wanted }
        requires kept { AreKeptOffers (context_of scope.now) self.old }
        ensures kept { OnOk result (AreKeptOffers (context_of scope.now) self.new) }
        ensures all { IfOk result (λ place.
            HasReadAll (context_of scope.now) wanted place self.new) }
        ensures memory { IfErr result (λ e. e ≡ Error.Memory) }
    {
        if self.many.is_none() {
            let entities = scope.spaces.entities;
            if scope.visible + entities.funcs.len() <= MOST {
                self.few.read(scope);
                return Ok(0);
            }
            drop(self.many.replace(ManyItems::new(alloc)));
        }
        match &mut self.many {
            Some(many) => many.look(alloc, scope, &self.few, wanted),
            None => unreachable!(),
        }
    }

    /// Returns what has been read, for the type whose entry is at `place`: the position that `look`
    /// returned.
    pub(crate) fn known_at(&self, place: usize) -> Known<'_>
        requires { (context : Context) × (wanted : Wanted)
            × HasReadAll context wanted place self.now }
        ensures { (context : Context) (wanted : Wanted) → HasReadAll context wanted place self.now
            → IsKnown context wanted result }
    {
        match &self.many {
            Some(many) => Known::Many(&many.items, &many.kept[place]),
            None => Known::Few(&self.few),
        }
    }

    /// Reads the types of `scope` that have not been read, if there are many, and counts the ways
    /// to create a value of the type `wanted`. Returns the position of the entry for `wanted`, or
    /// `None` if nothing is counted.
    pub(crate) fn look_at_types(
        &mut self,
        alloc: Global,
        scope: &Scope<'_>,
        wanted: ValType,
        fuel: u32,
    ) -> Result<Option<usize>, Error>
        requires scope { IsScope (context_of scope.now) }
        requires upper { IsValInRange (context_of scope.now).types wanted }
        requires kept { AreKeptOffers (context_of scope.now) self.old }
        ensures kept { OnOk result (AreKeptOffers (context_of scope.now) self.new) }
        ensures few { OnOk result (self.new.few ≡ self.old.few) }
        ensures many { OnOk result (self.new.many ≡ self.old.many) }
        ensures counted { IfOk result (λ place.
            HasCountedWays (context_of scope.now) wanted fuel place self.new.types) }
        ensures memory { IfErr result (λ e. e ≡ Error.Memory) }
    {
        if !are_counted(scope, wanted) {
            return Ok(None);
        }
        count_types(&mut self.types, alloc, scope, wanted, fuel)
    }

    /// Returns the counts of the entry at `place`: the position that `look_at_types` returned.
    pub(crate) fn ways_at(&self, place: Option<usize>) -> Option<&KeptWays>
        requires { (context : Context) × (wanted : Wanted) × (fuel : ℕ)
            × HasCountedWays context wanted fuel place self.now.types }
        ensures { (context : Context) (wanted : Wanted) (fuel : ℕ)
            → HasCountedWays context wanted fuel place self.now.types
            → IfSome result (λ ways. AreWaysWhole context wanted fuel ways.now) }
    {
        match (place, &self.types) {
            (Some(place), Some(types)) => Some(&types.entries[place]),
            _ => None,
        }
    }
}

/// Returns whether the ways to create a value of the type `wanted` are counted: it is a type of
/// references, there are many types, and values of more than one of them may be offered.
fn are_counted(scope: &Scope<'_>, wanted: ValType) -> bool
    requires { IsValInRange (context_of scope.now).types wanted }
{
    scope.config.gc_enabled
        && matches!(wanted, ValType::Ref(_))
        && scope.spaces.types.types().len() > MOST
        && only_type(scope, wanted).is_none()
}

/// Counts in `types` the ways to create a value of the type `wanted` by the types of `scope` that
/// have not been read. Returns the position of the entry for `wanted`.
fn count_types(
    types: &mut Option<KeptTypes>,
    alloc: Global,
    scope: &Scope<'_>,
    wanted: ValType,
    fuel: u32,
) -> Result<Option<usize>, Error>
    requires scope { IsScope (context_of scope.now) }
    requires upper { IsValInRange (context_of scope.now).types wanted }
    requires kept { IfSome types.old (λ kept.
        All (IsKeptWays (context_of scope.now)) kept.entries.items) }
    ensures kept { OnOk result (IfSome types.new (λ kept.
        All (IsKeptWays (context_of scope.now)) kept.entries.items)) }
    ensures counted { IfOk result (λ place.
        HasCountedWays (context_of scope.now) wanted fuel place types.new) }
    ensures memory { IfErr result (λ e. e ≡ Error.Memory) }
{
    if types.is_none() {
        drop(types.replace(KeptTypes::new(alloc)));
    }
    match types {
        Some(kept) => {
            let place = kept.look(alloc, scope, wanted, fuel)?;
            Ok(Some(place))
        }
        None => unreachable!(),
    }
}

impl ManyItems {
    /// Creates an empty record. Does not allocate.
    fn new(alloc: Global) -> ManyItems
        ensures { (context : Context) → AreManyKept context result }
    {
        ManyItems {
            kept: Vec::new(alloc),
            items: ReadItems::new(alloc),
            hints: Vec::new(alloc),
        }
    }

    /// Reads the globals and functions of `scope` that have not been read, the first ones from
    /// `few`, and counts those that have not been counted for the type `wanted`. Returns the
    /// position of the entry for `wanted`.
    fn look(
        &mut self,
        alloc: Global,
        scope: &Scope<'_>,
        few: &FewItems,
        wanted: ValType,
    ) -> Result<usize, Error>
        requires scope { IsScope (context_of scope.now) }
        requires upper { IsValInRange (context_of scope.now).types wanted }
        requires few { AreFewRead (context_of scope.now) few.now }
        requires kept { AreManyKept (context_of scope.now) self.old }
        ensures kept { OnOk result (AreManyKept (context_of scope.now) self.new) }
        ensures all { OnOk result (AreAllRead (context_of scope.now) self.new.items) }
        ensures counted { IfOk result (λ place.
            IsWholeAt (context_of scope.now) self.new.kept.items place wanted) }
        ensures memory { IfErr result (λ e. e ≡ Error.Memory) }
    {
        let place = self.place_of(alloc, wanted, scope.visible)?;
        self.items.read(scope, few)?;
        if self.kept[place].is_current(scope) {
            return Ok(place);
        }
        self.look_at(alloc, scope, wanted, place)?;
        Ok(place)
    }

    /// Counts the globals and functions of `scope` that have not been counted for the entry at
    /// `place`, which is for the type `wanted`.
    fn look_at(
        &mut self,
        alloc: Global,
        scope: &Scope<'_>,
        wanted: ValType,
        place: usize,
    ) -> Result<(), Error>
        requires scope { IsScope (context_of scope.now) }
        requires upper { IsValInRange (context_of scope.now).types wanted }
        requires kept { AreManyKept (context_of scope.now) self.old }
        requires read { AreAllRead (context_of scope.now) self.old.items }
        requires place { IsKeptAt self.old.kept.items place wanted scope.now.visible }
        ensures kept { OnOk result (AreManyKept (context_of scope.now) self.new) }
        ensures items { OnOk result (self.new.items ≡ self.old.items) }
        ensures counted { OnOk result
            (IsWholeAt (context_of scope.now) self.new.kept.items place wanted) }
        ensures memory { IfErr result (λ e. e ≡ Error.Memory) }
    {
        let Some(wider) = widest(scope.spaces.types, wanted) else {
            self.kept[place].look(scope, &self.items, None)?;
            return Ok(());
        };
        let source = self.place_of(alloc, wider, scope.visible)?;
        self.kept[source].look(scope, &self.items, None)?;
        let none = KeptOffer::new(alloc, wanted);
        let mut offer = mem::replace(&mut self.kept[place], none);
        offer.look(scope, &self.items, Some(&self.kept[source]))?;
        self.kept[place] = offer;
        Ok(())
    }

    /// Returns the position of the entry for the type `wanted` that has read no global past the
    /// first `visible`, and adds one if there is none.
    fn place_of(&mut self, alloc: Global, wanted: ValType, visible: usize) -> Result<usize, Error>
        ensures kept { (context : Context) → IsValInRange context.types wanted
            → AreManyKept context self.old → OnOk result (AreManyKept context self.new) }
        ensures items { OnOk result (self.new.items ≡ self.old.items) }
        ensures place { IfOk result (λ place.
            IsKeptAt self.new.kept.items place wanted visible) }
        ensures still { (at : ℕ) (other : Wanted) → IsKeptAt self.old.kept.items at other visible
            → OnOk result (IsKeptAt self.new.kept.items at other visible) }
        ensures memory { IfErr result (λ e. e ≡ Error.Memory) }
    {
        let slot = slot_of(Some(wanted));
        make_room(&mut self.hints, slot)?;
        let hint = self.hints[slot] as usize;
        let place = find_or_begin(&mut self.kept, alloc, wanted, visible, hint)?;
        self.hints[slot] = place.min(u32::MAX as usize) as u32;
        Ok(place)
    }
}

/// Returns the position of the entry in `kept` for the type `wanted` that has read no global past
/// the first `visible`, and adds one if there is none. Tests the entry at `hint` first.
fn find_or_begin(
    kept: &mut Vec<KeptOffer>,
    alloc: Global,
    wanted: ValType,
    visible: usize,
    hint: usize,
) -> Result<usize, Error>
    ensures kept { (context : Context) (items : Read) → IsValInRange context.types wanted
        → All (IsEntry context items) kept.old.items
        → OnOk result (All (IsEntry context items) kept.new.items) }
    ensures place { IfOk result (λ place. IsKeptAt kept.new.items place wanted visible) }
    ensures still { (at : ℕ) (other : Wanted) → IsKeptAt kept.old.items at other visible
        → OnOk result (IsKeptAt kept.new.items at other visible) }
    ensures memory { IfErr result (λ e. e ≡ Error.Memory) }
{
    if is_entry_at(kept.as_slice(), hint, wanted, visible) {
        return Ok(hint);
    }
    if let Some(place) = find(kept.as_slice(), wanted, visible) {
        return Ok(place);
    }
    let place = kept.len();
    kept.push(KeptOffer::new(alloc, wanted))?;
    Ok(place)
}

/// Returns whether the entry at `place` exists, is for the type `wanted`, and has read no global
/// past the first `visible`.
fn is_entry_at(kept: &[KeptOffer], place: usize, wanted: ValType, visible: usize) -> bool
    ensures { IsTrue result → IsKeptAt kept.now place wanted visible }
{
    match kept.get(place) {
        Some(found) => found.is_for(wanted, visible),
        None => false,
    }
}

/// Returns the position of the entry in `kept` for the type `wanted` that has read no global past
/// the first `visible`, if there is one.
fn find(kept: &[KeptOffer], wanted: ValType, visible: usize) -> Option<usize>
    ensures found { IfSome result (λ place. IsKeptAt kept.now place wanted visible) }
    ensures none { IfNone result (All (λ offer. ¬ IsFor wanted visible offer) kept.now) }
{
    for place in 0..kept.len() {
        if kept[place].is_for(wanted, visible) {
            return Some(place);
        }
    }
    None
}

/// Returns whether a global from the index `first` up to `end` may be offered: `wider`, an entry
/// for a wider type, does not exclude them. They belong to one block.
fn may_offer(wider: Option<&KeptOffer>, first: usize, end: usize) -> bool
    requires { first < end × end ≤ 8 * (first / 8 + 1) }
    ensures none { (before : ℕ → ℕ)
        → IfSome wider.entry (λ offer. IsCounted before offer.now.globals)
        → ((m n : ℕ) → m ≤ n → before m ≤ before n)
        → result ≡ false → before end ≡ before first }
    ensures some { (before : ℕ → ℕ) → IfSome wider.entry (λ offer.
        IsCounted before offer.now.globals
        → IsTrue result → MayOffer before offer.now.globals first end) }
{
    match wider {
        Some(wider) => wider.globals.may_offer(first, end),
        None => true,
    }
}

/// Appends to `flags` whether each class that has no flag is offered for the type `wanted`.
fn test_kinds(
    types: &TypeSpace,
    kinds: &[Option<ValType>],
    wanted: ValType,
    flags: &mut Items<bool>,
) -> Result<(), Error>
    requires lower { All (λ kind. IfSome kind (IsValInRange types.now.types)) kinds.now }
    requires upper { IsValInRange types.now.types wanted }
    requires flags { AreFlags types.now.types wanted kinds.now flags.old }
    ensures flags { OnOk result (AreFlags types.now.types wanted kinds.now flags.new) }
    ensures all { OnOk result (length flags.new ≡ length kinds.now) }
    ensures memory { IfErr result (λ e. e ≡ Error.Memory) }
{
    for index in flags.len()..kinds.len() {
        flags.push(is_offered(types, kinds[index], wanted))?;
    }
    Ok(())
}

impl KeptOffer {
    /// Creates an entry for the type `wanted`, with no global and no function read.
    fn new(alloc: Global, wanted: ValType) -> KeptOffer
        ensures kept { (context : Context) (items : Read) → IsValInRange context.types wanted
            → IsEntry context items result }
        ensures wanted { result.wanted ≡ wanted }
        ensures none { result.globals.seen ≡ 0 }
    {
        KeptOffer {
            wanted,
            globals: BlockCounts::new(alloc),
            funcs: BlockCounts::new(alloc),
            global_flags: Items::new(alloc),
            func_flags: Items::new(alloc),
        }
    }

    /// Returns whether this is the entry for the type `wanted`, and has read no global past the
    /// first `visible`.
    fn is_for(&self, wanted: ValType, visible: usize) -> bool
        ensures { IsTrue result ↔ IsFor wanted visible self.now }
    {
        is_same(&self.wanted, &wanted) && self.globals.seen <= visible
    }

    /// Returns whether this entry covers the globals and functions of `scope`.
    fn is_current(&self, scope: &Scope<'_>) -> bool
        ensures { IsTrue result ↔ ((self.now.globals.seen ≡ scope.now.visible)
            × (self.now.funcs.seen ≡ length (context_of scope.now).funcs)) }
    {
        let entities = scope.spaces.entities;
        self.globals.seen == scope.visible && self.funcs.seen == entities.funcs.len()
    }

    /// Counts the globals and functions of `scope` that have not been counted, by the classes in
    /// `items`. Passes over the globals that `wider`, an entry for a wider type, excludes.
    fn look(
        &mut self,
        scope: &Scope<'_>,
        items: &ReadItems,
        wider: Option<&KeptOffer>,
    ) -> Result<(), Error>
        requires scope { IsScope (context_of scope.now) }
        requires read { AreAllRead (context_of scope.now) items.now }
        requires kept { IsEntry (context_of scope.now) items.now self.old }
        requires visible { self.old.globals.seen ≤ scope.now.visible }
        requires wider { IfSome wider (λ offer.
            IsWiderOffer (context_of scope.now) self.old.wanted offer.now) }
        ensures kept { OnOk result (IsEntry (context_of scope.now) items.now self.new) }
        ensures wanted { OnOk result (self.new.wanted ≡ self.old.wanted) }
        ensures counted { OnOk result
            (IsWhole (context_of scope.now) self.old.wanted self.new) }
        ensures memory { IfErr result (λ e. e ≡ Error.Memory) }
    {
        self.test(scope, items)?;
        self.look_at_globals(scope, items, wider)?;
        self.look_at_funcs(scope, items)?;
        Ok(())
    }

    /// Tests each class in `items` that has not been tested.
    fn test(&mut self, scope: &Scope<'_>, items: &ReadItems) -> Result<(), Error>
        requires read { AreItemsRead (context_of scope.now) items.now }
        requires kept { IsEntry (context_of scope.now) items.now self.old }
        ensures kept { OnOk result (IsEntry (context_of scope.now) items.now self.new) }
        ensures tested { OnOk result (IsTested items.now self.new) }
        ensures wanted { OnOk result (self.new.wanted ≡ self.old.wanted) }
        ensures globals { OnOk result (self.new.globals ≡ self.old.globals) }
        ensures memory { IfErr result (λ e. e ≡ Error.Memory) }
    {
        let types = scope.spaces.types;
        let kinds = items.globals.kinds.as_slice();
        test_kinds(types, kinds, self.wanted, &mut self.global_flags)?;
        let kinds = items.funcs.kinds.as_slice();
        test_kinds(types, kinds, self.wanted, &mut self.func_flags)
    }

    /// Counts the globals of `scope` that have not been counted, a block at a time. Passes over
    /// those that `wider`, if given, excludes: an entry for a wider type.
    fn look_at_globals(
        &mut self,
        scope: &Scope<'_>,
        items: &ReadItems,
        wider: Option<&KeptOffer>,
    ) -> Result<(), Error>
        requires scope { IsScope (context_of scope.now) }
        requires read { AreAllRead (context_of scope.now) items.now }
        requires kept { IsEntry (context_of scope.now) items.now self.old }
        requires tested { IsTested items.now self.old }
        requires wider { IfSome wider (λ offer.
            IsWiderOffer (context_of scope.now) self.old.wanted offer.now) }
        ensures kept { OnOk result (IsEntry (context_of scope.now) items.now self.new) }
        ensures tested { OnOk result (IsTested items.now self.new) }
        ensures wanted { OnOk result (self.new.wanted ≡ self.old.wanted) }
        ensures all { OnOk result
            (self.new.globals.seen ≡ max self.old.globals.seen scope.now.visible) }
        ensures memory { IfErr result (λ e. e ≡ Error.Memory) }
    {
        while self.globals.seen < scope.visible {
            let first = self.globals.seen;
            let end = self.globals.block_end().min(scope.visible);
            let offered = self.count_globals(items, first, end, wider);
            self.globals.read_to(end, offered)?;
        }
        Ok(())
    }

    /// Returns the number of globals from the index `first` up to `end` that are offered. Returns 0
    /// at once if `wider`, an entry for a wider type, excludes them. They belong to one block.
    fn count_globals(
        &self,
        items: &ReadItems,
        first: usize,
        end: usize,
        wider: Option<&KeptOffer>,
    ) -> usize
        requires one_block { first < end × end ≤ 8 * (first / 8 + 1) }
        requires read { end ≤ length items.now.globals.of }
        requires flags { (i : ℕ) → i < length items.now.globals.of
            → slice_index items.now.globals.of i < length self.now.global_flags }
        ensures { (context : Context) → IsOrderly context.types → AreItemsRead context items.now
            → IsEntry context items.now self.now
            → IfSome wider.entry (λ offer. IsWiderOffer context self.now.wanted offer.now)
            → offered_before (global_offers context self.now.wanted) context.globals end
            ≡ offered_before (global_offers context self.now.wanted) context.globals first
            + result }
    {
        if !may_offer(wider, first, end) {
            return 0;
        }
        let flags = self.global_flags.as_slice();
        items.globals.count(flags, first, end)
    }

    /// Counts the functions of `scope` that have not been counted, a block at a time.
    fn look_at_funcs(&mut self, scope: &Scope<'_>, items: &ReadItems) -> Result<(), Error>
        requires scope { IsScope (context_of scope.now) }
        requires read { AreAllRead (context_of scope.now) items.now }
        requires kept { IsEntry (context_of scope.now) items.now self.old }
        requires tested { IsTested items.now self.old }
        ensures kept { OnOk result (IsEntry (context_of scope.now) items.now self.new) }
        ensures wanted { OnOk result (self.new.wanted ≡ self.old.wanted) }
        ensures globals { OnOk result (self.new.globals ≡ self.old.globals) }
        ensures all { OnOk result
            (self.new.funcs.seen ≡ length (context_of scope.now).funcs) }
        ensures memory { IfErr result (λ e. e ≡ Error.Memory) }
    {
        let entities = scope.spaces.entities;
        while self.funcs.seen < entities.funcs.len() {
            let first = self.funcs.seen;
            let end = self.funcs.block_end().min(entities.funcs.len());
            let offered = items.funcs.count(self.func_flags.as_slice(), first, end);
            self.funcs.read_to(end, offered)?;
        }
        Ok(())
    }
}
