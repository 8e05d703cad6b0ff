ghost use Rattle.std.specs.Prelude.{◌≡◌, ℕ, ◌≤◌, ◌<◌, ◌+◌, ◌-◌, ◌^◌, ◌++◌, ◌∷◌, [], true, false};
ghost use Rattle.std.specs.Prelude.{length, take, drop, Some, slice_get, slice_index_or, IsTrue};
ghost use Rattle.std.specs.Prelude.{OnOk, OnErr, IfOk, IfErr, All};
ghost use Rattle.smith_bytes.specs.Source.{KeepsPieces};
ghost use Rattle.smith_bytes.specs.Takes.{Takes};
ghost use Rattle.smith_types.specs.Expressions.{Context};
ghost use Rattle.smith_types.specs.Floats.{HasNoFloat};
ghost use Rattle.smith_types.specs.Grown.{Extends};
ghost use Rattle.smith_types.specs.GroupedTypes.{MayFollow};
ghost use Rattle.smith_types.specs.ValidTypes.{AreTypesValid};
ghost use Rattle.smith_config.specs.Features.{features_of};
ghost use Rattle.smith_config.specs.Sanitized.{IsSanitized};
ghost use Rattle.smith_config.specs.Shapes.{space_of};
ghost use Rattle.smith_draw_types.specs.Callers.{PassesButImports};
ghost use Rattle.smith_draw_types.specs.HeldFields.{HoldsNonNullableField, HoldsUngroundedField};
ghost use Rattle.smith_draw_types.specs.Drawing.{AlwaysDraws, Draws, DrawsInto};
ghost use Rattle.smith_draw_types.specs.FuncSizes.{HasFewValues};
ghost use Rattle.smith_config.specs.Granted.{AreTypesGranted};
ghost use Rattle.smith_draw_types.specs.Grounding.{functions_in, functions_of, over};
ghost use Rattle.smith_draw_types.specs.KeptGrounds.{AreEarlyGrounds};
ghost use Rattle.smith_draw_types.specs.RecGroups.{
  types_left,
  types_until_at,
  group_size_at,
  new_group_at,
  may_be_cloned,
  clone_rec_group_at,
  clone_wanted_at,
  rec_group_at,
  least_types_at,
  more_types_at,
  types_at,
};
ghost use Rattle.smith_draw_types.specs.Spelling.{IsRoot, SpellsAdded, SpellsSpace};

use crate::early_grounds::EarlyGrounds;
use crate::spaces::Entities;
use crate::sub_type::draw_sub_type;
use smith_bytes::{Error, Unstructured};
use smith_config::Config;
use smith_types::{SubType, TypeSpace};
use std::alloc::Global;
use std::ops::Range;

/// Adds the type `added` at the end of `types` and returns its index. See the standard, section
/// Structure, Recursive Types.
///
/// Requires [`TypeSpace::may_follow`] to hold for `added`: its declared supertype, if any, exists
/// in `types` and has the same kind and sharedness, and `types` has fewer than 2^32 - 1 types.
pub fn add_type(types: &mut TypeSpace, added: SubType) -> Result<u32, Error>
    requires { MayFollow types.old.types added }
    ensures ok { OnOk result
        (types.new ≡ record types.old { types = types.old.types ++ added ∷ [] }) }
    ensures index { IfOk result (λ index. index ≡ length types.old.types) }
    ensures stands { IfOk result (λ index. slice_get types.new.types index ≡ Some added) }
    ensures err { OnErr result (types.new ≡ types.old) }
    ensures memory { IfErr result (λ e. e ≡ Error.Memory) }
{
    types.push_type(added)
}

/// Adds drawn types to `types` until there are `limit` types.
#[tactic(auto, unfolding(crate::specs::RecGroups::types_until_at))]
fn add_types(
    alloc: Global,
    config: &Config,
    types: &mut TypeSpace,
    grounds: &EarlyGrounds<'_>,
    limit: u32,
    u: &mut Unstructured<'_>,
) -> Result<(), Error>
    requires few { limit + 1 < 2 ^ 32 }
    requires grounds { AreEarlyGrounds
        (over (functions_of config.now grounds.now) types.old.types) grounds.now }
    ensures draws { DrawsInto (types_until_at config.now
        (functions_of config.now grounds.now) limit types.old.types u.old)
        types.new.types result u.old u.new }
    ensures groups { OnOk result (types.new.groups ≡ types.old.groups) }
    ensures grown { OnOk result (Extends types.old.types types.new.types) }
{
    for made in types.types().len()..limit as usize {
        let added = draw_sub_type(alloc, config, types, grounds, limit, u)?;
        add_type(types, added)?;
    }
    Ok(())
}

fn draw_group_size(
    config: &Config,
    allow_empty: bool,
    most: usize,
    u: &mut Unstructured<'_>,
) -> usize
    requires { 0 < most }
    ensures draws { AlwaysDraws (group_size_at config.now allow_empty most u.old)
        result u.old u.new }
    ensures within { result ≤ most }
{
    if !config.gc_enabled {
        return 1;
    }
    let least = if allow_empty { 0 } else { 1 };
    u.int_in_range(least..=most)
}

/// Adds a new group to `types`, which may be empty only if `allow_empty` is `true`.
#[tactic(auto, unfolding(crate::specs::RecGroups::new_group_at))]
fn add_new_group(
    alloc: Global,
    config: &Config,
    types: &mut TypeSpace,
    grounds: &EarlyGrounds<'_>,
    allow_empty: bool,
    u: &mut Unstructured<'_>,
) -> Result<(), Error>
    requires room { length types.old.types < config.now.max_types }
    requires few { config.now.max_types ≤ 2 ^ 31 }
    requires grounds { AreEarlyGrounds
        (over (functions_of config.now grounds.now) types.old.types) grounds.now }
    ensures draws { DrawsInto
        (new_group_at config.now (functions_of config.now grounds.now) allow_empty types.old u.old)
        types.new result u.old u.new }
    ensures grown { OnOk result (Extends types.old.types types.new.types) }
{
    let start = types.types().len();
    let size = draw_group_size(config, allow_empty, config.max_types - start, u);
    types.reserve(size)?;
    add_types(alloc, config, types, grounds, (start + size) as u32, u)?;
    types.push_group()?;
    Ok(())
}

/// Adds copies of the types `start..end` to `types`.
fn add_copies(alloc: Global, types: &mut TypeSpace, start: usize, end: usize) -> Result<(), Error>
    requires ordered { start ≤ end }
    requires inside { end ≤ length types.old.types }
    requires few { length types.old.types + (end - start) + 1 < 2 ^ 32 }
    ensures exact { OnOk result (types.new ≡ record types.old {
      types = types.old.types ++ take (end - start) (drop start types.old.types);
    }) }
    ensures memory { IfErr result (λ e. e ≡ Error.Memory) }
{
    for index in start..end {
        let copy = types.types()[index].clone(alloc)?;
        add_type(types, copy)?;
    }
    Ok(())
}

/// Returns the group at `place` among the groups of `types`.
fn group_at(types: &TypeSpace, place: usize) -> Range<usize>
    requires { place < length types.now.groups }
    ensures value { result ≡ slice_index_or types.now.groups place (record { start = 0; end = 0 }) }
    ensures ordered { result.start ≤ result.end }
    ensures inside { result.end ≤ length types.now.types }
{
    let _types = types.types();
    let group = &types.rec_groups()[place];
    group.start..group.end
}

/// Returns whether a clone of `group` may be added to `types`.
fn may_be_cloned(
    config: &Config,
    types: &TypeSpace,
    allow_empty: bool,
    group: &Range<usize>,
) -> bool
    requires { group.now.start ≤ group.now.end }
    ensures { result ≡ may_be_cloned config.now allow_empty types.now group.now }
{
    let room = config.max_types.saturating_sub(types.types().len());
    (allow_empty || group.start < group.end) && group.end - group.start <= room
}

/// Chooses a group of `types` and adds a clone of it, if it fits. Returns whether a clone was
/// added.
#[tactic(auto, unfolding(crate::specs::RecGroups::clone_rec_group_at, crate::specs::Choices::chosen_at))]
fn clone_group(
    alloc: Global,
    config: &Config,
    types: &mut TypeSpace,
    allow_empty: bool,
    u: &mut Unstructured<'_>,
) -> Result<bool, Error>
    requires some { 0 < length types.old.groups }
    requires room { length types.old.types < config.now.max_types }
    requires few { config.now.max_types ≤ 2 ^ 31 }
    ensures exact { IfOk result (λ added.
        clone_rec_group_at config.now allow_empty types.old u.old ≡ (added, (types.new, u.new))) }
    ensures kept { IfOk result (λ added. added ≡ false → types.new ≡ types.old) }
    ensures grown { OnOk result (Extends types.old.types types.new.types) }
    ensures memory { IfErr result (λ e. e ≡ Error.Memory) }
    ensures left { KeepsPieces u.old u.new }
{
    let place = u.int_in_range(0..=types.rec_groups().len() - 1);
    let group = group_at(types, place);
    if !may_be_cloned(config, types, allow_empty, &group) {
        return Ok(false);
    }
    add_copies(alloc, types, group.start, group.end)?;
    types.push_group()?;
    Ok(true)
}

/// Draws whether to clone a group of `types`.
fn is_clone_wanted(config: &Config, types: &TypeSpace, u: &mut Unstructured<'_>) -> bool
    ensures draws { AlwaysDraws (clone_wanted_at config.now types.now u.old) result u.old u.new }
    ensures some { IsTrue result → 0 < length types.now.groups }
{
    if !config.gc_enabled || types.rec_groups().len() == 0 {
        return false;
    }
    u.ratio(1u32, 255)
}

/// Adds a clone or a new group, as drawn. If the clone does not fit, adds a new group, or nothing
/// if `allow_empty` is `true`.
#[tactic(auto, unfolding(crate::specs::RecGroups::rec_group_at))]
fn add_rec_group(
    alloc: Global,
    config: &Config,
    types: &mut TypeSpace,
    grounds: &EarlyGrounds<'_>,
    allow_empty: bool,
    u: &mut Unstructured<'_>,
) -> Result<(), Error>
    requires room { length types.old.types < config.now.max_types }
    requires few { config.now.max_types ≤ 2 ^ 31 }
    requires grounds { AreEarlyGrounds
        (over (functions_of config.now grounds.now) types.old.types) grounds.now }
    ensures draws { DrawsInto
        (rec_group_at config.now (functions_of config.now grounds.now) allow_empty types.old u.old)
        types.new result u.old u.new }
    ensures grown { OnOk result (Extends types.old.types types.new.types) }
{
    if !is_clone_wanted(config, types, u) {
        return add_new_group(alloc, config, types, grounds, allow_empty, u);
    }
    let added = clone_group(alloc, config, types, allow_empty, u)?;
    if added || allow_empty {
        return Ok(());
    }
    add_new_group(alloc, config, types, grounds, allow_empty, u)
}

/// Adds groups while `types` has too few types.
fn add_least_types(
    alloc: Global,
    config: &Config,
    types: &mut TypeSpace,
    grounds: &EarlyGrounds<'_>,
    u: &mut Unstructured<'_>,
) -> Result<(), Error>
    requires ordered { config.now.min_types ≤ config.now.max_types }
    requires few { config.now.max_types ≤ 2 ^ 31 }
    requires grounds { AreEarlyGrounds
        (over (functions_of config.now grounds.now) types.old.types) grounds.now }
    ensures draws { DrawsInto (least_types_at config.now
        (functions_of config.now grounds.now) config.now.min_types types.old u.old)
        types.new result u.old u.new }
    ensures grown { OnOk result (Extends types.old.types types.new.types) }
{
    while types.types().len() < config.min_types {
        add_rec_group(alloc, config, types, grounds, false, u)?;
    }
    Ok(())
}

/// Adds groups while `types` may have more types and a drawn bool is true.
fn add_more_types(
    alloc: Global,
    config: &Config,
    types: &mut TypeSpace,
    grounds: &EarlyGrounds<'_>,
    u: &mut Unstructured<'_>,
) -> Result<(), Error>
    requires few { config.now.max_types ≤ 2 ^ 31 }
    requires grounds { AreEarlyGrounds
        (over (functions_of config.now grounds.now) types.old.types) grounds.now }
    ensures { DrawsInto (more_types_at config.now (functions_of config.now grounds.now)
        (length u.old + 1) types.old u.old) types.new result u.old u.new }
{
    while types.types().len() < config.max_types {
        if !u.arbitrary::<bool>() {
            return Ok(());
        }
        add_rec_group(alloc, config, types, grounds, true, u)?;
    }
    Ok(())
}

#[tactic(auto, unfolding(crate::specs::RecGroups::types_at))]
fn add_all_types(
    alloc: Global,
    config: &Config,
    types: &mut TypeSpace,
    entities: &Entities<'_>,
    u: &mut Unstructured<'_>,
) -> Result<(), Error>
    requires ordered { config.now.min_types ≤ config.now.max_types }
    requires few { config.now.max_types ≤ 2 ^ 31 }
    ensures { DrawsInto (types_at config.now (functions_in config.now entities.now) types.old u.old)
        types.new result u.old u.new }
{
    let grounds = EarlyGrounds::of(alloc, config, types, entities)?;
    add_least_types(alloc, config, types, &grounds, u)?;
    add_more_types(alloc, config, types, &grounds, u)
}

/// Chooses a group of `types` and adds a clone of it. Returns whether a clone was added. See the
/// standard, section Structure, Recursive Types.
///
/// No clone is added if the group is empty and `allow_empty` is `false`, or if `types` would have
/// more types than `config` permits. Valid types stay valid.
///
/// Requires `config` to pass its check, possibly except for the pair of `min_imports` and
/// `max_imports`. Requires `types` to have a group, and fewer types than `config` permits.
pub fn clone_rec_group(
    alloc: Global,
    config: &Config,
    types: &mut TypeSpace,
    _entities: &Entities<'_>,
    allow_empty: bool,
    u: &mut Unstructured<'_>,
) -> Result<bool, Error>
    requires passes { PassesButImports config.now }
    requires room { length types.old.types < config.now.max_types }
    requires some { 0 < length types.old.groups }

    // The draw.
    ensures exact { IfOk result (λ added.
        clone_rec_group_at config.now allow_empty types.old u.old ≡ (added, (types.new, u.new))) }

    // The types afterwards.
    ensures valid { AreTypesValid (features_of config.now) types.old
        → OnOk result (AreTypesValid (features_of config.now) types.new) }
    ensures most { OnOk result (length types.new.types ≤ config.now.max_types) }
    ensures kept { IfOk result (λ added. added ≡ false → types.new ≡ types.old) }
    ensures granted { (context : Context)
        → AreTypesGranted config.now (over context types.old.types)
        → OnOk result (AreTypesGranted config.now (over context types.new.types)) }

    // Refusals and the source.
    ensures memory { IfErr result (λ e. e ≡ Error.Memory) }
    ensures left { KeepsPieces u.old u.new }
{
    let _groups = types.types();
    clone_group(alloc, config, types, allow_empty, u)
}

/// Adds a group to `types`: with garbage collection a clone in one of 255 cases, otherwise a new
/// group. See the standard, section Structure, Recursive Types.
///
/// A new group is empty only if `allow_empty` is `true`, and has one type without garbage
/// collection. If [`clone_rec_group`] adds no clone, adds a new group, or nothing if `allow_empty`
/// is `true`. Valid types stay valid.
///
/// Requires `config` to be sanitised and to pass its check, possibly except for the pair of
/// `min_imports` and `max_imports`. Requires `types` to have fewer types than `config` permits.
pub fn arbitrary_rec_group(
    alloc: Global,
    config: &Config,
    types: &mut TypeSpace,
    entities: &Entities<'_>,
    allow_empty: bool,
    u: &mut Unstructured<'_>,
) -> Result<(), Error>
    requires passes { PassesButImports config.now }
    requires sanitized { IsSanitized config.now }
    requires room { length types.old.types < config.now.max_types }

    // The draw.
    ensures draws { DrawsInto
        (rec_group_at config.now (functions_in config.now entities.now) allow_empty types.old u.old)
        types.new result u.old u.new }

    // The types afterwards.
    ensures valid { AreTypesValid (features_of config.now) types.old
        → OnOk result (AreTypesValid (features_of config.now) types.new) }
    ensures most { OnOk result (length types.new.types ≤ config.now.max_types) }
    ensures some { OnOk result
        (allow_empty ≡ false → length types.old.types < length types.new.types) }
    ensures granted { AreTypesGranted config.now
        (over (functions_in config.now entities.now) types.old.types)
        → OnOk result
        (AreTypesGranted config.now (over (functions_in config.now entities.now) types.new.types)) }

    // Reach.
    ensures reach { allow_empty ≡ true → All IsRoot types.old.types
        → OnOk result (Takes (SpellsAdded config.now types.old) u.old types.new u.new) }
{
    let _groups = types.types();
    let grounds = EarlyGrounds::of(alloc, config, types, entities)?;
    add_rec_group(alloc, config, types, &grounds, allow_empty, u)
}

/// Adds groups to `types` until there are at least `config.min_types` types, then further groups as
/// drawn bools decide, up to `config.max_types` types. See the standard, section Structure,
/// Recursive Types.
///
/// Valid types stay valid.
///
/// Requires `config` to be sanitised and to pass its check, possibly except for the pair of
/// `min_imports` and `max_imports`.
pub fn arbitrary_types(
    alloc: Global,
    config: &Config,
    types: &mut TypeSpace,
    entities: &Entities<'_>,
    u: &mut Unstructured<'_>,
) -> Result<(), Error>
    requires passes { PassesButImports config.now }
    requires sanitized { IsSanitized config.now }

    // The draw.
    ensures draws { DrawsInto
        (types_at config.now (functions_in config.now entities.now) types.old u.old) types.new
        result u.old u.new }

    // Validity and bounds.
    ensures valid { AreTypesValid (features_of config.now) types.old
        → OnOk result (AreTypesValid (features_of config.now) types.new) }
    ensures most { AreTypesValid (features_of config.now) types.old
        → length types.old.types ≤ config.now.max_types
        → OnOk result (length types.new.types ≤ config.now.max_types) }
    ensures least { AreTypesValid (features_of config.now) types.old
        → OnOk result (config.now.min_types ≤ length types.new.types) }

    // Floats, numbers of values, and references.
    ensures floats { config.now.allow_floats ≡ false → All HasNoFloat types.old.types
        → OnOk result (All HasNoFloat types.new.types) }
    ensures few_values { (most : ℕ) → 20 ≤ most → All (HasFewValues most) types.old.types
        → OnOk result (All (HasFewValues most) types.new.types) }
    ensures nullable { config.now.non_nullable_enabled ≡ false
        → ¬ HoldsNonNullableField types.old.types
        → OnOk result (¬ HoldsNonNullableField types.new.types) }
    ensures grounded { ¬ HoldsUngroundedField config.now
        (over (functions_in config.now entities.now) types.old.types)
        → OnOk result (¬ HoldsUngroundedField config.now
        (over (functions_in config.now entities.now) types.new.types)) }
    ensures granted { AreTypesGranted config.now
        (over (functions_in config.now entities.now) types.old.types)
        → OnOk result
        (AreTypesGranted config.now (over (functions_in config.now entities.now) types.new.types)) }

    // Reach.
    ensures reach { config.now.min_types ≡ 0 → types.old ≡ space_of []
        → OnOk result (Takes (SpellsSpace config.now) u.old types.new u.new) }
{
    let _types = types.types();
    add_all_types(alloc, config, types, entities, u)
}
