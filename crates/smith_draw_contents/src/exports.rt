ghost use Rattle.std.specs.Prelude.{◌≡◌, ◌<◌, ◌≤◌, ◌+◌, ◌-◌, ◌^◌, ◌++◌, ◌∷◌, [], false, nat_lt};
ghost use Rattle.std.specs.Prelude.{length, List, IsTrue, IfOk, IfErr};
ghost use Rattle.std.specs.HashSet.{IsEmpty};
ghost use Rattle.smith_bytes.specs.Source.{KeepsPieces};
ghost use Rattle.smith_bytes.specs.Takes.{Takes};
ghost use Rattle.smith_types.specs.Exports.{AreExportsValid};
ghost use Rattle.smith_types.specs.EntitySpaces.{spaces_in};
ghost use Rattle.smith_bytes.specs.Steps.{ReturnsWhy};
ghost use Rattle.smith_bytes.specs.Spelling.{SpellsEmpty};
ghost use Rattle.smith_bytes.specs.Spelling.{SpellsNone};
ghost use Rattle.smith_module_rules.specs.ExportedItems.{Export, exported_size, AreAllExported};
ghost use Rattle.smith_draw_contents.specs.Exporting.{is_exported, HasNames, export_at, offered_kinds};
ghost use Rattle.smith_draw_contents.specs.Exporting.{exports_from, free_exports_at};
ghost use Rattle.smith_draw_contents.specs.Exported.{MayOffer, MayExportFreely, MayDrawExports};
ghost use Rattle.smith_draw_contents.specs.Exported.{IsCandidate, AreExported, MayRefuseFree};
ghost use Rattle.smith_draw_contents.specs.Exported.{MayRefuseExports};
ghost use Rattle.smith_draw_contents.specs.AllExports.{exports_at};

use crate::all_exports::export_everything;
use crate::export_kinds::{choose_candidate, choose_export_kind, has_candidates, most_of_funcs};
use crate::export_names::draw_export_name;
use crate::exports_so_far::{Exports, item_size};
use smith_bytes::{Count, Error, Unstructured, Why, goes_on};
use smith_config::Config;
use smith_types::{EntitySpaces, ExportKind, Items, Name, TypeSpace};
use std::alloc::Global;
use std::collections::HashSet;

/// Draws an export of an item of `spaces` that may be exported if `left` of the type size is left.
/// The size of each function, plus 1, is at most `most`.
#[tactic(auto, unfolding(crate::specs::Exporting::export_at))]
fn draw_export(
    alloc: Global,
    types: &TypeSpace,
    spaces: &EntitySpaces,
    most: u32,
    left: u32,
    names: &mut HashSet<String>,
    u: &mut Unstructured<'_>,
) -> Result<(Name, ExportKind, u32), Error>
    requires may { MayOffer types.now.types (spaces_in spaces.now) most }
    requires some { 0 < length (offered_kinds types.now.types (spaces_in spaces.now) left) }

    // The draw.
    ensures exact { (exports : List Export) → HasNames names.old exports → length exports < 2 ^ 64
        → IfOk result (λ one.
        export_at types.now.types (spaces_in spaces.now) left exports u.old ≡ (one, u.new)) }

    // The name and the item.
    ensures fresh { (exports : List Export) → HasNames names.old exports
        → IfOk result (λ one. is_exported exports one.0 ≡ false) }
    ensures names { (exports : List Export) → HasNames names.old exports
        → IfOk result (λ one. HasNames names.new (exports ++ one ∷ [])) }
    ensures candidate { IfOk result (λ one.
        IsCandidate types.now.types (spaces_in spaces.now) left one.1 one.2) }

    // Refusals and the source.
    ensures memory { IfErr result (λ e. e ≡ Error.Memory) }
    ensures left { KeepsPieces u.old u.new }
{
    let name = draw_export_name(alloc, names, u)?;
    let kind = choose_export_kind(types, spaces, most, left, u);
    let index = choose_candidate(types, spaces, most, left, kind, u);
    Ok((name, kind, index))
}

/// Draws exports of items of `spaces`, until there is no room, a drawn bool ends them, or no item
/// may be exported. Adds their names to `names`, which has none.
fn push_exports(
    alloc: Global,
    config: &Config,
    types: &TypeSpace,
    spaces: &EntitySpaces,
    imports_size: u32,
    names: &mut HashSet<String>,
    u: &mut Unstructured<'_>,
) -> Result<Exports, Error>
    requires may { MayExportFreely config.now types.now.types (spaces_in spaces.now) imports_size }
    requires none { IsEmpty names.old }
    ensures exact { IfOk result (λ made. exports_from config.now types.now.types
        (spaces_in spaces.now) imports_size config.now.max_exports [] u.old
        ≡ (made.exports, u.new)) }
    ensures kept { IfOk result (λ made. AreExported config.now types.now.types
        (spaces_in spaces.now) imports_size made.exports made.type_size) }
    ensures none_left { IfOk result (λ made. length made.exports < config.now.min_exports
        → nat_lt 0 (length (offered_kinds types.now.types (spaces_in spaces.now)
        (config.now.max_type_size - made.type_size)))
        ≡ false) }
    ensures memory { IfErr result (λ e. e ≡ Error.Memory) }
    ensures left { KeepsPieces u.old u.new }
{
    let mut exports = Items::new(alloc);
    let mut type_size = imports_size;
    let most = most_of_funcs(types, spaces.funcs.as_slice());
    for made in 0..config.max_exports {
        if !goes_on(u, made, config.min_exports) {
            return Ok(Exports { exports, type_size });
        }
        let left = config.max_type_size - type_size;
        if !has_candidates(types, spaces, most, left) {
            return Ok(Exports { exports, type_size });
        }
        let one = draw_export(alloc, types, spaces, most, left, names, u)?;
        type_size += item_size(types, spaces, one.1, one.2) + 1;
        exports.push(one)?;
    }
    Ok(Exports { exports, type_size })
}

#[tactic(auto, unfolding(crate::specs::Exporting::free_exports_at))]
fn draw_exports(
    alloc: Global,
    config: &Config,
    types: &TypeSpace,
    spaces: &EntitySpaces,
    imports_size: u32,
    u: &mut Unstructured<'_>,
) -> Result<Exports, Error>
    requires may { MayExportFreely config.now types.now.types (spaces_in spaces.now) imports_size }
    ensures exact { ReturnsWhy (λ made. (made.exports, u.new)) result
        (free_exports_at config.now types.now.types (spaces_in spaces.now) imports_size u.old) }
    ensures kept { IfOk result (λ made. AreExported config.now types.now.types
        (spaces_in spaces.now) imports_size made.exports made.type_size) }
    ensures least { IfOk result (λ made. config.now.min_exports ≤ length made.exports) }
    ensures refusal { IfErr result (MayRefuseFree config.now) }
    ensures left { KeepsPieces u.old u.new }
{
    let mut names = HashSet::new(alloc);
    let pushed = push_exports(alloc, config, types, spaces, imports_size, &mut names, u);
    drop(names);
    let drawn = pushed?;
    if drawn.exports.len() < config.min_exports {
        return Err(Error::IncorrectFormat(Why::Unmet(Count::Exports)));
    }
    Ok(drawn)
}

/// Draws exports of items of `spaces`: at least `min_exports` and at most `max_exports` of
/// `config`. The imports add `imports_size` to the type size.
fn draw_free_exports(
    alloc: Global,
    config: &Config,
    types: &TypeSpace,
    spaces: &EntitySpaces,
    imports_size: u32,
    u: &mut Unstructured<'_>,
) -> Result<Exports, Error>
    requires may { MayExportFreely config.now types.now.types (spaces_in spaces.now) imports_size }

    // The draw.
    ensures exact { ReturnsWhy (λ made. (made.exports, u.new)) result
        (free_exports_at config.now types.now.types (spaces_in spaces.now) imports_size u.old) }
    ensures valid { IfOk result (λ made. AreExportsValid (spaces_in spaces.now) made.exports) }

    // Bounds.
    ensures most { IfOk result (λ made. length made.exports ≤ config.now.max_exports) }
    ensures least { IfOk result (λ made. config.now.min_exports ≤ length made.exports) }

    // The type size.
    ensures type_size { IfOk result (λ made. made.type_size
        ≡ imports_size + exported_size types.now.types (spaces_in spaces.now) made.exports) }
    ensures within { IfOk result (λ made. made.type_size ≤ config.now.max_type_size) }

    // Refusals, reach and the source.
    ensures refusal { IfErr result (MayRefuseFree config.now) }
    ensures none { config.now.min_exports ≡ 0 → IfOk result (λ made.
        Takes (SpellsEmpty (SpellsNone config.now.max_exports)) u.old made.exports u.new) }
    ensures left { KeepsPieces u.old u.new }
{
    draw_exports(alloc, config, types, spaces, imports_size, u)
}

/// Draws the exports of a module: an export of every item of `spaces` if `config` exports
/// everything, else at least `min_exports` and at most `max_exports`. The imports add
/// `imports_size` to the type size.
///
/// Requires `imports_size` to be at most `max_type_size`, and no shape of `config` to fix the
/// exports. Requires the functions of `spaces` to have function types of `types`, an index space
/// fewer than 2^32 items, and a function type fewer than 2^32 - 2 parameters and results together.
///
/// Unless everything is exported, requires `min_exports` to be at most `max_exports`, and `spaces`
/// to have the minimum number of tables, memories and globals. If `config` has no shape either,
/// requires a function type to have at most 20 parameters and 20 results, and `imports_size` to be
/// at most 42 for each import that `config` allows.
///
/// # Errors
///
/// - `TypeSize` if the exports of everything would exceed the maximum type size.
/// - `Unmet(Exports)` if the exports otherwise end below the minimum.
pub fn arbitrary_exports(
    alloc: Global,
    config: &Config,
    types: &TypeSpace,
    spaces: &EntitySpaces,
    imports_size: u32,
    u: &mut Unstructured<'_>,
) -> Result<Exports, Error>
    requires may { MayDrawExports config.now types.now.types (spaces_in spaces.now) imports_size }

    // The draw.
    ensures exact { ReturnsWhy (λ made. (made.exports, u.new)) result
        (exports_at config.now types.now.types (spaces_in spaces.now) imports_size u.old) }
    ensures valid { IfOk result (λ made. AreExportsValid (spaces_in spaces.now) made.exports) }

    // Bounds, or an export of every item.
    ensures most { config.now.export_everything ≡ false
        → IfOk result (λ made. length made.exports ≤ config.now.max_exports) }
    ensures least { config.now.export_everything ≡ false
        → IfOk result (λ made. config.now.min_exports ≤ length made.exports) }
    ensures everything { IsTrue config.now.export_everything
        → IfOk result (λ made. AreAllExported (spaces_in spaces.now) made.exports) }

    // The type size.
    ensures type_size { IfOk result (λ made. made.type_size
        ≡ imports_size + exported_size types.now.types (spaces_in spaces.now) made.exports) }
    ensures within { IfOk result (λ made. made.type_size ≤ config.now.max_type_size) }

    // Refusals, reach and the source.
    ensures refusal { IfErr result (MayRefuseExports config.now) }
    ensures none { config.now.export_everything ≡ false → config.now.min_exports ≡ 0
        → IfOk result (λ made.
        Takes (SpellsEmpty (SpellsNone config.now.max_exports)) u.old made.exports u.new) }
    ensures left { KeepsPieces u.old u.new }
{
    if config.export_everything {
        return export_everything(alloc, config, types, spaces, imports_size, u);
    }
    draw_free_exports(alloc, config, types, spaces, imports_size, u)
}
