ghost use Rattle.std.specs.Prelude.{◌≡◌, ◌<◌, ◌≤◌, ◌+◌, ◌-◌, ◌++◌, true, false, None, [], length};
ghost use Rattle.std.specs.Prelude.{IsTrue, IfOk, IfErr, IfSome, OnOk};
ghost use Rattle.smith_bytes.specs.Source.{KeepsPieces};
ghost use Rattle.smith_bytes.specs.Takes.{Takes};
ghost use Rattle.smith_types.specs.Imports.{EntitySpaces, imports_of, flattened};
ghost use Rattle.smith_types.specs.EntitySpaces.{with_entity};
ghost use Rattle.smith_config.specs.declared.config.Config.{Config as Configuration};
ghost use Rattle.smith_draw_types.specs.Drawing.{Draws};
ghost use Rattle.smith_draw_imports.specs.ImportedEntities.{import_scope};
ghost use Rattle.smith_bytes.specs.Steps.{ReturnsWhy};
ghost use Rattle.smith_draw_imports.specs.Imported.{
  MayImport,
  Counts,
  AreImportsFit,
  IsNext,
  IsOpen,
  IsOfGroup,
  IsImported,
  MayEndAt,
  MayEnd,
  HasNoImports,
  MayRefuseImports,
  SpellsNoImport,
  spaces_of,
};
ghost use Rattle.smith_draw_types.specs.KeptGrounds.{AreKeptGrounds};
ghost use Rattle.smith_draw_imports.specs.Importing.{next_entity_at, fill_at, filled_at};
ghost use Rattle.smith_draw_imports.specs.Importing.{group_of_kind_at, group_at, groups_at, imports_at};

use crate::import_entities::{draw_entity, repeat_entity};
use crate::import_groups::{GroupKind, draw_group_kind, has_imports, module_name, push_import};
use crate::import_names::draw_import_name;
use crate::imports_so_far::Imported;
use smith_bytes::{Count, Error, Unstructured, Why, goes_on, limited_string};
use smith_config::Config;
use smith_draw_types::KeptGrounds;
use smith_types::{EntityType, Import, Imports, Items, Name, TypeSpace};
use std::alloc::Global;

/// Records the import of the entity `added` in `grounds`. `types` are the types of the module.
fn note_import(types: &TypeSpace, grounds: &mut KeptGrounds, added: EntityType)
    ensures { (config : Configuration) (spaces : EntitySpaces)
        → AreKeptGrounds (import_scope config types.now.types spaces) grounds.old
        → AreKeptGrounds
        (import_scope config types.now.types (with_entity spaces added)) grounds.new }
{
    let EntityType::Func(index) = added else {
        return;
    };
    grounds.note(types, index, false);
}

/// Draws the entity that the compact group `group` imports next. Returns `None` if it does not fit
/// after `imported`, or no kind has room.
fn draw_next_entity(
    config: &Config,
    types: &TypeSpace,
    imported: &Imported,
    grounds: &KeptGrounds,
    group: &Imports,
    u: &mut Unstructured<'_>,
) -> Result<Option<EntityType>, Error>
    requires may { MayImport config.now types.now }
    requires kept { AreKeptGrounds
        (import_scope config.now types.now.types (spaces_of imported.now)) grounds.now }
    requires ready { IsOpen config.now types.now.types (spaces_of imported.now) group.now }
    ensures draws { Draws (next_entity_at config.now types.now.types
        (spaces_of imported.now) imported.now.type_size group.now u.old) result u.old u.new }
    ensures next { IfOk result (λ drawn. IfSome drawn
        (IsNext config.now types.now.types (spaces_of imported.now) imported.now.type_size)) }
    ensures of_group { IfOk result (λ drawn. IfSome drawn (IsOfGroup group.now)) }
    ensures ended { IfOk result (λ drawn.
        drawn ≡ None → MayEndAt config.now (spaces_of imported.now) imported.now.type_size) }
{
    match group {
        Imports::Compact2 { entity_type, .. } => Ok(repeat_entity(
            config,
            types,
            imported,
            *entity_type,
        )),
        _ => draw_entity(config, types, imported, grounds, u),
    }
}

/// Adds imports to the compact group `group`, and returns whether more imports may follow the
/// group.
fn fill(
    alloc: Global,
    config: &Config,
    distinct: bool,
    types: &TypeSpace,
    imported: &mut Imported,
    grounds: &mut KeptGrounds,
    group: &mut Imports,
    u: &mut Unstructured<'_>,
) -> Result<bool, Error>
    requires may { MayImport config.now types.now }
    requires kept { AreKeptGrounds
        (import_scope config.now types.now.types (spaces_of imported.old)) grounds.old }
    requires ready { IsOpen config.now types.now.types (spaces_of imported.old) group.old }
    requires counts { Counts types.now.types distinct imported.old
        (flattened imported.old.groups ++ imports_of group.old) }
    requires fit { AreImportsFit config.now types.now.types distinct
        (flattened imported.old.groups ++ imports_of group.old) }

    // The draw.
    ensures exact { IfOk result (λ goes_on.
        fill_at config.now types.now.types distinct (flattened imported.old.groups)
        (config.now.max_imports - imported.old.count) group.old u.old
        ≡ (goes_on, (group.new, u.new))) }
    ensures groups { OnOk result (imported.new.groups ≡ imported.old.groups) }

    // The imports so far and the records.
    ensures kept { OnOk result (AreKeptGrounds
        (import_scope config.now types.now.types (spaces_of imported.new)) grounds.new) }
    ensures ready { OnOk result
        (IsOpen config.now types.now.types (spaces_of imported.new) group.new) }
    ensures counts { OnOk result (Counts types.now.types distinct imported.new
        (flattened imported.old.groups ++ imports_of group.new)) }
    ensures fit { OnOk result (AreImportsFit config.now types.now.types distinct
        (flattened imported.old.groups ++ imports_of group.new)) }

    // Progress and the end.
    ensures ended { IfOk result (λ goes_on.
        goes_on ≡ false → MayEndAt config.now (spaces_of imported.new) imported.new.type_size) }
    ensures more { OnOk result (imported.old.count ≤ imported.new.count) }

    // Refusals and the source.
    ensures memory { IfErr result (λ e. e ≡ Error.Memory) }
    ensures left { KeepsPieces u.old u.new }
{
    while imported.count < config.max_imports {
        if !u.arbitrary::<bool>() {
            return Ok(true);
        }
        let Some(added) = draw_next_entity(config, types, imported, grounds, group, u)? else {
            return Ok(false);
        };
        let name = draw_import_name(alloc, distinct, module_name(group), &mut imported.pairs, u)?;
        imported.count_entity(types, added)?;
        note_import(types, grounds, added);
        push_import(group, name, added)?;
    }
    Ok(true)
}

/// Fills the compact group `group`, adds it unless it stays empty, and returns whether more imports
/// may follow.
#[tactic(auto, unfolding(crate::specs::Importing::filled_at))]
fn add_filled(
    alloc: Global,
    config: &Config,
    distinct: bool,
    types: &TypeSpace,
    imported: &mut Imported,
    grounds: &mut KeptGrounds,
    mut group: Imports,
    u: &mut Unstructured<'_>,
) -> Result<bool, Error>
    requires may { MayImport config.now types.now }
    requires kept { AreKeptGrounds
        (import_scope config.now types.now.types (spaces_of imported.old)) grounds.old }
    requires so_far { IsImported config.now types.now.types distinct imported.old }
    requires ready { IsOpen config.now types.now.types (spaces_of imported.old) group }
    requires empty { imports_of group ≡ [] }

    // The draw.
    ensures exact { IfOk result (λ goes_on.
        filled_at config.now types.now.types distinct imported.old.groups group u.old
        ≡ (goes_on, (imported.new.groups, u.new))) }

    // The imports so far and the records.
    ensures so_far { OnOk result (IsImported config.now types.now.types distinct imported.new) }
    ensures kept { OnOk result (AreKeptGrounds
        (import_scope config.now types.now.types (spaces_of imported.new)) grounds.new) }

    // Progress and the end.
    ensures ended { IfOk result (λ goes_on.
        goes_on ≡ false → MayEnd config.now imported.new.count) }
    ensures more { IfOk result (λ _. imported.old.count ≤ imported.new.count) }

    // Refusals and the source.
    ensures memory { IfErr result (λ e. e ≡ Error.Memory) }
    ensures left { KeepsPieces u.old u.new }
{
    let goes_on = fill(
        alloc, config, distinct, types, imported, grounds, &mut group, u,
    )?;
    if has_imports(&group) {
        imported.groups.push(group)?;
    }
    Ok(goes_on)
}

/// Adds a single import from `module`, and returns whether more imports may follow.
#[tactic(auto, unfolding(crate::specs::Importing::group_of_kind_at))]
fn add_single(
    alloc: Global,
    config: &Config,
    distinct: bool,
    types: &TypeSpace,
    imported: &mut Imported,
    grounds: &mut KeptGrounds,
    module: Name,
    u: &mut Unstructured<'_>,
) -> Result<bool, Error>
    requires may { MayImport config.now types.now }
    requires kept { AreKeptGrounds
        (import_scope config.now types.now.types (spaces_of imported.old)) grounds.old }
    requires so_far { IsImported config.now types.now.types distinct imported.old }
    requires room { imported.old.count < config.now.max_imports }

    // The draw.
    ensures exact { IfOk result (λ goes_on. group_of_kind_at config.now types.now.types distinct
        imported.old.groups «module» GroupKind.Single u.old
        ≡ (goes_on, (imported.new.groups, u.new))) }

    // The imports so far and the records.
    ensures so_far { OnOk result (IsImported config.now types.now.types distinct imported.new) }
    ensures kept { OnOk result (AreKeptGrounds
        (import_scope config.now types.now.types (spaces_of imported.new)) grounds.new) }

    // Progress and the end.
    ensures ended { IfOk result (λ goes_on.
        goes_on ≡ false → MayEnd config.now imported.new.count) }
    ensures advances { IfOk result (λ goes_on.
        goes_on ≡ true → imported.old.count + length u.new < imported.new.count + length u.old) }

    // Refusals and the source.
    ensures memory { IfErr result (λ e. e ≡ Error.Memory) }
    ensures left { KeepsPieces u.old u.new }
{
    let Some(entity_type) = draw_entity(config, types, imported, grounds, u)? else {
        return Ok(false);
    };
    let name = draw_import_name(alloc, distinct, &module, &mut imported.pairs, u)?;
    imported.count_entity(types, entity_type)?;
    note_import(types, grounds, entity_type);
    imported.groups.push(Imports::Single(Import {
        module,
        name,
        entity_type,
    }))?;
    Ok(true)
}

/// Adds a group of imports from `module` that share one type, and returns whether more imports may
/// follow.
#[tactic(auto, unfolding(crate::specs::Importing::group_of_kind_at))]
fn add_of_one_type(
    alloc: Global,
    config: &Config,
    distinct: bool,
    types: &TypeSpace,
    imported: &mut Imported,
    grounds: &mut KeptGrounds,
    module: Name,
    u: &mut Unstructured<'_>,
) -> Result<bool, Error>
    requires may { MayImport config.now types.now }
    requires kept { AreKeptGrounds
        (import_scope config.now types.now.types (spaces_of imported.old)) grounds.old }
    requires so_far { IsImported config.now types.now.types distinct imported.old }
    requires enabled { IsTrue config.now.compact_imports_enabled }

    // The draw.
    ensures exact { IfOk result (λ goes_on. group_of_kind_at config.now types.now.types distinct
        imported.old.groups «module» GroupKind.OfOneType u.old
        ≡ (goes_on, (imported.new.groups, u.new))) }

    // The imports so far and the records.
    ensures so_far { OnOk result (IsImported config.now types.now.types distinct imported.new) }
    ensures kept { OnOk result (AreKeptGrounds
        (import_scope config.now types.now.types (spaces_of imported.new)) grounds.new) }

    // Progress and the end.
    ensures ended { IfOk result (λ goes_on.
        goes_on ≡ false → MayEnd config.now imported.new.count) }
    ensures more { IfOk result (λ _. imported.old.count ≤ imported.new.count) }

    // Refusals and the source.
    ensures memory { IfErr result (λ e. e ≡ Error.Memory) }
    ensures left { KeepsPieces u.old u.new }
{
    let Some(entity_type) = draw_entity(config, types, imported, grounds, u)? else {
        return Ok(false);
    };
    let group = Imports::Compact2 {
        module,
        entity_type,
        names: Items::new(alloc),
    };
    add_filled(alloc, config, distinct, types, imported, grounds, group, u)
}

/// Adds a group of imports to `imported`, and returns whether more imports may follow.
#[tactic(auto, unfolding(crate::specs::Importing::group_at, crate::specs::Importing::group_of_kind_at))]
fn add_group(
    alloc: Global,
    config: &Config,
    distinct: bool,
    types: &TypeSpace,
    imported: &mut Imported,
    grounds: &mut KeptGrounds,
    u: &mut Unstructured<'_>,
) -> Result<bool, Error>
    requires may { MayImport config.now types.now }
    requires kept { AreKeptGrounds
        (import_scope config.now types.now.types (spaces_of imported.old)) grounds.old }
    requires so_far { IsImported config.now types.now.types distinct imported.old }
    requires room { imported.old.count < config.now.max_imports }

    // The draw.
    ensures exact { IfOk result (λ goes_on.
        group_at config.now types.now.types distinct imported.old.groups u.old
        ≡ (goes_on, (imported.new.groups, u.new))) }

    // The imports so far and the records.
    ensures so_far { OnOk result (IsImported config.now types.now.types distinct imported.new) }
    ensures kept { OnOk result (AreKeptGrounds
        (import_scope config.now types.now.types (spaces_of imported.new)) grounds.new) }

    // Progress and the end.
    ensures ended { IfOk result (λ goes_on.
        goes_on ≡ false → MayEnd config.now imported.new.count) }
    ensures advances { IfOk result (λ goes_on.
        goes_on ≡ true → imported.old.count + length u.new < imported.new.count + length u.old) }

    // Refusals and the source.
    ensures memory { IfErr result (λ e. e ≡ Error.Memory) }
    ensures left { KeepsPieces u.old u.new }
{
    let kind = draw_group_kind(config, u);
    let module = Name::from_string(limited_string(alloc, 1000, u)?);
    match kind {
        GroupKind::Single => add_single(
            alloc, config, distinct, types, imported, grounds, module, u,
        ),
        GroupKind::OfOneModule => {
            let items = Items::new(alloc);
            let group = Imports::Compact1 { module, items };
            add_filled(alloc, config, distinct, types, imported, grounds, group, u)
        }
        GroupKind::OfOneType => add_of_one_type(
            alloc, config, distinct, types, imported, grounds, module, u,
        ),
    }
}

/// Adds groups of imports to `imported`, until there is no room, a drawn bool ends them, or the
/// next import does not fit.
fn add_groups(
    alloc: Global,
    config: &Config,
    distinct: bool,
    types: &TypeSpace,
    imported: &mut Imported,
    grounds: &mut KeptGrounds,
    u: &mut Unstructured<'_>,
) -> Result<(), Error>
    requires may { MayImport config.now types.now }
    requires kept { AreKeptGrounds
        (import_scope config.now types.now.types (spaces_of imported.old)) grounds.old }
    requires so_far { IsImported config.now types.now.types distinct imported.old }

    // The draw.
    ensures exact { OnOk result (groups_at config.now types.now.types distinct
        (config.now.max_imports + length u.old + 1) imported.old.groups u.old
        ≡ (imported.new.groups, u.new)) }

    // The imports so far and the records.
    ensures so_far { OnOk result (IsImported config.now types.now.types distinct imported.new) }
    ensures kept { OnOk result (AreKeptGrounds
        (import_scope config.now types.now.types (spaces_of imported.new)) grounds.new) }

    // Bounds, refusals and the source.
    ensures least { OnOk result
        (imported.new.count < config.now.min_imports → MayEnd config.now imported.new.count) }
    ensures memory { IfErr result (λ e. e ≡ Error.Memory) }
    ensures left { KeepsPieces u.old u.new }
{
    while imported.count < config.max_imports {
        if !goes_on(u, imported.count, config.min_imports) {
            return Ok(());
        }
        if !add_group(alloc, config, distinct, types, imported, grounds, u)? {
            return Ok(());
        }
    }
    Ok(())
}

/// Draws imports into `imported`, which is empty. Fails if there are fewer than `config`
/// requires.
#[tactic(auto, unfolding(crate::specs::Importing::imports_at))]
fn draw_imports(
    alloc: Global,
    config: &Config,
    distinct: bool,
    types: &TypeSpace,
    imported: &mut Imported,
    grounds: &mut KeptGrounds,
    u: &mut Unstructured<'_>,
) -> Result<(), Error>
    requires may { MayImport config.now types.now }
    requires none { HasNoImports imported.old }
    requires kept { AreKeptGrounds
        (import_scope config.now types.now.types (spaces_of imported.old)) grounds.old }
    ensures exact { ReturnsWhy (λ _. (imported.new.groups, u.new)) result
        (imports_at config.now types.now.types distinct u.old) }
    ensures so_far { OnOk result (IsImported config.now types.now.types distinct imported.new) }
    ensures kept { OnOk result (AreKeptGrounds
        (import_scope config.now types.now.types (spaces_of imported.new)) grounds.new) }
    ensures least { OnOk result (config.now.min_imports ≤ imported.new.count) }
    ensures refusal { IfErr result (MayRefuseImports config.now) }
    ensures left { KeepsPieces u.old u.new }
{
    add_groups(alloc, config, distinct, types, imported, grounds, u)?;
    if imported.count < config.min_imports {
        return Err(Error::IncorrectFormat(Why::Unmet(Count::Imports)));
    }
    Ok(())
}

/// Draws the imports of a module into `imported`, which is empty: at least `min_imports` of
/// `config`, and at most `max_imports`. If `distinct` is set, no two imports have the same pair of
/// names.
///
/// Requires `config` to be sanitised, to pass its check, and to have no shape that fixes the
/// imports. Requires `types` to be valid and fewer than 2^32, and each function type among them to
/// have at most 20 parameters and 20 results. Requires `grounds` to record no function. Each
/// imported function is noted in it.
///
/// # Errors
///
/// Returns `Unmet(Imports)` if the imports end below the minimum, because a kind is full or the
/// next import would exceed the maximum type size.
pub fn arbitrary_imports(
    alloc: Global,
    config: &Config,
    distinct: bool,
    types: &TypeSpace,
    imported: &mut Imported,
    grounds: &mut KeptGrounds,
    u: &mut Unstructured<'_>,
) -> Result<(), Error>
    requires may { MayImport config.now types.now }
    requires none { HasNoImports imported.old }
    requires kept { AreKeptGrounds
        (import_scope config.now types.now.types (spaces_of imported.old)) grounds.old }

    // The draw.
    ensures exact { ReturnsWhy (λ _. (imported.new.groups, u.new)) result
        (imports_at config.now types.now.types distinct u.old) }

    // Validity, bounds and the record.
    ensures so_far { OnOk result (IsImported config.now types.now.types distinct imported.new) }
    ensures kept { OnOk result (AreKeptGrounds
        (import_scope config.now types.now.types (spaces_of imported.new)) grounds.new) }
    ensures least { OnOk result (config.now.min_imports ≤ imported.new.count) }

    // Refusals, reach and the source.
    ensures refusal { IfErr result (MayRefuseImports config.now) }
    ensures none { config.now.min_imports ≡ 0
        → OnOk result (Takes (SpellsNoImport config.now) u.old imported.new.groups u.new) }
    ensures left { KeepsPieces u.old u.new }
{
    draw_imports(alloc, config, distinct, types, imported, grounds, u)
}
