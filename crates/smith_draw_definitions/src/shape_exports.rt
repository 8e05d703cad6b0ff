ghost use Rattle.std.specs.Prelude.{◌≡◌, ◌<◌, ◌≤◌, ◌+◌, ◌^◌, ◌++◌, ◌∷◌, [], true, false, length};
ghost use Rattle.std.specs.Prelude.{List, IsTrue, IfOk, IfErr, OnOk, All};
ghost use Rattle.std.specs.List.{AllZip};
ghost use Rattle.smith_bytes.specs.Source.{KeepsPieces};
ghost use Rattle.smith_bytes.specs.declared.error.Count.{Count};
ghost use Rattle.smith_bytes.specs.declared.error.Count.TheVariants.{Types};
ghost use Rattle.smith_bytes.specs.declared.error.Which.TheVariants.{Exports, ModuleShape};
ghost use Rattle.smith_types.specs.Exports.{AreExportsValid};
ghost use Rattle.smith_types.specs.Grown.{Extends, AreSpacesGrown};
ghost use Rattle.smith_types.specs.Imports.{EntitySpaces as EntityLists, imported_spaces};
ghost use Rattle.smith_types.specs.EntitySpaces.{spaces_in};
ghost use Rattle.smith_config.specs.Shapes.{most_listed, shape_imports, shape_spaces, shape_types};
ghost use Rattle.smith_config.specs.Shapes.{IsShapeValid};
ghost use Rattle.smith_draw_types.specs.HeldFields.{HoldsUngroundedField};
ghost use Rattle.smith_draw_consts.specs.KeptOffers.{AreKeptOffers};
ghost use Rattle.smith_draw_types.specs.FuncSizes.{HasFewValues};
ghost use Rattle.smith_module_rules.specs.Bounds.{items_of_exports};
ghost use Rattle.smith_module_rules.specs.ShapeImports.{count_in};
ghost use Rattle.smith_module_rules.specs.ExportedItems.{IsStanding, Export};
ghost use Rattle.smith_draw_definitions.specs.Defined.{StandsAfter, drawn_beside};
ghost use Rattle.smith_draw_definitions.specs.Required.{AddsLimitsOf, AddsTypesOf, MayDefineMore};
ghost use Rattle.smith_draw_definitions.specs.Required.{MayRequire, IsRequiredMore, AreRequired, MayLackIn};
ghost use Rattle.smith_draw_definitions.specs.Required.{MayRefuseRequired, MayRefuseExported};
ghost use Rattle.smith_bytes.specs.Steps.{Returns, is_memory};
ghost use Rattle.smith_draw_definitions.specs.RequiredExports.{entity_of, scope_beside, standing_with};
ghost use Rattle.smith_draw_definitions.specs.RequiredExports.{export_required_at, required_at};
ghost use Rattle.smith_module_rules.specs.ShapesKept.{IsSameExport, IsSameType};

use crate::definitions::Definitions;
use crate::required_entities::{define_entity, next_index};
use crate::required_types::entity_over;
use crate::shape_entities::entity_of_shape;
use smith_bytes::{Error, Unstructured};
use smith_config::{Config, Shape};
use smith_draw_consts::KeptOffers;
use smith_types::{EntitySpaces, ExportKind, Items, Name, TypeSpace, imported_spaces_of};
use std::alloc::Global;

/// Makes the export `one` of `shape`, whose index spaces begin with `imported`. Defines an entity
/// for the export.
fn make_export(
    alloc: Global,
    config: &Config,
    own_types: bool,
    shape: &Shape,
    imported: &EntitySpaces,
    one: &(Name, ExportKind, u32),
    types: &mut TypeSpace,
    spaces: &mut EntitySpaces,
    kept: &mut KeptOffers,
    definitions: &mut Definitions,
    u: &mut Unstructured<'_>,
) -> Result<(Name, ExportKind, u32), Error>
    requires imported { spaces_in imported.now ≡ imported_spaces (shape_imports shape.now) }
    requires stands { IsStanding (shape_spaces shape.now) one.now.1 one.now.2 }
    requires shape { MayRequire own_types config.now shape.now types.old }
    requires may { MayDefineMore config.now types.old (spaces_in spaces.old) definitions.old 1 }
    requires room { length types.old.types + 1 < 2 ^ 32 }
    requires kept { AreKeptOffers (scope_beside config.now types.old.types
        (spaces_in spaces.old) definitions.old true) kept.old }
    ensures exact { (before : List Export) → Returns is_memory (λ made. (
      standing_with types.new (spaces_in spaces.new) definitions.new (before ++ made ∷ []),
      u.new,
    )) result (export_required_at own_types config.now shape.now one.now
        (standing_with types.old (spaces_in spaces.old) definitions.old before) u.old
        (entity_of (shape_spaces shape.now) one.now.1 one.now.2)) }
    ensures required { IfOk result
        (IsRequiredMore own_types config.now shape.now types.old (spaces_in spaces.old)
        definitions.old types.new (spaces_in spaces.new) definitions.new one.now) }
    ensures kept { OnOk result (AreKeptOffers (scope_beside config.now types.new.types
        (spaces_in spaces.new) definitions.new true) kept.new) }
    ensures refusal { IfErr result (MayRefuseExported config.now
        (drawn_beside config.now types.old.types (spaces_in spaces.old) definitions.old)
        shape.now one.now) }
    ensures left { KeepsPieces u.old u.new }
{
    let theirs = entity_of_shape(shape, imported, one.1, one.2);
    let added = entity_over(alloc, own_types, shape, theirs, types)?;
    let index = next_index(spaces, one.1) as u32;
    define_entity(alloc, config, types, added, spaces, kept, definitions, u)?;
    let name = one.0.clone(alloc)?;
    Ok((name, one.1, index))
}

/// Makes the exports of `shape`. Defines an entity for each.
fn push_exports(
    alloc: Global,
    config: &Config,
    own_types: bool,
    shape: &Shape,
    types: &mut TypeSpace,
    spaces: &mut EntitySpaces,
    kept: &mut KeptOffers,
    definitions: &mut Definitions,
    u: &mut Unstructured<'_>,
) -> Result<Items<(Name, ExportKind, u32)>, Error>
    requires shape { MayRequire own_types config.now shape.now types.old }
    requires may { MayDefineMore config.now types.old (spaces_in spaces.old) definitions.old
        (length shape.now.exports) }
    requires room { length types.old.types + length shape.now.exports < 2 ^ 32 }
    requires kept { AreKeptOffers (scope_beside config.now types.old.types
        (spaces_in spaces.old) definitions.old true) kept.old }
    ensures exact { Returns is_memory
        (λ exports. (standing_with types.new (spaces_in spaces.new) definitions.new exports, u.new))
        result (required_at own_types config.now shape.now types.old
        (spaces_in spaces.old) definitions.old u.old) }
    ensures required { IfOk result (AreRequired own_types config.now shape.now types.old
        (spaces_in spaces.old) definitions.old types.new (spaces_in spaces.new) definitions.new) }
    ensures refusal { IfErr result (MayRefuseRequired config.now (drawn_beside config.now
        types.old.types (spaces_in spaces.old) definitions.old) shape.now) }
    ensures left { KeepsPieces u.old u.new }
{
    let imported = imported_spaces_of(alloc, shape.imports.as_slice())?;
    let mut exports = Items::with_capacity(alloc, shape.exports.len())?;
    for one in shape.exports.as_slice() {
        let made = make_export(
            alloc,
            config,
            own_types,
            shape,
            &imported,
            one,
            types,
            spaces,
            kept,
            definitions,
            u,
        )?;
        exports.push(made)?;
    }
    Ok(exports)
}

/// Makes the exports of the shape for exports `shape`, and defines for each an entity of the same
/// type. A function or a tag has a type of its own, which is added to `types` in a group of its
/// own.
///
/// Requires `config` to be sanitised, and `shape` to pass [`Shape::check`] as exports for `config`.
/// Requires `types` and the entities of `spaces` to be valid, fewer than 2^32 of each kind even
/// with one more for each export, and `definitions` to count no more entities than `spaces` has.
///
/// # Errors
///
/// - `SeveralTables` if `shape` requires a second table and reference types are off.
/// - `SeveralMemories` if `shape` requires a second memory and `config` allows at most one.
/// - `EmptyChoose` if no expression has the type of an initialiser. This requires a reference type
///   of `shape`, or of a field of a type, that is not nullable.
pub fn make_required_exports(
    alloc: Global,
    config: &Config,
    shape: &Shape,
    types: &mut TypeSpace,
    spaces: &mut EntitySpaces,
    definitions: &mut Definitions,
    u: &mut Unstructured<'_>,
) -> Result<Items<(Name, ExportKind, u32)>, Error>
    requires valid { IsShapeValid Exports config.now shape.now }
    requires may { MayDefineMore config.now types.old (spaces_in spaces.old) definitions.old
        (length shape.now.exports) }
    requires room { length types.old.types + length shape.now.exports < 2 ^ 32 }

    // The exports.
    ensures exact { Returns is_memory
        (λ exports. (standing_with types.new (spaces_in spaces.new) definitions.new exports, u.new))
        result (required_at true config.now shape.now types.old
        (spaces_in spaces.old) definitions.old u.old) }
    ensures kept { IfOk result (λ exports.
        AllZip (IsSameExport (IsSameType types.new.types (shape_types shape.now))
        (spaces_in spaces.new) (shape_spaces shape.now)) exports shape.now.exports) }

    // Validity.
    ensures valid { IfOk result (AreExportsValid (spaces_in spaces.new)) }
    ensures stands { (imported : EntityLists)
        → StandsAfter config.now imported types.old (spaces_in spaces.old) definitions.old
        → OnOk result
        (StandsAfter config.now imported types.new (spaces_in spaces.new) definitions.new) }

    // The types.
    ensures types { OnOk result (Extends types.old.types types.new.types) }
    ensures groups { OnOk result (Extends types.old.groups types.new.groups) }
    ensures types_most { OnOk result
        (length types.new.types ≤ length types.old.types + items_of_exports Types shape.now) }
    ensures lacking { OnOk result (HoldsUngroundedField config.now
        (drawn_beside config.now types.new.types (spaces_in spaces.new) definitions.new)
        → HoldsUngroundedField config.now
        (drawn_beside config.now types.old.types (spaces_in spaces.old) definitions.old)) }
    ensures types_of { OnOk result (AddsTypesOf shape.now types.old.types types.new.types) }
    ensures few_values { All (HasFewValues most_listed) types.old.types
        → OnOk result (All (HasFewValues most_listed) types.new.types) }

    // The entities.
    ensures spaces { OnOk result (AreSpacesGrown (spaces_in spaces.old) (spaces_in spaces.new)) }
    ensures limits { OnOk result
        (AddsLimitsOf shape.now (spaces_in spaces.old) (spaces_in spaces.new)) }
    ensures counted { (count : Count) → (count ≡ Types → ⊥)
        → OnOk result (count_in (spaces_in spaces.new) count
        ≡ count_in (spaces_in spaces.old) count + items_of_exports count shape.now) }

    // Refusals and the source.
    ensures refusal { IfErr result (MayRefuseRequired config.now (drawn_beside config.now
        types.old.types (spaces_in spaces.old) definitions.old) shape.now) }
    ensures memory { (MayLackIn config.now
        (drawn_beside config.now types.old.types (spaces_in spaces.old) definitions.old) shape.now
        → ⊥)
        → IsTrue config.now.reference_types_enabled → 2 ≤ config.now.max_memories
        → IfErr result (λ e. e ≡ Error.Memory) }
    ensures left { KeepsPieces u.old u.new }
{
    let mut kept = KeptOffers::new();
    let made = push_exports(
        alloc,
        config,
        true,
        shape,
        types,
        spaces,
        &mut kept,
        definitions,
        u,
    );
    drop(kept);
    made
}

/// Makes the exports of the module shape `shape`, and defines for each an entity of the same type.
///
/// Requires `shape` to pass [`Shape::check`] as a module shape for `config`, and `types` to begin
/// with its types. All other conditions, and the errors, are those of [`make_required_exports`].
pub fn make_shape_exports(
    alloc: Global,
    config: &Config,
    shape: &Shape,
    types: &mut TypeSpace,
    spaces: &mut EntitySpaces,
    definitions: &mut Definitions,
    u: &mut Unstructured<'_>,
) -> Result<Items<(Name, ExportKind, u32)>, Error>
    requires valid { IsShapeValid ModuleShape config.now shape.now }
    requires types { Extends (shape_types shape.now) types.old.types }
    requires may { MayDefineMore config.now types.old (spaces_in spaces.old) definitions.old
        (length shape.now.exports) }
    requires room { length types.old.types + length shape.now.exports < 2 ^ 32 }

    // The exports.
    ensures exact { Returns is_memory
        (λ exports. (standing_with types.new (spaces_in spaces.new) definitions.new exports, u.new))
        result (required_at false config.now shape.now types.old
        (spaces_in spaces.old) definitions.old u.old) }
    ensures kept { IfOk result (λ exports. AllZip
        (IsSameExport (λ mine yours. mine ≡ yours) (spaces_in spaces.new) (shape_spaces shape.now))
        exports shape.now.exports) }

    // Validity.
    ensures valid { IfOk result (AreExportsValid (spaces_in spaces.new)) }
    ensures stands { (imported : EntityLists)
        → StandsAfter config.now imported types.old (spaces_in spaces.old) definitions.old
        → OnOk result
        (StandsAfter config.now imported types.new (spaces_in spaces.new) definitions.new) }

    // The types and the entities.
    ensures types { OnOk result (types.new ≡ types.old) }
    ensures spaces { OnOk result (AreSpacesGrown (spaces_in spaces.old) (spaces_in spaces.new)) }
    ensures limits { OnOk result
        (AddsLimitsOf shape.now (spaces_in spaces.old) (spaces_in spaces.new)) }
    ensures counted { (count : Count) → (count ≡ Types → ⊥)
        → OnOk result (count_in (spaces_in spaces.new) count
        ≡ count_in (spaces_in spaces.old) count + items_of_exports count shape.now) }

    // Refusals and the source.
    ensures refusal { IfErr result (MayRefuseRequired config.now (drawn_beside config.now
        types.old.types (spaces_in spaces.old) definitions.old) shape.now) }
    ensures memory { (MayLackIn config.now
        (drawn_beside config.now types.old.types (spaces_in spaces.old) definitions.old) shape.now
        → ⊥)
        → IsTrue config.now.reference_types_enabled → 2 ≤ config.now.max_memories
        → IfErr result (λ e. e ≡ Error.Memory) }
    ensures left { KeepsPieces u.old u.new }
{
    let mut kept = KeptOffers::new();
    let made = push_exports(
        alloc,
        config,
        false,
        shape,
        types,
        spaces,
        &mut kept,
        definitions,
        u,
    );
    drop(kept);
    made
}
