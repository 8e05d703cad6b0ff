ghost use Rattle.std.specs.Prelude.{◌≡◌, ◌<◌, ◌+◌, ◌^◌, true, None, Some, IsTrue, IfOk, IfSome};
ghost use Rattle.std.specs.Prelude.{if◌then◌else◌};
ghost use Rattle.smith_types.specs.Sizes.{size_in};
ghost use Rattle.smith_draw_types.specs.Drawing.{Draws};
ghost use Rattle.smith_draw_imports.specs.Imported.{MayImport, IsEntityFit, IsFitBeside, IsNext};
ghost use Rattle.smith_draw_imports.specs.Imported.{MayEndAt, spaces_of};
ghost use Rattle.smith_draw_types.specs.KeptGrounds.{AreKeptGrounds};
ghost use Rattle.smith_types.specs.Exports.{entity_kind};
ghost use Rattle.smith_draw_imports.specs.ImportedEntities.{has_room, may_import, import_scope};
ghost use Rattle.smith_draw_imports.specs.ImportedEntities.{entity_of_kind_at, fits, entity_at, again};

use crate::import_kinds::{draw_kind, has_room};
use crate::imports_so_far::Imported;
use smith_bytes::{Error, Unstructured};
use smith_config::Config;
use smith_draw_types::{
    Entities, KeptGrounds, ReferenceScope, Spaces, TypeUse, arbitrary_memtype, choose_type,
    draw_global_type, draw_table_type,
};
use smith_types::{EntityType, ExportKind, TypeSpace};

/// Returns the kind of the entity `added`.
pub fn entity_kind(added: &EntityType) -> ExportKind
    ensures { result ≡ entity_kind added.now }
{
    match added {
        EntityType::Tag(_) => ExportKind::Tag,
        EntityType::Func(_) => ExportKind::Func,
        EntityType::Global(_) => ExportKind::Global,
        EntityType::Memory(_) => ExportKind::Memory,
        EntityType::Table(_) => ExportKind::Table,
    }
}

/// Returns the context in which the entity after `imported` is drawn: `types` and the functions
/// imported so far. `grounds` holds the heap types that these functions ground.
fn reference_scope_after<'a>(
    config: &'a Config,
    types: &'a TypeSpace,
    imported: &'a Imported,
    grounds: &'a KeptGrounds,
) -> ReferenceScope<'a>
    requires { AreKeptGrounds
        (import_scope config.now types.now.types (spaces_of imported.now)) grounds.now }
    ensures { result ≡ import_scope config.now types.now.types (spaces_of imported.now) }
{
    let funcs = imported.spaces.funcs.as_slice();
    let entities = Entities {
        funcs,
        imported_funcs: funcs.len(),
        ..Entities::none()
    };
    grounds.scope(config, &Spaces { types, entities })
}

/// Draws an entity of the kind `kind`, for an import after `imported`. `kind` may be imported over
/// `types`.
#[tactic(auto, unfolding(crate::specs::ImportedEntities::entity_of_kind_at))]
fn draw_entity_of_kind(
    config: &Config,
    types: &TypeSpace,
    imported: &Imported,
    grounds: &KeptGrounds,
    kind: ExportKind,
    u: &mut Unstructured<'_>,
) -> Result<EntityType, Error>
    requires may { MayImport config.now types.now }
    requires kept { AreKeptGrounds
        (import_scope config.now types.now.types (spaces_of imported.now)) grounds.now }
    requires kind { may_import config.now types.now.types kind ≡ true }
    ensures draws { Draws (entity_of_kind_at config.now
        (import_scope config.now types.now.types (spaces_of imported.now)) kind u.old)
        result u.old u.new }
    ensures kind { IfOk result (λ added. entity_kind added ≡ kind) }
    ensures fit { IfOk result (IsFitBeside config.now types.now.types (spaces_of imported.now)) }
{
    let standing = reference_scope_after(config, types, imported, grounds);
    match kind {
        ExportKind::Tag => Ok(EntityType::Tag(choose_type(TypeUse::Tag, types, u))),
        ExportKind::Func => Ok(EntityType::Func(choose_type(TypeUse::ImportedFunc, types, u))),
        ExportKind::Global => Ok(EntityType::Global(draw_global_type(config, &standing, u))),
        ExportKind::Memory => Ok(EntityType::Memory(arbitrary_memtype(config, u)?)),
        ExportKind::Table => Ok(EntityType::Table(draw_table_type(config, &standing, u))),
    }
}

/// Returns whether an import of the entity `added` fits into the maximum type size after the type
/// size `size`.
fn fits(config: &Config, types: &TypeSpace, size: u32, added: &EntityType) -> bool
    requires fit { IsEntityFit config.now types.now.types added.now }
    ensures exact { result ≡ fits config.now types.now.types size added.now }
    ensures sum { IsTrue result → size + (size_in types.now.types added.now + 1) < 2 ^ 32 }
{
    let most = config.max_type_size;
    u64::from(size) + u64::from(types.size_of(added)) + 1 <= u64::from(most)
}

/// Returns the entity `added` if an import of it fits after `imported`, or `None`.
fn if_fits(
    config: &Config,
    types: &TypeSpace,
    imported: &Imported,
    added: EntityType,
) -> Option<EntityType>
    requires fit { IsFitBeside config.now types.now.types (spaces_of imported.now) added }
    requires room { has_room config.now (spaces_of imported.now) (entity_kind added) ≡ true }
    ensures exact { result ≡ (if fits config.now types.now.types imported.now.type_size added
        then Some added else None) }
    ensures next { IfSome result
        (IsNext config.now types.now.types (spaces_of imported.now) imported.now.type_size) }
    ensures ended { result ≡ None
        → MayEndAt config.now (spaces_of imported.now) imported.now.type_size }
{
    if fits(config, types, imported.type_size, &added) {
        Some(added)
    } else {
        None
    }
}

/// Draws an entity of a kind with room, for an import after `imported`. Returns `None` if no kind
/// has room, or if the drawn entity is too large.
#[tactic(auto, unfolding(crate::specs::ImportedEntities::entity_at))]
pub(crate) fn draw_entity(
    config: &Config,
    types: &TypeSpace,
    imported: &Imported,
    grounds: &KeptGrounds,
    u: &mut Unstructured<'_>,
) -> Result<Option<EntityType>, Error>
    requires may { MayImport config.now types.now }
    requires kept { AreKeptGrounds
        (import_scope config.now types.now.types (spaces_of imported.now)) grounds.now }
    ensures draws { Draws
        (entity_at config.now types.now.types (spaces_of imported.now) imported.now.type_size u.old)
        result u.old u.new }
    ensures next { IfOk result (λ drawn. IfSome drawn
        (IsNext config.now types.now.types (spaces_of imported.now) imported.now.type_size)) }
    ensures ended { IfOk result (λ drawn.
        drawn ≡ None → MayEndAt config.now (spaces_of imported.now) imported.now.type_size) }
{
    let Some(kind) = draw_kind(config, types, imported, u) else {
        return Ok(None);
    };
    let added = draw_entity_of_kind(config, types, imported, grounds, kind, u)?;
    Ok(if_fits(config, types, imported, added))
}

/// Returns the entity `added` if its kind has room and an import of it fits after `imported`, or
/// `None`.
pub(crate) fn repeat_entity(
    config: &Config,
    types: &TypeSpace,
    imported: &Imported,
    added: EntityType,
) -> Option<EntityType>
    requires fit { IsFitBeside config.now types.now.types (spaces_of imported.now) added }
    ensures exact { result
        ≡ again config.now types.now.types (spaces_of imported.now) imported.now.type_size added }
    ensures next { IfSome result
        (IsNext config.now types.now.types (spaces_of imported.now) imported.now.type_size) }
    ensures ended { result ≡ None
        → MayEndAt config.now (spaces_of imported.now) imported.now.type_size }
{
    if !has_room(config, imported, entity_kind(&added)) {
        return None;
    }
    if_fits(config, types, imported, added)
}
