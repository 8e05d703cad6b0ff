ghost use Rattle.std.specs.Prelude.{◌≡◌, ◌<◌, false, None, IfSome};
ghost use Rattle.smith_draw_types.specs.Drawing.{AlwaysDraws};
ghost use Rattle.smith_draw_imports.specs.Imported.{MayImportKind, spaces_of};
ghost use Rattle.smith_draw_imports.specs.ImportedEntities.{has_room, may_import, kind_row, kind_at};

use crate::imports_so_far::Imported;
use smith_bytes::Unstructured;
use smith_config::Config;
use smith_draw_types::{TypeUse, choose_enabled, count_enabled, has_type};
use smith_types::{ExportKind, TypeSpace};

/// Returns whether `config` allows another entity of the kind `kind` after `imported`.
pub fn has_room(config: &Config, imported: &Imported, kind: ExportKind) -> bool
    ensures { result ≡ has_room config.now (spaces_of imported.now) kind }
{
    match kind {
        ExportKind::Tag => imported.spaces.tags.len() < config.max_tags,
        ExportKind::Func => imported.spaces.funcs.len() < config.max_funcs,
        ExportKind::Global => imported.spaces.globals.len() < config.max_globals,
        ExportKind::Memory => imported.spaces.memories.len() < config.max_memories,
        ExportKind::Table => imported.spaces.tables.len() < config.max_tables,
    }
}

fn may_import(config: &Config, types: &TypeSpace, kind: ExportKind) -> bool
    ensures { result ≡ may_import config.now types.now.types kind }
{
    match kind {
        ExportKind::Tag => config.exceptions_enabled && has_type(TypeUse::Tag, types),
        ExportKind::Func => has_type(TypeUse::ImportedFunc, types),
        _ => true,
    }
}

/// Returns `kind`, and whether another entity of that kind may be imported.
fn kind_row(
    config: &Config,
    types: &TypeSpace,
    imported: &Imported,
    kind: ExportKind,
) -> (ExportKind, bool)
    ensures { result ≡ kind_row config.now types.now.types (spaces_of imported.now) kind }
{
    let offered = may_import(config, types, kind) && has_room(config, imported, kind);
    (kind, offered)
}

/// Draws the kind of another entity to import. Returns `None` if no kind is offered.
#[tactic(auto, using(smith_draw_types::proofs::EnabledLemmas::length_enabled), unfolding(crate::specs::ImportedEntities::kind_at))]
pub(crate) fn draw_kind(
    config: &Config,
    types: &TypeSpace,
    imported: &Imported,
    u: &mut Unstructured<'_>,
) -> Option<ExportKind>
    ensures draws { AlwaysDraws (kind_at config.now types.now.types (spaces_of imported.now) u.old)
        result u.old u.new }
    ensures offered { IfSome result
        (MayImportKind config.now types.now.types (spaces_of imported.now)) }
    ensures full { result ≡ None
        → has_room config.now (spaces_of imported.now) ExportKind.Table ≡ false }
{
    let table = [
        kind_row(config, types, imported, ExportKind::Tag),
        kind_row(config, types, imported, ExportKind::Func),
        kind_row(config, types, imported, ExportKind::Global),
        kind_row(config, types, imported, ExportKind::Memory),
        kind_row(config, types, imported, ExportKind::Table),
    ];
    if count_enabled(&table) == 0 {
        return None;
    }
    Some(choose_enabled(&table, u))
}
