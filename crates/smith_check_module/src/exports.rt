ghost use Rattle.std.specs.Prelude.{◌↔◌, ◌≡◌, map, IsTrue, IfOk, IfErr};
ghost use Rattle.smith_types.specs.Syntax.entity_type.EntityType.{EntityType};
ghost use Rattle.smith_types.specs.EntitySpaces.{spaces_in};
ghost use Rattle.smith_types.specs.Exports.{IsEntityAt};
ghost use Rattle.smith_validity.specs.Decided.{count_at};
ghost use Rattle.smith_decode.specs.Modules.{export_triple};
ghost use Rattle.smith_check_module.specs.Judges.{IsFirstRepeated};

use smith_binary_read::Export;
use smith_bytes::Error;
use smith_types::{EntitySpaces, ExportKind};
use std::alloc::Global;
use std::collections::HashSet;

/// Returns the index of the first of `exports` whose name an earlier one has, or their number if there
/// is none.
pub(crate) fn first_repeated(alloc: Global, exports: &[Export]) -> Result<usize, Error>
    ensures ok { IfOk result (λ index. IsFirstRepeated (map export_triple exports.now) index) }
    ensures memory { IfErr result (λ e. e ≡ Error.Memory) }
{
    let mut names: HashSet<&str> = HashSet::new(alloc);
    for i in 0..exports.len() {
        let name = exports[i].name.as_str();
        let is_new = names.insert(name)?;
        if !is_new {
            return Ok(i);
        }
    }
    Ok(exports.len())
}

/// Returns whether there is an entity of this kind and index (Validation, Exports).
pub(crate) fn is_entity_at(spaces: &EntitySpaces, kind: ExportKind, index: u32) -> bool
    ensures { IsTrue result
        ↔ ((ty : EntityType) × IsEntityAt (spaces_in spaces.now) kind index ty) }
{
    (index as usize) < count_of(spaces, kind)
}

fn count_of(spaces: &EntitySpaces, kind: ExportKind) -> usize
    ensures { result ≡ count_at (spaces_in spaces.now) kind }
{
    match kind {
        ExportKind::Func => spaces.funcs.len(),
        ExportKind::Table => spaces.tables.len(),
        ExportKind::Memory => spaces.memories.len(),
        ExportKind::Global => spaces.globals.len(),
        ExportKind::Tag => spaces.tags.len(),
    }
}
