ghost use Rattle.std.specs.Prelude.{◌≡◌, IfErr};

use crate::change::Change;
use crate::edit::Edit;
use crate::facts::Facts;
use crate::rotation::rotated;
use smith_binary_read::Export;
use smith_bytes::{Error, Unstructured};
use smith_decode::Module;
use smith_types::{EntitySpaces, ExportKind};
use std::alloc::Global;

// Draws the index of an export.
fn draw_export(module: &Module, u: &mut Unstructured<'_>) -> Option<usize> {
    let count = module.exports.len();
    if count == 0 {
        return None;
    }
    Some(u.int_in_range(0..=count - 1))
}

/// Exports an exported entity a second time, by the same name.
pub(crate) fn repeat_export(
    alloc: Global,
    module: &Module,
    u: &mut Unstructured<'_>,
) -> Result<Option<Change>, Error>
    ensures memory { IfErr result (λ e. e ≡ Error.Memory) }
{
    let Some(index) = draw_export(module, u) else {
        return Ok(None);
    };
    let Some(export) = module.exports.as_slice().get(index) else {
        return Ok(None);
    };
    let repeated = Export {
        name: export.name.clone(alloc)?,
        kind: export.kind,
        index: export.index,
    };
    Ok(Some(Change::Export {
        index: index.saturating_add(1),
        edit: Edit::Insert(repeated),
    }))
}

// Returns the number of entities of a kind.
fn count_of(spaces: &EntitySpaces, kind: ExportKind) -> usize {
    match kind {
        ExportKind::Func => spaces.funcs.len(),
        ExportKind::Table => spaces.tables.len(),
        ExportKind::Memory => spaces.memories.len(),
        ExportKind::Global => spaces.globals.len(),
        ExportKind::Tag => spaces.tags.len(),
    }
}

/// Exports an entity past the end of its index space.
pub(crate) fn export_past_end(
    alloc: Global,
    module: &Module,
    u: &mut Unstructured<'_>,
) -> Result<Option<Change>, Error>
    ensures memory { IfErr result (λ e. e ≡ Error.Memory) }
{
    let facts = Facts::new(alloc, module)?;
    let Some(index) = draw_export(module, u) else {
        return Ok(None);
    };
    let Some(export) = module.exports.as_slice().get(index) else {
        return Ok(None);
    };
    let count = u32::try_from(count_of(&facts.spaces, export.kind)).unwrap_or(u32::MAX);
    let changed = Export {
        name: export.name.clone(alloc)?,
        kind: export.kind,
        index: count.saturating_add(u.int_in_range(0u32..=3)),
    };
    Ok(Some(Change::Export {
        index,
        edit: Edit::Replace(changed),
    }))
}

// Returns whether the function at `index` has parameters or results.
fn has_values(facts: &Facts<'_>, index: usize) -> bool {
    let Some(ty) = facts.spaces.funcs.as_slice().get(index) else {
        return false;
    };
    match facts.function_type(*ty) {
        Some(ty) => !ty.params.is_empty() || !ty.results.is_empty(),
        None => false,
    }
}

// Returns the first function with parameters or results from `start` on, round the end.
fn find_function(facts: &Facts<'_>, start: usize) -> Option<usize> {
    let count = facts.spaces.funcs.len();
    for step in 0..count {
        let index = rotated(start, step, count);
        if has_values(facts, index) {
            return Some(index);
        }
    }
    None
}

/// Starts a function with parameters or results, or one past the end.
pub(crate) fn break_start(
    alloc: Global,
    module: &Module,
    u: &mut Unstructured<'_>,
) -> Result<Option<Change>, Error>
    ensures memory { IfErr result (λ e. e ≡ Error.Memory) }
{
    let facts = Facts::new(alloc, module)?;
    let start = usize::from(u.arbitrary::<u16>());
    let function = find_function(&facts, start).unwrap_or(facts.spaces.funcs.len());
    Ok(Some(Change::Start(u32::try_from(function).unwrap_or(u32::MAX))))
}
