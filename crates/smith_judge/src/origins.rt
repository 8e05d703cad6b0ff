ghost use Rattle.std.specs.Prelude.{◌≡◌, IfOk, IfErr};
ghost use Rattle.smith_types.specs.EntitySpaces.{spaces_in};
ghost use Rattle.smith_validity.specs.Decided.{count_at};
ghost use Rattle.smith_judge.specs.Places.{IsOrigin, imported_count};

use smith_bytes::Error;
use smith_types::{EntitySpaces, ExportKind, Imports, imported_spaces_of};
use std::alloc::Global;

/// Where an entity of an index space is.
#[derive(Clone, Copy, Debug)]
pub enum Origin {
    /// In the group of imports at this index.
    Imported(usize),
    /// At this index of the section that defines entities of its kind.
    Defined(usize),
}

// Returns the number of entities of the kind `kind`.
fn count_of(spaces: &EntitySpaces, kind: ExportKind) -> usize
    ensures { result ≡ count_at (spaces_in spaces.now) kind }
{
    match kind {
        ExportKind::Func => spaces.funcs.len(),
        ExportKind::Table => spaces.tables.len(),
        ExportKind::Memory => spaces.memories.len(),
        ExportKind::Global => spaces.globals.len(),
        ExportKind::Tag => spaces.tags.len(),
    }
}

/// Returns the number of entities of the kind `kind` that `groups` import.
pub fn imported_count(alloc: Global, groups: &[Imports], kind: ExportKind) -> Result<usize, Error>
    ensures ok { IfOk result (λ count. count ≡ imported_count kind groups.now) }
    ensures memory { IfErr result (λ e. e ≡ Error.Memory) }
{
    let spaces = imported_spaces_of(alloc, groups)?;
    Ok(count_of(&spaces, kind))
}

/// Returns where the entity of the kind `kind` at `index` of its index space is, in a module that imports
/// `groups`.
pub fn origin_of(
    alloc: Global,
    groups: &[Imports],
    kind: ExportKind,
    index: usize,
) -> Result<Origin, Error>
    ensures ok { IfOk result (IsOrigin groups.now kind index) }
    ensures memory { IfErr result (λ e. e ≡ Error.Memory) }
{
    let mut left = index;
    for place in 0..groups.len() {
        let count = imported_count(alloc, &groups[place..place + 1], kind)?;
        if left < count {
            return Ok(Origin::Imported(place));
        }
        left -= count;
    }
    Ok(Origin::Defined(left))
}
