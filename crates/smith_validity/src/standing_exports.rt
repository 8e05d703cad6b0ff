ghost use Rattle.std.specs.Prelude.{◌≡◌, ◌↔◌, IsTrue};
ghost use Rattle.smith_types.specs.EntitySpaces.{spaces_in};
ghost use Rattle.smith_types.specs.Exports.{IsEntityAt};
ghost use Rattle.smith_validity.specs.Decided.{count_at, AreExportsFound};
ghost use Rattle.smith_types.specs.Syntax.entity_type.EntityType.{EntityType};

use crate::predicate::{Predicate, all_hold};
use smith_types::{EntitySpaces, ExportKind, Name};

/// Returns whether each of `exports`, given by name, kind and index, refers to an entity of
/// `spaces` (Validation, Exports).
pub fn are_exports_standing(spaces: &EntitySpaces, exports: &[(Name, ExportKind, u32)]) -> bool
    ensures { IsTrue result ↔ AreExportsFound (spaces_in spaces.now) exports.now }
{
    all_hold(&StandingExport { spaces }, exports)
}

#[derive(Clone, Copy)]
struct StandingExport<'a> {
    spaces: &'a EntitySpaces,
}

impl<'a> Predicate<(Name, ExportKind, u32)> for StandingExport<'a> {
    ghost meaning = { λ standing one.
        (ty : EntityType) × IsEntityAt (spaces_in standing.spaces.now) one.1 one.2 ty };

    fn holds(&self, item: &(Name, ExportKind, u32)) -> bool {
        is_entity_at(self.spaces, item.1, item.2)
    }
}

fn is_entity_at(spaces: &EntitySpaces, kind: ExportKind, index: u32) -> bool
    ensures { IsTrue result
        ↔ ((ty : EntityType) × IsEntityAt (spaces_in spaces.now) kind index ty) }
{
    (index as usize) < count_of(spaces, kind)
}

fn count_of(spaces: &EntitySpaces, kind: ExportKind) -> usize
    ensures { result ≡ count_at (spaces_in spaces.now) kind }
{
    match kind {
        ExportKind::Func => spaces.funcs.len(),
        ExportKind::Table => spaces.tables.len(),
        ExportKind::Memory => spaces.memories.len(),
        ExportKind::Global => spaces.globals.len(),
        ExportKind::Tag => spaces.tags.len(),
    }
}
