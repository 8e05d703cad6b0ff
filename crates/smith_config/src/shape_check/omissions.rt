ghost use Rattle.std.specs.Prelude.{◌≡◌, ◌↔◌, IsTrue, All, false};
ghost use Rattle.smith_types.specs.EntitySpaces.{spaces_in};
ghost use Rattle.smith_types.specs.Syntax.composite_type.SubType.{SubType as Sub};
ghost use Rattle.smith_types.specs.Syntax.entity_type.GlobalType.{GlobalType as Global};
ghost use Rattle.smith_types.specs.Syntax.entity_type.TableType.{TableType as Table};
ghost use Rattle.smith_config.specs.Shapes.{IsNothingLeftOut, IsValTypeIncluded};

use smith_types::{EntitySpaces, GlobalType, HeapType, SubType, TableType, TypeSpace, ValType};
use smith_validity::{Predicate, all_named_values_hold};

/// Returns whether nothing in `space` and `spaces` is shared except memories, and no reference is
/// exact.
pub(crate) fn is_nothing_left_out(space: &TypeSpace, spaces: &EntitySpaces) -> bool
    ensures { IsTrue result ↔ IsNothingLeftOut space.now.types (spaces_in spaces.now) }
{
    is_nothing_left_out_of(space.types(), spaces)
}

fn is_nothing_left_out_of(types: &[SubType], spaces: &EntitySpaces) -> bool
    ensures { IsTrue result ↔ IsNothingLeftOut types.now (spaces_in spaces.now) }
{
    are_types_unshared(types)
        && all_named_values_hold(&Included, types, spaces)
        && are_tables_unshared(spaces.tables.as_slice())
        && are_globals_unshared(spaces.globals.as_slice())
}

fn are_types_unshared(types: &[SubType]) -> bool
    ensures { IsTrue result ↔ All (λ (t : Sub). t.composite_type.shared ≡ false) types.now }
{
    types.iter().all(|ty| !ty.composite_type.shared)
}

fn are_tables_unshared(tables: &[TableType]) -> bool
    ensures { IsTrue result ↔ All (λ (table : Table). table.shared ≡ false) tables.now }
{
    tables.iter().all(|table| !table.shared)
}

fn are_globals_unshared(globals: &[GlobalType]) -> bool
    ensures { IsTrue result ↔ All (λ (global : Global). global.shared ≡ false) globals.now }
{
    globals.iter().all(|global| !global.shared)
}

/// Tests whether a value type may occur in a shape.
#[derive(Clone, Copy)]
struct Included;

impl Predicate<ValType> for Included {
    ghost meaning = { λ included value. IsValTypeIncluded value };

    fn holds(&self, item: &ValType) -> bool {
        match item {
            ValType::Ref(reference) => match reference.heap_type {
                HeapType::Abstract { shared, ty: _ } => !shared,
                HeapType::Concrete(_) => true,
                HeapType::Exact(_) => false,
            },
            _ => true,
        }
    }
}
