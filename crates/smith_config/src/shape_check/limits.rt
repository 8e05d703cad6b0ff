ghost use Rattle.std.specs.Prelude.{◌↔◌, IsTrue, All};
ghost use Rattle.smith_types.specs.Syntax.Features.{every_feature};
ghost use Rattle.smith_types.specs.EntitySpaces.{spaces_in};
ghost use Rattle.smith_types.specs.Entities.{AreLimitsValid, most_elements, IsMemoryValid};
ghost use Rattle.smith_types.specs.Syntax.entity_type.TableType.{TableType as Table};
ghost use Rattle.smith_config.specs.Shapes.{IsShallow};
ghost use Rattle.smith_config.specs.ShapeFaults.{AreLimitsSound};

use smith_types::{EntitySpaces, MemoryType, TableType, TypeSpace, WasmFeatures};
use smith_validity::{are_limits_valid, are_memories_valid, most_elements_of};

/// The maximum depth of a type. A type without a supertype has depth 1.
const MOST_DEEP: u32 = 63;

/// Returns whether the limits of the tables of `spaces` fit, its memories are valid with every
/// feature enabled, and no type of `space` is too deep.
pub(crate) fn are_limits_sound(space: &TypeSpace, spaces: &EntitySpaces) -> bool
    ensures { IsTrue result ↔ AreLimitsSound space.now (spaces_in spaces.now) }
{
    are_tables_limited(spaces.tables.as_slice())
        && are_memories_valid_with_all(spaces.memories.as_slice())
        && is_shallow(space)
}

fn are_tables_limited(tables: &[TableType]) -> bool
    ensures { IsTrue result ↔ All (λ (table : Table).
        AreLimitsValid (most_elements table.table64) table.minimum table.maximum) tables.now }
{
    tables.iter().all(|table| is_table_limited(*table))
}

fn is_table_limited(table: TableType) -> bool
    ensures { IsTrue result
        ↔ AreLimitsValid (most_elements table.table64) table.minimum table.maximum }
{
    are_limits_valid(
        most_elements_of(table.table64),
        table.minimum,
        table.maximum,
    )
}

fn are_memories_valid_with_all(memories: &[MemoryType]) -> bool
    ensures { IsTrue result ↔ All (IsMemoryValid every_feature) memories.now }
{
    are_memories_valid(WasmFeatures::every(), memories)
}

fn is_shallow(space: &TypeSpace) -> bool
    ensures { IsTrue result ↔ IsShallow space.now.types }
{
    let count = space.types().len() as u32;
    for index in 0..count {
        if space.depth(index) > MOST_DEEP {
            return false;
        }
    }
    true
}
