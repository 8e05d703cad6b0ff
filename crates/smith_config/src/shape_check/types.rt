ghost use Rattle.std.specs.Prelude.{◌↔◌, IsTrue, All, length};
ghost use Rattle.smith_types.specs.Syntax.Features.{every_feature};
ghost use Rattle.smith_types.specs.EntitySpaces.{spaces_in};
ghost use Rattle.smith_types.specs.HeldValues.{values_in};
ghost use Rattle.smith_types.specs.ValidTypes.{IsValTypeValid, IsShareable, AreTypesValid};
ghost use Rattle.smith_types.specs.Syntax.value_type.ValType.TheVariants.{Ref};
ghost use Rattle.smith_types.specs.Syntax.entity_type.GlobalType.{GlobalType as Global};
ghost use Rattle.smith_types.specs.Syntax.entity_type.TableType.{TableType as Table};
ghost use Rattle.smith_config.specs.ShapeFaults.{AreTypesSound};

use smith_types::{EntitySpaces, GlobalType, SubType, TableType, TypeSpace, ValType, WasmFeatures};
use smith_validity::{
    Predicate, ShareableValue, ValidValue, all_named_values_hold, are_types_valid,
};

/// Returns whether the types of `space`, and the entities of `spaces` that refer to types, are
/// valid with every feature enabled.
pub(crate) fn are_types_sound(space: &TypeSpace, spaces: &EntitySpaces) -> bool
    ensures { IsTrue result ↔ AreTypesSound space.now (spaces_in spaces.now) }
{
    are_types_valid_with_all(space)
        && are_values_valid_with_all(space.types(), spaces)
        && may_tables_be_shared(space.types(), spaces.tables.as_slice())
        && may_globals_be_shared(space.types(), spaces.globals.as_slice())
}

fn are_types_valid_with_all(space: &TypeSpace) -> bool
    ensures { IsTrue result ↔ AreTypesValid every_feature space.now }
{
    are_types_valid(WasmFeatures::every(), space)
}

fn are_values_valid_with_all(types: &[SubType], spaces: &EntitySpaces) -> bool
    ensures { IsTrue result
        ↔ All (IsValTypeValid every_feature (length types.now))
        (values_in types.now (spaces_in spaces.now)) }
{
    let valid = ValidValue {
        features: WasmFeatures::every(),
        end: types.len(),
    };
    all_named_values_hold(&valid, types, spaces)
}

fn may_tables_be_shared(types: &[SubType], tables: &[TableType]) -> bool
    ensures { IsTrue result ↔ All (λ (table : Table).
        IsTrue table.shared → IsShareable types.now (Ref table.element_type)) tables.now }
{
    tables.iter().all(|table| may_hold(types, table.shared, ValType::Ref(table.element_type)))
}

fn may_globals_be_shared(types: &[SubType], globals: &[GlobalType]) -> bool
    ensures { IsTrue result ↔ All (λ (global : Global).
        IsTrue global.shared → IsShareable types.now global.val_type) globals.now }
{
    globals
        .iter()
        .all(|global| may_hold(types, global.shared, global.val_type))
}

// Returns whether an entity may hold the value type `value`, given whether the entity is shared.
fn may_hold(types: &[SubType], is_shared: bool, value: ValType) -> bool
    ensures { IsTrue result ↔ (IsTrue is_shared → IsShareable types.now value) }
{
    !is_shared || ShareableValue { types }.holds(&value)
}
