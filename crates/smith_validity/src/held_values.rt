ghost use Rattle.std.specs.Prelude.{◌↔◌, IsTrue, All};
ghost use Rattle.smith_types.specs.EntitySpaces.{spaces_in};
ghost use Rattle.smith_types.specs.HeldValues.{values_in};
ghost use Rattle.smith_validity.specs.Decided.{IsStored, AreHeld, AreNamed};
ghost use Rattle.smith_types.specs.ValidTypes.{values_of};
ghost use Rattle.smith_types.specs.Syntax.value_type.ValType.TheVariants.{Ref};
ghost use Rattle.smith_types.specs.Syntax.composite_type.FieldType.{FieldType as Field};
ghost use Rattle.smith_types.specs.Syntax.composite_type.SubType.{SubType as Sub};
ghost use Rattle.smith_types.specs.Syntax.entity_type.GlobalType.{GlobalType as Global};
ghost use Rattle.smith_types.specs.Syntax.entity_type.TableType.{TableType as Table};

use crate::predicate::{Predicate, all_hold};
use smith_types::{
    CompositeInnerType, EntitySpaces, FieldType, GlobalType, StorageType, SubType, TableType,
    ValType,
};

/// Returns whether every value type in the composite type `inner` satisfies `predicate`.
pub fn all_values_hold<P: Predicate<ValType>>(predicate: &P, inner: &CompositeInnerType) -> bool
    ensures { IsTrue result ↔ All (P.meaning predicate.now) (values_of inner.now) }
{
    are_held(predicate, inner)
}

/// Returns whether every value type in `types`, and in the tables and globals of `spaces`,
/// satisfies `predicate`.
pub fn all_named_values_hold<P: Predicate<ValType>>(
    predicate: &P,
    types: &[SubType],
    spaces: &EntitySpaces,
) -> bool
    ensures { IsTrue result
        ↔ All (P.meaning predicate.now) (values_in types.now (spaces_in spaces.now)) }
{
    are_named(predicate, types, spaces)
}

fn are_named<P: Predicate<ValType>>(predicate: &P, types: &[SubType], spaces: &EntitySpaces) -> bool
    ensures { IsTrue result ↔ AreNamed (P.meaning predicate.now) types.now (spaces_in spaces.now) }
{
    are_in_types(predicate, types)
        && are_in_tables(predicate, spaces.tables.as_slice())
        && are_in_globals(predicate, spaces.globals.as_slice())
}

fn are_in_types<P: Predicate<ValType>>(predicate: &P, types: &[SubType]) -> bool
    ensures { IsTrue result ↔ All (λ (t : Sub).
        All (P.meaning predicate.now) (values_of t.composite_type.inner)) types.now }
{
    types
        .iter()
        .all(|ty| all_values_hold(predicate, &ty.composite_type.inner))
}

fn are_in_tables<P: Predicate<ValType>>(predicate: &P, tables: &[TableType]) -> bool
    ensures { IsTrue result
        ↔ All (λ (table : Table). P.meaning predicate.now (Ref table.element_type)) tables.now }
{
    tables
        .iter()
        .all(|table| predicate.holds(&ValType::Ref(table.element_type)))
}

fn are_in_globals<P: Predicate<ValType>>(predicate: &P, globals: &[GlobalType]) -> bool
    ensures { IsTrue result
        ↔ All (λ (global : Global). P.meaning predicate.now global.val_type) globals.now }
{
    globals
        .iter()
        .all(|global| predicate.holds(&global.val_type))
}

fn are_held<P: Predicate<ValType>>(predicate: &P, inner: &CompositeInnerType) -> bool
    ensures { IsTrue result ↔ AreHeld (P.meaning predicate.now) inner.now }
{
    match inner {
        CompositeInnerType::Array(array) => is_stored(predicate, array.0.element_type),
        CompositeInnerType::Func(function) => {
            all_hold(predicate, function.params.as_slice())
                && all_hold(predicate, function.results.as_slice())
        }
        CompositeInnerType::Struct(structure) => are_stored(predicate, structure.fields.as_slice()),
    }
}

fn are_stored<P: Predicate<ValType>>(predicate: &P, fields: &[FieldType]) -> bool
    ensures { IsTrue result ↔ All (λ (field : Field).
        IsStored (P.meaning predicate.now) field.element_type) fields.now }
{
    fields
        .iter()
        .all(|field| is_stored(predicate, field.element_type))
}

fn is_stored<P: Predicate<ValType>>(predicate: &P, storage: StorageType) -> bool
    ensures { IsTrue result ↔ IsStored (P.meaning predicate.now) storage }
{
    match storage {
        StorageType::Val(value) => predicate.holds(&value),
        _ => true,
    }
}
