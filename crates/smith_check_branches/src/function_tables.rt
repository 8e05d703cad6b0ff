ghost use Rattle.std.specs.Prelude.{◌≡◌, ◌↔◌, IsTrue, MatchOption, slice_get};
ghost use Rattle.smith_check_operands.specs.Scopes.{bare};
ghost use Rattle.smith_instr.specs.InstrTypes.{IsFunctionTable};
ghost use Rattle.smith_check_branches.specs.Tables.{HasNoFunctionTable, AreFunctions, functions};

use smith_check_operands::Scope;
use smith_types::{AbstractHeapType, HeapType, RefType, TableType, TypeSpace, ValType};
use smith_validity::{Predicate, StandingValue};

/// Returns the type of nullable references to any functions, which are shared if `shared` is `true`.
pub fn functions(shared: bool) -> RefType
    ensures { result ≡ functions shared }
{
    RefType {
        nullable: true,
        heap_type: HeapType::Abstract {
            shared,
            ty: AbstractHeapType::Func,
        },
    }
}

/// Returns whether references of the type `element` refer to functions.
pub fn are_functions(types: &TypeSpace, element: RefType) -> bool
    ensures { IsTrue result ↔ AreFunctions types.now.types element }
{
    let standing = StandingValue {
        types: types.types(),
    };
    if !standing.holds(&ValType::Ref(element)) {
        return false;
    }
    types.ref_type_is_sub_type(element, functions(false))
        || types.ref_type_is_sub_type(element, functions(true))
}

/// Returns the table type at an index.
pub fn table_at(tables: &[TableType], index: u32) -> Option<TableType>
    ensures { result ≡ slice_get tables.now index }
{
    let index = index as usize;
    if index < tables.len() {
        Some(tables[index])
    } else {
        None
    }
}

/// Returns whether the addresses of the table of functions at an index are of 64 bits, if there is
/// one.
pub fn function_table(scope: &Scope, index: u32) -> Option<bool>
    ensures { MatchOption result (HasNoFunctionTable (bare scope.now) index)
        (λ wide. IsFunctionTable (bare scope.now) index wide) }
{
    let Some(table) = table_at(scope.tables, index) else {
        return None;
    };
    if are_functions(scope.types, table.element_type) {
        Some(table.table64)
    } else {
        None
    }
}
