ghost use Rattle.std.specs.Prelude.{◌↔◌, ◌≡◌, IsTrue, IfOk, IfErr};
ghost use Rattle.smith_types.specs.Expressions.{seeing};
ghost use Rattle.smith_decode.specs.Definitions.{null_of};
ghost use Rattle.smith_decode.specs.Modules.{table_pair};
ghost use Rattle.smith_check_types.specs.Renamed.{renamed_val};
ghost use Rattle.smith_check_types.specs.TypeSections.{canonical_index};
ghost use Rattle.smith_check_module.specs.ConstScopes.{IsScope, context_of};
ghost use Rattle.smith_check_module.specs.ValidModules.{IsConstant, IsTableInitialised};

use crate::expression::is_constant;
use crate::scope::Scope;
use smith_bytes::Error;
use smith_check_types::canonical_val_type;
use smith_decode::{GlobalDefinition, TableDefinition};
use smith_instr::{Instr, ReferenceInstr};
use smith_types::{RefType, ValType, WasmFeatures};
use std::alloc::Global;

// Returns whether `expression` is the null of `reference`.
fn is_null_of(reference: RefType, expression: &[Instr]) -> bool
    ensures { IsTrue result ↔ (expression.now ≡ null_of reference) }
{
    match expression {
        [Instr::Reference(ReferenceInstr::Null(heap_type))] => *heap_type == reference.heap_type,
        _ => false,
    }
}

/// Returns whether the first elements of `table` are null, if its type allows that, or the value of an
/// expression of its type (Validation, Tables), which requires garbage collection.
pub(crate) fn is_table_initialised(
    alloc: Global,
    scope: &Scope<'_>,
    table: &TableDefinition,
) -> Result<bool, Error>
    requires { IsScope (context_of scope.now) }
    ensures decided { IfOk result (λ yes. IsTrue yes
        ↔ IsTableInitialised (context_of scope.now) scope.now.indices.now (table_pair table.now)) }
    ensures memory { IfErr result (λ e. e ≡ Error.Memory) }
{
    let element = table.ty.element_type;
    let initial = table.initial.as_slice();
    if element.nullable && is_null_of(element, initial) {
        return Ok(true);
    }
    if !scope.features.contains(WasmFeatures::GC) {
        return Ok(false);
    }
    let wanted = canonical_val_type(scope.indices, ValType::Ref(element));
    is_constant(alloc, scope, wanted, initial)
}

/// Returns whether the first value of `global` is that of an expression of its type (Validation,
/// Globals).
pub(crate) fn is_global_initialised(
    alloc: Global,
    scope: &Scope<'_>,
    global: &GlobalDefinition,
) -> Result<bool, Error>
    requires { IsScope (context_of scope.now) }
    ensures decided { IfOk result (λ yes. IsTrue yes
        ↔ IsConstant (context_of scope.now) scope.now.indices.now
        (renamed_val (canonical_index scope.now.indices.now) global.now.ty.val_type)
        global.now.initial) }
    ensures memory { IfErr result (λ e. e ≡ Error.Memory) }
{
    let wanted = canonical_val_type(scope.indices, global.ty.val_type);
    is_constant(alloc, scope, wanted, global.initial.as_slice())
}
