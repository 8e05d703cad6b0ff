ghost use Rattle.std.specs.Prelude.{◌↔◌, ◌≡◌, All, IsTrue, IfOk, IfErr};
ghost use Rattle.smith_types.specs.EntitySpaces.{spaces_in};
ghost use Rattle.smith_types.specs.Segments.{IsItem, address_type};
ghost use Rattle.smith_types.specs.Subtyping.{IsInRange};
ghost use Rattle.smith_binary_sections.specs.Elements.{func_ref};
ghost use Rattle.smith_decode.specs.ElementReadings.{element_view, items_view, mode_view};
ghost use Rattle.smith_decode.specs.DataReadings.{mode_view as data_mode_view};
ghost use Rattle.smith_check_module.specs.ConstScopes.{IsScope, context_of};
ghost use Rattle.smith_check_module.specs.Items.{IsItemValid};
ghost use Rattle.smith_check_module.specs.ValidModules.{
  AreItemsValid,
  IsDataModeValid,
  IsElementModeValid,
  IsElementTypeValid,
  IsElementValid,
};

use crate::expression::{is_below, is_constant};
use crate::scope::Scope;
use crate::signature::function_reference;
use smith_bytes::Error;
use smith_check_operands::lookups::type_index_at;
use smith_check_types::canonical_ref_type;
use smith_decode::{DataMode, ElementItems, ElementMode, ElementSegment};
use smith_instr::{Instr, ReferenceInstr};
use smith_types::{
    AbstractHeapType, EntitySpaces, HeapType, Items, RefType, ValType, WasmFeatures,
};
use smith_validity::is_ref_type_valid;
use std::alloc::Global;

// Returns the type of addresses.
fn address_type(wide: bool) -> ValType
    ensures { result ≡ address_type wide }
{
    if wide { ValType::I64 } else { ValType::I32 }
}

/// Returns whether the mode of a data segment is valid (Validation, Data Segments).
pub(crate) fn is_data_mode_valid(
    alloc: Global,
    scope: &Scope<'_>,
    spaces: &EntitySpaces,
    mode: &DataMode,
) -> Result<bool, Error>
    requires { IsScope (context_of scope.now) }
    ensures decided { IfOk result (λ yes. IsTrue yes
        ↔ IsDataModeValid (context_of scope.now) scope.now.indices.now (spaces_in spaces.now)
        (data_mode_view mode.now)) }
    ensures memory { IfErr result (λ e. e ≡ Error.Memory) }
{
    match mode {
        DataMode::Passive => Ok(scope.features.contains(WasmFeatures::BULK_MEMORY)),
        DataMode::Active { memory, offset } => {
            match spaces.memories.as_slice().get(*memory as usize) {
                Some(memory) => is_constant(
                    alloc,
                    scope,
                    address_type(memory.memory64),
                    offset.as_slice(),
                ),
                None => Ok(false),
            }
        }
    }
}

// Returns whether the reference to a function is of the type `ty` (Validation, Element Segments).
fn is_item(scope: &Scope<'_>, ty: RefType, function: u32) -> bool
    requires { IsScope (context_of scope.now) }
    ensures { IsTrue result ↔ IsItem (context_of scope.now) ty function }
{
    match type_index_at(scope.funcs, function) {
        Some(index) => is_below(
            scope,
            function_reference(scope, function, index),
            ValType::Ref(ty),
        ),
        None => false,
    }
}

// Returns whether the reference to each of `functions` is of the type `ty`.
fn are_functions_valid(scope: &Scope<'_>, ty: RefType, functions: &[u32]) -> bool
    requires { IsScope (context_of scope.now) }
    ensures { IsTrue result ↔ All (IsItem (context_of scope.now) ty) functions.now }
{
    for function in functions {
        if !is_item(scope, ty, *function) {
            return false;
        }
    }
    true
}

// Returns whether an expression is an item of the type `ty`.
fn is_expression_valid(
    alloc: Global,
    scope: &Scope<'_>,
    ty: RefType,
    item: &[Instr],
) -> Result<bool, Error>
    requires { IsScope (context_of scope.now) }
    ensures decided { IfOk result (λ yes. IsTrue yes
        ↔ IsItemValid (context_of scope.now) scope.now.indices.now ty item.now) }
    ensures memory { IfErr result (λ e. e ≡ Error.Memory) }
{
    if scope.features.contains(WasmFeatures::REFERENCE_TYPES) {
        return is_constant(alloc, scope, ValType::Ref(ty), item);
    }
    match item {
        [Instr::Reference(ReferenceInstr::Func(function))] => Ok(is_item(scope, ty, *function)),
        _ => Ok(false),
    }
}

// Returns whether each expression is an item of the type `ty`.
fn are_expressions_valid(
    alloc: Global,
    scope: &Scope<'_>,
    ty: RefType,
    items: &[Items<Instr>],
) -> Result<bool, Error>
    requires { IsScope (context_of scope.now) }
    ensures decided { IfOk result (λ yes. IsTrue yes
        ↔ All (IsItemValid (context_of scope.now) scope.now.indices.now ty) items.now) }
    ensures memory { IfErr result (λ e. e ≡ Error.Memory) }
{
    for item in items {
        let valid = is_expression_valid(alloc, scope, ty, item.as_slice())?;
        if !valid {
            return Ok(false);
        }
    }
    Ok(true)
}

// Returns whether the items of a segment are of the type `ty`.
fn are_items_valid(
    alloc: Global,
    scope: &Scope<'_>,
    ty: RefType,
    items: &ElementItems,
) -> Result<bool, Error>
    requires { IsScope (context_of scope.now) }
    ensures decided { IfOk result (λ yes. IsTrue yes
        ↔ AreItemsValid (context_of scope.now) scope.now.indices.now ty (items_view items.now)) }
    ensures memory { IfErr result (λ e. e ≡ Error.Memory) }
{
    match items {
        ElementItems::Functions(functions) => {
            Ok(are_functions_valid(scope, ty, functions.as_slice()))
        }
        ElementItems::Expressions(items) => {
            are_expressions_valid(alloc, scope, ty, items.as_slice())
        }
    }
}

// Returns the type of references to functions.
fn func_ref(nullable: bool) -> RefType
    ensures { result ≡ func_ref nullable }
{
    RefType {
        nullable,
        heap_type: HeapType::Abstract {
            shared: false,
            ty: AbstractHeapType::Func,
        },
    }
}

// Returns whether the type of a segment is valid: that of function lists, or an enabled one.
fn is_element_type_valid(scope: &Scope<'_>, ty: RefType) -> bool
    ensures { IsTrue result ↔ IsElementTypeValid (context_of scope.now) ty }
{
    if ty == func_ref(false) {
        return true;
    }
    is_ref_type_valid(scope.features, scope.types.types().len(), ty)
        && (ty == func_ref(true) || scope.features.contains(WasmFeatures::REFERENCE_TYPES))
}

// Returns whether the mode of a segment of the type `ty` is valid.
fn is_element_mode_valid(
    alloc: Global,
    scope: &Scope<'_>,
    spaces: &EntitySpaces,
    ty: RefType,
    mode: &ElementMode,
) -> Result<bool, Error>
    requires scope { IsScope (context_of scope.now) }
    requires stands { IsInRange (context_of scope.now).types ty.heap_type }
    ensures decided { IfOk result (λ yes. IsTrue yes
        ↔ IsElementModeValid (context_of scope.now) scope.now.indices.now (spaces_in spaces.now) ty
        (mode_view mode.now)) }
    ensures memory { IfErr result (λ e. e ≡ Error.Memory) }
{
    match mode {
        ElementMode::Passive | ElementMode::Declared => {
            Ok(scope.features.contains(WasmFeatures::BULK_MEMORY))
        }
        ElementMode::Active { table, offset } => {
            match spaces.tables.as_slice().get(*table as usize) {
                Some(table) => {
                    if !is_below(scope, ValType::Ref(ty), ValType::Ref(table.element_type)) {
                        return Ok(false);
                    }
                    is_constant(alloc, scope, address_type(table.table64), offset.as_slice())
                }
                None => Ok(false),
            }
        }
    }
}

/// Returns whether an element segment is valid (Validation, Element Segments).
pub(crate) fn is_element_valid(
    alloc: Global,
    scope: &Scope<'_>,
    spaces: &EntitySpaces,
    segment: &ElementSegment,
) -> Result<bool, Error>
    requires { IsScope (context_of scope.now) }
    ensures decided { IfOk result (λ yes. IsTrue yes
        ↔ IsElementValid (context_of scope.now) scope.now.indices.now (spaces_in spaces.now)
        (element_view segment.now)) }
    ensures memory { IfErr result (λ e. e ≡ Error.Memory) }
{
    let ty = canonical_ref_type(scope.indices, segment.ty);
    if !is_element_type_valid(scope, ty) {
        return Ok(false);
    }
    let are_valid = are_items_valid(alloc, scope, ty, &segment.items)?;
    if !are_valid {
        return Ok(false);
    }
    is_element_mode_valid(alloc, scope, spaces, ty, &segment.mode)
}
