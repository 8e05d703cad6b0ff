ghost use Rattle.std.specs.Prelude.{◌≡◌, ◌&&◌, List, [], IfOk, IfErr};
ghost use Rattle.smith_bytes.specs.Source.{KeepsPieces};
ghost use Rattle.smith_types.specs.Syntax.value_type.ValType.{ValType as Val};
ghost use Rattle.smith_body_control.specs.CallChoices.{IsLeft, IsOutcome, by_reference_at};
ghost use Rattle.smith_body_control.specs.CallChoices.{by_reference_instr, indirect_at};
ghost use Rattle.smith_body_control.specs.CallChoices.{indirect_instr};
ghost use Rattle.smith_body_nodes.specs.Chosen.{or_nop};
ghost use Rattle.smith_body_nodes.specs.Nodes.{IsNode, IsOffer};
ghost use Rattle.smith_body_nodes.specs.Scopes.{IsScope, bare, where_stands};

use crate::function_tables::choose_function_table;
use crate::referred_types::choose_referred_type;
use smith_body_control::{Outcome, choose_fit_type, dropped_of};
use smith_body_nodes::{
    Draft, Node, Scope, address, func_type_at, node_with_top, nullable_to, or_nop,
};
use smith_bytes::{Error, Unstructured};
use smith_instr::Instr;
use smith_types::{HeapType, WasmFeatures};
use std::alloc::Global;

/// Chooses a call of a function in a table. Its results have the outcome `outcome`.
pub fn choose_indirect(
    alloc: Global,
    scope: &Scope<'_>,
    outcome: Outcome,
    draft: &Draft,
    u: &mut Unstructured<'_>,
) -> Result<Option<Node>, Error>
    requires scope { IsScope (bare scope.now) }
    requires outcome { IsOutcome (bare scope.now) outcome }
    ensures exact { IfOk result (λ chosen.
        indirect_at (where_stands scope.now draft.now) outcome u.old ≡ (chosen, u.new)) }
    ensures offer { (values : List Val) → IsLeft (bare scope.now) outcome values
        → IsOffer (where_stands scope.now draft.now) draft.now.set.items values result }
    ensures memory { IfErr result (λ e. e ≡ Error.Memory) }
    ensures left { KeepsPieces u.old u.new }
{
    let Some(ty) = choose_fit_type(scope, outcome, u) else {
        return Ok(None);
    };
    let Some(table) = choose_function_table(scope, u) else {
        return Ok(None);
    };
    let Some(function) = func_type_at(scope, ty as usize) else {
        return Ok(None);
    };
    let node = node_with_top(
        alloc,
        function.params.as_slice(),
        address(scope.tables[table as usize].table64),
        indirect_instr(outcome, table, ty),
        dropped_of(outcome, function),
    )?;
    Ok(Some(node))
}

/// Returns the call of a function of the type `ty` in the table `table`, a tail call if its results
/// are returned.
fn indirect_instr(outcome: Outcome, table: u32, ty: u32) -> Instr
    ensures { result ≡ indirect_instr outcome table ty }
{
    match outcome {
        Outcome::Returned => Instr::ReturnCallIndirect { table, ty },
        _ => Instr::CallIndirect { table, ty },
    }
}

/// Chooses a call of a function by a reference. Its results have the outcome `outcome`.
pub fn choose_by_reference(
    alloc: Global,
    scope: &Scope<'_>,
    outcome: Outcome,
    draft: &Draft,
    u: &mut Unstructured<'_>,
) -> Result<Option<Node>, Error>
    requires scope { IsScope (bare scope.now) }
    requires outcome { IsOutcome (bare scope.now) outcome }
    ensures exact { IfOk result (λ chosen.
        by_reference_at (where_stands scope.now draft.now) outcome u.old ≡ (chosen, u.new)) }
    ensures offer { (values : List Val) → IsLeft (bare scope.now) outcome values
        → IsOffer (where_stands scope.now draft.now) draft.now.set.items values result }
    ensures memory { IfErr result (λ e. e ≡ Error.Memory) }
    ensures left { KeepsPieces u.old u.new }
{
    if !may_name_types(scope) {
        return Ok(None);
    }
    let Some(ty) = choose_referred_type(scope, outcome, u) else {
        return Ok(None);
    };
    let Some(function) = func_type_at(scope, ty as usize) else {
        return Ok(None);
    };
    let node = node_with_top(
        alloc,
        function.params.as_slice(),
        nullable_to(HeapType::Concrete(ty)),
        by_reference_instr(outcome, ty),
        dropped_of(outcome, function),
    )?;
    Ok(Some(node))
}

/// Returns the call of a function of the type `ty` by a reference, a tail call if its results are
/// returned.
fn by_reference_instr(outcome: Outcome, ty: u32) -> Instr
    ensures { result ≡ by_reference_instr outcome ty }
{
    match outcome {
        Outcome::Returned => Instr::ReturnCallRef(ty),
        _ => Instr::CallRef(ty),
    }
}

/// Returns whether reference types may name a type by its index.
fn may_name_types(scope: &Scope<'_>) -> bool
    ensures { result ≡ ((bare scope.now).features.reference_types && (bare scope.now).features.gc) }
{
    scope.features.contains(WasmFeatures::REFERENCE_TYPES)
        && scope.features.contains(WasmFeatures::GC)
}

/// Chooses a call of a function in a table whose results are dropped, or `nop` if there is none.
pub fn choose_any_indirect(
    alloc: Global,
    scope: &Scope<'_>,
    draft: &Draft,
    u: &mut Unstructured<'_>,
) -> Result<Node, Error>
    requires scope { IsScope (bare scope.now) }
    ensures exact { IfOk result (λ node.
        or_nop (indirect_at (where_stands scope.now draft.now) Outcome.Dropped u.old)
        ≡ (node, u.new)) }
    ensures node { IfOk result (IsNode (where_stands scope.now draft.now) draft.now.set.items []) }
    ensures memory { IfErr result (λ e. e ≡ Error.Memory) }
    ensures left { KeepsPieces u.old u.new }
{
    let chosen = choose_indirect(alloc, scope, Outcome::Dropped, draft, u)?;
    or_nop(alloc, chosen)
}

/// Chooses a call of a function by a reference whose results are dropped, or `nop` if there is
/// none.
pub fn choose_any_by_reference(
    alloc: Global,
    scope: &Scope<'_>,
    draft: &Draft,
    u: &mut Unstructured<'_>,
) -> Result<Node, Error>
    requires scope { IsScope (bare scope.now) }
    ensures exact { IfOk result (λ node.
        or_nop (by_reference_at (where_stands scope.now draft.now) Outcome.Dropped u.old)
        ≡ (node, u.new)) }
    ensures node { IfOk result (IsNode (where_stands scope.now draft.now) draft.now.set.items []) }
    ensures memory { IfErr result (λ e. e ≡ Error.Memory) }
    ensures left { KeepsPieces u.old u.new }
{
    let chosen = choose_by_reference(alloc, scope, Outcome::Dropped, draft, u)?;
    or_nop(alloc, chosen)
}
