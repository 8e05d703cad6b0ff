ghost use Rattle.std.specs.Prelude.{◌≡◌, ◌<◌, List, [], ◌∷◌, length, IfOk, IfErr, IfSome};
ghost use Rattle.smith_bytes.specs.Source.{KeepsPieces};
ghost use Rattle.smith_types.specs.Syntax.FeatureBits.{features_in};
ghost use Rattle.smith_types.specs.Syntax.value_type.ValType.{ValType as Val};
ghost use Rattle.smith_instr.specs.Contexts.{AreValid, IsValid};
ghost use Rattle.smith_body_choices.specs.Choices.{allowed_choice_at, any_call_at, any_statement_at};
ghost use Rattle.smith_body_choices.specs.Choices.{call_at, drop_at, dropped_at, ending_choice_at};
ghost use Rattle.smith_body_choices.specs.Choices.{ending_value_at, global_set_at, is_kept, set_at};
ghost use Rattle.smith_body_choices.specs.Choices.{statement_choice_at};
ghost use Rattle.smith_body_choices.specs.Choices.{tee_at, value_choice_at};
ghost use Rattle.smith_body_nodes.specs.Chosen.{or_nop};
ghost use Rattle.smith_body_nodes.specs.Nodes.{IsNode, IsNodeAllowed, IsOffer};
ghost use Rattle.smith_body_nodes.specs.Nodes.{head_instruction};
ghost use Rattle.smith_body_nodes.specs.Scopes.{AreLabels, IsScope, bare, where_stands};
ghost use Rattle.smith_body_nodes.specs.Traps.{IsNoStop};

use crate::families::{
    EndingFamily, StatementFamily, ValueFamily, ending_families, statement_families, value_families,
};
use smith_body_aggregates::{choose_creation, choose_field_read, choose_field_write};
use smith_body_calls::{
    choose_any_by_reference, choose_any_indirect, choose_by_reference, choose_called,
    choose_indirect, choose_tail_call, draw_called,
};
use smith_body_casts::choose_cast;
use smith_body_control::{
    Outcome, choose_any_block, choose_any_throw, choose_any_try, choose_block, choose_branch,
    choose_leaving, choose_table, choose_try,
};
use smith_body_memory::{
    choose_atomic, choose_atomic_store, choose_load, choose_memory, choose_store,
    choose_store_lane, choose_vector, choose_vector_store,
};
use smith_body_nodes::{
    Draft, Head, Node, Scope, choose_local, choose_mutable, choose_numeric, choose_reference_value,
    choose_select, choose_select_typed, function_of, indexed_count, is_node_allowed, plain, setter,
};
use smith_body_reference_branches::{
    choose_cast_branch, choose_kept, choose_kept_cast, choose_null_branch,
};
use smith_body_tables::{choose_bulk, choose_table_change, choose_table_value};
use smith_bytes::{Error, Unstructured};
use smith_draw_types::choose;
use smith_instr::Instr;
use smith_types::ValType;
use std::alloc::Global;

/// Chooses an allowed node that produces a value of the type `wanted`. Returns `None` if the choice
/// is a leaf, is not possible or is not allowed.
pub fn choose_allowed(
    alloc: Global,
    scope: &Scope<'_>,
    wanted: ValType,
    draft: &Draft,
    u: &mut Unstructured<'_>,
) -> Result<Option<Node>, Error>
    requires scope { IsScope (bare scope.now) }
    requires labels { AreLabels scope.now draft.now.labels.items }
    requires wanted { IsValid (bare scope.now) wanted }
    ensures exact { IfOk result (λ chosen.
        allowed_choice_at scope.now.config.now (where_stands scope.now draft.now) wanted u.old
        ≡ (chosen, u.new)) }
    ensures offer { IsOffer (where_stands scope.now draft.now) draft.now.set.items
        (wanted ∷ []) result }
    ensures allowed { IfOk result (λ chosen. IfSome chosen (IsNodeAllowed scope.now)) }
    ensures goes_on { IfOk result (λ chosen. IfSome chosen (λ node.
        IsNoStop scope.now.config.now (head_instruction node.head))) }
    ensures memory { IfErr result (λ e. e ≡ Error.Memory) }
    ensures left { KeepsPieces u.old u.new }
{
    let chosen = choose_value(alloc, scope, wanted, draft, u)?;
    match chosen {
        Some(node) => {
            if is_node_allowed(scope, &node) {
                return Ok(Some(node));
            }
            Ok(None)
        }
        None => Ok(None),
    }
}

fn choose_value(
    alloc: Global,
    scope: &Scope<'_>,
    wanted: ValType,
    draft: &Draft,
    u: &mut Unstructured<'_>,
) -> Result<Option<Node>, Error>
    requires scope { IsScope (bare scope.now) }
    requires labels { AreLabels scope.now draft.now.labels.items }
    requires wanted { IsValid (bare scope.now) wanted }
    ensures exact { IfOk result (λ chosen.
        value_choice_at scope.now.config.now (where_stands scope.now draft.now) wanted u.old
        ≡ (chosen, u.new)) }
    ensures offer { IsOffer (where_stands scope.now draft.now) draft.now.set.items
        (wanted ∷ []) result }
    ensures memory { IfErr result (λ e. e ≡ Error.Memory) }
    ensures left { KeepsPieces u.old u.new }
{
    let outcome = Outcome::Wanted(wanted);
    match choose(value_families(wanted), u) {
        ValueFamily::Leaf => Ok(None),
        ValueFamily::Numeric => choose_numeric(alloc, wanted, u),
        ValueFamily::Select => choose_select(alloc, wanted),
        ValueFamily::Tee => choose_tee(alloc, scope, wanted, draft, u),
        ValueFamily::Call => choose_call(alloc, scope, wanted, draft, u),
        ValueFamily::Block => choose_block(alloc, scope, wanted, draft, u),
        ValueFamily::Ending => choose_ending_value(alloc, scope, wanted, draft, u),
        ValueFamily::Load => choose_load(alloc, scope, wanted, draft, u),
        ValueFamily::Memory => choose_memory(alloc, scope, wanted, draft, u),
        ValueFamily::Table => choose_table_value(alloc, scope, wanted, draft, u),
        ValueFamily::SelectTyped => choose_select_typed(alloc, wanted),
        ValueFamily::Reference => choose_reference_value(alloc, scope, wanted, draft, u),
        ValueFamily::CallIndirect => choose_indirect(alloc, scope, outcome, draft, u),
        ValueFamily::CallRef => choose_by_reference(alloc, scope, outcome, draft, u),
        ValueFamily::NullBranch => choose_kept(alloc, scope, wanted, draft, u),
        ValueFamily::Vector => choose_vector(alloc, scope, wanted, draft, u),
        ValueFamily::Atomic => choose_atomic(alloc, scope, wanted, draft, u),
        ValueFamily::Creation => choose_creation(alloc, scope, wanted, draft, u),
        ValueFamily::FieldRead => choose_field_read(alloc, scope, wanted, draft, u),
        ValueFamily::Cast => choose_cast(alloc, scope, wanted, draft, u),
        ValueFamily::CastBranch => choose_kept_cast(alloc, scope, wanted, draft, u),
        ValueFamily::Try => choose_try(alloc, scope, wanted, draft, u),
    }
}

/// Chooses a block, or one of eight times an instruction after which no code is reached.
fn choose_ending_value(
    alloc: Global,
    scope: &Scope<'_>,
    wanted: ValType,
    draft: &Draft,
    u: &mut Unstructured<'_>,
) -> Result<Option<Node>, Error>
    requires scope { IsScope (bare scope.now) }
    requires labels { AreLabels scope.now draft.now.labels.items }
    requires wanted { IsValid (bare scope.now) wanted }
    ensures exact { IfOk result (λ chosen.
        ending_value_at (where_stands scope.now draft.now) wanted u.old ≡ (chosen, u.new)) }
    ensures offer { IsOffer (where_stands scope.now draft.now) draft.now.set.items
        (wanted ∷ []) result }
    ensures memory { IfErr result (λ e. e ≡ Error.Memory) }
    ensures left { KeepsPieces u.old u.new }
{
    let number = u.int_in_range(0..=7u8);
    if number < 7 {
        return choose_block(alloc, scope, wanted, draft, u);
    }
    choose_ending(alloc, scope, draft, u)
}

/// Chooses an instruction after which no code is reached: a branch, a tail call, a throw or
/// `unreachable`. It may come in place of any values. Returns `None` if the choice is not possible.
pub fn choose_ending(
    alloc: Global,
    scope: &Scope<'_>,
    draft: &Draft,
    u: &mut Unstructured<'_>,
) -> Result<Option<Node>, Error>
    requires scope { IsScope (bare scope.now) }
    requires labels { AreLabels scope.now draft.now.labels.items }
    ensures exact { IfOk result (λ chosen.
        ending_choice_at (where_stands scope.now draft.now) u.old ≡ (chosen, u.new)) }
    ensures offer { (values : List Val) → AreValid (bare scope.now) values
        → IsOffer (where_stands scope.now draft.now) draft.now.set.items values result }
    ensures memory { IfErr result (λ e. e ≡ Error.Memory) }
    ensures left { KeepsPieces u.old u.new }
{
    match choose(ending_families(), u) {
        EndingFamily::Leaving => {
            let node = choose_leaving(alloc, scope, draft, u)?;
            Ok(Some(node))
        }
        EndingFamily::TailCall => choose_tail_call(alloc, scope, draft, u),
        EndingFamily::Throw => choose_any_throw(alloc, scope, draft, u),
        EndingFamily::Table => {
            let node = choose_table(alloc, scope, draft, u)?;
            Ok(Some(node))
        }
        EndingFamily::Unreachable => {
            let node = plain(alloc, &[], Instr::Unreachable, 0)?;
            Ok(Some(node))
        }
    }
}

fn choose_tee(
    alloc: Global,
    scope: &Scope<'_>,
    wanted: ValType,
    draft: &Draft,
    u: &mut Unstructured<'_>,
) -> Result<Option<Node>, Error>
    requires scope { IsScope (bare scope.now) }
    requires wanted { IsValid (bare scope.now) wanted }
    ensures exact { IfOk result (λ chosen.
        tee_at (where_stands scope.now draft.now) wanted u.old ≡ (chosen, u.new)) }
    ensures offer { IsOffer (where_stands scope.now draft.now) draft.now.set.items
        (wanted ∷ []) result }
    ensures memory { IfErr result (λ e. e ≡ Error.Memory) }
    ensures left { KeepsPieces u.old u.new }
{
    let Some(index) = choose_local(scope, wanted, u) else {
        return Ok(None);
    };
    let value = scope.locals[index as usize];
    let node = setter(alloc, index, value, Instr::LocalTee(index))?;
    Ok(Some(node))
}

fn choose_call(
    alloc: Global,
    scope: &Scope<'_>,
    wanted: ValType,
    draft: &Draft,
    u: &mut Unstructured<'_>,
) -> Result<Option<Node>, Error>
    requires scope { IsScope (bare scope.now) }
    requires wanted { IsValid (bare scope.now) wanted }
    ensures exact { IfOk result (λ chosen.
        call_at (where_stands scope.now draft.now) wanted u.old ≡ (chosen, u.new)) }
    ensures offer { IsOffer (where_stands scope.now draft.now) draft.now.set.items
        (wanted ∷ []) result }
    ensures memory { IfErr result (λ e. e ≡ Error.Memory) }
    ensures left { KeepsPieces u.old u.new }
{
    let Some(index) = choose_called(scope, wanted, u) else {
        return Ok(None);
    };
    let Some(function) = function_of(scope, index as usize) else {
        return Ok(None);
    };
    let drops = function.results.len().saturating_sub(1);
    let node = plain(alloc, function.params.as_slice(), Instr::Call(index), drops)?;
    Ok(Some(node))
}

/// Chooses a node that leaves no value. A choice that is `nop` or is not allowed is made once more.
pub fn choose_statement(
    alloc: Global,
    scope: &Scope<'_>,
    draft: &Draft,
    u: &mut Unstructured<'_>,
) -> Result<Node, Error>
    requires scope { IsScope (bare scope.now) }
    requires labels { AreLabels scope.now draft.now.labels.items }
    ensures exact { IfOk result (λ node.
        statement_choice_at scope.now.config.now (where_stands scope.now draft.now) u.old
        ≡ (node, u.new)) }
    ensures node { IfOk result (IsNode (where_stands scope.now draft.now) draft.now.set.items []) }
    ensures memory { IfErr result (λ e. e ≡ Error.Memory) }
    ensures left { KeepsPieces u.old u.new }
{
    let first = choose_any_statement(alloc, scope, draft, u)?;
    if is_kept(scope, &first) {
        return Ok(first);
    }
    choose_any_statement(alloc, scope, draft, u)
}

/// Returns whether a node is allowed, and is not `nop`.
fn is_kept(scope: &Scope<'_>, node: &Node) -> bool
    ensures { result ≡ is_kept (features_in scope.now.features) scope.now.config.now node.now }
{
    if let Head::Plain(Instr::Nop) = &node.head {
        return false;
    }
    is_node_allowed(scope, node)
}

/// Chooses a node that leaves no value.
fn choose_any_statement(
    alloc: Global,
    scope: &Scope<'_>,
    draft: &Draft,
    u: &mut Unstructured<'_>,
) -> Result<Node, Error>
    requires scope { IsScope (bare scope.now) }
    requires labels { AreLabels scope.now draft.now.labels.items }
    ensures exact { IfOk result (λ node.
        any_statement_at scope.now.config.now (where_stands scope.now draft.now) u.old
        ≡ (node, u.new)) }
    ensures node { IfOk result (IsNode (where_stands scope.now draft.now) draft.now.set.items []) }
    ensures memory { IfErr result (λ e. e ≡ Error.Memory) }
    ensures left { KeepsPieces u.old u.new }
{
    match choose(statement_families(), u) {
        StatementFamily::Nop => plain(alloc, &[], Instr::Nop, 0),
        StatementFamily::Drop => choose_drop(alloc, scope, draft, u),
        StatementFamily::GlobalSet => choose_global_set(alloc, scope, draft, u),
        StatementFamily::Call => choose_any_call(alloc, scope, draft, u),
        StatementFamily::Block => choose_any_block(alloc, scope, draft, u),
        StatementFamily::Branch => choose_branch(alloc, scope, draft, u),
        StatementFamily::Store => choose_store(alloc, scope, draft, u),
        StatementFamily::LocalSet => choose_set(alloc, scope, draft, u),
        StatementFamily::TableChange => choose_table_change(alloc, scope, draft, u),
        StatementFamily::Bulk => choose_bulk(alloc, scope, draft, u),
        StatementFamily::CallIndirect => choose_any_indirect(alloc, scope, draft, u),
        StatementFamily::CallRef => choose_any_by_reference(alloc, scope, draft, u),
        StatementFamily::NullBranch => choose_null_branch(alloc, scope, draft, u),
        StatementFamily::VectorStore => choose_vector_store(alloc, scope, draft, u),
        StatementFamily::StoreLane => choose_store_lane(alloc, scope, draft, u),
        StatementFamily::AtomicStore => choose_atomic_store(alloc, scope, draft, u),
        StatementFamily::Fence => plain(alloc, &[], Instr::AtomicFence, 0),
        StatementFamily::FieldWrite => choose_field_write(alloc, scope, draft, u),
        StatementFamily::CastBranch => choose_cast_branch(alloc, scope, draft, u),
        StatementFamily::Try => choose_any_try(alloc, scope, draft, u),
    }
}

/// Chooses a value that is dropped, of a number type or of the type of a local. Without floats an
/// integer comes in place of a float.
fn choose_drop(
    alloc: Global,
    scope: &Scope<'_>,
    draft: &Draft,
    u: &mut Unstructured<'_>,
) -> Result<Node, Error>
    requires scope { IsScope (bare scope.now) }
    ensures exact { IfOk result (λ node.
        or_nop (drop_at scope.now.config.now (where_stands scope.now draft.now) u.old)
        ≡ (node, u.new)) }
    ensures node { IfOk result (IsNode (where_stands scope.now draft.now) draft.now.set.items []) }
    ensures memory { IfErr result (λ e. e ≡ Error.Memory) }
    ensures left { KeepsPieces u.old u.new }
{
    let value = draw_dropped(scope, u);
    plain(alloc, &[value], Instr::Drop, 0)
}

fn draw_dropped(scope: &Scope<'_>, u: &mut Unstructured<'_>) -> ValType
    requires scope { IsScope (bare scope.now) }
    ensures exact { dropped_at scope.now.config.now scope.now.locals.now u.old ≡ (result, u.new) }
    ensures valid { IsValid (bare scope.now) result }
    ensures left { KeepsPieces u.old u.new }
{
    let count = scope.locals.len();
    match u.int_in_range(0..=count + 3) {
        0 => ValType::I32,
        1 => ValType::I64,
        2 if scope.config.allow_floats => ValType::F32,
        3 if scope.config.allow_floats => ValType::F64,
        2 => ValType::I32,
        3 => ValType::I64,
        place => {
            if place - 4 < count {
                return scope.locals[place - 4];
            }
            ValType::I32
        }
    }
}

fn choose_set(
    alloc: Global,
    scope: &Scope<'_>,
    draft: &Draft,
    u: &mut Unstructured<'_>,
) -> Result<Node, Error>
    requires scope { IsScope (bare scope.now) }
    ensures exact { IfOk result (λ node.
        or_nop (set_at (where_stands scope.now draft.now) u.old) ≡ (node, u.new)) }
    ensures node { IfOk result (IsNode (where_stands scope.now draft.now) draft.now.set.items []) }
    ensures memory { IfErr result (λ e. e ≡ Error.Memory) }
    ensures left { KeepsPieces u.old u.new }
{
    let count = indexed_count(scope.locals.len());
    if count == 0 {
        return plain(alloc, &[], Instr::Nop, 0);
    }
    let index = u.int_in_range(0..=count - 1);
    let value = scope.locals[index];
    setter(alloc, index as u32, value, Instr::LocalSet(index as u32))
}

fn choose_global_set(
    alloc: Global,
    scope: &Scope<'_>,
    draft: &Draft,
    u: &mut Unstructured<'_>,
) -> Result<Node, Error>
    requires scope { IsScope (bare scope.now) }
    ensures exact { IfOk result (λ node.
        or_nop (global_set_at (where_stands scope.now draft.now) u.old) ≡ (node, u.new)) }
    ensures node { IfOk result (IsNode (where_stands scope.now draft.now) draft.now.set.items []) }
    ensures memory { IfErr result (λ e. e ≡ Error.Memory) }
    ensures left { KeepsPieces u.old u.new }
{
    let Some(index) = choose_mutable(scope, u) else {
        return plain(alloc, &[], Instr::Nop, 0);
    };
    let value = scope.globals[index as usize].val_type;
    plain(alloc, &[value], Instr::GlobalSet(index), 0)
}

fn choose_any_call(
    alloc: Global,
    scope: &Scope<'_>,
    draft: &Draft,
    u: &mut Unstructured<'_>,
) -> Result<Node, Error>
    requires scope { IsScope (bare scope.now) }
    ensures exact { IfOk result (λ node.
        or_nop (any_call_at (where_stands scope.now draft.now) u.old) ≡ (node, u.new)) }
    ensures node { IfOk result (IsNode (where_stands scope.now draft.now) draft.now.set.items []) }
    ensures memory { IfErr result (λ e. e ≡ Error.Memory) }
    ensures left { KeepsPieces u.old u.new }
{
    let Some(index) = draw_called(scope, u) else {
        return plain(alloc, &[], Instr::Nop, 0);
    };
    let Some(function) = function_of(scope, index as usize) else {
        return plain(alloc, &[], Instr::Nop, 0);
    };
    plain(
        alloc,
        function.params.as_slice(),
        Instr::Call(index),
        function.results.len(),
    )
}
