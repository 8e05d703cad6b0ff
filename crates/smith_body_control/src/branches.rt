ghost use Rattle.std.specs.Prelude.{◌≡◌, List, [], All, Some, IfOk, IfErr};
ghost use Rattle.smith_bytes.specs.Source.{KeepsPieces};
ghost use Rattle.smith_types.specs.Syntax.value_type.ValType.{ValType as Val};
ghost use Rattle.smith_instr.specs.Contexts.{AreValid};
ghost use Rattle.smith_instr.specs.InstrTypes.{IsTaken};
ghost use Rattle.smith_body_control.specs.BranchChoices.{branch_at, leaving_at, some_targets_at};
ghost use Rattle.smith_body_control.specs.BranchChoices.{table_at, target_count_at};
ghost use Rattle.smith_body_nodes.specs.Chosen.{or_nop};
ghost use Rattle.smith_body_nodes.specs.Nodes.{IsNode};
ghost use Rattle.smith_body_nodes.specs.Scopes.{AreLabels, IsScope, bare, context_of, where_stands};

use smith_body_nodes::{Draft, Node, Scope, choose_target, conditional, plain};
use smith_bytes::{Error, Unstructured};
use smith_instr::Instr;
use smith_types::{Items, ValType};
use std::alloc::Global;

/// Chooses an unconditional branch, to any label or out of the function.
pub fn choose_leaving(
    alloc: Global,
    scope: &Scope<'_>,
    draft: &Draft,
    u: &mut Unstructured<'_>,
) -> Result<Node, Error>
    requires scope { IsScope (bare scope.now) }
    requires labels { AreLabels scope.now draft.now.labels.items }
    ensures exact { IfOk result (λ node.
        leaving_at (where_stands scope.now draft.now) u.old ≡ (Some node, u.new)) }
    ensures node { (values : List Val) → AreValid (bare scope.now) values
        → IfOk result (IsNode (where_stands scope.now draft.now) draft.now.set.items values) }
    ensures memory { IfErr result (λ e. e ≡ Error.Memory) }
    ensures left { KeepsPieces u.old u.new }
{
    let count = draft.labels.len().min(64);
    if count == 0 || u.arbitrary() {
        return plain(alloc, scope.results, Instr::Return, 0);
    }
    let index = u.int_in_range(0..=count - 1);
    let taken = draft.labels[index].as_slice();
    plain(alloc, taken, Instr::Br(index as u32), 0)
}

/// Chooses a conditional branch, to any label, or `nop` if there is no label.
pub fn choose_branch(
    alloc: Global,
    scope: &Scope<'_>,
    draft: &Draft,
    u: &mut Unstructured<'_>,
) -> Result<Node, Error>
    requires scope { IsScope (bare scope.now) }
    requires labels { AreLabels scope.now draft.now.labels.items }
    ensures exact { IfOk result (λ node.
        or_nop (branch_at (where_stands scope.now draft.now) u.old) ≡ (node, u.new)) }
    ensures node { IfOk result (IsNode (where_stands scope.now draft.now) draft.now.set.items []) }
    ensures memory { IfErr result (λ e. e ≡ Error.Memory) }
    ensures left { KeepsPieces u.old u.new }
{
    let count = draft.labels.len().min(64);
    if count == 0 {
        return plain(alloc, &[], Instr::Nop, 0);
    }
    let index = u.int_in_range(0..=count - 1);
    let taken = draft.labels[index].as_slice();
    conditional(alloc, taken, Instr::BrIf(index as u32), taken.len())
}

/// Draws the number of labels of a `br_table`, its default label aside: at most 7, and one of
/// sixteen times at most 63.
#[tactic(auto, unfolding(crate::specs::BranchChoices::target_count_at))]
fn draw_target_count(u: &mut Unstructured<'_>) -> u8
    ensures exact { target_count_at u.old ≡ (result, u.new) }
    ensures left { KeepsPieces u.old u.new }
{
    let number = u.int_in_range(0..=15u8);
    if number == 15 {
        return u.int_in_range(0..=63u8);
    }
    number / 2
}

fn draw_targets<'a>(
    alloc: Global,
    scope: &'a Scope<'a>,
    labels: &'a [Items<ValType>],
    taken: &'a [ValType],
    u: &mut Unstructured<'_>,
) -> Result<Items<u32>, Error>
    requires scope { IsScope (bare scope.now) }
    requires labels { AreLabels scope.now labels.now }
    requires taken { AreValid (bare scope.now) taken.now }
    ensures exact { IfOk result (λ targets.
        some_targets_at (context_of scope.now labels.now) taken.now u.old ≡ (targets, u.new)) }
    ensures taken { IfOk result (All (IsTaken (context_of scope.now labels.now) taken.now)) }
    ensures memory { IfErr result (λ e. e ≡ Error.Memory) }
    ensures left { KeepsPieces u.old u.new }
{
    let count = draw_target_count(u);
    let mut targets = Items::new(alloc);
    for _ in 0..count {
        let Some(label) = choose_target(scope, labels, taken, u) else {
            return Ok(targets);
        };
        targets.push(label)?;
    }
    Ok(targets)
}

/// Chooses a `br_table` to several labels, or `return` if there is no label.
pub fn choose_table(
    alloc: Global,
    scope: &Scope<'_>,
    draft: &Draft,
    u: &mut Unstructured<'_>,
) -> Result<Node, Error>
    requires scope { IsScope (bare scope.now) }
    requires labels { AreLabels scope.now draft.now.labels.items }
    ensures exact { IfOk result (λ node.
        table_at (where_stands scope.now draft.now) u.old ≡ (Some node, u.new)) }
    ensures node { (values : List Val) → AreValid (bare scope.now) values
        → IfOk result (IsNode (where_stands scope.now draft.now) draft.now.set.items values) }
    ensures memory { IfErr result (λ e. e ≡ Error.Memory) }
    ensures left { KeepsPieces u.old u.new }
{
    let labels = draft.labels.as_slice();
    let count = labels.len().min(64);
    if count == 0 {
        return plain(alloc, scope.results, Instr::Return, 0);
    }
    let index = u.int_in_range(0..=count - 1);
    let taken = labels[index].as_slice();
    let targets = draw_targets(alloc, scope, labels, taken, u)?;
    conditional(alloc, taken, Instr::BrTable(targets, index as u32), 0)
}
