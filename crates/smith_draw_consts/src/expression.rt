ghost use Rattle.std.specs.Prelude.{◌≡◌, ◌≤◌, ◌<◌, ◌++◌, ◌+◌, ◌*◌, ◌-◌, Some, None, [], ◌∷◌};
ghost use Rattle.std.specs.Prelude.{reverse, length, IfOk, IfErr, OnOk};
ghost use Rattle.smith_bytes.specs.Source.{KeepsPieces};
ghost use Rattle.smith_types.specs.ValidTypes.{IsValTypeValid};
ghost use Rattle.smith_types.specs.Syntax.value_type.ValType.TheVariants.{I32};
ghost use Rattle.smith_types.specs.Expressions.{Context, IsConstExpr};
ghost use Rattle.smith_draw_consts.specs.ConstScopes.{context_of, IsScope};
ghost use Rattle.smith_draw_consts.specs.ConstExprs.{state_of, length_at, expression_alone_at};
ghost use Rattle.smith_draw_consts.specs.ConstBounds.{most_instructions, MayRefuseConstExpr};
ghost use Rattle.smith_draw_consts.specs.ConstSteps.{IsDrawn, ReadsValue};
ghost use Rattle.smith_draw_consts.specs.ConstTasks.{IsTaskValid, IsStep, IsGrowthPaid, MayRefuseTask};
ghost use Rattle.smith_draw_consts.specs.KeptOffers.{AreKeptOffers};
ghost use Rattle.smith_draw_consts.specs.declared.task.Task.TheVariants.{Draw};
ghost use Rattle.smith_draw_consts.specs.declared.node.Operand.TheVariants.{Value};

use crate::extended_constant::draw_extended_constant;
use crate::kept_offers::KeptOffers;
use crate::node::{Operand, draw_node};
use crate::node_choice::{Choice, is_extended};
use crate::offer_choice::choose_offer;
use crate::scope::Scope;
use crate::task::{Task, push_node};
use smith_bytes::{Error, Unstructured};
use smith_types::{ConstInstr, Items, ValType};
use std::alloc::Global;

/// Draws an expression of the type `wanted` with all of the configured fuel.
pub(crate) fn draw_whole_expression(
    alloc: Global,
    scope: &Scope<'_>,
    kept: &mut KeptOffers,
    wanted: ValType,
    u: &mut Unstructured<'_>,
) -> Result<Items<ConstInstr>, Error>
    requires scope { IsScope (context_of scope.now) }
    requires wanted { IsValTypeValid (context_of scope.now).features
        (length (context_of scope.now).types) wanted }
    requires kept { AreKeptOffers (context_of scope.now) kept.old }

    // The draw.
    ensures exact { IfOk result (λ drawn. expression_alone_at (context_of scope.now)
        scope.now.config.now scope.now.config.now.const_expr_fuel wanted u.old
        ≡ Some (drawn, u.new)) }
    ensures none { IfErr result (λ e. e ≡ Error.EmptyChoose
        → expression_alone_at (context_of scope.now) scope.now.config.now
        scope.now.config.now.const_expr_fuel wanted u.old ≡ None) }

    // Validity and bounds.
    ensures typed { IfOk result (IsConstExpr (context_of scope.now) wanted) }
    ensures short { IfOk result (λ drawn.
        length drawn ≤ most_instructions scope.now.config.now (context_of scope.now).types) }

    // The records, refusals and the source.
    ensures kept { OnOk result (AreKeptOffers (context_of scope.now) kept.new) }
    ensures refusal { IfErr result
        (MayRefuseConstExpr scope.now.config.now (context_of scope.now) wanted) }
    ensures left { KeepsPieces u.old u.new }
{
    let mut drawn = Items::new(alloc);
    let mut fuel = scope.config.const_expr_fuel;
    draw_expression(alloc, scope, kept, wanted, &mut fuel, &mut drawn, u)?;
    Ok(drawn)
}

/// Draws a value of the type `wanted` and appends its instructions to `out`. The remaining work is
/// a list of tasks. The last of them is carried out next.
fn draw_expression(
    alloc: Global,
    scope: &Scope<'_>,
    kept: &mut KeptOffers,
    wanted: ValType,
    fuel: &mut u32,
    out: &mut Items<ConstInstr>,
    u: &mut Unstructured<'_>,
) -> Result<(), Error>
    requires scope { IsScope (context_of scope.now) }
    requires wanted { IsValTypeValid (context_of scope.now).features
        (length (context_of scope.now).types) wanted }
    requires kept { AreKeptOffers (context_of scope.now) kept.old }
    ensures exact { ReadsValue (context_of scope.now) scope.now.config.now wanted
        (state_of out.old fuel.old u.old) (state_of out.new fuel.new u.new) result }
    ensures drawn { OnOk result
        (IsDrawn (context_of scope.now) (wanted ∷ []) out.old fuel.old out.new fuel.new) }
    ensures kept { OnOk result (AreKeptOffers (context_of scope.now) kept.new) }
    ensures refusal { IfErr result
        (MayRefuseConstExpr scope.now.config.now (context_of scope.now) wanted) }
    ensures left { KeepsPieces u.old u.new }
{
    let mut tasks = Vec::new(alloc);
    draw_choice(alloc, scope, kept, wanted, &mut tasks, fuel, out, u)?;
    while let Some(task) = tasks.pop() {
        carry_out(alloc, scope, kept, task, &mut tasks, fuel, out, u)?;
    }
    Ok(())
}

/// Carries out `task` and adds the resulting tasks to `tasks`: at most the operands of one
/// instruction, and the instruction itself, for which it spends fuel.
fn carry_out(
    alloc: Global,
    scope: &Scope<'_>,
    kept: &mut KeptOffers,
    task: Task,
    tasks: &mut Vec<Task>,
    fuel: &mut u32,
    out: &mut Items<ConstInstr>,
    u: &mut Unstructured<'_>,
) -> Result<(), Error>
    requires scope { IsScope (context_of scope.now) }
    requires valid { IsTaskValid (context_of scope.now) task }
    requires kept { AreKeptOffers (context_of scope.now) kept.old }
    ensures step { OnOk result (IsStep (context_of scope.now) scope.now.config.now task
        (reverse tasks.old.items) (state_of out.old fuel.old u.old) (reverse tasks.new.items)
        (state_of out.new fuel.new u.new)) }
    ensures growth { OnOk result
        (IsGrowthPaid (context_of scope.now) tasks.old.items fuel.old tasks.new.items fuel.new) }
    ensures kept { OnOk result (AreKeptOffers (context_of scope.now) kept.new) }
    ensures refusal { IfErr result (MayRefuseTask (context_of scope.now) scope.now.config.now task
        (state_of out.old fuel.old u.old)) }
    ensures left { KeepsPieces u.old u.new }
{
    match task {
        Task::Write(instruction) => out.push(instruction),
        Task::Draw(Operand::Value(wanted)) => {
            draw_choice(alloc, scope, kept, wanted, tasks, fuel, out, u)
        }
        Task::Draw(Operand::Length) => {
            if scope.config.limit_arrays_in_const_exprs {
                return draw_length(fuel, out, u);
            }
            draw_choice(alloc, scope, kept, ValType::I32, tasks, fuel, out, u)
        }
    }
}

/// Chooses how to produce a value of the type `wanted`, and spends fuel. Appends an extended
/// constant or an instruction without operands to `out`. For any other choice, adds to `tasks` the
/// operands of one instruction, and the instruction itself, for which it spends fuel.
fn draw_choice(
    alloc: Global,
    scope: &Scope<'_>,
    kept: &mut KeptOffers,
    wanted: ValType,
    tasks: &mut Vec<Task>,
    fuel: &mut u32,
    out: &mut Items<ConstInstr>,
    u: &mut Unstructured<'_>,
) -> Result<(), Error>
    requires scope { IsScope (context_of scope.now) }
    requires wanted { IsValTypeValid (context_of scope.now).features
        (length (context_of scope.now).types) wanted }
    requires kept { AreKeptOffers (context_of scope.now) kept.old }
    ensures step { OnOk result (IsStep (context_of scope.now) scope.now.config.now
        (Draw (Value wanted)) (reverse tasks.old.items) (state_of out.old fuel.old u.old)
        (reverse tasks.new.items) (state_of out.new fuel.new u.new)) }
    ensures growth { OnOk result
        (IsGrowthPaid (context_of scope.now) tasks.old.items fuel.old tasks.new.items fuel.new) }
    ensures kept { OnOk result (AreKeptOffers (context_of scope.now) kept.new) }
    ensures refusal { IfErr result (MayRefuseTask (context_of scope.now) scope.now.config.now
        (Draw (Value wanted)) (state_of out.old fuel.old u.old)) }
    ensures left { KeepsPieces u.old u.new }
{
    let choice = choose_offer(alloc, scope, kept, wanted, *fuel, u)?;
    *fuel = fuel.saturating_sub(1);
    if is_extended(choice) {
        return draw_extended_constant(alloc, wanted, out, u);
    }
    let node = draw_node(alloc, scope.spaces.types.types(), wanted, choice, u)?;
    if node.operands.is_empty() {
        return out.push(node.instruction);
    }
    push_node(&node, tasks)
}

/// Draws a length that is at most `fuel`, and subtracts it from `fuel`.
fn draw_length(
    fuel: &mut u32,
    out: &mut Items<ConstInstr>,
    u: &mut Unstructured<'_>,
) -> Result<(), Error>
    ensures exact { OnOk result
        (state_of out.new fuel.new u.new ≡ length_at (state_of out.old fuel.old u.old)) }
    ensures drawn { (context : Context)
        → OnOk result (IsDrawn context (I32 ∷ []) out.old fuel.old out.new fuel.new) }
    ensures memory { IfErr result (λ e. e ≡ Error.Memory) }
    ensures left { KeepsPieces u.old u.new }
{
    let length = u.int_in_range(0..=*fuel);
    *fuel -= length;
    out.push(ConstInstr::I32Const(length.cast_signed()))
}
