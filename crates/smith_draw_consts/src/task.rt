ghost use Rattle.std.specs.Prelude.{◌≡◌, ◌++◌, ◌∷◌, map, reverse, OnOk, IfErr};
ghost use Rattle.smith_draw_consts.specs.declared.task.Task.TheVariants.{Draw, Write};

use crate::node::{Node, Operand};
use smith_bytes::Error;
use smith_types::ConstInstr;

/// A remaining task while an expression is drawn.
#[derive(Clone, Copy)]
pub(crate) enum Task {
    /// Draws an operand: an expression of a type, or a length.
    Draw(Operand),
    /// Appends an instruction to those drawn.
    Write(ConstInstr),
}

/// Adds `node` to `tasks`, whose last task is carried out next. The operands of `node` become the
/// next tasks, in order, and its instruction follows them.
pub(crate) fn push_node(node: &Node, tasks: &mut Vec<Task>) -> Result<(), Error>
    ensures ok { OnOk result (reverse tasks.new.items
        ≡ map Draw node.now.operands ++ (Write node.now.instruction ∷ reverse tasks.old.items)) }
    ensures memory { IfErr result (λ e. e ≡ Error.Memory) }
{
    tasks.push(Task::Write(node.instruction))?;
    push_operands(node.operands.as_slice(), tasks)
}

/// Adds `operands` to `tasks` in reverse order.
fn push_operands(operands: &[Operand], tasks: &mut Vec<Task>) -> Result<(), Error>
    ensures ok { OnOk result
        (reverse tasks.new.items ≡ map Draw operands.now ++ reverse tasks.old.items) }
    ensures memory { IfErr result (λ e. e ≡ Error.Memory) }
{
    for index in 0..operands.len() {
        tasks.push(Task::Draw(operands[operands.len() - 1 - index]))?;
    }
    Ok(())
}
