ghost use Rattle.std.specs.Prelude.{◌≡◌, [], IfErr, IfOk, MatchOption};
ghost use Rattle.smith_body.specs.Left.{left_by, left_by_head, results_of, spare_of};
ghost use Rattle.smith_body_nodes.specs.Scopes.{where_stands};

use smith_body_nodes::{Draft, Head, Node, Scope, func_type_at};
use smith_bytes::Error;
use smith_instr::Instr;
use smith_types::{FuncType, Items, ValType};
use std::alloc::Global;

/// Copies the types of the results of `node` that are left on the stack, if they are known.
pub(crate) fn spare_of(
    alloc: Global,
    scope: &Scope<'_>,
    node: &Node,
    draft: &Draft,
) -> Result<Items<ValType>, Error>
    ensures exact { IfOk result (λ spare. spare
        ≡ spare_of (where_stands scope.now draft.now) node.now.head node.now.drops) }
    ensures memory { IfErr result (λ e. e ≡ Error.Memory) }
{
    let left = left_by_head(scope, &node.head, draft);
    Items::from_slice(alloc, &left[left.len().saturating_sub(node.drops)..])
}

/// Returns the types of the results of a block, or of an instruction if they are known.
fn left_by_head<'a>(scope: &Scope<'a>, head: &'a Head, draft: &'a Draft) -> &'a [ValType]
    ensures { result.now ≡ left_by_head (where_stands scope.now draft.now) head.now }
{
    match head {
        Head::Plain(instruction) => left_by(scope, instruction, draft),
        Head::Enclosed(_, _, sides) | Head::If(_, sides) | Head::Try(_, _, sides) => {
            sides.results.as_slice()
        }
    }
}

/// Returns the types of the results of a call, or of the values that a conditional branch leaves.
fn left_by<'a>(scope: &Scope<'a>, instruction: &Instr, draft: &'a Draft) -> &'a [ValType]
    ensures { result.now ≡ left_by (where_stands scope.now draft.now) instruction.now }
{
    match instruction {
        Instr::Call(index) => match scope.funcs.get(*index as usize) {
            Some(ty) => results_of(func_type_at(scope, *ty as usize)),
            None => &[],
        },
        Instr::CallIndirect { ty, .. } => results_of(func_type_at(scope, *ty as usize)),
        Instr::CallRef(ty) => results_of(func_type_at(scope, *ty as usize)),
        Instr::BrIf(label) => match draft.labels.get(*label as usize) {
            Some(taken) => taken.as_slice(),
            None => &[],
        },
        _ => &[],
    }
}

fn results_of<'a>(function: Option<&'a FuncType>) -> &'a [ValType]
    ensures { MatchOption function.entry (result.now ≡ []) (λ function.
        result.now ≡ function.now.results) }
{
    match function {
        Some(function) => function.results.as_slice(),
        None => &[],
    }
}
