ghost use Rattle.std.specs.Prelude.{◌≡◌, ◌<◌, None, [], ◌∷◌, slice_index_or, IfOk, IfErr};
ghost use Rattle.smith_bytes.specs.Source.{KeepsPieces};
ghost use Rattle.smith_draw_types.specs.Drawing.{AlwaysDraws};
ghost use Rattle.smith_instr.specs.Contexts.{IsValid};
ghost use Rattle.smith_body_control.specs.BlockChoices.{any_block_at, block_at, handler, opening_at};
ghost use Rattle.smith_body_control.specs.BlockChoices.{is_of_handler, openings};
ghost use Rattle.smith_body_nodes.specs.Chosen.{or_nop};
ghost use Rattle.smith_body_nodes.specs.Nodes.{IsNode, IsOffer};
ghost use Rattle.smith_body_nodes.specs.Scopes.{IsScope, bare, where_stands};

use crate::throws::exn;
use crate::try_tables::refers_to_caught;
use smith_body_nodes::{
    Draft, Node, Opening, Scope, block, func_type_at, indexed_count, nullable_to,
};
use smith_bytes::{Error, Unstructured};
use smith_instr::BlockType;
use smith_types::ValType;
use std::alloc::Global;

#[tactic(auto, unfolding(crate::specs::BlockChoices::opening_at))]
fn draw_opening(u: &mut Unstructured<'_>) -> Option<Opening>
    ensures { AlwaysDraws (opening_at u.old) result u.old u.new }
{
    opening_of(u.int_in_range(0..=5u8))
}

/// Returns the opening at the place `number`. An `if` has its `else` if there is none.
fn opening_of(number: u8) -> Option<Opening>
    requires { number < 6 }
    ensures { result ≡ slice_index_or openings number None }
{
    match number {
        0 | 3 => Some(Opening::Block),
        1 | 4 => Some(Opening::Loop),
        2 => None,
        _ => Some(Opening::IfAlone),
    }
}

/// Chooses a block that produces a value of the type `wanted`.
pub fn choose_block(
    alloc: Global,
    scope: &Scope<'_>,
    wanted: ValType,
    draft: &Draft,
    u: &mut Unstructured<'_>,
) -> Result<Option<Node>, Error>
    requires wanted { IsValid (bare scope.now) wanted }
    ensures exact { IfOk result (λ chosen. block_at wanted u.old ≡ (chosen, u.new)) }
    ensures offer { IsOffer (where_stands scope.now draft.now) draft.now.set.items
        (wanted ∷ []) result }
    ensures memory { IfErr result (λ e. e ≡ Error.Memory) }
    ensures left { KeepsPieces u.old u.new }
{
    let opening = draw_opening(u);
    let node = block(alloc, opening, BlockType::Value(wanted), &[], &[wanted], 0)?;
    Ok(Some(node))
}

/// Chooses a block whose results are dropped. Its type is a function type, or has no parameters and
/// results. One of 16 times its result is a reference to an exception, if clauses may pass one.
pub fn choose_any_block(
    alloc: Global,
    scope: &Scope<'_>,
    draft: &Draft,
    u: &mut Unstructured<'_>,
) -> Result<Node, Error>
    requires scope { IsScope (bare scope.now) }
    ensures exact { IfOk result (λ node.
        or_nop (any_block_at (where_stands scope.now draft.now) u.old) ≡ (node, u.new)) }
    ensures node { IfOk result (IsNode (where_stands scope.now draft.now) draft.now.set.items []) }
    ensures memory { IfErr result (λ e. e ≡ Error.Memory) }
    ensures left { KeepsPieces u.old u.new }
{
    let number = u.int_in_range(0..=255u8);
    if is_of_handler(scope, number) {
        return handler(alloc);
    }
    let opening = opening_of(number % 6);
    let index = u.int_in_range(0..=indexed_count(scope.types.types().len()));
    match func_type_at(scope, index) {
        Some(function) => block(
            alloc,
            opening,
            BlockType::Func(index as u32),
            function.params.as_slice(),
            function.results.as_slice(),
            function.results.len(),
        ),
        None => block(alloc, opening, BlockType::Empty, &[], &[], 0),
    }
}

/// Returns whether a block is a handler by the number drawn for it.
fn is_of_handler(scope: &Scope<'_>, number: u8) -> bool
    ensures { result ≡ is_of_handler (bare scope.now).features number }
{
    number >= 240 && refers_to_caught(scope)
}

/// Creates a block that leaves a reference to an exception, which is dropped.
fn handler(alloc: Global) -> Result<Node, Error>
    ensures exact { IfOk result (λ node. node ≡ handler) }
    ensures memory { IfErr result (λ e. e ≡ Error.Memory) }
{
    let exnref = nullable_to(exn());
    let ty = BlockType::Value(exnref);
    block(alloc, Some(Opening::Block), ty, &[], &[exnref], 1)
}
