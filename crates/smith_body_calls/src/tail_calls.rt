ghost use Rattle.std.specs.Prelude.{◌≡◌, ◌<◌, true, List, [], length, IfOk, IfErr, IfSome};
ghost use Rattle.smith_bytes.specs.Source.{KeepsPieces};
ghost use Rattle.smith_types.specs.Syntax.value_type.ValType.{ValType as Val};
ghost use Rattle.smith_instr.specs.Contexts.{AreValid};
ghost use Rattle.smith_body_control.specs.CallChoices.{is_returnable, return_call_at, tail_call_at};
ghost use Rattle.smith_body_nodes.specs.Nodes.{IsNode, IsOffer};
ghost use Rattle.smith_body_nodes.specs.Offered.{chunk_at};
ghost use Rattle.smith_body_nodes.specs.Scopes.{IsScope, bare, indexed, where_stands};

use crate::calls::{choose_by_reference, choose_indirect};
use smith_body_control::{Outcome, is_fit};
use smith_body_nodes::{
    Draft, Node, Offer, Scope, choose_in_chunk, function_of, indexed_count, plain,
};
use smith_bytes::{Error, Unstructured};
use smith_instr::Instr;
use std::alloc::Global;

/// Functions whose results the function of the body may return.
#[derive(Clone, Copy)]
struct ReturnOffer<'a> {
    scope: &'a Scope<'a>,
}

impl<'a> Offer for ReturnOffer<'a> {
    ghost use Rattle.std.specs.Prelude.{length};
    ghost use Rattle.smith_body_control.specs.CallChoices.{is_returnable};
    ghost use Rattle.smith_body_nodes.specs.Scopes.{IsScope, bare, indexed};

    ghost ready = { λ self. IsScope (bare self.scope.now) };

    ghost size = { λ self. indexed (length self.scope.now.funcs.now) };

    ghost test = { λ self index. is_returnable (bare self.scope.now) index };

    fn count(&self) -> usize {
        indexed_count(self.scope.funcs.len())
    }

    fn is_offered(&self, index: usize) -> bool {
        match function_of(self.scope, index) {
            Some(function) => is_fit(self.scope, Outcome::Returned, function),
            None => false,
        }
    }
}

/// Chooses a function of a drawn chunk whose results the function of the body may return, if there
/// is one.
fn choose_returnable(scope: &Scope<'_>, u: &mut Unstructured<'_>) -> Option<u32>
    requires scope { IsScope (bare scope.now) }
    ensures exact { chunk_at (is_returnable (bare scope.now))
        (indexed (length scope.now.funcs.now)) u.old
        ≡ (result, u.new) }
    ensures below { IfSome result (λ index. index < length scope.now.funcs.now) }
    ensures offered { IfSome result (λ index. is_returnable (bare scope.now) index ≡ true) }
    ensures left { KeepsPieces u.old u.new }
{
    let index = choose_in_chunk(&ReturnOffer { scope }, u)?;
    Some(index as u32)
}

fn choose_return_call(
    alloc: Global,
    scope: &Scope<'_>,
    draft: &Draft,
    u: &mut Unstructured<'_>,
) -> Result<Option<Node>, Error>
    requires scope { IsScope (bare scope.now) }
    ensures exact { IfOk result (λ chosen.
        return_call_at (where_stands scope.now draft.now) u.old ≡ (chosen, u.new)) }
    ensures offer { (values : List Val) → AreValid (bare scope.now) values
        → IsOffer (where_stands scope.now draft.now) draft.now.set.items values result }
    ensures memory { IfErr result (λ e. e ≡ Error.Memory) }
    ensures left { KeepsPieces u.old u.new }
{
    let Some(index) = choose_returnable(scope, u) else {
        return Ok(None);
    };
    let Some(function) = function_of(scope, index as usize) else {
        return Ok(None);
    };
    let node = plain(
        alloc,
        function.params.as_slice(),
        Instr::ReturnCall(index),
        0,
    )?;
    Ok(Some(node))
}

/// Chooses a tail call.
pub fn choose_tail_call(
    alloc: Global,
    scope: &Scope<'_>,
    draft: &Draft,
    u: &mut Unstructured<'_>,
) -> Result<Option<Node>, Error>
    requires scope { IsScope (bare scope.now) }
    ensures exact { IfOk result (λ chosen.
        tail_call_at (where_stands scope.now draft.now) u.old ≡ (chosen, u.new)) }
    ensures offer { (values : List Val) → AreValid (bare scope.now) values
        → IsOffer (where_stands scope.now draft.now) draft.now.set.items values result }
    ensures memory { IfErr result (λ e. e ≡ Error.Memory) }
    ensures left { KeepsPieces u.old u.new }
{
    let kind = u.int_in_range(0..=2u8);
    if kind == 0 {
        return choose_return_call(alloc, scope, draft, u);
    }
    if kind == 1 {
        return choose_indirect(alloc, scope, Outcome::Returned, draft, u);
    }
    choose_by_reference(alloc, scope, Outcome::Returned, draft, u)
}
