ghost use Rattle.std.specs.Prelude.{◌≡◌, [], IfOk, IfErr, false};
ghost use Rattle.smith_check_operands.specs.Scopes.{bare, IsScope};
ghost use Rattle.smith_check_operands.specs.Covers.{held, holding};
ghost use Rattle.smith_check_body.specs.Verdicts.{IsVerdict};

use crate::checker::Checker;
use crate::verdict::Verdict;
use smith_bytes::Error;
use smith_check_operands::{Kind, Operands, Scope, Shape};
use smith_check_rules::Slot;
use smith_instr::{Instr, SetLocals};
use smith_types::{Items, ValType};
use std::alloc::Global;
use std::mem::replace;

/// Begins the check of a body of a function with these results, with room for the types on the stack in
/// its blocks.
pub fn begin(alloc: Global, results: Items<ValType>, rooms: Vec<Vec<Slot>>) -> Checker
    ensures shape { result.shape ≡ record { kind = Kind.Block; params = []; results = results } }
    ensures operands { held result.operands ≡ holding [] false }
    ensures log { result.log.items ≡ [] }
    ensures height { result.height ≡ 0 }
    ensures outers { result.outers.items ≡ [] }
{
    Checker {
        shape: Shape {
            kind: Kind::Block,
            params: Items::new(alloc),
            results,
        },
        operands: Operands {
            known: Vec::new(alloc),
            dead: false,
        },
        log: SetLocals::new(alloc),
        height: 0,
        outers: Vec::new(alloc),
        rooms,
    }
}

/// Checks the body of a function, its last `end` aside, whose results are `results`. Requires the
/// parts of the context to be valid. `rooms` has room for the types on the stack in blocks, which the
/// check of the next body can use again.
///
/// Fails only if an allocation fails.
pub fn check_body(
    alloc: Global,
    scope: &Scope,
    results: Items<ValType>,
    body: &[Instr],
    rooms: &mut Vec<Vec<Slot>>,
) -> Result<Verdict, Error>
    requires scope { IsScope (bare scope.now) }
    requires results { results ≡ scope.now.results.now }
    ensures ok { IfOk result (λ verdict. IsVerdict (bare scope.now) body.now verdict) }
    ensures memory { IfErr result (λ e. e ≡ Error.Memory) }
{
    let mut checker = begin(alloc, results, replace(rooms, Vec::new(alloc)));
    for i in 0..body.len() {
        let goes = checker.check(alloc, scope, &body[i])?;
        if !goes {
            return Ok(Verdict::Refused { at: i });
        }
    }
    if !checker.is_finished(scope) {
        return Ok(Verdict::Refused { at: body.len() });
    }
    *rooms = checker.into_rooms();
    Ok(Verdict::Typed)
}
