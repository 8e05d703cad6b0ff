ghost use Rattle.std.specs.Prelude.{◌≡◌, IfOk, IfErr, MatchOption, MatchBool, false};
ghost use Rattle.smith_instr.specs.Contexts.{AreValid};
ghost use Rattle.smith_check_rules.specs.Slots.{AreSlotsValid, values};
ghost use Rattle.smith_check_operands.specs.Scopes.{bare, IsScope};
ghost use Rattle.smith_check_operands.specs.Covers.{held, holding, Pops, PopsNothing};
ghost use Rattle.smith_check_operands.specs.Closes.{MayEnd, IsFirst};
ghost use Rattle.smith_check_body.specs.Opens.{taken_by};
ghost use Rattle.smith_check_body.specs.Checks.{HasNoType, IsShapeOf};

use smith_bytes::Error;
use smith_check_operands::below::values_fit;
use smith_check_operands::lookups::{func_at, is_valid};
use smith_check_operands::{Kind, Operands, Scope, Shape};
use smith_check_rules::Slot;
use smith_instr::BlockType;
use smith_types::{Items, ValType};
use std::alloc::Global;

/// Takes the operands of an instruction that opens a block off the stack, and returns whether they
/// are there.
#[inline(always)]
pub fn pop_for(operands: &mut Operands, scope: &Scope, kind: Kind, params: &[ValType]) -> bool
    requires known { AreSlotsValid (bare scope.now) operands.old.known.items }
    requires params { AreValid (bare scope.now) params.now }
    ensures { MatchBool result
        (Pops (bare scope.now) (values (taken_by kind params.now))
        (held operands.old) (held operands.new))
        (PopsNothing (bare scope.now) (values (taken_by kind params.now)) (held operands.old)) }
{
    match kind {
        Kind::If => operands.pop_all(scope, &[ValType::I32]) && operands.pop_all(scope, params),
        Kind::Block => operands.pop_all(scope, params),
        Kind::Loop => operands.pop_all(scope, params),
    }
}

/// Returns the operands at the start of a block, in the room that `room` has for their types.
pub fn starting(mut room: Vec<Slot>, scope: &Scope, params: &[ValType]) -> Result<Operands, Error>
    requires { AreValid (bare scope.now) params.now }
    ensures ok { IfOk result (λ operands. held operands ≡ holding (values params.now) false) }
    ensures memory { IfErr result (λ e. e ≡ Error.Memory) }
{
    room.clear();
    for value in params {
        room.push(Slot::Value(*value))?;
    }
    Ok(Operands {
        known: room,
        dead: false,
    })
}

/// Returns the block of a kind and a type, if there is one.
pub fn shape_of(
    alloc: Global,
    scope: &Scope,
    kind: Kind,
    ty: BlockType,
) -> Result<Option<Shape>, Error>
    requires { IsScope (bare scope.now) }
    ensures ok { IfOk result (λ found. MatchOption found (HasNoType (bare scope.now) ty)
        (λ shape. IsShapeOf (bare scope.now) kind ty shape)) }
    ensures memory { IfErr result (λ e. e ≡ Error.Memory) }
{
    match ty {
        BlockType::Empty => Ok(Some(Shape {
            kind,
            params: Items::new(alloc),
            results: Items::new(alloc),
        })),
        BlockType::Value(value) => {
            if !is_valid(scope, value) {
                return Ok(None);
            }
            Ok(Some(Shape {
                kind,
                params: Items::new(alloc),
                results: Items::from_slice(alloc, &[value])?,
            }))
        }
        BlockType::Func(index) => {
            let Some(function) = func_at(scope.types.types(), index) else {
                return Ok(None);
            };
            Ok(Some(Shape {
                kind,
                params: Items::from_slice(alloc, &function.params)?,
                results: Items::from_slice(alloc, &function.results)?,
            }))
        }
    }
}

/// Returns whether a block is the first part of an if.
pub fn is_first(kind: Kind) -> bool
    ensures { MatchBool result (kind ≡ Kind.If) (IsFirst kind → ⊥) }
{
    match kind {
        Kind::If => true,
        Kind::Block => false,
        Kind::Loop => false,
    }
}

/// Returns whether a block may end without an else.
pub fn may_end(scope: &Scope, shape: &Shape) -> bool
    requires params { AreValid (bare scope.now) shape.now.params }
    requires results { AreValid (bare scope.now) shape.now.results }
    ensures { MatchBool result
        (MayEnd (bare scope.now) shape.now.kind shape.now.params shape.now.results)
        (MayEnd (bare scope.now) shape.now.kind shape.now.params shape.now.results → ⊥) }
{
    match shape.kind {
        Kind::If => values_fit(scope.types, &shape.params, &shape.results),
        Kind::Block => true,
        Kind::Loop => true,
    }
}
