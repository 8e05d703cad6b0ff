ghost use Rattle.std.specs.Prelude.{◌≡◌, ◌↔◌, ℕ, ◌<◌, ◌≤◌, IsTrue, MatchOption, IfOk, IfErr, length, take};
ghost use Rattle.std.specs.Option.{option_map};
ghost use Rattle.smith_check_operands.specs.Closes.{IsPlain};
ghost use Rattle.smith_check_operands.specs.Scopes.{bare, IsScope};
ghost use Rattle.smith_check_body.specs.Checks.{IsReached, IsWell};
ghost use Rattle.smith_check_body.specs.Verdicts.{IsRefused};
ghost use Rattle.smith_explain.specs.Causes.{IsBlockCause, IsCause, IsCauseAt, IsEndCause, IsExplanation, IsLastCause};
ghost use Rattle.smith_explain.specs.Causes.{IsElseAllowed, IsEndAllowed, IsUnreached};

use crate::explanation::{Cause, Explanation};
use crate::needs::{undeclared, unset};
use crate::operands::{push_operands, push_values};
use crate::trial::takes;
use crate::unknown::unknown;
use smith_bytes::Error;
use smith_check_body::blocks::{is_first, may_end, shape_of};
use smith_check_body::check::begin;
use smith_check_body::checker::Checker;
use smith_check_branches::catches::are_catches;
use smith_check_operands::{Kind, Scope};
use smith_instr::{BlockType, Instr};
use smith_types::{Items, ValType};
use std::alloc::Global;

// Checks the first `at` instructions of a body, and returns how far the check has come, unless one of
// them is refused.
fn reach(
    alloc: Global,
    scope: &Scope,
    results: Items<ValType>,
    body: &[Instr],
    at: usize,
) -> Result<Option<Checker>, Error>
    requires scope { IsScope (bare scope.now) }
    requires results { results ≡ scope.now.results.now }
    requires inside { at ≤ length body.now }
    ensures ok { IfOk result (λ found. MatchOption found
        ((early : ℕ) × (early < at) × IsRefused (bare scope.now) body.now early)
        (λ checker. IsReached (bare scope.now) checker (take at body.now))) }
    ensures memory { IfErr result (λ e. e ≡ Error.Memory) }
{
    let mut checker = begin(alloc, results, Vec::new(alloc));
    for i in 0..at {
        let goes = checker.check(alloc, scope, &body[i])?;
        if !goes {
            return Ok(None);
        }
    }
    Ok(Some(checker))
}

// Returns the operands of a block of a kind and a type, if there is one.
fn block_cause(alloc: Global, scope: &Scope, kind: Kind, ty: BlockType) -> Result<Cause, Error>
    requires { IsScope (bare scope.now) }
    ensures ok { IfOk result (IsBlockCause (bare scope.now) kind ty) }
    ensures memory { IfErr result (λ e. e ≡ Error.Memory) }
{
    let shape = match shape_of(alloc, scope, kind, ty)? {
        Some(shape) => shape,
        None => return Ok(Cause::Other),
    };
    let mut wanted = Vec::new(alloc);
    push_values(&mut wanted, &shape.params)?;
    if is_first(kind) {
        push_values(&mut wanted, &[ValType::I32])?;
        return Ok(Cause::Operands(wanted));
    }
    Ok(Cause::Operands(wanted))
}

// Returns the results of the innermost block, if it may end here, as `ends` says.
fn end_cause(alloc: Global, checker: &Checker, ends: bool) -> Result<Cause, Error>
    ensures ok { IfOk result (IsEndCause (IsTrue ends) checker.now) }
    ensures memory { IfErr result (λ e. e ≡ Error.Memory) }
{
    if !ends {
        return Ok(Cause::Other);
    }
    let mut wanted = Vec::new(alloc);
    push_values(&mut wanted, &checker.shape.results)?;
    Ok(Cause::Operands(wanted))
}

// Returns whether an `else` is allowed here.
fn may_stand_else(checker: &Checker) -> bool
    ensures { IsTrue result ↔ IsElseAllowed checker.now }
{
    checker.outers.len() > 0 && is_first(checker.shape.kind)
}

// Returns whether an `end` of a block is allowed here.
fn may_stand_end(scope: &Scope, checker: &Checker) -> bool
    requires { IsWell (bare scope.now) checker.now }
    ensures { IsTrue result ↔ IsEndAllowed (bare scope.now) checker.now }
{
    checker.outers.len() > 0 && may_end(scope, &checker.shape)
}

// Returns the operands of an instruction that opens and closes no block, if it takes such ones.
fn plain_cause(
    alloc: Global,
    scope: &Scope,
    checker: &Checker,
    instr: &Instr,
) -> Result<Cause, Error>
    requires scope { IsScope (bare scope.now) }
    requires well { IsWell (bare scope.now) checker.now }
    requires plain { IsPlain instr.now }
    ensures ok { IfOk result (IsLastCause (bare scope.now) checker.now instr.now) }
    ensures memory { IfErr result (λ e. e ≡ Error.Memory) }
{
    let mut wanted = Vec::new(alloc);
    push_operands(&mut wanted, scope, &checker.shape, &checker.outers, instr)?;
    if takes(alloc, scope, checker, instr, wanted.as_slice())? {
        Ok(Cause::Operands(wanted))
    } else {
        Ok(Cause::Other)
    }
}

// Returns the operands of an instruction, if it is right apart from them.
fn operands_cause(
    alloc: Global,
    scope: &Scope,
    checker: &Checker,
    instr: &Instr,
) -> Result<Cause, Error>
    requires scope { IsScope (bare scope.now) }
    requires well { IsWell (bare scope.now) checker.now }
    ensures ok { IfOk result (IsLastCause (bare scope.now) checker.now instr.now) }
    ensures memory { IfErr result (λ e. e ≡ Error.Memory) }
{
    match instr {
        Instr::Block(ty) => block_cause(alloc, scope, Kind::Block, *ty),
        Instr::Loop(ty) => block_cause(alloc, scope, Kind::Loop, *ty),
        Instr::If(ty) => block_cause(alloc, scope, Kind::If, *ty),
        Instr::TryTable(ty, clauses) => {
            if !are_catches(scope, &checker.shape, &checker.outers, clauses.as_slice()) {
                return Ok(Cause::Other);
            }
            block_cause(alloc, scope, Kind::Block, *ty)
        }
        Instr::Else => end_cause(alloc, checker, may_stand_else(checker)),
        Instr::End => end_cause(alloc, checker, may_stand_end(scope, checker)),
        _ => plain_cause(alloc, scope, checker, instr),
    }
}

// Returns why an instruction is refused.
fn cause_of(alloc: Global, scope: &Scope, checker: &Checker, instr: &Instr) -> Result<Cause, Error>
    requires scope { IsScope (bare scope.now) }
    requires well { IsWell (bare scope.now) checker.now }
    ensures ok { IfOk result (IsCause (bare scope.now) checker.now instr.now) }
    ensures memory { IfErr result (λ e. e ≡ Error.Memory) }
{
    match unknown(scope, checker.outers.len() + 1, instr) {
        Some(unknown) => return Ok(Cause::Unknown(unknown)),
        None => {}
    }
    match undeclared(scope, instr) {
        Some(function) => return Ok(Cause::Undeclared { function }),
        None => {}
    }
    match unset(scope, &checker.log, instr) {
        Some(local) => Ok(Cause::Unset { local }),
        None => operands_cause(alloc, scope, checker, instr),
    }
}

// Returns why an instruction is refused, or the end of the body, which is an `end`.
fn cause_at(
    alloc: Global,
    scope: &Scope,
    checker: &Checker,
    instr: Option<&Instr>,
) -> Result<Cause, Error>
    requires scope { IsScope (bare scope.now) }
    requires well { IsWell (bare scope.now) checker.now }
    ensures ok { IfOk result (IsCauseAt (bare scope.now) checker.now (option_map (λ one. one.now) instr.entry)) }
    ensures memory { IfErr result (λ e. e ≡ Error.Memory) }
{
    match instr {
        Some(instr) => cause_of(alloc, scope, checker, instr),
        None => end_cause(alloc, checker, checker.outers.len() == 0),
    }
}

/// Returns what is known of the instruction at `at` of a body at which it is refused, or of its end, or
/// nothing if an instruction before it is refused or `at` is past the end. The cause is the first that
/// applies. `results` are the results of the function. Requires the parts of the context to be valid.
///
/// The instructions before it are checked once more.
///
/// # Errors
///
/// Fails only if an allocation fails.
pub fn explain(
    alloc: Global,
    scope: &Scope,
    results: Items<ValType>,
    body: &[Instr],
    at: usize,
) -> Result<Option<Explanation>, Error>
    requires scope { IsScope (bare scope.now) }
    requires results { results ≡ scope.now.results.now }
    ensures ok { IfOk result (λ found. MatchOption found (IsUnreached (bare scope.now) body.now at)
        (IsExplanation (bare scope.now) body.now at)) }
    ensures memory { IfErr result (λ e. e ≡ Error.Memory) }
{
    if at > body.len() {
        return Ok(None);
    }
    let checker = match reach(alloc, scope, results, body, at)? {
        Some(checker) => checker,
        None => return Ok(None),
    };
    let cause = cause_at(alloc, scope, &checker, body.get(at))?;
    Ok(Some(Explanation {
        stack: checker.operands,
        cause,
    }))
}
