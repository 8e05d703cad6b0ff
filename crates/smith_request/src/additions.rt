ghost use Rattle.std.specs.Prelude.{◌≡◌, ◌<◌, ◌≤◌, ◌+◌, ◌^◌, true, IfErr, OnOk, Some, length};
ghost use Rattle.smith_module_rules.specs.Module.{IsValid};
ghost use Rattle.wasm_smith.specs.Termination.{MayAddNone};
ghost use Rattle.smith_request.specs.Additions.{HasCounter, HasSinks, IsExtended, IsObserved};
ghost use Rattle.smith_request.specs.Additions.{IsFuelled, added_globals, counted_fuel};

use smith_bytes::Error;
use smith_program::Program;
use std::alloc::Global;

/// The count of the calls and the iterations of loops of a program.
#[derive(Clone, Copy, Debug, PartialEq, Eq)]
pub struct Fuel {
    /// The number after which a program without raw bodies traps.
    pub amount: u32,
    /// Whether the global that counts is exported.
    pub is_exported: bool,
}

/// What is added to a program before it is written.
#[derive(Clone, Copy, Debug, PartialEq, Eq)]
pub struct Additions {
    /// The count of calls and of iterations of loops, if there is one.
    pub fuel: Option<Fuel>,
    /// Whether functions mix the values of their locals into three globals, the sinks, which are
    /// exported after all others. The global that counts is then exported after them, whether or not
    /// `fuel` says so.
    pub is_observed: bool,
}

/// Returns the number of globals that are added.
pub(crate) fn added_globals(additions: Additions) -> usize
    ensures exact { result ≡ added_globals additions }
    ensures few { result ≤ 4 }
{
    let sinks = if additions.is_observed { 3 } else { 0 };
    let counters = if additions.fuel.is_some() { 1 } else { 0 };
    sinks + counters
}

/// Adds what `additions` says to `program`: the sinks first, and then the counter.
pub(crate) fn extend(
    alloc: Global,
    program: &mut Program,
    additions: Additions,
) -> Result<(), Error>
    requires valid { additions.is_observed ≡ true → IsValid program.old.«module» }
    requires room { length program.old.«module».globals + added_globals additions < 2 ^ 32 }
    ensures extended { OnOk result (IsExtended additions program.old program.new) }
    ensures refused { IfErr result (MayAddNone program.old.«module») }
{
    add_sinks(alloc, program, additions.is_observed)?;
    add_counter(alloc, program, counted_fuel(additions))
}

/// Adds exported sinks to `program`, into which its bodies mix the values of their locals, if
/// `is_observed` is set.
fn add_sinks(alloc: Global, program: &mut Program, is_observed: bool) -> Result<(), Error>
    requires valid { is_observed ≡ true → IsValid program.old.«module» }
    requires room { is_observed ≡ true → length program.old.«module».globals + 3 < 2 ^ 32 }
    ensures sinks { OnOk result (HasSinks is_observed program.old program.new) }
    ensures refused { IfErr result (MayAddNone program.old.«module») }
{
    if is_observed {
        return observe(alloc, program);
    }
    Ok(())
}

/// Adds exported sinks to `program`, into which its bodies mix the values of their locals.
fn observe(alloc: Global, program: &mut Program) -> Result<(), Error>
    requires valid { IsValid program.old.«module» }
    requires room { length program.old.«module».globals + 3 < 2 ^ 32 }
    ensures observed { OnOk result (IsObserved program.old program.new) }
    ensures refused { IfErr result (MayAddNone program.old.«module») }
{
    let first = program.observe(alloc)?;
    program.export_sinks(alloc, first)
}

/// Returns the fuel whose counter is added.
fn counted_fuel(additions: Additions) -> Option<Fuel>
    ensures { result ≡ counted_fuel additions }
{
    let fuel = additions.fuel?;
    Some(Fuel {
        amount: fuel.amount,
        is_exported: fuel.is_exported || additions.is_observed,
    })
}

/// Adds a global to `program` that counts its calls and its iterations of loops down, if there is a
/// `fuel`.
fn add_counter(alloc: Global, program: &mut Program, fuel: Option<Fuel>) -> Result<(), Error>
    requires room { (some : Fuel) → fuel ≡ Some some → length program.old.«module».globals + 1 < 2 ^ 32 }
    ensures counter { OnOk result (HasCounter fuel program.old program.new) }
    ensures refused { IfErr result (MayAddNone program.old.«module») }
{
    match fuel {
        Some(fuel) => count(alloc, program, fuel),
        None => Ok(()),
    }
}

/// Adds a global to `program` that counts its calls and its iterations of loops down, and exports it
/// if `fuel` says so.
fn count(alloc: Global, program: &mut Program, fuel: Fuel) -> Result<(), Error>
    requires room { length program.old.«module».globals + 1 < 2 ^ 32 }
    ensures counted { OnOk result (IsFuelled fuel program.old program.new) }
    ensures refused { IfErr result (MayAddNone program.old.«module») }
{
    let index = program.ensure_termination(alloc, fuel.amount)?;
    if fuel.is_exported {
        return program.export_fuel(alloc, index);
    }
    Ok(())
}
