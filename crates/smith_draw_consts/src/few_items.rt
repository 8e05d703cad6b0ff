ghost use Rattle.std.specs.Prelude.{◌≡◌, ◌+◌, ◌<◌, ◌≤◌, ℕ, [], Some, length};
ghost use Rattle.std.specs.Prelude.{slice_get};
ghost use Rattle.smith_types.specs.Expressions.{function_reference};
ghost use Rattle.smith_types.specs.Syntax.entity_type.GlobalType.{GlobalType};
ghost use Rattle.smith_draw_consts.specs.ConstScopes.{context_of, IsScope};
ghost use Rattle.smith_draw_consts.specs.KeptOffers.{AreFewRead, AreRecorded, IsFewWhole, readable};

use crate::references::{function_reference, readable};
use crate::scope::Scope;
use arrayvec::ArrayVec;
use smith_types::ValType;

/// The greatest number of globals and functions that are recorded without allocation.
pub(crate) const MOST: usize = 31;

/// The globals and functions read so far, if there are few.
#[derive(Drop)]
pub(crate) struct FewItems {
    /// The type of each global, or `None` for a mutable global, which cannot be read.
    pub globals: ArrayVec<Option<ValType>, MOST>,
    /// The index of the type of each function.
    pub funcs: ArrayVec<u32, MOST>,
}

impl FewItems {
    /// Creates a record with no global and no function read.
    pub fn new() -> FewItems
        ensures globals { result.globals.items ≡ [] }
        ensures funcs { result.funcs.items ≡ [] }
    {
        FewItems {
            globals: ArrayVec::new(),
            funcs: ArrayVec::new(),
        }
    }

    /// Reads the globals and functions of `scope` that have not been read.
    pub fn read(&mut self, scope: &Scope<'_>)
        requires scope { IsScope (context_of scope.now) }
        requires few { scope.now.visible + length (context_of scope.now).funcs ≤ 31 }
        requires read { AreFewRead (context_of scope.now) self.old }
        ensures { IsFewWhole (context_of scope.now) self.new }
    {
        record_globals(scope, &mut self.globals);
        record_funcs(scope, &mut self.funcs);
    }

    /// Returns the type of the global of `scope` at `index`, or `None` if it is mutable. Reads the
    /// global if it has not been read.
    pub fn recorded_global(&self, scope: &Scope<'_>, index: usize) -> Option<ValType>
        requires scope { IsScope (context_of scope.now) }
        requires read { AreFewRead (context_of scope.now) self.now }
        requires there { index < scope.now.visible }
        ensures { (global : GlobalType)
            → slice_get (context_of scope.now).globals index ≡ Some global
            → result ≡ readable global }
    {
        let kinds = self.globals.as_slice();
        if index < kinds.len() {
            return kinds[index];
        }
        let entities = scope.spaces.entities;
        readable(entities.globals[index])
    }

    /// Returns the type of a reference to the function of `scope` at `index`. Reads the function if
    /// it has not been read.
    pub fn recorded_function(&self, scope: &Scope<'_>, index: usize) -> Option<ValType>
        requires scope { IsScope (context_of scope.now) }
        requires read { AreFewRead (context_of scope.now) self.now }
        requires there { index < length (context_of scope.now).funcs }
        ensures { (type : ℕ) → slice_get (context_of scope.now).funcs index ≡ Some type
            → result ≡ Some (function_reference (context_of scope.now) index type) }
    {
        let funcs = self.funcs.as_slice();
        if index < funcs.len() {
            return Some(function_reference(scope, index, funcs[index]));
        }
        let entities = scope.spaces.entities;
        Some(function_reference(scope, index, entities.funcs[index]))
    }
}

/// Appends to `kinds` the visible globals of `scope` that have not been read.
fn record_globals(scope: &Scope<'_>, kinds: &mut ArrayVec<Option<ValType>, MOST>)
    requires scope { IsScope (context_of scope.now) }
    requires few { scope.now.visible ≤ 31 }
    requires read { AreRecorded (λ index global. readable global)
        (context_of scope.now).globals kinds.old.items }
    ensures read { AreRecorded (λ index global. readable global)
        (context_of scope.now).globals kinds.new.items }
    ensures all { scope.now.visible ≤ length kinds.new.items }
{
    let entities = scope.spaces.entities;
    for index in kinds.len()..scope.visible {
        kinds.push(readable(entities.globals[index]));
    }
}

/// Appends to `funcs` the functions of `scope` that have not been read.
fn record_funcs(scope: &Scope<'_>, funcs: &mut ArrayVec<u32, MOST>)
    requires few { length (context_of scope.now).funcs ≤ 31 }
    requires read { AreRecorded (λ function index. index)
        (context_of scope.now).funcs funcs.old.items }
    ensures read { AreRecorded (λ function index. index)
        (context_of scope.now).funcs funcs.new.items }
    ensures all { length (context_of scope.now).funcs ≤ length funcs.new.items }
{
    let entities = scope.spaces.entities;
    for index in funcs.len()..entities.funcs.len() {
        funcs.push(entities.funcs[index]);
    }
}
