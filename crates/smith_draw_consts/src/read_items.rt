ghost use Rattle.std.specs.Prelude.{◌≡◌, ◌≤◌, OnOk, IfErr, List, Bool, Some, length};
ghost use Rattle.smith_types.specs.Expressions.{Context, function_reference};
ghost use Rattle.smith_types.specs.Syntax.composite_type.SubType.{SubType};
ghost use Rattle.smith_types.specs.Syntax.value_type.ValType.{ValType as Wanted};
ghost use Rattle.smith_draw_consts.specs.ConstScopes.{context_of, IsScope};
ghost use Rattle.smith_draw_consts.specs.KeptOffers.{AreAllRead, AreClasses, AreFewRead, AreFlags};
ghost use Rattle.smith_draw_consts.specs.KeptOffers.{AreItemsRead, readable};

use crate::classes::Classes;
use crate::few_items::FewItems;
use crate::scope::Scope;
use smith_bytes::Error;
use std::alloc::Global;

/// The globals and functions read so far.
#[derive(Drop)]
pub(crate) struct ReadItems {
    /// The classes of the globals.
    pub globals: Classes,
    /// The classes of the functions.
    pub funcs: Classes,
}

impl ReadItems {
    /// Creates a record with no global and no function read. Does not allocate.
    pub fn new(alloc: Global) -> ReadItems
        ensures { (context : Context) → AreItemsRead context result }
    {
        ReadItems {
            globals: Classes::new(alloc),
            funcs: Classes::new(alloc),
        }
    }

    /// Reads the globals and functions of `scope` that have not been read, the first ones from
    /// `few`.
    pub fn read(&mut self, scope: &Scope<'_>, few: &FewItems) -> Result<(), Error>
        requires scope { IsScope (context_of scope.now) }
        requires few { AreFewRead (context_of scope.now) few.now }
        requires read { AreItemsRead (context_of scope.now) self.old }
        ensures read { OnOk result (AreAllRead (context_of scope.now) self.new) }
        ensures globals { (types : List SubType) (wanted : Wanted) (flags : List Bool)
            → AreFlags types wanted self.old.globals.kinds flags
            → OnOk result (AreFlags types wanted self.new.globals.kinds flags) }
        ensures funcs { (types : List SubType) (wanted : Wanted) (flags : List Bool)
            → AreFlags types wanted self.old.funcs.kinds flags
            → OnOk result (AreFlags types wanted self.new.funcs.kinds flags) }
        ensures memory { IfErr result (λ e. e ≡ Error.Memory) }
    {
        read_globals(scope, few, &mut self.globals)?;
        read_funcs(scope, few, &mut self.funcs)
    }
}

/// Reads the visible globals of `scope` that have not been read, the first ones from `few`.
fn read_globals(scope: &Scope<'_>, few: &FewItems, classes: &mut Classes) -> Result<(), Error>
    requires scope { IsScope (context_of scope.now) }
    requires few { AreFewRead (context_of scope.now) few.now }
    requires read { AreClasses (context_of scope.now).types (λ index global. readable global)
        (context_of scope.now).globals classes.old }
    ensures read { OnOk result (AreClasses (context_of scope.now).types
        (λ index global. readable global) (context_of scope.now).globals classes.new) }
    ensures all { OnOk result (scope.now.visible ≤ length classes.new.of) }
    ensures flags { (types : List SubType) (wanted : Wanted) (flags : List Bool)
        → AreFlags types wanted classes.old.kinds flags
        → OnOk result (AreFlags types wanted classes.new.kinds flags) }
    ensures memory { IfErr result (λ e. e ≡ Error.Memory) }
{
    for index in classes.of.len()..scope.visible {
        let kind = few.recorded_global(scope, index);
        classes.note(kind)?;
    }
    Ok(())
}

/// Reads the functions of `scope` that have not been read, the first ones from `few`.
fn read_funcs(scope: &Scope<'_>, few: &FewItems, classes: &mut Classes) -> Result<(), Error>
    requires scope { IsScope (context_of scope.now) }
    requires few { AreFewRead (context_of scope.now) few.now }
    requires read { AreClasses (context_of scope.now).types
        (λ function index. Some (function_reference (context_of scope.now) function index))
        (context_of scope.now).funcs classes.old }
    ensures read { OnOk result (AreClasses (context_of scope.now).types
        (λ function index. Some (function_reference (context_of scope.now) function index))
        (context_of scope.now).funcs classes.new) }
    ensures all { OnOk result (length (context_of scope.now).funcs ≤ length classes.new.of) }
    ensures flags { (types : List SubType) (wanted : Wanted) (flags : List Bool)
        → AreFlags types wanted classes.old.kinds flags
        → OnOk result (AreFlags types wanted classes.new.kinds flags) }
    ensures memory { IfErr result (λ e. e ≡ Error.Memory) }
{
    let entities = scope.spaces.entities;
    for index in classes.of.len()..entities.funcs.len() {
        let reference = few.recorded_function(scope, index);
        classes.note(reference)?;
    }
    Ok(())
}
