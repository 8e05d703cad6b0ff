ghost use Rattle.std.specs.Prelude.{◌≡◌, ◌<◌, [], ◌&&◌, nat_le, length, IsTrue, OnOk, IfOk, IfErr};
ghost use Rattle.std.specs.Prelude.{IfSome, IsSome};
ghost use Rattle.smith_types.specs.Expressions.{Context};
ghost use Rattle.smith_types.specs.FuncGrounds.{AreFuncGrounds, IsFunctionAdded};
ghost use Rattle.smith_draw_types.specs.Grounding.{standing_in, with_functions};
ghost use Rattle.smith_draw_types.specs.KeptGrounds.{AreKeptGrounds, HasBegun};

use crate::reference_scope::ReferenceScope;
use crate::spaces::Spaces;
use smith_bytes::Error;
use smith_config::Config;
use smith_types::{FuncGrounds, TypeSpace};
use std::alloc::Global;

/// A record of the heap types that functions ground, so that repeated draws read the functions only
/// once.
///
/// If the configuration disables non-nullable references, nothing is recorded or allocated.
#[derive(Drop)]
pub struct KeptGrounds {
    kept: Option<FuncGrounds>,
}

impl KeptGrounds {
    /// Creates an empty record. Does not allocate.
    pub fn new() -> KeptGrounds
        ensures { (context : Context) → AreKeptGrounds context result }
    {
        KeptGrounds { kept: None }
    }

    /// Starts a record over `types` without functions, so that functions can be noted.
    pub fn begin(&mut self, alloc: Global, config: &Config, types: &TypeSpace) -> Result<(), Error>
        ensures none { (context : Context) → context.types ≡ types.now.types → context.funcs ≡ []
            → OnOk result (AreKeptGrounds context self.new) }
        ensures begun { IsTrue config.now.non_nullable_enabled → OnOk result (HasBegun self.new) }
        ensures memory { IfErr result (λ e. e ≡ Error.Memory) }
    {
        self.kept = None;
        if !config.non_nullable_enabled {
            return Ok(());
        }
        self.kept = Some(FuncGrounds::none(alloc, types.types().len())?);
        Ok(())
    }

    /// Notes a function whose type has the index `index` in `types`, as [`FuncGrounds::note`] does.
    pub fn note(&mut self, types: &TypeSpace, index: u32, exact: bool)
        ensures { (before after : Context) → before.types ≡ types.now.types
            → IsFunctionAdded before after index exact → AreKeptGrounds before self.old
            → AreKeptGrounds after self.new }
    {
        if let Some(grounds) = &mut self.kept {
            grounds.note(types, index, exact);
        }
    }

    /// Records the heap types that the functions of `spaces` ground, if there are functions.
    pub fn keep(&mut self, alloc: Global, config: &Config, spaces: &Spaces<'_>) -> Result<(), Error>
        ensures kept { OnOk result (AreKeptGrounds (standing_in config.now spaces.now) self.new) }
        ensures begun { IsTrue config.now.non_nullable_enabled
            → 0 < length spaces.now.entities.funcs.now → OnOk result (HasBegun self.new) }
        ensures memory { IfErr result (λ e. e ≡ Error.Memory) }
    {
        self.kept = None;
        self.kept = record_functions(alloc, config, spaces)?;
        Ok(())
    }

    /// Returns the types and functions of `spaces`, with this record.
    pub fn scope<'a>(&'a self, config: &'a Config, spaces: &Spaces<'a>) -> ReferenceScope<'a>
        requires { AreKeptGrounds (standing_in config.now spaces.now) self.now }
        ensures { result ≡ standing_in config.now spaces.now }
    {
        ReferenceScope::with_record(config, spaces, &self.kept)
    }
}

/// Returns the heap types that the functions of `spaces` ground, if there are functions. If `config`
/// disables non-nullable references, returns `None`. Does not allocate if it returns `None`.
pub(crate) fn record_functions(
    alloc: Global,
    config: &Config,
    spaces: &Spaces<'_>,
) -> Result<Option<FuncGrounds>, Error>
    ensures kept { IfOk result (λ kept.
        IfSome kept (AreFuncGrounds (standing_in config.now spaces.now))) }
    ensures begun { IsTrue config.now.non_nullable_enabled
        → 0 < length spaces.now.entities.funcs.now → IfOk result IsSome }
    ensures memory { IfErr result (λ e. e ≡ Error.Memory) }
{
    if !config.non_nullable_enabled || spaces.entities.funcs.is_empty() {
        return Ok(None);
    }
    Ok(Some(grounds_of(alloc, config, spaces)?))
}

/// Returns the heap types that the functions of `spaces` ground.
fn grounds_of(alloc: Global, config: &Config, spaces: &Spaces<'_>) -> Result<FuncGrounds, Error>
    ensures kept { IfOk result (AreFuncGrounds (standing_in config.now spaces.now)) }
    ensures memory { IfErr result (λ e. e ≡ Error.Memory) }
{
    let mut grounds = FuncGrounds::none(alloc, spaces.types.types().len())?;
    note_functions(config, spaces, &mut grounds);
    Ok(grounds)
}

/// Notes the functions of `spaces` in `grounds`. Requires `grounds` to have none.
fn note_functions(config: &Config, spaces: &Spaces<'_>, grounds: &mut FuncGrounds)
    requires { AreFuncGrounds (with_functions (standing_in config.now spaces.now) []) grounds.old }
    ensures { AreFuncGrounds (standing_in config.now spaces.now) grounds.new }
{
    let funcs = spaces.entities.funcs;
    for function in 0..funcs.len() {
        let exact = is_exact(config, spaces, function);
        grounds.note(spaces.types, funcs[function], exact);
    }
}

/// Returns whether a reference to the function `function` of `spaces` is exact.
fn is_exact(config: &Config, spaces: &Spaces<'_>, function: usize) -> bool
    ensures { result ≡ (nat_le spaces.now.entities.imported_funcs function
        && config.now.custom_descriptors_enabled) }
{
    function >= spaces.entities.imported_funcs && config.custom_descriptors_enabled
}
