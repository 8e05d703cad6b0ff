ghost use Rattle.std.specs.Prelude.{◌≡◌, ◌↔◌, ◌<◌, length, IsTrue, IsSome, IfSome, IfOk, IfErr};
ghost use Rattle.smith_types.specs.Expressions.{Context};
ghost use Rattle.smith_types.specs.FuncGrounds.{AreFuncGrounds};
ghost use Rattle.smith_types.specs.declared.func_grounds.FuncGrounds.{FuncGrounds as Noted};
ghost use Rattle.smith_draw_types.specs.FunctionFamilies.{AreFunctionFamilies};
ghost use Rattle.smith_draw_types.specs.Grounding.{functions_in, functions_of, over};
ghost use Rattle.smith_draw_types.specs.KeptGrounds.{AreEarlyGrounds, HaveTypes};

use crate::function_families::FunctionFamilies;
use crate::kept_grounds::record_functions;
use crate::spaces::{Entities, Spaces};
use smith_bytes::Error;
use smith_config::Config;
use smith_types::{FuncGrounds, TypeSpace};
use std::alloc::Global;

/// The functions over which a call draws types, with a record of the heap types that they ground.
/// The record is made before types are drawn. It stays right as types are added, since no type of a
/// function has a supertype that is added later.
#[derive(Drop)]
pub(crate) struct EarlyGrounds<'a> {
    /// The type index of each function. Imported functions come first.
    pub funcs: &'a [u32],
    /// The number of imported functions.
    pub imported_funcs: usize,
    /// The record, if there is one.
    pub kept: Option<FuncGrounds>,
    /// The types that the functions ground by the record, if there is one.
    pub families: Option<FunctionFamilies>,
}

impl<'a> EarlyGrounds<'a> {
    /// Records the heap types that the functions of `entities` ground. Reads each function and each
    /// type once.
    ///
    /// Nothing is recorded or allocated if the configuration disables non-nullable references, if
    /// there are no functions, or if the type of a function is not one of `types`, so that it may
    /// be added later.
    pub(crate) fn of(
        alloc: Global,
        config: &Config,
        types: &TypeSpace,
        entities: &Entities<'a>,
    ) -> Result<EarlyGrounds<'a>, Error>
        ensures same { IfOk result (λ grounds.
            functions_of config.now grounds ≡ functions_in config.now entities.now) }
        ensures kept { IfOk result
            (AreEarlyGrounds (over (functions_in config.now entities.now) types.now.types)) }
        ensures made { IsTrue config.now.non_nullable_enabled → 0 < length entities.now.funcs.now
            → HaveTypes entities.now.funcs.now (length types.now.types)
            → IfOk result (λ grounds. IsSome grounds.kept) }
        ensures memory { IfErr result (λ e. e ≡ Error.Memory) }
    {
        let (funcs, imported_funcs) = (entities.funcs, entities.imported_funcs);
        if !config.non_nullable_enabled || !have_types(funcs, types.types().len()) {
            return Ok(EarlyGrounds {
                funcs,
                imported_funcs,
                kept: None,
                families: None,
            });
        }
        let spaces = Spaces {
            types,
            entities: *entities,
        };
        let kept = record_functions(alloc, config, &spaces)?;
        let families = list_families(alloc, types, &kept)?;
        Ok(EarlyGrounds {
            funcs,
            imported_funcs,
            kept,
            families,
        })
    }
}

/// Lists the types of `types` that functions ground by the record `kept`, if there is one.
fn list_families(
    alloc: Global,
    types: &TypeSpace,
    kept: &Option<FuncGrounds>,
) -> Result<Option<FunctionFamilies>, Error>
    ensures listed { (context : Context) → context.types ≡ types.now.types
        → IfSome kept.now (AreFuncGrounds context)
        → IfOk result (λ listed. IfSome listed (λ families. (grounds : Noted)
        × AreFuncGrounds context grounds
        × AreFunctionFamilies types.now.types grounds (length types.now.types) families)) }
    ensures memory { IfErr result (λ e. e ≡ Error.Memory) }
{
    match kept {
        Some(grounds) => Ok(Some(FunctionFamilies::of(alloc, types, grounds)?)),
        None => Ok(None),
    }
}

/// Returns whether the type of each of the functions `funcs` is among the first `count` types.
fn have_types(funcs: &[u32], count: usize) -> bool
    ensures { IsTrue result ↔ HaveTypes funcs.now count }
{
    for function in 0..funcs.len() {
        if funcs[function] as usize >= count {
            return false;
        }
    }
    true
}
