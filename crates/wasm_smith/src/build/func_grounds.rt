//! The record of the heap types that functions ground, while a module is drawn.

ghost use Rattle.std.specs.Prelude.{◌≡◌, ◌≤◌, length, IsTrue, IfOk, IfErr};
ghost use Rattle.smith_draw_types.specs.KeptGrounds.{AreKeptGrounds, HasBegun};
ghost use Rattle.wasm_smith.specs.DrawnSteps.{drawn_next};

use crate::build::parts_so_far::PartsSoFar;
use smith_bytes::Error;
use smith_config::Config;
use smith_draw_types::{Entities, KeptGrounds, Spaces};
use std::alloc::Global;

/// Records the heap types that the functions of `drawn` ground. More functions may be noted, but
/// the record is over the types of `drawn` only.
///
/// If `config` disables non-nullable references, nothing is recorded or allocated.
pub(crate) fn func_grounds(
    alloc: Global,
    config: &Config,
    drawn: &PartsSoFar,
) -> Result<KeptGrounds, Error>
    requires { drawn.now.definitions.num_funcs ≤ length drawn.now.imported.spaces.funcs }
    ensures kept { IfOk result (AreKeptGrounds (drawn_next config.now drawn.now)) }
    ensures begun { IsTrue config.now.non_nullable_enabled → IfOk result HasBegun }
    ensures memory { IfErr result (λ e. e ≡ Error.Memory) }
{
    let types = &drawn.types;
    let funcs = drawn.imported.spaces.funcs.as_slice();
    let mut grounds = KeptGrounds::new();
    if funcs.is_empty() {
        grounds.begin(alloc, config, types)?;
        return Ok(grounds);
    }
    let entities = Entities {
        funcs,
        imported_funcs: funcs.len() - drawn.definitions.num_funcs,
        ..Entities::none()
    };
    grounds.keep(alloc, config, &Spaces { types, entities })?;
    Ok(grounds)
}
