ghost use Rattle.std.specs.Prelude.{◌≡◌, IfOk, IfErr};
ghost use Rattle.smith_check_types.specs.TypeSections.{canonical_index};
ghost use Rattle.smith_check_renamed.specs.RenamedInstructions.{renamed_body};

use crate::instructions::canonical_instr;
use smith_bytes::Error;
use smith_instr::Instr;
use smith_types::Items;
use std::alloc::Global;

/// Returns a copy of `body` whose instructions name types by the canonical `indices`. An index past all
/// types stays as it is.
///
/// # Errors
///
/// Returns `Memory` if an allocation fails, and no other error.
pub fn canonical_body(alloc: Global, indices: &[u32], body: &[Instr]) -> Result<Items<Instr>, Error>
    ensures ok { IfOk result (λ made. made ≡ renamed_body (canonical_index indices.now) body.now) }
    ensures memory { IfErr result (λ e. e ≡ Error.Memory) }
{
    let mut made = Items::with_capacity(alloc, body.len())?;
    for instr in body {
        made.push(canonical_instr(alloc, indices, instr)?)?;
    }
    Ok(made)
}
