ghost use Rattle.std.specs.Prelude.{◌≡◌, IfErr};

use smith_bytes::Error;
use smith_decode::{DecodeError, Module, decode};
use smith_judge::WasmFeatures;
use std::alloc::Global;

// Returns the number of types in the first `count` groups of `module`.
fn types_before(module: &Module, count: usize) -> usize {
    let mut types: usize = 0;
    for group in module.types.as_slice().iter().take(count) {
        types = types.saturating_add(group.len());
    }
    types
}

// Returns the index of the first type with several supertypes in the group at `index`, if there is one.
fn several_in(module: &Module, index: usize) -> Option<usize> {
    let group = module.further_supertypes.as_slice().get(index)?;
    for (place, further) in group.as_slice().iter().enumerate() {
        if !further.as_slice().is_empty() {
            return Some(types_before(module, index).saturating_add(place));
        }
    }
    None
}

/// Returns which type of the group at `index` of the file `bytes` has several supertypes, in words, or an
/// empty text if none has.
pub(crate) fn supertypes_text(
    alloc: Global,
    features: WasmFeatures,
    bytes: &[u8],
    index: usize,
) -> Result<String, Error>
    ensures memory { IfErr result (λ e. e ≡ Error.Memory) }
{
    let module = match decode(alloc, bytes, features) {
        Ok(module) => module,
        Err(DecodeError::Memory) => return Err(Error::Memory),
        Err(_) => return Ok(String::new(alloc)),
    };
    match several_in(&module, index) {
        Some(ty) => Ok(format!(in alloc; "type {ty} has several supertypes")?),
        None => Ok(String::new(alloc)),
    }
}
