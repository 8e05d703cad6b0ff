ghost use Rattle.std.specs.Prelude.{◌≡◌, IfOk};
ghost use Rattle.smith_wrong_bytes.specs.Splices.{spliced};

use crate::change::Splice;
use std::alloc::{AllocError, Global};

/// Returns `file` with `change` made, allocated from `alloc`. Of a range that passes the end of the
/// file, the part within it is removed.
///
/// # Errors
///
/// Returns [`AllocError`] if memory was refused.
pub fn splice(alloc: Global, file: &[u8], change: &Splice) -> Result<Vec<u8>, AllocError>
    ensures { IfOk result (λ bytes. bytes.items ≡ spliced file.now change.now) }
{
    let (before, rest) = file.split_at(change.at.min(file.len()));
    let (_removed, after) = rest.split_at(change.removed.min(rest.len()));
    let mut bytes = Vec::from_slice(alloc, before)?;
    bytes.extend_from_slice(change.inserted.as_slice())?;
    bytes.extend_from_slice(after)?;
    Ok(bytes)
}
