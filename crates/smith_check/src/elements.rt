ghost use Rattle.std.specs.Prelude.{◌≡◌, map, IfOk, IfErr};
ghost use Rattle.smith_decode.specs.declared.elements.ElementSegment.{ElementSegment as Element};
ghost use Rattle.smith_check_types.specs.Renamed.{renamed_ref};
ghost use Rattle.smith_check_types.specs.TypeSections.{canonical_index};

use smith_bytes::Error;
use smith_check_types::canonical_ref_type;
use smith_decode::ElementSegment;
use smith_types::{Items, RefType};
use std::alloc::Global;

/// Returns the types of `segments` by the canonical `indices` of types.
pub(crate) fn element_types(
    alloc: Global,
    indices: &[u32],
    segments: &[ElementSegment],
) -> Result<Items<RefType>, Error>
    ensures types { IfOk result (λ made. made
        ≡ map (λ (segment : Element). renamed_ref (canonical_index indices.now) segment.ty)
        segments.now) }
    ensures memory { IfErr result (λ e. e ≡ Error.Memory) }
{
    let mut made = Items::new(alloc);
    for segment in segments {
        made.push(canonical_ref_type(indices, segment.ty))?;
    }
    Ok(made)
}
