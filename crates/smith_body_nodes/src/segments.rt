ghost use Rattle.std.specs.Prelude.{◌≡◌, true, length, IfSome};
ghost use Rattle.smith_bytes.specs.Source.{KeepsPieces};
ghost use Rattle.smith_types.specs.Subtyping.{IsValInRange};
ghost use Rattle.smith_body_nodes.specs.Offered.{chunk_at, is_elem_below};
ghost use Rattle.smith_body_nodes.specs.Scopes.{IsScope, bare, indexed};

use crate::locals::is_sub_type;
use crate::offer::{Offer, choose_in_chunk};
use crate::scope::{Scope, indexed_count};
use smith_bytes::Unstructured;
use smith_types::ValType;

/// Element segments whose type matches a wanted type.
#[derive(Clone, Copy)]
struct SegmentOffer<'a> {
    scope: &'a Scope<'a>,
    wanted: ValType,
}

impl<'a> Offer for SegmentOffer<'a> {
    ghost use Rattle.std.specs.Prelude.{length};
    ghost use Rattle.smith_types.specs.Subtyping.{IsValInRange};
    ghost use Rattle.smith_body_nodes.specs.Scopes.{IsScope, bare, indexed};
    ghost use Rattle.smith_body_nodes.specs.Offered.{is_elem_below};

    ghost ready = { λ self.
        IsScope (bare self.scope.now) × IsValInRange (bare self.scope.now).types self.wanted };

    ghost size = { λ self. indexed (length self.scope.now.elems.now) };

    ghost test = { λ self index. is_elem_below (bare self.scope.now) self.wanted index };

    fn count(&self) -> usize {
        indexed_count(self.scope.elems.len())
    }

    fn is_offered(&self, index: usize) -> bool {
        let held = ValType::Ref(self.scope.elems[index]);
        is_sub_type(self.scope, held, self.wanted)
    }
}

/// Chooses an element segment of a drawn chunk whose type matches `wanted`, if there is one.
pub fn choose_segment_below(
    scope: &Scope<'_>,
    wanted: ValType,
    u: &mut Unstructured<'_>,
) -> Option<u32>
    requires scope { IsScope (bare scope.now) }
    requires wanted { IsValInRange (bare scope.now).types wanted }
    ensures exact { chunk_at (is_elem_below (bare scope.now) wanted)
        (indexed (length scope.now.elems.now)) u.old
        ≡ (result, u.new) }
    ensures offered { IfSome result (λ segment.
        is_elem_below (bare scope.now) wanted segment ≡ true) }
    ensures left { KeepsPieces u.old u.new }
{
    let segment = choose_in_chunk(&SegmentOffer { scope, wanted }, u)?;
    Some(segment as u32)
}
