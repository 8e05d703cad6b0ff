ghost use Rattle.std.specs.Prelude.{◌≡◌, ◌<◌, true, length, IfSome};
ghost use Rattle.smith_bytes.specs.Source.{KeepsPieces};
ghost use Rattle.smith_instr.specs.Contexts.{IsValid};
ghost use Rattle.smith_body_nodes.specs.Offered.{chunk_at, is_global_below, is_mutable, within_at};
ghost use Rattle.smith_body_nodes.specs.Scopes.{IsScope, bare, indexed};

use crate::locals::is_below;
use crate::offer::{Offer, Reach, choose_in_chunk, choose_within};
use crate::scope::{Scope, indexed_count};
use smith_bytes::Unstructured;
use smith_types::ValType;

/// Globals whose type matches a wanted type.
#[derive(Clone, Copy)]
struct GlobalOffer<'a> {
    scope: &'a Scope<'a>,
    wanted: ValType,
}

impl<'a> Offer for GlobalOffer<'a> {
    ghost use Rattle.std.specs.Prelude.{length};
    ghost use Rattle.smith_instr.specs.Contexts.{IsValid};
    ghost use Rattle.smith_body_nodes.specs.Offered.{is_global_below};
    ghost use Rattle.smith_body_nodes.specs.Scopes.{IsScope, bare, indexed};

    ghost ready = { λ self.
        IsScope (bare self.scope.now) × IsValid (bare self.scope.now) self.wanted };

    ghost size = { λ self. indexed (length self.scope.now.globals.now) };

    ghost test = { λ self index. is_global_below (bare self.scope.now) self.wanted index };

    fn count(&self) -> usize {
        indexed_count(self.scope.globals.len())
    }

    fn is_offered(&self, index: usize) -> bool {
        let global = self.scope.globals[index];
        is_below(self.scope, global.val_type, self.wanted)
    }
}

/// Globals that are mutable.
#[derive(Clone, Copy)]
struct MutableOffer<'a> {
    scope: &'a Scope<'a>,
}

impl<'a> Offer for MutableOffer<'a> {
    ghost use Rattle.std.specs.Prelude.{length};
    ghost use Rattle.smith_body_nodes.specs.Offered.{is_mutable};
    ghost use Rattle.smith_body_nodes.specs.Scopes.{bare, indexed};

    ghost ready = { λ self. Unit {0} };

    ghost size = { λ self. indexed (length self.scope.now.globals.now) };

    ghost test = { λ self index. is_mutable (bare self.scope.now) index };

    fn count(&self) -> usize {
        indexed_count(self.scope.globals.len())
    }

    fn is_offered(&self, index: usize) -> bool {
        self.scope.globals[index].mutable
    }
}

/// Chooses one of the globals that `reach` covers whose type matches `wanted`, if there is one.
pub fn choose_global(
    scope: &Scope<'_>,
    reach: Reach,
    wanted: ValType,
    u: &mut Unstructured<'_>,
) -> Option<u32>
    requires scope { IsScope (bare scope.now) }
    requires wanted { IsValid (bare scope.now) wanted }
    ensures exact { within_at reach (is_global_below (bare scope.now) wanted)
        (indexed (length scope.now.globals.now)) u.old
        ≡ (result, u.new) }
    ensures below { IfSome result (λ index. index < length scope.now.globals.now) }
    ensures offered { IfSome result (λ index.
        is_global_below (bare scope.now) wanted index ≡ true) }
    ensures left { KeepsPieces u.old u.new }
{
    let index = choose_within(&GlobalOffer { scope, wanted }, reach, u)?;
    Some(index as u32)
}

/// Chooses a mutable global of a drawn chunk, if there is one.
pub fn choose_mutable(scope: &Scope<'_>, u: &mut Unstructured<'_>) -> Option<u32>
    requires scope { IsScope (bare scope.now) }
    ensures exact { chunk_at (is_mutable (bare scope.now))
        (indexed (length scope.now.globals.now)) u.old
        ≡ (result, u.new) }
    ensures below { IfSome result (λ index. index < length scope.now.globals.now) }
    ensures offered { IfSome result (λ index. is_mutable (bare scope.now) index ≡ true) }
    ensures left { KeepsPieces u.old u.new }
{
    let index = choose_in_chunk(&MutableOffer { scope }, u)?;
    Some(index as u32)
}
