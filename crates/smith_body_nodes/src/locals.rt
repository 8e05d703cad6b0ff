ghost use Rattle.std.specs.Prelude.{◌≡◌, ◌<◌, ◌⊎◌, Bool, true, length, Some, slice_get, IfSome};
ghost use Rattle.smith_bytes.specs.Draws.{choose_at};
ghost use Rattle.smith_bytes.specs.Source.{KeepsPieces};
ghost use Rattle.smith_draw_types.specs.Below.{is_val_below};
ghost use Rattle.smith_types.specs.Subtyping.{IsValInRange};
ghost use Rattle.smith_instr.specs.Contexts.{IsValid};
ghost use Rattle.smith_body_nodes.specs.Offered.{has_default, is_local_below};
ghost use Rattle.smith_body_nodes.specs.Offered.{is_readable, offered};
ghost use Rattle.smith_body_nodes.specs.Scopes.{IsScope, bare, indexed};

use crate::offer::{Offer, choose_offered};
use crate::scope::{Draft, Scope, indexed_count};
use smith_bytes::Unstructured;
use smith_instr::SetLocals;
use smith_types::ValType;

/// Locals whose type matches a wanted type.
#[derive(Clone, Copy)]
struct LocalOffer<'a> {
    scope: &'a Scope<'a>,
    wanted: ValType,
}

impl<'a> Offer for LocalOffer<'a> {
    ghost use Rattle.std.specs.Prelude.{length};
    ghost use Rattle.smith_instr.specs.Contexts.{IsValid};
    ghost use Rattle.smith_body_nodes.specs.Offered.{is_local_below};
    ghost use Rattle.smith_body_nodes.specs.Scopes.{IsScope, bare, indexed};

    ghost ready = { λ self.
        IsScope (bare self.scope.now) × IsValid (bare self.scope.now) self.wanted };

    ghost size = { λ self. indexed (length self.scope.now.locals.now) };

    ghost test = { λ self index. is_local_below (bare self.scope.now) self.wanted index };

    fn count(&self) -> usize {
        indexed_count(self.scope.locals.len())
    }

    fn is_offered(&self, index: usize) -> bool {
        let value = self.scope.locals[index];
        is_below(self.scope, value, self.wanted)
    }
}

/// Locals that are set and whose type matches a wanted type.
#[derive(Clone, Copy)]
struct SetLocalOffer<'a> {
    scope: &'a Scope<'a>,
    set: &'a SetLocals,
    wanted: ValType,
}

impl<'a> Offer for SetLocalOffer<'a> {
    ghost use Rattle.std.specs.Prelude.{length};
    ghost use Rattle.smith_instr.specs.Contexts.{IsValid};
    ghost use Rattle.smith_body_nodes.specs.Offered.{is_readable};
    ghost use Rattle.smith_body_nodes.specs.Scopes.{IsScope, bare, indexed};

    ghost ready = { λ self.
        IsScope (bare self.scope.now) × IsValid (bare self.scope.now) self.wanted };

    ghost size = { λ self. indexed (length self.scope.now.locals.now) };

    ghost test = { λ self index.
        is_readable (bare self.scope.now) self.set.now.items self.wanted index };

    fn count(&self) -> usize {
        indexed_count(self.scope.locals.len())
    }

    fn is_offered(&self, index: usize) -> bool {
        let value = self.scope.locals[index];
        let set = index < self.scope.params || has_default(value) || self.set.contains(index);
        set && is_below(self.scope, value, self.wanted)
    }
}

/// Chooses a local whose type matches `wanted`, if there is one.
pub fn choose_local(scope: &Scope<'_>, wanted: ValType, u: &mut Unstructured<'_>) -> Option<u32>
    requires scope { IsScope (bare scope.now) }
    requires wanted { IsValid (bare scope.now) wanted }
    ensures exact { choose_at (offered (is_local_below (bare scope.now) wanted)
        (indexed (length scope.now.locals.now))) u.old
        ≡ (result, u.new) }
    ensures below { IfSome result (λ index. index < length scope.now.locals.now) }
    ensures offered { IfSome result (λ index. is_local_below (bare scope.now) wanted index ≡ true) }
    ensures left { KeepsPieces u.old u.new }
{
    let index = choose_offered(&LocalOffer { scope, wanted }, u)?;
    Some(index as u32)
}

/// Chooses a local that is set and whose type matches `wanted`, if there is one.
pub fn choose_set_local(
    scope: &Scope<'_>,
    wanted: ValType,
    draft: &Draft,
    u: &mut Unstructured<'_>,
) -> Option<u32>
    requires scope { IsScope (bare scope.now) }
    requires wanted { IsValid (bare scope.now) wanted }
    ensures exact { choose_at (offered (is_readable (bare scope.now) draft.now.set.items wanted)
        (indexed (length scope.now.locals.now))) u.old
        ≡ (result, u.new) }
    ensures below { IfSome result (λ index. index < length scope.now.locals.now) }
    ensures offered { IfSome result (λ index.
        is_readable (bare scope.now) draft.now.set.items wanted index ≡ true) }
    ensures left { KeepsPieces u.old u.new }
{
    let set = &draft.set;
    let index = choose_offered(&SetLocalOffer { scope, set, wanted }, u)?;
    Some(index as u32)
}

fn has_default(value: ValType) -> bool
    ensures { result ≡ has_default value }
{
    match value {
        ValType::Ref(reference) => reference.nullable,
        _ => true,
    }
}

/// Returns whether `value` matches `wanted`. Both are valid.
pub fn is_below(scope: &Scope<'_>, value: ValType, wanted: ValType) -> bool
    requires value { IsValid (bare scope.now) value }
    requires wanted { IsValid (bare scope.now) wanted }
    ensures { result ≡ is_val_below (bare scope.now).types value wanted }
{
    is_sub_type(scope, value, wanted)
}

/// Returns whether `value` matches `wanted`. Both refer only to types of `scope`.
pub fn is_sub_type(scope: &Scope<'_>, value: ValType, wanted: ValType) -> bool
    requires value { IsValInRange (bare scope.now).types value }
    requires wanted { IsValInRange (bare scope.now).types wanted }
    ensures { result ≡ is_val_below (bare scope.now).types value wanted }
{
    let _types = scope.types.types();
    scope.types.val_type_is_sub_type(value, wanted)
}
