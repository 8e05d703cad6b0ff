ghost use Rattle.std.specs.Prelude.{◌≡◌, ◌<◌, true, length, IfSome};
ghost use Rattle.smith_bytes.specs.Source.{KeepsPieces};
ghost use Rattle.smith_instr.specs.Contexts.{IsValid};
ghost use Rattle.smith_body_leaves.specs.DrawnLeaves.{created_type_at, has_default_element};
ghost use Rattle.smith_body_leaves.specs.DrawnLeaves.{is_created_array};
ghost use Rattle.smith_body_leaves.specs.Leaves.{named_type};
ghost use Rattle.smith_body_nodes.specs.IndexedTypes.{element_in, is_created_struct};
ghost use Rattle.smith_body_nodes.specs.Scopes.{IsScope, bare, indexed};
ghost use Rattle.std.specs.Prelude.{slice_get};

use crate::unary::named_type;
use smith_body_nodes::{
    CreatedStructOffer, Offer, Scope, choose_in_chunk, element_at, indexed_count, is_created_below,
};
use smith_bytes::Unstructured;
use smith_types::{ValType, is_defaultable, unpack};

/// Array types whose elements have a default value, and whose created values match a wanted type.
#[derive(Clone, Copy)]
struct DefaultArrayOffer<'a> {
    scope: &'a Scope<'a>,
    wanted: ValType,
}

impl<'a> Offer for DefaultArrayOffer<'a> {
    ghost use Rattle.std.specs.Prelude.{length};
    ghost use Rattle.smith_instr.specs.Contexts.{IsValid};
    ghost use Rattle.smith_body_leaves.specs.DrawnLeaves.{is_created_array};
    ghost use Rattle.smith_body_nodes.specs.Scopes.{IsScope, bare, indexed};

    ghost ready = { λ self.
        IsScope (bare self.scope.now) × IsValid (bare self.scope.now) self.wanted };

    ghost size = { λ self. indexed (length self.scope.now.types.now.types) };

    ghost test = { λ self index. is_created_array (bare self.scope.now) self.wanted index };

    fn count(&self) -> usize {
        indexed_count(self.scope.types.types().len())
    }

    fn is_offered(&self, index: usize) -> bool {
        is_created_below(self.scope, self.wanted, index) && has_default_element(self.scope, index)
    }
}

/// Returns whether the type at `index` is an array type whose elements have a default value.
fn has_default_element(scope: &Scope<'_>, index: usize) -> bool
    ensures { result
        ≡ has_default_element (element_in (slice_get (bare scope.now).types index)) }
{
    match element_at(scope, index) {
        Some(element) => is_defaultable(unpack(element.element_type)),
        None => false,
    }
}

/// Chooses a struct type whose fields all have defaults and whose created values match `wanted`:
/// the type that `wanted` names, or if it names none, one of a drawn chunk.
pub(crate) fn choose_default_struct(
    scope: &Scope<'_>,
    wanted: ValType,
    u: &mut Unstructured<'_>,
) -> Option<u32>
    requires scope { IsScope (bare scope.now) }
    requires wanted { IsValid (bare scope.now) wanted }
    ensures exact { created_type_at (is_created_struct (bare scope.now) wanted true)
        (indexed (length scope.now.types.now.types)) (named_type wanted) u.old
        ≡ (result, u.new) }
    ensures offered { IfSome result (λ ty.
        is_created_struct (bare scope.now) wanted true ty ≡ true) }
    ensures left { KeepsPieces u.old u.new }
{
    let offer = CreatedStructOffer {
        scope,
        wanted,
        defaults: true,
    };
    let ty = choose_created(&offer, named_type(wanted), u)?;
    Some(ty as u32)
}

/// Chooses an array type whose elements have a default and whose created values match `wanted`: the
/// type that `wanted` names, or if it names none, one of a drawn chunk.
pub(crate) fn choose_default_array(
    scope: &Scope<'_>,
    wanted: ValType,
    u: &mut Unstructured<'_>,
) -> Option<u32>
    requires scope { IsScope (bare scope.now) }
    requires wanted { IsValid (bare scope.now) wanted }
    ensures exact { created_type_at (is_created_array (bare scope.now) wanted)
        (indexed (length scope.now.types.now.types)) (named_type wanted) u.old
        ≡ (result, u.new) }
    ensures offered { IfSome result (λ ty. is_created_array (bare scope.now) wanted ty ≡ true) }
    ensures left { KeepsPieces u.old u.new }
{
    let offer = DefaultArrayOffer { scope, wanted };
    let ty = choose_created(&offer, named_type(wanted), u)?;
    Some(ty as u32)
}

/// Chooses an offered type: `named`, or a type of a drawn chunk if `named` is `None`.
fn choose_created<O: Offer>(
    offer: &O,
    named: Option<u32>,
    u: &mut Unstructured<'_>,
) -> Option<usize>
    requires { O.ready offer.now }
    ensures exact { created_type_at (O.test offer.now) (O.size offer.now) named u.old
        ≡ (result, u.new) }
    ensures below { IfSome result (λ ty. ty < O.size offer.now) }
    ensures offered { IfSome result (λ ty. O.test offer.now ty ≡ true) }
    ensures left { KeepsPieces u.old u.new }
{
    let Some(named) = named else {
        return choose_in_chunk(offer, u);
    };
    let ty = named as usize;
    if ty < offer.count() && offer.is_offered(ty) {
        return Some(ty);
    }
    None
}
