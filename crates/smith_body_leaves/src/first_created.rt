ghost use Rattle.std.specs.Prelude.{◌≡◌, ◌<◌, true, IfSome};
ghost use Rattle.smith_instr.specs.Contexts.{IsValid};
ghost use Rattle.smith_body_leaves.specs.FirstCreated.{first_created_array, first_created_struct};
ghost use Rattle.smith_body_leaves.specs.FirstCreated.{first_offered, is_created_empty};
ghost use Rattle.smith_body_nodes.specs.IndexedTypes.{is_created_struct};
ghost use Rattle.smith_body_nodes.specs.Scopes.{IsScope, bare};

use smith_body_nodes::{
    CreatedStructOffer, Offer, Scope, choose_offered, element_at, indexed_count, is_created_below,
};
use smith_bytes::Unstructured;
use smith_types::ValType;

/// Array types whose created values match a wanted type.
#[derive(Clone, Copy)]
struct CreatedArrayOffer<'a> {
    scope: &'a Scope<'a>,
    wanted: ValType,
}

impl<'a> Offer for CreatedArrayOffer<'a> {
    ghost use Rattle.std.specs.Prelude.{length};
    ghost use Rattle.smith_instr.specs.Contexts.{IsValid};
    ghost use Rattle.smith_body_leaves.specs.FirstCreated.{is_created_empty};
    ghost use Rattle.smith_body_nodes.specs.Scopes.{IsScope, bare, indexed};

    ghost ready = { λ self.
        IsScope (bare self.scope.now) × IsValid (bare self.scope.now) self.wanted };

    ghost size = { λ self. indexed (length self.scope.now.types.now.types) };

    ghost test = { λ self index. is_created_empty (bare self.scope.now) self.wanted index };

    fn count(&self) -> usize {
        indexed_count(self.scope.types.types().len())
    }

    fn is_offered(&self, index: usize) -> bool {
        is_created_below(self.scope, self.wanted, index) && element_at(self.scope, index).is_some()
    }
}

/// Returns the first struct type whose fields all have defaults and whose created values match
/// `wanted`, if there is one.
pub(crate) fn first_created_struct(scope: &Scope<'_>, wanted: ValType) -> Option<u32>
    requires scope { IsScope (bare scope.now) }
    requires wanted { IsValid (bare scope.now) wanted }
    ensures exact { result ≡ first_created_struct (bare scope.now) wanted }
    ensures offered { IfSome result (λ index.
        is_created_struct (bare scope.now) wanted true index ≡ true) }
{
    let offer = CreatedStructOffer {
        scope,
        wanted,
        defaults: true,
    };
    let index = first_offered(&offer)?;
    Some(index as u32)
}

/// Returns the first array type whose created values match `wanted`, if there is one.
pub(crate) fn first_created_array(scope: &Scope<'_>, wanted: ValType) -> Option<u32>
    requires scope { IsScope (bare scope.now) }
    requires wanted { IsValid (bare scope.now) wanted }
    ensures exact { result ≡ first_created_array (bare scope.now) wanted }
    ensures offered { IfSome result (λ index.
        is_created_empty (bare scope.now) wanted index ≡ true) }
{
    let index = first_offered(&CreatedArrayOffer { scope, wanted })?;
    Some(index as u32)
}

/// Returns the index of the first offered item, if an item is offered.
fn first_offered<O: Offer>(offer: &O) -> Option<usize>
    requires { O.ready offer.now }
    ensures exact { result ≡ first_offered (O.test offer.now) (O.size offer.now) }
    ensures below { IfSome result (λ index. index < O.size offer.now) }
    ensures offered { IfSome result (λ index. O.test offer.now index ≡ true) }
{
    let mut nothing = Unstructured::new(&[]);
    choose_offered(offer, &mut nothing)
}
