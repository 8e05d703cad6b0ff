ghost use Rattle.std.specs.Prelude.{◌≡◌, ◌<◌, true, length, IfSome};
ghost use Rattle.smith_bytes.specs.Source.{KeepsPieces};
ghost use Rattle.smith_body_control.specs.CallChoices.{IsOutcome, is_fit_type, named_type};
ghost use Rattle.smith_body_control.specs.CallChoices.{named_type_at, referred_type_at};
ghost use Rattle.smith_body_nodes.specs.Scopes.{IsScope, bare};

use smith_body_control::{Outcome, choose_fit_type, is_fit_type};
use smith_body_nodes::{Offer, Scope, choose_in_chunk};
use smith_bytes::Unstructured;

/// Functions that `ref.func` may name and whose results may have an outcome.
#[derive(Clone, Copy)]
struct NamedOffer<'a> {
    scope: &'a Scope<'a>,
    outcome: Outcome,
}

impl<'a> Offer for NamedOffer<'a> {
    ghost use Rattle.std.specs.Prelude.{length};
    ghost use Rattle.smith_body_control.specs.CallChoices.{IsOutcome, is_fit_named};
    ghost use Rattle.smith_body_nodes.specs.Scopes.{IsScope, bare};

    ghost ready = { λ self.
        IsScope (bare self.scope.now) × IsOutcome (bare self.scope.now) self.outcome };

    ghost size = { λ self. length self.scope.now.references.now };

    ghost test = { λ self place. is_fit_named (bare self.scope.now) self.outcome place };

    fn count(&self) -> usize {
        self.scope.references.len()
    }

    fn is_offered(&self, index: usize) -> bool {
        match named_type(self.scope, index) {
            Some(ty) => is_fit_type(self.scope, self.outcome, ty as usize),
            None => false,
        }
    }
}

/// Returns the type of the function at `place` of those that `ref.func` may name, if it exists.
fn named_type(scope: &Scope<'_>, place: usize) -> Option<u32>
    requires { place < length scope.now.references.now }
    ensures { result ≡ named_type (bare scope.now) place }
{
    let function = scope.references[place] as usize;
    if function >= scope.funcs.len() {
        return None;
    }
    Some(scope.funcs[function])
}

/// Chooses a function of a drawn chunk of those that `ref.func` may name, whose results may have the
/// outcome `outcome`, and returns its type, if there is one.
fn choose_named_type(scope: &Scope<'_>, outcome: Outcome, u: &mut Unstructured<'_>) -> Option<u32>
    requires scope { IsScope (bare scope.now) }
    requires outcome { IsOutcome (bare scope.now) outcome }
    ensures exact { named_type_at (bare scope.now) outcome u.old ≡ (result, u.new) }
    ensures offered { IfSome result (λ index. is_fit_type (bare scope.now) outcome index ≡ true) }
    ensures left { KeepsPieces u.old u.new }
{
    let place = choose_in_chunk(&NamedOffer { scope, outcome }, u)?;
    named_type(scope, place)
}

/// Chooses the type of a function that is called by a reference and whose results may have the
/// outcome `outcome`: that of a function that `ref.func` may name, or one of 16 times any.
pub(crate) fn choose_referred_type(
    scope: &Scope<'_>,
    outcome: Outcome,
    u: &mut Unstructured<'_>,
) -> Option<u32>
    requires scope { IsScope (bare scope.now) }
    requires outcome { IsOutcome (bare scope.now) outcome }
    ensures exact { referred_type_at (bare scope.now) outcome u.old ≡ (result, u.new) }
    ensures offered { IfSome result (λ index. is_fit_type (bare scope.now) outcome index ≡ true) }
    ensures left { KeepsPieces u.old u.new }
{
    let number = u.int_in_range(0..=15u8);
    if number < 15 {
        return choose_named_type(scope, outcome, u);
    }
    choose_fit_type(scope, outcome, u)
}
