ghost use Rattle.std.specs.Prelude.{◌≡◌, ◌<◌, true, length, min, IfSome};
ghost use Rattle.smith_bytes.specs.Draws.{choose_at};
ghost use Rattle.smith_bytes.specs.Source.{KeepsPieces};
ghost use Rattle.smith_instr.specs.Contexts.{AreValid};
ghost use Rattle.smith_body_nodes.specs.Offered.{are_below, is_target, offered};
ghost use Rattle.smith_body_nodes.specs.Scopes.{AreLabels, IsScope, bare};

use crate::locals::is_below;
use crate::offer::{Offer, choose_offered};
use crate::scope::Scope;
use smith_bytes::Unstructured;
use smith_types::{Items, ValType};

/// Labels that a branch with operands of the types `taken` may target.
#[derive(Clone, Copy)]
struct TargetOffer<'a> {
    scope: &'a Scope<'a>,
    labels: &'a [Items<ValType>],
    taken: &'a [ValType],
}

impl<'a> Offer for TargetOffer<'a> {
    ghost use Rattle.std.specs.Prelude.{length, min};
    ghost use Rattle.smith_instr.specs.Contexts.{AreValid};
    ghost use Rattle.smith_body_nodes.specs.Offered.{is_target};
    ghost use Rattle.smith_body_nodes.specs.Scopes.{AreLabels, IsScope, bare};

    ghost ready = { λ self. IsScope (bare self.scope.now) × AreLabels self.scope.now self.labels.now
        × AreValid (bare self.scope.now) self.taken.now };

    ghost size = { λ self. min (length self.labels.now) 64 };

    ghost test = { λ self index.
        is_target (bare self.scope.now).types self.labels.now self.taken.now index };

    fn count(&self) -> usize {
        self.labels.len().min(64)
    }

    fn is_offered(&self, index: usize) -> bool {
        are_below(self.scope, self.taken, self.labels[index].as_slice())
    }
}

/// Returns whether each of `values` matches the type at its place in `wanted`.
pub fn are_below(scope: &Scope<'_>, values: &[ValType], wanted: &[ValType]) -> bool
    requires scope { IsScope (bare scope.now) }
    requires values { AreValid (bare scope.now) values.now }
    requires wanted { AreValid (bare scope.now) wanted.now }
    ensures { result ≡ are_below (bare scope.now).types values.now wanted.now }
{
    if values.len() != wanted.len() {
        return false;
    }
    for index in 0..values.len() {
        if !is_below(scope, values[index], wanted[index]) {
            return false;
        }
    }
    true
}

/// Chooses a label that a branch with operands of the types `taken` may target, if there is one.
pub fn choose_target<'a>(
    scope: &'a Scope<'a>,
    labels: &'a [Items<ValType>],
    taken: &'a [ValType],
    u: &mut Unstructured<'_>,
) -> Option<u32>
    requires scope { IsScope (bare scope.now) }
    requires labels { AreLabels scope.now labels.now }
    requires taken { AreValid (bare scope.now) taken.now }
    ensures exact { choose_at (offered (is_target (bare scope.now).types labels.now taken.now)
        (min (length labels.now) 64)) u.old
        ≡ (result, u.new) }
    ensures below { IfSome result (λ label. label < length labels.now) }
    ensures offered { IfSome result (λ label.
        is_target (bare scope.now).types labels.now taken.now label ≡ true) }
    ensures left { KeepsPieces u.old u.new }
{
    let offer = TargetOffer {
        scope,
        labels,
        taken,
    };
    let label = choose_offered(&offer, u)?;
    Some(label as u32)
}
