ghost use Rattle.std.specs.Prelude.{◌≡◌, [], ◌∷◌, IfErr, OnOk};
ghost use Rattle.smith_bytes.specs.Source.{KeepsPieces};
ghost use Rattle.smith_instr.specs.Contexts.{IsValid};
ghost use Rattle.smith_body.specs.Bodies.{leaf_in};
ghost use Rattle.smith_body.specs.DraftSteps.{IsDrawn, state_of};
ghost use Rattle.smith_body_nodes.specs.Scopes.{IsScope, bare};

use smith_body_leaves::{draw_any_leaf, draw_preferred, only, write_instructions, write_spare};
use smith_body_nodes::{Draft, Scope, is_allowed};
use smith_bytes::{Error, Unstructured};
use smith_types::ValType;

/// Writes instructions that produce a value that matches `wanted`, and take no budget. The
/// instructions are a drawn instruction without operands, a value that is preferred to null, or
/// another value if the drawn instruction is not allowed.
pub(crate) fn write_leaf(
    scope: &Scope<'_>,
    wanted: ValType,
    draft: &mut Draft,
    u: &mut Unstructured<'_>,
) -> Result<(), Error>
    requires scope { IsScope (bare scope.now) }
    requires wanted { IsValid (bare scope.now) wanted }
    ensures exact { OnOk result
        (leaf_in scope.now.config.now wanted (state_of scope.now draft.old u.old)
        ≡ state_of scope.now draft.new u.new) }
    ensures drawn { OnOk result (IsDrawn scope.now [] (wanted ∷ []) 1 draft.old draft.new) }
    ensures memory { IfErr result (λ e. e ≡ Error.Memory) }
    ensures left { KeepsPieces u.old u.new }
{
    let leaf = draw_any_leaf(scope, wanted, draft, u);
    if let Some(preferred) = draw_preferred(scope, wanted, &leaf, draft, u) {
        return write_instructions(preferred, draft);
    }
    if is_allowed(scope, &leaf) {
        return write_instructions(only(leaf), draft);
    }
    write_spare(scope, wanted, draft)
}
