ghost use Rattle.std.specs.Prelude.{◌≡◌, ◌≤◌, false, length, IfOk, All};
ghost use Rattle.smith_types.specs.Floats.{IsNoFloat};
ghost use Rattle.smith_types.specs.ValidTypes.{IsValTypeValid};
ghost use Rattle.smith_config.specs.Features.{features_of};
ghost use Rattle.smith_config.specs.Sanitized.{IsSanitized};
ghost use Rattle.smith_config.specs.Granted.{IsNonNullable, IsGranted};
ghost use Rattle.smith_draw_types.specs.Drawing.{Draws};
ghost use Rattle.smith_draw_types.specs.Grounding.{standing_in};
ghost use Rattle.smith_draw_types.specs.Locals.{locals_at};

use crate::call_grounds::CallGrounds;
use crate::composite_type::draw_val_types;
use crate::reference_scope::ReferenceScope;
use crate::spaces::{Spaces, orderly};
use smith_bytes::{Error, Unstructured};
use smith_config::Config;
use smith_types::{Items, ValType};
use std::alloc::Global;

/// Draws the types of the locals of a function over `standing` as [`arbitrary_locals`] does.
#[tactic(auto, unfolding(crate::specs::Locals::locals_at))]
pub fn draw_locals(
    alloc: Global,
    config: &Config,
    standing: &ReferenceScope<'_>,
    u: &mut Unstructured<'_>,
) -> Result<Items<ValType>, Error>
    ensures { Draws (locals_at config.now standing.now u.old) result u.old u.new }
{
    let limit = standing.types().types().len() as u32;
    draw_val_types(alloc, config, standing, false, limit, 100, u)
}

/// Draws the types of the locals of a function, without its parameters: at most 100 value types
/// over the types of `spaces`. See the standard, section Structure, Functions.
///
/// Requires `config` to be sanitised.
pub fn arbitrary_locals(
    alloc: Global,
    config: &Config,
    spaces: &Spaces<'_>,
    u: &mut Unstructured<'_>,
) -> Result<Items<ValType>, Error>
    requires { IsSanitized config.now }

    // The draw.
    ensures draws { Draws (locals_at config.now (standing_in config.now spaces.now) u.old)
        result u.old u.new }

    // Bounds.
    ensures most { IfOk result (λ locals. length locals ≤ 100) }

    // Validity, floats and references.
    ensures granted { IfOk result (All (IsGranted config.now (standing_in config.now spaces.now))) }
    ensures valid { IfOk result
        (All (IsValTypeValid (features_of config.now) (length spaces.now.types.now.types))) }
    ensures floats { config.now.allow_floats ≡ false → IfOk result (All IsNoFloat) }
    ensures nullable { config.now.non_nullable_enabled ≡ false
        → IfOk result (All (λ ty. ¬ IsNonNullable ty)) }
{
    orderly(spaces);
    let call = CallGrounds::over(alloc, config, spaces)?;
    let standing = call.scope();
    let drawn = draw_locals(alloc, config, &standing, u);
    drop(call);
    drawn
}
