ghost use Rattle.std.specs.Prelude.{◌≡◌, ℕ, ◌≤◌, false, length, OnOk, All};
ghost use Rattle.smith_types.specs.Floats.{HasNoFloat};
ghost use Rattle.smith_types.specs.Grown.{Extends};
ghost use Rattle.smith_types.specs.ValidTypes.{AreTypesValid};
ghost use Rattle.smith_config.specs.Faults.{Passes};
ghost use Rattle.smith_config.specs.Features.{features_of};
ghost use Rattle.smith_config.specs.Sanitized.{IsSanitized};
ghost use Rattle.smith_draw_types.specs.HeldFields.{HoldsUngroundedField};
ghost use Rattle.smith_draw_types.specs.Drawing.{DrawsInto};
ghost use Rattle.smith_draw_types.specs.FuncSizes.{HasFewValues};
ghost use Rattle.smith_config.specs.Granted.{AreTypesGranted};
ghost use Rattle.smith_draw_types.specs.Grounding.{over};
ghost use Rattle.smith_draw_types.specs.RecGroups.{types_at};
ghost use Rattle.wasm_smith.specs.Build.{functions_over};

use smith_bytes::{Error, Unstructured};
use smith_config::Config;
use smith_draw_types::{Entities, arbitrary_types};
use smith_types::TypeSpace;
use std::alloc::Global;

/// Draws types to follow those of `types`, which stay. `funcs` are the functions so far, of which
/// the first `imported_funcs` are imported.
#[tactic(auto, using(smith_draw_types::proofs::CallerLemmas::passes_but_imports))]
pub(crate) fn add_more_types(
    alloc: Global,
    config: &Config,
    types: &mut TypeSpace,
    funcs: &[u32],
    imported_funcs: usize,
    u: &mut Unstructured<'_>,
) -> Result<(), Error>
    requires passes { Passes config.now }
    requires sanitized { IsSanitized config.now }
    requires valid { AreTypesValid (features_of config.now) types.old }

    // The draw.
    ensures draws { DrawsInto
        (types_at config.now (functions_over config.now funcs.now imported_funcs) types.old u.old)
        types.new result u.old u.new }

    // Validity, and the types that stay.
    ensures valid { OnOk result (AreTypesValid (features_of config.now) types.new) }
    ensures types { OnOk result (Extends types.old.types types.new.types) }
    ensures groups { OnOk result (Extends types.old.groups types.new.groups) }

    // Bounds.
    ensures most { length types.old.types ≤ config.now.max_types
        → OnOk result (length types.new.types ≤ config.now.max_types) }
    ensures full { config.now.max_types ≤ length types.old.types
        → OnOk result (types.new ≡ types.old) }
    ensures least { OnOk result (config.now.min_types ≤ length types.new.types) }

    // Floats, numbers of values, and references.
    ensures floats { config.now.allow_floats ≡ false → All HasNoFloat types.old.types
        → OnOk result (All HasNoFloat types.new.types) }
    ensures few_values { (most : ℕ) → 20 ≤ most → All (HasFewValues most) types.old.types
        → OnOk result (All (HasFewValues most) types.new.types) }
    ensures grounded { ¬ HoldsUngroundedField config.now
        (over (functions_over config.now funcs.now imported_funcs) types.old.types)
        → OnOk result (¬ HoldsUngroundedField config.now
        (over (functions_over config.now funcs.now imported_funcs) types.new.types)) }
    ensures granted { AreTypesGranted config.now
        (over (functions_over config.now funcs.now imported_funcs) types.old.types)
        → OnOk result (AreTypesGranted config.now
        (over (functions_over config.now funcs.now imported_funcs) types.new.types)) }
{
    let entities = Entities {
        funcs,
        imported_funcs,
        ..Entities::none()
    };
    arbitrary_types(alloc, config, types, &entities, u)
}
