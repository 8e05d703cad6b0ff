ghost use Rattle.std.specs.Prelude.{◌≡◌, ◌<◌, ◌^◌, false, length, IsOk, IfOk};
ghost use Rattle.smith_bytes.specs.Takes.{Takes, SpellsSuch};
ghost use Rattle.smith_types.specs.Entities.{IsGlobalValid};
ghost use Rattle.smith_types.specs.Floats.{IsNoFloat};
ghost use Rattle.smith_types.specs.GroupedTypes.{GroupedTypes};
ghost use Rattle.smith_types.specs.ValidTypes.{AreTypesValid};
ghost use Rattle.smith_config.specs.Features.{features_of};
ghost use Rattle.smith_config.specs.Sanitized.{IsSanitized};
ghost use Rattle.smith_config.specs.Granted.{IsNonNullable, IsUngrounded};
ghost use Rattle.smith_draw_types.specs.Drawing.{AlwaysDraws, Draws};
ghost use Rattle.smith_draw_types.specs.Grounding.{standing_in};
ghost use Rattle.smith_draw_types.specs.GlobalTypes.{global_sharedness_at, global_type_at};
ghost use Rattle.smith_draw_types.specs.SpelledGlobals.{mutable_i32, SpellsMutableI32};

use crate::call_grounds::CallGrounds;
use crate::reference_scope::ReferenceScope;
use crate::shared_reference::is_reference_shared;
use crate::spaces::Spaces;
use crate::value_type::{draw_sharedness, draw_val_type};
use smith_bytes::{Error, Unstructured};
use smith_config::Config;
use smith_types::{GlobalType, SubType, ValType};
use std::alloc::Global;

/// Returns whether a global of the type `val_type` is shared. A reference is shared exactly if its
/// heap type is; for any other type this is drawn.
fn is_global_shared(
    config: &Config,
    types: &[SubType],
    val_type: ValType,
    u: &mut Unstructured<'_>,
) -> bool
    ensures { AlwaysDraws (global_sharedness_at config.now types.now val_type u.old)
        result u.old u.new }
{
    match val_type {
        ValType::Ref(reference) => is_reference_shared(types, reference),
        _ => draw_sharedness(config, false, u),
    }
}

#[tactic(auto, unfolding(crate::specs::GlobalTypes::global_type_at))]
fn draw_global(
    config: &Config,
    standing: &ReferenceScope<'_>,
    u: &mut Unstructured<'_>,
) -> GlobalType
    ensures { AlwaysDraws (global_type_at config.now standing.now u.old) result u.old u.new }
{
    let types = standing.types().types();
    let val_type = draw_val_type(config, standing, false, types.len() as u32, u);
    let shared = is_global_shared(config, types, val_type, u);
    let mutable = u.arbitrary();
    GlobalType {
        val_type,
        mutable,
        shared,
    }
}

/// Draws a global type over `standing` as [`arbitrary_global_type`] does.
pub fn draw_global_type(
    config: &Config,
    standing: &ReferenceScope<'_>,
    u: &mut Unstructured<'_>,
) -> GlobalType
    requires { IsSanitized config.now }

    // The draw.
    ensures draws { AlwaysDraws (global_type_at config.now standing.now u.old) result u.old u.new }

    // Validity, floats and references.
    ensures valid { (space : GroupedTypes) → space.types ≡ standing.now.types
        → AreTypesValid (features_of config.now) space
        → IsGlobalValid (features_of config.now) space.types result }
    ensures floats { config.now.allow_floats ≡ false → IsNoFloat result.val_type }
    ensures nullable { config.now.non_nullable_enabled ≡ false → ¬ IsNonNullable result.val_type }
    ensures grounded { ¬ IsUngrounded config.now standing.now result.val_type }

    // Reach.
    ensures reach { Takes
        (SpellsSuch (λ global. global ≡ mutable_i32) (λ _. SpellsMutableI32 config.now))
        u.old result u.new }
{
    standing.orderly();
    draw_global(config, standing, u)
}

/// Draws a global type: a value type over the types of `spaces`, whether the global is shared, and
/// whether it is mutable. See the standard, section Structure, Global Types.
///
/// A global that holds a reference is shared exactly if the heap type of the reference is. The
/// global type is valid if the types of `spaces` are.
///
/// Requires `config` to be sanitised.
///
/// Always returns `Ok`, since it does not allocate. All draws of entities return a `Result`.
pub fn arbitrary_global_type(
    _alloc: Global,
    config: &Config,
    spaces: &Spaces<'_>,
    u: &mut Unstructured<'_>,
) -> Result<GlobalType, Error>
    requires { IsSanitized config.now }

    // The draw.
    ensures ok { IsOk result }
    ensures draws { Draws (global_type_at config.now (standing_in config.now spaces.now) u.old)
        result u.old u.new }

    // Validity, floats and references.
    ensures valid { AreTypesValid (features_of config.now) spaces.now.types.now
        → IfOk result (IsGlobalValid (features_of config.now) spaces.now.types.now.types) }
    ensures floats { config.now.allow_floats ≡ false
        → IfOk result (λ drawn. IsNoFloat drawn.val_type) }
    ensures nullable { config.now.non_nullable_enabled ≡ false
        → IfOk result (λ drawn. ¬ IsNonNullable drawn.val_type) }
    ensures grounded { IfOk result (λ drawn.
        ¬ IsUngrounded config.now (standing_in config.now spaces.now) drawn.val_type) }

    // Reach.
    ensures reach { IfOk result (λ drawn.
        Takes (SpellsSuch (λ global. global ≡ mutable_i32) (λ _. SpellsMutableI32 config.now))
        u.old drawn u.new) }
{
    let call = CallGrounds::without_record(config, spaces);
    let standing = call.scope();
    let drawn = draw_global_type(config, &standing, u);
    drop(call);
    Ok(drawn)
}
