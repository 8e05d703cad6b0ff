ghost use Rattle.std.specs.Prelude.{◌≡◌, false, length, IfOk, All};
ghost use Rattle.std.specs.List.{Any, flat_map};
ghost use Rattle.smith_types.specs.Bodies.{IsBodyValid};
ghost use Rattle.smith_types.specs.Floats.{IsNoFloat};
ghost use Rattle.smith_config.specs.Features.{features_of};
ghost use Rattle.smith_config.specs.Sanitized.{IsSanitized};
ghost use Rattle.smith_config.specs.Granted.{IsGranted};
ghost use Rattle.smith_draw_types.specs.Grounding.{standing_in};
ghost use Rattle.smith_draw_types.specs.Drawing.{AlwaysDraws, Draws};
ghost use Rattle.smith_draw_types.specs.KeptGrounds.{AreKeptGrounds};
ghost use Rattle.smith_draw_contents.specs.DrawnBodies.{raw_bytes_at, is_raw_at, instructions_at};
ghost use Rattle.smith_draw_contents.specs.DrawnBodies.{body_at, bodies_at};
ghost use Rattle.smith_module_rules.specs.Held.{IsRaw};

use smith_bytes::{Error, Unstructured};
use smith_config::Config;
use smith_draw_types::{KeptGrounds, ReferenceScope, Spaces, draw_locals};
use smith_types::{Code, Instructions, Items};
use std::alloc::Global;

/// Draws a length, then takes a raw body of that number of bytes.
#[tactic(auto, unfolding(crate::specs::DrawnBodies::raw_bytes_at))]
fn draw_raw_bytes(alloc: Global, u: &mut Unstructured<'_>) -> Result<Instructions, Error>
    ensures { Draws (raw_bytes_at u.old) result u.old u.new }
{
    let length = u.arbitrary_len();
    let bytes = u.bytes(length)?;
    Ok(Instructions::Arbitrary(Items::from_slice(alloc, bytes)?))
}

/// Draws whether a body is raw bytes. Returns `false` without a draw if `config` does not allow
/// invalid bodies.
#[tactic(auto, unfolding(crate::specs::DrawnBodies::is_raw_at))]
fn is_raw(config: &Config, u: &mut Unstructured<'_>) -> bool
    ensures { AlwaysDraws (is_raw_at config.now u.old) result u.old u.new }
{
    if config.allow_invalid_funcs {
        return u.arbitrary();
    }
    false
}

#[tactic(auto, unfolding(crate::specs::DrawnBodies::instructions_at))]
fn draw_instructions(
    alloc: Global,
    config: &Config,
    u: &mut Unstructured<'_>,
) -> Result<Instructions, Error>
    ensures { Draws (instructions_at config.now u.old) result u.old u.new }
{
    if is_raw(config, u) {
        return draw_raw_bytes(alloc, u);
    }
    Ok(Instructions::Unreachable)
}

#[tactic(auto, unfolding(crate::specs::DrawnBodies::body_at))]
fn draw_body(
    alloc: Global,
    config: &Config,
    standing: &ReferenceScope<'_>,
    u: &mut Unstructured<'_>,
) -> Result<Code, Error>
    ensures { Draws (body_at config.now standing.now u.old) result u.old u.new }
{
    let locals = draw_locals(alloc, config, standing, u)?;
    let instructions = draw_instructions(alloc, config, u)?;
    Ok(Code {
        locals,
        instructions,
    })
}

#[tactic(auto, unfolding(crate::specs::DrawnBodies::bodies_at))]
fn draw_each_body(
    alloc: Global,
    config: &Config,
    standing: &ReferenceScope<'_>,
    count: usize,
    u: &mut Unstructured<'_>,
) -> Result<Items<Code>, Error>
    ensures { Draws (bodies_at config.now standing.now count u.old) result u.old u.new }
{
    let mut bodies = Items::with_capacity(alloc, count)?;
    for made in 0..count {
        bodies.push(draw_body(alloc, config, standing, u)?)?;
    }
    Ok(bodies)
}

fn draw_bodies(
    alloc: Global,
    config: &Config,
    spaces: &Spaces<'_>,
    grounds: &KeptGrounds,
    count: usize,
    u: &mut Unstructured<'_>,
) -> Result<Items<Code>, Error>
    requires { AreKeptGrounds (standing_in config.now spaces.now) grounds.now }
    ensures { Draws (bodies_at config.now (standing_in config.now spaces.now) count u.old)
        result u.old u.new }
{
    let kept = grounds.scope(config, spaces);
    draw_each_body(alloc, config, &kept, count, u)
}

/// Draws the bodies of `count` functions. Each has locals over the types and functions of `spaces`,
/// then `unreachable`, or raw bytes if `config` allows invalid bodies.
///
/// Requires `config` to be sanitised, and `grounds` to record the heap types that the functions of
/// `spaces` ground.
pub fn arbitrary_bodies(
    alloc: Global,
    config: &Config,
    spaces: &Spaces<'_>,
    grounds: &KeptGrounds,
    count: usize,
    u: &mut Unstructured<'_>,
) -> Result<Items<Code>, Error>
    requires sanitized { IsSanitized config.now }
    requires kept { AreKeptGrounds (standing_in config.now spaces.now) grounds.now }

    // The draw.
    ensures draws { Draws (bodies_at config.now (standing_in config.now spaces.now) count u.old)
        result u.old u.new }
    ensures each { IfOk result (λ bodies. length bodies ≡ count) }

    // Validity.
    ensures valid { IfOk result (All (IsBodyValid (features_of config.now)
        (length spaces.now.types.now.types) config.now.allow_invalid_funcs)) }

    // Floats, references and raw bytes.
    ensures floats { config.now.allow_floats ≡ false
        → IfOk result (λ bodies. All IsNoFloat (flat_map (λ body. body.locals) bodies)) }
    ensures granted { IfOk result (λ bodies.
        All (IsGranted config.now (standing_in config.now spaces.now))
        (flat_map (λ body. body.locals) bodies)) }
    ensures no_raw { config.now.allow_invalid_funcs ≡ false
        → IfOk result (λ bodies. ¬ Any (λ body. IsRaw body.instructions) bodies) }
{
    let _types = spaces.types.types();
    draw_bodies(alloc, config, spaces, grounds, count, u)
}
