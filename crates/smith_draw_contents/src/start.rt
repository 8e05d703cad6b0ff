ghost use Rattle.std.specs.Prelude.{◌≡◌, ◌<◌, ◌^◌, false, length, slice_index_or, None, IsTrue};
ghost use Rattle.smith_bytes.specs.Takes.{Takes, SpellsSuch};
ghost use Rattle.smith_types.specs.Exports.{IsStartValid};
ghost use Rattle.smith_draw_types.specs.Drawing.{AlwaysDraws};
ghost use Rattle.smith_draw_types.specs.TypeUses.{takes_and_gives_nothing, is_start_type};
ghost use Rattle.smith_draw_types.specs.SpelledParts.{SpellsNoStart};
ghost use Rattle.smith_draw_contents.specs.Start.{start_funcs, start_wanted_at, start_at};

use smith_bytes::Unstructured;
use smith_config::Config;
use smith_types::{CompositeInnerType, SubType};

fn takes_and_gives_nothing(inner: &CompositeInnerType) -> bool
    ensures { result ≡ takes_and_gives_nothing inner.now }
{
    match inner {
        CompositeInnerType::Func(function) => {
            function.params.is_empty() && function.results.is_empty()
        }
        _ => false,
    }
}

/// Returns whether functions of the type at `index` may start a module.
fn is_start_type(types: &[SubType], index: u32) -> bool
    ensures { result ≡ is_start_type types.now index }
{
    match types.get(index as usize) {
        Some(t) => takes_and_gives_nothing(&t.composite_type.inner),
        None => false,
    }
}

/// Counts the functions of `funcs` that may start the module.
fn count_start_funcs(types: &[SubType], funcs: &[u32]) -> usize
    ensures { result ≡ length (start_funcs types.now funcs.now) }
{
    funcs.iter().filter(|ty| is_start_type(types, **ty)).count()
}

/// Finds the index of the function at `place` among those of `funcs` that may start the module.
fn start_func_at(types: &[SubType], funcs: &[u32], mut place: usize) -> u32
    requires { length funcs.now < 2 ^ 32 }
    ensures { result ≡ slice_index_or (start_funcs types.now funcs.now) place 0 }
{
    for (index, ty) in funcs.iter().enumerate() {
        if !is_start_type(types, *ty) {
            continue;
        }
        if place == 0 {
            return index as u32;
        }
        place -= 1;
    }
    0
}

/// Draws whether one of `count` functions starts the module. Returns `false` without a draw if
/// there is none or `config` allows no start function.
#[tactic(auto, unfolding(crate::specs::Start::start_wanted_at))]
fn is_start_wanted(config: &Config, count: usize, u: &mut Unstructured<'_>) -> bool
    ensures draws { AlwaysDraws (start_wanted_at config.now count u.old) result u.old u.new }
    ensures some { IsTrue result → 0 < count }
{
    if !config.allow_start_export || count == 0 {
        return false;
    }
    u.arbitrary()
}

#[tactic(auto, unfolding(crate::specs::Start::start_at, smith_draw_types::specs::Choices::chosen_at))]
fn draw_start(
    config: &Config,
    types: &[SubType],
    funcs: &[u32],
    u: &mut Unstructured<'_>,
) -> Option<u32>
    requires { length funcs.now < 2 ^ 32 }
    ensures { AlwaysDraws (start_at config.now types.now funcs.now u.old) result u.old u.new }
{
    let count = count_start_funcs(types, funcs);
    if !is_start_wanted(config, count, u) {
        return None;
    }
    let place = u.int_in_range(0..=count - 1);
    Some(start_func_at(types, funcs, place))
}

/// Draws the index of the start function, or `None`. It is an imported or defined function of
/// `funcs` without parameters and results. See the standard, section Validation, Start Function.
///
/// `funcs` holds the type index of each function, over `types`. Requires fewer than 2^32
/// functions.
pub fn arbitrary_start(
    config: &Config,
    types: &[SubType],
    funcs: &[u32],
    u: &mut Unstructured<'_>,
) -> Option<u32>
    requires { length funcs.now < 2 ^ 32 }
    ensures draws { AlwaysDraws (start_at config.now types.now funcs.now u.old) result u.old u.new }
    ensures valid { IsStartValid types.now funcs.now result }
    ensures off { config.now.allow_start_export ≡ false → result ≡ None }
    ensures none { Takes
        (SpellsSuch (λ start. start ≡ None) (λ _. SpellsNoStart config.now types.now funcs.now))
        u.old result u.new }
{
    draw_start(config, types, funcs, u)
}
