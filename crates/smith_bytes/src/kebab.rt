ghost use Rattle.std.specs.Prelude.{◌≡◌, ◌<◌, ◌≤◌, [], string_bytes, IfOk, IfErr};
ghost use Rattle.smith_bytes.specs.Source.{KeepsPieces};
ghost use Rattle.smith_bytes.specs.Kebab.{is_open, character, character_at, characters_at};
ghost use Rattle.smith_bytes.specs.Kebab.{kebab_at};

use crate::error::Error;
use crate::unstructured::Unstructured;
use std::alloc::Global;

/// Draws a kebab name of at most `max_size` characters. Appends an `a` if the name is empty or ends
/// in a dash.
#[tactic(auto, unfolding(crate::specs::Kebab::kebab_at))]
pub(crate) fn draw_kebab_string(
    alloc: Global,
    max_size: usize,
    u: &mut Unstructured<'_>,
) -> Result<String, Error>
    ensures exact { IfOk result (λ name. kebab_at max_size u.old ≡ (string_bytes name, u.new)) }
    ensures memory { IfErr result (λ e. e ≡ Error.Memory) }
    ensures left { KeepsPieces u.old u.new }
{
    let size = u.arbitrary_len().min(max_size);
    let mut name = draw_characters(alloc, size, u)?;
    if is_open_name(&name) {
        name.push('a')?;
    }
    Ok(name)
}

/// Draws the first `size` characters of a kebab name.
fn draw_characters(alloc: Global, size: usize, u: &mut Unstructured<'_>) -> Result<String, Error>
    ensures exact { IfOk result (λ name. characters_at size [] u.old ≡ (string_bytes name, u.new)) }
    ensures memory { IfErr result (λ e. e ≡ Error.Memory) }
    ensures left { KeepsPieces u.old u.new }
{
    let mut name = String::new(alloc);
    for _ in 0..size {
        let next = draw_character(&name, u);
        name.push(char::from(next))?;
    }
    Ok(name)
}

/// Draws the character that follows `name` in a kebab name.
#[tactic(auto, unfolding(crate::specs::Kebab::character_at))]
fn draw_character(name: &str, u: &mut Unstructured<'_>) -> u8
    ensures exact { character_at name.now u.old ≡ (result, u.new) }
    ensures ascii { result < 128 }
    ensures left { KeepsPieces u.old u.new }
{
    character_of(name, u.int_in_range(0..=36u8))
}

/// Returns the character that `number` encodes after `name`. Requires `number` to be at most 36.
fn character_of(name: &str, number: u8) -> u8
    requires few { number ≤ 36 }
    ensures exact { result ≡ character name.now number }
    ensures ascii { result < 128 }
{
    match number {
        0..=25 => b'a' + number,
        26..=35 if name.is_empty() => b'a' + (number - 26),
        26..=35 => b'0' + (number - 26),
        _ if is_open_name(name) => b'a',
        _ => b'-',
    }
}

/// Returns whether `name` is empty or ends in a dash, so that a kebab name cannot end there.
fn is_open_name(name: &str) -> bool
    ensures { result ≡ is_open name.now }
{
    match name.as_bytes() {
        [] => true,
        [.., last] => *last == b'-',
    }
}
