ghost use Rattle.std.specs.Prelude.{◌≡◌, ◌-◌, ◌^◌, Some, IfOk};
ghost use Rattle.json.specs.Lex.{tokens};
ghost use Rattle.json.specs.Reads.{token_of};
ghost use Rattle.smith_config_json.specs.Values.{map_ok, number_of};
ghost use Rattle.smith_config_json.specs.Members.{is_key, value_of, or_none, preset_in, fuel_in};
ghost use Rattle.smith_config_json.specs.Members.{is_true, is_fuel_exported_in, is_observed_in};

use crate::preset::{Preset, preset_named};
use crate::value::{next, number};
use json::{Reader, Scratch, Token};
use std::alloc::{AllocError, Global};

/// Returns whether `token` is the key `name`.
fn is_key(token: &Token<'_>, name: &str) -> bool
    ensures { result ≡ is_key name.now (token_of token.now) }
{
    match token {
        Token::Key(other) => *other == name,
        _ => false,
    }
}

/// Finds the first member with the name `name`, and returns the first token of its value, or `null`
/// if there is no such member.
fn value_of<'a>(reader: &mut Reader<'a>, name: &str) -> Token<'a>
    ensures { token_of result ≡ value_of name.now reader.old }
{
    while let Some(token) = reader.next() {
        if is_key(&token, name) {
            return next(reader);
        }
    }
    Token::Null
}

/// Finds the preset of the object in `text`. If the member `preset` names no preset, an error
/// follows when the members are read.
pub(crate) fn preset_in<'a>(
    text: &'a str,
    scratch: &'a mut Scratch,
) -> Result<Option<Preset>, AllocError>
    ensures { IfOk result (λ preset. preset ≡ preset_in (tokens text.now)) }
{
    let mut reader = Reader::new(text, scratch)?;
    match value_of(&mut reader, "preset") {
        Token::String(name) => Ok(preset_named(name)),
        _ => Ok(None),
    }
}

/// Finds the fuel of the object in `text`, which [`config`](crate::config) has read: the number in
/// its member `fuel` of calls and loop iterations after which a program traps. Returns `None` if
/// there is no fuel.
pub fn fuel(alloc: Global, text: &str) -> Result<Option<u32>, AllocError>
    ensures { IfOk result (λ fuel. fuel ≡ fuel_in (tokens text.now)) }
{
    let mut scratch = Scratch::new(alloc);
    let mut reader = Reader::new(text, &mut scratch)?;
    match value_of(&mut reader, "fuel") {
        Token::Number(digits) => Ok(fuel_of(digits)),
        _ => Ok(None),
    }
}

/// Returns whether the object in `text`, which [`config`](crate::config) has read, exports the counter
/// of its fuel: whether its member `fuel-export` is `true`.
pub fn is_fuel_exported(alloc: Global, text: &str) -> Result<bool, AllocError>
    ensures { IfOk result (λ is_exported. is_exported ≡ is_fuel_exported_in (tokens text.now)) }
{
    is_member_true(alloc, text, "fuel-export")
}

/// Returns whether the object in `text`, which [`config`](crate::config) has read, has the values of
/// locals mixed into sinks, which are exported: whether its member `observe` is `true`. The counter of a
/// fuel is then exported, too.
pub fn is_observed(alloc: Global, text: &str) -> Result<bool, AllocError>
    ensures { IfOk result (λ is_observed. is_observed ≡ is_observed_in (tokens text.now)) }
{
    is_member_true(alloc, text, "observe")
}

/// Returns whether the first member with the name `name` of the object in `text` is `true`.
fn is_member_true(alloc: Global, text: &str, name: &str) -> Result<bool, AllocError>
    ensures { IfOk result (λ is. is ≡ is_true (value_of name.now (tokens text.now))) }
{
    let mut scratch = Scratch::new(alloc);
    let mut reader = Reader::new(text, &mut scratch)?;
    match value_of(&mut reader, name) {
        Token::Bool(is) => Ok(is),
        _ => Ok(false),
    }
}

/// Returns the fuel that the digits state, if they are in range.
fn fuel_of(digits: &str) -> Option<u32>
    ensures { result ≡ or_none (map_ok Some (number_of (2 ^ 32 - 1) digits.now)) }
{
    match number(digits, u32::MAX as u128) {
        Ok(fuel) => Some(fuel as u32),
        Err(_) => None,
    }
}
