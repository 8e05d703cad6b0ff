ghost use Rattle.std.specs.Prelude.{◌≡◌, ◌≤◌, length, drop, Some, IfOk, IfErr, IfSome, OnOk};
ghost use Rattle.std.specs.List.{list_all};
ghost use Rattle.std.specs.Char.{is_ascii_digit};
ghost use Rattle.json.specs.Reads.{token_of};
ghost use Rattle.smith_types.specs.Syntax.Instructions.{no_kind};
ghost use Rattle.smith_config_json.specs.Fields.{field_named};
ghost use Rattle.smith_config_json.specs.Places.{field_of, most_of, with_number};
ghost use Rattle.smith_config_json.specs.Values.{
  first,
  unwanted,
  are_digits,
  number_of,
  whole_value,
  truth_value,
  file_value,
  preset_value,
  IsListed,
  AreListed,
  AreKinds,
  weight,
  some_weight,
  weights,
  list_end,
};
ghost use Rattle.smith_config_json.specs.Sets.{Sets, outcome};

use crate::fault::Fault;
use crate::field::place_named;
use crate::lend::{flag_at, long_at, size_at, word_at};
use crate::place::{Flag, Number, Place};
use crate::preset::preset_named;
use bitflags::Flags;
use json::{Reader, Token};
use smith_config::{Config, MemoryOffsetChoices};
use smith_types::{InstructionKind, InstructionKinds};
use std::str::FromStr;

/// Takes the next token, or a bad token at the end of the text.
pub(crate) fn next<'a>(reader: &mut Reader<'a>) -> Token<'a>
    ensures token { token_of result ≡ first reader.old }
    ensures rest { reader.new ≡ drop 1 reader.old }
{
    reader.next().unwrap_or(Token::Bad)
}

/// Returns the fault of a token that is not a value of the field's type.
fn fault_of_token(token: Token<'_>) -> Fault
    ensures { result ≡ unwanted (token_of token.entry) }
{
    match token {
        Token::BeginObject
        | Token::BeginArray
        | Token::String(_)
        | Token::Number(_)
        | Token::Bool(_)
        | Token::Null => Fault::WrongType,
        Token::EndObject | Token::EndArray | Token::Key(_) | Token::Bad => Fault::NotAnObject,
    }
}

/// Returns whether a text is not empty and has only digits.
fn are_digits(text: &str) -> bool
    ensures { result ≡ are_digits text.now }
{
    !text.is_empty() && all_digits(text.as_bytes())
}

/// Returns whether each byte is a digit.
fn all_digits(text: &[u8]) -> bool
    ensures { result ≡ list_all is_ascii_digit text.now }
{
    for byte in text {
        if !byte.is_ascii_digit() {
            return false;
        }
    }
    true
}

/// Returns the number that a JSON number states, if it has only digits and is at most `most`.
pub(crate) fn number(text: &str, most: u128) -> Result<u128, Fault>
    ensures exact { result ≡ number_of most text.now }
    ensures bounded { IfOk result (λ n. n ≤ most) }
{
    if !are_digits(text) {
        return Err(Fault::WrongType);
    }
    match u128::from_str(text) {
        Ok(number) if number <= most => Ok(number),
        _ => Err(Fault::OutOfRange),
    }
}

/// Reads a whole number, at most `most`, or `None` for `null`.
fn whole(reader: &mut Reader<'_>, most: u128) -> Result<Option<u128>, Fault>
    ensures exact { result ≡ whole_value most (first reader.old) }
    ensures bounded { IfOk result (λ value. IfSome value (λ n. n ≤ most)) }
    ensures rest { reader.new ≡ drop 1 reader.old }
{
    match next(reader) {
        Token::Null => Ok(None),
        Token::Number(text) => Ok(Some(number(text, most)?)),
        token => Err(fault_of_token(token)),
    }
}

/// Reads a truth value, or `None` for `null`.
fn truth(reader: &mut Reader<'_>) -> Result<Option<bool>, Fault>
    ensures value { result ≡ truth_value (first reader.old) }
    ensures rest { reader.new ≡ drop 1 reader.old }
{
    match next(reader) {
        Token::Null => Ok(None),
        Token::Bool(value) => Ok(Some(value)),
        token => Err(fault_of_token(token)),
    }
}

/// Reads the value of a path, which must be `null`.
fn no_file(reader: &mut Reader<'_>) -> Result<(), Fault>
    ensures value { result ≡ file_value (first reader.old) }
    ensures rest { reader.new ≡ drop 1 reader.old }
{
    match next(reader) {
        Token::Null => Ok(()),
        token => Err(fault_of_token(token)),
    }
}

/// Reads the name of a preset, or `null`.
fn known_preset(reader: &mut Reader<'_>) -> Result<(), Fault>
    ensures value { result ≡ preset_value (first reader.old) }
    ensures rest { reader.new ≡ drop 1 reader.old }
{
    match next(reader) {
        Token::Null => Ok(()),
        Token::String(name) => match preset_named(name) {
            Some(_) => Ok(()),
            None => Err(Fault::OutOfRange),
        },
        token => Err(fault_of_token(token)),
    }
}

/// Reads the next name of a list of kinds of instructions, or `None` at the end of the list.
fn listed_kind(reader: &mut Reader<'_>) -> Result<Option<InstructionKind>, Fault>
    ensures value { IsListed (first reader.old) result }
    ensures rest { reader.new ≡ drop 1 reader.old }
{
    match next(reader) {
        Token::EndArray => Ok(None),
        Token::String(name) => match InstructionKind::from_str(name) {
            Ok(kind) => Ok(Some(kind)),
            Err(_) => Err(Fault::OutOfRange),
        },
        token => Err(fault_of_token(token)),
    }
}

/// Reads the rest of a list of names of kinds of instructions.
fn listed_kinds(reader: &mut Reader<'_>) -> Result<InstructionKinds, Fault>
    ensures value { AreListed no_kind reader.old result reader.new }
    ensures shorter { length reader.new ≤ length reader.old }
{
    let mut all = InstructionKinds::none();
    while let Some(kind) = listed_kind(reader)? {
        all = all.with(true, kind);
    }
    Ok(all)
}

/// Reads a set of kinds of instructions, or `None` for `null`.
fn kinds(reader: &mut Reader<'_>) -> Result<Option<InstructionKinds>, Fault>
    ensures value { AreKinds (first reader.old) (drop 1 reader.old) result reader.new }
    ensures shorter { length reader.new ≤ length reader.old }
{
    match next(reader) {
        Token::Null => Ok(None),
        Token::Number(text) => {
            let bits = number(text, 0xFFF)?;
            Ok(Some(InstructionKinds::from_bits_retain(bits as u16)))
        }
        Token::String(names) => match InstructionKinds::from_str(names) {
            Ok(kinds) => Ok(Some(kinds)),
            Err(_) => Err(Fault::OutOfRange),
        },
        Token::BeginArray => Ok(Some(listed_kinds(reader)?)),
        token => Err(fault_of_token(token)),
    }
}

/// Reads one of the three weights.
fn weight(reader: &mut Reader<'_>) -> Result<u32, Fault>
    ensures value { result ≡ weight (first reader.old) }
    ensures rest { reader.new ≡ drop 1 reader.old }
{
    match next(reader) {
        Token::Number(text) => Ok(number(text, u32::MAX as u128)? as u32),
        Token::EndArray => Err(Fault::WrongType),
        token => Err(fault_of_token(token)),
    }
}

/// Reads the end of the list of weights.
fn list_end(reader: &mut Reader<'_>) -> Result<(), Fault>
    ensures value { result ≡ list_end (first reader.old) }
    ensures rest { reader.new ≡ drop 1 reader.old }
{
    match next(reader) {
        Token::EndArray => Ok(()),
        token => Err(fault_of_token(token)),
    }
}

/// Reads the rest of a list of three weights.
fn weights(reader: &mut Reader<'_>) -> Result<MemoryOffsetChoices, Fault>
    ensures value { result ≡ weights reader.old }
    ensures rest { OnOk result (reader.new ≡ drop 4 reader.old) }
    ensures shorter { length reader.new ≤ length reader.old }
{
    let inside = weight(reader)?;
    let between = weight(reader)?;
    let past = weight(reader)?;
    list_end(reader)?;
    choices_of(inside, between, past)
}

/// Returns the three weights, unless all are zero.
fn choices_of(inside: u32, between: u32, past: u32) -> Result<MemoryOffsetChoices, Fault>
    ensures { result ≡ some_weight inside between past }
{
    if inside == 0 && between == 0 && past == 0 {
        return Err(Fault::OutOfRange);
    }
    Ok(MemoryOffsetChoices(inside, between, past))
}

/// Reads the value of the member `name` from `reader`, and sets the field of that name to it. The
/// value `null` leaves `config` as it is.
///
/// # Errors
///
/// Refuses a name that no field has, before it reads anything, and a value that does not suit the
/// field. `config` is then unchanged, and `reader` is within the value or past it.
pub fn set_field(config: &mut Config, name: &str, reader: &mut Reader<'_>) -> Result<(), Fault>
    ensures exact { Sets (field_named name.now) config.old reader.old
        (outcome result config.new reader.new) }
    ensures unchanged { IfErr result (λ fault. config.new ≡ config.old) }
    ensures shorter { length reader.new ≤ length reader.old }
{
    match place_named(name) {
        Some(Place::Number(number)) => read_number(config, number, reader),
        Some(Place::Flag(flag)) => read_flag(config, flag, reader),
        Some(Place::AllowedInstructions) => read_instructions(config, reader),
        Some(Place::MemoryOffsetChoices) => read_choices(config, reader),
        Some(Place::File) => no_file(reader),
        Some(Place::Preset) => known_preset(reader),
        Some(Place::Addition) => read_addition(config, reader),
        None => Err(Fault::UnknownField),
    }
}

/// Returns the greatest value of a field.
fn most_of(number: Number) -> u128
    ensures { result ≡ most_of number }
{
    match number {
        Number::Size(_) => usize::MAX as u128,
        Number::Word(_) => u32::MAX as u128,
        Number::Long(_) => u64::MAX as u128,
        Number::MinUlebSize => u8::MAX as u128,
        Number::MaxMemory64Bytes => u128::MAX,
        Number::Fuel => u32::MAX as u128,
    }
}

/// Sets a field to a number in its range.
fn set_number(config: &mut Config, number: Number, value: u128)
    requires { value ≤ most_of number }
    ensures { config.new ≡ with_number number config.old value }
{
    match number {
        Number::Size(size) => *size_at(config, size) = value as usize,
        Number::Word(word) => *word_at(config, word) = value as u32,
        Number::Long(long) => *long_at(config, long) = value as u64,
        Number::MinUlebSize => config.min_uleb_size = value as u8,
        Number::MaxMemory64Bytes => config.max_memory64_bytes = value,
        Number::Fuel => {}
    }
}

/// Reads and sets a field that is a whole number.
fn read_number(config: &mut Config, number: Number, reader: &mut Reader<'_>) -> Result<(), Fault>
    ensures exact { Sets (Some (field_of (Place.Number number))) config.old reader.old
        (outcome result config.new reader.new) }
    ensures unchanged { IfErr result (λ fault. config.new ≡ config.old) }
    ensures shorter { length reader.new ≤ length reader.old }
{
    if let Some(value) = whole(reader, most_of(number))? {
        set_number(config, number, value);
    }
    Ok(())
}

/// Reads and sets a flag.
fn read_flag(config: &mut Config, flag: Flag, reader: &mut Reader<'_>) -> Result<(), Fault>
    ensures exact { Sets (Some (field_of (Place.Flag flag))) config.old reader.old
        (outcome result config.new reader.new) }
    ensures unchanged { IfErr result (λ fault. config.new ≡ config.old) }
    ensures shorter { length reader.new ≤ length reader.old }
{
    if let Some(value) = truth(reader)? {
        *flag_at(config, flag) = value;
    }
    Ok(())
}

/// Reads whether something is added to a program, which no field holds.
fn read_addition(config: &mut Config, reader: &mut Reader<'_>) -> Result<(), Fault>
    ensures exact { Sets (Some (field_of Place.Addition)) config.old reader.old
        (outcome result config.new reader.new) }
    ensures unchanged { IfErr result (λ fault. config.new ≡ config.old) }
    ensures shorter { length reader.new ≤ length reader.old }
{
    let _is_added = truth(reader)?;
    Ok(())
}

/// Reads and sets the set of kinds of instructions.
fn read_instructions(config: &mut Config, reader: &mut Reader<'_>) -> Result<(), Fault>
    ensures exact { Sets (Some (field_of Place.AllowedInstructions)) config.old reader.old
        (outcome result config.new reader.new) }
    ensures unchanged { IfErr result (λ fault. config.new ≡ config.old) }
    ensures shorter { length reader.new ≤ length reader.old }
{
    if let Some(kinds) = kinds(reader)? {
        config.allowed_instructions = kinds;
    }
    Ok(())
}

/// Reads and sets the three weights.
fn read_choices(config: &mut Config, reader: &mut Reader<'_>) -> Result<(), Fault>
    ensures exact { Sets (Some (field_of Place.MemoryOffsetChoices)) config.old reader.old
        (outcome result config.new reader.new) }
    ensures unchanged { IfErr result (λ fault. config.new ≡ config.old) }
    ensures shorter { length reader.new ≤ length reader.old }
{
    match next(reader) {
        Token::Null => {}
        Token::BeginArray => config.memory_offset_choices = weights(reader)?,
        token => return Err(fault_of_token(token)),
    }
    Ok(())
}
