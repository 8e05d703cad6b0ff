ghost use Rattle.std.specs.Prelude.{◌≡◌, ◌≢◌, ◌≤◌, length, [], Ok, Err, IfOk, OnOk, IfErr};
ghost use Rattle.std.specs.List.{list_any};
ghost use Rattle.std.specs.Str.{bytes_eq};
ghost use Rattle.std.specs.String.{string_bytes};
ghost use Rattle.smith_config_json.specs.Fields.{field_named};
ghost use Rattle.smith_config_json.specs.Sets.{Sets};
ghost use Rattle.smith_config_json.specs.Objects.{ReadsMembers, ReadsObject, ReadsAlone, ReadsText};

use crate::fault::Fault;
use crate::member::preset_in;
use crate::preset::change_by;
use crate::refusal::{ConfigRefusal, Refusal};
use crate::value::set_field;
use json::{Reader, Scratch, Token};
use smith_config::Config;
use std::alloc::Global;

/// Reads a configuration from `text`, which is one object. A field that no member names keeps its
/// default.
///
/// # Errors
///
/// Refuses the text at its first fault, reading from the start; [`ConfigRefusal`] names the member
/// and its line and column. Refuses it with `OutOfMemory` if an allocation fails; no clause states
/// the place then.
pub fn config(alloc: Global, text: &str) -> Result<Config, ConfigRefusal>
    ensures ok { IfOk result (λ config. ReadsText text.now (Ok config)) }
    ensures refused { IfErr result (λ refusal. refusal.fault ≢ Fault.OutOfMemory
        → ReadsText text.now (Err (refusal.fault, string_bytes refusal.field))) }
{
    let mut config = Config::default();
    match read_text(alloc, text, &mut config) {
        Ok(()) => Ok(config),
        Err(refusal) => {
            drop(config);
            Err(refusal.in_text(text))
        }
    }
}

/// Reads `text`, which must be one object, and sets the fields of `config` that its members name.
/// The preset of a member `preset`, wherever it is, changes `config` first.
///
/// # Errors
///
/// Refuses the text at its first fault, reading from the start. The fields of the members before
/// the fault are set. The place of the fault is an offset in `text`, for which [`Refusal::in_text`]
/// finds the line and the column. Returns `OutOfMemory` if an allocation fails; no clause states
/// the place in this case, nor the fields that are set.
pub fn read_text(alloc: Global, text: &str, config: &mut Config) -> Result<(), Refusal>
    ensures ok { OnOk result (ReadsAlone config.old text.now (Ok (config.new, []))) }
    ensures refused { IfErr result (λ refusal. refusal.fault ≢ Fault.OutOfMemory
        → ReadsAlone config.old text.now
        (Err (refusal.fault, string_bytes refusal.field, config.new))) }
{
    let mut scratch = Scratch::new(alloc);
    let Ok(preset) = preset_in(text, &mut scratch) else {
        return Err(nameless(alloc, Fault::OutOfMemory, 0));
    };
    change_by(preset, config);
    let Ok(mut reader) = Reader::new(text, &mut scratch) else {
        return Err(nameless(alloc, Fault::OutOfMemory, 0));
    };
    read_config(alloc, &mut reader, config)?;
    let offset = reader.offset();
    match reader.next() {
        None => Ok(()),
        Some(_) => Err(nameless(alloc, Fault::TextAfter, offset)),
    }
}

/// Reads an object from the position of `reader`, and sets the fields of `config` that its members
/// name. The reader is then after the object. The name of a preset is checked, but the preset is
/// not applied: [`read_text`] does that.
///
/// # Errors
///
/// Refuses the object at its first fault. The fields of the members before the fault are set, and
/// the reader is in the middle of the object. Returns `OutOfMemory` if an allocation fails; no
/// clause states the fields that are set in this case.
pub fn read_config(
    alloc: Global,
    reader: &mut Reader<'_>,
    config: &mut Config,
) -> Result<(), Refusal>
    ensures ok { OnOk result (ReadsObject config.old reader.old (Ok (config.new, reader.new))) }
    ensures refused { IfErr result (λ refusal. refusal.fault ≢ Fault.OutOfMemory
        → ReadsObject config.old reader.old
        (Err (refusal.fault, string_bytes refusal.field, config.new))) }
{
    let start = reader.offset();
    match reader.next() {
        Some(Token::BeginObject) => read_members(alloc, reader, config),
        _ => Err(nameless(alloc, Fault::NotAnObject, start)),
    }
}

/// Reads the members of an object and its end.
fn read_members<'a>(
    alloc: Global,
    reader: &mut Reader<'a>,
    config: &mut Config,
) -> Result<(), Refusal>
    ensures ok { OnOk result (ReadsMembers [] config.old reader.old (Ok (config.new, reader.new))) }
    ensures refused { IfErr result (λ refusal. refusal.fault ≢ Fault.OutOfMemory
        → ReadsMembers [] config.old reader.old
        (Err (refusal.fault, string_bytes refusal.field, config.new))) }
{
    let mut given: Vec<&'a str> = Vec::new(alloc);
    loop {
        let start = reader.offset();
        let Ok(key) = reader.next_key() else {
            return Err(nameless(alloc, Fault::NotAnObject, start));
        };
        let Some(name) = key else {
            return Ok(());
        };
        if is_given(given.as_slice(), name) {
            return Err(refusal_of(alloc, Fault::RepeatedField, name, start));
        }
        read_member(alloc, reader, config, name, start)?;
        if given.push(name).is_err() {
            return Err(nameless(alloc, Fault::OutOfMemory, start));
        }
    }
}

/// Returns whether an earlier member has the name `name`.
fn is_given(given: &[&str], name: &str) -> bool
    ensures { result ≡ list_any (λ other. bytes_eq other.now name.now) given.now }
{
    for other in given {
        if *other == name {
            return true;
        }
    }
    false
}

/// Reads the value of the member `name`, which is at `start`, into the field of that name.
fn read_member(
    alloc: Global,
    reader: &mut Reader<'_>,
    config: &mut Config,
    name: &str,
    start: usize,
) -> Result<(), Refusal>
    ensures ok { OnOk result
        (Sets (field_named name.now) config.old reader.old (Ok (config.new, reader.new))) }
    ensures refused { IfErr result (λ refusal. refusal.fault ≢ Fault.OutOfMemory
        → Sets (field_named name.now) config.old reader.old (Err refusal.fault)
        × (string_bytes refusal.field ≡ name.now)) }
    ensures unchanged { IfErr result (λ refusal. config.new ≡ config.old) }
    ensures shorter { length reader.new ≤ length reader.old }
{
    let offset = reader.offset();
    match set_field(config, name, reader) {
        Ok(()) => Ok(()),
        Err(Fault::UnknownField) => Err(refusal_of(alloc, Fault::UnknownField, name, start)),
        Err(fault) => Err(refusal_of(alloc, fault, name, offset)),
    }
}

/// Returns a refusal that names no member.
fn nameless(alloc: Global, fault: Fault, offset: usize) -> Refusal
    ensures { (result.fault ≡ fault) × (string_bytes result.field ≡ []) }
{
    Refusal {
        fault,
        field: String::new(alloc),
        offset,
    }
}

/// Returns the refusal of the member `name`.
fn refusal_of(alloc: Global, fault: Fault, name: &str, offset: usize) -> Refusal
    ensures { result.fault ≢ Fault.OutOfMemory
        → (result.fault ≡ fault) × (string_bytes result.field ≡ name.now) }
{
    match String::from_str(alloc, name) {
        Ok(field) => Refusal {
            fault,
            field,
            offset,
        },
        Err(_) => nameless(alloc, Fault::OutOfMemory, offset),
    }
}
