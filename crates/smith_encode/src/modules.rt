ghost use Rattle.std.specs.Prelude.{◌≡◌, [], ◌++◌, ℕ, None, Option, true, false, IfOk, IfErr};
ghost use Rattle.smith_binary.specs.Faults.{IsFault as IsWriterFault};
ghost use Rattle.smith_decode.specs.Modules.{IsModuleBinary, syntax_of};
ghost use Rattle.smith_decode.specs.Customs.{AreCustoms};
ghost use Rattle.smith_encode.specs.Faults.{IsFault, HasNoSpelling};
ghost use Rattle.smith_encode.specs.Places.{WritesBefore};
ghost use Rattle.smith_encode.specs.Spelled.{are_parts_spelled};
ghost use Rattle.smith_encode.specs.Tails.{FromTypes, FromMemories, FromStart, FromElements, IsCount};
ghost use Rattle.smith_encode.specs.Tails.{IsLongFrom, front_ids, middle_ids, start_ids, back_ids};
ghost use Rattle.smith_encode.specs.TooLong.{IsTooLong};

use crate::error::EncodeFault;
use crate::places::{Place, write_customs};
use crate::sections::{
    write_bodies, write_data_count, write_datas, write_elements, write_exports, write_functions,
    write_globals, write_imports, write_memories, write_start, write_tables, write_tags,
    write_types,
};
use crate::spelled::are_parts_spelled;
use smith_binary::{EncodeError, Sink};
use smith_binary_sections::write_preamble;
use smith_decode::Module;
use std::alloc::Global;

// Writes the sections up to the table section. Returns the place after them.
fn write_front<'a>(
    module: &Module,
    place: Place<'a>,
    sink: &mut Sink,
) -> Result<Place<'a>, EncodeError>
    requires { are_parts_spelled «module».now ≡ true }
    ensures writes { IfOk result (λ next. (count : Option ℕ) → WritesBefore front_ids
        (FromMemories (syntax_of «module».now) count) (FromTypes (syntax_of «module».now) count)
        (place.entry.after, place.entry.customs.now) (next.after, next.customs.now) sink.old sink.new) }
    ensures fault { IfErr result (IsWriterFault (IsLongFrom «module».now place.entry.customs.now)) }
{
    let place = write_types(module, place, sink)?;
    let place = write_imports(module, place, sink)?;
    let place = write_functions(module, place, sink)?;
    write_tables(module, place, sink)
}

// Writes the sections from the memory section to the export section. Returns the place after them.
fn write_middle<'a>(
    module: &Module,
    place: Place<'a>,
    sink: &mut Sink,
) -> Result<Place<'a>, EncodeError>
    requires { are_parts_spelled «module».now ≡ true }
    ensures writes { IfOk result (λ next. (count : Option ℕ) → WritesBefore middle_ids
        (FromStart (syntax_of «module».now) count) (FromMemories (syntax_of «module».now) count)
        (place.entry.after, place.entry.customs.now) (next.after, next.customs.now) sink.old sink.new) }
    ensures fault { IfErr result (IsWriterFault (IsLongFrom «module».now place.entry.customs.now)) }
{
    let place = write_memories(module, place, sink)?;
    let place = write_tags(module, place, sink)?;
    let place = write_globals(module, place, sink)?;
    write_exports(module, place, sink)
}

// Writes the sections from the element section on. Returns the place after them.
fn write_back<'a>(
    module: &Module,
    place: Place<'a>,
    sink: &mut Sink,
) -> Result<Place<'a>, EncodeError>
    requires { are_parts_spelled «module».now ≡ true }
    ensures writes { IfOk result (λ next. (count : Option ℕ) × IsCount «module».now count
        × WritesBefore back_ids AreCustoms (FromElements (syntax_of «module».now) count)
        (place.entry.after, place.entry.customs.now) (next.after, next.customs.now) sink.old sink.new) }
    ensures fault { IfErr result (IsWriterFault (IsLongFrom «module».now place.entry.customs.now)) }
{
    let place = write_elements(module, place, sink)?;
    let place = write_data_count(module, place, sink)?;
    let place = write_bodies(module, place, sink)?;
    write_datas(module, place, sink)
}

// Writes the sections of `module`. Returns the place after them.
fn write_sections<'a>(module: &'a Module, sink: &mut Sink) -> Result<Place<'a>, EncodeError>
    requires { are_parts_spelled «module».now ≡ true }
    ensures writes { IfOk result (λ next. (count : Option ℕ) × IsCount «module».now count
        × WritesBefore (front_ids ++ (middle_ids ++ (start_ids «module».now.start ++ back_ids))) AreCustoms
        (FromTypes (syntax_of «module».now) count)
        (None, «module».now.customs) (next.after, next.customs.now) sink.old sink.new) }
    ensures fault { IfErr result (IsWriterFault (IsTooLong «module».now)) }
{
    let place = Place {
        after: None,
        customs: module.customs.as_slice(),
    };
    let place = write_front(module, place, sink)?;
    let place = write_middle(module, place, sink)?;
    let place = write_start(module, place, sink)?;
    write_back(module, place, sink)
}

// Writes `module`, and returns whether its custom sections were written: only if each has its place.
fn write_module(module: &Module, sink: &mut Sink) -> Result<bool, EncodeError>
    requires parts { are_parts_spelled «module».now ≡ true }
    requires empty { sink.old.bytes ≡ [] }
    ensures spelled { IfOk result (λ done. done ≡ true
        → IsModuleBinary (syntax_of «module».now) sink.new.bytes) }
    ensures refused { IfOk result (λ done. done ≡ false → HasNoSpelling (syntax_of «module».now)) }
    ensures fault { IfErr result (IsWriterFault (IsTooLong «module».now)) }
{
    write_preamble(sink)?;
    let place = write_sections(module, sink)?;
    let place = write_customs(place, sink)?;
    Ok(place.customs.is_empty())
}

/// Encodes `module` in the binary format of the WebAssembly Core Specification 3.0 (chapter Binary Format),
/// into memory allocated from `alloc`.
///
/// Custom sections are written at their places. A section is written if it isn't empty, or if a custom
/// section comes right after it. The number of data segments is written if `module` states one, if an
/// instruction needs it, or if a custom section comes right after it; it is that of the segments, whatever
/// `module` states.
///
/// Imports keep their groups, and locals their runs. A table whose elements are null at first is written
/// without its initialiser. An active segment names its table or memory only if that is not the first, or if
/// its items have a type that the short form can't state. Integers have as few bytes as possible.
///
/// # Errors
///
/// Returns [`EncodeFault::NoSpelling`] if no bytes are the module, [`EncodeFault::TooLong`] if a list has
/// 2^32 items or more, a section or a body 2^32 bytes or more, or an instruction an alignment or a lane that
/// the format has no number for, and [`EncodeFault::Memory`] if an allocation fails.
pub fn encode(alloc: Global, module: &Module) -> Result<Vec<u8>, EncodeFault>
    // The bytes spell the module, with its custom sections at their places.
    ensures spelled { IfOk result (λ bytes. IsModuleBinary (syntax_of «module».now) bytes.items) }
    // The error. After `NoSpelling`, no bytes spell the module.
    ensures fault { IfErr result (IsFault «module».now) }
{
    if !are_parts_spelled(alloc, module)? {
        return Err(EncodeFault::NoSpelling);
    }
    let mut sink = Sink::new(alloc, 0);
    if !write_module(module, &mut sink)? {
        return Err(EncodeFault::NoSpelling);
    }
    Ok(sink.into_vec())
}
