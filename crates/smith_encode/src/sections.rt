ghost use Rattle.std.specs.Prelude.{◌≡◌, ◌||◌, [], ◌∷◌, ℕ, Option, true, is_some, IfOk, IfErr};
ghost use Rattle.smith_binary.specs.Faults.{IsFault};
ghost use Rattle.smith_instr.specs.Enabled.{names_data};
ghost use Rattle.smith_decode.specs.BodyReadings.{names_data_in, name_data};
ghost use Rattle.smith_decode.specs.Modules.{syntax_of};
ghost use Rattle.smith_encode.specs.Places.{WritesBefore};
ghost use Rattle.smith_encode.specs.Spelled.{are_parts_spelled};
ghost use Rattle.smith_encode.specs.Tails.{FromTypes, FromImports, FromFunctions, FromTables};
ghost use Rattle.smith_encode.specs.Tails.{FromMemories, FromTags, FromGlobals, FromExports};
ghost use Rattle.smith_encode.specs.Tails.{FromStart, FromElements, FromCount, FromBodies, FromDatas};
ghost use Rattle.smith_encode.specs.Tails.{IsCount, IsLongFrom, start_ids};
ghost use Rattle.smith_decode.specs.Customs.{AreCustoms};

use crate::items::Decoded;
use crate::places::{Place, write_customs, write_list, write_next};
use crate::types::TypeGroups;
use smith_binary::{EncodeError, Sink};
use smith_binary_sections::{Count, Plain};
use smith_decode::{Body, Module};
use smith_instr::{AggregateInstr, Instr, MemoryInstr};

/// Writes the type section. Returns the place after it.
pub(crate) fn write_types<'a>(
    module: &Module,
    place: Place<'a>,
    sink: &mut Sink,
) -> Result<Place<'a>, EncodeError>
    requires { are_parts_spelled «module».now ≡ true }
    ensures writes { IfOk result (λ next. (count : Option ℕ)
        → WritesBefore (1 ∷ []) (FromImports (syntax_of «module».now) count) (FromTypes (syntax_of «module».now) count)
        (place.entry.after, place.entry.customs.now) (next.after, next.customs.now) sink.old sink.new) }
    ensures fault { IfErr result (IsFault (IsLongFrom «module».now place.entry.customs.now)) }
{
    let groups = TypeGroups {
        types: module.types.as_slice(),
        further_supertypes: module.further_supertypes.as_slice(),
    };
    write_next(place, 1, !groups.types.is_empty(), &groups, sink)
}

/// Writes the import section. Returns the place after it.
pub(crate) fn write_imports<'a>(
    module: &Module,
    place: Place<'a>,
    sink: &mut Sink,
) -> Result<Place<'a>, EncodeError>
    ensures writes { IfOk result (λ next. (count : Option ℕ)
        → WritesBefore (2 ∷ []) (FromFunctions (syntax_of «module».now) count) (FromImports (syntax_of «module».now) count)
        (place.entry.after, place.entry.customs.now) (next.after, next.customs.now) sink.old sink.new) }
    ensures fault { IfErr result (IsFault (IsLongFrom «module».now place.entry.customs.now)) }
{
    write_list(place, 2, Plain, module.imports.as_slice(), sink)
}

/// Writes the function section. Returns the place after it.
pub(crate) fn write_functions<'a>(
    module: &Module,
    place: Place<'a>,
    sink: &mut Sink,
) -> Result<Place<'a>, EncodeError>
    ensures writes { IfOk result (λ next. (count : Option ℕ)
        → WritesBefore (3 ∷ []) (FromTables (syntax_of «module».now) count) (FromFunctions (syntax_of «module».now) count)
        (place.entry.after, place.entry.customs.now) (next.after, next.customs.now) sink.old sink.new) }
    ensures fault { IfErr result (IsFault (IsLongFrom «module».now place.entry.customs.now)) }
{
    write_list(place, 3, Plain, module.functions.as_slice(), sink)
}

/// Writes the table section. Returns the place after it.
pub(crate) fn write_tables<'a>(
    module: &Module,
    place: Place<'a>,
    sink: &mut Sink,
) -> Result<Place<'a>, EncodeError>
    requires { are_parts_spelled «module».now ≡ true }
    ensures writes { IfOk result (λ next. (count : Option ℕ)
        → WritesBefore (4 ∷ []) (FromMemories (syntax_of «module».now) count) (FromTables (syntax_of «module».now) count)
        (place.entry.after, place.entry.customs.now) (next.after, next.customs.now) sink.old sink.new) }
    ensures fault { IfErr result (IsFault (IsLongFrom «module».now place.entry.customs.now)) }
{
    write_list(place, 4, Decoded, module.tables.as_slice(), sink)
}

/// Writes the memory section. Returns the place after it.
pub(crate) fn write_memories<'a>(
    module: &Module,
    place: Place<'a>,
    sink: &mut Sink,
) -> Result<Place<'a>, EncodeError>
    ensures writes { IfOk result (λ next. (count : Option ℕ)
        → WritesBefore (5 ∷ []) (FromTags (syntax_of «module».now) count) (FromMemories (syntax_of «module».now) count)
        (place.entry.after, place.entry.customs.now) (next.after, next.customs.now) sink.old sink.new) }
    ensures fault { IfErr result (IsFault (IsLongFrom «module».now place.entry.customs.now)) }
{
    write_list(place, 5, Plain, module.memories.as_slice(), sink)
}

/// Writes the tag section. Returns the place after it.
pub(crate) fn write_tags<'a>(
    module: &Module,
    place: Place<'a>,
    sink: &mut Sink,
) -> Result<Place<'a>, EncodeError>
    ensures writes { IfOk result (λ next. (count : Option ℕ)
        → WritesBefore (13 ∷ []) (FromGlobals (syntax_of «module».now) count) (FromTags (syntax_of «module».now) count)
        (place.entry.after, place.entry.customs.now) (next.after, next.customs.now) sink.old sink.new) }
    ensures fault { IfErr result (IsFault (IsLongFrom «module».now place.entry.customs.now)) }
{
    write_list(place, 13, Decoded, module.tags.as_slice(), sink)
}

/// Writes the global section. Returns the place after it.
pub(crate) fn write_globals<'a>(
    module: &Module,
    place: Place<'a>,
    sink: &mut Sink,
) -> Result<Place<'a>, EncodeError>
    requires { are_parts_spelled «module».now ≡ true }
    ensures writes { IfOk result (λ next. (count : Option ℕ)
        → WritesBefore (6 ∷ []) (FromExports (syntax_of «module».now) count) (FromGlobals (syntax_of «module».now) count)
        (place.entry.after, place.entry.customs.now) (next.after, next.customs.now) sink.old sink.new) }
    ensures fault { IfErr result (IsFault (IsLongFrom «module».now place.entry.customs.now)) }
{
    write_list(place, 6, Decoded, module.globals.as_slice(), sink)
}

/// Writes the export section. Returns the place after it.
pub(crate) fn write_exports<'a>(
    module: &Module,
    place: Place<'a>,
    sink: &mut Sink,
) -> Result<Place<'a>, EncodeError>
    ensures writes { IfOk result (λ next. (count : Option ℕ)
        → WritesBefore (7 ∷ []) (FromStart (syntax_of «module».now) count) (FromExports (syntax_of «module».now) count)
        (place.entry.after, place.entry.customs.now) (next.after, next.customs.now) sink.old sink.new) }
    ensures fault { IfErr result (IsFault (IsLongFrom «module».now place.entry.customs.now)) }
{
    write_list(place, 7, Decoded, module.exports.as_slice(), sink)
}

/// Writes the start section, if there is a start function. Returns the place after it.
pub(crate) fn write_start<'a>(
    module: &Module,
    place: Place<'a>,
    sink: &mut Sink,
) -> Result<Place<'a>, EncodeError>
    ensures writes { IfOk result (λ next. (count : Option ℕ)
        → WritesBefore (start_ids «module».now.start) (FromElements (syntax_of «module».now) count)
        (FromStart (syntax_of «module».now) count)
        (place.entry.after, place.entry.customs.now) (next.after, next.customs.now) sink.old sink.new) }
    ensures fault { IfErr result (IsFault (IsLongFrom «module».now place.entry.customs.now)) }
{
    match module.start {
        Some(index) => write_next(place, 8, true, &index, sink),
        None => write_customs(place, sink),
    }
}

/// Writes the element section. Returns the place after it.
pub(crate) fn write_elements<'a>(
    module: &Module,
    place: Place<'a>,
    sink: &mut Sink,
) -> Result<Place<'a>, EncodeError>
    requires { are_parts_spelled «module».now ≡ true }
    ensures writes { IfOk result (λ next. (count : Option ℕ)
        → WritesBefore (9 ∷ []) (FromCount (syntax_of «module».now) count) (FromElements (syntax_of «module».now) count)
        (place.entry.after, place.entry.customs.now) (next.after, next.customs.now) sink.old sink.new) }
    ensures fault { IfErr result (IsFault (IsLongFrom «module».now place.entry.customs.now)) }
{
    write_list(place, 9, Decoded, module.elements.as_slice(), sink)
}

// Returns whether `instruction` names a data segment.
fn names_data(instruction: &Instr) -> bool
    ensures { result ≡ names_data instruction.now }
{
    match instruction {
        Instr::Memory(MemoryInstr::Init { .. } | MemoryInstr::DataDrop(_)) => true,
        Instr::Aggregate(AggregateInstr::ArrayNewData { .. }) => true,
        Instr::Aggregate(AggregateInstr::ArrayInitData { .. }) => true,
        _ => false,
    }
}

// Returns whether `body` names a data segment.
fn names_data_in(body: &Body) -> bool
    ensures { result ≡ names_data_in body.now }
{
    for instruction in body.instructions.as_slice() {
        if names_data(instruction) {
            return true;
        }
    }
    false
}

// Returns whether one of `bodies` names a data segment.
fn name_data(bodies: &[Body]) -> bool
    ensures { result ≡ name_data bodies.now }
{
    for body in bodies {
        if names_data_in(body) {
            return true;
        }
    }
    false
}

// Returns whether the number of data segments is written although no custom section comes after it.
fn states_count(module: &Module) -> bool
    ensures { result ≡ (is_some «module».now.data_count || name_data «module».now.bodies) }
{
    module.data_count.is_some() || name_data(module.bodies.as_slice())
}

/// Writes the data count section, if the module states a count or needs one. Returns the place after it.
pub(crate) fn write_data_count<'a>(
    module: &Module,
    place: Place<'a>,
    sink: &mut Sink,
) -> Result<Place<'a>, EncodeError>
    ensures writes { IfOk result (λ next. (count : Option ℕ) × IsCount «module».now count
        × WritesBefore (12 ∷ []) (FromBodies (syntax_of «module».now)) (FromCount (syntax_of «module».now) count)
        (place.entry.after, place.entry.customs.now) (next.after, next.customs.now) sink.old sink.new) }
    ensures fault { IfErr result (IsFault (IsLongFrom «module».now place.entry.customs.now)) }
{
    write_next(
        place,
        12,
        states_count(module),
        &Count(module.datas.len()),
        sink,
    )
}

/// Writes the code section. Returns the place after it.
pub(crate) fn write_bodies<'a>(
    module: &Module,
    place: Place<'a>,
    sink: &mut Sink,
) -> Result<Place<'a>, EncodeError>
    requires { are_parts_spelled «module».now ≡ true }
    ensures writes { IfOk result (λ next. WritesBefore (10 ∷ []) (FromDatas (syntax_of «module».now)) (FromBodies (syntax_of «module».now))
        (place.entry.after, place.entry.customs.now) (next.after, next.customs.now) sink.old sink.new) }
    ensures fault { IfErr result (IsFault (IsLongFrom «module».now place.entry.customs.now)) }
{
    write_list(place, 10, Decoded, module.bodies.as_slice(), sink)
}

/// Writes the data section. Returns the place after it.
pub(crate) fn write_datas<'a>(
    module: &Module,
    place: Place<'a>,
    sink: &mut Sink,
) -> Result<Place<'a>, EncodeError>
    requires { are_parts_spelled «module».now ≡ true }
    ensures writes { IfOk result (λ next. WritesBefore (11 ∷ []) AreCustoms (FromDatas (syntax_of «module».now))
        (place.entry.after, place.entry.customs.now) (next.after, next.customs.now) sink.old sink.new) }
    ensures fault { IfErr result (IsFault (IsLongFrom «module».now place.entry.customs.now)) }
{
    write_list(place, 11, Decoded, module.datas.as_slice(), sink)
}
