ghost use Rattle.std.specs.Prelude.{◌≡◌, ◌⊎◌, ◌<◌, [], false, Any, IfOk, IfErr, OnOk};
ghost use Rattle.smith_binary.specs.Spelling.Spelling.{any};
ghost use Rattle.smith_binary.specs.Faults.{IsFault};
ghost use Rattle.smith_binary.specs.Pieces.{Is, IsList, IsNameIn, IsSection, IsName, Joined, Writes};
ghost use Rattle.smith_binary_sections.specs.Long.{IsLongContent, IsLongList, IsLongText};
ghost use Rattle.smith_encode.specs.Places.{is_due, is_same_section, next_place, skipped};
ghost use Rattle.smith_encode.specs.Places.{WritesCustoms, WritesNext};
ghost use Rattle.smith_encode.specs.TooLong.{IsLongCustom};

use smith_binary::{EncodeError, Sink};
use smith_binary_sections::{Encode, EncodeItem, Listed, write_section_if};
use smith_decode::Custom;

/// A place among the sections that are written.
#[derive(Clone, Copy)]
pub(crate) struct Place<'a> {
    /// The identifier of the last section that isn't custom, if there is one.
    pub(crate) after: Option<u8>,
    /// The custom sections that aren't written yet.
    pub(crate) customs: &'a [Custom],
}

// The content of a custom section.
#[derive(Drop)]
struct Content<'a> {
    custom: &'a Custom,
}

impl<'a> Encode for Content<'a> {
    ghost spells = { λ s content. Joined (IsNameIn s content.custom.now.name) (Is content.custom.now.bytes) };

    ghost is_long = { λ content. IsLongText content.custom.now.name };

    fn encode(&self, sink: &mut Sink) -> Result<(), EncodeError> {
        sink.write_name(self.custom.name.as_str())?;
        sink.write_bytes(self.custom.bytes.as_slice())
    }
}

// Writes a custom section.
fn write_custom(custom: &Custom, sink: &mut Sink) -> Result<(), EncodeError>
    ensures writes { OnOk result (Writes (λ _. IsSection 0
        (Joined (IsName custom.now.name) (Is custom.now.bytes))) sink.old sink.new) }
    ensures fault { IfErr result (IsFault (IsLongCustom custom.now)) }
{
    write_section_if(true, 0, &Content { custom }, sink)
}

// Returns whether two sections, or the absence of both, are the same.
fn is_same_section(one: Option<u8>, other: Option<u8>) -> bool
    ensures { result ≡ is_same_section one other }
{
    match (one, other) {
        (None, None) => true,
        (Some(id), Some(other)) => id == other,
        _ => false,
    }
}

/// Writes the custom sections at `place`. Returns the place after them.
pub(crate) fn write_customs<'a>(place: Place<'a>, sink: &mut Sink) -> Result<Place<'a>, EncodeError>
    ensures writes { IfOk result (λ next. WritesCustoms (place.entry.after, place.entry.customs.now)
        (next.after, next.customs.now) sink.old sink.new) }
    ensures done { IfOk result (λ next. skipped next.after next.customs.now ≡ next.customs.now) }
    ensures fault { IfErr result (IsFault (Any IsLongCustom place.entry.customs.now)) }
{
    let mut customs = place.customs;
    while let Some((custom, more)) = customs.split_first() {
        if !is_same_section(custom.after, place.after) {
            return Ok(Place {
                after: place.after,
                customs,
            });
        }
        write_custom(custom, sink)?;
        customs = more;
    }
    Ok(Place {
        after: place.after,
        customs,
    })
}

// Returns whether the next custom section comes right after the section `id`.
fn is_due(customs: &[Custom], id: u8) -> bool
    ensures { result ≡ is_due id customs.now }
{
    match customs.first() {
        Some(custom) => is_same_section(custom.after, Some(id)),
        None => false,
    }
}

// Returns the place after the section `id`, if it is written, else `place`.
fn past<'a>(place: Place<'a>, is_written: bool, id: u8) -> Place<'a>
    ensures { (result.after, result.customs.now) ≡ next_place is_written id (place.entry.after, place.entry.customs.now) }
{
    Place {
        after: if is_written { Some(id) } else { place.after },
        customs: place.customs,
    }
}

/// Writes the custom sections at `place`, then the section `id` with `content`, if it is filled or the next
/// custom section comes right after it. Returns the place after them.
pub(crate) fn write_next<'a, C: Encode>(
    place: Place<'a>,
    id: u8,
    is_filled: bool,
    content: &C,
    sink: &mut Sink,
) -> Result<Place<'a>, EncodeError>
    requires { 0 < id }
    ensures writes { IfOk result (λ next. WritesNext id (is_filled ≡ false) (C.spells any content.now)
        (place.entry.after, place.entry.customs.now) (next.after, next.customs.now) sink.old sink.new) }
    ensures fault { IfErr result (IsFault (Any IsLongCustom place.entry.customs.now
        ⊎ (C.is_long content.now ⊎ IsLongContent (C.spells any content.now)))) }
{
    let place = write_customs(place, sink)?;
    let is_written = is_filled || is_due(place.customs, id);
    write_section_if(is_written, id, content, sink)?;
    Ok(past(place, is_written, id))
}

/// Writes the custom sections at `place`, then the section `id` with the list of `items`, if there is one or
/// the next custom section comes right after it. Returns the place after them.
pub(crate) fn write_list<'a, T, W: EncodeItem<T> + Drop>(
    place: Place<'a>,
    id: u8,
    writer: W,
    items: &[T],
    sink: &mut Sink,
) -> Result<Place<'a>, EncodeError>
    requires { 0 < id }
    ensures writes { IfOk result (λ next. WritesNext id (items.now ≡ []) (IsList (W.spells any writer) items.now)
        (place.entry.after, place.entry.customs.now) (next.after, next.customs.now) sink.old sink.new) }
    ensures fault { IfErr result (IsFault (Any IsLongCustom place.entry.customs.now
        ⊎ (IsLongList (W.is_long writer) items.now ⊎ IsLongContent (IsList (W.spells any writer) items.now)))) }
{
    let list = Listed { writer, items };
    write_next(place, id, !items.is_empty(), &list, sink)
}
