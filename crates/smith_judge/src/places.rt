ghost use Rattle.std.specs.Prelude.{◌≡◌, IfOk, IfErr};
ghost use Rattle.smith_judge.specs.Places.{
  IsEntityPlace,
  IsFaultPlace,
  IsItemPlace,
  fault_index,
  gap_index,
  gap_place,
  index_after,
  item_index,
  origin_place,
};

use crate::origins::{Origin, imported_count, origin_of};
use smith_bytes::Error;
use smith_check::{Fault, Unjudged};
use smith_check_module::Part;
use smith_decode::Place;
use smith_types::{ExportKind, Imports};
use std::alloc::Global;

// Returns the place of an entity of the kind `kind`.
fn place_at(kind: ExportKind, origin: Origin) -> Place
    ensures { result ≡ origin_place kind origin }
{
    match (origin, kind) {
        (Origin::Imported(group), _) => Place::Imports(group),
        (Origin::Defined(index), ExportKind::Func) => Place::Function(index),
        (Origin::Defined(index), ExportKind::Table) => Place::Table(index),
        (Origin::Defined(index), ExportKind::Memory) => Place::Memory(index),
        (Origin::Defined(index), ExportKind::Global) => Place::Global(index),
        (Origin::Defined(index), ExportKind::Tag) => Place::Tag(index),
    }
}

// Returns the place of the entity of the kind `kind` at `index` of its index space.
fn entity_place(
    alloc: Global,
    groups: &[Imports],
    kind: ExportKind,
    index: usize,
) -> Result<Place, Error>
    ensures ok { IfOk result (IsEntityPlace groups.now kind index) }
    ensures memory { IfErr result (λ e. e ≡ Error.Memory) }
{
    let origin = origin_of(alloc, groups, kind, index)?;
    Ok(place_at(kind, origin))
}

// Returns the place of the item at `index` of a part.
fn item_place(alloc: Global, groups: &[Imports], part: Part, index: usize) -> Result<Place, Error>
    ensures ok { IfOk result (IsItemPlace groups.now part index) }
    ensures memory { IfErr result (λ e. e ≡ Error.Memory) }
{
    match part {
        Part::Tags => entity_place(alloc, groups, ExportKind::Tag, index),
        Part::Functions => entity_place(alloc, groups, ExportKind::Func, index),
        Part::Tables => entity_place(alloc, groups, ExportKind::Table, index),
        Part::Memories => entity_place(alloc, groups, ExportKind::Memory, index),
        Part::Globals => entity_place(alloc, groups, ExportKind::Global, index),
        Part::TableInitials => Ok(Place::Table(index)),
        Part::GlobalInitials => Ok(Place::GlobalInitial(index)),
        Part::Exports => Ok(Place::Export(index)),
        Part::Start => Ok(Place::Start),
        Part::Elements => Ok(Place::Element(index)),
        Part::Datas => Ok(Place::Data(index)),
    }
}

/// Returns the place of `fault` in the file of a module that imports `groups`. A run of locals has no place
/// of its own, and is at that of its body.
pub fn fault_place(alloc: Global, groups: &[Imports], fault: Fault) -> Result<Place, Error>
    ensures ok { IfOk result (IsFaultPlace groups.now fault) }
    ensures memory { IfErr result (λ e. e ≡ Error.Memory) }
{
    match fault {
        Fault::Types(group) => Ok(Place::Types(group)),
        Fault::Section(item) => item_place(alloc, groups, item.part, item.index),
        Fault::Local { body, .. } => Ok(Place::Body(body)),
        Fault::Body { body, instruction } => Ok(Place::Instruction {
            body,
            index: instruction,
        }),
    }
}

// Returns the index of the entity of the kind `kind` that is defined at `place`, in a module that imports
/// `groups`.
fn index_after(
    alloc: Global,
    groups: &[Imports],
    kind: ExportKind,
    place: usize,
) -> Result<usize, Error>
    ensures ok { IfOk result (λ index. index ≡ index_after kind groups.now place) }
    ensures memory { IfErr result (λ e. e ≡ Error.Memory) }
{
    let count = imported_count(alloc, groups, kind)?;
    Ok(count.saturating_add(place))
}

// Returns the index of the item at `place` of a part, with imports first.
fn item_index(alloc: Global, groups: &[Imports], part: Part, place: usize) -> Result<usize, Error>
    ensures ok { IfOk result (λ index. index ≡ item_index groups.now part place) }
    ensures memory { IfErr result (λ e. e ≡ Error.Memory) }
{
    match part {
        Part::TableInitials => index_after(alloc, groups, ExportKind::Table, place),
        Part::GlobalInitials => index_after(alloc, groups, ExportKind::Global, place),
        _ => Ok(place),
    }
}

/// Returns the index of the item of `fault`, with imports first, in a module that imports `groups`.
pub fn fault_index(alloc: Global, groups: &[Imports], fault: Fault) -> Result<usize, Error>
    ensures ok { IfOk result (λ index. index ≡ fault_index groups.now fault) }
    ensures memory { IfErr result (λ e. e ≡ Error.Memory) }
{
    match fault {
        Fault::Types(group) => Ok(group),
        Fault::Section(item) => item_index(alloc, groups, item.part, item.index),
        Fault::Local { body, .. } | Fault::Body { body, .. } => {
            index_after(alloc, groups, ExportKind::Func, body)
        }
    }
}

/// Returns the place of what is not judged.
pub fn gap_place(why: Unjudged) -> Place
    ensures { result ≡ gap_place why }
{
    match why {
        Unjudged::Types => Place::Types(0),
        Unjudged::Locals { body } => Place::Body(body),
    }
}

/// Returns the index of the function of what is not judged, with imports first, in a module that imports
/// `groups`, or 0 if it is no function.
pub fn gap_index(alloc: Global, groups: &[Imports], why: Unjudged) -> Result<usize, Error>
    ensures ok { IfOk result (λ index. index ≡ gap_index groups.now why) }
    ensures memory { IfErr result (λ e. e ≡ Error.Memory) }
{
    match why {
        Unjudged::Types => Ok(0),
        Unjudged::Locals { body } => index_after(alloc, groups, ExportKind::Func, body),
    }
}
