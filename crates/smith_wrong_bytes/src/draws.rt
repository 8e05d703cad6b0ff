ghost use Rattle.std.specs.Prelude.{◌≡◌, ◌+◌, ◌≤◌, IfOk, IfErr, IfSome};
ghost use Rattle.smith_bytes.specs.Source.{KeepsPieces};
ghost use Rattle.smith_wrong_bytes.specs.Splices.{IsWithin};

use crate::change::Splice;
use crate::counts::{wrong_list, wrong_number};
use crate::edit::{Edit, Picks, draw_picks};
use crate::family::BytesFamily;
use crate::flags::{not_utf8, unknown_flag, unknown_type};
use crate::integers::{long_integer, unused_bits_set};
use crate::opcodes::{missing_end, second_end, unknown_opcode};
use crate::places::Kind;
use crate::sections::{
    cut_file, left_over_byte, preamble, section_order, section_removed, section_twice,
    unknown_section,
};
use crate::stop::Stop;
use smith_bytes::{Error, Unstructured};
use smith_types::Items;
use std::alloc::Global;

// Makes the number of functions another than that of bodies.
fn function_count(alloc: Global, file: &[u8], picks: Picks) -> Result<Edit, Stop> {
    match picks.detail % 4 {
        0 => section_removed(alloc, file, Kind::FunctionSection, picks),
        _ => wrong_list(alloc, file, Kind::Functions, picks),
    }
}

// Makes the number of data segments another than the stated one.
fn data_count(alloc: Global, file: &[u8], picks: Picks) -> Result<Edit, Stop> {
    match picks.detail % 3 {
        0 => wrong_list(alloc, file, Kind::Segments, picks),
        _ => wrong_number(alloc, file, Kind::DataCount, picks),
    }
}

// Returns the change of `family` that `picks` pick.
fn edit_of(alloc: Global, family: BytesFamily, file: &[u8], picks: Picks) -> Result<Edit, Stop> {
    match family {
        BytesFamily::LongInteger => long_integer(alloc, file, picks),
        BytesFamily::UnusedBits => unused_bits_set(alloc, file, picks),
        BytesFamily::SectionSize => wrong_number(alloc, file, Kind::SectionSize, picks),
        BytesFamily::BodySize => wrong_number(alloc, file, Kind::BodySize, picks),
        BytesFamily::ListCount => wrong_number(alloc, file, Kind::Count, picks),
        BytesFamily::FunctionCount => function_count(alloc, file, picks),
        BytesFamily::DataCount => data_count(alloc, file, picks),
        BytesFamily::DataCountMissing => {
            section_removed(alloc, file, Kind::DataCountSection, picks)
        }
        BytesFamily::SectionOrder => section_order(alloc, file, picks),
        BytesFamily::SectionTwice => section_twice(alloc, file, picks),
        BytesFamily::UnknownSection => unknown_section(alloc, file, picks),
        BytesFamily::LeftOverByte => left_over_byte(alloc, file, picks),
        BytesFamily::NotUtf8 => not_utf8(alloc, file, picks),
        BytesFamily::UnknownFlag => unknown_flag(alloc, file, picks),
        BytesFamily::UnknownType => unknown_type(alloc, file, picks),
        BytesFamily::UnknownOpcode => unknown_opcode(alloc, file, picks),
        BytesFamily::MissingEnd => missing_end(alloc, file, picks),
        BytesFamily::SecondEnd => second_end(alloc, file, picks),
        BytesFamily::Preamble => preamble(alloc, file, picks),
        BytesFamily::CutFile => cut_file(alloc, file, picks),
    }
}

// Returns `edit` as a change of a file of `size` bytes, if it lies within.
fn splice_of(edit: Edit, size: usize) -> Option<Splice>
    ensures { IfSome result (λ change. change.at + change.removed ≤ size) }
{
    if edit.start > edit.end || edit.end > size {
        return None;
    }
    Some(Splice {
        at: edit.start,
        removed: edit.end - edit.start,
        inserted: Items::from_vec(edit.inserted),
    })
}

/// Draws a change of `file` of the family `family` from eight bytes of `u`, allocated from `alloc`.
/// Returns `None` if the file has no place for such a change. The file is mostly valid: what follows a
/// fault in a section is left as it is.
///
/// # Errors
///
/// Returns [`Error::Memory`] if an allocation fails.
pub fn draw_splice(
    alloc: Global,
    family: BytesFamily,
    file: &[u8],
    u: &mut Unstructured<'_>,
) -> Result<Option<Splice>, Error>
    ensures within { IfOk result (λ drawn. IfSome drawn (IsWithin file.now)) }
    ensures memory { IfErr result (λ e. e ≡ Error.Memory) }
    ensures left { KeepsPieces u.old u.new }
{
    match edit_of(alloc, family, file, draw_picks(u)) {
        Ok(edit) => Ok(splice_of(edit, file.len())),
        Err(Stop::NoPlace) => Ok(None),
        Err(Stop::Memory) => Err(Error::Memory),
    }
}
