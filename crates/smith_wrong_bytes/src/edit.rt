ghost use Rattle.smith_bytes.specs.Source.{KeepsPieces};

use crate::places::{Frame, Frames, Place};
use crate::stop::Stop;
use smith_binary::Sink;
use smith_bytes::Unstructured;
use std::alloc::Global;

/// A change of a file, by offsets.
#[derive(Debug, Drop)]
pub(crate) struct Edit {
    /// The offset of the first byte that is replaced.
    pub start: usize,
    /// The offset after the last byte that is replaced.
    pub end: usize,
    /// The bytes that stand in their place.
    pub inserted: Vec<u8>,
}

/// What is drawn for a change: which place, and in which form.
#[derive(Clone, Copy, Debug)]
pub(crate) struct Picks {
    /// Which of the places.
    pub place: u32,
    /// Which of the forms of the family.
    pub form: u16,
    /// What the form leaves open.
    pub detail: u16,
}

/// Returns the bytes of `file` from `start` up to `end`.
pub(crate) fn bytes_between(file: &[u8], start: usize, end: usize) -> Result<&[u8], Stop> {
    file.get(start..end).ok_or(Stop::NoPlace)
}

/// Returns the bytes of `file` at `place`.
pub(crate) fn bytes_at<'a>(file: &'a [u8], place: &Place) -> Result<&'a [u8], Stop> {
    bytes_between(file, place.start, place.end)
}

// Returns `edit`, which is in the content `frame`, with the size of that content kept right.
fn with_size(alloc: Global, file: &[u8], frame: Option<Frame>, edit: Edit) -> Result<Edit, Stop> {
    let Some(frame) = frame else {
        return Ok(edit);
    };
    let before = bytes_between(file, frame.start, edit.start)?;
    let after = bytes_between(file, edit.end, frame.end)?;
    let size = before
        .len()
        .saturating_add(edit.inserted.len())
        .saturating_add(after.len());
    let mut sink = Sink::new(alloc, 0);
    sink.write_length(size)?;
    sink.write_bytes(before)?;
    sink.write_bytes(edit.inserted.as_slice())?;
    Ok(Edit {
        start: frame.size,
        end: edit.end,
        inserted: sink.into_vec(),
    })
}

/// Returns `edit`, which is in the contents `frames`, with their sizes kept right.
pub(crate) fn with_sizes(
    alloc: Global,
    file: &[u8],
    frames: &Frames,
    edit: Edit,
) -> Result<Edit, Stop> {
    let inner = with_size(alloc, file, frames.body, edit)?;
    with_size(alloc, file, frames.section, inner)
}

/// Returns the change that puts `inserted` in the place of `place`, with sizes kept right.
pub(crate) fn replace(
    alloc: Global,
    file: &[u8],
    place: &Place,
    inserted: Vec<u8>,
) -> Result<Edit, Stop> {
    let edit = Edit {
        start: place.start,
        end: place.end,
        inserted,
    };
    with_sizes(alloc, file, &place.frames, edit)
}

/// Draws picks from eight bytes.
pub(crate) fn draw_picks(u: &mut Unstructured<'_>) -> Picks
    ensures { KeepsPieces u.old u.new }
{
    Picks {
        place: u.arbitrary(),
        form: u.arbitrary(),
        detail: u.arbitrary(),
    }
}
