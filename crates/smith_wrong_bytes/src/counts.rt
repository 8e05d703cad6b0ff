use crate::edit::{Edit, Picks, bytes_at, replace};
use crate::places::Kind;
use crate::stop::Stop;
use crate::walk::pick_place;
use smith_binary::Sink;
use smith_binary_read::Reader;
use std::alloc::Global;

// Returns `number` plus one, or minus one if `form` is odd.
fn one_off(number: u32, form: u16) -> Result<u32, Stop> {
    let other = if form % 2 == 0 {
        number.checked_add(1)
    } else {
        number.checked_sub(1)
    };
    other.ok_or(Stop::NoPlace)
}

/// Makes a number of items or of bytes, of the kind `kind`, one more or one less.
pub(crate) fn wrong_number(
    alloc: Global,
    file: &[u8],
    kind: Kind,
    picks: Picks,
) -> Result<Edit, Stop> {
    let place = pick_place(alloc, file, kind, picks.place)?;
    let number = Reader::new(alloc, bytes_at(file, &place)?).read_u32()?;
    let mut sink = Sink::new(alloc, 0);
    sink.write_u32(one_off(number, picks.form)?)?;
    replace(alloc, file, &place, sink.into_vec())
}

/// Makes a list of the kind `kind` one item longer or shorter: the first is there twice, or goes.
pub(crate) fn wrong_list(
    alloc: Global,
    file: &[u8],
    kind: Kind,
    picks: Picks,
) -> Result<Edit, Stop> {
    let place = pick_place(alloc, file, kind, picks.place)?;
    let mut reader = Reader::new(alloc, bytes_at(file, &place)?);
    let number = one_off(reader.read_u32()?, picks.form)?;
    let mut sink = Sink::new(alloc, 0);
    sink.write_u32(number)?;
    if picks.form % 2 == 0 {
        sink.write_bytes(reader.rest())?;
        sink.write_bytes(reader.rest())?;
    }
    replace(alloc, file, &place, sink.into_vec())
}
