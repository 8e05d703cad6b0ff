use crate::fault::Fault;
use std::alloc::Global;

/// Returns the bytes of `text`: words separated by blanks, each hexadecimal bytes, or `BYTES*COUNT`
/// for `COUNT` copies of the bytes.
///
/// # Errors
///
/// Returns `Input` if a word has another form or `COUNT` is above 100,000, or `Memory`.
pub fn bytes_of(alloc: Global, text: &str) -> Result<Vec<u8>, Fault> {
    let mut bytes = Vec::new(alloc);
    for word in text.split_whitespace() {
        append_word(alloc, word, &mut bytes)?;
    }
    Ok(bytes)
}

// The greatest number of copies in a word.
const MOST_COPIES: usize = 100_000;

fn append_word(alloc: Global, word: &str, bytes: &mut Vec<u8>) -> Result<(), Fault> {
    let (digits, count) = word.split_once('*').unwrap_or((word, "1"));
    match count.parse::<usize>() {
        Ok(copies) if copies <= MOST_COPIES => append_copies(alloc, digits, copies, bytes),
        _ => Err(Fault::Input),
    }
}

// Appends the bytes of `digits` to `bytes`, `copies` times.
fn append_copies(
    alloc: Global,
    digits: &str,
    copies: usize,
    bytes: &mut Vec<u8>,
) -> Result<(), Fault> {
    let part = match hex::decode(alloc, digits) {
        Ok(part) => part,
        Err(hex::FromHexError::OutOfMemory) => return Err(Fault::Memory),
        Err(_) => return Err(Fault::Input),
    };
    for _ in 0..copies {
        bytes.extend_from_slice(part.as_slice())?;
    }
    Ok(())
}
