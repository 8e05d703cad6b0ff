use crate::answer_lines::{write_bytes, write_pair, write_refusal};
use sha2::{Digest, Sha256};
use smith_binary_module::EncodeError;
use smith_bytes::Error;
use smith_case::arguments::value;
use smith_case::{Case, Fault};
use std::alloc::Global;

/// Appends the text of a module or a program, or the refusal.
pub(crate) fn write_text(text: Result<String, Error>, answer: &mut String) -> Result<(), Fault> {
    match text {
        Ok(text) => Ok(answer.push_str(text.as_str())?),
        Err(refusal) => write_refusal(refusal, answer),
    }
}

/// A module or a program to which fuel is added.
pub(crate) trait Fuelled {
    /// Adds the fuel `fuel`, and appends the answer.
    fn add_fuel(&mut self, alloc: Global, fuel: u32, answer: &mut String) -> Result<(), Fault>;
}

/// Adds fuel to `made` for each argument in turn, and appends each answer.
pub(crate) fn terminate<M: Fuelled>(
    alloc: Global,
    case: &Case,
    made: &mut M,
    answer: &mut String,
) -> Result<(), Fault> {
    for place in 0..case.args().len() {
        made.add_fuel(alloc, value(case, place)?, answer)?;
    }
    Ok(())
}

/// Appends the index of the global that counts the fuel that is added, or the refusal.
pub(crate) fn write_fuel(added: Result<u32, Error>, answer: &mut String) -> Result<(), Fault> {
    match added {
        Ok(index) => write_pair("fuel global", index, answer),
        Err(refusal) => write_refusal(refusal, answer),
    }
}

// The greatest number of bytes of a binary that is written in full.
const MOST_BYTES: usize = 200;

/// Appends the number of bytes of a module or a program in the binary format and their checksum,
/// and the bytes in hexadecimal if there are at most 200. Appends the refusal if it is refused.
pub(crate) fn write_binary(
    alloc: Global,
    encoded: Result<Vec<u8>, EncodeError>,
    answer: &mut String,
) -> Result<(), Fault> {
    match encoded {
        Ok(bytes) => write_encoded(alloc, bytes.as_slice(), answer),
        Err(refusal) => write_refusal(refusal, answer),
    }
}

fn write_encoded(alloc: Global, bytes: &[u8], answer: &mut String) -> Result<(), Fault> {
    let count = bytes.len();
    let checksum = hex::encode(alloc, Sha256::digest(bytes))?;
    writeln!(answer, "{count} bytes, SHA-256 {checksum}")?;
    if count <= MOST_BYTES {
        write_bytes("binary", bytes, answer)?;
    }
    Ok(())
}
