use crate::failure::Failure;
use crate::files::{STANDARD_INPUT, read_from, write_to};
use crate::malformed::Malformed;
use crate::request::path_of;
use crate::words::{FILE, OUTPUT};
use clap::ArgMatches;
use smith_binary_read::Reason;
use smith_bytes::Error;
use smith_decode::{Body, DecodeError, Module, decode};
use smith_text_file::text;
use smith_types::WasmFeatures;
use std::alloc::Global;

/// The number of locals in all bodies of a file that are written as text. A run of any number of locals
/// takes six bytes of a file.
pub(crate) const LOCALS: u64 = 1_000_000;

/// Writes the module of the binary file that `matches` names as text. Nothing is written unless the
/// whole file is a module.
pub(crate) fn print_file(rt: &HostRuntime, matches: &ArgMatches<'_>) -> Result<(), Failure> {
    let path = path_of(matches, FILE);
    let bytes = read_from(rt, path)?;
    let module = module_in(rt.alloc(), path.unwrap_or(STANDARD_INPUT), bytes.as_slice())?;
    drop(bytes);
    if count_locals(module.bodies.as_slice()) > LOCALS {
        let name = String::from_str(rt.alloc(), path.unwrap_or(STANDARD_INPUT))?;
        return Err(Failure::Locals(name));
    }
    let text = text(rt.alloc(), module)?;
    write_to(rt, path_of(matches, OUTPUT), text.as_bytes())
}

/// Returns the module that `bytes` are, the contents of the file at `path`.
pub(crate) fn module_in(alloc: Global, path: &str, bytes: &[u8]) -> Result<Module, Failure> {
    let (offset, reason) = match decode(alloc, bytes, WasmFeatures::every()) {
        Ok(module) => return Ok(module),
        Err(DecodeError::Memory) => return Err(Failure::from(Error::Memory)),
        Err(DecodeError::Malformed { offset, reason }) => (offset, reason),
        // Each feature is on, so no form is of another one.
        Err(DecodeError::FeatureOff { offset }) => (offset, Reason::UnknownByte),
    };
    let malformed = Malformed::new(alloc, path, bytes, offset, reason)?;
    Err(Failure::Malformed(malformed))
}

// Returns the number of locals of `bodies`, parameters aside.
fn count_locals(bodies: &[Body]) -> u64 {
    let mut count: u64 = 0;
    for body in bodies {
        count = count.saturating_add(count_of(body));
    }
    count
}

// Returns the number of locals of `body`, parameters aside.
fn count_of(body: &Body) -> u64 {
    let mut count: u64 = 0;
    for run in body.locals.as_slice() {
        count = count.saturating_add(u64::from(run.count));
    }
    count
}
