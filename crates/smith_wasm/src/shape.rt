use crate::failure::Failure;
use crate::files::{STANDARD_INPUT, read_from, write_to};
use crate::print::module_in;
use crate::request::path_of;
use crate::words::{FILE, OUTPUT};
use clap::ArgMatches;
use smith_decode::{Body, Module};
use smith_instr::Instr;
use smith_text_file::text;
use smith_types::Items;
use std::alloc::{AllocError, Global};

/// Writes the shape of the module of the binary file that `matches` names as text: a module with its types,
/// imports, definitions and exports, whose bodies are `unreachable`. Nothing is written unless the whole
/// file is a module.
pub(crate) fn print_shape(rt: &HostRuntime, matches: &ArgMatches<'_>) -> Result<(), Failure> {
    let path = path_of(matches, FILE);
    let bytes = read_from(rt, path)?;
    let mut module = module_in(rt.alloc(), path.unwrap_or(STANDARD_INPUT), bytes.as_slice())?;
    drop(bytes);
    keep_shape(rt.alloc(), &mut module)?;
    let text = text(rt.alloc(), module)?;
    write_to(rt, path_of(matches, OUTPUT), text.as_bytes())
}

// Leaves the shape of `module`, with `unreachable` as each body.
fn keep_shape(alloc: Global, module: &mut Module) -> Result<(), Failure> {
    module.bodies = traps(alloc, module.functions.len())?;
    module.start = None;
    module.elements = Items::new(alloc);
    module.data_count = None;
    module.datas = Items::new(alloc);
    module.customs = Items::new(alloc);
    Ok(())
}

// Returns this many bodies that are `unreachable`.
fn traps(alloc: Global, count: usize) -> Result<Items<Body>, AllocError> {
    let mut bodies = Vec::new(alloc);
    for _ in 0..count {
        let mut instructions = Vec::new(alloc);
        instructions.push(Instr::Unreachable)?;
        bodies.push(Body {
            locals: Items::new(alloc),
            instructions: Items::from_vec(instructions),
        })?;
    }
    Ok(Items::from_vec(bodies))
}
