use crate::memory::parts::module_of_parts;
use crate::memory::tries::is_refused_first;
use smith_binary_module::{EncodeError, encode};
use smith_rows_memory::{Attempt, Ended};
use std::alloc::Global;
use std::test::Fail;
use wasm_smith::Module;

// A module that is encoded.
#[derive(Clone, Copy)]
struct Encoding<'a> {
    module: &'a Module,
}

impl Attempt for Encoding<'_> {
    fn run(&mut self, alloc: Global) -> Ended {
        outcome_of(encode(alloc, self.module))
    }
}

// Returns the outcome of the call that answered `answer`.
fn outcome_of(answer: Result<Vec<u8>, EncodeError>) -> Ended {
    match answer {
        Ok(bytes) if bytes.as_slice().starts_with(b"\0asm") => Ended::Given,
        Err(EncodeError::Memory) => Ended::Refused,
        _ => Ended::Wrong("the binary is another"),
    }
}

fn try_module(alloc: Global, module: &Module) -> Result<(), Fail> {
    is_refused_first(alloc, &mut Encoding { module })
}

#[test]
fn binaries(rt: HostRuntime) -> Result<(), Fail> {
    let module = module_of_parts(rt.alloc())?;
    let tried = try_module(rt.alloc(), &module);
    drop(module);
    tried
}
