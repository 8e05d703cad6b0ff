use crate::answer_lines::{or_memory, write_line};
use smith_case::Fault;
use smith_case::call::FileCall;
use smith_decode::{DecodeError, Module, decode};
use smith_judge::judge;
use smith_types::WasmFeatures;
use std::alloc::Global;

/// Appends to `answer` the result of `call` on the file `input`, whose forms may be of `features`
/// alone.
pub(crate) fn answer_file(
    alloc: Global,
    call: FileCall,
    features: WasmFeatures,
    input: &[u8],
    answer: &mut String,
) -> Result<(), Fault> {
    match call {
        FileCall::Decode => answer_decode(alloc, features, input, answer),
        FileCall::Judge => write_line(judge(alloc, features, input)?, answer),
    }
}

// Appends the text of the module that `input` spells, or the first fault and its place.
fn answer_decode(
    alloc: Global,
    features: WasmFeatures,
    input: &[u8],
    answer: &mut String,
) -> Result<(), Fault> {
    match decode(alloc, input, features) {
        Ok(module) => write_module(alloc, module, answer),
        Err(DecodeError::Memory) => Err(Fault::Memory),
        Err(fault) => write_line(fault, answer),
    }
}

// Appends the text of `module`.
fn write_module(alloc: Global, module: Module, answer: &mut String) -> Result<(), Fault> {
    match smith_text_file::text(alloc, module) {
        Ok(text) => or_memory(answer.push_str(text.as_str())),
        Err(_) => Err(Fault::Memory),
    }
}
