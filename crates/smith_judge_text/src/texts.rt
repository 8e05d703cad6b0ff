ghost use Rattle.std.specs.Prelude.{◌≡◌, IfErr};

use crate::causes::cause_text;
use crate::supertypes::supertypes_text;
use smith_binary_read::{ReadError, Reader};
use smith_binary_read_instr::read_instr;
use smith_bytes::Error;
use smith_instr::Instr;
use smith_judge::{Answer, Fault, Rule, WasmFeatures, Words, explain};
use smith_text_program::{FromFmt, write_instr};
use std::alloc::Global;

// Returns the offset of the instruction at which an answer finds a fault, if it is a fault of an
// instruction.
fn instruction_offset(answer: &Answer) -> Option<usize> {
    match answer {
        Answer::Invalid(finding) => match finding.fault {
            Fault::Body { .. } => Some(finding.offset),
            _ => None,
        },
        _ => None,
    }
}

// Returns the instruction that begins at `offset` of `bytes`, if one does.
fn instruction_at(alloc: Global, bytes: &[u8], offset: usize) -> Result<Option<Instr>, Error>
    ensures memory { IfErr result (λ e. e ≡ Error.Memory) }
{
    let (_, rest) = bytes.split_at_checked(offset).unwrap_or((bytes, &[]));
    let mut reader = Reader::new(alloc, rest);
    match read_instr(&mut reader) {
        Ok(instruction) => Ok(Some(instruction)),
        Err(ReadError::Memory) => Err(Error::Memory),
        Err(ReadError::Malformed(_)) => Ok(None),
    }
}

// Returns the name of `instruction`: its text up to the first space.
fn name_of(alloc: Global, instruction: &Instr) -> Result<String, Error>
    ensures memory { IfErr result (λ e. e ≡ Error.Memory) }
{
    let mut sink = FromFmt::new(String::new(alloc));
    if write_instr(instruction, &[], &mut sink).is_err() {
        return Err(Error::Memory);
    }
    let text = sink.into_string();
    match text.as_str().split_once(' ') {
        Some((name, _)) => Ok(String::from_str(alloc, name)?),
        None => Ok(text),
    }
}

/// Returns the name in the text format of the instruction at which `answer` finds the fault of the
/// file `bytes`, or an empty text if it finds none at an instruction. No clause states the name.
pub fn keyword(alloc: Global, bytes: &[u8], answer: &Answer) -> Result<String, Error>
    ensures memory { IfErr result (λ e. e ≡ Error.Memory) }
{
    let Some(offset) = instruction_offset(answer) else {
        return Ok(String::new(alloc));
    };
    match instruction_at(alloc, bytes, offset)? {
        Some(instruction) => name_of(alloc, &instruction),
        None => Ok(String::new(alloc)),
    }
}

/// Returns why the instruction that `answer`, to the file whose bytes are `bytes`, is about is wrong, in
/// words: the types that it takes and those that are on the stack, or what it names and is not there; or
/// which type has several supertypes. The text is empty for other answers. `explain` of `smith_judge` has
/// the same of instructions, with clauses; no clause states the words.
pub fn cause(
    alloc: Global,
    features: WasmFeatures,
    bytes: &[u8],
    answer: &Answer,
) -> Result<String, Error>
    ensures memory { IfErr result (λ e. e ≡ Error.Memory) }
{
    let Answer::Invalid(finding) = answer else {
        return Ok(String::new(alloc));
    };
    if finding.rule == Rule::Supertypes {
        return supertypes_text(alloc, features, bytes, finding.index);
    }
    match explain(alloc, features, bytes, answer)? {
        Some(explanation) => cause_text(alloc, &explanation, finding.rule),
        None => Ok(String::new(alloc)),
    }
}

/// Returns `answer`, to the file whose bytes are `bytes`, in words, in one line. No clause states the
/// words.
pub fn words(
    alloc: Global,
    features: WasmFeatures,
    bytes: &[u8],
    answer: &Answer,
) -> Result<String, Error>
    ensures memory { IfErr result (λ e. e ≡ Error.Memory) }
{
    let keyword = keyword(alloc, bytes, answer)?;
    let cause = cause(alloc, features, bytes, answer)?;
    let words = Words {
        answer,
        keyword: keyword.as_str(),
        cause: cause.as_str(),
    };
    Ok(format!(in alloc; "{words}")?)
}
