//! The generator for C, and for all languages that call C: a module of a configuration and an
//! input, with bodies of instructions, into the caller's memory.
#![tactic(auto)]

ghost use Rattle.smith_c.specs.CallAnswers.{IsAnswered, IsExplained};
ghost use Rattle.smith_c.specs.Files.{IsChecked, IsInvalidMade};
ghost use Rattle.smith_c.specs.KeptConfigs.{IsRead, config_of, request_of};
ghost use Rattle.smith_request.specs.Invalid.{IsInvalid, IsInvalidOf, IsInvalidRefusal};
ghost use Rattle.smith_request.specs.Invalid.{IsShapedInvalid, IsShapedInvalidRefusal, IsUnbroken};
ghost use Rattle.smith_request.specs.Requests.{IsBinary, HasBinary, IsTextOf};
ghost use Rattle.smith_request.specs.Requests.{IsBinaryFor, HasBinaryFor, IsTextFor};
ghost use Rattle.smith_request.specs.Refusals.{IsRefusal, IsRefusalFor};
ghost use Rattle.smith_request.specs.Shaped.{IsShapedBinary, IsShapedRefusal, IsShapedText};
ghost use Rattle.smith_request.specs.Shaped.{HasShapedBinary};
ghost use Rattle.smith_request.specs.declared.manner.Form.TheVariants.{Binary, Text};
ghost use Rattle.smith_text.specs.declared.module.Layout.TheVariants.{Notes, Signatures};

mod answer;
mod explanation;
mod fault;
mod judged;
mod kept;
mod laws;

pub use crate::answer::Answer;
use crate::answer::put;
use crate::explanation::explain;
pub use crate::fault::Fault;
use crate::fault::put_file;
use crate::judged::check;
pub use crate::kept::KeptConfig;
pub use smith_judge::Verdict;
pub use smith_request::ShapeFiles;
use smith_request::{Form, Layout, Request};
use std::alloc::Global;

/// Writes the module of a configuration and of `input`, with a body for each function that it
/// defines, to the front of `out`, in the binary format.
///
/// `config` is the text of a JSON object, or empty for the default configuration.
#[unsafe(no_mangle)]
pub extern "C" fn smith_binary(alloc: Global, config: &[u8], input: &[u8], out: &mut [u8]) -> Answer
    ensures { IsAnswered (IsBinary config.now input.now)
        (IsRefusal Binary config.now input.now) out.old out.new result }
{
    match smith_request::binary(alloc, config, input) {
        Ok(bytes) => put(answer::MADE, bytes.as_slice(), out),
        Err(refusal) => Answer::without_output(refusal.status()),
    }
}

/// Writes that module in the text format, in UTF-8. It is too long only if there is no index for
/// each global that is added. No clause states what the text says.
#[unsafe(no_mangle)]
pub extern "C" fn smith_text(alloc: Global, config: &[u8], input: &[u8], out: &mut [u8]) -> Answer
    ensures { IsAnswered (IsTextOf config.now input.now)
        (IsRefusal (Text Notes) config.now input.now) out.old out.new result }
{
    match smith_request::text(alloc, config, input) {
        Ok(text) => put(answer::MADE, text.as_slice(), out),
        Err(refusal) => Answer::without_output(refusal.status()),
    }
}

/// Writes the text of [`smith_text`] in another form: each index of a function type has the
/// parameters and the results after it, and comments have raw bodies alone.
#[unsafe(no_mangle)]
pub extern "C" fn smith_wat(alloc: Global, config: &[u8], input: &[u8], out: &mut [u8]) -> Answer
    ensures { IsAnswered (IsTextOf config.now input.now)
        (IsRefusal (Text Signatures) config.now input.now) out.old out.new result }
{
    match smith_request::wat(alloc, config, input) {
        Ok(text) => put(answer::MADE, text.as_slice(), out),
        Err(refusal) => Answer::without_output(refusal.status()),
    }
}

/// Writes in words why [`smith_binary`] writes no module, and returns the number of that refusal, or
/// 1 if `out` is too short for the words. Writes nothing if there is a module. No clause states the
/// words.
#[unsafe(no_mangle)]
pub extern "C" fn smith_refusal(
    alloc: Global,
    config: &[u8],
    input: &[u8],
    out: &mut [u8],
) -> Answer
    ensures { IsExplained (HasBinary config.now input.now)
        (IsRefusal Binary config.now input.now) out.old out.new result }
{
    match smith_request::binary(alloc, config, input) {
        Ok(_) => Answer::without_output(answer::MADE),
        Err(refusal) => explain(alloc, &refusal, out),
    }
}

/// Reads `text`, a JSON object or empty for the default configuration, into `config`, for the calls
/// whose names end in `_with`. Leaves `config` as it is if the text is refused.
#[unsafe(no_mangle)]
pub extern "C" fn smith_config_read(alloc: Global, text: &[u8], config: &mut KeptConfig) -> Answer
    ensures { IsRead text.now config.old config.new result }
{
    match Request::read(alloc, text) {
        Ok(request) => {
            *config = KeptConfig::of(&request);
            Answer::without_output(answer::MADE)
        }
        Err(refusal) => Answer::without_output(refusal.status()),
    }
}

/// Does what [`smith_binary`] does, for a configuration that is read.
#[unsafe(no_mangle)]
pub extern "C" fn smith_binary_with(
    alloc: Global,
    config: &KeptConfig,
    input: &[u8],
    out: &mut [u8],
) -> Answer
    ensures { IsAnswered (IsBinaryFor (request_of config.now) input.now)
        (IsRefusalFor Binary (request_of config.now) input.now) out.old out.new result }
{
    match config.request().write(alloc, input, Form::Binary) {
        Ok(bytes) => put(answer::MADE, bytes.as_slice(), out),
        Err(refusal) => Answer::without_output(refusal.status()),
    }
}

/// Does what [`smith_text`] does, for a configuration that is read.
#[unsafe(no_mangle)]
pub extern "C" fn smith_text_with(
    alloc: Global,
    config: &KeptConfig,
    input: &[u8],
    out: &mut [u8],
) -> Answer
    ensures { IsAnswered (IsTextFor (request_of config.now) input.now)
        (IsRefusalFor (Text Notes) (request_of config.now) input.now) out.old out.new result }
{
    match config
        .request()
        .write(alloc, input, Form::Text(Layout::Notes))
    {
        Ok(text) => put(answer::MADE, text.as_slice(), out),
        Err(refusal) => Answer::without_output(refusal.status()),
    }
}

/// Does what [`smith_wat`] does, for a configuration that is read.
#[unsafe(no_mangle)]
pub extern "C" fn smith_wat_with(
    alloc: Global,
    config: &KeptConfig,
    input: &[u8],
    out: &mut [u8],
) -> Answer
    ensures { IsAnswered (IsTextFor (request_of config.now) input.now)
        (IsRefusalFor (Text Signatures) (request_of config.now) input.now) out.old out.new result }
{
    match config
        .request()
        .write(alloc, input, Form::Text(Layout::Signatures))
    {
        Ok(text) => put(answer::MADE, text.as_slice(), out),
        Err(refusal) => Answer::without_output(refusal.status()),
    }
}

/// Does what [`smith_refusal`] does, for a configuration that is read.
#[unsafe(no_mangle)]
pub extern "C" fn smith_refusal_with(
    alloc: Global,
    config: &KeptConfig,
    input: &[u8],
    out: &mut [u8],
) -> Answer
    ensures { IsExplained (HasBinaryFor (request_of config.now) input.now)
        (IsRefusalFor Binary (request_of config.now) input.now) out.old out.new result }
{
    match config.request().write(alloc, input, Form::Binary) {
        Ok(_) => Answer::without_output(answer::MADE),
        Err(refusal) => explain(alloc, &refusal, out),
    }
}

/// Does what [`smith_binary_with`] does, with the shapes that `shapes` are. An empty one is none.
#[unsafe(no_mangle)]
pub extern "C" fn smith_binary_shaped(
    alloc: Global,
    config: &KeptConfig,
    shapes: &ShapeFiles<'_>,
    input: &[u8],
    out: &mut [u8],
) -> Answer
    ensures { IsAnswered (IsShapedBinary shapes.now (request_of config.now) input.now)
        (IsShapedRefusal Binary shapes.now (request_of config.now) input.now) out.old out.new result }
{
    match config
        .request()
        .write_shaped(alloc, shapes, input, Form::Binary)
    {
        Ok(bytes) => put(answer::MADE, bytes.as_slice(), out),
        Err(refusal) => Answer::without_output(refusal.status()),
    }
}

/// Does what [`smith_text_with`] does, with the shapes that `shapes` are.
#[unsafe(no_mangle)]
pub extern "C" fn smith_text_shaped(
    alloc: Global,
    config: &KeptConfig,
    shapes: &ShapeFiles<'_>,
    input: &[u8],
    out: &mut [u8],
) -> Answer
    ensures { IsAnswered (IsShapedText shapes.now (request_of config.now) input.now)
        (IsShapedRefusal (Text Notes) shapes.now (request_of config.now) input.now) out.old out.new result }
{
    match config
        .request()
        .write_shaped(alloc, shapes, input, Form::Text(Layout::Notes))
    {
        Ok(text) => put(answer::MADE, text.as_slice(), out),
        Err(refusal) => Answer::without_output(refusal.status()),
    }
}

/// Does what [`smith_wat_with`] does, with the shapes that `shapes` are.
#[unsafe(no_mangle)]
pub extern "C" fn smith_wat_shaped(
    alloc: Global,
    config: &KeptConfig,
    shapes: &ShapeFiles<'_>,
    input: &[u8],
    out: &mut [u8],
) -> Answer
    ensures { IsAnswered (IsShapedText shapes.now (request_of config.now) input.now)
        (IsShapedRefusal (Text Signatures) shapes.now (request_of config.now) input.now) out.old out.new result }
{
    match config
        .request()
        .write_shaped(alloc, shapes, input, Form::Text(Layout::Signatures))
    {
        Ok(text) => put(answer::MADE, text.as_slice(), out),
        Err(refusal) => Answer::without_output(refusal.status()),
    }
}

/// Does what [`smith_refusal_with`] does, with the shapes that `shapes` are.
#[unsafe(no_mangle)]
pub extern "C" fn smith_refusal_shaped(
    alloc: Global,
    config: &KeptConfig,
    shapes: &ShapeFiles<'_>,
    input: &[u8],
    out: &mut [u8],
) -> Answer
    ensures { IsExplained (HasShapedBinary shapes.now (request_of config.now) input.now)
        (IsShapedRefusal Binary shapes.now (request_of config.now) input.now) out.old out.new result }
{
    match config
        .request()
        .write_shaped(alloc, shapes, input, Form::Binary)
    {
        Ok(_) => Answer::without_output(answer::MADE),
        Err(refusal) => explain(alloc, &refusal, out),
    }
}

/// Makes a change of the program of a configuration and of `input` that breaks a rule, and writes the file
/// to the front of `out`, and what is said of it to `fault`. The change is of one of the families with the
/// numbers `families`, or of any if there are none.
///
/// `config` is the text of a JSON object, or empty for the default configuration.
#[unsafe(no_mangle)]
pub extern "C" fn smith_invalid(
    alloc: Global,
    config: &[u8],
    input: &[u8],
    families: &[u32],
    fault: &mut Fault,
    out: &mut [u8],
) -> Answer
    ensures { IsInvalidMade (IsInvalid config.now families.now input.now)
        (IsInvalidRefusal config.now families.now input.now) fault.old fault.new out.old out.new result }
{
    match smith_request::invalid(alloc, config, families, input) {
        Ok(wrong) => put_file(&wrong, fault, out),
        Err(refusal) => Answer::without_output(refusal.status()),
    }
}

/// Does what [`smith_invalid`] does, for a configuration that is read.
#[unsafe(no_mangle)]
pub extern "C" fn smith_invalid_with(
    alloc: Global,
    config: &KeptConfig,
    input: &[u8],
    families: &[u32],
    fault: &mut Fault,
    out: &mut [u8],
) -> Answer
    ensures { IsInvalidMade (IsInvalidOf (config_of config.now) families.now input.now)
        (IsUnbroken (config_of config.now) families.now input.now) fault.old fault.new out.old out.new result }
{
    match config.request().invalid(alloc, families, input) {
        Ok(wrong) => put_file(&wrong, fault, out),
        Err(refusal) => Answer::without_output(refusal.status()),
    }
}

/// Does what [`smith_invalid_with`] does, with the shapes that `shapes` are.
#[unsafe(no_mangle)]
pub extern "C" fn smith_invalid_shaped(
    alloc: Global,
    config: &KeptConfig,
    shapes: &ShapeFiles<'_>,
    input: &[u8],
    families: &[u32],
    fault: &mut Fault,
    out: &mut [u8],
) -> Answer
    ensures { IsInvalidMade (IsShapedInvalid shapes.now (request_of config.now) families.now input.now)
        (IsShapedInvalidRefusal shapes.now (request_of config.now) families.now input.now)
        fault.old fault.new out.old out.new result }
{
    match config
        .request()
        .invalid_shaped(alloc, shapes, families, input)
    {
        Ok(wrong) => put_file(&wrong, fault, out),
        Err(refusal) => Answer::without_output(refusal.status()),
    }
}

/// Judges `file`, and writes what it is to `verdict`, in numbers, and to the front of `out`, in words, if
/// they fit. The features that are on are all that are known, changed by `config`, the text of a JSON
/// object, or empty.
#[unsafe(no_mangle)]
pub extern "C" fn smith_check(
    alloc: Global,
    config: &[u8],
    file: &[u8],
    verdict: &mut Verdict,
    out: &mut [u8],
) -> Answer
    ensures { IsChecked config.now file.now verdict.old verdict.new out.old out.new result }
{
    match check(alloc, config, file) {
        Ok(judged) => {
            *verdict = judged.verdict;
            put(answer::MADE, judged.words.as_str().as_bytes(), out)
        }
        Err(refusal) => Answer::without_output(refusal.status()),
    }
}
