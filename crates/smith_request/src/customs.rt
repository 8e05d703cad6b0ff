ghost use Rattle.std.specs.Prelude.{◌≡◌, IfOk, IfErr};
ghost use Rattle.smith_binary.specs.declared.error.EncodeError.TheVariants.{Memory};
ghost use Rattle.smith_custom_sections.specs.CustomSections.{IsPlain};
ghost use Rattle.smith_request.specs.Output.{IsFinished};
ghost use Rattle.smith_request.specs.declared.refusal.Refusal.TheVariants.{Encoding};

use crate::refusal::Refusal;
use smith_bytes::Unstructured;
use smith_custom_sections::add_custom_sections;
use smith_program::Program;
use std::alloc::Global;

/// Returns whether the configuration of `program` has custom sections.
pub(crate) fn has_customs(program: &Program) -> bool
    ensures { result ≡ program.now.«module».config.generate_custom_sections }
{
    program.module().config().generate_custom_sections
}

/// Returns the least number of bytes of an unsigned integer in a file of `program`.
pub(crate) fn least_length(program: &Program) -> u8
    ensures { result ≡ program.now.«module».config.min_uleb_size }
{
    program.module().config().min_uleb_size
}

/// Returns `file`, with custom sections that are drawn from the bytes of `u` if `is_on` is set. The
/// bytes stay in `u`. Refuses it for lack of memory alone.
pub(crate) fn finish(
    alloc: Global,
    is_on: bool,
    least: u8,
    file: Vec<u8>,
    u: &Unstructured<'_>,
) -> Result<Vec<u8>, Refusal>
    requires plain { IsPlain file.items }
    ensures finished { IfOk result (λ bytes. IsFinished is_on least u.now file.items bytes.items) }
    ensures memory { IfErr result (λ refusal. refusal ≡ Encoding Memory) }
{
    if !is_on {
        return Ok(file);
    }
    match add_custom_sections(alloc, least, file.as_slice(), u) {
        Ok(bytes) => Ok(bytes),
        Err(fault) => Err(Refusal::Encoding(fault)),
    }
}
