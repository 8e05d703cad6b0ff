ghost use Rattle.std.specs.Prelude.{◌≡◌, IfErr, OnOk};
ghost use Rattle.smith_module_rules.specs.Module.{IsValid};
ghost use Rattle.smith_request.specs.CanonicalNans.{HasCanonicalNans, IsNotCanonical};
ghost use Rattle.smith_request.specs.CanonicalNans.{has_canonical_nans};

use crate::refusal::Refusal;
use smith_binary::EncodeError;
use smith_program::Program;
use std::alloc::Global;

/// Returns whether the NaNs of `program` are to be canonical.
fn has_canonical_nans(program: &Program) -> bool
    ensures { result ≡ has_canonical_nans program.now.«module».config }
{
    let config = program.module().config();
    config.canonicalize_nans && config.allow_floats
}

/// Makes the NaNs of `program` canonical, if its configuration says so and allows floats.
pub(crate) fn canonicalize(alloc: Global, program: &mut Program) -> Result<(), Refusal>
    ensures canonical { OnOk result
        (HasCanonicalNans (has_canonical_nans program.old.«module».config) program.old program.new) }
    ensures valid { OnOk result (IsValid program.old.«module» → IsValid program.new.«module») }
    ensures refused { IfErr result (IsNotCanonical program.old) }
{
    if !has_canonical_nans(program) {
        return Ok(());
    }
    if program.module().globals().len() >= u32::MAX as usize - 2 {
        return Err(Refusal::Encoding(EncodeError::TooLong));
    }
    match program.canonicalize_nans(alloc) {
        Ok(()) => Ok(()),
        Err(error) => Err(Refusal::Module(error)),
    }
}
