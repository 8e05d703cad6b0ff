ghost use Rattle.std.specs.Prelude.{IfOk, IfErr};
ghost use Rattle.smith_binary.specs.Faults.{IsFault};
ghost use Rattle.smith_binary.specs.Spelling.Spelling.{written};
ghost use Rattle.smith_binary_module.specs.Layout.{section_ids, HasSections};
ghost use Rattle.smith_binary_module.specs.Written.{IsWritten, IsWrittenIn};
ghost use Rattle.smith_binary_program.specs.Bodies.{AreBodiesOf, AreBodiesOfIn};
ghost use Rattle.smith_binary_program.specs.Long.{IsLongProgram};
ghost use Rattle.smith_binary_program.specs.Programs.{IsProgramBinary};

use crate::bodies::Bodies;
use smith_binary::EncodeError;
use smith_binary_module::encode_with_bodies;
use smith_program::Program;
use std::alloc::Global;

/// Encodes `program` in the binary format of the WebAssembly Core Specification 3.0, into memory
/// allocated from `alloc`.
///
/// All parts but the bodies are written as [`smith_binary_module::encode`] writes the module. The checks
/// of its counters of fuel are written at the start of each drawn body, and after each `loop` in
/// it.
///
/// # Errors
///
/// Returns `TooLong` if a list has 2^32 items or more, a section or a body has 2^32 bytes or more,
/// an alignment needs more than the six bits of the format, or an instruction accesses a lane of
/// more than eight bytes. Returns `Memory` if an allocation fails.
pub fn encode(alloc: Global, program: &Program) -> Result<Vec<u8>, EncodeError>
    ensures spelled { IfOk result (λ bytes.
        IsProgramBinary program.now.«module» program.now.bodies bytes.items) }
    ensures sections { IfOk result (λ bytes.
        HasSections (section_ids program.now.«module») bytes.items) }
    ensures written { IfOk result (λ bytes. IsWritten program.now.«module»
        (AreBodiesOf program.now.«module».fuel_globals program.now.«module».code program.now.bodies)
        bytes.items) }
    ensures spelling { IfOk result (λ bytes.
        let spelling = written program.now.«module».config.min_uleb_size
        in IsWrittenIn spelling program.now.«module» (AreBodiesOfIn spelling
        program.now.«module».fuel_globals program.now.«module».code program.now.bodies)
        bytes.items) }
    ensures fault { IfErr result (IsFault (IsLongProgram program.now.«module» program.now.bodies)) }
{
    let module = program.module();
    let bodies = Bodies {
        counters: module.fuel_globals(),
        codes: module.code(),
        bodies: program.bodies(),
    };
    encode_with_bodies(alloc, module, &bodies)
}
