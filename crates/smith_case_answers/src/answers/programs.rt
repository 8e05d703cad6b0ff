ghost use Rattle.std.specs.Prelude.{◌<◌, ◌-◌, ◌^◌, IfOk, length};
ghost use Rattle.smith_module_rules.specs.Module.{IsValid};

use crate::answer_lines::{write_pair, write_refusal, write_rest};
use crate::answers::case_config::take_config;
use crate::answers::module_forms::{Fuelled, terminate, write_binary, write_fuel, write_text};
use smith_binary_program::encode;
use smith_bytes::{Error, Unstructured};
use smith_case::call::ProgramCall;
use smith_case::{Case, Fault, Obstacle};
use smith_config::Config;
use smith_program::Program;
use smith_text_program::text;
use std::alloc::Global;

/// Appends the text of the program drawn from `input`, or its binary if `call` encodes it, or the
/// refusal; then the bytes of `input` left. The configuration `config` is used up. Exported sinks are
/// added to the program if `call` observes it, and then each argument as fuel.
pub(crate) fn answer_program(
    alloc: Global,
    case: &Case,
    call: ProgramCall,
    config: &mut Config,
    input: &[u8],
    answer: &mut String,
) -> Result<(), Fault> {
    let mut u = Unstructured::new(input);
    let made = Program::new(alloc, take_config(config), &mut u);
    write_made(alloc, case, call, made, answer)?;
    write_rest(&u, answer)
}

// Appends the form of the program that `call` names, or the refusal.
fn write_made(
    alloc: Global,
    case: &Case,
    call: ProgramCall,
    made: Result<Program, Error>,
    answer: &mut String,
) -> Result<(), Fault>
    requires valid { IfOk made (λ program. IsValid program.«module») }
{
    match made {
        Ok(mut program) => {
            let told = write_program(alloc, case, call, &mut program, answer);
            drop(program);
            told
        }
        Err(refusal) => write_refusal(refusal, answer),
    }
}

// Appends `program` in the form that `call` names, after sinks are added if `call` observes it, and
// fuel for each argument.
fn write_program(
    alloc: Global,
    case: &Case,
    call: ProgramCall,
    program: &mut Program,
    answer: &mut String,
) -> Result<(), Fault>
    requires valid { IsValid program.old.«module» }
{
    if matches!(call, ProgramCall::Observe) {
        observe(alloc, program, answer)?;
    }
    terminate(alloc, case, program, answer)?;
    match call {
        ProgramCall::New | ProgramCall::Observe => write_text(text(alloc, program), answer),
        ProgramCall::Encode => write_binary(alloc, encode(alloc, program), answer),
    }
}

// Adds sinks to `program`, and exports them. Appends the index of the first, or the refusal.
fn observe(alloc: Global, program: &mut Program, answer: &mut String) -> Result<(), Fault>
    requires valid { IsValid program.old.«module» }
{
    if program.module().globals().len() >= u32::MAX as usize - 2 {
        return Err(Fault::NotCallable(Obstacle::TooManyGlobals));
    }
    match add_sinks(alloc, program) {
        Ok(first) => write_pair("sinks", first, answer),
        Err(refusal) => write_refusal(refusal, answer),
    }
}

// Adds sinks to `program` that are exported, and returns the index of the first.
fn add_sinks(alloc: Global, program: &mut Program) -> Result<u32, Error>
    requires valid { IsValid program.old.«module» }
    requires room { length program.old.«module».globals < 2 ^ 32 - 3 }
{
    let first = program.observe(alloc)?;
    program.export_sinks(alloc, first)?;
    Ok(first)
}

impl Fuelled for Program {
    fn add_fuel(&mut self, alloc: Global, fuel: u32, answer: &mut String) -> Result<(), Fault> {
        if self.module().globals().len() >= u32::MAX as usize {
            return Err(Fault::NotCallable(Obstacle::TooManyGlobals));
        }
        write_fuel(self.ensure_termination(alloc, fuel), answer)
    }
}
