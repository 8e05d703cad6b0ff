use crate::answer_lines::{write_refusal, write_rest};
use crate::answers::case_config::take_config;
use crate::answers::module_forms::{Fuelled, terminate, write_binary, write_fuel, write_text};
use smith_binary_module::encode;
use smith_bytes::{Error, Unstructured};
use smith_case::arguments::word;
use smith_case::call::ModuleCall;
use smith_case::{Case, Fault, Obstacle};
use smith_config::Config;
use smith_text::text;
use std::alloc::Global;
use wasm_smith::{DuplicateImportsBehavior, Module};

/// Appends to `answer` the text of the module that `call` makes, or its binary if `call` encodes
/// it, or the refusal. The configuration `config` is used up. The first argument of
/// `Module::new_internal` is `Allowed` or `Disallowed`. Its other arguments, and the arguments of
/// `Module::new`, name details to append: `debug` is the line that the module prints for debugging,
/// `left` the bytes of the input that the call leaves. The arguments of
/// `Module::ensure_termination` and `encode` are fuel.
pub(crate) fn answer_module(
    alloc: Global,
    case: &Case,
    call: ModuleCall,
    config: &mut Config,
    input: &[u8],
    answer: &mut String,
) -> Result<(), Fault> {
    let behavior = behavior_of(case, call)?;
    let form = form_of(case, call)?;
    let mut u = Unstructured::new(input);
    let made = draw_module(alloc, call, behavior, config, &mut u);
    write_made(alloc, case, form, made, answer)?;
    if form.left {
        return write_rest(&u, answer);
    }
    Ok(())
}

// The form of a module in an answer: that of a call, and the details that are appended to its text.
#[derive(Clone, Copy)]
struct Form {
    call: ModuleCall,
    debug: bool,
    left: bool,
}

// Returns the form that `call` and the arguments of `case` name.
fn form_of(case: &Case, call: ModuleCall) -> Result<Form, Fault> {
    let mut form = Form {
        call,
        debug: false,
        left: false,
    };
    let first = match call {
        ModuleCall::New => 0,
        ModuleCall::NewInternal => 1,
        _ => return Ok(form),
    };
    for place in first..case.args().len() {
        match word(case, place)? {
            "debug" => form.debug = true,
            "left" => form.left = true,
            _ => return Err(Fault::Argument(place)),
        }
    }
    Ok(form)
}

// Makes the module of `call`, before it is made to terminate.
fn draw_module(
    alloc: Global,
    call: ModuleCall,
    behavior: DuplicateImportsBehavior,
    config: &mut Config,
    u: &mut Unstructured<'_>,
) -> Result<Module, Error> {
    match call {
        ModuleCall::Arbitrary => Module::arbitrary(alloc, u),
        ModuleCall::NewOfDrawn => of_drawn(alloc, u),
        ModuleCall::NewInternal => Module::new_internal(alloc, take_config(config), u, behavior),
        _ => Module::new(alloc, take_config(config), u),
    }
}

// Returns the rule of duplicate imports: that of the first argument for the internal call, else
// that of `Module::new`.
fn behavior_of(case: &Case, call: ModuleCall) -> Result<DuplicateImportsBehavior, Fault> {
    if !matches!(call, ModuleCall::NewInternal) {
        return Ok(DuplicateImportsBehavior::Allowed);
    }
    match word(case, 0)? {
        "Allowed" => Ok(DuplicateImportsBehavior::Allowed),
        "Disallowed" => Ok(DuplicateImportsBehavior::Disallowed),
        _ => Err(Fault::Argument(0)),
    }
}

// Draws a configuration from the first bytes, and a module from the others.
fn of_drawn(alloc: Global, u: &mut Unstructured<'_>) -> Result<Module, Error> {
    match Config::arbitrary(u) {
        Ok(config) => Module::new(alloc, config, u),
        Err(refusal) => Err(refusal),
    }
}

// Appends the module that is made in the form `form`, or the refusal.
fn write_made(
    alloc: Global,
    case: &Case,
    form: Form,
    made: Result<Module, Error>,
    answer: &mut String,
) -> Result<(), Fault> {
    match made {
        Ok(mut module) => {
            let told = write_module(alloc, case, form, &mut module, answer);
            drop(module);
            told
        }
        Err(refusal) => write_refusal(refusal, answer),
    }
}

// Appends the text of `module`, or its binary, after fuel is added and before its details.
fn write_module(
    alloc: Global,
    case: &Case,
    form: Form,
    module: &mut Module,
    answer: &mut String,
) -> Result<(), Fault> {
    if takes_fuel(form.call) {
        terminate(alloc, case, module, answer)?;
    }
    if matches!(form.call, ModuleCall::Encode) {
        return write_binary(alloc, encode(alloc, module), answer);
    }
    write_text(text(alloc, module), answer)?;
    if form.debug {
        writeln!(answer, "{module:?}")?;
    }
    Ok(())
}

// Returns whether the arguments of `call` are fuel that is added to the module.
fn takes_fuel(call: ModuleCall) -> bool {
    matches!(call, ModuleCall::EnsureTermination | ModuleCall::Encode)
}

impl Fuelled for Module {
    fn add_fuel(&mut self, alloc: Global, fuel: u32, answer: &mut String) -> Result<(), Fault> {
        if self.globals().len() >= u32::MAX as usize {
            return Err(Fault::NotCallable(Obstacle::TooManyGlobals));
        }
        write_fuel(self.ensure_termination(alloc, fuel), answer)
    }
}
