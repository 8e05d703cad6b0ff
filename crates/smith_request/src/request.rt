ghost use Rattle.std.specs.Prelude.{◌≡◌, ◌≢◌, [], IfOk, IfErr};
ghost use Rattle.smith_config.specs.InUse.{HasNoShapes};
ghost use Rattle.smith_config_json.specs.declared.fault.Fault.TheVariants.{OutOfMemory};
ghost use Rattle.smith_request.specs.Requests.{IsBinary, IsBinaryFor, IsRequest, IsTextFor, IsTextOf};
ghost use Rattle.smith_request.specs.Requests.{additions_of_tokens, fuel_of_tokens};
ghost use Rattle.json.specs.Lex.{tokens};
ghost use Rattle.smith_request.specs.Refusals.{IsRefusal, IsRefusalFor, IsUnread};
ghost use Rattle.smith_request.specs.declared.manner.Form.TheVariants.{Binary, Text};
ghost use Rattle.smith_text.specs.declared.module.Layout.{Layout as TextLayout};
ghost use Rattle.smith_text.specs.declared.module.Layout.TheVariants.{Notes, Signatures};

use crate::additions::{Additions, Fuel};
use crate::manner::{Form, Manner, output};
use crate::refusal::Refusal;
use smith_bytes::Unstructured;
use smith_config::Config;
use smith_config_json::{ConfigRefusal, Fault, is_fuel_exported, is_observed};
use smith_text_program::Layout;
use std::alloc::{AllocError, Global};
use std::str;

/// What the text of a configuration requests.
#[derive(Drop)]
pub struct Request {
    /// The configuration.
    pub config: Config,
    /// What is added to the program.
    pub additions: Additions,
}

/// Returns the refusal of a configuration for lack of memory.
fn no_memory(alloc: Global) -> ConfigRefusal
    ensures { result.fault ≡ OutOfMemory }
{
    ConfigRefusal {
        fault: Fault::OutOfMemory,
        field: String::new(alloc),
        line: 1,
        column: 1,
    }
}

/// Finds the fuel of the object in `text`.
fn requested_fuel(alloc: Global, text: &str) -> Result<Option<Fuel>, AllocError>
    ensures { IfOk result (λ fuel. fuel ≡ fuel_of_tokens (tokens text.now)) }
{
    let Some(amount) = smith_config_json::fuel(alloc, text)? else {
        return Ok(None);
    };
    let is_exported = is_fuel_exported(alloc, text)?;
    Ok(Some(Fuel {
        amount,
        is_exported,
    }))
}

/// Finds what the object in `text` adds to a program.
fn requested_additions(alloc: Global, text: &str) -> Result<Additions, AllocError>
    ensures { IfOk result (λ additions. additions ≡ additions_of_tokens (tokens text.now)) }
{
    let fuel = requested_fuel(alloc, text)?;
    let is_observed = is_observed(alloc, text)?;
    Ok(Additions { fuel, is_observed })
}

/// Reads what `text` requests, which is not empty.
fn parse(alloc: Global, text: &str) -> Result<Request, Refusal>
    requires some { text.now ≢ [] }
    ensures ok { IfOk result (IsRequest text.now) }
    ensures refused { IfErr result (IsUnread text.now) }
{
    match smith_config_json::config(alloc, text) {
        Ok(config) => match requested_additions(alloc, text) {
            Ok(additions) => Ok(Request { config, additions }),
            Err(_) => Err(Refusal::Config(no_memory(alloc))),
        },
        Err(refusal) => Err(Refusal::Config(refusal)),
    }
}

impl Request {
    /// Reads what `text` requests. An empty text requests the default configuration.
    ///
    /// # Errors
    ///
    /// Refuses a text that is not UTF-8 or no configuration, and for lack of memory.
    pub fn read(alloc: Global, text: &[u8]) -> Result<Request, Refusal>
        ensures ok { IfOk result (IsRequest text.now) }
        ensures shapeless { IfOk result (λ request. HasNoShapes request.config) }
        ensures refused { IfErr result (IsUnread text.now) }
    {
        if text.is_empty() {
            return Ok(Request {
                config: Config::default(),
                additions: Additions {
                    fuel: None,
                    is_observed: false,
                },
            });
        }
        match str::from_utf8(text) {
            Ok(text) => parse(alloc, text),
            Err(_) => Err(Refusal::NotUtf8),
        }
    }

    /// Draws a program from `input` for the request, and writes it in the form `form`.
    ///
    /// # Errors
    ///
    /// Those of [`output`].
    pub fn write(self, alloc: Global, input: &[u8], form: Form) -> Result<Vec<u8>, Refusal>
        ensures binary { form ≡ Binary → IfOk result (λ bytes. IsBinaryFor self input.now bytes.items) }
        ensures text { (layout : TextLayout) → form ≡ Text layout
            → IfOk result (λ bytes. IsTextFor self input.now bytes.items) }
        ensures refused { IfErr result (IsRefusalFor form self input.now) }
    {
        let Request { config, additions } = self;
        let mut u = Unstructured::new(input);
        output(alloc, config, Manner { form, additions }, &mut u)
    }
}

/// Draws a program from `input` for the configuration in `text`, and writes it in the form `form`.
fn write(alloc: Global, text: &[u8], input: &[u8], form: Form) -> Result<Vec<u8>, Refusal>
    ensures binary { form ≡ Binary
        → IfOk result (λ bytes. IsBinary text.now input.now bytes.items) }
    ensures text { (layout : TextLayout) → form ≡ Text layout
        → IfOk result (λ bytes. IsTextOf text.now input.now bytes.items) }
    ensures refused { IfErr result (IsRefusal form text.now input.now) }
{
    match Request::read(alloc, text) {
        Ok(request) => request.write(alloc, input, form),
        Err(refusal) => Err(refusal),
    }
}

/// Draws a program from `input`, for the configuration in `text`, and writes it in the binary
/// format: the module, and then, from the bytes left, a body for each function that it defines. If
/// the configuration says so, the bodies mix the values of their locals into three globals, which are
/// exported. If it has fuel, the module has a global that counts calls and iterations of loops down
/// from it, exported if the configuration says so, or beside those three.
///
/// # Errors
///
/// Refuses a text that is not UTF-8 or no configuration, a module for the reasons of
/// [`Program::new`], [`Program::observe`] and [`Program::ensure_termination`], a program that is too
/// long for the format, and for lack of memory.
///
/// [`Program::new`]: smith_program::Program::new
/// [`Program::observe`]: smith_program::Program::observe
/// [`Program::ensure_termination`]: smith_program::Program::ensure_termination
pub fn binary(alloc: Global, text: &[u8], input: &[u8]) -> Result<Vec<u8>, Refusal>
    ensures ok { IfOk result (λ bytes. IsBinary text.now input.now bytes.items) }
    ensures refused { IfErr result (IsRefusal Binary text.now input.now) }
{
    write(alloc, text, input, Form::Binary)
}

/// Draws the program of [`binary`], and writes it in the text format, in UTF-8, in the form
/// [`Layout::Notes`]. No clause states what the text says; it is tested.
///
/// # Errors
///
/// Those of [`binary`], but a program is too long only if there is no index for each global that is
/// added.
pub fn text(alloc: Global, text: &[u8], input: &[u8]) -> Result<Vec<u8>, Refusal>
    ensures ok { IfOk result (λ bytes. IsTextOf text.now input.now bytes.items) }
    ensures refused { IfErr result (IsRefusal (Text Notes) text.now input.now) }
{
    write(alloc, text, input, Form::Text(Layout::Notes))
}

/// Draws the program of [`binary`], and writes it in the text format, in UTF-8, in the form
/// [`Layout::Signatures`]. No clause states what the text says; it is tested.
///
/// # Errors
///
/// Those of [`text`].
pub fn wat(alloc: Global, text: &[u8], input: &[u8]) -> Result<Vec<u8>, Refusal>
    ensures ok { IfOk result (λ bytes. IsTextOf text.now input.now bytes.items) }
    ensures refused { IfErr result (IsRefusal (Text Signatures) text.now input.now) }
{
    write(alloc, text, input, Form::Text(Layout::Signatures))
}
