ghost use Rattle.std.specs.Prelude.{◌≡◌, ◌<◌, ◌≤◌, true, IfOk, IfErr};
ghost use Rattle.smith_module_rules.specs.Module.{IsValid};
ghost use Rattle.smith_binary_program.specs.Programs.{IsEncoded};
ghost use Rattle.smith_request.specs.Additions.{added_globals};
ghost use Rattle.smith_request.specs.Output.{IsBinaryOf, IsBinaryWith, IsFileOf, IsRefusedFor};
ghost use Rattle.smith_request.specs.Output.{IsExtendedBinary, IsUnextended};
ghost use Rattle.smith_request.specs.Output.{IsText, IsUnwritten, IsUnwrittenWith, IsWrittenText};
ghost use Rattle.smith_request.specs.declared.manner.Form.TheVariants.{Binary, Text};
ghost use Rattle.smith_text.specs.declared.module.Layout.{Layout as TextLayout};

use crate::additions::{Additions, added_globals, extend};
use crate::customs::{finish, has_customs, least_length};
use crate::nans::canonicalize;
use crate::refusal::Refusal;
use crate::writers::{write_binary, write_text};
use smith_binary::EncodeError;
use smith_bytes::Unstructured;
use smith_config::Config;
use smith_program::Program;
use smith_text_program::Layout;
use std::alloc::Global;

/// The format of a written module.
#[derive(Clone, Copy, Debug, PartialEq, Eq)]
pub enum Form {
    /// The binary format.
    Binary,
    /// The text format, in this layout.
    Text(Layout),
}

/// The manner of writing a module.
#[derive(Clone, Copy, Debug, PartialEq, Eq)]
pub struct Manner {
    /// The format.
    pub form: Form,
    /// What is added to the program.
    pub additions: Additions,
}

/// Draws a program from the bytes of `u` under `config`, as [`Program::new`] does, makes its NaNs
/// canonical if `config` says so and allows floats, adds to it what `manner` says, and writes it in the
/// form of `manner`. If `config` has custom sections, the binary format has some, drawn from the bytes
/// of `u` that the program leaves; these stay in `u`.
///
/// # Errors
///
/// Returns `Module` with the refusal of [`Program::new`], with `IncorrectFormat(RawBody)` if something
/// is to be added and a body is raw bytes, or with `Memory` if an allocation fails before the program
/// is written. Returns `Encoding` with `TooLong` if the program is too long for the binary format, or
/// if there is no index for each global that is added, and with `Memory` if an allocation fails while
/// the program is written.
pub fn output(
    alloc: Global,
    config: Config,
    manner: Manner,
    u: &mut Unstructured<'_>,
) -> Result<Vec<u8>, Refusal>
    ensures binary { manner.form ≡ Binary
        → IfOk result (λ bytes. IsBinaryOf config manner.additions u.old bytes.items u.new) }
    ensures text { (layout : TextLayout) → manner.form ≡ Text layout
        → IfOk result (λ bytes. IsWrittenText config u.old bytes.items u.new) }
    ensures refused { IfErr result (IsRefusedFor manner.form config manner.additions u.old u.new) }
{
    match Program::new(alloc, config, u) {
        Ok(program) => write_program(alloc, program, manner, u),
        Err(refusal) => Err(Refusal::Module(refusal)),
    }
}

/// Adds to `program` what `manner` says, after canonical NaNs if its configuration says so, and writes
/// it in the form of `manner`. If the configuration has custom sections, they are drawn from the bytes
/// of `u`, which stay in `u`, and are written in the binary format alone.
///
/// Requires the module to be valid if its locals are to be observed. That of a drawn program is.
///
/// # Errors
///
/// Those of [`output`] for a program that is drawn.
pub fn write_program(
    alloc: Global,
    program: Program,
    manner: Manner,
    u: &Unstructured<'_>,
) -> Result<Vec<u8>, Refusal>
    requires valid { manner.additions.is_observed ≡ true → IsValid program.«module» }
    ensures binary { manner.form ≡ Binary → IfOk result (λ bytes.
        IsFileOf program.«module».config manner.additions program u.now bytes.items) }
    ensures text { (layout : TextLayout) → manner.form ≡ Text layout
        → IfOk result (λ bytes. IsText bytes.items) }
    ensures refused { IfErr result (IsUnwrittenWith manner.form manner.additions program) }
{
    match manner.form {
        Form::Binary => write_file(alloc, program, manner.additions, u),
        Form::Text(_) => write_without_customs(alloc, program, manner),
    }
}

/// Writes `program` with `additions` in the binary format, with custom sections drawn from the bytes
/// of `u` if its configuration has them.
fn write_file(
    alloc: Global,
    program: Program,
    additions: Additions,
    u: &Unstructured<'_>,
) -> Result<Vec<u8>, Refusal>
    requires valid { additions.is_observed ≡ true → IsValid program.«module» }
    ensures binary { IfOk result (λ bytes.
        IsFileOf program.«module».config additions program u.now bytes.items) }
    ensures refused { IfErr result (IsUnwrittenWith Binary additions program) }
{
    let is_on = has_customs(&program);
    let least = least_length(&program);
    let manner = Manner {
        form: Form::Binary,
        additions,
    };
    match write_without_customs(alloc, program, manner) {
        Ok(file) => finish(alloc, is_on, least, file, u),
        Err(refusal) => Err(refusal),
    }
}

/// Writes `program` with the additions of `manner` in the form of `manner`, after canonical NaNs if its
/// configuration says so, and without custom sections.
fn write_without_customs(
    alloc: Global,
    mut program: Program,
    manner: Manner,
) -> Result<Vec<u8>, Refusal>
    requires valid { manner.additions.is_observed ≡ true → IsValid program.«module» }
    ensures binary { manner.form ≡ Binary
        → IfOk result (λ bytes. IsBinaryWith manner.additions program bytes.items) }
    ensures text { (layout : TextLayout) → manner.form ≡ Text layout
        → IfOk result (λ bytes. IsText bytes.items) }
    ensures refused { IfErr result (IsUnwrittenWith manner.form manner.additions program) }
{
    match canonicalize(alloc, &mut program) {
        Ok(()) => write_with_additions(alloc, program, manner),
        Err(refusal) => {
            drop(program);
            Err(refusal)
        }
    }
}

/// Writes `program` with the additions of `manner` in the form of `manner`, without custom sections.
fn write_with_additions(alloc: Global, program: Program, manner: Manner) -> Result<Vec<u8>, Refusal>
    requires valid { manner.additions.is_observed ≡ true → IsValid program.«module» }
    ensures binary { manner.form ≡ Binary
        → IfOk result (λ bytes. IsExtendedBinary manner.additions program bytes.items) }
    ensures text { (layout : TextLayout) → manner.form ≡ Text layout
        → IfOk result (λ bytes. IsText bytes.items) }
    ensures refused { IfErr result (IsUnextended manner.form manner.additions program) }
{
    let added = added_globals(manner.additions);
    if added != 0 {
        return write_extended(alloc, program, manner, added);
    }
    let bytes = write_in(alloc, &program, manner.form);
    drop(program);
    bytes
}

/// Adds what `manner` says to `program`, `added` globals with it, and writes it in the form of
/// `manner`, without custom sections.
fn write_extended(
    alloc: Global,
    mut program: Program,
    manner: Manner,
    added: usize,
) -> Result<Vec<u8>, Refusal>
    requires valid { manner.additions.is_observed ≡ true → IsValid program.«module» }
    requires added { added ≡ added_globals manner.additions }
    requires some { 0 < added }
    requires few { added ≤ 4 }
    ensures binary { manner.form ≡ Binary
        → IfOk result (λ bytes. IsExtendedBinary manner.additions program bytes.items) }
    ensures text { (layout : TextLayout) → manner.form ≡ Text layout
        → IfOk result (λ bytes. IsText bytes.items) }
    ensures refused { IfErr result (IsUnextended manner.form manner.additions program) }
{
    if program.module().globals().len() > u32::MAX as usize - added {
        return Err(Refusal::Encoding(EncodeError::TooLong));
    }
    match extend(alloc, &mut program, manner.additions) {
        Ok(()) => {
            let bytes = write_in(alloc, &program, manner.form);
            drop(program);
            bytes
        }
        Err(refusal) => Err(Refusal::Module(refusal)),
    }
}

/// Writes `program` in the form `form`.
fn write_in(alloc: Global, program: &Program, form: Form) -> Result<Vec<u8>, Refusal>
    ensures binary { form ≡ Binary → IfOk result (λ bytes.
        IsEncoded program.now.«module» program.now.bodies bytes.items) }
    ensures text { (layout : TextLayout) → form ≡ Text layout
        → IfOk result (λ bytes. IsText bytes.items) }
    ensures refused { IfErr result (IsUnwritten form program.now) }
{
    match form {
        Form::Binary => write_binary(alloc, program),
        Form::Text(layout) => write_text(alloc, program, layout),
    }
}
