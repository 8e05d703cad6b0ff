ghost use Rattle.std.specs.Prelude.{IfOk, IfErr, IfSome, IsSome, ◌≡◌};
ghost use Rattle.smith_binary_program.specs.Valid.{IsValidBinary};
ghost use Rattle.smith_decode.specs.ModuleReadings.{module_at};
ghost use Rattle.smith_decode.specs.Modules.{IsModuleBinary, syntax_of};
ghost use Rattle.smith_decode.specs.declared.modules.Module as decoded;
ghost use Rattle.smith_wrong.specs.Changes.{IsChangeOf, family_of};
ghost use Rattle.smith_wrong_bytes.specs.Splices.{HasPreamble, spliced};
ghost use Rattle.smith_wrong.specs.declared.changes.Change.TheVariants as change;
ghost use Rattle.smith_wrong.specs.declared.families.Family.TheVariants as families;
ghost use Rattle.smith_wrong.specs.declared.refusal.WrongRefusal.TheVariants as refusal;

use crate::families::Family;
use crate::refusal::WrongRefusal;
use smith_bytes::Unstructured;
use smith_decode::{DecodeError, Module, Place, decode};
use smith_encode::{EncodeFault, encode};
use smith_types::WasmFeatures;
use smith_wrong_bytes::{BytesFamily, Splice, break_preamble, draw_splice, splice};
use smith_wrong_module::{ModuleFamily, draw_change};
use std::alloc::Global;

/// The one change by which a file differs from a valid one.
#[derive(Debug, Drop)]
pub enum Change {
    /// The item at this place of the module is another one.
    Item(ModuleFamily, Place),
    /// These bytes are replaced.
    Bytes(BytesFamily, Splice),
}

impl Change {
    /// Returns the family of the change.
    pub fn family(&self) -> Family
        ensures { result ≡ family_of self.now }
    {
        match self {
            Change::Item(family, _) => Family::Module(*family),
            Change::Bytes(family, _) => Family::Bytes(*family),
        }
    }
}

/// A file with one change, of which it is not known yet whether it breaks a rule.
#[derive(Drop)]
pub(crate) struct ChangedFile {
    /// The bytes of the file.
    pub(crate) bytes: Vec<u8>,
    /// What is changed.
    pub(crate) change: Change,
}

/// Draws one change of `family` from the bytes of `u`, and makes it in `twin`. Returns `None` if there is
/// nothing to change, or the change has no spelling. Fails for lack of memory alone.
pub(crate) fn draw_file(
    alloc: Global,
    twin: &[u8],
    family: Family,
    u: &mut Unstructured<'_>,
) -> Result<Option<ChangedFile>, WrongRefusal>
    ensures change { IfOk result (λ drawn. IfSome drawn (λ one.
        IsChangeOf one.change twin.now one.bytes.items)) }
    ensures family { IfOk result (λ drawn. IfSome drawn (λ one. family_of one.change ≡ family)) }
    ensures memory { IfErr result (λ e. e ≡ refusal.Memory) }
{
    match family {
        Family::Module(family) => draw_item(alloc, twin, family, u),
        Family::Bytes(family) => draw_bytes(alloc, twin, family, u),
    }
}

// Draws one change of an item of the module that `twin` is.
fn draw_item(
    alloc: Global,
    twin: &[u8],
    family: ModuleFamily,
    u: &mut Unstructured<'_>,
) -> Result<Option<ChangedFile>, WrongRefusal>
    ensures change { IfOk result (λ drawn. IfSome drawn (λ one.
        IsChangeOf one.change twin.now one.bytes.items)) }
    ensures family { IfOk result (λ drawn. IfSome drawn (λ one. family_of one.change ≡ families.Module family)) }
    ensures memory { IfErr result (λ e. e ≡ refusal.Memory) }
{
    let mut module = match decode(alloc, twin, WasmFeatures::every()) {
        Ok(module) => module,
        Err(DecodeError::Memory) => return Err(WrongRefusal::Memory),
        Err(_) => return Ok(None),
    };
    match draw_change(alloc, family, &mut module, u) {
        Ok(Some(place)) => write_file(alloc, &module, Change::Item(family, place)),
        Ok(None) => Ok(None),
        Err(_) => Err(WrongRefusal::Memory),
    }
}

// Writes `module`, which has this `change`. Returns `None` if it has no spelling.
fn write_file(
    alloc: Global,
    module: &Module,
    change: Change,
) -> Result<Option<ChangedFile>, WrongRefusal>
    ensures spelled { IfOk result (λ written. IfSome written (λ one.
        IsModuleBinary (syntax_of «module».now) one.bytes.items)) }
    ensures same { IfOk result (λ written. IfSome written (λ one. one.change ≡ change)) }
    ensures memory { IfErr result (λ e. e ≡ refusal.Memory) }
{
    match encode(alloc, module) {
        Ok(bytes) => Ok(Some(ChangedFile { bytes, change })),
        Err(EncodeFault::Memory) => Err(WrongRefusal::Memory),
        Err(EncodeFault::TooLong | EncodeFault::NoSpelling) => Ok(None),
    }
}

// Draws one change of the bytes of `twin`.
fn draw_bytes(
    alloc: Global,
    twin: &[u8],
    family: BytesFamily,
    u: &mut Unstructured<'_>,
) -> Result<Option<ChangedFile>, WrongRefusal>
    ensures change { IfOk result (λ drawn. IfSome drawn (λ one.
        IsChangeOf one.change twin.now one.bytes.items)) }
    ensures family { IfOk result (λ drawn. IfSome drawn (λ one. family_of one.change ≡ families.Bytes family)) }
    ensures memory { IfErr result (λ e. e ≡ refusal.Memory) }
{
    match draw_splice(alloc, family, twin, u) {
        Ok(Some(drawn)) => splice_file(alloc, twin, family, drawn),
        Ok(None) => Ok(None),
        Err(_) => Err(WrongRefusal::Memory),
    }
}

// Makes the change `drawn`, of `family`, in `twin`.
fn splice_file(
    alloc: Global,
    twin: &[u8],
    family: BytesFamily,
    drawn: Splice,
) -> Result<Option<ChangedFile>, WrongRefusal>
    ensures change { IfOk result (λ made. IfSome made (λ one. one.change ≡ change.Bytes family drawn)) }
    ensures bytes { IfOk result (λ made. IfSome made (λ one. one.bytes.items ≡ spliced twin.now drawn)) }
    ensures found { IfOk result IsSome }
    ensures memory { IfErr result (λ e. e ≡ refusal.Memory) }
{
    match splice(alloc, twin, &drawn) {
        Ok(bytes) => Ok(Some(ChangedFile {
            bytes,
            change: Change::Bytes(family, drawn),
        })),
        Err(_) => Err(WrongRefusal::Memory),
    }
}

/// Draws one change of the first eight bytes of `twin`, of `family`, after which it is no module. Returns
/// `None` if the family has no such changes. Fails for lack of memory alone.
pub(crate) fn draw_preamble(
    alloc: Global,
    twin: &[u8],
    family: BytesFamily,
    u: &mut Unstructured<'_>,
) -> Result<Option<ChangedFile>, WrongRefusal>
    requires { IsValidBinary twin.now }
    ensures change { IfOk result (λ drawn. IfSome drawn (λ one.
        IsChangeOf one.change twin.now one.bytes.items)) }
    ensures family { IfOk result (λ drawn. IfSome drawn (λ one. family_of one.change ≡ families.Bytes family)) }
    ensures broken { IfOk result (λ drawn. IfSome drawn (λ one.
        (m : decoded.Module) → module_at one.bytes.items ≡ Ok m → ⊥)) }
    ensures found { HasPreamble family → IfOk result IsSome }
    ensures memory { IfErr result (λ e. e ≡ refusal.Memory) }
{
    match break_preamble(alloc, family, twin, u) {
        Ok(Some(drawn)) => splice_file(alloc, twin, family, drawn),
        Ok(None) => Ok(None),
        Err(_) => Err(WrongRefusal::Memory),
    }
}
