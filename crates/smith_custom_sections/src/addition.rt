ghost use Rattle.std.specs.Prelude.{◌≡◌, All, IfOk, IfErr};
ghost use Rattle.smith_binary.specs.declared.error.EncodeError.TheVariants.{Memory};
ghost use Rattle.smith_custom_sections.specs.Additions.{IsAdded};
ghost use Rattle.smith_custom_sections.specs.CustomDraws.{IsShort, custom_sections_at};
ghost use Rattle.smith_custom_sections.specs.CustomSections.{IsPlain};

use crate::custom_section::CustomSection;
use crate::draws::draw_custom_sections;
use crate::insertion::insert_custom_sections;
use smith_binary::EncodeError;
use smith_bytes::Unstructured;
use std::alloc::Global;

// Inserts custom sections of few bytes, which fit the format.
fn insert_short(
    alloc: Global,
    least: u8,
    file: &[u8],
    customs: &[CustomSection],
) -> Result<Vec<u8>, EncodeError>
    requires plain { IsPlain file.now }
    requires short { All IsShort customs.now }
    ensures added { IfOk result (λ bytes. IsAdded least customs.now file.now bytes.items) }
    ensures memory { IfErr result (λ e. e ≡ Memory) }
{
    insert_custom_sections(alloc, least, file, customs)
}

// Returns the bytes of `u`, which stay in `u`.
#[tactic(auto, using(crate::proofs::SourceLemmas::all_taken))]
fn left_bytes<'a>(u: &Unstructured<'a>) -> &'a [u8]
    ensures { result.now ≡ u.now }
{
    u.peek_bytes(u.len()).unwrap()
}

/// Returns `file` with the custom sections that [`draw_custom_sections`] draws from the bytes of `u`
/// among its own, as [`insert_custom_sections`] inserts them. The bytes stay in `u`.
pub fn add_custom_sections(
    alloc: Global,
    least: u8,
    file: &[u8],
    u: &Unstructured<'_>,
) -> Result<Vec<u8>, EncodeError>
    requires plain { IsPlain file.now }
    ensures added { IfOk result (λ bytes.
        IsAdded least (custom_sections_at u.now).0 file.now bytes.items) }
    ensures memory { IfErr result (λ e. e ≡ Memory) }
{
    let mut source = Unstructured::new(left_bytes(u));
    match draw_custom_sections(alloc, &mut source) {
        Ok(customs) => insert_short(alloc, least, file, customs.as_slice()),
        Err(_) => Err(EncodeError::Memory),
    }
}
