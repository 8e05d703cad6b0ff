ghost use Rattle.std.specs.Prelude.{◌≡◌, IfOk, IfErr, All};
ghost use Rattle.smith_bytes.specs.Source.{KeepsPieces};
ghost use Rattle.smith_custom_sections.specs.CustomDraws.{IsShort, bytes_at, function_name_at};
ghost use Rattle.smith_custom_sections.specs.CustomDraws.{custom_section_at, custom_sections_at};
ghost use Rattle.smith_custom_sections.specs.CustomDraws.{name_section_at, plain_section_at};

use crate::custom_section::CustomSection;
use smith_bytes::{Error, Unstructured, goes_on, limited_string};
use smith_types::{Items, Name};
use std::alloc::Global;

// The greatest number of custom sections.
const MOST_SECTIONS: usize = 8;

// The greatest number of sections of a file before a custom section.
const LAST_PLACE: usize = 13;

// The greatest number of bytes of a drawn name.
const LONGEST_NAME: usize = 100;

// The greatest number of bytes after a name, except a subsection of function names.
const MOST_BYTES: usize = 1000;

// Draws at most a thousand bytes.
#[tactic(auto, unfolding(crate::specs::CustomDraws::bytes_at))]
fn draw_bytes(alloc: Global, u: &mut Unstructured<'_>) -> Result<Items<u8>, Error>
    ensures exact { IfOk result (λ bytes. bytes_at u.old ≡ (bytes, u.new)) }
    ensures memory { IfErr result (λ e. e ≡ Error.Memory) }
    ensures left { KeepsPieces u.old u.new }
{
    let count = u.arbitrary_len().min(MOST_BYTES);
    Items::from_slice(alloc, u.bytes(count).unwrap())
}

// Draws an index and a name, and returns a subsection of function names with these alone (Appendix,
// Custom Sections, Function Names).
#[tactic(auto, unfolding(crate::specs::CustomDraws::function_name_at))]
fn draw_function_name(alloc: Global, u: &mut Unstructured<'_>) -> Result<Items<u8>, Error>
    ensures exact { IfOk result (λ bytes. function_name_at u.old ≡ (bytes, u.new)) }
    ensures memory { IfErr result (λ e. e ≡ Error.Memory) }
    ensures left { KeepsPieces u.old u.new }
{
    let index = u.int_in_range(0u8..=9);
    let name = limited_string(alloc, LONGEST_NAME, u)?;
    let length = name.len() as u8;
    let mut bytes = Items::from_slice(alloc, &[1, length + 3, 1, index, length])?;
    bytes.extend_from_slice(name.as_str().as_bytes())?;
    Ok(bytes)
}

// Draws the bytes of a name section at `place`: a subsection of function names if `is_formed` is set,
// else any bytes.
#[tactic(auto, unfolding(crate::specs::CustomDraws::name_section_at))]
fn draw_name_section(
    alloc: Global,
    place: usize,
    is_formed: bool,
    u: &mut Unstructured<'_>,
) -> Result<CustomSection, Error>
    ensures exact { IfOk result (λ custom. name_section_at place is_formed u.old ≡ (custom, u.new)) }
    ensures memory { IfErr result (λ e. e ≡ Error.Memory) }
    ensures left { KeepsPieces u.old u.new }
{
    let bytes = if is_formed {
        draw_function_name(alloc, u)?
    } else {
        draw_bytes(alloc, u)?
    };
    let name = Name::from_text(alloc, "name")?;
    Ok(CustomSection { place, name, bytes })
}

// Draws a custom section at `place`, of any name and bytes.
#[tactic(auto, unfolding(crate::specs::CustomDraws::plain_section_at))]
fn draw_plain_section(
    alloc: Global,
    place: usize,
    u: &mut Unstructured<'_>,
) -> Result<CustomSection, Error>
    ensures exact { IfOk result (λ custom. plain_section_at place u.old ≡ (custom, u.new)) }
    ensures memory { IfErr result (λ e. e ≡ Error.Memory) }
    ensures left { KeepsPieces u.old u.new }
{
    let name = Name::from_string(limited_string(alloc, LONGEST_NAME, u)?);
    let bytes = draw_bytes(alloc, u)?;
    Ok(CustomSection { place, name, bytes })
}

// Draws a custom section: its place, its kind and its content.
#[tactic(auto, unfolding(crate::specs::CustomDraws::custom_section_at))]
fn draw_custom_section(alloc: Global, u: &mut Unstructured<'_>) -> Result<CustomSection, Error>
    ensures exact { IfOk result (λ custom. custom_section_at u.old ≡ (custom, u.new)) }
    ensures memory { IfErr result (λ e. e ≡ Error.Memory) }
    ensures left { KeepsPieces u.old u.new }
{
    let place = u.int_in_range(0..=LAST_PLACE);
    match u.int_in_range(0u8..=7) {
        6 => draw_name_section(alloc, place, false, u),
        7 => draw_name_section(alloc, place, true, u),
        _ => draw_plain_section(alloc, place, u),
    }
}

/// Draws at most eight custom sections from the bytes of `u`, allocated from `alloc`. Each comes
/// after up to thirteen sections of a file. One in four is a name section (Appendix, Custom
/// Sections, Name Section): half of these have a name for one of the first ten functions, the other
/// half any bytes.
pub fn draw_custom_sections(
    alloc: Global,
    u: &mut Unstructured<'_>,
) -> Result<Items<CustomSection>, Error>
    ensures exact { IfOk result (λ customs. custom_sections_at u.old ≡ (customs, u.new)) }
    ensures short { IfOk result (All IsShort) }
    ensures memory { IfErr result (λ e. e ≡ Error.Memory) }
    ensures left { KeepsPieces u.old u.new }
{
    draw_sections(alloc, u)
}

// Draws at most eight custom sections.
#[tactic(auto, unfolding(crate::specs::CustomDraws::custom_sections_at))]
fn draw_sections(alloc: Global, u: &mut Unstructured<'_>) -> Result<Items<CustomSection>, Error>
    ensures exact { IfOk result (λ customs. custom_sections_at u.old ≡ (customs, u.new)) }
    ensures memory { IfErr result (λ e. e ≡ Error.Memory) }
    ensures left { KeepsPieces u.old u.new }
{
    let mut customs = Items::new(alloc);
    for made in 0..MOST_SECTIONS {
        if !goes_on(u, made, 0) {
            return Ok(customs);
        }
        customs.push(draw_custom_section(alloc, u)?)?;
    }
    Ok(customs)
}
