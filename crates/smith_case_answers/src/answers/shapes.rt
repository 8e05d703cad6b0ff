use crate::answer_lines::{write_bytes, write_check, write_line, write_refusal};
use crate::answers::copies::answer_copies;
use smith_bytes::{Error, Which};
use smith_case::arguments::word;
use smith_case::call::ShapeCall;
use smith_case::shapes::shape_named;
use smith_case::{Case, Fault, text_or};
use smith_config::{Config, Shape};
use smith_spell::spell;
use smith_types::Items;
use std::alloc::Global;

/// Appends the result of `call` on the shape under the key `shape` of `case`, under `config`.
pub(crate) fn answer_shape(
    alloc: Global,
    case: &Case,
    call: ShapeCall,
    config: &Config,
    answer: &mut String,
) -> Result<(), Fault> {
    let shape = shape_named(alloc, text_or(&case.shapes.shape, ""))?;
    let told = answer_about(alloc, case, call, config, &shape, answer);
    drop(shape);
    told
}

fn answer_about(
    alloc: Global,
    case: &Case,
    call: ShapeCall,
    config: &Config,
    shape: &Shape,
    answer: &mut String,
) -> Result<(), Fault> {
    match call {
        ShapeCall::Check => write_check(shape.check(alloc, which_of(case)?, config), answer),
        ShapeCall::Spell => write_spelling(spelling(alloc, config, shape), answer),
        ShapeCall::Copies => answer_copies(alloc, shape, answer),
    }
}

// Returns the use of a shape that the first argument names.
fn which_of(case: &Case) -> Result<Which, Fault> {
    match word(case, 0)? {
        "AvailableImports" => Ok(Which::AvailableImports),
        "Exports" => Ok(Which::Exports),
        "ModuleShape" => Ok(Which::ModuleShape),
        _ => Err(Fault::Argument(0)),
    }
}

// Returns the bytes that spell the groups and the functions of `shape`.
fn spelling(alloc: Global, config: &Config, shape: &Shape) -> Result<Option<Items<u8>>, Error> {
    spell(
        alloc,
        config,
        shape.groups.as_slice(),
        shape.funcs.as_slice(),
    )
}

// Appends the bytes of a spelling, or `none`.
fn write_spelling(
    spelling: Result<Option<Items<u8>>, Error>,
    answer: &mut String,
) -> Result<(), Fault> {
    match spelling {
        Ok(Some(bytes)) => write_bytes("spelled", bytes.as_slice(), answer),
        Ok(None) => write_line("none", answer),
        Err(refusal) => write_refusal(refusal, answer),
    }
}
