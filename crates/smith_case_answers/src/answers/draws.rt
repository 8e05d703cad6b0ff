ghost use Rattle.smith_config.specs.Sanitized.{IsSanitized};
ghost use Rattle.smith_draw_types.specs.Callers.{PassesButImports};

use crate::answer_lines::write_rest;
use crate::answers::constants::answer_constant;
use crate::answers::entities::answer_entity;
use crate::answers::free_types::answer_free_type;
use crate::answers::matching::answer_matching;
use crate::answers::numbers::answer_number;
use crate::answers::spaces::{Over, spaces_of, types_of};
use crate::answers::types::answer_types;
use smith_bytes::Unstructured;
use smith_case::call::DrawCall;
use smith_case::{Case, Fault, Obstacle};
use smith_config::Config;
use smith_types::TypeSpace;
use std::alloc::Global;

/// Appends the result of the draw `call` from `input` over the types of `case`, and the bytes left.
/// Sanitises `config` first. Fails with `NotCallable` if `config` does not pass its check.
#[tactic(auto, using(smith_draw_types::proofs::CallerLemmas::passes_but_imports))]
pub(crate) fn answer_draw(
    alloc: Global,
    case: &Case,
    call: DrawCall,
    config: &mut Config,
    input: &[u8],
    answer: &mut String,
) -> Result<(), Fault> {
    config.sanitize();
    if config.check().is_err() {
        return Err(Fault::NotCallable(Obstacle::InvalidConfig));
    }
    let mut u = Unstructured::new(input);
    let mut types = types_of(alloc, case)?;
    let told = answer_call(alloc, &mut types, case, call, config, &mut u, answer);
    drop(types);
    told?;
    write_rest(&u, answer)
}

// Appends the result of the draw `call` over `types`.
fn answer_call(
    alloc: Global,
    types: &mut TypeSpace,
    case: &Case,
    call: DrawCall,
    config: &Config,
    u: &mut Unstructured<'_>,
    answer: &mut String,
) -> Result<(), Fault>
    requires passes { PassesButImports config.now }
    requires sanitized { IsSanitized config.now }
{
    let spaces = spaces_of(types);
    let over = Over {
        alloc,
        case,
        config,
        spaces: &spaces,
    };
    match call {
        DrawCall::Types(call) => answer_types(alloc, case, call, config, types, u, answer),
        DrawCall::Free(call) => answer_free_type(&over, call, u, answer),
        DrawCall::Matching(call) => answer_matching(&over, call, u, answer),
        DrawCall::Entity(call) => answer_entity(&over, call, u, answer),
        DrawCall::Constant(call) => answer_constant(&over, call, u, answer),
        DrawCall::Number(call) => answer_number(case, call, u, answer),
    }
}
