ghost use Rattle.smith_config.specs.Sanitized.{IsSanitized};
ghost use Rattle.smith_draw_types.specs.Callers.{PassesButImports};

use crate::answer_lines::{write_line, write_refusal, write_types};
use smith_bytes::Unstructured;
use smith_case::arguments::value;
use smith_case::call::TypesCall;
use smith_case::{Case, Fault, Obstacle};
use smith_config::Config;
use smith_draw::{Entities, arbitrary_rec_group, arbitrary_types, clone_rec_group};
use smith_types::TypeSpace;
use std::alloc::Global;

/// Appends `types` with the types that `call` draws after them.
pub(crate) fn answer_types(
    alloc: Global,
    case: &Case,
    call: TypesCall,
    config: &Config,
    types: &mut TypeSpace,
    u: &mut Unstructured<'_>,
    answer: &mut String,
) -> Result<(), Fault>
    requires passes { PassesButImports config.now }
    requires sanitized { IsSanitized config.now }
{
    match call {
        TypesCall::Arbitrary => {
            if let Err(refusal) = arbitrary_types(alloc, config, types, &Entities::none(), u) {
                return write_refusal(refusal, answer);
            }
        }
        TypesCall::RecGroup => draw_groups(alloc, case, config, types, u)?,
        TypesCall::CloneRecGroup => draw_clone(alloc, config, types, u, answer)?,
    }
    write_types(types, answer)
}

// Adds a group to `types` for each argument, which says whether the group may be empty. Without
// arguments, adds one group that may be empty.
fn draw_groups(
    alloc: Global,
    case: &Case,
    config: &Config,
    types: &mut TypeSpace,
    u: &mut Unstructured<'_>,
) -> Result<(), Fault>
    requires passes { PassesButImports config.now }
    requires sanitized { IsSanitized config.now }
{
    if case.args().is_empty() {
        return draw_group(alloc, true, config, types, u);
    }
    for place in 0..case.args().len() {
        draw_group(alloc, value(case, place)?, config, types, u)?;
    }
    Ok(())
}

// Adds a group to `types`.
fn draw_group(
    alloc: Global,
    allow_empty: bool,
    config: &Config,
    types: &mut TypeSpace,
    u: &mut Unstructured<'_>,
) -> Result<(), Fault>
    requires passes { PassesButImports config.now }
    requires sanitized { IsSanitized config.now }
{
    if types.types().len() >= config.max_types {
        return Err(Fault::NotCallable(Obstacle::NoFurtherType));
    }
    Ok(arbitrary_rec_group(alloc, config, types, &Entities::none(), allow_empty, u)?)
}

// Adds a clone of one of the groups, which may be empty, to `types`. Appends whether it is cloned.
fn draw_clone(
    alloc: Global,
    config: &Config,
    types: &mut TypeSpace,
    u: &mut Unstructured<'_>,
    answer: &mut String,
) -> Result<(), Fault>
    requires { PassesButImports config.now }
{
    if types.types().len() >= config.max_types || types.rec_groups().is_empty() {
        return Err(Fault::NotCallable(Obstacle::NothingToClone));
    }
    write_line(
        clone_rec_group(alloc, config, types, &Entities::none(), true, u)?,
        answer,
    )
}
