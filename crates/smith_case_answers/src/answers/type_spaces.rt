ghost use Rattle.std.specs.Prelude.{◌<◌, ◌^◌, IsTrue, IfOk};
ghost use Rattle.smith_types.specs.Matching.{IsInnerInRange};
ghost use Rattle.smith_types.specs.Sizes.{IsTyped, size_in};
ghost use Rattle.smith_types.specs.GroupedTypes.{MayFollow};

use crate::answer_lines::{or_memory, write_drawn_values, write_line, write_pair, write_types};
use crate::answers::spaces::{MISSING, shape_of_types, types_of};
use crate::answers::subtypes::answer_subtype;
use smith_bytes::Error;
use smith_case::arguments::{value, word};
use smith_case::call::SpaceCall;
use smith_case::shapes::entity_of;
use smith_case::{Case, Fault, Obstacle};
use smith_draw::{TypeUse, add_type, list_types};
use smith_types::{CompositeInnerType, CompositeType, EntityType, Items, SubType, TypeSpace};
use smith_validity::{StandingValue, all_values_hold};
use std::alloc::Global;

/// Appends the result of `call` on the type space of `case`, which has the types of the shape under
/// the key `types`.
pub(crate) fn answer_space(
    alloc: Global,
    case: &Case,
    call: SpaceCall,
    answer: &mut String,
) -> Result<(), Fault> {
    if matches!(call, SpaceCall::PushType | SpaceCall::AddType) {
        return answer_pushes(alloc, case, call, answer);
    }
    let types = types_of(alloc, case)?;
    let told = answer_call(alloc, &types, case, call, answer);
    drop(types);
    told
}

// Appends the indices of the types of `case` as they are added by `call`, and then the types.
fn answer_pushes(
    alloc: Global,
    case: &Case,
    call: SpaceCall,
    answer: &mut String,
) -> Result<(), Fault> {
    let shape = shape_of_types(alloc, case)?;
    let mut types = TypeSpace::new(alloc);
    let told = push_groups(alloc, shape.groups.as_slice(), call, &mut types, answer);
    drop(types);
    drop(shape);
    told
}

// Appends the result of `call` on `types`.
fn answer_call(
    alloc: Global,
    types: &TypeSpace,
    case: &Case,
    call: SpaceCall,
    answer: &mut String,
) -> Result<(), Fault> {
    match call {
        SpaceCall::Subtype(call) => answer_subtype(types, case, call, answer),
        SpaceCall::Depth => answer_depth(types, case, answer),
        SpaceCall::Size => answer_size(types, case, answer),
        SpaceCall::Matches => answer_match(types, case, answer),
        _ => answer_listed(alloc, types, case, answer),
    }
}

// Appends the depth of the type at the index of the argument.
fn answer_depth(types: &TypeSpace, case: &Case, answer: &mut String) -> Result<(), Fault> {
    let index: u32 = value(case, 0)?;
    if index as usize >= types.types().len() {
        return Err(MISSING);
    }
    write_line(types.depth(index), answer)
}

// Appends the size of the entity of the argument, which is written as in shapes.
fn answer_size(types: &TypeSpace, case: &Case, answer: &mut String) -> Result<(), Fault> {
    match entity_of(word(case, 0)?) {
        None => Err(Fault::Argument(0)),
        Some(entity) if is_small(types, &entity) => write_line(types.size_of(&entity), answer),
        Some(_) => Err(MISSING),
    }
}

// The greatest number of parameters, and of results, of a function whose size is written.
const MOST_VALUES: usize = 1000;

// Returns whether the type of `entity` exists and has few values.
fn is_small(types: &TypeSpace, entity: &EntityType) -> bool
    ensures typed { IsTrue result → IsTyped types.now.types entity.now }
    ensures fits { IsTrue result → size_in types.now.types entity.now < 2 ^ 32 }
{
    let EntityType::Func(index) = entity else {
        return true;
    };
    match types.types().get(*index as usize) {
        Some(ty) => match &ty.composite_type.inner {
            CompositeInnerType::Func(function) => {
                function.params.len() <= MOST_VALUES && function.results.len() <= MOST_VALUES
            }
            _ => true,
        },
        None => false,
    }
}

// Appends whether the type at the index of the first argument matches that of the second.
fn answer_match(types: &TypeSpace, case: &Case, answer: &mut String) -> Result<(), Fault> {
    let (a, b) = (composite_at(types, case, 0)?, composite_at(types, case, 1)?);
    let told = if types.composite_type_matches(a, b) {
        "yes"
    } else {
        "no"
    };
    write_line(told, answer)
}

// Returns the composite type at the index of the argument at `place`. It refers only to types that
// exist.
#[tactic(auto, using(smith_validity::proofs::ReferredTypeLemmas::inner_in_range))]
fn composite_at<'a>(
    types: &'a TypeSpace,
    case: &Case,
    place: usize,
) -> Result<&'a CompositeType, Fault>
    ensures { IfOk result (λ composite. IsInnerInRange types.now.types composite.now.inner) }
{
    let listed = types.types();
    let Some(ty) = listed.get(value::<usize>(case, place)?) else {
        return Err(Fault::Argument(place));
    };
    if !all_values_hold(&StandingValue { types: listed }, &ty.composite_type.inner) {
        return Err(MISSING);
    }
    Ok(&ty.composite_type)
}

// Adds the types of `groups` to `types` by `call`. Appends the index of each as it is added, and
// then the types in their groups.
fn push_groups(
    alloc: Global,
    groups: &[Items<SubType>],
    call: SpaceCall,
    types: &mut TypeSpace,
    answer: &mut String,
) -> Result<(), Fault> {
    for group in groups {
        push_group(alloc, group.as_slice(), call, types, answer)?;
    }
    write_types(types, answer)
}

// Adds the type `added`, which may follow, by `call`.
fn push(call: SpaceCall, types: &mut TypeSpace, added: SubType) -> Result<u32, Error>
    requires { MayFollow types.old.types added }
{
    match call {
        SpaceCall::AddType => add_type(types, added),
        _ => types.push_type(added),
    }
}

fn push_group(
    alloc: Global,
    group: &[SubType],
    call: SpaceCall,
    types: &mut TypeSpace,
    answer: &mut String,
) -> Result<(), Fault> {
    for ty in group {
        if !types.may_follow(ty) {
            return Err(Fault::NotCallable(Obstacle::MisplacedType));
        }
        write_pair("index", push(call, types, ty.clone(alloc)?)?, answer)?;
    }
    or_memory(types.push_group())
}

// Appends the types of the case that are suitable for the use that the argument names.
fn answer_listed(
    alloc: Global,
    types: &TypeSpace,
    case: &Case,
    answer: &mut String,
) -> Result<(), Fault> {
    let for_use = match word(case, 0)? {
        "Tag" => TypeUse::Tag,
        "ImportedFunc" => TypeUse::ImportedFunc,
        "DefinedFunc" => TypeUse::DefinedFunc,
        _ => return Err(Fault::Argument(0)),
    };
    write_drawn_values(list_types(alloc, for_use, types.types()), answer)
}
