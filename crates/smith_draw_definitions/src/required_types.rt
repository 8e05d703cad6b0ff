ghost use Rattle.std.specs.Prelude.{◌≡◌, ◌<◌, ◌+◌, ◌^◌, true, None, Some, length, slice_get};
ghost use Rattle.std.specs.Prelude.{MatchOption, IfOk, IfErr, OnOk};
ghost use Rattle.smith_types.specs.Groups.{space_of};
ghost use Rattle.smith_config.specs.Shapes.{shape_types};
ghost use Rattle.smith_draw_definitions.specs.Required.{HasNoSupertypes};
ghost use Rattle.smith_draw_definitions.specs.RequiredExports.{with_own_group, with_type_of, of_own_type};
ghost use Rattle.smith_draw_definitions.specs.RequiredExports.{types_over, entity_over};

use smith_bytes::Error;
use smith_config::Shape;
use smith_types::{CloneIn, EntityType, Items, SubType, TypeSpace};
use std::alloc::Global;

/// Finds the type at `index` among the types of `groups`, if it exists.
fn type_at(groups: &[Items<SubType>], index: usize) -> Option<&SubType>
    ensures { MatchOption result (slice_get (space_of groups.now).types index ≡ None) (λ ty.
        slice_get (space_of groups.now).types index ≡ Some ty.now) }
{
    let mut left = index;
    for group in groups {
        if left < group.len() {
            return Some(&group.as_slice()[left]);
        }
        left -= group.len();
    }
    None
}

/// Adds the type at `index` of `groups` to `types`, in a group of its own, and returns its new
/// index.
fn push_own_type(
    alloc: Global,
    groups: &[Items<SubType>],
    index: u32,
    types: &mut TypeSpace,
) -> Result<u32, Error>
    requires room { length types.old.types + 1 < 2 ^ 32 }
    requires roots { HasNoSupertypes (space_of groups.now).types }
    ensures types { OnOk result
        (types.new ≡ with_own_group types.old (slice_get (space_of groups.now).types index)) }
    ensures index { IfOk result (λ own. own ≡ length types.old.types) }
    ensures memory { IfErr result (λ e. e ≡ Error.Memory) }
{
    let own = types.types().len() as u32;
    let Some(ty) = type_at(groups, index as usize) else {
        return Ok(own);
    };
    types.push_type(ty.clone_in(alloc)?)?;
    types.push_group()?;
    Ok(own)
}

/// Returns the entity `theirs` of `shape` with a type of its own: the type of a function or a tag
/// is added to `types`.
fn of_own_type(
    alloc: Global,
    shape: &Shape,
    theirs: EntityType,
    types: &mut TypeSpace,
) -> Result<EntityType, Error>
    requires room { length types.old.types + 1 < 2 ^ 32 }
    requires roots { HasNoSupertypes (shape_types shape.now) }
    ensures types { OnOk result
        (types.new ≡ with_type_of (shape_types shape.now) types.old theirs) }
    ensures entity { IfOk result (λ own. own ≡ of_own_type types.old theirs) }
    ensures memory { IfErr result (λ e. e ≡ Error.Memory) }
{
    let groups = shape.groups.as_slice();
    match theirs {
        EntityType::Func(index) => Ok(EntityType::Func(push_own_type(
            alloc, groups, index, types,
        )?)),
        EntityType::Tag(index) => Ok(EntityType::Tag(push_own_type(alloc, groups, index, types)?)),
        other => Ok(other),
    }
}

/// Returns the entity `theirs` of `shape` over `types`. If `own_types` is set, its type is added to
/// `types`. Otherwise the type exists already, and the entity is returned as it is.
pub(crate) fn entity_over(
    alloc: Global,
    own_types: bool,
    shape: &Shape,
    theirs: EntityType,
    types: &mut TypeSpace,
) -> Result<EntityType, Error>
    requires room { length types.old.types + 1 < 2 ^ 32 }
    requires roots { own_types ≡ true → HasNoSupertypes (shape_types shape.now) }
    ensures types { OnOk result
        (types.new ≡ types_over own_types (shape_types shape.now) types.old theirs) }
    ensures entity { IfOk result (λ over. over ≡ entity_over own_types types.old theirs) }
    ensures memory { IfErr result (λ e. e ≡ Error.Memory) }
{
    if own_types {
        return of_own_type(alloc, shape, theirs, types);
    }
    Ok(theirs)
}
