ghost use Rattle.std.specs.Prelude.{◌≡◌, [], false};
ghost use Rattle.smith_types.specs.Syntax.value_type.ValType.TheVariants.{I32};

use crate::answer_lines::or_memory;
use smith_case::shapes::shape_named;
use smith_case::{Case, Fault, Obstacle, text_or};
use smith_config::{Config, Shape};
use smith_draw::{Entities, Spaces};
use smith_types::{GlobalType, Items, SubType, TypeSpace, ValType};
use std::alloc::Global;

// The name of the shape without types.
const NO_TYPES: &str = "nothing";

/// The fault of a name of a type that does not exist.
pub(crate) const MISSING: Fault = Fault::NotCallable(Obstacle::MissingType);

/// The context of a draw of a case.
#[derive(Clone, Copy)]
pub(crate) struct Over<'a> {
    /// The allocator.
    pub(crate) alloc: Global,
    /// The case.
    pub(crate) case: &'a Case,
    /// The configuration.
    pub(crate) config: &'a Config,
    /// The types, without entities.
    pub(crate) spaces: &'a Spaces<'a>,
}

/// Returns the types `types`, without entities.
pub(crate) fn spaces_of<'a>(types: &'a TypeSpace) -> Spaces<'a>
    ensures types { result.types.now ≡ types.now }
    ensures functions { result.entities.funcs.now ≡ [] }
    ensures globals { result.entities.globals.now ≡ [] }
    ensures imported { result.entities.imported_globals ≡ 0 }
{
    Spaces {
        types,
        entities: Entities::none(),
    }
}

/// Returns the type of an unshared global of an `i32`.
pub(crate) const fn number_global(mutable: bool) -> GlobalType
    ensures value { result.val_type ≡ I32 }
    ensures shared { result.shared ≡ false }
{
    GlobalType {
        val_type: ValType::I32,
        mutable,
        shared: false,
    }
}

/// Returns the types `types` and the globals `globals`, of which two are imported.
pub(crate) fn with_globals<'a>(types: &'a TypeSpace, globals: &'a [GlobalType]) -> Spaces<'a>
    ensures types { result.types.now ≡ types.now }
    ensures functions { result.entities.funcs.now ≡ [] }
    ensures globals { result.entities.globals.now ≡ globals.now }
    ensures imported { result.entities.imported_globals ≡ 2 }
{
    Spaces {
        types,
        entities: Entities {
            globals,
            imported_globals: 2,
            ..Entities::none()
        },
    }
}

/// Returns the shape under the key `types` of `case`, or one without types.
pub(crate) fn shape_of_types(alloc: Global, case: &Case) -> Result<Shape, Fault> {
    shape_named(alloc, text_or(&case.shapes.types, NO_TYPES))
}

/// Returns the types of the shape under the key `types` of `case`.
pub(crate) fn types_of(alloc: Global, case: &Case) -> Result<TypeSpace, Fault> {
    let shape = shape_of_types(alloc, case)?;
    let mut types = TypeSpace::new(alloc);
    let added = add_groups(alloc, shape.groups.as_slice(), &mut types);
    drop(shape);
    match added {
        Ok(()) => Ok(types),
        Err(fault) => {
            drop(types);
            Err(fault)
        }
    }
}

// Adds the groups `groups` to `types`.
fn add_groups(
    alloc: Global,
    groups: &[Items<SubType>],
    types: &mut TypeSpace,
) -> Result<(), Fault> {
    for group in groups {
        add_group(alloc, group.as_slice(), types)?;
    }
    Ok(())
}

// Adds a group of the types `members` to `types`.
fn add_group(alloc: Global, members: &[SubType], types: &mut TypeSpace) -> Result<(), Fault> {
    for member in members {
        if !types.may_follow(member) {
            return Err(Fault::NotCallable(Obstacle::MisplacedType));
        }
        let _index = types.push_type(member.clone(alloc)?)?;
    }
    or_memory(types.push_group())
}
