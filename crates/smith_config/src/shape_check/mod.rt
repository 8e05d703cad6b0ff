//! The check of a shape, one file per fault. It reports the first fault in the order of
//! [`ShapeFault`].

ghost use Rattle.std.specs.Prelude.{◌≡◌, OnOk, IfOk, IfErr, MatchOption};
ghost use Rattle.smith_types.specs.EntitySpaces.{spaces_in};
ghost use Rattle.smith_config.specs.Shapes.{IsShapeValid, IsShort};
ghost use Rattle.smith_config.specs.ShapeFaults.{IsRefused, IsFirstShapeFault};
ghost use Rattle.smith_config.specs.Decided.{IsMade};

mod features;
mod indices;
mod limits;
mod names;
mod omissions;
mod plain;
mod short;
mod spaces;
mod types;

use crate::{Config, Shape};
use features::are_features_enough;
use indices::are_indices_sound;
use limits::are_limits_sound;
use names::are_names_distinct;
use omissions::is_nothing_left_out;
use plain::is_plain_enough;
use short::is_short;
use smith_bytes::{Error, ShapeFault, Which};
use smith_types::{EntitySpaces, TypeSpace, type_space_of};
use spaces::entity_spaces_of;
use std::alloc::Global;
use types::are_types_sound;

impl Shape {
    /// Checks the shape for the use `which` in the configuration `config`.
    ///
    /// Allocates from `alloc`, unless a list of the shape is too long. Takes memory and time linear
    /// in the size of the shape, except for names, which are looked up in a set, and for subtype
    /// tests, each of which takes time logarithmic in the depth of the types.
    ///
    /// # Errors
    ///
    /// Returns [`Error::Shape`] with `which` and the first fault in the order of [`ShapeFault`], or
    /// [`Error::Memory`] if an allocation fails.
    pub fn check(&self, alloc: Global, which: Which, config: &Config) -> Result<(), Error>
        ensures passes { OnOk result (IsShapeValid which config.now self.now) }
        ensures refused { IfErr result (IsRefused which config.now self.now) }
        ensures valid { IsShapeValid which config.now self.now
            → IfErr result (λ e. e ≡ Error.Memory) }
    {
        let found = first_fault(alloc, self, which, config)?;
        match found {
            Some(fault) => Err(Error::Shape(which, fault)),
            None => Ok(()),
        }
    }
}

fn first_fault(
    alloc: Global,
    shape: &Shape,
    which: Which,
    config: &Config,
) -> Result<Option<ShapeFault>, Error>
    ensures found { IfOk result (λ found. MatchOption found
        (IsShapeValid which config.now shape.now) (IsFirstShapeFault which config.now shape.now)) }
    ensures memory { IfErr result (λ e. e ≡ Error.Memory) }
    ensures short { IfErr result (λ e. IsShort shape.now) }
{
    if !is_short(shape) {
        return Ok(Some(ShapeFault::TooLong));
    }
    let made = type_space_of(alloc, shape.groups.as_slice())?;
    match made {
        Some(space) => {
            let spaces = entity_spaces_of(alloc, shape)?;
            later_fault(alloc, shape, which, config, &space, &spaces)
        }
        None => Ok(Some(ShapeFault::BadType)),
    }
}

// Returns the first fault of `shape`, given its types `space` and its index spaces `spaces`.
// Requires that no list of `shape` is too long.
fn later_fault(
    alloc: Global,
    shape: &Shape,
    which: Which,
    config: &Config,
    space: &TypeSpace,
    spaces: &EntitySpaces,
) -> Result<Option<ShapeFault>, Error>
    requires short { IsShort shape.now }
    requires made { IsMade shape.now space.now (spaces_in spaces.now) }
    ensures found { IfOk result (λ found. MatchOption found
        (IsShapeValid which config.now shape.now) (IsFirstShapeFault which config.now shape.now)) }
    ensures memory { IfErr result (λ e. e ≡ Error.Memory) }
{
    let exports = shape.exports.as_slice();
    if !are_types_sound(space, spaces) {
        return Ok(Some(ShapeFault::BadType));
    }
    if !are_indices_sound(space, spaces, exports) {
        return Ok(Some(ShapeFault::Index));
    }
    if !are_limits_sound(space, spaces) {
        return Ok(Some(ShapeFault::Limit));
    }
    let features = config.features();
    if !are_features_enough(which, features, space, spaces) {
        return Ok(Some(ShapeFault::Feature));
    }
    let distinct = are_names_distinct(alloc, exports)?;
    if !distinct {
        return Ok(Some(ShapeFault::DuplicateExport));
    }
    if !is_plain_enough(which, space, spaces) {
        return Ok(Some(ShapeFault::NotPlain));
    }
    if !is_nothing_left_out(space, spaces) {
        return Ok(Some(ShapeFault::LeftOut));
    }
    Ok(None)
}
