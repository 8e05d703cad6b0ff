ghost use Rattle.std.specs.Prelude.{◌≡◌, ◌<◌, ◌+◌, ◌^◌, None, Some, length, slice_get, IsTrue};
ghost use Rattle.std.specs.Prelude.{IsSome, IfOk, All, false};
ghost use Rattle.smith_bytes.specs.Takes.{Takes, SpellsSuch};
ghost use Rattle.smith_types.specs.GroupedTypes.{MayFollow};
ghost use Rattle.smith_types.specs.OpenTypes.{AreTypesOpen};
ghost use Rattle.smith_types.specs.ValidTypes.{values_of, IsTypeValid};
ghost use Rattle.smith_config.specs.Features.{features_of};
ghost use Rattle.smith_config.specs.Sanitized.{IsSanitized};
ghost use Rattle.smith_draw_types.specs.Drawing.{AlwaysDraws, Draws};
ghost use Rattle.smith_config.specs.Granted.{HasGranted, AreTypesGranted};
ghost use Rattle.smith_draw_types.specs.Grounding.{functions_of, over, standing_in};
ghost use Rattle.smith_draw_types.specs.KeptGrounds.{AreEarlyGrounds};
ghost use Rattle.smith_draw_types.specs.SubTypes.{
  supertypes,
  is_final_at,
  root_type_at,
  sub_type_below_at,
  sub_type_of_at,
  supertype_wanted_at,
  sub_type_at,
  HasSuperType,
  SomeMayHaveSubtypes,
};
ghost use Rattle.smith_draw_types.specs.Spelling.{IsRoot, RefersTo, SpellsSubType};

use crate::call_grounds::CallGrounds;
use crate::choice::choose;
use crate::composite_type::draw_composite_type;
use crate::early_grounds::EarlyGrounds;
use crate::matching_composite::draw_matching_composite_type;
use crate::reference_scope::ReferenceScope;
use crate::spaces::{Entities, Spaces, orderly};
use smith_bytes::{Error, Unstructured};
use smith_config::Config;
use smith_types::{SubType, TypeSpace};
use std::alloc::Global;

/// Returns the indices of the types that may have subtypes.
fn supertypes(space: &TypeSpace) -> &[u32]
    ensures { result.now ≡ supertypes space.now.types }
{
    space.extensible()
}

/// Draws whether a type is final. Without garbage collection it is.
fn is_final(config: &Config, u: &mut Unstructured<'_>) -> bool
    ensures { AlwaysDraws (is_final_at config.now u.old) result u.old u.new }
{
    if config.gc_enabled {
        return u.arbitrary();
    }
    true
}

/// Draws a type without a supertype.
#[tactic(auto, unfolding(crate::specs::SubTypes::root_type_at))]
fn draw_root_type(
    alloc: Global,
    config: &Config,
    standing: &ReferenceScope<'_>,
    limit: u32,
    u: &mut Unstructured<'_>,
) -> Result<SubType, Error>
    ensures { Draws (root_type_at config.now standing.now limit u.old) result u.old u.new }
{
    let is_final = is_final(config, u);
    let composite_type = draw_composite_type(alloc, config, standing, limit, u)?;
    Ok(SubType {
        is_final,
        supertype: None,
        composite_type,
    })
}

/// Draws a subtype of the type `index`, or a type without a supertype if the type `index` does not
/// exist.
fn draw_sub_type_below(
    alloc: Global,
    config: &Config,
    standing: &ReferenceScope<'_>,
    limit: u32,
    index: u32,
    u: &mut Unstructured<'_>,
) -> Result<SubType, Error>
    ensures { Draws (sub_type_below_at config.now standing.now limit index
        (slice_get standing.now.types index) u.old) result u.old u.new }
{
    match standing.types().types().get(index as usize) {
        Some(supertype) => {
            let upper = &supertype.composite_type;
            let composite_type = draw_matching_composite_type(
                alloc, config, standing, limit, upper, u,
            )?;
            let is_final = u.arbitrary();
            Ok(SubType {
                is_final,
                supertype: Some(index),
                composite_type,
            })
        }
        None => draw_root_type(alloc, config, standing, limit, u),
    }
}

/// Chooses one of `indices` and draws a subtype of that type.
#[tactic(auto, unfolding(crate::specs::SubTypes::sub_type_of_at))]
fn draw_sub_type_of(
    alloc: Global,
    config: &Config,
    standing: &ReferenceScope<'_>,
    limit: u32,
    indices: &[u32],
    u: &mut Unstructured<'_>,
) -> Result<SubType, Error>
    requires { 0 < length indices.now }
    ensures { Draws (sub_type_of_at config.now standing.now limit indices.now u.old)
        result u.old u.new }
{
    let index = choose(indices, u);
    draw_sub_type_below(alloc, config, standing, limit, index, u)
}

/// Draws whether to choose a supertype, if `count` types may have subtypes.
fn is_supertype_wanted(config: &Config, count: usize, u: &mut Unstructured<'_>) -> bool
    ensures draws { AlwaysDraws (supertype_wanted_at config.now count u.old) result u.old u.new }
    ensures some { IsTrue result → 0 < count }
{
    if !config.gc_enabled || count == 0 {
        return false;
    }
    u.ratio(1u32, 32)
}

/// Draws a type over `types` and the functions of `grounds`: a subtype of a type that may have
/// subtypes, or a type without a supertype. The record of `grounds` may have been made when there
/// were fewer types.
#[tactic(auto, unfolding(crate::specs::SubTypes::sub_type_at))]
pub(crate) fn draw_sub_type(
    alloc: Global,
    config: &Config,
    types: &TypeSpace,
    grounds: &EarlyGrounds<'_>,
    limit: u32,
    u: &mut Unstructured<'_>,
) -> Result<SubType, Error>
    requires { AreEarlyGrounds (over (functions_of config.now grounds.now) types.now.types)
        grounds.now }
    ensures { Draws (sub_type_at config.now
        (over (functions_of config.now grounds.now) types.now.types) limit u.old)
        result u.old u.new }
{
    let standing = ReferenceScope::beside(config, types, grounds);
    let indices = supertypes(types);
    if is_supertype_wanted(config, indices.len(), u) {
        return draw_sub_type_of(alloc, config, &standing, limit, indices, u);
    }
    draw_root_type(alloc, config, &standing, limit, u)
}

/// Draws a type of a group: a subtype of a type of `spaces` that may have subtypes, or a type
/// without a supertype. Without garbage collection the result is a final function type without a
/// supertype. See the standard, section Structure, Recursive Types.
///
/// The result is valid in a group that ends at `limit`, if the types of `spaces` are valid so far.
///
/// Requires `config` to be sanitised.
pub fn arbitrary_sub_type(
    alloc: Global,
    config: &Config,
    spaces: &Spaces<'_>,
    limit: u32,
    u: &mut Unstructured<'_>,
) -> Result<SubType, Error>
    requires sanitized { IsSanitized config.now }
    ensures draws { Draws (sub_type_at config.now (standing_in config.now spaces.now) limit u.old)
        result u.old u.new }
    ensures valid { AreTypesOpen (features_of config.now) limit spaces.now.types.now
        → IfOk result (IsTypeValid (features_of config.now) spaces.now.types.now.types limit) }
    ensures follows { IfOk result (HasSuperType spaces.now.types.now.types) }
    ensures granted { AreTypesGranted config.now (standing_in config.now spaces.now)
        → IfOk result (HasGranted config.now (standing_in config.now spaces.now)) }
    ensures reach { All IsRoot spaces.now.types.now.types
        → IfOk result (λ drawn. Takes (SpellsSuch (λ t.
        All (RefersTo config.now spaces.now.types.now.types) (values_of t.composite_type.inner))
        (SpellsSubType config.now spaces.now.types.now.types limit)) u.old drawn u.new) }
{
    orderly(spaces);
    let grounds = EarlyGrounds::of(alloc, config, spaces.types, &spaces.entities)?;
    draw_sub_type(alloc, config, spaces.types, &grounds, limit, u)
}

/// Draws a subtype of a type of `spaces` that may have subtypes. See the standard, section
/// Structure, Recursive Types.
///
/// The result is valid in a group that ends at `limit`, if the types of `spaces` are valid so far.
///
/// Requires `config` to be sanitised and to enable garbage collection. Requires `spaces` to have a
/// type that may have subtypes: one that is not final and has a depth less than 60, so that
/// [`TypeSpace::extensible`] lists it.
pub fn arbitrary_sub_type_of_super_type(
    alloc: Global,
    config: &Config,
    spaces: &Spaces<'_>,
    limit: u32,
    u: &mut Unstructured<'_>,
) -> Result<SubType, Error>
    requires sanitized { IsSanitized config.now }
    requires gc { IsTrue config.now.gc_enabled }
    requires some { SomeMayHaveSubtypes spaces.now.types.now.types }
    ensures draws { Draws (sub_type_of_at config.now (standing_in config.now spaces.now) limit
        (supertypes spaces.now.types.now.types) u.old) result u.old u.new }
    ensures below { IfOk result (λ drawn. IsSome drawn.supertype) }
    ensures valid { AreTypesOpen (features_of config.now) limit spaces.now.types.now
        → IfOk result (IsTypeValid (features_of config.now) spaces.now.types.now.types limit) }
    ensures follows { IfOk result (HasSuperType spaces.now.types.now.types) }
    ensures granted { AreTypesGranted config.now (standing_in config.now spaces.now)
        → IfOk result (HasGranted config.now (standing_in config.now spaces.now)) }
{
    orderly(spaces);
    let indices = supertypes(spaces.types);
    let call = CallGrounds::over(alloc, config, spaces)?;
    let standing = call.scope();
    let drawn = draw_sub_type_of(alloc, config, &standing, limit, indices, u);
    drop(call);
    drawn
}
