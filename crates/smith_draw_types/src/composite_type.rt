ghost use Rattle.std.specs.Prelude.{◌≡◌, false, IsTrue, IfOk, All, length, ◌≤◌};
ghost use Rattle.smith_bytes.specs.Takes.{Takes, SpellsSuch};
ghost use Rattle.smith_types.specs.Syntax.composite_type.CompositeInnerType.TheVariants.{Func};
ghost use Rattle.smith_types.specs.Syntax.composite_type.CompositeInnerType.TheVariants.{Struct};
ghost use Rattle.smith_types.specs.Flags.{IsInnerEnabled};
ghost use Rattle.smith_types.specs.Matching.{IsFuncInRange, IsFieldInRange, IsInnerInRange};
ghost use Rattle.smith_types.specs.ValidTypes.{values_of, IsFuncTypeValid, IsValTypeValid};
ghost use Rattle.smith_types.specs.ValidTypes.{IsShareable};
ghost use Rattle.smith_config.specs.Features.{features_of};
ghost use Rattle.smith_config.specs.Sanitized.{IsSanitized};
ghost use Rattle.smith_draw_types.specs.Drawing.{AlwaysDraws, Draws};
ghost use Rattle.smith_config.specs.Granted.{IsGranted};
ghost use Rattle.smith_draw_types.specs.Grounding.{standing_in};
ghost use Rattle.smith_draw_types.specs.FieldTypes.{fields_until_at};
ghost use Rattle.smith_draw_types.specs.CompositeTypes.{
  most_results,
  val_types_at,
  func_type_at,
  struct_type_at,
  inner_number_at,
  inner_of_number_at,
  composite_type_at,
};
ghost use Rattle.smith_draw_types.specs.Spelling.{RefersTo, SpellsFuncType, SpellsStructType};
ghost use Rattle.smith_draw_types.specs.Spelling.{SpellsCompositeType};

use crate::call_grounds::CallGrounds;
use crate::field_type::draw_field_type;
use crate::reference_scope::ReferenceScope;
use crate::spaces::{Spaces, orderly};
use crate::value_type::{draw_sharedness, draw_val_type_among, value_classes};
use smith_bytes::{Error, Unstructured, goes_on};
use smith_config::Config;
use smith_types::{
    ArrayType, CompositeInnerType, CompositeType, FieldType, FuncType, Items, StructType, ValType,
};
use std::alloc::Global;

/// Draws at most `most` value types.
#[tactic(auto, unfolding(crate::specs::CompositeTypes::val_types_at))]
pub(crate) fn draw_val_types(
    alloc: Global,
    config: &Config,
    standing: &ReferenceScope<'_>,
    must_share: bool,
    limit: u32,
    most: usize,
    u: &mut Unstructured<'_>,
) -> Result<Items<ValType>, Error>
    ensures { Draws (val_types_at config.now standing.now must_share limit most u.old)
        result u.old u.new }
{
    let classes = value_classes(config);
    let mut drawn = Items::new(alloc);
    for made in 0..most {
        if !goes_on(u, made, 0) {
            return Ok(drawn);
        }
        let value = draw_val_type_among(config, standing, classes, must_share, limit, u);
        drawn.push(value)?;
    }
    Ok(drawn)
}

#[tactic(auto, unfolding(crate::specs::CompositeTypes::func_type_at))]
fn draw_func_type(
    alloc: Global,
    config: &Config,
    standing: &ReferenceScope<'_>,
    must_share: bool,
    limit: u32,
    u: &mut Unstructured<'_>,
) -> Result<FuncType, Error>
    ensures { Draws (func_type_at config.now standing.now must_share limit u.old)
        result u.old u.new }
{
    let most_results = if config.multi_value_enabled { 20 } else { 1 };
    let params = draw_val_types(alloc, config, standing, must_share, limit, 20, u)?;
    let results = draw_val_types(alloc, config, standing, must_share, limit, most_results, u)?;
    Ok(FuncType { params, results })
}

/// Appends drawn fields to `fields` until there are `end` fields.
#[tactic(auto, unfolding(crate::specs::FieldTypes::fields_until_at))]
pub(crate) fn draw_fields(
    config: &Config,
    standing: &ReferenceScope<'_>,
    must_share: bool,
    limit: u32,
    end: usize,
    mut fields: Items<FieldType>,
    u: &mut Unstructured<'_>,
) -> Result<Items<FieldType>, Error>
    ensures { Draws (fields_until_at config.now standing.now must_share limit end fields u.old)
        result u.old u.new }
{
    for made in fields.len()..end {
        fields.push(draw_field_type(config, standing, must_share, limit, u))?;
    }
    Ok(fields)
}

#[tactic(auto, unfolding(crate::specs::CompositeTypes::struct_type_at))]
fn draw_struct_type(
    alloc: Global,
    config: &Config,
    standing: &ReferenceScope<'_>,
    must_share: bool,
    limit: u32,
    u: &mut Unstructured<'_>,
) -> Result<StructType, Error>
    ensures { Draws (struct_type_at config.now standing.now must_share limit u.old)
        result u.old u.new }
{
    let count = u.int_in_range(0..=20usize);
    let none = Items::with_capacity(alloc, count)?;
    let fields = draw_fields(config, standing, must_share, limit, count, none, u)?;
    Ok(StructType { fields })
}

fn draw_inner_number(config: &Config, u: &mut Unstructured<'_>) -> u8
    ensures { AlwaysDraws (inner_number_at config.now u.old) result u.old u.new }
{
    if config.gc_enabled {
        return u.int_in_range(0..=2u8);
    }
    1
}

/// Draws an array, a function or a struct type, for a `number` of 0, 1 or more.
fn draw_inner_of_number(
    alloc: Global,
    config: &Config,
    standing: &ReferenceScope<'_>,
    must_share: bool,
    limit: u32,
    number: u8,
    u: &mut Unstructured<'_>,
) -> Result<CompositeInnerType, Error>
    ensures { Draws (inner_of_number_at config.now standing.now must_share limit number u.old)
        result u.old u.new }
{
    match number {
        0 => {
            let field = draw_field_type(config, standing, must_share, limit, u);
            Ok(CompositeInnerType::Array(ArrayType(field)))
        }
        1 => {
            let function = draw_func_type(alloc, config, standing, must_share, limit, u)?;
            Ok(CompositeInnerType::Func(function))
        }
        _ => {
            let structure = draw_struct_type(alloc, config, standing, must_share, limit, u)?;
            Ok(CompositeInnerType::Struct(structure))
        }
    }
}

#[tactic(auto, unfolding(crate::specs::CompositeTypes::composite_type_at))]
pub(crate) fn draw_composite_type(
    alloc: Global,
    config: &Config,
    standing: &ReferenceScope<'_>,
    limit: u32,
    u: &mut Unstructured<'_>,
) -> Result<CompositeType, Error>
    ensures { Draws (composite_type_at config.now standing.now limit u.old) result u.old u.new }
{
    let shared = draw_sharedness(config, false, u);
    let number = draw_inner_number(config, u);
    let inner = draw_inner_of_number(alloc, config, standing, shared, limit, number, u)?;
    Ok(CompositeType { inner, shared })
}

/// Draws a function type with at most 20 parameters and at most 20 results, or at most one result
/// if `config` disables multiple values. See the standard, section Structure, Composite Types.
///
/// The function type refers only to types of `spaces` below `limit`, and only to shared types if
/// `must_share` is `true`.
///
/// Requires `config` to be sanitised, and to permit shared types if `must_share` is `true`.
pub fn arbitrary_func_type(
    alloc: Global,
    config: &Config,
    spaces: &Spaces<'_>,
    must_share: bool,
    limit: u32,
    u: &mut Unstructured<'_>,
) -> Result<FuncType, Error>
    requires sanitized { IsSanitized config.now }
    requires may_share { IsTrue must_share → IsTrue config.now.shared_everything_threads_enabled }

    // The draw.
    ensures draws { Draws
        (func_type_at config.now (standing_in config.now spaces.now) must_share limit u.old)
        result u.old u.new }

    // Validity and references.
    ensures granted { IfOk result (λ drawn.
        All (IsGranted config.now (standing_in config.now spaces.now)) (values_of (Func drawn))) }
    ensures valid { IfOk result (IsFuncTypeValid (features_of config.now) limit) }
    ensures stands { IfOk result (IsFuncInRange spaces.now.types.now.types) }
    ensures shared { IsTrue must_share → IfOk result (λ drawn.
        All (IsShareable spaces.now.types.now.types) (values_of (Func drawn))) }

    // Reach.
    ensures reach { must_share ≡ false → IfOk result (λ drawn. Takes (SpellsSuch (λ function.
        All (RefersTo config.now spaces.now.types.now.types) (values_of (Func function)))
        (SpellsFuncType config.now limit)) u.old drawn u.new) }
{
    orderly(spaces);
    let call = CallGrounds::over(alloc, config, spaces)?;
    let standing = call.scope();
    let drawn = draw_func_type(alloc, config, &standing, must_share, limit, u);
    drop(call);
    drawn
}

/// Draws a struct type with at most 20 fields. See the standard, section Structure, Composite
/// Types.
///
/// The struct type refers only to types of `spaces` below `limit`, and only to shared types if
/// `must_share` is `true`.
///
/// Requires `config` to be sanitised, and to permit shared types if `must_share` is `true`.
pub fn arbitrary_struct_type(
    alloc: Global,
    config: &Config,
    spaces: &Spaces<'_>,
    must_share: bool,
    limit: u32,
    u: &mut Unstructured<'_>,
) -> Result<StructType, Error>
    requires sanitized { IsSanitized config.now }
    requires may_share { IsTrue must_share → IsTrue config.now.shared_everything_threads_enabled }

    // The draw.
    ensures draws { Draws
        (struct_type_at config.now (standing_in config.now spaces.now) must_share limit u.old)
        result u.old u.new }

    // Validity, bounds and references.
    ensures granted { IfOk result (λ drawn.
        All (IsGranted config.now (standing_in config.now spaces.now)) (values_of (Struct drawn))) }
    ensures few { IfOk result (λ drawn. length drawn.fields ≤ 20) }
    ensures valid { IfOk result (λ drawn.
        All (IsValTypeValid (features_of config.now) limit) (values_of (Struct drawn))) }
    ensures stands { IfOk result (λ drawn.
        All (IsFieldInRange spaces.now.types.now.types) drawn.fields) }
    ensures shared { IsTrue must_share → IfOk result (λ drawn.
        All (IsShareable spaces.now.types.now.types) (values_of (Struct drawn))) }

    // Reach.
    ensures reach { must_share ≡ false → IfOk result (λ drawn. Takes (SpellsSuch (λ structure.
        All (RefersTo config.now spaces.now.types.now.types) (values_of (Struct structure)))
        (SpellsStructType config.now limit)) u.old drawn u.new) }
{
    orderly(spaces);
    let call = CallGrounds::over(alloc, config, spaces)?;
    let standing = call.scope();
    let drawn = draw_struct_type(alloc, config, &standing, must_share, limit, u);
    drop(call);
    drawn
}

/// Draws a composite type: an array, a function or a struct type with garbage collection, otherwise
/// a function type. See the standard, section Structure, Composite Types.
///
/// The composite type may be shared if `config` permits it. It refers only to types of `spaces`
/// below `limit`, and only to shared types if it is shared.
///
/// Requires `config` to be sanitised.
pub fn arbitrary_composite_type(
    alloc: Global,
    config: &Config,
    spaces: &Spaces<'_>,
    limit: u32,
    u: &mut Unstructured<'_>,
) -> Result<CompositeType, Error>
    requires sanitized { IsSanitized config.now }

    // The draw.
    ensures draws { Draws
        (composite_type_at config.now (standing_in config.now spaces.now) limit u.old)
        result u.old u.new }

    // Validity and references.
    ensures granted { IfOk result (λ drawn.
        All (IsGranted config.now (standing_in config.now spaces.now)) (values_of drawn.inner)) }
    ensures enabled { IfOk result (λ drawn. IsInnerEnabled (features_of config.now) drawn.inner) }
    ensures may_be_shared { IfOk result (λ drawn.
        IsTrue drawn.shared → IsTrue config.now.shared_everything_threads_enabled) }
    ensures valid { IfOk result (λ drawn.
        All (IsValTypeValid (features_of config.now) limit) (values_of drawn.inner)) }
    ensures stands { IfOk result (λ drawn. IsInnerInRange spaces.now.types.now.types drawn.inner) }
    ensures shared { IfOk result (λ drawn. IsTrue drawn.shared
        → All (IsShareable spaces.now.types.now.types) (values_of drawn.inner)) }

    // Reach.
    ensures reach { IfOk result (λ drawn. Takes (SpellsSuch (λ composite.
        All (RefersTo config.now spaces.now.types.now.types) (values_of composite.inner))
        (SpellsCompositeType config.now limit)) u.old drawn u.new) }
{
    orderly(spaces);
    let call = CallGrounds::over(alloc, config, spaces)?;
    let standing = call.scope();
    let drawn = draw_composite_type(alloc, config, &standing, limit, u);
    drop(call);
    drawn
}
