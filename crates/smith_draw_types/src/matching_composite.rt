ghost use Rattle.std.specs.Prelude.{◌+◌, ◌≤◌, IsTrue, IfOk, length, All};
ghost use Rattle.smith_types.specs.Syntax.composite_type.CompositeInnerType.TheVariants.{Struct};
ghost use Rattle.smith_types.specs.Matching.{AreFieldsMatched};
ghost use Rattle.smith_types.specs.ValidTypes.{values_of, IsValTypeValid, IsShareable};
ghost use Rattle.smith_config.specs.Features.{features_of};
ghost use Rattle.smith_config.specs.Sanitized.{IsSanitized};
ghost use Rattle.smith_draw_types.specs.Drawing.{Draws};
ghost use Rattle.smith_config.specs.Granted.{IsGranted};
ghost use Rattle.smith_draw_types.specs.Grounding.{standing_in};
ghost use Rattle.smith_draw_types.specs.Kept.{IsSharingEnabled};
ghost use Rattle.smith_draw_types.specs.MatchingComposites.{
  matching_struct_type_at,
  matching_inner_at,
  matching_composite_type_at,
};

use crate::call_grounds::CallGrounds;
use crate::composite_type::draw_fields;
use crate::each::draw_each;
use crate::matching::{Matching, draw_matching_field_type, draw_matching_func_type};
use crate::reference_scope::ReferenceScope;
use crate::spaces::{Spaces, orderly};
use smith_bytes::{Error, Unstructured};
use smith_config::Config;
use smith_types::{ArrayType, CompositeInnerType, CompositeType, StructType};
use std::alloc::Global;

#[tactic(auto, unfolding(crate::specs::MatchingComposites::matching_struct_type_at, crate::specs::MatchingTypes::matched_fields_at))]
fn draw_matching_struct_type(
    alloc: Global,
    config: &Config,
    standing: &ReferenceScope<'_>,
    structure: &StructType,
    must_share: bool,
    limit: u32,
    u: &mut Unstructured<'_>,
) -> Result<StructType, Error>
    ensures { Draws
        (matching_struct_type_at config.now standing.now must_share limit structure.now u.old)
        result u.old u.new }
{
    let extra = u.int_in_range(0..=5usize);
    let matching = Matching { config, standing };
    let matched = draw_each(alloc, &matching, structure.fields.as_slice(), u)?;
    let end = matched.as_slice().len() + extra;
    let fields = draw_fields(config, standing, must_share, limit, end, matched, u)?;
    Ok(StructType { fields })
}

/// Draws an array, a function or a struct type that matches `inner`.
fn draw_matching_inner(
    alloc: Global,
    config: &Config,
    standing: &ReferenceScope<'_>,
    must_share: bool,
    limit: u32,
    inner: &CompositeInnerType,
    u: &mut Unstructured<'_>,
) -> Result<CompositeInnerType, Error>
    ensures { Draws (matching_inner_at config.now standing.now must_share limit inner.now u.old)
        result u.old u.new }
{
    match inner {
        CompositeInnerType::Array(array) => {
            let field = draw_matching_field_type(alloc, config, standing, array.0, u)?;
            Ok(CompositeInnerType::Array(ArrayType(field)))
        }
        CompositeInnerType::Func(function) => {
            let drawn = draw_matching_func_type(alloc, config, standing, function, u)?;
            Ok(CompositeInnerType::Func(drawn))
        }
        CompositeInnerType::Struct(structure) => {
            let drawn = draw_matching_struct_type(
                alloc, config, standing, structure, must_share, limit, u,
            )?;
            Ok(CompositeInnerType::Struct(drawn))
        }
    }
}

/// Draws a composite type that matches `composite` and has its sharedness.
#[tactic(auto, unfolding(crate::specs::MatchingComposites::matching_composite_type_at))]
pub(crate) fn draw_matching_composite_type(
    alloc: Global,
    config: &Config,
    standing: &ReferenceScope<'_>,
    limit: u32,
    composite: &CompositeType,
    u: &mut Unstructured<'_>,
) -> Result<CompositeType, Error>
    ensures { Draws (matching_composite_type_at config.now standing.now limit composite.now u.old)
        result u.old u.new }
{
    let shared = composite.shared;
    let inner = draw_matching_inner(alloc, config, standing, shared, limit, &composite.inner, u)?;
    Ok(CompositeType { inner, shared })
}

/// Draws a struct type that matches `structure`: a matching field for each of its fields, followed
/// by at most 5 further fields. See the standard, section Validation, Matching, Composite Types;
/// heap types are compared as in [`smith_types::TypeSpace::heap_type_is_sub_type`].
///
/// The further fields refer only to types of `spaces` below `limit`, and only to shared types if
/// `must_share` is `true`.
///
/// The struct type is valid below `limit` if `structure` is, `spaces` has at most `limit` types,
/// and these are shared only if `config` permits it.
///
/// Requires `config` to be sanitised, and to permit shared types if `must_share` is `true`.
pub fn arbitrary_matching_struct_type(
    alloc: Global,
    config: &Config,
    spaces: &Spaces<'_>,
    structure: &StructType,
    must_share: bool,
    limit: u32,
    u: &mut Unstructured<'_>,
) -> Result<StructType, Error>
    requires sanitized { IsSanitized config.now }
    requires may_share { IsTrue must_share → IsTrue config.now.shared_everything_threads_enabled }
    ensures draws { Draws (matching_struct_type_at config.now
        (standing_in config.now spaces.now) must_share limit structure.now u.old)
        result u.old u.new }
    ensures below { IfOk result (λ drawn.
        AreFieldsMatched spaces.now.types.now.types drawn.fields structure.now.fields) }
    ensures granted { All (IsGranted config.now (standing_in config.now spaces.now))
        (values_of (Struct structure.now))
        → IfOk result (λ drawn.
        All (IsGranted config.now (standing_in config.now spaces.now)) (values_of (Struct drawn))) }
    ensures valid { length spaces.now.types.now.types ≤ limit
        → All (IsSharingEnabled (features_of config.now)) spaces.now.types.now.types
        → All (IsValTypeValid (features_of config.now) limit) (values_of (Struct structure.now))
        → IfOk result (λ drawn.
        All (IsValTypeValid (features_of config.now) limit) (values_of (Struct drawn))) }
    ensures shared { IsTrue must_share
        → All (IsShareable spaces.now.types.now.types) (values_of (Struct structure.now))
        → IfOk result (λ drawn.
        All (IsShareable spaces.now.types.now.types) (values_of (Struct drawn))) }
{
    orderly(spaces);
    let call = CallGrounds::over(alloc, config, spaces)?;
    let standing = call.scope();
    let drawn = draw_matching_struct_type(
        alloc, config, &standing, structure, must_share, limit, u,
    );
    drop(call);
    drawn
}
