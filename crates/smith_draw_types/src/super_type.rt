ghost use Rattle.std.specs.Prelude.{◌≡◌, ◌↔◌, true, Some, IfOk};
ghost use Rattle.smith_bytes.specs.Draws.{choose_at};
ghost use Rattle.smith_types.specs.Subtyping.{IsBelow, IsRefBelow, IsValBelow, IsInRange};
ghost use Rattle.smith_types.specs.Subtyping.{IsValInRange};
ghost use Rattle.smith_types.specs.ValidTypes.{IsHeapTypeValid, IsRefTypeValid, IsValTypeValid};
ghost use Rattle.smith_types.specs.ValidTypes.{IsHeapTypeShared, IsShareable};
ghost use Rattle.smith_config.specs.Features.{features_of};
ghost use Rattle.smith_draw_types.specs.Drawing.{Draws};
ghost use Rattle.smith_draw_types.specs.Kept.{StaysValid};
ghost use Rattle.smith_draw_types.specs.Offered.{supertypes_offered};
ghost use Rattle.smith_draw_types.specs.MatchingTypes.{super_heap_type_at, super_ref_type_at};
ghost use Rattle.smith_draw_types.specs.MatchingTypes.{super_val_type_at};

use crate::each::Replacement;
use crate::offers::{count_supertypes, offered_supertype};
use crate::spaces::{Spaces, orderly};
use smith_bytes::{Error, Unstructured};
use smith_config::Config;
use smith_types::{HeapType, RefType, TypeSpace, ValType};
use std::alloc::Global;

fn draw_super_heap_type(
    config: &Config,
    space: &TypeSpace,
    ty: HeapType,
    u: &mut Unstructured<'_>,
) -> Result<HeapType, Error>
    ensures { Draws (super_heap_type_at config.now space.now.types ty u.old) result u.old u.new }
{
    if !config.gc_enabled {
        return Ok(ty);
    }
    let count = count_supertypes(space, ty);
    let place = u.int_in_range(0..=count - 1);
    Ok(offered_supertype(space, ty, place))
}

#[tactic(auto, unfolding(crate::specs::MatchingTypes::super_ref_type_at))]
fn draw_super_ref_type(
    alloc: Global,
    config: &Config,
    space: &TypeSpace,
    ty: RefType,
    u: &mut Unstructured<'_>,
) -> Result<RefType, Error>
    ensures { Draws (super_ref_type_at config.now space.now.types ty u.old) result u.old u.new }
{
    let heap_type = draw_super_heap_type(config, space, ty.heap_type, u)?;
    Ok(RefType {
        nullable: true,
        heap_type,
    })
}

fn draw_super_val_type(
    alloc: Global,
    config: &Config,
    space: &TypeSpace,
    ty: ValType,
    u: &mut Unstructured<'_>,
) -> Result<ValType, Error>
    ensures { Draws (super_val_type_at config.now space.now.types ty u.old) result u.old u.new }
{
    if let ValType::Ref(reference) = ty {
        let drawn = draw_super_ref_type(alloc, config, space, reference, u)?;
        return Ok(ValType::Ref(drawn));
    }
    Ok(ty)
}

/// Draws a supertype of a value type.
#[derive(Clone, Copy)]
pub(crate) struct Above<'a> {
    pub(crate) config: &'a Config,
    pub(crate) space: &'a TypeSpace,
}

impl<'a> Replacement<ValType> for Above<'a> {
    ghost draw_at = { λ above. super_val_type_at above.config.now above.space.now.types };

    fn draw(
        &self,
        alloc: Global,
        item: ValType,
        u: &mut Unstructured<'_>,
    ) -> Result<ValType, Error> {
        draw_super_val_type(alloc, self.config, self.space, item, u)
    }
}

/// Draws a heap type that is a supertype of `ty` over the types of `spaces`. Without garbage
/// collection this is `ty` itself. See the standard, section Validation, Matching, Heap Types, with
/// the rules of this project of [`TypeSpace::heap_type_is_sub_type`].
pub fn arbitrary_super_type_of_heap_type(
    alloc: Global,
    config: &Config,
    spaces: &Spaces<'_>,
    ty: HeapType,
    u: &mut Unstructured<'_>,
) -> Result<HeapType, Error>
    // The draw.
    ensures draws { Draws (super_heap_type_at config.now spaces.now.types.now.types ty u.old)
        result u.old u.new }
    ensures offered { IfOk result (λ drawn.
        choose_at (supertypes_offered config.now spaces.now.types.now.types ty) u.old
        ≡ (Some drawn, u.new)) }

    // Subtyping and sharing.
    ensures above { IfOk result (λ drawn. IsBelow spaces.now.types.now.types ty drawn) }
    ensures shared { IfOk result (λ drawn. IsHeapTypeShared spaces.now.types.now.types drawn
        ↔ IsHeapTypeShared spaces.now.types.now.types ty) }

    // Validity.
    ensures valid { IfOk result (StaysValid (IsHeapTypeValid (features_of config.now))
        (features_of config.now) spaces.now.types.now.types ty) }
    ensures stands { IfOk result (λ drawn.
        IsInRange spaces.now.types.now.types ty → IsInRange spaces.now.types.now.types drawn) }
{
    orderly(spaces);
    draw_super_heap_type(config, spaces.types, ty, u)
}

/// Draws a nullable reference type that is a supertype of `ty` over the types of `spaces`. See the
/// standard, section Validation, Matching, Reference Types; heap types are compared as in
/// [`TypeSpace::heap_type_is_sub_type`].
pub fn arbitrary_super_type_of_ref_type(
    alloc: Global,
    config: &Config,
    spaces: &Spaces<'_>,
    ty: RefType,
    u: &mut Unstructured<'_>,
) -> Result<RefType, Error>
    // The draw.
    ensures draws { Draws (super_ref_type_at config.now spaces.now.types.now.types ty u.old)
        result u.old u.new }

    // Subtyping, references and sharing.
    ensures above { IfOk result (λ drawn. IsRefBelow spaces.now.types.now.types ty drawn) }
    ensures nullable { IfOk result (λ drawn. drawn.nullable ≡ true) }
    ensures shared { IfOk result (λ drawn.
        IsHeapTypeShared spaces.now.types.now.types drawn.heap_type
        ↔ IsHeapTypeShared spaces.now.types.now.types ty.heap_type) }

    // Validity.
    ensures valid { IfOk result (StaysValid (IsRefTypeValid (features_of config.now))
        (features_of config.now) spaces.now.types.now.types ty) }
    ensures stands { IfOk result (λ drawn. IsInRange spaces.now.types.now.types ty.heap_type
        → IsInRange spaces.now.types.now.types drawn.heap_type) }
{
    orderly(spaces);
    draw_super_ref_type(alloc, config, spaces.types, ty, u)
}

/// Draws a value type that is a supertype of `ty` over the types of `spaces`. For a number or a
/// vector this is `ty` itself. See the standard, section Validation, Matching, Value Types; heap
/// types are compared as in [`TypeSpace::heap_type_is_sub_type`].
pub fn arbitrary_super_type_of_val_type(
    alloc: Global,
    config: &Config,
    spaces: &Spaces<'_>,
    ty: ValType,
    u: &mut Unstructured<'_>,
) -> Result<ValType, Error>
    ensures draws { Draws (super_val_type_at config.now spaces.now.types.now.types ty u.old)
        result u.old u.new }
    ensures above { IfOk result (λ drawn. IsValBelow spaces.now.types.now.types ty drawn) }
    ensures shared { IfOk result (λ drawn.
        IsShareable spaces.now.types.now.types drawn ↔ IsShareable spaces.now.types.now.types ty) }
    ensures valid { IfOk result (StaysValid (IsValTypeValid (features_of config.now))
        (features_of config.now) spaces.now.types.now.types ty) }
    ensures stands { IfOk result (λ drawn. IsValInRange spaces.now.types.now.types ty
        → IsValInRange spaces.now.types.now.types drawn) }
{
    orderly(spaces);
    draw_super_val_type(alloc, config, spaces.types, ty, u)
}
