ghost use Rattle.std.specs.Prelude.{◌≡◌, ◌↔◌, IsTrue, All};
ghost use Rattle.smith_bytes.specs.declared.error.Which.TheVariants.{Exports};
ghost use Rattle.smith_types.specs.EntitySpaces.{spaces_in};
ghost use Rattle.smith_config.specs.Shapes.{IsTypePlain, ArePlain, HasNoConcrete};

use smith_bytes::Which;
use smith_types::{CompositeInnerType, EntitySpaces, HeapType, SubType, TypeSpace, ValType};
use smith_validity::{Predicate, all_named_values_hold};

/// Returns whether the types of a shape for exports are plain. Shapes for other uses may have any
/// types.
pub(crate) fn is_plain_enough(which: Which, space: &TypeSpace, spaces: &EntitySpaces) -> bool
    ensures { IsTrue result ↔ (which ≡ Exports → ArePlain space.now.types (spaces_in spaces.now)) }
{
    !is_for_exports(which) || are_plain(space.types(), spaces)
}

fn is_for_exports(which: Which) -> bool
    ensures { IsTrue result ↔ (which ≡ Exports) }
{
    matches!(which, Which::Exports)
}

fn are_plain(types: &[SubType], spaces: &EntitySpaces) -> bool
    ensures { IsTrue result ↔ ArePlain types.now (spaces_in spaces.now) }
{
    are_types_plain(types) && all_named_values_hold(&NotConcrete, types, spaces)
}

fn are_types_plain(types: &[SubType]) -> bool
    ensures { IsTrue result ↔ All IsTypePlain types.now }
{
    types.iter().all(|ty| is_type_plain(ty))
}

fn is_type_plain(ty: &SubType) -> bool
    ensures { IsTrue result ↔ IsTypePlain ty.now }
{
    ty.is_final
        && ty.supertype.is_none()
        && matches!(&ty.composite_type.inner, CompositeInnerType::Func(_))
}

/// Tests whether a value type is not a concrete reference.
#[derive(Clone, Copy)]
struct NotConcrete;

impl Predicate<ValType> for NotConcrete {
    ghost meaning = { λ plain value. HasNoConcrete value };

    fn holds(&self, item: &ValType) -> bool {
        match item {
            ValType::Ref(reference) => match reference.heap_type {
                HeapType::Concrete(_) => false,
                _ => true,
            },
            _ => true,
        }
    }
}
