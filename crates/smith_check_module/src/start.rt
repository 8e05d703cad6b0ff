ghost use Rattle.std.specs.Prelude.{◌↔◌, ◌≡◌, [], IsTrue};
ghost use Rattle.smith_types.specs.Syntax.composite_type.CompositeInnerType.TheVariants.{Func};
ghost use Rattle.smith_types.specs.Entities.{IsFuncAt};
ghost use Rattle.smith_types.specs.Exports.{IsStartValid};

use smith_types::{CompositeInnerType, SubType};

/// Returns whether the start function exists, and has no parameters and no results (Validation, Start
/// Function).
pub(crate) fn is_start_valid(types: &[SubType], funcs: &[u32], start: Option<u32>) -> bool
    ensures { IsTrue result ↔ IsStartValid types.now funcs.now start }
{
    match start {
        Some(function) => match funcs.get(function as usize) {
            Some(index) => is_plain_func(types, *index),
            None => false,
        },
        None => true,
    }
}

// Returns whether the type at an index is that of functions without parameters and results.
fn is_plain_func(types: &[SubType], index: u32) -> bool
    ensures { IsTrue result
        ↔ IsFuncAt types.now index (record { params = []; results = [] }) }
{
    match types.get(index as usize) {
        Some(ty) => is_plain(&ty.composite_type.inner),
        None => false,
    }
}

fn is_plain(inner: &CompositeInnerType) -> bool
    ensures { IsTrue result ↔ (inner.now ≡ Func (record { params = []; results = [] })) }
{
    match inner {
        CompositeInnerType::Func(function) => {
            function.params.is_empty() && function.results.is_empty()
        }
        _ => false,
    }
}
