ghost use Rattle.std.specs.Prelude.{◌≡◌};
ghost use Rattle.smith_draw_types.specs.SharedHeapTypes.{is_heap_type_shared};

use smith_types::{RefType, SubType, ValType};
use smith_validity::{Predicate, ShareableValue};

/// Returns whether the heap type of `reference` is shared.
pub(crate) fn is_reference_shared(types: &[SubType], reference: RefType) -> bool
    ensures { result ≡ is_heap_type_shared types.now reference.heap_type }
{
    ShareableValue { types }.holds(&ValType::Ref(reference))
}
