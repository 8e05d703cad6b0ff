ghost use Rattle.std.specs.Prelude.{◌≡◌, IfOk, IfErr};
ghost use Rattle.smith_types.specs.Groups.{space_of, AreFollowing};
ghost use Rattle.smith_config.specs.Shapes.{IsShort, shape_types};

use smith_bytes::Error;
use smith_config::Shape;
use smith_types::{TypeSpace, type_space_of};
use std::alloc::Global;

/// Copies the types of `shape`, in their groups.
///
/// Requires each list of `shape`, and the types and imports of all groups together, to have at most
/// 2^29 items, and each declared supertype to precede its subtype, of the same kind and sharedness.
pub fn types_of_shape(alloc: Global, shape: &Shape) -> Result<TypeSpace, Error>
    requires short { IsShort shape.now }
    requires following { AreFollowing (shape_types shape.now) }
    ensures types { IfOk result (λ types. types ≡ space_of shape.now.groups) }
    ensures memory { IfErr result (λ e. e ≡ Error.Memory) }
{
    match type_space_of(alloc, shape.groups.as_slice())? {
        Some(types) => Ok(types),
        None => unreachable!(),
    }
}
