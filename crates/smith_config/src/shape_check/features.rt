ghost use Rattle.std.specs.Prelude.{◌↔◌, IsTrue};
ghost use Rattle.smith_types.specs.Syntax.FeatureBits.{features_in};
ghost use Rattle.smith_types.specs.EntitySpaces.{spaces_in};
ghost use Rattle.smith_config.specs.Shapes.{AreCountsFor};
ghost use Rattle.smith_config.specs.ShapeFaults.{AreFeaturesEnough};

use smith_bytes::Which;
use smith_types::{EntitySpaces, TypeSpace, WasmFeatures};
use smith_validity::{
    are_counts_enabled, are_globals_valid, are_memories_valid, are_tables_valid, are_types_valid,
};

/// Returns whether `features` suffice for the types of `space` and the entities of `spaces` in the
/// use `which`.
pub(crate) fn are_features_enough(
    which: Which,
    features: WasmFeatures,
    space: &TypeSpace,
    spaces: &EntitySpaces,
) -> bool
    ensures { IsTrue result
        ↔ AreFeaturesEnough which (features_in features) space.now (spaces_in spaces.now) }
{
    are_types_valid(features, space)
        && are_tables_valid(features, space.types(), spaces.tables.as_slice())
        && are_memories_valid(features, spaces.memories.as_slice())
        && are_globals_valid(features, space.types(), spaces.globals.as_slice())
        && are_counts_for(which, features, spaces)
}

fn are_counts_for(which: Which, features: WasmFeatures, spaces: &EntitySpaces) -> bool
    ensures { IsTrue result ↔ AreCountsFor which (features_in features) (spaces_in spaces.now) }
{
    match which {
        Which::AvailableImports => true,
        Which::Exports => are_counts_enabled(features, spaces),
        Which::ModuleShape => are_counts_enabled(features, spaces),
    }
}
