ghost use Rattle.std.specs.Prelude.{◌≡◌, All, IfOk, IfErr, IfSome, MatchOption};
ghost use Rattle.smith_types.specs.Syntax.FeatureBits.{features_in};
ghost use Rattle.smith_decode.specs.Modules.{syntax_of};
ghost use Rattle.smith_check_types.specs.CheckedTypes.{AreChecked};
ghost use Rattle.smith_check_module.specs.Judges.{AreRight, IsJudge, IsRight};
ghost use Rattle.smith_check_module.specs.SectionFaults.{IsFirstBy, IsFirstFault, parts};
ghost use Rattle.smith_check_module.specs.ValidModules.{AreSectionsValid};

use crate::exports::first_repeated;
use crate::faults::{Part, SectionFault};
use crate::judge::Judge;
use crate::scope::Scope;
use crate::spaces::canonical_spaces;
use smith_bytes::Error;
use smith_check_types::CheckedTypes;
use smith_decode::Module;
use smith_types::{WasmFeatures, imported_spaces_of};
use std::alloc::Global;

/// All parts, in the order in which they are judged.
const PARTS: [Part; 11] = [
    Part::Tags,
    Part::Functions,
    Part::Tables,
    Part::Memories,
    Part::Globals,
    Part::TableInitials,
    Part::GlobalInitials,
    Part::Exports,
    Part::Start,
    Part::Elements,
    Part::Datas,
];

/// Checks a module whose types are `types`, apart from the bodies of its functions, and returns its
/// first item that is wrong (Validation, Modules), in the order of [`Part`]. The conditions on features
/// and sharedness are rules of this project.
///
/// The time is linear in the size of the module, except for `struct.new_default`: each use in a constant
/// expression reads all fields of its type, so n uses of a type with m fields cost n times m.
pub fn check_sections<'a>(
    alloc: Global,
    features: WasmFeatures,
    module: &'a Module,
    types: &'a CheckedTypes,
) -> Result<Option<SectionFault>, Error>
    requires checked { AreChecked (features_in features) «module».now.types types.now }
    ensures decided { IfOk result (λ found. MatchOption found
        (AreSectionsValid (features_in features) types.now.indices (syntax_of «module».now))
        (λ fault. ¬ AreSectionsValid (features_in features) types.now.indices
        (syntax_of «module».now))) }
    ensures first { IfOk result (λ found. IfSome found (λ fault.
        IsFirstFault (features_in features) types.now.indices (syntax_of «module».now) fault)) }
    ensures memory { IfErr result (λ e. e ≡ Error.Memory) }
{
    let imported = imported_spaces_of(alloc, module.imports.as_slice())?;
    let spaces = canonical_spaces(alloc, types.indices.as_slice(), &imported, module)?;
    let repeated = first_repeated(alloc, module.exports.as_slice())?;
    let judge = Judge {
        module,
        scope: Scope {
            features,
            indices: types.indices.as_slice(),
            types: &types.space,
            funcs: spaces.funcs.as_slice(),
            globals: spaces.globals.as_slice(),
            imported_funcs: imported.funcs.len(),
            imported_globals: imported.globals.len(),
            visible: 0,
        },
        spaces: &spaces,
        repeated,
    };
    first_fault(alloc, &judge)
}

// Returns the first item that is wrong.
fn first_fault(alloc: Global, judge: &Judge<'_>) -> Result<Option<SectionFault>, Error>
    requires { IsJudge judge.now }
    ensures ok { IfOk result (λ found. MatchOption found
        (All (AreRight judge.now) parts)
        (λ fault. IsFirstBy (IsRight judge.now) fault)) }
    ensures memory { IfErr result (λ e. e ≡ Error.Memory) }
{
    for part in PARTS {
        let found = judge.first_wrong(alloc, part)?;
        match found {
            Some(index) => return Ok(Some(SectionFault { part, index })),
            None => {}
        }
    }
    Ok(None)
}
