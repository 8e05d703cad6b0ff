ghost use Rattle.std.specs.Prelude.{◌≡◌, ◌+◌, ◌<◌, ◌^◌, length, IfOk, IfErr, MatchOption};
ghost use Rattle.smith_types.specs.Syntax.FeatureBits.{features_in};
ghost use Rattle.smith_types.specs.Groups.{space_of};
ghost use Rattle.smith_decode.specs.Modules.{syntax_of};
ghost use Rattle.smith_check_types.specs.CheckedTypes.{AreChecked};
ghost use Rattle.smith_check_module.specs.ValidModules.{AreSectionsValid};
ghost use Rattle.smith_check.specs.Explanations.{ArePartsOf, IsExplained};
ghost use Rattle.smith_check.specs.Faults.{IsJudgement};
ghost use Rattle.smith_check.specs.FunctionJudges.{IsFunctionJudge};
ghost use Rattle.smith_check.specs.Supertypes.{HaveOneSupertype};

use crate::elements::element_types;
use crate::functions::FunctionJudge;
use crate::groups::{are_few, first_wrong_group, first_wrong_up_to};
use crate::judgement::{Fault, Judgement, Unjudged};
use crate::references::references_of;
use crate::supertypes::first_several;
use smith_bytes::Error;
use smith_check_module::{canonical_spaces, check_sections};
use smith_check_types::{CheckedTypes, check_types};
use smith_decode::Module;
use smith_explain::Explanation;
use smith_types::{EntitySpaces, Items, RefType, WasmFeatures, imported_spaces_of};
use std::alloc::Global;

/// Checks a module (Validation, Modules), and returns its first fault if it is not valid. Types of equal
/// groups are equal. The conditions on features and sharedness are rules of this project.
///
/// The index spaces are made once. A check of a body copies the parameters, the locals and the results of
/// its function, and a `ref.func` reads the functions that are named outside of bodies.
///
/// # Errors
///
/// Returns `Memory` if an allocation fails, and no other error.
pub fn check(alloc: Global, features: WasmFeatures, module: &Module) -> Result<Judgement, Error>
    ensures decided { IfOk result (IsJudgement (features_in features) «module».now) }
    ensures memory { IfErr result (λ e. e ≡ Error.Memory) }
{
    let groups = module.types.as_slice();
    if !are_few(groups) {
        return Ok(Judgement::NotJudged(Unjudged::Types));
    }
    match first_several(module.further_supertypes.as_slice()) {
        Some(several) => {
            let group = first_wrong_up_to(alloc, features, groups, several)?;
            Ok(Judgement::Invalid(Fault::Types(group)))
        }
        None => check_single(alloc, features, module),
    }
}

// Checks a module with few types, none of which has several supertypes.
fn check_single(alloc: Global, features: WasmFeatures, module: &Module) -> Result<Judgement, Error>
    requires few { length (space_of «module».now.types).types + 1 < 2 ^ 32 }
    requires supertypes { HaveOneSupertype «module».now.further_supertypes }
    ensures decided { IfOk result (IsJudgement (features_in features) «module».now) }
    ensures memory { IfErr result (λ e. e ≡ Error.Memory) }
{
    let groups = module.types.as_slice();
    let found = check_types(alloc, features, groups)?;
    match found {
        Some(types) => check_over(alloc, features, module, &types),
        None => {
            let group = first_wrong_group(alloc, features, groups)?;
            Ok(Judgement::Invalid(Fault::Types(group)))
        }
    }
}

// Checks a module whose types are `types`.
fn check_over(
    alloc: Global,
    features: WasmFeatures,
    module: &Module,
    types: &CheckedTypes,
) -> Result<Judgement, Error>
    requires supertypes { HaveOneSupertype «module».now.further_supertypes }
    requires checked { AreChecked (features_in features) «module».now.types types.now }
    ensures decided { IfOk result (IsJudgement (features_in features) «module».now) }
    ensures memory { IfErr result (λ e. e ≡ Error.Memory) }
{
    let found = check_sections(alloc, features, module, types)?;
    match found {
        Some(fault) => Ok(Judgement::Invalid(Fault::Section(fault))),
        None => check_functions(alloc, features, module, types),
    }
}

// The parts of a module by which its functions are judged, by canonical indices of types.
#[derive(Drop)]
struct Parts {
    spaces: EntitySpaces,
    imported_funcs: usize,
    elems: Items<RefType>,
    references: Items<u32>,
}

// Returns the parts of a module whose types are `types`.
fn parts_of(alloc: Global, module: &Module, types: &CheckedTypes) -> Result<Parts, Error>
    ensures ok { IfOk result (ArePartsOf types.now «module».now) }
    ensures memory { IfErr result (λ e. e ≡ Error.Memory) }
{
    let indices = types.indices.as_slice();
    let imported = imported_spaces_of(alloc, module.imports.as_slice())?;
    let spaces = canonical_spaces(alloc, indices, &imported, module)?;
    let elems = element_types(alloc, indices, module.elements.as_slice())?;
    let references = references_of(alloc, module)?;
    Ok(Parts {
        spaces,
        imported_funcs: imported.funcs.len(),
        elems,
        references,
    })
}

// Returns the judge of the functions of a module whose types are `types`, and whose other sections are
// valid.
fn judge_of<'a>(
    features: WasmFeatures,
    module: &'a Module,
    types: &'a CheckedTypes,
    parts: &'a Parts,
) -> FunctionJudge<'a>
    requires supertypes { HaveOneSupertype «module».now.further_supertypes }
    requires checked { AreChecked (features_in features) «module».now.types types.now }
    requires sections { AreSectionsValid (features_in features) types.now.indices (syntax_of «module».now) }
    requires parts { ArePartsOf types.now «module».now parts.now }
    ensures judge { IsFunctionJudge result }
    ensures features { result.features ≡ features }
    ensures same { result.«module».now ≡ «module».now }
{
    FunctionJudge {
        features,
        module,
        types,
        spaces: &parts.spaces,
        imported_funcs: parts.imported_funcs,
        elems: parts.elems.as_slice(),
        references: parts.references.as_slice(),
    }
}

// Checks a module whose types are `types`, and whose other sections are valid.
fn check_functions(
    alloc: Global,
    features: WasmFeatures,
    module: &Module,
    types: &CheckedTypes,
) -> Result<Judgement, Error>
    requires supertypes { HaveOneSupertype «module».now.further_supertypes }
    requires checked { AreChecked (features_in features) «module».now.types types.now }
    requires sections { AreSectionsValid (features_in features) types.now.indices (syntax_of «module».now) }
    ensures decided { IfOk result (IsJudgement (features_in features) «module».now) }
    ensures memory { IfErr result (λ e. e ≡ Error.Memory) }
{
    let parts = parts_of(alloc, module, types)?;
    let judge = judge_of(features, module, types, &parts);
    judge.judgement(alloc)
}

// Explains a fault of a module whose types are `types`, and whose other sections are valid.
fn explain_function(
    alloc: Global,
    features: WasmFeatures,
    module: &Module,
    types: &CheckedTypes,
    place: usize,
    at: usize,
) -> Result<Option<Explanation>, Error>
    requires supertypes { HaveOneSupertype «module».now.further_supertypes }
    requires checked { AreChecked (features_in features) «module».now.types types.now }
    requires sections { AreSectionsValid (features_in features) types.now.indices (syntax_of «module».now) }
    ensures ok { IfOk result (λ found. MatchOption found (Unit {0})
        (IsExplained (features_in features) (syntax_of «module».now) place at)) }
    ensures memory { IfErr result (λ e. e ≡ Error.Memory) }
{
    let parts = parts_of(alloc, module, types)?;
    let judge = judge_of(features, module, types, &parts);
    judge.explain(alloc, place, at)
}

// Explains a fault of a module whose types are `types`.
fn explain_over(
    alloc: Global,
    features: WasmFeatures,
    module: &Module,
    types: &CheckedTypes,
    place: usize,
    at: usize,
) -> Result<Option<Explanation>, Error>
    requires supertypes { HaveOneSupertype «module».now.further_supertypes }
    requires checked { AreChecked (features_in features) «module».now.types types.now }
    ensures ok { IfOk result (λ found. MatchOption found (Unit {0})
        (IsExplained (features_in features) (syntax_of «module».now) place at)) }
    ensures memory { IfErr result (λ e. e ≡ Error.Memory) }
{
    let found = check_sections(alloc, features, module, types)?;
    match found {
        Some(_) => Ok(None),
        None => explain_function(alloc, features, module, types, place, at),
    }
}

// Explains a fault of a module with few types, none of which has several supertypes.
fn explain_single(
    alloc: Global,
    features: WasmFeatures,
    module: &Module,
    place: usize,
    at: usize,
) -> Result<Option<Explanation>, Error>
    requires few { length (space_of «module».now.types).types + 1 < 2 ^ 32 }
    requires supertypes { HaveOneSupertype «module».now.further_supertypes }
    ensures ok { IfOk result (λ found. MatchOption found (Unit {0})
        (IsExplained (features_in features) (syntax_of «module».now) place at)) }
    ensures memory { IfErr result (λ e. e ≡ Error.Memory) }
{
    let groups = module.types.as_slice();
    let found = check_types(alloc, features, groups)?;
    match found {
        Some(types) => explain_over(alloc, features, module, &types, place, at),
        None => Ok(None),
    }
}

/// Returns what is known of the instruction `at` of the body `place` of a module, where [`check`] finds
/// the fault [`Fault::Body`], or nothing if there is a fault before it. The types are by canonical indices:
/// of types that are equal, that of the first.
///
/// All that comes before the bodies is checked once more, and the body up to the instruction.
///
/// # Errors
///
/// Returns `Memory` if an allocation fails, and no other error.
pub fn explain(
    alloc: Global,
    features: WasmFeatures,
    module: &Module,
    place: usize,
    at: usize,
) -> Result<Option<Explanation>, Error>
    ensures ok { IfOk result (λ found. MatchOption found (Unit {0})
        (IsExplained (features_in features) (syntax_of «module».now) place at)) }
    ensures memory { IfErr result (λ e. e ≡ Error.Memory) }
{
    let groups = module.types.as_slice();
    if !are_few(groups) {
        return Ok(None);
    }
    match first_several(module.further_supertypes.as_slice()) {
        Some(_) => Ok(None),
        None => explain_single(alloc, features, module, place, at),
    }
}
