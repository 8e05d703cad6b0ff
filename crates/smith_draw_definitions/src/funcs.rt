ghost use Rattle.std.specs.Prelude.{◌≡◌, ◌<◌, ◌≤◌, ◌^◌, ◌⊎◌, ℕ, [], take, length};
ghost use Rattle.std.specs.Prelude.{IfErr, OnOk, All};
ghost use Rattle.smith_bytes.specs.Source.{KeepsPieces};
ghost use Rattle.smith_bytes.specs.Takes.{Takes};
ghost use Rattle.smith_types.specs.Entities.{IsFuncTypeIndex};
ghost use Rattle.smith_types.specs.ValidTypes.{AreTypesValid};
ghost use Rattle.smith_config.specs.Faults.{Passes};
ghost use Rattle.smith_config.specs.Features.{features_of};
ghost use Rattle.smith_config.specs.Sanitized.{IsSanitized};
ghost use Rattle.smith_bytes.specs.Steps.{Returns, is_memory};
ghost use Rattle.smith_draw_definitions.specs.Defined.{IsFilled};
ghost use Rattle.smith_draw_definitions.specs.Definitions.{funcs_at};
ghost use Rattle.smith_draw_types.specs.Grounding.{function_context};
ghost use Rattle.smith_draw_types.specs.KeptGrounds.{AreKeptGrounds};
ghost use Rattle.smith_draw_types.specs.TypeUses.{func_types};
ghost use Rattle.smith_draw_types.specs.SpelledParts.{SpellsFuncs};
ghost use Rattle.smith_module_rules.specs.Refusals.{MayRefuse};

use crate::typed_entities::define_typed;
use smith_bytes::{Count, Error, Unstructured, Why};
use smith_config::Config;
use smith_draw_types::{KeptGrounds, TypeUse};
use smith_types::{Items, TypeSpace};

/// Adds functions to the end of `funcs`.
#[tactic(auto, unfolding(crate::specs::Definitions::funcs_at))]
fn push_funcs(
    config: &Config,
    types: &TypeSpace,
    funcs: &mut Items<u32>,
    u: &mut Unstructured<'_>,
) -> Result<(), Error>
    requires few_types { length types.now.types < 2 ^ 32 }
    ensures exact { Returns is_memory (λ _. (funcs.new, u.new)) result
        (funcs_at config.now types.now.types funcs.old u.old) }
    ensures refusal { IfErr result (λ e. (e ≡ Error.Memory)
        ⊎ ((e ≡ Error.IncorrectFormat (Why.Unmet Count.Funcs)) × (0 < config.now.min_funcs)
        × (length (func_types types.now.types) ≡ 0))) }
    ensures left { KeepsPieces u.old u.new }
{
    define_typed(
        Count::Funcs,
        TypeUse::DefinedFunc,
        true,
        types,
        config.min_funcs,
        config.max_funcs,
        funcs,
        u,
    )
}

/// Adds functions to the end of `funcs`, until there are at least `min_funcs` and at most
/// `max_funcs` of `config`.
pub(crate) fn define_funcs(
    config: &Config,
    types: &TypeSpace,
    funcs: &mut Items<u32>,
    u: &mut Unstructured<'_>,
) -> Result<(), Error>
    requires passes { Passes config.now }
    requires sanitized { IsSanitized config.now }
    requires valid { AreTypesValid (features_of config.now) types.now }
    requires least { config.now.min_types ≤ length types.now.types }
    requires few_types { length types.now.types < 2 ^ 32 }

    // The draw.
    ensures exact { Returns is_memory (λ _. (funcs.new, u.new)) result
        (funcs_at config.now types.now.types funcs.old u.old) }

    // Validity and bounds.
    ensures filled { OnOk result
        (IsFilled config.now.min_funcs config.now.max_funcs funcs.old funcs.new) }
    ensures valid { All (IsFuncTypeIndex types.now.types) funcs.old
        → OnOk result (All (IsFuncTypeIndex types.now.types) funcs.new) }

    // Refusals, reach and the source.
    ensures refusal { IfErr result (MayRefuse config.now) }
    ensures reach { config.now.min_funcs ≡ 0 → funcs.old ≡ []
        → OnOk result (Takes (SpellsFuncs config.now types.now.types) u.old funcs.new u.new) }
    ensures left { KeepsPieces u.old u.new }
{
    push_funcs(config, types, funcs, u)
}

/// Notes the functions of `funcs` from the index `before` in `grounds`. All of them are defined.
pub(crate) fn note_defined(
    config: &Config,
    types: &TypeSpace,
    funcs: &[u32],
    before: usize,
    grounds: &mut KeptGrounds,
)
    ensures { (imported : ℕ) → imported ≤ before
        → AreKeptGrounds (function_context (features_of config.now) types.now.types
        (take before funcs.now) imported) grounds.old
        → AreKeptGrounds (function_context (features_of config.now) types.now.types funcs.now imported)
        grounds.new }
{
    for function in before..funcs.len() {
        grounds.note(types, funcs[function], config.custom_descriptors_enabled);
    }
}
