ghost use Rattle.std.specs.Prelude.{◌≡◌, ◌<◌, ◌^◌, [], length, IsTrue, IfErr, OnOk, All};
ghost use Rattle.smith_bytes.specs.Source.{KeepsPieces};
ghost use Rattle.smith_bytes.specs.Takes.{Takes};
ghost use Rattle.smith_types.specs.Entities.{IsTagValid};
ghost use Rattle.smith_config.specs.Faults.{Passes};
ghost use Rattle.smith_bytes.specs.Steps.{Returns, is_memory};
ghost use Rattle.smith_bytes.specs.Spelling.{SpellsEmpty};
ghost use Rattle.smith_draw_definitions.specs.Defined.{IsFilled};
ghost use Rattle.smith_draw_definitions.specs.Definitions.{tags_at};
ghost use Rattle.smith_draw_types.specs.SpelledParts.{SpellsNoTag};
ghost use Rattle.smith_module_rules.specs.Refusals.{MayRefuse};

use crate::typed_entities::define_typed;
use smith_bytes::{Count, Error, Unstructured};
use smith_config::Config;
use smith_draw_types::TypeUse;
use smith_types::{Items, TypeSpace};

/// Adds tags to the end of `tags`.
#[tactic(auto, unfolding(crate::specs::Definitions::tags_at))]
fn push_tags(
    config: &Config,
    types: &TypeSpace,
    tags: &mut Items<u32>,
    u: &mut Unstructured<'_>,
) -> Result<(), Error>
    requires few_types { length types.now.types < 2 ^ 32 }
    ensures exact { Returns is_memory (λ _. (tags.new, u.new)) result
        (tags_at config.now types.now.types tags.old u.old) }
    ensures refusal { IfErr result (MayRefuse config.now) }
    ensures left { KeepsPieces u.old u.new }
{
    define_typed(
        Count::Tags,
        TypeUse::Tag,
        config.exceptions_enabled,
        types,
        config.min_tags,
        config.max_tags,
        tags,
        u,
    )
}

/// Adds tags to the end of `tags`, until there are at least `min_tags` and at most `max_tags` of
/// `config`.
pub(crate) fn define_tags(
    config: &Config,
    types: &TypeSpace,
    tags: &mut Items<u32>,
    u: &mut Unstructured<'_>,
) -> Result<(), Error>
    requires passes { Passes config.now }
    requires few_types { length types.now.types < 2 ^ 32 }

    // The draw.
    ensures exact { Returns is_memory (λ _. (tags.new, u.new)) result
        (tags_at config.now types.now.types tags.old u.old) }

    // Validity and bounds.
    ensures filled { OnOk result
        (IsFilled config.now.min_tags config.now.max_tags tags.old tags.new) }
    ensures valid { All (IsTagValid types.now.types) tags.old
        → OnOk result (All (IsTagValid types.now.types) tags.new) }
    ensures enabled { (0 < length tags.old → IsTrue config.now.exceptions_enabled)
        → OnOk result (0 < length tags.new → IsTrue config.now.exceptions_enabled) }

    // Refusals, reach and the source.
    ensures refusal { IfErr result (MayRefuse config.now) }
    ensures none { config.now.min_tags ≡ 0 → tags.old ≡ [] → OnOk result (Takes
        (SpellsEmpty (SpellsNoTag config.now types.now.types)) u.old tags.new u.new) }
    ensures left { KeepsPieces u.old u.new }
{
    push_tags(config, types, tags, u)
}
