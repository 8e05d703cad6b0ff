ghost use Rattle.std.specs.Prelude.{◌≡◌, ◌<◌, [], length, IsTrue, OnOk, All};
ghost use Rattle.smith_bytes.specs.Takes.{Takes};
ghost use Rattle.smith_types.specs.Entities.{IsMemoryValid};
ghost use Rattle.smith_config.specs.Faults.{Passes};
ghost use Rattle.smith_config.specs.Features.{features_of};
ghost use Rattle.smith_config.specs.EntityBounds.{IsMemoryWithin};
ghost use Rattle.smith_draw_types.specs.Drawing.{DrawsInto};
ghost use Rattle.smith_bytes.specs.Spelling.{SpellsEmpty};
ghost use Rattle.smith_draw_definitions.specs.Defined.{IsFilled, AreAdded};
ghost use Rattle.smith_draw_definitions.specs.Definitions.{memories_at};
ghost use Rattle.smith_bytes.specs.Spelling.{SpellsNone};

use crate::past_maximum::discard_past_maximum;
use smith_bytes::{Error, Unstructured, goes_on};
use smith_config::Config;
use smith_draw_types::arbitrary_memtype;
use smith_types::{Items, MemoryType};

/// Adds memories of drawn types to the end of `memories`.
#[tactic(auto, unfolding(crate::specs::Definitions::memories_at))]
fn push_memories(
    config: &Config,
    memories: &mut Items<MemoryType>,
    u: &mut Unstructured<'_>,
) -> Result<(), Error>
    requires passes { Passes config.now }
    ensures draws { DrawsInto (memories_at config.now memories.old u.old) memories.new
        result u.old u.new }
    ensures valid { All (IsMemoryValid (features_of config.now)) memories.old
        → OnOk result (All (IsMemoryValid (features_of config.now)) memories.new) }
    ensures within { OnOk result (AreAdded (IsMemoryWithin config.now) memories.old memories.new) }
{
    let before = memories.len();
    let needed = (config.min_memories as usize).saturating_sub(before);
    for made in 0..config.max_memories.saturating_sub(before) {
        if !goes_on(u, made, needed) {
            return Ok(());
        }
        let memory = arbitrary_memtype(config, u)?;
        memories.push(memory)?;
    }
    discard_past_maximum(before, config.max_memories, u);
    Ok(())
}

/// Adds memories to the end of `memories`, until there are at least `min_memories` and at most
/// `max_memories`.
pub(crate) fn define_memories(
    config: &Config,
    memories: &mut Items<MemoryType>,
    u: &mut Unstructured<'_>,
) -> Result<(), Error>
    requires passes { Passes config.now }

    // The draw.
    ensures draws { DrawsInto (memories_at config.now memories.old u.old) memories.new
        result u.old u.new }

    // Validity and bounds.
    ensures filled { OnOk result
        (IsFilled config.now.min_memories config.now.max_memories memories.old memories.new) }
    ensures valid { All (IsMemoryValid (features_of config.now)) memories.old
        → OnOk result (All (IsMemoryValid (features_of config.now)) memories.new) }
    ensures within { OnOk result (AreAdded (IsMemoryWithin config.now) memories.old memories.new) }
    ensures several { (1 < length memories.old → IsTrue (features_of config.now).multi_memory)
        → OnOk result (1 < length memories.new → IsTrue (features_of config.now).multi_memory) }

    // Reach.
    ensures none { config.now.min_memories ≡ 0 → memories.old ≡ [] → OnOk result (Takes
        (SpellsEmpty (SpellsNone config.now.max_memories)) u.old memories.new u.new) }
{
    push_memories(config, memories, u)
}
