ghost use Rattle.std.specs.Prelude.{◌≡◌, [], ◌<◌, ◌^◌, ◌↔◌, true, length, IsTrue, IfOk, IfErr, All};
ghost use Rattle.smith_bytes.specs.Source.{KeepsPieces};
ghost use Rattle.smith_draw_types.specs.Choices.{chosen_at};
ghost use Rattle.smith_draw_consts.specs.ConstScopes.{AreSpacesValid, seen_by};
ghost use Rattle.smith_draw_types.specs.Drawing.{AlwaysDraws};
ghost use Rattle.smith_draw_contents.specs.DataSegments.{may_hold_data_at, counting_at, globals_for};
ghost use Rattle.smith_draw_contents.specs.DataSegments.{no_memory, targets_of};
ghost use Rattle.smith_draw_contents.specs.DataTargets.{AreTargets, indexed};

use crate::offered_indices::OfferedIndices;
use crate::offset_globals::OffsetGlobals;
use smith_bytes::{Error, Unstructured};
use smith_config::Config;
use smith_draw_types::Spaces;
use smith_types::MemoryType;
use std::alloc::Global;
use std::marker::Model;

/// The memories that segments may be copied into, and the globals that offsets may be read from.
#[derive(Drop)]
pub(crate) struct Targets<'a> {
    memories: &'a [MemoryType],
    /// The indices of those of `memories` that segments may be copied into.
    offered: OfferedIndices,
    /// The globals whose value may be the offset into a memory with 32-bit addresses.
    globals32: OffsetGlobals<'a>,
    /// The globals whose value may be the offset into a memory with 64-bit addresses.
    globals64: OffsetGlobals<'a>,
}

impl<'a> Model for Targets<'a> {
    ghost use Rattle.std.specs.Prelude.{◌<◌, length, All};
    ghost use Rattle.smith_draw_contents.specs.DataSegments.{Targets};
    ghost use Rattle.smith_draw_contents.specs.DataTargets.{indexed};

    ghost Value = { Targets };

    ghost view = { λ a. record {
      memories = indexed a.memories.now a.offered.offered;
      globals32 = a.globals32;
      globals64 = a.globals64;
    } };

    ghost invariant = { λ a. All (λ index. index < length a.memories.now) a.offered.offered };
}

impl<'a> Targets<'a> {
    /// Counts the globals of `spaces` that offsets may be read from. Segments may be copied into
    /// those of its memories whose indices are `offered`.
    pub(crate) fn new(
        config: &Config,
        spaces: &'a Spaces<'_>,
        offered: OfferedIndices,
    ) -> Targets<'a>
        requires standing { AreSpacesValid config.now spaces.now }
        requires within { All (λ index. index < length spaces.now.entities.memories.now)
            offered.offered }
        ensures exact { result
            ≡ targets_of config.now (seen_by config.now spaces.now true)
            (indexed spaces.now.entities.memories.now offered.offered) }
        ensures targets { AreTargets config.now
            (seen_by config.now spaces.now true) spaces.now.entities.memories.now result }
    {
        Targets {
            memories: spaces.entities.memories,
            offered,
            globals32: OffsetGlobals::new(config, spaces, false),
            globals64: OffsetGlobals::new(config, spaces, true),
        }
    }

    /// Returns whether there is no memory that segments may be copied into.
    pub(crate) fn is_empty(&self) -> bool
        ensures { IsTrue result ↔ (length self.now.memories ≡ 0) }
    {
        self.offered.is_empty()
    }

    /// Draws a memory that segments may be copied into. Returns its index and its type. Requires at
    /// least one such memory.
    #[tactic(auto, unfolding(smith_draw_types::specs::Choices::chosen_at))]
    pub(crate) fn choose(&self, u: &mut Unstructured<'_>) -> (u32, MemoryType)
        requires { 0 < length self.now.memories }
        ensures { AlwaysDraws (chosen_at no_memory self.now.memories u.old) result u.old u.new }
    {
        let index = self.offered.choose(u);
        (index, self.memories[index as usize])
    }

    /// Returns the globals that an offset may be read from: of 64 bits if `wide` is set, else of 32
    /// bits.
    pub(crate) fn globals_for(&self, wide: bool) -> &OffsetGlobals<'a>
        ensures { result.now ≡ globals_for self.now wide }
    {
        if wide {
            return &self.globals64;
        }
        &self.globals32
    }
}

/// Draws whether segments may be copied into `memory`: yes without a draw if its minimum is above
/// 0, else if a number drawn from 0 to 10 is 0.
#[tactic(auto, unfolding(crate::specs::DataSegments::may_hold_data_at))]
fn is_target(memory: MemoryType, u: &mut Unstructured<'_>) -> bool
    ensures { AlwaysDraws (may_hold_data_at memory u.old) result u.old u.new }
{
    if memory.minimum > 0 {
        return true;
    }
    u.int_in_range(0u32..=10) == 0
}

/// Draws which of `memories` segments may be copied into.
pub(crate) fn offer_memories(
    alloc: Global,
    memories: &[MemoryType],
    u: &mut Unstructured<'_>,
) -> Result<OfferedIndices, Error>
    requires { length memories.now < 2 ^ 32 }
    ensures exact { IfOk result (λ drawn.
        counting_at [] 0 memories.now u.old ≡ (indexed memories.now drawn.offered, u.new)) }
    ensures within { IfOk result (λ drawn.
        All (λ index. index < length memories.now) drawn.offered) }
    ensures memory { IfErr result (λ e. e ≡ Error.Memory) }
    ensures left { KeepsPieces u.old u.new }
{
    let mut offered = OfferedIndices::new(alloc);
    for memory in memories {
        if !is_target(*memory, u) {
            offered.leave_out()?;
            continue;
        }
        offered.offer();
    }
    Ok(offered)
}
