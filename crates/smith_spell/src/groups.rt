ghost use Rattle.std.specs.Prelude.{◌≡◌, ◌+◌, ◌++◌, ◌-◌, ◌<◌, ◌≤◌, ◌^◌, false, List, [], OnOk};
ghost use Rattle.std.specs.Prelude.{IfOk, IfErr, length, All};
ghost use Rattle.smith_bytes.specs.declared.error.Error.TheVariants.{Memory};
ghost use Rattle.smith_types.specs.Syntax.composite_type.SubType.{SubType as Sub};
ghost use Rattle.smith_types.specs.Groups.{space_of};
ghost use Rattle.smith_draw_types.specs.Spelling.{SpellsSize, SpellsGroup, SpellsGroups};
ghost use Rattle.smith_spell.specs.Family.{IsMemberType};
ghost use Rattle.smith_spell.specs.Written.{Writes, IsSummary, OverSome, AreMembers};

use crate::pieces::{write_bool, write_end, write_number, write_refusal};
use crate::sub_types::{Before, write_sub_types};
use smith_bytes::Error;
use smith_config::Config;
use smith_types::{Items, SubType};

/// Writes the size `size` of a group, which is at most `room`. First writes that no group is
/// cloned, if there is an earlier group (`stands`). Writes nothing without garbage collection.
fn write_size(
    config: &Config,
    stands: bool,
    room: usize,
    size: usize,
    bytes: &mut Items<u8>,
) -> Result<(), Error>
    requires within { size ≤ room }
    requires single { config.now.gc_enabled ≡ false → size ≡ 1 }
    ensures writes { OnOk result (Writes
        (SpellsSize config.now.gc_enabled config.now stands room size) bytes.old bytes.new) }
    ensures memory { IfErr result (λ e. e ≡ Memory) }
{
    if !config.gc_enabled {
        return Ok(());
    }
    write_refusal(stands, 255, bytes)?;
    write_number(size, room, bytes)
}

/// Writes `group` after the types with the summary `before`, and returns the summary of both.
fn write_group(
    config: &Config,
    before: Before,
    stands: bool,
    group: &[SubType],
    bytes: &mut Items<u8>,
) -> Result<Before, Error>
    requires room { before.count + length group.now ≤ config.now.max_types }
    requires single { config.now.gc_enabled ≡ false → length group.now ≡ 1 }
    requires members { All (λ (t : Sub). OverSome (before.count + length group.now)
        (λ types. IsMemberType config.now types t)) group.now }
    ensures writes { OnOk result ((types : List Sub) → IsSummary types before
        → Writes (SpellsGroup config.now types stands group.now) bytes.old bytes.new) }
    ensures after { IfOk result (λ after.
        (types : List Sub) → IsSummary types before → IsSummary (types ++ group.now) after) }
    ensures memory { IfErr result (λ e. e ≡ Memory) }
{
    let room = config.max_types - before.count;
    write_size(config, stands, room, group.len(), bytes)?;
    write_sub_types(config, before, before.count + group.len(), group, bytes)
}

/// Writes `groups`, the groups of a member of the family.
pub(crate) fn write_groups(
    config: &Config,
    groups: &[Items<SubType>],
    bytes: &mut Items<u8>,
) -> Result<(), Error>
    requires single { config.now.gc_enabled ≡ false
        → All (λ (group : List Sub). length group ≡ 1) groups.now }
    requires few { length (space_of groups.now).types ≤ config.now.max_types }
    requires members { AreMembers config.now (space_of groups.now).types }
    ensures writes { OnOk result
        (Writes (SpellsGroups config.now [] false groups.now) bytes.old bytes.new) }
    ensures memory { IfErr result (λ e. e ≡ Memory) }
{
    let mut before = Before {
        count: 0,
        has_open: false,
    };
    let mut stands = false;
    for group in groups {
        write_bool(true, bytes)?;
        before = write_group(config, before, stands, group.as_slice(), bytes)?;
        stands = true;
    }
    write_end(before.count < config.max_types, bytes)
}
