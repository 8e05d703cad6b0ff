ghost use Rattle.std.specs.Prelude.{◌≡◌, ◌&&◌, nat_lt, IfOk, IfErr, OnOk};
ghost use Rattle.std.specs.List.{list_any};
ghost use Rattle.smith_bytes.specs.declared.error.Error.TheVariants.{Memory};
ghost use Rattle.smith_bytes.specs.Spelling.{SpellsAnyByte, Joined, SpellsNone};
ghost use Rattle.smith_types.specs.Groups.{space_of};
ghost use Rattle.smith_draw_types.specs.TypeUses.{is_tag_type};
ghost use Rattle.smith_spell.specs.Family.{IsInFamily};
ghost use Rattle.smith_spell.specs.Spelling.{SpellsMember};
ghost use Rattle.smith_draw_types.specs.SpelledParts.{SpellsNoTag};
ghost use Rattle.smith_spell.specs.Written.{Writes};

use crate::funcs::write_funcs;
use crate::groups::write_groups;
use crate::pieces::{write_end, write_flag};
use smith_bytes::Error;
use smith_config::Config;
use smith_draw_types::{TypeUse, count_types};
use smith_types::{Items, SubType};
use std::alloc::Global;

/// Writes that there is no import, if one is possible, then the flag of the section of imports.
fn write_no_imports(config: &Config, bytes: &mut Items<u8>) -> Result<(), Error>
    ensures writes { OnOk result
        (Writes (Joined (SpellsNone config.now.max_imports) SpellsAnyByte) bytes.old bytes.new) }
    ensures memory { IfErr result (λ e. e ≡ Memory) }
{
    write_end(0 < config.max_imports, bytes)?;
    write_flag(bytes)
}

/// Returns whether a module with the types `types` may have a tag.
fn may_have_tags(config: &Config, types: &[SubType]) -> bool
    ensures { result ≡ (config.now.exceptions_enabled && nat_lt 0 config.now.max_tags
        && list_any is_tag_type types.now) }
{
    if !config.exceptions_enabled {
        return false;
    }
    if config.max_tags == 0 {
        return false;
    }
    count_types(TypeUse::Tag, types) > 0
}

/// Writes that there is no tag, if one is possible.
fn write_no_tag(config: &Config, types: &[SubType], bytes: &mut Items<u8>) -> Result<(), Error>
    ensures writes { OnOk result (Writes (SpellsNoTag config.now types.now) bytes.old bytes.new) }
    ensures memory { IfErr result (λ e. e ≡ Memory) }
{
    write_end(may_have_tags(config, types), bytes)
}

/// Returns bytes that spell `groups` and `funcs`, a member of the family. `types` are the types of
/// `groups`.
pub(crate) fn spell_member(
    alloc: Global,
    config: &Config,
    groups: &[Items<SubType>],
    types: &[SubType],
    funcs: &[u32],
) -> Result<Items<u8>, Error>
    requires member { IsInFamily config.now groups.now funcs.now }
    requires types { types.now ≡ (space_of groups.now).types }
    ensures spelled { IfOk result (SpellsMember config.now groups.now funcs.now) }
    ensures memory { IfErr result (λ e. e ≡ Memory) }
{
    let mut bytes = Items::new(alloc);
    write_groups(config, groups, &mut bytes)?;
    write_no_imports(config, &mut bytes)?;
    write_no_tag(config, types, &mut bytes)?;
    write_funcs(alloc, config, types, funcs, &mut bytes)?;
    Ok(bytes)
}
