ghost use Rattle.std.specs.Prelude.{◌≡◌, ◌+◌, ◌++◌, ◌∷◌, [], ◌<◌, ◌≤◌, ◌^◌, List, OnOk, IfOk};
ghost use Rattle.std.specs.Prelude.{IfErr, length, All};
ghost use Rattle.smith_bytes.specs.declared.error.Error.TheVariants.{Memory};
ghost use Rattle.smith_types.specs.Syntax.composite_type.SubType.{SubType as Sub};
ghost use Rattle.smith_draw_types.specs.Spelling.{SpellsSubType, SpellsSubTypes};
ghost use Rattle.smith_spell.specs.Family.{IsMemberType};
ghost use Rattle.smith_spell.specs.Written.{Writes, IsSummary, OverSome};

use crate::composite_types::{write_inner, write_plain_function};
use crate::pieces::{write_bool, write_refusal};
use crate::value_types::write_unshared;
use smith_bytes::Error;
use smith_config::Config;
use smith_types::{Items, SubType};

/// A summary of earlier types, which determines the bytes of later types.
#[derive(Clone, Copy)]
pub(crate) struct Before {
    /// The number of these types.
    pub(crate) count: usize,
    /// Whether one of these types may have subtypes.
    pub(crate) has_open: bool,
}

/// Returns the summary `before` with the type `t` added.
fn with_type(before: Before, t: &SubType) -> Before
    requires { before.count + 1 < 2 ^ 64 }
    ensures counted { result.count ≡ before.count + 1 }
    ensures summary { (types : List Sub) → IsSummary types before
        → IsSummary (types ++ t.now ∷ []) result }
{
    Before {
        count: before.count + 1,
        has_open: before.has_open || !t.is_final,
    }
}

/// Writes `t` after the types with the summary `before`. `t` refers only to types below `limit`.
fn write_sub_type(
    config: &Config,
    before: Before,
    limit: usize,
    t: &SubType,
    bytes: &mut Items<u8>,
) -> Result<(), Error>
    requires { OverSome limit (λ types. IsMemberType config.now types t.now) }
    ensures writes { OnOk result ((types : List Sub) → IsSummary types before
        → Writes (SpellsSubType config.now types limit t.now) bytes.old bytes.new) }
    ensures memory { IfErr result (λ e. e ≡ Memory) }
{
    let inner = &t.composite_type.inner;
    if !config.gc_enabled {
        return write_plain_function(config, limit, inner, bytes);
    }
    write_refusal(before.has_open, 32, bytes)?;
    write_bool(t.is_final, bytes)?;
    write_unshared(config, bytes)?;
    write_inner(config, limit, inner, bytes)
}

/// Writes `types` after the types with the summary `before`, and returns the summary of both.
/// `types` refer only to types below `limit`.
pub(crate) fn write_sub_types(
    config: &Config,
    mut before: Before,
    limit: usize,
    types: &[SubType],
    bytes: &mut Items<u8>,
) -> Result<Before, Error>
    requires members { All
        (λ (t : Sub). OverSome limit (λ before. IsMemberType config.now before t)) types.now }
    requires few { before.count + length types.now < 2 ^ 64 }
    ensures writes { OnOk result ((others : List Sub) → IsSummary others before
        → Writes (SpellsSubTypes config.now others limit types.now) bytes.old bytes.new) }
    ensures after { IfOk result (λ after.
        (others : List Sub) → IsSummary others before → IsSummary (others ++ types.now) after) }
    ensures memory { IfErr result (λ e. e ≡ Memory) }
{
    for t in types {
        write_sub_type(config, before, limit, t, bytes)?;
        before = with_type(before, t);
    }
    Ok(before)
}
