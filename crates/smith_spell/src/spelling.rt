ghost use Rattle.std.specs.Prelude.{◌≡◌, ◌≤◌, ◌^◌, [], length, Option, IsOk, IfOk, IfErr, OnErr};
ghost use Rattle.std.specs.Prelude.{MatchOption};
ghost use Rattle.smith_bytes.specs.declared.error.Error.TheVariants.{Memory};
ghost use Rattle.smith_config.specs.Faults.{Passes};
ghost use Rattle.smith_config.specs.InUse.{HasNoShapes};
ghost use Rattle.smith_config.specs.Sanitized.{sanitized};
ghost use Rattle.smith_spell.specs.Family.{IsInFamily};
ghost use Rattle.smith_spell.specs.Spelling.{SpellsMember};
ghost use Rattle.smith_spell.specs.SpellAnswers.{AnswersSpelling};

use crate::family::member_space;
use crate::member::spell_member;
use crate::requirements::requires_nothing;
use smith_bytes::Error;
use smith_config::Config;
use smith_types::{Items, SubType};
use std::alloc::Global;

/// Returns the sanitised `config` if that passes its check, or `None`.
fn passing_config(alloc: Global, config: &Config) -> Result<Option<Config>, Error>
    ensures found { IfOk result (λ found. MatchOption found (¬ Passes (sanitized config.now))
        (λ own. (own ≡ sanitized config.now) × Passes (sanitized config.now))) }
    ensures memory { IfErr result (λ e. e ≡ Memory) }
    ensures shapeless { HasNoShapes config.now → IsOk result }
{
    let mut own = config.clone(alloc)?;
    own.sanitize();
    if own.check().is_err() {
        drop(own);
        return Ok(None);
    }
    Ok(Some(own))
}

/// Returns bytes that spell `groups` and `funcs` if these are in the family of `config`, or `None`.
fn spell_in_family(
    alloc: Global,
    config: &Config,
    groups: &[Items<SubType>],
    funcs: &[u32],
) -> Result<Option<Items<u8>>, Error>
    requires { config.now.max_types ≤ 2 ^ 31 }
    ensures found { IfOk result (λ found.
        MatchOption found (¬ IsInFamily config.now groups.now funcs.now) (λ bytes.
        IsInFamily config.now groups.now funcs.now
        × SpellsMember config.now groups.now funcs.now bytes)) }
    ensures memory { IfErr result (λ e. e ≡ Memory) }
    ensures allowed { OnErr result
        (IsInFamily config.now groups.now [] × (length funcs.now ≤ config.now.max_funcs)) }
{
    let Some(space) = member_space(alloc, config, groups, funcs)? else {
        return Ok(None);
    };
    Ok(Some(spell_member(alloc, config, groups, space.types(), funcs)?))
}

/// Spells `groups` and `funcs`: returns bytes from which a module for `config` has the types and
/// groups of `groups`, and functions with the type indices `funcs`, whatever follows the bytes.
///
/// Returns `None` if no bytes are certain to produce such a module:
///
/// - `config`, once sanitised, fails its check, sets a minimum, has a shape or exports everything;
/// - or `groups` and `funcs` are outside the family of lists that draws reach.
///
/// Types of the family are unshared, have no supertype, and refer only to earlier types. Their
/// references are nullable, unless `config` enables non-nullable ones and an earlier struct type,
/// whose fields all have defaults, is below the heap type of the reference.
///
/// Allocates only if `config` and `groups` allow bytes, and `config` allows as many functions as
/// `funcs` has.
///
/// A byte 1 continues a list; a byte 0 ends it, if it could continue. The bytes clone no group,
/// choose no supertype, import nothing and define no tag.
///
/// # Errors
///
/// Returns [`Error::Memory`] if an allocation fails.
///
/// # Examples
///
/// Adds bytes to a corpus from which modules with the types `groups` and one function of the first
/// type are drawn:
///
/// ```
/// use std::alloc::Global;
/// use wasm_smith::{Config, Error, Items, SubType, spell};
///
/// fn add_seed(
///     alloc: Global,
///     groups: &[Items<SubType>],
///     corpus: &mut Vec<Items<u8>>,
/// ) -> Result<(), Error> {
///     if let Some(seed) = spell(alloc, &Config::default(), groups, &[0])? {
///         corpus.push(seed)?;
///     }
///     Ok(())
/// }
/// ```
pub fn spell(
    alloc: Global,
    config: &Config,
    groups: &[Items<SubType>],
    funcs: &[u32],
) -> Result<Option<Items<u8>>, Error>
    ensures { AnswersSpelling config.now groups.now funcs.now result }
{
    if !requires_nothing(config) {
        return Ok(None);
    }
    let Some(own) = passing_config(alloc, config)? else {
        return Ok(None);
    };
    let bytes = spell_in_family(alloc, &own, groups, funcs);
    drop(own);
    bytes
}
