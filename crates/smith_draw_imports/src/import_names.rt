ghost use Rattle.std.specs.Prelude.{◌≡◌, ◌++◌, ◌∷◌, [], false, string_bytes, IsTrue, IfOk, IfErr};
ghost use Rattle.std.specs.Prelude.{List};
ghost use Rattle.std.specs.HashSet.{hash_set_len};
ghost use Rattle.std.specs.Fmt.{decimal};
ghost use Rattle.smith_bytes.specs.Source.{KeepsPieces};
ghost use Rattle.smith_types.specs.Syntax.imports.Import.{Import};
ghost use Rattle.smith_draw_imports.specs.ImportNames.{import_name_at, is_taken, has_pair, KnowsPairs};
ghost use Rattle.smith_draw_imports.specs.ImportNames.{AddsPair};
ghost use Rattle.smith_bytes.specs.Names.{IsNewName};

use smith_bytes::{Error, Unstructured, limited_string};
use smith_types::Name;
use std::alloc::Global;
use std::collections::HashSet;
use std::fmt::Write;

/// Creates a pair of `from` and a name that is not in `pairs`. The name is `text`, followed by the
/// number of `pairs` in decimal digits, repeated as often as needed.
fn new_pair(
    pairs: &HashSet<(String, String)>,
    from: String,
    text: String,
) -> Result<(String, String), Error>
    ensures from { IfOk result (λ pair. string_bytes pair.0 ≡ string_bytes from) }
    ensures made { IfOk result (λ pair. IsNewName (has_pair pairs.now (string_bytes from))
        (decimal (hash_set_len pairs.now)) (string_bytes text) (string_bytes pair.1)) }
    ensures memory { IfErr result (λ e. e ≡ Error.Memory) }
{
    let count = pairs.len();
    let mut pair = (from, text);
    while pairs.contains(&pair) {
        write!(pair.1, "{count}")?;
    }
    Ok(pair)
}

/// Creates a name from `text` whose pair with `from` is not in `pairs`, and adds the pair.
fn distinct_name(
    alloc: Global,
    from: &str,
    pairs: &mut HashSet<(String, String)>,
    text: String,
) -> Result<String, Error>
    ensures made { IfOk result (λ name. IsNewName (has_pair pairs.old from.now)
        (decimal (hash_set_len pairs.old)) (string_bytes text) (string_bytes name)) }
    ensures added { IfOk result (λ name.
        AddsPair pairs.old pairs.new from.now (string_bytes name)) }
    ensures memory { IfErr result (λ e. e ≡ Error.Memory) }
{
    let pair = new_pair(pairs, from.to_string(alloc)?, text)?;
    let name = pair.1.clone()?;
    pairs.insert(pair)?;
    Ok(name)
}

/// Draws the name of an import from the module `from`. If `distinct` is set, the pair of both names
/// is not in `pairs` before, and is added to it.
#[tactic(auto, unfolding(crate::specs::ImportNames::import_name_at))]
pub(crate) fn draw_import_name(
    alloc: Global,
    distinct: bool,
    from: &Name,
    pairs: &mut HashSet<(String, String)>,
    u: &mut Unstructured<'_>,
) -> Result<Name, Error>
    ensures exact { (imports : List Import) → KnowsPairs distinct pairs.old imports
        → IfOk result (λ name. import_name_at distinct imports from.now u.old ≡ (name, u.new)) }
    ensures fresh { (imports : List Import) → KnowsPairs distinct pairs.old imports
        → IfOk result (λ name. IsTrue distinct → is_taken imports from.now name ≡ false) }
    ensures pairs { (imports : List Import) (added : Import) → KnowsPairs distinct pairs.old imports
        → IfOk result (λ name. added.«module» ≡ from.now → added.name ≡ name
        → KnowsPairs distinct pairs.new (imports ++ added ∷ [])) }
    ensures memory { IfErr result (λ e. e ≡ Error.Memory) }
    ensures left { KeepsPieces u.old u.new }
{
    let text = limited_string(alloc, 1000, u)?;
    if !distinct {
        return Ok(Name::from_string(text));
    }
    let name = distinct_name(alloc, from.as_str(), pairs, text)?;
    Ok(Name::from_string(name))
}
